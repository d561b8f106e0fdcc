//! What is asked of one prohibition, and a list of them sought through or thinned out.

ghost use Rattle.std.specs.Prelude.{◌≡◌, ◌==◌, ◌||◌, ◌<◌, ◌≤◌, true, Some, OnOk, OnErr, IfOk, IfSome, IsOk, length, slice_get};
ghost use Rattle.std.specs.List.{list_any, remove};
ghost use Rattle.pm_model.specs.Prohibitions.{is_called, place_called, has_empty_range, is_process_in, is_subject, names_element, without_processes};
ghost use Rattle.pm_pages.specs.Paged.{OwnWhere};
ghost use Rattle.pm_deny.specs.Ended.{is_on};

use pm_model::{ElementId, Memory, Name, PlaceList, Prohibition, Subject};
use pm_pages::PageList;

/// Whether the prohibition has the name.
fn is_called(item: &Prohibition, name: Name) -> bool
    ensures { result ≡ is_called name item.now }
{
    name == item.name
}

/// The place of the prohibition of the name among those of a page.
fn place_among(items: &[Prohibition], name: Name) -> Option<usize>
    ensures value { result ≡ place_called items.now name }
    ensures below { IfSome result (λ i. i < length items.now) }
{
    items.iter().position(|item| is_called(item, name))
}

/// The place of the prohibition of the name.
pub(crate) fn place(items: &PageList<Prohibition>, name: Name) -> Option<usize>
    ensures value { result ≡ place_called items.now.items name }
    ensures below { IfSome result (λ i. i < length items.now.items) }
{
    let mut begin = 0;
    while begin < items.len() {
        let run = items.run(begin);
        if let Some(i) = place_among(run, name) {
            return Some(begin + i);
        }
        begin += run.len();
    }
    None
}

/// Whether neither set has an element.
pub(crate) fn has_empty_range(item: &Prohibition) -> bool
    ensures { result ≡ has_empty_range item.now }
{
    item.inc.len() == 0 && item.exc.len() == 0
}

/// Whether the element is among the places.
fn is_among(places: &PlaceList, id: ElementId) -> bool
    ensures { result ≡ list_any (λ n. n == id) places.now }
{
    places.as_slice().iter().any(|place| *place == id)
}

/// Whether the subject is the element.
fn is_subject(subject: Subject<ElementId, u32>, id: ElementId) -> bool
    ensures { result ≡ is_subject id subject }
{
    match subject {
        Subject::User(user) => user == id,
        Subject::Ua(ua) => ua == id,
        Subject::Process(_) => false,
    }
}

/// Whether the element is the subject or in the inclusion set.
fn is_subject_or_included(item: &Prohibition, id: ElementId) -> bool
    ensures { result ≡ (is_subject id item.now.subject || list_any (λ n. n == id) item.now.inc) }
{
    is_subject(item.subject, id) || is_among(&item.inc, id)
}

/// Whether the element is the subject or in one of the sets.
fn names_element(item: &Prohibition, id: ElementId) -> bool
    ensures { result ≡ names_element id item.now }
{
    is_subject_or_included(item, id) || is_among(&item.exc, id)
}

/// Whether some prohibition of a page names the element.
fn is_named_among(items: &[Prohibition], id: ElementId) -> bool
    ensures { result ≡ list_any (names_element id) items.now }
{
    items.iter().any(|item| names_element(item, id))
}

/// Whether some prohibition names the element.
pub(crate) fn is_named(items: &PageList<Prohibition>, id: ElementId) -> bool
    ensures { result ≡ list_any (names_element id) items.now.items }
{
    let mut begin = 0;
    while begin < items.len() {
        let run = items.run(begin);
        if is_named_among(run, id) {
            return true;
        }
        begin += run.len();
    }
    false
}

/// Whether the process is among the numbers.
fn has_number(ended: &[u32], process: u32) -> bool
    ensures { result ≡ list_any (λ m. m == process) ended.now }
{
    ended.iter().any(|number| *number == process)
}

/// Whether the subject is one of the processes.
fn is_process_in(ended: &[u32], subject: Subject<ElementId, u32>) -> bool
    ensures { result ≡ is_process_in ended.now subject }
{
    match subject {
        Subject::Process(process) => has_number(ended, process),
        _ => false,
    }
}

/// Makes ready that the prohibitions on these processes go.
pub(crate) fn own_processes(items: &mut PageList<Prohibition>, ended: &[u32]) -> Result<(), Memory>
    ensures items { items.new.items ≡ items.old.items }
    ensures alone { items.new.alone ≡ items.old.alone }
    ensures ok { OnOk result (OwnWhere (is_on ended.now) items.new) }
    ensures sure { items.old.alone ≡ true → IsOk result }
{
    items.own_where(&|item: &Prohibition| is_process_in(ended, item.subject))
}

/// Takes the prohibitions on these processes away.
pub(crate) fn drop_processes(items: &mut PageList<Prohibition>, ended: &[u32])
    requires { OwnWhere (is_on ended.now) items.old }
    ensures left { items.new.items ≡ without_processes ended.now items.old.items }
    ensures fewer { length items.new.items ≤ length items.old.items }
    ensures alone { items.new.alone ≡ items.old.alone }
{
    items.remove_where(&|item: &Prohibition| is_process_in(ended, item.subject));
}

/// Takes the prohibition at a place out.
pub(crate) fn take(items: &mut PageList<Prohibition>, i: usize) -> Result<Prohibition, Memory>
    requires { i < length items.old.items }
    ensures item { IfOk result (λ item. slice_get items.old.items i ≡ Some item) }
    ensures rest { OnOk result (items.new.items ≡ remove items.old.items i) }
    ensures alone { items.new.alone ≡ items.old.alone }
    ensures sure { items.old.alone ≡ true → IsOk result }
    ensures err { OnErr result (items.new.items ≡ items.old.items) }
{
    items.own_at(i)?;
    Ok(items.remove(i))
}
