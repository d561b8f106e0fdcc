//! Each call once with memory enough, with answers worked out by hand. What each change is refused for, the
//! requests of the crate above show.

ghost use Rattle.std.specs.Prelude.{◌≡◌, ◌+◌, [], None, Ok};
ghost use Rattle.pm_model.specs.Effect.{effect};
ghost use Rattle.pm_model.specs.Formed.{AreNamed, IsLive, IsNamed};
ghost use Rattle.pm_affect.specs.Counting.{Work, capped, work_for};
ghost use Rattle.pm_state.specs.Drafted.{done_in};

use pm_model::{
    Bars, Body, Change, ChangeError, ChangeList, ElementId, Entry, Grows, Kind, Made, Name, NameOf,
    PairList, Reach, Refusal, Request, ReviewOf, Rights,
};
use pm_state::{Draft, Graph, State};
use std::alloc::Global;
use std::process::Abort;

// The opening has the class `pm` 0, the user attribute `pm_admins` 1, the user `root` 2, its session 0 and
// its process 0.
const PM: ElementId = ElementId(0);

const ADMINS: ElementId = ElementId(1);

const ROOT: ElementId = ElementId(2);

fn named(rt: &impl Abort, text: &str) -> Name {
    Name::new(text.as_bytes()).expect(rt, "a name")
}

/// An entry of the seat by which a process starts in session 0.
fn start_by(seat: u32) -> Entry
    ensures { result ≡ record { seat = seat; nth = 1; request = record { after = None; body = Body.StartProcess 0 } } }
{
    let body = Body::StartProcess { session: 0 };
    Entry {
        seat,
        nth: 1,
        request: Request { after: None, body },
    }
}

/// The number of the process that was started, if one was.
fn started(answer: Result<Made, ChangeError>) -> Option<u32> {
    match answer {
        Ok(Made::Process(number)) => Some(number),
        _ => None,
    }
}

/// Starts a process in session 0, which leaves the kept reviews.
fn start(state: &mut State, seat: u32) -> Option<u32> {
    state.given();
    let _version = state.version();
    let change = Change::StartProcess { session: 0 };
    match state.leaves_reviews(&change) {
        Ok(true) => started(state.enter(&change, start_by(seat))),
        _ => None,
    }
}

/// The seat of the entry at a place.
fn seat_at(state: &State, i: u64) -> Option<u32> {
    let entry = state.entry(i)?;
    Some(entry.seat)
}

// Want of memory ends a test at once: so there is one way out, where the state is dropped. A function has one state of its
// own at a time, since a proof gets long where two are dropped.
fn opening(rt: &(impl Abort + Alloc<A = Global>)) -> State {
    State::opening(rt.alloc()).expect(rt, "memory")
}

/// A copy that shares what the state has.
fn copied(rt: &impl Abort, state: &mut State) -> State {
    state.share().expect(rt, "memory");
    state.copy().expect(rt, "memory")
}

/// Starts a process once the state is copied, and tells the copy's version then.
fn start_beside_a_copy(rt: &impl Abort, state: &mut State) -> (Option<u32>, u64) {
    let copy = copied(rt, state);
    (start(state, 4), copy.version())
}

#[test]
fn an_accepted_change_is_an_entry(rt: HostRuntime) {
    let mut state = opening(&rt);
    assert_eq!(rt; start_beside_a_copy(&rt, &mut state), (Some(1), 0));
    assert_eq!(rt; state.version(), 1);
    assert_eq!(rt; state.grown(), 1);
    assert_eq!(rt; seat_at(&state, 0), Some(4));
}

fn unkept(rt: &impl Abort, graph: &Graph)
    ensures { graph.now.kept ≡ [] }
{
    assert!(rt; graph.kept().is_empty());
}

/// Starts a process in the draft.
fn start_drafted(rt: &impl Abort, draft: &mut Draft)
    requires { IsNamed draft.old.graph (Change.StartProcess 0) }
    ensures graph { effect draft.old.graph (Change.StartProcess 0) ≡ Ok draft.new.graph }
    ensures history { draft.new.history ≡ draft.old.history }
    ensures done { (w : Work) → done_in draft.new w ≡ capped (done_in draft.old w + work_for w draft.old.graph (Change.StartProcess 0)) }
{
    let change = Change::StartProcess { session: 0 };
    let started = draft.change(&change).ok();
    started.expect(rt, "a process");
}

/// The state once a process is started in a draft, where no review is kept.
fn drafted(rt: &impl Abort, state: &State) -> State {
    unkept(rt, state.graph());
    state.given();
    state.replayed();
    let _version = state.version();
    let mut draft = state.draft().expect(rt, "memory");
    start_drafted(rt, &mut draft);
    draft.finish(start_by(4)).expect(rt, "a state")
}

/// The seat of the first entry of the state that the draft ends as.
fn seat_drafted(rt: &impl Abort, state: &State) -> Option<u32> {
    let next = drafted(rt, state);
    seat_at(&next, 0)
}

#[test]
fn a_draft_is_finished_as_the_next_state(rt: HostRuntime) {
    let state = opening(&rt);
    assert_eq!(rt; seat_drafted(&rt, &state), Some(4));
    assert_eq!(rt; state.version(), 0);
}

/// There are three elements, one of them a class, no association and no prohibition.
fn has_sizes(graph: &Graph) -> bool {
    graph.elements().len() == 3
        && graph.classes().len() == 1
        && graph.assoc().len() == 0
        && graph.deny().len() == 0
}

fn live(rt: &impl Abort, graph: &Graph, id: ElementId)
    ensures { IsLive graph.now.elements id }
{
    assert!(rt; graph.elements().live(id));
}

/// The rights by name, and the names of rights and elements.
fn has_names(rt: &impl Abort, graph: &Graph) -> bool {
    live(rt, graph, ROOT);
    let read = named(rt, "read");
    graph.name_of(ROOT) == named(rt, "root")
        && graph.right(read) == Some(0)
        && graph.right_name(0) == Some(read)
}

/// Whether root is contained in `pm`, by the rows and by who asks them.
fn root_is_in_pm(rt: &impl Abort, graph: &Graph) -> (bool, bool) {
    live(rt, graph, ROOT);
    live(rt, graph, PM);
    let told = graph.rows().contains(ROOT, PM);
    (told, graph.reach().contains(ROOT, PM))
}

#[test]
fn tables_of_the_opening(rt: HostRuntime) {
    let state = opening(&rt);
    let graph = state.graph();
    assert!(rt; has_sizes(graph));
    assert!(rt; has_names(&rt, graph));
    assert_eq!(rt; root_is_in_pm(&rt, graph), (true, true));
}

/// A user in `pm_admins`, made in the draft.
fn user(rt: &impl Abort, draft: &mut Draft, text: &str) -> ElementId {
    let id = draft.graph().elements().unused();
    live(rt, draft.graph(), ADMINS);
    let change = Change::Create {
        id,
        kind: Kind::User,
        name: named(rt, text),
        into: Some(ADMINS),
    };
    assert!(rt; draft.change(&change).is_ok());
    id
}

/// The number under which the user's capabilities are kept, if they are.
fn keep(rt: &impl Abort, draft: &mut Draft, user: ElementId) -> Option<u32> {
    live(rt, draft.graph(), user);
    let of = ReviewOf::Caps(user);
    match draft.change(&Change::Keep { of }) {
        Ok(Made::Review(number)) => Some(number),
        _ => None,
    }
}

fn drop_review(rt: &impl Abort, draft: &mut Draft, review: u32) -> bool {
    assert!(rt; draft.graph().kept().of(review).is_some());
    draft.change(&Change::DropReview { review }).is_ok()
}

fn delete(rt: &impl Abort, draft: &mut Draft, id: ElementId) -> &'static str {
    live(rt, draft.graph(), id);
    match draft.change(&Change::Delete { id }) {
        Ok(_) => "deleted",
        Err(ChangeError::Refused(Refusal::InUse)) => "in use",
        Err(_) => "another",
    }
}

/// Makes version 5 the last that changed the first kept review, and tells what is then kept of it.
fn last_set(rt: &(impl Abort + Alloc<A = Global>), draft: &mut Draft) -> Option<u64> {
    assert!(rt; draft.graph().kept().len() > 0);
    draft.set_last(0, 5, ChangeList::new(rt.alloc()));
    let (at, _) = draft.graph().kept().last(0)?;
    Some(at)
}

/// Keeps the user's capabilities, and tells what becomes of a deletion then.
fn delete_kept(
    rt: &(impl Abort + Alloc<A = Global>),
    draft: &mut Draft,
    user: ElementId,
) -> &'static str {
    assert_eq!(rt; keep(rt, draft, user), Some(0));
    assert_eq!(rt; last_set(rt, draft), Some(5));
    delete(rt, draft, user)
}

/// Drops the first kept review, and tells what becomes of a deletion then.
fn delete_dropped(rt: &impl Abort, draft: &mut Draft, user: ElementId) -> &'static str {
    assert!(rt; drop_review(rt, draft, 0));
    delete(rt, draft, user)
}

/// What becomes of the deletion of a user whose capabilities are kept, and of the next once they are not.
fn deletions(
    rt: &(impl Abort + Alloc<A = Global>),
    draft: &mut Draft,
) -> (&'static str, &'static str) {
    let ann = user(rt, draft, "ann");
    let kept = delete_kept(rt, draft, ann);
    (kept, delete_dropped(rt, draft, ann))
}

fn opening_draft(rt: &(impl Abort + Alloc<A = Global>)) -> Draft {
    let state = opening(rt);
    state.draft().expect(rt, "memory")
}

#[test]
fn what_a_kept_review_is_of_is_in_use(rt: HostRuntime) {
    let mut draft = opening_draft(&rt);
    assert!(rt; draft.keeps_names());
    assert_eq!(rt; deletions(&rt, &mut draft), ("in use", "deleted"));
    assert!(rt; !draft.keeps_names());
}

/// There is a right of bit 0.
fn first_right(rt: &impl Abort, graph: &Graph)
    ensures { AreNamed graph.now.rights 1 }
{
    let _name = graph.right_name(0).expect(rt, "a right");
}

/// Gives whoever is in `pm_admins` the right of bit 0 on what is in it.
fn associate(rt: &impl Abort, draft: &mut Draft) {
    live(rt, draft.graph(), ADMINS);
    first_right(rt, draft.graph());
    let change = Change::Associate {
        ua: ADMINS,
        rights: Rights(1),
        at: ADMINS,
    };
    assert!(rt; draft.change(&change).is_ok());
}

/// Takes it away.
fn dissociate(rt: &impl Abort, draft: &mut Draft) {
    live(rt, draft.graph(), ADMINS);
    let change = Change::Dissociate {
        ua: ADMINS,
        at: ADMINS,
    };
    assert!(rt; draft.change(&change).is_ok());
}

/// The number and the rights of a pair of the list; zeros where there is none.
fn pair_at(list: &PairList, i: usize) -> (u32, u64) {
    match list.get(i) {
        Some(pair) => (pair.element.number(), pair.rights.0),
        None => (0, 0),
    }
}

/// How many pairs the kept list of root's capabilities has, and the first two.
fn root_list(rt: &impl Abort, draft: &Draft) -> (usize, (u32, u64), (u32, u64)) {
    let lists = draft.lists().expect(rt, "memory");
    let list = lists.list(&ReviewOf::Caps(ROOT)).expect(rt, "a list");
    (list.len(), pair_at(list, 0), pair_at(list, 1))
}

#[test]
fn a_kept_list_follows_associations(rt: HostRuntime) {
    let mut draft = opening_draft(&rt);
    assert_eq!(rt; keep(&rt, &mut draft, ROOT), Some(0));
    associate(&rt, &mut draft);
    assert_eq!(rt; root_list(&rt, &draft), (2, (1, 1), (2, 1)));
    dissociate(&rt, &mut draft);
    assert_eq!(rt; root_list(&rt, &draft), (0, (0, 0), (0, 0)));
}
