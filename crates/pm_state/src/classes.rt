//! The policy classes, by rising number.

ghost use Rattle.std.specs.Prelude.{◌≡◌, ◌<◌, ◌≤◌, length, insert, OnOk, OnErr, IfOk};
ghost use Rattle.std.specs.List.{remove};
ghost use Rattle.pm_state.specs.Classes.{placed_number, without_number};

use pm_model::{ClassList, ElementId, Memory};

/// The place where the number would stand: before the first higher one.
fn place_of(classes: &ClassList, id: ElementId) -> usize
    ensures within { result ≤ length classes.now }
    ensures place { insert classes.now result id ≡ placed_number id classes.now }
{
    for i in 0..classes.len() {
        if id.number() < classes.at(i).number() {
            return i;
        }
    }
    classes.len()
}

/// Puts the number of a new policy class at its place, and tells the place.
pub(crate) fn place(classes: &mut ClassList, id: ElementId) -> Result<usize, Memory>
    ensures ok { OnOk result (classes.new ≡ placed_number id classes.old) }
    ensures back { IfOk result (λ i. (i < length classes.new) × (remove classes.new i ≡ classes.old)) }
    ensures err { OnErr result (classes.new ≡ classes.old) }
{
    let i = place_of(classes, id);
    match classes.insert(i, id) {
        Ok(()) => Ok(i),
        Err(Memory) => Err(Memory),
    }
}

/// Takes the number out of the list, where it stands there. It takes no memory.
pub(crate) fn take_out(classes: &mut ClassList, id: ElementId)
    ensures { classes.new ≡ without_number id classes.old }
{
    classes.retain(|class| *class != id);
}
