//! What is known of each operation that some obligation waits for: a filter, which may say yes too often, and never no
//! wrongly. An obligation joins the list once it is known what it waits for, and this stays known where it is withdrawn,
//! which so wants no memory.

ghost use Rattle.std.specs.Prelude.{◌≡◌, ◌<◌, ◌++◌, ◌∷◌, [], List, ℕ, Some, None, true, length, OnOk, OnErr, IfOk, IfSome};
ghost use Rattle.std.specs.List.{position_from};
ghost use Rattle.std.specs.Option.{option_copied};
ghost use Rattle.pm_oblig.specs.Awaited.{is_of, known_of, may_have, has_target, AreKnown, KnowsMore};

use crate::targets::{Targets, add_target};
use pm_model::{ElementId, ItemList, Memory, Name, Obligation, Pattern};
use pm_pages::PageList;
use std::alloc::Global;

/// Whether they are those of the operation.
fn is_of(targets: &Targets, operation: Name) -> bool
    ensures { result ≡ is_of operation targets.now }
{
    targets.operation == operation
}

/// The place of the operation's targets among those of a page.
fn place_among(known: &[Targets], operation: Name) -> Option<usize>
    ensures value { result ≡ position_from (is_of operation) 0 known.now }
    ensures below { IfSome result (λ i. i < length known.now) }
{
    known.iter().position(|targets| is_of(targets, operation))
}

/// The place of the operation's targets.
fn place(known: &PageList<Targets>, operation: Name) -> Option<usize>
    ensures value { result ≡ position_from (is_of operation) 0 known.now.items }
    ensures below { IfSome result (λ i. i < length known.now.items) }
{
    let mut begin = 0;
    while begin < known.len() {
        let run = known.run(begin);
        if let Some(i) = place_among(run, operation) {
            return Some(begin + i);
        }
        begin += run.len();
    }
    None
}

/// The targets of the operation; None where it isn't known.
pub(crate) fn find(known: &PageList<Targets>, operation: Name) -> Option<&Targets>
    ensures { option_copied result ≡ known_of known.now.items operation }
{
    match place(known, operation) {
        Some(i) => Some(known.at(i)),
        None => None,
    }
}

/// Lets one more target of the operation at a place be known.
fn add_at(known: &mut PageList<Targets>, i: usize, target: Option<ElementId>) -> Result<(), Memory>
    requires { i < length known.old.items }
    ensures more { KnowsMore known.old.items known.new.items }
    ensures told { (operation : List ℕ) → position_from (is_of operation) 0 known.old.items ≡ Some i → OnOk result (may_have (known_of known.new.items operation) target ≡ true) }
{
    known.own_at(i)?;
    add_target(known.edit(i), target)
}

/// The targets that the pattern gives.
fn targets_of(alloc: Global, pattern: &Pattern) -> Result<Targets, Memory>
    ensures operation { IfOk result (λ t. t.operation ≡ pattern.now.on) }
    ensures told { IfOk result (λ t. has_target t pattern.now.target ≡ true) }
{
    let mut targets = Targets {
        operation: pattern.on,
        anywhere: false,
        words: ItemList::new(alloc),
    };
    add_target(&mut targets, pattern.target)?;
    Ok(targets)
}

/// Lets an operation that isn't known be known.
fn add_new(known: &mut PageList<Targets>, pattern: &Pattern) -> Result<(), Memory>
    requires { position_from (is_of pattern.now.on) 0 known.old.items ≡ None }
    ensures more { KnowsMore known.old.items known.new.items }
    ensures told { OnOk result (may_have (known_of known.new.items pattern.now.on) pattern.now.target ≡ true) }
{
    let targets = targets_of(known.allocator(), pattern)?;
    known.push(targets)
}

/// Lets it be known what the pattern waits for.
fn make_known(known: &mut PageList<Targets>, pattern: &Pattern) -> Result<(), Memory>
    ensures more { KnowsMore known.old.items known.new.items }
    ensures told { OnOk result (may_have (known_of known.new.items pattern.now.on) pattern.now.target ≡ true) }
{
    match place(known, pattern.on) {
        Some(i) => add_at(known, i, pattern.target),
        None => add_new(known, pattern),
    }
}

/// Puts an obligation behind the others, once it is known what it waits for. After want of memory more may be known.
pub(crate) fn push(
    items: &mut PageList<Obligation>,
    known: &mut PageList<Targets>,
    item: Obligation,
) -> Result<(), Memory>
    requires { AreKnown items.old.items known.old.items }
    ensures known { AreKnown items.new.items known.new.items }
    ensures ok { OnOk result (items.new.items ≡ items.old.items ++ item ∷ []) }
    ensures alone { items.new.alone ≡ items.old.alone }
    ensures err { OnErr result (items.new ≡ items.old) }
{
    make_known(known, &item.pattern)?;
    items.push(item)
}
