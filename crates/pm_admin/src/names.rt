//! A command's names as numbers.
ghost use Rattle.std.specs.Prelude.{◌≡◌, ◌≢◌, Ok, Err, true};
ghost use Rattle.pm_model.specs.Resolve.{look_up, look_up_both, look_up_rights, resolve};
ghost use Rattle.pm_model.specs.State.{root};
ghost use Rattle.pm_admin.specs.Resolved.{Finds, holds_lists};
ghost use Rattle.pm_admin.specs.Rights.{with_named};

use crate::keeping::{drop_review, keep};
use crate::patterns::oblige;
use crate::prohibiting::prohibit;
use pm_model::{Change, ChangeError, Command, ElementId, Kind, Name, NameList, Refusal, Rights};
use pm_state::Graph;

/// The number of the element of a name; `UnknownName` exactly where no element has it.
pub fn look_up(graph: &Graph, name: Name) -> Result<ElementId, Refusal>
    ensures { result ≡ look_up graph.now name }
{
    match graph.elements().find(name) {
        Some(id) => Ok(id),
        None => Err(Refusal::UnknownName { name }),
    }
}

pub(crate) fn look_up_both(
    graph: &Graph,
    first: Name,
    second: Name,
) -> Result<(ElementId, ElementId), Refusal>
    ensures { result ≡ look_up_both graph.now first second }
{
    let x = match look_up(graph, first) {
        Ok(x) => x,
        Err(why) => return Err(why),
    };
    match look_up(graph, second) {
        Ok(y) => Ok((x, y)),
        Err(why) => Err(why),
    }
}

// The set that the rest of the names gives, with the right of this name.
fn with_named(graph: &Graph, name: Name, rest: Result<Rights, Refusal>) -> Result<Rights, Refusal>
    ensures { result ≡ with_named graph.now name rest }
{
    let bit = match graph.right(name) {
        Some(bit) => bit,
        None => return Err(Refusal::UnknownName { name }),
    };
    match rest {
        Ok(rights) => Ok(Rights::one(bit).union(rights)),
        Err(why) => Err(why),
    }
}

// From the last name on, so that the first unknown one is told.
pub(crate) fn look_up_rights(graph: &Graph, names: &NameList) -> Result<Rights, Refusal>
    ensures { result ≡ look_up_rights graph.now names.now }
{
    let mut found = Ok(Rights(0));
    let mut i = names.len();
    while i > 0 {
        i -= 1;
        found = with_named(graph, *names.at(i), found);
    }
    found
}

// Of all commands but to oblige it makes no difference who gives them: so the contracts name the root user.

fn associate(graph: &Graph, ua: Name, rights: &NameList, at: Name) -> Result<Change, Refusal>
    ensures { result ≡ resolve graph.now root (Command.Associate ua rights.now at) }
{
    let ua = match look_up(graph, ua) {
        Ok(ua) => ua,
        Err(why) => return Err(why),
    };
    let rights = match look_up_rights(graph, rights) {
        Ok(rights) => rights,
        Err(why) => return Err(why),
    };
    match look_up(graph, at) {
        Ok(at) => Ok(Change::Associate { ua, rights, at }),
        Err(why) => Err(why),
    }
}

fn create_pc(graph: &Graph, name: Name) -> Change
    ensures { Ok result ≡ resolve graph.now root (Command.CreatePc name) }
{
    Change::Create {
        id: graph.elements().unused(),
        kind: Kind::Pc,
        name,
        into: None,
    }
}

fn create(graph: &Graph, kind: Kind, name: Name, into: Name) -> Result<Change, Refusal>
    ensures { result ≡ resolve graph.now root (Command.Create kind name into) }
{
    match look_up(graph, into) {
        Ok(container) => Ok(Change::Create {
            id: graph.elements().unused(),
            kind,
            name,
            into: Some(container),
        }),
        Err(why) => Err(why),
    }
}

fn delete(graph: &Graph, name: Name) -> Result<Change, Refusal>
    ensures { result ≡ resolve graph.now root (Command.Delete name) }
{
    match look_up(graph, name) {
        Ok(id) => Ok(Change::Delete { id }),
        Err(why) => Err(why),
    }
}

fn assign(graph: &Graph, from: Name, to: Name) -> Result<Change, Refusal>
    ensures { result ≡ resolve graph.now root (Command.Assign from to) }
{
    match look_up_both(graph, from, to) {
        Ok((from, to)) => Ok(Change::Assign { from, to }),
        Err(why) => Err(why),
    }
}

fn deassign(graph: &Graph, from: Name, to: Name) -> Result<Change, Refusal>
    ensures { result ≡ resolve graph.now root (Command.Deassign from to) }
{
    match look_up_both(graph, from, to) {
        Ok((from, to)) => Ok(Change::Deassign { from, to }),
        Err(why) => Err(why),
    }
}

fn dissociate(graph: &Graph, ua: Name, at: Name) -> Result<Change, Refusal>
    ensures { result ≡ resolve graph.now root (Command.Dissociate ua at) }
{
    match look_up_both(graph, ua, at) {
        Ok((ua, at)) => Ok(Change::Dissociate { ua, at }),
        Err(why) => Err(why),
    }
}

fn lift(graph: &Graph, name: Name) -> Result<Change, Refusal>
    ensures { result ≡ resolve graph.now root (Command.Lift name) }
{
    match graph.deny().find(name) {
        Some(index) => Ok(Change::Lift { index }),
        None => Err(Refusal::UnknownName { name }),
    }
}

fn withdraw(graph: &Graph, name: Name) -> Result<Change, Refusal>
    ensures { result ≡ resolve graph.now root (Command.Withdraw name) }
{
    match graph.obligations().find(name) {
        Some(index) => Ok(Change::Withdraw { index }),
        None => Err(Refusal::UnknownName { name }),
    }
}

// A look-up that took no memory.
fn found(change: Result<Change, Refusal>) -> Result<Change, ChangeError>
    ensures value { Finds change result }
    ensures free { result ≢ Err ChangeError.Memory }
{
    match change {
        Ok(change) => Ok(change),
        Err(why) => Err(ChangeError::Refused(why)),
    }
}

/// The change that a user's command names in this graph, or the first name or number that is unknown
/// there, in the order of the command's fields. Only the sets of a prohibition and a response
/// take memory.
pub(crate) fn resolve(
    graph: &Graph,
    user: ElementId,
    command: &Command,
) -> Result<Change, ChangeError>
    ensures value { Finds (resolve graph.now user command.now) result }
    ensures free { result ≡ Err ChangeError.Memory → holds_lists command.now ≡ true }
{
    match command {
        Command::CreatePc { name } => Ok(create_pc(graph, *name)),
        Command::Create { kind, name, into } => found(create(graph, *kind, *name, *into)),
        Command::Delete { name } => found(delete(graph, *name)),
        Command::Assign { from, to } => found(assign(graph, *from, *to)),
        Command::Deassign { from, to } => found(deassign(graph, *from, *to)),
        Command::Associate { ua, rights, at } => found(associate(graph, *ua, rights, *at)),
        Command::Dissociate { ua, at } => found(dissociate(graph, *ua, *at)),
        Command::Prohibit {
            name,
            subject,
            rights,
            inc,
            exc,
            mode,
        } => prohibit(graph, *name, *subject, rights, inc, exc, *mode),
        Command::Lift { name } => found(lift(graph, *name)),
        Command::DefineRight { name } => Ok(Change::DefineRight { name: *name }),
        Command::Oblige {
            name,
            when,
            response,
        } => oblige(graph, user, *name, when, response),
        Command::Withdraw { name } => found(withdraw(graph, *name)),
        Command::Keep { of } => found(keep(graph, *of)),
        Command::DropReview { review } => found(drop_review(graph, *review)),
    }
}
