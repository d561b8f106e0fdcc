//! The names of an obligation that is to be made.
ghost use Rattle.std.specs.Prelude.{◌≡◌};
ghost use Rattle.pm_model.specs.Resolve.{look_up_if, look_up_when, resolve};
ghost use Rattle.pm_model.specs.declared.requests.Command.TheVariants as command;
ghost use Rattle.pm_admin.specs.Resolved.{Finds};

use crate::names::look_up;
use crate::operations::look_up_operation;
use pm_model::{
    Awaited, Change, ChangeError, ElementId, Memory, Name, Obligation, Pattern, Refusal, Response,
    When,
};
use pm_state::Graph;

fn look_up_if(graph: &Graph, name: Option<Name>) -> Result<Option<ElementId>, Refusal>
    ensures { result ≡ look_up_if graph.now name }
{
    match name {
        None => Ok(None),
        Some(name) => match look_up(graph, name) {
            Ok(id) => Ok(Some(id)),
            Err(why) => Err(why),
        },
    }
}

fn look_up_when(graph: &Graph, when: &When) -> Result<Pattern, Refusal>
    ensures { result ≡ look_up_when graph.now when.now }
{
    let on = match look_up_operation(graph, when.on) {
        Ok(on) => on,
        Err(why) => return Err(why),
    };
    let user = match look_up_if(graph, when.user) {
        Ok(user) => user,
        Err(why) => return Err(why),
    };
    let target = match look_up_if(graph, when.target) {
        Ok(target) => target,
        Err(why) => return Err(why),
    };
    Ok(Pattern { on, user, target })
}

/// The obligation that a command names, with the user as its author, as a change.
pub(crate) fn oblige(
    graph: &Graph,
    user: ElementId,
    name: Name,
    when: &Awaited,
    response: &Response,
) -> Result<Change, ChangeError>
    ensures { Finds (resolve graph.now user (command.Oblige name when.now response.now)) result }
{
    let pattern = match look_up_when(graph, when.when()) {
        Ok(pattern) => pattern,
        Err(why) => return Err(ChangeError::Refused(why)),
    };
    let response = match response.copy() {
        Ok(response) => response,
        Err(Memory) => return Err(ChangeError::Memory),
    };
    let item = Obligation {
        name,
        author: user,
        pattern,
        response,
    };
    Ok(Change::Oblige { item })
}
