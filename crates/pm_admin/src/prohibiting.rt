//! The names and numbers of a prohibition that is to be made.
ghost use Rattle.std.specs.Prelude.{◌≡◌};
ghost use Rattle.pm_model.specs.Resolve.{look_up_all, look_up_process, look_up_subject, resolve};
ghost use Rattle.pm_model.specs.State.{root};
ghost use Rattle.pm_model.specs.declared.requests.Command.TheVariants as command;
ghost use Rattle.pm_admin.specs.Resolved.{Finds};

use crate::names::{look_up, look_up_rights};
use pm_model::{
    Change, ChangeError, ElementId, Memory, Mode, Name, NameList, PlaceList, Prohibition, Refusal,
    Subject,
};
use pm_state::Graph;

fn look_up_process(graph: &Graph, process: u32) -> Result<u32, Refusal>
    ensures { result ≡ look_up_process graph.now process }
{
    if graph.procs().process_live(process) {
        Ok(process)
    } else {
        Err(Refusal::UnknownProcess)
    }
}

fn look_up_subject(
    graph: &Graph,
    subject: Subject<Name, u32>,
) -> Result<Subject<ElementId, u32>, Refusal>
    ensures { result ≡ look_up_subject graph.now subject }
{
    match subject {
        Subject::User(name) => match look_up(graph, name) {
            Ok(id) => Ok(Subject::User(id)),
            Err(why) => Err(why),
        },
        Subject::Ua(name) => match look_up(graph, name) {
            Ok(id) => Ok(Subject::Ua(id)),
            Err(why) => Err(why),
        },
        Subject::Process(process) => match look_up_process(graph, process) {
            Ok(process) => Ok(Subject::Process(process)),
            Err(why) => Err(why),
        },
    }
}

pub(crate) fn look_up_all(graph: &Graph, names: &NameList) -> Result<PlaceList, ChangeError>
    ensures { Finds (look_up_all graph.now names.now) result }
{
    let mut places = PlaceList::new(names.allocator());
    for i in 0..names.len() {
        let place = match look_up(graph, *names.at(i)) {
            Ok(place) => place,
            Err(why) => return Err(ChangeError::Refused(why)),
        };
        match places.push(place) {
            Ok(()) => {}
            Err(Memory) => return Err(ChangeError::Memory),
        }
    }
    Ok(places)
}

/// The prohibition that a command names, as a change.
pub(crate) fn prohibit(
    graph: &Graph,
    name: Name,
    subject: Subject<Name, u32>,
    rights: &NameList,
    inc: &NameList,
    exc: &NameList,
    mode: Mode,
) -> Result<Change, ChangeError>
    ensures { Finds (resolve graph.now root (command.Prohibit name subject rights.now inc.now exc.now mode)) result }
{
    let subject = match look_up_subject(graph, subject) {
        Ok(subject) => subject,
        Err(why) => return Err(ChangeError::Refused(why)),
    };
    let rights = match look_up_rights(graph, rights) {
        Ok(rights) => rights,
        Err(why) => return Err(ChangeError::Refused(why)),
    };
    let inc = match look_up_all(graph, inc) {
        Ok(inc) => inc,
        Err(ChangeError::Refused(why)) => return Err(ChangeError::Refused(why)),
        Err(ChangeError::Memory) => return Err(ChangeError::Memory),
    };
    let exc = match look_up_all(graph, exc) {
        Ok(exc) => exc,
        Err(ChangeError::Refused(why)) => return Err(ChangeError::Refused(why)),
        Err(ChangeError::Memory) => return Err(ChangeError::Memory),
    };
    let item = Prohibition {
        name,
        subject,
        rights,
        inc,
        exc,
        mode,
    };
    Ok(Change::Prohibit { item })
}
