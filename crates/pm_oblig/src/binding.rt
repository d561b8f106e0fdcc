//! The command that an action comes to, once its words are replaced.

ghost use Rattle.std.specs.Prelude.{◌≡◌, false, IfOk, IsOk, map};
ghost use Rattle.pm_model.specs.Responses.{bound, command_of, subject_of, process_of, name_of};
ghost use Rattle.pm_oblig.specs.Lists.{has_lists};

use crate::fresh::fresh_name;
use pm_model::{
    Act, Action, Command, EventNames, Memory, Name, NameList, Place, ProcessTerm, Subject, Term,
    TermList,
};

/// The name that the word stands for: a name itself, what the event's user or target is called, or the name that is new.
pub fn name_of(names: &EventNames, fresh: Name, term: &Term) -> Name
    ensures { result ≡ name_of names.now fresh term.now }
{
    match term {
        Term::Named(name) => *name,
        Term::EventUser => names.user,
        Term::EventTarget => names.target,
        Term::Fresh => fresh,
    }
}

fn names_of(names: &EventNames, fresh: Name, terms: &TermList) -> Result<NameList, Memory>
    ensures { IfOk result (λ list. list ≡ map (name_of names.now fresh) terms.now) }
{
    let mut list = NameList::new(terms.allocator());
    for term in terms.as_slice() {
        list.push(name_of(names, fresh, term))?;
    }
    Ok(list)
}

fn process_of(names: &EventNames, process: ProcessTerm) -> u32
    ensures { result ≡ process_of names.now process }
{
    match process {
        ProcessTerm::Number(number) => number,
        ProcessTerm::EventProcess => names.process,
    }
}

fn subject_of(
    names: &EventNames,
    fresh: Name,
    subject: &Subject<Term, ProcessTerm>,
) -> Subject<Name, u32>
    ensures { result ≡ subject_of names.now fresh subject.now }
{
    match subject {
        Subject::User(term) => Subject::User(name_of(names, fresh, term)),
        Subject::Ua(term) => Subject::Ua(name_of(names, fresh, term)),
        Subject::Process(process) => Subject::Process(process_of(names, *process)),
    }
}

fn command_of(names: &EventNames, fresh: Name, act: &Act) -> Result<Command, Memory>
    ensures value { IfOk result (λ command. command ≡ command_of names.now fresh act.now) }
    ensures free { has_lists act.now ≡ false → IsOk result }
{
    let name_of = |term: &Term| name_of(names, fresh, term);
    Ok(match act {
        Act::Create { kind, name, into } => Command::Create {
            kind: *kind,
            name: name_of(name),
            into: name_of(into),
        },
        Act::Delete { name } => Command::Delete {
            name: name_of(name),
        },
        Act::Assign { from, to } => Command::Assign {
            from: name_of(from),
            to: name_of(to),
        },
        Act::Deassign { from, to } => Command::Deassign {
            from: name_of(from),
            to: name_of(to),
        },
        Act::Associate { ua, rights, at } => Command::Associate {
            ua: name_of(ua),
            rights: rights.copy()?,
            at: name_of(at),
        },
        Act::Dissociate { ua, at } => Command::Dissociate {
            ua: name_of(ua),
            at: name_of(at),
        },
        Act::Prohibit {
            name,
            subject,
            rights,
            inc,
            exc,
            mode,
        } => Command::Prohibit {
            name: name_of(name),
            subject: subject_of(names, fresh, subject),
            rights: rights.copy()?,
            inc: names_of(names, fresh, inc)?,
            exc: names_of(names, fresh, exc)?,
            mode: *mode,
        },
        Act::Lift { name } => Command::Lift { name: *name },
    })
}

/// The command that the action gives: each word of the action stands for the event's user, target or process, or for
/// the name that is new at this version and this place. The guards aren't looked at. Only the lists of names of an
/// association and of a prohibition take memory.
pub fn bind(
    action: &Action,
    names: &EventNames,
    place: Place,
    version: u64,
) -> Result<Command, Memory>
    ensures value { IfOk result (λ command. command ≡ bound names.now place version action.now.act) }
    ensures free { has_lists action.now.act ≡ false → IsOk result }
{
    command_of(names, fresh_name(place, version), &action.act)
}
