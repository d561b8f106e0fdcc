//! Walks over all sessions or processes, page by page.

ghost use Rattle.std.specs.Prelude.{◌≡◌, ◌++◌, true, OnOk, IfOk, IsOk, filter, map, not};
ghost use Rattle.std.specs.List.{list_any};
ghost use Rattle.pm_model.specs.Sessions.{is_session_of, is_of_session};
ghost use Rattle.pm_model.specs.declared.sessions.Process.{Process};
ghost use Rattle.pm_pages.specs.Paged.{OwnWhere};

use pm_model::{ElementId, ItemList, Memory, Process, Session};
use pm_pages::PageList;

fn is_user_among(sessions: &[Session], user: ElementId) -> bool
    ensures { result ≡ list_any (is_session_of user) sessions.now }
{
    sessions.iter().any(|session| session.user == user)
}

/// Whether one of the sessions is of the user.
pub(crate) fn has_session(sessions: &PageList<Session>, user: ElementId) -> bool
    ensures { result ≡ list_any (is_session_of user) sessions.now.items }
{
    let mut begin = 0;
    while begin < sessions.len() {
        let run = sessions.run(begin);
        if is_user_among(run, user) {
            return true;
        }
        begin += run.len();
    }
    false
}

/// Puts the numbers of those of the processes that are of the session behind the numbers.
fn push_numbers(
    numbers: &mut ItemList<u32>,
    processes: &[Process],
    session: u32,
) -> Result<(), Memory>
    ensures { OnOk result (numbers.new ≡ numbers.old ++ map (λ (p : Process). p.number) (filter (is_of_session session) processes.now)) }
{
    for process in processes {
        if process.session == session {
            numbers.push(process.number)?;
        }
    }
    Ok(())
}

/// The numbers of the processes of the session.
pub(crate) fn numbers_of(
    processes: &PageList<Process>,
    session: u32,
) -> Result<ItemList<u32>, Memory>
    ensures { IfOk result (λ numbers. numbers ≡ map (λ (p : Process). p.number) (filter (is_of_session session) processes.now.items)) }
{
    let mut numbers = ItemList::new(processes.allocator());
    let mut begin = 0;
    while begin < processes.len() {
        let run = processes.run(begin);
        push_numbers(&mut numbers, run, session)?;
        begin += run.len();
    }
    Ok(numbers)
}

/// Makes ready that the processes of the session are taken out.
pub(crate) fn own_processes(processes: &mut PageList<Process>, session: u32) -> Result<(), Memory>
    ensures items { processes.new.items ≡ processes.old.items }
    ensures alone { processes.new.alone ≡ processes.old.alone }
    ensures ok { OnOk result (OwnWhere (is_of_session session) processes.new) }
    ensures sure { processes.old.alone ≡ true → IsOk result }
{
    processes.own_where(&|process: &Process| process.session == session)
}

/// Takes the processes of the session out.
pub(crate) fn remove_processes(processes: &mut PageList<Process>, session: u32)
    requires { OwnWhere (is_of_session session) processes.old }
    ensures items { processes.new.items ≡ filter (λ p. not (is_of_session session p)) processes.old.items }
    ensures alone { processes.new.alone ≡ processes.old.alone }
{
    processes.remove_where(&|process: &Process| process.session == session);
}
