//! The table: live sessions and processes, and the next number of each.

ghost use Rattle.std.specs.Prelude.{◌≡◌, ◌≢◌, true, None, OnOk, OnErr, IfOk, IfErr, length, option_map, slice_get};
ghost use Rattle.std.specs.List.{list_any};
ghost use Rattle.pm_model.specs.Effect.{IsCause};
ghost use Rattle.pm_model.specs.Formed.{AreNumbered, HasNext};
ghost use Rattle.pm_model.specs.Results.{first_of};
ghost use Rattle.pm_model.specs.Sessions.{is_session, is_session_of, is_process, user_of, processes_of, opening_procs, open_checks, close_checks, start_checks, end_checks, with_session, without_session, with_process, without_process};
ghost use Rattle.pm_model.specs.State.{root};
ghost use Rattle.pm_model.specs.declared.replies.Refusal.TheVariants.{UnknownSession, UnknownProcess};
ghost use Rattle.pm_procs.specs.Told.{told};

use crate::errors::ProcsError;
use crate::numbered::{find, own, place, remove};
use crate::walks::{has_session, numbers_of, own_processes, remove_processes};
use pm_model::{ElementId, ItemList, Memory, Process, Session};
use pm_pages::PageList;
use std::alloc::Global;
use std::marker::Model;

const ROOT: ElementId = ElementId(2);

/// How many sessions, or processes, stand in a page.
const ROOM: usize = 64;

/// The live sessions, at most 4,096, and the processes, at most 16,384, by rising number. Numbers are
/// given in turn, and none twice. As long as no lower number is gone, a look-up by number looks at the
/// first and at the one; else it halves what is left at each step. Contracts see also whether the table
/// shares its pages with copies: where it stands alone, nothing is closed or ended at the cost of memory.
pub struct Procs {
    sessions: PageList<Session>,
    processes: PageList<Process>,
    next_session: u32,
    next_process: u32,
}

impl Drop for Procs {
    fn drop(self) {
        let Procs {
            sessions: _,
            processes: _,
            next_session: _,
            next_process: _,
        } = self;
    }
}

impl Model for Procs {
    ghost use Rattle.pm_procs.specs.Shown.{Shown};

    ghost Value = { Shown };

    ghost use Rattle.pm_procs.specs.Kept.{shown, IsKept};

    ghost view = { shown };

    ghost invariant = { IsKept };
}

impl Procs {
    /// The opening table: session 0 of the user `root`, which is element 2, and process 0 of it.
    pub fn opening(alloc: Global) -> Result<Procs, Memory>
        ensures procs { IfOk result (λ t. t.procs ≡ opening_procs root) }
        ensures alone { IfOk result (λ t. t.alone ≡ true) }
    {
        let mut sessions = PageList::new(alloc, ROOM);
        sessions.push(Session {
            number: 0,
            user: ROOT,
        })?;
        let mut processes = PageList::new(alloc, ROOM);
        processes.push(Process {
            number: 0,
            session: 0,
        })?;
        Ok(Procs {
            sessions,
            processes,
            next_session: 1,
            next_process: 1,
        })
    }

    /// Does nothing. Its contract is what each table keeps: numbers rise, and are below the next
    /// one's.
    pub fn numbered(&self)
        ensures { AreNumbered self.now.procs }
    {
        let _ = &self.sessions;
    }

    /// Opens a session of the user, and tells its number. `Full` comes where `check_open` says so;
    /// the only other error is `Memory`.
    pub fn open_session(&mut self, user: ElementId) -> Result<u32, ProcsError>
        requires { HasNext self.old.procs.next_session }
        ensures fits { OnOk result (first_of (open_checks self.old.procs) ≡ None) }
        ensures ok { OnOk result (self.new.procs ≡ with_session user self.old.procs) }
        ensures alone { self.new.alone ≡ self.old.alone }
        ensures number { IfOk result (λ n. n ≡ self.old.procs.next_session) }
        ensures refused { IfErr result (λ e. IsCause (first_of (open_checks self.old.procs)) (told UnknownSession e)) }
        ensures err { OnErr result (self.new ≡ self.old) }
    {
        self.check_open()?;
        let number = self.next_session;
        self.sessions.push(Session { number, user })?;
        self.next_session += 1;
        Ok(number)
    }

    /// Closes the session, and ends its processes. `Builtin` and `Absent` come where `check_close`
    /// says so; the only other error is `Memory`, and none where the table stands alone. It looks at
    /// each process.
    pub fn close_session(&mut self, session: u32) -> Result<(), ProcsError>
        ensures fits { OnOk result (first_of (close_checks self.old.procs session) ≡ None) }
        ensures ok { OnOk result (self.new.procs ≡ without_session session self.old.procs) }
        ensures alone { self.new.alone ≡ self.old.alone }
        ensures refused { IfErr result (λ e. IsCause (first_of (close_checks self.old.procs session)) (told UnknownSession e)) }
        ensures no_memory { self.old.alone ≡ true → IfErr result (λ e. e ≢ ProcsError.Memory) }
        ensures err { OnErr result (self.new ≡ self.old) }
    {
        self.check_close(session)?;
        own(&mut self.sessions, session)?;
        own_processes(&mut self.processes, session)?;
        remove(&mut self.sessions, session);
        remove_processes(&mut self.processes, session);
        Ok(())
    }

    /// Starts a process of the session, and tells its number. `Absent`, which is of the session, and
    /// `Full` come where `check_start` says so; the only other error is `Memory`.
    pub fn start_process(&mut self, session: u32) -> Result<u32, ProcsError>
        requires { HasNext self.old.procs.next_process }
        ensures fits { OnOk result (first_of (start_checks self.old.procs session) ≡ None) }
        ensures ok { OnOk result (self.new.procs ≡ with_process session self.old.procs) }
        ensures alone { self.new.alone ≡ self.old.alone }
        ensures number { IfOk result (λ n. n ≡ self.old.procs.next_process) }
        ensures refused { IfErr result (λ e. IsCause (first_of (start_checks self.old.procs session)) (told UnknownSession e)) }
        ensures err { OnErr result (self.new ≡ self.old) }
    {
        self.check_start(session)?;
        let number = self.next_process;
        self.processes.push(Process { number, session })?;
        self.next_process += 1;
        Ok(number)
    }

    /// Ends the process. `Builtin` and `Absent` come where `check_end` says so; the only other error
    /// is `Memory`, and none where the table stands alone.
    pub fn end_process(&mut self, process: u32) -> Result<(), ProcsError>
        ensures fits { OnOk result (first_of (end_checks self.old.procs process) ≡ None) }
        ensures ok { OnOk result (self.new.procs ≡ without_process process self.old.procs) }
        ensures alone { self.new.alone ≡ self.old.alone }
        ensures refused { IfErr result (λ e. IsCause (first_of (end_checks self.old.procs process)) (told UnknownProcess e)) }
        ensures no_memory { self.old.alone ≡ true → IfErr result (λ e. e ≢ ProcsError.Memory) }
        ensures err { OnErr result (self.new ≡ self.old) }
    {
        self.check_end(process)?;
        own(&mut self.processes, process)?;
        remove(&mut self.processes, process);
        Ok(())
    }

    /// The user for whom the process acts; None where no live process has the number.
    pub fn user_of(&self, process: u32) -> Option<ElementId>
        ensures { result ≡ user_of self.now.procs process }
    {
        let process = find(&self.processes, process)?;
        let session = find(&self.sessions, process.session)?;
        Some(session.user)
    }

    /// Whether the session is live.
    pub fn session_live(&self, session: u32) -> bool
        ensures { result ≡ list_any (is_session session) self.now.procs.sessions }
    {
        place(&self.sessions, session).is_some()
    }

    /// Whether the process is live.
    pub fn process_live(&self, process: u32) -> bool
        ensures { result ≡ list_any (is_process process) self.now.procs.processes }
    {
        place(&self.processes, process).is_some()
    }

    /// The number and the session of the process at a place from 0, by rising number; None exactly
    /// where there is none.
    pub fn process_at(&self, i: usize) -> Option<(u32, u32)>
        ensures { result ≡ option_map (λ p. (p.number, p.session)) (slice_get self.now.procs.processes i) }
    {
        let process = self.processes.get(i)?;
        Some((process.number, process.session))
    }

    /// Whether the user has a session. It looks at each session.
    pub fn has_session(&self, user: ElementId) -> bool
        ensures { result ≡ list_any (is_session_of user) self.now.procs.sessions }
    {
        has_session(&self.sessions, user)
    }

    /// The numbers of the processes of the session, by rising number; an empty list where it isn't
    /// live. It looks at each process.
    pub fn processes_of(&self, session: u32) -> Result<ItemList<u32>, Memory>
        ensures { IfOk result (λ numbers. numbers ≡ processes_of self.now.procs session) }
    {
        numbers_of(&self.processes, session)
    }

    /// The same table once more. It shares the pages that are shared.
    pub fn copy(&self) -> Result<Procs, Memory>
        ensures { IfOk result (λ same. same.procs ≡ self.now.procs) }
    {
        Ok(Procs {
            sessions: self.sessions.copy()?,
            processes: self.processes.copy()?,
            next_session: self.next_session,
            next_process: self.next_process,
        })
    }

    /// Lets copies share the sessions and processes. It takes memory for each page that no copy shares.
    /// On Memory some pages may be shared.
    pub fn share(&mut self) -> Result<(), Memory>
        ensures { self.new.procs ≡ self.old.procs }
    {
        self.sessions.share()?;
        self.processes.share()
    }

    /// How many sessions are live: at most 4,096.
    pub fn session_count(&self) -> usize
        ensures { result ≡ length self.now.procs.sessions }
    {
        self.sessions.len()
    }

    /// How many processes are live: at most 16,384.
    pub fn process_count(&self) -> usize
        ensures { result ≡ length self.now.procs.processes }
    {
        self.processes.len()
    }
}
