//! What a change of the table would be refused for. Nothing is changed here.

ghost use Rattle.std.specs.Prelude.{◌≡◌, ◌≢◌, None, OnOk, IfErr};
ghost use Rattle.pm_model.specs.Effect.{IsCause};
ghost use Rattle.pm_model.specs.Results.{first_of};
ghost use Rattle.pm_model.specs.Sessions.{open_checks, close_checks, start_checks, end_checks};
ghost use Rattle.pm_model.specs.declared.replies.Refusal.TheVariants.{UnknownSession, UnknownProcess};
ghost use Rattle.pm_procs.specs.Told.{told};

use crate::errors::ProcsError;
use crate::table::Procs;
use pm_model::Table;

const MAX_SESSIONS: usize = 4096;

const MAX_PROCESSES: usize = 16384;

impl Procs {
    /// Whether a session could be opened: `Full` where there are 4,096.
    pub fn check_open(&self) -> Result<(), ProcsError>
        ensures fits { OnOk result (first_of (open_checks self.now.procs) ≡ None) }
        ensures refused { IfErr result (λ e. IsCause (first_of (open_checks self.now.procs)) (told UnknownSession e)) }
        ensures no_memory { IfErr result (λ e. e ≢ ProcsError.Memory) }
    {
        if self.session_count() >= MAX_SESSIONS {
            return Err(ProcsError::Full(Table::Sessions));
        }
        Ok(())
    }

    /// Whether the session could be closed: `Builtin` for session 0, else `Absent` where it isn't
    /// live.
    pub fn check_close(&self, session: u32) -> Result<(), ProcsError>
        ensures fits { OnOk result (first_of (close_checks self.now.procs session) ≡ None) }
        ensures refused { IfErr result (λ e. IsCause (first_of (close_checks self.now.procs session)) (told UnknownSession e)) }
        ensures no_memory { IfErr result (λ e. e ≢ ProcsError.Memory) }
    {
        if session == 0 {
            return Err(ProcsError::Builtin);
        }
        if !self.session_live(session) {
            return Err(ProcsError::Absent);
        }
        Ok(())
    }

    /// Whether a process of the session could be started: `Absent` where the session isn't live, else
    /// `Full` where there are 16,384 processes.
    pub fn check_start(&self, session: u32) -> Result<(), ProcsError>
        ensures fits { OnOk result (first_of (start_checks self.now.procs session) ≡ None) }
        ensures refused { IfErr result (λ e. IsCause (first_of (start_checks self.now.procs session)) (told UnknownSession e)) }
        ensures no_memory { IfErr result (λ e. e ≢ ProcsError.Memory) }
    {
        if !self.session_live(session) {
            return Err(ProcsError::Absent);
        }
        if self.process_count() >= MAX_PROCESSES {
            return Err(ProcsError::Full(Table::Processes));
        }
        Ok(())
    }

    /// Whether the process could be ended: `Builtin` for process 0, else `Absent` where it isn't
    /// live.
    pub fn check_end(&self, process: u32) -> Result<(), ProcsError>
        ensures fits { OnOk result (first_of (end_checks self.now.procs process) ≡ None) }
        ensures refused { IfErr result (λ e. IsCause (first_of (end_checks self.now.procs process)) (told UnknownProcess e)) }
        ensures no_memory { IfErr result (λ e. e ≢ ProcsError.Memory) }
    {
        if process == 0 {
            return Err(ProcsError::Builtin);
        }
        if !self.process_live(process) {
            return Err(ProcsError::Absent);
        }
        Ok(())
    }
}
