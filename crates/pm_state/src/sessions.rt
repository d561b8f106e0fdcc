//! Changes of sessions and processes. A process that ends takes the prohibitions on it along.

ghost use Rattle.std.specs.Prelude.{◌≡◌};
ghost use Rattle.pm_model.specs.Formed.{IsNamed};
ghost use Rattle.pm_state.specs.Changes.{Changes, Checks};
ghost use Rattle.pm_state.specs.Shown.{graph_of};

use crate::done::Done;
use crate::kinds::is_user;
use crate::tables::Tables;
use pm_model::{Change, ChangeError, ElementId, Made, Memory, Refusal};
use pm_procs::change_error;

impl Tables {
    pub(crate) fn open_session(&mut self, user: ElementId) -> Result<Done, ChangeError>
        requires { IsNamed (graph_of self.old) (Change.OpenSession user) }
        ensures { Changes self.old self.new (Change.OpenSession user) result }
    {
        if !is_user(self.diagram.elements(), user) {
            return Err(ChangeError::Refused(Refusal::BadKinds));
        }
        match self.procs.open_session(user) {
            Ok(number) => Ok(Done::without_rows(Made::Session(number))),
            Err(error) => Err(change_error(error, Refusal::UnknownSession)),
        }
    }

    pub(crate) fn check_open_session(&self, user: ElementId) -> Result<(), ChangeError>
        requires { IsNamed (graph_of self.now) (Change.OpenSession user) }
        ensures { Checks self.now (Change.OpenSession user) result }
    {
        if !is_user(self.diagram.elements(), user) {
            return Err(ChangeError::Refused(Refusal::BadKinds));
        }
        match self.procs.check_open() {
            Ok(()) => Ok(()),
            Err(error) => Err(change_error(error, Refusal::UnknownSession)),
        }
    }

    pub(crate) fn close_session(&mut self, session: u32) -> Result<Done, ChangeError>
        ensures { Changes self.old self.new (Change.CloseSession session) result }
    {
        match self.check_close_session(session) {
            Ok(()) => {}
            Err(error) => return Err(error),
        }
        let ended = match self.procs.processes_of(session) {
            Ok(ended) => ended,
            Err(Memory) => return Err(ChangeError::Memory),
        };
        match self.deny.own_processes(ended.as_slice()) {
            Ok(()) => {}
            Err(Memory) => return Err(ChangeError::Memory),
        }
        match self.procs.close_session(session) {
            Ok(()) => {
                self.deny.lift_processes(ended.as_slice());
                Ok(Done::without_rows(Made::Nothing))
            }
            Err(error) => Err(change_error(error, Refusal::UnknownSession)),
        }
    }

    pub(crate) fn check_close_session(&self, session: u32) -> Result<(), ChangeError>
        ensures { Checks self.now (Change.CloseSession session) result }
    {
        match self.procs.check_close(session) {
            Ok(()) => Ok(()),
            Err(error) => Err(change_error(error, Refusal::UnknownSession)),
        }
    }

    pub(crate) fn start_process(&mut self, session: u32) -> Result<Done, ChangeError>
        requires { IsNamed (graph_of self.old) (Change.StartProcess session) }
        ensures { Changes self.old self.new (Change.StartProcess session) result }
    {
        match self.procs.start_process(session) {
            Ok(number) => Ok(Done::without_rows(Made::Process(number))),
            Err(error) => Err(change_error(error, Refusal::UnknownSession)),
        }
    }

    pub(crate) fn check_start_process(&self, session: u32) -> Result<(), ChangeError>
        ensures { Checks self.now (Change.StartProcess session) result }
    {
        match self.procs.check_start(session) {
            Ok(()) => Ok(()),
            Err(error) => Err(change_error(error, Refusal::UnknownSession)),
        }
    }

    pub(crate) fn end_process(&mut self, process: u32) -> Result<Done, ChangeError>
        ensures { Changes self.old self.new (Change.EndProcess process) result }
    {
        match self.check_end_process(process) {
            Ok(()) => {}
            Err(error) => return Err(error),
        }
        let ended = [process];
        match self.deny.own_processes(&ended) {
            Ok(()) => {}
            Err(Memory) => return Err(ChangeError::Memory),
        }
        match self.procs.end_process(process) {
            Ok(()) => {
                self.deny.lift_processes(&ended);
                Ok(Done::without_rows(Made::Nothing))
            }
            Err(error) => Err(change_error(error, Refusal::UnknownProcess)),
        }
    }

    pub(crate) fn check_end_process(&self, process: u32) -> Result<(), ChangeError>
        ensures { Checks self.now (Change.EndProcess process) result }
    {
        match self.procs.check_end(process) {
            Ok(()) => Ok(()),
            Err(error) => Err(change_error(error, Refusal::UnknownProcess)),
        }
    }
}
