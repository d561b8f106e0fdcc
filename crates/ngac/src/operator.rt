//! What an operator is told beside the statuses.

use pm_model::Sink;
use pm_run::write_all;
use pm_server::Notices;
use std::alloc::{AllocError, Global};
use std::io::ErrorKind;

/// Words to an operator on `err`, as far as there is memory for them and `err` takes them.
#[derive(Drop)]
pub(crate) struct Operator<'a, E> {
    pub(crate) alloc: Global,
    pub(crate) err: &'a mut E,
}

impl<'a, E: Sink> Operator<'a, E> {
    fn say(&mut self, line: Result<String, AllocError>) {
        if let Ok(line) = line {
            let _ = write_all(self.err, line.as_bytes());
        }
    }

    // Why the server doesn't listen.
    pub(crate) fn explain(&mut self, port: u16, why: ErrorKind) {
        let line = format!(in self.alloc; "ngac: port {port} of 127.0.0.1: {why}\n");
        self.say(line);
    }
}

impl<'a, E: Sink> Notices for Operator<'a, E> {
    fn no_place(&mut self, closed: u64) {
        let line = format!(in self.alloc;
            "ngac: connections closed for want of a place: {closed}\n"
        );
        self.say(line);
    }

    fn nearly_full(&mut self, table: &str, limit: u64) {
        let line = format!(in self.alloc;
            "ngac: table {table} is nearly full: nine tenths of {limit} are taken\n"
        );
        self.say(line);
    }
}
