//! A state as a version that many callers share.

use crate::looking::glance;
use crate::steps::{advance, step};
use pm_machine::{Glance, Stepped, Version};
use pm_model::{ElementId, Entry, Grows, Memory, Name, NameOf, Reply, Request, Table};
use pm_state::State;
use std::alloc::Global;
use std::marker::Model;
use std::thread::Threads;

/// A state as a version that many callers share. Contracts see its graph and its history.
pub struct Edition {
    state: State,
}

impl Drop for Edition {
    fn drop(self) {
        let Edition { state: _ } = self;
    }
}

impl Model for Edition {
    ghost use Rattle.pm_model.specs.History.{Machine};

    ghost Value = { Machine };

    ghost view = { λ e. e.state };
}

impl Grows for Edition {
    ghost list = { λ e. e.history };

    fn grown(&self) -> u64 {
        self.state.version()
    }
}

impl NameOf for Edition {
    ghost use Rattle.std.specs.Prelude.{is_some};
    ghost use Rattle.pm_model.specs.State.{element_at, name_numbered};

    ghost named = { λ e n. is_some (element_at e.graph.elements n) };

    ghost name_at = { λ e. name_numbered e.graph.elements };

    fn name_of(&self, id: ElementId) -> Name {
        self.state.graph().name_of(id)
    }
}

impl Version for Edition {
    ghost use Rattle.std.specs.Prelude.{refl};

    ghost machine = { λ e. e };

    fn opening(alloc: Global) -> Result<Edition, Memory> {
        let state = State::opening(alloc)?;
        Ok(Edition { state })
    }

    fn version(&self) -> u64 {
        self.state.version()
    }

    fn entry(&self, i: u64) -> Option<&Entry> {
        self.state.entry(i)
    }

    fn size(&self, table: Table) -> u64 {
        self.state.size(table)
    }

    fn known(&self) {
        self.state.replayed();
        self.state.graph().formed();
    }

    fn share(&mut self) -> Result<(), Memory> {
        self.state.share()
    }

    fn step<R: Threads + Sync>(
        &self,
        rt: &R,
        seat: u32,
        nth: u64,
        request: &Request,
    ) -> Result<Stepped<Edition>, Memory> {
        match step(rt, &self.state, seat, nth, request)? {
            Stepped::Accepted(state, reply) => Ok(Stepped::Accepted(Edition { state }, reply)),
            Stepped::Answered(reply) => Ok(Stepped::Answered(reply)),
        }
    }

    fn advance<R: Threads + Sync>(
        &mut self,
        rt: &R,
        seat: u32,
        nth: u64,
        request: &Request,
    ) -> Result<Reply, Memory> {
        advance(rt, &mut self.state, seat, nth, request)
    }

    fn glance<R: Threads + Sync>(&self, rt: &R, request: &Request) -> Result<Glance, Memory> {
        glance(rt, &self.state, request)
    }

    ghost lists_history = { λ e. refl };
}
