//! The machine with one caller.
ghost use Rattle.std.specs.Prelude.{◌≡◌};

use crate::steps::advance;
use pm_machine::Answerer;
use pm_model::{ElementId, Memory, Name, NameOf, Reply, Request};
use pm_state::State;
use pm_tally::Tally;
use std::alloc::Global;
use std::marker::Model;
use std::thread::Threads;

/// The machine with one caller, whose seat is 0. Contracts see its graph and its history.
pub struct Solo {
    state: State,
}

impl Drop for Solo {
    fn drop(self) {
        let Solo { state: _ } = self;
    }
}

impl Model for Solo {
    ghost use Rattle.pm_model.specs.History.{Machine};

    ghost Value = { Machine };

    ghost view = { λ s. s.state };
}

impl NameOf for Solo {
    ghost use Rattle.std.specs.Prelude.{is_some};
    ghost use Rattle.pm_model.specs.State.{element_at, name_numbered};

    ghost named = { λ s n. is_some (element_at s.graph.elements n) };

    ghost name_at = { λ s. name_numbered s.graph.elements };

    fn name_of(&self, id: ElementId) -> Name {
        self.state.graph().name_of(id)
    }
}

impl Solo {
    /// The state as it is now.
    pub fn state(&self) -> &State
        ensures { result.now ≡ self.now }
    {
        &self.state
    }
}

impl Answerer for Solo {
    ghost machine = { λ s. s };

    fn opening(alloc: Global) -> Result<Solo, Memory> {
        let state = State::opening(alloc)?;
        Ok(Solo { state })
    }

    fn version(&self) -> u64 {
        self.state.version()
    }

    fn ask<R: Threads + Sync>(
        &mut self,
        rt: &R,
        request: &Request,
    ) -> Result<(Reply, u64), Memory> {
        self.state.graph().formed();
        let nth = self.version() + 1;
        let reply = advance(rt, &mut self.state, 0, nth, request)?;
        Ok((reply, self.version()))
    }
}

impl Tally for Solo {
    fn replayed(&self) {
        self.state.replayed();
    }

    fn live(&self) -> u64 {
        self.state.graph().formed();
        self.state.graph().elements().len() as u64
    }

    fn asked(&self) -> u64 {
        self.state.asked()
    }

    fn written(&self) -> u64 {
        self.state.written()
    }
}
