//! A run through the requests of a generated policy.

ghost use Rattle.std.specs.Prelude.{◌≡◌, ◌↔◌, ◌<◌, ◌≤◌, IfSome, IsSome, IfOk, OnErr};
ghost use Rattle.pm_generator.specs.Generated.{generated};
ghost use Rattle.pm_generator.specs.Taken.{TakesFirst};

use crate::place::Place;
use crate::requests::request_at;
use pm_model::{Memory, Request};
use std::alloc::Global;
use std::marker::Model;

/// The largest size of a policy.
const LARGEST: u16 = 200;

/// The requests of a generated policy that are still to come. It holds none of them: each is made when it is asked for, and
/// that costs the same whatever the size of the policy. Contracts see the list of these requests.
#[derive(Drop)]
pub struct Generated {
    size: u8,
    place: Place,
}

impl Model for Generated {
    ghost use Rattle.std.specs.Prelude.{List};
    ghost use Rattle.pm_model.specs.declared.requests.Request.{Request};

    ghost Value = { List Request };

    ghost use Rattle.pm_generator.specs.Left.{IsIn, left};

    ghost view = { λ a. left a.size a.place };

    ghost invariant = { λ a. IsIn a.size a.place };
}

impl Generated {
    /// The requests of a policy of this size. There is one of each size from 1 to 200.
    pub fn new(size: u16) -> Option<Generated>
        ensures requests { IfSome result (λ requests. requests ≡ generated size) }
        ensures sizes { IsSome result ↔ ((0 < size) × (size ≤ 200)) }
    {
        if size == 0 || size > LARGEST {
            return None;
        }
        Some(Generated {
            size: size as u8,
            place: Place::Class,
        })
    }

    /// The next request; None where there is none left. On Memory it is still to come.
    pub fn next(&mut self, alloc: Global) -> Result<Option<Request>, Memory>
        ensures first { IfOk result (λ first. TakesFirst self.old first self.new) }
        ensures err { OnErr result (self.new ≡ self.old) }
    {
        let first = request_at(self.place, alloc)?;
        self.place = self.place.after(self.size);
        Ok(first)
    }
}
