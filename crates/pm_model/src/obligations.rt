//! Obligations: what is done, by whose authority, when an event of a pattern happens.

ghost use Rattle.std.specs.Prelude.{◌≡◌, None, Some, IfOk, OnOk, IfErr};
ghost use Rattle.pm_model.specs.Actions.{IsResponse, response_refusal};

use crate::actions::{ActionList, copied};
use crate::counting::names_in_actions;
use crate::elements::ElementId;
use crate::events::Pattern;
use crate::memory::Memory;
use crate::names::Name;
use std::marker::Model;

const MAX_ACTIONS: usize = 32;

const MAX_NAMES: u128 = 100;

/// Why a list of actions is no response.
#[derive(Clone, Copy, Debug, PartialEq, Eq)]
pub enum ResponseError {
    /// It has no action.
    NoActions,
    /// It has more than 32.
    TooManyActions,
    /// Names, and what stands for them, stand in it more than 100 times.
    TooManyNames,
}

/// What an obligation does: 1 to 32 actions, one after another, with at most 100 names in all. Contracts see the list.
pub struct Response {
    actions: ActionList,
}

impl Drop for Response {
    fn drop(self) {
        let Response { actions: _ } = self;
    }
}

impl Model for Response {
    ghost use Rattle.std.specs.Prelude.{List};
    ghost use Rattle.pm_model.specs.declared.actions.Action.{Action};
    ghost use Rattle.pm_model.specs.Actions.{IsResponse};

    ghost Value = { List Action };

    ghost view = { λ r. r.actions };

    ghost invariant = { λ r. IsResponse r.actions };
}

impl Response {
    /// The response of these actions. The error is the first that stands, in the order of `ResponseError`.
    pub fn new(actions: ActionList) -> Result<Response, ResponseError>
        ensures ok { IfOk result (λ response. response ≡ actions) }
        ensures fits { OnOk result (response_refusal actions ≡ None) }
        ensures refused { IfErr result (λ e. response_refusal actions ≡ Some e) }
    {
        if actions.len() == 0 {
            return Err(ResponseError::NoActions);
        }
        if actions.len() > MAX_ACTIONS {
            return Err(ResponseError::TooManyActions);
        }
        if names_in_actions(actions.as_slice()) > MAX_NAMES {
            return Err(ResponseError::TooManyNames);
        }
        Ok(Response { actions })
    }

    /// The actions, in their order.
    pub fn actions(&self) -> &ActionList
        ensures actions { result.now ≡ self.now }
        ensures limits { IsResponse self.now }
    {
        &self.actions
    }

    /// The same response once more.
    pub fn copy(&self) -> Result<Response, Memory>
        ensures { IfOk result (λ same. same ≡ self.now) }
    {
        let actions = copied(self.actions.allocator(), self.actions.as_slice())?;
        Ok(Response { actions })
    }
}

/// An obligation: when an event of the pattern happens, the response is done by the author's authority.
pub struct Obligation {
    pub name: Name,
    pub author: ElementId,
    pub pattern: Pattern,
    pub response: Response,
}

impl Drop for Obligation {
    fn drop(self) {
        let Obligation {
            name: _,
            author: _,
            pattern: _,
            response: _,
        } = self;
    }
}

impl Obligation {
    /// The same obligation once more.
    pub fn copy(&self) -> Result<Obligation, Memory>
        ensures { IfOk result (λ same. same ≡ self.now) }
    {
        let response = self.response.copy()?;
        Ok(Obligation {
            name: self.name,
            author: self.author,
            pattern: self.pattern.copy(),
            response,
        })
    }
}

/// Which action of which obligation it is whose turn has come.
#[derive(Clone, Copy, Debug, PartialEq, Eq)]
pub struct Place {
    /// The obligation's place among those that match the event, from 1.
    pub obligation: u32,
    /// The action's place in its response, from 1.
    pub action: u32,
}
