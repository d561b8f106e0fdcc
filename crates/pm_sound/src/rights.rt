//! The rights that there are once a document is made.

ghost use Rattle.std.specs.Prelude.{◌≡◌, [], ◌∷◌, ◌++◌, OnOk, IfOk, bytes_eq};
ghost use Rattle.std.specs.List.{list_any};
ghost use Rattle.pm_model.specs.RightSet.{opening_rights};
ghost use Rattle.pm_sound.specs.Groups.{AreDefined, IsFree};
ghost use Rattle.pm_sound.specs.Tells.{Tells};
ghost use Rattle.pm_sound.specs.Tests.{are_rights};

use crate::errors::SoundError;
use pm_model::Name;
use pm_rights::{RightNames, RightsError};
use std::alloc::Global;

/// Puts a right behind the others, where it may be defined.
fn define(names: &mut RightNames, right: Name) -> Result<(), SoundError>
    ensures rules { Tells result (IsFree names.old right) }
    ensures ok { OnOk result (names.new ≡ names.old ++ right ∷ []) }
{
    match names.define(right) {
        Ok(()) => Ok(()),
        Err(RightsError::Memory) => Err(SoundError::Memory),
        Err(_) => Err(SoundError::Unsound),
    }
}

/// The opening's rights and these behind them, where none stands twice, none is the word of a command, and
/// there are no more than a state may have.
pub(crate) fn defined(alloc: Global, rights: &[Name]) -> Result<RightNames, SoundError>
    ensures list { IfOk result (λ names. names ≡ opening_rights ++ rights.now) }
    ensures rules { Tells result (AreDefined rights.now) }
{
    let mut names = RightNames::opening(alloc)?;
    for right in rights {
        define(&mut names, *right)?;
    }
    Ok(names)
}

#[tactic(auto, using(crate::proofs::Found::is_some_position))]
fn has_right(rights: &RightNames, name: &Name) -> bool
    ensures { result ≡ list_any (bytes_eq name.now) rights.now }
{
    rights.find(*name).is_some()
}

/// Whether each of the names is that of a right.
pub(crate) fn are_rights(rights: &RightNames, names: &[Name]) -> bool
    ensures { result ≡ are_rights rights.now names.now }
{
    names.iter().all(|name| has_right(rights, name))
}
