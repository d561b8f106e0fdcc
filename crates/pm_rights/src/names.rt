//! The names of the rights, by bit.

ghost use Rattle.std.specs.Prelude.{◌≡◌, ◌≢◌, ◌<◌, ◌≤◌, [], ◌∷◌, ◌++◌, None, OnOk, OnErr, IfOk, IfErr, IfSome, length, slice_get, bytes_eq};
ghost use Rattle.std.specs.List.{list_any};
ghost use Rattle.std.specs.Arc.{arc_value};
ghost use Rattle.pm_model.specs.Results.{first_of};
ghost use Rattle.pm_model.specs.Effect.{IsCause};
ghost use Rattle.pm_model.specs.RightSet.{opening_rights, define_checks, bit_named};
ghost use Rattle.pm_rights.specs.Told.{told};

use crate::errors::RightsError;
use crate::words::{is_command_word, opening_names};
use pm_model::{Memory, Name};
use std::alloc::Global;
use std::marker::Model;
use std::sync::Arc;

const MAX_RIGHTS: usize = 64;

/// The names of the rights by bit: the seventeen from the opening, then the defined ones in order of
/// creation, at most 64 in all. Copies share them until a right is defined. Contracts see the list of the
/// names.
pub struct RightNames {
    names: Arc<Vec<Name>>,
}

impl Drop for RightNames {
    fn drop(self) {
        let RightNames { names: _ } = self;
    }
}

impl Model for RightNames {
    ghost use Rattle.std.specs.Prelude.{List, ℕ, length, ◌≤◌};
    ghost use Rattle.std.specs.Arc.{arc_value};

    ghost Value = { List (List ℕ) };

    ghost view = { λ t. (arc_value t.names).items };

    ghost invariant = { λ t. length (arc_value t.names).items ≤ 64 };
}

/// The names with one more, which no copy has.
fn with_one(names: &Vec<Name>, name: Name) -> Result<Arc<Vec<Name>>, Memory>
    ensures { IfOk result (λ more. (arc_value more).items ≡ names.now.items ++ name ∷ []) }
{
    let alloc = *names.allocator();
    let mut more = Vec::from_slice(alloc, names.as_slice())?;
    more.push(name)?;
    Ok(Arc::new(alloc, more)?)
}

impl RightNames {
    /// The seventeen rights that stand from the opening on: two access rights, then the
    /// administrative ones.
    pub fn opening(alloc: Global) -> Result<RightNames, Memory>
        ensures { IfOk result (λ names. names ≡ opening_rights) }
    {
        Ok(RightNames {
            names: Arc::new(alloc, opening_names(alloc)?)?,
        })
    }

    /// Defines a right: its bit is the number of those before it. `NameTaken` and `Full` come where
    /// `check_define` says so; the only other error is `Memory`.
    pub fn define(&mut self, name: Name) -> Result<(), RightsError>
        ensures fits { OnOk result (first_of (define_checks self.old name) ≡ None) }
        ensures ok { OnOk result (self.new ≡ self.old ++ name ∷ []) }
        ensures refused { IfErr result (λ e. IsCause (first_of (define_checks self.old name)) (told e)) }
        ensures err { OnErr result (self.new ≡ self.old) }
    {
        self.check_define(name)?;
        match with_one(&self.names, name) {
            Ok(names) => {
                self.names = names;
                Ok(())
            }
            Err(_) => Err(RightsError::Memory),
        }
    }

    /// Whether a right of the name could be defined: `NameTaken` where a right has the name or it is
    /// the word of a command, else `Full` where there are 64 rights. Looks at each name and each
    /// word.
    pub fn check_define(&self, name: Name) -> Result<(), RightsError>
        ensures fits { OnOk result (first_of (define_checks self.now name) ≡ None) }
        ensures refused { IfErr result (λ e. IsCause (first_of (define_checks self.now name)) (told e)) }
        ensures no_memory { IfErr result (λ e. e ≢ RightsError.Memory) }
    {
        if self.has_name(name) || is_command_word(name.bytes()) {
            return Err(RightsError::NameTaken);
        }
        if self.names.len() >= MAX_RIGHTS {
            return Err(RightsError::Full);
        }
        Ok(())
    }

    /// The bit of the right of the name; None exactly where no right has it. Looks at each name.
    pub fn find(&self, name: Name) -> Option<u8>
        ensures value { result ≡ bit_named self.now name }
        ensures below { IfSome result (λ bit. bit < length self.now) }
        ensures small { IfSome result (λ bit. bit < 64) }
    {
        let bit = self.place(name)?;
        Some(bit as u8)
    }

    /// The name of the right of the bit; None exactly where there is no such right.
    pub fn name_of(&self, bit: u8) -> Option<Name>
        ensures { result ≡ slice_get self.now bit }
    {
        self.names.get(bit as usize).copied()
    }

    /// How many rights there are: at most 64.
    pub fn len(&self) -> usize
        ensures { result ≡ length self.now }
    {
        self.names.len()
    }

    /// Does nothing. Its contract is what the names keep: there are at most 64.
    pub fn few(&self)
        ensures { length self.now ≤ 64 }
    {
        let _ = &self.names;
    }

    /// The same names once more.
    pub fn copy(&self) -> Result<RightNames, Memory>
        ensures { IfOk result (λ same. same ≡ self.now) }
    {
        Ok(RightNames {
            names: Arc::try_clone(&self.names)?,
        })
    }

    /// The place of the name.
    fn place(&self, name: Name) -> Option<usize>
        ensures value { result ≡ bit_named self.now name }
        ensures below { IfSome result (λ bit. bit < length self.now) }
        ensures few { length self.now ≤ 64 }
    {
        self.names.iter().position(|held| name == *held)
    }

    /// Whether a right has the name.
    fn has_name(&self, name: Name) -> bool
        ensures { result ≡ list_any (bytes_eq name) self.now }
    {
        self.names.iter().any(|held| name == *held)
    }
}
