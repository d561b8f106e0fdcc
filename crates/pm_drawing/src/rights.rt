//! The names of rights.

ghost use Rattle.std.specs.Prelude.{◌≡◌, ◌<◌, [], ◌∷◌, ◌++◌, drop, if◌then◌else◌, length, slice_get, Some, IfOk, OnOk};
ghost use Rattle.pm_model.specs.Formed.{NameOnce};
ghost use Rattle.pm_policy.specs.PolicyOf.{rights_named};

use pm_model::{Memory, Name, NameList, Rights};
use pm_rights::RightNames;
use std::alloc::Global;

/// How many rights the opening has.
const OPENING: u8 = 17;

/// How many rights there are.
fn count(rights: &RightNames) -> u8
    ensures { result ≡ length rights.now }
{
    rights.few();
    rights.len() as u8
}

fn name_at(rights: &RightNames, bit: u8) -> Name
    requires { bit < length rights.now }
    ensures { slice_get rights.now bit ≡ Some result }
{
    rights.name_of(bit).unwrap()
}

/// The names of the defined rights, by bit.
pub(crate) fn defined_rights(alloc: Global, rights: &RightNames) -> Result<NameList, Memory>
    ensures { IfOk result (λ list. list ≡ drop 17 rights.now) }
{
    let mut list = NameList::new(alloc);
    for bit in OPENING..count(rights) {
        list.push(name_at(rights, bit))?;
    }
    Ok(list)
}

/// Puts the name at the end, if it is to be there.
fn push_if(wanted: bool, name: Name, list: &mut NameList) -> Result<(), Memory>
    ensures { OnOk result (list.new ≡ list.old ++ (if wanted then name ∷ [] else [])) }
{
    if wanted {
        list.push(name)?;
    }
    Ok(())
}

/// The names of the rights of a set, by bit.
pub(crate) fn names_of(alloc: Global, rights: &RightNames, set: Rights) -> Result<NameList, Memory>
    requires { NameOnce rights.now }
    ensures { IfOk result (λ list. list ≡ rights_named rights.now set) }
{
    rights.few();
    let mut list = NameList::new(alloc);
    for bit in 0..count(rights) {
        push_if(set.has(bit), name_at(rights, bit), &mut list)?;
    }
    Ok(list)
}
