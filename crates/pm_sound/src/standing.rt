//! The elements that stand once a document is made, found by name.

ghost use Rattle.std.specs.Prelude.{◌≡◌, [], ◌∷◌, ◌++◌, false, length, option_map, slice_get, Some, IfOk, IfSome};
ghost use Rattle.pm_order.specs.Ranked.{place};
ghost use Rattle.pm_policy.specs.Order.{is_made};
ghost use Rattle.pm_policy.specs.Policy.{called, doc_element};
ghost use Rattle.pm_policy.specs.Sound.{AreOnceCalled};
ghost use Rattle.pm_sound.specs.Tells.{Tells};

use crate::errors::SoundError;
use indexmap::IndexMap;
use pm_model::{Kind, Memory, Name};
use pm_policy::DocElement;
use std::alloc::Global;
use std::marker::Model;

/// Elements of different names. Contracts see the list of them.
pub(crate) struct Standing {
    kinds: IndexMap<Name, Kind>,
}

impl Drop for Standing {
    fn drop(self) {
        let Standing { kinds: _ } = self;
    }
}

impl Model for Standing {
    ghost use Rattle.std.specs.Prelude.{List, map};
    ghost use Rattle.pm_policy.specs.declared.policy.DocElement.{DocElement};
    ghost use Rattle.pm_sound.specs.Entries.{element};

    ghost Value = { List DocElement };

    ghost view = { λ s. map element s.kinds.entries };
}

impl Standing {
    /// The element of the name.
    #[tactic(auto, using(crate::proofs::Found::found))]
    pub(crate) fn find(&self, name: &Name) -> Option<DocElement>
        ensures { result ≡ called self.now name.now }
    {
        match self.kinds.get(name) {
            Some(kind) => Some(DocElement {
                kind: *kind,
                name: *name,
            }),
            None => None,
        }
    }

    /// The place of the element of the name, from 0 on, and its kind.
    pub(crate) fn place(&self, name: &Name) -> Option<(usize, Kind)>
        ensures kind { option_map (λ found. doc_element found.1 name.now) result ≡ called self.now name.now }
        ensures place { IfSome result (λ found. found.0 ≡ place self.now name.now) }
    {
        match self.kinds.get_full(name) {
            Some((place, _, kind)) => Some((place, *kind)),
            None => None,
        }
    }

    /// The kind of the element at a place, where it has the name.
    fn kind_at(&self, place: usize, name: &Name) -> Option<Kind>
        ensures { IfSome result (λ kind. slice_get self.now place ≡ Some (doc_element kind name.now)) }
    {
        match self.kinds.get_index(place) {
            Some((there, kind)) if there == name => Some(*kind),
            _ => None,
        }
    }

    /// The same as `place`, which is told faster where it is the likely place, or the next.
    pub(crate) fn place_near(&self, name: &Name, likely: usize) -> Option<(usize, Kind)>
        requires { AreOnceCalled self.now }
        ensures kind { option_map (λ found. doc_element found.1 name.now) result ≡ called self.now name.now }
        ensures place { IfSome result (λ found. found.0 ≡ place self.now name.now) }
    {
        if let Some(kind) = self.kind_at(likely, name) {
            return Some((likely, kind));
        }
        let next = likely.saturating_add(1);
        if let Some(kind) = self.kind_at(next, name) {
            return Some((next, kind));
        }
        self.place(name)
    }

    /// How many elements there are.
    pub(crate) fn len(&self) -> usize
        ensures { result ≡ length self.now }
    {
        self.kinds.len()
    }

    /// Puts an element behind the others, or in the place of one that has its name: tells whether there was one.
    #[tactic(auto, using(crate::proofs::Found::put, crate::proofs::Found::looked_up))]
    fn put(&mut self, element: DocElement) -> Result<bool, Memory>
        ensures taken { IfOk result (λ taken. taken ≡ is_made self.old element.name) }
        ensures new { IfOk result (λ taken. taken ≡ false → self.new ≡ self.old ++ element ∷ []) }
    {
        let old = self.kinds.insert(element.name, element.kind)?;
        Ok(old.is_some())
    }

    /// These elements, where no two have one name.
    pub(crate) fn of(alloc: Global, elements: &[DocElement]) -> Result<Standing, SoundError>
        ensures list { IfOk result (λ s. s ≡ elements.now) }
        ensures once { Tells result (AreOnceCalled elements.now) }
    {
        let mut all = Standing {
            kinds: IndexMap::with_capacity(alloc, elements.len())?,
        };
        for element in elements {
            let taken = all.put(*element)?;
            if taken {
                return Err(SoundError::Unsound);
            }
        }
        Ok(all)
    }
}
