//! The table: prohibitions in order of creation.

ghost use Rattle.std.specs.Prelude.{◌≡◌, ◌≢◌, ◌<◌, ◌≤◌, [], ◌∷◌, ◌++◌, true, None, Some, OnOk, OnErr, IfOk, IfErr, IfSome, IsOk, length, slice_get, option_map};
ghost use Rattle.std.specs.Option.{option_and_then};
ghost use Rattle.std.specs.List.{list_any, remove};
ghost use Rattle.pm_model.specs.Results.{first_of};
ghost use Rattle.pm_model.specs.Decision.{first_applying};
ghost use Rattle.pm_model.specs.RightSet.{right_bits};
ghost use Rattle.pm_model.specs.Effect.{IsCause};
ghost use Rattle.pm_model.specs.Prohibitions.{max_prohibitions, is_called, place_called, prohibit_checks, without_processes, names_element};
ghost use Rattle.pm_pages.specs.Paged.{OwnWhere};
ghost use Rattle.pm_decide.specs.Live.{IsLive, BarsLive};
ghost use Rattle.pm_deny.specs.Ended.{is_on};
ghost use Rattle.pm_deny.specs.Told.{told};

use crate::errors::DenyError;
use crate::items::{drop_processes, is_named, own_processes, place, take};
use pm_model::{Bars, ElementId, Memory, Name, Prohibition, Reach};
use pm_pages::PageList;
use std::alloc::Global;
use std::marker::Model;

/// How many prohibitions stand in a page.
const ROOM: usize = 64;

/// The prohibitions in order of creation: at most 4,096. Contracts see the list, and whether it shares
/// its pages with copies: where it stands alone, nothing is taken away at the cost of memory.
pub struct Deny {
    items: PageList<Prohibition>,
}

impl Drop for Deny {
    fn drop(self) {
        let Deny { items: _ } = self;
    }
}

impl Model for Deny {
    ghost use Rattle.std.specs.Prelude.{length, ◌≤◌};
    ghost use Rattle.pm_model.specs.Prohibitions.{max_prohibitions};
    ghost use Rattle.pm_model.specs.declared.prohibitions.Prohibition.{Prohibition};
    ghost use Rattle.pm_pages.specs.Paged.{Paged};

    ghost Value = { Paged Prohibition };

    ghost view = { λ t. t.items };

    ghost invariant = { λ t. length t.items.items ≤ max_prohibitions };
}

impl Deny {
    /// The list without prohibitions, which takes no memory.
    pub fn new(alloc: Global) -> Deny
        ensures items { result.items ≡ [] }
        ensures alone { result.alone ≡ true }
    {
        Deny {
            items: PageList::new(alloc, ROOM),
        }
    }

    /// What each list keeps: there are at most 4,096 prohibitions.
    pub fn few(&self)
        ensures { length self.now.items ≤ max_prohibitions }
    {
        let _ = &self.items;
    }

    /// Makes a prohibition, behind the others. `NameTaken`, `EmptyRange` and `Full` come where
    /// `check_prohibit` says so, `Memory` else.
    pub fn prohibit(&mut self, item: Prohibition) -> Result<(), DenyError>
        ensures fits { OnOk result (first_of (prohibit_checks self.old.items item) ≡ None) }
        ensures ok { OnOk result (self.new.items ≡ self.old.items ++ item ∷ []) }
        ensures alone { self.new.alone ≡ self.old.alone }
        ensures refused { IfErr result (λ e. IsCause (first_of (prohibit_checks self.old.items item)) (told e)) }
        ensures err { OnErr result (self.new ≡ self.old) }
    {
        self.check_prohibit(&item)?;
        self.items.push(item).map_err(|_| DenyError::Memory)
    }

    /// Takes the prohibition of the name away and gives it. `Absent` comes where none has the name;
    /// the only other error is `Memory`.
    pub fn lift(&mut self, name: Name) -> Result<Prohibition, DenyError>
        ensures stood { IfOk result (λ item. option_and_then (slice_get self.old.items) (place_called self.old.items name) ≡ Some item) }
        ensures ok { OnOk result (Some self.new.items ≡ option_map (remove self.old.items) (place_called self.old.items name)) }
        ensures alone { self.new.alone ≡ self.old.alone }
        ensures absent { IfErr result (λ e. e ≢ DenyError.Memory → e ≡ DenyError.Absent) }
        ensures none { IfErr result (λ e. e ≡ DenyError.Absent → place_called self.old.items name ≡ None) }
        ensures no_memory { self.old.alone ≡ true → IfErr result (λ e. e ≢ DenyError.Memory) }
        ensures err { OnErr result (self.new.items ≡ self.old.items) }
    {
        match self.find(name) {
            Some(index) => self.lift_at(index).map_err(|_| DenyError::Memory),
            None => Err(DenyError::Absent),
        }
    }

    /// Takes the prohibition at a place from 0 away and gives it. The others keep their order. It takes
    /// no memory where the list stands alone.
    pub fn lift_at(&mut self, index: u32) -> Result<Prohibition, Memory>
        requires { index < length self.old.items }
        ensures item { IfOk result (λ item. slice_get self.old.items index ≡ Some item) }
        ensures rest { OnOk result (self.new.items ≡ remove self.old.items index) }
        ensures alone { self.new.alone ≡ self.old.alone }
        ensures sure { self.old.alone ≡ true → IsOk result }
        ensures err { OnErr result (self.new.items ≡ self.old.items) }
    {
        take(&mut self.items, index as usize)
    }

    /// Makes ready that `lift_processes` takes the prohibitions on these processes away. It takes no
    /// memory where the list stands alone.
    pub fn own_processes(&mut self, ended: &[u32]) -> Result<(), Memory>
        ensures items { self.new.items ≡ self.old.items }
        ensures alone { self.new.alone ≡ self.old.alone }
        ensures ok { OnOk result (OwnWhere (is_on ended.now) self.new) }
        ensures sure { self.old.alone ≡ true → IsOk result }
    {
        own_processes(&mut self.items, ended)
    }

    /// Takes the prohibitions on these processes away, once `own_processes` has made it ready. It takes
    /// no memory.
    pub fn lift_processes(&mut self, ended: &[u32])
        requires { OwnWhere (is_on ended.now) self.old }
        ensures items { self.new.items ≡ without_processes ended.now self.old.items }
        ensures alone { self.new.alone ≡ self.old.alone }
    {
        drop_processes(&mut self.items, ended);
    }

    /// The place from 0 of the prohibition of the name; None exactly where none has it. Looks at each.
    pub fn find(&self, name: Name) -> Option<u32>
        ensures value { result ≡ place_called self.now.items name }
        ensures below { IfSome result (λ i. i < length self.now.items) }
    {
        let i = place(&self.items, name)?;
        Some(i as u32)
    }

    /// Whether some prohibition has the element as its subject or in one of its sets.
    pub fn names(&self, id: ElementId) -> bool
        ensures { result ≡ list_any (names_element id) self.now.items }
    {
        is_named(&self.items, id)
    }

    /// The place of the first prohibition that denies the user, or the process if there is one, the
    /// right on the element; None exactly where none does. It costs what `pm_decide::first_applying`
    /// does, and takes no memory.
    pub fn first_applying<R: Reach>(
        &self,
        user: ElementId,
        process: Option<u32>,
        right: u8,
        element: ElementId,
        reach: &mut R,
    ) -> Option<u32>
        requires bars { BarsLive (R.relation reach.old) self.now.items }
        requires user { IsLive (R.relation reach.old) user }
        requires right { right < right_bits }
        requires element { IsLive (R.relation reach.old) element }
        ensures answer { result ≡ first_applying (R.relation reach.old).below self.now.items user process right element }
        ensures same { R.relation reach.new ≡ R.relation reach.old }
    {
        pm_decide::first_applying(reach, self, user, process, right, element)
    }

    /// The same list once more. It shares the pages that are shared.
    pub fn copy(&self) -> Result<Deny, Memory>
        ensures { IfOk result (λ same. same.items ≡ self.now.items) }
    {
        Ok(Deny {
            items: self.items.copy()?,
        })
    }

    /// Lets copies share the prohibitions. It takes memory for each page that no copy shares. On Memory
    /// some pages may be shared.
    pub fn share(&mut self) -> Result<(), Memory>
        ensures { self.new.items ≡ self.old.items }
    {
        self.items.share()
    }

    /// Whether some prohibition has the name.
    pub(crate) fn has_name(&self, name: Name) -> bool
        ensures { result ≡ list_any (is_called name) self.now.items }
    {
        place(&self.items, name).is_some()
    }
}

impl Bars for Deny {
    ghost prohibitions = { λ t. t.items };

    fn len(&self) -> usize {
        self.items.len()
    }

    fn at(&self, i: usize) -> &Prohibition {
        self.items.at(i)
    }

    fn prohibitions_from(&self, i: usize) -> &[Prohibition] {
        self.items.run(i)
    }
}
