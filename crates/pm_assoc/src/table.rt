//! The table: its associations by user attribute, and how many there are.

ghost use Rattle.std.specs.Prelude.{◌≡◌, ◌≢◌, [], true, false, None, OnOk, OnErr, IfOk, IfErr, length, filter, not};
ghost use Rattle.std.specs.List.{list_any};
ghost use Rattle.pm_model.specs.Results.{first_of};
ghost use Rattle.pm_model.specs.Decision.{associations_of};
ghost use Rattle.pm_model.specs.Effect.{associate_checks, dissociate_checks, has_end, joins, joined, IsCause};
ghost use Rattle.pm_assoc.specs.Grantees.{AreGrantees};
ghost use Rattle.pm_assoc.specs.Told.{told};

use crate::errors::AssocError;
use crate::grantees::{add, grantee_of, has, is_holder, is_named, remove};
use crate::holders::Holders;
use pm_model::{ElementId, Grant, Grantee, Grants, Memory, Rights};
use pm_pages::PageList;
use std::alloc::Global;
use std::marker::Model;

/// How many user attributes stand in a page. A change copies a page that a version shares, and each list in it.
const ROOM: usize = 16;

/// The associations: at most one of a user attribute on an element, and at most 65,536. Contracts see
/// the user attributes that have associations, by rising number, each with its own in order of creation,
/// and whether the table shares its pages with copies: where it stands alone, nothing is taken away at
/// the cost of memory.
pub struct Assoc {
    grantees: PageList<Grantee>,
    holders: Holders,
    count: usize,
}

impl Drop for Assoc {
    fn drop(self) {
        let Assoc {
            grantees: _,
            holders: _,
            count: _,
        } = self;
    }
}

impl Model for Assoc {
    ghost use Rattle.pm_assoc.specs.Shown.{Shown};

    ghost Value = { Shown };

    ghost use Rattle.pm_assoc.specs.Kept.{shown, IsKept};

    ghost view = { shown };

    ghost invariant = { IsKept };
}

impl Assoc {
    /// The table without associations, which takes no memory.
    pub fn new(alloc: Global) -> Self
        ensures grantees { result.grantees ≡ [] }
        ensures alone { result.alone ≡ true }
    {
        Assoc {
            grantees: PageList::new(alloc, ROOM),
            holders: Holders::new(alloc),
            count: 0,
        }
    }

    /// Does nothing. Its contract is what each table keeps: the user attributes rise, and each has an
    /// association.
    pub fn kept(&self)
        ensures { AreGrantees 0 self.now.grantees }
    {
        let _ = &self.grantees;
    }

    /// Gives the users in a user attribute these rights on what is in `at`. `Already` and `Full` come
    /// where `check_associate` says so; the only other error is `Memory`.
    pub fn associate(
        &mut self,
        ua: ElementId,
        rights: Rights,
        at: ElementId,
    ) -> Result<(), AssocError>
        ensures fits { OnOk result (first_of (associate_checks (associations_of self.old.grantees) ua at) ≡ None) }
        ensures ok { OnOk result (associations_of self.new.grantees ≡ joined (record { ua = ua; rights = rights; at = at }) (associations_of self.old.grantees)) }
        ensures alone { self.new.alone ≡ self.old.alone }
        ensures refused { IfErr result (λ e. IsCause (first_of (associate_checks (associations_of self.old.grantees) ua at)) (told e)) }
        ensures err { OnErr result (self.new ≡ self.old) }
    {
        self.check_associate(ua, at)?;
        self.holders.make_room(ua.number())?;
        add(&mut self.grantees, &self.holders, ua, Grant { rights, at })?;
        self.holders.insert(ua.number());
        self.count += 1;
        Ok(())
    }

    /// Takes the association of the user attribute on the element away. `Absent` comes where
    /// `check_dissociate` says so; the only other error is `Memory`, and none where the table stands
    /// alone.
    pub fn dissociate(&mut self, ua: ElementId, at: ElementId) -> Result<(), AssocError>
        ensures fits { OnOk result (first_of (dissociate_checks (associations_of self.old.grantees) ua at) ≡ None) }
        ensures ok { OnOk result (associations_of self.new.grantees ≡ filter (λ a. not (joins ua at a)) (associations_of self.old.grantees)) }
        ensures alone { self.new.alone ≡ self.old.alone }
        ensures refused { IfErr result (λ e. IsCause (first_of (dissociate_checks (associations_of self.old.grantees) ua at)) (told e)) }
        ensures no_memory { self.old.alone ≡ true → IfErr result (λ e. e ≢ AssocError.Memory) }
        ensures err { OnErr result (self.new ≡ self.old) }
    {
        self.check_dissociate(ua, at)?;
        let gone = remove(&mut self.grantees, &self.holders, ua, at)?;
        if !is_holder(&self.grantees, &self.holders, ua) {
            self.holders.remove(ua.number());
        }
        self.count -= gone;
        Ok(())
    }

    /// Whether some association has the element at either end.
    pub fn names(&self, id: ElementId) -> bool
        ensures { result ≡ list_any (has_end id) (associations_of self.now.grantees) }
    {
        is_named(&self.grantees, id)
    }

    /// How many associations there are: at most 65,536.
    pub fn len(&self) -> usize
        ensures { result ≡ length (associations_of self.now.grantees) }
    {
        self.count
    }

    /// Lets copies share the associations. It takes memory for each page that no copy shares. On Memory
    /// some pages may be shared.
    pub fn share(&mut self) -> Result<(), Memory>
        ensures grantees { self.new.grantees ≡ self.old.grantees }
        ensures alone { self.new.alone ≡ false }
    {
        self.grantees.share()
    }

    /// The same table once more. It shares the pages that are shared, and copies which user attributes
    /// have associations, 3 KB where elements are below 16,384.
    pub fn copy(&self) -> Result<Assoc, Memory>
        ensures grantees { IfOk result (λ same. same.grantees ≡ self.now.grantees) }
        ensures alone { IfOk result (λ same. same.alone ≡ false) }
    {
        Ok(Assoc {
            grantees: self.grantees.copy()?,
            holders: self.holders.copy()?,
            count: self.count,
        })
    }

    /// Whether the user attribute has an association on the element.
    pub(crate) fn has(&self, ua: ElementId, at: ElementId) -> bool
        ensures { result ≡ list_any (joins ua at) (associations_of self.now.grantees) }
    {
        has(&self.grantees, &self.holders, ua, at)
    }
}

impl Grants for Assoc {
    ghost grantees = { λ t. t.grantees };

    fn holder_words(&self) -> u32 {
        self.holders.len()
    }

    fn holders(&self, k: u32) -> u64 {
        self.holders.word(k)
    }

    fn grantee(&self, ua: ElementId) -> &Grantee {
        grantee_of(&self.grantees, &self.holders, ua)
    }
}
