//! What takes rights: whom it denies which rights, and on what.

ghost use Rattle.std.specs.Prelude.{◌≡◌, IfOk};

use crate::elements::ElementId;
use crate::lists::PlaceList;
use crate::memory::Memory;
use crate::names::Name;
use crate::rights::Rights;

/// How the two sets of a prohibition make its range. Source: the report's conjunctive and
/// disjunctive prohibitions; the names are the project's own.
#[derive(Clone, Copy, Debug, PartialEq, Eq)]
pub enum Mode {
    /// What is contained in every inclusion attribute and in no exclusion attribute.
    All,
    /// What is contained in some inclusion attribute, or isn't contained in some exclusion attribute.
    Any,
}

/// Whom a prohibition denies: a user, the users in a user attribute, or a process.
#[derive(Clone, Copy, Debug, PartialEq, Eq)]
pub enum Subject<N, P> {
    User(N),
    Ua(N),
    Process(P),
}

/// A prohibition: it denies its subject these rights on what lies in its range.
pub struct Prohibition {
    pub name: Name,
    pub subject: Subject<ElementId, u32>,
    pub rights: Rights,
    pub inc: PlaceList,
    pub exc: PlaceList,
    pub mode: Mode,
}

impl Drop for Prohibition {
    fn drop(self) {
        let Prohibition {
            name: _,
            subject: _,
            rights: _,
            inc: _,
            exc: _,
            mode: _,
        } = self;
    }
}

impl Prohibition {
    /// The same prohibition once more.
    pub fn copy(&self) -> Result<Prohibition, Memory>
        ensures { IfOk result (λ same. same ≡ self.now) }
    {
        let inc = self.inc.copy()?;
        let exc = self.exc.copy()?;
        Ok(Prohibition {
            name: self.name,
            subject: self.subject,
            rights: self.rights,
            inc,
            exc,
            mode: self.mode,
        })
    }
}
