//! Items that can be made once more.

ghost use Rattle.std.specs.Prelude.{◌≡◌, IfOk};

use pm_model::{
    Association, ElementId, Grant, Grantee, Memory, Name, Obligation, Process, Prohibition, Session,
};

/// What can be made once more, where there is memory for it.
pub trait CopyOf: Sized {
    /// The same once more.
    fn copied(&self) -> Result<Self, Memory>
        ensures { IfOk result (λ same. same ≡ self.now) };
}

impl<T: CopyOf> CopyOf for Option<T> {
    fn copied(&self) -> Result<Option<T>, Memory> {
        match self {
            Some(item) => Ok(Some(item.copied()?)),
            None => Ok(None),
        }
    }
}

impl CopyOf for u32 {
    fn copied(&self) -> Result<u32, Memory> {
        Ok(*self)
    }
}

impl CopyOf for ElementId {
    fn copied(&self) -> Result<ElementId, Memory> {
        Ok(*self)
    }
}

impl CopyOf for (ElementId, ElementId) {
    fn copied(&self) -> Result<(ElementId, ElementId), Memory> {
        Ok(*self)
    }
}

impl CopyOf for (Name, ElementId) {
    fn copied(&self) -> Result<(Name, ElementId), Memory> {
        Ok((self.0, self.1))
    }
}

impl CopyOf for Session {
    fn copied(&self) -> Result<Session, Memory> {
        Ok(*self)
    }
}

impl CopyOf for Process {
    fn copied(&self) -> Result<Process, Memory> {
        Ok(*self)
    }
}

impl CopyOf for Grant {
    fn copied(&self) -> Result<Grant, Memory> {
        Ok(*self)
    }
}

impl CopyOf for Association {
    fn copied(&self) -> Result<Association, Memory> {
        Ok(*self)
    }
}

impl CopyOf for Prohibition {
    fn copied(&self) -> Result<Prohibition, Memory> {
        self.copy()
    }
}

impl CopyOf for Obligation {
    fn copied(&self) -> Result<Obligation, Memory> {
        self.copy()
    }
}

impl CopyOf for Grantee {
    fn copied(&self) -> Result<Grantee, Memory> {
        Ok(Grantee {
            ua: self.ua,
            grants: self.grants.copy()?,
        })
    }
}
