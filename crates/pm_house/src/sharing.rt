//! Versions that many hold at once.

ghost use Rattle.std.specs.Prelude.{◌≡◌, IfOk};

use pm_machine::Version;
use pm_model::Memory;
use pm_publish::Copies;
use std::alloc::Global;

/// The same version, of which the version after it can share what it has.
pub(crate) fn shared<V: Version>(version: V) -> Result<V, Memory>
    ensures { IfOk result (λ v. V.machine v ≡ V.machine version) }
{
    let mut version = version;
    version.share()?;
    Ok(version)
}

/// The same, with all pointers that its publication takes.
pub(crate) fn ready<V: Version>(alloc: Global, version: V) -> Result<Copies<V>, Memory>
    ensures { IfOk result (λ c. V.machine c ≡ V.machine version) }
{
    Copies::new(alloc, shared(version)?)
}
