//! Bytes that a crash may leave of a file in memory.

ghost use Rattle.std.specs.Prelude.{◌≡◌, ◌≤◌, length, IfOk};
ghost use Rattle.pm_disk.specs.Steps.{IsStep, Leads, MayLeave};

use crate::held::{Held, Step, written_over};
use pm_model::Memory;
use std::alloc::Global;

fn all_of(alloc: Global, bytes: &[u8]) -> Result<Vec<u8>, Memory>
    ensures { IfOk result (λ v. v.items ≡ bytes.now) }
{
    Ok(Vec::from_slice(alloc, bytes)?)
}

// So many bytes, all alike.
fn repeated(alloc: Global, byte: u8, len: usize) -> Result<Vec<u8>, Memory>
    ensures { IfOk result (λ v. length v.items ≡ len) }
{
    let mut bytes = Vec::with_capacity(alloc, len)?;
    bytes.resize(len, byte)?;
    Ok(bytes)
}

fn after_write(
    alloc: Global,
    bytes: &[u8],
    at: usize,
    len: usize,
    mix: u8,
) -> Result<Vec<u8>, Memory>
    ensures { IfOk result (λ v. IsStep (Step.Write at len) bytes.now v.items) }
{
    if at > bytes.len() {
        return all_of(alloc, bytes);
    }
    let piece = repeated(alloc, mix, len)?;
    written_over(alloc, bytes, at, &piece)
}

fn after_cut(alloc: Global, bytes: &[u8], len: usize) -> Result<Vec<u8>, Memory>
    ensures { IfOk result (λ v. IsStep (Step.Cut len) bytes.now v.items) }
{
    if len > bytes.len() {
        return all_of(alloc, bytes);
    }
    all_of(alloc, &bytes[..len])
}

// After a step in which each byte that is written is this one.
fn after_step(alloc: Global, bytes: &[u8], step: &Step, mix: u8) -> Result<Vec<u8>, Memory>
    ensures { IfOk result (λ v. IsStep step.now bytes.now v.items) }
{
    match step {
        Step::Write { at, len } => after_write(alloc, bytes, *at, *len, mix),
        Step::Cut { len } => after_cut(alloc, bytes, *len),
    }
}

fn after_steps(alloc: Global, synced: &[u8], steps: &[Step], mix: u8) -> Result<Vec<u8>, Memory>
    ensures { IfOk result (λ v. Leads steps.now synced.now v.items) }
{
    let mut bytes = all_of(alloc, synced)?;
    for i in 0..steps.len() {
        bytes = after_step(alloc, &bytes, &steps[i], mix)?;
    }
    Ok(bytes)
}

#[tactic(auto, using(crate::proofs::Stepping::synced_left))]
fn all_synced(alloc: Global, held: &Held) -> Result<Vec<u8>, Memory>
    ensures image { IfOk result (λ v. MayLeave held.now v.items) }
    ensures synced { IfOk result (λ v. v.items ≡ held.now.synced) }
{
    let bytes = all_of(alloc, held.synced())?;
    Ok(bytes)
}

/// What a crash leaves: at 0 what was synced last, at 1 the content, and else what was synced last with this byte in all that
/// was written since.
pub(crate) fn torn(alloc: Global, held: &Held, mix: u8) -> Result<Vec<u8>, Memory>
    ensures image { IfOk result (λ v. MayLeave held.now v.items) }
    ensures synced { mix ≡ 0 → IfOk result (λ v. v.items ≡ held.now.synced) }
    ensures content { mix ≡ 1 → IfOk result (λ v. v.items ≡ held.now.content) }
{
    match mix {
        0 => all_synced(alloc, held),
        1 => all_of(alloc, held.content()),
        _ => after_steps(alloc, held.synced(), held.steps(), mix),
    }
}
