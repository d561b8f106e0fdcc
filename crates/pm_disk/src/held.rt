//! What a disk in memory holds at a moment: its content, what was synced last, and the steps since.

ghost use Rattle.std.specs.Prelude.{◌≡◌, ◌≤◌, ◌++◌, ◌∷◌, [], length, take, IfOk, OnOk, OnErr};
ghost use Rattle.pm_disk.specs.Disks.{Holds};

use pm_model::Memory;
use std::alloc::Global;
use std::marker::Model;

/// A call that changes a file, and that a crash may have cut short.
#[derive(Clone, Copy, Debug, PartialEq, Eq)]
pub(crate) enum Step {
    Write { at: usize, len: usize },
    Cut { len: usize },
}

/// A file at a moment.
pub(crate) struct Held {
    alloc: Global,
    content: Vec<u8>,
    synced: Vec<u8>,
    steps: Vec<Step>,
}

impl Drop for Held {
    fn drop(self) {
        let Held {
            alloc: _,
            content: _,
            synced: _,
            steps: _,
        } = self;
    }
}

impl Model for Held {
    ghost use Rattle.pm_disk.specs.Steps.{Moment};

    ghost Value = { Moment };

    ghost view = { λ h. record { content = h.content.items; synced = h.synced.items; steps = h.steps.items } };
}

/// These bytes with others written over them.
pub(crate) fn written_over(
    alloc: Global,
    bytes: &[u8],
    at: usize,
    piece: &[u8],
) -> Result<Vec<u8>, Memory>
    requires { at ≤ length bytes.now }
    ensures { IfOk result (λ v. Holds bytes.now at piece.now v.items) }
{
    let mut next = bytes[..at].to_vec(alloc)?;
    next.extend_from_slice(piece)?;
    if piece.len() < bytes.len() - at {
        next.extend_from_slice(&bytes[at + piece.len()..])?;
    }
    Ok(next)
}

fn with_step(alloc: Global, steps: &[Step], step: Step) -> Result<Vec<Step>, Memory>
    ensures { IfOk result (λ v. v.items ≡ steps.now ++ step ∷ []) }
{
    let mut more = Vec::from_slice(alloc, steps)?;
    more.push(step)?;
    Ok(more)
}

impl Held {
    /// A file of these bytes, all of them on the disk.
    pub(crate) fn new(alloc: Global, bytes: &[u8]) -> Result<Held, Memory>
        ensures { IfOk result (λ h. h ≡ record { content = bytes.now; synced = bytes.now; steps = [] }) }
    {
        Ok(Held {
            alloc,
            content: Vec::from_slice(alloc, bytes)?,
            synced: Vec::from_slice(alloc, bytes)?,
            steps: Vec::new(alloc),
        })
    }

    pub(crate) fn content(&self) -> &[u8]
        ensures { result.now ≡ self.now.content }
    {
        &self.content
    }

    pub(crate) fn synced(&self) -> &[u8]
        ensures { result.now ≡ self.now.synced }
    {
        &self.synced
    }

    pub(crate) fn steps(&self) -> &[Step]
        ensures { result.now ≡ self.now.steps }
    {
        &self.steps
    }

    pub(crate) fn copy(&self) -> Result<Held, Memory>
        ensures { IfOk result (λ h. h ≡ self.now) }
    {
        Ok(Held {
            alloc: self.alloc,
            content: Vec::from_slice(self.alloc, &self.content)?,
            synced: Vec::from_slice(self.alloc, &self.synced)?,
            steps: Vec::from_slice(self.alloc, &self.steps)?,
        })
    }

    // With this content after one step more.
    fn stepped(&self, content: Vec<u8>, step: Step) -> Result<Held, Memory>
        ensures { IfOk result (λ h. h ≡ record { content = content.items; synced = self.now.synced; steps = self.now.steps ++ step ∷ [] }) }
    {
        let steps = with_step(self.alloc, &self.steps, step)?;
        Ok(Held {
            alloc: self.alloc,
            content,
            synced: Vec::from_slice(self.alloc, &self.synced)?,
            steps,
        })
    }

    /// After a step that failed, and that changed nothing so far.
    pub(crate) fn failing(&self, step: Step) -> Result<Held, Memory>
        ensures { IfOk result (λ h. h ≡ record { content = self.now.content; synced = self.now.synced; steps = self.now.steps ++ step ∷ [] }) }
    {
        let content = Vec::from_slice(self.alloc, &self.content)?;
        self.stepped(content, step)
    }

    /// After a write.
    pub(crate) fn written(&self, at: usize, piece: &[u8]) -> Result<Held, Memory>
        requires { at ≤ length self.now.content }
        ensures content { IfOk result (λ h. Holds self.now.content at piece.now h.content) }
        ensures synced { IfOk result (λ h. h.synced ≡ self.now.synced) }
        ensures steps { IfOk result (λ h. h.steps ≡ self.now.steps ++ Step.Write at (length piece.now) ∷ []) }
    {
        let content = written_over(self.alloc, &self.content, at, piece)?;
        let step = Step::Write {
            at,
            len: piece.len(),
        };
        self.stepped(content, step)
    }

    /// After a cut.
    pub(crate) fn cut(&self, len: usize) -> Result<Held, Memory>
        requires { len ≤ length self.now.content }
        ensures { IfOk result (λ h. h ≡ record { content = take len self.now.content; synced = self.now.synced; steps = self.now.steps ++ Step.Cut len ∷ [] }) }
    {
        let content = Vec::from_slice(self.alloc, &self.content[..len])?;
        self.stepped(content, Step::Cut { len })
    }

    /// After a sync.
    pub(crate) fn settled(&self) -> Result<Held, Memory>
        ensures { IfOk result (λ h. h ≡ record { content = self.now.content; synced = self.now.content; steps = [] }) }
    {
        Held::new(self.alloc, &self.content)
    }
}

/// Goes on to the next moment, and keeps the one before.
pub(crate) fn go_on(now: &mut Held, past: &mut Vec<Held>, next: Held) -> Result<(), Memory>
    ensures ok { OnOk result ((now.new ≡ next) × (past.new.items ≡ past.old.items ++ now.old ∷ [])) }
    ensures err { OnErr result ((now.new ≡ now.old) × (past.new.items ≡ past.old.items)) }
{
    past.push(now.copy()?)?;
    *now = next;
    Ok(())
}
