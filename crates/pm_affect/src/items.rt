//! One kept list.

ghost use Rattle.std.specs.Prelude.{◌≡◌, false, Some, OnOk, IfOk};
ghost use Rattle.pm_affect.specs.Lists.{IsInOrder, copied, listing};
ghost use Rattle.pm_affect.specs.Puts.{with_all, with_put};

use crate::pairs::Pairs;
use pm_model::{ElementId, Memory, PairList, Rights};
use std::marker::Model;

/// The list of a kept review, with what it is of.
pub(crate) struct Item {
    subject: ElementId,
    pairs: Pairs,
    /// The list when it was last copied, if there was one then.
    was: Option<Pairs>,
    /// Whether it was written to since, or there was none.
    written: bool,
}

impl Drop for Item {
    fn drop(self) {
        let Item {
            subject: _,
            pairs: _,
            was: _,
            written: _,
        } = self;
    }
}

impl Model for Item {
    ghost use Rattle.pm_affect.specs.Lists.{Listed};

    ghost Value = { Listed };

    ghost view = { λ k. record { subject = k.subject; pairs = k.pairs; was = k.was } };

    ghost use Rattle.std.specs.Prelude.{◌≡◌, false, Some};

    ghost invariant = { λ k. k.written ≡ false → k.was ≡ Some k.pairs };
}

impl Item {
    pub(crate) fn new(subject: ElementId, list: PairList) -> Result<Item, Memory>
        ensures { IfOk result (λ item. item ≡ listing subject list) }
    {
        Ok(Item {
            subject,
            pairs: Pairs::new(list)?,
            was: None,
            written: true,
        })
    }

    pub(crate) fn subject(&self) -> ElementId
        ensures { result ≡ self.now.subject }
    {
        self.subject
    }

    pub(crate) fn list(&self) -> &PairList
        ensures { result.now ≡ self.now.pairs }
    {
        self.pairs.list()
    }

    /// The same once more, which costs two pointers: the copy knows what the list was.
    pub(crate) fn copy(&self) -> Result<Item, Memory>
        ensures { IfOk result (λ copy. copy ≡ copied self.now) }
    {
        let pairs = self.pairs.copy()?;
        let was = self.pairs.copy()?;
        Ok(Item {
            subject: self.subject,
            pairs,
            was: Some(was),
            written: false,
        })
    }

    /// Whether the list may differ from what it was when it was last copied.
    pub(crate) fn is_written(&self) -> bool
        ensures { result ≡ false → self.now.was ≡ Some self.now.pairs }
    {
        self.written
    }

    /// Puts the rights of an element into the list.
    pub(crate) fn put(&mut self, element: ElementId, rights: Rights) -> Result<(), Memory>
        requires { IsInOrder 0 self.old.pairs }
        ensures ok { OnOk result (self.new ≡ with_put element rights self.old) }
        ensures subject { self.new.subject ≡ self.old.subject }
        ensures order { IsInOrder 0 self.new.pairs }
    {
        let written = self.written;
        self.written = true;
        let changed = self.pairs.put(element, rights)?;
        self.written = written || changed;
        Ok(())
    }

    /// Puts each pair of a row into the list.
    pub(crate) fn put_all(&mut self, row: &PairList) -> Result<(), Memory>
        requires { IsInOrder 0 self.old.pairs }
        ensures ok { OnOk result (self.new ≡ with_all row.now self.old) }
        ensures subject { self.new.subject ≡ self.old.subject }
        ensures order { IsInOrder 0 self.new.pairs }
    {
        let written = self.written;
        self.written = true;
        let changed = self.pairs.put_all(row)?;
        self.written = written || changed;
        Ok(())
    }
}
