//! A connection.

ghost use Rattle.std.specs.Prelude.{◌≡◌, [], IfOk};
ghost use Rattle.pm_model.specs.Lines.{shape};

use pm_model::Memory;
use pm_session::Session;
use std::alloc::Global;
use std::marker::Model;

/// A connection: its number, its link, and what has come of it and is to be sent. Contracts see these three.
pub struct Conn<L> {
    number: u64,
    pub(crate) link: L,
    pub(crate) session: Session,
}

impl<L> Model for Conn<L> {
    ghost use Rattle.pm_worker.specs.Connected.{Connected};

    ghost Value = { Connected L };

    ghost view = { λ c. record { number = c.number; link = c.link; session = c.session } };
}

impl<L: Drop> Drop for Conn<L> {
    fn drop(self) {
        let Conn {
            number: _,
            link: _,
            session: _,
        } = self;
    }
}

impl<L: Drop> Conn<L> {
    /// A connection over this link. On Memory the link is dropped.
    pub fn new(alloc: Global, number: u64, link: L) -> Result<Conn<L>, Memory>
        ensures { IfOk result (λ c. c ≡ record { number = number; link = link; session = record { waiting = []; output = [] } }) }
    {
        let session = Session::new(alloc)?;
        Ok(Conn {
            number,
            link,
            session,
        })
    }
}

impl<L> Conn<L> {
    /// Its number, which never changes.
    pub fn number(&self) -> u64
        ensures { result ≡ self.now.number }
    {
        self.number
    }

    /// The link.
    pub fn link(&self) -> &L
        ensures { result.now ≡ self.now.link }
    {
        &self.link
    }

    /// What has come of it, and what is to be sent.
    pub fn session(&self) -> &Session
        ensures { result.now ≡ self.now.session }
    {
        &self.session
    }

    /// What each connection keeps: the bytes that wait are kept as lines are.
    pub fn shaped(&self)
        ensures { shape self.now.session.waiting ≡ self.now.session.waiting }
    {
        self.session.shaped()
    }
}
