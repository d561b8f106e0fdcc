//! The requests that make the items of a document, by process 0, whose user is `root`.

ghost use Rattle.std.specs.Prelude.{◌≡◌, IfOk};
ghost use Rattle.pm_making.specs.Lines.{creating};
ghost use Rattle.pm_model.specs.declared.requests.Command.{Command};
ghost use Rattle.pm_policy.specs.Requests.{asked, assign, associate, prohibit};

use pm_model::{Body, Command, Memory, Name, Request};
use pm_order::Turn;
use pm_policy::{DocAssignment, DocAssociation, DocElement, DocProhibition};

fn asked(command: Command) -> Request
    ensures { result ≡ asked command }
{
    Request {
        after: None,
        body: Body::Admin {
            process: 0,
            command,
        },
    }
}

/// An item of a document.
pub(crate) trait Item {
    /// The command that makes it.
    ghost made_by: { Self → Command };

    /// The request for it.
    fn request(&self) -> Result<Request, Memory>
        ensures { IfOk result (λ r. r ≡ asked (made_by self.now)) };
}

/// A defined right.
impl Item for Name {
    ghost use Rattle.pm_model.specs.declared.requests.Command.TheVariants as command;

    ghost made_by = { command.DefineRight };

    fn request(&self) -> Result<Request, Memory> {
        Ok(asked(Command::DefineRight { name: *self }))
    }
}

/// An element in the first of its containers, where it has one.
impl Item for Turn {
    ghost made_by = { creating };

    fn request(&self) -> Result<Request, Memory> {
        let DocElement { kind, name } = self.element;
        Ok(asked(match self.into {
            None => Command::CreatePc { name },
            Some(into) => Command::Create { kind, name, into },
        }))
    }
}

impl Item for DocAssignment {
    ghost made_by = { assign };

    fn request(&self) -> Result<Request, Memory> {
        Ok(asked(Command::Assign {
            from: self.from,
            to: self.to,
        }))
    }
}

impl Item for DocAssociation {
    ghost made_by = { associate };

    fn request(&self) -> Result<Request, Memory> {
        let rights = self.rights.copy()?;
        Ok(asked(Command::Associate {
            ua: self.ua,
            rights,
            at: self.at,
        }))
    }
}

impl Item for DocProhibition {
    ghost made_by = { prohibit };

    fn request(&self) -> Result<Request, Memory> {
        let inc = self.inc.copy()?;
        let exc = self.exc.copy()?;
        Ok(asked(Command::Prohibit {
            name: self.name,
            subject: self.subject,
            rights: self.rights.copy()?,
            inc,
            exc,
            mode: self.mode,
        }))
    }
}
