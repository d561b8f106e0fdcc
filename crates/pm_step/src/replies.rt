//! What the reply to an accepted request tells.
ghost use Rattle.std.specs.Prelude.{◌≡◌};
ghost use Rattle.pm_model.specs.Made.{shown_of};

use pm_model::{Made, Reply, Shown};

fn shown(made: Made) -> Shown
    ensures { result ≡ shown_of made }
{
    match made {
        Made::Session(number) => Shown::Session(number),
        Made::Process(number) => Shown::Process(number),
        Made::Review(number) => Shown::Review(number),
        Made::Nothing | Made::Element(_) => Shown::Nothing,
    }
}

/// The reply to what has made this, where so many obligations have responded.
pub(crate) fn done(fired: u32, made: Made) -> Reply
    ensures { result ≡ Reply.Done fired (shown_of made) }
{
    Reply::Done {
        fired,
        shown: shown(made),
    }
}
