//! What is shared is never written: an `Arc` gives its value only to a sole owner. So a change of one
//! table never shows in another.

ghost use Rattle.std.specs.Prelude.{◌≡◌, true, IfOk, IfErr};
ghost use Rattle.std.specs.Borrow.{Lends, sem};
ghost use Rattle.pm_reach.specs.Sharing.{is_owned};
ghost use Rattle.pm_reach.specs.Table.{value_of};

use std::alloc::Global;
use std::sync::Arc;

/// What a table has.
#[derive(Drop)]
pub(crate) enum Held<T> {
    /// No other table has it.
    Own(T),
    /// Other tables may have it too.
    Shared(Arc<T>),
}

impl<T> Held<T> {
    ghost use Rattle.pm_reach.specs.contracts.held.Held.{the_row};

    /// What no other table has, to be written.
    pub(crate) fn own_mut(&mut self) -> &mut T
        requires { is_owned self.old ≡ true }
        ensures* writes_back { sem 𝓛 (Lends (the_row T.row) T.row self.entry result Held.Own) }
        ensures value { self.old ≡ Held.Own result.now }
    {
        match self {
            Held::Own(value) => value,
            Held::Shared(_) => unreachable!(),
        }
    }
}

pub(crate) fn read<T>(held: &Held<T>) -> &T
    ensures { result.now ≡ value_of held.now }
{
    match held {
        Held::Own(value) => value,
        Held::Shared(shared) => &**shared,
    }
}

/// Lets it be shared. It takes memory where it wasn't.
pub(crate) fn shared<T: Drop>(alloc: Global, held: Held<T>) -> Result<Held<T>, Held<T>>
    ensures ok { IfOk result (λ same. value_of same ≡ value_of held) }
    ensures err { IfErr result (λ same. same ≡ held) }
{
    match held {
        Held::Own(value) => match Arc::new(alloc, value) {
            Ok(shared) => Ok(Held::Shared(shared)),
            Err(failed) => Err(Held::Own(failed.value)),
        },
        Held::Shared(shared) => Ok(Held::Shared(shared)),
    }
}
