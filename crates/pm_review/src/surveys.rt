//! How much each of several users may do, counted by several threads at once.

ghost use Rattle.std.specs.Prelude.{◌≡◌, ◌≤◌, ◌^◌, length, count_ones, IfOk};
ghost use Rattle.pm_model.specs.Reviews.{count_held, survey};
ghost use Rattle.pm_model.specs.RightSet.{right_bits};
ghost use Rattle.pm_review.specs.Asking.{Accepts, AnswersRights};
ghost use Rattle.pm_review.specs.Live.{IsLive, AllLive};

use pm_model::{CountList, ElementId, Judge, Memory, PlaceList, Rights, UserList};
use rayon::prelude::*;
use std::alloc::Global;
use std::thread::Threads;

/// How many pairs of a user and an element are worth a thread. To judge so many takes some 200 microseconds, and to start a
/// thread up to 50: so a survey of less than twice as many stays in one.
const PAIRS_A_PIECE: usize = 4_096;

/// How many rights are in the set.
fn size(rights: Rights) -> u64
    ensures size { result ≡ count_ones rights }
    ensures most { result ≤ right_bits }
{
    u64::from(rights.0.count_ones())
}

/// How many pairs of a right and one of the elements the user has.
fn count_held<J: Judge, F: Fn(&J, ElementId, ElementId) -> Rights>(
    source: &J,
    ask: &F,
    elements: &PlaceList,
    user: ElementId,
) -> u64
    requires user { IsLive (J.judgement source.now) user }
    requires elements { AllLive (J.judgement source.now) elements.now }
    requires few { length elements.now ≤ 2 ^ 32 }
    requires accepts { Accepts source.now (J.judgement source.now) (F.pre ask.now) }
    requires answers { AnswersRights source.now (J.judgement source.now) (F.post ask.now) }
    ensures { result ≡ count_held (J.judgement source.now).rights elements.now user }
{
    let mut count = 0;
    for element in elements.as_slice() {
        count += size(ask(source, user, *element));
    }
    count
}

/// The counts as a list.
fn list_of(alloc: Global, counts: &[u64]) -> Result<CountList, Memory>
    ensures { IfOk result (λ list. list ≡ counts.now) }
{
    let mut list = CountList::new(alloc);
    for count in counts {
        list.push(*count)?;
    }
    Ok(list)
}

/// How many pairs of a right and one of the elements each of the users has, in their order: what counting one user after
/// another comes to. `ask` tells the rights that the source judges by, and is called once for each pair of a user and an
/// element, in several threads where there are enough of them. After Memory it may have been called for some of them only.
pub fn bulk<J: Judge + Sync, F: Fn(&J, ElementId, ElementId) -> Rights + Sync, R: Threads + Sync>(
    rt: &R,
    source: &J,
    ask: F,
    elements: &PlaceList,
    users: &UserList,
) -> Result<CountList, Memory>
    requires users { AllLive (J.judgement source.now) users.now }
    requires elements { AllLive (J.judgement source.now) elements.now }
    requires few { length elements.now ≤ 2 ^ 32 }
    requires accepts { Accepts source.now (J.judgement source.now) (F.pre ask) }
    requires answers { AnswersRights source.now (J.judgement source.now) (F.post ask) }
    ensures { IfOk result (λ counts. counts ≡ survey (J.judgement source.now).rights elements.now users.now) }
{
    let alloc = elements.allocator();
    let least = PAIRS_A_PIECE.div_ceil(elements.len().max(1));
    let counts = users
        .as_slice()
        .par_iter()
        .with_min_len(least)
        .map(|user| count_held(source, &ask, elements, *user))
        .collect::<Vec<u64>>(rt, alloc)?;
    list_of(alloc, counts.as_slice())
}
