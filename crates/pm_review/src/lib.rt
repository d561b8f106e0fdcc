//! Reviews: what a user may do, who may do something to an element, and how much a user may do, over whatever judges
//! rights; and what differs between two lists.
#![tactic(auto)]

ghost use Rattle.std.specs.Prelude.{◌≡◌, ◌<◌, ◌≤◌, ◌+◌, ◌^◌, ◌++◌, ◌∷◌, [], filter, length, IfOk, OnOk};
ghost use Rattle.pm_model.specs.Reviews.{pair, has_some, capabilities, entries};
ghost use Rattle.pm_review.specs.Live.{IsLive, AllLive};

mod differences;
mod laws;
mod surveys;

pub use differences::{changes, changes_of_rights};
pub use laws::lists_rise;
use pm_model::{ElementId, Judge, Memory, Pair, PairList, PlaceList, Rights, UserList};
pub use surveys::bulk;

/// Puts the pair at the end of the list, unless its set of rights is empty.
fn push_some(list: &mut PairList, element: ElementId, rights: Rights) -> Result<(), Memory>
    ensures { OnOk result (list.new ≡ list.old ++ filter has_some (pair element rights ∷ [])) }
{
    if rights.is_empty() {
        return Ok(());
    }
    list.push(Pair { element, rights })
}

/// The capabilities of the user: those of the elements on which the user has rights, with these, in the order of the
/// list. For all capabilities the list is that of all live elements.
///
/// It asks the judge once for each element of the list; after Memory it may have asked for some of them only.
pub fn capabilities<J: Judge>(
    judge: &mut J,
    elements: &PlaceList,
    user: ElementId,
) -> Result<PairList, Memory>
    requires user { IsLive (J.judgement judge.old) user }
    requires elements { AllLive (J.judgement judge.old) elements.now }
    requires room { J.asked judge.old + length elements.now < 2 ^ 64 }
    ensures list { IfOk result (λ list. list ≡ capabilities (J.judgement judge.old).rights elements.now user) }
    ensures asked { OnOk result (J.asked judge.new ≡ J.asked judge.old + length elements.now) }
    ensures most { J.asked judge.new ≤ J.asked judge.old + length elements.now }
    ensures same { J.judgement judge.new ≡ J.judgement judge.old }
{
    let mut list = PairList::new(elements.allocator());
    for element in elements.as_slice() {
        let rights = judge.judge(user, *element);
        push_some(&mut list, *element, rights)?;
    }
    Ok(list)
}

/// The entries of the element: those of the users who have rights on it, with these, in the order of the list. For all
/// entries the list is that of all live users.
///
/// It asks the judge once for each user of the list; after Memory it may have asked for some of them only.
pub fn entries<J: Judge>(
    judge: &mut J,
    users: &UserList,
    element: ElementId,
) -> Result<PairList, Memory>
    requires users { AllLive (J.judgement judge.old) users.now }
    requires element { IsLive (J.judgement judge.old) element }
    requires room { J.asked judge.old + length users.now < 2 ^ 64 }
    ensures list { IfOk result (λ list. list ≡ entries (J.judgement judge.old).rights users.now element) }
    ensures asked { OnOk result (J.asked judge.new ≡ J.asked judge.old + length users.now) }
    ensures most { J.asked judge.new ≤ J.asked judge.old + length users.now }
    ensures same { J.judgement judge.new ≡ J.judgement judge.old }
{
    let mut list = PairList::new(users.allocator());
    for user in users.as_slice() {
        let rights = judge.judge(*user, element);
        push_some(&mut list, *user, rights)?;
    }
    Ok(list)
}
