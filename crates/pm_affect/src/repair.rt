//! The lists of kept reviews after a change: the pairs that it can have changed are judged, each once, and put into the lists
//! that have them.

ghost use Rattle.std.specs.Prelude.{◌≡◌, ℕ, Bool, ◌<◌, ◌+◌, ◌*◌, ◌^◌, ◌-◌, ◌∷◌, [], true, false, length, map, min, filter, IfOk, OnOk};
ghost use Rattle.pm_decide.specs.Live.{IsLive, AllLive};
ghost use Rattle.pm_affect.specs.Affected.{is_in};
ghost use Rattle.pm_affect.specs.Judged.{in_scope, judged};
ghost use Rattle.pm_affect.specs.Lists.{Rise, is_among, subjects};
ghost use Rattle.pm_affect.specs.Live.{AreAsked, AreJudged, IsJudged, RegionLive};
ghost use Rattle.pm_affect.specs.Puts.{judged_pairs, place, put_each};
ghost use Rattle.pm_affect.specs.Right.{AreRight, caps_anew, entries_anew};
ghost use Rattle.pm_affect.specs.Rows.{ArePassed, has_near, has_row, is_near, row, with_each};

use crate::lists::KeptLists;
use crate::region::{Region, Row};
use crate::touching::{Asked, Side, some_near};
use pm_model::{ElementId, Judge, Memory, Pair, PairList, PlaceList, Reach, UserList};

/// Some elements, and those of them that are near a region.
#[derive(Clone, Copy)]
struct Columns<'a> {
    all: &'a PlaceList,
    near: &'a PlaceList,
}

/// Those of the elements that are near. They are by rising number, so that 64 cost one question where none of them may be.
fn near<R: Reach>(region: &Region, elements: &PlaceList, reach: &mut R) -> Result<PlaceList, Memory>
    requires region { RegionLive (R.relation reach.old) region.now }
    requires elements { AllLive (R.relation reach.old) elements.now }
    ensures near { IfOk result (λ near. near ≡ filter (is_near (R.relation reach.old).below region.now) elements.now) }
    ensures same { R.relation reach.new ≡ R.relation reach.old }
{
    let mut near = PlaceList::new(elements.allocator());
    let mut asked = Asked::nothing();
    for i in 0..elements.len() {
        let element = *elements.at(i);
        if region.finds_near(Side::Element, element, &mut asked, reach) {
            near.push(element)?;
        }
    }
    Ok(near)
}

/// Those of the elements that are near, where a user whose capabilities are kept has such a row; else none is asked about.
fn near_for<R: Reach>(
    region: &Region,
    lists: &KeptLists,
    elements: &PlaceList,
    reach: &mut R,
) -> Result<PlaceList, Memory>
    requires region { RegionLive (R.relation reach.old) region.now }
    requires users { AllLive (R.relation reach.old) (subjects lists.now.caps) }
    requires elements { AllLive (R.relation reach.old) elements.now }
    ensures near { IfOk result (λ near. (u : ℕ) → is_among (subjects lists.now.caps) u ≡ true → has_near (R.relation reach.old).below region.now u ≡ true → near ≡ filter (is_near (R.relation reach.old).below region.now) elements.now) }
    ensures same { R.relation reach.new ≡ R.relation reach.old }
{
    if some_near(Side::User, lists.caps(), region, reach) {
        return near(region, elements, reach);
    }
    Ok(PlaceList::new(elements.allocator()))
}

/// The rights that the user has on each of the elements.
fn judged_row<J: Judge>(
    user: ElementId,
    elements: &PlaceList,
    judge: &mut J,
) -> Result<PairList, Memory>
    requires user { IsJudged (J.judgement judge.old) user }
    requires elements { AreJudged (J.judgement judge.old) elements.now }
    requires room { J.asked judge.old + length elements.now < 2 ^ 64 }
    ensures row { IfOk result (λ row. row ≡ judged_pairs ((J.judgement judge.old).rights user) elements.now) }
    ensures asked { OnOk result (J.asked judge.new ≡ J.asked judge.old + length elements.now) }
    ensures same { J.judgement judge.new ≡ J.judgement judge.old }
{
    let mut row = PairList::with_room(elements.allocator(), elements.len())?;
    for n in 0..elements.len() {
        let element = *elements.at(n);
        let rights = judge.judge(user, element);
        row.push(Pair { element, rights })?;
    }
    Ok(row)
}

/// Judges the user's rights on each of the elements, and puts them into the lists; tells how many there were. The place is the
/// user's among the capabilities.
fn judge_row<J: Judge>(
    lists: &mut KeptLists,
    i: usize,
    user: ElementId,
    elements: &PlaceList,
    judge: &mut J,
) -> Result<u64, Memory>
    requires place { i ≡ place user (subjects lists.old.caps) }
    requires user { IsJudged (J.judgement judge.old) user }
    requires elements { AreJudged (J.judgement judge.old) elements.now }
    requires room { J.asked judge.old + length elements.now < 2 ^ 64 }
    ensures lists { OnOk result (lists.new ≡ put_each (J.judgement judge.old).rights (with_each user elements.now) lists.old) }
    ensures count { IfOk result (λ n. n ≡ length elements.now) }
    ensures asked { OnOk result (J.asked judge.new ≡ J.asked judge.old + length elements.now) }
    ensures same { J.judgement judge.new ≡ J.judgement judge.old }
{
    let row = judged_row(user, elements, judge)?;
    lists.put_row(i, user, &row)?;
    Ok(elements.len() as u64)
}

/// Whether none of the elements lies in the region with any user, as far as they tell.
#[tactic(auto, using(crate::proofs::Rows::none_of_all))]
fn are_none(region: &Region, columns: &Columns) -> bool
    ensures { result ≡ true → (below : ℕ → ℕ → Bool) (u : ℕ) → (has_near below region.now u ≡ true → columns.now.near.now ≡ filter (is_near below region.now) columns.now.all.now) → row (is_in below region.now) u columns.now.all.now ≡ [] }
{
    if region.is_wide() {
        return columns.all.len() == 0;
    }
    columns.near.len() == 0
}

/// Does so with those of some elements that lie in the region with the user. Where there may be some, the region is asked for
/// the user once.
fn judge_columns<J: Judge, R: Reach>(
    lists: &mut KeptLists,
    region: &Region,
    i: usize,
    user: ElementId,
    columns: &Columns,
    reach: &mut R,
    judge: &mut J,
) -> Result<u64, Memory>
    requires place { i ≡ place user (subjects lists.old.caps) }
    requires region { RegionLive (R.relation reach.old) region.now }
    requires user { IsLive (R.relation reach.old) user }
    requires judged_user { IsJudged (J.judgement judge.old) user }
    requires elements { AreJudged (J.judgement judge.old) columns.now.all.now }
    requires near { has_near (R.relation reach.old).below region.now user ≡ true → columns.now.near.now ≡ filter (is_near (R.relation reach.old).below region.now) columns.now.all.now }
    requires room { J.asked judge.old + length (row (is_in (R.relation reach.old).below region.now) user columns.now.all.now) < 2 ^ 64 }
    ensures lists { OnOk result (lists.new ≡ put_each (J.judgement judge.old).rights (row (is_in (R.relation reach.old).below region.now) user columns.now.all.now) lists.old) }
    ensures count { IfOk result (λ n. n ≡ length (row (is_in (R.relation reach.old).below region.now) user columns.now.all.now)) }
    ensures asked { OnOk result (J.asked judge.new ≡ J.asked judge.old + length (row (is_in (R.relation reach.old).below region.now) user columns.now.all.now)) }
    ensures judgement { J.judgement judge.new ≡ J.judgement judge.old }
    ensures same { R.relation reach.new ≡ R.relation reach.old }
{
    if are_none(region, columns) {
        return Ok(0);
    }
    match region.row(user, reach) {
        Row::Empty => Ok(0),
        Row::Near => judge_row(lists, i, user, columns.near, judge),
        Row::Whole => judge_row(lists, i, user, columns.all, judge),
    }
}

/// Does so with those of all elements, where the user's capabilities are kept; else with those of the elements whose entries
/// are, the places.
fn judge_user<J: Judge, R: Reach>(
    lists: &mut KeptLists,
    region: &Region,
    i: usize,
    user: ElementId,
    elements: &Columns,
    places: &Columns,
    reach: &mut R,
    judge: &mut J,
) -> Result<u64, Memory>
    requires place { i ≡ place user (subjects lists.old.caps) }
    requires region { RegionLive (R.relation reach.old) region.now }
    requires user { IsLive (R.relation reach.old) user }
    requires judged_user { IsJudged (J.judgement judge.old) user }
    requires elements { AreJudged (J.judgement judge.old) elements.now.all.now }
    requires near { is_among (subjects lists.old.caps) user ≡ true → has_near (R.relation reach.old).below region.now user ≡ true → elements.now.near.now ≡ filter (is_near (R.relation reach.old).below region.now) elements.now.all.now }
    requires places { places.now.all.now ≡ filter (is_among (subjects lists.old.entries)) elements.now.all.now }
    requires near_places { places.now.near.now ≡ filter (is_near (R.relation reach.old).below region.now) places.now.all.now }
    requires room { J.asked judge.old + length (judged (is_in (R.relation reach.old).below region.now) (in_scope lists.old) (user ∷ []) elements.now.all.now) < 2 ^ 64 }
    ensures lists { OnOk result (lists.new ≡ put_each (J.judgement judge.old).rights (judged (is_in (R.relation reach.old).below region.now) (in_scope lists.old) (user ∷ []) elements.now.all.now) lists.old) }
    ensures count { IfOk result (λ n. n ≡ length (judged (is_in (R.relation reach.old).below region.now) (in_scope lists.old) (user ∷ []) elements.now.all.now)) }
    ensures asked { OnOk result (J.asked judge.new ≡ J.asked judge.old + length (judged (is_in (R.relation reach.old).below region.now) (in_scope lists.old) (user ∷ []) elements.now.all.now)) }
    ensures judgement { J.judgement judge.new ≡ J.judgement judge.old }
    ensures same { R.relation reach.new ≡ R.relation reach.old }
{
    if lists.has_caps(i, user) {
        return judge_columns(lists, region, i, user, elements, reach, judge);
    }
    judge_columns(lists, region, i, user, places, reach, judge)
}

/// Does so, unless the user is passed by with the 64 that were asked about at once.
fn judge_next<J: Judge, R: Reach>(
    lists: &mut KeptLists,
    region: &Region,
    i: usize,
    user: ElementId,
    elements: &Columns,
    places: &Columns,
    asked: &mut Asked,
    reach: &mut R,
    judge: &mut J,
) -> Result<u64, Memory>
    requires place { i ≡ place user (subjects lists.old.caps) }
    requires region { RegionLive (R.relation reach.old) region.now }
    requires user { IsLive (R.relation reach.old) user }
    requires judged_user { IsJudged (J.judgement judge.old) user }
    requires elements { AreJudged (J.judgement judge.old) elements.now.all.now }
    requires near { is_among (subjects lists.old.caps) user ≡ true → has_near (R.relation reach.old).below region.now user ≡ true → elements.now.near.now ≡ filter (is_near (R.relation reach.old).below region.now) elements.now.all.now }
    requires places { places.now.all.now ≡ filter (is_among (subjects lists.old.entries)) elements.now.all.now }
    requires near_places { places.now.near.now ≡ filter (is_near (R.relation reach.old).below region.now) places.now.all.now }
    requires passed { ArePassed (has_row (R.relation reach.old).below region.now) (R.relation reach.old) asked.old }
    requires room { J.asked judge.old + length (judged (is_in (R.relation reach.old).below region.now) (in_scope lists.old) (user ∷ []) elements.now.all.now) < 2 ^ 64 }
    ensures lists { OnOk result (lists.new ≡ put_each (J.judgement judge.old).rights (judged (is_in (R.relation reach.old).below region.now) (in_scope lists.old) (user ∷ []) elements.now.all.now) lists.old) }
    ensures count { IfOk result (λ n. n ≡ length (judged (is_in (R.relation reach.old).below region.now) (in_scope lists.old) (user ∷ []) elements.now.all.now)) }
    ensures asked { OnOk result (J.asked judge.new ≡ J.asked judge.old + length (judged (is_in (R.relation reach.old).below region.now) (in_scope lists.old) (user ∷ []) elements.now.all.now)) }
    ensures passed { ArePassed (has_row (R.relation reach.old).below region.now) (R.relation reach.old) asked.new }
    ensures judgement { J.judgement judge.new ≡ J.judgement judge.old }
    ensures same { R.relation reach.new ≡ R.relation reach.old }
{
    if region.passes(user, asked, reach) {
        return Ok(0);
    }
    judge_user(lists, region, i, user, elements, places, reach, judge)
}

/// Does so with each of some users, by rising number, who are met with the kept capabilities as these come.
fn judge_users<J: Judge, R: Reach>(
    lists: &mut KeptLists,
    region: &Region,
    users: &UserList,
    elements: &Columns,
    places: &Columns,
    reach: &mut R,
    judge: &mut J,
) -> Result<u64, Memory>
    requires region { RegionLive (R.relation reach.old) region.now }
    requires users_rise { Rise 0 users.now }
    requires users { AreAsked (R.relation reach.old) (J.judgement judge.old) users.now }
    requires elements { AreJudged (J.judgement judge.old) elements.now.all.now }
    requires near { (u : ℕ) → is_among (subjects lists.old.caps) u ≡ true → has_near (R.relation reach.old).below region.now u ≡ true → elements.now.near.now ≡ filter (is_near (R.relation reach.old).below region.now) elements.now.all.now }
    requires places { places.now.all.now ≡ filter (is_among (subjects lists.old.entries)) elements.now.all.now }
    requires near_places { places.now.near.now ≡ filter (is_near (R.relation reach.old).below region.now) places.now.all.now }
    requires room { J.asked judge.old + length (judged (is_in (R.relation reach.old).below region.now) (in_scope lists.old) users.now elements.now.all.now) < 2 ^ 64 }
    ensures lists { OnOk result (lists.new ≡ put_each (J.judgement judge.old).rights (judged (is_in (R.relation reach.old).below region.now) (in_scope lists.old) users.now elements.now.all.now) lists.old) }
    ensures count { IfOk result (λ n. n ≡ length (judged (is_in (R.relation reach.old).below region.now) (in_scope lists.old) users.now elements.now.all.now)) }
    ensures asked { OnOk result (J.asked judge.new ≡ J.asked judge.old + length (judged (is_in (R.relation reach.old).below region.now) (in_scope lists.old) users.now elements.now.all.now)) }
    ensures judgement { J.judgement judge.new ≡ J.judgement judge.old }
    ensures same { R.relation reach.new ≡ R.relation reach.old }
{
    let mut count = 0;
    let mut i = 0;
    let mut asked = Asked::nothing();
    for n in 0..users.len() {
        let user = *users.at(n);
        i = lists.next_caps(i, user);
        count += judge_next(
            lists, region, i, user, elements, places, &mut asked, reach, judge,
        )?;
    }
    Ok(count)
}

/// Makes the list of each kept review what it answers, after a change of this region: `elements` and `users` are all live
/// elements and users by rising number, the search and the judge go by the graph after the change, and outside the region the
/// lists are right already. On Memory the lists are dropped, since they may be partly repaired.
///
/// It asks the judge once for each pair that lies in the region and in the scope of a kept review, and charges the lists for
/// these. The rights of one user are judged into a list first, which is put into the user's: one by one, or where they are many
/// in one walk along both, into a new list. A list is written to, and copied if it is shared, where rights in it change. Where
/// the region has no pair, or no review is kept, it returns at once. Else it asks the region once for each subject of a kept
/// review, for each user where an element whose entries are kept may be in it, and for each element where a user whose
/// capabilities are kept has only some in it; where none of 64 numbers may be in it, once for these. A question to the region
/// is one of containment, or as many as the sets of a prohibition have elements.
pub fn update<J: Judge, R: Reach>(
    mut lists: KeptLists,
    region: &Region,
    elements: &PlaceList,
    users: &UserList,
    reach: &mut R,
    judge: &mut J,
) -> Result<KeptLists, Memory>
    requires region { RegionLive (R.relation reach.old) region.now }
    requires users { AreAsked (R.relation reach.old) (J.judgement judge.old) users.now }
    requires elements { AreAsked (R.relation reach.old) (J.judgement judge.old) elements.now }
    requires users_rise { Rise 0 users.now }
    requires elements_rise { Rise 0 elements.now }
    requires room { J.asked judge.old + length users.now * length elements.now < 2 ^ 64 }
    requires lists { AreRight (R.relation reach.old).below region.now (J.judgement judge.old).rights elements.now users.now lists }
    ensures caps { IfOk result (λ new. new.caps ≡ map (caps_anew (J.judgement judge.old).rights elements.now) lists.caps) }
    ensures entries { IfOk result (λ new. new.entries ≡ map (entries_anew (J.judgement judge.old).rights users.now) lists.entries) }
    ensures asked { OnOk result (J.asked judge.new ≡ J.asked judge.old + length (judged (is_in (R.relation reach.old).below region.now) (in_scope lists) users.now elements.now)) }
    ensures charged { IfOk result (λ new. new.asked ≡ min (lists.asked + length (judged (is_in (R.relation reach.old).below region.now) (in_scope lists) users.now elements.now)) (2 ^ 64 - 1)) }
    ensures judgement { J.judgement judge.new ≡ J.judgement judge.old }
    ensures same { R.relation reach.new ≡ R.relation reach.old }
{
    lists.kept();
    if region.is_nothing() {
        lists.charge(0);
        return Ok(lists);
    }
    if lists.is_empty() {
        lists.charge(0);
        return Ok(lists);
    }
    lists.clear(region)?;
    let places = lists.places()?;
    let near_places = near(region, &places, reach)?;
    let near_elements = near_for(region, &lists, elements, reach)?;
    let elements = Columns {
        all: elements,
        near: &near_elements,
    };
    let places = Columns {
        all: &places,
        near: &near_places,
    };
    let count = judge_users(&mut lists, region, users, &elements, &places, reach, judge)?;
    lists.charge(count);
    Ok(lists)
}
