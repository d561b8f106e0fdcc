//! A reply with names as one whose elements have numbers, so that it can be printed.
ghost use Rattle.std.specs.Prelude.{◌≡◌, IfOk, []};
ghost use Rattle.pm_replies.specs.ByNames.{without_fields};
ghost use Rattle.pm_replies.specs.Numbered.{IsNumbered, IsRefusalNumbered, count_names, counts_of, numbers_from, pair_names, pairs_from};
ghost use Rattle.pm_replies.specs.declared.texts.RefusalText.TheVariants as refused;
ghost use Rattle.pm_replies.specs.declared.texts.ReplyText.TheVariants as told;

use crate::texts::{ReasonText, RefusalText, RefusalWord, ReplyText, TextCount, TextPair};
use pm_model::{
    ChangeList, CountList, ElementId, Memory, Name, NameList, NameOf, Pair, PairList, Reason,
    Refusal, Reply, Table, UserList,
};
use std::alloc::Global;

/// Names, each of which has its place from 0 for the number of its element.
pub struct Names {
    pub list: NameList,
}

impl Drop for Names {
    fn drop(self) {
        let Names { list: _ } = self;
    }
}

impl NameOf for Names {
    ghost use Rattle.pm_replies.specs.Numbered.{is_among, name_among};

    ghost named = { λ names. is_among names.list };

    ghost name_at = { λ names. name_among names.list };

    fn name_of(&self, id: ElementId) -> Name {
        *self.list.at(id.number() as usize)
    }
}

/// A reply, and the names of the elements that it tells by their numbers.
pub struct Numbered {
    pub names: Names,
    pub reply: Reply,
}

impl Drop for Numbered {
    fn drop(self) {
        let Numbered { names: _, reply: _ } = self;
    }
}

// The number of a place. There are 2^32 numbers, and no memory for a list that has more items.
fn number(place: usize) -> Result<ElementId, Memory>
    ensures { IfOk result (λ number. number ≡ place) }
{
    match u32::try_from(place) {
        Ok(number) => Ok(ElementId(number)),
        Err(_) => Err(Memory),
    }
}

fn pair_names(alloc: Global, list: &[TextPair]) -> Result<NameList, Memory>
    ensures { IfOk result (λ names. names ≡ pair_names list.now) }
{
    let mut names = NameList::new(alloc);
    for pair in list {
        names.push(pair.name)?;
    }
    Ok(names)
}

fn pairs(alloc: Global, list: &[TextPair]) -> Result<PairList, Memory>
    ensures { IfOk result (λ pairs. pairs ≡ pairs_from 0 list.now) }
{
    let mut pairs = PairList::new(alloc);
    for (i, pair) in list.iter().enumerate() {
        let element = number(i)?;
        let rights = pair.rights;
        pairs.push(Pair { element, rights })?;
    }
    Ok(pairs)
}

fn count_names(alloc: Global, list: &[TextCount]) -> Result<NameList, Memory>
    ensures { IfOk result (λ names. names ≡ count_names list.now) }
{
    let mut names = NameList::new(alloc);
    for count in list {
        names.push(count.name)?;
    }
    Ok(names)
}

fn users(alloc: Global, list: &[TextCount]) -> Result<UserList, Memory>
    ensures { IfOk result (λ users. users ≡ numbers_from 0 list.now) }
{
    let mut users = UserList::new(alloc);
    for i in 0..list.len() {
        users.push(number(i)?)?;
    }
    Ok(users)
}

fn counts(alloc: Global, list: &[TextCount]) -> Result<CountList, Memory>
    ensures { IfOk result (λ counts. counts ≡ counts_of list.now) }
{
    let mut counts = CountList::new(alloc);
    for count in list {
        counts.push(count.count)?;
    }
    Ok(counts)
}

// A reply that tells no element.
fn plain(alloc: Global, reply: Reply) -> Numbered
    ensures { (result.names.list ≡ []) × (result.reply ≡ reply) }
{
    let list = NameList::new(alloc);
    Numbered {
        names: Names { list },
        reply,
    }
}

// The names and the pairs of a review.
fn review(alloc: Global, list: &[TextPair]) -> Result<(Names, PairList), Memory>
    ensures { IfOk result (λ r. (r.0.list ≡ pair_names list.now) × (r.1 ≡ pairs_from 0 list.now)) }
{
    let names = pair_names(alloc, list)?;
    let pairs = pairs(alloc, list)?;
    Ok((Names { list: names }, pairs))
}

#[tactic(auto, using(crate::proofs::Numbering::caps_numbered))]
fn caps(alloc: Global, list: &[TextPair]) -> Result<Numbered, Memory>
    ensures { IfOk result (λ n. IsNumbered (told.Caps list.now) n.names.list n.reply) }
{
    let (names, list) = review(alloc, list)?;
    Ok(Numbered {
        names,
        reply: Reply::Caps { list },
    })
}

#[tactic(auto, using(crate::proofs::Numbering::entries_numbered))]
fn entries(alloc: Global, list: &[TextPair]) -> Result<Numbered, Memory>
    ensures { IfOk result (λ n. IsNumbered (told.Entries list.now) n.names.list n.reply) }
{
    let (names, list) = review(alloc, list)?;
    Ok(Numbered {
        names,
        reply: Reply::Entries { list },
    })
}

#[tactic(auto, using(crate::proofs::Numbering::kept_numbered))]
fn kept(alloc: Global, list: &[TextPair]) -> Result<Numbered, Memory>
    ensures { IfOk result (λ n. IsNumbered (told.Kept list.now) n.names.list n.reply) }
{
    let (names, list) = review(alloc, list)?;
    Ok(Numbered {
        names,
        reply: Reply::Kept { list },
    })
}

fn survey(alloc: Global, list: &[TextCount]) -> Result<Numbered, Memory>
    ensures { IfOk result (λ n. IsNumbered (told.Survey list.now) n.names.list n.reply) }
{
    let names = Names {
        list: count_names(alloc, list)?,
    };
    let users = users(alloc, list)?;
    let counts = counts(alloc, list)?;
    Ok(Numbered {
        names,
        reply: Reply::Survey { users, counts },
    })
}

fn changes(alloc: Global, at: u64, list: &ChangeList) -> Result<Numbered, Memory>
    ensures { IfOk result (λ n. IsNumbered (told.Changes at list.now) n.names.list n.reply) }
{
    let list = list.copy()?;
    Ok(plain(alloc, Reply::Changes { at, list }))
}

// A denial's target has the number 0, and its class the number 1.
fn denied(
    alloc: Global,
    right: &Name,
    target: &Name,
    reason: &ReasonText,
) -> Result<(Names, Refusal), Memory>
    ensures { IfOk result (λ r. IsRefusalNumbered (refused.Denied right.now target.now reason.now) r.0.list r.1) }
{
    let mut list = NameList::new(alloc);
    list.push(*target)?;
    let reason = match reason {
        ReasonText::Class(class) => {
            list.push(*class)?;
            Reason::Class(ElementId(1))
        }
        ReasonText::Prohibition(name) => Reason::Prohibition(*name),
    };
    let refusal = Refusal::Denied {
        right: *right,
        target: ElementId(0),
        reason,
    };
    Ok((Names { list }, refusal))
}

// A refusal that tells no element.
fn nameless(alloc: Global, why: Refusal) -> (Names, Refusal)
    ensures { (result.0.list ≡ []) × (result.1 ≡ why) }
{
    let list = NameList::new(alloc);
    (Names { list }, why)
}

fn refusal(alloc: Global, why: &RefusalText) -> Result<(Names, Refusal), Memory>
    ensures { IfOk result (λ r. IsRefusalNumbered why.now r.0.list r.1) }
{
    match why {
        RefusalText::UnknownProcess => Ok(nameless(alloc, Refusal::UnknownProcess)),
        RefusalText::UnknownSession => Ok(nameless(alloc, Refusal::UnknownSession)),
        RefusalText::UnknownReview => Ok(nameless(alloc, Refusal::UnknownReview)),
        RefusalText::UnknownName { name } => Ok(nameless(
            alloc,
            Refusal::UnknownName { name: *name },
        )),
        RefusalText::Denied {
            right,
            target,
            reason,
        } => denied(alloc, right, target, reason),
        RefusalText::BadKinds => Ok(nameless(alloc, Refusal::BadKinds)),
        RefusalText::NameTaken => Ok(nameless(alloc, Refusal::NameTaken)),
        RefusalText::Already => Ok(nameless(alloc, Refusal::Already)),
        RefusalText::Absent => Ok(nameless(alloc, Refusal::Absent)),
        RefusalText::Cycle => Ok(nameless(alloc, Refusal::Cycle)),
        RefusalText::Occupied => Ok(nameless(alloc, Refusal::Occupied)),
        RefusalText::InUse => Ok(nameless(alloc, Refusal::InUse)),
        RefusalText::LastContainer => Ok(nameless(alloc, Refusal::LastContainer)),
        RefusalText::Builtin => Ok(nameless(alloc, Refusal::Builtin)),
        RefusalText::EmptyRange => Ok(nameless(alloc, Refusal::EmptyRange)),
        RefusalText::Full(table) => Ok(nameless(alloc, Refusal::Full(*table))),
    }
}

fn refused(alloc: Global, why: &RefusalText) -> Result<Numbered, Memory>
    ensures { IfOk result (λ n. IsNumbered (told.Refused why.now) n.names.list n.reply) }
{
    let (names, why) = refusal(alloc, why)?;
    Ok(Numbered {
        names,
        reply: Reply::Refused(why),
    })
}

// A refusal of the word, whatever its fields.
fn with_word(word: RefusalWord, name: &Name) -> Refusal
    ensures { without_fields result ≡ word }
{
    match word {
        RefusalWord::UnknownProcess => Refusal::UnknownProcess,
        RefusalWord::UnknownSession => Refusal::UnknownSession,
        RefusalWord::UnknownReview => Refusal::UnknownReview,
        RefusalWord::UnknownName => Refusal::UnknownName { name: *name },
        RefusalWord::Denied => Refusal::Denied {
            right: *name,
            target: ElementId(0),
            reason: Reason::Prohibition(*name),
        },
        RefusalWord::BadKinds => Refusal::BadKinds,
        RefusalWord::NameTaken => Refusal::NameTaken,
        RefusalWord::Already => Refusal::Already,
        RefusalWord::Absent => Refusal::Absent,
        RefusalWord::Cycle => Refusal::Cycle,
        RefusalWord::Occupied => Refusal::Occupied,
        RefusalWord::InUse => Refusal::InUse,
        RefusalWord::LastContainer => Refusal::LastContainer,
        RefusalWord::Builtin => Refusal::Builtin,
        RefusalWord::EmptyRange => Refusal::EmptyRange,
        RefusalWord::Full => Refusal::Full(Table::Elements),
    }
}

fn response_refused(alloc: Global, obligation: &Name, action: u32, why: RefusalWord) -> Numbered
    ensures { IsNumbered (told.ResponseRefused obligation.now action why) result.names.list result.reply }
{
    let reply = Reply::ResponseRefused {
        obligation: *obligation,
        action,
        why: with_word(why, obligation),
    };
    plain(alloc, reply)
}

/// The reply with numbers in place of names, so that it can be printed. Memory comes also where a list has more items
/// than there are numbers.
pub fn with_numbers(alloc: Global, text: &ReplyText) -> Result<Numbered, Memory>
    ensures { IfOk result (λ n. IsNumbered text.now n.names.list n.reply) }
{
    match text {
        ReplyText::Done { fired, shown } => Ok(plain(
            alloc,
            Reply::Done {
                fired: *fired,
                shown: *shown,
            },
        )),
        ReplyText::Granted { fired } => Ok(plain(alloc, Reply::Granted { fired: *fired })),
        ReplyText::Caps { list } => caps(alloc, list.as_slice()),
        ReplyText::Entries { list } => entries(alloc, list.as_slice()),
        ReplyText::Survey { list } => survey(alloc, list.as_slice()),
        ReplyText::Kept { list } => kept(alloc, list.as_slice()),
        ReplyText::Changes { at, list } => changes(alloc, *at, list),
        ReplyText::Bad(bad) => Ok(plain(alloc, Reply::Bad(*bad))),
        ReplyText::Ahead => Ok(plain(alloc, Reply::Ahead)),
        ReplyText::Refused(why) => refused(alloc, why),
        ReplyText::ResponseRefused {
            obligation,
            action,
            why,
        } => Ok(response_refused(alloc, obligation, *action, *why)),
        ReplyText::KeepFault => Ok(plain(alloc, Reply::KeepFault)),
    }
}
