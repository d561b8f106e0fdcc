//! The line of a reply, a function for each row of the table of replies.
ghost use Rattle.std.specs.Prelude.{◌≡◌, ◌++◌, ◌∷◌, [], ◌<◌, ◌≤◌, ◌+◌, ◌-◌, ◌*◌, ◌^◌, decimal, codes, take, length, vec_len, vec_capacity, OnOk, OnErr, IsOk, IsTrue};
ghost use Rattle.std.specs.List.{zip};
ghost use Rattle.pm_model.specs.Formed.{Each};
ghost use Rattle.pm_model.specs.Nameable.{ArePairsNameable, IsNameable};
ghost use Rattle.pm_model.specs.Text.{text, bad_text, front, back, bad_front, changes_front, done_front, fired_if, granted_front, list_front, made_front, process_shown, response_front, review_shown, session_shown, survey_front};
ghost use Rattle.pm_model.specs.Words.{key_text};
ghost use Rattle.pm_print.specs.Growth.{Appended, change_most, decimal_most, front_most, front_most_of, item_most, items_in, key_most, number_most, pair_most, reply_most, text_most};
ghost use Rattle.pm_print.specs.Members.{keyed, trailing_all, leading_all};
ghost use Rattle.pm_model.specs.declared.replies.Refusal.{Refusal};

use crate::listing::{put_changed, put_list, put_survey};
use crate::put::{
    put, put_decimal, put_key, put_key_text, put_name, put_number, put_number_if, put_word,
    put_word_behind,
};
use crate::refusals::{put_no, put_refusal, refusal_word};
use pm_model::{
    BadLine, Changed, ElementId, Head, Key, Memory, Name, NameOf, Pair, Reply, Shown, Word,
};

/// How many bytes the line of a reply has at most, with its line feed, but where it has a list.
pub const LONGEST_REPLY: usize = 1024;

// How many bytes a name and a set of rights, or a name and a number, add to a list at most.
const LONGEST_PAIR: usize = 90;

// How many bytes a name and two sets of rights add to a list at most.
const LONGEST_CHANGE: usize = 107;

// How many items the list of a reply has.
fn items_in(reply: &Reply) -> usize
    ensures { result ≡ items_in reply.now }
{
    match reply {
        Reply::Caps { list } | Reply::Entries { list } | Reply::Kept { list } => list.len(),
        Reply::Survey { users, counts } => users.len().min(counts.len()),
        Reply::Changes { list, .. } => list.len(),
        Reply::Done { .. }
        | Reply::Granted { .. }
        | Reply::Bad(_)
        | Reply::Ahead
        | Reply::Refused(_)
        | Reply::ResponseRefused { .. }
        | Reply::KeepFault => 0,
    }
}

// How many bytes an item of the reply's list adds at most.
fn longest_item(reply: &Reply) -> usize
    ensures { result ≡ item_most reply.now }
{
    match reply {
        Reply::Changes { .. } => LONGEST_CHANGE,
        _ => LONGEST_PAIR,
    }
}

/// How many bytes the line of the reply has at most, with its line feed: with room for so many `print_reply` is Ok. Where
/// that is more than a `usize` can tell, the largest one.
pub fn longest(reply: &Reply) -> usize
    ensures exact { items_in reply.now ≤ 2 ^ 32 → result ≡ reply_most reply.now }
    ensures enough { result < 2 ^ 64 - 1 → result ≡ reply_most reply.now }
{
    items_in(reply)
        .saturating_mul(longest_item(reply))
        .saturating_add(LONGEST_REPLY)
}

fn process_shown(shown: Shown) -> Option<u64>
    ensures { result ≡ process_shown shown }
{
    match shown {
        Shown::Process(n) => Some(u64::from(n)),
        Shown::Nothing | Shown::Session(_) | Shown::Review(_) => None,
    }
}

fn session_shown(shown: Shown) -> Option<u64>
    ensures { result ≡ session_shown shown }
{
    match shown {
        Shown::Session(n) => Some(u64::from(n)),
        Shown::Nothing | Shown::Process(_) | Shown::Review(_) => None,
    }
}

fn review_shown(shown: Shown) -> Option<u64>
    ensures { result ≡ review_shown shown }
{
    match shown {
        Shown::Review(n) => Some(u64::from(n)),
        Shown::Nothing | Shown::Session(_) | Shown::Process(_) => None,
    }
}

// What a request that is accepted has made.
fn put_made(out: &mut Vec<u8>, shown: Shown) -> Result<(), Memory>
    ensures { Appended out.old out.new (trailing_all (made_front shown)) (3 * number_most) result }
{
    put_number_if(out, Key::Process, process_shown(shown))?;
    put_number_if(out, Key::Review, review_shown(shown))?;
    put_number_if(out, Key::Session, session_shown(shown))
}

// How many obligations responded, where some did.
fn fired_if(fired: u32) -> Option<u64>
    ensures { result ≡ fired_if fired }
{
    if fired == 0 {
        None
    } else {
        Some(u64::from(fired))
    }
}

fn put_done(out: &mut Vec<u8>, head: &Head, fired: u32, shown: Shown) -> Result<(), Memory>
    ensures { Appended out.old out.new (trailing_all (done_front head.now fired shown)) front_most result }
{
    put_number_if(out, Key::Fired, fired_if(fired))?;
    put_number_if(out, Key::Id, head.id)?;
    put_word(out, Key::Ok, Word::Done)?;
    put_made(out, shown)
}

fn put_granted(out: &mut Vec<u8>, head: &Head, fired: u32) -> Result<(), Memory>
    ensures { Appended out.old out.new (trailing_all (granted_front head.now fired)) front_most result }
{
    put_number_if(out, Key::Fired, fired_if(fired))?;
    put_number_if(out, Key::Id, head.id)?;
    put_word(out, Key::Ok, Word::Granted)
}

fn put_bad_field(out: &mut Vec<u8>, head: &Head, field: Key) -> Result<(), Memory>
    ensures { Appended out.old out.new (trailing_all (bad_front head.now (BadLine.BadField field))) front_most result }
{
    put_key_text(out, Key::Field, field)?;
    put_no(out, head, Word::BadField)
}

fn put_bad(out: &mut Vec<u8>, head: &Head, bad: &BadLine) -> Result<(), Memory>
    ensures { Appended out.old out.new (trailing_all (bad_front head.now bad.now)) front_most result }
{
    match bad {
        BadLine::TooLong => put_no(out, head, Word::TooLong),
        BadLine::NotJson => put_no(out, head, Word::NotJson),
        BadLine::NotRequest => put_no(out, head, Word::NotRequest),
        BadLine::UnknownCommand => put_no(out, head, Word::UnknownCommand),
        BadLine::BadField(field) => put_bad_field(out, head, *field),
    }
}

// A response that is refused: what stands before the version is the same whatever the reason.
fn put_response(
    out: &mut Vec<u8>,
    head: &Head,
    obligation: &Name,
    action: u32,
) -> Result<(), Memory>
    ensures { (why : Refusal) → Appended out.old out.new (trailing_all (response_front head.now obligation.now action why)) front_most result }
{
    put_number(out, Key::Action, u64::from(action))?;
    put_number_if(out, Key::Id, head.id)?;
    put_word(out, Key::No, Word::ResponseRefused)?;
    put_name(out, Key::Obligation, obligation)
}

// A review that tells who has rights on what.
fn put_review<N: NameOf>(
    out: &mut Vec<u8>,
    head: &Head,
    names: &N,
    word: Word,
    list: &[Pair],
) -> Result<(), Memory>
    requires { ArePairsNameable (N.named names.now) list.now }
    ensures { Appended out.old out.new (trailing_all (list_front head.now (N.name_at names.now) word list.now)) (front_most + pair_most * length list.now) result }
{
    put_number_if(out, Key::Id, head.id)?;
    put_list(out, names, list)?;
    put_word(out, Key::Ok, word)
}

// One that tells how much each of several users may do.
fn put_counted<N: NameOf>(
    out: &mut Vec<u8>,
    head: &Head,
    names: &N,
    users: &[ElementId],
    counts: &[u64],
) -> Result<(), Memory>
    requires { Each (λ u. IsTrue (N.named names.now u)) users.now }
    ensures { Appended out.old out.new (trailing_all (survey_front head.now (N.name_at names.now) users.now counts.now)) (front_most + pair_most * length (zip users.now counts.now)) result }
{
    put_survey(out, names, users, counts)?;
    put_number_if(out, Key::Id, head.id)?;
    put_word(out, Key::Ok, Word::Survey)
}

// One that tells what has changed in a list, and by which entry.
fn put_last_change(out: &mut Vec<u8>, head: &Head, at: u64, list: &[Changed]) -> Result<(), Memory>
    ensures { Appended out.old out.new (trailing_all (changes_front head.now at list.now)) (front_most + change_most * length list.now) result }
{
    put_number(out, Key::At, at)?;
    put_number_if(out, Key::Id, head.id)?;
    put_changed(out, list)?;
    put_word(out, Key::Ok, Word::Changes)
}

fn put_front<N: NameOf>(
    out: &mut Vec<u8>,
    head: &Head,
    names: &N,
    reply: &Reply,
) -> Result<(), Memory>
    requires { IsNameable (N.named names.now) reply.now }
    ensures { Appended out.old out.new (trailing_all (front head.now (N.name_at names.now) reply.now)) (front_most_of reply.now) result }
{
    match reply {
        Reply::Done { fired, shown } => put_done(out, head, *fired, *shown),
        Reply::Granted { fired } => put_granted(out, head, *fired),
        Reply::Caps { list } => put_review(out, head, names, Word::Caps, list.as_slice()),
        Reply::Entries { list } => put_review(out, head, names, Word::Entries, list.as_slice()),
        Reply::Survey { users, counts } => {
            put_counted(out, head, names, users.as_slice(), counts.as_slice())
        }
        Reply::Kept { list } => put_review(out, head, names, Word::Kept, list.as_slice()),
        Reply::Changes { at, list } => put_last_change(out, head, *at, list.as_slice()),
        Reply::Bad(bad) => put_bad(out, head, bad),
        Reply::Ahead => put_no(out, head, Word::Ahead),
        Reply::Refused(why) => put_refusal(out, head, names, why),
        Reply::ResponseRefused {
            obligation,
            action,
            ..
        } => put_response(out, head, obligation, *action),
        Reply::KeepFault => put_no(out, head, Word::KeepFault),
    }
}

fn put_version(out: &mut Vec<u8>, version: u64) -> Result<(), Memory>
    ensures { Appended out.old out.new (keyed (key_text Key.V) ++ decimal version) (key_most + decimal_most) result }
{
    put_key(out, Key::V)?;
    put_decimal(out, version)
}

// The member behind the version, where there is one.
fn put_back(out: &mut Vec<u8>, reply: &Reply) -> Result<(), Memory>
    ensures { Appended out.old out.new (leading_all (back reply.now)) text_most result }
{
    match reply {
        Reply::ResponseRefused { why, .. } => put_word_behind(out, Key::Why, refusal_word(why)),
        Reply::Done { .. }
        | Reply::Granted { .. }
        | Reply::Caps { .. }
        | Reply::Entries { .. }
        | Reply::Survey { .. }
        | Reply::Kept { .. }
        | Reply::Changes { .. }
        | Reply::Bad(_)
        | Reply::Ahead
        | Reply::Refused(_)
        | Reply::KeepFault => Ok(()),
    }
}

fn put_end(out: &mut Vec<u8>) -> Result<(), Memory>
    ensures { Appended out.old out.new (codes "}\n") 2 result }
{
    put(out, b"}\n")
}

// The line up to its version.
fn put_open<N: NameOf>(
    out: &mut Vec<u8>,
    head: &Head,
    names: &N,
    reply: &Reply,
) -> Result<(), Memory>
    requires { IsNameable (N.named names.now) reply.now }
    ensures { Appended out.old out.new (codes "{" ++ trailing_all (front head.now (N.name_at names.now) reply.now)) (1 + front_most_of reply.now) result }
{
    put(out, b"{")?;
    put_front(out, head, names, reply)
}

// What stands behind the version.
fn put_close(out: &mut Vec<u8>, reply: &Reply) -> Result<(), Memory>
    ensures { Appended out.old out.new (leading_all (back reply.now) ++ codes "}\n") (text_most + 2) result }
{
    put_back(out, reply)?;
    put_end(out)
}

fn put_line_parts<N: NameOf>(
    out: &mut Vec<u8>,
    head: &Head,
    version: u64,
    names: &N,
    reply: &Reply,
) -> Result<(), Memory>
    requires { IsNameable (N.named names.now) reply.now }
    ensures { Appended out.old out.new (codes "{" ++ (trailing_all (front head.now (N.name_at names.now) reply.now) ++ (keyed (key_text Key.V) ++ (decimal version ++ (leading_all (back reply.now) ++ codes "}\n"))))) (reply_most reply.now) result }
{
    put_open(out, head, names, reply)?;
    put_version(out, version)?;
    put_close(out, reply)
}

fn put_line<N: NameOf>(
    out: &mut Vec<u8>,
    id: Option<u64>,
    version: u64,
    names: &N,
    reply: &Reply,
) -> Result<(), Memory>
    requires { IsNameable (N.named names.now) reply.now }
    ensures { Appended out.old out.new (text id version (N.name_at names.now) reply.now) (reply_most reply.now) result }
{
    put_line_parts(out, &Head { id }, version, names, reply)
}

fn put_bad_parts(out: &mut Vec<u8>, head: &Head, version: u64, bad: &BadLine) -> Result<(), Memory>
    ensures { Appended out.old out.new (codes "{" ++ (trailing_all (bad_front head.now bad.now) ++ (keyed (key_text Key.V) ++ (decimal version ++ codes "}\n")))) LONGEST_REPLY result }
{
    put(out, b"{")?;
    put_bad(out, head, bad)?;
    put_version(out, version)?;
    put_end(out)
}

fn put_bad_line(
    out: &mut Vec<u8>,
    id: Option<u64>,
    version: u64,
    bad: &BadLine,
) -> Result<(), Memory>
    ensures { Appended out.old out.new (bad_text id version bad.now) LONGEST_REPLY result }
{
    put_bad_parts(out, &Head { id }, version, bad)
}

/// Takes back what a write that failed has left behind the first bytes.
pub(crate) fn whole_or_none(
    out: &mut Vec<u8>,
    before: usize,
    written: Result<(), Memory>,
) -> Result<(), Memory>
    requires { before ≤ vec_len out.old }
    ensures same { result ≡ written }
    ensures ok { OnOk result (out.new.items ≡ out.old.items) }
    ensures err { OnErr result (out.new.items ≡ take before out.old.items) }
    ensures capacity { vec_capacity out.new ≡ vec_capacity out.old }
{
    if written.is_err() {
        out.truncate(before);
    }
    written
}

/// Appends the line of the reply, its line feed included. On Memory `out` is as before; with room for as many bytes as
/// `longest` says it is Ok: for 1,024, and for each item of a list 90 more, or 107 where the list tells what has changed. `names`
/// is asked for each element that the reply tells by its number.
pub fn print_reply<N: NameOf>(
    id: Option<u64>,
    version: u64,
    reply: &Reply,
    names: &N,
    out: &mut Vec<u8>,
) -> Result<(), Memory>
    requires { IsNameable (N.named names.now) reply.now }
    ensures ok { OnOk result (out.new.items ≡ out.old.items ++ text id version (N.name_at names.now) reply.now) }
    ensures err { OnErr result (out.new.items ≡ out.old.items) }
    ensures room { vec_len out.old + reply_most reply.now ≤ vec_capacity out.old → IsOk result }
    ensures capacity { vec_capacity out.old ≤ vec_capacity out.new }
{
    let before = out.len();
    let written = put_line(out, id, version, names, reply);
    whole_or_none(out, before, written)
}

/// Appends the line of a bad form, as `print_reply` does. It names no element.
pub fn print_bad(
    id: Option<u64>,
    version: u64,
    bad: &BadLine,
    out: &mut Vec<u8>,
) -> Result<(), Memory>
    ensures ok { OnOk result (out.new.items ≡ out.old.items ++ bad_text id version bad.now) }
    ensures err { OnErr result (out.new.items ≡ out.old.items) }
    ensures room { vec_len out.old + LONGEST_REPLY ≤ vec_capacity out.old → IsOk result }
    ensures capacity { vec_capacity out.old ≤ vec_capacity out.new }
{
    let before = out.len();
    let written = put_bad_line(out, id, version, bad);
    whole_or_none(out, before, written)
}
