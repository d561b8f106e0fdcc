//! The line of an entry's request, as a record keeps it.

ghost use Rattle.std.specs.Prelude.{◌≡◌, ◌≤◌, ◌++◌, [], None, codes, length, IfOk, IfSome};
ghost use Rattle.pm_journal.specs.Notes.{IsLine, entry_of};
ghost use Rattle.pm_journal.specs.Journals.{written};
ghost use Rattle.pm_journal.specs.Refusals.{IsRefused};
ghost use Rattle.pm_print.specs.Requested.{request_text};

use crate::askable::is_askable;
use pm_model::{Entry, Memory, Request};
use pm_print::{print_request, printed_is_asked};
use std::alloc::Global;

const LONGEST_LINE: usize = 8_192;

// The line without its line feed.
fn printed(alloc: Global, request: &Request) -> Result<Vec<u8>, Memory>
    ensures { IfOk result (λ line. request_text None request.now ≡ line.items ++ codes "\n") }
{
    let mut line = Vec::new(alloc);
    print_request(None, request, &mut line)?;
    line.pop();
    Ok(line)
}

/// The line of an entry's request, by which a record keeps the entry; None where it has more than 8,192 bytes, or no line asks
/// for the request.
pub(crate) fn line_of(alloc: Global, entry: &Entry) -> Result<Option<Vec<u8>>, Memory>
    ensures line { IfOk result (λ o. IfSome o (λ line. IsLine line.items)) }
    ensures refused { IfOk result (λ o. o ≡ None → IsRefused entry.now.request) }
    ensures entry { IfOk result (λ o. IfSome o (λ line. entry_of (written entry.now.seat entry.now.nth line.items) ≡ entry.now)) }
{
    if !is_askable(&entry.request) {
        return Ok(None);
    }
    let line = printed(alloc, &entry.request)?;
    if line.len() > LONGEST_LINE {
        return Ok(None);
    }
    printed_is_asked();
    Ok(Some(line))
}
