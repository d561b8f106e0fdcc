//! What stands at a place for a gate.

ghost use Rattle.std.specs.Prelude.{◌≡◌, length, IfOk, MatchOption};
ghost use Rattle.std.specs.Int.{w32, w64, from_be_bytes};
ghost use Rattle.pm_model.specs.Asked.{asked};
ghost use Rattle.pm_model.specs.declared.requests.What.TheVariants as what;
ghost use Rattle.pm_journal.specs.Founds.{IsFound, IsShort};
ghost use Rattle.pm_journal.specs.Notes.{IsRequest};

use pm_model::{Entry, Memory, Request, What};
use pm_read::read_request;
use std::alloc::Global;

/// What stands at a place for a gate.
#[derive(Drop)]
pub(crate) enum Found {
    Closed,
    Broken,
    /// A record of this entry, whose line has so many bytes.
    Whole { entry: Entry, len: usize },
}

fn u32_in(bytes: &[u8]) -> u32
    requires { length bytes.now ≡ 4 }
    ensures { result ≡ from_be_bytes w32 bytes.now }
{
    u32::from_be_bytes([bytes[0], bytes[1], bytes[2], bytes[3]])
}

fn u64_in(bytes: &[u8]) -> u64
    requires { length bytes.now ≡ 8 }
    ensures { result ≡ from_be_bytes w64 bytes.now }
{
    u64::from_be_bytes([
        bytes[0], bytes[1], bytes[2], bytes[3], bytes[4], bytes[5], bytes[6], bytes[7],
    ])
}

/// The request that a line asks, where it asks one.
pub(crate) fn request_of(alloc: Global, line: &[u8]) -> Result<Option<Request>, Memory>
    ensures { IfOk result (λ o. MatchOption o (IsRequest (asked line.now).what → ⊥) (λ r. (asked line.now).what ≡ what.Request r)) }
{
    let asked = read_request(alloc, line)?;
    match &asked.what {
        What::Request(request) => Ok(Some(request.copy()?)),
        What::Bad(_) => Ok(None),
    }
}

/// What stands at the front of these bytes, which is a place for a gate.
pub(crate) fn found_in(alloc: Global, bytes: &[u8]) -> Result<Found, Memory>
    ensures found { IfOk result (IsFound bytes.now) }
    ensures short { IfOk result IsShort }
{
    if bytes.is_empty() {
        return Ok(Found::Broken);
    }
    if bytes[0] == 0 {
        return Ok(Found::Closed);
    }
    let (_gate, body) = bytes.split_at(1);
    if body.len() < 17 {
        return Ok(Found::Broken);
    }
    let (len, rest) = body.split_at(4);
    let (seat, rest) = rest.split_at(4);
    let (nth, rest) = rest.split_at(8);
    let len = u32_in(len) as usize;
    if len > 8192 || rest.len() <= len {
        return Ok(Found::Broken);
    }
    let (line, _rest) = rest.split_at(len);
    let Some(request) = request_of(alloc, line)? else {
        return Ok(Found::Broken);
    };
    let entry = Entry {
        seat: u32_in(seat),
        nth: u64_in(nth),
        request,
    };
    Ok(Found::Whole { entry, len })
}
