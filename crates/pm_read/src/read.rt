//! What a line asks: its word, its head, and the row of its word.
ghost use Rattle.std.specs.Prelude.{Result, ◌≡◌, None, Some, IfOk};
ghost use Rattle.serde_json.specs.View.{view};
ghost use Rattle.pm_model.specs.Forms.{looking};
ghost use Rattle.pm_model.specs.Asked.{asked, asked_by, asked_of, id_of, request_of, with_head, worded};
ghost use Rattle.pm_model.specs.declared.requests.Body.{Body};
ghost use Rattle.pm_model.specs.declared.lines.BadLine.{BadLine};
ghost use Rattle.pm_read.specs.Reads.{Reads};

use crate::errors::ReadError;
use crate::forms::optional_whole;
use crate::rows::row;
use pm_model::{Asked, BadLine, Body, Key, Memory, Request, What};
use serde_json::Value;
use std::alloc::Global;

fn with_head(row: Result<Body, ReadError>, value: &Value) -> Result<Request, ReadError>
    ensures { (r : Result Body BadLine) → Reads row r → Reads result (with_head (looking (view value.now)) r) }
{
    optional_whole(Key::Id, value.get(Key::Id.text()))?;
    let after = optional_whole(Key::After, value.get(Key::After.text()))?;
    let body = row?;
    Ok(Request { after, body })
}

// What a line with the word asks.
fn worded(alloc: Global, word: &str, value: &Value) -> Result<Request, ReadError>
    ensures { Reads result (worded (looking (view value.now)) (Some word.now)) }
{
    match row(alloc, word, value) {
        None => Err(ReadError::Bad(BadLine::UnknownCommand)),
        Some(row) => with_head(row, value),
    }
}

fn request(alloc: Global, value: &Value) -> Result<Request, ReadError>
    ensures { Reads result (request_of (looking (view value.now))) }
{
    let Some(word) = value.get(Key::Cmd.text()).and_then(Value::as_str) else {
        return Err(ReadError::Bad(BadLine::NotRequest));
    };
    worded(alloc, word, value)
}

fn id(value: &Value) -> Option<u64>
    ensures { result ≡ id_of (looking (view value.now)) }
{
    value.get(Key::Id.text()).and_then(Value::as_u64)
}

fn asked(alloc: Global, value: &Value) -> Result<Asked, Memory>
    ensures { IfOk result (λ a. a ≡ asked_by (looking (view value.now))) }
{
    let id = id(value);
    match request(alloc, value) {
        Ok(request) => Ok(Asked {
            id,
            what: What::Request(request),
        }),
        Err(ReadError::Bad(bad)) => Ok(Asked {
            id,
            what: What::Bad(bad),
        }),
        Err(ReadError::Memory) => Err(Memory),
    }
}

fn not_json() -> Asked
    ensures { result ≡ asked_of None }
{
    Asked {
        id: None,
        what: What::Bad(BadLine::NotJson),
    }
}

/// What the line asks, the line being without its line feed. It never tells TooLong, which is for
/// whoever cuts the lines to say. Its only error is want of memory.
pub fn read_request(alloc: Global, line: &[u8]) -> Result<Asked, Memory>
    ensures { IfOk result (λ a. a ≡ asked line.now) }
{
    match Value::from_slice(alloc, line) {
        Ok(value) => asked(alloc, &value),
        Err(error) => {
            if error.is_memory() {
                Err(Memory)
            } else {
                Ok(not_json())
            }
        }
    }
}
