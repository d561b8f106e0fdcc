//! The whole of a source.
ghost use Rattle.std.specs.Prelude.{◌≡◌, ◌≢◌, ◌≤◌, ◌<◌, ◌+◌, ◌-◌, ◌++◌, List, Option, Err, ℕ, length, min, vec_len, vec_capacity, IfErr, IfOk};
ghost use Rattle.pm_model.specs.Causes.{Rose};
ghost use Rattle.pm_program.specs.Making.{Made};
ghost use Rattle.pm_program.specs.Reading.{IsUnread, More, TookAll};

use pm_model::Source;
use pm_run::Status;
use std::alloc::Global;

const PIECE: usize = 4096;

// Appends bytes that have their room.
fn append(input: &mut Vec<u8>, bytes: &[u8])
    requires { vec_len input.old + length bytes.now ≤ vec_capacity input.old }
    ensures { input.new.items ≡ input.old.items ++ bytes.now }
{
    let Ok(()) = input.extend_from_slice(bytes) else {
        unreachable!()
    };
}

// Reads a piece more behind the input, and says how many bytes it has; or why there is none. Room is made for it before it is
// read, so where memory is lacking nothing is read.
fn read_piece<I: Source>(
    source: &mut I,
    piece: &mut [u8],
    input: &mut Vec<u8>,
) -> Result<usize, Status>
    requires { 0 < length piece.old }
    ensures ok { IfOk result (More
        (record { left = I.left source.old; faults = I.faults source.old; ends = I.ends source.old })
        (record { left = I.left source.new; faults = I.faults source.new; ends = I.ends source.new })
        input.old.items input.new.items (length piece.old)) }
    ensures err { IfErr result (IsUnread
        (record { left = I.left source.old; faults = I.faults source.old; ends = I.ends source.old })
        (record { left = I.left source.new; faults = I.faults source.new; ends = I.ends source.new })) }
{
    if input.reserve(piece.len()).is_err() {
        return Err(Status::Memory);
    }
    let Ok(count) = source.read(piece) else {
        return Err(Status::ReadFault);
    };
    append(input, &piece[..count]);
    Ok(count)
}

// How much of a piece may still be read.
fn room(limit: usize, count: usize) -> usize
    requires { count < limit }
    ensures { result ≡ min (limit - count) 4096 }
{
    (limit - count).min(PIECE)
}

/// All that the source has, if that is less than the limit.
pub(crate) fn read_whole<I: Source>(
    alloc: Global,
    limit: usize,
    source: &mut I,
) -> Result<Vec<u8>, Status>
    ensures ok { IfOk result (λ input. TookAll limit
        (record { left = I.left source.old; faults = I.faults source.old; ends = I.ends source.old })
        (record { left = I.left source.new; faults = I.faults source.new; ends = I.ends source.new })
        input.items) }
    ensures err { IfErr result (λ status. (taken : Option (List ℕ))
        → Made limit (I.left source.old) (I.left source.new) (I.ends source.old) (I.ends source.new) taken taken status) }
    ensures read { result ≡ Err Status.ReadFault → Rose (I.faults source.old) (I.faults source.new) }
    ensures read_kept { result ≢ Err Status.ReadFault → I.faults source.new ≡ I.faults source.old }
    ensures write { result ≢ Err Status.WriteFault }
{
    let mut piece = [0u8; PIECE];
    let mut input = Vec::new(alloc);
    while input.len() < limit {
        let target = &mut piece[..room(limit, input.len())];
        if read_piece(source, target, &mut input)? == 0 {
            return Ok(input);
        }
    }
    Err(Status::TooMuch)
}
