//! The input is taken piece by piece, or whole.
ghost use Rattle.std.specs.Prelude.{◌≡◌, ◌≤◌, ◌+◌, ◌++◌, IfErr, IfOk, OnErr, OnOk, length, take, vec_len};
ghost use Rattle.std.specs.Io.KnownBytes.{Consumes, IsAtEnd, Keeps};
ghost use Rattle.io_ports.specs.Faults.{Rose};
ghost use Rattle.gcsmount.specs.Inputs.{StopsInput, Takes, TakesAll, TakesOn};
ghost use Rattle.io_ports.specs.Ports.{Port};
ghost use Rattle.gcsmount.specs.Serve.{longest_input};

use io_ports::{Failed, NoMemory, Source};
use std::alloc::Global;

/// The most bytes of input that are served or played.
pub(crate) const LONGEST_INPUT: u64 = 67_108_864;
/// The most bytes that one take asks for.
const PIECE: usize = 65_536;

/// Why the input was not taken whole.
#[derive(Clone, Copy, Debug, PartialEq, Eq)]
pub(crate) enum InputFault {
    /// The source failed.
    ReadFault,
    /// Memory was refused.
    NoMemory,
    /// It has more than 67,108,864 bytes.
    TooLong,
}

/// Takes the whole input of a source: at most 65,536 bytes at once, and never more than one past 67,108,864.
pub(crate) fn take_input<R: Source>(alloc: Global, source: &mut R) -> Result<Vec<u8>, InputFault>
    ensures ok { IfOk result (λ input. TakesAll (R.port source.old) (R.port source.new) input.items) }
    ensures err { IfErr result (λ fault. StopsInput fault (R.port source.old) (R.port source.new)) }
{
    let Ok(mut buffer) = piece_buffer(alloc) else {
        return Err(InputFault::NoMemory);
    };
    let mut input = Vec::new(alloc);
    loop {
        match take_next(source, buffer.as_mut_slice(), &mut input) {
            Ok(true) => {}
            Ok(false) => return Ok(input),
            Err(fault) => return Err(fault),
        }
    }
}

/// Takes the next bytes of the source behind the input so far, and answers whether there were some.
fn take_next<R: Source>(
    source: &mut R,
    buffer: &mut [u8],
    input: &mut Vec<u8>,
) -> Result<bool, InputFault>
    requires buffer { length buffer.old ≡ 65536 }
    requires within { length input.old.items ≤ longest_input }
    ensures ok { (start : Port) → Takes start (R.port source.old) input.old.items →
        IfOk result (λ more. TakesOn more start (R.port source.new) input.old.items input.new.items) }
    ensures err { (start : Port) → Takes start (R.port source.old) input.old.items → IfErr result (λ fault. StopsInput fault start (R.port source.new)) }
{
    let count = match take_piece(source, buffer, input.len() as u64) {
        Err(Failed) => return Err(InputFault::ReadFault),
        Ok(0) => return Ok(false),
        Ok(count) => count,
    };
    let (piece, _rest) = buffer.split_at(count);
    let Ok(()) = extend(input, piece) else {
        return Err(InputFault::NoMemory);
    };
    if input.len() as u64 > LONGEST_INPUT {
        return Err(InputFault::TooLong);
    }
    Ok(true)
}

/// Puts a piece behind the input so far.
fn extend(input: &mut Vec<u8>, piece: &[u8]) -> Result<(), NoMemory>
    ensures ok { OnOk result (input.new.items ≡ input.old.items ++ piece.now) }
{
    input.extend_from_slice(piece)?;
    Ok(())
}

/// A buffer for one piece of the input.
pub(crate) fn piece_buffer(alloc: Global) -> Result<Vec<u8>, NoMemory>
    ensures ok { IfOk result (λ buffer. vec_len buffer ≡ 65536) }
{
    Ok(vec![in alloc; 0; PIECE]?)
}

/// Takes the next bytes of the source into the front of the buffer, never more than one past the longest input.
pub(crate) fn take_piece<R: Source>(
    source: &mut R,
    buffer: &mut [u8],
    taken: u64,
) -> Result<usize, Failed>
    requires buffer { length buffer.old ≡ 65536 }
    requires taken { taken ≤ longest_input }
    ensures bound { IfOk result (λ count. (count ≤ 65536) × (taken + count ≤ longest_input + 1)) }
    ensures bytes { IfOk result (λ count. Consumes (R.port source.old).bytes (R.port source.new).bytes (take count buffer.new)) }
    ensures end { IfOk result (λ count. count ≡ 0 → IsAtEnd (R.port source.new).bytes) }
    ensures err { OnErr result (Keeps (R.port source.old).bytes (R.port source.new).bytes) }
    ensures failed { OnErr result (Rose (R.port source.old).faults (R.port source.new).faults) }
    ensures held { OnOk result ((R.port source.new).faults ≡ (R.port source.old).faults) }
{
    let room = (LONGEST_INPUT + 1 - taken).min(PIECE as u64) as usize;
    let (asked, _rest) = buffer.split_at_mut(room);
    source.take(asked)
}
