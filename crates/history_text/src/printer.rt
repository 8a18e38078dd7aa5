//! Text on its way to a sink.
ghost use Rattle.std.specs.Prelude.{◌≡◌, ◌+◌, ◌*◌, ◌≤◌, ◌++◌, [], length, IfOk, OnOk, vec_len, vec_capacity};
ghost use Rattle.std.specs.Fmt.{decimal};
ghost use Rattle.hex.specs.Hex.{encode_lower};
ghost use Rattle.history_text.specs.Putting.{Prints};

use hex::encode_to_slice;
use io_ports::{Failed, NoMemory, Sink};
use itoa::Buffer;
use std::alloc::Global;
use std::marker::Model;

/// The most bytes that wait, and the most that one call of a sink is given.
const PIECE: usize = 65_536;

/// The most bytes whose digits are a piece.
const HALF_PIECE: usize = 32_768;

/// Text that waits for its sink, so that the sink isn't called for each word. Clauses see it as the list of its bytes.
/// It takes its memory once, at the beginning.
#[derive(Drop)]
pub(crate) struct Printer {
    bytes: Vec<u8>,
}

impl Model for Printer {
    ghost use Rattle.std.specs.Prelude.{List, ℕ, ◌≤◌, vec_len, vec_capacity};
    ghost use Rattle.history_text.specs.declared.printer.TheConstants.{PIECE};

    ghost Value = { List ℕ };

    ghost view = { λ p. p.bytes.items };

    ghost invariant = { λ p. (vec_len p.bytes ≤ PIECE) × (PIECE ≤ vec_capacity p.bytes) };
}

impl Printer {
    /// No text, with room for a piece. `NoMemory` where that was refused.
    pub(crate) fn new(alloc: Global) -> Result<Printer, NoMemory>
        ensures ok { IfOk result (λ printer. printer ≡ []) }
    {
        let bytes = Vec::with_capacity(alloc, PIECE)?;
        Ok(Printer { bytes })
    }

    /// Puts all that waits into the sink.
    pub(crate) fn flush<W: Sink>(&mut self, sink: &mut W) -> Result<(), Failed>
        ensures puts { Prints (W.port sink.old) (W.port sink.new) self.old self.new [] result }
        ensures ok { OnOk result (self.new ≡ []) }
    {
        sink.put(self.bytes.as_slice())?;
        self.bytes.clear();
        Ok(())
    }

    /// Makes room for so many bytes, by putting what waits where there is too little.
    fn make_room<W: Sink>(&mut self, sink: &mut W, count: usize) -> Result<(), Failed>
        requires { count ≤ PIECE }
        ensures puts { Prints (W.port sink.old) (W.port sink.new) self.old self.new [] result }
        ensures room { OnOk result (length self.new + count ≤ PIECE) }
    {
        if count > PIECE - self.bytes.len() {
            return self.flush(sink);
        }
        Ok(())
    }

    /// Prints a text.
    pub(crate) fn text<W: Sink>(&mut self, sink: &mut W, text: &[u8]) -> Result<(), Failed>
        ensures puts { Prints (W.port sink.old) (W.port sink.new) self.old self.new text.now result }
    {
        if text.len() > PIECE {
            self.flush(sink)?;
            return sink.put(text);
        }
        self.make_room(sink, text.len())?;
        self.bytes.extend_from_slice(text).unwrap();
        Ok(())
    }

    /// Prints a number, decimal.
    pub(crate) fn number<W: Sink>(&mut self, sink: &mut W, number: u64) -> Result<(), Failed>
        ensures puts { Prints (W.port sink.old) (W.port sink.new) self.old self.new (decimal number) result }
    {
        let mut digits = Buffer::new();
        self.text(sink, digits.format(number).as_bytes())
    }

    /// Prints bytes as their hexadecimal digits, without a copy of more than a piece of them.
    pub(crate) fn hex<W: Sink>(&mut self, sink: &mut W, bytes: &[u8]) -> Result<(), Failed>
        ensures puts { Prints (W.port sink.old) (W.port sink.new) self.old self.new (encode_lower bytes.now) result }
    {
        let mut rest = bytes;
        while !rest.is_empty() {
            let (piece, later) = rest.split_at(rest.len().min(HALF_PIECE));
            self.hex_piece(sink, piece)?;
            rest = later;
        }
        Ok(())
    }

    /// Prints at most half a piece of bytes as their digits.
    fn hex_piece<W: Sink>(&mut self, sink: &mut W, bytes: &[u8]) -> Result<(), Failed>
        requires { 2 * length bytes.now ≤ PIECE }
        ensures puts { Prints (W.port sink.old) (W.port sink.new) self.old self.new (encode_lower bytes.now) result }
    {
        let count = 2 * bytes.len();
        self.make_room(sink, count)?;
        append_hex(&mut self.bytes, bytes);
        Ok(())
    }
}

/// Appends the digits of the bytes, into the room that there is.
fn append_hex(text: &mut Vec<u8>, bytes: &[u8])
    requires { vec_len text.old + 2 * length bytes.now ≤ vec_capacity text.old }
    ensures items { text.new.items ≡ text.old.items ++ encode_lower bytes.now }
    ensures len { vec_len text.new ≡ vec_len text.old + 2 * length bytes.now }
    ensures capacity { vec_capacity text.old ≤ vec_capacity text.new }
{
    let from = text.len();
    text.resize(from + 2 * bytes.len(), 0).unwrap();
    let (_before, digits) = text.split_at_mut(from);
    encode_to_slice(bytes, digits).unwrap();
}
