//! The cutter: bytes go in in pieces of any length, and whole frames come out.
ghost use Rattle.std.specs.Prelude.{◌≡◌, ◌≤◌, ◌+◌, ◌^◌, List, [], length, ℕ};
ghost use Rattle.fuse_frames.specs.Cut.{HasNoBadLen};
ghost use Rattle.fuse_frames.specs.Cutter.{Fed, Finishes, GivesNext, HasRead, HasStopped, fed, fresh, gave_after, stream_after};
ghost use Rattle.fuse_frames.specs.Kept.{IsCutter, Says, TakenIn};
ghost use Rattle.fuse_frames.specs.declared.fault.CutFault.{CutFault};

use crate::fault::CutFault;
use crate::front::bad_len;
use crate::pieces::{Pieces, advance, hold};
use io_ports::{Bytes, NoMemory};
use std::alloc::Global;
use std::collections::VecDeque;
use std::marker::Model;
use std::mem;

/// Cuts a stream of bytes into whole request frames, in whatever pieces the bytes come. Contracts see the number of
/// bytes of the frames that it has given, the frames that wait, and the bytes behind them.
#[derive(Drop)]
pub struct FrameCutter {
    held: VecDeque<Bytes>,
    rest: Vec<u8>,
    given: u64,
    rest_place: u64,
}

impl Model for FrameCutter {
    ghost use Rattle.std.specs.Prelude.{◌≡◌};
    ghost use Rattle.fuse_frames.specs.Cutter.{Cutter, place};
    ghost use Rattle.fuse_frames.specs.Kept.{IsCutter};

    ghost Value = { Cutter };

    ghost view = { λ c. record { given = c.given; held = c.held.items; rest = c.rest.items } };

    ghost invariant = { λ c. let cutter : Cutter = record { given = c.given; held = c.held.items; rest = c.rest.items } in IsCutter cutter × (c.rest_place ≡ place cutter) };
}

impl FrameCutter {
    /// A cutter that has been fed nothing. It asks for no memory yet.
    pub fn new(alloc: Global) -> FrameCutter
        ensures answer { result ≡ fresh }
        ensures frames { HasRead [] [] result }
    {
        FrameCutter {
            held: VecDeque::new(alloc),
            rest: Vec::new(alloc),
            given: 0,
            rest_place: 0,
        }
    }

    /// Takes in the next bytes of the stream. The frames that they make whole wait for [`FrameCutter::next`].
    ///
    /// `LenBelow40` and `LenOver` come exactly where the four bytes of such a len have been fed, with the place of
    /// that frame's first byte; frames before it can still be taken, and from then on every call answers the same.
    /// `NoMemory` leaves all as it was. `Truncated` never comes here.
    pub fn feed(&mut self, bytes: &[u8]) -> Result<(), CutFault>
        requires { fed self.old + length bytes.now ≤ 2 ^ 62 }
        ensures answer { Fed self.old bytes.now result self.new }
        ensures bytes { fed self.new ≤ fed self.old + length bytes.now }
        ensures stays { (fault : CutFault) → HasStopped fault self.old → (result ≡ Err fault) × (self.new ≡ self.old) }

        // However the stream was fed, what was given and what is held are its frames.
        ensures frames { (stream : List ℕ) (gave : List (List ℕ)) → HasRead stream gave self.old → HasRead (stream_after stream bytes.now result) gave self.new }
    {
        if let Err(fault) = self.sound() {
            return Err(fault);
        }
        if let Err(NoMemory) = self.take_in(bytes) {
            return Err(CutFault::NoMemory);
        }
        self.sound()
    }

    /// The frame that has waited longest; none where no whole frame waits.
    pub fn next(&mut self) -> Option<Bytes>
        ensures answer { GivesNext self.old result self.new }
        ensures bytes { fed self.new ≡ fed self.old }
        ensures stays { (fault : CutFault) → HasStopped fault self.old → HasStopped fault self.new }

        // What was given, with this frame, and what is held are still the frames of the stream.
        ensures frames { (stream : List ℕ) (gave : List (List ℕ)) → HasRead stream gave self.old → HasRead stream (gave_after gave result) self.new }
    {
        let Some(frame) = self.held.pop_front() else {
            return None;
        };
        self.given += frame.as_slice().len() as u64;
        Some(frame)
    }

    /// Ends the stream. A bad len is answered as [`FrameCutter::feed`] answers it; else `Truncated` comes exactly where
    /// bytes stand behind the last whole frame. It asks for no memory, and frames that still wait are let go.
    pub fn finish(self) -> Result<(), CutFault>
        ensures answer { Finishes self result }
        ensures stays { (fault : CutFault) → HasStopped fault self → result ≡ Err fault }
    {
        if let Err(fault) = self.sound() {
            return Err(fault);
        }
        if self.rest.is_empty() {
            return Ok(());
        }
        Err(CutFault::Truncated(self.rest_place))
    }

    /// The bad len that was come upon, with its place.
    fn sound(&self) -> Result<(), CutFault>
        ensures says { Says self.now result }
        ensures kept { IsCutter self.now }
    {
        match bad_len(self.rest.as_slice(), self.rest_place) {
            Some(fault) => Err(fault),
            None => Ok(()),
        }
    }

    fn take_in(&mut self, bytes: &[u8]) -> Result<(), NoMemory>
        requires sound { HasNoBadLen self.old.rest }
        requires room { fed self.old + length bytes.now ≤ 2 ^ 62 }
        ensures { TakenIn self.old bytes.now result self.new }
    {
        let begun = self.rest.len();
        match advance(&mut self.held, &mut self.rest, bytes) {
            Err(NoMemory) => {
                self.rest.truncate(begun);
                Err(NoMemory)
            }
            Ok(None) => Ok(()),
            Ok(Some(pieces)) => {
                let Pieces { frames, rest, size } = pieces;
                let frame = mem::replace(&mut self.rest, rest);
                self.rest_place += (frame.len() + size) as u64;
                hold(&mut self.held, frame, frames);
                Ok(())
            }
        }
    }
}
