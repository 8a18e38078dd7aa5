//! The range of the source that is wanted, while it is found block by block.
ghost use Rattle.std.specs.Prelude.{◌≡◌, ℕ, ◌-◌, ◌≤◌, Bool};
ghost use Rattle.staged_file.specs.Spans.{Spans, IsRun};

use crate::wanted::Wanted;

/// From the first byte that is wanted so far up to the end of the last run of such bytes; 0 and 0 where there is none.
#[derive(Clone, Copy, Debug)]
pub struct Span {
    /// The first byte that is wanted.
    pub first: u64,
    /// The end of the last run.
    pub end: u64,
}

impl Span {
    /// No byte.
    pub fn none() -> Span
        ensures { result ≡ record { first = 0; end = 0 } }
    {
        Span { first: 0, end: 0 }
    }

    /// Takes a run of bytes that lies behind all before it.
    pub fn add(&mut self, first: u64, end: u64)
        ensures { (test : ℕ → Bool) (low mid high : ℕ) → Spans test low mid self.old.first self.old.end → IsRun test low mid high first end → Spans test low high self.new.first self.new.end }
    {
        if first >= end {
            return;
        }
        if self.end == 0 {
            *self = Span { first, end };
            return;
        }
        self.end = end;
    }

    /// The range.
    pub fn wanted(&self) -> Wanted
        requires { self.now.first ≤ self.now.end }
        ensures { result ≡ record { first = self.now.first; count = self.now.end - self.now.first } }
    {
        Wanted {
            first: self.first,
            count: self.end - self.first,
        }
    }
}
