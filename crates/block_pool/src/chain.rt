//! A chain of blocks, as its owner holds it.
ghost use Rattle.std.specs.Prelude.{◌≡◌, None};

use std::marker::Model;

/// A chain of blocks in a pool, which has its bytes. Contracts see it as its head, or none where it is empty. It may be
/// let go; its blocks then stay taken.
#[derive(Debug, Drop)]
pub struct Chain {
    head: Option<usize>,
}

impl Model for Chain {
    ghost use Rattle.std.specs.Prelude.{ℕ, Option};

    ghost Value = { Option ℕ };

    ghost view = { λ c. c.head };
}

impl Chain {
    /// The empty chain, which is one of every pool.
    pub fn empty() -> Chain
        ensures { result ≡ None }
    {
        Chain { head: None }
    }

    /// The head.
    pub(crate) fn head(&self) -> Option<usize>
        ensures { result ≡ self.now }
    {
        self.head
    }

    /// Another head.
    pub(crate) fn set_head(&mut self, head: Option<usize>)
        ensures { self.new ≡ head }
    {
        self.head = head;
    }
}
