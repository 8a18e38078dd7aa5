//! Which blocks are in which chain, and which are free.
ghost use Rattle.std.specs.Prelude.{◌≡◌, ◌≢◌, ℕ, ◌+◌, ◌-◌, ◌<◌, ◌≤◌, [], None, Some, IsSome, ◌⊎◌, IfOk, length, ◌==◌, if◌then◌else◌};
ghost use Rattle.std.specs.FinMap as fin;
ghost use Rattle.block_pool.specs.Chains.{at, below, inserted, entries_of, replaced, head_of, IsChain};
ghost use Rattle.block_pool.specs.Links.{IsFree, IsValid, free_of};

use crate::node::Node;
use crate::nodes::{
    Place, add_node, begin, block_at, cut_behind, node_of, place_below, put_before, put_behind,
};
use io_ports::NoMemory;
use std::alloc::Global;
use std::marker::Model;

/// Which blocks are in which chain, and which are free: freed ones, and those that were never used.
#[derive(Drop)]
pub struct Links {
    nodes: Vec<Node>,
    first_freed: usize,
    freed: usize,
    blocks: usize,
}

impl Model for Links {
    ghost use Rattle.std.specs.Prelude.{vec_capacity};
    ghost use Rattle.block_pool.specs.Links.{LinkState, links_code, link_state, IsHeld};

    ghost Value = { LinkState };

    ghost coded = { links_code };

    ghost view = { λ l. link_state l.nodes.items l.first_freed l.freed l.blocks };

    ghost invariant = { λ l. IsHeld l.nodes.items l.first_freed l.freed l.blocks (vec_capacity l.nodes) };
}

impl Links {
    /// No chains, and so many blocks that were never used. `NoMemory` where memory for their nodes was refused.
    pub fn new(alloc: Global, blocks: usize) -> Result<Links, NoMemory>
        ensures ok { IfOk result (λ links. links ≡ record { chains = fin.empty; used = 0; freed = []; blocks = blocks }) }
    {
        let nodes = Vec::with_capacity(alloc, blocks)?;
        Ok(Links {
            nodes,
            first_freed: 0,
            freed: 0,
            blocks,
        })
    }

    /// How many blocks are free.
    pub fn free(&self) -> usize
        ensures count { result ≡ free_of self.now }
        ensures valid { IsValid self.now }
    {
        self.freed + (self.blocks - self.nodes.len())
    }

    /// The block at a position of a chain, where there is one.
    pub fn find(&self, head: usize, position: u64) -> Option<usize>
        requires { IsSome (fin.get self.now.chains head) }
        ensures block { result ≡ at (entries_of self.now.chains (Some head)) position }
        ensures valid { IsValid self.now }
    {
        block_at(&self.nodes, head, position)
    }

    /// A free block, for a chain to take. A freed one comes before one that was never used.
    pub fn claim(&mut self) -> usize
        requires { 0 < free_of self.old }
        ensures block { IsFree self.new result }
        ensures free { free_of self.new + 1 ≡ free_of self.old }
        ensures used { self.new.used ≡ (if result == self.old.used then self.old.used + 1 else self.old.used) }
        ensures within { result ≤ self.old.used }
        ensures few { self.new.used ≤ self.new.blocks }
        ensures chains { self.new.chains ≡ self.old.chains }
        ensures blocks { self.new.blocks ≡ self.old.blocks }
    {
        if self.freed > 0 {
            let block = self.first_freed;
            self.first_freed = node_of(&self.nodes, block).next;
            self.freed -= 1;
            return block;
        }
        let block = self.nodes.len();
        add_node(&mut self.nodes);
        block
    }

    /// Puts a block into a chain at a position. Answers the chain's head.
    pub fn link(&mut self, head: Option<usize>, block: usize, position: u64) -> usize
        requires chain { IsChain self.old.chains head }
        requires block { IsFree self.old block }
        requires absent { at (entries_of self.old.chains head) position ≡ None }
        ensures links { self.new ≡ record self.old { chains = replaced self.old.chains head (Some result) (inserted (entries_of self.old.chains head) position block) } }
        ensures head { (result ≡ block) ⊎ (head ≡ Some result) }
    {
        let Some(head) = head else {
            begin(&mut self.nodes, block, position);
            return block;
        };
        if position < node_of(&self.nodes, head).position {
            put_before(&mut self.nodes, head, block, position);
            return block;
        }
        let place = place_below(&self.nodes, head, position);
        put_behind(&mut self.nodes, head, place.block, block, position);
        head
    }

    /// Takes the blocks from a position on out of a chain and frees them. Answers the chain's head, where it has blocks
    /// left.
    pub fn cut(&mut self, head: usize, position: u64) -> Option<usize>
        requires { IsSome (fin.get self.old.chains head) }
        ensures chains { self.new.chains ≡ replaced self.old.chains (Some head) result (below (entries_of self.old.chains (Some head)) position) }
        ensures head { result ≡ head_of head (below (entries_of self.old.chains (Some head)) position) }
        ensures valid { IsValid self.old }
        ensures free { free_of self.new + length (below (entries_of self.old.chains (Some head)) position) ≡ free_of self.old + length (entries_of self.old.chains (Some head)) }
        ensures used { self.new.used ≡ self.old.used }
        ensures blocks { self.new.blocks ≡ self.old.blocks }
    {
        let first = node_of(&self.nodes, head);
        if position <= first.position {
            let none = Place {
                block: head,
                kept: 0,
            };
            cut_behind(&mut self.nodes, head, none, self.first_freed);
            self.first_freed = head;
            self.freed += first.count;
            return None;
        }
        let place = place_below(&self.nodes, head, position);
        if place.kept == first.count {
            return Some(head);
        }
        let tail = node_of(&self.nodes, place.block).next;
        cut_behind(&mut self.nodes, head, place, self.first_freed);
        self.first_freed = tail;
        self.freed += first.count - place.kept;
        Some(head)
    }
}
