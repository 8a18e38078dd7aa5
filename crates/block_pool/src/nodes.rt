//! How blocks are linked: changes of single nodes, and the search along a chain.
ghost use Rattle.std.specs.Prelude.{◌≡◌, ◌+◌, ◌<◌, ◌≤◌, ◌^◌, ◌++◌, ◌∷◌, [], vec_len, vec_capacity};
ghost use Rattle.block_pool.specs.Chains.{at};
ghost use Rattle.block_pool.specs.Nodes.{node_at, chain_at, IsPlace, IsWithin};
ghost use Rattle.block_pool.specs.Nodes as spec;

use crate::node::Node;

/// The place of a position in a chain: its last block below the position.
#[derive(Clone, Copy, Debug)]
pub struct Place {
    /// The block.
    pub block: usize,
    /// How many blocks of the chain there are up to it.
    pub kept: usize,
}

/// The node of a block.
pub fn node_of(nodes: &Vec<Node>, block: usize) -> Node
    requires { block < vec_len nodes.now }
    ensures { result ≡ node_at nodes.now.items block }
{
    nodes[block]
}

/// Another node for a block.
fn set_node(nodes: &mut Vec<Node>, block: usize, node: Node)
    requires { block < vec_len nodes.old }
    ensures nodes { nodes.new.items ≡ spec.with_node nodes.old.items block node }
    ensures len { vec_len nodes.new ≡ vec_len nodes.old }
    ensures room { vec_capacity nodes.new ≡ vec_capacity nodes.old }
{
    nodes[block] = node;
}

/// A node more, for a block that is used for the first time. It takes no memory.
pub fn add_node(nodes: &mut Vec<Node>)
    requires { vec_len nodes.old < vec_capacity nodes.old }
    ensures nodes { nodes.new.items ≡ nodes.old.items ++ spec.no_node ∷ [] }
    ensures len { vec_len nodes.new ≡ vec_len nodes.old + 1 }
    ensures room { vec_capacity nodes.old ≤ vec_capacity nodes.new }
{
    let node = Node {
        position: 0,
        next: 0,
        last: 0,
        count: 0,
    };
    nodes.push(node).unwrap();
}

/// A block begins a chain of its own.
pub fn begin(nodes: &mut Vec<Node>, block: usize, position: u64)
    requires { block < vec_len nodes.old }
    ensures nodes { nodes.new.items ≡ spec.begun nodes.old.items block position }
    ensures len { vec_len nodes.new ≡ vec_len nodes.old }
    ensures room { vec_capacity nodes.new ≡ vec_capacity nodes.old }
{
    let node = Node {
        position,
        next: block,
        last: block,
        count: 1,
    };
    set_node(nodes, block, node);
}

/// A block goes before the first one of a chain, whose head it becomes.
pub fn put_before(nodes: &mut Vec<Node>, head: usize, block: usize, position: u64)
    requires head { head < vec_len nodes.old }
    requires block { block < vec_len nodes.old }
    requires count { (node_at nodes.old.items head).count + 1 < 2 ^ 64 }
    ensures nodes { nodes.new.items ≡ spec.put_before nodes.old.items head block position }
    ensures len { vec_len nodes.new ≡ vec_len nodes.old }
    ensures room { vec_capacity nodes.new ≡ vec_capacity nodes.old }
{
    let first = node_of(nodes, head);
    let node = Node {
        position,
        next: head,
        last: first.last,
        count: first.count + 1,
    };
    set_node(nodes, block, node);
    set_node(nodes, head, Node { count: 0, ..first });
}

/// A block gets its position, and the block that comes next.
fn point(nodes: &mut Vec<Node>, block: usize, position: u64, next: usize)
    requires { block < vec_len nodes.old }
    ensures nodes { nodes.new.items ≡ spec.pointed nodes.old.items block position next }
    ensures len { vec_len nodes.new ≡ vec_len nodes.old }
    ensures room { vec_capacity nodes.new ≡ vec_capacity nodes.old }
{
    let node = node_of(nodes, block);
    set_node(
        nodes,
        block,
        Node {
            position,
            next,
            ..node
        },
    );
}

/// Another block comes next.
fn join(nodes: &mut Vec<Node>, block: usize, next: usize)
    requires { block < vec_len nodes.old }
    ensures nodes { nodes.new.items ≡ spec.joined nodes.old.items block next }
    ensures len { vec_len nodes.new ≡ vec_len nodes.old }
    ensures room { vec_capacity nodes.new ≡ vec_capacity nodes.old }
{
    let node = node_of(nodes, block);
    set_node(nodes, block, Node { next, ..node });
}

/// A chain has so many blocks, up to this one.
fn bound(nodes: &mut Vec<Node>, head: usize, count: usize, last: usize)
    requires { head < vec_len nodes.old }
    ensures nodes { nodes.new.items ≡ spec.bounded nodes.old.items head count last }
    ensures len { vec_len nodes.new ≡ vec_len nodes.old }
    ensures room { vec_capacity nodes.new ≡ vec_capacity nodes.old }
{
    let node = node_of(nodes, head);
    set_node(
        nodes,
        head,
        Node {
            count,
            last,
            ..node
        },
    );
}

/// A block goes behind another one of a chain, the last one or not.
pub fn put_behind(nodes: &mut Vec<Node>, head: usize, place: usize, block: usize, position: u64)
    requires head { head < vec_len nodes.old }
    requires place { place < vec_len nodes.old }
    requires block { block < vec_len nodes.old }
    requires count { (node_at nodes.old.items head).count + 1 < 2 ^ 64 }
    ensures nodes { nodes.new.items ≡ spec.put_behind nodes.old.items head place block position }
    ensures len { vec_len nodes.new ≡ vec_len nodes.old }
    ensures room { vec_capacity nodes.new ≡ vec_capacity nodes.old }
{
    let first = node_of(nodes, head);
    let next = node_of(nodes, place).next;
    let last = if place == first.last {
        block
    } else {
        first.last
    };
    point(nodes, block, position, next);
    join(nodes, place, block);
    bound(nodes, head, first.count + 1, last);
}

/// A chain keeps so many blocks, up to this one; its last block comes before the freed ones.
pub fn cut_behind(nodes: &mut Vec<Node>, head: usize, place: Place, first_freed: usize)
    requires head { head < vec_len nodes.old }
    requires last { (node_at nodes.old.items head).last < vec_len nodes.old }
    ensures nodes { nodes.new.items ≡ spec.cut_behind nodes.old.items head place.block place.kept first_freed }
    ensures len { vec_len nodes.new ≡ vec_len nodes.old }
    ensures room { vec_capacity nodes.new ≡ vec_capacity nodes.old }
{
    let last = node_of(nodes, head).last;
    join(nodes, last, first_freed);
    bound(nodes, head, place.kept, place.block);
}

/// The place of a position in a chain whose first block is below it. It looks at the last block first, and then at each
/// from the first one on.
pub fn place_below(nodes: &Vec<Node>, head: usize, position: u64) -> Place
    requires chain { IsWithin nodes.now.items head }
    requires first { (node_at nodes.now.items head).position < position }
    ensures { IsPlace nodes.now.items head position result.block result.kept }
{
    let first = node_of(nodes, head);
    if node_of(nodes, first.last).position < position {
        return Place {
            block: first.last,
            kept: first.count,
        };
    }
    let mut block = head;
    for kept in 1..first.count {
        let next = node_of(nodes, block).next;
        if position <= node_of(nodes, next).position {
            return Place { block, kept };
        }
        block = next;
    }
    Place {
        block,
        kept: first.count,
    }
}

/// The block at a position of a chain, where there is one. It looks at the last block first, and then at each from the
/// first one on.
pub fn block_at(nodes: &Vec<Node>, head: usize, position: u64) -> Option<usize>
    requires { IsWithin nodes.now.items head }
    ensures { result ≡ at (chain_at nodes.now.items head) position }
{
    let first = node_of(nodes, head);
    let last = node_of(nodes, first.last).position;
    if last < position {
        return None;
    }
    if last == position {
        return Some(first.last);
    }
    let mut block = head;
    for steps in 0..first.count {
        let node = node_of(nodes, block);
        if node.position == position {
            return Some(block);
        }
        block = node.next;
    }
    None
}
