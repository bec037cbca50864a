//! The links of nodes: for each node another one, or itself. Members' links are written as members are used, so a list with room for many costs nothing before.
ghost use Rattle.std.specs.Prelude.{◌≡◌, ℕ, ◌<◌, ◌+◌, ◌^◌, List, length, slice_index, slice_set, swap, IfOk};
ghost use Rattle.std.specs.List.{range_with_len};
ghost use Rattle.gt_queue.specs.Nodes.{nodes_of};

use gt_room::Room;
use std::alloc::{AllocError, Global};
use std::marker::Model;

/// For each node a node: the members by their numbers, and then one for each queue. It is seen as the list of them. The members from `low`'s length on are
/// their own.
#[derive(Drop)]
pub struct Links {
    members: usize,
    low: Room<u32>,
    high: Vec<u32>,
}

impl Model for Links {
    ghost use Rattle.std.specs.Prelude.{ℕ, List};
    ghost use Rattle.gt_queue.specs.Nodes.{nodes_of, HaveRoom};

    ghost Value = { List ℕ };

    ghost view = { λ l. nodes_of l.members l.low.items l.high.items };

    ghost invariant = { λ l. HaveRoom l.members l.low l.high.items };
}

impl Links {
    /// Each node's own number, for these numbers of members and of queues, together fewer than 2^32. It alone takes memory.
    pub fn alone(alloc: Global, members: usize, queues: usize) -> Result<Links, AllocError>
        requires { members + queues < 2 ^ 32 }
        ensures { IfOk result (λ made. made ≡ range_with_len 0 (members + queues)) }
    {
        let low = Room::with_room(alloc, members)?;
        let high = (members as u32..(members + queues) as u32).collect(alloc)?;
        Ok(Links { members, low, high })
    }

    /// The node of a node.
    pub fn at(&self, i: usize) -> u32
        requires { i < length self.now }
        ensures { result ≡ slice_index self.now i }
    {
        if i >= self.members {
            self.high[i - self.members]
        } else if i < self.low.len() {
            *self.low.at(i)
        } else {
            i as u32
        }
    }

    /// Replaces the node of a node.
    pub fn set(&mut self, i: usize, x: u32)
        requires { i < length self.old }
        ensures { self.new ≡ slice_set self.old i x }
    {
        if i >= self.members {
            self.high[i - self.members] = x;
        } else {
            reach(&mut self.low, self.members, i);
            self.low.set(i, x);
        }
    }

    /// Exchanges the nodes of two nodes.
    pub fn swap(&mut self, i: usize, j: usize)
        requires i_in { i < length self.old }
        requires j_in { j < length self.old }
        ensures { self.new ≡ swap self.old i j }
    {
        let x = self.at(i);
        let y = self.at(j);
        self.set(i, y);
        self.set(j, x);
    }
}

/// Writes the links of members up to `i`.
fn reach(low: &mut Room<u32>, members: usize, i: usize)
    requires room { length low.old.items + low.old.spare ≡ members }
    requires few { members < 2 ^ 32 }
    requires inside { i < members }
    ensures room { length low.new.items + low.new.spare ≡ members }
    ensures reached { i < length low.new.items }
    ensures nodes { (high : List ℕ) → nodes_of members low.new.items high ≡ nodes_of members low.old.items high }
{
    while low.len() <= i {
        let next = low.len() as u32;
        low.put(next);
    }
}

/// Exchanges what stands before the nodes `x` and `y`. Where they are in two rings, the rings become one: each is cut
/// before its node, and the ends are joined. Where they are in one ring, it becomes two.
pub fn splice(next: &mut Links, prev: &mut Links, x: usize, y: usize)
    requires x_in { x < length prev.old }
    requires y_in { y < length prev.old }
    requires before_x_in { slice_index prev.old x < length next.old }
    requires before_y_in { slice_index prev.old y < length next.old }
    ensures next { next.new ≡ swap next.old (slice_index prev.old x) (slice_index prev.old y) }
    ensures prev { prev.new ≡ swap prev.old x y }
{
    next.swap(prev.at(x) as usize, prev.at(y) as usize);
    prev.swap(x, y);
}
