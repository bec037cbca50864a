//! The queues.
ghost use Rattle.std.specs.Prelude.{◌≡◌, ℕ, ◌+◌, ◌<◌, ◌^◌, ◌↔◌, [], ◌∷◌, ◌++◌, drop, map, replicate, length, slice_get, slice_set, Contains, None, IsTrue, IsNone, IfNone, IfOk};
ghost use Rattle.std.specs.List.{last_or};
ghost use Rattle.gt_queue.specs.Contents.{IsLawful, IsWaiting, waiting_in, without, behind, in_front, put_before};

use crate::links::{Links, splice};
use std::alloc::{AllocError, Global};
use std::marker::Model;

/// Queues of members, both numbered from 0. It is seen as the list of its queues, each the list of its members with the
/// longest waiting first, and the number `members` below which each member's number lies.
///
/// Each queue is a ring of nodes: its members, which are nodes by their numbers, and one node of its own, before the first
/// and after the last, which has the number `members` more than the queue's. A member that stands in no queue is alone in
/// its ring.
#[derive(Drop)]
pub struct Queues {
    members: usize,
    next: Links,
    prev: Links,
}

impl Model for Queues {
    ghost use Rattle.gt_queue.specs.Contents.{Contents};

    ghost Value = { Contents };

    ghost use Rattle.gt_queue.specs.Links.{linked_queues, IsLinked};

    ghost view = { λ q. record {
      queues = linked_queues q.members q.next;
      members = q.members;
    } };

    ghost invariant = { λ q.
        IsLinked q.members q.next q.prev (linked_queues q.members q.next) };
}

impl Queues {
    /// So many empty queues, for so many members: together fewer than 2^32. It alone takes memory.
    pub fn with_room(alloc: Global, queues: usize, members: usize) -> Result<Queues, AllocError>
        requires { queues + members < 2 ^ 32 }
        ensures queues { IfOk result (λ made. made.queues ≡ replicate queues []) }
        ensures members { IfOk result (λ made. made.members ≡ members) }
    {
        let next = Links::alone(alloc, members, queues)?;
        let prev = Links::alone(alloc, members, queues)?;
        Ok(Queues {
            members,
            next,
            prev,
        })
    }

    /// Tells a proof what is true of the queues at all times. It does nothing.
    pub fn lawful(&self)
        ensures { IsLawful self.now }
    {
        let _next = &self.next;
    }

    /// Puts a member that stands in no queue at the end of a queue.
    pub fn enqueue(&mut self, queue: u32, member: u32)
        requires queue { queue < length self.old.queues }
        requires member { member < self.old.members }
        requires free { ¬ IsWaiting self.old.queues member }
        ensures queues { self.new.queues ≡ slice_set
            self.old.queues
            queue
            (waiting_in self.old.queues queue ++ member ∷ []) }
        ensures members { self.new.members ≡ self.old.members }
    {
        let end = self.members + queue as usize;
        splice(&mut self.next, &mut self.prev, end, member as usize);
    }

    /// Puts a member that stands in no queue in front of another one, which stands in that queue. The other one's links alone
    /// say where that is: `queue` is there for the contract.
    pub fn enqueue_before(&mut self, queue: u32, member: u32, other: u32)
        requires member { member < self.old.members }
        requires free { ¬ IsWaiting self.old.queues member }
        requires other { Contains (waiting_in self.old.queues queue) other }
        ensures queues { self.new.queues ≡ slice_set
            self.old.queues
            queue
            (put_before (waiting_in self.old.queues queue) other member) }
        ensures members { self.new.members ≡ self.old.members }
    {
        splice(
            &mut self.next,
            &mut self.prev,
            other as usize,
            member as usize,
        );
    }

    /// The member that has waited longest in a queue, or None where nobody waits there.
    pub fn first(&self, queue: u32) -> Option<u32>
        requires { queue < length self.now.queues }
        ensures first { result ≡ slice_get (waiting_in self.now.queues queue) 0 }
        ensures none { IsNone result ↔ (waiting_in self.now.queues queue ≡ []) }
    {
        let node = self.next.at(self.members + queue as usize);
        if (node as usize) < self.members {
            Some(node)
        } else {
            None
        }
    }

    /// The member that came last to a queue, or None where nobody waits there.
    pub fn last(&self, queue: u32) -> Option<u32>
        requires { queue < length self.now.queues }
        ensures last { result ≡ last_or None (waiting_in self.now.queues queue) }
        ensures none { IsNone result ↔ (waiting_in self.now.queues queue ≡ []) }
    {
        let node = self.prev.at(self.members + queue as usize);
        if (node as usize) < self.members {
            Some(node)
        } else {
            None
        }
    }

    /// Takes the member that has waited longest out of a queue and returns it, or returns None where nobody waits there;
    /// then nothing changes.
    pub fn dequeue(&mut self, queue: u32) -> Option<u32>
        requires { queue < length self.old.queues }
        ensures first { result ≡ slice_get (waiting_in self.old.queues queue) 0 }
        ensures none { IsNone result ↔ (waiting_in self.old.queues queue ≡ []) }
        ensures unchanged { IfNone result (self.new ≡ self.old) }
        ensures queues { self.new.queues ≡ slice_set
            self.old.queues
            queue
            (drop 1 (waiting_in self.old.queues queue)) }
        ensures members { self.new.members ≡ self.old.members }
    {
        self.lawful();
        let member = self.first(queue)?;
        self.remove(queue, member);
        Some(member)
    }

    /// Takes a member out of the queue in which it stands. The others keep their order. Its links alone say where it
    /// stands: `queue` is there for the contract.
    pub fn remove(&mut self, queue: u32, member: u32)
        requires { Contains (waiting_in self.old.queues queue) member }
        ensures queues { self.new.queues ≡ slice_set
            self.old.queues
            queue
            (without (waiting_in self.old.queues queue) member) }
        ensures members { self.new.members ≡ self.old.members }
    {
        self.lawful();
        self.withdraw(member);
    }

    /// Takes a member out of the queue in which it stands, if it stands in one. The others keep their order.
    pub fn withdraw(&mut self, member: u32)
        requires { member < self.old.members }
        ensures queues { self.new.queues ≡ map (λ waiting. without waiting member) self.old.queues }
        ensures members { self.new.members ≡ self.old.members }
    {
        let node = member as usize;
        let after = self.next.at(node) as usize;
        if after != node {
            splice(&mut self.next, &mut self.prev, node, after);
        }
    }

    /// Whether a member stands in some queue.
    pub fn contains(&self, member: u32) -> bool
        requires { member < self.now.members }
        ensures { IsTrue result ↔ IsWaiting self.now.queues member }
    {
        self.next.at(member as usize) != member
    }

    /// The member behind a member in the queue in which that one stands, or None where it is the last there.
    pub fn next_in(&self, member: u32) -> Option<u32>
        requires { IsWaiting self.now.queues member }
        ensures { (queue : ℕ)
            → Contains (waiting_in self.now.queues queue) member
            → result ≡ slice_get (behind (waiting_in self.now.queues queue) member) 0 }
    {
        let node = self.next.at(member as usize);
        if (node as usize) < self.members {
            Some(node)
        } else {
            None
        }
    }

    /// The member in front of a member in the queue in which that one stands, or None where it is the first there.
    pub fn prev_in(&self, member: u32) -> Option<u32>
        requires { IsWaiting self.now.queues member }
        ensures { (queue : ℕ)
            → Contains (waiting_in self.now.queues queue) member
            → result ≡ last_or None (in_front (waiting_in self.now.queues queue) member) }
    {
        let node = self.prev.at(member as usize);
        if (node as usize) < self.members {
            Some(node)
        } else {
            None
        }
    }

    /// Whether nobody waits in a queue.
    pub fn is_empty(&self, queue: u32) -> bool
        requires { queue < length self.now.queues }
        ensures { IsTrue result ↔ (waiting_in self.now.queues queue ≡ []) }
    {
        self.first(queue).is_none()
    }
}
