//! A channel, by the rules of The Go Programming Language Specification, sections "Send statements", "Receive operator" and
//! "Close".
ghost use Rattle.std.specs.Prelude.{◌≡◌, ◌↔◌, ◌≤◌, ◌<◌, ◌+◌, ◌++◌, ◌^◌, ◌∷◌, [], false, length, drop, nat_lt, slice_get, IsSome, IsNone, IfOk};
ghost use Rattle.gt_select.specs.Waiting.{parties_in};
ghost use Rattle.gt_chan.specs.Channel.{IsLawful, HasLists, MayPark, partner_in, without_partner, parked, senders, receivers, waiter, without_waiters, unmade, made, shut};
ghost use Rattle.gt_chan.specs.Steps.{send_step, channel_after_send, waiters_after_send, recv_step, channel_after_recv, waiters_after_recv, close_step};

use crate::steps::{CloseStep, RecvStep, SendStep};
use gt_model::Party;
use gt_select::Waiters;
use std::alloc::{AllocError, Global};
use std::collections::VecDeque;
use std::marker::Model;

/// A channel. It is seen as the `world` in which it was made, None while it is unmade; its `capacity`; its `items`, the longest
/// waiting first; whether it is `closed`; and the number of the `list` in which its senders wait. Its receivers wait in the
/// list with the next number.
///
/// It has as many items as its capacity at most, and while it is unmade none.
#[derive(Drop)]
pub struct Chan {
    world: Option<u32>,
    capacity: u32,
    items: VecDeque<u32>,
    closed: bool,
    list: u32,
}

impl Model for Chan {
    ghost use Rattle.gt_chan.specs.Channel.{Channel};

    ghost Value = { Channel };

    ghost use Rattle.std.specs.VecDeque.{deque_capacity};
    ghost use Rattle.gt_chan.specs.Kept.{IsKept};

    ghost view = { λ c. record {
      world = c.world;
      capacity = c.capacity;
      items = c.items.items;
      closed = c.closed;
      list = c.list;
    } };

    ghost invariant = { λ c.
        IsKept c.world c.capacity c.items.items (deque_capacity c.items) c.closed c.list };
}

impl Chan {
    /// An unmade channel with room for `capacity` items, whose senders wait in a list of this number. It alone takes memory.
    pub fn with_room(alloc: Global, capacity: u32, list: u32) -> Result<Chan, AllocError>
        requires { list + 1 < 2 ^ 32 }
        ensures { IfOk result (λ declared. declared ≡ unmade capacity list) }
    {
        let items = VecDeque::with_capacity(alloc, capacity as usize)?;
        Ok(Chan {
            world: None,
            capacity,
            items,
            closed: false,
            list,
        })
    }

    /// Tells a proof what is true of a channel at all times. It does nothing.
    pub fn lawful(&self)
        ensures { IsLawful self.now }
    {
        let _world = self.world;
    }

    /// Makes the channel, in a world: it is open and empty.
    pub fn make(&mut self, world: u32)
        requires { self.old.world ≡ None }
        ensures { self.new ≡ made self.old world }
    {
        self.world = Some(world);
    }

    /// The world in which the channel was made, or None while it is unmade.
    pub fn world(&self) -> Option<u32>
        ensures { result ≡ self.now.world }
    {
        self.world
    }

    /// Whether the channel is closed.
    pub fn is_closed(&self) -> bool
        ensures { result ≡ self.now.closed }
    {
        self.closed
    }

    /// How many items it keeps.
    pub fn len(&self) -> usize
        ensures { result ≡ length self.now.items }
    {
        self.items.len()
    }

    /// Whether it keeps fewer items than its capacity, so that one more has room.
    pub fn has_room(&self) -> bool
        ensures { result ≡ nat_lt (length self.now.items) self.now.capacity }
    {
        self.len() < self.capacity as usize
    }

    /// The item that was sent first of those that it keeps; None where it keeps none.
    pub fn first(&self) -> Option<u32>
        ensures { result ≡ slice_get self.now.items 0 }
    {
        self.items.front().copied()
    }

    /// Keeps one item more, behind the others: a send to a channel with room (The Go Programming Language Specification, "Send
    /// statements").
    pub fn put(&mut self, v: u32)
        requires made { IsSome self.old.world }
        requires not_closed { self.old.closed ≡ false }
        requires room { length self.old.items < self.old.capacity }
        ensures { self.new ≡ record self.old { items = self.old.items ++ v ∷ [] } }
    {
        self.items.push_back_reserved(v);
    }

    /// Lets the first item go, and returns it: a receive from a channel that keeps items, closed or not (The Go Programming
    /// Language Specification, "Receive operator" and "Close"). None where it keeps none, and then nothing changes.
    pub fn take(&mut self) -> Option<u32>
        requires { IsSome self.old.world }
        ensures first { result ≡ slice_get self.old.items 0 }
        ensures channel { self.new ≡ record self.old { items = drop 1 self.old.items } }
    {
        self.items.pop_front()
    }

    /// Tries to send v for p. A party that takes v leaves its list. Where nobody takes it and p's goroutine has a live ticket,
    /// p waits behind the senders that wait.
    pub fn try_send(&mut self, w: &mut Waiters, p: Party, v: u32) -> SendStep
        requires made { IsSome self.old.world }
        requires lists { HasLists w.old self.old }
        requires may_park { send_step self.old w.old p ≡ SendStep.Park → MayPark w.old p }
        ensures step { result ≡ send_step self.old w.old p }
        ensures channel { self.new ≡ channel_after_send result self.old v }
        ensures waiters { w.new ≡ waiters_after_send result self.old w.old p }
    {
        if self.closed {
            return SendStep::Closed;
        }
        if self.has_room() {
            self.put(v);
            return SendStep::Done;
        }
        match take_partner(w, self.capacity, self.list + 1, p.g) {
            Some(receiver) => SendStep::With(receiver),
            None => {
                park(w, self.list, p);
                SendStep::Park
            }
        }
    }

    /// Tries to receive for p. A party whose value is received leaves its list. Where nothing is received and p's goroutine
    /// has a live ticket, p waits behind the receivers that wait.
    pub fn try_recv(&mut self, w: &mut Waiters, p: Party) -> RecvStep
        requires made { IsSome self.old.world }
        requires lists { HasLists w.old self.old }
        requires may_park { recv_step self.old w.old p ≡ RecvStep.Park → MayPark w.old p }
        ensures step { result ≡ recv_step self.old w.old p }
        ensures channel { self.new ≡ channel_after_recv result self.old }
        ensures waiters { w.new ≡ waiters_after_recv result self.old w.old p }
    {
        if let Some(v) = self.take() {
            return RecvStep::Got(v);
        }
        if self.closed {
            return RecvStep::Zero;
        }
        match take_partner(w, self.capacity, self.list, p.g) {
            Some(sender) => RecvStep::With(sender),
            None => {
                park(w, self.list + 1, p);
                RecvStep::Park
            }
        }
    }

    /// Closes the channel, which keeps its items (The Go Programming Language Specification, "Close"). Those that wait stay in
    /// their lists.
    pub fn close(&mut self) -> CloseStep
        requires { IsSome self.old.world }
        ensures step { result ≡ close_step self.old.closed }
        ensures channel { self.new ≡ shut self.old }
    {
        if self.closed {
            return CloseStep::Closed;
        }
        self.closed = true;
        CloseStep::Woken
    }

    /// Takes all parties of a goroutine out of the channel's lists.
    pub fn forget(&self, w: &mut Waiters, g: u32)
        requires { HasLists w.old self.now }
        ensures { w.new ≡ without_waiters self.now w.old g }
    {
        w.forget(self.list, g);
        w.forget(self.list + 1, g);
    }

    /// The receiver that has waited longest, or the sender where no receiver waits. None where nobody waits.
    pub fn next_waiter(&self, w: &Waiters) -> Option<Party>
        requires { HasLists w.now self.now }
        ensures first { result ≡ waiter self.now w.now }
        ensures none { IsNone result
            ↔ ((parties_in w.now.lists (receivers self.now) ≡ [])
            × (parties_in w.now.lists (senders self.now) ≡ [])) }
    {
        w.first(self.list + 1).or(w.first(self.list))
    }
}

// Takes the one whom an operation of g meets at a channel of this capacity out of its list.
fn take_partner(w: &mut Waiters, capacity: u32, list: u32, g: u32) -> Option<Party>
    requires { list < length w.old.lists }
    ensures partner { result ≡ partner_in capacity w.old list g }
    ensures waiters { w.new ≡ without_partner result w.old }
{
    if capacity > 0 {
        return None;
    }
    w.lawful();
    let partner = w.first_other(list, g)?;
    w.leave(partner);
    Some(partner)
}

// p waits in a list, where its goroutine has a live ticket.
fn park(w: &mut Waiters, list: u32, p: Party)
    requires list { list < length w.old.lists }
    requires may_park { MayPark w.old p }
    ensures { w.new ≡ parked w.old list p }
{
    if w.ticket(p.g).is_some() {
        w.wait(list, p);
    }
}
