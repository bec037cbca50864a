//! Those that wait.
ghost use Rattle.std.specs.Prelude.{◌≡◌, ◌↔◌, ◌≤◌, ◌<◌, [], length, slice_get, Contains, None, IsTrue, IsNone, IfOk, if◌then◌else◌};
ghost use Rattle.std.specs.List.{last_or};
ghost use Rattle.gt_select.specs.Waiting.{IsLawful, IsLive, MayEnrol, MayWait, ticket_of, parties_in, parties_in_front, without_goroutine, nobody_waits, enrolled, joined, joined_before, left, forgotten, gone};

use crate::nodes::{NODES, Ticket, Waiter, first_other, leave_all, leave_one, note, party_at};
use crate::table::Table;
use gt_model::Party;
use gt_queue::Queues;
use slab::Slab;
use std::alloc::{AllocError, Global};
use std::marker::Model;

/// As many nodes as there can be, with one for each list.
const MOST_NODES: usize = 0xffff_ffff;

/// Those that wait. They are seen as the `lists`, each the list of the parties that wait there with the longest waiting first;
/// the `tickets`, by goroutine the turn of its live ticket or none; the number `turns` of tickets that were given, which stands
/// still at 2^64 - 1; and the greatest number `goroutines` of a goroutine.
///
/// Each party in a list is of a goroutine with a live ticket, and stands in that list alone, once.
#[derive(Drop)]
pub struct Waiters {
    goroutines: usize,
    turns: u64,
    /// By goroutine: the key of its live ticket.
    keys: Table,
    tickets: Slab<Waiter>,
    queues: Queues,
    /// By node: the list in which it stands, or stood last.
    places: Table,
}

impl Model for Waiters {
    ghost use Rattle.gt_select.specs.Waiting.{Waiting};

    ghost Value = { Waiting };

    ghost use Rattle.gt_select.specs.Kept.{lists_of, turns_of, AreTickets, ArePlaced};

    ghost view = { λ w. record {
      lists = lists_of w.tickets w.queues.queues;
      tickets = turns_of w.tickets w.keys;
      turns = w.turns;
      goroutines = w.goroutines;
    } };

    ghost invariant = { λ w.
        AreTickets w.goroutines w.turns w.keys w.tickets × ArePlaced w.places w.tickets w.queues };
}

impl Waiters {
    /// Nobody waits, there is no ticket, and so many lists are empty. Goroutines have the numbers from 1 to `goroutines`. It
    /// alone takes memory; room for so many goroutines and lists that their nodes have no 32-bit numbers is never given.
    pub fn with_room(alloc: Global, goroutines: usize, lists: usize) -> Result<Waiters, AllocError>
        ensures { IfOk result (λ made. made ≡ nobody_waits goroutines lists) }
    {
        if goroutines >= MOST_NODES {
            return Err(AllocError);
        }
        let tickets = Slab::with_capacity(alloc, goroutines + 1)?;
        let most = tickets.capacity();
        if most > MOST_NODES / NODES as usize || lists > MOST_NODES - most * NODES as usize {
            return Err(AllocError);
        }
        let nodes = most * NODES as usize;
        let keys = Table::with_room(alloc, goroutines + 1)?;
        let queues = Queues::with_room(alloc, lists, nodes)?;
        let places = Table::with_room(alloc, nodes)?;
        Ok(Waiters {
            goroutines,
            turns: 0,
            keys,
            tickets,
            queues,
            places,
        })
    }

    /// Tells a proof what is true at all times. It does nothing.
    pub fn lawful(&self)
        ensures { IsLawful self.now }
    {
        self.queues.lawful();
    }

    /// The turn of a goroutine's live ticket, or None where it has none.
    pub fn ticket(&self, g: u32) -> Option<u64>
        ensures { result ≡ ticket_of self.now g }
    {
        let key = self.keys.at(g)?;
        match self.tickets.get(key as usize) {
            Some(waiter) => Some(waiter.turn),
            None => None,
        }
    }

    /// Whether a ticket is live: it was neither won nor withdrawn.
    pub fn live(&self, t: Ticket) -> bool
        ensures { IsTrue result ↔ IsLive self.now t }
    {
        self.ticket(t.g) == Some(t.turn)
    }

    /// Gives a ticket to a goroutine that has none. `turns` stands still at 2^64 - 1, and from then on all tickets have that turn.
    pub fn enrol(&mut self, g: u32) -> Ticket
        requires { MayEnrol self.old g }
        ensures g { result.g ≡ g }
        ensures turn { result.turn ≡ self.old.turns }
        ensures waiters { self.new ≡ enrolled self.old g }
    {
        let ticket = Ticket {
            g,
            turn: self.turns,
        };
        let key = self.tickets.insert_reserved(Waiter {
            g,
            most: 0,
            turn: self.turns,
        });
        self.keys.set(g, Some(key as u32));
        self.turns = self.turns.saturating_add(1);
        ticket
    }

    /// From now on p waits in a list, behind those that wait there. Its goroutine has a live ticket, and p stands in no list.
    pub fn wait(&mut self, list: u32, p: Party)
        requires list { list < length self.old.lists }
        requires may_wait { MayWait self.old p }
        ensures { self.new ≡ joined self.old list p }
    {
        let key = self.keys.at(p.g).unwrap();
        let node = key * NODES + p.case_no;
        note(&mut self.tickets, key, p.case_no);
        self.queues.enqueue(list, node);
        self.places.set(node, Some(list));
    }

    /// From now on p waits in a list, in front of another party, which waits there. p's goroutine has a live ticket, and p stands
    /// in no list.
    pub fn wait_before(&mut self, list: u32, p: Party, other: Party)
        requires may_wait { MayWait self.old p }
        requires other { Contains (parties_in self.old.lists list) other }
        ensures { self.new ≡ joined_before self.old list p other }
    {
        let key = self.keys.at(p.g).unwrap();
        let other_key = self.keys.at(other.g).unwrap();
        let node = key * NODES + p.case_no;
        note(&mut self.tickets, key, p.case_no);
        self.queues
            .enqueue_before(list, node, other_key * NODES + other.case_no);
        self.places.set(node, Some(list));
    }

    /// The party that has waited longest in a list, or None where nobody waits there.
    pub fn first(&self, list: u32) -> Option<Party>
        requires { list < length self.now.lists }
        ensures first { result ≡ slice_get (parties_in self.now.lists list) 0 }
        ensures none { IsNone result ↔ (parties_in self.now.lists list ≡ []) }
    {
        let node = self.queues.first(list)?;
        Some(party_at(&self.tickets, node))
    }

    /// The party that came last to a list, or None where nobody waits there.
    pub fn last(&self, list: u32) -> Option<Party>
        requires { list < length self.now.lists }
        ensures last { result ≡ last_or None (parties_in self.now.lists list) }
        ensures none { IsNone result ↔ (parties_in self.now.lists list ≡ []) }
    {
        let node = self.queues.last(list)?;
        Some(party_at(&self.tickets, node))
    }

    /// The party in front of p in the list in which p stands, or None where p is the first there. `list` is there for the
    /// contract.
    pub fn before(&self, list: u32, p: Party) -> Option<Party>
        requires { Contains (parties_in self.now.lists list) p }
        ensures { result ≡ last_or None (parties_in_front (parties_in self.now.lists list) p) }
    {
        let key = self.keys.at(p.g).unwrap();
        let node = self.queues.prev_in(key * NODES + p.case_no)?;
        Some(party_at(&self.tickets, node))
    }

    /// The party of another goroutine than g that has waited longest in a list, or None where there is none. It passes by the
    /// parties of g before it.
    pub fn first_other(&self, list: u32, g: u32) -> Option<Party>
        requires { list < length self.now.lists }
        ensures { result ≡ slice_get (without_goroutine (parties_in self.now.lists list) g) 0 }
    {
        first_other(&self.queues, &self.tickets, list, g)
    }

    /// Takes p out of the list in which it stands, if it stands in one. The others keep their order.
    pub fn leave(&mut self, p: Party)
        requires { p.case_no ≤ 16 }
        ensures { self.new ≡ left self.old p }
    {
        if let Some(key) = self.keys.at(p.g) {
            self.queues.withdraw(key * NODES + p.case_no);
        }
    }

    /// Takes all parties of a goroutine out of one list. The others keep their order.
    pub fn forget(&mut self, list: u32, g: u32)
        requires { list < length self.old.lists }
        ensures { self.new ≡ forgotten self.old list g }
    {
        if let Some(key) = self.keys.at(g) {
            let most = self.tickets[key as usize].most;
            leave_one(&mut self.queues, &self.places, key, most, list);
        }
    }

    /// Lets the goroutine of a ticket go on: it leaves all lists, and the ticket is no longer live. False where the ticket is
    /// not live, and then nothing changes.
    pub fn win(&mut self, t: Ticket) -> bool
        ensures won { IsTrue result ↔ IsLive self.old t }
        ensures waiters { self.new ≡ (if result then gone self.old t.g else self.old) }
    {
        if !self.live(t) {
            return false;
        }
        let key = self.keys.at(t.g).unwrap();
        let waiter = self.tickets.remove(key as usize);
        leave_all(&mut self.queues, key, waiter.most);
        self.keys.set(t.g, None);
        true
    }

    /// Lets the goroutine of a ticket go on, as `win` does, where the ticket is live. Else nothing changes.
    pub fn withdraw(&mut self, t: Ticket)
        ensures live { IsLive self.old t → self.new ≡ gone self.old t.g }
        ensures over { ¬ IsLive self.old t → self.new ≡ self.old }
    {
        self.win(t);
    }
}
