//! The nodes of those that wait: the goroutine whose ticket has the key k has the nodes from 17 k on, one for each number of
//! a case.
ghost use Rattle.std.specs.Prelude.{◌≡◌, ℕ, ◌+◌, ◌*◌, ◌≤◌, ◌<◌, ◌^◌, map, length, slice_get, slice_set, slice_index_or, Contains, Some, None};
ghost use Rattle.slab.specs.Slab.{get, with_value};
ghost use Rattle.gt_queue.specs.Contents.{waiting_in, without};
ghost use Rattle.gt_select.specs.Kept.{party_at, without_key, raised, IsReached};
ghost use Rattle.gt_select.specs.Waiting.{without_goroutine};

use crate::table::Table;
use gt_model::Party;
use gt_queue::Queues;
use slab::Slab;

/// How many nodes a goroutine has: one for its plain instruction, and one for each of sixteen cases.
pub const NODES: u32 = 17;

/// A goroutine's leave to wait, and which one it is, counted from 0 over all goroutines.
#[derive(Clone, Copy, Debug, PartialEq, Eq)]
pub struct Ticket {
    pub g: u32,
    pub turn: u64,
}

/// What is kept of a goroutine with a live ticket: the ticket, and the greatest number of a case under which it came to wait
/// with it. So its nodes past that number stand in no queue, and need not be taken out.
#[derive(Clone, Copy)]
pub struct Waiter {
    pub g: u32,
    pub most: u32,
    pub turn: u64,
}

/// Notes that the goroutine of a key comes to wait under a number of a case.
pub fn note(tickets: &mut Slab<Waiter>, key: u32, case_no: u32)
    ensures { (w : Waiter) → get tickets.old key ≡ Some w → tickets.new ≡ with_value tickets.old key (raised w case_no) }
{
    if let Some(waiter) = tickets.get_mut(key as usize) {
        raise(waiter, case_no);
    }
}

fn raise(waiter: &mut Waiter, case_no: u32)
    ensures { waiter.new ≡ raised waiter.old case_no }
{
    if waiter.most < case_no {
        waiter.most = case_no;
    }
}

/// The party at a node.
pub fn party_at(tickets: &Slab<Waiter>, node: u32) -> Party
    ensures { result ≡ party_at tickets.now node }
{
    let g = match tickets.get((node / NODES) as usize) {
        Some(waiter) => waiter.g,
        None => 0,
    };
    Party {
        g,
        case_no: node % NODES,
    }
}

/// The first party of another goroutine than g in a queue, or None where there is none.
pub fn first_other(queues: &Queues, tickets: &Slab<Waiter>, queue: u32, g: u32) -> Option<Party>
    requires { queue < length queues.now.queues }
    ensures { result ≡ slice_get (without_goroutine (map (party_at tickets.now) (waiting_in queues.now.queues queue)) g) 0 }
{
    queues.lawful();
    let mut next = queues.first(queue);
    while let Some(node) = next {
        let party = party_at(tickets, node);
        if party.g != g {
            return Some(party);
        }
        next = queues.next_in(node);
    }
    None
}

/// Takes all nodes of a key out of the queues in which they stand. None stands there past the number `most` of a case.
pub fn leave_all(queues: &mut Queues, key: u32, most: u32)
    requires inside { key * 17 + 17 ≤ queues.old.members }
    requires few { queues.old.members < 2 ^ 32 }
    requires most { most ≤ 16 }
    requires reached { (q : ℕ) → IsReached (waiting_in queues.old.queues q) key most }
    ensures queues { queues.new.queues ≡ map (λ waiting. without_key waiting key) queues.old.queues }
    ensures members { queues.new.members ≡ queues.old.members }
{
    let first = key * NODES;
    for case_no in 0..most + 1 {
        queues.withdraw(first + case_no);
    }
}

/// Takes all nodes of a key out of one queue. Each that stands in a queue has its number at its place, and none of the key
/// stands there past the number `most` of a case.
pub fn leave_one(queues: &mut Queues, places: &Table, key: u32, most: u32, queue: u32)
    requires inside { key * 17 + 17 ≤ queues.old.members }
    requires few { queues.old.members < 2 ^ 32 }
    requires most { most ≤ 16 }
    requires reached { IsReached (waiting_in queues.old.queues queue) key most }
    requires queue { queue < length queues.old.queues }
    requires placed { (q node : ℕ)
        → Contains (waiting_in queues.old.queues q) node
        → slice_index_or places.now node None ≡ Some q }
    ensures queues { queues.new.queues ≡ slice_set
        queues.old.queues
        queue
        (without_key (waiting_in queues.old.queues queue) key) }
    ensures members { queues.new.members ≡ queues.old.members }
{
    let first = key * NODES;
    for case_no in 0..most + 1 {
        leave_here(queues, places, first + case_no, queue);
    }
}

// Takes a node out of one queue, if it stands there.
fn leave_here(queues: &mut Queues, places: &Table, node: u32, queue: u32)
    requires inside { node < queues.old.members }
    requires placed { (q : ℕ)
        → Contains (waiting_in queues.old.queues q) node
        → slice_index_or places.now node None ≡ Some q }
    ensures queues { queues.new.queues ≡ slice_set
        queues.old.queues
        queue
        (without (waiting_in queues.old.queues queue) node) }
    ensures members { queues.new.members ≡ queues.old.members }
{
    if places.at(node) == Some(queue) && queues.contains(node) {
        queues.remove(queue, node);
    }
}
