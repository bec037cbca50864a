//! Channels at steps that were worked out by hand.
ghost use Rattle.std.specs.Prelude.{IfOk};
ghost use Rattle.gt_leaf_tests.specs.Ready.{IsReady};

use gt_chan::{Chan, CloseStep, RecvStep, SendStep};
use gt_model::Party;
use gt_select::Waiters;
use std::alloc::{AllocError, Global};
use std::process::Abort;
use std::test::Fail;

const FIRST: Party = Party { g: 1, case_no: 0 };

const RECEIVE_CASE: Party = Party { g: 2, case_no: 1 };

const SEND_CASE: Party = Party { g: 2, case_no: 2 };

// An open channel of world 3, at which nobody waits. Its senders wait in list 0.
fn opened(alloc: Global, capacity: u32) -> Result<(Waiters, Chan), AllocError>
    ensures { IfOk result (λ made. IsReady made.0 made.1) }
{
    let waiters = Waiters::with_room(alloc, 2, 2)?;
    let mut chan = Chan::with_room(alloc, capacity, 0)?;
    chan.make(3);
    Ok((waiters, chan))
}

// A send by the first goroutine, which never waits. The tests know of it only that the next step may come: so the proof of
// each step is as short as that of the first.
fn send(waiters: &mut Waiters, chan: &mut Chan, v: u32) -> SendStep
    requires { IsReady waiters.old chan.old }
    ensures { IsReady waiters.new chan.new }
{
    chan.try_send(waiters, FIRST, v)
}

// A receive by the first goroutine.
fn receive(waiters: &mut Waiters, chan: &mut Chan) -> RecvStep
    requires { IsReady waiters.old chan.old }
    ensures { IsReady waiters.new chan.new }
{
    chan.try_recv(waiters, FIRST)
}

#[test]
fn items_come_in_order(rt: HostRuntime) -> Result<(), Fail> {
    let (mut waiters, mut chan) = opened(rt.alloc(), 2)?;
    assert_eq!(rt; chan.world(), Some(3));
    assert_eq!(rt; send(&mut waiters, &mut chan, 7), SendStep::Done);
    assert_eq!(rt; send(&mut waiters, &mut chan, 8), SendStep::Done);
    assert_eq!(rt; send(&mut waiters, &mut chan, 9), SendStep::Park);
    assert_eq!(rt; receive(&mut waiters, &mut chan), RecvStep::Got(7));
    assert_eq!(rt; receive(&mut waiters, &mut chan), RecvStep::Got(8));
    assert_eq!(rt; receive(&mut waiters, &mut chan), RecvStep::Park);
    Ok(())
}

#[test]
fn closed_channel_hands_out_its_items(rt: HostRuntime) -> Result<(), Fail> {
    let (mut waiters, mut chan) = opened(rt.alloc(), 2)?;
    assert_eq!(rt; send(&mut waiters, &mut chan, 7), SendStep::Done);
    assert_eq!(rt; send(&mut waiters, &mut chan, 8), SendStep::Done);
    assert_eq!(rt; chan.close(), CloseStep::Woken);
    assert_eq!(rt; chan.close(), CloseStep::Closed);
    chan.lawful();
    assert_eq!(rt; send(&mut waiters, &mut chan, 9), SendStep::Closed);
    assert_eq!(rt; receive(&mut waiters, &mut chan), RecvStep::Got(7));
    assert_eq!(rt; receive(&mut waiters, &mut chan), RecvStep::Got(8));
    assert_eq!(rt; receive(&mut waiters, &mut chan), RecvStep::Zero);
    Ok(())
}

#[test]
fn items_are_put_and_taken(rt: HostRuntime) -> Result<(), Fail> {
    let mut chan = Chan::with_room(rt.alloc(), 2, 0)?;
    chan.make(3);
    assert_eq!(rt; chan.first(), None);
    chan.put(7);
    assert!(rt; chan.has_room());
    chan.put(8);
    assert!(rt; !chan.has_room());
    assert_eq!(rt; chan.len(), 2);
    assert_eq!(rt; chan.first(), Some(7));
    assert_eq!(rt; chan.take(), Some(7));
    assert_eq!(rt; chan.first(), Some(8));
    assert_eq!(rt; chan.len(), 1);
    Ok(())
}

#[test]
fn last_item_is_taken_after_the_close(rt: HostRuntime) -> Result<(), Fail> {
    let mut chan = Chan::with_room(rt.alloc(), 1, 0)?;
    chan.make(3);
    chan.put(7);
    assert!(rt; !chan.is_closed());
    chan.close();
    assert!(rt; chan.is_closed());
    assert_eq!(rt; chan.take(), Some(7));
    assert_eq!(rt; chan.take(), None);
    assert_eq!(rt; chan.len(), 0);
    Ok(())
}

// A channel of capacity 0, at which goroutine 2 waits as a receiver and as a sender, as in a select.
fn waiting(rt: &impl Abort, alloc: Global) -> Result<(Waiters, Chan), AllocError>
    ensures { IfOk result (λ made. IsReady made.0 made.1) }
{
    let mut waiters = Waiters::with_room(alloc, 2, 2)?;
    let mut chan = Chan::with_room(alloc, 0, 0)?;
    chan.make(0);
    waiters.enrol(2);
    assert_eq!(rt; chan.try_recv(&mut waiters, RECEIVE_CASE), RecvStep::Park);
    assert_eq!(rt; chan.try_send(&mut waiters, SEND_CASE, 6), SendStep::Park);
    Ok((waiters, chan))
}

#[test]
fn sender_meets_a_receiver(rt: HostRuntime) -> Result<(), Fail> {
    let (mut waiters, mut chan) = waiting(&rt, rt.alloc())?;
    assert_eq!(rt; chan.next_waiter(&waiters), Some(RECEIVE_CASE));
    assert_eq!(rt;
        send(&mut waiters, &mut chan, 7),
        SendStep::With(RECEIVE_CASE)
    );
    assert_eq!(rt; chan.next_waiter(&waiters), Some(SEND_CASE));
    chan.forget(&mut waiters, 2);
    assert_eq!(rt; chan.next_waiter(&waiters), None);
    Ok(())
}
