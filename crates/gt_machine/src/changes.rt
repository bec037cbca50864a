//! What becomes of one goroutine, of one timer, of one channel, and of one mutex or WaitGroup.

ghost use Rattle.std.specs.Prelude.{◌≡◌, ◌<◌, ◌≤◌, ◌-◌, ◌^◌, Some, nat_abs};
ghost use Rattle.gt_model.specs.Good.{IsGood};
ghost use Rattle.gt_rules.specs.After as after;
ghost use Rattle.gt_machine.specs.Machine.{retimed_in, channel_of, MayTrade, IsSteppable};

use crate::lookups::mutex_of;
use crate::places::{first_place, place_after};
use gt_chan::Chan;
use gt_model::{Goroutine, Mode, Script, SyncState, Timer};
use gt_rules::{Move, Setting, SyncStep, Trade};

/// What there is of a mutex or a WaitGroup that nobody has used.
pub const UNUSED: SyncState = SyncState {
    locked: false,
    counter: 0,
    world: None,
};

/// A goroutine of a world at the beginning of a function.
pub fn begun(script: &Script, world: u32, f: u32) -> Goroutine
    requires { IsGood script.now }
    ensures { result ≡ after.begun script.now world f }
{
    Goroutine {
        world,
        place: first_place(script, f),
        mode: Mode::At,
    }
}

/// What becomes of a goroutine. It is changed where it stands, since each entry moves one.
pub fn move_goroutine(script: &Script, r: &mut Goroutine, how: Move)
    requires good { IsGood script.now }
    requires inside { r.old.place.at < 2 ^ 32 - 1 }
    ensures { r.new ≡ after.moved script.now how r.old }
{
    match how {
        Move::GoesOn { case_no } => {
            r.place = place_after(script, r.place, case_no);
            r.mode = Mode::At;
        }
        Move::FallsAsleep { until } => r.mode = Mode::Sleeping { until },
        Move::Suspends { cond } => r.mode = Mode::Suspended { cond },
        Move::Relocks { cond } => r.mode = Mode::Relocking { cond },
        Move::Ends => r.mode = Mode::Ended,
        Move::Panics => {}
    }
}

/// A timer with another due time, if it was made.
fn with_due(timer: Option<Timer>, due: Option<u64>) -> Option<Timer>
    ensures { result ≡ after.set_due due timer }
{
    timer.map(|timer| Timer { due, ..timer })
}

/// A timer that is set anew, if it was made.
fn set_anew(timer: Option<Timer>, due: u64, period: u64) -> Option<Timer>
    ensures { result ≡ after.set_again due period timer }
{
    timer.map(|timer| Timer {
        due: Some(due),
        period,
        ..timer
    })
}

/// What becomes of a timer, by somebody of a world whose setting has this time between its ticks.
pub fn retimed(world: u32, period: u64, was: Option<Timer>, setting: Setting) -> Option<Timer>
    ensures { result ≡ retimed_in world period setting was }
{
    match setting {
        Setting::Made { due } => Some(Timer {
            world,
            due: Some(due),
            period,
        }),
        Setting::SetAnew { due } => set_anew(was, due, period),
        Setting::Ended { next } => with_due(was, next),
    }
}

/// What becomes of a channel, by somebody of a world. It is changed where it stands, with its items.
pub fn trade_channel(world: u32, ch: &mut Chan, how: Trade)
    requires { MayTrade how ch.old }
    ensures state { channel_of ch.new ≡ after.traded world how (channel_of ch.old) }
    ensures capacity { ch.new.capacity ≡ ch.old.capacity }
{
    match how {
        Trade::Opened => ch.make(world),
        Trade::Puts { v } => ch.put(v),
        Trade::Takes => {
            let _first = ch.take();
        }
        Trade::Shut => {
            let _step = ch.close();
        }
    }
}

/// A counter to which a number is added, where that does not bring it below 0.
fn added(counter: u64, n: i64) -> u64
    requires few { counter ≤ 200000000000 }
    requires addable { nat_abs n ≤ 1000000 }
    ensures { result ≡ after.added counter n }
{
    if n < 0 {
        counter.saturating_sub(n.unsigned_abs())
    } else {
        counter + n.unsigned_abs()
    }
}

/// A WaitGroup or a Cond that belongs to the world of its first call.
pub fn owned(world: u32, was: SyncState) -> SyncState
    ensures { result ≡ after.owned world was }
{
    SyncState {
        world: Some(was.world.unwrap_or(world)),
        ..was
    }
}

/// A mutex that is locked, or unlocked.
pub fn with_lock(locked: bool, was: SyncState) -> SyncState
    ensures { result ≡ after.with_lock locked was }
{
    SyncState { locked, ..was }
}

/// A WaitGroup to whose counter a number is added.
pub fn counted_on(n: i64, was: SyncState) -> SyncState
    requires few { was.counter ≤ 200000000000 }
    requires addable { nat_abs n ≤ 1000000 }
    ensures { result ≡ after.counted_on n was }
{
    SyncState {
        counter: added(was.counter, n),
        ..was
    }
}

/// What becomes of the mutexes, the WaitGroups and the Conds, by somebody of a world.
pub fn step_syncs(script: &Script, world: u32, syncs: &mut Vec<SyncState>, o: u32, how: SyncStep)
    requires { IsSteppable script.now syncs.old.items o how }
    ensures { syncs.new.items ≡ after.stepped script.now world syncs.old.items o how }
{
    let own = o as usize;
    let mutex = mutex_of(script, o) as usize;
    match how {
        SyncStep::Locks => syncs[own] = with_lock(true, syncs[own]),
        SyncStep::Unlocks => syncs[own] = with_lock(false, syncs[own]),
        SyncStep::Adds { n } => syncs[own] = owned(world, counted_on(n, syncs[own])),
        SyncStep::Releases => {
            syncs[mutex] = with_lock(false, syncs[mutex]);
            syncs[own] = owned(world, syncs[own]);
        }
        SyncStep::Retakes => syncs[mutex] = with_lock(true, syncs[mutex]),
    }
}
