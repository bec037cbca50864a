//! What a book answers, and the operations that are committed to it.

use gt_model::{Outcome, Party};
use gt_schedule::Ticket;

/// Which goroutine is to run next.
#[derive(Clone, Copy)]
pub enum Pick {
    /// This one, which is in the caller's hand from now on.
    Run(u32),
    /// There is none to take.
    Nothing {
        /// How many goroutines are in workers' hands.
        running: u64,
    },
}

/// What a step of a goroutine did.
#[derive(Clone, Copy)]
pub enum Did {
    /// Its instruction was entered, and the run goes on.
    Entered,
    /// It waits until another goroutine lets it go on.
    Parked,
    /// Nothing yet: its instruction needs a timer's record. Only `Enrolled` says that it waits already.
    Timer(TimerOp),
    /// The run has this outcome.
    Over(Outcome),
}

/// What an instruction wants of a timer's record. Timers and contexts go by the places of their declarations, from 0.
#[derive(Clone, Copy)]
pub enum TimerOp {
    /// To set timer `t`, due after `d` nanoseconds: anew, or for the first time, which makes it.
    Set { t: u32, d: u64, anew: bool },
    /// To stop this timer.
    Stop(u32),
    /// To receive from this timer, whose time has come, as a case of a choice with a default.
    Poll(u32),
    /// To be counted, under this ticket, among those that wait at its timers.
    Enrolled(Ticket),
    /// To sleep for so many nanoseconds.
    Sleep(u64),
    /// To make context `x`, whose own deadline `due`, in nanoseconds, is to come.
    Deadline { x: u32, due: u64 },
}

/// An operation on a timer's record, with its answer. Goroutines go by their numbers, from 1, timers and contexts by the places of their declarations, from 0;
/// times are in nanoseconds, and a period of 0 is that of a timer that is no ticker.
#[derive(Clone, Copy)]
pub enum Op {
    /// Goroutine `g` sets timer `t`, which is due at `due` from now on: anew, where the answer says whether it was set (none of a ticker), or for the first
    /// time, which makes it.
    Set {
        g: u32,
        t: u32,
        anew: bool,
        was: Option<bool>,
        due: u64,
        period: u64,
    },
    /// Goroutine `g` stops timer `t`; the answer says whether it was set, none of a ticker.
    Stop {
        g: u32,
        t: u32,
        was: Option<bool>,
    },
    /// A goroutine that waits there receives the tick of timer `t` that was due at `due`; the timer is due next at `next`, if ever.
    TRecv {
        p: Party,
        t: u32,
        due: u64,
        next: Option<u64>,
    },
    /// AfterFunc timer `t` starts its function in a goroutine of its own.
    Fire {
        t: u32,
    },
    /// Goroutine `g` falls asleep until a time.
    Sleep {
        g: u32,
        until: u64,
    },
    /// The sleep of goroutine `g` is over.
    Wake {
        g: u32,
    },
    /// Goroutine `g` makes context `x`.
    Derive {
        g: u32,
        x: u32,
    },
    /// Context `x` comes to its own deadline.
    Expire {
        x: u32,
    },
}

/// What a commitment came to.
#[derive(Clone, Copy)]
pub enum Commit {
    /// It was entered, and the run goes on.
    Entered,
    /// It came too late: the run has its outcome, the goroutine waits there no more, or the context has ended. Nothing changed.
    Gone,
    /// The run has this outcome.
    Over(Outcome),
}
