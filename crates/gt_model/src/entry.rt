//! The entries of a history, and what a history is judged to be.

use crate::context::{CauseVal, ErrVal};

/// A goroutine at its plain instruction (case 0), or at a case of its select, from 1.
#[derive(Clone, Copy, Debug, PartialEq, Eq)]
pub struct Party {
    pub g: u32,
    pub case_no: u32,
}

/// What happened: one call of a goroutine with its answer, or one move of a clock. Goroutines are numbered from 1 in the
/// order in which they are made; times are in nanoseconds.
#[derive(Clone, Copy)]
pub enum Entry {
    /// A goroutine said a number.
    Say {
        g: u32,
        n: u32,
    },
    /// A goroutine looked at its clock.
    Now {
        g: u32,
        at: u64,
    },
    /// A goroutine started another one at a function.
    Go {
        g: u32,
        child: u32,
        f: u32,
    },
    /// The function of a goroutine ended.
    End {
        g: u32,
    },
    /// A goroutine fell asleep until a time, or slept for 0 and went on at once.
    Sleep {
        g: u32,
        until: Option<u64>,
    },
    /// The sleep of a goroutine ended.
    Wake {
        g: u32,
    },
    /// A goroutine made a timer that is due at a time.
    New {
        g: u32,
        t: u32,
        due: u64,
    },
    /// A goroutine stopped a timer; whether it was set, none of a ticker.
    Stop {
        g: u32,
        t: u32,
        was: Option<bool>,
    },
    /// A goroutine set a timer anew; whether it was set, none of a ticker, and when it is due now.
    Reset {
        g: u32,
        t: u32,
        was: Option<bool>,
        due: u64,
    },
    /// A goroutine received the tick of a timer that was due at a time; when the timer is due next, if ever.
    TRecv {
        p: Party,
        t: u32,
        due: u64,
        next: Option<u64>,
    },
    /// An AfterFunc timer started its function in a goroutine of its own.
    FireFunc {
        t: u32,
        child: u32,
    },
    /// A goroutine made a channel.
    Make {
        g: u32,
        c: u32,
    },
    /// A goroutine sent a value to a channel with room, which keeps it.
    Send {
        p: Party,
        c: u32,
        v: u32,
    },
    /// A goroutine received the first value that a channel kept; none where the channel is closed and keeps none.
    Recv {
        p: Party,
        c: u32,
        v: Option<u32>,
    },
    /// A goroutine sent a value to another one, which received it, over a channel that keeps none.
    Pair {
        from: Party,
        to: Party,
        c: u32,
        v: u32,
    },
    /// A goroutine closed a channel.
    Close {
        g: u32,
        c: u32,
    },
    /// A goroutine found no case of its choice that could go on, and went on at its default.
    Default {
        g: u32,
    },
    /// A goroutine locked a mutex.
    Lock {
        g: u32,
        m: u32,
    },
    /// A goroutine unlocked a mutex.
    Unlock {
        g: u32,
        m: u32,
    },
    /// A goroutine unlocked the mutex of a Cond and waits until it is signalled.
    CondWait {
        g: u32,
        k: u32,
    },
    /// A goroutine that was signalled at a Cond locked its mutex again.
    CondWake {
        g: u32,
        k: u32,
    },
    /// A goroutine signalled another one that waited at a Cond; none where nobody did.
    Signal {
        g: u32,
        k: u32,
        woken: Option<u32>,
    },
    /// A goroutine signalled all that waited at a Cond, so many.
    Broadcast {
        g: u32,
        k: u32,
        count: u32,
    },
    /// A goroutine added a number to the counter of a WaitGroup.
    Add {
        g: u32,
        w: u32,
        n: i64,
    },
    /// A goroutine found the counter of a WaitGroup at 0, or waited until it was.
    WgWait {
        g: u32,
        w: u32,
    },
    /// A goroutine made a context; whether it has ended at once.
    CtxMake {
        g: u32,
        x: u32,
        ended: bool,
    },
    /// A goroutine canceled a context; whether it had not ended before, and how many functions were started by its end.
    Cancel {
        g: u32,
        x: u32,
        newly: bool,
        starts: u32,
    },
    /// A context came to its deadline; how many functions were started by its end.
    Expire {
        x: u32,
        starts: u32,
    },
    /// A goroutine looked at the error of a context; none before its end.
    CtxErr {
        g: u32,
        x: u32,
        err: Option<ErrVal>,
    },
    /// A goroutine looked at the cause of a context's end; none before it.
    Cause {
        g: u32,
        x: u32,
        cause: Option<CauseVal>,
    },
    /// A goroutine found a context ended, or waited until it was.
    CtxDone {
        p: Party,
        x: u32,
    },
    /// A goroutine registered a function that starts when its context ends; who was started at once, where the context has ended.
    CtxAfter {
        g: u32,
        s: u32,
        child: Option<u32>,
    },
    /// A goroutine took such a function back; whether that kept it from being started.
    CtxStop {
        g: u32,
        s: u32,
        stopped: bool,
    },
    /// The clock of a world moved to a time. The program is world 0.
    Clock {
        world: u32,
        at: u64,
    },
    /// A goroutine misused an object, and the run ends.
    Panic {
        p: Party,
        reason: Reason,
    },
    /// The run ended.
    Finish {
        outcome: Outcome,
    },
}

/// How a run ends.
#[derive(Clone, Copy, Debug, PartialEq, Eq)]
pub enum Outcome {
    /// The function of the first goroutine, `main`, ended.
    Exit,
    /// Nothing can happen any more.
    Deadlock,
    /// A goroutine misused an object.
    Panic,
    /// As many entries as the limit were made.
    Limit,
}

/// Why a goroutine panics.
#[derive(Clone, Copy, Debug, PartialEq, Eq)]
pub enum Reason {
    /// The object was not made yet.
    Unmade,
    /// The object was made before.
    Twice,
    /// The channel was closed before.
    Closed,
    /// A ticker was set with a period of 0.
    Ticker,
    /// The counter of the WaitGroup would be below 0.
    Negative,
    /// The mutex was not locked.
    Unlocked,
}

/// The most entries that a run may have, its end not counted.
pub const MOST_ENTRIES: u64 = 200_000;

/// The bounds of a run.
#[derive(Clone, Copy, Debug, PartialEq, Eq)]
pub struct Limits {
    /// How many entries a run may have, its end not counted: 1 to [`MOST_ENTRIES`].
    pub entries: u64,
}

/// What a list of entries is judged to be.
#[derive(Clone, Copy, Debug, PartialEq, Eq)]
pub enum Verdict {
    /// A complete history.
    Legal,
    /// The number of the first entry that is not legal, from 1.
    Illegal { entry: u64 },
    /// Each entry is legal, and the run has not ended.
    Unfinished,
}
