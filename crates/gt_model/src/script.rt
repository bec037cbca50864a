//! A script: its declarations, and the code of its functions.

use crate::context::Form;
use crate::lists::{Cases, Code, Decls, Funcs, Text};

/// A script as the reader makes it. Declarations and functions are in the order of their lines, counted from 0.
#[derive(Drop)]
pub struct Script {
    /// Every declared name; functions are among them.
    pub decls: Decls,
    pub funcs: Funcs,
    /// The place of `main` in `funcs`.
    pub main: u32,
}

/// A declared name.
#[derive(Drop)]
pub struct Decl {
    /// 1 to 32 bytes: a letter, then letters, digits and `_`.
    pub name: Text,
    pub what: What,
}

/// What a name is declared as.
#[derive(Clone, Copy)]
pub enum What {
    /// A one-shot channel timer.
    Timer,
    /// A ticker: a channel timer that is due again one period after the other.
    Ticker,
    /// An AfterFunc timer, which starts the function at this place in the script's `funcs`.
    AfterFunc { func: u32 },
    /// A channel that keeps so many values at most: 0 to 1,024.
    Chan { cap: u32 },
    Mutex,
    /// A WaitGroup: a counter, and goroutines that wait until it is 0.
    Wg,
    /// A condition variable, with the mutex at this place among the declarations.
    Cond { mutex: u32 },
    /// A context, derived from the one at this place among the declarations, or from the root, which nobody makes.
    Ctx { parent: Option<u32>, form: Form },
    /// A function that starts when a context ends: the place of the context among the declarations, and that of the function in the script's `funcs`.
    Hook { ctx: u32, func: u32 },
    /// An error, which may be the cause of a context's end.
    Error,
    Function,
}

/// A function.
#[derive(Drop)]
pub struct Func {
    /// The place of its declaration in the script's `decls`.
    pub decl: u32,
    /// Its instructions, with `Finish` at the end.
    pub code: Code,
}

/// An instruction of a goroutine.
#[derive(Drop)]
pub enum Instr {
    /// Say a number.
    Say {
        n: u32,
    },
    /// Look at the clock.
    Now,
    /// Sleep for `d` nanoseconds.
    Sleep {
        d: u64,
    },
    /// Start a goroutine at the function at this place.
    Go {
        f: u32,
    },
    /// Make a timer that is due after `d` nanoseconds.
    New {
        t: u32,
        d: u64,
    },
    /// Stop a timer.
    Stop {
        t: u32,
    },
    /// Set a timer anew, due after `d` nanoseconds.
    Reset {
        t: u32,
        d: u64,
    },
    /// Receive from a timer or a channel, or wait for the end of a context.
    Recv {
        o: u32,
    },
    /// Make a channel.
    Make {
        c: u32,
    },
    /// Send a value to a channel.
    Send {
        c: u32,
        v: u32,
    },
    /// Close a channel.
    Close {
        c: u32,
    },
    /// Lock a mutex.
    Lock {
        m: u32,
    },
    /// Unlock a mutex.
    Unlock {
        m: u32,
    },
    /// Unlock the mutex of a Cond, wait until it is signalled, and lock the mutex again.
    CWait {
        k: u32,
    },
    /// Signal one goroutine that waits at a Cond, if one does.
    Signal {
        k: u32,
    },
    /// Signal all goroutines that wait at a Cond.
    Broadcast {
        k: u32,
    },
    /// Add `n` to the counter of a WaitGroup: -1,000,000 to 1,000,000.
    Add {
        w: u32,
        n: i64,
    },
    /// Wait until the counter of a WaitGroup is 0.
    Wait {
        w: u32,
    },
    /// Make a context.
    With {
        x: u32,
    },
    /// Cancel a context, with the error at this place as the cause where one is named.
    Cancel {
        x: u32,
        cause: Option<u32>,
    },
    /// Look at the error of a context.
    ErrOf {
        x: u32,
    },
    /// Look at the cause of a context's end.
    CauseOf {
        x: u32,
    },
    /// Register a function that starts when its context ends.
    After {
        s: u32,
    },
    /// Keep such a function from being started.
    Unhook {
        s: u32,
    },
    /// Choose one of 1 to 16 cases that can go on; where none can, go on at the index `default_to`, if there is one. The numbers of the cases count from 1.
    Select {
        cases: Cases,
        default_to: Option<u32>,
    },
    /// The top of a loop, around which are `depth` other loops of the function: with a count of 0 the loop is passed over, to the index `past`, behind its
    /// end; else its body is passed `count` times. It makes no entry.
    LoopTop {
        depth: u8,
        count: u32,
        past: u32,
    },
    /// The end of the loop whose top has the index `top`. It makes no entry.
    LoopEnd {
        depth: u8,
        top: u32,
    },
    /// The end of the body of a case: goes on at the index `to`, behind the choice. It makes no entry.
    Jump {
        to: u32,
    },
    /// The end of the function.
    Finish,
}

/// A case of a choice.
#[derive(Clone, Copy)]
pub struct Case {
    pub kind: CaseKind,
    /// The index at which its body begins.
    pub to: u32,
}

/// What a goroutine wants of an object, alone or as a case of its choice. The first number is the place of the object's declaration.
#[derive(Clone, Copy)]
pub enum CaseKind {
    /// To receive from it. To lock a mutex and to wait for a WaitGroup count as receives: they take what the object gives when it is free, or at 0.
    Recv(u32),
    /// To send this value to it.
    Send(u32, u32),
}

/// Where a goroutine stands.
#[derive(Clone, Copy)]
pub struct Place {
    /// The place of the function in the script's `funcs`.
    pub func: u32,
    /// The index in that function's code.
    pub at: u32,
    /// How many passes are left of the loops round it, the present one among them: by depth, the outermost first.
    pub loops: [u32; 4],
}
