//! What an entry changes: the tellers of one table.

ghost use Rattle.std.specs.Prelude.{◌≡◌};
ghost use Rattle.gt_rules.specs.Change as table;

use gt_model::{Ending, Entry, Party};

/// What becomes of the goroutine that makes an entry.
#[derive(Clone, Copy)]
pub enum Move {
    /// It goes on after this case of its instruction, from 1; 0 stands for a plain instruction.
    GoesOn { case_no: u32 },
    /// It sleeps until a time, in nanoseconds.
    FallsAsleep { until: u64 },
    /// It waits at a Cond until it is signalled.
    Suspends { cond: u32 },
    /// It was signalled at a Cond, and waits for the mutex.
    Relocks { cond: u32 },
    /// Its function has ended.
    Ends,
    /// It stays where it is: it misuses an object, and the run ends.
    Panics,
}

/// What becomes of a timer.
#[derive(Clone, Copy)]
pub enum Setting {
    /// It is made, due at a time, in nanoseconds.
    Made { due: u64 },
    /// It is set anew, due at a time, in nanoseconds.
    SetAnew { due: u64 },
    /// Its setting ends; it may have another due time then, in nanoseconds.
    Ended { next: Option<u64> },
}

/// What becomes of a channel.
#[derive(Clone, Copy)]
pub enum Trade {
    /// It is made, open and empty.
    Opened,
    /// It keeps a value more, behind the others.
    Puts { v: u32 },
    /// Its first value leaves it.
    Takes,
    /// It is closed.
    Shut,
}

/// What becomes of a mutex or of a WaitGroup; where it is a Cond that is named, of its mutex and of the Cond itself.
#[derive(Clone, Copy)]
pub enum SyncStep {
    /// The mutex is locked.
    Locks,
    /// The mutex is unlocked.
    Unlocks,
    /// `n` is added to the counter of the WaitGroup.
    Adds { n: i64 },
    /// Who waits at the Cond unlocks its mutex.
    Releases,
    /// Who was signalled at the Cond locks its mutex.
    Retakes,
}

/// What becomes of a context or of a hook.
#[derive(Clone, Copy)]
pub enum TreeStep {
    /// The context is made.
    Derived,
    /// The context is canceled, and those below it.
    Canceled,
    /// The context has come to its deadline, and ends with those below it.
    Expired,
    /// The hook is registered.
    Registered,
    /// The hook is taken back.
    Unhooked,
}

/// Who starts a goroutine.
#[derive(Clone, Copy)]
pub enum Start {
    /// Goroutine `g`, which names the function at place `f`.
    ByGoroutine { g: u32, f: u32 },
    /// The AfterFunc timer of this declaration, which names the function.
    ByTimer { t: u32 },
    /// The hook of this declaration, which names the function: it is registered on a context that has ended.
    ByHook { h: u32 },
    /// The end of the context of this declaration: the function of the hook that it starts as the `at`th one, from 0.
    ByEnd { x: u32, at: u32 },
}

/// Who starts goroutines, by one entry.
#[derive(Clone, Copy)]
pub enum Starts {
    /// One starts one, or nobody does.
    One(Option<Start>),
    /// The end of the context of this declaration starts so many.
    ByEnd { x: u32, count: u32 },
}

/// A party goes on.
fn goes_on(p: Party) -> (u32, Move)
    ensures { result ≡ table.goes_on p }
{
    (p.g, Move::GoesOn { case_no: p.case_no })
}

/// The goroutine that makes an entry, and what becomes of it; of two the sender.
pub fn mover_of(entry: &Entry) -> Option<(u32, Move)>
    ensures { result ≡ (table.change_of entry.now).mover }
{
    let case_no = 0;
    match *entry {
        Entry::Say { g, .. }
        | Entry::Now { g, .. }
        | Entry::Go { g, .. }
        | Entry::Wake { g }
        | Entry::New { g, .. }
        | Entry::Stop { g, .. }
        | Entry::Reset { g, .. }
        | Entry::Make { g, .. }
        | Entry::Close { g, .. }
        | Entry::Default { g }
        | Entry::Lock { g, .. }
        | Entry::Unlock { g, .. }
        | Entry::Add { g, .. }
        | Entry::WgWait { g, .. }
        | Entry::CondWake { g, .. }
        | Entry::Signal { g, .. }
        | Entry::Broadcast { g, .. }
        | Entry::CtxMake { g, .. }
        | Entry::Cancel { g, .. }
        | Entry::CtxErr { g, .. }
        | Entry::Cause { g, .. }
        | Entry::CtxAfter { g, .. }
        | Entry::CtxStop { g, .. }
        | Entry::Sleep { g, until: None } => Some((g, Move::GoesOn { case_no })),
        Entry::TRecv { p, .. }
        | Entry::Send { p, .. }
        | Entry::Recv { p, .. }
        | Entry::CtxDone { p, .. } => Some(goes_on(p)),
        Entry::Pair { from, .. } => Some(goes_on(from)),
        Entry::Sleep {
            g,
            until: Some(until),
        } => Some((g, Move::FallsAsleep { until })),
        Entry::CondWait { g, k } => Some((g, Move::Suspends { cond: k })),
        Entry::End { g } => Some((g, Move::Ends)),
        Entry::Panic { p, .. } => Some((p.g, Move::Panics)),
        Entry::FireFunc { .. }
        | Entry::Expire { .. }
        | Entry::Clock { .. }
        | Entry::Finish { .. } => None,
    }
}

/// Another goroutine of which something becomes: the receiver of a value that passes from one to another, or who is signalled.
pub fn partner_of(entry: &Entry) -> Option<(u32, Move)>
    ensures { result ≡ (table.change_of entry.now).partner }
{
    match *entry {
        Entry::Pair { to, .. } => Some(goes_on(to)),
        Entry::Signal {
            k,
            woken: Some(g),
            ..
        } => Some((g, Move::Relocks { cond: k })),
        _ => None,
    }
}

/// The timer that an entry changes, and what becomes of it.
pub fn timer_of(entry: &Entry) -> Option<(u32, Setting)>
    ensures { result ≡ (table.change_of entry.now).timer }
{
    match *entry {
        Entry::New { t, due, .. } => Some((t, Setting::Made { due })),
        Entry::Reset { t, due, .. } => Some((t, Setting::SetAnew { due })),
        Entry::Stop { t, .. } | Entry::FireFunc { t, .. } => {
            Some((t, Setting::Ended { next: None }))
        }
        Entry::TRecv { t, next, .. } => Some((t, Setting::Ended { next })),
        _ => None,
    }
}

/// The channel that an entry changes, and what becomes of it.
pub fn channel_of(entry: &Entry) -> Option<(u32, Trade)>
    ensures { result ≡ (table.change_of entry.now).channel }
{
    match *entry {
        Entry::Make { c, .. } => Some((c, Trade::Opened)),
        Entry::Send { c, v, .. } => Some((c, Trade::Puts { v })),
        Entry::Recv { c, v: Some(_), .. } => Some((c, Trade::Takes)),
        Entry::Close { c, .. } => Some((c, Trade::Shut)),
        _ => None,
    }
}

/// The mutex or the WaitGroup that an entry changes, and what becomes of it.
pub fn sync_of(entry: &Entry) -> Option<(u32, SyncStep)>
    ensures { result ≡ (table.change_of entry.now).sync }
{
    match *entry {
        Entry::Lock { m, .. } => Some((m, SyncStep::Locks)),
        Entry::Unlock { m, .. } => Some((m, SyncStep::Unlocks)),
        Entry::Add { w, n, .. } => Some((w, SyncStep::Adds { n })),
        Entry::CondWait { k, .. } => Some((k, SyncStep::Releases)),
        Entry::CondWake { k, .. } => Some((k, SyncStep::Retakes)),
        _ => None,
    }
}

/// The Cond at which an entry signals all that wait there.
pub fn broadcast_of(entry: &Entry) -> Option<u32>
    ensures { result ≡ (table.change_of entry.now).broadcast }
{
    match *entry {
        Entry::Broadcast { k, .. } => Some(k),
        _ => None,
    }
}

/// The context or the hook that an entry changes, and what becomes of it.
pub fn tree_of(entry: &Entry) -> Option<(u32, TreeStep)>
    ensures { result ≡ (table.change_of entry.now).tree }
{
    match *entry {
        Entry::CtxMake { x, .. } => Some((x, TreeStep::Derived)),
        Entry::Cancel { x, newly: true, .. } => Some((x, TreeStep::Canceled)),
        Entry::Expire { x, .. } => Some((x, TreeStep::Expired)),
        Entry::CtxAfter { s, .. } => Some((s, TreeStep::Registered)),
        Entry::CtxStop { s, .. } => Some((s, TreeStep::Unhooked)),
        _ => None,
    }
}

/// Who starts goroutines by an entry.
pub fn starts_of(entry: &Entry) -> Starts
    ensures { (table.change_of entry.now).starts ≡ table.all_started result }
{
    match *entry {
        Entry::Go { g, f, .. } => Starts::One(Some(Start::ByGoroutine { g, f })),
        Entry::FireFunc { t, .. } => Starts::One(Some(Start::ByTimer { t })),
        Entry::CtxAfter {
            s,
            child: Some(_),
            ..
        } => Starts::One(Some(Start::ByHook { h: s })),
        Entry::Cancel { x, starts, .. } | Entry::Expire { x, starts } => Starts::ByEnd {
            x,
            count: starts,
        },
        _ => Starts::One(None),
    }
}

/// The world whose clock an entry moves, and the time of that clock, in nanoseconds.
pub fn clock_of(entry: &Entry) -> Option<(u32, u64)>
    ensures { result ≡ (table.change_of entry.now).clock }
{
    match *entry {
        Entry::Clock { world, at } => Some((world, at)),
        _ => None,
    }
}

/// How far the run is after an entry, where the entry says it.
pub fn ending_of(entry: &Entry) -> Option<Ending>
    ensures { result ≡ (table.change_of entry.now).ending }
{
    match *entry {
        Entry::End { g: 1 } => Some(Ending::MainEnded),
        Entry::Panic { .. } => Some(Ending::Panicked),
        Entry::Finish { outcome } => Some(Ending::Finished(outcome)),
        _ => None,
    }
}
