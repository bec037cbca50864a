// The line of an entry.
ghost use Rattle.std.specs.Prelude.{◌≡◌, ◌+◌, ◌<◌, ◌≤◌, [], ◌∷◌, ◌++◌, length, codes, decimal};
ghost use Rattle.std.specs.List.{join_with_byte};
ghost use Rattle.arrayvec.specs.ArrayVec.{array_vec_len};
ghost use Rattle.gt_model.specs.Good.{IsGood};
ghost use Rattle.gt_model.specs.Named.{IsNamed};
ghost use Rattle.gt_trace.specs.Text.{space, goroutine_word, party_word, maybe_word, reason_word, outcome_word, words_of, line_of};

use crate::channels::{fill_channel, fill_pair, fill_recv, fill_send};
use crate::contexts::{
    fill_after, fill_cancel, fill_cause, fill_done, fill_err, fill_expire, fill_unhook, fill_with,
};
use crate::line::{
    LINE_ROOM, Line, push_bytes, push_flag, push_goroutine, push_maybe_number, push_number,
    push_party, push_word,
};
use crate::names::name_of_function;
use crate::syncs::{fill_add, fill_broadcast, fill_cond, fill_mutex, fill_signal, fill_wait_group};
use crate::timers::{fill_fire, fill_tick, fill_timer};
use gt_model::{Entry, Outcome, Party, Reason, Script};

/// Builds the line of an entry.
pub fn fill_line(line: &mut Line, script: &Script, entry: &Entry)
    requires empty { line.old.items ≡ [] }
    requires good { IsGood script.now }
    requires named { IsNamed script.now entry.now }
    ensures { line.new.items ≡ line_of script.now entry.now }
{
    fill_words(line, script, entry);
    push_bytes(line, b"\n");
}

// The words of the line.
fn fill_words(line: &mut Line, script: &Script, entry: &Entry)
    requires empty { line.old.items ≡ [] }
    requires good { IsGood script.now }
    requires named { IsNamed script.now entry.now }
    ensures words { line.new.items ≡ join_with_byte space (words_of script.now entry.now) }
    ensures room { array_vec_len line.new < LINE_ROOM }
{
    match *entry {
        Entry::Say { g, n } => fill_number(line, b"say", g, u64::from(n)),
        Entry::Now { g, at } => fill_number(line, b"now", g, at),
        Entry::Go { g, child, f } => fill_go(line, script, g, child, f),
        Entry::End { g } => fill_goroutine(line, b"end", g),
        Entry::Sleep { g, until } => fill_sleep(line, g, until),
        Entry::Wake { g } => fill_goroutine(line, b"wake", g),
        Entry::New { g, t, due } => fill_new(line, script, g, t, due),
        Entry::Stop { g, t, was } => fill_stop(line, script, g, t, was),
        Entry::Reset { g, t, was, due } => fill_reset(line, script, g, t, was, due),
        Entry::TRecv { p, t, due, next } => fill_tick(line, script, p, t, due, next),
        Entry::FireFunc { t, child } => fill_fire(line, script, t, child),
        Entry::Make { g, c } => fill_channel(line, b"make", script, g, c),
        Entry::Send { p, c, v } => fill_send(line, script, p, c, v),
        Entry::Recv { p, c, v } => fill_recv(line, script, p, c, v),
        Entry::Pair { from, to, c, v } => fill_pair(line, script, from, to, c, v),
        Entry::Close { g, c } => fill_channel(line, b"close", script, g, c),
        Entry::Default { g } => fill_goroutine(line, b"default", g),
        Entry::Lock { g, m } => fill_mutex(line, b"lock", script, g, m),
        Entry::Unlock { g, m } => fill_mutex(line, b"unlock", script, g, m),
        Entry::CondWait { g, k } => fill_cond(line, b"cwait", script, g, k),
        Entry::CondWake { g, k } => fill_cond(line, b"cwake", script, g, k),
        Entry::Signal { g, k, woken } => fill_signal(line, script, g, k, woken),
        Entry::Broadcast { g, k, count } => fill_broadcast(line, script, g, k, count),
        Entry::Add { g, w, n } => fill_add(line, script, g, w, n),
        Entry::WgWait { g, w } => fill_wait_group(line, b"wait", script, g, w),
        Entry::CtxMake { g, x, ended } => fill_with(line, script, g, x, ended),
        Entry::Cancel {
            g,
            x,
            newly,
            starts,
        } => fill_cancel(line, script, g, x, newly, starts),
        Entry::Expire { x, starts } => fill_expire(line, script, x, starts),
        Entry::CtxErr { g, x, err } => fill_err(line, script, g, x, err),
        Entry::Cause { g, x, cause } => fill_cause(line, script, g, x, cause),
        Entry::CtxDone { p, x } => fill_done(line, script, p, x),
        Entry::CtxAfter { g, s, child } => fill_after(line, script, g, s, child),
        Entry::CtxStop { g, s, stopped } => fill_unhook(line, script, g, s, stopped),
        Entry::Clock { world, at } => fill_clock(line, world, at),
        Entry::Panic { p, reason } => fill_panic(line, p, reason),
        Entry::Finish { outcome } => fill_outcome(line, outcome),
    }
}

// The words of a goroutine that did something which its line's first word tells.
fn fill_goroutine(line: &mut Line, word: &[u8], g: u32)
    requires empty { line.old.items ≡ [] }
    requires short { length word.now ≤ 7 }
    ensures words { line.new.items ≡ join_with_byte space (word.now ∷ goroutine_word g ∷ []) }
    ensures room { array_vec_len line.new ≤ 19 }
{
    push_bytes(line, word);
    push_goroutine(line, g);
}

// The same, and a number.
fn fill_number(line: &mut Line, word: &[u8], g: u32, number: u64)
    requires empty { line.old.items ≡ [] }
    requires short { length word.now ≤ 5 }
    ensures words { line.new.items
        ≡ join_with_byte space (word.now ∷ goroutine_word g ∷ decimal number ∷ []) }
    ensures room { array_vec_len line.new < LINE_ROOM }
{
    fill_goroutine(line, word, g);
    push_number(line, number);
}

// A goroutine started another one at a function.
fn fill_go(line: &mut Line, script: &Script, g: u32, child: u32, f: u32)
    requires empty { line.old.items ≡ [] }
    requires good { IsGood script.now }
    requires named { IsNamed script.now (Entry.Go g child f) }
    ensures words { line.new.items
        ≡ join_with_byte space (words_of script.now (Entry.Go g child f)) }
    ensures room { array_vec_len line.new < LINE_ROOM }
{
    fill_goroutine(line, b"go", g);
    push_goroutine(line, child);
    push_word(line, name_of_function(script, f));
}

// A goroutine fell asleep, or slept for 0.
fn fill_sleep(line: &mut Line, g: u32, until: Option<u64>)
    requires { line.old.items ≡ [] }
    ensures words { line.new.items
        ≡ join_with_byte space (codes "sleep" ∷ goroutine_word g ∷ maybe_word until ∷ []) }
    ensures room { array_vec_len line.new < LINE_ROOM }
{
    fill_goroutine(line, b"sleep", g);
    push_maybe_number(line, until);
}

// A goroutine made a timer.
fn fill_new(line: &mut Line, script: &Script, g: u32, t: u32, due: u64)
    requires empty { line.old.items ≡ [] }
    requires good { IsGood script.now }
    requires named { IsNamed script.now (Entry.New g t due) }
    ensures words { line.new.items
        ≡ join_with_byte space (words_of script.now (Entry.New g t due)) }
    ensures room { array_vec_len line.new < LINE_ROOM }
{
    fill_timer(line, b"new", script, g, t);
    push_number(line, due);
}

// A goroutine stopped a timer.
fn fill_stop(line: &mut Line, script: &Script, g: u32, t: u32, was: Option<bool>)
    requires empty { line.old.items ≡ [] }
    requires good { IsGood script.now }
    requires named { IsNamed script.now (Entry.Stop g t was) }
    ensures words { line.new.items
        ≡ join_with_byte space (words_of script.now (Entry.Stop g t was)) }
    ensures room { array_vec_len line.new < LINE_ROOM }
{
    fill_timer(line, b"stop", script, g, t);
    push_flag(line, was);
}

// A goroutine set a timer anew.
fn fill_reset(line: &mut Line, script: &Script, g: u32, t: u32, was: Option<bool>, due: u64)
    requires empty { line.old.items ≡ [] }
    requires good { IsGood script.now }
    requires named { IsNamed script.now (Entry.Reset g t was due) }
    ensures words { line.new.items
        ≡ join_with_byte space (words_of script.now (Entry.Reset g t was due)) }
    ensures room { array_vec_len line.new < LINE_ROOM }
{
    fill_timer(line, b"reset", script, g, t);
    push_flag(line, was);
    push_number(line, due);
}

// The clock of a world moved.
fn fill_clock(line: &mut Line, world: u32, at: u64)
    requires { line.old.items ≡ [] }
    ensures words { line.new.items
        ≡ join_with_byte space (codes "clock" ∷ decimal world ∷ decimal at ∷ []) }
    ensures room { array_vec_len line.new < LINE_ROOM }
{
    push_bytes(line, b"clock");
    push_number(line, u64::from(world));
    push_number(line, at);
}

// A goroutine misused an object.
fn fill_panic(line: &mut Line, p: Party, reason: Reason)
    requires { line.old.items ≡ [] }
    ensures words { line.new.items
        ≡ join_with_byte space (codes "panic" ∷ party_word p ∷ reason_word reason ∷ []) }
    ensures room { array_vec_len line.new < LINE_ROOM }
{
    push_bytes(line, b"panic");
    push_party(line, p);
    match reason {
        Reason::Unmade => push_word(line, b"unmade"),
        Reason::Twice => push_word(line, b"twice"),
        Reason::Closed => push_word(line, b"closed"),
        Reason::Ticker => push_word(line, b"ticker"),
        Reason::Negative => push_word(line, b"negative"),
        Reason::Unlocked => push_word(line, b"unlocked"),
    }
}

// How the run ended.
fn fill_outcome(line: &mut Line, outcome: Outcome)
    requires { line.old.items ≡ [] }
    ensures words { line.new.items ≡ outcome_word outcome }
    ensures room { array_vec_len line.new < LINE_ROOM }
{
    match outcome {
        Outcome::Exit => push_bytes(line, b"exit"),
        Outcome::Deadlock => push_bytes(line, b"deadlock"),
        Outcome::Panic => push_bytes(line, b"panic"),
        Outcome::Limit => push_bytes(line, b"limit"),
    }
}
