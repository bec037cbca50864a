// The lines of contexts, and of the functions that start at their end. Both are shown by their names.
ghost use Rattle.std.specs.Prelude.{◌≡◌, ◌+◌, ◌<◌, ◌≤◌, [], ◌∷◌, ◌++◌, length, IsTrue};
ghost use Rattle.std.specs.List.{join_with_byte};
ghost use Rattle.arrayvec.specs.ArrayVec.{array_vec_len};
ghost use Rattle.gt_model.specs.Script.{is_ctx, is_hook};
ghost use Rattle.gt_model.specs.Good.{IsGood};
ghost use Rattle.gt_model.specs.Named.{IsNamed, IsNamedCause};
ghost use Rattle.gt_model.specs.declared.entry.Entry.{Entry};
ghost use Rattle.gt_trace.specs.Text.{space, goroutine_word, name_of, error_word, cause_word, words_of};

use crate::line::{
    LINE_ROOM, Line, push_bytes, push_flag, push_goroutine, push_maybe_goroutine, push_number,
    push_party, push_word,
};
use crate::names::declared_name;
use gt_model::{CauseVal, ErrVal, Party, Script};

// Appends a space and the name of a context.
#[tactic(auto, using(gt_model::proofs::Declared::ctx_declared))]
fn push_context(line: &mut Line, script: &Script, x: u32)
    requires good { IsGood script.now }
    requires named { IsTrue (is_ctx script.now x) }
    requires room { array_vec_len line.old + 33 ≤ LINE_ROOM }
    ensures appended { line.new.items ≡ line.old.items ++ space ∷ name_of script.now x }
    ensures short { array_vec_len line.new ≤ array_vec_len line.old + 33 }
{
    push_word(line, declared_name(script, x));
}

// Builds the front of a goroutine's line about a context: what it did, and the context's name.
fn fill_context(line: &mut Line, word: &[u8], script: &Script, g: u32, x: u32)
    requires empty { line.old.items ≡ [] }
    requires brief { length word.now ≤ 6 }
    requires good { IsGood script.now }
    requires named { IsTrue (is_ctx script.now x) }
    ensures words { line.new.items
        ≡ join_with_byte space (word.now ∷ goroutine_word g ∷ name_of script.now x ∷ []) }
    ensures short { array_vec_len line.new ≤ 51 }
{
    push_bytes(line, word);
    push_goroutine(line, g);
    push_context(line, script, x);
}

/// A goroutine made a context.
pub fn fill_with(line: &mut Line, script: &Script, g: u32, x: u32, ended: bool)
    requires empty { line.old.items ≡ [] }
    requires good { IsGood script.now }
    requires named { IsNamed script.now (Entry.CtxMake g x ended) }
    ensures words { line.new.items
        ≡ join_with_byte space (words_of script.now (Entry.CtxMake g x ended)) }
    ensures room { array_vec_len line.new < LINE_ROOM }
{
    fill_context(line, b"with", script, g, x);
    if ended {
        push_word(line, b"ended");
    } else {
        push_word(line, b"live");
    }
}

/// A goroutine canceled a context.
pub fn fill_cancel(line: &mut Line, script: &Script, g: u32, x: u32, newly: bool, starts: u32)
    requires empty { line.old.items ≡ [] }
    requires good { IsGood script.now }
    requires named { IsNamed script.now (Entry.Cancel g x newly starts) }
    ensures words { line.new.items
        ≡ join_with_byte space (words_of script.now (Entry.Cancel g x newly starts)) }
    ensures room { array_vec_len line.new < LINE_ROOM }
{
    fill_context(line, b"cancel", script, g, x);
    push_flag(line, Some(newly));
    push_number(line, u64::from(starts));
}

/// A context came to its deadline.
pub fn fill_expire(line: &mut Line, script: &Script, x: u32, starts: u32)
    requires empty { line.old.items ≡ [] }
    requires good { IsGood script.now }
    requires named { IsNamed script.now (Entry.Expire x starts) }
    ensures words { line.new.items
        ≡ join_with_byte space (words_of script.now (Entry.Expire x starts)) }
    ensures room { array_vec_len line.new < LINE_ROOM }
{
    push_bytes(line, b"expire");
    push_context(line, script, x);
    push_number(line, u64::from(starts));
}

// Appends a space and the error of a context.
fn push_error(line: &mut Line, err: Option<ErrVal>)
    requires { array_vec_len line.old + 26 ≤ LINE_ROOM }
    ensures appended { line.new.items ≡ line.old.items ++ space ∷ error_word err }
    ensures short { array_vec_len line.new ≤ array_vec_len line.old + 26 }
{
    match err {
        None => push_word(line, b"nil"),
        Some(ErrVal::Canceled) => push_word(line, b"context canceled"),
        Some(ErrVal::DeadlineExceeded) => push_word(line, b"context deadline exceeded"),
    }
}

// Appends a space, `error`, and the name of an error.
#[tactic(auto, using(gt_model::proofs::Declared::error_declared))]
fn push_named_error(line: &mut Line, script: &Script, e: u32)
    requires good { IsGood script.now }
    requires named { IsNamedCause script.now (Some (CauseVal.Named e)) }
    requires room { array_vec_len line.old + 39 ≤ LINE_ROOM }
    ensures appended { line.new.items
        ≡ line.old.items ++ space ∷ cause_word script.now (Some (CauseVal.Named e)) }
    ensures short { array_vec_len line.new ≤ array_vec_len line.old + 39 }
{
    push_word(line, b"error");
    push_word(line, declared_name(script, e));
}

// Appends a space and the cause of a context's end.
fn push_cause(line: &mut Line, script: &Script, cause: Option<CauseVal>)
    requires good { IsGood script.now }
    requires named { IsNamedCause script.now cause }
    requires room { array_vec_len line.old + 39 ≤ LINE_ROOM }
    ensures appended { line.new.items ≡ line.old.items ++ space ∷ cause_word script.now cause }
    ensures short { array_vec_len line.new ≤ array_vec_len line.old + 39 }
{
    match cause {
        None => push_error(line, None),
        Some(CauseVal::Canceled) => push_error(line, Some(ErrVal::Canceled)),
        Some(CauseVal::DeadlineExceeded) => push_error(line, Some(ErrVal::DeadlineExceeded)),
        Some(CauseVal::Named(e)) => push_named_error(line, script, e),
    }
}

/// A goroutine looked at the error of a context.
pub fn fill_err(line: &mut Line, script: &Script, g: u32, x: u32, err: Option<ErrVal>)
    requires empty { line.old.items ≡ [] }
    requires good { IsGood script.now }
    requires named { IsNamed script.now (Entry.CtxErr g x err) }
    ensures words { line.new.items
        ≡ join_with_byte space (words_of script.now (Entry.CtxErr g x err)) }
    ensures room { array_vec_len line.new < LINE_ROOM }
{
    fill_context(line, b"err", script, g, x);
    push_error(line, err);
}

/// A goroutine looked at the cause of a context's end.
pub fn fill_cause(line: &mut Line, script: &Script, g: u32, x: u32, cause: Option<CauseVal>)
    requires empty { line.old.items ≡ [] }
    requires good { IsGood script.now }
    requires named { IsNamed script.now (Entry.Cause g x cause) }
    ensures words { line.new.items
        ≡ join_with_byte space (words_of script.now (Entry.Cause g x cause)) }
    ensures room { array_vec_len line.new < LINE_ROOM }
{
    fill_context(line, b"cause", script, g, x);
    push_cause(line, script, cause);
}

/// A goroutine found a context ended, or waited until it was.
pub fn fill_done(line: &mut Line, script: &Script, p: Party, x: u32)
    requires empty { line.old.items ≡ [] }
    requires good { IsGood script.now }
    requires named { IsNamed script.now (Entry.CtxDone p x) }
    ensures words { line.new.items
        ≡ join_with_byte space (words_of script.now (Entry.CtxDone p x)) }
    ensures room { array_vec_len line.new < LINE_ROOM }
{
    push_bytes(line, b"ctxdone");
    push_party(line, p);
    push_context(line, script, x);
}

// Builds the front of a goroutine's line about such a function: what it did, and the name of its registration.
#[tactic(auto, using(gt_model::proofs::Declared::hook_declared))]
fn fill_hook(line: &mut Line, word: &[u8], script: &Script, g: u32, s: u32)
    requires empty { line.old.items ≡ [] }
    requires brief { length word.now ≤ 6 }
    requires good { IsGood script.now }
    requires named { IsTrue (is_hook script.now s) }
    ensures words { line.new.items
        ≡ join_with_byte space (word.now ∷ goroutine_word g ∷ name_of script.now s ∷ []) }
    ensures short { array_vec_len line.new ≤ 51 }
{
    push_bytes(line, word);
    push_goroutine(line, g);
    push_word(line, declared_name(script, s));
}

/// A goroutine registered a function, which started at once or waits for its context's end.
pub fn fill_after(line: &mut Line, script: &Script, g: u32, s: u32, child: Option<u32>)
    requires empty { line.old.items ≡ [] }
    requires good { IsGood script.now }
    requires named { IsNamed script.now (Entry.CtxAfter g s child) }
    ensures words { line.new.items
        ≡ join_with_byte space (words_of script.now (Entry.CtxAfter g s child)) }
    ensures room { array_vec_len line.new < LINE_ROOM }
{
    fill_hook(line, b"after", script, g, s);
    push_maybe_goroutine(line, child);
}

/// A goroutine took such a function back.
pub fn fill_unhook(line: &mut Line, script: &Script, g: u32, s: u32, stopped: bool)
    requires empty { line.old.items ≡ [] }
    requires good { IsGood script.now }
    requires named { IsNamed script.now (Entry.CtxStop g s stopped) }
    ensures words { line.new.items
        ≡ join_with_byte space (words_of script.now (Entry.CtxStop g s stopped)) }
    ensures room { array_vec_len line.new < LINE_ROOM }
{
    fill_hook(line, b"unhook", script, g, s);
    push_flag(line, Some(stopped));
}
