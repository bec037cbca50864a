// The lines of what goroutines do to mutexes, WaitGroups and Conds, which are shown by their names.
ghost use Rattle.std.specs.Prelude.{◌≡◌, ◌+◌, ◌<◌, ◌≤◌, [], ◌∷◌, ◌++◌, length, IsTrue};
ghost use Rattle.std.specs.List.{join_with_byte};
ghost use Rattle.arrayvec.specs.ArrayVec.{array_vec_len};
ghost use Rattle.gt_model.specs.Script.{is_mutex, is_wg, is_cond};
ghost use Rattle.gt_model.specs.Good.{IsGood};
ghost use Rattle.gt_model.specs.Named.{IsNamed};
ghost use Rattle.gt_model.specs.declared.entry.Entry.{Entry};
ghost use Rattle.gt_trace.specs.Text.{space, goroutine_word, name_of, words_of};

use crate::line::{
    LINE_ROOM, Line, push_bytes, push_goroutine, push_maybe_goroutine, push_number, push_signed,
    push_word,
};
use crate::names::declared_name;
use gt_model::Script;

/// Builds the line of a goroutine that locked or unlocked a mutex: what it did, and the mutex's name.
#[tactic(auto, using(gt_model::proofs::Declared::mutex_declared))]
pub fn fill_mutex(line: &mut Line, word: &[u8], script: &Script, g: u32, m: u32)
    requires empty { line.old.items ≡ [] }
    requires brief { length word.now ≤ 6 }
    requires good { IsGood script.now }
    requires named { IsTrue (is_mutex script.now m) }
    ensures words { line.new.items
        ≡ join_with_byte space (word.now ∷ goroutine_word g ∷ name_of script.now m ∷ []) }
    ensures room { array_vec_len line.new < LINE_ROOM }
{
    push_bytes(line, word);
    push_goroutine(line, g);
    push_word(line, declared_name(script, m));
}

/// Builds the front of a goroutine's line about a WaitGroup: what it did, and the WaitGroup's name.
#[tactic(auto, using(gt_model::proofs::Declared::wg_declared))]
pub fn fill_wait_group(line: &mut Line, word: &[u8], script: &Script, g: u32, w: u32)
    requires empty { line.old.items ≡ [] }
    requires brief { length word.now ≤ 4 }
    requires good { IsGood script.now }
    requires named { IsTrue (is_wg script.now w) }
    ensures words { line.new.items
        ≡ join_with_byte space (word.now ∷ goroutine_word g ∷ name_of script.now w ∷ []) }
    ensures short { array_vec_len line.new ≤ 49 }
{
    push_bytes(line, word);
    push_goroutine(line, g);
    push_word(line, declared_name(script, w));
}

/// A goroutine added a number to the counter of a WaitGroup.
pub fn fill_add(line: &mut Line, script: &Script, g: u32, w: u32, n: i64)
    requires empty { line.old.items ≡ [] }
    requires good { IsGood script.now }
    requires named { IsNamed script.now (Entry.Add g w n) }
    ensures words { line.new.items
        ≡ join_with_byte space (words_of script.now (Entry.Add g w n)) }
    ensures room { array_vec_len line.new < LINE_ROOM }
{
    fill_wait_group(line, b"add", script, g, w);
    push_signed(line, n);
}

/// Builds the front of a goroutine's line about a Cond: what it did, and the Cond's name.
#[tactic(auto, using(gt_model::proofs::Declared::cond_declared))]
pub fn fill_cond(line: &mut Line, word: &[u8], script: &Script, g: u32, k: u32)
    requires empty { line.old.items ≡ [] }
    requires brief { length word.now ≤ 9 }
    requires good { IsGood script.now }
    requires named { IsTrue (is_cond script.now k) }
    ensures words { line.new.items
        ≡ join_with_byte space (word.now ∷ goroutine_word g ∷ name_of script.now k ∷ []) }
    ensures short { array_vec_len line.new ≤ 54 }
{
    push_bytes(line, word);
    push_goroutine(line, g);
    push_word(line, declared_name(script, k));
}

/// A goroutine signalled another one at a Cond, or nobody.
pub fn fill_signal(line: &mut Line, script: &Script, g: u32, k: u32, woken: Option<u32>)
    requires empty { line.old.items ≡ [] }
    requires good { IsGood script.now }
    requires named { IsNamed script.now (Entry.Signal g k woken) }
    ensures words { line.new.items
        ≡ join_with_byte space (words_of script.now (Entry.Signal g k woken)) }
    ensures room { array_vec_len line.new < LINE_ROOM }
{
    fill_cond(line, b"signal", script, g, k);
    push_maybe_goroutine(line, woken);
}

/// A goroutine signalled all that waited at a Cond.
pub fn fill_broadcast(line: &mut Line, script: &Script, g: u32, k: u32, count: u32)
    requires empty { line.old.items ≡ [] }
    requires good { IsGood script.now }
    requires named { IsNamed script.now (Entry.Broadcast g k count) }
    ensures words { line.new.items
        ≡ join_with_byte space (words_of script.now (Entry.Broadcast g k count)) }
    ensures room { array_vec_len line.new < LINE_ROOM }
{
    fill_cond(line, b"broadcast", script, g, k);
    push_number(line, u64::from(count));
}
