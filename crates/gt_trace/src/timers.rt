// What the lines of timers share, and the lines of what timers do. A timer is shown by its name.
ghost use Rattle.std.specs.Prelude.{◌≡◌, ◌+◌, ◌<◌, ◌≤◌, [], ◌∷◌, ◌++◌, length, IsTrue};
ghost use Rattle.std.specs.List.{join_with_byte};
ghost use Rattle.arrayvec.specs.ArrayVec.{array_vec_len};
ghost use Rattle.gt_model.specs.Good.{IsGood, is_setting};
ghost use Rattle.gt_model.specs.Named.{IsNamed};
ghost use Rattle.gt_trace.specs.Text.{space, goroutine_word, name_of, words_of};

use crate::line::{
    LINE_ROOM, Line, push_bytes, push_goroutine, push_maybe_number, push_number, push_party,
    push_word,
};
use crate::names::declared_name;
use gt_model::{Entry, Party, Script};

/// Appends a space and the name of a timer.
#[tactic(auto, using(gt_model::proofs::Declared::setting_declared))]
fn push_timer(line: &mut Line, script: &Script, t: u32)
    requires good { IsGood script.now }
    requires named { IsTrue (is_setting script.now t) }
    requires room { array_vec_len line.old + 33 ≤ LINE_ROOM }
    ensures appended { line.new.items ≡ line.old.items ++ space ∷ name_of script.now t }
    ensures short { array_vec_len line.new ≤ array_vec_len line.old + 33 }
{
    push_word(line, declared_name(script, t));
}

/// Builds the front of a goroutine's line about a timer: what it did, and the timer's name.
pub fn fill_timer(line: &mut Line, word: &[u8], script: &Script, g: u32, t: u32)
    requires empty { line.old.items ≡ [] }
    requires brief { length word.now ≤ 5 }
    requires good { IsGood script.now }
    requires named { IsTrue (is_setting script.now t) }
    ensures words { line.new.items
        ≡ join_with_byte space (word.now ∷ goroutine_word g ∷ name_of script.now t ∷ []) }
    ensures short { array_vec_len line.new ≤ 50 }
{
    push_bytes(line, word);
    push_goroutine(line, g);
    push_timer(line, script, t);
}

/// A goroutine received the tick of a timer.
#[tactic(auto, using(gt_model::proofs::Declared::timer_setting))]
pub fn fill_tick(line: &mut Line, script: &Script, p: Party, t: u32, due: u64, next: Option<u64>)
    requires empty { line.old.items ≡ [] }
    requires good { IsGood script.now }
    requires named { IsNamed script.now (Entry.TRecv p t due next) }
    ensures words { line.new.items
        ≡ join_with_byte space (words_of script.now (Entry.TRecv p t due next)) }
    ensures room { array_vec_len line.new < LINE_ROOM }
{
    push_bytes(line, b"trecv");
    push_party(line, p);
    push_timer(line, script, t);
    push_number(line, due);
    push_maybe_number(line, next);
}

/// An AfterFunc timer started its function.
#[tactic(auto, using(gt_model::proofs::Declared::func_setting))]
pub fn fill_fire(line: &mut Line, script: &Script, t: u32, child: u32)
    requires empty { line.old.items ≡ [] }
    requires good { IsGood script.now }
    requires named { IsNamed script.now (Entry.FireFunc t child) }
    ensures words { line.new.items
        ≡ join_with_byte space (words_of script.now (Entry.FireFunc t child)) }
    ensures room { array_vec_len line.new < LINE_ROOM }
{
    push_bytes(line, b"fire");
    push_timer(line, script, t);
    push_goroutine(line, child);
}
