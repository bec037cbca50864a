// What the lines of channels share, and the lines of what goes over channels. A channel is shown by its name.
ghost use Rattle.std.specs.Prelude.{◌≡◌, ◌+◌, ◌<◌, ◌≤◌, [], ◌∷◌, ◌++◌, length, IsTrue};
ghost use Rattle.std.specs.List.{join_with_byte};
ghost use Rattle.arrayvec.specs.ArrayVec.{array_vec_len};
ghost use Rattle.gt_model.specs.Script.{is_chan};
ghost use Rattle.gt_model.specs.Good.{IsGood};
ghost use Rattle.gt_model.specs.Named.{IsNamed};
ghost use Rattle.gt_trace.specs.Text.{space, goroutine_word, party_word, name_of, words_of};

use crate::line::{
    LINE_ROOM, Line, push_bytes, push_goroutine, push_maybe_number, push_number, push_party,
    push_word,
};
use crate::names::declared_name;
use gt_model::{Entry, Party, Script};

/// Appends a space and the name of a channel.
#[tactic(auto, using(gt_model::proofs::Declared::chan_declared))]
fn push_channel(line: &mut Line, script: &Script, c: u32)
    requires good { IsGood script.now }
    requires named { IsTrue (is_chan script.now c) }
    requires room { array_vec_len line.old + 33 ≤ LINE_ROOM }
    ensures appended { line.new.items ≡ line.old.items ++ space ∷ name_of script.now c }
    ensures short { array_vec_len line.new ≤ array_vec_len line.old + 33 }
{
    push_word(line, declared_name(script, c));
}

/// Builds the line of a goroutine that made or closed a channel: what it did, and the channel's name.
pub fn fill_channel(line: &mut Line, word: &[u8], script: &Script, g: u32, c: u32)
    requires empty { line.old.items ≡ [] }
    requires brief { length word.now ≤ 5 }
    requires good { IsGood script.now }
    requires named { IsTrue (is_chan script.now c) }
    ensures words { line.new.items
        ≡ join_with_byte space (word.now ∷ goroutine_word g ∷ name_of script.now c ∷ []) }
    ensures room { array_vec_len line.new < LINE_ROOM }
{
    push_bytes(line, word);
    push_goroutine(line, g);
    push_channel(line, script, c);
}

// Builds the front of a party's line about a channel: what it did, and the channel's name.
fn fill_party(line: &mut Line, word: &[u8], script: &Script, p: Party, c: u32)
    requires empty { line.old.items ≡ [] }
    requires brief { length word.now ≤ 5 }
    requires good { IsGood script.now }
    requires named { IsTrue (is_chan script.now c) }
    ensures words { line.new.items
        ≡ join_with_byte space (word.now ∷ party_word p ∷ name_of script.now c ∷ []) }
    ensures short { array_vec_len line.new ≤ 61 }
{
    push_bytes(line, word);
    push_party(line, p);
    push_channel(line, script, c);
}

/// A goroutine sent a value, which the channel keeps.
pub fn fill_send(line: &mut Line, script: &Script, p: Party, c: u32, v: u32)
    requires empty { line.old.items ≡ [] }
    requires good { IsGood script.now }
    requires named { IsNamed script.now (Entry.Send p c v) }
    ensures words { line.new.items
        ≡ join_with_byte space (words_of script.now (Entry.Send p c v)) }
    ensures room { array_vec_len line.new < LINE_ROOM }
{
    fill_party(line, b"send", script, p, c);
    push_number(line, u64::from(v));
}

/// A goroutine received a value that the channel kept, or none from a closed channel.
pub fn fill_recv(line: &mut Line, script: &Script, p: Party, c: u32, v: Option<u32>)
    requires empty { line.old.items ≡ [] }
    requires good { IsGood script.now }
    requires named { IsNamed script.now (Entry.Recv p c v) }
    ensures words { line.new.items
        ≡ join_with_byte space (words_of script.now (Entry.Recv p c v)) }
    ensures room { array_vec_len line.new < LINE_ROOM }
{
    fill_party(line, b"recv", script, p, c);
    push_maybe_number(line, v.map(u64::from));
}

/// A goroutine sent a value to another one, which received it.
pub fn fill_pair(line: &mut Line, script: &Script, from: Party, to: Party, c: u32, v: u32)
    requires empty { line.old.items ≡ [] }
    requires good { IsGood script.now }
    requires named { IsNamed script.now (Entry.Pair from to c v) }
    ensures words { line.new.items
        ≡ join_with_byte space (words_of script.now (Entry.Pair from to c v)) }
    ensures room { array_vec_len line.new < LINE_ROOM }
{
    push_bytes(line, b"pair");
    push_party(line, from);
    push_party(line, to);
    push_channel(line, script, c);
    push_number(line, u64::from(v));
}
