//! The values of words: places of names, and amounts.

ghost use Rattle.std.specs.Prelude.{◌≡◌, ◌+◌, ◌≤◌, IfSome, if◌then◌else◌, None};
ghost use Rattle.std.specs.Option.{option_map};
ghost use Rattle.gt_model.specs.Good.{most_passes, most_capacity, most_added};
ghost use Rattle.gt_model.specs.Times.{greatest_time};
ghost use Rattle.gt_table.specs.Forms.{most_of, takes};
ghost use Rattle.gt_names.specs.Known.{known};
ghost use Rattle.gt_names.specs.Names.{is_free_name};
ghost use Rattle.gt_grammar.specs.Duration.{duration_of};
ghost use Rattle.gt_grammar.specs.Statements.{place_if, function_place, object_of, parent_of, number_to, added_of, value_of};

use gt_dur::read_dur;
use gt_lines::{is_text, read_number};
use gt_names::{Declared, NameTable, is_free_name};
use gt_table::Arg;

/// The greatest number of passes of a loop.
const MOST_PASSES: u32 = 1_000_000;

/// The greatest capacity of a channel, in values.
const MOST_CAPACITY: u32 = 1024;

/// How much is added to a counter at most, or taken from it.
const MOST_ADDED: u32 = 1_000_000;

// The duration that a word spells, in nanoseconds. `None` for any other word, or a duration above [`gt_model::CAP`].
fn read_duration(word: &[u8]) -> Option<u64>
    ensures value { result ≡ duration_of word.now }
    ensures most { IfSome result (λ d. d ≤ greatest_time) }
{
    match str::from_utf8(word) {
        Ok(text) => read_dur(text).ok(),
        Err(_) => None,
    }
}

// The number that a word spells, if it is at most this.
fn read_number_to(most: u32, word: &[u8]) -> Option<u32>
    ensures value { result ≡ number_to most word.now }
    ensures most { IfSome result (λ n. n ≤ most) }
{
    let number = read_number(word)?;
    if number > most {
        return None;
    }
    Some(number)
}

// What a word adds to a counter, counted from the least that is: -1,000,000 is 0.
fn read_added(word: &[u8]) -> Option<u32>
    ensures value { result ≡ added_of word.now }
    ensures most { IfSome result (λ n. n ≤ most_added + most_added) }
{
    match word {
        [b'-', digits @ ..] => Some(MOST_ADDED - read_number_to(MOST_ADDED, digits)?),
        _ => Some(MOST_ADDED + read_number_to(MOST_ADDED, word)?),
    }
}

// The place of what a name is declared as, if that may stand there.
fn object_place(arg: Arg, d: Declared) -> Option<u32>
    ensures { result ≡ place_if (takes arg) d }
{
    arg.takes(d.kind).then_some(d.place)
}

fn function_place(d: Declared) -> Option<u32>
    ensures { result ≡ function_place d }
{
    d.kind.is_function().then_some(d.func)
}

// The value of an object's name: its place.
fn read_object<'a>(names: &NameTable<'a>, arg: Arg, word: &'a [u8]) -> Option<u64>
    ensures value { result ≡ object_of (known names.now) arg word.now }
    ensures most { IfSome result (λ v. v ≤ 4294967295) }
{
    Some(u64::from(object_place(arg, names.find(word)?)?))
}

// The value of a parent: 0 for the root, and else one more than its place.
fn read_parent<'a>(names: &NameTable<'a>, word: &'a [u8]) -> Option<u64>
    ensures value { result ≡ parent_of (known names.now) word.now }
    ensures most { IfSome result (λ v. v ≤ 4294967296) }
{
    if is_text(word, b"root") {
        return Some(0);
    }
    Some(read_object(names, Arg::Parent, word)? + 1)
}

fn new_place<'a>(names: &NameTable<'a>, word: &'a [u8]) -> Option<u32>
    ensures { result ≡ value_of (known names.now) Arg.NewName word.now }
{
    if !is_free_name(word) {
        return None;
    }
    Some(names.find(word)?.place)
}

/// What a word of this kind stands for, with these names; `None` where the word is wrong.
// Each line comes here four times, mostly for a word that is not wanted.
#[inline(always)]
pub(crate) fn read_value<'a>(names: &NameTable<'a>, arg: Arg, word: &'a [u8]) -> Option<u64>
    ensures value { result ≡ value_of (known names.now) arg word.now }
    ensures most { IfSome result (λ v. v ≤ most_of arg) }
{
    match arg {
        Arg::Nothing => Some(0),
        Arg::NewName => Some(u64::from(new_place(names, word)?)),
        Arg::Setting
        | Arg::Channel
        | Arg::Source
        | Arg::Mutex
        | Arg::WaitGroup
        | Arg::Cond
        | Arg::Context
        | Arg::Endable
        | Arg::Causable
        | Arg::Hook
        | Arg::Error => read_object(names, arg, word),
        Arg::Parent => read_parent(names, word),
        Arg::Function => Some(u64::from(function_place(names.find(word)?)?)),
        Arg::Duration => read_duration(word),
        Arg::Number => Some(u64::from(read_number(word)?)),
        Arg::Passes => Some(u64::from(read_number_to(MOST_PASSES, word)?)),
        Arg::Capacity => Some(u64::from(read_number_to(MOST_CAPACITY, word)?)),
        Arg::Added => Some(u64::from(read_added(word)?)),
    }
}
