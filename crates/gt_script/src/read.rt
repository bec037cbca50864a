//! From a text to a script.

ghost use Rattle.std.specs.Prelude.{◌≡◌, ◌∷◌, None, Some, IfErr, IfOk, OnOk, MatchResult};
ghost use Rattle.std.specs.Option.{option_copied};
ghost use Rattle.gt_model.specs.declared.script.Script.{Script};
ghost use Rattle.gt_model.specs.Good.{IsGood};
ghost use Rattle.gt_lines.specs.Words.{numbered_lines, words_of};
ghost use Rattle.gt_lines.specs.Lines.{line_at, lines_at};
ghost use Rattle.gt_names.specs.Known.{known};
ghost use Rattle.gt_grammar.specs.declared.fault.Why.{Why};
ghost use Rattle.gt_grammar.specs.Statements.{is_head};
ghost use Rattle.gt_grammar.specs.Deeds.{script_of, script_with};
ghost use Rattle.gt_grammar.specs.Faults.{fault_from, fault_in_lines, head_cause, no_progress};
ghost use Rattle.gt_grammar.specs.Grammar.{IsFirstFault, Spells, line_number};
ghost use Rattle.gt_script.specs.Reading.{only_word};
ghost use Rattle.gt_script.specs.Unread.{IfRefused, fault_of, earlier_of};

use crate::reader::{Reader, lacks_main};
use crate::unread::Unread;
use gt_grammar::Why;
use gt_lines::{Line, first_word, is_text, next_line};
use gt_model::Script;
use gt_names::{NameTable, read_names};
use std::alloc::Global;

// The word of a line that has no other.
fn only_word(line: &[u8]) -> Option<&[u8]>
    ensures { option_copied result ≡ only_word (words_of line.now) }
{
    let (word, rest) = first_word(line)?;
    match first_word(rest) {
        None => Some(word),
        Some(_) => None,
    }
}

fn is_head(word: &[u8], rest: &[u8]) -> bool
    ensures { result ≡ is_head (word.now ∷ words_of rest.now) }
{
    let Some((kind, rest)) = first_word(rest) else {
        return false;
    };
    let Some(version) = only_word(rest) else {
        return false;
    };
    is_text(word, b"gotime") && is_text(kind, b"script") && is_text(version, b"1")
}

// What is wrong with the first line.
fn head_cause(names: &NameTable, line: &Line, is_last: bool) -> Option<Why>
    ensures { result ≡ head_cause (known names.now) is_last (line_at line.now) }
{
    if !is_head(line.word, line.rest) {
        return Some(Why::Head);
    }
    lacks_main(names, is_last).then_some(Why::NoMain)
}

// Reads the lines behind the first one, from this one on.
fn read_body<'a>(
    alloc: Global,
    names: &NameTable<'a>,
    first: Option<Line<'a>>,
) -> Result<Script, Unread>
    ensures faultless { OnOk result (fault_from (known names.now) no_progress (lines_at first.entry) ≡ None) }
    ensures read { IfOk result (λ script. script ≡ script_with (known names.now) (lines_at first.entry)) }
    ensures fault { IfErr result (λ unread. IfRefused unread (λ fault.
        fault_from (known names.now) no_progress (lines_at first.entry) ≡ Some fault)) }
{
    let mut reader = Reader::new(alloc);
    let mut ahead = first;
    while let Some(line) = ahead {
        ahead = next_line(line.after, line.number.saturating_add(1));
        if let Err(unread) = reader.read(names, &line, ahead.is_none()) {
            return Err(unread);
        }
    }
    Ok(reader.finish(names))
}

// Reads the lines of a text, of which each byte counts as part of a character.
fn read_lines(alloc: Global, text: &[u8]) -> Result<Script, Unread>
    ensures faultless { OnOk result (fault_in_lines (numbered_lines text.now) ≡ None) }
    ensures read { IfOk result (λ script. script ≡ script_of (numbered_lines text.now)) }
    ensures good { IfOk result (λ script. IsGood script) }
    ensures fault { IfErr result (λ unread. IfRefused unread (λ fault.
        fault_in_lines (numbered_lines text.now) ≡ Some fault)) }
{
    let Ok(names) = read_names(alloc, text) else {
        return Err(Unread::NoMemory);
    };
    let Some(head) = next_line(text, 1) else {
        return Err(Unread::refused(1, Why::Head));
    };
    let ahead = next_line(head.after, head.number.saturating_add(1));
    match head_cause(&names, &head, ahead.is_none()) {
        Some(why) => Err(Unread::refused(head.number, why)),
        None => read_body(alloc, &names, ahead),
    }
}

// The number of the line behind this front of a text.
fn line_number(front: &[u8]) -> u32
    ensures { result ≡ line_number front.now }
{
    let mut number: u32 = 1;
    for b in front {
        if *b == b'\n' {
            number = number.saturating_add(1);
        }
    }
    number
}

// Of a line with a byte that is not UTF-8 and what came of the lines, the fault on the earlier line.
fn earlier(line: u32, read: Result<Script, Unread>) -> Unread
    ensures { MatchResult read (λ _. result ≡ Unread.Refused (fault_of line Why.Utf8)) (λ unread. result ≡ earlier_of line unread) }
{
    match read {
        Err(Unread::NoMemory) => Unread::NoMemory,
        Err(Unread::Refused { fault }) if fault.line < line => Unread::Refused { fault },
        _ => Unread::refused(line, Why::Utf8),
    }
}

/// The script that a text spells, in the script language, version 1.
///
/// A text is UTF-8. Its lines end with a line feed, of which a carriage return in front is part, or with the text; words are
/// separated by spaces and tabs; lines without words, and lines whose first word begins with `#`, are skipped. The other lines
/// are `gotime script 1`, then declarations and functions in any order. A declaration is `timer T`, `ticker T`, `afterfunc T F`,
/// `mutex M`, `wg W`, `cond K M`, a condition variable with its mutex, `chan C N`, a channel that keeps at most N values, with
/// N from 0 to 1,024, `error E`, `ctx X P FORM`, a context, or `hook S X F`, the function F that starts when the context X ends; a
/// function begins with `func F` and ends with `end`, and in between has instructions, each a keyword and what follows it, as the
/// rows of [`gt_table::Keyword::form`] say: numbers of 32 bits, durations of at most [`gt_model::CAP`] nanoseconds, what is added
/// to a counter, from -1,000,000 to 1,000,000, with `-` in front where it is below 0, and names that are declared as what is wanted
/// there. A context has a parent P, which is `root` or a context of an earlier line, and a FORM: `cancel`, `cause`, `timeout D`,
/// `timeout D E` with the error E as its cause, or `without`. One of the form `without` is not canceled and not received from, and
/// one is canceled with a cause, by `cancel X E`, where its form is `cause`. Among the instructions stand loops: a block `loop N` ..
/// `end` with N from 0 to 1,000,000, up to four in one another, which holds something, and more than loops with 0 where N is above
/// 0. And selects: a block `select` .. `end` of 1 to 16 cases, each a line `case recv O` or `case send C N` with its body behind it,
/// and then, if wanted, a line `default` with its body; with a default at most one case receives from a timer. A select is an
/// instruction. Up to 16 blocks stand in one another. One function is `main`. Each name is declared once, before or after its uses;
/// only a parent is declared before. A script has at most 4,096 names, 256 functions among them, and 100,000 instructions.
///
/// A use on an earlier line takes a name as the first line that declares it, be that faulty or not: its first word tells what it is, and
/// the fourth word of a context's line its form.
///
/// # Errors
///
/// A text is refused exactly where it spells no script, unless memory runs out. The fault names the first faulty line and the
/// first cause on it, in the order of [`Why`].
pub fn read_script(alloc: Global, bytes: &[u8]) -> Result<Script, Unread>
    ensures read { IfOk result (λ script. Spells bytes.now script) }
    ensures good { IfOk result (λ script. IsGood script) }
    ensures fault { IfErr result (λ unread. IfRefused unread (λ fault. IsFirstFault bytes.now fault)) }
    ensures refused { IfErr result
        (λ unread. IfRefused unread (λ _. (script : Script) → Spells bytes.now script → ⊥)) }
{
    let read = read_lines(alloc, bytes);
    match str::from_utf8(bytes) {
        Ok(_) => read,
        Err(error) => {
            let (front, _) = bytes.split_at(error.valid_up_to());
            let line = line_number(front);
            Err(earlier(line, read))
        }
    }
}
