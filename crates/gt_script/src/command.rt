//! What one line says: its keyword, the words behind it that the keyword wants, and what they stand for.

ghost use Rattle.std.specs.Prelude.{◌≡◌, ◌≤◌, ◌∷◌, MatchOption, IfSome};
ghost use Rattle.gt_lines.specs.Words.{words_of};
ghost use Rattle.gt_table.specs.Forms.{is_wanted, most_of};
ghost use Rattle.gt_table.specs.Table.{form_of};
ghost use Rattle.gt_grammar.specs.Statements.{command, command_of, command_with, tail_with, case_of, ctx_of, cancel_of, are_two, is_ticking, is_case_recv, taken, taking, step_with};

use crate::value::read_value;
use gt_grammar::Statement;
use gt_lines::{first_word, is_text};
use gt_names::{Declared, NameTable};
use gt_table::{Arg, Keyword, Step, Values, cancel_keyword, read_case, read_ctx, read_keyword};

/// A keyword with the words behind it that it wants. A word that it does not want is empty.
#[derive(Clone, Copy)]
pub(crate) struct Command<'a> {
    pub(crate) keyword: Keyword,
    pub(crate) first: &'a [u8],
    pub(crate) second: &'a [u8],
    pub(crate) third: &'a [u8],
    pub(crate) fourth: &'a [u8],
}

// Takes a word off, if one is wanted. `None` where it is missing.
fn take_word<'a>(arg: Arg, rest: &'a [u8]) -> Option<(&'a [u8], &'a [u8])>
    ensures { MatchOption result (taken (is_wanted arg) (words_of rest.now) ≡ None)
        (λ r. taken (is_wanted arg) (words_of rest.now) ≡ Some (taking r.0.now (words_of r.1.now))) }
{
    let none: &[u8] = b"";
    if arg.is_wanted() {
        first_word(rest)
    } else {
        Some((none, rest))
    }
}

// The command of a keyword with its first two words and what follows them. `None` where the keyword wants another number of words.
fn read_tail<'a>(
    keyword: Keyword,
    first: &'a [u8],
    second: &'a [u8],
    rest: &'a [u8],
) -> Option<Command<'a>>
    ensures { MatchOption result (tail_with keyword first.now second.now (words_of rest.now) ≡ None)
        (λ c. tail_with keyword first.now second.now (words_of rest.now) ≡ Some (command c.keyword c.first.now c.second.now c.third.now c.fourth.now)) }
{
    let form = keyword.form();
    let (third, rest) = take_word(form.third, rest)?;
    let (fourth, rest) = take_word(form.fourth, rest)?;
    match first_word(rest) {
        None => Some(Command {
            keyword,
            first,
            second,
            third,
            fourth,
        }),
        Some(_) => None,
    }
}

// The command of a keyword and what follows it.
fn read_behind<'a>(keyword: Keyword, rest: &'a [u8]) -> Option<Command<'a>>
    ensures { MatchOption result (command_with keyword (words_of rest.now) ≡ None)
        (λ c. command_with keyword (words_of rest.now) ≡ Some (command c.keyword c.first.now c.second.now c.third.now c.fourth.now)) }
{
    let form = keyword.form();
    let (first, rest) = take_word(form.first, rest)?;
    let (second, rest) = take_word(form.second, rest)?;
    read_tail(keyword, first, second, rest)
}

// The command of what follows `case`.
fn read_case_behind<'a>(rest: &'a [u8]) -> Option<Command<'a>>
    ensures { MatchOption result (case_of (words_of rest.now) ≡ None)
        (λ c. case_of (words_of rest.now) ≡ Some (command c.keyword c.first.now c.second.now c.third.now c.fourth.now)) }
{
    let (word, rest) = first_word(rest)?;
    read_behind(read_case(word)?, rest)
}

// Whether there are two words or more.
fn are_two(rest: &[u8]) -> bool
    ensures { result ≡ are_two (words_of rest.now) }
{
    match first_word(rest) {
        None => false,
        Some((_, rest)) => first_word(rest).is_some(),
    }
}

// The command of what follows `ctx`.
fn read_ctx_behind<'a>(rest: &'a [u8]) -> Option<Command<'a>>
    ensures { MatchOption result (ctx_of (words_of rest.now) ≡ None)
        (λ c. ctx_of (words_of rest.now) ≡ Some (command c.keyword c.first.now c.second.now c.third.now c.fourth.now)) }
{
    let (name, rest) = first_word(rest)?;
    let (parent, rest) = first_word(rest)?;
    let (word, rest) = first_word(rest)?;
    let keyword = read_ctx(word, are_two(rest))?;
    read_tail(keyword, name, parent, rest)
}

// The command of what follows `cancel`.
fn read_cancel_behind<'a>(rest: &'a [u8]) -> Option<Command<'a>>
    ensures { MatchOption result (cancel_of (words_of rest.now) ≡ None)
        (λ c. cancel_of (words_of rest.now) ≡ Some (command c.keyword c.first.now c.second.now c.third.now c.fourth.now)) }
{
    read_behind(cancel_keyword(are_two(rest)), rest)
}

/// The command of a line with this first word. `None` where that is no keyword, or wants other words or another number of them.
pub(crate) fn read_command<'a>(word: &[u8], rest: &'a [u8]) -> Option<Command<'a>>
    ensures { MatchOption result (command_of (word.now ∷ words_of rest.now) ≡ None)
        (λ c. command_of (word.now ∷ words_of rest.now) ≡ Some (command c.keyword c.first.now c.second.now c.third.now c.fourth.now)) }
{
    if is_text(word, b"case") {
        return read_case_behind(rest);
    }
    if is_text(word, b"ctx") {
        return read_ctx_behind(rest);
    }
    if is_text(word, b"cancel") {
        return read_cancel_behind(rest);
    }
    read_behind(read_keyword(word)?, rest)
}

// Whether a name is declared as a timer with a channel, one-shot or a ticker.
fn is_ticking(declared: Option<Declared>) -> bool
    ensures { result ≡ is_ticking declared }
{
    match declared {
        None => false,
        Some(d) => d.kind.is_timer(),
    }
}

fn is_case_recv(keyword: Keyword) -> bool
    ensures { result ≡ is_case_recv keyword }
{
    matches!(keyword, Keyword::CaseRecv)
}

impl<'a> Command<'a> {
    ghost use Rattle.std.specs.Prelude.{◌≡◌, ◌≤◌, IfSome};
    ghost use Rattle.gt_table.specs.Forms.{most_of};
    ghost use Rattle.gt_table.specs.Table.{form_of};
    ghost use Rattle.gt_names.specs.Known.{known};
    ghost use Rattle.gt_grammar.specs.Statements.{command, awaits_timer, statement_of};

    // Whether it is a case that receives from a timer.
    fn awaits_timer(&self, names: &NameTable<'a>) -> bool
        ensures { result
            ≡ awaits_timer (known names.now) (command self.now.keyword self.now.first.now self.now.second.now self.now.third.now self.now.fourth.now) }
    {
        is_case_recv(self.keyword) && is_ticking(names.find(self.first))
    }

    /// What it says, with these names.
    pub(crate) fn read(&self, names: &NameTable<'a>) -> Statement
        ensures value { result
            ≡ statement_of (known names.now) (command self.now.keyword self.now.first.now self.now.second.now self.now.third.now self.now.fourth.now) }
        ensures first { IfSome result.first (λ v. v ≤ most_of (form_of result.keyword).first) }
        ensures second { IfSome result.second (λ v. v ≤ most_of (form_of result.keyword).second) }
        ensures third { IfSome result.third (λ v. v ≤ most_of (form_of result.keyword).third) }
        ensures fourth { IfSome result.fourth (λ v. v ≤ most_of (form_of result.keyword).fourth) }
    {
        let form = self.keyword.form();
        Statement {
            keyword: self.keyword,
            first: read_value(names, form.first, self.first),
            second: read_value(names, form.second, self.second),
            third: read_value(names, form.third, self.third),
            fourth: read_value(names, form.fourth, self.fourth),
            awaits: self.awaits_timer(names),
        }
    }
}

/// What a statement does; `None` where one of its words is wrong.
pub(crate) fn step_with(s: &Statement) -> Option<Step>
    requires first { IfSome s.now.first (λ v. v ≤ most_of (form_of s.now.keyword).first) }
    requires second { IfSome s.now.second (λ v. v ≤ most_of (form_of s.now.keyword).second) }
    requires third { IfSome s.now.third (λ v. v ≤ most_of (form_of s.now.keyword).third) }
    requires fourth { IfSome s.now.fourth (λ v. v ≤ most_of (form_of s.now.keyword).fourth) }
    ensures { result ≡ step_with s.now }
{
    Some(
        s.keyword.step(Values {
            first: s.first?,
            second: s.second?,
            third: s.third?,
            fourth: s.fourth?,
        }),
    )
}
