//! How the words of a text are found.

ghost use Rattle.std.specs.Prelude.{◌≡◌, ◌⊎◌, ◌+◌, ◌-◌, ◌^◌, ◌<◌, ◌≤◌, ℕ, ◌∷◌, ◌++◌, [], take, length, IsUtf8, All, IfOk, IfErr, IsOk, OnOk, IsTrue, ◌↔◌};
ghost use Rattle.std.specs.List.{before_first, position_or_len};
ghost use Rattle.std.specs.Str.Lines.{strip_carriage_return};
ghost use Rattle.gt_scan.specs.Tokens.{is_blank, is_line_feed, is_comment, with_token, tokens_of_line, tokens_of, line_number, IsSpan, IsFault};

use crate::token::{ScanFault, Token};
use std::alloc::{AllocError, Global};

fn is_blank(b: u8) -> bool
    ensures { result ≡ is_blank b }
{
    matches!(b, b' ' | b'\t')
}

// Whether the first byte that is no blank begins a comment.
fn is_comment(line: &[u8]) -> bool
    ensures { result ≡ is_comment line.now }
{
    for b in line {
        if !is_blank(*b) {
            return *b == b'#';
        }
    }
    false
}

fn length_of_word(line: &[u8]) -> usize
    ensures { result ≡ position_or_len is_blank line.now }
{
    line.iter().take_while(|b| !is_blank(**b)).count()
}

// The bytes up to the first blank.
fn first_word(line: &[u8]) -> &[u8]
    ensures { result.now ≡ before_first is_blank line.now }
{
    &line[..length_of_word(line)]
}

fn length_of_line(text: &[u8]) -> usize
    ensures { result ≡ position_or_len is_line_feed text.now }
{
    text.iter().take_while(|b| **b != b'\n').count()
}

// The bytes up to the first line feed.
fn first_line(text: &[u8]) -> &[u8]
    ensures { result.now ≡ before_first is_line_feed text.now }
{
    &text[..length_of_line(text)]
}

fn without_return(line: &[u8]) -> &[u8]
    ensures value { result.now ≡ strip_carriage_return line.now }
    ensures length { length result.now ≤ length line.now }
{
    match line {
        [front @ .., b'\r'] => front,
        _ => line,
    }
}

// Adds what stands between two blanks, from the byte `from` on, unless it is empty.
fn add_word(tokens: &mut Vec<Token>, word: &[u8], line: u32, from: usize) -> Result<(), AllocError>
    requires { from + length word.now < 2 ^ 64 }
    ensures tokens { OnOk result (tokens.new.items ≡ tokens.old.items ++ with_token line from word.now []) }
{
    if !word.is_empty() {
        let to = from + word.len();
        tokens.push(Token { line, from, to })?;
    }
    Ok(())
}

// Adds the tokens of a line that starts at the byte `start`.
fn scan_line(
    tokens: &mut Vec<Token>,
    bytes: &[u8],
    line: u32,
    start: usize,
) -> Result<(), AllocError>
    requires { start + length bytes.now < 2 ^ 63 }
    ensures tokens { OnOk result (tokens.new.items ≡ tokens.old.items ++ tokens_of_line line start bytes.now) }
    ensures spans { (n : ℕ) → start + length bytes.now ≤ n → All (IsSpan n) tokens.old.items
        → OnOk result (All (IsSpan n) tokens.new.items) }
{
    if is_comment(bytes) {
        return Ok(());
    }
    let mut at = 0;
    while at <= bytes.len() {
        let word = first_word(&bytes[at..]);
        add_word(tokens, word, line, start + at)?;
        at += word.len() + 1;
    }
    Ok(())
}

// The number of the line behind this front of a text.
fn line_number(front: &[u8]) -> u32
    ensures { result ≡ line_number front.now }
{
    let mut number: u32 = 1;
    for b in front {
        if *b == b'\n' {
            number = number.saturating_add(1);
        }
    }
    number
}

/// The tokens of a text, in order. It takes memory.
///
/// A token is a run of bytes with no space, tab or line end in it that is as long as it can be. A line ends with a line
/// feed, of which one carriage return in front is part, or with the text. A line whose first token would begin with `#` is a
/// comment and has none.
///
/// # Errors
///
/// A text that is not UTF-8 has no tokens; the fault names the line of the first byte that is at fault.
pub fn tokens(alloc: Global, text: &[u8]) -> Result<Vec<Token>, ScanFault>
    ensures tokens { IfOk result (λ tokens. tokens.items ≡ tokens_of text.now) }
    ensures spans { IfOk result (λ tokens. All (IsSpan (length text.now)) tokens.items) }
    ensures utf8 { IsOk result → IsUtf8 text.now }
    // Any other fault than want of memory is the text's.
    ensures fault { IfErr result (λ fault. (fault ≡ ScanFault.NoMemory) ⊎ IsFault text.now fault) }
{
    if let Err(error) = str::from_utf8(text) {
        let (front, _) = text.split_at(error.valid_up_to());
        let line = line_number(front);
        return Err(ScanFault::Utf8 { line });
    }
    let mut tokens = Vec::new(alloc);
    let mut line: u32 = 1;
    let mut at = 0;
    while at <= text.len() {
        let whole = first_line(&text[at..]);
        let next = at + whole.len() + 1;
        let bytes = if next > text.len() {
            whole
        } else {
            without_return(whole)
        };
        scan_line(&mut tokens, bytes, line, at)?;
        line = line.saturating_add(1);
        at = next;
    }
    Ok(tokens)
}
