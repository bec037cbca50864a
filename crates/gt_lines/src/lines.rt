//! The lines of a text, and the words of a line.

ghost use Rattle.std.specs.Prelude.{◌≡◌, ◌==◌, ◌<◌, [], ◌∷◌, length, position, not, IfSome, MatchOption};
ghost use Rattle.std.specs.Str.{bytes_eq};
ghost use Rattle.std.specs.Str.Lines.{lines, strip_carriage_return};
ghost use Rattle.gt_lines.specs.Words.{is_blank, words_of, is_comment, lines_from};
ghost use Rattle.gt_lines.specs.Lines.{lines_at};

/// A line that counts: one with words that is no comment.
#[derive(Clone, Copy)]
pub struct Line<'a> {
    /// Its number in the text, counted from 1.
    pub number: u32,
    /// Its first word.
    pub word: &'a [u8],
    /// What stands behind that word on the line.
    pub rest: &'a [u8],
    /// What stands behind the line.
    pub after: &'a [u8],
}

fn first_line_feed(text: &[u8]) -> Option<usize>
    ensures { result ≡ position (λ b. b == 10) text.now }
{
    text.iter().position(|b| *b == b'\n')
}

fn without_return(line: &[u8]) -> &[u8]
    ensures { result.now ≡ strip_carriage_return line.now }
{
    match line {
        [front @ .., b'\r'] => front,
        _ => line,
    }
}

// The first line of a text, without its end, and what stands behind it; `None` for an empty text.
fn first_line(text: &[u8]) -> Option<(&[u8], &[u8])>
    ensures first { MatchOption result (lines text.now ≡ []) (λ r. lines text.now ≡ r.0.now ∷ lines r.1.now) }
    ensures shorter { IfSome result (λ r. length r.1.now < length text.now) }
{
    if text.is_empty() {
        return None;
    }
    match first_line_feed(text) {
        None => Some((text, &text[text.len()..])),
        Some(at) => Some((without_return(&text[..at]), &text[at + 1..])),
    }
}

fn is_blank(b: u8) -> bool
    ensures { result ≡ is_blank b }
{
    b == b' ' || b == b'\t'
}

fn first_blank(line: &[u8]) -> Option<usize>
    ensures { result ≡ position is_blank line.now }
{
    line.iter().position(|b| is_blank(*b))
}

fn first_non_blank(line: &[u8]) -> Option<usize>
    ensures { result ≡ position (λ b. not (is_blank b)) line.now }
{
    line.iter().position(|b| !is_blank(*b))
}

/// The first word of a line, and what stands behind it; `None` for a line without words.
pub fn first_word(line: &[u8]) -> Option<(&[u8], &[u8])>
    ensures { MatchOption result (words_of line.now ≡ []) (λ r. words_of line.now ≡ r.0.now ∷ words_of r.1.now) }
{
    let start = first_non_blank(line)?;
    let (_, rest) = line.split_at(start);
    match first_blank(rest) {
        None => Some(rest.split_at(rest.len())),
        Some(end) => Some(rest.split_at(end)),
    }
}

/// Whether a word is this text.
pub fn is_text(word: &[u8], text: &[u8]) -> bool
    ensures { result ≡ bytes_eq word.now text.now }
{
    word == text
}

fn is_comment(word: &[u8]) -> bool
    ensures { result ≡ is_comment word.now }
{
    matches!(word, [b'#', ..])
}

/// The next line of a text that counts; `None` where there is none. The first line of the text has this number.
pub fn next_line(text: &[u8], number: u32) -> Option<Line<'_>>
    ensures next { lines_at result ≡ lines_from number text.now }
    ensures shorter { IfSome result (λ line. length line.after.now < length text.now) }
{
    let mut left = text;
    let mut at = number;
    while let Some((line, after)) = first_line(left) {
        if let Some((word, rest)) = first_word(line) {
            if !is_comment(word) {
                return Some(Line {
                    number: at,
                    word,
                    rest,
                    after,
                });
            }
        }
        left = after;
        at = at.saturating_add(1);
    }
    None
}
