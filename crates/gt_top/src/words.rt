//! The words of the command line, behind the program's name.

ghost use Rattle.std.specs.Prelude.{◌≡◌, map, string_bytes};
ghost use Rattle.gt_top.specs.Words.{is_option, limit_after, limit_of, order_of};

use gt_lines::read_number;
use gt_model::MOST_ENTRIES;

/// How many entries a run may have where no word says it.
pub const DEFAULT_LIMIT: u64 = 10_000;

/// What the words ask for.
#[derive(Clone, Copy, Debug, PartialEq, Eq)]
pub enum Order {
    /// `sim`: run a script, its clock jumping where the program waits for it.
    Sim {
        /// How many entries the run may have, its end not counted: 1 to [`MOST_ENTRIES`].
        limit: u64,
    },
}

/// Why words are no command line.
#[derive(Clone, Copy, Debug, PartialEq, Eq)]
pub enum WordFault {
    /// There is no first word, or it is no command.
    Command,
    /// The words behind the command are not of its form.
    Form,
    /// The form is right, and a value is no number in its range.
    Number,
}

/// The order that the words mean: `sim`, and behind it `-l LIMIT` where the limit is not [`DEFAULT_LIMIT`].
///
/// # Errors
/// The first fault: the command, then the form of what follows it, then its numbers.
pub fn read_words(words: &[String]) -> Result<Order, WordFault>
    ensures { result ≡ order_of (map string_bytes words.now) }
{
    match words {
        [] => Err(WordFault::Command),
        [command, others @ ..] => match command.as_bytes() {
            b"sim" => Ok(Order::Sim {
                limit: read_limit(others)?,
            }),
            _ => Err(WordFault::Command),
        },
    }
}

/// The limit that the words behind a command give.
fn read_limit(words: &[String]) -> Result<u64, WordFault>
    ensures { result ≡ limit_after (map string_bytes words.now) }
{
    match words {
        [] => Ok(DEFAULT_LIMIT),
        [option, value] if option.as_bytes() == b"-l".as_slice() && !is_option(value.as_bytes()) =>
            { limit_of(value.as_bytes()) }
        _ => Err(WordFault::Form),
    }
}

/// Whether a word is an option and no value: a `-` with more behind it.
fn is_option(word: &[u8]) -> bool
    ensures { result ≡ is_option word.now }
{
    matches!(word, [b'-', _, ..])
}

fn limit_of(value: &[u8]) -> Result<u64, WordFault>
    ensures { result ≡ limit_of value.now }
{
    match read_number(value).map(u64::from) {
        Some(limit) if limit >= 1 && limit <= MOST_ENTRIES => Ok(limit),
        _ => Err(WordFault::Number),
    }
}
