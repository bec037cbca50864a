//! Names.

ghost use Rattle.std.specs.Prelude.{◌≡◌};
ghost use Rattle.std.specs.List.{list_all};
ghost use Rattle.gt_model.specs.Good.{is_letter, is_name_byte, is_name};
ghost use Rattle.gt_names.specs.Names.{is_free_name};

use gt_lines::is_text;

fn is_letter(b: u8) -> bool
    ensures { result ≡ is_letter b }
{
    b.is_ascii_lowercase() || b.is_ascii_uppercase()
}

fn is_name_byte(b: u8) -> bool
    ensures { result ≡ is_name_byte b }
{
    is_letter(b) || b.is_ascii_digit() || b == b'_'
}

fn are_name_bytes(word: &[u8]) -> bool
    ensures { result ≡ list_all is_name_byte word.now }
{
    word.iter().all(|b| is_name_byte(*b))
}

fn is_spelled(word: &[u8]) -> bool
    ensures { result ≡ is_name word.now }
{
    match word {
        [] => false,
        [first, rest @ ..] => is_letter(*first) && are_name_bytes(rest) && rest.len() <= 31,
    }
}

/// Whether a word may be declared: a letter, then letters, digits and `_`, at most 32 bytes. `root` is no name.
pub fn is_free_name(word: &[u8]) -> bool
    ensures { result ≡ is_free_name word.now }
{
    is_spelled(word) && !is_text(word, b"root")
}
