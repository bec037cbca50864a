//! Numbers.

ghost use Rattle.std.specs.Prelude.{◌≡◌, ◌-◌, ◌^◌, ◌≤◌, IsTrue, min};
ghost use Rattle.std.specs.List.{All, list_all};
ghost use Rattle.gt_model.specs.Good.{is_digit};
ghost use Rattle.gt_lines.specs.Number.{number_of, value_of};

// The value of decimal digits, or the greatest `u64` where it is greater.
fn value(digits: &[u8]) -> u64
    requires { All (λ b. IsTrue (is_digit b)) digits.now }
    ensures { result ≡ min (value_of digits.now) (2 ^ 64 - 1) }
{
    let mut value: u64 = 0;
    for digit in digits {
        value = value
            .saturating_mul(10)
            .saturating_add(u64::from(*digit - b'0'));
    }
    value
}

fn are_digits(word: &[u8]) -> bool
    ensures { result ≡ list_all is_digit word.now }
{
    word.iter().all(|b| b.is_ascii_digit())
}

/// The number that a word spells: one or more decimal digits, of which the first ones may be 0. `None` for another word, and for a number above 32 bits.
pub fn read_number(word: &[u8]) -> Option<u32>
    ensures { result ≡ number_of word.now }
{
    if word.is_empty() || !are_digits(word) {
        return None;
    }
    u32::try_from(value(word)).ok()
}
