//! The digit runs of a text, and the units behind them.

ghost use Rattle.std.specs.Prelude.{◌≡◌, ◌+◌, ◌-◌, ◌*◌, ◌^◌, ◌<◌, ◌≤◌, ℕ, ◌∷◌, ◌++◌, not, min, length, IsTrue};
ghost use Rattle.std.specs.List.{All, prefix_len};
ghost use Rattle.std.specs.Option.{option_map};
ghost use Rattle.gt_model.specs.Good.{is_digit};
ghost use Rattle.gt_dur.specs.Pairs.{pairs_of, unit_of, value_of};
ghost use Rattle.gt_dur.specs.Duration.{begins_with_digit, is_at_digits, unmet_place, nanoseconds_of, total_of};

use crate::fault::DurFault;

fn digit_count(text: &[u8]) -> usize
    ensures { result ≡ prefix_len is_digit text.now }
{
    text.iter().take_while(|b| b.is_ascii_digit()).count()
}

fn unit_length(text: &[u8]) -> usize
    ensures { result ≡ prefix_len (λ b. not (is_digit b)) text.now }
{
    text.iter().take_while(|b| !b.is_ascii_digit()).count()
}

// The nanoseconds of a unit. The signs of `µs` and `μs` are U+00B5 and U+03BC.
#[tactic(auto, unfolding(crate::specs::Pairs::unit_of))]
fn nanoseconds(unit: &[u8]) -> Option<u64>
    ensures { result ≡ unit_of unit.now }
{
    match unit {
        b"ns" => Some(1),
        b"us" | b"\xc2\xb5s" | b"\xce\xbcs" => Some(1_000),
        b"ms" => Some(1_000_000),
        b"s" => Some(1_000_000_000),
        b"m" => Some(60_000_000_000),
        b"h" => Some(3_600_000_000_000),
        _ => None,
    }
}

// The value of decimal digits, or the greatest `u64` where it is greater.
fn value(digits: &[u8]) -> u64
    requires { All (λ b. IsTrue (is_digit b)) digits.now }
    ensures { result ≡ min (value_of digits.now) (2 ^ 64 - 1) }
{
    let mut value: u64 = 0;
    for digit in digits {
        value = value
            .saturating_mul(10)
            .saturating_add(u64::from(*digit - b'0'));
    }
    value
}

// The nanoseconds of a digit run and its unit, or the greatest `u64` where they are more; `None` where it is no unit.
fn amount(digits: &[u8], unit: &[u8]) -> Option<u64>
    requires { All (λ b. IsTrue (is_digit b)) digits.now }
    ensures { result ≡ option_map (λ k. min (value_of digits.now * k) (2 ^ 64 - 1)) (unit_of unit.now) }
{
    let scale = nanoseconds(unit)?;
    Some(value(digits).saturating_mul(scale))
}

// The first digit run of a text, the bytes up to the next one, and what stands behind them.
fn first_pair(text: &[u8]) -> (&[u8], &[u8], &[u8])
    requires { IsTrue (begins_with_digit text.now) }
    ensures first { pairs_of text.now
        ≡ record { digits = result.0.now; unit = result.1.now } ∷ pairs_of result.2.now }
    ensures digits { All (λ b. IsTrue (is_digit b)) result.0.now }
    ensures some { 0 < length result.0.now }
    ensures lengths { length result.0.now + length result.1.now + length result.2.now
        ≡ length text.now }
    ensures next { IsTrue (is_at_digits result.2.now) }
{
    let (digits, behind) = text.split_at(digit_count(text));
    let (unit, rest) = behind.split_at(unit_length(behind));
    (digits, unit, rest)
}

/// The sum of a text's pairs in nanoseconds, or the greatest `u64` where it is greater.
pub(crate) fn read_pairs(text: &[u8]) -> Result<u64, DurFault>
    requires { IsTrue (begins_with_digit text.now) }
    ensures { result ≡ total_of (unmet_place text.now) (nanoseconds_of text.now) }
{
    let mut rest = text;
    let mut total: u64 = 0;
    while !rest.is_empty() {
        let (digits, unit, next) = first_pair(rest);
        let Some(amount) = amount(digits, unit) else {
            let at = text.len() - unit.len() - next.len();
            return Err(DurFault::Unit { at });
        };
        total = total.saturating_add(amount);
        rest = next;
    }
    Ok(total)
}
