//! The reader of durations.

ghost use Rattle.std.specs.Prelude.{◌≡◌, ◌≢◌, ◌<◌, ◌≤◌, ◌↔◌, ℕ, [], codes, IsErrOf, IsTrue};
ghost use Rattle.gt_model.specs.Times.{greatest_time};
ghost use Rattle.gt_dur.specs.Pairs.{pairs_of, SplitsInto};
ghost use Rattle.gt_dur.specs.Duration.{begins_with_digit, BeginsWithoutDigit, is_duration, nanoseconds_of, unmet_place, capped, read_of};

use crate::fault::DurFault;
use crate::pairs::read_pairs;
use gt_model::CAP;

fn begins_with_digit(text: &[u8]) -> bool
    ensures { result ≡ begins_with_digit text.now }
{
    text.first().is_some_and(|b| b.is_ascii_digit())
}

fn capped(nanoseconds: u64) -> Result<u64, DurFault>
    ensures { result ≡ capped nanoseconds }
{
    if nanoseconds <= CAP {
        Ok(nanoseconds)
    } else {
        Err(DurFault::Big)
    }
}

fn read_bytes(text: &[u8]) -> Result<u64, DurFault>
    ensures { result ≡ read_of text.now }
{
    if text.is_empty() {
        return Err(DurFault::Empty);
    }
    if text == b"0".as_slice() {
        return Ok(0);
    }
    if !begins_with_digit(text) {
        return Err(DurFault::Digit);
    }
    capped(read_pairs(text)?)
}

/// The duration that a text spells, in nanoseconds, at most [`CAP`].
///
/// A duration is the text `0`, or one or more pairs of a digit run and a unit. The units are `ns`, `us` (also `µs`, with
/// U+00B5 or U+03BC), `ms`, `s`, `m` and `h`, as in Go's `time.ParseDuration`. They may come in any order and more than
/// once, and the value is the sum. Leading zeros are accepted, signs and fractions are not.
pub fn read_dur(text: &str) -> Result<u64, DurFault>
    ensures reading { result ≡ read_of text.now }

    // What the clauses below take as the pairs of a text are its digit runs and their units.
    ensures pairs { SplitsInto text.now (pairs_of text.now) }

    // A duration that a clock can show.
    ensures duration { (n : ℕ) → ((result ≡ Ok n)
        ↔ (IsTrue (is_duration text.now) × (nanoseconds_of text.now ≡ n) × (n ≤ greatest_time))) }

    // When each fault comes.
    ensures empty { IsErrOf result DurFault.Empty ↔ (text.now ≡ []) }
    ensures digit { IsErrOf result DurFault.Digit ↔ BeginsWithoutDigit text.now }
    ensures unit { (at : ℕ) → (IsErrOf result (DurFault.Unit at)
        ↔ (IsTrue (begins_with_digit text.now) × (text.now ≢ codes "0") × (unmet_place text.now ≡ Some at))) }
    ensures big { IsErrOf result DurFault.Big
        ↔ (IsTrue (is_duration text.now) × (greatest_time < nanoseconds_of text.now)) }
{
    read_bytes(text.as_bytes())
}
