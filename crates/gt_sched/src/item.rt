//! The items of a schedule's text.

ghost use Rattle.std.specs.Prelude.{◌≡◌, ◌+◌, ◌-◌, ◌^◌, ◌<◌, ◌≤◌, ◌&&◌, ℕ, false, min, length, IsTrue, MatchResult, MatchOption};
ghost use Rattle.std.specs.List.{before_first, position_or_len};
ghost use Rattle.std.specs.Option.{option_map};
ghost use Rattle.gt_sched.specs.Numbers.{is_number, value_of};
ghost use Rattle.gt_sched.specs.Items.{is_blank, is_x, run_of, capped, fault_in};

use crate::fault::SchedFault;

/// So many turns of one worker. Numbers above 2^64 - 1 count as it.
#[derive(Clone, Copy)]
pub(crate) struct Run {
    pub(crate) worker: u64,
    pub(crate) count: u64,
}

fn is_blank(b: u8) -> bool
    ensures { result ≡ is_blank b }
{
    matches!(b, b' ' | b'\t' | b'\r' | b'\n')
}

// How many bytes stand in front of the first blank.
fn length_of_part(text: &[u8]) -> usize
    ensures { result ≡ position_or_len is_blank text.now }
{
    text.iter().take_while(|b| !is_blank(**b)).count()
}

/// The bytes up to the first blank, or all where there is none.
pub(crate) fn first_part(text: &[u8]) -> &[u8]
    ensures { result.now ≡ before_first is_blank text.now }
{
    &text[..length_of_part(text)]
}

// The value of a digit run, or the greatest `u64` where it is greater; `None` where it is no digit run.
fn number(bytes: &[u8]) -> Option<u64>
    ensures { MatchOption result (is_number bytes.now ≡ false) (λ n. IsTrue (is_number bytes.now) × (n ≡ min (value_of bytes.now) (2 ^ 64 - 1))) }
{
    if bytes.is_empty() {
        return None;
    }
    let mut value: u64 = 0;
    for digit in bytes {
        if !digit.is_ascii_digit() {
            return None;
        }
        value = value
            .saturating_mul(10)
            .saturating_add(u64::from(*digit - b'0'));
    }
    Some(value)
}

// The place of the first `x`, or the length where there is none.
fn place_of_x(item: &[u8]) -> usize
    ensures { result ≡ position_or_len is_x item.now }
{
    item.iter().take_while(|b| **b != b'x').count()
}

// The turns that an item asks for.
fn turns_asked(item: &[u8]) -> Option<Run>
    ensures { result ≡ option_map capped (run_of item.now) }
{
    if let Some(worker) = number(item) {
        return Some(Run { worker, count: 1 });
    }
    let x = place_of_x(item);
    if x == item.len() {
        return None;
    }
    let worker = number(&item[..x])?;
    let count = number(&item[x + 1..])?;
    Some(Run { worker, count })
}

/// The turns that the item at the byte `at` asks for, or its fault. Workers are numbered below `ps`.
pub(crate) fn read_run(item: &[u8], at: usize, ps: u32) -> Result<Run, SchedFault>
    requires { ps ≤ 16 }
    ensures ok { MatchResult result (λ r. (option_map capped (run_of item.now) ≡ Some r) × (r.worker < ps)) (λ _. Unit {0}) }
    ensures fault { MatchResult result (λ _. fault_in ps (record { at = at; bytes = item.now }) ≡ None) (λ e. fault_in ps (record { at = at; bytes = item.now }) ≡ Some e) }
{
    match turns_asked(item) {
        None => Err(SchedFault::Item { at }),
        Some(run) => {
            if run.worker < u64::from(ps) {
                Ok(run)
            } else {
                Err(SchedFault::Worker { at })
            }
        }
    }
}
