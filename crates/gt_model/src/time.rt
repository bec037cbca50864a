//! Times, in whole nanoseconds since the program began.

ghost use Rattle.std.specs.Prelude.{◌≡◌, ◌+◌, ◌≤◌, min};
ghost use Rattle.gt_model.specs.Times.{greatest_time};

/// The greatest time: 2^63 - 1 nanoseconds, the greatest duration of Go's package `time`.
pub const CAP: u64 = 9_223_372_036_854_775_807;

/// The time that is `d` nanoseconds after `now`, at most [`CAP`]: it never wraps (Go 1.23, the runtime's `when`).
pub fn due_after(now: u64, d: u64) -> u64
    requires { now ≤ greatest_time }
    ensures { result ≡ min (now + d) greatest_time }
{
    now.saturating_add(d).min(CAP)
}
