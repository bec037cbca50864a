//! What depends on the kind of a record alone.

ghost use Rattle.std.specs.Prelude.{◌≡◌};
ghost use Rattle.gt_chtimer.specs.Kinds.{answer_by, setting_period};

use gt_rec::RecKind;

/// What ending a setting, or renewing it, answers, by whether the timer was set: nothing of a ticker (Go 1.23, package time).
pub(crate) fn answer_of(kind: RecKind, was_set: bool) -> Option<bool>
    ensures { result ≡ answer_by kind was_set }
{
    match kind {
        RecKind::Ticker => None,
        RecKind::Timer | RecKind::Func | RecKind::Sleep | RecKind::Deadline => Some(was_set),
    }
}

/// The time between the ticks of a setting that is made with a duration: 0 but for a ticker.
pub(crate) fn period_of(kind: RecKind, d: u64) -> u64
    ensures { result ≡ setting_period kind d }
{
    match kind {
        RecKind::Ticker => d,
        RecKind::Timer | RecKind::Func | RecKind::Sleep | RecKind::Deadline => 0,
    }
}
