//! Why a text is no duration.

/// Why a text is no duration.
#[derive(Clone, Copy, Debug, PartialEq, Eq)]
pub enum DurFault {
    /// The text is empty.
    Empty,
    /// The first byte is no digit.
    Digit,
    /// No unit stands behind a digit run. The first such run ends in front of the byte `at`, counted from 0.
    Unit { at: usize },
    /// The duration is above 2^63 - 1 nanoseconds.
    Big,
}
