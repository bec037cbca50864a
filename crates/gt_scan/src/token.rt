//! A token, and why a text has none.

ghost use Rattle.std.specs.Prelude.{◌≡◌};
ghost use Rattle.gt_scan.specs.declared.token.ScanFault.TheVariants.{NoMemory};

use std::alloc::AllocError;
use thiserror::Error;

/// A word of a text: the bytes from the place `from`, counted from 0, up to the place `to`.
#[derive(Clone, Copy, Debug, PartialEq, Eq)]
pub struct Token {
    /// The number of its line, counted from 1. It stands still at the greatest `u32`.
    pub line: u32,
    /// The place of its first byte.
    pub from: usize,
    /// The place behind its last byte.
    pub to: usize,
}

/// Why a text has no tokens.
#[derive(Clone, Copy, Debug, PartialEq, Eq, Error)]
pub enum ScanFault {
    /// The text is not UTF-8. The first byte that is at fault stands on the line `line`.
    #[error("line {line}: utf8")]
    Utf8 { line: u32 },
    /// Memory ran out.
    #[error("no memory")]
    NoMemory,
}

impl From<AllocError> for ScanFault {
    ghost from_gives = { λ _ fault. fault ≡ NoMemory };

    fn from(_: AllocError) -> ScanFault {
        ScanFault::NoMemory
    }
}
