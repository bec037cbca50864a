//! Durations, and texts for each fault.

use gt_dur::{DurFault, read_dur};
use std::test::Fail;

#[test]
fn texts_are_read(rt: HostRuntime) -> Result<(), Fail> {
    let mut long = String::new(rt.alloc());
    for _ in 0..1000 {
        long.push('9')?;
    }
    let too_long = format!(in rt.alloc(); "{long}h")?;
    let unmet = format!(in rt.alloc(); "{long}h1x")?;
    for (text, want) in [
        ("0", Ok(0)),
        ("0s", Ok(0)),
        ("00s", Ok(0)),
        ("007ns", Ok(7)),
        ("1us", Ok(1_000)),
        ("1\u{b5}s", Ok(1_000)),
        ("1\u{3bc}s", Ok(1_000)),
        ("5ms", Ok(5_000_000)),
        ("1h2m3s4ms5us6ns", Ok(3_723_004_005_006)),
        ("1ns1h1ns", Ok(3_600_000_000_002)),
        ("9223372036854775807ns", Ok(9_223_372_036_854_775_807)),
        ("9223372036854775808ns", Err(DurFault::Big)),
        ("9223372036854775807ns1ns", Err(DurFault::Big)),
        ("18446744073709551617ns", Err(DurFault::Big)),
        ("2562048h", Err(DurFault::Big)),
        ("99999999999999999999999h1", Err(DurFault::Unit { at: 25 })),
        (too_long.as_str(), Err(DurFault::Big)),
        (unmet.as_str(), Err(DurFault::Unit { at: 1002 })),
        ("", Err(DurFault::Empty)),
        ("ms", Err(DurFault::Digit)),
        ("-1s", Err(DurFault::Digit)),
        ("1.5s", Err(DurFault::Unit { at: 1 })),
        ("1m1", Err(DurFault::Unit { at: 3 })),
        ("00", Err(DurFault::Unit { at: 2 })),
        ("3x4", Err(DurFault::Unit { at: 1 })),
        ("1h 2m", Err(DurFault::Unit { at: 1 })),
    ] {
        assert_eq!(rt; read_dur(text), want, "at {text}");
    }
    Ok(())
}
