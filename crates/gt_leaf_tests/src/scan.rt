//! Words have their places, at texts that were worked out by hand.

use gt_scan::{ScanFault, Token, tokens};
use std::test::Fail;

#[test]
fn words_have_their_places(rt: HostRuntime) -> Result<(), Fail> {
    for (text, want) in [
        (b"".as_slice(), [].as_slice()),
        (b"ab  c\n", [(1, 0, 2), (1, 4, 5)].as_slice()),
        (
            b" \r\n\tx#\r\n# y\n\t#z\n\xc2\xb5\r\r\nq\r",
            [(2, 4, 6), (5, 16, 19), (6, 21, 23)].as_slice(),
        ),
    ] {
        let found = tokens(rt.alloc(), text)?;
        assert_eq!(rt; found.len(), want.len());
        for (token, (line, from, to)) in found.iter().zip(want) {
            assert_eq!(rt;
                *token,
                Token {
                    line: *line,
                    from: *from,
                    to: *to
                }
            );
        }
    }
    Ok(())
}

#[test]
fn bytes_that_are_no_text_are_refused(rt: HostRuntime) -> Result<(), Fail> {
    for (text, line) in [(b"\xff".as_slice(), 1), (b"# a\n\r\xc2\n\xff", 2)] {
        assert_eq!(rt;
            tokens(rt.alloc(), text).err(),
            Some(ScanFault::Utf8 { line })
        );
    }
    Ok(())
}
