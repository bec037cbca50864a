//! Texts with tickers, and what they spell or why they are refused.

use crate::scripts::{is_read, is_refused};
use gt_model::{Instr, Script, What};
use gt_script::{Why, read_script};
use std::test::Fail;

const WORKED: &[u8] =
    b"gotime script 1\ntimer t\nticker k\nfunc main\nnew k 10ms\nrecv k\nstop k\nreset k 0\nend\n";

fn has_kinds(script: &Script) -> bool {
    match script.decls.as_slice() {
        [t, k, main] => {
            matches!(t.what, What::Timer)
                && matches!(k.what, What::Ticker)
                && k.name.as_slice() == b"k".as_slice()
                && matches!(main.what, What::Function)
        }
        _ => false,
    }
}

fn is_main(code: &[Instr]) -> bool {
    match code {
        [
            Instr::New {
                t: 1,
                d: 10_000_000,
            },
            Instr::Recv { o: 1 },
            Instr::Stop { t: 1 },
            Instr::Reset { t: 1, d: 0 },
            Instr::Finish,
        ] => true,
        _ => false,
    }
}

fn has_code(script: &Script) -> bool {
    match script.funcs.as_slice() {
        [main] => is_main(main.code.as_slice()),
        _ => false,
    }
}

#[test]
fn reads_tickers(rt: HostRuntime) {
    match read_script(rt.alloc(), WORKED) {
        Ok(script) => assert!(rt; has_kinds(&script) && has_code(&script)),
        Err(unread) => assert!(rt; false, "{unread:?}"),
    }
    // a name may be used before its line
    assert!(rt;
        is_read(
            rt.alloc(),
            b"gotime script 1\nfunc main\nrecv k\nend\nticker k\n"
        )
    );
    // without a default a select receives from as many tickers as it likes
    assert!(rt;
        is_read(
            rt.alloc(),
            b"gotime script 1\nticker k\nticker l\nfunc main\nselect\ncase recv k\ncase recv l\nend\nend\n"
        )
    );
    assert!(rt;
        is_read(
            rt.alloc(),
            b"gotime script 1\nticker k\nfunc main\nselect\ncase recv k\ndefault\nend\nend\n"
        )
    );
}

#[test]
fn refuses_declared_tickers(rt: HostRuntime) {
    let cases: [(&[u8], u32, Why); 10] = [
        (b"gotime script 1\nticker\n", 2, Why::Word),
        (b"gotime script 1\nticker k l\n", 2, Why::Word),
        (b"gotime script 1\nticker k 1ms\n", 2, Why::Word),
        (b"gotime script 1\nTicker k\n", 2, Why::Word),
        (b"gotime script 1\nfunc main\nticker k\nend\n", 3, Why::Word),
        (b"gotime script 1\nticker root\n", 2, Why::Name),
        (b"gotime script 1\nticker 1\n", 2, Why::Name),
        (b"gotime script 1\nticker k\nticker k\n", 3, Why::Twice),
        (b"gotime script 1\ntimer k\nticker k\n", 3, Why::Twice),
        (b"gotime script 1\nticker main\n", 2, Why::NoMain),
    ];
    for (text, line, why) in cases {
        assert!(rt; is_refused(rt.alloc(), text, line, why), "{text:?}");
    }
}

// Texts with lines behind `func main`, which is the fifth line, behind a timer `t`, a ticker `k` and a channel `c`: the faulty one has a number.
#[test]
fn refuses_uses_of_tickers(rt: HostRuntime) -> Result<(), Fail> {
    for (lines, line, why) in [
        ("new x 1ms\nend\n", 6, Why::Name),
        ("stop x\nend\n", 6, Why::Name),
        ("reset x 1ms\nend\n", 6, Why::Name),
        ("recv x\nend\n", 6, Why::Name),
        ("stop c\nend\n", 6, Why::Name),
        ("send k 1\nend\n", 6, Why::Name),
        ("make k\nend\n", 6, Why::Name),
        ("close k\nend\n", 6, Why::Name),
        ("go k\nend\n", 6, Why::Name),
        ("select\ncase send k 1\nend\nend\n", 7, Why::Name),
        ("new k\nend\n", 6, Why::Word),
        ("new k -1\nend\n", 6, Why::Number),
        ("stop k 1ms\nend\n", 6, Why::Word),
        (
            "select\ncase recv t\ncase recv k\ndefault\nend\nend\n",
            9,
            Why::Select,
        ),
        (
            "select\ncase recv k\ncase recv c\ncase recv k\ndefault\nend\nend\n",
            10,
            Why::Select,
        ),
    ] {
        let text = format!(in rt.alloc();
            "gotime script 1\ntimer t\nticker k\nchan c 1\nfunc main\n{lines}"
        )?;
        assert!(rt;
            is_refused(rt.alloc(), text.as_bytes(), line, why),
            "{lines}"
        );
    }
    Ok(())
}
