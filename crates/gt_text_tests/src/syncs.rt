//! Texts with mutexes, WaitGroups and Conds, and what they spell or why they are refused.

use crate::scripts::{is_read, is_refused};
use gt_model::{Instr, Script, What};
use gt_script::{Why, read_script};
use std::test::Fail;

const WORKED: &[u8] =
    b"gotime script 1\nmutex m\nwg w\nfunc main\nadd w 2\nlock m\nunlock m\ndone w\nadd w -1\nwait w\nend\n";

fn has_kinds(script: &Script) -> bool {
    match script.decls.as_slice() {
        [m, w, main] => {
            matches!(m.what, What::Mutex)
                && m.name.as_slice() == b"m".as_slice()
                && matches!(w.what, What::Wg)
                && w.name.as_slice() == b"w".as_slice()
                && matches!(main.what, What::Function)
        }
        _ => false,
    }
}

fn is_main(code: &[Instr]) -> bool {
    match code {
        [
            Instr::Add { w: 1, n: 2 },
            Instr::Lock { m: 0 },
            Instr::Unlock { m: 0 },
            Instr::Add { w: 1, n: -1 },
            Instr::Add { w: 1, n: -1 },
            Instr::Wait { w: 1 },
            Instr::Finish,
        ] => true,
        _ => false,
    }
}

fn has_code(script: &Script) -> bool {
    match script.funcs.as_slice() {
        [main] => is_main(main.code.as_slice()),
        _ => false,
    }
}

#[test]
fn reads_mutexes_and_wait_groups(rt: HostRuntime) {
    match read_script(rt.alloc(), WORKED) {
        Ok(script) => assert!(rt; has_kinds(&script) && has_code(&script)),
        Err(unread) => assert!(rt; false, "{unread:?}"),
    }
    // a name may be used before its line
    assert!(rt;
        is_read(
            rt.alloc(),
            b"gotime script 1\nfunc main\nlock m\nwait w\nend\nwg w\nmutex m\n"
        )
    );
    // words of instructions and declarations are names too
    assert!(rt;
        is_read(
            rt.alloc(),
            b"gotime script 1\nmutex lock\nwg wg\nfunc main\nlock lock\ndone wg\nend\n"
        )
    );
}

// What the one `add` of a script adds.
fn added(script: &Script) -> Option<i64> {
    match script.funcs.as_slice() {
        [main] => match main.code.as_slice() {
            [Instr::Add { n, .. }, Instr::Finish] => Some(*n),
            _ => None,
        },
        _ => None,
    }
}

#[test]
fn reads_what_is_added(rt: HostRuntime) -> Result<(), Fail> {
    for (word, n) in [
        ("0", 0),
        ("-0", 0),
        ("7", 7),
        ("-7", -7),
        ("007", 7),
        ("-007", -7),
        ("1000000", 1_000_000),
        ("-1000000", -1_000_000),
        ("0000000000000001000000", 1_000_000),
    ] {
        let text = format!(in rt.alloc(); "gotime script 1\nwg w\nfunc main\nadd w {word}\nend\n")?;
        match read_script(rt.alloc(), text.as_bytes()) {
            Ok(script) => assert!(rt; added(&script) == Some(n), "{word}"),
            Err(_) => assert!(rt; false, "{word}"),
        }
    }
    Ok(())
}

#[test]
fn refuses_what_is_added(rt: HostRuntime) -> Result<(), Fail> {
    for word in [
        "1000001",
        "-1000001",
        "2000000",
        "-",
        "--1",
        "+1",
        "1-",
        "-1-",
        "1ns",
        "w",
        "4294967297",
        "-18446744073709551617",
    ] {
        let text = format!(in rt.alloc(); "gotime script 1\nwg w\nfunc main\nadd w {word}\nend\n")?;
        assert!(rt;
            is_refused(rt.alloc(), text.as_bytes(), 4, Why::Number),
            "{word}"
        );
    }
    Ok(())
}

#[test]
fn refuses_declared_mutexes_and_wait_groups(rt: HostRuntime) {
    let cases: [(&[u8], u32, Why); 9] = [
        (b"gotime script 1\nmutex\n", 2, Why::Word),
        (b"gotime script 1\nwg\n", 2, Why::Word),
        (b"gotime script 1\nmutex m n\n", 2, Why::Word),
        (b"gotime script 1\nwg w 1\n", 2, Why::Word),
        (b"gotime script 1\nwaitgroup w\n", 2, Why::Word),
        (b"gotime script 1\nfunc main\nmutex m\nend\n", 3, Why::Word),
        (b"gotime script 1\nwg root\n", 2, Why::Name),
        (b"gotime script 1\nmutex m\nwg m\n", 3, Why::Twice),
        (b"gotime script 1\nmutex main\n", 2, Why::NoMain),
    ];
    for (text, line, why) in cases {
        assert!(rt; is_refused(rt.alloc(), text, line, why), "{text:?}");
    }
}

// Texts with lines behind `func main`, which is the sixth line, behind a mutex `m`, a WaitGroup `w`, a channel `c` and a timer `t`: the faulty one
// has a number.
#[test]
fn refuses_uses_of_mutexes_and_wait_groups(rt: HostRuntime) -> Result<(), Fail> {
    for (lines, line, why) in [
        ("lock x\nend\n", 7, Why::Name),
        ("lock w\nend\n", 7, Why::Name),
        ("unlock c\nend\n", 7, Why::Name),
        ("add m 1\nend\n", 7, Why::Name),
        ("wait t\nend\n", 7, Why::Name),
        ("recv m\nend\n", 7, Why::Name),
        ("recv w\nend\n", 7, Why::Name),
        ("send m 1\nend\n", 7, Why::Name),
        ("new m 1ms\nend\n", 7, Why::Name),
        ("select\ncase recv m\nend\nend\n", 8, Why::Name),
        ("select\ncase lock m\nend\nend\n", 8, Why::Word),
        ("select\nlock m\nend\nend\n", 8, Why::Select),
        ("add m 1000001\nend\n", 7, Why::Name),
        ("add w 1 2\nend\n", 7, Why::Word),
        ("add w - 1\nend\n", 7, Why::Word),
        ("done w 1\nend\n", 7, Why::Word),
        ("say -1\nend\n", 7, Why::Number),
        ("end\nlock m\n", 8, Why::Word),
    ] {
        let text = format!(in rt.alloc();
            "gotime script 1\nmutex m\nwg w\nchan c 1\ntimer t\nfunc main\n{lines}"
        )?;
        assert!(rt;
            is_refused(rt.alloc(), text.as_bytes(), line, why),
            "{lines}"
        );
    }
    Ok(())
}

const CONDS: &[u8] =
    b"gotime script 1\ncond k m\nfunc main\nlock m\ncwait k\nsignal k\nbroadcast k\nend\nmutex m\n";

// Whether the Cond of `CONDS` has its mutex, which is declared last.
fn has_cond(script: &Script) -> bool {
    match script.decls.as_slice() {
        [k, main, m] => {
            matches!(k.what, What::Cond { mutex: 2 })
                && k.name.as_slice() == b"k".as_slice()
                && matches!(main.what, What::Function)
                && matches!(m.what, What::Mutex)
        }
        _ => false,
    }
}

fn uses_cond(script: &Script) -> bool {
    match script.funcs.as_slice() {
        [main] => match main.code.as_slice() {
            [
                Instr::Lock { m: 2 },
                Instr::CWait { k: 0 },
                Instr::Signal { k: 0 },
                Instr::Broadcast { k: 0 },
                Instr::Finish,
            ] => true,
            _ => false,
        },
        _ => false,
    }
}

#[test]
fn reads_conds(rt: HostRuntime) {
    match read_script(rt.alloc(), CONDS) {
        Ok(script) => assert!(rt; has_cond(&script) && uses_cond(&script)),
        Err(unread) => assert!(rt; false, "{unread:?}"),
    }
    // two Conds may have one mutex, and a Cond may be used before its line
    assert!(rt;
        is_read(
            rt.alloc(),
            b"gotime script 1\nfunc main\ncwait k\nsignal l\nend\nmutex m\ncond k m\ncond l m\n"
        )
    );
    // words of instructions and declarations are names too
    assert!(rt;
        is_read(
            rt.alloc(),
            b"gotime script 1\nmutex cwait\ncond cond cwait\nfunc main\ncwait cond\nend\n"
        )
    );
}

#[test]
fn refuses_declared_conds(rt: HostRuntime) {
    let cases: [(&[u8], u32, Why); 14] = [
        (b"gotime script 1\ncond\n", 2, Why::Word),
        (b"gotime script 1\ncond k\n", 2, Why::Word),
        (b"gotime script 1\nmutex m\ncond k m m\n", 3, Why::Word),
        (b"gotime script 1\nmutex m\nCond k m\n", 3, Why::Word),
        (
            b"gotime script 1\nmutex m\nfunc main\ncond k m\nend\n",
            4,
            Why::Word,
        ),
        (b"gotime script 1\ncond k m\nfunc main\nend\n", 2, Why::Name),
        (b"gotime script 1\ncond k k\nfunc main\nend\n", 2, Why::Name),
        (b"gotime script 1\nwg w\ncond k w\n", 3, Why::Name),
        (b"gotime script 1\nchan c 0\ncond k c\n", 3, Why::Name),
        (
            b"gotime script 1\nfunc main\nend\ncond k main\n",
            4,
            Why::Name,
        ),
        (b"gotime script 1\nmutex m\ncond root m\n", 3, Why::Name),
        (b"gotime script 1\nmutex m\ncond m m\n", 3, Why::Twice),
        // the first declaration of a name counts
        (b"gotime script 1\ncond m m\nmutex m\n", 2, Why::Name),
        (b"gotime script 1\nmutex m\ncond main m\n", 3, Why::NoMain),
    ];
    for (text, line, why) in cases {
        assert!(rt; is_refused(rt.alloc(), text, line, why), "{text:?}");
    }
}

// Texts with lines behind `func main`, which is the fifth line, behind a mutex `m`, a WaitGroup `w` and a Cond `k`: the faulty one has a number.
#[test]
fn refuses_uses_of_conds(rt: HostRuntime) -> Result<(), Fail> {
    for (lines, line, why) in [
        ("cwait x\nend\n", 6, Why::Name),
        ("cwait m\nend\n", 6, Why::Name),
        ("signal w\nend\n", 6, Why::Name),
        ("broadcast main\nend\n", 6, Why::Name),
        ("lock k\nend\n", 6, Why::Name),
        ("unlock k\nend\n", 6, Why::Name),
        ("wait k\nend\n", 6, Why::Name),
        ("done k\nend\n", 6, Why::Name),
        ("recv k\nend\n", 6, Why::Name),
        ("send k 1\nend\n", 6, Why::Name),
        ("new k 1ms\nend\n", 6, Why::Name),
        ("go k\nend\n", 6, Why::Name),
        ("select\ncase recv k\nend\nend\n", 7, Why::Name),
        ("select\ncase cwait k\nend\nend\n", 7, Why::Word),
        ("select\ncwait k\nend\nend\n", 7, Why::Select),
        ("cwait\nend\n", 6, Why::Word),
        ("cwait k m\nend\n", 6, Why::Word),
        ("signal k 1\nend\n", 6, Why::Word),
        ("broadcast k k\nend\n", 6, Why::Word),
        ("cwake k\nend\n", 6, Why::Word),
        ("end\nsignal k\n", 7, Why::Word),
    ] {
        let text = format!(in rt.alloc();
            "gotime script 1\nmutex m\nwg w\ncond k m\nfunc main\n{lines}"
        )?;
        assert!(rt;
            is_refused(rt.alloc(), text.as_bytes(), line, why),
            "{lines}"
        );
    }
    Ok(())
}
