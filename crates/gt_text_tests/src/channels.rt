//! Texts with channels, and what they spell or why they are refused.

use crate::scripts::{is_read, is_refused};
use gt_model::{Instr, Script, What};
use gt_script::{Why, read_script};
use std::test::Fail;

const WORKED: &[u8] =
    b"gotime script 1\nfunc main\nmake c\nsend c 4294967295\nrecv c\nrecv t\nclose d\nend\nchan c 0\ntimer t\nchan d 1024\n";

fn has_kinds(script: &Script) -> bool {
    match script.decls.as_slice() {
        [main, c, t, d] => {
            matches!(main.what, What::Function)
                && matches!(c.what, What::Chan { cap: 0 })
                && c.name.as_slice() == b"c".as_slice()
                && matches!(t.what, What::Timer)
                && matches!(d.what, What::Chan { cap: 1024 })
        }
        _ => false,
    }
}

fn is_make(instr: &Instr, channel: u32) -> bool {
    match instr {
        Instr::Make { c } => *c == channel,
        _ => false,
    }
}

fn is_send(instr: &Instr, channel: u32, value: u32) -> bool {
    match instr {
        Instr::Send { c, v } => *c == channel && *v == value,
        _ => false,
    }
}

fn is_recv(instr: &Instr, object: u32) -> bool {
    match instr {
        Instr::Recv { o } => *o == object,
        _ => false,
    }
}

fn is_close(instr: &Instr, channel: u32) -> bool {
    match instr {
        Instr::Close { c } => *c == channel,
        _ => false,
    }
}

fn is_main(code: &[Instr]) -> bool {
    match code {
        [made, sent, received, ticked, closed, last] => {
            is_make(made, 1)
                && is_send(sent, 1, 4_294_967_295)
                && is_recv(received, 1)
                && is_recv(ticked, 2)
                && is_close(closed, 3)
                && matches!(last, Instr::Finish)
        }
        _ => false,
    }
}

fn has_code(script: &Script) -> bool {
    match script.funcs.as_slice() {
        [main] => is_main(main.code.as_slice()),
        _ => false,
    }
}

#[test]
fn reads_channels(rt: HostRuntime) {
    match read_script(rt.alloc(), WORKED) {
        Ok(script) => assert!(rt; has_kinds(&script) && has_code(&script)),
        Err(unread) => assert!(rt; false, "{unread:?}"),
    }
    assert!(rt;
        is_read(
            rt.alloc(),
            b"gotime script 1\nchan c 007\nfunc main\nloop 3\nsend c 1\nend\nend\n"
        )
    );
}

#[test]
fn refuses_declared_channels(rt: HostRuntime) {
    let cases: [(&[u8], u32, Why); 12] = [
        (b"gotime script 1\nchan c 1025\n", 2, Why::Number),
        (b"gotime script 1\nchan c -1\n", 2, Why::Number),
        (b"gotime script 1\nchan c 1s\n", 2, Why::Number),
        (b"gotime script 1\nchan c 4294967296\n", 2, Why::Number),
        (b"gotime script 1\nchan\n", 2, Why::Word),
        (b"gotime script 1\nchan c\n", 2, Why::Word),
        (b"gotime script 1\nchan c 1 1\n", 2, Why::Word),
        (b"gotime script 1\nfunc main\nchan c 1\nend\n", 3, Why::Word),
        (b"gotime script 1\nchan root 1\n", 2, Why::Name),
        (b"gotime script 1\nchan 1 c\n", 2, Why::Name),
        (b"gotime script 1\nchan c 1\nchan c 1\n", 3, Why::Twice),
        (b"gotime script 1\ntimer c\nchan c 1025\n", 3, Why::Twice),
    ];
    for (text, line, why) in cases {
        assert!(rt; is_refused(rt.alloc(), text, line, why), "{text:?}");
    }
}

// Texts with one line, the sixth, in the function `main`, behind a channel timer `t`, an AfterFunc timer `a` and a channel `c`.
#[test]
fn refuses_uses_of_channels(rt: HostRuntime) -> Result<(), Fail> {
    for (line, why) in [
        ("make t", Why::Name),
        ("make a", Why::Name),
        ("make main", Why::Name),
        ("make x", Why::Name),
        ("make", Why::Word),
        ("make c 1", Why::Word),
        ("close t", Why::Name),
        ("close", Why::Word),
        ("close c c", Why::Word),
        ("send t 1", Why::Name),
        ("send x 4294967296", Why::Name),
        ("send c 4294967296", Why::Number),
        ("send c -1", Why::Number),
        ("send c c", Why::Number),
        ("send c", Why::Word),
        ("send c 1 1", Why::Word),
        ("recv main", Why::Name),
        ("recv a", Why::Name),
        ("recv x", Why::Name),
        ("recv", Why::Word),
        ("recv c 1", Why::Word),
        ("new c 1ns", Why::Name),
        ("stop c", Why::Name),
        ("reset c 1ns", Why::Name),
        ("go c", Why::Name),
    ] {
        let text = format!(in rt.alloc();
            "gotime script 1\ntimer t\nafterfunc a main\nchan c 1\nfunc main\n{line}\nend\n"
        )?;
        assert!(rt; is_refused(rt.alloc(), text.as_bytes(), 6, why), "{line}");
    }
    Ok(())
}

#[test]
fn refuses_misplaced_channels(rt: HostRuntime) {
    let cases: [(&[u8], u32, Why); 4] = [
        (b"gotime script 1\nchan c 1\nmake c\n", 3, Why::Word),
        (b"gotime script 1\nchan c 1\nsend c 1\n", 3, Why::Word),
        (b"gotime script 1\nchan c 1\nclose c\n", 3, Why::Word),
        (b"gotime script 1\nchan c 1\nafterfunc a c\n", 3, Why::Name),
    ];
    for (text, line, why) in cases {
        assert!(rt; is_refused(rt.alloc(), text, line, why), "{text:?}");
    }
}
