//! Texts, and what they spell or why they are refused.

use gt_model::{Instr, Script, What};
use gt_script::{Unread, Why, read_script};
use std::test::Fail;

pub(crate) fn is_refused(alloc: std::alloc::Global, text: &[u8], line: u32, why: Why) -> bool {
    match read_script(alloc, text) {
        Err(Unread::Refused { fault }) => fault.line == line && fault.why == why,
        _ => false,
    }
}

pub(crate) fn is_read(alloc: std::alloc::Global, text: &[u8]) -> bool {
    read_script(alloc, text).is_ok()
}

#[test]
fn refuses_heads_and_ends(rt: HostRuntime) {
    let cases: [(&[u8], u32, Why); 14] = [
        (b"", 1, Why::Head),
        (b"# only this\n\n", 1, Why::Head),
        (b"\n\ntimer t\n", 3, Why::Head),
        (b"gotime script 01\nfunc main\nend\n", 1, Why::Head),
        (b"gotime script 1\n", 1, Why::NoMain),
        (b"gotime script 1\nfunc f\nend\n", 3, Why::NoMain),
        (b"gotime script 1\ntimer main\n", 2, Why::NoMain),
        (b"gotime script 1\nfunc main\nnow\n", 3, Why::Missing),
        (b"gotime script 1\nfunc main\nsleep x", 3, Why::Missing),
        (b"gotime script 1\nfunc main\nstop x", 3, Why::Name),
        (b"gotime script 1\nfunc f", 2, Why::Missing),
        (b"gotime script 1\nend\nfunc main\nend\n", 2, Why::Nest),
        (b"gotime script 1\nend x\nfunc main\nend\n", 2, Why::Word),
        (b"gotime script 1\nfunc main\nend\r", 3, Why::Word),
    ];
    for (text, line, why) in cases {
        assert!(rt; is_refused(rt.alloc(), text, line, why), "{text:?}");
    }
}

#[test]
fn refuses_words_names_and_numbers(rt: HostRuntime) {
    let cases: [(&[u8], u32, Why); 19] = [
        (b"gotime script 1\nnow\n", 2, Why::Word),
        (b"gotime script 1\ntickers k\n", 2, Why::Word),
        (b"gotime script 1\nloop 2\nfunc main\nend\n", 2, Why::Word),
        (b"gotime script 1\nfunc main\nend\n---\n", 4, Why::Word),
        (
            b"gotime script 1\nfunc main\nfunc f\nend\nend\n",
            3,
            Why::Word,
        ),
        (
            b"gotime script 1\ntimer t\nfunc main\nnew t\nend\n",
            4,
            Why::Word,
        ),
        (
            b"gotime script 1\nfunc main\nstop t\nend\ntimer t t\n",
            5,
            Why::Word,
        ),
        (b"gotime script 1\nfunc main\nstop x\nend\n", 3, Why::Name),
        (b"gotime script 1\ntimer root\n", 2, Why::Name),
        (b"gotime script 1\ntimer 2x\n", 2, Why::Name),
        (b"gotime script 1\nafterfunc f t\ntimer t\n", 2, Why::Name),
        (
            b"gotime script 1\nafterfunc f main\nfunc main\nrecv f\nend\n",
            4,
            Why::Name,
        ),
        (
            b"gotime script 1\ntimer t\nfunc main\ngo t\nend\n",
            4,
            Why::Name,
        ),
        (b"gotime script 1\ntimer t\nfunc t\nend\n", 3, Why::Twice),
        (
            b"gotime script 1\nfunc main\nsleep 1.5s\nend\n",
            3,
            Why::Number,
        ),
        (
            b"gotime script 1\nfunc main\nsay 4294967296\nend\n",
            3,
            Why::Number,
        ),
        (b"gotime script 1\nfunc main\nsay -1\nend\n", 3, Why::Number),
        (b"gotime script 1\nfunc main\n# \xff\nend\n", 3, Why::Utf8),
        (
            b"gotime script 1\nfunc main\nstop t\nend\n# \xff\ntimer t\n",
            5,
            Why::Utf8,
        ),
    ];
    for (text, line, why) in cases {
        assert!(rt; is_refused(rt.alloc(), text, line, why), "{text:?}");
    }
}

#[test]
fn refuses_above_its_limits(rt: HostRuntime) -> Result<(), Fail> {
    let mut names = String::from_str(rt.alloc(), "gotime script 1\n")?;
    let mut functions = String::from_str(rt.alloc(), "gotime script 1\nfunc main\nend\n")?;
    let mut instructions = String::from_str(rt.alloc(), "gotime script 1\nfunc main\n")?;
    for i in 0..4097 {
        names.push_str(format!(in rt.alloc(); "timer t{i}\n")?.as_str())?;
    }
    for i in 0..256 {
        functions.push_str(format!(in rt.alloc(); "func f{i}\nend\n")?.as_str())?;
    }
    for _ in 0..100001 {
        instructions.push_str("now\n")?;
    }
    assert!(rt; is_refused(rt.alloc(), names.as_bytes(), 4098, Why::Many));
    assert!(rt; is_refused(rt.alloc(), functions.as_bytes(), 514, Why::Many));
    instructions.push_str("end\n")?;
    assert!(rt; is_refused(rt.alloc(), instructions.as_bytes(), 100003, Why::Many));
    Ok(())
}

const WORKED: &[u8] =
    b"gotime  script\t1\r\n# c\r\nafterfunc f tick\ntimer t\nfunc main\n\tgo later\nnew t 10ms\nnew f 5ms\nstop t\nreset f 0\nrecv t\nsay 007\nnow\nsleep 3ms\nend\n\nfunc tick\nend\nfunc later\nend\n";

fn has_kinds(script: &Script) -> bool {
    match script.decls.as_slice() {
        [f, t, main, tick, later] => {
            matches!(f.what, What::AfterFunc { func: 1 })
                && f.name.as_slice() == b"f".as_slice()
                && matches!(t.what, What::Timer)
                && matches!(main.what, What::Function)
                && matches!(tick.what, What::Function)
                && later.name.as_slice() == b"later".as_slice()
        }
        _ => false,
    }
}

fn is_new(instr: &Instr, timer: u32, duration: u64) -> bool {
    match instr {
        Instr::New { t, d } => *t == timer && *d == duration,
        _ => false,
    }
}

fn is_front(code: &[Instr]) -> bool {
    match code {
        [start, made, other, stopped, again] => {
            matches!(start, Instr::Go { f: 2 })
                && is_new(made, 1, 10_000_000)
                && is_new(other, 0, 5_000_000)
                && matches!(stopped, Instr::Stop { t: 1 })
                && matches!(again, Instr::Reset { t: 0, d: 0 })
        }
        _ => false,
    }
}

fn is_back(code: &[Instr]) -> bool {
    match code {
        [received, said, looked, slept, last] => {
            matches!(received, Instr::Recv { o: 1 })
                && matches!(said, Instr::Say { n: 7 })
                && matches!(looked, Instr::Now)
                && matches!(slept, Instr::Sleep { d: 3_000_000 })
                && matches!(last, Instr::Finish)
        }
        _ => false,
    }
}

fn is_main(code: &[Instr]) -> bool {
    code.len() == 10 && is_front(&code[..5]) && is_back(&code[5..])
}

fn has_code(script: &Script) -> bool {
    match script.funcs.as_slice() {
        [main, tick, later] => {
            main.decl == 2
                && is_main(main.code.as_slice())
                && tick.decl == 3
                && later.code.as_slice().len() == 1
        }
        _ => false,
    }
}

#[test]
fn reads_what_scripts_spell(rt: HostRuntime) {
    match read_script(rt.alloc(), WORKED) {
        Ok(script) => assert!(rt; has_kinds(&script) && has_code(&script) && script.main == 0),
        Err(unread) => assert!(rt; false, "{unread:?}"),
    }
    assert!(rt;
        is_read(
            rt.alloc(),
            b"gotime script 1\nfunc main\nsay 4294967295\nend"
        )
    );
    assert!(rt;
        is_read(
            rt.alloc(),
            b"gotime script 1\nfunc main\ngo main\nend\ntimer a2345678901234567890123456789012"
        )
    );
}

const LOOPS: &[u8] = b"gotime script 1\nfunc main\nloop 2\nsay 1\nloop 0\nsay 2\nend\nend\nend\n";

fn is_top(instr: &Instr, around: u8, passes: u32, behind: u32) -> bool {
    match instr {
        Instr::LoopTop { depth, count, past } => {
            *depth == around && *count == passes && *past == behind
        }
        _ => false,
    }
}

fn is_end(instr: &Instr, around: u8, begin: u32) -> bool {
    match instr {
        Instr::LoopEnd { depth, top } => *depth == around && *top == begin,
        _ => false,
    }
}

fn is_looping(code: &[Instr]) -> bool {
    match code {
        [outer, first, inner, second, inner_end, outer_end, last] => {
            is_top(outer, 0, 2, 6)
                && matches!(first, Instr::Say { n: 1 })
                && is_top(inner, 1, 0, 5)
                && matches!(second, Instr::Say { n: 2 })
                && is_end(inner_end, 1, 2)
                && is_end(outer_end, 0, 0)
                && matches!(last, Instr::Finish)
        }
        _ => false,
    }
}

#[test]
fn reads_loops(rt: HostRuntime) {
    match read_script(rt.alloc(), LOOPS) {
        Ok(script) => match script.funcs.as_slice() {
            [main] => assert!(rt; is_looping(main.code.as_slice())),
            _ => assert!(rt; false, "one function"),
        },
        Err(unread) => assert!(rt; false, "{unread:?}"),
    }
    assert!(rt;
        is_read(
            rt.alloc(),
            b"gotime script 1\nfunc main\nloop 1000000\nloop 0\nnow\nend\nnow\nend\nloop 0\nloop 0\nnow\nend\nend\nend"
        )
    );
}

#[test]
fn refuses_loops(rt: HostRuntime) {
    let cases: [(&[u8], u32, Why); 6] = [
        (
            b"gotime script 1\nfunc main\nloop 1\nloop 1\nloop 1\nloop 1\nloop 1\nnow\n",
            7,
            Why::Nest,
        ),
        (
            b"gotime script 1\nfunc main\nloop 2\nend\nend\n",
            4,
            Why::Nest,
        ),
        (
            b"gotime script 1\nfunc main\nloop 3\nloop 0\nsay 1\nend\nend\nend\n",
            7,
            Why::Nest,
        ),
        (
            b"gotime script 1\nfunc main\nloop 1000001\nnow\nend\nend\n",
            3,
            Why::Number,
        ),
        (
            b"gotime script 1\nfunc main\nloop 2\nnow\n",
            4,
            Why::Missing,
        ),
        (
            b"gotime script 1\nfunc main\nloop 2\nnow\nend\n",
            5,
            Why::Missing,
        ),
    ];
    for (text, line, why) in cases {
        assert!(rt; is_refused(rt.alloc(), text, line, why), "{text:?}");
    }
}
