//! Texts with selects, and what they spell or why they are refused.

use crate::scripts::{is_read, is_refused};
use gt_model::{Case, CaseKind, Instr};
use gt_script::{Why, read_script};
use std::test::Fail;

const WORKED: &[u8] =
    b"gotime script 1\nchan c 0\ntimer t\nfunc main\nselect\ncase recv t\nsay 1\ncase send c 7\ndefault\nloop 2\nnow\nend\nend\nsay 2\nend\n";

fn is_recv(case: &Case, object: u32, body: u32) -> bool {
    match case.kind {
        CaseKind::Recv(o) => o == object && case.to == body,
        CaseKind::Send(_, _) => false,
    }
}

fn is_send(case: &Case, channel: u32, value: u32, body: u32) -> bool {
    match case.kind {
        CaseKind::Recv(_) => false,
        CaseKind::Send(c, v) => c == channel && v == value && case.to == body,
    }
}

fn is_jump(instr: &Instr, index: u32) -> bool {
    match instr {
        Instr::Jump { to } => *to == index,
        _ => false,
    }
}

fn is_choice(instr: &Instr) -> bool {
    match instr {
        Instr::Select {
            cases,
            default_to: Some(to),
        } => match cases.as_slice() {
            [first, second] => is_recv(first, 1, 1) && is_send(second, 0, 7, 3) && *to == 4,
            _ => false,
        },
        _ => false,
    }
}

fn is_top(instr: &Instr) -> bool {
    matches!(
        instr,
        Instr::LoopTop {
            depth: 0,
            count: 2,
            past: 7,
        }
    )
}

fn is_front(code: &[Instr]) -> bool {
    match code {
        [choice, first, jump, other, top] => {
            is_choice(choice)
                && matches!(first, Instr::Say { n: 1 })
                && is_jump(jump, 8)
                && is_jump(other, 8)
                && is_top(top)
        }
        _ => false,
    }
}

fn is_back(code: &[Instr]) -> bool {
    match code {
        [body, end, last, behind, finish] => {
            matches!(body, Instr::Now)
                && matches!(end, Instr::LoopEnd { depth: 0, top: 4 })
                && is_jump(last, 8)
                && matches!(behind, Instr::Say { n: 2 })
                && matches!(finish, Instr::Finish)
        }
        _ => false,
    }
}

fn is_main(code: &[Instr]) -> bool {
    code.len() == 10 && is_front(&code[..5]) && is_back(&code[5..])
}

// A select in the body of another one, each with one case.
const NESTED: &[u8] =
    b"gotime script 1\nchan c 0\nfunc main\nselect\ncase recv c\nselect\ncase recv c\nend\nend\nend\n";

fn has_one_case(instr: &Instr, body: u32) -> bool {
    match instr {
        Instr::Select {
            cases,
            default_to: None,
        } => match cases.as_slice() {
            [only] => is_recv(only, 0, body),
            _ => false,
        },
        _ => false,
    }
}

fn is_nested(code: &[Instr]) -> bool {
    match code {
        [outer, inner, first, second, finish] => {
            has_one_case(outer, 1)
                && has_one_case(inner, 2)
                && is_jump(first, 3)
                && is_jump(second, 4)
                && matches!(finish, Instr::Finish)
        }
        _ => false,
    }
}

// Whether a text has one function, whose code passes a test.
fn spells(alloc: std::alloc::Global, text: &[u8], nested: bool) -> bool {
    match read_script(alloc, text) {
        Ok(script) => match script.funcs.as_slice() {
            [main] if nested => is_nested(main.code.as_slice()),
            [main] => is_main(main.code.as_slice()),
            _ => false,
        },
        Err(_) => false,
    }
}

#[test]
fn reads_selects(rt: HostRuntime) {
    assert!(rt; spells(rt.alloc(), WORKED, false));
    assert!(rt; spells(rt.alloc(), NESTED, true));
    // a select is something that a loop holds
    assert!(rt;
        is_read(
            rt.alloc(),
            b"gotime script 1\nchan c 0\nfunc main\nloop 2\nselect\ncase recv c\nend\nend\nend\n"
        )
    );
}

// Texts with lines behind `func main`, which is the fourth line, behind a channel `c` and a timer `t`: the faulty one has a number.
#[test]
fn refuses_selects(rt: HostRuntime) -> Result<(), Fail> {
    for (lines, line, why) in [
        ("select 1\nend\n", 5, Why::Word),
        ("case\nend\n", 5, Why::Word),
        ("case now\nend\n", 5, Why::Word),
        ("case recv\nend\n", 5, Why::Word),
        ("case recv c 1\nend\n", 5, Why::Word),
        ("case send c\nend\n", 5, Why::Word),
        ("default 1\nend\n", 5, Why::Word),
        ("case recv x\nend\n", 5, Why::Name),
        ("case send t 1\nend\n", 5, Why::Name),
        ("select\ncase send c -1\nend\nend\n", 6, Why::Number),
        ("case recv c\nend\n", 5, Why::Nest),
        ("default\nend\n", 5, Why::Nest),
        (
            "select\ncase recv c\nloop 2\ndefault\nend\nend\nend\n",
            8,
            Why::Nest,
        ),
        ("select\ncase recv c\nloop 2\nend\nend\nend\n", 8, Why::Nest),
        ("select\nnow\nend\nend\n", 6, Why::Select),
        ("select\nloop 2\nend\nend\n", 6, Why::Select),
        ("select\nselect\nend\nend\n", 6, Why::Select),
        ("select\nend\nend\n", 6, Why::Select),
        ("select\ndefault\nsay 1\nend\nend\n", 7, Why::Select),
        ("select\ndefault\nend\nend\n", 7, Why::Select),
        (
            "select\ncase recv c\ndefault\ndefault\nend\nend\n",
            8,
            Why::Select,
        ),
        (
            "select\ncase recv c\ndefault\ncase recv c\nend\nend\n",
            8,
            Why::Select,
        ),
        (
            "select\ncase recv t\ncase recv c\ncase recv t\ndefault\nend\nend\n",
            9,
            Why::Select,
        ),
        ("select\ncase recv c\nend\n", 7, Why::Missing),
        ("select\ndefault", 6, Why::Missing),
    ] {
        let text = format!(in rt.alloc();
            "gotime script 1\nchan c 0\ntimer t\nfunc main\n{lines}"
        )?;
        assert!(rt;
            is_refused(rt.alloc(), text.as_bytes(), line, why),
            "{lines}"
        );
    }
    Ok(())
}

#[test]
fn refuses_selects_outside(rt: HostRuntime) {
    let cases: [(&[u8], u32, Why); 4] = [
        (b"gotime script 1\nselect\n", 2, Why::Word),
        (b"gotime script 1\nchan c 0\ncase recv c\n", 3, Why::Nest),
        (b"gotime script 1\ncase recv c\n", 2, Why::Name),
        (b"gotime script 1\ndefault\n", 2, Why::Nest),
    ];
    for (text, line, why) in cases {
        assert!(rt; is_refused(rt.alloc(), text, line, why), "{text:?}");
    }
}

// The lines of a script with so many blocks in one another, and of a select with so many cases.
#[test]
fn refuses_too_much(rt: HostRuntime) -> Result<(), Fail> {
    let mut deep = String::from_str(rt.alloc(), "gotime script 1\nchan c 0\nfunc main\nloop 1\n")?;
    let mut wide = String::from_str(
        rt.alloc(),
        "gotime script 1\nchan c 0\nfunc main\nselect\ncase recv c\n",
    )?;
    for _ in 0..15 {
        deep.push_str("select\ncase recv c\n")?;
        wide.push_str("case recv c\n")?;
    }
    let fits = format!(in rt.alloc(); "{wide}end\nend\n")?;
    assert!(rt; is_read(rt.alloc(), fits.as_bytes()));
    wide.push_str("case recv c\nend\nend\n")?;
    assert!(rt; is_refused(rt.alloc(), wide.as_bytes(), 21, Why::Select));
    let select = format!(in rt.alloc(); "{deep}select\nend\n")?;
    assert!(rt; is_refused(rt.alloc(), select.as_bytes(), 35, Why::Nest));
    deep.push_str("loop 1\nend\n")?;
    assert!(rt; is_refused(rt.alloc(), deep.as_bytes(), 35, Why::Nest));
    Ok(())
}
