//! Texts with contexts, their hooks and errors, and what they spell or why they are refused.

use crate::scripts::{is_read, is_refused};
use gt_model::{Case, CaseKind, Decl, Form, Instr, Script, What};
use gt_script::{Why, read_script};
use std::test::Fail;

const WORKED: &[u8] =
    b"gotime script 1\nctx a root cancel\nctx b a cause\nctx c b timeout 5ms\nctx d c timeout 2s slow\nctx e d without\nhook h e tidy\nfunc main\nwith a\nerr b\ncause c\nafter h\nunhook h\ncancel a\ncancel b\ncancel b slow\nrecv c\nselect\ncase recv d\nend\nend\nerror slow\nfunc tidy\nend\n";

fn is_ctx(decl: &Decl, of: Option<u32>, by: Form) -> bool {
    match decl.what {
        What::Ctx { parent, form } => parent == of && form == by,
        _ => false,
    }
}

fn are_contexts(decls: &[Decl]) -> bool {
    let own = Form::Timeout {
        d: 5_000_000,
        cause: None,
    };
    let caused = Form::Timeout {
        d: 2_000_000_000,
        cause: Some(7),
    };
    match decls {
        [a, b, c, d, e] => {
            is_ctx(a, None, Form::Cancel)
                && is_ctx(b, Some(0), Form::Cause)
                && is_ctx(c, Some(1), own)
                && is_ctx(d, Some(2), caused)
                && is_ctx(e, Some(3), Form::Without)
        }
        _ => false,
    }
}

// The other declarations of `WORKED`: the error is declared behind the context that it is a cause of.
fn are_others(decls: &[Decl]) -> bool {
    match decls {
        [h, main, slow, tidy] => {
            matches!(h.what, What::Hook { ctx: 4, func: 1 })
                && matches!(main.what, What::Function)
                && matches!(slow.what, What::Error)
                && slow.name.as_slice() == b"slow".as_slice()
                && matches!(tidy.what, What::Function)
        }
        _ => false,
    }
}

fn is_recv(case: &Case, object: u32, body: u32) -> bool {
    match case.kind {
        CaseKind::Recv(o) => o == object && case.to == body,
        CaseKind::Send(_, _) => false,
    }
}

fn is_choice(instr: &Instr) -> bool {
    match instr {
        Instr::Select {
            cases,
            default_to: None,
        } => match cases.as_slice() {
            [only] => is_recv(only, 3, 10),
            _ => false,
        },
        _ => false,
    }
}

fn is_cancel(instr: &Instr, of: u32, by: Option<u32>) -> bool {
    match instr {
        Instr::Cancel { x, cause } => *x == of && *cause == by,
        _ => false,
    }
}

fn is_front(code: &[Instr]) -> bool {
    match code {
        [with, err, cause, after, unhook] => {
            matches!(with, Instr::With { x: 0 })
                && matches!(err, Instr::ErrOf { x: 1 })
                && matches!(cause, Instr::CauseOf { x: 2 })
                && matches!(after, Instr::After { s: 5 })
                && matches!(unhook, Instr::Unhook { s: 5 })
        }
        _ => false,
    }
}

fn are_cancels(code: &[Instr]) -> bool {
    match code {
        [own, other, caused] => {
            is_cancel(own, 0, None) && is_cancel(other, 1, None) && is_cancel(caused, 1, Some(7))
        }
        _ => false,
    }
}

fn is_back(code: &[Instr]) -> bool {
    match code {
        [recv, choice, jump, finish] => {
            matches!(recv, Instr::Recv { o: 2 })
                && is_choice(choice)
                && matches!(jump, Instr::Jump { to: 11 })
                && matches!(finish, Instr::Finish)
        }
        _ => false,
    }
}

fn has_decls(script: &Script) -> bool {
    let decls = script.decls.as_slice();
    decls.len() == 9 && are_contexts(&decls[..5]) && are_others(&decls[5..])
}

fn has_code(script: &Script) -> bool {
    match script.funcs.as_slice() {
        [main, _] => {
            let code = main.code.as_slice();
            code.len() == 12
                && is_front(&code[..5])
                && are_cancels(&code[5..8])
                && is_back(&code[8..])
        }
        _ => false,
    }
}

#[test]
fn reads_contexts(rt: HostRuntime) {
    match read_script(rt.alloc(), WORKED) {
        Ok(script) => assert!(rt; has_decls(&script) && has_code(&script)),
        Err(unread) => assert!(rt; false, "{unread:?}"),
    }
}

#[test]
fn reads_more_contexts(rt: HostRuntime) {
    let texts: [&[u8]; 6] = [
        // a context, a hook and an error may be used before their lines, and a hook declared before its context
        b"gotime script 1\nhook s x main\nfunc main\nwith x\nafter s\nrecv x\ncancel x e\nend\nerror e\nctx x root cause\n",
        // words of instructions and declarations are names too
        b"gotime script 1\nctx cancel root cause\nerror cause\nhook hook cancel main\nfunc main\ncancel cancel cause\nafter hook\nend\n",
        b"gotime script 1\nctx ctx root timeout 0 error\nerror error\nctx timeout ctx without\nfunc main\nwith timeout\nend\n",
        // what is derived without its parent's end is made and looked at like any other, and may have hooks
        b"gotime script 1\nctx x root without\nhook s x main\nfunc main\nwith x\nerr x\ncause x\nafter s\nunhook s\nend\n",
        // with a default a select waits for as many contexts as it likes, and for one timer
        b"gotime script 1\nctx x root cancel\nctx y x cancel\ntimer t\nfunc main\nselect\ncase recv x\ncase recv y\ncase recv t\ndefault\nend\nend\n",
        // one error may be a cause anywhere
        b"gotime script 1\nerror e\nctx x root cause\nctx y root timeout 1h e\nctx z y cause\nfunc main\ncancel x e\ncancel z e\nend\n",
    ];
    for text in texts {
        assert!(rt; is_read(rt.alloc(), text), "{text:?}");
    }
}

// Texts with lines behind the first one: the faulty one has a number.
#[test]
fn refuses_declared_contexts(rt: HostRuntime) -> Result<(), Fail> {
    for (lines, line, why) in [
        ("ctx\n", 2, Why::Word),
        ("ctx x\n", 2, Why::Word),
        ("ctx x root\n", 2, Why::Word),
        ("ctx x root Cancel\n", 2, Why::Word),
        ("ctx x root deadline 1s\n", 2, Why::Word),
        ("ctx x root cancel 1s\n", 2, Why::Word),
        ("ctx x root cause e\n", 2, Why::Word),
        ("ctx x root without x\n", 2, Why::Word),
        ("ctx x root timeout\n", 2, Why::Word),
        ("error e\nctx x root timeout 1s e e\n", 3, Why::Word),
        ("func main\nctx x root cancel\nend\n", 3, Why::Word),
        ("ctx root root cancel\n", 2, Why::Name),
        ("ctx 1 root cancel\n", 2, Why::Name),
        ("ctx x y cancel\n", 2, Why::Name),
        ("ctx x x cancel\n", 2, Why::Name),
        ("ctx x y cancel\nctx y root cancel\n", 2, Why::Name),
        ("error e\nctx x e cancel\n", 3, Why::Name),
        ("func main\nend\nctx x main cancel\n", 4, Why::Name),
        ("ctx x root timeout 1s e\n", 2, Why::Name),
        ("ctx x root timeout 1s x\n", 2, Why::Name),
        ("ctx x root timeout 1s root\nerror e\n", 2, Why::Name),
        ("ctx x y timeout 1\n", 2, Why::Name),
        ("ctx x root cancel\nctx x root cause\n", 3, Why::Twice),
        ("error x\nctx x root timeout 1\n", 3, Why::Twice),
        // the first declaration of a name counts
        ("ctx x root cancel\nctx x x cancel\n", 3, Why::Twice),
        ("ctx x root timeout 1\n", 2, Why::Number),
        ("ctx x root timeout -1s\n", 2, Why::Number),
        ("ctx x root timeout e\nerror e\n", 2, Why::Number),
        ("error e\nctx x root timeout e 1s\n", 3, Why::Name),
        ("ctx main root cancel\n", 2, Why::NoMain),
    ] {
        let text = format!(in rt.alloc(); "gotime script 1\n{lines}")?;
        assert!(rt;
            is_refused(rt.alloc(), text.as_bytes(), line, why),
            "{lines}"
        );
    }
    Ok(())
}

#[test]
fn refuses_declared_hooks_and_errors(rt: HostRuntime) -> Result<(), Fail> {
    for (lines, line, why) in [
        ("error\n", 2, Why::Word),
        ("error e slow\n", 2, Why::Word),
        ("Error e\n", 2, Why::Word),
        ("func main\nerror e\nend\n", 3, Why::Word),
        ("error root\n", 2, Why::Name),
        ("error e\nerror e\n", 3, Why::Twice),
        ("error main\n", 2, Why::NoMain),
        ("hook\n", 2, Why::Word),
        ("ctx x root cancel\nhook s x\n", 3, Why::Word),
        ("ctx x root cancel\nhook s x main 1\n", 3, Why::Word),
        ("hook s x main\nfunc main\nend\n", 2, Why::Name),
        ("hook s root main\nfunc main\nend\n", 2, Why::Name),
        ("hook s main main\nfunc main\nend\n", 2, Why::Name),
        ("ctx x root cancel\nhook s x x\n", 3, Why::Name),
        ("ctx x root cancel\nhook s x f\n", 3, Why::Name),
        (
            "ctx x root cancel\nhook root x main\nfunc main\nend\n",
            3,
            Why::Name,
        ),
        (
            "ctx x root cancel\nhook x x main\nfunc main\nend\n",
            3,
            Why::Twice,
        ),
        (
            "ctx x root cancel\nfunc main\nhook s x main\nend\n",
            4,
            Why::Word,
        ),
    ] {
        let text = format!(in rt.alloc(); "gotime script 1\n{lines}")?;
        assert!(rt;
            is_refused(rt.alloc(), text.as_bytes(), line, why),
            "{lines}"
        );
    }
    Ok(())
}

// Texts with a line in `main`, the third line, in front of the line that declares `x`, the fifth: what that line is, faulty or not, is told by its words.
#[test]
fn refuses_by_later_lines(rt: HostRuntime) -> Result<(), Fail> {
    for (used, declared, line, why) in [
        ("cancel x", "ctx x root without", 3, Why::Name),
        ("recv x", "ctx x root without", 3, Why::Name),
        ("cancel x e", "ctx x root cancel", 3, Why::Name),
        ("cancel x e", "ctx x root timeout 1s e", 3, Why::Name),
        ("cancel x e", "ctx x root", 3, Why::Name),
        ("cancel x e", "ctx x root causes", 3, Why::Name),
        ("cancel x e", "ctx x nobody cause 1", 5, Why::Word),
        ("cancel x e", "ctx x nobody cause", 5, Why::Name),
        ("cancel x", "ctx x root", 5, Why::Word),
        ("recv x", "ctx x", 5, Why::Word),
        ("with x", "ctx x root without 1", 5, Why::Word),
        ("cancel x", "ctx x root without 1", 3, Why::Name),
        ("cancel x", "ctx x root timeout 1", 5, Why::Number),
        ("cancel x", "error x", 3, Why::Name),
        ("after x", "ctx x root cancel", 3, Why::Name),
        ("after x", "hook x", 5, Why::Word),
        (
            "cancel x",
            "ctx x root without\nctx x root cancel",
            3,
            Why::Name,
        ),
        (
            "cancel x",
            "ctx x root cancel\nctx x root without",
            6,
            Why::Twice,
        ),
    ] {
        let text = format!(in rt.alloc();
            "gotime script 1\nfunc main\n{used}\nend\n{declared}\nerror e\n"
        )?;
        assert!(rt;
            is_refused(rt.alloc(), text.as_bytes(), line, why),
            "{used}, {declared}"
        );
    }
    Ok(())
}

// Texts with lines behind `func main`, which is the ninth line, behind an error `e`, contexts `x`, `y` of the form `cause` and `w` of the form `without`,
// a hook `s`, a timer `t` and a channel `c`: the faulty one has a number.
#[test]
fn refuses_uses_of_contexts(rt: HostRuntime) -> Result<(), Fail> {
    for (lines, line, why) in [
        ("with\nend\n", 10, Why::Word),
        ("with x y\nend\n", 10, Why::Word),
        ("cancel\nend\n", 10, Why::Word),
        ("cancel y e e\nend\n", 10, Why::Word),
        ("err x x\nend\n", 10, Why::Word),
        ("cause\nend\n", 10, Why::Word),
        ("after s x\nend\n", 10, Why::Word),
        ("unhook\nend\n", 10, Why::Word),
        ("end\nwith x\n", 11, Why::Word),
        ("with root\nend\n", 10, Why::Name),
        ("with z\nend\n", 10, Why::Name),
        ("with s\nend\n", 10, Why::Name),
        ("cancel w\nend\n", 10, Why::Name),
        ("cancel t\nend\n", 10, Why::Name),
        ("cancel x e\nend\n", 10, Why::Name),
        ("cancel w e\nend\n", 10, Why::Name),
        ("cancel y x\nend\n", 10, Why::Name),
        ("cancel y z\nend\n", 10, Why::Name),
        ("err e\nend\n", 10, Why::Name),
        ("cause s\nend\n", 10, Why::Name),
        ("after x\nend\n", 10, Why::Name),
        ("unhook main\nend\n", 10, Why::Name),
        ("recv w\nend\n", 10, Why::Name),
        ("recv s\nend\n", 10, Why::Name),
        ("recv e\nend\n", 10, Why::Name),
        ("recv root\nend\n", 10, Why::Name),
        ("send x 1\nend\n", 10, Why::Name),
        ("close x\nend\n", 10, Why::Name),
        ("new x 1s\nend\n", 10, Why::Name),
        ("stop s\nend\n", 10, Why::Name),
        ("go s\nend\n", 10, Why::Name),
        ("select\ncase recv w\nend\nend\n", 11, Why::Name),
        ("select\ncase with x\nend\nend\n", 11, Why::Word),
        ("select\ncancel x\nend\nend\n", 11, Why::Select),
        ("cancel w", 10, Why::Name),
        ("cancel y e", 10, Why::Missing),
    ] {
        let text = format!(in rt.alloc();
            "gotime script 1\nerror e\nctx x root cancel\nctx y x cause\nctx w y without\nhook s x main\ntimer t\nchan c 1\nfunc main\n{lines}"
        )?;
        assert!(rt;
            is_refused(rt.alloc(), text.as_bytes(), line, why),
            "{lines}"
        );
    }
    Ok(())
}
