//! Contexts that are made, canceled and expire, at steps that were worked out by hand.
ghost use Rattle.std.specs.Prelude.{◌≡◌, IfOk, length, map};
ghost use Rattle.gt_ctx.specs.Decls.{decl_by, decls_of};

use gt_ctx::{After, Ctxs, Cut, Made};
use gt_model::{CauseVal, Decl, Decls, ErrVal, Form, Funcs, Script, Text, What};
use std::alloc::{AllocError, Global};
use std::test::Fail;

fn context(parent: Option<u32>, form: Form) -> What
    ensures { result ≡ What.Ctx parent form }
{
    What::Ctx { parent, form }
}

fn hook(ctx: u32) -> What
    ensures { result ≡ What.Hook ctx 0 }
{
    What::Hook { ctx, func: 0 }
}

fn script_of(alloc: Global, whats: &[What]) -> Result<Script, AllocError>
    ensures declared { IfOk result (λ script. decls_of script.decls ≡ map decl_by whats.now) }
    ensures many { IfOk result (λ script. length script.decls ≡ length whats.now) }
{
    let mut decls = Vec::with_capacity(alloc, whats.len())?;
    for what in whats {
        let name = Text::of(Vec::new(alloc));
        decls.push_reserved(Decl { name, what: *what });
    }
    Ok(Script {
        decls: Decls::of(decls),
        funcs: Funcs::of(Vec::new(alloc)),
        main: 0,
    })
}

#[test]
fn first_cause_stays(rt: HostRuntime) -> Result<(), Fail> {
    let whats = [
        What::Error,
        What::Error,
        context(
            None,
            Form::Timeout {
                d: 10_000_000,
                cause: Some(0),
            },
        ),
        context(Some(2), Form::Cause),
        context(Some(3), Form::Cancel),
        context(Some(2), Form::Cancel),
    ];
    let script = script_of(rt.alloc(), &whats)?;
    let mut ctxs = Ctxs::with_decls(rt.alloc(), &script)?;
    assert_eq!(rt;
        ctxs.make(2, 0, 0),
        Made::Live {
            own: Some(10_000_000)
        }
    );
    assert_eq!(rt; ctxs.make(3, 0, 0), Made::Live { own: None });
    assert_eq!(rt; ctxs.make(4, 0, 0), Made::Live { own: None });
    assert_eq!(rt; ctxs.make(5, 0, 0), Made::Live { own: None });
    assert_eq!(rt; ctxs.deadline(4), Some(10_000_000));
    assert_eq!(rt; ctxs.err(4), None);
    assert_eq!(rt;
        ctxs.cancel(3, ErrVal::Canceled, CauseVal::Named(1)),
        Cut {
            newly: true,
            starts: 0
        }
    );
    assert_eq!(rt; ctxs.ended().len(), 2);
    assert_eq!(rt; ctxs.err(4), Some(ErrVal::Canceled));
    assert_eq!(rt; ctxs.cause(4), Some(CauseVal::Named(1)));
    assert_eq!(rt; ctxs.err(2), None);
    ctxs.cancel(2, ErrVal::DeadlineExceeded, CauseVal::Named(0));
    assert!(rt; ctxs.ended() == [2, 5].as_slice());
    assert_eq!(rt; ctxs.err(5), Some(ErrVal::DeadlineExceeded));
    assert_eq!(rt; ctxs.cause(5), Some(CauseVal::Named(0)));
    assert_eq!(rt; ctxs.cause(3), Some(CauseVal::Named(1)));
    Ok(())
}

#[test]
fn without_is_not_reached(rt: HostRuntime) -> Result<(), Fail> {
    let whats = [
        context(None, Form::Timeout { d: 5, cause: None }),
        context(Some(0), Form::Without),
        context(Some(1), Form::Cancel),
        context(Some(0), Form::Timeout { d: 6, cause: None }),
    ];
    let script = script_of(rt.alloc(), &whats)?;
    let mut ctxs = Ctxs::with_decls(rt.alloc(), &script)?;
    ctxs.make(0, 0, 1);
    ctxs.make(1, 0, 1);
    ctxs.make(2, 0, 1);
    assert_eq!(rt; ctxs.deadline(2), None);
    ctxs.cancel(0, ErrVal::Canceled, CauseVal::Canceled);
    assert_eq!(rt; ctxs.err(2), None);
    let made = ctxs.make(3, 0, 1);
    assert_eq!(rt;
        made,
        Made::Ended {
            err: ErrVal::Canceled,
            cause: CauseVal::Canceled
        }
    );
    assert_eq!(rt; ctxs.deadline(3), Some(6));
    Ok(())
}

#[test]
fn hooks_start_once(rt: HostRuntime) -> Result<(), Fail> {
    let whats = [
        context(None, Form::Cause),
        hook(0),
        context(Some(0), Form::Cancel),
        hook(2),
        hook(0),
        hook(0),
    ];
    let script = script_of(rt.alloc(), &whats)?;
    let mut ctxs = Ctxs::with_decls(rt.alloc(), &script)?;
    ctxs.make(0, 0, 0);
    ctxs.make(2, 0, 0);
    assert_eq!(rt; ctxs.after(4), After::Waits);
    assert_eq!(rt; ctxs.after(3), After::Waits);
    assert_eq!(rt; ctxs.after(1), After::Waits);
    assert!(rt; ctxs.stop_hook(4));
    assert_eq!(rt;
        ctxs.cancel(0, ErrVal::Canceled, CauseVal::Named(7)),
        Cut {
            newly: true,
            starts: 2
        }
    );
    assert_eq!(rt;
        ctxs.cancel(0, ErrVal::Canceled, CauseVal::Canceled),
        Cut {
            newly: false,
            starts: 0
        }
    );
    assert!(rt; ctxs.ended().is_empty());
    assert_eq!(rt; ctxs.take_started(), Some(1));
    assert_eq!(rt; ctxs.take_started(), Some(3));
    assert_eq!(rt; ctxs.take_started(), None);
    assert!(rt; !ctxs.stop_hook(1));
    assert_eq!(rt; ctxs.after(5), After::Starts);
    assert_eq!(rt; ctxs.take_started(), None);
    Ok(())
}
