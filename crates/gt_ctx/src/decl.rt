//! What is declared.
ghost use Rattle.std.specs.Prelude.{◌≡◌, IfOk};
ghost use Rattle.gt_ctx.specs.Decls.{decl_by, decls_of, heeded_by, ctx_by, expiry_by};

use gt_model::{CauseVal, Decl, End, ErrVal, Form, What};
use std::alloc::{AllocError, Global};

/// What stands at one place of the declarations.
#[derive(Clone, Copy, Debug, PartialEq, Eq)]
pub enum CtxDecl {
    /// Neither a context nor a hook.
    Other,
    /// A context. Its parent is `root` where there is None.
    Context { parent: Option<u32>, form: Form },
    /// A function that starts at the end of a context.
    Hook { ctx: u32 },
}

/// What is kept of a declaration.
fn kept_of(what: What) -> CtxDecl
    ensures { result ≡ decl_by what }
{
    match what {
        What::Ctx { parent, form } => CtxDecl::Context { parent, form },
        What::Hook { ctx, .. } => CtxDecl::Hook { ctx },
        _ => CtxDecl::Other,
    }
}

/// What is kept of declarations.
pub fn all_kept(alloc: Global, decls: &[Decl]) -> Result<Vec<CtxDecl>, AllocError>
    ensures { IfOk result (λ kept. kept.items ≡ decls_of decls.now) }
{
    let mut kept = Vec::with_capacity(alloc, decls.len())?;
    for decl in decls {
        kept.push_reserved(kept_of(decl.what));
    }
    Ok(kept)
}

/// The parent whose end and deadline reach the context that is declared so. None is `root`, or there is no such parent.
pub fn heeded(decl: CtxDecl) -> Option<u32>
    ensures { result ≡ heeded_by decl }
{
    match decl {
        CtxDecl::Context {
            form: Form::Without,
            ..
        } => None,
        CtxDecl::Context { parent, .. } => parent,
        CtxDecl::Other | CtxDecl::Hook { .. } => None,
    }
}

/// The context of the hook that is declared so.
pub fn hooked(decl: CtxDecl) -> Option<u32>
    ensures { result ≡ ctx_by decl }
{
    match decl {
        CtxDecl::Hook { ctx } => Some(ctx),
        CtxDecl::Other | CtxDecl::Context { .. } => None,
    }
}

/// How a context of this form ends at its own deadline.
pub fn expiry(form: Form) -> End
    ensures { result ≡ expiry_by form }
{
    let cause = match form {
        Form::Timeout {
            cause: Some(error),
            ..
        } => CauseVal::Named(error),
        _ => CauseVal::DeadlineExceeded,
    };
    End {
        err: ErrVal::DeadlineExceeded,
        cause,
    }
}
