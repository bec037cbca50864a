//! What is looked up in a script.

ghost use Rattle.std.specs.Prelude.{◌≡◌, MatchOption, IsSome, None, slice_get};
ghost use Rattle.std.specs.Option.{option_copied, option_map};
ghost use Rattle.gt_model.specs.Script.{code_of, instr_at, func_of, capacity_of};
ghost use Rattle.gt_model.specs.Script as names;
ghost use Rattle.gt_rules.specs.Contexts as tree;
ghost use Rattle.gt_machine.specs.Machine.{capacity_in};

use gt_model::{CauseVal, Decl, End, ErrVal, Form, Instr, Place, Script, What};

/// The code of a function; None exactly where no function has that place.
pub fn code_of(script: &Script, f: u32) -> Option<&[Instr]>
    ensures { MatchOption result (slice_get script.now.funcs f ≡ None) (λ code. IsSome (slice_get script.now.funcs f) × (code.now ≡ code_of script.now f)) }
{
    match script.funcs.as_slice().get(f as usize) {
        Some(func) => Some(func.code.as_slice()),
        None => None,
    }
}

/// The instruction at a place; none where no code has that place.
pub fn instr_at<'a>(script: &'a Script, place: Place) -> Option<&'a Instr>
    ensures { option_copied result ≡ instr_at script.now place }
{
    match script.funcs.as_slice().get(place.func as usize) {
        Some(func) => func.code.as_slice().get(place.at as usize),
        None => None,
    }
}

/// The function that an AfterFunc timer starts; 0 where the declaration is none.
pub fn function_of(script: &Script, t: u32) -> u32
    ensures { result ≡ func_of script.now t }
{
    match script.decls.as_slice().get(t as usize) {
        Some(
            Decl {
                what: What::AfterFunc { func },
                ..
            },
        ) => *func,
        _ => 0,
    }
}

/// The mutex of a Cond; 0 where the declaration is none.
pub fn mutex_of(script: &Script, k: u32) -> u32
    ensures { result ≡ names.mutex_of script.now k }
{
    match script.decls.as_slice().get(k as usize) {
        Some(
            Decl {
                what: What::Cond { mutex },
                ..
            },
        ) => *mutex,
        _ => 0,
    }
}

/// How many values the channel of this declaration keeps at most; 0 where the declaration is no channel.
pub fn capacity(script: &Script, c: u32) -> u32
    ensures { result ≡ capacity_of script.now c }
{
    match script.decls.as_slice().get(c as usize) {
        Some(decl) => declared_capacity(decl.what),
        None => 0,
    }
}

/// How many values a channel that is declared so keeps at most; 0 where it is no channel.
pub fn declared_capacity(what: What) -> u32
    ensures { result ≡ capacity_in what }
{
    match what {
        What::Chan { cap } => cap,
        _ => 0,
    }
}

/// What a name is declared as; none where no declaration has that place.
pub fn what_at(script: &Script, o: u32) -> Option<What>
    ensures { result ≡ names.what_at script.now o }
{
    match script.decls.as_slice().get(o as usize) {
        Some(decl) => Some(decl.what),
        None => None,
    }
}

/// Whether a declaration is a channel.
pub fn is_chan(script: &Script, o: u32) -> bool
    ensures { result ≡ names.is_chan script.now o }
{
    matches!(
        script.decls.as_slice().get(o as usize),
        Some(Decl {
            what: What::Chan { .. },
            ..
        })
    )
}

/// Whether a declaration is a context.
pub fn is_ctx(script: &Script, o: u32) -> bool
    ensures { result ≡ names.is_ctx script.now o }
{
    matches!(
        script.decls.as_slice().get(o as usize),
        Some(Decl {
            what: What::Ctx { .. },
            ..
        })
    )
}

/// The context from which a context is derived; none where that is the root, or where the declaration is no context.
pub fn parent_of(script: &Script, x: u32) -> Option<u32>
    ensures { result ≡ names.parent_of script.now x }
{
    match script.decls.as_slice().get(x as usize) {
        Some(
            Decl {
                what: What::Ctx { parent, .. },
                ..
            },
        ) => *parent,
        _ => None,
    }
}

/// How a context ends at its own deadline.
pub fn expiry_end(script: &Script, x: u32) -> End
    ensures { result ≡ tree.expiry_end script.now x }
{
    let cause = match what_at(script, x) {
        Some(
            What::Ctx {
                form: Form::Timeout { cause: Some(e), .. },
                ..
            },
        ) => CauseVal::Named(e),
        _ => CauseVal::DeadlineExceeded,
    };
    End {
        err: ErrVal::DeadlineExceeded,
        cause,
    }
}

/// The context at whose end a hook starts; none where the declaration is no hook.
pub fn ctx_of(script: &Script, s: u32) -> Option<u32>
    ensures { result ≡ names.ctx_of script.now s }
{
    match script.decls.as_slice().get(s as usize) {
        Some(
            Decl {
                what: What::Hook { ctx, .. },
                ..
            },
        ) => Some(*ctx),
        _ => None,
    }
}

/// The function that a hook starts; 0 where the declaration is none.
pub fn hook_func(script: &Script, s: u32) -> u32
    ensures { result ≡ names.hook_func script.now s }
{
    match script.decls.as_slice().get(s as usize) {
        Some(
            Decl {
                what: What::Hook { func, .. },
                ..
            },
        ) => *func,
        _ => 0,
    }
}

/// Whether a declaration is a ticker.
pub fn is_ticker(script: &Script, t: u32) -> bool
    ensures { result ≡ names.is_ticker script.now t }
{
    matches!(
        script.decls.as_slice().get(t as usize),
        Some(Decl {
            what: What::Ticker,
            ..
        })
    )
}
