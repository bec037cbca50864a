//! The contexts and the hooks.
ghost use Rattle.std.specs.Prelude.{◌≡◌, ◌≢◌, ℕ, [], ◌<◌, ◌≤◌, ◌^◌, ◌↔◌, None, Some, length, slice_get, is_some, IsSome, IsNone, IsTrue, IfSome, IfNone, IfOk, true};
ghost use Rattle.std.specs.Option.{option_map};
ghost use Rattle.gt_model.specs.Times.{greatest_time};
ghost use Rattle.gt_ctx.specs.Decls.{AreOrdered, decls_of, decl_at, is_context, parent_by, heeded};
ghost use Rattle.gt_ctx.specs.Contents.{IsLawful, AreEnded, end_at, own_at, world_at, context_at, hook_at, deadline};
ghost use Rattle.gt_rules.specs.Contexts.{is_waiting_hook};
ghost use Rattle.gt_ctx.specs.Calls.{made_context, answer_made, after_make, after_cancel, answer_cancel, after_registering, answer_after, hooks_end, after_stop, handed_out, fresh, cut, Becomes, starting, ctx_of, own_by, form_at, parents_deadline, parents_end};

use crate::cut::{end_of, end_reached, start_waiting, waits};
use crate::decl::{CtxDecl, all_kept, expiry, heeded, hooked};
use crate::ends::{After, Cut, Made};
use crate::lists::Lists;
use gt_model::{CauseVal, Context, End, ErrVal, Form, HookState, Script};
use std::alloc::{AllocError, Global};
use std::marker::Model;

/// The greatest time, in nanoseconds: `2^63 - 1`. A later due time counts as this one.
const GREATEST_TIME: u64 = 0x7fff_ffff_ffff_ffff;

/// The contexts and hooks of a list of declarations. They are seen as that list, what is kept of each context, what has
/// become of each hook, both by number, the list `started` of the hooks that are still to be handed out, and the list `ended` of
/// the contexts that the last cancellation ended.
#[derive(Drop)]
pub struct Ctxs {
    decls: Vec<CtxDecl>,
    contexts: Vec<Option<Context>>,
    /// The deadline of each context that was made: its own, or its parent's.
    deadlines: Vec<Option<u64>>,
    hooks: Vec<HookState>,
    /// The contexts that the end of a context reaches at once.
    children: Lists,
    /// The hooks that were registered at a context before its end. Stopped ones stay.
    waiting: Lists,
    /// The contexts that a cut still has to visit. Empty between the calls.
    stack: Vec<u32>,
    /// The hooks that a cut found at the contexts that it ended. Empty between the calls.
    found: Vec<u32>,
    /// Each hook that a cut started, in this order.
    started: Vec<u32>,
    /// How many of these were handed out.
    handed: usize,
    /// The contexts that the last cancellation ended.
    ended: Vec<u32>,
}

impl Model for Ctxs {
    ghost use Rattle.std.specs.Prelude.{drop, vec_len, vec_capacity};
    ghost use Rattle.gt_ctx.specs.Contents.{Contents};

    ghost Value = { Contents };

    ghost use Rattle.gt_ctx.specs.Kept.{IsKept};

    ghost view = { λ c. record {
      decls = c.decls.items;
      contexts = c.contexts.items;
      hooks = c.hooks.items;
      started = drop c.handed c.started.items;
      ended = c.ended.items;
    } };

    ghost invariant = { λ c. IsKept
        c.decls.items
        c.contexts.items
        c.hooks.items
        c.deadlines.items
        c.children
        c.waiting
        (vec_len c.stack)
        (vec_capacity c.stack)
        (vec_len c.found)
        (vec_capacity c.found)
        (vec_len c.started)
        (vec_capacity c.started)
        c.handed
        (vec_capacity c.ended) };
}

impl Ctxs {
    /// The contexts and hooks of a script, none of them made or registered. Parents are contexts that are declared earlier, and
    /// hooks wait on contexts. It alone takes memory.
    pub fn with_decls(alloc: Global, script: &Script) -> Result<Ctxs, AllocError>
        requires ordered { AreOrdered (decls_of script.now.decls) }
        requires few { length script.now.decls < 2 ^ 32 }
        ensures { IfOk result (λ made. made ≡ fresh (decls_of script.now.decls)) }
    {
        let decls = all_kept(alloc, script.decls.as_slice())?;
        let names = decls.len();
        Ok(Ctxs {
            decls,
            contexts: vec![in alloc; None; names]?,
            deadlines: vec![in alloc; None; names]?,
            hooks: vec![in alloc; HookState::Unregistered; names]?,
            children: Lists::with_names(alloc, names)?,
            waiting: Lists::with_names(alloc, names)?,
            stack: Vec::with_capacity(alloc, names + 1)?,
            found: Vec::with_capacity(alloc, names)?,
            started: Vec::with_capacity(alloc, names)?,
            handed: 0,
            ended: Vec::with_capacity(alloc, names)?,
        })
    }

    /// Tells a proof what is true of the contexts at all times. It does nothing.
    pub fn lawful(&self)
        ensures { IsLawful self.now }
    {
        let _decls = &self.decls;
    }

    /// Makes the context `x` in a world whose clock is at `now`, in nanoseconds. Unless it is of the form `Without`, it ends at
    /// once with its parent's error and cause where the parent has ended. It has an own deadline where its form has one and
    /// the parent's is not earlier; it ends at once where that is not after `now`, and keeps it (Go 1.23, package context).
    pub fn make(&mut self, x: u32, world: u32, now: u64) -> Made
        requires unmade { context_at self.old.contexts x ≡ None }
        requires context { is_context (decl_at self.old.decls x) ≡ true }
        requires parent { IfSome
            (parent_by (decl_at self.old.decls x))
            (λ p. world_at self.old.contexts p ≡ Some world) }
        requires clock { now ≤ greatest_time }
        ensures answer { let kept = made_context self.old x world now in result ≡ answer_made kept.own kept.end }
        ensures after { self.new ≡ after_make self.old x (made_context self.old x world now) }
    {
        let kept = self.context_for(x, world, now);
        self.keep(x, kept);
        match kept.end {
            Some(end) => Made::Ended {
                err: end.err,
                cause: end.cause,
            },
            None => Made::Live { own: kept.own },
        }
    }

    /// Keeps what was made of `x`, and joins it to the children of the parent whose end reaches it.
    fn keep(&mut self, x: u32, kept: Context)
        requires unmade { context_at self.old.contexts x ≡ None }
        requires context { x < length self.old.decls }
        requires parent { IfSome (heeded self.old.decls x) (λ p. IsSome (context_at self.old.contexts p)) }
        requires end { IsSome (parents_end self.old x) → IsSome kept.end }
        ensures { self.new ≡ after_make self.old x kept }
    {
        let parent = self.parent(x);
        let deadline = kept.own.or(self.parents_deadline(x));
        self.children.join_to(parent, x);
        self.deadlines[x as usize] = deadline;
        self.contexts[x as usize] = Some(kept);
    }

    /// What would be kept of `x` if it were made so.
    pub fn context_for(&self, x: u32, world: u32, now: u64) -> Context
        requires context { x < length self.now.decls }
        requires clock { now ≤ greatest_time }
        ensures { result ≡ made_context self.now x world now }
    {
        let ended = self.parents_end(x);
        let form = self.form(x);
        let own = if ended.is_some() {
            None
        } else {
            own_deadline(form, self.parents_deadline(x), now)
        };
        let expired = match own {
            Some(due) if due <= now => Some(expiry(form)),
            _ => None,
        };
        Context {
            world,
            own,
            end: ended.or(expired),
        }
    }

    /// The form of a context.
    fn form(&self, x: u32) -> Form
        requires { x < length self.now.decls }
        ensures { result ≡ form_at self.now.decls x }
    {
        match self.decls[x as usize] {
            CtxDecl::Context { form, .. } => form,
            CtxDecl::Other | CtxDecl::Hook { .. } => Form::Cancel,
        }
    }

    /// The parent whose end and deadline reach `x`.
    fn parent(&self, x: u32) -> Option<u32>
        ensures { result ≡ heeded self.now.decls x }
    {
        match self.decls.get(x as usize) {
            Some(decl) => heeded(*decl),
            None => None,
        }
    }

    /// The end of the parent whose end reaches `x`.
    fn parents_end(&self, x: u32) -> Option<End>
        ensures { result ≡ parents_end self.now x }
    {
        match self.parent(x) {
            Some(parent) => end_of(self.contexts.as_slice(), parent),
            None => None,
        }
    }

    /// The deadline of the parent whose deadline reaches `x`.
    fn parents_deadline(&self, x: u32) -> Option<u64>
        ensures { result ≡ parents_deadline self.now x }
    {
        match self.parent(x) {
            Some(parent) => self.deadline(parent),
            None => None,
        }
    }

    /// Whether `x` was made.
    fn is_made(&self, x: u32) -> bool
        ensures { result ≡ is_some (context_at self.now.contexts x) }
    {
        matches!(self.contexts.get(x as usize), Some(Some(_)))
    }

    /// The deadline of `x`, which was made.
    fn made_deadline(&self, x: u32) -> Option<u64>
        requires { IsSome (context_at self.now.contexts x) }
        ensures { result ≡ deadline self.now x }
    {
        self.deadlines[x as usize]
    }

    /// The deadline of `x`, in nanoseconds: its own, else its parent's. `root` and the form `Without` have none.
    pub fn deadline(&self, x: u32) -> Option<u64>
        ensures { result ≡ deadline self.now x }
    {
        self.lawful();
        let mut at = x;
        'up: loop {
            if self.is_made(at) {
                return self.made_deadline(at);
            }
            match self.parent(at) {
                Some(parent) => at = parent,
                None => return None,
            }
        }
    }

    /// What is kept of `x`, or None where it was not made.
    pub fn context(&self, x: u32) -> Option<Context>
        ensures { result ≡ context_at self.now.contexts x }
    {
        match self.contexts.get(x as usize) {
            Some(kept) => *kept,
            None => None,
        }
    }

    /// What has become of the hook `s`.
    pub fn hook(&self, s: u32) -> HookState
        ensures { result ≡ hook_at self.now.hooks s }
    {
        match self.hooks.get(s as usize) {
            Some(hook) => *hook,
            None => HookState::Unregistered,
        }
    }

    /// The contexts that the last `cancel` ended, each once; none before the first one.
    pub fn ended(&self) -> &[u32]
        ensures { result.now ≡ self.now.ended }
    {
        self.ended.as_slice()
    }

    /// The error of `x`, or None before its end.
    pub fn err(&self, x: u32) -> Option<ErrVal>
        ensures { result ≡ option_map (λ end. end.err) (end_at self.now.contexts x) }
    {
        match end_of(self.contexts.as_slice(), x) {
            Some(end) => Some(end.err),
            None => None,
        }
    }

    /// The cause of `x`, or None before its end.
    pub fn cause(&self, x: u32) -> Option<CauseVal>
        ensures { result ≡ option_map (λ end. end.cause) (end_at self.now.contexts x) }
    {
        match end_of(self.contexts.as_slice(), x) {
            Some(end) => Some(end.cause),
            None => None,
        }
    }

    /// Ends `x`, and each context derived from it that it reaches, with this error and cause, where they have none; the hooks
    /// that wait on these start, in order of declaration. Where `x` has an error, nothing changes.
    pub fn cancel(&mut self, x: u32, err: ErrVal, cause: CauseVal) -> Cut
        requires { IsSome (context_at self.old.contexts x) }
        ensures answer { result ≡ answer_cancel self.old x }
        ensures newly { IsTrue result.newly ↔ IsNone (end_at self.old.contexts x) }
        ensures after { Becomes self.new (after_cancel self.old x (record { err = err; cause = cause })) }
        ensures ended { AreEnded self.old.contexts self.new.contexts self.new.ended }
    {
        self.ended.clear();
        if end_of(self.contexts.as_slice(), x).is_some() {
            return Cut {
                newly: false,
                starts: 0,
            };
        }
        let starts = self.cut(x, End { err, cause });
        Cut {
            newly: true,
            starts,
        }
    }

    /// The cut of `x`, and how many hooks it started.
    fn cut(&mut self, x: u32, end: End) -> u32
        requires made { IsSome (context_at self.old.contexts x) }
        requires live { end_at self.old.contexts x ≡ None }
        requires none { self.old.ended ≡ [] }
        ensures starts { result ≡ length (starting self.old x) }
        ensures after { Becomes self.new (cut self.old x end) }
        ensures ended { AreEnded self.old.contexts self.new.contexts self.new.ended }
    {
        end_reached(
            self.contexts.as_mut_slice(),
            &self.children,
            &self.waiting,
            x,
            end,
            &mut self.stack,
            &mut self.found,
            &mut self.ended,
        );
        self.found.sort_unstable();
        let starts = start_waiting(
            self.hooks.as_mut_slice(),
            self.found.as_slice(),
            &mut self.started,
        );
        self.found.clear();
        starts
    }

    /// Hands out a hook that a cut started: those of one cut in order of declaration, after those of the cuts before. None
    /// exactly where none is left.
    pub fn take_started(&mut self) -> Option<u32>
        ensures first { result ≡ slice_get self.old.started 0 }
        ensures after { self.new ≡ handed_out self.old }
    {
        let hook = self.started.get(self.handed).copied()?;
        self.handed += 1;
        Some(hook)
    }

    /// Registers the hook `s`. It starts at once exactly where its context has an error, and else waits. One that starts
    /// here is not handed out by `take_started`.
    pub fn after(&mut self, s: u32) -> After
        requires hook { IsSome (ctx_of self.old.decls s) }
        requires unregistered { hook_at self.old.hooks s ≡ HookState.Unregistered }
        ensures answer { result ≡ answer_after self.old s }
        ensures after { self.new ≡ after_registering self.old s }
    {
        match hooked(self.decls[s as usize]) {
            Some(ctx) if end_of(self.contexts.as_slice(), ctx).is_none() => {
                self.waiting.join(ctx, s);
                self.hooks[s as usize] = HookState::Waiting;
                After::Waits
            }
            _ => {
                self.hooks[s as usize] = HookState::Started;
                After::Starts
            }
        }
    }

    /// Keeps the hook `s` from being started, where it waits. Whether it waited.
    pub fn stop_hook(&mut self, s: u32) -> bool
        requires { hook_at self.old.hooks s ≢ HookState.Unregistered }
        ensures answer { result ≡ is_waiting_hook (hook_at self.old.hooks s) }
        ensures after { self.new ≡ after_stop self.old s }
    {
        let waits = waits(self.hooks.as_slice(), s);
        if waits {
            self.hooks[s as usize] = HookState::Stopped;
        }
        waits
    }
}

/// The own deadline of a context of this form that is made at `now`, below a parent with this deadline.
fn own_deadline(form: Form, parents: Option<u64>, now: u64) -> Option<u64>
    requires { now ≤ greatest_time }
    ensures { result ≡ own_by form parents now }
{
    let due = match form {
        Form::Timeout { d, .. } => now.saturating_add(d).min(GREATEST_TIME),
        _ => return None,
    };
    match parents {
        Some(earlier) if earlier < due => None,
        _ => Some(due),
    }
}
