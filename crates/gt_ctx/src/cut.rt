//! What a cut does: it ends what it reaches, and starts the hooks that wait there.
ghost use Rattle.std.specs.Prelude.{◌≡◌, ℕ, ◌+◌, ◌<◌, ◌≤◌, ◌^◌, ◌++◌, [], ◌&&◌, length, filter, slice_set, vec_len, vec_capacity, sum_by, true, false, if◌then◌else◌};
ghost use Rattle.std.specs.List.{range_with_len};
ghost use Rattle.std.specs.List.Sorted.{IsNonDecreasing};
ghost use Rattle.std.specs.Option.{option_map};
ghost use Rattle.gt_ctx.specs.Contents.{AreEnded, context_at, hook_at, end_at};
ghost use Rattle.gt_rules.specs.Contexts.{is_waiting_hook};
ghost use Rattle.gt_ctx.specs.Calls.{cut_context, cut_hook, ended_kept};
ghost use Rattle.gt_ctx.specs.Links.{items_of, has};
ghost use Rattle.gt_ctx.specs.Walk.{is_live, is_newly, HasEnded, to_come};
ghost use Rattle.gt_ctx.specs.Kept.{unstarted};

use crate::lists::Lists;
use gt_model::{Context, End, HookState};

/// The end that a context keeps, where it has ended.
pub fn end_of(contexts: &[Option<Context>], x: u32) -> Option<End>
    ensures { result ≡ end_at contexts.now x }
{
    match contexts.get(x as usize) {
        Some(Some(kept)) => kept.end,
        _ => None,
    }
}

/// Ends the context `y` where it was made and has no error. Whether it does.
fn end_context(contexts: &mut [Option<Context>], y: u32, end: End) -> bool
    ensures newly { result ≡ is_live (context_at contexts.old y) }
    ensures contexts { contexts.new ≡ (if is_live (context_at contexts.old y)
        then slice_set contexts.old y (option_map (ended_kept end) (context_at contexts.old y))
        else contexts.old) }
{
    match contexts.get(y as usize).copied() {
        Some(Some(kept)) if kept.end.is_none() => {
            contexts[y as usize] = Some(Context {
                end: Some(end),
                ..kept
            });
            true
        }
        _ => false,
    }
}

/// Ends the context `x`, its children, and so on down to those that have ended before, and adds each that it ends to `ended`,
/// and its items of `waiting` to `found`.
pub fn end_reached(
    contexts: &mut [Option<Context>],
    children: &Lists,
    waiting: &Lists,
    x: u32,
    end: End,
    stack: &mut Vec<u32>,
    found: &mut Vec<u32>,
    ended: &mut Vec<u32>,
)
    requires children { length children.now ≡ length contexts.old }
    requires waiting { length waiting.now ≡ length contexts.old }
    requires none_left { vec_len stack.old ≡ 0 }
    requires none_found { vec_len found.old ≡ 0 }
    requires none_ended { vec_len ended.old ≡ 0 }
    requires room_left { to_come children.now contexts.old + 1 ≤ vec_capacity stack.old }
    requires room_found { to_come waiting.now contexts.old ≤ vec_capacity found.old }
    requires room_ended { length contexts.old ≤ vec_capacity ended.old }
    ensures each { AreEnded contexts.old contexts.new ended.new.items }
    ensures room_ended { vec_capacity ended.new ≡ vec_capacity ended.old }
    ensures ended { HasEnded contexts.old contexts.new children.now waiting.now x end found.new.items }
    ensures none_left { vec_len stack.new ≡ 0 }
    ensures room_left { vec_capacity stack.new ≡ vec_capacity stack.old }
    ensures room_found { vec_capacity found.new ≡ vec_capacity found.old }
{
    stack.push_reserved(x);
    while let Some(y) = stack.pop() {
        if end_context(contexts, y, end) {
            ended.push_reserved(y);
            children.push_items(y, stack);
            waiting.push_items(y, found);
        }
    }
}

/// Whether the hook `s` waits.
pub fn waits(hooks: &[HookState], s: u32) -> bool
    requires { s < length hooks.now }
    ensures { result ≡ is_waiting_hook (hook_at hooks.now s) }
{
    hooks[s as usize] == HookState::Waiting
}

/// Starts those of these hooks that wait, in this order, and returns their number.
pub fn start_waiting(hooks: &mut [HookState], found: &[u32], started: &mut Vec<u32>) -> u32
    requires few { length hooks.old < 2 ^ 32 }
    requires ordered { IsNonDecreasing found.now }
    requires declared { (s : ℕ) → has found.now s ≡ true → s < length hooks.old }
    requires room { vec_len started.old + sum_by unstarted hooks.old ≤ vec_capacity started.old }
    ensures hooks { (s : ℕ) → hook_at hooks.new s ≡ cut_hook (is_waiting_hook (hook_at hooks.old s) && has found.now s) (hook_at hooks.old s) }
    ensures started { started.new.items ≡ started.old.items ++ filter
        (λ s. is_waiting_hook (hook_at hooks.old s) && has found.now s)
        (range_with_len 0 (length hooks.old)) }
    ensures count { result ≡ length (filter
        (λ s. is_waiting_hook (hook_at hooks.old s) && has found.now s)
        (range_with_len 0 (length hooks.old))) }
    ensures room { vec_len started.new + sum_by unstarted hooks.new ≤ vec_capacity started.new }
{
    let before = started.len();
    for s in found {
        if waits(hooks, *s) {
            hooks[*s as usize] = HookState::Started;
            started.push_reserved(*s);
        }
    }
    (started.len() - before) as u32
}
