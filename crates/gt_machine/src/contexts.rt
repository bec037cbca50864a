//! The contexts and the hooks: what an entry does to them, and what is looked up in them.

ghost use Rattle.std.specs.Prelude.{ℕ, ◌≡◌, ◌≢◌, ◌+◌, ◌<◌, ◌≤◌, ◌==◌, not, ◌&&◌, IfSome, IsSome, IsTrue, List, Option, length, slice_index, false};
ghost use Rattle.std.specs.List.{list_any};
ghost use Rattle.gt_model.specs.declared.script.Instr.{Instr};
ghost use Rattle.gt_model.specs.declared.state.Goroutine.{Goroutine};
ghost use Rattle.gt_model.specs.Good.{IsGood};
ghost use Rattle.gt_model.specs.Script as names;
ghost use Rattle.gt_rules.specs.State as at;
ghost use Rattle.gt_rules.specs.After as after;
ghost use Rattle.gt_rules.specs.Contexts as tree;
ghost use Rattle.gt_rules.specs.Legal.{May};
ghost use Rattle.gt_rules.specs.Change.{by_end, change_of};
ghost use Rattle.gt_facts.specs.Formed.{IsFormed};
ghost use Rattle.gt_machine.specs.Machine.{state_of, HasContexts, ended_of, is_cut, IsGrowable, with_new};

use crate::changes::begun;
use crate::lookups::{ctx_of, function_of, hook_func};
use crate::machine::Machine;
use gt_model::{Context, End, Entry, Goroutine, HookState, Script};
use gt_rules::{Move, Start, Starts, TreeStep, starts_of};

impl Machine {
    /// Ends a context that has not ended, and those that it reaches, and begins the goroutines of the hooks that wait on these. The answer is how many
    /// begin. It takes no longer than what it reaches.
    pub fn cut(&mut self, script: &Script, x: u32, end: End) -> u32
        requires good { IsGood script.now }
        requires formed { IsFormed script.now (state_of self.old) }
        requires contexts { HasContexts script.now self.old }
        requires made { IsSome (at.context_at (state_of self.old) x) }
        requires live { at.has_ended (state_of self.old) x ≡ false }
        requires room { tree.start_count script.now (state_of self.old) x ≤ self.old.goroutines.spare }
        ensures state { state_of self.new ≡ record (state_of self.old) {
          goroutines = after.with_starts script.now (state_of self.old) (state_of self.old).goroutines
              (by_end x (tree.start_count script.now (state_of self.old) x));
          contexts = tree.cut_contexts script.now (state_of self.old) x end;
          hooks = tree.cut_hooks script.now (state_of self.old) x;
        } }
        ensures count { result ≡ tree.start_count script.now (state_of self.old) x }
        ensures room { length self.new.goroutines.items + self.new.goroutines.spare
            ≡ length self.old.goroutines.items + self.old.goroutines.spare }
        ensures channels { self.new.channels ≡ self.old.channels }
        ensures contexts { HasContexts script.now self.new }
        ensures ended { (y : ℕ) → list_any (λ z. z == y) (ended_of self.new) ≡ (not (at.has_ended (state_of self.old) y) && at.has_ended (state_of self.new) y) }
        ensures once { (i j : ℕ) → i < j → j < length (ended_of self.new) → slice_index (ended_of self.new) i ≢ slice_index (ended_of self.new) j }
        ensures few { length (ended_of self.new) ≤ length script.now.decls }
    {
        let cut = self.ctxs.cancel(x, end.err, end.cause);
        while let Some(s) = self.ctxs.take_started() {
            let begins = self.by_hook(script, s);
            self.goroutines.put(begins);
        }
        cut.starts
    }

    /// The contexts that the last `cut` ended, each once, in any order; none before the first one.
    pub fn ended(&self) -> &[u32]
        ensures { result.now ≡ ended_of self.now }
    {
        self.ctxs.ended()
    }

    /// What becomes of a context or of a hook, by who makes the entry, where no context ends.
    pub(crate) fn grow(
        &mut self,
        script: &Script,
        mover: Option<(u32, Move)>,
        change: Option<(u32, TreeStep)>,
    )
        requires world { at.world_of (state_of self.old) (after.number_of mover) < length self.old.clocks.items }
        requires may { IfSome change (λ c. IsGrowable self.old.ctxs.decls self.old.ctxs.contexts self.old.ctxs.hooks
            (at.world_of (state_of self.old) (after.number_of mover)) (at.clock (state_of self.old) (at.world_of (state_of self.old) (after.number_of mover))) c.0 c.1) }
        requires contexts { HasContexts script.now self.old }
        ensures state { state_of self.new ≡ record (state_of self.old) {
          contexts = after.with_grown script.now (state_of self.old) mover change;
          hooks = after.with_hooked script.now (state_of self.old) change;
        } }
        ensures room { self.new.goroutines ≡ self.old.goroutines }
        ensures channels { self.new.channels ≡ self.old.channels }
        ensures contexts { HasContexts script.now self.new }
    {
        if let Some((x, step)) = change {
            let world = self.mover_world(mover);
            self.grow_by(script, world, x, step);
        }
    }

    /// What becomes of a context or of a hook, by somebody of a world.
    fn grow_by(&mut self, script: &Script, world: u32, x: u32, step: TreeStep)
        requires world { world < length self.old.clocks.items }
        requires may { IsGrowable self.old.ctxs.decls self.old.ctxs.contexts self.old.ctxs.hooks world (at.clock (state_of self.old) world) x step }
        requires contexts { HasContexts script.now self.old }
        ensures state { (instr : Option Instr) → state_of self.new ≡ record (state_of self.old) {
          contexts = after.grown script.now (state_of self.old) world instr x step;
          hooks = after.hooked script.now (state_of self.old) x step;
        } }
        ensures room { self.new.goroutines ≡ self.old.goroutines }
        ensures channels { self.new.channels ≡ self.old.channels }
        ensures contexts { HasContexts script.now self.new }
    {
        let _ = script;
        match step {
            TreeStep::Derived => {
                let now = self.clock(world);
                self.ctxs.make(x, world, now);
            }
            TreeStep::Registered => {
                self.ctxs.after(x);
            }
            TreeStep::Unhooked => {
                self.ctxs.stop_hook(x);
            }
            TreeStep::Canceled | TreeStep::Expired => unreachable!(),
        }
    }

    /// The goroutine that begins by an entry by which no context ends, in the world of who starts it.
    pub(crate) fn begins(&self, script: &Script, entry: &Entry) -> Option<Goroutine>
        requires good { IsGood script.now }
        requires may { May script.now (state_of self.now) entry.now }
        requires uncut { is_cut (change_of entry.now).tree ≡ false }
        ensures { (gs : List Goroutine) → after.with_starts script.now (state_of self.now) gs (change_of entry.now).starts ≡ with_new gs result }
    {
        let Starts::One(start) = starts_of(entry) else {
            return None;
        };
        match start? {
            Start::ByGoroutine { g, f } => Some(begun(script, self.world_of(g), f)),
            Start::ByTimer { t } => {
                Some(begun(script, self.timer_world(t), function_of(script, t)))
            }
            Start::ByHook { h } => Some(self.by_hook(script, h)),
            Start::ByEnd { .. } => unreachable!(),
        }
    }

    /// The goroutine that a hook starts.
    fn by_hook(&self, script: &Script, s: u32) -> Goroutine
        requires { IsGood script.now }
        ensures { result ≡ after.begun script.now (tree.hook_world script.now (state_of self.now) s) (names.hook_func script.now s) }
    {
        begun(script, self.hook_world(script, s), hook_func(script, s))
    }

    /// The world in which the context of a hook was made; 0 where it was not made.
    fn hook_world(&self, script: &Script, s: u32) -> u32
        ensures { result ≡ tree.hook_world script.now (state_of self.now) s }
    {
        match ctx_of(script, s) {
            Some(x) => self.context(x).map_or(0, |kept| kept.world),
            None => 0,
        }
    }

    /// What is kept of context x; none where it was not made.
    pub(crate) fn context(&self, x: u32) -> Option<Context>
        ensures { result ≡ at.context_at (state_of self.now) x }
    {
        self.ctxs.context(x)
    }

    /// How context x has ended; none where it was not made or has not ended.
    pub fn end_of(&self, x: u32) -> Option<End>
        ensures { result ≡ at.end_at (state_of self.now) x }
    {
        self.context(x)?.end
    }

    /// Whether context x has ended; false where it was not made.
    pub fn has_ended(&self, x: u32) -> bool
        ensures { result ≡ at.has_ended (state_of self.now) x }
    {
        self.end_of(x).is_some()
    }

    /// The own deadline of context x, in nanoseconds; none where it was not made or has none.
    pub fn own_of(&self, x: u32) -> Option<u64>
        ensures { result ≡ at.own_at (state_of self.now) x }
    {
        self.context(x)?.own
    }

    /// What would be kept of context x if goroutine g made it now.
    pub fn made(&self, script: &Script, g: u32, x: u32) -> Context
        requires good { IsGood script.now }
        requires formed { IsFormed script.now (state_of self.now) }
        requires contexts { HasContexts script.now self.now }
        requires context { IsTrue (names.is_ctx script.now x) }
        ensures { result ≡ tree.made_context script.now (state_of self.now) (at.world_of (state_of self.now) g) x }
    {
        let _ = script;
        let world = self.world_of(g);
        self.ctxs.context_for(x, world, self.clock(world))
    }

    /// Whether the context of a hook has ended.
    pub fn hook_is_due(&self, script: &Script, h: u32) -> bool
        ensures { result ≡ tree.hook_is_due script.now (state_of self.now) h }
    {
        match ctx_of(script, h) {
            Some(x) => self.has_ended(x),
            None => false,
        }
    }

    /// Whether a hook waits for the end of its context.
    pub fn hook_waits(&self, h: u32) -> bool
        ensures { result ≡ tree.is_waiting_hook (at.hook_at (state_of self.now) h) }
    {
        self.ctxs.hook(h) == HookState::Waiting
    }

    /// Whether a hook was registered.
    pub(crate) fn is_registered(&self, h: u32) -> bool
        ensures { result ≡ at.is_registered (at.hook_at (state_of self.now) h) }
    {
        self.ctxs.hook(h) != HookState::Unregistered
    }
}
