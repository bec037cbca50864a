//! The tables.

ghost use Rattle.std.specs.Prelude.{ℕ, ◌≡◌, false, ◌+◌, ◌<◌, ◌≤◌, IfOk, IfSome, IsSome, IsSomeAnd, Some, length, ◌^◌, ◌-◌, ◌++◌, ◌∷◌, [], nat_lt, slice_get, map, replicate};
ghost use Rattle.std.specs.Option.{option_copied, option_map, option_and_then};
ghost use Rattle.gt_model.specs.Tables.{numbered, change_numbered};
ghost use Rattle.gt_model.specs.declared.state.Mode.{Mode};
ghost use Rattle.gt_model.specs.Good.{IsGood};
ghost use Rattle.gt_model.specs.Script.{capacity_of};
ghost use Rattle.gt_model.specs.declared.script.Decl.{Decl};
ghost use Rattle.gt_model.specs.declared.script.Script.{Script};
ghost use Rattle.gt_rules.specs.State as at;
ghost use Rattle.gt_rules.specs.Panics as panics;
ghost use Rattle.gt_rules.specs.After as after;
ghost use Rattle.gt_rules.specs.Legal.{May};
ghost use Rattle.gt_rules.specs.Change.{change_of};
ghost use Rattle.gt_facts.specs.Formed.{IsFormed};
ghost use Rattle.gt_chan.specs.Channel as chan;
ghost use Rattle.gt_ctx.specs.Decls.{decls_of};
ghost use Rattle.gt_ctx.specs.Calls.{fresh};
ghost use Rattle.gt_machine.specs.Machine.{state_of, IsInside, IsTradable, IsSteppable, HasChannels, HasContexts, ended_of, is_cut, IsGrowable, with_new, made_in, capacity_in, capacities, HasFewCases, first_fault};
ghost use Rattle.gt_machine.specs.Outcomes as outcomes;
ghost use Rattle.gt_machine.specs.Places.{placed_at};

use crate::changes::{UNUSED, begun, move_goroutine, retimed, step_syncs, trade_channel};
use crate::lookups::{
    capacity, ctx_of, declared_capacity, instr_at, is_ticker, mutex_of, parent_of,
};
use gt_chan::Chan;
use gt_ctx::Ctxs;
use gt_model::{
    Case, CaseKind, Decl, Ending, Entry, Goroutine, Instr, Limits, Mode, NoMemory, Outcome, Reason,
    Script, SyncState, Timer,
};
use gt_room::Room;
use gt_rules::{
    Move, Setting, SyncStep, Trade, channel_of, clock_of, ending_of, mover_of, partner_of, sync_of,
    timer_of, tree_of,
};
use std::alloc::Global;

/// The state of the machine.
#[derive(Drop)]
pub struct Machine {
    /// The clocks by world, in nanoseconds; the program is world 0.
    pub clocks: Vec<u64>,
    /// How many entries were made, the end of the run not counted.
    pub entries: u64,
    /// The goroutines; number 1 is at place 0.
    pub goroutines: Room<Goroutine>,
    /// The timers by declaration; none is unmade.
    pub timers: Vec<Option<Timer>>,
    /// The channels by declaration, with room for as many values as they keep at most; what is no channel stays unmade.
    pub channels: Vec<Chan>,
    /// What there is of mutexes and WaitGroups, by declaration; nothing becomes of what is neither.
    pub syncs: Vec<SyncState>,
    /// The contexts and the hooks.
    pub ctxs: Ctxs,
    /// How far the run is.
    pub ending: Ending,
}

/// The clock of the program, at 0.
fn first_clocks(alloc: Global) -> Result<Vec<u64>, NoMemory>
    ensures { IfOk result (λ clocks. clocks.items ≡ 0 ∷ []) }
{
    vec![in alloc; 0].map_err(|_| NoMemory)
}

/// The goroutine at main's first place, with room for so many more.
fn first_goroutines(alloc: Global, script: &Script, most: u64) -> Result<Room<Goroutine>, NoMemory>
    requires good { IsGood script.now }
    requires few { most ≤ 204096 }
    ensures first { IfOk result (λ gs. gs.items ≡ after.begun script.now 0 script.now.main ∷ []) }
    ensures room { IfOk result (λ gs. gs.spare ≡ most) }
{
    let mut goroutines = Room::with_room(alloc, most as usize + 1).map_err(|_| NoMemory)?;
    goroutines.put(begun(script, 0, script.main));
    Ok(goroutines)
}

/// The contexts and the hooks of a script, none of them made or registered.
fn unmade_contexts(alloc: Global, script: &Script) -> Result<Ctxs, NoMemory>
    requires { IsGood script.now }
    ensures { IfOk result (λ ctxs. ctxs ≡ fresh (decls_of script.now.decls)) }
{
    Ctxs::with_decls(alloc, script).map_err(|_| NoMemory)
}

/// So many timers, none of them made.
fn unmade(alloc: Global, n: usize) -> Result<Vec<Option<Timer>>, NoMemory>
    ensures { IfOk result (λ timers. timers.items ≡ replicate n None) }
{
    vec![in alloc; None; n].map_err(|_| NoMemory)
}

/// So many mutexes or WaitGroups that nobody has used.
fn unused(alloc: Global, n: usize) -> Result<Vec<SyncState>, NoMemory>
    ensures { IfOk result (λ syncs. syncs.items ≡ replicate n at.unused) }
{
    vec![in alloc; UNUSED; n].map_err(|_| NoMemory)
}

/// A channel for each declaration, none of them made. Who waits is found in the goroutines, and not in lists, so the number of each one's list is 0.
fn unmade_channels(alloc: Global, decls: &[Decl]) -> Result<Vec<Chan>, NoMemory>
    ensures { IfOk result (λ channels. channels.items ≡ map (λ (d : Decl). chan.unmade (capacity_in d.what) 0) decls.now) }
{
    let mut channels = Vec::with_capacity(alloc, decls.len()).map_err(|_| NoMemory)?;
    for decl in decls {
        let channel = Chan::with_room(alloc, declared_capacity(decl.what), 0).map_err(
            |_| NoMemory,
        )?;
        channels.push_reserved(channel);
    }
    Ok(channels)
}

impl Machine {
    /// The first state of a script, with room for so many goroutines besides the first one, and for the values that channels keep. It takes their memory
    /// here.
    pub fn begin(alloc: Global, script: &Script, most: u64) -> Result<Machine, NoMemory>
        requires good { IsGood script.now }
        requires few { most ≤ 204096 }
        ensures state { IfOk result (λ m. state_of m ≡ after.first_state script.now) }
        ensures room { IfOk result (λ m. m.goroutines.spare ≡ most) }
        ensures channels { IfOk result (λ m. HasChannels script.now m) }
        ensures contexts { IfOk result (λ m. HasContexts script.now m) }
    {
        let clocks = first_clocks(alloc)?;
        let goroutines = first_goroutines(alloc, script, most)?;
        let timers = unmade(alloc, script.decls.as_slice().len())?;
        let channels = unmade_channels(alloc, script.decls.as_slice())?;
        let syncs = unused(alloc, script.decls.as_slice().len())?;
        let ctxs = unmade_contexts(alloc, script)?;
        Ok(Machine {
            clocks,
            entries: 0,
            goroutines,
            timers,
            channels,
            syncs,
            ctxs,
            ending: Ending::Running,
        })
    }

    /// The entry is made, and the state goes on. Whom a broadcast signals was made to wait for the mutex before, one after the other; and the contexts that
    /// end by an entry were ended before, by `cut`.
    pub fn apply(&mut self, script: &Script, entry: &Entry)
        requires good { IsGood script.now }
        requires formed { IsFormed script.now (state_of self.old) }
        requires may { May script.now (state_of self.old) entry.now }
        requires room { length (change_of entry.now).starts ≤ self.old.goroutines.spare }
        requires few { self.old.entries < 200000 }
        requires channels { HasChannels script.now self.old }
        requires contexts { HasContexts script.now self.old }
        requires signalled { IfSome (change_of entry.now).broadcast (λ k. at.suspended_count (state_of self.old) k ≡ 0) }
        requires uncut { is_cut (change_of entry.now).tree ≡ false }
        ensures state { state_of self.new ≡ after.after script.now (state_of self.old) entry.now }
        ensures room { length self.new.goroutines.items + self.new.goroutines.spare
            ≡ length self.old.goroutines.items + self.old.goroutines.spare }
        ensures channels { HasChannels script.now self.new }
        ensures contexts { HasContexts script.now self.new }
    {
        let mover = mover_of(entry);
        let begins = self.begins(script, entry);
        self.retime(script, mover, timer_of(entry));
        self.trade(mover, channel_of(entry));
        self.step_sync(script, mover, sync_of(entry));
        self.grow(script, mover, tree_of(entry));
        self.move_on(script, mover);
        self.move_on(script, partner_of(entry));
        self.start(begins);
        self.move_clock(clock_of(entry));
        self.end(ending_of(entry));
        self.entries += 1;
    }

    /// A goroutine that waits at a Cond is signalled, and waits for the mutex.
    pub fn relock(&mut self, g: u32, k: u32)
        requires { IsInside self.old.goroutines.items g }
        ensures state { state_of self.new ≡ record (state_of self.old) {
          goroutines = change_numbered (state_of self.old).goroutines g (after.in_mode (Mode.Relocking k));
        } }
        ensures many { length self.new.goroutines.items ≡ length self.old.goroutines.items }
        ensures spare { self.new.goroutines.spare ≡ self.old.goroutines.spare }
        ensures channels { self.new.channels ≡ self.old.channels }
        ensures contexts { self.new.ctxs ≡ self.old.ctxs }
    {
        self.goroutines.at_mut(g as usize - 1).mode = Mode::Relocking { cond: k };
    }

    /// The run ends with an outcome.
    pub fn finish(&mut self, outcome: Outcome)
        ensures state { (script : _) → state_of self.new ≡ after.after script (state_of self.old) (Entry.Finish outcome) }
        ensures room { self.new.goroutines ≡ self.old.goroutines }
        ensures channels { self.new.channels ≡ self.old.channels }
        ensures contexts { self.new.ctxs ≡ self.old.ctxs }
    {
        self.ending = Ending::Finished(outcome);
    }

    /// One entry more was made, which changes nothing else.
    pub fn count(&mut self)
        requires { self.old.entries < 200000 }
        ensures state { state_of self.new ≡ record (state_of self.old) { entries = self.old.entries + 1 } }
        ensures room { self.new.goroutines ≡ self.old.goroutines }
        ensures channels { self.new.channels ≡ self.old.channels }
        ensures contexts { (script : Script) → HasContexts script self.old → HasContexts script self.new }
        ensures ended { ended_of self.new ≡ ended_of self.old }
    {
        self.entries += 1;
    }

    /// What becomes of a timer, by who makes the entry.
    fn retime(
        &mut self,
        script: &Script,
        mover: Option<(u32, Move)>,
        change: Option<(u32, Setting)>,
    )
        requires { IfSome change (λ x. x.0 < length self.old.timers.items) }
        ensures state { state_of self.new ≡ record (state_of self.old) {
          timers = after.with_retimed script.now (state_of self.old) mover (state_of self.old).timers change;
        } }
        ensures room { self.new.goroutines ≡ self.old.goroutines }
        ensures channels { self.new.channels ≡ self.old.channels }
        ensures contexts { self.new.ctxs ≡ self.old.ctxs }
    {
        let Some((t, setting)) = change else {
            return;
        };
        let world = self.mover_world(mover);
        let period = self.new_period(script, mover, t);
        self.timers[t as usize] = retimed(world, period, self.timers[t as usize], setting);
    }

    /// What becomes of a channel, by who makes the entry.
    fn trade(&mut self, mover: Option<(u32, Move)>, change: Option<(u32, Trade)>)
        requires { IfSome change (λ x. IsTradable self.old.channels.items x.0 x.1) }
        ensures state { state_of self.new ≡ record (state_of self.old) {
          channels = after.with_traded (state_of self.old) mover (state_of self.old).channels change;
        } }
        ensures room { self.new.goroutines ≡ self.old.goroutines }
        ensures channels { capacities self.new.channels.items ≡ capacities self.old.channels.items }
        ensures contexts { self.new.ctxs ≡ self.old.ctxs }
    {
        let Some((c, how)) = change else {
            return;
        };
        let world = self.mover_world(mover);
        trade_channel(world, &mut self.channels[c as usize], how);
    }

    /// What becomes of a mutex or a WaitGroup, by who makes the entry.
    fn step_sync(
        &mut self,
        script: &Script,
        mover: Option<(u32, Move)>,
        change: Option<(u32, SyncStep)>,
    )
        requires { IfSome change (λ x. IsSteppable script.now self.old.syncs.items x.0 x.1) }
        ensures state { state_of self.new ≡ record (state_of self.old) {
          syncs = after.with_stepped script.now (state_of self.old) mover (state_of self.old).syncs change;
        } }
        ensures room { self.new.goroutines ≡ self.old.goroutines }
        ensures channels { self.new.channels ≡ self.old.channels }
        ensures contexts { self.new.ctxs ≡ self.old.ctxs }
    {
        let Some((o, step)) = change else {
            return;
        };
        let world = self.mover_world(mover);
        step_syncs(script, world, &mut self.syncs, o, step);
    }

    /// What becomes of one who makes the entry.
    pub fn move_on(&mut self, script: &Script, mover: Option<(u32, Move)>)
        requires good { IsGood script.now }
        requires inside { IfSome mover (λ x. IsInside self.old.goroutines.items x.0) }
        ensures state { state_of self.new ≡ record (state_of self.old) {
          goroutines = after.with_mover script.now (state_of self.old).goroutines mover;
        } }
        ensures many { length self.new.goroutines.items ≡ length self.old.goroutines.items }
        ensures spare { self.new.goroutines.spare ≡ self.old.goroutines.spare }
        ensures channels { self.new.channels ≡ self.old.channels }
        ensures contexts { self.new.ctxs ≡ self.old.ctxs }
    {
        if let Some((g, how)) = mover {
            move_goroutine(script, self.goroutines.at_mut(g as usize - 1), how);
        }
    }

    /// A goroutine begins, if one is started.
    fn start(&mut self, begins: Option<Goroutine>)
        requires { IsSome begins → 0 < self.old.goroutines.spare }
        ensures state { state_of self.new ≡ record (state_of self.old) {
          goroutines = with_new (state_of self.old).goroutines begins;
        } }
        ensures room { length self.new.goroutines.items + self.new.goroutines.spare
            ≡ length self.old.goroutines.items + self.old.goroutines.spare }
        ensures channels { self.new.channels ≡ self.old.channels }
        ensures contexts { self.new.ctxs ≡ self.old.ctxs }
    {
        if let Some(r) = begins {
            self.goroutines.put(r);
        }
    }

    /// A clock moves, if the entry moves one.
    fn move_clock(&mut self, clock: Option<(u32, u64)>)
        requires { IfSome clock (λ x. x.0 < length self.old.clocks.items) }
        ensures state { state_of self.new ≡ record (state_of self.old) { clocks = after.with_clock (state_of self.old).clocks clock } }
        ensures room { self.new.goroutines ≡ self.old.goroutines }
        ensures channels { self.new.channels ≡ self.old.channels }
        ensures contexts { self.new.ctxs ≡ self.old.ctxs }
    {
        if let Some((world, at)) = clock {
            self.clocks[world as usize] = at;
        }
    }

    /// The run ends, if the entry ends it.
    fn end(&mut self, ending: Option<Ending>)
        ensures state { state_of self.new ≡ record (state_of self.old) { ending = after.option_or (state_of self.old).ending ending } }
        ensures room { self.new.goroutines ≡ self.old.goroutines }
        ensures channels { self.new.channels ≡ self.old.channels }
        ensures contexts { self.new.ctxs ≡ self.old.ctxs }
    {
        if let Some(ending) = ending {
            self.ending = ending;
        }
    }
}

impl Machine {
    ghost use Rattle.gt_machine.specs.Machine.{state_of};

    /// Goroutine g; none where no goroutine has that number.
    fn goroutine(&self, g: u32) -> Option<Goroutine>
        ensures { result ≡ at.goroutine_at (state_of self.now) g }
    {
        if g == 0 {
            None
        } else {
            self.goroutines.as_slice().get((g - 1) as usize).copied()
        }
    }

    /// The timer of declaration t; none where it was not made.
    fn timer(&self, t: u32) -> Option<Timer>
        ensures { result ≡ at.timer_at (state_of self.now) t }
    {
        match self.timers.get(t as usize) {
            Some(timer) => *timer,
            None => None,
        }
    }

    /// The channel of declaration c; none where it was not made.
    fn channel(&self, c: u32) -> Option<&Chan>
        ensures state { made_in (option_copied result) ≡ at.channel_at (state_of self.now) c }
        ensures made { IfSome result (λ channel. IsSome channel.now.world) }
    {
        match self.channels.get(c as usize) {
            Some(channel) if channel.world().is_some() => Some(channel),
            _ => None,
        }
    }

    /// Whether the timer, the channel or the context of declaration o was made.
    pub fn is_made(&self, o: u32) -> bool
        ensures { result ≡ at.is_made (state_of self.now) o }
    {
        self.timer(o).is_some() || self.channel(o).is_some() || self.context(o).is_some()
    }

    /// Whether channel c is closed; false where it was not made.
    pub fn is_closed(&self, c: u32) -> bool
        ensures { result ≡ at.is_closed (state_of self.now) c }
    {
        match self.channel(c) {
            Some(channel) => channel.is_closed(),
            None => false,
        }
    }

    /// The value that was sent first of those that channel c keeps; none where it keeps none, or was not made.
    pub fn first_item(&self, c: u32) -> Option<u32>
        ensures { result ≡ slice_get (at.items_of (state_of self.now) c) 0 }
    {
        match self.channel(c) {
            Some(channel) => channel.first(),
            None => None,
        }
    }

    /// How many values channel c keeps; 0 where it was not made.
    pub fn item_count(&self, c: u32) -> usize
        ensures { result ≡ at.item_count (state_of self.now) c }
    {
        match self.channel(c) {
            Some(channel) => channel.len(),
            None => 0,
        }
    }

    /// Whether channel c keeps fewer values than its declaration lets it keep. One that was not made keeps none.
    pub fn has_room(&self, script: &Script, c: u32) -> bool
        ensures { result ≡ nat_lt (at.item_count (state_of self.now) c) (capacity_of script.now c) }
    {
        self.item_count(c) < capacity(script, c) as usize
    }

    /// What there is of a mutex or a WaitGroup.
    fn sync(&self, o: u32) -> SyncState
        ensures { result ≡ at.sync_at (state_of self.now) o }
    {
        match self.syncs.get(o as usize) {
            Some(sync) => *sync,
            None => UNUSED,
        }
    }

    /// Whether mutex m is locked.
    pub fn is_locked(&self, m: u32) -> bool
        ensures { result ≡ at.is_locked (state_of self.now) m }
    {
        self.sync(m).locked
    }

    /// Whether the counter of WaitGroup w is 0.
    pub fn is_done(&self, w: u32) -> bool
        ensures { result ≡ at.is_done (state_of self.now) w }
    {
        self.sync(w).counter == 0
    }

    /// The world of goroutine g; 0 where no goroutine has that number.
    pub(crate) fn world_of(&self, g: u32) -> u32
        ensures { result ≡ at.world_of (state_of self.now) g }
    {
        self.goroutine(g).map_or(0, |r| r.world)
    }

    /// The world of who makes an entry; 0 where nobody does.
    pub(crate) fn mover_world(&self, mover: Option<(u32, Move)>) -> u32
        ensures { result ≡ at.world_of (state_of self.now) (after.number_of mover) }
    {
        match mover {
            Some((g, _)) => self.world_of(g),
            None => 0,
        }
    }

    /// The time between two ticks of the setting that this one's instruction makes of timer t: 0 but for a ticker.
    fn new_period(&self, script: &Script, mover: Option<(u32, Move)>, t: u32) -> u64
        ensures { result ≡ after.new_period script.now (state_of self.now) (after.number_of mover) t }
    {
        if !is_ticker(script, t) {
            return 0;
        }
        match mover {
            Some((g, _)) => match self.stands_at(script, g) {
                Some(instr) => duration_of(instr),
                None => 0,
            },
            None => 0,
        }
    }

    /// The world in which timer t was made; 0 where it was not made.
    pub(crate) fn timer_world(&self, t: u32) -> u32
        ensures { result ≡ after.timer_world (state_of self.now) t }
    {
        self.timer(t).map_or(0, |timer| timer.world)
    }

    /// The clock of a world, in nanoseconds.
    pub fn clock(&self, world: u32) -> u64
        requires { world < length self.now.clocks.items }
        ensures { result ≡ at.clock (state_of self.now) world }
    {
        self.clocks[world as usize]
    }

    /// The clock of the world of goroutine g, in nanoseconds.
    pub fn clock_of(&self, g: u32) -> u64
        requires { at.world_of (state_of self.now) g < length self.now.clocks.items }
        ensures { result ≡ at.clock_of (state_of self.now) g }
    {
        self.clock(self.world_of(g))
    }

    /// The instruction at which goroutine g stands. None where there is no such goroutine, where it sleeps and where it has
    /// ended.
    pub fn stands_at<'a>(&self, script: &'a Script, g: u32) -> Option<&'a Instr>
        ensures { option_copied result ≡ at.stands_at script.now (state_of self.now) g }
    {
        match self.goroutine(g) {
            Some(
                Goroutine {
                    place,
                    mode: Mode::At,
                    ..
                },
            ) => instr_at(script, place),
            _ => None,
        }
    }

    /// The instruction at the place of goroutine g, whether it stands there, sleeps or has ended.
    pub fn instr_of<'a>(&self, script: &'a Script, g: u32) -> &'a Instr
        requires formed { IsFormed script.now (state_of self.now) }
        requires there { IsSome (at.goroutine_at (state_of self.now) g) }
        ensures { placed_at script.now (state_of self.now) g ≡ Some result.now }
    {
        let place = self.goroutines.at(g as usize - 1).place;
        let func = &script.funcs.as_slice()[place.func as usize];
        &func.code.as_slice()[place.at as usize]
    }

    /// Why a goroutine panics that stands at this instruction; none where it does not.
    fn fault(&self, script: &Script, i: &Instr) -> Option<Reason>
        ensures { result ≡ panics.fault script.now (state_of self.now) i.now }
    {
        match *i {
            Instr::New { t, d } => first_of(
                when(self.timer(t).is_some(), Reason::Twice),
                zero_ticker(script, t, d),
            ),
            Instr::Stop { t } => when(self.timer(t).is_none(), Reason::Unmade),
            Instr::Reset { t, d } => first_of(
                when(self.timer(t).is_none(), Reason::Unmade),
                zero_ticker(script, t, d),
            ),
            Instr::Recv { o } => when(!self.is_made(o), Reason::Unmade),
            Instr::Make { c } => when(self.channel(c).is_some(), Reason::Twice),
            Instr::Send { c, .. } | Instr::Close { c } => self.open_fault(c),
            Instr::CWait { k } => when(!self.is_locked(mutex_of(script, k)), Reason::Unlocked),
            Instr::Unlock { m } => when(!self.is_locked(m), Reason::Unlocked),
            Instr::With { x } => first_of(
                when(self.context(x).is_some(), Reason::Twice),
                self.unmade_parent(parent_of(script, x)),
            ),
            Instr::Cancel { x, .. } | Instr::ErrOf { x } | Instr::CauseOf { x } => when(
                self.context(x).is_none(),
                Reason::Unmade,
            ),
            Instr::After { s } => first_of(
                when(self.is_registered(s), Reason::Twice),
                self.unmade_parent(ctx_of(script, s)),
            ),
            Instr::Unhook { s } => when(!self.is_registered(s), Reason::Unmade),
            Instr::Add { w, n } => when(falls_below(self.sync(w).counter, n), Reason::Negative),
            Instr::Select { ref cases, .. } => match self.faulty_case(cases.as_slice()) {
                Some((_, reason)) => Some(reason),
                None => None,
            },
            _ => None,
        }
    }

    /// Why a goroutine panics that stands at this instruction, and the number of the case: that of the first faulty one of a choice, and 0 of a plain
    /// instruction. None where it does not panic.
    pub fn fault_at(&self, script: &Script, i: &Instr) -> Option<(u32, Reason)>
        requires { HasFewCases i.now }
        ensures { result ≡ panics.fault_at script.now (state_of self.now) i.now }
    {
        match i {
            Instr::Select { cases, .. } => match self.faulty_case(cases.as_slice()) {
                Some((k, reason)) => Some((k as u32 + 1, reason)),
                None => None,
            },
            _ => match self.fault(script, i) {
                Some(reason) => Some((0, reason)),
                None => None,
            },
        }
    }

    /// The place of the first faulty case of a choice, and why it is faulty; none where none is.
    fn faulty_case(&self, cases: &[Case]) -> Option<(usize, Reason)>
        ensures { result ≡ first_fault (state_of self.now) 0 cases.now }
    {
        for k in 0..cases.len() {
            if let Some(reason) = self.case_fault(cases[k].kind) {
                return Some((k, reason));
            }
        }
        None
    }

    /// Why the use of a case's object panics: it was not made; none where it was. That a channel is closed is no misuse before the case is chosen.
    fn case_fault(&self, kind: CaseKind) -> Option<Reason>
        ensures { result ≡ panics.case_fault (state_of self.now) kind }
    {
        match kind {
            CaseKind::Recv(o) => when(!self.is_made(o), Reason::Unmade),
            CaseKind::Send(c, _) => when(self.channel(c).is_none(), Reason::Unmade),
        }
    }

    /// Why the use of channel c panics: it was not made, or it was closed; none where it is open.
    fn open_fault(&self, c: u32) -> Option<Reason>
        ensures { result ≡ panics.open_fault (state_of self.now) c }
    {
        match self.channel(c) {
            None => Some(Reason::Unmade),
            Some(channel) => when(channel.is_closed(), Reason::Closed),
        }
    }

    /// Why the use of a context's parent panics, or of a hook's context: it was not made; none where it was, and where there is none.
    fn unmade_parent(&self, parent: Option<u32>) -> Option<Reason>
        ensures { result ≡ panics.unmade_parent (state_of self.now) parent }
    {
        when(self.context(parent?).is_none(), Reason::Unmade)
    }

    /// The Cond at which goroutine g was signalled, while it waits for the mutex; none where it does not.
    pub fn relocking_at(&self, g: u32) -> Option<u32>
        ensures { result ≡ option_and_then at.relocking_at (at.mode_of (state_of self.now) g) }
    {
        match self.goroutine(g) {
            Some(
                Goroutine {
                    mode: Mode::Relocking { cond },
                    ..
                },
            ) => Some(cond),
            _ => None,
        }
    }

    /// The time, in nanoseconds, until which goroutine g sleeps; none where it does not sleep.
    pub fn until(&self, g: u32) -> Option<u64>
        ensures { result ≡ at.sleeps_until (state_of self.now) g }
    {
        match self.goroutine(g) {
            Some(
                Goroutine {
                    mode: Mode::Sleeping { until },
                    ..
                },
            ) => Some(until),
            _ => None,
        }
    }

    /// When timer t is due, in nanoseconds; none where it was not made or is not set.
    pub fn due_of(&self, t: u32) -> Option<u64>
        ensures { result ≡ at.due_of (state_of self.now) t }
    {
        match self.timer(t) {
            Some(timer) => timer.due,
            None => None,
        }
    }

    /// How many goroutines were made.
    pub fn goroutine_count(&self) -> u32
        requires { length self.now.goroutines.items < 2 ^ 32 }
        ensures { result ≡ length self.now.goroutines.items }
    {
        self.goroutines.len() as u32
    }

    /// The outcome with which the run is to end now: main has ended, a goroutine has panicked, or as many entries were made
    /// as the limit allows. None where the run goes on, and where it has ended.
    pub fn due_outcome(&self, limits: Limits) -> Option<Outcome>
        ensures { result ≡ outcomes.due_outcome limits (state_of self.now) }
    {
        match self.ending {
            Ending::MainEnded => Some(Outcome::Exit),
            Ending::Panicked => Some(Outcome::Panic),
            Ending::Running if self.entries == limits.entries => Some(Outcome::Limit),
            _ => None,
        }
    }

    /// The outcome of the run; none while it has not ended.
    pub fn outcome(&self) -> Option<Outcome>
        ensures { result ≡ outcomes.outcome_in self.now.ending }
    {
        match self.ending {
            Ending::Finished(outcome) => Some(outcome),
            _ => None,
        }
    }
}

/// The reason, if the test says so.
fn when(test: bool, reason: Reason) -> Option<Reason>
    ensures { result ≡ panics.when test reason }
{
    if test { Some(reason) } else { None }
}

/// The first of two reasons.
fn first_of(one: Option<Reason>, other: Option<Reason>) -> Option<Reason>
    ensures { result ≡ panics.or_else one other }
{
    match one {
        Some(reason) => Some(reason),
        None => other,
    }
}

/// Whether a ticker would have no time between its ticks.
fn zero_ticker(script: &Script, t: u32, d: u64) -> Option<Reason>
    ensures { result ≡ panics.zero_ticker script.now t d }
{
    when(is_ticker(script, t) && d == 0, Reason::Ticker)
}

/// Whether a number that is added brings a counter below 0.
fn falls_below(counter: u64, n: i64) -> bool
    ensures { result ≡ panics.falls_below counter n }
{
    n < 0 && counter < n.unsigned_abs()
}

/// The duration of a setting; 0 of any other instruction.
fn duration_of(instr: &Instr) -> u64
    ensures { result ≡ after.duration_of (Some instr.now) }
{
    match instr {
        Instr::New { d, .. } | Instr::Reset { d, .. } => *d,
        _ => 0,
    }
}
