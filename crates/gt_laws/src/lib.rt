//! What each complete history keeps, read from its entries alone, and where a program is idle: each function's contract is a law.
#![tactic(auto)]

ghost use Rattle.std.specs.Prelude.{ℕ, ◌<◌, ◌≡◌, List, [], ◌∷◌};
ghost use Rattle.std.specs.declared.option.Option.TheVariants.{None, Some};
ghost use Rattle.gt_model.specs.declared.script.Instr.{Instr};
ghost use Rattle.gt_model.specs.declared.script.Script.{Script};
ghost use Rattle.gt_model.specs.declared.entry.Entry.{Entry};
ghost use Rattle.gt_model.specs.declared.entry.Limits.{Limits};
ghost use Rattle.gt_model.specs.declared.entry.Outcome.{Outcome};
ghost use Rattle.gt_model.specs.declared.state.Ending.{Ending};
ghost use Rattle.gt_model.specs.Good.{IsGood};
ghost use Rattle.gt_model.specs.Script.{code_of};
ghost use Rattle.gt_rules.specs.After.{first_state};
ghost use Rattle.gt_rules.specs.Counted.{counted};
ghost use Rattle.gt_rules.specs.History.{AllJump, AllLegal, History, state_after};
ghost use Rattle.gt_rules.specs.State.{State};
ghost use Rattle.gt_facts.specs.Quiet.{IsQuiet};
ghost use Rattle.gt_rules.specs.Finish.{IsIdle};
ghost use Rattle.gt_facts.specs.Still.{IsStill};
ghost use Rattle.gt_laws.specs.Told.{ending_told};
ghost use Rattle.gt_laws.specs.Laws.{AtEach, InOrder, InTime, IsFresh, PassesOn, UsesRightly, ChoosesRightly, IsAlone, AddsUp, IsSignalled, KeepsFirstCause, HooksOnce, HooksStay, HasOneCause};
ghost use Rattle.gt_laws.specs.Unrolled.{InTurn, turn_of};
ghost use Rattle.gt_laws.specs.Ends.{EndsRightly, EndsWhereStuck, JumpsToLeast};
ghost use Rattle.gt_laws.specs.GoesOn.{counted_told, IsStillTold, IsStuckTold};
ghost use Rattle.gt_laws.specs.Broken as broken;

/// Each goroutine makes its calls once and in order, and each call gives the number, the end of the sleep or the due time that it should.
pub fn calls_come_in_order()
    ensures { (script : Script) (limits : Limits) (h : List Entry) (outcome : Outcome)
        → IsGood script → History script limits h outcome → AtEach (InOrder script) h }
{}

/// Loops repeat their bodies exactly as often as they say, and a choice leads into the body of its case: each goroutine stands, sleeps or waits at the
/// instruction to which its moves lead through its function's code.
pub fn loops_repeat_as_they_say()
    ensures { (script : Script) (limits : Limits) (h : List Entry) (outcome : Outcome)
        → IsGood script → History script limits h outcome → AtEach (InTurn script) h }
{}

/// Nothing comes before its time.
pub fn nothing_comes_early()
    ensures { (script : Script) (limits : Limits) (h : List Entry) (outcome : Outcome)
        → IsGood script → History script limits h outcome → AtEach (InTime script) h }
{}

/// No value of a setting that was ended is received, be it ended by a stop, by a later setting or by a receive: none is received twice.
pub fn no_value_is_stale()
    ensures { (script : Script) (limits : Limits) (h : List Entry) (outcome : Outcome)
        → IsGood script → History script limits h outcome → AtEach (IsFresh script) h }
{}

/// A timer or a channel is made once and used where it was made, a channel is closed once, with nothing sent to it after, a mutex is unlocked where it is
/// locked, be it by a wait at a Cond, and nothing brings a counter below 0: a call that would be a misuse is never made, and each panic is one, for the reason
/// that it gives. A choice is a misuse where a case of it is, and so is the choice of a case that sends to a closed channel.
pub fn a_panic_is_a_misuse()
    ensures { (script : Script) (limits : Limits) (h : List Entry) (outcome : Outcome)
        → IsGood script → History script limits h outcome → AtEach (UsesRightly script) h }
{}

/// The values of a channel come out in the order in which they were sent, each once and none invented, and there are never more in it than its capacity.
/// Nothing is sent after a close, and a receive gives nothing only after it, when the channel is drained. A channel without room passes a value from one
/// goroutine to another in one entry.
pub fn values_pass_in_order()
    ensures { (script : Script) (limits : Limits) (h : List Entry) (outcome : Outcome)
        → IsGood script → History script limits h outcome → AtEach (PassesOn script) h }
{}

/// A default is taken only where no case of its choice could go on but by a partner, and where a value passes from one goroutine to another, one of them
/// stood where it would wait.
pub fn defaults_are_taken_rightly()
    ensures { (script : Script) (limits : Limits) (h : List Entry) (outcome : Outcome)
        → IsGood script → History script limits h outcome → AtEach (ChoosesRightly script) h }
{}

/// A mutex is locked only where nobody has it, and unlocked only where it is held; a wait at a Cond unlocks it, and locks it again at its end. So between a lock
/// and the next unlock nobody else locks it.
pub fn a_mutex_is_held_alone()
    ensures { (script : Script) (limits : Limits) (h : List Entry) (outcome : Outcome)
        → IsGood script → History script limits h outcome → AtEach (IsAlone script) h }
{}

/// A signal wakes one that waits at its Cond, and nobody exactly where nobody waits there; a broadcast wakes all that do, and says how many. Who was signalled
/// waits there no more: so no signal wakes two, and each wake-up, which by the order of calls is of one that was signalled, answers one signal or broadcast that
/// came after its wait.
pub fn a_signal_wakes_one_that_waits()
    ensures { (script : Script) (limits : Limits) (h : List Entry) (outcome : Outcome)
        → IsGood script → History script limits h outcome → AtEach (IsSignalled script) h }
{}

/// An add does not bring the counter of a WaitGroup below 0, and a wait goes on only where the sum of the adds is 0.
pub fn a_wait_ends_at_zero()
    ensures { (script : Script) (limits : Limits) (h : List Entry) (outcome : Outcome)
        → IsGood script → History script limits h outcome → AtEach AddsUp h }
{}

/// A context keeps the first cause of its end. Its end is the first one that reaches it, be it its own or that of a context above it; what its error and its cause
/// show is of that end, and nothing before it. A context is found ended only after it, a cancellation says whether it brought the end, and a deadline ends only a
/// context whose own it is, not before, and that has no end yet: so no context ends twice.
pub fn a_context_keeps_its_first_cause()
    ensures { (script : Script) (limits : Limits) (h : List Entry) (outcome : Outcome)
        → IsGood script → History script limits h outcome → AtEach (KeepsFirstCause script) h }
{}

/// All looks at one context show the same cause, and the same error, where they show one.
pub fn a_context_has_one_cause()
    ensures { (script : Script) (limits : Limits) (h : List Entry) (outcome : Outcome)
        → IsGood script → History script limits h outcome → HasOneCause h }
{}

/// A hook starts once: with the end of its context, or at once where that has ended. An end starts as many as wait on the contexts that it reaches. Who takes a
/// hook back keeps it from being started exactly where it waits.
pub fn a_hook_starts_once()
    ensures { (script : Script) (limits : Limits) (h : List Entry) (outcome : Outcome)
        → IsGood script → History script limits h outcome → AtEach (HooksOnce script) h }
{}

/// A hook that was started stays so, and one that was kept from it is never started.
pub fn a_hook_stays_as_it_is()
    ensures { (script : Script) (limits : Limits) (h : List Entry) (outcome : Outcome)
        → IsGood script → History script limits h outcome → AtEach (HooksStay script) h }
{}

/// A run ends for its cause: with an exit after the end of main's function, with a panic after a misuse, at its limit, or with a deadlock where
/// nothing can go on. Nothing comes after.
pub fn a_run_ends_for_its_cause()
    ensures { (script : Script) (limits : Limits) (h : List Entry) (outcome : Outcome)
        → IsGood script → History script limits h outcome → AtEach (EndsRightly script limits) h }
{}

/// Where nothing can go on, a run whose clock moves by idle jumps alone ends with a deadlock.
pub fn a_stuck_run_ends()
    ensures { (script : Script) (limits : Limits) (slip : ℕ) (h : List Entry) (outcome : Outcome)
        → IsGood script → History script limits h outcome → AllJump script slip (first_state script) h → AtEach (EndsWhereStuck script limits) h }
{}

/// Where the program's clock moves by idle jumps alone is told by the entries and the script: it moves only where the program stands still, to its least
/// counted time and a slip more.
pub fn a_clock_jumps_to_the_least_time()
    ensures told { (script : Script) (limits : Limits) (slip : ℕ) (h : List Entry) (outcome : Outcome)
        → IsGood script → History script limits h outcome → AllJump script slip (first_state script) h → AtEach (JumpsToLeast script slip) h }
    ensures jumps { (script : Script) (limits : Limits) (slip : ℕ) (h : List Entry) (outcome : Outcome)
        → IsGood script → History script limits h outcome → AtEach (JumpsToLeast script slip) h → AllJump script slip (first_state script) h }
{}

/// These laws say all that the machine's rules ask: a list of entries that keeps them at each entry and has a finish is a complete history.
pub fn what_keeps_the_laws_is_a_history()
    ensures { (script : Script) (limits : Limits) (h : List Entry) (outcome : Outcome)
        → IsGood script → AtEach (InOrder script) h → AtEach (InTime script) h → AtEach (IsFresh script) h → AtEach (UsesRightly script) h
        → AtEach (PassesOn script) h → AtEach (ChoosesRightly script) h → AtEach (IsAlone script) h → AtEach AddsUp h → AtEach (IsSignalled script) h
        → AtEach (KeepsFirstCause script) h → AtEach (HooksOnce script) h → AtEach (EndsRightly script limits) h → ending_told h ≡ Ending.Finished outcome → History script limits h outcome }
{}

/// Where nothing can go on is told by the entries and the script alone: it is where the machine's state after them stands still and counts no time.
pub fn the_entries_tell_where_nothing_goes_on()
    ensures stuck { (script : Script) (limits : Limits) (h : List Entry) → IsGood script → AllLegal script limits (first_state script) h
        → IsStuckTold script h → IsStill script (state_after script (first_state script) h) × (counted script (state_after script (first_state script) h) 0 ≡ []) }
    ensures told { (script : Script) (limits : Limits) (h : List Entry) → IsGood script → AllLegal script limits (first_state script) h
        → IsStill script (state_after script (first_state script) h) → counted script (state_after script (first_state script) h) 0 ≡ [] → IsStuckTold script h }
    ensures still { (script : Script) (limits : Limits) (h : List Entry) → IsGood script → AllLegal script limits (first_state script) h
        → IsStillTold script h → IsStill script (state_after script (first_state script) h) }
    ensures still_told { (script : Script) (limits : Limits) (h : List Entry) → IsGood script → AllLegal script limits (first_state script) h
        → IsStill script (state_after script (first_state script) h) → IsStillTold script h }
    ensures counted { (script : Script) (limits : Limits) (h : List Entry) (w : ℕ) → IsGood script → AllLegal script limits (first_state script) h
        → counted_told script w h ≡ counted script (state_after script (first_state script) h) w }
{}

/// A program is idle exactly where nobody is ready and no AfterFunc timer has come to its time.
pub fn a_program_is_idle_where_it_stands_still()
    ensures idle { (script : Script) (s : State) → IsStill script s → IsIdle script s }
    ensures still { (script : Script) (s : State) → IsGood script → IsIdle script s → IsStill script s }
{}

/// The law of quiet: where nobody could go on and no counted time has come, nothing may come next but a move of the clock.
pub fn a_quiet_program_is_idle()
    ensures { (script : Script) (s : State) → IsQuiet script s → IsIdle script s }
{}

/// Calls in another order, calls made twice and calls left out are no histories. Nor is a wake-up of who is awake, a sleep within a
/// sleep, one that is cut short, or a number given twice. Nor is a call of another case's body, or a case that has another number. Nor is a wake-up at a Cond of
/// who was not signalled, or two after one signal. Nor is a number that one has whom a hook started.
pub fn calls_out_of_order_break_the_law()
    ensures swapped { ¬ AtEach (InOrder broken.two_calls) broken.swapped }
    ensures twice { ¬ AtEach (InOrder broken.two_calls) broken.twice }
    ensures left_out { ¬ AtEach (InOrder broken.two_calls) broken.left_out }
    ensures wakes_awake { ¬ AtEach (InOrder broken.one_sleep) broken.wakes_awake }
    ensures asleep_twice { ¬ AtEach (InOrder broken.one_sleep) broken.asleep_twice }
    ensures cut_short { ¬ AtEach (InOrder broken.one_sleep) broken.cut_short }
    ensures number_twice { ¬ AtEach (InOrder broken.one_start) broken.number_twice }
    ensures other_body { ¬ AtEach (InOrder broken.one_choice) broken.other_body }
    ensures other_case { ¬ AtEach (InOrder broken.one_choice) broken.other_case }
    ensures wakes_unsignalled { ¬ AtEach (InOrder broken.one_cond) broken.wakes_unsignalled }
    ensures wakes_twice { ¬ AtEach (InOrder broken.one_cond) broken.wakes_twice }
    ensures number_of_a_hook { ¬ AtEach (InOrder broken.hook_and_start) broken.number_of_a_hook }
{}

/// A loop of two that is passed once or three times is no history. Nor is a call of a goroutine that is started later: it is not where its turn is.
pub fn a_third_pass_breaks_the_law()
    ensures first { turn_of (code_of broken.two_passes 0) [] ≡ Some (Instr.Say 1) }
    ensures again { turn_of (code_of broken.two_passes 0) (0 ∷ []) ≡ Some (Instr.Say 1) }
    ensures over { turn_of (code_of broken.two_passes 0) (0 ∷ 0 ∷ []) ≡ Some Instr.Finish }
    ensures behind { turn_of (code_of broken.two_passes 0) (0 ∷ 0 ∷ 0 ∷ []) ≡ None }
    ensures one_pass { ¬ AtEach (InOrder broken.two_passes) broken.one_pass }
    ensures third_pass { ¬ AtEach (InOrder broken.two_passes) broken.third_pass }
    ensures unstarted { ¬ AtEach (InTurn broken.one_start) broken.unstarted }
{}

/// In a loop of two passes a choice is made twice: once for its case, and once for its default, whose bodies come.
pub fn a_choice_leads_into_a_body()
    ensures case { turn_of (code_of broken.two_choices 0) (0 ∷ 1 ∷ []) ≡ Some (Instr.Say 1) }
    ensures again { turn_of (code_of broken.two_choices 0) (0 ∷ 1 ∷ 0 ∷ []) ≡ Some broken.choice }
    ensures default { turn_of (code_of broken.two_choices 0) (0 ∷ 1 ∷ 0 ∷ 0 ∷ []) ≡ Some (Instr.Say 2) }
    ensures over { turn_of (code_of broken.two_choices 0) (0 ∷ 1 ∷ 0 ∷ 0 ∷ 0 ∷ []) ≡ Some Instr.Finish }
{}

/// A sleep that ends early is no history, nor is a clock that falls or passes the greatest time, a look at it that sees another time, or a context that expires early.
pub fn an_early_wake_breaks_the_law()
    ensures early { ¬ AtEach (InTime broken.one_sleep) broken.early }
    ensures falls_back { ¬ AtEach (InTime broken.one_sleep) broken.falls_back }
    ensures past_all_time { ¬ AtEach (InTime broken.one_sleep) broken.past_all_time }
    ensures wrong_time { ¬ AtEach (InTime broken.one_sleep) broken.wrong_time }
    ensures expires_early { ¬ AtEach (InTime broken.two_deadlines) broken.expires_early }
{}

/// A receive of the value of a setting that a later one ended is no history, nor is a stop that denies a setting, a timer that fires after it was stopped,
/// a ticker that drifts or passes over a tick that is still to come, or one whose stop answers something.
pub fn a_stale_value_breaks_the_law()
    ensures stale { ¬ AtEach (IsFresh broken.one_timer) broken.stale }
    ensures denied { ¬ AtEach (IsFresh broken.one_timer) broken.denied }
    ensures fires_stopped { ¬ AtEach (IsFresh broken.one_timer) broken.fires_stopped }
    ensures off_tick { ¬ AtEach (IsFresh broken.one_ticker) broken.off_tick }
    ensures far_tick { ¬ AtEach (IsFresh broken.one_ticker) broken.far_tick }
    ensures ticker_answers { ¬ AtEach (IsFresh broken.one_ticker) broken.ticker_answers }
{}

/// A value that comes out before one that was sent earlier is none of a history, nor is one that comes out twice, one too many for the room of its channel,
/// one that is passed on past that room, a receive that gives nothing from an open channel, or a send after the close.
pub fn a_value_out_of_order_breaks_the_law()
    ensures overtaken { ¬ AtEach (PassesOn broken.two_values) broken.overtaken }
    ensures received_twice { ¬ AtEach (PassesOn broken.two_values) broken.received_twice }
    ensures overfull { ¬ AtEach (PassesOn broken.one_room) broken.overfull }
    ensures passed_by { ¬ AtEach (PassesOn broken.one_passed) broken.passed_by }
    ensures nothing_while_open { ¬ AtEach (PassesOn broken.one_receive) broken.nothing_while_open }
    ensures sent_after_close { ¬ AtEach (PassesOn broken.one_close) broken.sent_after_close }
{}

/// A default that is taken over a value that waits, or over a channel that was closed, is none of a history, nor is a value that passes between two
/// goroutines neither of which would wait.
pub fn a_default_over_a_value_breaks_the_law()
    ensures over_a_value { ¬ AtEach (ChoosesRightly broken.one_choice) broken.over_a_value }
    ensures over_a_close { ¬ AtEach (ChoosesRightly broken.one_shut) broken.over_a_close }
    ensures neither_waits { ¬ AtEach (ChoosesRightly broken.two_polls) broken.neither_waits }
{}

/// A mutex that two have at once is none of a history, be it locked or got back from a wait at a Cond, nor is one that is unlocked where it is free.
pub fn a_mutex_of_two_breaks_the_law()
    ensures two_hold { ¬ AtEach (IsAlone broken.one_cond) broken.two_hold }
    ensures unlocked_free { ¬ AtEach (IsAlone broken.one_cond) broken.unlocked_free }
    ensures woken_over_a_lock { ¬ AtEach (IsAlone broken.one_cond) broken.woken_over_a_lock }
{}

/// A signal of nobody while somebody waits is none of a history, nor is one of somebody that was signalled before, or a broadcast that miscounts.
pub fn a_lost_signal_breaks_the_law()
    ensures nobody_signalled { ¬ AtEach (IsSignalled broken.one_cond) broken.nobody_signalled }
    ensures signalled_twice { ¬ AtEach (IsSignalled broken.one_cond) broken.signalled_twice }
    ensures miscounted { ¬ AtEach (IsSignalled broken.one_cond) broken.miscounted }
{}

/// A context that ends twice is none of a history, nor is a cause that overwrites the first one, a look that shows a cause before the end or none after it, a wait
/// for the end that ends before it, a deadline that ends a context early, twice or below an earlier one, or a context that is made live below an ended one.
pub fn a_second_cause_breaks_the_law()
    ensures ends_twice { ¬ AtEach (KeepsFirstCause broken.two_causes) broken.ends_twice }
    ensures overwritten { ¬ AtEach (KeepsFirstCause broken.two_causes) broken.overwritten }
    ensures shows_nothing { ¬ AtEach (KeepsFirstCause broken.two_causes) broken.shows_nothing }
    ensures shows_early { ¬ AtEach (KeepsFirstCause broken.two_causes) broken.shows_early }
    ensures found_early { ¬ AtEach (KeepsFirstCause broken.two_causes) broken.found_early }
    ensures shows_two { ¬ HasOneCause broken.shows_two }
    ensures expires_early { ¬ AtEach (KeepsFirstCause broken.two_deadlines) broken.expires_early }
    ensures expires_below { ¬ AtEach (KeepsFirstCause broken.two_deadlines) broken.expires_below }
    ensures expires_twice { ¬ AtEach (KeepsFirstCause broken.two_deadlines) broken.expires_twice }
    ensures made_live { ¬ AtEach (KeepsFirstCause broken.two_deadlines) broken.made_live }
{}

/// A hook that starts after it was taken back, that starts twice, before its context ends or not with it, or that is taken back after it was started, is none of a
/// history, nor is one that is registered again.
pub fn a_hook_that_starts_twice_breaks_the_law()
    ensures starts_stopped { ¬ AtEach (HooksOnce broken.one_hook) broken.starts_stopped }
    ensures hook_left_out { ¬ AtEach (HooksOnce broken.one_hook) broken.hook_left_out }
    ensures stop_denied { ¬ AtEach (HooksOnce broken.one_hook) broken.stop_denied }
    ensures starts_again { ¬ AtEach (HooksOnce broken.one_hook) broken.starts_again }
    ensures stopped_late { ¬ AtEach (HooksOnce broken.one_hook) broken.stopped_late }
    ensures starts_early { ¬ AtEach (HooksOnce broken.one_hook) broken.starts_early }
    ensures waits_late { ¬ AtEach (HooksOnce broken.one_hook) broken.waits_late }
    ensures registered_again { ¬ AtEach (HooksStay broken.one_hook) broken.registered_again }
{}

/// A wait that goes on above 0 is none of a history, nor is a counter that falls below 0.
pub fn a_wait_above_zero_breaks_the_law()
    ensures above_zero { ¬ AtEach AddsUp broken.above_zero }
    ensures below_zero { ¬ AtEach AddsUp broken.below_zero }
{}

/// A timer that is made twice or stopped before it was made, a ticker without a time between its ticks that goes on, a panic without a misuse, for another
/// reason or with the number of another case, a choice that goes on beside a case which is a misuse, a wait at a Cond without its mutex, a context that is made
/// twice or before its parent, and a hook that is registered twice, or taken back before it was registered, are no histories.
pub fn a_misuse_without_a_panic_breaks_the_law()
    ensures made_twice { ¬ AtEach (UsesRightly broken.two_calls) broken.made_twice }
    ensures unmade { ¬ AtEach (UsesRightly broken.one_stop) broken.unmade }
    ensures without_a_period { ¬ AtEach (UsesRightly broken.no_period) broken.without_a_period }
    ensures for_nothing { ¬ AtEach (UsesRightly broken.two_calls) broken.for_nothing }
    ensures for_another_reason { ¬ AtEach (UsesRightly broken.one_stop) broken.for_another_reason }
    ensures beside_a_misuse { ¬ AtEach (UsesRightly broken.one_unmade) broken.beside_a_misuse }
    ensures for_another_case { ¬ AtEach (UsesRightly broken.one_unmade) broken.for_another_case }
    ensures for_no_close { ¬ AtEach (UsesRightly broken.two_polls) broken.for_no_close }
    ensures without_a_lock { ¬ AtEach (UsesRightly broken.one_cond) broken.without_a_lock }
    ensures context_twice { ¬ AtEach (UsesRightly broken.two_deadlines) broken.context_twice }
    ensures made_above { ¬ AtEach (UsesRightly broken.two_deadlines) broken.made_above }
    ensures registered_again { ¬ AtEach (UsesRightly broken.one_hook) broken.registered_again }
    ensures stopped_unregistered { ¬ AtEach (UsesRightly broken.one_hook) broken.stopped_unregistered }
{}

/// A deadlock while somebody sleeps is no end of a history, an exit or a limit before its time is none, and nothing comes after main's function has ended.
/// Where main waits for a timer that was stopped nothing can go on, and time does not pass without a deadlock.
pub fn a_wrong_end_breaks_the_law()
    ensures given_up { (limits : Limits) → ¬ AtEach (EndsRightly broken.one_sleep limits) broken.given_up }
    ensures exits_early { (limits : Limits) → ¬ AtEach (EndsRightly broken.two_calls limits) broken.exits_early }
    ensures limit_early { (limits : Limits) → 0 < limits.entries → ¬ AtEach (EndsRightly broken.two_calls limits) broken.limit_early }
    ensures after_the_end { (limits : Limits) → ¬ AtEach (EndsRightly broken.two_calls limits) broken.after_the_end }
    ensures time_after_the_end { (limits : Limits) → ¬ AtEach (EndsRightly broken.two_calls limits) broken.time_after_the_end }
    ensures stuck { IsStuckTold broken.one_wait broken.waits_in_vain }
    ensures in_vain { (limits : Limits) → 2 < limits.entries → ¬ AtEach (EndsWhereStuck broken.one_wait limits) broken.goes_on_in_vain }
{}

/// A jump of the clock past the end of a sleep, or where somebody could go on, is none of a history whose clock moves by idle jumps alone.
pub fn a_far_jump_breaks_the_law()
    ensures far { ¬ AtEach (JumpsToLeast broken.one_sleep 0) broken.jumps_far }
    ensures early { (slip : ℕ) → ¬ AtEach (JumpsToLeast broken.one_sleep slip) broken.jumps_early }
{}
