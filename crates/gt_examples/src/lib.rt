//! Worked examples of the one-thread machine: each function's contract says what a small history is judged to be.
#![tactic(auto)]

ghost use Rattle.gt_rules.specs.History.{History, AllJump};
ghost use Rattle.gt_rules.specs.After.{first_state};
ghost use Rattle.gt_rules.specs.Verdict.{IsVerdict};
ghost use Rattle.gt_model.specs.declared.entry.Outcome.{Outcome};
ghost use Rattle.gt_model.specs.declared.entry.Verdict.{Verdict};
ghost use Rattle.gt_examples.specs.Words.{default_limits};
ghost use Rattle.gt_examples.specs.Sleeps as sleeps;
ghost use Rattle.gt_examples.specs.Ends as ends;
ghost use Rattle.gt_examples.specs.Stops as stops;
ghost use Rattle.gt_examples.specs.Receives as receives;
ghost use Rattle.gt_examples.specs.Resets as resets;
ghost use Rattle.gt_examples.specs.Caps as caps;
ghost use Rattle.gt_examples.specs.Fires as fires;
ghost use Rattle.gt_examples.specs.Panics as panics;
ghost use Rattle.gt_examples.specs.PanicsTwice as panics_twice;
ghost use Rattle.gt_examples.specs.Deadlocks as deadlocks;
ghost use Rattle.gt_examples.specs.Starts as starts;
ghost use Rattle.gt_examples.specs.Limited as limited;
ghost use Rattle.gt_examples.specs.Loops as loops;
ghost use Rattle.gt_examples.specs.SendsClosed as sends_closed;
ghost use Rattle.gt_examples.specs.Pairs as pairs;
ghost use Rattle.gt_examples.specs.Buffers as buffers;
ghost use Rattle.gt_examples.specs.Orders as orders;
ghost use Rattle.gt_examples.specs.NobodySends as nobody_sends;
ghost use Rattle.gt_examples.specs.Chooses as chooses;
ghost use Rattle.gt_examples.specs.Defaults as defaults;
ghost use Rattle.gt_examples.specs.Polls as polls;
ghost use Rattle.gt_examples.specs.ChoosesClosed as chooses_closed;
ghost use Rattle.gt_examples.specs.FirstFault as first_fault;
ghost use Rattle.gt_examples.specs.TwoPolls as two_polls;
ghost use Rattle.gt_examples.specs.Ticks as ticks;
ghost use Rattle.gt_examples.specs.Locks as locks;
ghost use Rattle.gt_examples.specs.LocksTwice as locks_twice;
ghost use Rattle.gt_examples.specs.Negative as negative;
ghost use Rattle.gt_examples.specs.UnlocksFree as unlocks_free;
ghost use Rattle.gt_examples.specs.CondWaits as cond_waits;
ghost use Rattle.gt_examples.specs.Signals as signals;
ghost use Rattle.gt_examples.specs.WaitsUnlocked as waits_unlocked;
ghost use Rattle.gt_examples.specs.LostSignal as lost_signal;
ghost use Rattle.gt_examples.specs.Without as without;
ghost use Rattle.gt_examples.specs.FirstCause as first_cause;
ghost use Rattle.gt_examples.specs.Deadlines as deadlines;
ghost use Rattle.gt_examples.specs.Hooks as hooks;
ghost use Rattle.gt_examples.specs.Cancels as cancels;
ghost use Rattle.gt_examples.specs.CancelsUnmade as cancels_unmade;
ghost use Rattle.gt_examples.specs.NobodyCancels as nobody_cancels;
ghost use Rattle.gt_examples.specs.ChoosesAnEnd as chooses_an_end;

/// main sleeps for 5 ms and looks at the clock.
pub fn sleeps_and_looks()
    ensures history { History sleeps.script default_limits sleeps.history Outcome.Exit }
    ensures jumps { AllJump sleeps.script 0 (first_state sleeps.script) sleeps.history }
{}

/// main ends at once.
pub fn ends_at_once()
    ensures { History ends.script default_limits ends.history Outcome.Exit }
{}

/// A loop is passed as often as it says, one in it each time anew, and one with no pass is passed over.
pub fn loops()
    ensures { History loops.script default_limits loops.history Outcome.Exit }
{}

/// A loop of two passes is passed a third time.
pub fn loops_once_more()
    ensures { IsVerdict loops.script default_limits loops.once_more (Verdict.Illegal 7) }
{}

/// A loop with no pass is entered.
pub fn enters_a_loop_without_passes()
    ensures { IsVerdict loops.script default_limits loops.entered (Verdict.Illegal 2) }
{}

/// The clock moves before the sleep that waits for it: the sleep is not legal there.
pub fn clock_before_sleep()
    ensures { IsVerdict sleeps.script default_limits sleeps.swapped (Verdict.Illegal 2) }
{}

/// A goroutine wakes before its time.
pub fn wakes_early()
    ensures { IsVerdict sleeps.script default_limits sleeps.early (Verdict.Illegal 2) }
{}

/// A look at the clock that answers another time.
pub fn looks_wrongly()
    ensures { IsVerdict sleeps.script default_limits sleeps.wrong_time (Verdict.Illegal 4) }
{}

/// Each entry is legal, and the end of the run is missing.
pub fn without_end()
    ensures { IsVerdict sleeps.script default_limits sleeps.cut_short Verdict.Unfinished }
{}

/// A timer that is due and of which nobody has received is stopped: it was set.
pub fn stops()
    ensures history { History stops.script default_limits stops.history Outcome.Exit }
    ensures jumps { AllJump stops.script 0 (first_state stops.script) stops.history }
{}

/// A receive waits for its timer; after it the timer is not set.
pub fn receives()
    ensures history { History receives.script default_limits receives.history Outcome.Exit }
    ensures jumps { AllJump receives.script 0 (first_state receives.script) receives.history }
{}

/// A reset ends the setting before it: its value is not received.
pub fn resets()
    ensures history { History resets.script default_limits resets.history Outcome.Exit }
    ensures jumps { AllJump resets.script 0 (first_state resets.script) resets.history }
{}

/// A due time past the greatest time stands at it.
pub fn caps()
    ensures history { History caps.script default_limits caps.history Outcome.Exit }
    ensures jumps { AllJump caps.script 0 (first_state caps.script) caps.history }
{}

/// An AfterFunc timer starts its function.
pub fn fires()
    ensures history { History fires.script default_limits fires.history Outcome.Exit }
    ensures jumps { AllJump fires.script 0 (first_state fires.script) fires.history }
{}

/// A timer that was not made is stopped.
pub fn panics()
    ensures history { History panics.script default_limits panics.history Outcome.Panic }
    ensures jumps { AllJump panics.script 0 (first_state panics.script) panics.history }
{}

/// A timer is made twice.
pub fn panics_twice()
    ensures history { History panics_twice.script default_limits panics_twice.history Outcome.Panic }
    ensures jumps { AllJump panics_twice.script 0 (first_state panics_twice.script) panics_twice.history }
{}

/// A receive from a timer that was stopped waits for ever.
pub fn deadlocks()
    ensures history { History deadlocks.script default_limits deadlocks.history Outcome.Deadlock }
    ensures jumps { AllJump deadlocks.script 0 (first_state deadlocks.script) deadlocks.history }
{}

/// A goroutine is started, and runs while main sleeps.
pub fn starts()
    ensures history { History starts.script default_limits starts.history Outcome.Exit }
    ensures jumps { AllJump starts.script 0 (first_state starts.script) starts.history }
{}

/// Stop answers that a timer that is set is not.
pub fn stop_answers_wrongly()
    ensures { IsVerdict stops.script default_limits stops.denies (Verdict.Illegal 5) }
{}

/// A receive before its timer is due.
pub fn receives_early()
    ensures { IsVerdict receives.script default_limits receives.early (Verdict.Illegal 2) }
{}

/// A reset that keeps the due time of the setting before it.
pub fn reset_keeps_the_old_time()
    ensures { IsVerdict resets.script default_limits resets.keeps_the_old_time (Verdict.Illegal 5) }
{}

/// A deadlock while a sleep and an AfterFunc timer are still to come.
pub fn deadlock_while_set()
    ensures { IsVerdict fires.script default_limits fires.deadlock_while_set (Verdict.Illegal 3) }
{}

/// Stop answers for a timer that was not made.
pub fn answers_for_an_unmade_timer()
    ensures { IsVerdict panics.script default_limits panics.answers (Verdict.Illegal 1) }
{}

/// A new goroutine that takes another number than the next.
pub fn skips_a_number()
    ensures { IsVerdict starts.script default_limits starts.skips_a_number (Verdict.Illegal 1) }
{}

/// A run ends where it has as many entries as its limit.
pub fn reaches_its_limit()
    ensures history { History limited.script limited.limits limited.history Outcome.Limit }
    ensures jumps { AllJump limited.script 0 (first_state limited.script) limited.history }
{}

/// The limit with one entry too few.
pub fn limit_comes_early()
    ensures { IsVerdict limited.script limited.limits limited.early (Verdict.Illegal 2) }
{}

/// An entry where the limit has been reached.
pub fn passes_its_limit()
    ensures { IsVerdict limited.script limited.limits limited.late (Verdict.Illegal 3) }
{}

/// A value is sent to a channel that was closed.
pub fn sends_to_a_closed_channel()
    ensures history { History sends_closed.script default_limits sends_closed.history Outcome.Panic }
    ensures jumps { AllJump sends_closed.script 0 (first_state sends_closed.script) sends_closed.history }
{}

/// A channel that was closed keeps a value that is sent to it.
pub fn closed_channel_keeps_a_value()
    ensures { IsVerdict sends_closed.script default_limits sends_closed.keeps_it (Verdict.Illegal 3) }
{}

/// A channel that keeps no values passes one from a goroutine to another.
pub fn pairs()
    ensures history { History pairs.script default_limits pairs.history Outcome.Exit }
    ensures jumps { AllJump pairs.script 0 (first_state pairs.script) pairs.history }
{}

/// A channel that keeps no values keeps one.
pub fn keeps_a_value_without_room()
    ensures { IsVerdict pairs.script default_limits pairs.keeps_it (Verdict.Illegal 3) }
{}

/// A deadlock while one goroutine sends to a channel from which another one receives.
pub fn deadlock_beside_a_partner()
    ensures { IsVerdict pairs.script default_limits pairs.deadlock_beside_a_partner (Verdict.Illegal 3) }
{}

/// A channel gives the values that it keeps in their order, also once it was closed; then a receive gives none.
pub fn buffers()
    ensures history { History buffers.script default_limits buffers.history Outcome.Exit }
    ensures jumps { AllJump buffers.script 0 (first_state buffers.script) buffers.history }
{}

/// The second value is received before it was sent.
pub fn receives_the_second_value_first()
    ensures { IsVerdict buffers.script default_limits buffers.second_first (Verdict.Illegal 4) }
{}

/// A value is sent to a channel that has no room.
pub fn sends_past_the_capacity()
    ensures { IsVerdict buffers.script default_limits buffers.past_its_capacity (Verdict.Illegal 4) }
{}

/// A value passes from a goroutine to another by a channel that keeps values.
pub fn pairs_past_a_buffer()
    ensures { IsVerdict buffers.script default_limits buffers.passed_by (Verdict.Illegal 3) }
{}

/// A receive gives none where the channel is open.
pub fn receives_none_from_an_open_channel()
    ensures { IsVerdict buffers.script default_limits buffers.gives_none (Verdict.Illegal 3) }
{}

/// A value is received a second time.
pub fn receives_a_value_twice()
    ensures { IsVerdict buffers.script default_limits buffers.first_twice (Verdict.Illegal 5) }
{}

/// A channel that keeps two values gives the first one first.
pub fn keeps_their_order()
    ensures history { History orders.script default_limits orders.history Outcome.Exit }
    ensures jumps { AllJump orders.script 0 (first_state orders.script) orders.history }
{}

/// A channel that keeps two values gives the second one first.
pub fn gives_the_second_value_first()
    ensures { IsVerdict orders.script default_limits orders.second_first (Verdict.Illegal 4) }
{}

/// A receive from a channel to which nobody sends waits for ever.
pub fn waits_for_nobody()
    ensures history { History nobody_sends.script default_limits nobody_sends.history Outcome.Deadlock }
    ensures jumps { AllJump nobody_sends.script 0 (first_state nobody_sends.script) nobody_sends.history }
{}

/// A choice goes on at the body of the case whose channel is sent to.
pub fn chooses()
    ensures history { History chooses.script default_limits chooses.history Outcome.Exit }
    ensures jumps { AllJump chooses.script 0 (first_state chooses.script) chooses.history }
{}

/// A value passes at a case that receives from another channel.
pub fn passes_at_another_case()
    ensures { IsVerdict chooses.script default_limits chooses.other_case (Verdict.Illegal 4) }
{}

/// A choice goes on at the body of another case.
pub fn goes_on_at_another_case()
    ensures { IsVerdict chooses.script default_limits chooses.other_body (Verdict.Illegal 5) }
{}

/// A choice whose timer was stopped goes on at its default.
pub fn defaults()
    ensures history { History defaults.script default_limits defaults.history Outcome.Exit }
    ensures jumps { AllJump defaults.script 0 (first_state defaults.script) defaults.history }
{}

/// A choice with a default goes on at the case that gives a value.
pub fn polls()
    ensures history { History polls.script default_limits polls.history Outcome.Exit }
    ensures jumps { AllJump polls.script 0 (first_state polls.script) polls.history }
{}

/// The default of a choice is taken over a case that gives a value.
pub fn defaults_over_a_case()
    ensures { IsVerdict polls.script default_limits polls.passed_by (Verdict.Illegal 3) }
{}

/// A choice with a case that sends to a closed channel goes on at another case.
pub fn chooses_beside_a_closed_channel()
    ensures history { History chooses_closed.script default_limits chooses_closed.receives Outcome.Exit }
    ensures jumps { AllJump chooses_closed.script 0 (first_state chooses_closed.script) chooses_closed.receives }
{}

/// A choice of a case that sends to a closed channel panics.
pub fn chooses_a_closed_channel()
    ensures history { History chooses_closed.script default_limits chooses_closed.sends Outcome.Panic }
    ensures jumps { AllJump chooses_closed.script 0 (first_state chooses_closed.script) chooses_closed.sends }
{}

/// A case that receives from a closed channel panics.
pub fn panics_at_another_case()
    ensures { IsVerdict chooses_closed.script default_limits chooses_closed.wrong_case (Verdict.Illegal 3) }
{}

/// A case of a choice names a timer that was not made: the panic has its number.
pub fn first_faulty_case()
    ensures history { History first_fault.script default_limits first_fault.history Outcome.Panic }
    ensures jumps { AllJump first_fault.script 0 (first_state first_fault.script) first_fault.history }
{}

/// The panic of a choice has the number of a case that is not faulty.
pub fn faults_at_another_case()
    ensures { IsVerdict first_fault.script default_limits first_fault.wrong_case (Verdict.Illegal 2) }
{}

/// A choice with a faulty case goes on at its default.
pub fn defaults_over_a_faulty_case()
    ensures { IsVerdict first_fault.script default_limits first_fault.passed_by (Verdict.Illegal 2) }
{}

/// Two choices with a default each go on there, though one sends and the other receives.
pub fn two_polls()
    ensures history { History two_polls.script default_limits two_polls.history Outcome.Exit }
    ensures jumps { AllJump two_polls.script 0 (first_state two_polls.script) two_polls.history }
{}

/// Two choices with a default meet.
pub fn two_polls_meet()
    ensures { IsVerdict two_polls.script default_limits two_polls.meet (Verdict.Illegal 3) }
{}

/// A slow receiver misses ticks: the next one comes a whole number of periods after the one that was received, no sooner than it is due.
pub fn ticks()
    ensures history { History ticks.script default_limits ticks.history Outcome.Exit }
    ensures jumps { AllJump ticks.script 0 (first_state ticks.script) ticks.history }
{}

/// A ticker drifts: its next tick is a period behind a late receive.
pub fn ticker_drifts()
    ensures { IsVerdict ticks.script default_limits ticks.drifts (Verdict.Illegal 5) }
{}

/// A ticker passes over a tick that is still to come.
pub fn ticker_passes_over_a_tick()
    ensures { IsVerdict ticks.script default_limits ticks.passes_over (Verdict.Illegal 5) }
{}

/// A ticker is set anew and stopped, and neither answers anything.
pub fn stops_a_ticker()
    ensures history { History ticks.stopped default_limits ticks.stops Outcome.Exit }
    ensures jumps { AllJump ticks.stopped 0 (first_state ticks.stopped) ticks.stops }
{}

/// The stop of a ticker answers that it was set.
pub fn ticker_stop_answers()
    ensures { IsVerdict ticks.stopped default_limits ticks.stop_answers (Verdict.Illegal 3) }
{}

/// A ticker is made without a time between its ticks.
pub fn panics_without_a_period()
    ensures history { History ticks.without_a_period default_limits ticks.panics Outcome.Panic }
    ensures jumps { AllJump ticks.without_a_period 0 (first_state ticks.without_a_period) ticks.panics }
{}

/// A run goes on where a ticker was made without a time between its ticks.
pub fn goes_on_without_a_period()
    ensures { IsVerdict ticks.without_a_period default_limits ticks.goes_on (Verdict.Illegal 1) }
{}

/// Two goroutines lock a mutex one after the other, and main waits for the second one.
pub fn locks()
    ensures history { History locks.script default_limits locks.history Outcome.Exit }
    ensures jumps { AllJump locks.script 0 (first_state locks.script) locks.history }
{}

/// Two goroutines have a mutex at once.
pub fn two_hold_a_mutex()
    ensures { IsVerdict locks.script default_limits locks.two_hold (Verdict.Illegal 4) }
{}

/// A wait goes on while the counter of its WaitGroup is 1.
pub fn goes_on_above_zero()
    ensures { IsVerdict locks.script default_limits locks.above_zero (Verdict.Illegal 5) }
{}

/// A deadlock while a goroutine could lock a mutex that is free.
pub fn deadlock_beside_a_lock()
    ensures { IsVerdict locks.script default_limits locks.deadlock_beside_a_lock (Verdict.Illegal 5) }
{}

/// Who locks a mutex that it has waits for ever.
pub fn locks_twice()
    ensures history { History locks_twice.script default_limits locks_twice.history Outcome.Deadlock }
    ensures jumps { AllJump locks_twice.script 0 (first_state locks_twice.script) locks_twice.history }
{}

/// A goroutine locks a mutex that it has.
pub fn locks_what_it_has()
    ensures { IsVerdict locks_twice.script default_limits locks_twice.locks_again (Verdict.Illegal 2) }
{}

/// A counter would fall below 0.
pub fn panics_below_zero()
    ensures history { History negative.script default_limits negative.history Outcome.Panic }
    ensures jumps { AllJump negative.script 0 (first_state negative.script) negative.history }
{}

/// A run goes on where a counter fell below 0.
pub fn goes_on_below_zero()
    ensures { IsVerdict negative.script default_limits negative.goes_on (Verdict.Illegal 1) }
{}

/// A mutex that is free is unlocked.
pub fn unlocks_a_free_mutex()
    ensures history { History unlocks_free.script default_limits unlocks_free.history Outcome.Panic }
    ensures jumps { AllJump unlocks_free.script 0 (first_state unlocks_free.script) unlocks_free.history }
{}

/// A run goes on where a free mutex was unlocked.
pub fn goes_on_after_a_free_unlock()
    ensures { IsVerdict unlocks_free.script default_limits unlocks_free.goes_on (Verdict.Illegal 1) }
{}

/// main waits at a Cond until another goroutine signals it, and goes on once the mutex is free.
pub fn waits_at_a_cond()
    ensures history { History cond_waits.script default_limits cond_waits.history Outcome.Exit }
    ensures jumps { AllJump cond_waits.script 0 (first_state cond_waits.script) cond_waits.history }
{}

/// Who was signalled goes on while another one has the mutex.
pub fn wakes_over_a_lock()
    ensures { IsVerdict cond_waits.script default_limits cond_waits.wakes_over_a_lock (Verdict.Illegal 7) }
{}

/// Who waits at a Cond goes on without a signal.
pub fn wakes_unsignalled()
    ensures { IsVerdict cond_waits.script default_limits cond_waits.wakes_unsignalled (Verdict.Illegal 5) }
{}

/// A deadlock while a goroutine was signalled and the mutex is free.
pub fn deadlock_beside_a_signal()
    ensures { IsVerdict cond_waits.script default_limits cond_waits.deadlock_beside_a_signal (Verdict.Illegal 10) }
{}

/// Of two that wait at a Cond a signal wakes one, and a broadcast the other one.
pub fn signals_and_broadcasts()
    ensures history { History signals.script default_limits signals.history Outcome.Exit }
    ensures jumps { AllJump signals.script 0 (first_state signals.script) signals.history }
{}

/// A signal wakes two.
pub fn signal_wakes_two()
    ensures { IsVerdict signals.script default_limits signals.wakes_two (Verdict.Illegal 12) }
{}

/// A signal wakes nobody while two wait.
pub fn signal_wakes_nobody()
    ensures { IsVerdict signals.script default_limits signals.wakes_nobody (Verdict.Illegal 8) }
{}

/// A broadcast counts a goroutine that was signalled before.
pub fn broadcast_miscounts()
    ensures { IsVerdict signals.script default_limits signals.miscounts (Verdict.Illegal 11) }
{}

/// Who waits at a Cond without its mutex unlocks a mutex that is free.
pub fn waits_without_the_mutex()
    ensures history { History waits_unlocked.script default_limits waits_unlocked.history Outcome.Panic }
    ensures jumps { AllJump waits_unlocked.script 0 (first_state waits_unlocked.script) waits_unlocked.history }
{}

/// A run goes on where a goroutine waited at a Cond without its mutex.
pub fn goes_on_without_the_mutex()
    ensures { IsVerdict waits_unlocked.script default_limits waits_unlocked.goes_on (Verdict.Illegal 1) }
{}

/// A signal that comes before the wait is lost: who waits then waits for ever.
pub fn signals_too_early()
    ensures history { History lost_signal.script default_limits lost_signal.history Outcome.Deadlock }
    ensures jumps { AllJump lost_signal.script 0 (first_state lost_signal.script) lost_signal.history }
{}

/// A signal wakes a goroutine that waits after it.
pub fn signal_wakes_later()
    ensures { IsVerdict lost_signal.script default_limits lost_signal.wakes_later (Verdict.Illegal 4) }
{}

/// A cancellation does not pass a context of the form `without`: the one below it goes on.
pub fn ends_above_without()
    ensures history { History without.script default_limits without.history Outcome.Exit }
    ensures jumps { AllJump without.script 0 (first_state without.script) without.history }
{}

/// A cancellation passes a context of the form `without`.
pub fn passes_without()
    ensures { IsVerdict without.script default_limits without.passes (Verdict.Illegal 5) }
{}

/// A context that was canceled keeps its cause, and so does the one below it, when the deadline above them passes.
pub fn keeps_the_first_cause()
    ensures history { History first_cause.script default_limits first_cause.history Outcome.Exit }
    ensures jumps { AllJump first_cause.script 0 (first_state first_cause.script) first_cause.history }
{}

/// The deadline of a parent overwrites the cause of a context that was canceled.
pub fn overwrites_a_cause()
    ensures { IsVerdict first_cause.script default_limits first_cause.overwrites (Verdict.Illegal 19) }
{}

/// A context ends by a deadline that is still to come.
pub fn expires_before_its_deadline()
    ensures { IsVerdict first_cause.script default_limits first_cause.early (Verdict.Illegal 9) }
{}

/// A deadline passes, and ends its context and the one below it, whose own is later; one whose time is 0 has ended at once.
pub fn passes_a_deadline()
    ensures history { History deadlines.script default_limits deadlines.history Outcome.Exit }
    ensures jumps { AllJump deadlines.script 0 (first_state deadlines.script) deadlines.history }
{}

/// A context whose deadline has come is made without an end.
pub fn made_live_past_its_deadline()
    ensures { IsVerdict deadlines.script default_limits deadlines.live (Verdict.Illegal 3) }
{}

/// A wait for the end of a context goes on before it.
pub fn found_before_its_end()
    ensures { IsVerdict deadlines.script default_limits deadlines.found_early (Verdict.Illegal 5) }
{}

/// A deadlock while the deadline of a context is still to come.
pub fn deadlock_before_a_deadline()
    ensures { IsVerdict deadlines.script default_limits deadlines.gives_up (Verdict.Illegal 5) }
{}

/// A context ends by the deadline of the one above it, as if that were its own.
pub fn expires_by_another_deadline()
    ensures { IsVerdict deadlines.script default_limits deadlines.expires_below (Verdict.Illegal 6) }
{}

/// Of two hooks that wait one is taken back, and the end starts the other one; one that is registered after it starts at once.
pub fn starts_hooks()
    ensures history { History hooks.script default_limits hooks.history Outcome.Exit }
    ensures jumps { AllJump hooks.script 0 (first_state hooks.script) hooks.history }
{}

/// A hook starts before its context ends.
pub fn hook_starts_before_the_end()
    ensures { IsVerdict hooks.script default_limits hooks.starts_early (Verdict.Illegal 2) }
{}

/// A hook that waits is taken back, and that is denied.
pub fn denies_that_a_hook_waits()
    ensures { IsVerdict hooks.script default_limits hooks.denies (Verdict.Illegal 4) }
{}

/// An end starts a hook that was taken back.
pub fn starts_a_stopped_hook()
    ensures { IsVerdict hooks.script default_limits hooks.starts_both (Verdict.Illegal 5) }
{}

/// An end does not start a hook that waits.
pub fn leaves_out_a_hook()
    ensures { IsVerdict hooks.script default_limits hooks.starts_none (Verdict.Illegal 5) }
{}

/// A hook waits for a context that has ended.
pub fn hook_waits_behind_the_end()
    ensures { IsVerdict hooks.script default_limits hooks.waits_late (Verdict.Illegal 6) }
{}

/// Of two cancellations the first one brings the end, which a context that is made below has at once.
pub fn cancels_twice()
    ensures history { History cancels.script default_limits cancels.history Outcome.Exit }
    ensures jumps { AllJump cancels.script 0 (first_state cancels.script) cancels.history }
{}

/// A cancellation brings an end to a context that has ended.
pub fn ends_a_context_twice()
    ensures { IsVerdict cancels.script default_limits cancels.ends_twice (Verdict.Illegal 3) }
{}

/// A context is made without an end below one that has ended.
pub fn made_live_below_an_end()
    ensures { IsVerdict cancels.script default_limits cancels.live_below (Verdict.Illegal 4) }
{}

/// A context that was not made is canceled.
pub fn cancels_an_unmade_context()
    ensures history { History cancels_unmade.script default_limits cancels_unmade.history Outcome.Panic }
    ensures jumps { AllJump cancels_unmade.script 0 (first_state cancels_unmade.script) cancels_unmade.history }
{}

/// A run goes on where a context was canceled that was not made.
pub fn goes_on_without_a_context()
    ensures { IsVerdict cancels_unmade.script default_limits cancels_unmade.goes_on (Verdict.Illegal 1) }
{}

/// A wait for the end of a context that nobody cancels waits for ever.
pub fn nobody_cancels()
    ensures history { History nobody_cancels.script default_limits nobody_cancels.history Outcome.Deadlock }
    ensures jumps { AllJump nobody_cancels.script 0 (first_state nobody_cancels.script) nobody_cancels.history }
{}

/// A wait for the end of a context that nobody cancels goes on.
pub fn goes_on_without_an_end()
    ensures { IsVerdict nobody_cancels.script default_limits nobody_cancels.goes_on (Verdict.Illegal 2) }
{}

/// A choice goes on at the case that waits for the end of a context.
pub fn chooses_an_end()
    ensures history { History chooses_an_end.script default_limits chooses_an_end.history Outcome.Exit }
    ensures jumps { AllJump chooses_an_end.script 0 (first_state chooses_an_end.script) chooses_an_end.history }
{}

/// A choice goes on for the end of a context at a case that waits for something else.
pub fn chooses_an_end_at_another_case()
    ensures { IsVerdict chooses_an_end.script default_limits chooses_an_end.other_case (Verdict.Illegal 5) }
{}
