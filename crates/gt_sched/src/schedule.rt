//! The schedule.

ghost use Rattle.std.specs.Prelude.{◌≡◌, ◌⊎◌, ◌+◌, ◌-◌, ◌^◌, ◌<◌, ◌≤◌, ℕ, [], ◌∷◌, ◌++◌, min, replicate, All, IfOk, IfErr, IsOk, OnOk, OnErr, MatchOption};
ghost use Rattle.gt_sched.specs.Items.{with_item, first_fault, count_of, turns_of, items_of};
ghost use Rattle.gt_sched.specs.Schedules.{fault_of, drawn};

use crate::fault::SchedFault;
use crate::item::{Run, first_part, read_run};
use rand_core::SeedableRng;
use rand_core::utils::NextWord;
use rand_pcg::Lcg64Xsh32;
use std::alloc::{AllocError, Global};
use std::collections::VecDeque;
use std::marker::Model;

const MOST_TURNS: u64 = 1_000_000;

/// Which worker takes the next turn, and the ones after it. It is seen as the list of the turns that are left, each the
/// number of its worker.
#[derive(Drop)]
pub struct Schedule {
    turns: VecDeque<u32>,
}

impl Model for Schedule {
    ghost use Rattle.std.specs.Prelude.{ℕ, List};

    ghost Value = { List ℕ };

    ghost view = { λ s. s.turns.items };
}

// What was read of a text: its turns, while they are not too many, and their number.
#[derive(Drop)]
struct Reading {
    turns: VecDeque<u32>,
    total: u64,
}

// Adds so many turns of one worker at the end.
fn append(turns: &mut VecDeque<u32>, worker: u32, count: usize) -> Result<(), AllocError>
    ensures { OnOk result (turns.new.items ≡ turns.old.items ++ replicate count worker) }
{
    turns.reserve(count)?;
    for _ in 0..count {
        turns.push_back_reserved(worker);
    }
    Ok(())
}

// Reads what stands between two blanks, from the byte `at` on: an item, or nothing.
fn read_part(reading: &mut Reading, part: &[u8], at: usize, ps: u32) -> Result<(), SchedFault>
    requires { ps ≤ 16 }
    ensures good { OnOk result (first_fault ps (with_item at part.now []) ≡ None) }
    ensures total { OnOk result (reading.new.total
        ≡ min (reading.old.total + count_of (with_item at part.now [])) (2 ^ 64 - 1)) }
    ensures turns { OnOk result (reading.new.total ≤ 1000000
        → reading.new.turns.items ≡ reading.old.turns.items ++ turns_of (with_item at part.now [])) }
    ensures fault { IfErr result (λ e. (e ≡ SchedFault.NoMemory)
        ⊎ (first_fault ps (with_item at part.now []) ≡ Some e)) }
{
    let total = reading.total;
    if part.is_empty() {
        return Ok(());
    }
    let Run { worker, count } = read_run(part, at, ps)?;
    reading.total = total.saturating_add(count);
    if reading.total <= MOST_TURNS {
        append(&mut reading.turns, worker as u32, count as usize)?;
    }
    Ok(())
}

impl Schedule {
    /// The schedule that a text spells, for `ps` workers, 1 to 16. It takes memory.
    ///
    /// Items stand between spaces, tabs, carriage returns and line feeds. An item is a number N, which is one turn of
    /// worker N, or `NxK`, which is K of them. Leading zeros are accepted. The first item of another form, or of no
    /// worker, is the fault; where there is none, more than 1,000,000 turns are.
    pub fn read(alloc: Global, text: &[u8], ps: u32) -> Result<Schedule, SchedFault>
        requires some { 0 < ps }
        requires few { ps ≤ 16 }
        ensures turns { IfOk result (λ schedule. schedule ≡ turns_of (items_of text.now)) }
        ensures workers { IfOk result (All (λ p. p < ps)) }
        ensures good { IsOk result → fault_of ps text.now ≡ None }
        // Any other fault than want of memory is the text's.
        ensures fault { IfErr result (λ e. (e ≡ SchedFault.NoMemory) ⊎ (fault_of ps text.now ≡ Some e)) }
    {
        let mut reading = Reading {
            turns: VecDeque::new(alloc),
            total: 0,
        };
        let mut at = 0;
        while at <= text.len() {
            let part = first_part(&text[at..]);
            read_part(&mut reading, part, at, ps)?;
            at += part.len() + 1;
        }
        let Reading { turns, total } = reading;
        if total > MOST_TURNS {
            return Err(SchedFault::Long);
        }
        Ok(Schedule { turns })
    }

    /// Appends so many drawn turns: the words of the generator PCG XSH RR 64/32 that is seeded by `start`, each modulo
    /// `ps`, which is 1 to 16. It takes memory, and changes nothing where that is missing.
    pub fn draw(&mut self, start: u64, turns: u32, ps: u32) -> Result<(), AllocError>
        requires some { 0 < ps }
        requires few { ps ≤ 16 }
        ensures ok { OnOk result (self.new ≡ self.old ++ drawn start turns ps) }
        ensures err { OnErr result (self.new ≡ self.old) }
    {
        self.turns.reserve(turns as usize)?;
        let mut generator = Lcg64Xsh32::seed_from_u64(start);
        for _ in 0..turns {
            self.turns.push_back_reserved(generator.next_word() % ps);
        }
        Ok(())
    }

    /// The worker of the next turn, which is then no longer left, or None exactly at the end.
    pub fn next(&mut self) -> Option<u32>
        ensures { MatchOption result ((self.old ≡ []) × (self.new ≡ [])) (λ p. self.old ≡ p ∷ self.new) }
    {
        self.turns.pop_front()
    }
}
