//! The marks of a goroutine that waits: of which timers the records count it.

ghost use Rattle.std.specs.Prelude.{◌≡◌, ◌<◌, [], ◌∷◌, ◌++◌, length, slice_get, remove, IsNone, IfSome};
ghost use Rattle.gt_schedule.specs.Schedule.{without_first};

use arrayvec::ArrayVec;
use std::marker::Model;

/// The greatest number of marks of a goroutine: a choice has 16 cases at most, and each may receive from a timer.
const MOST_MARKS: usize = 16;

/// The timers whose records count a goroutine among those that wait there, the earliest mark first. A timer may have several marks.
#[derive(Drop)]
pub struct Marks {
    timers: ArrayVec<u32, MOST_MARKS>,
}

/// The first place of a number, or None where it has none.
fn place_of(timers: &[u32], t: u32) -> Option<usize>
    ensures none { IsNone result → without_first t timers.now ≡ timers.now }
    ensures some { IfSome result (λ place. (place < length timers.now) × (without_first t timers.now ≡ remove timers.now place)) }
{
    for place in 0..timers.len() {
        if timers[place] == t {
            return Some(place);
        }
    }
    None
}

impl Model for Marks {
    ghost use Rattle.std.specs.Prelude.{ℕ, List};

    ghost Value = { List ℕ };

    ghost view = { λ m. m.timers.items };
}

impl Marks {
    /// No marks.
    pub fn none() -> Marks
        ensures { result ≡ [] }
    {
        Marks {
            timers: ArrayVec::new(),
        }
    }

    /// The timer of the earliest mark, or None where there is none.
    pub fn first(&self) -> Option<u32>
        ensures { result ≡ slice_get self.now 0 }
    {
        self.timers.as_slice().first().copied()
    }

    /// One more mark of timer `t`.
    pub fn push(&mut self, t: u32)
        requires { length self.old < 16 }
        ensures { self.new ≡ self.old ++ t ∷ [] }
    {
        self.timers.push(t);
    }

    /// Takes the earliest mark of timer `t` away, if it has one.
    pub fn remove(&mut self, t: u32)
        ensures { self.new ≡ without_first t self.old }
    {
        if let Some(place) = place_of(self.timers.as_slice(), t) {
            self.timers.remove(place);
        }
    }
}
