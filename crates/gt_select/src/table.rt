//! Numbers by number, in fixed memory that is touched as it is used.
ghost use Rattle.std.specs.Prelude.{◌≡◌, ◌+◌, ◌<◌, ◌++◌, length, replicate, slice_index_or, slice_set, IfOk};

use gt_room::Room;
use std::alloc::{AllocError, Global};
use std::marker::Model;

/// A number, or None, for each number below a bound. It is seen as the list of them.
#[derive(Drop)]
pub struct Table {
    used: Room<Option<u32>>,
}

impl Model for Table {
    ghost use Rattle.std.specs.Prelude.{ℕ, Option, None, List, ◌++◌, replicate};

    ghost Value = { List (Option ℕ) };

    ghost view = { λ t. t.used.items ++ replicate t.used.spare None };
}

impl Table {
    /// None for each number below `count`. It alone takes memory.
    pub fn with_room(alloc: Global, count: usize) -> Result<Table, AllocError>
        ensures { IfOk result (λ made. made ≡ replicate count None) }
    {
        let used = Room::with_room(alloc, count)?;
        Ok(Table { used })
    }

    /// What stands at a number; None above the bound.
    pub fn at(&self, i: u32) -> Option<u32>
        ensures { result ≡ slice_index_or self.now i None }
    {
        if (i as usize) < self.used.len() {
            *self.used.at(i as usize)
        } else {
            None
        }
    }

    /// Replaces what stands at a number.
    pub fn set(&mut self, i: u32, x: Option<u32>)
        requires { i < length self.old }
        ensures { self.new ≡ slice_set self.old i x }
    {
        reach(&mut self.used, i as usize);
        self.used.set(i as usize, x);
    }
}

/// Writes None up to `i`.
fn reach(used: &mut Room<Option<u32>>, i: usize)
    requires { i < length used.old.items + used.old.spare }
    ensures reached { i < length used.new.items }
    ensures table { used.new.items ++ replicate used.new.spare None ≡ used.old.items ++ replicate used.old.spare None }
{
    while used.len() <= i {
        used.put(None);
    }
}
