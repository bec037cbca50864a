//! Words that one owner has for itself.

ghost use Rattle.std.specs.Prelude.{◌≡◌, ◌^◌, ◌-◌, replicate, IfOk};
ghost use Rattle.gt_words.specs.Words.{empty_words};

use crate::words::{HeapWords, NONE, Words};
use std::alloc::{AllocError, Global};
use std::marker::Model;

/// Words that lie in memory of their own. It is seen as the list of the words of each heap, by its number, and tells them.
#[derive(Drop)]
pub struct PlainWords {
    words: Vec<HeapWords>,
}

impl Model for PlainWords {
    ghost use Rattle.std.specs.Prelude.{List};
    ghost use Rattle.gt_words.specs.declared.words.HeapWords.{HeapWords};

    ghost Value = { List HeapWords };

    ghost view = { λ w. w.words.items };
}

impl PlainWords {
    /// The words of `ps` heaps: modified and heap words are [`NONE`], and counts 0. It takes memory.
    pub fn new(alloc: Global, ps: u32) -> Result<PlainWords, AllocError>
        ensures { IfOk result (λ words. words ≡ replicate ps empty_words) }
    {
        let empty = HeapWords {
            modified: NONE,
            heap: NONE,
            count: 0,
        };
        Ok(PlainWords {
            words: vec![in alloc; empty; ps as usize]?,
        })
    }
}

impl Words for PlainWords {
    ghost use Rattle.std.specs.Prelude.{Some, length, unwrap_or};
    ghost use Rattle.std.proofs.Common.{sym, ap};

    ghost heaps = { λ words. length words };

    ghost told = { λ words. Some words };

    ghost counted = { λ w words is. sym (ap (λ o. length (unwrap_or o w)) is) };

    fn load_count(&mut self, q: u32) -> u64 {
        self.words[q as usize].count
    }

    fn load_mod(&mut self, q: u32) -> u64 {
        self.words[q as usize].modified
    }

    fn load_heap(&mut self, q: u32) -> u64 {
        self.words[q as usize].heap
    }

    fn note(&mut self, q: u32, when: u64) {
        let words = &mut self.words[q as usize];
        words.modified = words.modified.min(when);
    }

    fn lower(&mut self, q: u32, v: u64) {
        let words = &mut self.words[q as usize];
        words.heap = words.heap.min(v);
    }

    fn try_clear(&mut self, q: u32, seen: u64) -> bool {
        let words = &mut self.words[q as usize];
        let found = words.modified == seen;
        if found {
            words.modified = NONE;
        }
        found
    }

    fn bump(&mut self, q: u32) {
        let words = &mut self.words[q as usize];
        words.count = words.count.saturating_add(1);
    }

    fn raise(&mut self, q: u32, v: u64) {
        self.words[q as usize].heap = v;
    }
}
