//! The table of the words, its rule, and its kinds of step.

use crate::view::View;
use atomic_table::{Play, Split, Table, TableRule};
use std::alloc::Global;
use std::marker::Model;

/// The rule of the words. No value of it is made.
pub struct Law;

impl TableRule<(), View, usize> for Law {
    ghost use Rattle.gt_word_table.specs.Rule.{Holds, rest};

    ghost holds = { Holds };

    ghost first = { λ n. rest n 0 };
}

pub(crate) struct CountLoads;

impl Play<(), View> for CountLoads {
    ghost use Rattle.gt_word_table.specs.Steps as steps;

    ghost then = { steps.CountLoads };
}

pub(crate) struct ModLoads;

impl Play<(), View> for ModLoads {
    ghost use Rattle.gt_word_table.specs.Steps as steps;

    ghost then = { steps.ModLoads };
}

pub(crate) struct HeapLoads;

impl Play<(), View> for HeapLoads {
    ghost use Rattle.gt_word_table.specs.Steps as steps;

    ghost then = { steps.HeapLoads };
}

pub(crate) struct Notes;

impl Play<(), View> for Notes {
    ghost use Rattle.gt_word_table.specs.Steps as steps;

    ghost then = { steps.Notes };
}

pub(crate) struct Looks;

impl Play<(), View> for Looks {
    ghost use Rattle.gt_word_table.specs.Steps as steps;

    ghost then = { steps.Looks };
}

pub(crate) struct Lowers;

impl Play<(), View> for Lowers {
    ghost use Rattle.gt_word_table.specs.Steps as steps;

    ghost then = { steps.Lowers };
}

pub(crate) struct Clears;

impl Play<(), View> for Clears {
    ghost use Rattle.gt_word_table.specs.Steps as steps;

    ghost then = { steps.Clears };
}

pub(crate) struct Bumps;

impl Play<(), View> for Bumps {
    ghost use Rattle.gt_word_table.specs.Steps as steps;

    ghost then = { steps.Bumps };
}

pub(crate) struct Raises;

impl Play<(), View> for Raises {
    ghost use Rattle.gt_word_table.specs.Steps as steps;

    ghost then = { steps.Raises };
}

pub(crate) struct NextWorker;

impl Split<View> for NextWorker {
    ghost use Rattle.gt_word_table.specs.Rule.{fresh_worker};

    ghost left = { λ v. v };

    ghost right = { fresh_worker };
}

pub(crate) struct NextHeap;

impl Split<View> for NextHeap {
    ghost use Rattle.gt_word_table.specs.Rule.{one_made, fresh_heap};

    ghost left = { one_made };

    ghost right = { fresh_heap };
}

/// The words of heaps that are numbered from 0: three for each, as [`gt_words::HeapWords`] has them. It is seen as which
/// table it is and the number of its heaps.
#[derive(Drop)]
pub struct TableWords {
    pub(crate) words: Table<(), View, usize, Law, Global>,
    pub(crate) heaps: usize,
}

impl Model for TableWords {
    ghost use Rattle.std.specs.Prelude.{◌≡◌, ◌*◌};
    ghost use Rattle.gt_word_table.specs.Shown.{ShownTable};

    ghost Value = { ShownTable };

    ghost view = { λ t. record { table = t.words.shared.table_id; heaps = t.heaps } };

    ghost invariant = { λ t.
        (t.words.shared.key ≡ t.heaps) × (t.words.shared.table_id.words ≡ 3 * t.heaps) };
}
