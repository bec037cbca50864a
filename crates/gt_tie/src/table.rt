//! The table of the ties, its rule, and its kinds of step.

use crate::view::View;
use atomic_table::{Join, Play, Split, TableRule};

/// The rule of the ties. No value of it is made.
pub struct Law;

/// How many records and heaps there are.
#[derive(Clone, Copy)]
pub struct Size {
    pub records: usize,
    pub heaps: usize,
}

impl TableRule<(), View, Size> for Law {
    ghost use Rattle.gt_tie.specs.Rule.{Holds, whole};

    ghost holds = { λ size s. Holds size.records size.heaps s };

    ghost first = { λ size. whole size.records size.heaps 0 0 };
}

pub(crate) struct Looks;

impl Play<(), View> for Looks {
    ghost use Rattle.gt_tie.specs.Steps as steps;

    ghost then = { steps.Looks };
}

pub(crate) struct DueStores;

impl Play<(), View> for DueStores {
    ghost use Rattle.gt_tie.specs.Steps as steps;

    ghost then = { steps.DueStores };
}

pub(crate) struct PeriodStores;

impl Play<(), View> for PeriodStores {
    ghost use Rattle.gt_tie.specs.Steps as steps;

    ghost then = { steps.PeriodStores };
}

pub(crate) struct HeapStores;

impl Play<(), View> for HeapStores {
    ghost use Rattle.gt_tie.specs.Steps as steps;

    ghost then = { steps.HeapStores };
}

pub(crate) struct KeyStores;

impl Play<(), View> for KeyStores {
    ghost use Rattle.gt_tie.specs.Steps as steps;

    ghost then = { steps.KeyStores };
}

/// The record's part, apart from the others.
pub(crate) struct Record;

impl Split<View> for Record {
    ghost use Rattle.gt_tie.specs.Views.{without_rec, only_rec};

    ghost left = { without_rec };

    ghost right = { only_rec };
}

impl Join<View> for Record {
    ghost use Rattle.gt_tie.specs.Views.{joined, nobody};

    ghost both = { joined };

    ghost spent = { nobody 0 };
}

/// A seat that knows nothing.
pub(crate) struct Nobody;

impl Split<View> for Nobody {
    ghost use Rattle.gt_tie.specs.Views.{nobody};

    ghost left = { λ v. v };

    ghost right = { λ v. nobody v.heaps };
}

/// What is left to be dealt at the end: nothing.
pub(crate) struct Dealt;

impl Split<View> for Dealt {
    ghost use Rattle.gt_tie.specs.Views.{without_rest, nobody};

    ghost left = { without_rest };

    ghost right = { λ v. nobody v.heaps };
}

pub(crate) struct NextRecord;

impl Split<View> for NextRecord {
    ghost use Rattle.gt_tie.specs.Rule.{one_record_less, next_record};

    ghost left = { one_record_less };

    ghost right = { next_record };
}

pub(crate) struct NextHeap;

impl Split<View> for NextHeap {
    ghost use Rattle.gt_tie.specs.Rule.{one_heap_less, next_heap};

    ghost left = { one_heap_less };

    ghost right = { next_heap };
}
