//! How a table is made.

ghost use Rattle.std.specs.Prelude.{◌≡◌, ◌+◌, ◌<◌, ◌≤◌, [], replicate, IfOk, vec_len};
ghost use Rattle.gt_tie.specs.Views.{unset};
ghost use Rattle.gt_tie.specs.Rule.{whole};
ghost use Rattle.gt_tie.specs.Opening.{IsUnsetRec, IsEmptyHeap, AreUnsetRecs, AreEmptyHeaps};

use crate::table::{Dealt, NextHeap, NextRecord, Size};
use crate::ties::{BookTie, HeapTie, RecTie, Ties};
use crate::view::View;
use atomic_table::{Seat, Table};
use std::alloc::{AllocError, Global};

/// A table of ties with all its sides.
#[derive(Drop)]
pub struct OpenTies {
    pub ties: Ties,
    pub book: BookTie,
    /// By their numbers.
    pub recs: Vec<RecTie>,
    /// By their numbers.
    pub heaps: Vec<HeapTie>,
}

fn zeros(alloc: Global, n: usize) -> Result<Vec<u64>, AllocError>
    ensures { IfOk result (λ words. words.items ≡ replicate n 0) }
{
    vec![in alloc; 0u64; n]
}

fn next_record(t: &Ties, first: &mut Seat<(), View>, number: u32) -> RecTie
    requires number { number < t.now.records }
    requires table { first.old.table_id ≡ t.now.table }
    requires first { first.old.me ≡ (whole t.now.records t.now.heaps number 0, []) }
    ensures table { first.new.table_id ≡ t.now.table }
    ensures first { first.new.me ≡ (whole t.now.records t.now.heaps (number + 1) 0, []) }
    ensures rec { IsUnsetRec t.now number result }
{
    let seat = t.table.shared.split_seat::<NextRecord>(first);
    RecTie { seat, number }
}

fn next_heap(t: &Ties, first: &mut Seat<(), View>, number: u32) -> HeapTie
    requires number { number < t.now.heaps }
    requires table { first.old.table_id ≡ t.now.table }
    requires first { first.old.me ≡ (whole t.now.records t.now.heaps t.now.records number, []) }
    ensures table { first.new.table_id ≡ t.now.table }
    ensures first { first.new.me ≡ (whole t.now.records t.now.heaps t.now.records (number + 1), []) }
    ensures heap { IsEmptyHeap t.now number result }
{
    let seat = t.table.shared.split_seat::<NextHeap>(first);
    HeapTie { seat, number }
}

fn record_ties(
    alloc: Global,
    t: &Ties,
    first: &mut Seat<(), View>,
    records: u32,
) -> Result<Vec<RecTie>, AllocError>
    requires records { records ≡ t.now.records }
    requires table { first.old.table_id ≡ t.now.table }
    requires first { first.old.me ≡ (whole t.now.records t.now.heaps 0 0, []) }
    ensures table { first.new.table_id ≡ t.now.table }
    ensures first { IfOk result (λ _. first.new.me ≡ (whole t.now.records t.now.heaps t.now.records 0, [])) }
    ensures count { IfOk result (λ ties. vec_len ties ≡ records) }
    ensures ties { IfOk result (λ ties. AreUnsetRecs t.now ties.items) }
{
    let mut ties = Vec::new(alloc);
    for number in 0..records {
        ties.push(next_record(t, first, number))?;
    }
    Ok(ties)
}

fn heap_ties(
    alloc: Global,
    t: &Ties,
    first: &mut Seat<(), View>,
    heaps: u32,
) -> Result<Vec<HeapTie>, AllocError>
    requires heaps { heaps ≡ t.now.heaps }
    requires table { first.old.table_id ≡ t.now.table }
    requires first { first.old.me ≡ (whole t.now.records t.now.heaps t.now.records 0, []) }
    ensures table { first.new.table_id ≡ t.now.table }
    ensures first { IfOk result (λ _. first.new.me ≡ (whole t.now.records t.now.heaps t.now.records t.now.heaps, [])) }
    ensures count { IfOk result (λ ties. vec_len ties ≡ heaps) }
    ensures ties { IfOk result (λ ties. AreEmptyHeaps t.now ties.items) }
{
    let mut ties = Vec::new(alloc);
    for number in 0..heaps {
        ties.push(next_heap(t, first, number))?;
    }
    Ok(ties)
}

// What the first seat has left when all else is dealt is the book.
fn book_tie(t: &Ties, mut first: Seat<(), View>) -> BookTie
    requires table { first.table_id ≡ t.now.table }
    requires first { first.me ≡ (whole t.now.records t.now.heaps t.now.records t.now.heaps, []) }
    ensures table { result.table ≡ t.now.table }
    ensures settings { result.settings ≡ replicate t.now.records unset }
{
    let _nobody = t.table.shared.split_seat::<Dealt>(&mut first);
    BookTie { seat: first }
}

/// The ties of so many records and heaps, 1 to 16 of these. Nothing is set, and no record has a place. It takes memory.
pub fn open_ties(alloc: Global, records: u32, heaps: u32) -> Result<OpenTies, AllocError>
    requires records { 1 ≤ records }
    requires heaps { (1 ≤ heaps) × (heaps ≤ 16) }
    ensures ties { IfOk result (λ opened. (opened.ties.records ≡ records) × (opened.ties.heaps ≡ heaps)) }
    ensures book { IfOk result (λ opened. (opened.book.table ≡ opened.ties.table)
        × (opened.book.settings ≡ replicate records unset)) }
    ensures rec_count { IfOk result (λ opened. vec_len opened.recs ≡ records) }
    ensures recs { IfOk result (λ opened. AreUnsetRecs opened.ties opened.recs.items) }
    ensures heap_count { IfOk result (λ opened. vec_len opened.heaps ≡ heaps) }
    ensures heaps { IfOk result (λ opened. AreEmptyHeaps opened.ties opened.heaps.items) }
{
    let size = Size {
        records: records as usize,
        heaps: heaps as usize,
    };
    let words = zeros(alloc, 4 * size.records)?;
    let (table, mut first) = Table::of_words(alloc, words.as_slice(), &size)?;
    let ties = Ties {
        table,
        records: size.records,
        heaps: size.heaps,
    };
    let recs = record_ties(alloc, &ties, &mut first, records)?;
    let heaps = heap_ties(alloc, &ties, &mut first, heaps)?;
    let book = book_tie(&ties, first);
    Ok(OpenTies {
        ties,
        book,
        recs,
        heaps,
    })
}
