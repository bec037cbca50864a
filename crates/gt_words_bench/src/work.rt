//! The tables, and the calls on them.

ghost use Rattle.std.specs.Prelude.{◌≡◌, IfOk};

use crate::task::{Calls, Task};
use crate::ties::agreed_times;
use crate::words::answered_notes;
use gt_tie::open_ties;
use gt_word_table::open_words;
use std::alloc::{AllocError, Global};

/// Makes the calls of a task, and returns how many of them were answered: all.
///
/// # Errors
/// No memory for the table.
pub fn answers(alloc: Global, task: Task) -> Result<u32, AllocError>
    ensures { IfOk result (λ n. n ≡ task.count) }
{
    match task.calls {
        Calls::Note => note_answers(alloc, task.count),
        Calls::Agree => agree_answers(alloc, task.count),
    }
}

// On the words of 2 heaps, by the second of 2 workers.
fn note_answers(alloc: Global, count: u32) -> Result<u32, AllocError>
    ensures { IfOk result (λ n. n ≡ count) }
{
    let (words, mut workers, _heaps) = open_words(alloc, 2, 2)?;
    Ok(answered_notes(&words, &mut workers[1], count))
}

// On the ties of 16 records and 2 heaps, with the eighth record.
fn agree_answers(alloc: Global, count: u32) -> Result<u32, AllocError>
    ensures { IfOk result (λ n. n ≡ count) }
{
    let mut opened = open_ties(alloc, 16, 2)?;
    Ok(agreed_times(&opened.ties, &mut opened.book, &mut opened.recs[7], count))
}
