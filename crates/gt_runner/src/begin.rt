//! A run before its first entry.

ghost use Rattle.std.specs.Prelude.{◌≡◌, ◌+◌, ◌<◌, ◌≤◌, ◌^◌, IfOk, length};
ghost use Rattle.gt_model.specs.Good.{IsGood, AreLimits};
ghost use Rattle.gt_book.specs.View.{first_view};
ghost use Rattle.gt_runner.specs.Served.{IsServed};
ghost use Rattle.gt_runner.specs.Begun.{AreFirst, kind_at};

use crate::runner::Runner;
use gt_book::Book;
use gt_lazy::Lazy;
use gt_model::{Limits, NoMemory, Script, What};
use gt_rec::{RecKind, TimerRec};
use gt_room::Room;
use std::alloc::Global;

/// The number of the heap.
const HEAP: u32 = 0;

/// The kind of the record of a declaration. That of what is no timer and no context is never set.
fn kind_of(what: &What) -> RecKind
    ensures { result ≡ kind_at what.now }
{
    match what {
        What::Timer => RecKind::Timer,
        What::Ticker => RecKind::Ticker,
        What::Ctx { .. } => RecKind::Deadline,
        What::AfterFunc { .. }
        | What::Chan { .. }
        | What::Mutex
        | What::Wg
        | What::Cond { .. }
        | What::Hook { .. }
        | What::Error
        | What::Function => RecKind::Func,
    }
}

/// The records of a script's declarations, with nothing set, and with room for so many in all.
fn first_records(alloc: Global, script: &Script, count: usize) -> Result<Room<TimerRec>, NoMemory>
    requires small { length script.now.decls < 2 ^ 32 }
    requires room { length script.now.decls ≤ count }
    ensures first { IfOk result (λ records. AreFirst script.now records) }
    ensures room { IfOk result (λ records. length records.items + records.spare ≡ count) }
{
    let mut records = Room::with_room(alloc, count).map_err(|_| NoMemory)?;
    let decls = script.decls.as_slice();
    for id in 0..decls.len() {
        records.put(TimerRec::unset(id as u32, kind_of(&decls[id].what)));
    }
    Ok(records)
}

/// A run of a script before its first entry. All its memory is taken here, or the answer is `NoMemory`.
pub fn begin(alloc: Global, script: Script, limits: Limits) -> Result<Runner, NoMemory>
    requires good { IsGood script }
    requires limits { AreLimits limits }
    ensures book { IfOk result (λ run. run.book ≡ first_view script limits) }
    ensures served { IfOk result IsServed }
{
    let book = Book::begin(alloc, script, limits)?;
    book.lawful();
    let count = book.records() as usize;
    let records = first_records(alloc, book.script(), count)?;
    let heap = Lazy::with_room(alloc, HEAP, count).map_err(|_| NoMemory)?;
    Ok(Runner {
        book,
        heap,
        records,
        noted: None,
    })
}
