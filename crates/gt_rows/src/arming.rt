//! A new setting of a record.

ghost use Rattle.std.specs.Prelude.{◌≡◌, ◌<◌, ◌≤◌, IsNone};
ghost use Rattle.gt_rec.specs.Ticks.{greatest_time};
ghost use Rattle.gt_rec.specs.declared.RecKind.{RecKind};
ghost use Rattle.gt_rec.specs.Rec.{BitsRight};
ghost use Rattle.gt_rec.specs.Changes.{armed};
ghost use Rattle.gt_rows.specs.Lent.{IsPlaced, Settles, joins};
ghost use Rattle.gt_rows.specs.Rows.{set_answer};

use crate::answers::SetDone;
use gt_lazy::{Lazy, change};
use gt_rec::TimerRec;

/// Sets a record anew, due at a time and with a period, in nanoseconds; only a ticker's is above 0. It joins the heap where it needs one and is in none. The
/// answer says whether it did, or else which heap has to be told of the due time.
pub fn arm(heap: &mut Lazy, rec: &mut TimerRec, due: u64, period: u64) -> SetDone
    requires time { due ≤ greatest_time }
    requires period { rec.old.kind ≡ RecKind.Ticker → 0 < period }
    requires placed { IsPlaced heap.old rec.old }
    requires room { IsNone rec.old.heaped → 0 < heap.old.spare }
    ensures answer { result ≡ set_answer rec.old due period }
    ensures place { Settles heap.old (armed rec.old due period) heap.new rec.new (joins (armed rec.old due period)) }
    ensures placed { IsPlaced heap.new rec.new }
    ensures bits { BitsRight rec.new }
{
    let told = change(rec, due, period);
    if rec.heaped.is_none() && rec.needs_heap() {
        heap.add(rec);
        return SetDone::Lower(due);
    }
    match (rec.heaped, told) {
        (Some(heap), Some(when)) => SetDone::Note { heap, when },
        _ => SetDone::Done,
    }
}
