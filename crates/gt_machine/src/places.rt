//! Where a goroutine begins, and where it goes on: over the bounds of loops, and over jumps.

ghost use Rattle.std.specs.Prelude.{◌≡◌, ◌+◌, ◌-◌, ◌<◌, ◌^◌, None, is_some, length, slice_get};
ghost use Rattle.gt_model.specs.Good.{IsGood};
ghost use Rattle.gt_model.specs.declared.script.Instr.{Instr};
ghost use Rattle.gt_rules.specs.Places as places;
ghost use Rattle.gt_machine.specs.Places.{LeadsRightly, IsWalkable};

use crate::lookups::code_of;
use gt_model::{Case, Instr, Place, Script};

/// At the top of a loop.
fn at_top(place: Place, depth: u8, count: u32, past: u32) -> Place
    requires at { place.at < 2 ^ 32 - 1 }
    requires depth { depth < 4 }
    ensures { result ≡ places.at_top place depth count past }
{
    if count == 0 {
        return Place { at: past, ..place };
    }
    let mut loops = place.loops;
    loops[depth as usize] = count;
    Place {
        at: place.at + 1,
        loops,
        ..place
    }
}

/// At the end of a loop.
fn at_end(place: Place, depth: u8, top: u32) -> Place
    requires at { place.at < 2 ^ 32 - 1 }
    requires depth { depth < 4 }
    requires top { top < 2 ^ 32 - 1 }
    ensures { result ≡ places.at_end place depth top }
{
    let left = place.loops[depth as usize].saturating_sub(1);
    let mut loops = place.loops;
    loops[depth as usize] = left;
    let at = if left == 0 { place.at + 1 } else { top + 1 };
    Place { at, loops, ..place }
}

/// Where an instruction leads that makes no entry; None where it makes one.
fn silent(place: Place, instr: &Instr) -> Option<Place>
    requires at { place.at < 2 ^ 32 - 1 }
    requires leads { LeadsRightly instr.now }
    ensures { result ≡ places.silent place instr.now }
{
    match *instr {
        Instr::LoopTop { depth, count, past } => Some(at_top(place, depth, count, past)),
        Instr::LoopEnd { depth, top } => Some(at_end(place, depth, top)),
        Instr::Jump { to } => Some(Place { at: to, ..place }),
        _ => None,
    }
}

/// Where a place in a code leads without an entry.
fn silent_at(code: &[Instr], place: Place) -> Option<Place>
    requires { IsWalkable code.now }
    ensures { result ≡ places.silent_at code.now place }
{
    match code.get(place.at as usize) {
        None => None,
        Some(instr) => silent(place, instr),
    }
}

/// On from a place to an instruction that makes an entry.
fn walked(code: &[Instr], place: Place) -> Place
    requires { IsWalkable code.now }
    ensures { result ≡ places.settled_in code.now place }
{
    let mut here = place;
    for _ in 0..code.len() + code.len() {
        match silent_at(code, here) {
            None => return here,
            Some(next) => here = next,
        }
    }
    here
}

/// Whether an instruction that makes no entry stands at a place of a code.
fn is_silent(code: &[Instr], place: Place) -> bool
    ensures { result ≡ is_some (places.silent_at code.now place) }
{
    matches!(
        code.get(place.at as usize),
        Some(Instr::LoopTop { .. } | Instr::LoopEnd { .. } | Instr::Jump { .. })
    )
}

// Most instructions are followed by one that makes an entry, so each entry comes here and few go further.
#[inline(always)]
fn settled_in(code: &[Instr], place: Place) -> Place
    requires { IsWalkable code.now }
    ensures { result ≡ places.settled_in code.now place }
{
    if is_silent(code, place) {
        walked(code, place)
    } else {
        place
    }
}

/// The first place of a function.
pub fn first_place(script: &Script, f: u32) -> Place
    requires { IsGood script.now }
    ensures { result ≡ places.first_place script.now f }
{
    let first = Place {
        func: f,
        at: 0,
        loops: [0, 0, 0, 0],
    };
    match code_of(script, f) {
        Some(code) => settled_in(code, first),
        None => first,
    }
}

/// The index at which a choice goes on: at the body of its case with this number, or of its default for number 0.
fn chosen(cases: &[Case], default_to: Option<u32>, case_no: u32, behind: u32) -> u32
    ensures { result ≡ places.next_index (Instr.Select cases.now default_to) case_no behind }
{
    match case_no.checked_sub(1) {
        None => default_to.unwrap_or(behind),
        Some(k) => match cases.get(k as usize) {
            Some(case) => case.to,
            None => behind,
        },
    }
}

// Most instructions are no choice: they are followed by the next one.
#[inline(always)]
fn next_in(code: &[Instr], at: u32, case_no: u32) -> u32
    requires { at < 2 ^ 32 - 1 }
    ensures { result ≡ places.next_of (slice_get code.now at) case_no (at + 1) }
{
    match code.get(at as usize) {
        Some(Instr::Select { cases, default_to }) => chosen(
            cases.as_slice(),
            *default_to,
            case_no,
            at + 1,
        ),
        _ => at + 1,
    }
}

/// The place after an operation of an instruction: behind a plain one, and at the body of the case of a choice with this number, or of its default for
/// number 0.
pub fn place_after(script: &Script, place: Place, case_no: u32) -> Place
    requires good { IsGood script.now }
    requires inside { place.at < 2 ^ 32 - 1 }
    ensures { result ≡ places.place_after script.now case_no place }
{
    match code_of(script, place.func) {
        Some(code) => {
            let at = next_in(code, place.at, case_no);
            settled_in(code, Place { at, ..place })
        }
        None => Place {
            at: place.at + 1,
            ..place
        },
    }
}
