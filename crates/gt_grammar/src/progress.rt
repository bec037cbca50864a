//! How far a script is read, and what may be wrong with a statement there.

ghost use Rattle.std.specs.Prelude.{◌≡◌, ◌<◌, true};
ghost use Rattle.std.specs.List.{count_by};
ghost use Rattle.gt_grammar.specs.Faults.{is_before, is_late, stands, may_end, held_with, count_if, chooses_wrongly, is_loop};

use crate::fault::Why;
use crate::statement::Statement;
use arrayvec::ArrayVec;
use gt_table::Role;
use std::marker::Model;

/// How many names a script may have.
const MOST_NAMES: usize = 4096;

/// How many functions a script may have.
const MOST_FUNCTIONS: usize = 256;

/// How many instruction lines a script may have.
const MOST_INSTRUCTIONS: usize = 100_000;

/// How deep loops may stand in one another.
const MOST_LOOPS: usize = 4;

/// How deep blocks, loops and selects together, may stand in one another.
const MOST_BLOCKS: usize = 16;

/// How many cases a select may have.
const MOST_CASES: usize = 16;

/// What a loop holds so far.
#[derive(Clone, Copy, Debug, PartialEq, Eq)]
pub enum Held {
    Nothing,
    /// Only loops that are passed over, since they have no passes.
    Skipped,
    /// An instruction, a select, or a loop that is entered.
    Entered,
}

/// A block that is open.
#[derive(Clone, Copy)]
pub enum OpenBlock {
    /// A loop, with passes or without.
    Loop {
        repeats: bool,
        held: Held,
    },
    /// A select with what it has so far.
    Choice {
        cases: usize,
        /// How many of them receive from timers: 0, 1, or 2 for more.
        timers: usize,
        has_default: bool,
    },
}

impl Default for OpenBlock {
    fn default() -> OpenBlock {
        OpenBlock::Loop {
            repeats: false,
            held: Held::Nothing,
        }
    }
}

/// How far a script is read.
#[derive(Drop)]
pub struct Progress {
    inside: bool,
    blocks: ArrayVec<OpenBlock, MOST_BLOCKS>,
    names: usize,
    functions: usize,
    instructions: usize,
}

impl Model for Progress {
    ghost use Rattle.std.specs.Prelude.{reverse};
    ghost use Rattle.gt_grammar.specs.Progress.{Progress as Reading};

    ghost Value = { Reading };

    ghost view = { λ p. record {
      inside = p.inside;
      blocks = reverse p.blocks.items;
      names = p.names;
      functions = p.functions;
      instructions = p.instructions;
    } };
}

fn is_before(names: usize, place: Option<u64>) -> bool
    ensures { result ≡ is_before names place }
{
    match place {
        None => false,
        Some(place) => place < names as u64,
    }
}

fn is_late(names: usize, parent: Option<u64>) -> bool
    ensures { result ≡ is_late names parent }
{
    match parent {
        None => false,
        Some(value) => value > names as u64,
    }
}

// Whether a line may stand here.
fn stands(inside: bool, role: Role) -> bool
    ensures { result ≡ stands inside role }
{
    match role {
        Role::Declares { .. } => !inside,
        Role::Closes | Role::Chooses | Role::Defaults => true,
        Role::Acts | Role::Loops | Role::Selects => inside,
    }
}

fn may_end(repeats: bool, held: Held) -> bool
    ensures { result ≡ may_end repeats held }
{
    match held {
        Held::Nothing => false,
        Held::Skipped => !repeats,
        Held::Entered => true,
    }
}

// Whether a line with this role may not stand in a select that has so much.
fn chooses_wrongly(cases: usize, timers: usize, has_default: bool, role: Role) -> bool
    ensures { result ≡ chooses_wrongly cases timers has_default role }
{
    match role {
        Role::Declares { .. } => false,
        Role::Closes | Role::Acts | Role::Loops | Role::Selects => cases == 0,
        Role::Chooses => has_default || cases >= MOST_CASES,
        Role::Defaults => has_default || timers >= 2,
    }
}

fn is_loop(block: &OpenBlock) -> bool
    ensures { result ≡ is_loop block.now }
{
    matches!(block, OpenBlock::Loop { .. })
}

// How many of these are loops.
fn loop_count(blocks: &[OpenBlock]) -> usize
    ensures { result ≡ count_by is_loop blocks.now }
{
    blocks.iter().filter(|block| is_loop(block)).count()
}

// What a loop holds in which a loop ended, with passes or without.
fn held_with(repeats: bool, held: Held) -> Held
    ensures { result ≡ held_with repeats held }
{
    match (repeats, held) {
        (false, Held::Nothing | Held::Skipped) => Held::Skipped,
        (true, _) | (false, Held::Entered) => Held::Entered,
    }
}

fn count_if(test: bool, n: usize) -> usize
    requires { test ≡ true → n < 1000000 }
    ensures { result ≡ count_if test n }
{
    if test { n + 1 } else { n }
}

impl Progress {
    ghost use Rattle.std.specs.Prelude.{◌≡◌, ◌&&◌, false, ◌∷◌, slice_get};
    ghost use Rattle.gt_table.specs.declared.form.Role.{Role};
    ghost use Rattle.gt_grammar.specs.declared.progress.OpenBlock.{OpenBlock};
    ghost use Rattle.gt_grammar.specs.declared.progress.Held.{Held};
    ghost use Rattle.gt_grammar.specs.Faults.{role_of, declares_twice, derives_late, inside_after, nests_wrongly, selects_wrongly, ends_wrongly, brings_too_many, in_choice, loop_count, causes, first_cause, holding, block_ended, case_added, default_added, progress_with, no_progress};

    /// In front of the first declaration.
    pub fn new() -> Progress
        ensures { result ≡ no_progress }
    {
        Progress {
            inside: false,
            blocks: ArrayVec::new(),
            names: 0,
            functions: 0,
            instructions: 0,
        }
    }

    // Whether it declares a name anew.
    fn declares_twice(&self, s: &Statement) -> bool
        ensures { result ≡ declares_twice self.now s.now }
    {
        s.keyword.form().role.is_declaration() && is_before(self.names, s.first)
    }

    // Whether it derives a context from one that is not declared on an earlier line.
    fn derives_late(&self, s: &Statement) -> bool
        ensures { result ≡ derives_late self.now s.now }
    {
        s.keyword.form().second.is_parent() && is_late(self.names, s.second)
    }

    /// Whether the next line stands inside a function.
    pub fn is_inside(&self) -> bool
        ensures { result ≡ self.now.inside }
    {
        self.inside
    }

    // The innermost block that is open.
    fn innermost(&self) -> Option<OpenBlock>
        ensures { result ≡ slice_get self.now.blocks 0 }
    {
        self.blocks.as_slice().last().copied()
    }

    // Whether the line behind it stands inside a function.
    fn inside_after(&self, role: Role) -> bool
        ensures { result ≡ inside_after self.now role }
    {
        match role {
            Role::Declares { .. } => role.opens() || self.inside,
            Role::Closes => !self.blocks.is_empty(),
            Role::Acts | Role::Loops | Role::Selects | Role::Chooses | Role::Defaults => {
                self.inside
            }
        }
    }

    // Whether the innermost block that is open is a select.
    fn in_choice(&self) -> bool
        ensures { result ≡ in_choice self.now.blocks }
    {
        match self.innermost() {
            None | Some(OpenBlock::Loop { .. }) => false,
            Some(OpenBlock::Choice { .. }) => true,
        }
    }

    // Whether the innermost block that is open may not end.
    fn ends_wrongly(&self) -> bool
        ensures { result ≡ ends_wrongly self.now.inside self.now.blocks }
    {
        match self.innermost() {
            None => !self.inside,
            Some(OpenBlock::Loop { repeats, held }) => !may_end(repeats, held),
            Some(OpenBlock::Choice { .. }) => false,
        }
    }

    // How many loops are open.
    #[tactic(auto, using(crate::proofs::Reversed::loop_count_reverse))]
    fn depth(&self) -> usize
        ensures { result ≡ loop_count self.now.blocks }
    {
        loop_count(self.blocks.as_slice())
    }

    // Whether it is an `end`, a `case` or a `default` that may not stand here, or a block too deep.
    fn nests_wrongly(&self, role: Role) -> bool
        ensures { result ≡ nests_wrongly self.now role }
    {
        let is_full = self.blocks.len() >= MOST_BLOCKS;
        match role {
            Role::Declares { .. } | Role::Acts => false,
            Role::Closes => self.ends_wrongly(),
            Role::Loops => self.depth() >= MOST_LOOPS || is_full,
            Role::Selects => is_full,
            Role::Chooses | Role::Defaults => !self.in_choice(),
        }
    }

    // Whether it may not stand in the select that is the innermost block.
    fn selects_wrongly(&self, role: Role) -> bool
        ensures { result ≡ selects_wrongly self.now.blocks role }
    {
        match self.innermost() {
            None | Some(OpenBlock::Loop { .. }) => false,
            Some(
                OpenBlock::Choice {
                    cases,
                    timers,
                    has_default,
                },
            ) => chooses_wrongly(cases, timers, has_default, role),
        }
    }

    // Whether it brings the names, functions or instructions above their limits.
    fn brings_too_many(&self, role: Role) -> bool
        ensures { result ≡ brings_too_many self.now role }
    {
        let names = role.is_declaration() && self.names >= MOST_NAMES;
        let functions = role.opens() && self.functions >= MOST_FUNCTIONS;
        let instructions = role.acts() && self.instructions >= MOST_INSTRUCTIONS;
        names || functions || instructions
    }

    /// The first cause on a line; `None` where nothing is wrong. It is the last line or not, and then may lack `main`.
    pub fn cause(&self, s: &Statement, is_last: bool, lacks_main: bool) -> Option<Why>
        ensures { result ≡ first_cause (causes is_last lacks_main self.now s.now) }
    {
        let role = s.keyword.form().role;
        if !stands(self.inside, role) {
            return Some(Why::Word);
        }
        if !s.names_rightly() || self.derives_late(s) {
            return Some(Why::Name);
        }
        if self.declares_twice(s) {
            return Some(Why::Twice);
        }
        if is_last && self.inside_after(role) {
            return Some(Why::Missing);
        }
        if !s.counts_rightly() {
            return Some(Why::Number);
        }
        if self.nests_wrongly(role) {
            return Some(Why::Nest);
        }
        if self.selects_wrongly(role) {
            return Some(Why::Select);
        }
        if self.brings_too_many(role) {
            return Some(Why::Many);
        }
        lacks_main.then_some(Why::NoMain)
    }

    // The innermost block that is open, if it is a loop, holds this from now on.
    fn hold(&mut self, held: Held)
        ensures { self.new ≡ record self.old { blocks = holding held self.old.blocks } }
    {
        let count = self.blocks.len();
        if count > 0
            && let OpenBlock::Loop { repeats, .. } = self.blocks.as_slice()[count - 1]
        {
            self.blocks.as_mut_slice()[count - 1] = OpenBlock::Loop { repeats, held };
        }
    }

    // The innermost block that is open, if one is, ends.
    fn end_block(&mut self)
        ensures { self.new ≡ record self.old { blocks = block_ended self.old.blocks } }
    {
        if let Some(OpenBlock::Loop { repeats, .. }) = self.blocks.pop()
            && let Some(OpenBlock::Loop { held, .. }) = self.innermost()
        {
            self.hold(held_with(repeats, held));
        }
    }

    // The innermost block that is open, if it is a select, has a case more.
    fn add_case(&mut self, awaits: bool)
        requires { selects_wrongly self.old.blocks Role.Chooses ≡ false }
        ensures { self.new ≡ record self.old { blocks = case_added awaits self.old.blocks } }
    {
        let count = self.blocks.len();
        if count > 0
            && let OpenBlock::Choice {
                cases,
                timers,
                has_default,
            } = self.blocks.as_slice()[count - 1]
        {
            self.blocks.as_mut_slice()[count - 1] = OpenBlock::Choice {
                cases: cases + 1,
                timers: count_if(awaits && timers < 2, timers),
                has_default,
            };
        }
    }

    // The innermost block that is open, if it is a select, has its default.
    fn add_default(&mut self)
        ensures { self.new ≡ record self.old { blocks = default_added self.old.blocks } }
    {
        let count = self.blocks.len();
        if count > 0
            && let OpenBlock::Choice { cases, timers, .. } = self.blocks.as_slice()[count - 1]
        {
            self.blocks.as_mut_slice()[count - 1] = OpenBlock::Choice {
                cases,
                timers,
                has_default: true,
            };
        }
    }

    // Opens a select in the innermost block that is open.
    fn open_select(&mut self)
        requires { nests_wrongly self.old Role.Selects ≡ false }
        ensures { self.new ≡ record self.old { blocks = OpenBlock.Choice 0 0 false ∷ holding Held.Entered self.old.blocks } }
    {
        self.hold(Held::Entered);
        self.blocks.push(OpenBlock::Choice {
            cases: 0,
            timers: 0,
            has_default: false,
        });
    }

    /// Goes on behind a line with this role; a loop that it opens has so many passes, and a case of it receives from a timer or does not.
    pub fn pass(&mut self, role: Role, count: u64, awaits: bool)
        requires few { brings_too_many self.old role ≡ false }
        requires nests { nests_wrongly self.old role ≡ false }
        requires selects { selects_wrongly self.old.blocks role ≡ false }
        ensures { self.new ≡ progress_with self.old role count awaits }
    {
        self.inside = self.inside_after(role);
        self.names = count_if(role.is_declaration(), self.names);
        self.functions = count_if(role.opens(), self.functions);
        self.instructions = count_if(role.acts(), self.instructions);
        match role {
            Role::Declares { .. } => {}
            Role::Closes => self.end_block(),
            Role::Acts => self.hold(Held::Entered),
            Role::Loops => self.blocks.push(OpenBlock::Loop {
                repeats: count > 0,
                held: Held::Nothing,
            }),
            Role::Selects => self.open_select(),
            Role::Chooses => self.add_case(awaits),
            Role::Defaults => self.add_default(),
        }
    }
}
