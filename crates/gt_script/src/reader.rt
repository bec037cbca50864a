//! The reader: what it makes of one line after the other.

ghost use Rattle.std.specs.Prelude.{◌≡◌, IfOk, codes};
ghost use Rattle.std.specs.List.{count_by};
ghost use Rattle.gt_model.specs.Tables.{change};
ghost use Rattle.gt_names.specs.Known.{known};
ghost use Rattle.gt_grammar.specs.Deeds.{func_place};
ghost use Rattle.gt_grammar.specs.Faults.{is_function, lacks_main};
ghost use Rattle.gt_script.specs.Reading.{leading, put, all_jump, chosen, is_loop};

use crate::cases::OpenCases;
use crate::command::{read_command, step_with};
use crate::unread::Unread;
use gt_grammar::{Progress, Statement, Why};
use gt_lines::Line;
use gt_model::{Case, CaseKind, Code, Decl, Decls, Func, Funcs, Instr, Script, Text, What};
use gt_names::{Declared, NameTable};
use gt_table::Step;
use std::alloc::{AllocError, Global};
use std::marker::Model;
use std::mem;

/// A block that is open.
#[derive(Drop)]
pub(crate) enum Block {
    /// A loop whose top has this index in the code.
    Loop {
        top: u32,
    },
    /// A select with its cases so far, and the index at which its default begins. Of each the instruction in front of its body, which is
    /// the choice or a jump, is made when the select ends.
    Choice {
        cases: OpenCases,
        default_to: Option<u32>,
    },
}

/// What is made of the lines so far.
#[derive(Drop)]
pub(crate) struct Reader {
    alloc: Global,
    progress: Progress,
    decls: Vec<Decl>,
    /// The functions that are closed.
    funcs: Vec<Func>,
    /// The place of the function that is open among the declarations.
    open_decl: u32,
    /// The instructions of the function that is open.
    code: Vec<Instr>,
    /// The blocks that are open in it, the innermost last.
    blocks: Vec<Block>,
}

impl Model for Reader {
    ghost use Rattle.std.specs.Prelude.{reverse};
    ghost use Rattle.gt_script.specs.Reading.{Reader as Reading};

    ghost Value = { Reading };

    ghost view = { λ r. record {
      progress = r.progress;
      built = record {
        decls = r.decls.items;
        funcs = r.funcs.items;
        open_decl = r.open_decl;
        code = r.code.items;
        blocks = reverse r.blocks.items;
      };
    } };
}

fn is_function(declared: Option<Declared>) -> bool
    ensures { result ≡ is_function declared }
{
    match declared {
        None => false,
        Some(d) => d.kind.is_function(),
    }
}

/// Whether the script ends here without a function `main`.
pub(crate) fn lacks_main(names: &NameTable, is_last: bool) -> bool
    ensures { result ≡ lacks_main (known names.now) is_last }
{
    is_last && !is_function(names.find(b"main"))
}

fn main_place(names: &NameTable) -> u32
    ensures { result ≡ func_place (known names.now (codes "main")) }
{
    match names.find(b"main") {
        None => 0,
        Some(main) => main.func,
    }
}

// An index in a code. It has 32 bits: a code that outgrows them would take more than 100 GB, and so counts as out of memory.
fn code_index(index: usize) -> Result<u32, AllocError>
    ensures { IfOk result (λ i. i ≡ index) }
{
    match u32::try_from(index) {
        Ok(index) => Ok(index),
        Err(_) => Err(AllocError),
    }
}

// The top of a loop leads past it to this index from now on.
fn lead_past(instr: &mut Instr, index: u32)
    ensures { instr.new ≡ leading index instr.old }
{
    if let Instr::LoopTop { past, .. } = instr {
        *past = index;
    }
}

// The same for the instruction at a place.
fn lead(code: &mut Vec<Instr>, top: u32, index: u32)
    ensures { code.new.items ≡ change code.old.items top (leading index) }
{
    if let Some(instr) = code.get_mut(top as usize) {
        lead_past(instr, index);
    }
}

// In front of this index stands this instruction from now on.
#[tactic(auto, using(crate::proofs::Blocks::put_within, crate::proofs::Blocks::put_beyond))]
fn put(code: &mut Vec<Instr>, to: u32, instr: Instr)
    ensures { code.new.items ≡ put code.old.items to instr }
{
    let index = to.saturating_sub(1) as usize;
    if index < code.len() {
        code[index] = instr;
    }
}

// In front of the body of each of these cases stands a jump to this index from now on.
fn put_jumps(code: &mut Vec<Instr>, cases: &[Case], end: u32)
    ensures { code.new.items ≡ all_jump end cases.now code.old.items }
{
    for case in cases {
        put(code, case.to, Instr::Jump { to: end });
    }
}

// Makes the instructions in front of the bodies of a select that ends in front of this index: the first is the choice, the others are jumps.
fn put_choice(code: &mut Vec<Instr>, cases: OpenCases, default_to: Option<u32>, end: u32)
    ensures { code.new.items ≡ chosen end cases default_to cases default_to code.old.items }
{
    if let Some(to) = default_to {
        put(code, to, Instr::Jump { to: end });
    }
    put_jumps(code, cases.as_slice(), end);
    if let Some(first) = cases.as_slice().first().copied() {
        let cases = cases.closed();
        put(code, first.to, Instr::Select { cases, default_to });
    }
}

fn is_loop(block: &Block) -> bool
    ensures { result ≡ is_loop block.now }
{
    matches!(block, Block::Loop { .. })
}

// How many of these are loops.
fn loop_count(blocks: &[Block]) -> usize
    ensures { result ≡ count_by is_loop blocks.now }
{
    blocks.iter().filter(|block| is_loop(block)).count()
}

impl Reader {
    ghost use Rattle.std.specs.Prelude.{◌≡◌, ℕ, ◌+◌, ◌≤◌, ◌<◌, ◌∷◌, [], ◌++◌, length, IfOk, None, Some, OnOk, IfErr, IfSome, IsSome, false};
    ghost use Rattle.std.specs.Option.{unwrap_or};
    ghost use Rattle.gt_table.specs.Forms.{most_of};
    ghost use Rattle.gt_table.specs.Table.{form_of};
    ghost use Rattle.gt_table.specs.declared.form.Step.{Step};
    ghost use Rattle.gt_lines.specs.Lines.{line_at};
    ghost use Rattle.gt_names.specs.Known.{known};
    ghost use Rattle.gt_grammar.specs.Statements.{step_with};
    ghost use Rattle.gt_grammar.specs.Deeds.{declares, loops, selects, chooses, defaults, closes, deed_of};
    ghost use Rattle.gt_grammar.specs.Faults.{role_of, nests_wrongly, selects_wrongly, brings_too_many, loop_count, cause_at, progress_after, progress_with, no_progress};
    ghost use Rattle.gt_script.specs.Unread.{IfRefused};
    ghost use Rattle.gt_script.specs.Reading.{Agrees, Goes, built_after, closed, loops_open, nothing_built, script_left};
    ghost use Rattle.gt_script.specs.declared.reader.Block.{Block};
    ghost use Rattle.gt_model.specs.declared.script.Instr.{Instr};

    pub(crate) fn new(alloc: Global) -> Reader
        ensures progress { result.progress ≡ no_progress }
        ensures built { result.built ≡ nothing_built }
    {
        Reader {
            alloc,
            progress: Progress::new(),
            decls: Vec::new(alloc),
            funcs: Vec::new(alloc),
            open_decl: 0,
            code: Vec::new(alloc),
            blocks: Vec::new(alloc),
        }
    }

    fn declare(&mut self, name: &[u8], what: What) -> Result<(), AllocError>
        ensures built { OnOk result (self.new.built ≡ built_after self.old.built (declares name.now what)) }
        ensures progress { self.new.progress ≡ self.old.progress }
    {
        let name = Text::of(Vec::from_slice(self.alloc, name)?);
        self.decls.push(Decl { name, what })?;
        Ok(())
    }

    fn close_function(&mut self) -> Result<(), AllocError>
        ensures built { OnOk result (self.new.built ≡ closed self.old.built []) }
        ensures progress { self.new.progress ≡ self.old.progress }
    {
        self.code.push(Instr::Finish)?;
        let code = mem::replace(&mut self.code, Vec::new(self.alloc));
        self.funcs.push(Func {
            decl: self.open_decl,
            code: Code::of(code),
        })?;
        Ok(())
    }

    // How many loops are open.
    #[tactic(auto, using(crate::proofs::Blocks::loops_open_reverse))]
    fn depth(&self) -> u8
        requires { loops_open self.now.built.blocks ≤ 4 }
        ensures { result ≡ loops_open self.now.built.blocks }
    {
        loop_count(self.blocks.as_slice()) as u8
    }

    fn open_loop(&mut self, count: u32) -> Result<(), AllocError>
        requires { loops_open self.old.built.blocks ≤ 4 }
        ensures built { OnOk result (self.new.built ≡ built_after self.old.built (loops count)) }
        ensures progress { self.new.progress ≡ self.old.progress }
    {
        let top = code_index(self.code.len())?;
        let depth = self.depth();
        self.code.push(Instr::LoopTop {
            depth,
            count,
            past: 0,
        })?;
        self.blocks.push(Block::Loop { top })?;
        Ok(())
    }

    fn open_select(&mut self) -> Result<(), AllocError>
        ensures built { OnOk result (self.new.built ≡ built_after self.old.built selects) }
        ensures progress { self.new.progress ≡ self.old.progress }
    {
        self.blocks.push(Block::Choice {
            cases: OpenCases::new(self.alloc),
            default_to: None,
        })?;
        Ok(())
    }

    // Makes room for the instruction in front of a body, and answers the index at which the body begins.
    fn open_body(&mut self) -> Result<u32, AllocError>
        ensures built { OnOk result (self.new.built
            ≡ record self.old.built { code = self.old.built.code ++ Instr.Jump 0 ∷ [] }) }
        ensures index { IfOk result (λ to. to ≡ length self.old.built.code + 1) }
        ensures progress { self.new.progress ≡ self.old.progress }
    {
        self.code.push(Instr::Jump { to: 0 })?;
        code_index(self.code.len())
    }

    fn put_back(&mut self, block: Block) -> Result<(), AllocError>
        ensures built { OnOk result (self.new.built
            ≡ record self.old.built { blocks = block ∷ self.old.built.blocks }) }
        ensures progress { self.new.progress ≡ self.old.progress }
    {
        self.blocks.push(block)?;
        Ok(())
    }

    fn choose(&mut self, kind: CaseKind) -> Result<(), AllocError>
        ensures built { OnOk result (self.new.built ≡ built_after self.old.built (chooses kind)) }
        ensures progress { self.new.progress ≡ self.old.progress }
    {
        let to = self.open_body()?;
        match self.blocks.pop() {
            None => Ok(()),
            Some(Block::Loop { top }) => self.put_back(Block::Loop { top }),
            Some(
                Block::Choice {
                    mut cases,
                    default_to,
                },
            ) => {
                cases.push(Case { kind, to })?;
                self.put_back(Block::Choice { cases, default_to })
            }
        }
    }

    fn open_default(&mut self) -> Result<(), AllocError>
        ensures built { OnOk result (self.new.built ≡ built_after self.old.built defaults) }
        ensures progress { self.new.progress ≡ self.old.progress }
    {
        let to = self.open_body()?;
        match self.blocks.pop() {
            None => Ok(()),
            Some(Block::Loop { top }) => self.put_back(Block::Loop { top }),
            Some(Block::Choice { cases, .. }) => self.put_back(Block::Choice {
                cases,
                default_to: Some(to),
            }),
        }
    }

    // Closes a loop that is no longer among the open blocks.
    fn close_loop(&mut self, top: u32) -> Result<(), AllocError>
        requires { loops_open self.old.built.blocks ≤ 4 }
        ensures built { OnOk result (self.new.built ≡ closed self.old.built (Block.Loop top ∷ self.old.built.blocks)) }
        ensures progress { self.new.progress ≡ self.old.progress }
    {
        let depth = self.depth();
        self.code.push(Instr::LoopEnd { depth, top })?;
        let past = code_index(self.code.len())?;
        lead(&mut self.code, top, past);
        Ok(())
    }

    // Closes a select that is no longer among the open blocks.
    fn close_choice(&mut self, cases: OpenCases, default_to: Option<u32>) -> Result<(), AllocError>
        ensures built { OnOk result (self.new.built ≡ closed self.old.built (Block.Choice cases default_to ∷ self.old.built.blocks)) }
        ensures progress { self.new.progress ≡ self.old.progress }
    {
        let last = code_index(self.code.len())?;
        let Some(end) = last.checked_add(1) else {
            return Err(AllocError);
        };
        self.code.push(Instr::Jump { to: end })?;
        put_choice(&mut self.code, cases, default_to, end);
        Ok(())
    }

    fn close(&mut self) -> Result<(), AllocError>
        requires { loops_open self.old.built.blocks ≤ 4 }
        ensures built { OnOk result (self.new.built ≡ built_after self.old.built closes) }
        ensures progress { self.new.progress ≡ self.old.progress }
    {
        match self.blocks.pop() {
            Some(Block::Loop { top }) => self.close_loop(top),
            Some(Block::Choice { cases, default_to }) => self.close_choice(cases, default_to),
            None => self.close_function(),
        }
    }

    // Does what a line does, whose first word may be a name.
    fn take(&mut self, name: &[u8], step: Step) -> Result<(), AllocError>
        requires { loops_open self.old.built.blocks ≤ 4 }
        ensures built { OnOk result (self.new.built ≡ built_after self.old.built (deed_of name.now step)) }
        ensures progress { self.new.progress ≡ self.old.progress }
    {
        match step {
            Step::Declare { what } => self.declare(name, what),
            Step::Open { decl } => {
                self.open_decl = decl;
                self.code = Vec::new(self.alloc);
                self.declare(name, What::Function)
            }
            Step::Do { instr } => {
                self.code.push(instr)?;
                Ok(())
            }
            Step::Loop { count } => self.open_loop(count),
            Step::Select => self.open_select(),
            Step::Case { kind } => self.choose(kind),
            Step::Default => self.open_default(),
            Step::Close => self.close(),
        }
    }

    // Goes on behind a statement with nothing wrong, whose first word may be a name.
    fn go_on(&mut self, name: &[u8], statement: &Statement) -> Result<(), AllocError>
        requires agrees { loops_open self.old.built.blocks ≡ loop_count self.old.progress.blocks }
        requires shallow { loop_count self.old.progress.blocks ≤ 4 }
        requires nests { nests_wrongly self.old.progress (role_of statement.now) ≡ false }
        requires selects { selects_wrongly self.old.progress.blocks (role_of statement.now) ≡ false }
        requires room { brings_too_many self.old.progress (role_of statement.now) ≡ false }
        requires known { IsSome (step_with statement.now) }
        requires first { IfSome statement.now.first (λ v. v ≤ most_of (form_of statement.now.keyword).first) }
        requires second { IfSome statement.now.second (λ v. v ≤ most_of (form_of statement.now.keyword).second) }
        requires third { IfSome statement.now.third (λ v. v ≤ most_of (form_of statement.now.keyword).third) }
        requires fourth { IfSome statement.now.fourth (λ v. v ≤ most_of (form_of statement.now.keyword).fourth) }
        ensures progress { OnOk result (self.new.progress
            ≡ progress_with self.old.progress (role_of statement.now) (unwrap_or statement.now.first 0) statement.now.awaits) }
        ensures built { OnOk result (IfSome (step_with statement.now) (λ step.
            self.new.built ≡ built_after self.old.built (deed_of name.now step))) }
    {
        let role = statement.keyword.form().role;
        self.progress
            .pass(role, statement.first.unwrap_or(0), statement.awaits);
        match step_with(statement) {
            Some(step) => self.take(name, step),
            None => unreachable!(),
        }
    }

    /// Reads the next line behind the first one.
    pub(crate) fn read<'a>(
        &mut self,
        names: &NameTable<'a>,
        line: &Line<'a>,
        is_last: bool,
    ) -> Result<(), Unread>
        requires { Agrees self.old.progress self.old.built }
        ensures fault { IfErr result (λ unread. IfRefused unread (λ fault. (fault.line ≡ line.now.number)
            × (cause_at (known names.now) is_last self.old.progress (line_at line.now) ≡ Some fault.why))) }
        ensures faultless { OnOk result (cause_at (known names.now) is_last self.old.progress (line_at line.now) ≡ None) }
        ensures progress { OnOk result (self.new.progress ≡ progress_after (known names.now) self.old.progress (line_at line.now)) }
        ensures built { OnOk result (Goes (known names.now)
            self.old.progress.inside self.old.built (line_at line.now) self.new.progress.inside self.new.built) }
        ensures agrees { OnOk result (Agrees self.new.progress self.new.built) }
    {
        let Some(command) = read_command(line.word, line.rest) else {
            return Err(Unread::refused(line.number, Why::Word));
        };
        let statement = command.read(names);
        let lacks_main = lacks_main(names, is_last);
        match self.progress.cause(&statement, is_last, lacks_main) {
            Some(why) => Err(Unread::refused(line.number, why)),
            None => match self.go_on(command.first, &statement) {
                Ok(()) => Ok(()),
                Err(_) => Err(Unread::NoMemory),
            },
        }
    }

    /// The script, where no line is left.
    pub(crate) fn finish(self, names: &NameTable) -> Script
        ensures { result ≡ script_left (known names.now) false self.built [] }
    {
        Script {
            decls: Decls::of(self.decls),
            funcs: Funcs::of(self.funcs),
            main: main_place(names),
        }
    }
}
