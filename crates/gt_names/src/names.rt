//! What names are declared as.

ghost use Rattle.std.specs.Prelude.{◌≡◌, ◌∷◌, IfOk, MatchOption};
ghost use Rattle.gt_lines.specs.Words.{words_of, numbered_lines};
ghost use Rattle.gt_names.specs.Known.{known};
ghost use Rattle.gt_names.specs.Names.{form_told, kind_of, naming, naming_of, names_of, functions_with};

use crate::name::is_free_name;
use gt_lines::{Line, first_word, is_text, next_line};
use gt_table::{CtxForm, Kind, read_ctx_form, read_keyword};
use std::alloc::{AllocError, Global};
use std::collections::BTreeMap;

/// What a name is declared as.
#[derive(Clone, Copy, Debug, PartialEq, Eq)]
pub struct Declared {
    pub kind: Kind,
    /// How many names are declared in front of it.
    pub place: u32,
    /// How many functions are declared in front of it.
    pub func: u32,
}

/// The names of the lines of a script, each with its first declaration. They stand in an ordered map, so no choice of names
/// makes it slow.
#[derive(Drop)]
pub struct NameTable<'a> {
    map: BTreeMap<&'a [u8], Declared>,
    /// How many lines declare a name.
    names: u32,
    /// How many of them declare a function.
    functions: u32,
}

// The form that a context's line tells, which has this behind its first word.
fn form_told(rest: &[u8]) -> Option<CtxForm>
    ensures { result ≡ form_told (words_of rest.now) }
{
    let (_, rest) = first_word(rest)?;
    let (_, rest) = first_word(rest)?;
    let (word, _) = first_word(rest)?;
    read_ctx_form(word)
}

// What a line with this first word, and this behind it, declares its name as.
fn kind_of(word: &[u8], rest: &[u8]) -> Option<Kind>
    ensures { result ≡ kind_of word.now (words_of rest.now) }
{
    if is_text(word, b"ctx") {
        return Some(Kind::Ctx {
            form: form_told(rest),
        });
    }
    read_keyword(word)?.form().role.declared_kind()
}

// The name that a line declares, and what as.
fn read_naming<'a>(word: &[u8], rest: &'a [u8]) -> Option<(&'a [u8], Kind)>
    ensures { MatchOption result (naming_of (word.now ∷ words_of rest.now) ≡ None)
        (λ r. naming_of (word.now ∷ words_of rest.now) ≡ Some (naming r.0.now r.1)) }
{
    let kind = kind_of(word, rest)?;
    let (name, _) = first_word(rest)?;
    if !is_free_name(name) {
        return None;
    }
    Some((name, kind))
}

fn functions_with(kind: Kind, functions: u32) -> u32
    ensures { result ≡ functions_with kind functions }
{
    if kind.is_function() {
        functions.saturating_add(1)
    } else {
        functions
    }
}

impl<'a> NameTable<'a> {
    ghost use Rattle.std.specs.Prelude.{◌≡◌, ◌∷◌, None, Some, OnOk, ℕ, List, if◌then◌else◌};
    ghost use Rattle.std.specs.Str.{bytes_eq};
    ghost use Rattle.gt_lines.specs.Words.{NumberedLine};
    ghost use Rattle.gt_lines.specs.Lines.{line_at};
    ghost use Rattle.gt_names.specs.Known.{known, known_with, or_else};

    fn new(alloc: Global) -> NameTable<'a>
        ensures known { (q : List ℕ) → known result q ≡ None }
        ensures names { result.names ≡ 0 }
        ensures functions { result.functions ≡ 0 }
    {
        NameTable {
            map: BTreeMap::new(alloc),
            names: 0,
            functions: 0,
        }
    }

    /// What a name is declared as.
    pub fn find(&self, name: &'a [u8]) -> Option<Declared>
        ensures { result ≡ known self.now name.now }
    {
        self.map.get(&name).copied()
    }

    // Declares a name. The first declaration of a name counts.
    fn declare(&mut self, name: &'a [u8], declared: Declared) -> Result<(), AllocError>
        ensures known { OnOk result ((q : List ℕ)
            → known self.new q ≡ or_else (known self.old q) (if bytes_eq q name.now then Some declared else None)) }
        ensures names { self.new.names ≡ self.old.names }
        ensures functions { self.new.functions ≡ self.old.functions }
    {
        match self.map.get(&name) {
            Some(_) => Ok(()),
            None => {
                self.map.insert(name, declared)?;
                Ok(())
            }
        }
    }

    // Reads a line, which may declare a name.
    fn read(&mut self, line: &Line<'a>) -> Result<(), AllocError>
        ensures { OnOk result ((rest : List NumberedLine) (q : List ℕ)
            → known_with self.new rest q ≡ known_with self.old (line_at line.now ∷ rest) q) }
    {
        match read_naming(line.word, line.rest) {
            None => Ok(()),
            Some((name, kind)) => {
                let declared = Declared {
                    kind,
                    place: self.names,
                    func: self.functions,
                };
                self.declare(name, declared)?;
                self.names = self.names.saturating_add(1);
                self.functions = functions_with(kind, self.functions);
                Ok(())
            }
        }
    }
}

/// The names that a text declares, in one pass over its lines. It looks at the words behind the first of lines that declare alone.
pub fn read_names<'a>(alloc: Global, text: &'a [u8]) -> Result<NameTable<'a>, AllocError>
    ensures { IfOk result (λ names. known names ≡ names_of (numbered_lines text.now)) }
{
    let mut names = NameTable::new(alloc);
    let mut ahead = next_line(text, 1);
    while let Some(line) = ahead {
        names.read(&line)?;
        ahead = next_line(line.after, line.number.saturating_add(1));
    }
    Ok(names)
}
