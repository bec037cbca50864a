//! The lists of a script. Each is made of a `Vec`, keeps its order, and lends its items as a slice.

ghost use Rattle.std.specs.Prelude.{◌≡◌};

use crate::script::{Case, Decl, Func, Instr};
use std::marker::Model;

/// A name, as bytes.
#[derive(Drop)]
pub struct Text {
    items: Vec<u8>,
}

impl Model for Text {
    ghost use Rattle.std.specs.Prelude.{List, ℕ};

    ghost Value = { List ℕ };

    ghost view = { λ t. t.items.items };
}

impl Text {
    /// These items.
    pub fn of(items: Vec<u8>) -> Text
        ensures { result ≡ items.items }
    {
        Text { items }
    }

    /// The items.
    pub fn as_slice(&self) -> &[u8]
        ensures { result.now ≡ self.now }
    {
        self.items.as_slice()
    }
}

/// The declared names, in the order of their lines.
#[derive(Drop)]
pub struct Decls {
    items: Vec<Decl>,
}

impl Model for Decls {
    ghost use Rattle.std.specs.Prelude.{List};
    ghost use Rattle.gt_model.specs.declared.script.Decl.{Decl};

    ghost Value = { List Decl };

    ghost view = { λ d. d.items.items };
}

impl Decls {
    /// These items.
    pub fn of(items: Vec<Decl>) -> Decls
        ensures { result ≡ items.items }
    {
        Decls { items }
    }

    /// The items.
    pub fn as_slice(&self) -> &[Decl]
        ensures { result.now ≡ self.now }
    {
        self.items.as_slice()
    }
}

/// The functions, in the order of their lines.
#[derive(Drop)]
pub struct Funcs {
    items: Vec<Func>,
}

impl Model for Funcs {
    ghost use Rattle.std.specs.Prelude.{List};
    ghost use Rattle.gt_model.specs.declared.script.Func.{Func};

    ghost Value = { List Func };

    ghost view = { λ f. f.items.items };
}

impl Funcs {
    /// These items.
    pub fn of(items: Vec<Func>) -> Funcs
        ensures { result ≡ items.items }
    {
        Funcs { items }
    }

    /// The items.
    pub fn as_slice(&self) -> &[Func]
        ensures { result.now ≡ self.now }
    {
        self.items.as_slice()
    }
}

/// The instructions of a function, in order.
#[derive(Drop)]
pub struct Code {
    items: Vec<Instr>,
}

impl Model for Code {
    ghost use Rattle.std.specs.Prelude.{List};
    ghost use Rattle.gt_model.specs.declared.script.Instr.{Instr};

    ghost Value = { List Instr };

    ghost view = { λ c. c.items.items };
}

impl Code {
    /// These items.
    pub fn of(items: Vec<Instr>) -> Code
        ensures { result ≡ items.items }
    {
        Code { items }
    }

    /// The items.
    pub fn as_slice(&self) -> &[Instr]
        ensures { result.now ≡ self.now }
    {
        self.items.as_slice()
    }
}

/// The cases of a choice, in order.
#[derive(Drop)]
pub struct Cases {
    items: Vec<Case>,
}

impl Model for Cases {
    ghost use Rattle.std.specs.Prelude.{List};
    ghost use Rattle.gt_model.specs.declared.script.Case.{Case};

    ghost Value = { List Case };

    ghost view = { λ c. c.items.items };
}

impl Cases {
    /// These items.
    pub fn of(items: Vec<Case>) -> Cases
        ensures { result ≡ items.items }
    {
        Cases { items }
    }

    /// The items.
    pub fn as_slice(&self) -> &[Case]
        ensures { result.now ≡ self.now }
    {
        self.items.as_slice()
    }
}
