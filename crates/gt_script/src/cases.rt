//! The cases of a select that is open.

ghost use Rattle.std.specs.Prelude.{◌≡◌};

use gt_model::{Case, Cases};
use std::alloc::{AllocError, Global};
use std::marker::Model;

/// The cases so far, in order.
#[derive(Drop)]
pub(crate) struct OpenCases {
    items: Vec<Case>,
}

impl Model for OpenCases {
    ghost use Rattle.std.specs.Prelude.{List};
    ghost use Rattle.gt_model.specs.declared.script.Case.{Case};

    ghost Value = { List Case };

    ghost view = { λ c. c.items.items };
}

impl OpenCases {
    ghost use Rattle.std.specs.Prelude.{◌≡◌, [], ◌∷◌, ◌++◌, OnOk};

    /// No case.
    pub(crate) fn new(alloc: Global) -> OpenCases
        ensures { result ≡ [] }
    {
        OpenCases {
            items: Vec::new(alloc),
        }
    }

    /// Adds a case at the end.
    pub(crate) fn push(&mut self, case: Case) -> Result<(), AllocError>
        ensures { OnOk result (self.new ≡ self.old ++ case ∷ []) }
    {
        self.items.push(case)?;
        Ok(())
    }

    /// The cases.
    pub(crate) fn as_slice(&self) -> &[Case]
        ensures { result.now ≡ self.now }
    {
        self.items.as_slice()
    }

    /// The cases of the choice.
    pub(crate) fn closed(self) -> Cases
        ensures { result ≡ self }
    {
        Cases::of(self.items)
    }
}
