//! A line with its names looked up and its amounts read.

ghost use Rattle.std.specs.Prelude.{◌≡◌};
ghost use Rattle.gt_grammar.specs.Faults.{is_named, is_counted};

use gt_table::{Arg, Keyword};

/// A keyword with the values of the words behind it: a place for a name, an amount for a number or a duration.
#[derive(Clone, Copy)]
pub struct Statement {
    pub keyword: Keyword,
    /// 0 where no word is wanted; `None` where the word is wrong.
    pub first: Option<u64>,
    /// The same for the words behind it.
    pub second: Option<u64>,
    pub third: Option<u64>,
    pub fourth: Option<u64>,
    /// Whether it is a case that receives from a timer.
    pub awaits: bool,
}

fn is_named(arg: Arg, value: Option<u64>) -> bool
    ensures { result ≡ is_named arg value }
{
    arg.is_amount() || value.is_some()
}

fn is_counted(arg: Arg, value: Option<u64>) -> bool
    ensures { result ≡ is_counted arg value }
{
    !arg.is_amount() || value.is_some()
}

impl Statement {
    ghost use Rattle.std.specs.Prelude.{◌≡◌};
    ghost use Rattle.gt_grammar.specs.Faults.{names_rightly, counts_rightly};

    /// Whether its names are spelled rightly, declared, and of the right kind.
    pub fn names_rightly(&self) -> bool
        ensures { result ≡ names_rightly self.now }
    {
        let form = self.keyword.form();
        is_named(form.first, self.first)
            && is_named(form.second, self.second)
            && is_named(form.third, self.third)
            && is_named(form.fourth, self.fourth)
    }

    /// Whether its amounts are spelled rightly and in their ranges.
    pub fn counts_rightly(&self) -> bool
        ensures { result ≡ counts_rightly self.now }
    {
        let form = self.keyword.form();
        is_counted(form.first, self.first)
            && is_counted(form.second, self.second)
            && is_counted(form.third, self.third)
            && is_counted(form.fourth, self.fourth)
    }
}
