//! Why a text is no script.

/// A refusal: the first faulty line, and the first cause on it in the order of [`Why`].
#[derive(Clone, Copy, Debug, PartialEq, Eq)]
pub struct ScriptFault {
    /// The line, counted from 1, skipped lines included.
    pub line: u32,
    pub why: Why,
}

/// The causes of a refusal, in the order in which they count on one line.
#[derive(Clone, Copy, Debug, PartialEq, Eq)]
pub enum Why {
    /// The line holds the first byte at which the text is not UTF-8.
    Utf8,
    /// The first line with words is not `gotime script 1`.
    Head,
    /// The first word is unknown or cannot stand here, the number of words is wrong, or the fourth word of a context tells no form.
    Word,
    /// A name is spelled wrongly, is undeclared, or is of the wrong kind; a parent is not declared on an earlier line; a context of the form `without` is canceled or
    /// received from; or one is canceled with a cause that is not of the form `cause`.
    Name,
    /// The name was declared on an earlier line.
    Twice,
    /// The script ends inside a function.
    Missing,
    /// A number or a duration is spelled wrongly or out of range.
    Number,
    /// An `end` without its block or function, a fifth loop inside four others, a seventeenth block inside sixteen others, a `case` or a
    /// `default` whose innermost block is no select, or the `end` of a loop that holds nothing, or has passes and holds only loops
    /// without passes.
    Nest,
    /// Of a select: a second `default`, a `case` behind the `default`, a seventeenth case, an instruction or a block in front of the
    /// first case, the `end` without a case, or a `default` behind two or more cases that receive from timers.
    Select,
    /// The line brings the declared names above 4,096, the functions above 256, or the instructions above 100,000.
    Many,
    /// There is no function `main`.
    NoMain,
}
