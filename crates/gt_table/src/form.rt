//! What a line is made of, and what it does.

ghost use Rattle.std.specs.Prelude.{◌≡◌};

use gt_model::{CaseKind, Instr, What};

/// The word by which the line of a context tells its form.
#[derive(Clone, Copy, Debug, PartialEq, Eq)]
pub enum CtxForm {
    Cancel,
    Cause,
    Timeout,
    Without,
}

/// What kind of thing a name is declared as.
#[derive(Clone, Copy, Debug, PartialEq, Eq)]
pub enum Kind {
    Timer,
    Ticker,
    AfterFunc,
    Chan,
    Mutex,
    Wg,
    Cond,
    /// A context, with the form that its line tells, if that tells one.
    Ctx { form: Option<CtxForm> },
    Hook,
    Error,
    Function,
}

/// What stands behind a keyword at one place.
#[derive(Clone, Copy, Debug, PartialEq, Eq)]
pub enum Arg {
    /// No word.
    Nothing,
    /// The name that the line declares.
    NewName,
    /// The name of a channel timer or of an AfterFunc timer.
    Setting,
    /// The name of a channel.
    Channel,
    /// The name of a channel timer, of a channel, or of a context that is not of the form `without`.
    Source,
    /// The name of a mutex.
    Mutex,
    /// The name of a WaitGroup.
    WaitGroup,
    /// The name of a Cond.
    Cond,
    /// The name of a context that is declared on an earlier line, or `root`. Its value is 0 for `root`, and else one more than the context's place.
    Parent,
    /// The name of a context.
    Context,
    /// The name of a context that is not of the form `without`.
    Endable,
    /// The name of a context of the form `cause`.
    Causable,
    /// The name of a hook.
    Hook,
    /// The name of an error.
    Error,
    /// The name of a function.
    Function,
    /// A duration.
    Duration,
    /// A number of 32 bits.
    Number,
    /// A number of passes of a loop: 0 to 1,000,000.
    Passes,
    /// How many values a channel keeps at most: 0 to 1,024.
    Capacity,
    /// What is added to a counter: -1,000,000 to 1,000,000. Values are not below 0, so that of its word is how far it lies above -1,000,000: 0 to 2,000,000.
    Added,
}

/// Where a line stands, and what it is there.
#[derive(Clone, Copy, Debug, PartialEq, Eq)]
pub enum Role {
    /// It stands outside functions and declares a name. The declaration of a function opens it.
    Declares { kind: Kind },
    /// It closes the innermost block that is open, or else the function.
    Closes,
    /// It stands inside a function and is an instruction.
    Acts,
    /// It stands inside a function and opens a loop.
    Loops,
    /// It stands inside a function, is an instruction, and opens a select.
    Selects,
    /// It is a case of the select that is the innermost block.
    Chooses,
    /// It is the default of the select that is the innermost block.
    Defaults,
}

/// What a keyword makes of its line: where that stands, and what follows the keyword, in this order. The word by which a context's line tells its form is part
/// of the keyword.
#[derive(Clone, Copy, Debug, PartialEq, Eq)]
pub struct Form {
    pub role: Role,
    pub first: Arg,
    pub second: Arg,
    pub third: Arg,
    pub fourth: Arg,
}

/// What the words behind a keyword stand for: 0 where no word is wanted.
#[derive(Clone, Copy, Debug, PartialEq, Eq)]
pub struct Values {
    pub first: u64,
    pub second: u64,
    pub third: u64,
    pub fourth: u64,
}

/// What a line does.
#[derive(Drop)]
pub enum Step {
    /// Declares its name as an object.
    Declare { what: What },
    /// Opens the function whose name is declared at this place.
    Open { decl: u32 },
    /// Goes on with an instruction.
    Do { instr: Instr },
    /// Opens a loop with so many passes.
    Loop { count: u32 },
    /// Opens a select.
    Select,
    /// Goes on with a case of the innermost select.
    Case { kind: CaseKind },
    /// Goes on with the default of the innermost select.
    Default,
    /// Closes the innermost block that is open, or else the function.
    Close,
}

impl Kind {
    ghost use Rattle.std.specs.Prelude.{◌≡◌};
    ghost use Rattle.gt_table.specs.Forms.{is_kind_function, is_kind_setting, is_kind_timer, is_kind_chan, is_kind_source, is_kind_mutex, is_kind_wg, is_kind_cond, is_kind_ctx, is_kind_endable, is_kind_causable, is_kind_hook, is_kind_error};

    /// Whether it is a function.
    pub fn is_function(self) -> bool
        ensures { result ≡ is_kind_function self }
    {
        matches!(self, Kind::Function)
    }

    /// Whether it is a timer that is set and stopped.
    pub fn is_setting(self) -> bool
        ensures { result ≡ is_kind_setting self }
    {
        matches!(self, Kind::Timer | Kind::Ticker | Kind::AfterFunc)
    }

    /// Whether it is a timer that is received from.
    pub fn is_timer(self) -> bool
        ensures { result ≡ is_kind_timer self }
    {
        matches!(self, Kind::Timer | Kind::Ticker)
    }

    /// Whether it is a channel.
    pub fn is_chan(self) -> bool
        ensures { result ≡ is_kind_chan self }
    {
        matches!(self, Kind::Chan)
    }

    /// Whether it is received from: a timer, a channel, or a context that is not of the form `without`.
    pub fn is_source(self) -> bool
        ensures { result ≡ is_kind_source self }
    {
        self.is_timer() || self.is_chan() || self.is_endable()
    }

    /// Whether it is a mutex.
    pub fn is_mutex(self) -> bool
        ensures { result ≡ is_kind_mutex self }
    {
        matches!(self, Kind::Mutex)
    }

    /// Whether it is a WaitGroup.
    pub fn is_wg(self) -> bool
        ensures { result ≡ is_kind_wg self }
    {
        matches!(self, Kind::Wg)
    }

    /// Whether it is a Cond.
    pub fn is_cond(self) -> bool
        ensures { result ≡ is_kind_cond self }
    {
        matches!(self, Kind::Cond)
    }

    /// Whether it is a context.
    pub fn is_ctx(self) -> bool
        ensures { result ≡ is_kind_ctx self }
    {
        matches!(self, Kind::Ctx { .. })
    }

    /// Whether it is a context that is not of the form `without`.
    pub fn is_endable(self) -> bool
        ensures { result ≡ is_kind_endable self }
    {
        match self {
            Kind::Ctx { form } => !matches!(form, Some(CtxForm::Without)),
            _ => false,
        }
    }

    /// Whether it is a context of the form `cause`.
    pub fn is_causable(self) -> bool
        ensures { result ≡ is_kind_causable self }
    {
        match self {
            Kind::Ctx { form } => matches!(form, Some(CtxForm::Cause)),
            _ => false,
        }
    }

    /// Whether it is a function that starts when a context ends.
    pub fn is_hook(self) -> bool
        ensures { result ≡ is_kind_hook self }
    {
        matches!(self, Kind::Hook)
    }

    /// Whether it is an error.
    pub fn is_error(self) -> bool
        ensures { result ≡ is_kind_error self }
    {
        matches!(self, Kind::Error)
    }
}

impl Arg {
    ghost use Rattle.std.specs.Prelude.{◌≡◌};
    ghost use Rattle.gt_table.specs.Forms.{is_wanted, is_amount, takes, is_parent};

    /// Whether a word is wanted there.
    pub fn is_wanted(self) -> bool
        ensures { result ≡ is_wanted self }
    {
        !matches!(self, Arg::Nothing)
    }

    /// Whether the word spells an amount; the others are names.
    pub fn is_amount(self) -> bool
        ensures { result ≡ is_amount self }
    {
        matches!(
            self,
            Arg::Duration | Arg::Number | Arg::Passes | Arg::Capacity | Arg::Added
        )
    }

    /// Whether a name that is declared as this kind may stand there.
    pub fn takes(self, kind: Kind) -> bool
        ensures { result ≡ takes self kind }
    {
        match self {
            Arg::Setting => kind.is_setting(),
            Arg::Channel => kind.is_chan(),
            Arg::Source => kind.is_source(),
            Arg::Mutex => kind.is_mutex(),
            Arg::WaitGroup => kind.is_wg(),
            Arg::Cond => kind.is_cond(),
            Arg::Parent | Arg::Context => kind.is_ctx(),
            Arg::Endable => kind.is_endable(),
            Arg::Causable => kind.is_causable(),
            Arg::Hook => kind.is_hook(),
            Arg::Error => kind.is_error(),
            Arg::Function => kind.is_function(),
            Arg::Nothing | Arg::NewName => false,
            Arg::Duration | Arg::Number | Arg::Passes | Arg::Capacity | Arg::Added => false,
        }
    }

    /// Whether it is the parent of a context.
    pub fn is_parent(self) -> bool
        ensures { result ≡ is_parent self }
    {
        matches!(self, Arg::Parent)
    }
}

impl Role {
    ghost use Rattle.std.specs.Prelude.{◌≡◌};
    ghost use Rattle.gt_table.specs.Forms.{declared_kind, is_declaration, opens, closes, acts, loops};

    /// What it declares a name as, if it declares one.
    pub fn declared_kind(self) -> Option<Kind>
        ensures { result ≡ declared_kind self }
    {
        match self {
            Role::Declares { kind } => Some(kind),
            Role::Closes
            | Role::Acts
            | Role::Loops
            | Role::Selects
            | Role::Chooses
            | Role::Defaults => None,
        }
    }

    /// Whether it declares a name.
    pub fn is_declaration(self) -> bool
        ensures { result ≡ is_declaration self }
    {
        matches!(self, Role::Declares { .. })
    }

    /// Whether it opens a function.
    pub fn opens(self) -> bool
        ensures { result ≡ opens self }
    {
        match self {
            Role::Declares { kind } => kind.is_function(),
            Role::Closes
            | Role::Acts
            | Role::Loops
            | Role::Selects
            | Role::Chooses
            | Role::Defaults => false,
        }
    }

    /// Whether it closes a block or a function.
    pub fn closes(self) -> bool
        ensures { result ≡ closes self }
    {
        matches!(self, Role::Closes)
    }

    /// Whether it is an instruction.
    pub fn acts(self) -> bool
        ensures { result ≡ acts self }
    {
        matches!(self, Role::Acts | Role::Selects)
    }

    /// Whether it opens a loop.
    pub fn loops(self) -> bool
        ensures { result ≡ loops self }
    {
        matches!(self, Role::Loops)
    }
}

impl Form {
    ghost use Rattle.std.specs.Prelude.{◌≡◌};
    ghost use Rattle.gt_table.specs.Forms.{form_with};

    /// The form with this role and at most two words behind the keyword.
    pub fn new(role: Role, first: Arg, second: Arg) -> Form
        ensures { result ≡ form_with role first second Arg.Nothing Arg.Nothing }
    {
        Form {
            role,
            first,
            second,
            third: Arg::Nothing,
            fourth: Arg::Nothing,
        }
    }
}
