//! The keywords: one row for each says what it wants and what it does.

ghost use Rattle.std.specs.Prelude.{◌≡◌, ◌≤◌, Some};
ghost use Rattle.gt_model.specs.declared.script.Instr.{Instr};
ghost use Rattle.gt_table.specs.Forms.{form_with};
ghost use Rattle.gt_table.specs.Table.{keyword_of, case_keyword_of, ctx_form_of, ctx_keyword_of, ctx_with, cancel_with, parent_at};

use crate::form::{Arg, CtxForm, Form, Kind, Role, Step, Values};
use gt_model::{CaseKind, Form as DerivedBy, Instr, What};

/// How much is added to a counter at most, or taken from it.
const MOST_ADDED: i64 = 1_000_000;

/// A word that a line may begin with, that may stand behind `case`, or by which a context's line tells its form.
#[derive(Clone, Copy, Debug, PartialEq, Eq)]
pub enum Keyword {
    Timer,
    Ticker,
    AfterFunc,
    Chan,
    Mutex,
    Wg,
    Cond,
    /// `ctx X P cancel`
    CtxCancel,
    /// `ctx X P cause`
    CtxCause,
    /// `ctx X P timeout D`
    CtxTimeout,
    /// `ctx X P timeout D E`
    CtxTimeoutCause,
    /// `ctx X P without`
    CtxWithout,
    Hook,
    Error,
    Func,
    End,
    Loop,
    Select,
    /// `case recv`
    CaseRecv,
    /// `case send`
    CaseSend,
    Default,
    Say,
    Now,
    Sleep,
    Go,
    New,
    Stop,
    Reset,
    Recv,
    Make,
    Send,
    Close,
    Lock,
    Unlock,
    Add,
    Done,
    Wait,
    CWait,
    Signal,
    Broadcast,
    With,
    /// `cancel X`
    Cancel,
    /// `cancel X E`
    CancelCause,
    ErrOf,
    CauseOf,
    After,
    Unhook,
}

/// The keyword that the first word of a line is, if it is one by itself. For `case` see [`read_case`], for `ctx` [`read_ctx`], and for `cancel` [`cancel_keyword`].
pub fn read_keyword(word: &[u8]) -> Option<Keyword>
    ensures { result ≡ keyword_of word.now }
{
    match word {
        b"timer" => Some(Keyword::Timer),
        b"ticker" => Some(Keyword::Ticker),
        b"afterfunc" => Some(Keyword::AfterFunc),
        b"chan" => Some(Keyword::Chan),
        b"mutex" => Some(Keyword::Mutex),
        b"wg" => Some(Keyword::Wg),
        b"cond" => Some(Keyword::Cond),
        b"hook" => Some(Keyword::Hook),
        b"error" => Some(Keyword::Error),
        b"func" => Some(Keyword::Func),
        b"end" => Some(Keyword::End),
        b"loop" => Some(Keyword::Loop),
        b"select" => Some(Keyword::Select),
        b"default" => Some(Keyword::Default),
        b"say" => Some(Keyword::Say),
        b"now" => Some(Keyword::Now),
        b"sleep" => Some(Keyword::Sleep),
        b"go" => Some(Keyword::Go),
        b"new" => Some(Keyword::New),
        b"stop" => Some(Keyword::Stop),
        b"reset" => Some(Keyword::Reset),
        b"recv" => Some(Keyword::Recv),
        b"make" => Some(Keyword::Make),
        b"send" => Some(Keyword::Send),
        b"close" => Some(Keyword::Close),
        b"lock" => Some(Keyword::Lock),
        b"unlock" => Some(Keyword::Unlock),
        b"add" => Some(Keyword::Add),
        b"done" => Some(Keyword::Done),
        b"wait" => Some(Keyword::Wait),
        b"cwait" => Some(Keyword::CWait),
        b"signal" => Some(Keyword::Signal),
        b"broadcast" => Some(Keyword::Broadcast),
        b"with" => Some(Keyword::With),
        b"err" => Some(Keyword::ErrOf),
        b"cause" => Some(Keyword::CauseOf),
        b"after" => Some(Keyword::After),
        b"unhook" => Some(Keyword::Unhook),
        _ => None,
    }
}

/// The keyword of a case that has this word behind `case`, if it is one.
pub fn read_case(word: &[u8]) -> Option<Keyword>
    ensures { result ≡ case_keyword_of word.now }
{
    match word {
        b"recv" => Some(Keyword::CaseRecv),
        b"send" => Some(Keyword::CaseSend),
        _ => None,
    }
}

/// The form that the fourth word of a context's line tells, if it tells one.
pub fn read_ctx_form(word: &[u8]) -> Option<CtxForm>
    ensures { result ≡ ctx_form_of word.now }
{
    match word {
        b"cancel" => Some(CtxForm::Cancel),
        b"cause" => Some(CtxForm::Cause),
        b"timeout" => Some(CtxForm::Timeout),
        b"without" => Some(CtxForm::Without),
        _ => None,
    }
}

fn ctx_with(form: CtxForm, caused: bool) -> Keyword
    ensures { result ≡ ctx_with caused form }
{
    match form {
        CtxForm::Cancel => Keyword::CtxCancel,
        CtxForm::Cause => Keyword::CtxCause,
        CtxForm::Timeout if caused => Keyword::CtxTimeoutCause,
        CtxForm::Timeout => Keyword::CtxTimeout,
        CtxForm::Without => Keyword::CtxWithout,
    }
}

/// The keyword of a context whose line has this fourth word, if that tells a form, and behind it may name a cause.
pub fn read_ctx(word: &[u8], caused: bool) -> Option<Keyword>
    ensures { result ≡ ctx_keyword_of word.now caused }
{
    Some(ctx_with(read_ctx_form(word)?, caused))
}

/// The keyword of `cancel`, with a cause or without.
pub fn cancel_keyword(caused: bool) -> Keyword
    ensures { result ≡ cancel_with caused }
{
    if caused {
        Keyword::CancelCause
    } else {
        Keyword::Cancel
    }
}

impl Keyword {
    ghost use Rattle.std.specs.Prelude.{◌≡◌, ◌≤◌, true};
    ghost use Rattle.gt_table.specs.declared.form.Arg.{Arg};
    ghost use Rattle.gt_table.specs.declared.form.Role.{Role};
    ghost use Rattle.gt_table.specs.declared.form.Step.{Step};
    ghost use Rattle.gt_table.specs.Forms.{most_of, is_declaration};
    ghost use Rattle.gt_table.specs.Table.{form_of, step_of};

    /// Where a line with it stands, and what follows it there.
    pub fn form(self) -> Form
        ensures { result ≡ form_of self }
    {
        match self {
            Keyword::End => Form::new(Role::Closes, Arg::Nothing, Arg::Nothing),
            Keyword::Loop => Form::new(Role::Loops, Arg::Passes, Arg::Nothing),
            Keyword::Select => Form::new(Role::Selects, Arg::Nothing, Arg::Nothing),
            Keyword::CaseRecv => Form::new(Role::Chooses, Arg::Source, Arg::Nothing),
            Keyword::CaseSend => Form::new(Role::Chooses, Arg::Channel, Arg::Number),
            Keyword::Default => Form::new(Role::Defaults, Arg::Nothing, Arg::Nothing),
            Keyword::Say => acts(Arg::Number, Arg::Nothing),
            Keyword::Now => acts(Arg::Nothing, Arg::Nothing),
            Keyword::Sleep => acts(Arg::Duration, Arg::Nothing),
            Keyword::Go => acts(Arg::Function, Arg::Nothing),
            Keyword::New | Keyword::Reset => acts(Arg::Setting, Arg::Duration),
            Keyword::Stop => acts(Arg::Setting, Arg::Nothing),
            Keyword::Recv => acts(Arg::Source, Arg::Nothing),
            Keyword::Send => acts(Arg::Channel, Arg::Number),
            Keyword::Make | Keyword::Close => acts(Arg::Channel, Arg::Nothing),
            Keyword::Lock | Keyword::Unlock => acts(Arg::Mutex, Arg::Nothing),
            Keyword::Add => acts(Arg::WaitGroup, Arg::Added),
            Keyword::Done | Keyword::Wait => acts(Arg::WaitGroup, Arg::Nothing),
            Keyword::CWait | Keyword::Signal | Keyword::Broadcast => acts(Arg::Cond, Arg::Nothing),
            Keyword::With | Keyword::ErrOf | Keyword::CauseOf => acts(Arg::Context, Arg::Nothing),
            Keyword::Cancel => acts(Arg::Endable, Arg::Nothing),
            Keyword::CancelCause => acts(Arg::Causable, Arg::Error),
            Keyword::After | Keyword::Unhook => acts(Arg::Hook, Arg::Nothing),
            _ => self.declared_form(),
        }
    }

    // The form of a line that declares a name.
    fn declared_form(self) -> Form
        requires { is_declaration (form_of self).role ≡ true }
        ensures { result ≡ form_of self }
    {
        match self {
            Keyword::Timer => declares(Kind::Timer, Arg::Nothing),
            Keyword::Ticker => declares(Kind::Ticker, Arg::Nothing),
            Keyword::AfterFunc => declares(Kind::AfterFunc, Arg::Function),
            Keyword::Chan => declares(Kind::Chan, Arg::Capacity),
            Keyword::Mutex => declares(Kind::Mutex, Arg::Nothing),
            Keyword::Wg => declares(Kind::Wg, Arg::Nothing),
            Keyword::Cond => declares(Kind::Cond, Arg::Mutex),
            Keyword::CtxCancel => declares_ctx(CtxForm::Cancel, Arg::Nothing, Arg::Nothing),
            Keyword::CtxCause => declares_ctx(CtxForm::Cause, Arg::Nothing, Arg::Nothing),
            Keyword::CtxTimeout => declares_ctx(CtxForm::Timeout, Arg::Duration, Arg::Nothing),
            Keyword::CtxTimeoutCause => declares_ctx(CtxForm::Timeout, Arg::Duration, Arg::Error),
            Keyword::CtxWithout => declares_ctx(CtxForm::Without, Arg::Nothing, Arg::Nothing),
            Keyword::Hook => Form {
                third: Arg::Function,
                ..declares(Kind::Hook, Arg::Context)
            },
            Keyword::Error => declares(Kind::Error, Arg::Nothing),
            Keyword::Func => declares(Kind::Function, Arg::Nothing),
            _ => unreachable!(),
        }
    }

    /// What a line with it does, by the values of the words behind it.
    pub fn step(self, values: Values) -> Step
        requires first { values.first ≤ most_of (form_of self).first }
        requires second { values.second ≤ most_of (form_of self).second }
        requires third { values.third ≤ most_of (form_of self).third }
        requires fourth { values.fourth ≤ most_of (form_of self).fourth }
        ensures { result ≡ step_of self values }
    {
        match self {
            Keyword::End => Step::Close,
            Keyword::Loop => Step::Loop {
                count: values.first as u32,
            },
            Keyword::Select => Step::Select,
            Keyword::CaseRecv => Step::Case {
                kind: CaseKind::Recv(values.first as u32),
            },
            Keyword::CaseSend => Step::Case {
                kind: CaseKind::Send(values.first as u32, values.second as u32),
            },
            Keyword::Default => Step::Default,
            _ if self.form().role.is_declaration() => self.declaration(values),
            _ => act(self.instr(values)),
        }
    }

    // What a line that declares a name does.
    fn declaration(self, values: Values) -> Step
        requires declares { is_declaration (form_of self).role ≡ true }
        requires first { values.first ≤ most_of (form_of self).first }
        requires second { values.second ≤ most_of (form_of self).second }
        requires third { values.third ≤ most_of (form_of self).third }
        requires fourth { values.fourth ≤ most_of (form_of self).fourth }
        ensures { result ≡ step_of self values }
    {
        let Values {
            first,
            second,
            third,
            ..
        } = values;
        match self {
            Keyword::Timer => declare(What::Timer),
            Keyword::Ticker => declare(What::Ticker),
            Keyword::AfterFunc => declare(What::AfterFunc {
                func: second as u32,
            }),
            Keyword::Chan => declare(What::Chan { cap: second as u32 }),
            Keyword::Mutex => declare(What::Mutex),
            Keyword::Wg => declare(What::Wg),
            Keyword::Cond => declare(What::Cond {
                mutex: second as u32,
            }),
            Keyword::Hook => declare(What::Hook {
                ctx: second as u32,
                func: third as u32,
            }),
            Keyword::Error => declare(What::Error),
            Keyword::Func => Step::Open { decl: first as u32 },
            _ => self.context(values),
        }
    }

    // What a line that declares a context does.
    fn context(self, values: Values) -> Step
        requires context { (form_of self).second ≡ Arg.Parent }
        requires second { values.second ≤ most_of (form_of self).second }
        requires third { values.third ≤ most_of (form_of self).third }
        requires fourth { values.fourth ≤ most_of (form_of self).fourth }
        ensures { result ≡ step_of self values }
    {
        let form = match self {
            Keyword::CtxCancel => DerivedBy::Cancel,
            Keyword::CtxCause => DerivedBy::Cause,
            Keyword::CtxTimeout => DerivedBy::Timeout {
                d: values.third,
                cause: None,
            },
            Keyword::CtxTimeoutCause => DerivedBy::Timeout {
                d: values.third,
                cause: Some(values.fourth as u32),
            },
            Keyword::CtxWithout => DerivedBy::Without,
            _ => unreachable!(),
        };
        declare(What::Ctx {
            parent: parent_at(values.second),
            form,
        })
    }

    // The instruction of a line that is one.
    fn instr(self, values: Values) -> Instr
        requires acts { (form_of self).role ≡ Role.Acts }
        requires first { values.first ≤ most_of (form_of self).first }
        requires second { values.second ≤ most_of (form_of self).second }
        ensures { Step.Do result ≡ step_of self values }
    {
        let Values { first, second, .. } = values;
        match self {
            Keyword::Say => Instr::Say { n: first as u32 },
            Keyword::Now => Instr::Now,
            Keyword::Sleep => Instr::Sleep { d: first },
            Keyword::Go => Instr::Go { f: first as u32 },
            Keyword::New => Instr::New {
                t: first as u32,
                d: second,
            },
            Keyword::Stop => Instr::Stop { t: first as u32 },
            Keyword::Reset => Instr::Reset {
                t: first as u32,
                d: second,
            },
            Keyword::Recv => Instr::Recv { o: first as u32 },
            Keyword::Make => Instr::Make { c: first as u32 },
            Keyword::Send => Instr::Send {
                c: first as u32,
                v: second as u32,
            },
            Keyword::Close => Instr::Close { c: first as u32 },
            Keyword::Lock => Instr::Lock { m: first as u32 },
            Keyword::Unlock => Instr::Unlock { m: first as u32 },
            Keyword::Add => add(first as u32, second as i64 - MOST_ADDED),
            Keyword::Done => add(first as u32, -1),
            Keyword::Wait => Instr::Wait { w: first as u32 },
            Keyword::CWait => Instr::CWait { k: first as u32 },
            Keyword::Signal => Instr::Signal { k: first as u32 },
            Keyword::Broadcast => Instr::Broadcast { k: first as u32 },
            Keyword::With => Instr::With { x: first as u32 },
            Keyword::Cancel => cancel(first as u32, None),
            Keyword::CancelCause => cancel(first as u32, Some(second as u32)),
            Keyword::ErrOf => Instr::ErrOf { x: first as u32 },
            Keyword::CauseOf => Instr::CauseOf { x: first as u32 },
            Keyword::After => Instr::After { s: first as u32 },
            Keyword::Unhook => Instr::Unhook { s: first as u32 },
            _ => unreachable!(),
        }
    }
}

fn acts(first: Arg, second: Arg) -> Form
    ensures { result ≡ form_with Role.Acts first second Arg.Nothing Arg.Nothing }
{
    Form::new(Role::Acts, first, second)
}

fn declares(kind: Kind, second: Arg) -> Form
    ensures { result ≡ form_with (Role.Declares kind) Arg.NewName second Arg.Nothing Arg.Nothing }
{
    Form::new(Role::Declares { kind }, Arg::NewName, second)
}

fn declares_ctx(form: CtxForm, third: Arg, fourth: Arg) -> Form
    ensures { result ≡ form_with (Role.Declares (Kind.Ctx (Some form))) Arg.NewName Arg.Parent third fourth }
{
    let kind = Kind::Ctx { form: Some(form) };
    Form {
        third,
        fourth,
        ..declares(kind, Arg::Parent)
    }
}

// The place of a parent, by its value.
fn parent_at(value: u64) -> Option<u32>
    requires { value ≤ 4294967296 }
    ensures { result ≡ parent_at value }
{
    Some(value.checked_sub(1)? as u32)
}

fn declare(what: What) -> Step
    ensures { result ≡ Step.Declare what }
{
    Step::Declare { what }
}

fn add(w: u32, n: i64) -> Instr
    ensures { result ≡ Instr.Add w n }
{
    Instr::Add { w, n }
}

fn cancel(x: u32, cause: Option<u32>) -> Instr
    ensures { result ≡ Instr.Cancel x cause }
{
    Instr::Cancel { x, cause }
}

fn act(instr: Instr) -> Step
    ensures { result ≡ Step.Do instr }
{
    Step::Do { instr }
}
