//! The line on standard error that says why the command refused.

ghost use Rattle.std.specs.Prelude.{◌≡◌, ◌+◌, ◌≤◌, ◌++◌, length, codes, decimal};
ghost use Rattle.arrayvec.specs.ArrayVec.{array_vec_len};
ghost use Rattle.gt_command.specs.Faults.{line_of, text_of, reason_of, usage_word, cause_word};

use crate::end::End;
use arrayvec::ArrayVec;
use gt_script::{ScriptFault, Why};
use gt_top::{Status, WordFault};
use itoa::Buffer;

/// Which line goes to standard error.
#[derive(Clone, Copy, Debug, PartialEq, Eq)]
pub enum FaultLine {
    /// The words are no command line.
    Usage(WordFault),
    /// The input is no script.
    Script(ScriptFault),
    /// The input has more bytes than this limit.
    InputAbove { limit: u64 },
    /// A read failed.
    ReadFault,
    /// A write failed.
    WriteFault,
    /// Memory ran out.
    NoMemory,
}

/// The room of a line, in bytes. A number has at most 20 digits, so each line fits.
pub const LINE_ROOM: usize = 64;

/// The bytes of a line.
pub type Line = ArrayVec<u8, LINE_ROOM>;

/// The line of an end, if it has one.
pub fn fault_line(end: &End) -> Option<FaultLine>
    ensures { result ≡ line_of end.now }
{
    match *end {
        End::Told | End::Called(Status::Done(_)) => None,
        End::Called(Status::Usage(fault)) => Some(FaultLine::Usage(fault)),
        End::Called(Status::BadScript(fault)) => Some(FaultLine::Script(fault)),
        End::Called(Status::TooLong { limit }) => Some(FaultLine::InputAbove { limit }),
        End::Called(Status::ReadFault) => Some(FaultLine::ReadFault),
        End::Called(Status::WriteFault) => Some(FaultLine::WriteFault),
        End::Called(Status::NoMemory) => Some(FaultLine::NoMemory),
    }
}

/// The text of a line, with its line feed.
pub fn fault_text(line: FaultLine) -> Line
    ensures { result.items ≡ text_of line }
{
    let mut text = Line::new();
    push(&mut text, b"gotime: ");
    push_reason(&mut text, line);
    push(&mut text, b"\n");
    text
}

// Appends these bytes.
fn push(text: &mut Line, bytes: &[u8])
    requires { array_vec_len text.old + length bytes.now ≤ 64 }
    ensures { text.new.items ≡ text.old.items ++ bytes.now }
{
    text.try_extend_from_slice(bytes).unwrap();
}

// Appends a number.
fn push_number(text: &mut Line, number: u64)
    requires { array_vec_len text.old + 20 ≤ 64 }
    ensures appended { text.new.items ≡ text.old.items ++ decimal number }
    ensures short { array_vec_len text.new ≤ array_vec_len text.old + 20 }
{
    push(text, Buffer::new().format(number).as_bytes());
}

// Appends what a line says after the name of the program.
fn push_reason(text: &mut Line, line: FaultLine)
    requires { array_vec_len text.old + 55 ≤ 64 }
    ensures appended { text.new.items ≡ text.old.items ++ reason_of line }
    ensures short { array_vec_len text.new ≤ array_vec_len text.old + 55 }
{
    match line {
        FaultLine::Usage(fault) => {
            push(text, b"usage: ");
            push(text, usage_word(fault).as_bytes());
        }
        FaultLine::Script(fault) => {
            push(text, b"script line ");
            push_number(text, u64::from(fault.line));
            push(text, b": ");
            push(text, cause_word(fault.why).as_bytes());
        }
        FaultLine::InputAbove { limit } => {
            push(text, b"input above ");
            push_number(text, limit);
            push(text, b" bytes");
        }
        FaultLine::ReadFault => push(text, b"read fault"),
        FaultLine::WriteFault => push(text, b"write fault"),
        FaultLine::NoMemory => push(text, b"no memory"),
    }
}

// The name of a fault of the words, in lower case.
fn usage_word(fault: WordFault) -> &'static str
    ensures value { result.now ≡ usage_word fault }
    ensures short { length result.now ≤ 8 }
{
    match fault {
        WordFault::Command => "command",
        WordFault::Form => "form",
        WordFault::Number => "number",
    }
}

// The name of a cause, in lower case.
fn cause_word(why: Why) -> &'static str
    ensures value { result.now ≡ cause_word why }
    ensures short { length result.now ≤ 8 }
{
    match why {
        Why::Utf8 => "utf8",
        Why::Head => "head",
        Why::Word => "word",
        Why::Name => "name",
        Why::Twice => "twice",
        Why::Missing => "missing",
        Why::Number => "number",
        Why::Nest => "nest",
        Why::Select => "select",
        Why::Many => "many",
        Why::NoMain => "nomain",
    }
}
