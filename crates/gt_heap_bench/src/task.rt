//! What the words of the command line ask for.

ghost use Rattle.std.specs.Prelude.{◌≡◌, map, string_bytes};
ghost use Rattle.gt_heap_bench.specs.Task.{calls_of, size_of, entry_count, task_of};

/// The calls that are made on the filled heap.
#[derive(Clone, Copy)]
pub enum Calls {
    /// None.
    Fill,
    /// Entries with drawn keys are added.
    Push,
    /// Heads are taken out.
    Pop,
    /// Entries at drawn places get drawn keys.
    Change,
}

/// How many entries the heap is filled with.
#[derive(Clone, Copy)]
pub enum Size {
    /// 1,000
    Thousand,
    /// 200,000
    TwoHundredThousand,
}

impl Size {
    /// The size as a number.
    pub fn entries(self) -> u32
        ensures { result ≡ entry_count self }
    {
        match self {
            Size::Thousand => 1000,
            Size::TwoHundredThousand => 200_000,
        }
    }
}

/// A heap of a size, and the calls that are made on it.
#[derive(Clone, Copy)]
pub struct Task {
    /// What is done.
    pub calls: Calls,
    /// The size before.
    pub size: Size,
}

/// The task that two words mean, or None where they mean none.
pub fn read_task(words: &[String]) -> Option<Task>
    ensures { result ≡ task_of (map string_bytes words.now) }
{
    match words {
        [calls, size] => Some(Task {
            calls: read_calls(calls.as_str())?,
            size: read_size(size.as_str())?,
        }),
        _ => None,
    }
}

fn read_calls(word: &str) -> Option<Calls>
    ensures { result ≡ calls_of word.now }
{
    if word == "fill" {
        Some(Calls::Fill)
    } else if word == "push" {
        Some(Calls::Push)
    } else if word == "pop" {
        Some(Calls::Pop)
    } else if word == "change" {
        Some(Calls::Change)
    } else {
        None
    }
}

fn read_size(word: &str) -> Option<Size>
    ensures { result ≡ size_of word.now }
{
    if word == "1000" {
        Some(Size::Thousand)
    } else if word == "200000" {
        Some(Size::TwoHundredThousand)
    } else {
        None
    }
}
