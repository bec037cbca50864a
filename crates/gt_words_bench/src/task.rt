//! What the line of the input asks for.

ghost use Rattle.std.specs.Prelude.{◌≡◌, ℕ, None, Some, IfSome};
ghost use Rattle.gt_words_bench.specs.Task.{calls_of, IsCount};

/// The calls that are made.
#[derive(Clone, Copy)]
pub enum Calls {
    /// A worker notes a due time and finds when the heap is to be looked through.
    Note,
    /// The book and a record are brought together.
    Agree,
}

/// So many calls of one kind.
#[derive(Clone, Copy)]
pub struct Task {
    /// What is called.
    pub calls: Calls,
    /// How often.
    pub count: u32,
}

/// The task that two words mean, or None where they mean none.
pub fn read_task(calls: &str, count: &str) -> Option<Task>
    ensures task { IfSome result (λ task. (calls_of calls.now ≡ Some task.calls) × IsCount count.now task.count) }
    ensures none { result ≡ None → (n : ℕ) → IsCount count.now n → calls_of calls.now ≡ None }
{
    Some(Task {
        calls: read_calls(calls)?,
        count: count.parse::<u32>().ok()?,
    })
}

fn read_calls(word: &str) -> Option<Calls>
    ensures { result ≡ calls_of word.now }
{
    if word == "note" {
        Some(Calls::Note)
    } else if word == "agree" {
        Some(Calls::Agree)
    } else {
        None
    }
}
