//! The words, and the calls on them.

ghost use Rattle.std.specs.Prelude.{◌≡◌, ◌↔◌, ◌<◌, ℕ, List, Option, Some, min, length, IsTrue, IfSome};
ghost use Rattle.std.specs.Option.{option_map};
ghost use Rattle.gt_words.specs.Words.{words_at, noted, lowered, cleared, bumped, raised};

/// Stands for no due time: the greatest `u64`.
pub const NONE: u64 = 0xffff_ffff_ffff_ffff;

/// The words of one heap. A due time is in nanoseconds, or [`NONE`].
#[derive(Clone, Copy, Debug, PartialEq, Eq)]
pub struct HeapWords {
    /// At most each due time that was set since the heap was looked through.
    pub modified: u64,
    /// At most each key in the heap.
    pub heap: u64,
    /// How often the heap was looked through.
    pub count: u64,
}

/// The words of heaps that are numbered from 0. Each call is one operation on one word. What the words are is known where
/// a value tells it.
pub trait Words {
    ghost use Rattle.gt_words.specs.declared.words.HeapWords.{HeapWords};

    // How many heaps have words.
    ghost heaps: { Self → ℕ };

    // The words of each heap, by its number, where they are known.
    ghost told: { Self → Option (List HeapWords) };

    /// Loads the count of heap `q`.
    fn load_count(&mut self, q: u32) -> u64
        requires { q < heaps self.old }
        ensures word { IfSome (told self.old) (λ words. result ≡ (words_at words q).count) }
        ensures heaps { heaps self.new ≡ heaps self.old }
        ensures words { told self.new ≡ told self.old };

    /// Loads the modified word of heap `q`.
    fn load_mod(&mut self, q: u32) -> u64
        requires { q < heaps self.old }
        ensures word { IfSome (told self.old) (λ words. result ≡ (words_at words q).modified) }
        ensures heaps { heaps self.new ≡ heaps self.old }
        ensures words { told self.new ≡ told self.old };

    /// Loads the heap word of heap `q`.
    fn load_heap(&mut self, q: u32) -> u64
        requires { q < heaps self.old }
        ensures word { IfSome (told self.old) (λ words. result ≡ (words_at words q).heap) }
        ensures heaps { heaps self.new ≡ heaps self.old }
        ensures words { told self.new ≡ told self.old };

    /// Makes the modified word of heap `q` the least of itself and `when`.
    fn note(&mut self, q: u32, when: u64)
        requires { q < heaps self.old }
        ensures heaps { heaps self.new ≡ heaps self.old }
        ensures words { told self.new ≡ option_map (λ words. noted words q when) (told self.old) };

    /// Makes the heap word of heap `q` the least of itself and `v`.
    fn lower(&mut self, q: u32, v: u64)
        requires { q < heaps self.old }
        ensures heaps { heaps self.new ≡ heaps self.old }
        ensures words { told self.new ≡ option_map (λ words. lowered words q v) (told self.old) };

    /// Makes the modified word of heap `q` [`NONE`] where it is `seen`, and tells whether it was. Else nothing changes.
    fn try_clear(&mut self, q: u32, seen: u64) -> bool
        requires { q < heaps self.old }
        ensures done { IfSome (told self.old) (λ words. IsTrue result ↔ ((words_at words q).modified ≡ seen)) }
        ensures heaps { heaps self.new ≡ heaps self.old }
        ensures words { told self.new ≡ option_map (λ words. cleared words q seen) (told self.old) };

    /// Raises the count of heap `q` by one; at the greatest `u64` it stands still.
    fn bump(&mut self, q: u32)
        requires { q < heaps self.old }
        ensures heaps { heaps self.new ≡ heaps self.old }
        ensures words { told self.new ≡ option_map (λ words. bumped words q) (told self.old) };

    /// Sets the heap word of heap `q`.
    fn raise(&mut self, q: u32, v: u64)
        requires { q < heaps self.old }
        ensures heaps { heaps self.new ≡ heaps self.old }
        ensures words { told self.new ≡ option_map (λ words. raised words q v) (told self.old) };

    // Words that are known are known of each heap.
    ghost counted: { (w : Self) (words : List HeapWords) → told w ≡ Some words → length words ≡ heaps w };
}

/// When heap `q` is to be looked through: the least of its modified and its heap word. The modified word is loaded first,
/// since a heap takes it over into its heap word before it clears it.
pub fn wake<W: Words>(w: &mut W, q: u32) -> u64
    requires { q < W.heaps w.old }
    ensures least { IfSome (W.told w.old) (λ words. result ≡ min (words_at words q).modified (words_at words q).heap) }
    ensures heaps { W.heaps w.new ≡ W.heaps w.old }
    ensures words { W.told w.new ≡ W.told w.old }
{
    let modified = w.load_mod(q);
    let heap = w.load_heap(q);
    modified.min(heap)
}
