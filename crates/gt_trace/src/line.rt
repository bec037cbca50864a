// A line as it is built, a word after another.
ghost use Rattle.std.specs.Prelude.{◌≡◌, ◌+◌, ◌≤◌, ◌∷◌, ◌++◌, length, decimal};
ghost use Rattle.std.specs.Fmt.{signed_decimal};
ghost use Rattle.arrayvec.specs.ArrayVec.{array_vec_len};
ghost use Rattle.gt_trace.specs.Text.{space, goroutine_word, maybe_goroutine_word, party_word, maybe_word, flag_word};

use arrayvec::ArrayVec;
use gt_model::Party;
use itoa::Buffer;

/// The room of a line, in bytes. A number has at most 20 digits and a name at most 32 bytes, so each line fits.
pub const LINE_ROOM: usize = 160;

/// The bytes of a line.
pub type Line = ArrayVec<u8, LINE_ROOM>;

/// Appends these bytes.
pub fn push_bytes(line: &mut Line, bytes: &[u8])
    requires { array_vec_len line.old + length bytes.now ≤ LINE_ROOM }
    ensures { line.new.items ≡ line.old.items ++ bytes.now }
{
    line.try_extend_from_slice(bytes).unwrap();
}

/// Appends a space and a word.
pub fn push_word(line: &mut Line, word: &[u8])
    requires { array_vec_len line.old + length word.now + 1 ≤ LINE_ROOM }
    ensures { line.new.items ≡ line.old.items ++ space ∷ word.now }
{
    line.push(b' ');
    push_bytes(line, word);
}

/// Appends the digits of a number.
#[tactic(auto, using(std::proofs::lemmas::Fmt::decimal_digit))]
fn push_decimal(line: &mut Line, number: u64)
    requires { array_vec_len line.old + length (decimal number) ≤ LINE_ROOM }
    ensures { line.new.items ≡ line.old.items ++ decimal number }
{
    // most numbers of goroutines and small scripts have one digit
    if number < 10 {
        line.push(b'0' + number as u8);
    } else {
        push_bytes(line, Buffer::new().format(number).as_bytes());
    }
}

/// Appends a space and a number.
pub fn push_number(line: &mut Line, number: u64)
    requires { array_vec_len line.old + 21 ≤ LINE_ROOM }
    ensures appended { line.new.items ≡ line.old.items ++ space ∷ decimal number }
    ensures short { array_vec_len line.new ≤ array_vec_len line.old + 21 }
{
    line.push(b' ');
    push_decimal(line, number);
}

/// Appends a space and a number that may be below 0, with `-` in front then.
pub fn push_signed(line: &mut Line, number: i64)
    requires { array_vec_len line.old + 21 ≤ LINE_ROOM }
    ensures appended { line.new.items ≡ line.old.items ++ space ∷ signed_decimal number }
    ensures short { array_vec_len line.new ≤ array_vec_len line.old + 21 }
{
    push_word(line, Buffer::new().format(number).as_bytes());
}

/// Appends a space and a goroutine.
pub fn push_goroutine(line: &mut Line, g: u32)
    requires { array_vec_len line.old + 12 ≤ LINE_ROOM }
    ensures appended { line.new.items ≡ line.old.items ++ space ∷ goroutine_word g }
    ensures short { array_vec_len line.new ≤ array_vec_len line.old + 12 }
{
    line.push(b' ');
    line.push(b'g');
    push_decimal(line, u64::from(g));
}

/// Appends a space and a goroutine, or `-` where there is none.
pub fn push_maybe_goroutine(line: &mut Line, g: Option<u32>)
    requires { array_vec_len line.old + 12 ≤ LINE_ROOM }
    ensures appended { line.new.items ≡ line.old.items ++ space ∷ maybe_goroutine_word g }
    ensures short { array_vec_len line.new ≤ array_vec_len line.old + 12 }
{
    match g {
        Some(g) => push_goroutine(line, g),
        None => push_word(line, b"-"),
    }
}

/// Appends a space and a party: its goroutine, and behind it the case of its select where it stands at one.
pub fn push_party(line: &mut Line, p: Party)
    requires { array_vec_len line.old + 23 ≤ LINE_ROOM }
    ensures appended { line.new.items ≡ line.old.items ++ space ∷ party_word p }
    ensures short { array_vec_len line.new ≤ array_vec_len line.old + 23 }
{
    push_goroutine(line, p.g);
    if p.case_no > 0 {
        push_bytes(line, b"/");
        push_bytes(line, Buffer::new().format(p.case_no).as_bytes());
    }
}

/// Appends a space and a number, a time or a value, or `-` where there is none.
pub fn push_maybe_number(line: &mut Line, number: Option<u64>)
    requires { array_vec_len line.old + 21 ≤ LINE_ROOM }
    ensures appended { line.new.items ≡ line.old.items ++ space ∷ maybe_word number }
    ensures short { array_vec_len line.new ≤ array_vec_len line.old + 21 }
{
    match number {
        Some(number) => push_number(line, number),
        None => push_word(line, b"-"),
    }
}

/// Appends a space and `true` or `false`, or `-` where that is not told.
pub fn push_flag(line: &mut Line, flag: Option<bool>)
    requires { array_vec_len line.old + 6 ≤ LINE_ROOM }
    ensures appended { line.new.items ≡ line.old.items ++ space ∷ flag_word flag }
    ensures short { array_vec_len line.new ≤ array_vec_len line.old + 6 }
{
    match flag {
        Some(true) => push_word(line, b"true"),
        Some(false) => push_word(line, b"false"),
        None => push_word(line, b"-"),
    }
}
