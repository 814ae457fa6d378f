// Reading lines of eight lower-case hexadecimal digits and a line feed, byte by byte: nothing is where a reading starts, read_some goes on with it.
// What a reading stands for: `Held` of specs/Reader.antt in the crate text.
#![tactic(auto)]

ghost use Rattle.std.specs.Prelude.{◌≡◌, true, [], ◌∷◌};
ghost use Rattle.text.specs.Reader.{Held, Further, DigitOf, Updated};

use text::Reading;

// Nothing has been read.
pub fn nothing() -> Reading
    ensures { Held [] result }
{
    Reading {
        bad: false,
        count: 0,
        words: [0u32; 18],
        digits: 0,
        value: 0,
    }
}

// The number that a digit stands for; none of a byte that is no digit.
fn digit_of(b: u8) -> Option<u32>
    ensures { DigitOf b result }
{
    match b {
        b'0'..=b'9' => Some((b - b'0') as u32),
        b'a'..=b'f' => Some((b - b'a') as u32 + 10),
        _ => None,
    }
}

// A bad line: it is never forgotten.
fn spoilt(s: Reading) -> Reading
    ensures { result.bad ≡ true }
{
    Reading { bad: true, ..s }
}

// The words with v at place i; the same words where there is no such place.
fn with_word(mut words: [u32; 18], i: usize, v: u32) -> [u32; 18]
    ensures { Updated words i v result }
{
    if i < 18 {
        words[i] = v;
    }
    words
}

// A line feed: it ends a line of eight digits, and makes any other line bad. What was bad stays bad. Words are counted to 18.
fn end_line(line: Reading) -> Reading
    ensures { Further line (10 ∷ []) result }
{
    if line.digits != 8 {
        return spoilt(line);
    }
    Reading {
        count: line.count.saturating_add(1).min(18),
        words: with_word(line.words, line.count, line.value),
        digits: 0,
        value: 0,
        ..line
    }
}

// One byte: a line feed, a digit of the line begun, or what makes the line bad. The value of fewer than eight digits is below 2^28.
fn read_one(s: Reading, b: u8) -> Reading
    ensures { Further s (b ∷ []) result }
{
    if b == b'\n' {
        return end_line(s);
    }
    let Some(d) = digit_of(b) else {
        return spoilt(s);
    };
    if s.digits > 7 {
        return spoilt(s);
    }
    Reading {
        digits: s.digits + 1,
        value: (s.value % 0x1000_0000) * 16 + d,
        ..s
    }
}

// Some more bytes, each in turn.
pub fn read_some(s: Reading, bytes: &[u8]) -> Reading
    ensures { Further s bytes.now result }
{
    let mut r = s;
    for b in bytes {
        r = read_one(r, *b);
    }
    r
}
