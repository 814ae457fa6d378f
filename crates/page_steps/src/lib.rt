// Printing, each a page by value: words_page has the lines of words, refused_page that of a refusal, unreadable_page the line for what cannot be read.
// What a page holds: `Holds` of specs/Page.antt in the crate text.
#![tactic(auto)]

ghost use Rattle.std.specs.Prelude.{◌≡◌, [], ◌∷◌, ◌%◌, take};
ghost use Rattle.planning.specs.Printer.{digit as Printer·digit, word_line, word_lines, refused_line, unreadable_line};
ghost use Rattle.text.specs.Page.{Holds, Added};

use text::Page;

// No text.
fn blank() -> Page
    ensures { Holds [] result }
{
    Page {
        n: 0,
        bytes: [0u8; 288],
    }
}

// One byte more, where there is room.
fn with_byte(mut p: Page, b: u8) -> Page
    ensures { Added p (b ∷ []) result }
{
    if p.n < 288 {
        p.bytes[p.n] = b;
        p.n += 1;
    }
    p
}

// Some bytes more, each in turn.
fn with_bytes(p: Page, more: &[u8]) -> Page
    ensures { Added p more.now result }
{
    let mut r = p;
    for b in more {
        r = with_byte(r, *b);
    }
    r
}

// The lowest hexadecimal digit of n.
fn digit(n: u32) -> u8
    ensures { result ≡ Printer·digit (n % 16) }
{
    let d = (n % 16) as u8;
    if d < 10 { b'0' + d } else { b'a' + (d - 10) }
}

// The line of a word, the highest digit first.
fn line(w: u32) -> [u8; 9]
    ensures { result ≡ word_line w }
{
    [
        digit(w / 0x1000_0000),
        digit(w / 0x100_0000),
        digit(w / 0x10_0000),
        digit(w / 0x1_0000),
        digit(w / 4096),
        digit(w / 256),
        digit(w / 16),
        digit(w),
        b'\n',
    ]
}

// The line of a word added to a page.
fn with_line(p: Page, w: u32) -> Page
    ensures { Added p (word_line w) result }
{
    with_bytes(p, &line(w))
}

// The lines of the first 32 words of a list.
pub fn words_page(ws: &[u32]) -> Page
    ensures { Holds (word_lines (take 32 ws.now)) result }
{
    let first = &ws[..ws.len().min(32)];
    let mut r = blank();
    for w in first {
        r = with_line(r, *w);
    }
    r
}

// The line of a refusal. The numbers of grounds are below 100, and the last two digits of a greater number are taken.
pub fn refused_page(number: u32) -> Page
    ensures { Holds (refused_line (number % 100)) result }
{
    let p = with_bytes(blank(), b"refused ");
    let n = number % 100;
    if n < 10 {
        return with_bytes(p, &[digit(n), b'\n']);
    }
    with_bytes(p, &[digit(n / 10), digit(n % 10), b'\n'])
}

// The line for input that cannot be read.
pub fn unreadable_page() -> Page
    ensures { Holds unreadable_line result }
{
    with_bytes(blank(), b"unreadable\n")
}
