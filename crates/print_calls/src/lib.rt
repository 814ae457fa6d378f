// What the program `shapeplan` prints for what it reads: planning between reading and printing of text. No input and no output.
#![tactic(auto)]

ghost use Rattle.std.specs.Prelude.{◌≡◌, ◌≤◌, min, take};
ghost use Rattle.planning.specs.Printer.{Printed, PrintedFor};
ghost use Rattle.text.specs.Page.{Blank};
ghost use Rattle.print_calls.specs.Answers.{Answers, PageShows};

use text::{Page, Reading};
use words::Answer;

// So many words of the input are kept.
const KEPT: usize = 18;

// How many words of the output list an answer of n stands for: no more than it has.
fn words_of(n: u32) -> usize
    ensures { result ≡ min n 32 }
{
    (n as usize).min(32)
}

// The page of an answer that planning gave, with the output list as it left it.
fn shown(answer: Answer, out: [u32; 32]) -> Page
    ensures text { PageShows answer out (take result.n result.bytes) }
    ensures room { result.n ≤ 288 }
    ensures past { Blank result }
{
    match answer {
        Ok(n) => page_steps::words_page(&out[..words_of(n)]),
        Err(g) => page_steps::refused_page(u32::from(g)),
    }
}

// The plan of the words, or the refusal.
fn planned(ws: &[u32]) -> Page
    ensures text { PrintedFor ws.now (take result.n result.bytes) }
    ensures room { result.n ≤ 288 }
    ensures past { Blank result }
{
    let mut out = [0u32; 32];
    shown(plan_calls::plan(ws, &mut out), out)
}

// The page for what was read to the end of the input. A list of more than 18 words is refused as its first 18 are; no reading counts more.
pub fn page(s: Reading) -> Page
    ensures text { Answers s (take result.n result.bytes) }
    ensures room { result.n ≤ 288 }
    ensures past { Blank result }
{
    if s.bad || s.digits > 0 || s.count > KEPT {
        return page_steps::unreadable_page();
    }
    planned(&s.words[..s.count])
}

// The page for the whole input.
pub fn printed(input: &[u8]) -> Page
    ensures text { Printed input.now (take result.n result.bytes) }
    ensures room { result.n ≤ 288 }
    ensures past { Blank result }
{
    page(line_steps::read_some(line_steps::nothing(), input))
}
