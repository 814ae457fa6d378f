// The program `shapeplan`: reads the words of a shape list from standard input, a line each, and prints its plan, or the refusal, or `unreadable`.
// What it prints for what it reads is proved of print_calls::page; here is only the reading of the input to its end and the writing of the page.
#![tactic(auto)]

ghost use Rattle.std.specs.Prelude.{◌≤◌};

use std::io;
use std::io::Read;
use text::{Page, Reading};

// Reads to the end of the input, or to a read that fails. A proved loop has to end, so this one has a bound on its turns, a number that no run uses up.
fn read_all(rt: &impl io::Input) -> io::Result<Reading> {
    let mut reading = line_steps::nothing();
    let mut buf = [0u8; 65536];
    for _ in 0..u64::MAX {
        let n = rt.reader().read(&mut buf)?;
        if n == 0 {
            break;
        }
        reading = line_steps::read_some(reading, &buf[..n]);
    }
    Ok(reading)
}

// Writes the text of a page.
fn write(rt: &impl io::Print, p: Page) -> io::Result<()>
    requires { p.n ≤ 288 }
{
    rt.write_all(&p.bytes[..p.n])
}

fn main(rt: HostRuntime) -> io::Result<()> {
    let page = match read_all(&rt) {
        Ok(reading) => print_calls::page(reading),
        Err(_) => page_steps::unreadable_page(),
    };
    write(&rt, page)
}
