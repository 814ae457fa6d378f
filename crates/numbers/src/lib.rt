// The numbers that calls for other languages answer: an answer as one signed number, a share as a number and a remainder, and where the part is for the number
// that an operation answered.
#![tactic(auto)]

ghost use Rattle.std.specs.Prelude.{◌≡◌, pos};
ghost use Rattle.numbers.specs.Numbers.{signed_of, quotient_of, remainder_of, around_of, image_of, PartFound};

use grids::{Around, ShareAnswer};
use words::Answer;

// The result, or −N for refusal N.
pub fn signed(a: Answer) -> i64
    ensures { result ≡ signed_of a }
{
    match a {
        Ok(n) => i64::from(n),
        Err(g) => -i64::from(u32::from(g)),
    }
}

// The quotient, or −N for refusal N; the remainder goes to rest, which a refusal leaves as it is.
pub fn share_of(a: ShareAnswer, rest: &mut u32) -> i64
    ensures { (result ≡ quotient_of a) × (rest.new ≡ remainder_of a rest.old) }
{
    match a {
        Ok(share) => {
            *rest = share.remainder;
            i64::from(share.quotient)
        }
        Err(g) => signed(Err(g)),
    }
}

// The kind of grid that a byte names: the first if it is 0, and else the second.
pub fn around_of(b: u8) -> Around
    ensures { result ≡ around_of b }
{
    if b == 0 {
        Around::Free
    } else {
        Around::Occupied
    }
}

// The number of the image that the part is in: 2, the second, if the number of stages run is even, and 1, the first, if odd.
fn image_of(n: usize) -> u8
    ensures { result ≡ image_of (pos n) }
{
    if n % 2 == 0 { 2 } else { 1 }
}

// The part, for the number that an operation answered: its length, and in image the number of the image that it is the start of. A refusal's
// part is empty, in no image.
pub fn part_of<'a>(
    stages: i64,
    w: usize,
    h: usize,
    first: &'a [u8],
    second: &'a [u8],
    image: &mut u8,
) -> i64
    ensures { PartFound stages w h first.now second.now result image.new }
{
    if stages < 0 {
        *image = 0;
        return 0;
    }
    let n = stages as usize;
    *image = image_of(n);
    part_calls::part(n, w, h, first, second).len() as i64
}
