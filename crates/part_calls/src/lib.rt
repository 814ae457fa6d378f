// The part: the result of an operation, handed back as the first W × H bytes of one of the two work images. It refuses nothing.
#![tactic(auto)]

ghost use Rattle.std.specs.Prelude.{◌≡◌, cond, [], ◌*◌, ltb, length, take};
ghost use Rattle.grids.specs.Frame.{bad_size};
ghost use Rattle.cleaning.specs.Cleaning.{part as part_of};

// How many bytes the part has, where the image holds them: W × H, or none if W or H isn't 1 to 240.
fn cells(w: usize, h: usize) -> usize
    ensures { result ≡ cond (bad_size w h) 0 (w * h) }
{
    if frame_grounds::bad_size(w, h) {
        0
    } else {
        w * h
    }
}

// The first n bytes of an image, or none if it has fewer.
fn start<'a>(image: &'a [u8], n: usize) -> &'a [u8]
    ensures { result.now ≡ cond (ltb (length image.now) n) [] (take n image.now) }
{
    if image.len() < n {
        &image[0..0]
    } else {
        &image[0..n]
    }
}

// The part for n stages run: of the second image if n is even, of the first if odd.
#[tactic(auto, unfolding(cleaning::specs::Cleaning::part))]
pub fn part<'a>(n: usize, w: usize, h: usize, first: &'a [u8], second: &'a [u8]) -> &'a [u8]
    ensures { result.now ≡ part_of n w h first.now second.now }
{
    let image = if n % 2 == 0 { second } else { first };
    start(image, cells(w, h))
}
