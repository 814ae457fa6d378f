// What refuses a frame, a work image or a single stage: the first of grounds 2, 3, 7 and 11 to 14 of document 01 that holds; Ok(()) where none does.
// `sizes` has the tests of sides and lengths, `stage` those of a single stage. The cells are looked at once, by `cell_steps`: the greatest number among them
// decides ground 13, and tells the caller whether a cell was not measured. W, H and the cells of a frame stand apart: of a struct that holds a reference each
// contract would say `frame.entry.w` and `frame.entry.cells.now` for `w` and `frame.now`.
#![tactic(auto)]

mod sizes;
mod stage;

ghost use Rattle.std.specs.Prelude.{◌≡◌};
ghost use Rattle.words.specs.Ground.{refused_by, first_of};
ghost use Rattle.grids.specs.Frame.{bad_size, frame_tests};
ghost use Rattle.grids.specs.Grid.{put_tests};
ghost use Rattle.frame_grounds.specs.Looking.{greatest_cell, greatest_byte, frame_tests_by, work_tests_by, stage_tests_by};

use words::Ground;

// Ground 11: whether W or H isn't 1 to 240.
pub fn bad_size(w: usize, h: usize) -> bool
    ensures { result ≡ bad_size w h }
{
    sizes::bad_size(w, h)
}

// The greatest number among a frame's cells; 0, with none of them looked at, where grounds 11 or 12 refuse the frame.
#[tactic(auto, unfolding(crate::specs::Looking::greatest_cell))]
pub fn greatest_cell(w: usize, h: usize, frame: &[u8]) -> u8
    ensures { result ≡ greatest_cell w h frame.now }
{
    if sizes::bad_size(w, h) || sizes::wrong_length(w, h, frame) {
        0
    } else {
        cell_steps::greatest_among(frame, frame.len())
    }
}

// What refuses a frame whose greatest number is this: the first of grounds 11, 12 and 13 that holds.
#[tactic(auto, unfolding(crate::specs::Looking::frame_tests_by))]
pub fn frame_tested(w: usize, h: usize, frame: &[u8], greatest: u8) -> Result<(), Ground>
    ensures { refused_by result ≡ first_of (frame_tests_by w h frame.now greatest) }
{
    words::tried(sizes::bad_size(w, h), Ground::FrameSize)?;
    words::tried(sizes::wrong_length(w, h, frame), Ground::FrameLength)?;
    words::tried(greatest > 2, Ground::CellValue)
}

// What refuses a frame: the first of grounds 11, 12 and 13 that holds.
#[tactic(auto, using(crate::proofs::Looked::frame_by))]
pub fn frame_refusal(w: usize, h: usize, frame: &[u8]) -> Result<(), Ground>
    ensures { refused_by result ≡ first_of (frame_tests w h frame.now) }
{
    let greatest = greatest_cell(w, h, frame);
    frame_tested(w, h, frame, greatest)
}

// What refuses a frame that is put into a grid of the image: the first of grounds 11 to 14 that holds.
pub fn put_refusal(w: usize, h: usize, frame: &[u8], image: &[u8]) -> Result<(), Ground>
    ensures { refused_by result ≡ first_of (put_tests w h frame.now image.now) }
{
    words::tried_behind(
        frame_refusal(w, h, frame),
        sizes::short_image(w, h, image),
        Ground::ImageLength,
    )
}

// What refuses a frame whose greatest number is this, and two work images: the first of grounds 11 to 14 that holds, 14 over both images.
pub fn work_refusal(
    w: usize,
    h: usize,
    frame: &[u8],
    greatest: u8,
    first: &[u8],
    second: &[u8],
) -> Result<(), Ground>
    ensures { refused_by result ≡ first_of (work_tests_by w h frame.now greatest first.now second.now) }
{
    words::tried_behind(
        frame_tested(w, h, frame, greatest),
        sizes::short_images(w, h, first, second),
        Ground::ImageLength,
    )
}

// The greatest number among the bytes of a grid, as far as its image goes; 0, with none of them looked at, where ground 11 refuses the sides.
#[tactic(auto, unfolding(crate::specs::Looking::greatest_byte))]
pub fn greatest_byte(w: usize, h: usize, image: &[u8]) -> u8
    ensures { result ≡ greatest_byte w h image.now }
{
    if sizes::bad_size(w, h) {
        0
    } else {
        cell_steps::greatest_among(image, sizes::grid_size(w, h))
    }
}

// What refuses the single stage of a word, from the grid of one image, whose greatest number is this, into another: the first of grounds 2, 3, 7, 11, 13 and 14
// that holds.
pub fn stage_refusal(
    word: u32,
    w: usize,
    h: usize,
    from: &[u8],
    greatest: u8,
    to: &[u8],
) -> Result<(), Ground>
    ensures { refused_by result ≡ first_of (stage_tests_by word w h from.now greatest to.now) }
{
    stage::refused(word, w, h, from, greatest, to)
}
