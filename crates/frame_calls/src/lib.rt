// The single stage from one image into another, in either kind of grid: all grounds are tried before the first byte is written.
#![tactic(auto)]

mod staging;

ghost use Rattle.grids.specs.Grid.{Staged};

use grids::Around;
use planes::Stage;
use staging::Staging;
use words::Answer;

// The single stage of a word, by erosion or by dilation: the grid of one image into that of the other, of either kind.
pub fn stage(
    word: u32,
    erode: bool,
    around: Around,
    w: usize,
    h: usize,
    from: &[u8],
    to: &mut [u8],
) -> Answer
    ensures { Staged erode around word w h from.now to.old result to.new }
{
    let greatest = frame_grounds::greatest_byte(w, h, from);
    frame_grounds::stage_refusal(word, w, h, from, greatest, to)?;
    let mask = (word % 512) as u16;
    let s = Staging {
        w,
        h,
        stage: Stage { mask, erode },
        around,
    };
    if greatest > 1 {
        staging::by_two(from, to, s);
    } else {
        staging::by_one(from, to, s);
    }
    Ok(0)
}
