// The calls for Rust and C: one function for each, on plain numbers and slices (a pointer and a length). include/musqerpi.h declares them.
// An answer is the result, or −N for refusal N; what it and the lent words are is said by the call that each stands for.
#![tactic(auto)]

ghost use Rattle.std.specs.Prelude.{◌%◌};
ghost use Rattle.masks.specs.Mask.{NormalPosition};
ghost use Rattle.shapes.specs.Calls.{Moved, Joined, Summed, TurnedBack};
ghost use Rattle.planning.specs.Planning.{Planned};
ghost use Rattle.grids.specs.Frame.{LoadCounted};
ghost use Rattle.grids.specs.Grid.{FramePut, Staged};
ghost use Rattle.grids.specs.Share.{Shared};
ghost use Rattle.cleaning.specs.declared.Operation.TheVariants.{Dilation, Erosion, Opening, Closing};
ghost use Rattle.cleaning.specs.Cleaning.{Cleaned};
ghost use Rattle.numbers.specs.Numbers.{Stands, ShareStands, around_of, erodes, PartFound};
ghost use Rattle.rolling.specs.Rolling.{Arrived};

// Planning a shape.
#[unsafe(no_mangle)]
pub extern "C" fn musq_plan(shape: &[u32], out: &mut [u32]) -> i64
    ensures { Stands result (λ a. Planned shape.now out.old a out.new) }
{
    numbers::signed(plan_calls::plan(shape, out))
}

// Turning a plan back into a shape list.
#[unsafe(no_mangle)]
pub extern "C" fn musq_shape_of_plan(plan: &[u32], out: &mut [u32]) -> i64
    ensures { Stands result (λ a. TurnedBack plan.now out.old a out.new) }
{
    numbers::signed(shape_calls::shape_of_plan(plan, out))
}

// The normal position of a mask, of which the lowest nine bits are read.
#[unsafe(no_mangle)]
pub extern "C" fn musq_normal_position(mask: u16) -> u16
    ensures { NormalPosition (mask % 512) result }
{
    masks::normal_position(mask)
}

// Moving a shape.
#[unsafe(no_mangle)]
pub extern "C" fn musq_move(shape: &[u32], dx: i32, dy: i32, out: &mut [u32]) -> i64
    ensures { Stands result (λ a. Moved shape.now (dx, dy) out.old a out.new) }
{
    numbers::signed(shape_calls::move_shape(shape, dx, dy, out))
}

// Joining two shapes.
#[unsafe(no_mangle)]
pub extern "C" fn musq_join(a: &[u32], b: &[u32], out: &mut [u32]) -> i64
    ensures { Stands result (λ s. Joined a.now b.now out.old s out.new) }
{
    numbers::signed(shape_calls::join_shapes(a, b, out))
}

// Summing two shapes.
#[unsafe(no_mangle)]
pub extern "C" fn musq_sum(a: &[u32], b: &[u32], out: &mut [u32]) -> i64
    ensures { Stands result (λ s. Summed a.now b.now out.old s out.new) }
{
    numbers::signed(shape_calls::sum_shapes(a, b, out))
}

// The load of a frame.
#[unsafe(no_mangle)]
pub extern "C" fn musq_load(w: usize, h: usize, frame: &[u8]) -> i64
    ensures { Stands result (λ a. LoadCounted w h frame.now a) }
{
    numbers::signed(load_calls::load(w, h, frame))
}

// The load of a frame in ten-thousandths: the quotient is answered, and the remainder goes to a number that a refusal leaves as it is.
#[unsafe(no_mangle)]
pub extern "C" fn musq_share(w: usize, h: usize, frame: &[u8], remainder: &mut u32) -> i64
    ensures { ShareStands result remainder.old remainder.new (λ a. Shared w h frame.now a) }
{
    numbers::share_of(load_calls::share(w, h, frame), remainder)
}

// Putting a frame into a grid, of the second kind if the byte around is anything but 0.
#[unsafe(no_mangle)]
pub extern "C" fn musq_put(w: usize, h: usize, frame: &[u8], around: u8, image: &mut [u8]) -> i64
    ensures { Stands result (λ a. FramePut (around_of around) w h frame.now image.old a image.new) }
{
    numbers::signed(put_calls::put(w, h, frame, numbers::around_of(around), image))
}

// A single stage, by erosion if the byte erode is anything but 0, else by dilation, in the second kind of grid if the byte around is.
#[unsafe(no_mangle)]
pub extern "C" fn musq_stage(
    word: u32,
    erode: u8,
    around: u8,
    w: usize,
    h: usize,
    from: &[u8],
    to: &mut [u8],
) -> i64
    ensures { Stands result (λ a. Staged (erodes erode) (around_of around) word w h from.now to.old a to.new) }
{
    let kind = numbers::around_of(around);
    numbers::signed(frame_calls::stage(word, erode != 0, kind, w, h, from, to))
}

// Dilation of a frame by a plan.
#[unsafe(no_mangle)]
pub extern "C" fn musq_dilate(
    plan: &[u32],
    w: usize,
    h: usize,
    frame: &[u8],
    first: &mut [u8],
    second: &mut [u8],
) -> i64
    ensures { Stands result (λ a. Cleaned Dilation plan.now w h frame.now first.old second.old a
        first.new second.new) }
{
    numbers::signed(clean_calls::dilation(plan, w, h, frame, first, second))
}

// Erosion of a frame by a plan.
#[unsafe(no_mangle)]
pub extern "C" fn musq_erode(
    plan: &[u32],
    w: usize,
    h: usize,
    frame: &[u8],
    first: &mut [u8],
    second: &mut [u8],
) -> i64
    ensures { Stands result (λ a. Cleaned Erosion plan.now w h frame.now first.old second.old a
        first.new second.new) }
{
    numbers::signed(clean_calls::erosion(plan, w, h, frame, first, second))
}

// Opening of a frame by a plan.
#[unsafe(no_mangle)]
pub extern "C" fn musq_open(
    plan: &[u32],
    w: usize,
    h: usize,
    frame: &[u8],
    first: &mut [u8],
    second: &mut [u8],
) -> i64
    ensures { Stands result (λ a. Cleaned Opening plan.now w h frame.now first.old second.old a
        first.new second.new) }
{
    numbers::signed(clean_calls::opening(plan, w, h, frame, first, second))
}

// Closing of a frame by a plan.
#[unsafe(no_mangle)]
pub extern "C" fn musq_close(
    plan: &[u32],
    w: usize,
    h: usize,
    frame: &[u8],
    first: &mut [u8],
    second: &mut [u8],
) -> i64
    ensures { Stands result (λ a. Cleaned Closing plan.now w h frame.now first.old second.old a
        first.new second.new) }
{
    numbers::signed(clean_calls::closing(plan, w, h, frame, first, second))
}

// The part, for the number that an operation answered: its length, and in image the number of the image that it is the start of. A refusal's
// part is empty, in no image. A call for other languages returns no slice.
#[unsafe(no_mangle)]
pub extern "C" fn musq_part<'a>(
    stages: i64,
    w: usize,
    h: usize,
    first: &'a [u8],
    second: &'a [u8],
    image: &mut u8,
) -> i64
    ensures { PartFound stages w h first.now second.now result image.new }
{
    numbers::part_of(stages, w, h, first, second, image)
}

// A row arrives in the live frame, and the dilated frame kept beside it is brought up to date.
#[unsafe(no_mangle)]
pub extern "C" fn musq_arrive(
    plan: &[u32],
    w: usize,
    h: usize,
    row: &[u8],
    live: &mut [u8],
    kept: &mut [u8],
) -> i64
    ensures { Stands result (λ a. Arrived plan.now w h row.now live.old kept.old a live.new
        kept.new) }
{
    numbers::signed(rolling_calls::arrive(plan, w, h, row, live, kept))
}
