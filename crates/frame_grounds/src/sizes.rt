// Grounds 11, 12 and 14: the sides of a frame, and the lengths of frames and work images. W × H and the size of the grid are computed once ground 11 is passed.
ghost use Rattle.std.specs.Prelude.{◌≡◌, false, ◌||◌};
ghost use Rattle.grids.specs.Frame.{bad_side, bad_size, wrong_length, grid_size, short_image};

// Whether a side isn't 1 to 240.
fn bad_side(n: usize) -> bool
    ensures { result ≡ bad_side n }
{
    n == 0 || 240 < n
}

// Ground 11: whether one of the sides isn't 1 to 240.
pub(crate) fn bad_size(w: usize, h: usize) -> bool
    ensures { result ≡ bad_size w h }
{
    bad_side(w) || bad_side(h)
}

// Ground 12: whether the frame's length isn't W × H. It follows ground 11, so nothing is said of sides that this refuses.
pub(crate) fn wrong_length(w: usize, h: usize, frame: &[u8]) -> bool
    ensures { bad_size w h ≡ false → result ≡ wrong_length w h frame.now }
{
    !bad_size(w, h) && frame.len() != w * h
}

// The number of bytes in the grid of a frame.
pub(crate) fn grid_size(w: usize, h: usize) -> usize
    requires { bad_size w h ≡ false }
    ensures { result ≡ grid_size w h }
{
    (w + 15) * (h + 15)
}

// Ground 14: whether a work image is shorter than the grid. It follows ground 11, so nothing is said of sides that this refuses.
pub(crate) fn short_image(w: usize, h: usize, image: &[u8]) -> bool
    ensures { bad_size w h ≡ false → result ≡ short_image w h image.now }
{
    !bad_size(w, h) && image.len() < grid_size(w, h)
}

// Ground 14 of two work images: whether either is shorter than the grid.
pub(crate) fn short_images(w: usize, h: usize, first: &[u8], second: &[u8]) -> bool
    ensures { bad_size w h ≡ false → result ≡ (short_image w h first.now || short_image w h second.now) }
{
    short_image(w, h, first) || short_image(w, h, second)
}
