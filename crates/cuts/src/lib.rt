// The cut of columns and rows out of a source at a distance: definitions and laws, and in code the sides of a source (Sides), the part that is cut out of it
// (Part), whether they and images fit one another (sides_fit, cut_fits), so that no product passes 32 bits and no index passes an image, and how far a row goes
// (edge). The cut itself is made by cut_steps.
#![tactic(auto)]

ghost use Rattle.std.specs.Prelude.{◌≡◌};
ghost use Rattle.cuts.specs.Cuts.{sides_fit, cut_fits, Edge};

// The columns and rows of what is read, and the value outside them.
#[derive(Clone, Copy)]
pub struct Sides {
    pub columns: usize,
    pub rows: usize,
    pub outside: u8,
}

// What is cut out: w columns and h rows, at the distances a and b.
#[derive(Clone, Copy)]
pub struct Part {
    pub w: usize,
    pub h: usize,
    pub a: usize,
    pub b: usize,
}

impl Part {
    // Whether columns, rows and distances are ones that a cut is made for.
    pub fn sides_fit(self, source: Sides) -> bool
        ensures { result ≡ sides_fit self.w self.h source.columns source.rows self.a self.b }
    {
        self.w <= 65535
            && self.h <= 65535
            && source.columns <= 65535
            && source.rows <= 65535
            && self.a <= 65535
            && self.b <= 65535
    }

    // Whether the part in k bytes is cut out of the source in n bytes.
    pub fn cut_fits(self, source: Sides, n: usize, k: usize) -> bool
        ensures { result ≡ cut_fits self.w self.h source.columns source.rows self.a self.b n k }
    {
        self.sides_fit(source) && source.columns * source.rows <= n && self.w * self.h <= k
    }
}

// How many of the first w cells stand before n when a is added to their numbers.
pub fn edge(w: usize, a: usize, n: usize) -> usize
    ensures { Edge w a n result }
{
    n.saturating_sub(a).min(w)
}
