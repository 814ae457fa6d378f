// What an arriving row moves: the rows of a frame. What is read and what is written overlap, so they go by way of an array of its own, a chunk at a time.
#![tactic(auto)]

ghost use Rattle.std.specs.Prelude.{◌≡◌, ◌-◌, ◌+◌, ◌≤◌, ◌<◌, length, get_or};
ghost use Rattle.ranges.specs.Ranges.{Ranged};
ghost use Rattle.rolling.specs.Rolling.{rolled};

// How many bytes are moved at a time.
const CHUNK: usize = 2048;

// Each byte but the last w becomes the byte w further on; of rows of w cells, each but the last becomes the next.
fn up(d: &mut [u8], w: usize)
    requires { w ≤ length d.old }
    ensures { Ranged 0 0 (length d.old - w) (λ k. get_or d.old (k + w) 0) d.old d.new }
{
    let mut chunk = [0u8; CHUNK];
    let n = d.len() - w;
    for p in (0..n).step_by(CHUNK) {
        let m = (n - p).min(CHUNK);
        ranges::copy(&mut chunk[..m], &d[p + w..p + w + m]);
        ranges::copy(&mut d[p..p + m], &chunk[..m]);
    }
}

// A row arrives as the last row of a frame of rows of its length: row 0 leaves, and the others move by one. A frame that is shorter than the row stays.
pub fn roll(d: &mut [u8], row: &[u8])
    ensures arrives { length row.now ≤ length d.old
        → d.new ≡ rolled (length row.now) d.old row.now }
    ensures stays { length d.old < length row.now → d.new ≡ d.old }
{
    let w = row.len();
    if w <= d.len() {
        up(d, w);
        let n = d.len() - w;
        ranges::copy(&mut d[n..], row);
    }
}
