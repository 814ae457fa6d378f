// Rows of bits into words: write_list writes the shape list of an anchor and rows. What its words are: specs/ of the crate lists.
#![tactic(auto)]

ghost use Rattle.lists.specs.Held.{shape_words, WordsWritten};

// Writes the shape list of an anchor and rows, where there is room for the longest, and answers its length.
pub fn write_list(ax: u32, ay: u32, rows: [u16; 16], out: &mut [u32]) -> Option<u32>
    ensures { WordsWritten (shape_words ax ay rows) out.old result out.new }
{
    if out.len() < 17 {
        return None;
    }
    out[0] = 0x1000_0000 + (ay % 16) * 16 + ax % 16;
    let mut n: u32 = 1;
    for y in 0..16u32 {
        let columns = rows[y as usize] as u32;
        if columns > 0 {
            out[n as usize] = 0x2000_0000 + y * 0x1_0000 + columns;
            n += 1;
        }
    }
    Some(n)
}
