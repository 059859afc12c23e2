//! Which links of a hex are connected.
ghost use Rattle.std.specs.Prelude.{◌<◌};

use map_tables::{ENDS, Link};

/// Returns for each end of a hex, by its number, the least number of an end in its strand. A strand
/// is a set of links connected by common sides or stops.
pub fn strands(links: &[Link]) -> [usize; ENDS] {
    let mut strands = [0, 1, 2, 3, 4, 5, 6, 7];
    for link in links {
        let a = strands[link.a.order()];
        let b = strands[link.b.order()];
        let (least, other) = if a < b { (a, b) } else { (b, a) };
        for strand in &mut strands {
            if *strand == other {
                *strand = least;
            }
        }
    }
    strands
}
