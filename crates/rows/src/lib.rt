// The rows of a reduction, from its cuts: each block's group, first and last frame, and row value.
#![tactic(auto)]

ghost use Rattle.std.specs.Prelude.{◌≡◌, ◌<◌, ◌≤◌};
ghost use Rattle.model.specs.Calls.{kind_number, row_of_span};
ghost use Rattle.model.specs.Blocks.{row_value, row_of};
ghost use Rattle.model.specs.Arrays.{segment_in, row_array};
ghost use Rattle.measures.specs.Held.{Measurable};
ghost use Rattle.rows.specs.Between.{end_before, Ordered, rows_between};

use common::no_rows;
use model::{Kind, Row, Segments};

// The row of the segments from j up to i.
fn row(segments: &Segments, j: usize, i: usize, kind: Kind) -> Row
    requires { (j < i) × Measurable segments.now i }
    ensures { result ≡ row_of_span (row_of (row_value (kind_number kind)) (segment_in segments.now) j i) }
{
    let last_segment = i - 1;
    let block = measures::block_totals(segments, j, i);
    // no `From` narrows; a row value is at most 128,000
    let value = block.row_value(kind) as u32;
    Row {
        group: segments.groups[j],
        first: segments.firsts[j],
        last: segments.lasts[last_segment],
        value,
    }
}

// The end of the block before block `next`: where that one begins, or n after the last of `count` blocks.
fn end(cuts: &[u8; 64], next: usize, count: usize, n: usize) -> usize
    requires { count ≤ 64 }
    ensures { result ≡ end_before cuts.now count n next }
{
    if next < count {
        usize::from(cuts[next])
    } else {
        n
    }
}

// The rows of the blocks that begin with the first `count` cuts.
// The cuts are the first of 64 places: the clause speaks of cuts and a count.
pub fn between(cuts: &[u8; 64], count: usize, segments: &Segments, kind: Kind) -> [Row; 64]
    requires few_rows { count ≤ 64 }
    requires ordered { Ordered cuts.now count segments.now.count }
    requires measurable { Measurable segments.now segments.now.count }
    ensures { result ≡ row_array (rows_between (kind_number kind) (segment_in segments.now) cuts.now count segments.now.count) }
{
    let mut made = no_rows();
    for next in 0..count {
        let from = usize::from(cuts[next]);
        let to = end(cuts, next + 1, count, segments.count);
        made[next] = row(segments, from, to, kind);
    }
    made
}
