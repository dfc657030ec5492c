// What each block of segments costs, worked out once: the squared error of the row value that the kind gives it, at the block's
// place. This crate alone knows how a block's cost follows from its segments.
#![tactic(auto)]

ghost use Rattle.std.specs.Prelude.{◌≡◌, ℕ, ◌+◌, ◌≤◌, ◌<◌, length};
ghost use Rattle.model.specs.Calls.{kind_number};
ghost use Rattle.measures.specs.Held.{Measurable};
ghost use Rattle.triangle.specs.Places.{row_start, error_at, gap_at, Agree};
ghost use Rattle.errors.specs.Filled.{cost_in, EndingAt};

use blocks::Totals;
use measures::with_segment;
use model::{Kind, Segments};

// The error of the block of all segments.
pub fn whole(segments: &Segments, kind: Kind) -> u64
    requires { Measurable segments.now segments.now.count }
    ensures { result ≡ cost_in (kind_number kind) segments.now 0 segments.now.count }
{
    measures::block_totals(segments, 0, segments.count).error(kind)
}

// The errors of the blocks that end with segment i − 1 and begin with `low` or later, into the places from `start` on; all other
// places keep what they hold.
fn fill_row(segments: &Segments, low: usize, i: usize, kind: Kind, start: usize, errors: &mut [u64])
    requires low_in_block { low ≤ i }
    requires measurable { Measurable segments.now i }
    requires places { start + i ≤ length errors.old }
    ensures { EndingAt (kind_number kind) segments.now low i start errors.old errors.new }
{
    let mut block = Totals::EMPTY;
    for at in (low..i).rev() {
        let wider = with_segment(segments, at, block);
        errors[start + at] = wider.error(kind);
        block = wider;
    }
}

// The errors of all blocks that cross no gap.
pub fn fill(segments: &Segments, gaps: &[u8; 256], kind: Kind, errors: &mut [u64])
    requires measurable { Measurable segments.now segments.now.count }
    requires gaps_below { (i : ℕ) → 0 < i → i ≤ segments.now.count → gap_at gaps.now i < i }
    requires places { row_start (segments.now.count + 1) ≤ length errors.old }
    ensures { Agree (error_at errors.new) (gap_at gaps.now) (cost_in (kind_number kind) segments.now) (gap_at gaps.now) segments.now.count }
{
    let mut start: usize = 0;
    for i in 0..segments.count {
        // a running sum: the start of a row would be multiplied out at each turn
        start += i;
        fill_row(
            segments,
            usize::from(gaps[i + 1]),
            i + 1,
            kind,
            start,
            errors,
        );
    }
}
