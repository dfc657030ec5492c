// What is measured of segments: where runs begin, how many there are, and the totals of a block. Groups play no part in what a block
// costs, and values none in where it may be cut.
#![tactic(auto)]

ghost use Rattle.std.specs.Prelude.{◌≡◌, List, [], ℕ, ◌<◌, ◌≤◌, get_or};
ghost use Rattle.model.specs.Blocks.{gap, totals, add};
ghost use Rattle.model.specs.Split.{gap_below, runs};
ghost use Rattle.model.specs.Arrays.{span_in, spans_in};
ghost use Rattle.blocks.specs.Meaning.{totals_in};
ghost use Rattle.measures.specs.Held.{block_in, segment_totals, Growing, Measurable};

use blocks::Totals;
use model::Segments;

// Whether a run begins with segment i.
fn is_gap(segments: &Segments, i: usize) -> bool
    requires { i < 255 }
    ensures { result ≡ gap (span_in segments.now.groups segments.now.firsts segments.now.lasts []) i }
{
    i == 0
        || segments.groups[i - 1] != segments.groups[i]
        || u64::from(segments.lasts[i - 1]) + 1 != u64::from(segments.firsts[i])
}

// The last gap below each number of segments.
pub fn gaps(segments: &Segments) -> [u8; 256]
    requires { segments.now.count ≤ 255 }
    ensures { (values : List ℕ) (i : ℕ) → i ≤ segments.now.count
        → get_or result i 0 ≡ gap_below (spans_in segments.now.groups segments.now.firsts segments.now.lasts values segments.now.count) i }
{
    let mut out = [0u8; 256];
    let mut low: usize = 0;
    for i in 0..segments.count {
        low = if is_gap(segments, i) { i } else { low };
        // no `From` narrows, and each element follows from the one before
        out[i + 1] = low as u8;
    }
    out
}

// How many runs there are.
// A sum of tests: a filter's count would be no plainer.
pub fn runs(segments: &Segments) -> usize
    requires { segments.now.count ≤ 255 }
    ensures { (values : List ℕ)
        → result ≡ runs (spans_in segments.now.groups segments.now.firsts segments.now.lasts values segments.now.count) }
{
    let mut out: usize = 0;
    for i in 0..segments.count {
        out += usize::from(is_gap(segments, i));
    }
    out
}

// The totals of a block with segment i put in front of it.
// `Measurable` and `Growing` are one definition each, of the first segments alone: no type.
pub fn with_segment(segments: &Segments, i: usize, block: Totals) -> Totals
    requires { Growing segments.now i (totals_in block) }
    ensures { totals_in result ≡ add (segment_totals segments.now i) (totals_in block) }
{
    let frames = u64::from(segments.lasts[i]) + 1 - u64::from(segments.firsts[i]);
    Totals::make(frames, u64::from(segments.values[i])).add(block)
}

// The totals of the block from j up to i.
pub fn block_totals(segments: &Segments, j: usize, i: usize) -> Totals
    requires { (j ≤ i) × Measurable segments.now i }
    ensures { totals_in result ≡ totals (block_in segments.now j i) }
{
    let mut block = Totals::EMPTY;
    for at in (j..i).rev() {
        block = with_segment(segments, at, block);
    }
    block
}
