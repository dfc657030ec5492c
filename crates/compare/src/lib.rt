// A slot's rows beside the segments of a log: whether they cover the same frames, whether no row is below a segment, and the squared
// error of the rows. Both are walked together, and what the two at hand have in common is taken off both, so that the work goes by rows
// and segments and not by frames.
#![tactic(auto)]

ghost use Rattle.std.specs.Prelude.{◌≡◌, ◌<◌, pos};
ghost use Rattle.model.specs.Blocks.{squared};
ghost use Rattle.model.specs.Slot.{slot_rows};
ghost use Rattle.model.specs.Questions.{slot_questions};
ghost use Rattle.model.specs.Calls.{row_span, segment_span};
ghost use Rattle.model.specs.Arrays.{segments_in};
ghost use Rattle.model.specs.Demands.{AllPass};
ghost use Rattle.compare.specs.Found.{OfLog, Compares};
ghost use Rattle.compare.specs.Fronts.{front_of};

use model::{Row, Segment, Segments};
use slot::place_of;

// What is found of rows that cover the same frames as the segments: whether no row is below a segment, and the error.
#[derive(Clone, Copy)]
pub struct Compared {
    pub reaches: bool,
    pub error: u64,
}

// The front of a row and a segment that begin together: the place where they begin, the place behind what they have in common, and
// whether nothing is left of the one or the other there.
#[derive(Clone, Copy)]
struct Front {
    pub first: u32,
    pub next: u32,
    pub row_done: bool,
    pub segment_done: bool,
}

// The squared difference of a value and a row's number.
fn squared(value: u32, number: u32) -> u64
    ensures { result ≡ squared value (pos number) }
{
    let difference = u64::from(value.abs_diff(number));
    difference * difference
}

// What a row and a segment have in common at the front, where what lies before place `from` is taken off both: none where the two do
// not begin together.
fn front_of(row: Row, segment: Segment, from: u32) -> Option<Front>
    ensures { result ≡ front_of (row_span row) (segment_span segment) from }
{
    let first = place_of(segment.group, segment.first).max(from);
    let row_first = place_of(row.group, row.first).max(from);
    if row_first != first {
        return None;
    }
    let row_last = place_of(row.group, row.last);
    let last = place_of(segment.group, segment.last);
    let end = row_last.min(last);
    Some(Front {
        first,
        next: end + 1,
        row_done: row_last == end,
        segment_done: last == end,
    })
}

// The rows of a slot beside segments: none where the frames covered differ. At each turn the front is taken off row i and segment j, so
// that there are at most as many turns as rows and segments.
// That a slot's questions are passed is one definition, of bytes that are lent: no type.
pub fn with_segments(slot: &[u8], segments: &Segments) -> Option<Compared>
    requires all_pass { AllPass (slot_questions slot.now) }
    requires of_log { OfLog (segments_in segments.now) }
    ensures { Compares (slot_rows slot.now) (segments_in segments.now) result }
{
    let count = slot::count(slot);
    let mut i: usize = 0;
    let mut j: usize = 0;
    let mut from: u32 = 0;
    let mut reaches = true;
    let mut error: u64 = 0;
    // Two lists are walked at once, each at its own pace, so that no range and no iterator counts the turns.
    while (i < count) & (j < segments.count) {
        let row = slot::row(slot, i);
        let segment = segments.at(j);
        let front = front_of(row, segment, from)?;
        from = front.next;
        reaches &= segment.value <= row.value;
        error += u64::from(from - front.first) * squared(segment.value, row.value);
        i += usize::from(front.row_done);
        j += usize::from(front.segment_done);
    }
    let same = (i == count) & (j == segments.count);
    same.then_some(Compared { reaches, error })
}
