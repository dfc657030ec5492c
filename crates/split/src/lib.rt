// The exact reduction of segments to the rows that a bound asks for: runs and gaps are measured, each block's error is worked out once,
// and the split table is filled by them. The errors have as many places as the segments need, by classes of their number.
#![tactic(auto)]

ghost use Rattle.std.specs.Prelude.{◌≡◌, ◌+◌, ◌≤◌, length};
ghost use Rattle.model.specs.Arrays.{segments_in};
ghost use Rattle.model.specs.Calls.{kind_number};
ghost use Rattle.model.specs.Room.{Measured};
ghost use Rattle.triangle.specs.Places.{row_start};
ghost use Rattle.choice.specs.Bounds.{Known};
ghost use Rattle.split.specs.Ready.{Ready, Shares, Counted, Reduced};

use choice::Task;
use cuts::{Reduction, one_row};
use model::{Bound, Kind, Segments};

// Places for the errors of the blocks of 8, 32, 64, 128 and 255 segments.
const PLACES_8: usize = 36;

const PLACES_32: usize = 528;

const PLACES_64: usize = 2080;

const PLACES_128: usize = 8256;

const PLACES_255: usize = 32640;

// Segments with the last gap below each number of them, the kind by which a block's error is worked out, and the task.
#[derive(Clone, Copy)]
struct Work<'a> {
    segments: &'a Segments,
    gaps: &'a [u8; 256],
    kind: Kind,
    task: Task,
}

impl Work<'_> {
    // The reduction by errors that are worked out into these places.
    fn share_out(&self, errors: &mut [u64], cuts: &mut [u8; 64]) -> Option<Reduction>
        requires ready { Ready self.now }
        requires room { row_start (self.now.task.segments + 1) ≤ length errors.old }
        ensures { Shares self.now result cuts.old cuts.new }
    {
        let mut column = [table::NONE; 65];
        errors::fill(self.segments, self.gaps, self.kind, errors);
        table::fill(errors, self.gaps, self.task, cuts, &mut column)
    }

    // The reduction by errors in so many places, which are enough.
    fn within<const PLACES: usize>(&self, cuts: &mut [u8; 64]) -> Option<Reduction>
        requires ready { Ready self.now }
        requires room { (row_start (self.now.task.segments + 1) ≤ PLACES) × (PLACES ≤ PLACES_255) }
        ensures { Shares self.now result cuts.old cuts.new }
    {
        let mut errors = [0u64; PLACES];
        self.share_out(&mut errors, cuts)
    }

    // The same in a stack frame of its own. It is not inlined: its caller's frame would be that of the most places, whatever the number of
    // segments, and a call would need, and touch, the stack of 255 segments for 33.
    #[inline(never)]
    fn apart<const PLACES: usize>(&self, cuts: &mut [u8; 64]) -> Option<Reduction>
        requires ready { Ready self.now }
        requires room { (row_start (self.now.task.segments + 1) ≤ PLACES) × (PLACES ≤ PLACES_255) }
        ensures { Shares self.now result cuts.old cuts.new }
    {
        self.within::<PLACES>(cuts)
    }

    // The reduction of more than 32 segments, for which each class has a stack frame of its own.
    fn large(&self, cuts: &mut [u8; 64]) -> Option<Reduction>
        requires { Ready self.now }
        ensures { Shares self.now result cuts.old cuts.new }
    {
        if self.task.segments <= 64 {
            self.apart::<PLACES_64>(cuts)
        } else if self.task.segments <= 128 {
            self.apart::<PLACES_128>(cuts)
        } else {
            self.apart::<PLACES_255>(cuts)
        }
    }
}

// The reduction by the split table, of as many segments as there are.
fn tabulate(segments: &Segments, kind: Kind, task: Task, cuts: &mut [u8; 64]) -> Option<Reduction>
    requires { Counted segments.now task }
    ensures { Reduced (kind_number kind) segments.now task.bound result cuts.old cuts.new }
{
    let gaps = measures::gaps(segments);
    let work = Work {
        segments,
        gaps: &gaps,
        kind,
        task,
    };
    if task.segments <= 8 {
        work.within::<PLACES_8>(cuts)
    } else if task.segments <= 32 {
        work.within::<PLACES_32>(cuts)
    } else {
        work.large(cuts)
    }
}

// The reduction of one run: one row may be all that is tried, and then no other block's error is asked for.
fn reduce_run(segments: &Segments, kind: Kind, task: Task, cuts: &mut [u8; 64]) -> Option<Reduction>
    requires { Counted segments.now task × (task.runs ≡ 1) }
    ensures { Reduced (kind_number kind) segments.now task.bound result cuts.old cuts.new }
{
    let mut column = [table::NONE; 65];
    column[1] = errors::whole(segments, kind);
    if task.goes_on(&column, 1, task.last_row()) {
        return tabulate(segments, kind, task, cuts);
    }
    one_row(&column, task, cuts)
}

// The reduction that a bound asks for, and its cuts; none where no number of rows answers the bound.
pub fn reduce(
    segments: &Segments,
    kind: Kind,
    bound: Bound,
    cuts: &mut [u8; 64],
) -> Option<Reduction>
    requires { Measured (segments_in segments.now) × Known bound }
    ensures { Reduced (kind_number kind) segments.now bound result cuts.old cuts.new }
{
    if segments.count == 0 {
        return Some(Reduction {
            count: 0,
            error: 0,
            weighed: 0,
        });
    }
    let runs = measures::runs(segments);
    let task = Task::new(segments.count, runs, bound)?;
    if runs == 1 {
        return reduce_run(segments, kind, task, cuts);
    }
    tabulate(segments, kind, task, cuts)
}
