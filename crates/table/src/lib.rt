// The split table: entry (k,i), at (k − 1) × 256 + i, is the last cut of the least error of the first i segments in k rows. It is filled
// by errors of blocks and last gaps alone: nothing here knows of values, lengths or kinds.
#![tactic(auto)]

ghost use Rattle.std.specs.Prelude.{◌≡◌, cond, ℕ, ◌+◌, ◌-◌, ◌*◌, ◌<◌, ◌≤◌, eqb, length, get_or, replicate, IfSome};
ghost use Rattle.std.proofs.Math.Option.{none, some};
ghost use Rattle.model.specs.Split.{least, weigh, rows_tried};
ghost use Rattle.triangle.specs.Places.{row_start, error_at, gap_at};
ghost use Rattle.triangle.specs.Costs.{Costs};
ghost use Rattle.choice.specs.Errors.{no_error, error_in, Stands};
ghost use Rattle.choice.specs.Bounds.{filled_rows};
ghost use Rattle.cuts.specs.Held.{reduction_for, cuts_for};
ghost use Rattle.table.specs.Held.{best_in, FirstRow};

use choice::Task;
use cuts::Reduction;
use std::hint::select_unpredictable;
use triangle::row_start;

// 'none' among errors, as is every number above it.
// No Option: a column is compared number by number, without a branch.
pub const NONE: u64 = 4611686018427387904;

// The best candidate so far: its total, its cut, and how many candidates were tried.
#[derive(Clone, Copy)]
pub struct Best {
    pub total: u64,
    pub cut: usize,
    pub tried: u64,
}

impl Best {
    const UNTRIED: Best = Best {
        total: NONE,
        cut: 0,
        tried: 0,
    };

    // A candidate with this total is tried: a smaller total replaces the best. Both fields are selected and none is branched to,
    // since the processor cannot foretell which candidate is better.
    fn weigh(self, total: u64, cut: usize) -> Best
        requires { (self.tried < 256) × (self.total ≤ no_error) }
        ensures weighed { best_in result ≡ weigh (best_in self) (error_in total) cut }
        ensures at_most_none { result.total ≤ no_error }
    {
        let better = total < self.total;
        Best {
            total: select_unpredictable(better, total, self.total),
            cut: select_unpredictable(better, cut, self.cut),
            tried: self.tried + 1,
        }
    }
}

// The error of one row over segments whose last gap is given.
fn single(gap: usize, error: u64) -> u64
    requires { gap ≡ 0 → error < no_error }
    ensures { Stands result (cond (eqb gap 0) (some error) none) }
{
    if gap == 0 { error } else { NONE }
}

// The table's first row of errors.
fn first_row(errors: &[u64], gaps: &[u8; 256], n: usize, row: &mut [u64; 256])
    requires costs { (m : ℕ) × Costs (error_at errors.now) (gap_at gaps.now) n m }
    requires room { row_start (n + 1) ≤ length errors.now }
    requires blank { row.old ≡ replicate 256 no_error }
    ensures { FirstRow (error_at errors.now) (gap_at gaps.now) n row.new }
{
    for i in 1..n + 1 {
        row[i] = single(usize::from(gaps[i]), errors[row_start(i)]);
    }
}

// Fills the table's rows 1 to the last that the bound asks for and answers from it, into a list of cuts and a column of the errors of
// all segments by row count. A row of errors takes the place of the row before it, from the last cell to the first: a cell reads only
// those to its left.
pub fn fill(
    errors: &[u64],
    gaps: &[u8; 256],
    task: Task,
    cuts: &mut [u8; 64],
    column: &mut [u64; 65],
) -> Option<Reduction>
    requires costs { Costs (error_at errors.now) (gap_at gaps.now) task.segments task.runs }
    requires room { row_start (task.segments + 1) ≤ length errors.now }
    ensures answer { result ≡ reduction_for (error_at errors.now) (gap_at gaps.now) task.segments task.runs task.bound }
    ensures cuts { cuts.new ≡ cuts_for (error_at errors.now) (gap_at gaps.now) task.segments task.runs task.bound cuts.old }
    ensures column { (k : ℕ) → k ≤ filled_rows task.bound (λ x. least (error_at errors.now) (gap_at gaps.now) x task.segments) task.segments task.runs → Stands (get_or column.new k 0) (least (error_at errors.now) (gap_at gaps.now) k task.segments) }
    ensures weighed_bound { IfSome result (λ r. 2 * r.weighed ≤ (rows_tried task.bound task.segments r.count - 1) * (task.segments * (task.segments - 1))) }
{
    let n = task.segments;
    let last = task.last_row();
    let mut row = [NONE; 256];
    first_row(errors, gaps, n, &mut row);
    column[0] = NONE;
    column[1] = row[n];
    let mut table = [0u8; 16384];
    let mut weighed = 0;
    let mut k = 1;
    // no `for`: a turn writes the error that the condition reads
    while task.goes_on(column, k, last) {
        k += 1;
        for i in (k..n + 1).rev() {
            let low = (k - 1).max(usize::from(gaps[i]));
            let start = row_start(i);
            let mut at: usize = i;
            let mut best = Best::UNTRIED;
            // A project rule names this form: a loop over candidates that is left by a labelled break with the best.
            let found = 'scan: loop {
                at -= 1;
                let error = errors[start + at];
                let total = row[at] + error;
                let next = best.weigh(total, at);
                if next.total < error {
                    // field by field, so that each has an edit of its own
                    break 'scan Best {
                        total: next.total,
                        cut: next.cut,
                        tried: next.tried,
                    };
                }
                if at == low {
                    break 'scan next;
                }
                best = next;
            };
            // no `From` narrows; a cut is below 255
            table[(k - 1) * 256 + i] = found.cut as u8;
            row[i] = found.total;
            weighed += found.tried;
        }
        column[k] = row[n];
    }
    cuts::answer_in(&table, column, task, k, weighed, cuts)
}
