// How many rows of the split table a bound has tried, and how many rows answer it: by the errors of all segments for each number of
// rows. Nothing here knows of segments' values or kinds.
#![tactic(auto)]

ghost use Rattle.std.specs.Prelude.{◌≡◌, true, false, ◌&&◌, not, ℕ, ◌≤◌, ◌<◌, ltb, get_or, MatchOption};
ghost use Rattle.model.specs.Split.{fewest};
ghost use Rattle.choice.specs.Errors.{no_error, error_in};
ghost use Rattle.choice.specs.Bounds.{Known, known-prop, last_row, covers_runs, meets_in, Comparable, choice_in};

use model::{Bound, MOST_ROWS};

// What is to be reduced: so many segments, of which there are some, in so many runs, to the rows that answer a bound. The bound is
// known, and leaves a row for each run.
#[derive(Clone, Copy)]
pub struct Task {
    pub segments: usize,
    pub runs: usize,
    pub bound: Bound,
    ghost some_segments: { 1 ≤ segments },
    ghost known: { Known bound } by { known-prop bound },
    ghost covers: { covers_runs bound runs ≡ true },
}

impl Task {
    // The task, unless the bound leaves no row for some run.
    pub fn new(segments: usize, runs: usize, bound: Bound) -> Option<Task>
        requires { (1 ≤ segments) × Known bound }
        ensures { MatchOption result (covers_runs bound runs ≡ false) (λ task. (task.segments ≡ segments) × (task.runs ≡ runs) × (task.bound ≡ bound)) }
    {
        if !covers_runs(bound, runs) {
            return None;
        }
        Some(Task {
            segments,
            runs,
            bound,
        })
    }

    // The last row of the table that may be tried.
    pub fn last_row(self) -> usize
        ensures { result ≡ last_row self.bound self.segments }
    {
        last_row(self.bound, self.segments)
    }

    // Whether another row is to be tried after row k.
    pub fn goes_on(self, column: &[u64; 65], k: usize, last: usize) -> bool
        requires { Comparable self.bound column.now self.runs k }
        ensures { result ≡ ltb k last && not (meets_in self.bound column.now self.runs k) }
    {
        goes_on(self.bound, column, self.runs, k, last)
    }

    // The number of rows that answers the bound, if any does, from the errors of all segments in 0 to `last` rows.
    pub fn choose(self, column: &[u64; 65], last: usize) -> Option<usize>
        requires comparable { Comparable self.bound column.now self.runs last }
        requires at_most_none { (k : ℕ) → k ≤ last → get_or column.now k 0 ≤ no_error }
        ensures { result ≡ choice_in self.bound column.now self.runs last }
    {
        choose(self.bound, column, self.runs, last)
    }
}

// These are functions of any bound, which need not leave a row for each run: a task's methods are theirs. They are public with these
// clauses, and a task is narrower.

// Whether a row limit leaves a row for each run; a share does not limit the rows.
pub fn covers_runs(bound: Bound, runs: usize) -> bool
    ensures { result ≡ covers_runs bound runs }
{
    match bound {
        Bound::Rows(c) => runs <= usize::from(c),
        Bound::Share(_) => true,
    }
}

// The last row of the table that may be tried.
pub fn last_row(bound: Bound, n: usize) -> usize
    ensures { result ≡ last_row bound n }
{
    match bound {
        Bound::Rows(c) => usize::from(c).min(n),
        Bound::Share(_) => MOST_ROWS.min(n),
    }
}

// Whether k rows meet the share of the error of one row for each run; `column` has the errors of all segments by row count.
fn met(bound: Bound, column: &[u64; 65], runs: usize, k: usize) -> bool
    requires { Comparable bound column.now runs k }
    ensures { result ≡ meets_in bound column.now runs k }
{
    match bound {
        Bound::Rows(_) => false,
        Bound::Share(p) => runs <= k && column[k] * 1000 <= u64::from(p) * column[runs],
    }
}

// Whether another row is to be tried after row k.
pub fn goes_on(bound: Bound, column: &[u64; 65], runs: usize, k: usize, last: usize) -> bool
    requires { Comparable bound column.now runs k }
    ensures { result ≡ ltb k last && not (meets_in bound column.now runs k) }
{
    k < last && !met(bound, column, runs, k)
}

// The number of rows that answers a bound, if any does, from the errors of all segments in 0 to `last` rows.
// The column is filled up to `last`, of which the clauses speak.
pub fn choose(bound: Bound, column: &[u64; 65], runs: usize, last: usize) -> Option<usize>
    requires comparable { Comparable bound column.now runs last }
    requires at_most_none { (k : ℕ) → k ≤ last → get_or column.now k 0 ≤ no_error }
    ensures { result ≡ choice_in bound column.now runs last }
{
    match bound {
        Bound::Rows(_) => Some(least_rows(column, last)),
        Bound::Share(_) => met(bound, column, runs, last).then_some(last),
    }
}

// The fewest of 0 to `last` rows that have the least error.
// No `min_by_key`: it gives an Option, of a range that is never empty.
fn least_rows(column: &[u64; 65], last: usize) -> usize
    requires in_column { last < 65 }
    requires at_most_none { (k : ℕ) → k ≤ last → get_or column.now k 0 ≤ no_error }
    ensures { result ≡ fewest (λ k. error_in (get_or column.now k 0)) last }
{
    let mut best = 0;
    for k in 1..=last {
        if column[k] < column[best] {
            best = k;
        }
    }
    best
}
