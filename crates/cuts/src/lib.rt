// From a filled split table to the cuts of the reduction that answers a bound, read back from the last row to the first.
#![tactic(auto)]

ghost use Rattle.std.specs.Prelude.{◌≡◌, ◌++◌, ℕ, ◌≤◌, drop};
ghost use Rattle.choice.specs.Columns.{FilledColumn};
ghost use Rattle.cuts.specs.Held.{cuts_in, Readable, ascending, Fills, reduction_for, cuts_for};

use choice::Task;

// The reduction that answers a bound: its number of rows, its error and the cuts weighed. Its cuts stand in a list that is lent.
#[derive(Clone, Copy)]
pub struct Reduction {
    pub count: usize,
    pub error: u64,
    pub weighed: u64,
}

// The cuts of the k blocks of the first i segments, read back from the last block to the first into the first k places.
// The recursion stays: a project rule names it, and a loop down from k would be no plainer.
fn read_back(table: &[u8; 16384], k: usize, i: usize, cuts: &mut [u8; 64])
    requires in_table { (k ≤ 64) × (i ≤ 255) }
    requires readable { Readable table.now k i }
    ensures { cuts.new ≡ ascending (cuts_in table.now k i) ++ drop k cuts.old }
{
    if k == 0 {
        return;
    }
    let place = k - 1;
    let cut = table[place * 256 + i];
    cuts[place] = cut;
    read_back(table, place, usize::from(cut), cuts)
}

// The answer that a filled table and its column of errors hold, if there is one, and its cuts: `last` is the last of the rows that are
// filled. The table is that of whatever errors and gaps it was filled by.
pub fn answer_in(
    table: &[u8; 16384],
    column: &[u64; 65],
    task: Task,
    last: usize,
    weighed: u64,
    cuts: &mut [u8; 64],
) -> Option<Reduction>
    requires { (err : ℕ → ℕ → ℕ) × (low : ℕ → ℕ) × Fills err low task table.now column.now last weighed }
    ensures { (err : ℕ → ℕ → ℕ) (low : ℕ → ℕ) → Fills err low task table.now column.now last weighed → (result ≡ reduction_for err low task.segments task.runs task.bound) × (cuts.new ≡ cuts_for err low task.segments task.runs task.bound cuts.old) }
{
    let count = task.choose(column, last)?;
    read_back(table, count, task.segments, cuts);
    Some(Reduction {
        count,
        error: column[count],
        weighed,
    })
}

// The same where one row is the last that is tried, which needs no table: `column` has its error.
pub fn one_row(column: &[u64; 65], task: Task, cuts: &mut [u8; 64]) -> Option<Reduction>
    requires { (err : ℕ → ℕ → ℕ) × (low : ℕ → ℕ) × FilledColumn err low task column.now 1 }
    ensures { (err : ℕ → ℕ → ℕ) (low : ℕ → ℕ) → FilledColumn err low task column.now 1 → (result ≡ reduction_for err low task.segments task.runs task.bound) × (cuts.new ≡ cuts_for err low task.segments task.runs task.bound cuts.old) }
{
    task.choose(column, 1)?;
    cuts[0] = 0;
    Some(Reduction {
        count: 1,
        error: column[1],
        weighed: 0,
    })
}
