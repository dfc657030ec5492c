// The errors of all blocks that cross no gap, each at a place of its own in one list of numbers: what a block costs is worked out
// once and read by whatever shares rows out. The places are lent, as many as the segments need.
#![tactic(auto)]

ghost use Rattle.std.specs.Prelude.{◌≡◌, ◌≤◌};
ghost use Rattle.triangle.specs.Places.{row_start};

// Where the errors of the blocks that end with segment i − 1 begin; that of the block from j on stands j places further.
pub fn row_start(i: usize) -> usize
    requires { (1 ≤ i) × (i ≤ 256) }
    ensures { result ≡ row_start i }
{
    i * (i - 1) / 2
}
