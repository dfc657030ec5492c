// Load with a memory: the records of a log, as the frames that follow them remember them. A frame remembers a record for as many
// frames as the memory is wide, so that the record's last frame moves, and the sweep over frames needs to know of no width.
#![tactic(auto)]

ghost use Rattle.std.specs.Prelude.{◌≡◌, ◌+◌, ◌-◌, ◌≤◌, min};
ghost use Rattle.model.specs.Log.{record_count};
ghost use Rattle.model.specs.Questions.{most_records};
ghost use Rattle.memory.specs.Remembered.{Remembers};

use model::Records;

// The last frame that remembers a record with this last frame. Frames past 65,535 don't exist.
fn later(last: u16, width: u16) -> u16
    requires { 1 ≤ width }
    ensures { result ≡ min (last + (width - 1)) 65535 }
{
    last.saturating_add(width - 1)
}

// Records that have, without a memory, the values that a log's records have with one.
// The width is a number of the C interface: that it is at least 1 is one inequality, and no type.
pub fn records(log: &[u8], width: u16) -> Records
    requires few_records { record_count log.now ≤ most_records }
    requires some_frames { 1 ≤ width }
    ensures { Remembers width log.now result }
{
    let mut records = load_log::decode(log);
    if width == 1 {
        return records;
    }
    let count = records.count;
    // By index: after a part of a field is lent, as `&mut records.lasts[..count]`, the check knows nothing of that field.
    for index in 0..count {
        records.lasts[index] = later(records.lasts[index], width);
    }
    records
}
