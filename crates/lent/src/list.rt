// The segment call over a lent list of structs: the log's segments are found first, and then copied into the list.
ghost use Rattle.std.specs.Prelude.{◌≡◌, ◌++◌, map, ◌≤◌, length, drop};
ghost use Rattle.model.specs.Questions.{most_segments};
ghost use Rattle.model.specs.Calls.{segment_of, count_case, segments_outcome, filled_list};
ghost use Rattle.model.specs.Arrays.{segments_in};
ghost use Rattle.model.specs.Demands.{SegmentsPromise};

use model::{Answer, Segment, Segments};

// Copies segments into the first places of a list.
fn fill(segments: &Segments, list: &mut [Segment])
    requires fits { (segments.now.count ≤ most_segments) × (segments.now.count ≤ length list.old) }
    ensures { list.new ≡ map segment_of (segments_in segments.now) ++ drop segments.now.count list.old }
{
    for index in 0..segments.count {
        list[index] = segments.at(index);
    }
}

// The segments of a log with a memory of so many frames, in the first places of a list of 255 or more; any order of the log's records
// gives the same.
// The kind is a byte: question 2 is asked of it.
pub fn segments(log: &[u8], kind: u8, width: u16, list: &mut [Segment]) -> Answer<usize>
    ensures says { count_case result ≡ segments_outcome kind width log.now (length list.old) }
    ensures holds { list.new ≡ filled_list kind width log.now list.old }
    ensures promise { SegmentsPromise kind width log.now list.old (count_case result) list.new }
{
    let found = segments::find_in_log(log, kind, width, list.len())?;
    fill(&found, list);
    Ok(found.count)
}
