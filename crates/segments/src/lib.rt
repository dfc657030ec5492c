// Instant temporal aggregation: from a log's records to its segments, group by group and from event to event. Arrays are lent and
// never copied.
#![tactic(auto)]

ghost use Rattle.std.specs.Prelude.{◌≡◌, [], ◌∷◌, suc, ◌-◌, ◌≤◌, IfOk, length};
ghost use Rattle.model.specs.Spans.{frame_count};
ghost use Rattle.model.specs.Segments.{frames_from, segments};
ghost use Rattle.model.specs.Questions.{outcome, log_questions, segments_questions, most_records};
ghost use Rattle.model.specs.Calls.{segment_span, answer_case, kind_number, segments_outcome, log_segments};
ghost use Rattle.model.specs.Arrays.{records_in, segment_arrays};
ghost use Rattle.model.specs.Demands.{AllPass};
ghost use Rattle.tally.specs.Tally.{owns_in, Survey, own_value};
ghost use Rattle.segments.specs.Steps.{joins, Made, behind, segments_found};

use common::{is_width, no};
use model::{Answer, Kind, MOST_GROUP, MOST_SEGMENTS, Question, Records, Segment, Segments};
use tally::{Group, Here};

// Whether a segment is adjacent to the next and equal to it in value. The frame after 65,535 is 65,536.
fn joins(segment: Segment, next: Segment) -> bool
    ensures { result ≡ joins (segment_span segment) (segment_span next) }
{
    (segment.group == next.group)
        & (u32::from(segment.last) + 1 == u32::from(next.first))
        & (segment.value == next.value)
}

// Puts a segment behind those made, or joins it to the last of them where the two are adjacent and equal in value.
// `Made` is one definition, of segments that are lent to be filled: no type, since it does not hold between two writes.
fn extend(made: &mut Segments, segment: Segment)
    requires is_made { Made made.old }
    requires has_places { length (behind made.old (segment_span segment ∷ [])) ≤ 255 }
    ensures { made.new ≡ segment_arrays (behind made.old (segment_span segment ∷ [])) }
{
    let count = made.count;
    if count != 0 {
        let place = count - 1;
        if joins(made.at(place), segment) {
            made.lasts[place] = segment.last;
            return;
        }
    }
    made.groups[count] = segment.group;
    made.firsts[count] = segment.first;
    made.lasts[count] = segment.last;
    made.values[count] = segment.value;
    made.count = count + 1;
}

// Puts the frames from a up to the next event of a group behind the segments made: all have the same value, or none.
fn add_stretch(kind: Kind, own: &Group, here: Here, group: u8, a: u16, made: &mut Segments)
    requires surveyed { Survey a a (owns_in own.now) here }
    requires is_made { Made made.old }
    requires has_places { length (behind made.old (frames_from (own_value (kind_number kind) (owns_in own.now)) group a (suc here.stop - a) [])) ≤ 255 }
    ensures { made.new ≡ segment_arrays (behind made.old (frames_from (own_value (kind_number kind) (owns_in own.now)) group a (suc here.stop - a) [])) }
{
    if here.count == 0 {
        return;
    }
    let segment = Segment {
        group,
        first: a,
        last: here.stop,
        value: own.value_at(kind, here, a, a),
    };
    extend(made, segment);
}

// Puts the segments of one group behind those made, from the group's records.
fn find_group(kind: Kind, own: &Group, group: u8, made: &mut Segments)
    requires is_made { Made made.old }
    requires has_places { length (behind made.old (frames_from (own_value (kind_number kind) (owns_in own.now)) group 0 frame_count [])) ≤ 255 }
    ensures { made.new ≡ segment_arrays (behind made.old (frames_from (own_value (kind_number kind) (owns_in own.now)) group 0 frame_count [])) }
{
    if own.count == 0 {
        return;
    }
    let mut a: u16 = 0;
    // no `for`: the turn that finds frame 65,535 is the last, and 65,536 is no frame
    loop {
        let here = own.survey(a, a);
        add_stretch(kind, own, here, group, a, made);
        if here.stop == 65535 {
            return;
        }
        a = here.stop + 1;
    }
}

// The segments of records, by group and then by first frame, where there were none.
pub fn find(records: &Records, kind: Kind, made: &mut Segments)
    requires few { records.now.count ≤ most_records }
    requires none_made { made.old ≡ segment_arrays [] }
    ensures { made.new ≡ segment_arrays (segments (kind_number kind) 1 (records_in records.now)) }
{
    let mut own = Group::new();
    for group in 0..MOST_GROUP + 1 {
        own.select(records, group);
        find_group(kind, &own, group, made);
    }
}

// The segments of a log whose questions are passed, with a memory of so many frames, where there were none.
pub fn of_log(log: &[u8], kind: Kind, width: u16, segments: &mut Segments)
    requires log_passes { AllPass (log_questions log.now) }
    requires some_frames { 1 ≤ width }
    requires none_made { segments.old ≡ segment_arrays [] }
    ensures { segments.new ≡ segment_arrays (log_segments (kind_number kind) width log.now) }
{
    let records = memory::records(log, width);
    find(&records, kind, segments);
}

// What the segment call asks: places for as many segments as a log can have, the kind, the width, and then the log. Gives the kind.
// The kind is a byte: question 2 is asked of it.
fn ask(log: &[u8], kind: u8, width: u16, places: usize) -> Answer<Kind>
    ensures { answer_case kind_number result ≡ outcome (segments_questions kind width log.now places) kind }
{
    if places < MOST_SEGMENTS {
        return no(Question::Room, 0);
    }
    let known = Kind::try_from(kind)?;
    if !is_width(width) {
        return no(Question::Width, 0);
    }
    load_log::ask(log)?;
    Ok(known)
}

// The segments of a log, where every question is passed.
pub fn find_in_log(log: &[u8], kind: u8, width: u16, places: usize) -> Answer<Segments>
    ensures says { segments_found result ≡ segments_outcome kind width log.now places }
    ensures holds { IfOk result (λ s. s ≡ segment_arrays (log_segments kind width log.now)) }
{
    let known = ask(log, kind, width, places)?;
    let mut segments = Segments::none();
    of_log(log, known, width, &mut segments);
    Ok(segments)
}
