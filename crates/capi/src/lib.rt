// The tool's calls over numbers, slices and the structs of C, as `include/pacer.h` declares them; the crate `capi_c` exports them. Each
// call answers every input, says by equation with the definitions what it answers and what the places lent to it hold
// afterwards, and has no `requires`.
// Kinds and rules are bytes here, and lists are lent apart, since the C interface has them so; each call hands on to one of the same
// parameters.
#![tactic(auto)]

ghost use Rattle.std.specs.Prelude.{◌≡◌, length};
ghost use Rattle.model.specs.Questions.{Outcome};
ghost use Rattle.model.specs.Demands.{LetterPromise};
ghost use Rattle.model.specs.Calls.{Counts, write_outcome, written_buffer, without_twins_outcome, without_twins_buffer, letter_outcome, letter_slot, segments_outcome, filled_list};
ghost use Rattle.model.specs.Calls.{ruled_outcome, ruled_slot, beat_query, scene_query};
ghost use Rattle.model.specs.Calls.{read_outcome, read_list_outcome, read_list, step_outcome, step_next, lookup_outcome};
ghost use Rattle.model.specs.Lookups.{lookups_outcome, lookups_values, lookups_covered};
ghost use Rattle.model.specs.Check.{check_outcome};
ghost use Rattle.answers.specs.Fields.{asked_fields, log_fields, query_fields, segments_fields, read_fields, step_fields, lookup_fields};
ghost use Rattle.capi.specs.Promises.{span_of, CheckFields, LookupsFields, FileFields, RuledFields, SegmentsFields};

use answers::{
    CAnswer, CLogAnswer, CLookupAnswer, CQueryAnswer, CReadAnswer, CSegmentsAnswer, CStepAnswer,
};
use model::{Record, Row, Segment};

// Writes a record to the front of a buffer.
pub fn pacer_write_record(group: u8, first: u16, last: u16, load: u16, buffer: &mut [u8]) -> CAnswer
    ensures says { result ≡ asked_fields (write_outcome (span_of group first last load) (length buffer.old)) }
    ensures holds { buffer.new ≡ written_buffer (span_of group first last load) buffer.old }
{
    let record = Record {
        group,
        first,
        last,
        load,
    };
    pacer::write_record(record, buffer).into()
}

// Writes a log on file to the front of a buffer, with the first of equal records and the others in their order.
pub fn pacer_without_twins(log: &[u8], buffer: &mut [u8]) -> CLogAnswer
    ensures says { result ≡ log_fields (without_twins_outcome log.now (length buffer.old)) }
    ensures holds { buffer.new ≡ without_twins_buffer log.now buffer.old }
    ensures promise { FileFields log.now result buffer.new }
{
    pacer::without_twins(log, buffer).into()
}

// Answers a query about a log and writes its rows into a slot. The rule is 52 for a row limit and 45 for a share, and the width that of a
// memory, 1 for none.
pub fn pacer_query(
    kind: u8,
    rule: u8,
    bound: u16,
    width: u16,
    log: &[u8],
    slot: &mut [u8],
) -> CQueryAnswer
    ensures says { result ≡ query_fields (letter_outcome kind rule bound width log.now (length slot.old)) }
    ensures holds { slot.new ≡ letter_slot kind rule bound width log.now slot.old }
    ensures promise { (says : Outcome Counts) × (result ≡ query_fields says) × LetterPromise kind rule bound width log.now slot.old says slot.new }
{
    pacer::query_by_letter(kind, rule, bound, width, log, slot).into()
}

// Answers a query about a log by windows of so many frames, from frame `start` on, and writes their rows into a slot.
pub fn pacer_query_beats(
    kind: u8,
    frames: u16,
    start: u16,
    log: &[u8],
    slot: &mut [u8],
) -> CQueryAnswer
    ensures says { result ≡ query_fields (ruled_outcome (beat_query kind frames start) log.now (length slot.old)) }
    ensures holds { slot.new ≡ ruled_slot (beat_query kind frames start) log.now slot.old }
    ensures promise { RuledFields (beat_query kind frames start) log.now slot.old result slot.new }
{
    pacer::query_by_beats(kind, frames, start, log, slot).into()
}

// Answers a query about a log by scenes, whose first and last frames are two lists, and writes their rows into a slot.
pub fn pacer_query_scenes(
    kind: u8,
    firsts: &[u16],
    lasts: &[u16],
    log: &[u8],
    slot: &mut [u8],
) -> CQueryAnswer
    ensures says { result ≡ query_fields (ruled_outcome (scene_query kind firsts.now lasts.now) log.now (length slot.old)) }
    ensures holds { slot.new ≡ ruled_slot (scene_query kind firsts.now lasts.now) log.now slot.old }
    ensures promise { RuledFields (scene_query kind firsts.now lasts.now) log.now slot.old result slot.new }
{
    pacer::query_by_scenes(kind, firsts, lasts, log, slot).into()
}

// The segments of a log with a memory of so many frames, in the first places of a list of 255 or more.
pub fn pacer_segments(log: &[u8], kind: u8, width: u16, list: &mut [Segment]) -> CSegmentsAnswer
    ensures { (result ≡ segments_fields (segments_outcome kind width log.now (length list.old))) × (list.new ≡ filled_list kind width log.now list.old) × SegmentsFields kind width log.now list.old result list.new }
{
    lent::list::segments(log, kind, width, list).into()
}

// What the header of a slot says.
pub fn pacer_read(slot: &[u8]) -> CReadAnswer
    ensures { result ≡ read_fields (read_outcome slot.now) }
{
    pacer::read_header(slot).into()
}

// What the header of a slot says, and its rows in the first places of a list of 64 or more.
pub fn pacer_read_rows(slot: &[u8], list: &mut [Row]) -> CReadAnswer
    ensures { (result ≡ read_fields (read_list_outcome slot.now (length list.old))) × (list.new ≡ read_list slot.now list.old) }
{
    lent::rows::read_into(slot, list).into()
}

// One step of a walk over a slot: the row with this number and the number that comes next, or the end.
pub fn pacer_row_at(slot: &[u8], number: usize) -> CStepAnswer
    ensures { result ≡ step_fields (step_outcome slot.now number) (step_next slot.now number) }
{
    pacer::row_at(slot, number).into()
}

// The value of the row of a group that contains a frame.
pub fn pacer_lookup(slot: &[u8], group: u8, frame: u16) -> CLookupAnswer
    ensures { result ≡ lookup_fields (lookup_outcome slot.now group frame) }
{
    pacer::lookup(slot, group, frame).into()
}

// The values of the rows that contain each of many frames of groups, in the first places of one list, and in those of another whether
// there is such a row: all, or in a refusal none.
pub fn pacer_lookups(
    slot: &[u8],
    groups: &[u8],
    frames: &[u16],
    values: &mut [u32],
    covered: &mut [u8],
) -> CAnswer
    ensures says { result ≡ asked_fields (lookups_outcome slot.now groups.now (length frames.now) (length values.old) (length covered.old)) }
    ensures found { values.new ≡ lookups_values slot.now groups.now frames.now values.old covered.old }
    ensures flagged { covered.new ≡ lookups_covered slot.now groups.now frames.now values.old covered.old }
    ensures promise { LookupsFields slot.now groups.now frames.now values.old covered.old result values.new covered.new }
{
    lookups::look_up(slot, groups, frames, values, covered).into()
}

// Whether a slot agrees with its log, with a memory of so many frames: its rows cover just the covered frames, none of kind 3 is below a
// covered value, and its error is their squared error.
pub fn pacer_check(log: &[u8], width: u16, slot: &[u8]) -> CAnswer
    ensures says { result ≡ asked_fields (check_outcome width log.now slot.now) }
    ensures promise { CheckFields width log.now slot.now result }
{
    checker::check(log, width, slot).into()
}
