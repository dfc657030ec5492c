// The tool's calls. Each answers every input and says by equation with the definitions what it answers and what the places
// lent to it hold afterwards. A query promises besides, in one record, the third demand, that its rows are best, and that any
// order of the log's records gives the same.
#![tactic(auto)]

ghost use Rattle.std.specs.Prelude.{◌≡◌, ◌≤◌, IfOk, length};
ghost use Rattle.std.proofs.Math.Option.{none};
ghost use Rattle.model.specs.Common.{option_of};
ghost use Rattle.model.specs.Windows.{bound_in};
ghost use Rattle.model.specs.Questions.{outcome, accepted};
ghost use Rattle.model.specs.Calls.{asked_case, write_outcome, written_buffer, count_case, without_twins_outcome, without_twins_buffer, record_span};
ghost use Rattle.model.specs.Calls.{Counts, query_case, query_outcome, query_slot, bound_of, letter_questions, letter_outcome, letter_slot};
ghost use Rattle.model.specs.Calls.{ruled_outcome, ruled_slot, beat_query, scene_query};
ghost use Rattle.model.specs.Calls.{read_case, reading_case, read_outcome, read_rows, step_case, step_outcome, step_next, lookup_case, lookup_outcome};
ghost use Rattle.model.specs.Arrays.{row_array};
ghost use Rattle.model.specs.Demands.{FilePromise, QueryPromise, RuledPromise, LetterPromise};
ghost use Rattle.preparing.specs.Prepared.{prepared_case};
ghost use Rattle.pacer.specs.Promises.{rows_given, BestReading, no_counts, stored_in};

use common::no;
use model::{
    Answer, Bound, Header, Kind, Query, Question, Reading, Record, RuledQuery, SLOT_LENGTH, Walked,
    Written,
};
use preparing::{Prepared, prepare_by_bound, prepare_by_windows};

// A query's answer, and what the reader made of the slot after it.
#[derive(Clone, Copy)]
pub struct Queried {
    pub answer: Answer<Written>,
    pub reading: Answer<Reading>,
}

// Writes a record to the front of a buffer, or tells which question refused it and writes nothing.
pub fn write_record(record: Record, buffer: &mut [u8]) -> Answer<()>
    ensures says { asked_case result ≡ write_outcome (record_span «record») (length buffer.old) }
    ensures holds { buffer.new ≡ written_buffer (record_span «record») buffer.old }
{
    load_log::write_record(record, buffer)
}

// Writes a log on file to the front of a buffer, with the first of equal records and the others in their order, or tells which
// question refused it and writes nothing.
pub fn without_twins(log: &[u8], buffer: &mut [u8]) -> Answer<usize>
    ensures says { count_case result ≡ without_twins_outcome log.now (length buffer.old) }
    ensures holds { buffer.new ≡ without_twins_buffer log.now buffer.old }
    ensures promise { FilePromise log.now (count_case result) buffer.new }
{
    load_log::without_twins(log, buffer)
}

// Answers a query about a log: writes the best rows, or those of its windows, into the slot, or tells which question refused it and
// writes nothing.
pub fn query(query: RuledQuery, log: &[u8], slot: &mut [u8]) -> Answer<Written>
    ensures says { query_case result ≡ ruled_outcome query log.now (length slot.old) }
    ensures holds { slot.new ≡ ruled_slot query log.now slot.old }
    ensures promise { RuledPromise query log.now slot.old (query_case result) slot.new }
{
    let RuledQuery {
        kind,
        rule,
        width,
        ..
    } = query;
    match rules::bound_in(rule) {
        Some(bound) => query_by_bound(Query { kind, bound, width }, log, slot),
        None => query_by_windows(query, log, slot),
    }
}

// Answers a query by a bound.
pub fn query_by_bound(query: Query, log: &[u8], slot: &mut [u8]) -> Answer<Written>
    ensures says { query_case result ≡ query_outcome query log.now (length slot.old) }
    ensures holds { slot.new ≡ query_slot query log.now slot.old }
    ensures promise { QueryPromise query log.now slot.old (query_case result) slot.new }
{
    let prepared = prepare_by_bound(query, log, slot.len());
    store(prepared, slot)
}

// Answers a query by windows every `frames` frames, from frame `start` on.
// The kind is a byte here and below: question 2 is asked of it.
pub fn query_by_beats(
    kind: u8,
    frames: u16,
    start: u16,
    log: &[u8],
    slot: &mut [u8],
) -> Answer<Written>
    ensures says { query_case result ≡ ruled_outcome (beat_query kind frames start) log.now (length slot.old) }
    ensures holds { slot.new ≡ ruled_slot (beat_query kind frames start) log.now slot.old }
    ensures promise { RuledPromise (beat_query kind frames start) log.now slot.old (query_case result) slot.new }
{
    let query = rules::beats(kind, frames, start);
    query_by_windows(query, log, slot)
}

// Answers a query by scenes, from their first and their last frames.
pub fn query_by_scenes(
    kind: u8,
    firsts: &[u16],
    lasts: &[u16],
    log: &[u8],
    slot: &mut [u8],
) -> Answer<Written>
    ensures says { query_case result ≡ ruled_outcome (scene_query kind firsts.now lasts.now) log.now (length slot.old) }
    ensures holds { slot.new ≡ ruled_slot (scene_query kind firsts.now lasts.now) log.now slot.old }
    ensures promise { RuledPromise (scene_query kind firsts.now lasts.now) log.now slot.old (query_case result) slot.new }
{
    let query = rules::scenes(kind, firsts, lasts);
    query_by_windows(query, log, slot)
}

// Answers a query by windows.
fn query_by_windows(query: RuledQuery, log: &[u8], slot: &mut [u8]) -> Answer<Written>
    requires { bound_in query.rule ≡ none }
    ensures says { query_case result ≡ ruled_outcome query log.now (length slot.old) }
    ensures holds { slot.new ≡ ruled_slot query log.now slot.old }
    ensures promise { RuledPromise query log.now slot.old (query_case result) slot.new }
{
    answer_by_windows(query, log, slot)
}

// Its answer and slot. This is a function of its own, called from one place, because the compiler finds that the slot need not be
// copied only when it puts prepared and stored into a further function (docs/DECISIONS.md, 80).
fn answer_by_windows(query: RuledQuery, log: &[u8], slot: &mut [u8]) -> Answer<Written>
    requires { bound_in query.rule ≡ none }
    ensures says { query_case result ≡ ruled_outcome query log.now (length slot.old) }
    ensures holds { slot.new ≡ ruled_slot query log.now slot.old }
{
    let prepared = prepare_by_windows(query, log, slot.len());
    store(prepared, slot)
}

// Stores what was prepared, unless the query is refused, and gives the answer.
fn store(prepared: Answer<Prepared>, slot: &mut [u8]) -> Answer<Written>
    requires has_room { IfOk prepared (λ _. 768 ≤ length slot.old) }
    ensures says { query_case result ≡ prepared_case prepared }
    ensures holds { slot.new ≡ stored_in slot.old prepared }
{
    let Prepared { written, bytes } = prepared?;
    layout::store(bytes, slot);
    Ok(written)
}

// The bound of a letter and a number: 52 and a row limit, or 45 and a share.
fn bound_of(letter: u8, number: u16) -> Option<Bound>
    ensures { option_of result ≡ bound_of letter number }
{
    match letter {
        0x52 => Some(Bound::Rows(number)),
        0x45 => Some(Bound::Share(number)),
        _ => None,
    }
}

// Answers a query whose bound is a letter and a number: 52 and a row limit, or 45 and a share. The width is that of its memory.
// The letter is a byte of the C interface.
pub fn query_by_letter(
    kind: u8,
    letter: u8,
    bound: u16,
    width: u16,
    log: &[u8],
    slot: &mut [u8],
) -> Answer<Written>
    ensures says { query_case result ≡ letter_outcome kind letter bound width log.now (length slot.old) }
    ensures holds { slot.new ≡ letter_slot kind letter bound width log.now slot.old }
    ensures promise { LetterPromise kind letter bound width log.now slot.old (query_case result) slot.new }
{
    match bound_of(letter, bound) {
        Some(asked) => {
            let query = Query {
                kind,
                bound: asked,
                width,
            };
            query_by_bound(query, log, slot)
        }
        None => refuse_letter(kind, slot.len()),
    }
}

// The answer to a query with another letter.
// The letter's 'no' comes behind the room and the kind, and ahead of the log: no query is put together.
fn refuse_letter(kind: u8, room: usize) -> Answer<Written>
    ensures { query_case result ≡ outcome (letter_questions kind room) no_counts }
{
    if room < SLOT_LENGTH {
        return no(Question::Room, 0);
    }
    Kind::try_from(kind)?;
    no(Question::Bound, 0)
}

// Answers a query, and reads the slot as it stands after it.
pub fn query_and_read(query: Query, log: &[u8], slot: &mut [u8]) -> Queried
    ensures says { query_case result.answer ≡ query_outcome query log.now (length slot.old) }
    ensures holds { slot.new ≡ query_slot query log.now slot.old }
    ensures header { reading_case result.reading ≡ read_outcome slot.new }
    ensures rows { rows_given result.reading ≡ row_array (read_rows slot.new) }
    ensures promise { QueryPromise query log.now slot.old (query_case result.answer) slot.new }
    ensures best { (counts : Counts) → query_case result.answer ≡ accepted counts → BestReading query log.now result.reading }
{
    let answer = query_by_bound(query, log, slot);
    let reading = read(slot);
    Queried { answer, reading }
}

// Reads a slot's header: the mark's second byte, kind, error and row count.
pub fn read_header(slot: &[u8]) -> Answer<Header>
    ensures { read_case result ≡ read_outcome slot.now }
{
    reader::header(slot)
}

// Reads a slot: what its header says, and its rows.
pub fn read(slot: &[u8]) -> Answer<Reading>
    ensures header { reading_case result ≡ read_outcome slot.now }
    ensures rows { rows_given result ≡ row_array (read_rows slot.now) }
{
    reader::read(slot)
}

// One step of a walk over a slot: the row with this number and the number that comes next, or the end.
pub fn row_at(slot: &[u8], number: usize) -> Walked
    ensures { (step_case result.step ≡ step_outcome slot.now number) × (result.next ≡ step_next slot.now number) }
{
    reader::row_at(slot, number)
}

// The value of the row of a group that contains a frame.
pub fn lookup(slot: &[u8], group: u8, frame: u16) -> Answer<Option<u32>>
    ensures { lookup_case result ≡ lookup_outcome slot.now group frame }
{
    reader::lookup(slot, group, frame)
}
