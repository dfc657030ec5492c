// The log: questions 4 to 9 and 21 over its bytes, its records decoded into arrays, the call for logs on file, and the record writer.
#![tactic(auto)]

ghost use Rattle.std.specs.Prelude.{◌≡◌, ◌+◌, ◌≤◌, length};
ghost use Rattle.model.specs.Log.{record_bytes, record_at, record_count, records};
ghost use Rattle.model.specs.Questions.{outcome, each, span_questions, record_questions, file_questions, log_questions, most_records};
ghost use Rattle.model.specs.Calls.{record_span, asked_case, count_case, write_outcome, written_buffer, without_twins_outcome, without_twins_buffer};
ghost use Rattle.model.specs.Demands.{FilePromise};
ghost use Rattle.model.specs.Arrays.{record_arrays};
ghost use Rattle.twins.specs.Keys.{HasRecord, HasRecords};

use common::{copy, no, two};
use model::{
    Answer, MOST_GROUP, MOST_LOAD, MOST_RECORDS, Question, RECORD_LENGTH, Record, Records,
};

// The record whose bytes begin at a place.
fn record_at(log: &[u8], at: usize) -> Record
    requires { at + 9 ≤ length log.now }
    ensures { record_span result ≡ record_at log.now at }
{
    Record {
        group: log[at + 2],
        first: two(log, at + 3),
        last: two(log, at + 5),
        load: two(log, at + 7),
    }
}

// Questions 7 to 9, of a record.
fn ask_span(record: Record, index: usize) -> Answer<()>
    ensures { asked_case result ≡ outcome (span_questions (record_span «record») index) tt }
{
    if record.group > MOST_GROUP {
        return no(Question::Group, index);
    }
    if record.first > record.last {
        return no(Question::FrameOrder, index);
    }
    if record.load > MOST_LOAD {
        return no(Question::Load, index);
    }
    Ok(())
}

// Questions 6 to 9, of the record with this index.
fn ask_record(log: &[u8], index: usize) -> Answer<()>
    requires { HasRecord log.now index }
    ensures { asked_case result ≡ outcome (record_questions log.now index) tt }
{
    let at = RECORD_LENGTH * index;
    // byte by byte: one number would be no plainer, and each byte has an edit
    if log[at] != 0x4C {
        return no(Question::RecordMark, index);
    }
    if log[at + 1] != 0x44 {
        return no(Question::RecordMark, index);
    }
    ask_span(record_at(log, at), index)
}

// Questions 6 to 9, of one record after the other.
fn ask_records(log: &[u8], count: usize) -> Answer<()>
    requires { HasRecords log.now count }
    ensures { asked_case result ≡ outcome (each (record_questions log.now) 0 count) tt }
{
    for index in 0..count {
        ask_record(log, index)?;
    }
    Ok(())
}

// Questions 4 to 9: all that a log on file is asked.
fn ask_file(log: &[u8]) -> Answer<()>
    ensures { asked_case result ≡ outcome (file_questions log.now) tt }
{
    let count = log.len() / RECORD_LENGTH;
    if log.len() % RECORD_LENGTH != 0 {
        return no(Question::LogLength, 0);
    }
    if count > MOST_RECORDS {
        return no(Question::RecordCount, 0);
    }
    ask_records(log, count)
}

// Questions 4 to 9 and 21. A record's 21 comes before the next one's questions, so where 4 to 9 have a first 'no', the records before
// that one are asked 21 ahead of it. The index of 4 and 5 is 0, and no record is before it.
pub fn ask(log: &[u8]) -> Answer<()>
    ensures { asked_case result ≡ outcome (log_questions log.now) tt }
{
    match ask_file(log) {
        Ok(()) => twins::ask(log, log.len() / RECORD_LENGTH),
        Err(refusal) => twins::ask(log, refusal.index).and(Err(refusal)),
    }
}

// Writes a log on file to the front of a buffer, with the first of equal records and the others in their order, or tells which
// question refused it and writes nothing.
pub fn without_twins(log: &[u8], buffer: &mut [u8]) -> Answer<usize>
    ensures says { count_case result ≡ without_twins_outcome log.now (length buffer.old) }
    ensures holds { buffer.new ≡ without_twins_buffer log.now buffer.old }
    ensures promise { FilePromise log.now (count_case result) buffer.new }
{
    if buffer.len() < log.len() {
        return no(Question::Room, 0);
    }
    ask_file(log)?;
    let written = twins::keep(log, log.len() / RECORD_LENGTH, buffer);
    Ok(written)
}

// The records of a log, in their order, an array for each of their fields: a frame's value is worked out of eight records at a time.
pub fn decode(log: &[u8]) -> Records
    requires { record_count log.now ≤ most_records }
    ensures { result ≡ record_arrays (records log.now) }
{
    let count = log.len() / RECORD_LENGTH;
    let mut records = Records::none();
    for index in 0..count {
        let record = record_at(log, RECORD_LENGTH * index);
        records.groups[index] = record.group;
        records.firsts[index] = record.first;
        records.lasts[index] = record.last;
        records.loads[index] = record.load;
        records.count = index + 1;
    }
    records
}

// A record: mark, group, first and last frame and load.
fn record_bytes(record: Record) -> [u8; RECORD_LENGTH]
    ensures { result ≡ record_bytes (record_span «record») }
{
    let first = record.first.to_le_bytes();
    let last = record.last.to_le_bytes();
    let load = record.load.to_le_bytes();
    [
        0x4C,
        0x44,
        record.group,
        first[0],
        first[1],
        last[0],
        last[1],
        load[0],
        load[1],
    ]
}

// Writes a record to the front of a buffer, or tells which question refused it and writes nothing.
pub fn write_record(record: Record, buffer: &mut [u8]) -> Answer<()>
    ensures says { asked_case result ≡ write_outcome (record_span «record») (length buffer.old) }
    ensures holds { buffer.new ≡ written_buffer (record_span «record») buffer.old }
{
    if buffer.len() < RECORD_LENGTH {
        return no(Question::Room, 0);
    }
    ask_span(record, 0)?;
    copy(&record_bytes(record), buffer);
    Ok(())
}
