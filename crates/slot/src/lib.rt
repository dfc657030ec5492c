// A slot's rows and its questions, 1 and 11 to 17. A slot that is handed in may hold any bytes, of any length.
#![tactic(auto)]

ghost use Rattle.std.specs.Prelude.{◌≡◌, ◌+◌, ◌≤◌, length, take};
ghost use Rattle.model.specs.Slot.{slot_count, slot_row};
ghost use Rattle.model.specs.Questions.{outcome, each, marked, row_known, row_questions, error_known, header_marked, slot_questions};
ghost use Rattle.model.specs.Calls.{row_span, row_of_span, asked_case};
ghost use Rattle.slot.specs.Places.{HasHeader, HasRow, HasRows, place_of, least_place};

use common::{eight, four, no, place, two};
use model::{
    Answer, BY_BOUND, BY_WINDOWS, MOST_GROUP, MOST_KIND, MOST_ROWS, MOST_VALUE, Question, Row,
    SLOT_LENGTH,
};

// How many rows a slot says that it has.
pub fn count(slot: &[u8]) -> usize
    requires { HasHeader slot.now }
    ensures { result ≡ slot_count slot.now }
{
    usize::from(slot[3])
}

// Row i of a slot.
// What is asked of a slot's length has a name and no type: a lent slice may have any length.
#[tactic(auto, unfolding(model::specs::Slot::row_place))]
pub fn row(slot: &[u8], i: usize) -> Row
    requires { HasRow slot.now i }
    ensures { result ≡ row_of_span (slot_row slot.now i) }
{
    let at = place(i);
    Row {
        group: slot[at + 2],
        first: two(slot, at + 3),
        last: two(slot, at + 5),
        value: four(slot, at + 7),
    }
}

// Whether a mark of two bytes stands at place `at`. The two are compared as one number.
fn marked(bytes: &[u8], at: usize, a: u8, b: u8) -> bool
    requires { at + 2 ≤ length bytes.now }
    ensures { result ≡ marked bytes.now at a b }
{
    two(bytes, at) == u16::from_le_bytes([a, b])
}

// Question 11's: whether the header's mark is that of rows by a bound or of rows by windows.
fn header_marked(slot: &[u8]) -> bool
    requires { HasHeader slot.now }
    ensures { result ≡ header_marked slot.now }
{
    marked(slot, 0, 0x50, BY_BOUND) | marked(slot, 0, 0x50, BY_WINDOWS)
}

// Questions 1 and 11 to 13: room, header mark, kind and row count.
fn ask_header(slot: &[u8]) -> Answer<()>
    ensures { asked_case result ≡ outcome (take 4 (slot_questions slot.now)) tt }
{
    if slot.len() < SLOT_LENGTH {
        return no(Question::Room, 0);
    }
    if !header_marked(slot) {
        return no(Question::SlotMark, 0);
    }
    // question 12 and not 2, which `Kind::try_from` answers
    if slot[2] > MOST_KIND {
        return no(Question::SlotKind, 0);
    }
    if count(slot) > MOST_ROWS {
        return no(Question::RowCount, 0);
    }
    Ok(())
}

// Question 15's: whether a row's group is 0 to 7, its first frame at most its last and its value at most 128,000.
fn row_known(row: Row) -> bool
    ensures { result ≡ row_known (row_span row) }
{
    (row.group <= MOST_GROUP) & (row.first <= row.last) & (row.value <= MOST_VALUE)
}

// The place of a frame in the order of all groups' frames: 131,072 places for each group, of which the first 65,536 are frames.
pub fn place_of(group: u8, frame: u16) -> u32
    ensures { result ≡ place_of group frame }
{
    0x2_0000 * u32::from(group) + u32::from(frame)
}

// Questions 14 to 16, of row i; it may begin at place `least` or later.
#[tactic(auto, unfolding(model::specs::Slot::row_place))]
fn ask_row(slot: &[u8], i: usize, row: Row, least: u32) -> Answer<()>
    requires row_in_slot { HasRow slot.now i }
    requires row_read { row ≡ row_of_span (slot_row slot.now i) }
    requires least_of_row { least ≡ least_place slot.now i }
    ensures { asked_case result ≡ outcome (row_questions slot.now i) tt }
{
    if !marked(slot, place(i), 0x50, 0x52) {
        return no(Question::RowMark, i);
    }
    if !row_known(row) {
        return no(Question::RowFields, i);
    }
    if place_of(row.group, row.first) < least {
        return no(Question::RowOrder, i);
    }
    Ok(())
}

// Questions 14 to 16, row by row, of the first `count` rows. A row may begin behind the last frame of the row before.
fn ask_rows(slot: &[u8], count: usize) -> Answer<()>
    requires { HasRows slot.now count }
    ensures { asked_case result ≡ outcome (each (row_questions slot.now) 0 count) tt }
{
    let mut least: u32 = 0;
    for i in 0..count {
        let row = row(slot, i);
        ask_row(slot, i, row, least)?;
        least = place_of(row.group, row.last) + 1;
    }
    Ok(())
}

// Question 17's of the error, which is 0 where the rows are by windows.
fn error_known(slot: &[u8]) -> bool
    requires { HasHeader slot.now }
    ensures { result ≡ error_known slot.now }
{
    (slot[1] != BY_WINDOWS) | (eight(slot, 4) == 0)
}

// Asks a slot's questions: 1 and 11 to 17.
pub fn ask(slot: &[u8]) -> Answer<()>
    ensures { asked_case result ≡ outcome (slot_questions slot.now) tt }
{
    ask_header(slot)?;
    let count = count(slot);
    ask_rows(slot, count)?;
    if tail::is_zero(slot, place(count), SLOT_LENGTH) & error_known(slot) {
        Ok(())
    } else {
        no(Question::Rest, 0)
    }
}
