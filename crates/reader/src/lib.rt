// A slot is read, walked row by row and looked up. Each call asks the slot's questions first; a slot that is handed in may
// hold any bytes, of any length.
#![tactic(auto)]

ghost use Rattle.std.specs.Prelude.{◌≡◌, IfOk};
ghost use Rattle.model.specs.Common.{list_from, option_of};
ghost use Rattle.model.specs.Spans.{holds};
ghost use Rattle.model.specs.Slot.{slot_row, value_in};
ghost use Rattle.model.specs.Calls.{row_span, header_in, header_of, read_case, reading_case, read_outcome, read_rows};
ghost use Rattle.model.specs.Calls.{step_case, step_outcome, step_next, lookup_case, lookup_outcome};
ghost use Rattle.model.specs.Arrays.{row_array};
ghost use Rattle.slot.specs.Places.{HasHeader, HasRows};

use common::{eight, no, no_rows};
use model::{Answer, Header, MOST_GROUP, MOST_ROWS, Question, Reading, Row, Walked};

// Reads a slot's header: the mark's second byte, kind, error and row count.
pub fn header(slot: &[u8]) -> Answer<Header>
    ensures { read_case result ≡ read_outcome slot.now }
{
    slot::ask(slot)?;
    Ok(header_of(slot))
}

// Reads a slot: what its header says, and its rows.
pub fn read(slot: &[u8]) -> Answer<Reading>
    ensures says { reading_case result ≡ read_outcome slot.now }
    ensures rows { IfOk result (λ r. r.rows ≡ row_array (read_rows slot.now)) }
{
    slot::ask(slot)?;
    let header = header_of(slot);
    let rows = read_rows(slot, header.rows);
    Ok(Reading { header, rows })
}

// What the header of a slot says.
fn header_of(slot: &[u8]) -> Header
    requires { HasHeader slot.now }
    ensures { header_in result ≡ header_of slot.now }
{
    Header {
        mark: slot[1],
        kind: slot[2],
        error: eight(slot, 4),
        rows: slot::count(slot),
    }
}

// The first `count` rows of a slot, then rows of zeros.
fn read_rows(slot: &[u8], count: usize) -> [Row; MOST_ROWS]
    requires { HasRows slot.now count }
    ensures { result ≡ row_array (list_from 0 count (slot_row slot.now)) }
{
    let mut rows = no_rows();
    for i in 0..count {
        rows[i] = slot::row(slot, i);
    }
    rows
}

// One step of a walk: the row with this number and the number that comes next, or the end.
pub fn row_at(slot: &[u8], number: usize) -> Walked
    ensures { (step_case result.step ≡ step_outcome slot.now number) × (result.next ≡ step_next slot.now number) }
{
    match slot::ask(slot) {
        Err(refusal) => Walked {
            step: Err(refusal),
            next: number,
        },
        Ok(()) => {
            if number < slot::count(slot) {
                Walked {
                    step: Ok(Some(slot::row(slot, number))),
                    next: number + 1,
                }
            } else {
                Walked {
                    step: Ok(None),
                    next: number,
                }
            }
        }
    }
}

// The value of the row of a group that contains a frame.
pub fn lookup(slot: &[u8], group: u8, frame: u16) -> Answer<Option<u32>>
    ensures { lookup_case result ≡ lookup_outcome slot.now group frame }
{
    slot::ask(slot)?;
    if group > MOST_GROUP {
        return no(Question::Group, 0);
    }
    Ok(find(slot, slot::count(slot), group, frame))
}

// The value of the first row, of the first `count` of a slot, that is of a group and contains a frame.
// By place, and no slice of rows: rows are bytes here.
// One row after the other, as the slot's questions are asked of each; `lookups` halves, for many pairs.
fn find(slot: &[u8], count: usize, group: u8, frame: u16) -> Option<u32>
    requires { HasRows slot.now count }
    ensures { option_of result ≡ value_in (list_from 0 count (slot_row slot.now)) group frame }
{
    for next in 0..count {
        let row = slot::row(slot, next);
        if holds(row, group, frame) {
            return Some(row.value);
        }
    }
    None
}

// Whether a row is of a group and contains a frame.
fn holds(row: Row, group: u8, frame: u16) -> bool
    ensures { result ≡ holds (row_span row) group frame }
{
    (row.group == group) & (row.first <= frame) & (frame <= row.last)
}
