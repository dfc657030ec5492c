// A slot is laid out: header, rows and zeros in an array of bytes, and the array stored in a lent slot.
#![tactic(auto)]

ghost use Rattle.std.specs.Prelude.{◌≡◌, ◌∷◌, ◌++◌, ◌≤◌, length, drop};
ghost use Rattle.model.specs.Common.{bytes_of};
ghost use Rattle.model.specs.Slot.{row_bytes, slot_bytes};
ghost use Rattle.model.specs.Calls.{row_span};
ghost use Rattle.model.specs.Arrays.{rows_in};

use common::{copy, no_slot, place};
use model::{MOST_ROWS, Row, SLOT_LENGTH};

// A slot's header: mark, whose second byte is given, kind, row count and error.
// Byte by byte, as the layout has them: slices put one behind the other would be no plainer.
fn header_bytes(mark: u8, kind: u8, count: usize, error: u64) -> [u8; 12]
    requires { count ≤ 64 }
    ensures { result ≡ 0x50 ∷ mark ∷ kind ∷ count ∷ bytes_of 8 error }
{
    let error = error.to_le_bytes();
    [
        0x50,
        mark,
        kind,
        // no `From` narrows; the clause bounds the count
        count as u8,
        error[0],
        error[1],
        error[2],
        error[3],
        error[4],
        error[5],
        error[6],
        error[7],
    ]
}

// A row: mark, group, first and last frame and value.
fn row_bytes(row: Row) -> [u8; 11]
    ensures { result ≡ row_bytes (row_span row) }
{
    let first = row.first.to_le_bytes();
    let last = row.last.to_le_bytes();
    let value = row.value.to_le_bytes();
    [
        0x50, 0x52, row.group, first[0], first[1], last[0], last[1], value[0], value[1], value[2],
        value[3],
    ]
}

// The slot of a mark's second byte, a kind, an error and the first `count` rows.
#[tactic(auto, unfolding(model::specs::Slot::row_place))]
// The kind is a byte of the header, and the rows are the first of 64 places: the clause speaks of both so.
// Mark, kind, error and count are no `Header`: a header is what a slot that is read says.
pub fn layout(
    mark: u8,
    kind: u8,
    error: u64,
    rows: [Row; MOST_ROWS],
    count: usize,
) -> [u8; SLOT_LENGTH]
    requires { count ≤ 64 }
    ensures { result ≡ slot_bytes mark kind error (rows_in rows count) }
{
    let mut slot = no_slot();
    let header = header_bytes(mark, kind, count, error);
    copy(&header, &mut slot);
    for i in 0..count {
        let row = row_bytes(rows[i]);
        let at = place(i);
        copy(&row, &mut slot[at..]);
    }
    slot
}

// Copies a slot into the first 768 bytes of a lent one.
pub fn store(bytes: [u8; SLOT_LENGTH], slot: &mut [u8])
    requires { 768 ≤ length slot.old }
    ensures { slot.new ≡ bytes ++ drop 768 slot.old }
{
    copy(&bytes, slot);
}
