// The reader into a lent list of rows: the slot is read first, and its rows are then copied into the list.
ghost use Rattle.std.specs.Prelude.{◌≡◌, length};
ghost use Rattle.model.specs.Calls.{read_case, read_list_outcome, read_list};

use common::no;
use model::{Answer, Header, MOST_ROWS, Question, Row};

// The header of a slot, and its rows in the first places of a list of 64 or more.
pub fn read_into(slot: &[u8], list: &mut [Row]) -> Answer<Header>
    ensures says { read_case result ≡ read_list_outcome slot.now (length list.old) }
    ensures holds { list.new ≡ read_list slot.now list.old }
{
    if list.len() < MOST_ROWS {
        return no(Question::Room, 0);
    }
    let reading = reader::read(slot)?;
    let count = reading.header.rows;
    list[..count].copy_from_slice(&reading.rows[..count]);
    Ok(reading.header)
}
