// An answer as text. Each function puts the bytes that specs/Text.antt says into a lent buffer, from a place on, and gives
// the place after them. `write!` would do, but its contract lets it fail and then tells no text, and these texts are promised
// whatever is printed.
// `out` and `at` are no struct: the clauses speak of the buffer before and after a call. No `From` leads from a count to 64 bits.
#![tactic(auto)]

ghost use Rattle.std.specs.Prelude.{◌≤◌, ◌≡◌, ◌++◌, [], ◌∷◌, map, length, take};
ghost use Rattle.model.specs.Calls.{number, query_case, row_span};
ghost use Rattle.model.specs.Arrays.{rows_in};
ghost use Rattle.text.specs.Text.{decimal, number_line, refusal_text, row_text, rows_text, answer_text};
ghost use Rattle.text.specs.Put.{Room, Put, row_count, answer_room, accepted_text};

use common::copy;
use itoa::Buffer;
use model::{Answer, MOST_ROWS, Refusal, Row, Written};

const SPACE: u8 = b' ';

const LINE_END: u8 = b'\n';

// One byte.
pub fn put_byte(out: &mut [u8], at: usize, byte: u8) -> usize
    requires { Room out.old at (byte ∷ []) }
    ensures { Put out.old at (byte ∷ []) out.new result }
{
    out[at] = byte;
    at + 1
}

// Some bytes.
pub fn put_bytes(out: &mut [u8], at: usize, bytes: &[u8]) -> usize
    requires { Room out.old at bytes.now }
    ensures { Put out.old at bytes.now out.new result }
{
    copy(bytes, &mut out[at..]);
    at + bytes.len()
}

// A number in decimal.
pub fn put_number(out: &mut [u8], at: usize, n: u64) -> usize
    requires { Room out.old at (decimal n) }
    ensures { Put out.old at (decimal n) out.new result }
{
    let mut buffer = Buffer::new();
    let digits = buffer.format(n);
    put_bytes(out, at, digits.as_bytes())
}

// A number and the byte after it, whichever. It stays public beside `put_line`, which ends with a line's end alone.
pub fn put_field(out: &mut [u8], at: usize, n: u64, end: u8) -> usize
    requires { Room out.old at (decimal n ++ (end ∷ [])) }
    ensures { Put out.old at (decimal n ++ (end ∷ [])) out.new result }
{
    let next = put_number(out, at, n);
    put_byte(out, next, end)
}

// A line of numbers.
pub fn put_line(out: &mut [u8], at: usize, first: u64, more: &[u64]) -> usize
    requires { Room out.old at (number_line first more.now) }
    ensures { Put out.old at (number_line first more.now) out.new result }
{
    let mut next = put_number(out, at, first);
    for n in more {
        next = put_byte(out, next, SPACE);
        next = put_number(out, next, *n);
    }
    put_byte(out, next, LINE_END)
}

// A refusal.
pub fn put_refusal(out: &mut [u8], at: usize, refusal: Refusal) -> usize
    requires { Room out.old at (refusal_text (number refusal.question) refusal.index) }
    ensures { Put out.old at (refusal_text (number refusal.question) refusal.index) out.new result }
{
    let question = u8::from(refusal.question);
    let next = put_bytes(out, at, b"no ");
    put_line(out, next, u64::from(question), &[refusal.index as u64])
}

// The line of a row.
pub fn put_row(out: &mut [u8], at: usize, row: Row) -> usize
    requires { Room out.old at (row_text (row_span row)) }
    ensures { Put out.old at (row_text (row_span row)) out.new result }
{
    let more = [
        u64::from(row.first),
        u64::from(row.last),
        u64::from(row.value),
    ];
    put_line(out, at, u64::from(row.group), &more)
}

// The lines of rows.
pub fn put_rows(out: &mut [u8], at: usize, rows: &[Row]) -> usize
    requires { Room out.old at (rows_text (map row_span rows.now)) }
    ensures { Put out.old at (rows_text (map row_span rows.now)) out.new result }
{
    let mut next = at;
    for row in rows {
        next = put_row(out, next, *row);
    }
    next
}

// The rows, error and weighed cuts of an accepted query, and the lines of its rows. The rows come by value: no type tells of lent
// structs that their numbers are small, which bounds the length of the text.
pub fn put_accepted(out: &mut [u8], written: Written, rows: [Row; MOST_ROWS]) -> usize
    requires { (written.rows ≤ 64) × (answer_room ≤ length out.old) }
    ensures { Put out.old 0 (accepted_text rows written) out.new result }
{
    let count = written.rows;
    let next = put_line(out, 0, count as u64, &[written.error, written.weighed]);
    put_rows(out, next, &rows[..count])
}

// The answer of a query, from the buffer's start on, with the first of these rows as the answer's.
pub fn put_answer(out: &mut [u8], answer: Answer<Written>, rows: [Row; MOST_ROWS]) -> usize
    requires { (row_count (query_case answer) ≤ 64) × (answer_room ≤ length out.old) }
    ensures { (result ≤ length out.new)
        × (take result out.new ≡ answer_text (query_case answer) (rows_in rows (row_count (query_case answer)))) }
{
    match answer {
        Ok(written) => put_accepted(out, written, rows),
        Err(refusal) => put_refusal(out, 0, refusal),
    }
}
