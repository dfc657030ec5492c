// What several crates need: numbers of several bytes, least byte first, the place of a slot's row, a question's 'no', whether a width is
// known, and the slot and the rows in which nothing stands.
#![tactic(auto)]

ghost use Rattle.std.specs.Prelude.{◌≡◌, List, [], ◌++◌, ◌+◌, ◌≤◌, length, drop, replicate};
ghost use Rattle.model.specs.Common.{number_at};
ghost use Rattle.model.specs.Slot.{row_place};
ghost use Rattle.model.specs.Questions.{width_known};
ghost use Rattle.model.specs.Arrays.{row_array};

use model::{Answer, MOST_ROWS, MOST_WIDTH, Question, Refusal, Row, SLOT_LENGTH};

// Copies bytes to the front of a buffer that has room for them.
pub fn copy(from: &[u8], to: &mut [u8])
    requires { length from.now ≤ length to.old }
    ensures { to.new ≡ from.now ++ drop (length from.now) to.old }
{
    let n = from.len();
    to[..n].copy_from_slice(from);
}

// The number in the two bytes from place `at` on.
pub fn two(bytes: &[u8], at: usize) -> u16
    requires { at + 2 ≤ length bytes.now }
    ensures { result ≡ number_at 2 bytes.now at }
{
    u16::from_le_bytes([bytes[at], bytes[at + 1]])
}

// The number in the four bytes from place `at` on. This and the next are made of two of half as many bytes: eight places one by one are no
// plainer. Bytes are read by place, of which the definitions speak.
pub fn four(bytes: &[u8], at: usize) -> u32
    requires { at + 4 ≤ length bytes.now }
    ensures { result ≡ number_at 4 bytes.now at }
{
    let low = two(bytes, at);
    let high = two(bytes, at + 2);
    u32::from(low) + 0x1_0000 * u32::from(high)
}

// The number in the eight bytes from place `at` on.
pub fn eight(bytes: &[u8], at: usize) -> u64
    requires { at + 8 ≤ length bytes.now }
    ensures { result ≡ number_at 8 bytes.now at }
{
    let low = four(bytes, at);
    let high = four(bytes, at + 4);
    u64::from(low) + 0x1_0000_0000 * u64::from(high)
}

// The place of a slot's row i.
pub fn place(i: usize) -> usize
    requires { i ≤ 64 }
    ensures { result ≡ row_place i }
{
    12 + 11 * i
}

// A question's 'no'.
pub fn no<T>(question: Question, index: usize) -> Answer<T>
    ensures { result ≡ Err (record { question = question; index = index }) }
{
    Err(Refusal { question, index })
}

// Whether a memory can have this width.
pub fn is_width(width: u16) -> bool
    ensures { result ≡ width_known width }
{
    (width >= 1) & (width <= MOST_WIDTH)
}

// The bytes of a slot in which nothing stands.
pub fn no_slot() -> [u8; SLOT_LENGTH]
    ensures { result ≡ replicate 768 0 }
{
    [0u8; SLOT_LENGTH]
}

// 64 rows of zeros.
pub fn no_rows() -> [Row; MOST_ROWS]
    ensures { result ≡ row_array [] }
{
    let none = Row {
        group: 0,
        first: 0,
        last: 0,
        value: 0,
    };
    [none; MOST_ROWS]
}
