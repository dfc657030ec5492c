// Whether bytes are all zero: question 17's test of what stands behind a slot's rows. Eight bytes at a time are gathered into a
// word; the words are or-ed together and compared once, so that no loop over them has a branch. The odd bytes behind the last
// whole word are compared singly.
#![tactic(auto)]

ghost use Rattle.std.specs.Prelude.{◌≡◌, ◌+◌, ◌-◌, ◌*◌, ◌≤◌, eqb, length};
ghost use Rattle.std.specs.List.{list_all};
ghost use Rattle.model.specs.Questions.{zeros};

use common::eight;

// The words of `count` blocks of 64 bytes, from place `at` on, or-ed together. The first word of every sixteen bytes goes into one
// word and the second into another, so that the compiler keeps the two in one register, and takes a block in one turn.
// The blocks are counted and no chunks of a slice: the words are read by their places, of which the promise speaks.
fn blocks(bytes: &[u8], at: usize, count: usize) -> u64
    requires { at + 64 * count ≤ length bytes.now }
    ensures { eqb result 0 ≡ zeros bytes.now at (64 * count) }
{
    let mut first: u64 = 0;
    let mut second: u64 = 0;
    for k in 0..count {
        for j in 0..4 {
            let i = at + 64 * k + 16 * j;
            first |= eight(bytes, i);
            second |= eight(bytes, i + 8);
        }
    }
    first | second
}

// The `count` words from place `at` on, or-ed together.
fn words(bytes: &[u8], at: usize, count: usize) -> u64
    requires { at + 8 * count ≤ length bytes.now }
    ensures { eqb result 0 ≡ zeros bytes.now at (8 * count) }
{
    let mut any: u64 = 0;
    for k in 0..count {
        any |= eight(bytes, at + 8 * k);
    }
    any
}

// Whether bytes are zero, one after the other.
fn singly(bytes: &[u8]) -> bool
    ensures { result ≡ list_all (λ b. eqb b 0) bytes.now }
{
    bytes.iter().all(|byte| *byte == 0)
}

// Whether the bytes from place `from` on, before place `to`, are zero.
pub fn is_zero(bytes: &[u8], from: usize, to: usize) -> bool
    requires { (from ≤ to) × (to ≤ length bytes.now) }
    ensures { result ≡ zeros bytes.now from (to - from) }
{
    let size = to - from;
    let whole_blocks = size / 64;
    // A remainder, so that the compiler knows that these words are fewer than eight.
    let whole_words = size % 64 / 8;
    let behind_blocks = from + 64 * whole_blocks;
    let odd = behind_blocks + 8 * whole_words;
    let any = blocks(bytes, from, whole_blocks) | words(bytes, behind_blocks, whole_words);
    (any == 0) & singly(&bytes[odd..to])
}
