// Twin records: which records of a log have the same nine bytes as an earlier one, and the log without them. The last eight bytes
// of a record are one number, its key, and of two records that begin with the same byte the keys tell whether they are equal. A key
// is looked up by its remainder, and compared with all of those ahead of it, in a loop without a branch, only where another key has the
// same remainder.
#![tactic(auto)]

ghost use Rattle.std.specs.Prelude.{◌≡◌, ◌++◌, ◌+◌, ◌<◌, ◌≤◌, length, drop};
ghost use Rattle.model.specs.Common.{joined};
ghost use Rattle.model.specs.Log.{record_part, firsts_of};
ghost use Rattle.model.specs.Questions.{outcome, each, twin_questions};
ghost use Rattle.model.specs.Calls.{asked_case};
ghost use Rattle.twins.specs.Keys.{HasRecord, HasRecords, Begun, key_of, new_in, Noted};

use common::{copy, eight, no};
use model::{Answer, Question, RECORD_LENGTH};

// The places of remainders: a prime number, so that keys which differ by a fixed number have many remainders.
const PLACES: usize = 1021;

// The key of the record with this index.
// What is asked of a log's length has a name and no type: a lent slice may have any length.
fn key(log: &[u8], index: usize) -> u64
    requires { HasRecord log.now index }
    ensures { result ≡ key_of log.now index }
{
    eight(log, RECORD_LENGTH * index + 1)
}

// Whether the key of a record is equal to none of those ahead of it. An iterator's `all` would branch at each key, and a `fold` is no
// plainer than the loop.
fn differs(log: &[u8], index: usize) -> bool
    requires { HasRecord log.now index }
    ensures { result ≡ new_in log.now index }
{
    let own = key(log, index);
    let mut new = true;
    for i in 0..index {
        let other = key(log, i);
        new = new & (other != own);
    }
    new
}

// The same by the firsts: the place of a remainder holds 1 more than the index of a record whose key has it, and 0 if no key ahead
// has it. Afterwards the place of the key's own remainder is not 0. A place is one byte: an `Option` would take two, of the stack that
// the calls promise to need.
fn is_new(log: &[u8], firsts: &mut [u8; PLACES], index: usize) -> bool
    requires small { index < 128 }
    requires has_record { HasRecord log.now index }
    requires noted_ahead { Noted log.now index firsts.old }
    ensures tells { result ≡ new_in log.now index }
    ensures noted { Noted log.now (index + 1) firsts.new }
{
    let own = key(log, index);
    // no `From` narrows; a remainder is below 1,021
    let place = (own % PLACES as u64) as usize;
    let first = usize::from(firsts[place]);
    if first == 0 {
        // no `From` narrows; there are at most 128 records
        firsts[place] = (index + 1) as u8;
        return true;
    }
    if key(log, first - 1) == own {
        return false;
    }
    differs(log, index)
}

// Question 21 of one record after the other, of the first `count`, which begin with the same byte.
// A log stays bytes and a count: the definitions speak of places in the log.
pub fn ask(log: &[u8], count: usize) -> Answer<()>
    requires few { count ≤ 128 }
    requires has_records { HasRecords log.now count }
    requires begun { Begun log.now count }
    ensures { asked_case result ≡ outcome (each (twin_questions log.now) 0 count) tt }
{
    let mut firsts = [0u8; PLACES];
    for index in 0..count {
        if !is_new(log, &mut firsts, index) {
            return no(Question::Twin, index);
        }
    }
    Ok(())
}

// Writes the first of equal records and the others in their order to the front of a buffer, of the first `count`, which begin with the
// same byte, and tells how many bytes they are.
pub fn keep(log: &[u8], count: usize, buffer: &mut [u8]) -> usize
    requires few { count ≤ 128 }
    requires has_records { HasRecords log.now count }
    requires begun { Begun log.now count }
    requires room { HasRecords buffer.old count }
    ensures tells { result ≡ length (joined (record_part log.now) (firsts_of log.now count)) }
    ensures written { buffer.new ≡ joined (record_part log.now) (firsts_of log.now count) ++ drop result buffer.old }
{
    let mut firsts = [0u8; PLACES];
    let mut at: usize = 0;
    for index in 0..count {
        let new = is_new(log, &mut firsts, index);
        if new {
            let from = RECORD_LENGTH * index;
            copy(&log[from..from + RECORD_LENGTH], &mut buffer[at..]);
            at += RECORD_LENGTH;
        }
    }
    at
}
