// What the program prints, from what it reads: a query and its log as bytes, and the answer as text.
#![tactic(auto)]

ghost use Rattle.std.specs.Prelude.{◌≡◌, ◌≤◌, length, take};
ghost use Rattle.model.specs.Calls.{number};
ghost use Rattle.text.specs.Text.{refusal_text};
ghost use Rattle.pacer.specs.Promises.{rows_given};
ghost use Rattle.report.specs.Report.{query_text, profile_text};

use common::{no_rows, no_slot, two};
use model::{Answer, MOST_ROWS, Question, Reading, Refusal, Row};

// The text of a refusal ahead of all questions.
fn refuse(question: Question, out: &mut [u8; 4096]) -> usize
    ensures { (result ≤ length out.new) × (take result out.new ≡ refusal_text (number question) 0) }
{
    text::put_refusal(out, 0, Refusal { question, index: 0 })
}

// The rows that were read, or rows of zeros.
fn rows_of(read: Answer<Reading>) -> [Row; MOST_ROWS]
    ensures { result ≡ rows_given read }
{
    match read {
        Ok(reading) => reading.rows,
        Err(_) => no_rows(),
    }
}

// The text of the answer to a query, whose rows are read back from its slot.
fn answer(kind: u8, letter: u8, bound: u16, log: &[u8], out: &mut [u8; 4096]) -> usize
    ensures { (result ≤ length out.new) × (take result out.new ≡ query_text kind letter bound log.now) }
{
    let mut slot = no_slot();
    let answer = pacer::query_by_letter(kind, letter, bound, 1, log, &mut slot);
    let read = pacer::read(&slot);
    let rows = rows_of(read);
    text::put_answer(out, answer, rows)
}

// The text that the program prints, from the buffer's start on: how many bytes it has.
pub fn report(input: &[u8], out: &mut [u8; 4096]) -> usize
    ensures counts { (result ≤ length out.new) × (result ≡ length (take result out.new)) }
    ensures prints { take result out.new ≡ profile_text input.now }
{
    if input.len() > 65536 {
        return refuse(Question::RecordCount, out);
    }
    if input.len() < 4 {
        return refuse(Question::Kind, out);
    }
    let log = &input[4..];
    answer(input[0], input[1], two(input, 2), log, out)
}
