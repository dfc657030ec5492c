// A slot against its log: questions 1 and 25, the log's, the slot's as one by a bound, and then whether its rows cover just the covered frames (22),
// no row of kind 3 is below a covered value (23), and the error is the rows' squared error (24).
#![tactic(auto)]

ghost use Rattle.std.specs.Prelude.{◌≡◌, ◌≤◌, length};
ghost use Rattle.model.specs.Log.{records, value};
ghost use Rattle.model.specs.Slot.{by_bound, slot_kind, slot_error, slot_rows};
ghost use Rattle.model.specs.Questions.{outcome, marked, log_questions, slot_questions};
ghost use Rattle.model.specs.Calls.{asked_case, kind_number};
ghost use Rattle.model.specs.Check.{against_questions, bounded_questions, check_outcome};
ghost use Rattle.model.specs.Demands.{AllPass, CheckPromise};
ghost use Rattle.checker.specs.Found.{found_questions};

use common::{eight, is_width, no};
use compare::Compared;
use model::{Answer, BY_BOUND, Kind, Question, SLOT_LENGTH, Segments};

// Question 11's: whether the header's mark is that of rows by a bound.
// Two bytes one by one: a number would be no plainer.
#[tactic(auto, unfolding(model::specs::Questions::marked))]
fn by_bound(slot: &[u8]) -> bool
    requires { 768 ≤ length slot.now }
    ensures { result ≡ marked slot.now 0 0x50 by_bound }
{
    (slot[0] == 0x50) & (slot[1] == BY_BOUND)
}

// Questions 11 to 17 of a slot by a bound: its mark is asked ahead of what every slot is asked.
fn ask_bounded(slot: &[u8]) -> Answer<()>
    requires { 768 ≤ length slot.now }
    ensures { asked_case result ≡ outcome (bounded_questions slot.now) tt }
{
    if !by_bound(slot) {
        return no(Question::SlotMark, 0);
    }
    slot::ask(slot)
}

// Questions 22 to 24, from what was found of the rows: nothing where the frames covered differ.
fn ask_found(kind: Kind, error: u64, found: Option<Compared>) -> Answer<()>
    ensures { asked_case result ≡ outcome (found_questions (kind_number kind) error found) tt }
{
    let Some(rows) = found else {
        return no(Question::Coverage, 0);
    };
    if kind.is_greatest() & !rows.reaches {
        return no(Question::GreatestLoad, 0);
    }
    if error != rows.error {
        return no(Question::SlotError, 0);
    }
    Ok(())
}

// Questions 22 to 24, of a log and a slot that have passed theirs, with a memory of so many frames. A slot that has passed its questions
// has a kind.
fn ask_against(log: &[u8], width: u16, slot: &[u8]) -> Answer<()>
    requires log_passes { AllPass (log_questions log.now) }
    requires some_frames { 1 ≤ width }
    requires slot_passes { AllPass (slot_questions slot.now) }
    ensures { asked_case result ≡ outcome (against_questions (slot_kind slot.now) (slot_error slot.now) (slot_rows slot.now) (value (slot_kind slot.now) width (records log.now))) tt }
{
    let kind = Kind::of(slot[2]);
    let mut segments = Segments::none();
    segments::of_log(log, kind, width, &mut segments);
    let found = compare::with_segments(slot, &segments);
    ask_found(kind, eight(slot, 4), found)
}

// Asks whether a slot agrees with its log, by the values of a memory of so many frames.
pub fn check(log: &[u8], width: u16, slot: &[u8]) -> Answer<()>
    ensures says { asked_case result ≡ check_outcome width log.now slot.now }
    ensures promise { CheckPromise width log.now slot.now (asked_case result) }
{
    if slot.len() < SLOT_LENGTH {
        return no(Question::Room, 0);
    }
    if !is_width(width) {
        return no(Question::Width, 0);
    }
    load_log::ask(log)?;
    ask_bounded(slot)?;
    ask_against(log, width, slot)
}
