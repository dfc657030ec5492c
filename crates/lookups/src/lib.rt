// Many lookups as a set: pairs of group and frame, given as two lists, are answered into two lent lists, one of values and one of
// covered or not. Every question is asked before a place is written, so that a refusal leaves both lists as they were. The slot is
// asked once; its rows are in order once it has passed, and each pair's row is then found by halving.
#![tactic(auto)]

ghost use Rattle.std.specs.Prelude.{◌≡◌, [], ◌∷◌, leb, length};
ghost use Rattle.model.specs.Common.{option_of};
ghost use Rattle.model.specs.Slot.{slot_rows, value_in};
ghost use Rattle.model.specs.Questions.{ask, outcome, each, slot_questions};
ghost use Rattle.model.specs.Calls.{asked_case};
ghost use Rattle.model.specs.Lookups.{most_pairs, pair_questions, ahead_of_groups, lookups_outcome, value_shown, covered_shown, pairs_shown, lookups_values, lookups_covered};
ghost use Rattle.model.specs.Demands.{AllPass, LongEnough, LookupsPromise};
ghost use Rattle.slot.specs.Places.{HasRows};
ghost use Rattle.lookups.specs.Ends.{EndInOrder, Reached};

use common::no;
use model::{Answer, MOST_GROUP, MOST_PAIRS, Question};
use slot::place_of;
use std::hint::select_unpredictable;

// Question 7 of one pair after the other.
fn ask_groups(groups: &[u8]) -> Answer<()>
    ensures { asked_case result ≡ outcome (each (pair_questions groups.now) 0 (length groups.now)) tt }
{
    for (i, group) in groups.iter().enumerate() {
        if *group > MOST_GROUP {
            return no(Question::Group, i);
        }
    }
    Ok(())
}

// Question 26.
fn ask_count(pairs: usize) -> Answer<()>
    ensures { asked_case result ≡ outcome (ask 26 0 (leb pairs most_pairs) ∷ []) tt }
{
    if pairs > MOST_PAIRS {
        return no(Question::PairCount, 0);
    }
    Ok(())
}

// The questions ahead of 7, of so many pairs and of lists of frames, values and flags with so many places.
fn ask(slot: &[u8], pairs: usize, frames: usize, values: usize, covered: usize) -> Answer<()>
    ensures { asked_case result ≡ outcome (ahead_of_groups slot.now pairs frames values covered) tt }
{
    if !((pairs <= frames) & (pairs <= values) & (pairs <= covered)) {
        return no(Question::Room, 0);
    }
    slot::ask(slot)?;
    ask_count(pairs)
}

// The number of the first of a slot's first `count` rows that does not end before a place, in the order of all groups' frames, and
// `count` where all do. The rows end in that order, so that a row in the middle tells which half to go on with. Both halves are taken to
// be equally long, and so the turns do not depend on what is found.
// The library's `partition_point` goes over a slice of rows, and these are read from bytes: a slice of them would be 64 rows more to decode.
fn reach(slot: &[u8], count: usize, place: u32) -> usize
    requires rows_of_slot { HasRows slot.now count }
    requires end_in_order { EndInOrder slot.now count }
    ensures { Reached slot.now count place result }
{
    let mut at: usize = 0;
    let mut size = count;
    while size > 0 {
        let half = size - size / 2;
        let row = slot::row(slot, at + half - 1);
        at = select_unpredictable(place_of(row.group, row.last) < place, at + half, at);
        size = size / 2;
    }
    at
}

// The value that the rows of a slot that has passed its questions have for a group and a frame.
fn look(slot: &[u8], group: u8, frame: u16) -> Option<u32>
    requires { AllPass (slot_questions slot.now) }
    ensures { option_of result ≡ value_in (slot_rows slot.now) group frame }
{
    let count = slot::count(slot);
    let place = place_of(group, frame);
    let at = reach(slot, count, place);
    if at < count {
        let row = slot::row(slot, at);
        if place_of(row.group, row.first) <= place {
            return Some(row.value);
        }
    }
    None
}

// Writes what the slot's rows say of each pair to the first places of both lists. Four lists go by one index: they are as long as they are
// handed in, and only their first places are read and written.
fn fill(slot: &[u8], groups: &[u8], frames: &[u16], values: &mut [u32], covered: &mut [u8])
    requires all_pass { AllPass (slot_questions slot.now) }
    requires long_enough { LongEnough (length groups.now) (length frames.now) (length values.old) (length covered.old) }
    ensures values_after { values.new ≡ pairs_shown value_shown slot.now groups.now frames.now values.old }
    ensures covered_after { covered.new ≡ pairs_shown covered_shown slot.now groups.now frames.now covered.old }
{
    let pairs = groups.len();
    for i in 0..pairs {
        let value = look(slot, groups[i], frames[i]);
        values[i] = value.unwrap_or(0);
        covered[i] = u8::from(value.is_some());
    }
}

// Looks up every pair of group and frame, or tells which question refused it and writes nothing.
pub fn look_up(
    slot: &[u8],
    groups: &[u8],
    frames: &[u16],
    values: &mut [u32],
    covered: &mut [u8],
) -> Answer<()>
    ensures says { asked_case result ≡ lookups_outcome slot.now groups.now (length frames.now) (length values.old) (length covered.old) }
    ensures found { values.new ≡ lookups_values slot.now groups.now frames.now values.old covered.old }
    ensures flagged { covered.new ≡ lookups_covered slot.now groups.now frames.now values.old covered.old }
    ensures promise { LookupsPromise slot.now groups.now frames.now values.old covered.old (asked_case result) values.new covered.new }
{
    ask(
        slot,
        groups.len(),
        frames.len(),
        values.len(),
        covered.len(),
    )?;
    ask_groups(groups)?;
    fill(slot, groups, frames, values, covered);
    Ok(())
}
