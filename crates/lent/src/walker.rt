// The walker: a struct that holds a slot and the number of the row that comes next. It hands out row after row and then the
// end, again and again, and asks the slot's questions at every step.
ghost use Rattle.std.specs.Prelude.{◌≡◌};
ghost use Rattle.model.specs.Calls.{step_case, step_outcome, step_next};
ghost use Rattle.lent.specs.Walk.{number_after};

use model::Step;

#[derive(Clone, Copy)]
pub struct Walker<'a> {
    pub slot: &'a [u8],
    pub next: usize,
}

impl<'a> Walker<'a> {
    // A walker at a slot's first row.
    pub fn new(slot: &'a [u8]) -> Walker<'a>
        ensures { (result.slot ≡ slot.entry) × (result.next ≡ 0) }
    {
        Walker { slot, next: 0 }
    }

    // The next row, or the end.
    pub fn step(&mut self) -> Step
        ensures same_slot { self.new.slot ≡ self.old.slot }
        ensures goes_on { self.new.next ≡ step_next self.old.slot.now self.old.next }
        ensures says { step_case result ≡ step_outcome self.old.slot.now self.old.next }
    {
        let walked = reader::row_at(self.slot, self.next);
        self.next = walked.next;
        walked.step
    }
}

// A walker's answer after so many steps from a slot's first row.
pub fn walked(slot: &[u8], steps: usize) -> Step
    ensures { step_case result ≡ step_outcome slot.now (number_after slot.now steps) }
{
    let mut walker = Walker::new(slot);
    for _ in 0..steps {
        let _ = walker.step();
    }
    walker.step()
}
