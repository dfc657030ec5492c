// The records of one group, and what they say of a stretch of frames, which may be one frame: where the next event behind its
// first frame comes, how many records meet it, and the value by the kind. An event is a record's first frame or the frame after
// its last, and a record meets a stretch if it holds some frame of it. The records of a group are put side by side first: the loops
// over them then have no branch, and the compiler works on eight records at a time. Arrays are lent and never copied.
#![tactic(auto)]

ghost use Rattle.std.specs.Prelude.{◌≡◌, ◌*◌, ◌/◌, ◌≤◌};

use model::{Kind, MOST_RECORDS, Records};

// A record of the group in hand.
#[derive(Clone, Copy)]
pub struct Own {
    pub first: u16,
    pub last: u16,
    pub load: u16,
}

// What is found of a stretch: the last frame before the next event behind its first frame, how many records meet it, and the sum
// of their loads.
#[derive(Clone, Copy)]
pub struct Here {
    pub stop: u16,
    pub count: u16,
    pub sum: u32,
}

// The records of one group, field by field. Places past the count hold what was there before.
#[derive(Clone, Copy)]
pub struct Group {
    pub firsts: [u16; MOST_RECORDS],
    pub lasts: [u16; MOST_RECORDS],
    pub loads: [u16; MOST_RECORDS],
    pub count: usize,
    pub ghost has_places: { count ≤ 128 },
}

impl Own {
    ghost use Rattle.std.specs.Prelude.{◌≡◌};
    ghost use Rattle.tally.specs.Tally.{held, stop_of};

    // Whether the record holds some frame of a to b.
    fn meets(self, a: u16, b: u16) -> bool
        ensures { result ≡ held a b self }
    {
        (self.first <= b) & (a <= self.last)
    }

    // The last frame up to which the record holds each frame from a on, or holds none of them.
    fn stop(self, a: u16) -> u16
        ensures { result ≡ stop_of a self }
    {
        if a < self.first {
            return self.first - 1;
        }
        if a <= self.last {
            return self.last;
        }
        u16::MAX
    }
}

impl Group {
    ghost use Rattle.std.specs.Prelude.{◌≡◌, [], ◌∷◌, ◌++◌, ◌+◌, ◌<◌, ◌≤◌, length};
    ghost use Rattle.std.specs.List.{FoldsTo};
    ghost use Rattle.std.proofs.Math.Option.{some};
    ghost use Rattle.model.specs.Log.{aggregated};
    ghost use Rattle.model.specs.Calls.{kind_number};
    ghost use Rattle.model.specs.Arrays.{records_in};
    ghost use Rattle.tally.specs.Tally.{own_in, owns_in, only_of, loads_at, loads_or, TakesUp, Survey};

    // No records.
    pub fn new() -> Group
        ensures { owns_in result ≡ [] }
    {
        Group {
            firsts: [0; MOST_RECORDS],
            lasts: [0; MOST_RECORDS],
            loads: [0; MOST_RECORDS],
            count: 0,
        }
    }

    // The record at a place.
    fn record_at(&self, index: usize) -> Own
        requires { index < 128 }
        ensures { result ≡ own_in self.now index }
    {
        Own {
            first: self.firsts[index],
            last: self.lasts[index],
            load: self.loads[index],
        }
    }

    // Puts a record behind the others.
    fn push(&mut self, record: Own)
        requires { self.old.count < 128 }
        ensures counted { self.new.count ≡ self.old.count + 1 }
        ensures put { owns_in self.new ≡ owns_in self.old ++ «record» ∷ [] }
    {
        self.firsts[self.count] = record.first;
        self.lasts[self.count] = record.last;
        self.loads[self.count] = record.load;
        self.count += 1;
    }

    // Puts the records of a group in the places of those that were here.
    pub fn select(&mut self, records: &Records, group: u8)
        requires { records.now.count ≤ 128 }
        ensures { owns_in self.new ≡ only_of group (records_in records.now) }
    {
        self.count = 0;
        for index in 0..records.count {
            if records.groups[index] == group {
                self.push(Own {
                    first: records.firsts[index],
                    last: records.lasts[index],
                    load: records.loads[index],
                });
            }
        }
    }

    // The last frame before the next event behind frame a, and the count and sum of the records that meet the frames a to b. The
    // sum is kept as those of the loads' lower and upper bytes, which both fit 16 bits.
    // The stretch is two frames and no struct: the definition of what a record meets takes two.
    pub fn survey(&self, a: u16, b: u16) -> Here
        ensures { Survey a b (owns_in self.now) result }
    {
        let mut stop = u16::MAX;
        let mut count: u16 = 0;
        let mut low: u16 = 0;
        let mut high: u16 = 0;
        // by index: three arrays are read at once, eight records at a time
        for index in 0..self.count {
            let record = self.record_at(index);
            let met = record.meets(a, b);
            let load = if met { record.load } else { 0 };
            stop = stop.min(record.stop(a));
            count += u16::from(met);
            low += load % 256;
            high += load / 256;
        }
        Here {
            stop,
            count,
            sum: u32::from(low) + 256 * u32::from(high),
        }
    }

    // What the loads of the records that meet the frames a to b come to, taken up one by one from a start that changes nothing.
    fn fold<F: Fn(u16, u16) -> u16>(&self, a: u16, b: u16, start: u16, take: F) -> u16
        requires { F.IsAlwaysCallable take }
        ensures { FoldsTo (TakesUp (F.post take)) start (loads_or start a b (owns_in self.now)) result }
    {
        let mut found = start;
        for index in 0..self.count {
            let record = self.record_at(index);
            let load = if record.meets(a, b) {
                record.load
            } else {
                start
            };
            found = take(found, load);
        }
        found
    }

    // The value of the frames a to b by the kind, where some record meets them.
    pub fn value_at(&self, kind: Kind, here: Here, a: u16, b: u16) -> u32
        requires surveyed { Survey a b (owns_in self.now) here }
        requires met { length (loads_at a b (owns_in self.now)) ≡ 0 → ⊥ }
        ensures { aggregated (kind_number kind) (loads_at a b (owns_in self.now)) ≡ some result }
    {
        match kind {
            Kind::Sum => here.sum,
            Kind::Count => u32::from(here.count),
            Kind::Least => u32::from(self.fold(a, b, u16::MAX, |x, y| x.min(y))),
            Kind::Greatest => u32::from(self.fold(a, b, 0, |x, y| x.max(y))),
            Kind::Mean => mean(here.sum, u32::from(here.count)),
            // no kind of the paper's: the definition gives 0
            Kind::Other(_) => 0,
        }
    }
}

// The mean of some loads in hundredths, rounded down, from their sum and their count.
fn mean(sum: u32, count: u32) -> u32
    requires { (sum ≤ 65535 * 128) × (count ≡ 0 → ⊥) }
    ensures { result ≡ 100 * sum / count }
{
    (100 * sum) / count
}
