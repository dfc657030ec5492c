// Span temporal aggregation: from a log's records to rows by windows, group by group and window by window. Windows that no record
// of a group meets are passed over together, from one event of the group to the next. Arrays of records are lent and never copied.
#![tactic(auto)]

ghost use Rattle.std.specs.Prelude.{◌≡◌, ◌<◌, ◌≤◌, min};
ghost use Rattle.model.specs.Windows.{beat, beat_count, window_count, window_at, windows, span_rows};
ghost use Rattle.model.specs.Calls.{kind_number};
ghost use Rattle.model.specs.Arrays.{records_in};
ghost use Rattle.windows.specs.Listed.{Known, as_window, Lists, Skips};

use common::no_rows;
use model::{Kind, MOST_GROUP, MOST_ROWS, Records, Row, Rule, RuledQuery};
use rules::bound_in;
use tally::Group;

// Rows of windows, and how many they are.
#[derive(Clone, Copy)]
pub struct Listing {
    pub rows: [Row; MOST_ROWS],
    pub count: usize,
}

// From a first frame to a last one.
#[derive(Clone, Copy)]
pub struct Stretch {
    pub first: u16,
    pub last: u16,
}

// A frame, or 65,535 where it would lie behind that.
fn cut_off(frame: usize) -> u16
    ensures { result ≡ min frame 65535 }
{
    u16::try_from(frame).unwrap_or(u16::MAX)
}

// How many windows begin at a frame, of those every `length` frames from frame `start` on.
// That the length is at least 1 is one inequality, and `Known` one definition, of a query that is lent whole: no type.
fn count_beats(length: u16, start: u16) -> usize
    requires { 0 < length }
    ensures { result ≡ beat_count length start }
{
    (65536 - usize::from(start) + (usize::from(length) - 1)) / usize::from(length)
}

// How many windows a query has.
fn count_windows(query: &RuledQuery) -> usize
    requires { Known query.now }
    ensures { result ≡ window_count query.now.rule }
{
    match query.rule {
        Rule::Rows(_) | Rule::Share(_) => 0,
        Rule::Every { length, start } => count_beats(length, start),
        Rule::Scenes(count) => count,
    }
}

// Window i of those every `length` frames from frame `start` on: the last of them is cut off at 65,535.
fn beat(length: u16, start: u16, i: usize) -> Stretch
    requires { (0 < length) × (i < beat_count length start) }
    ensures { as_window result ≡ beat length start i }
{
    let first = usize::from(start) + usize::from(length) * i;
    Stretch {
        first: cut_off(first),
        last: cut_off(first + (usize::from(length) - 1)),
    }
}

// Window i of a query, which is lent, since its scenes would be copied at each window.
fn window(query: &RuledQuery, i: usize) -> Stretch
    requires { Known query.now × (i < window_count query.now.rule) }
    ensures { as_window result ≡ window_at query.now i }
{
    match query.rule {
        // a bound has no windows: never asked for, since its rows are given ahead of the loops
        Rule::Rows(_) | Rule::Share(_) => Stretch { first: 0, last: 0 },
        Rule::Every { length, start } => beat(length, start, i),
        Rule::Scenes(_) => Stretch {
            first: query.firsts[i],
            last: query.lasts[i],
        },
    }
}

// The window to go on with behind window i of n, every `length` frames from frame `start` on, where the next event comes right
// after frame `stop`: the one that holds the event. A record that ended before it began could have its event in window i itself:
// no log that passes its questions has one, and the rows are right with it too.
fn next_beat(length: u16, start: u16, stop: u16, i: usize, n: usize) -> usize
    requires { (0 < length) × (i < n) × (n ≡ beat_count length start) × (start ≤ stop) }
    ensures { Skips (beat length start) stop i n result }
{
    if stop == u16::MAX {
        return n;
    }
    let next = (usize::from(stop) + 1 - usize::from(start)) / usize::from(length);
    next.max(i + 1)
}

// The window to go on with behind window i of n, which no record meets, where the next event behind its first frame comes right
// after frame `stop`: no record meets those in between.
fn next(query: &RuledQuery, stop: u16, i: usize, n: usize) -> usize
    requires { Known query.now × (i < n) × (n ≡ window_count query.now.rule) × ((window_at query.now i).first ≤ stop) }
    ensures { Skips (window_at query.now) stop i n result }
{
    match query.rule {
        Rule::Rows(_) | Rule::Share(_) => n,
        Rule::Every { length, start } => next_beat(length, start, stop, i, n),
        Rule::Scenes(_) => i + 1,
    }
}

// The rows of records by a query's windows, by group and then by window: none where they are more than 64, which have no place. A
// turn of the inner loop gives a row, or passes over all windows up to the group's next event. Both loops stand in one function, so
// that the rows are put in their places and not copied. A bound has no windows: it is asked for once, ahead of the loops, so that the
// compiler does not ask for it again at each window.
pub fn rows(records: &Records, kind: Kind, query: RuledQuery) -> Option<Listing>
    requires has_places { records.now.count ≤ 128 }
    requires known { Known query }
    ensures { Lists result (span_rows (kind_number kind) (records_in records.now) (windows query)) }
{
    let mut rows = no_rows();
    if bound_in(query.rule).is_some() {
        return Some(Listing { rows, count: 0 });
    }
    let n = count_windows(&query);
    let mut own = Group::new();
    let mut made: usize = 0;
    for group in 0..MOST_GROUP + 1 {
        own.select(records, group);
        let mut i: usize = 0;
        // no `for`: a turn may pass over many windows
        while i < n {
            let frames = window(&query, i);
            let here = own.survey(frames.first, frames.last);
            if here.count == 0 {
                i = next(&query, here.stop, i, n);
                continue;
            }
            if made >= MOST_ROWS {
                return None;
            }
            rows[made] = Row {
                group,
                first: frames.first,
                last: frames.last,
                value: own.value_at(kind, here, frames.first, frames.last),
            };
            made += 1;
            i += 1;
        }
    }
    Some(Listing { rows, count: made })
}
