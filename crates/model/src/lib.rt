// The data that crosses crates: log records, segments, rows, queries and the answers of the tool's calls.
// What they mean stands in specs/, where `Demands` states what the tool owes its user.
#![tactic(auto)]

ghost use Rattle.std.specs.Prelude.{◌≡◌, ◌<◌, [], eqb};
ghost use Rattle.model.specs.Log.{greatest_kind};
ghost use Rattle.model.specs.Calls.{rule_of, number, kind_number, segment_of, IsKind};
ghost use Rattle.model.specs.Arrays.{segment_in, record_arrays, segment_arrays};

pub mod other;

use other::{OtherKind, OtherQuestion};

// The paper's limits.

// The greatest kind of a query or a slot.
pub const MOST_KIND: u8 = 4;

// The greatest group.
pub const MOST_GROUP: u8 = 7;

// The greatest load of a record.
pub const MOST_LOAD: u16 = 1000;

// The bytes of a log record, and the most records of a log.
pub const RECORD_LENGTH: usize = 9;

pub const MOST_RECORDS: usize = 128;

// The places that a lent list of segments needs.
pub const MOST_SEGMENTS: usize = 255;

// The most rows of a slot, and the greatest share, in thousandths.
pub const MOST_ROWS: usize = 64;

pub const MOST_SHARE: u16 = 1000;

// The greatest value of a row.
pub const MOST_VALUE: u32 = 128_000;

// The greatest width of a memory, in frames.
pub const MOST_WIDTH: u16 = 4096;

// The bytes of a slot.
pub const SLOT_LENGTH: usize = 768;

// The second byte of a slot's header, which tells how its rows were made: by a bound, or by windows.
pub const BY_BOUND: u8 = 0x48;

pub const BY_WINDOWS: u8 = 0x53;

// The most scenes of a query.
pub const MOST_SCENES: usize = 16;

// The most pairs of group and frame that are looked up as a set.
pub const MOST_PAIRS: usize = 64;

// A log record: the load of a group over the frames first to last, both included, in thousandths of a frame's time.
#[derive(Clone, Copy)]
pub struct Record {
    pub group: u8,
    pub first: u16,
    pub last: u16,
    pub load: u16,
}

// A longest stretch of covered frames of one group with equal value.
#[repr(C)]
#[derive(Clone, Copy)]
pub struct Segment {
    pub group: u8,
    pub first: u16,
    pub last: u16,
    pub value: u32,
}

// The records of a log, field by field. Places past the count are zeros.
#[derive(Clone, Copy)]
pub struct Records {
    pub groups: [u8; MOST_RECORDS],
    pub firsts: [u16; MOST_RECORDS],
    pub lasts: [u16; MOST_RECORDS],
    pub loads: [u16; MOST_RECORDS],
    pub count: usize,
}

impl Records {
    // No records.
    pub fn none() -> Records
        ensures { result ≡ record_arrays [] }
    {
        Records {
            groups: [0; MOST_RECORDS],
            firsts: [0; MOST_RECORDS],
            lasts: [0; MOST_RECORDS],
            loads: [0; MOST_RECORDS],
            count: 0,
        }
    }
}

// Segments, field by field. Places past the count are zeros.
#[derive(Clone, Copy)]
pub struct Segments {
    pub groups: [u8; MOST_SEGMENTS],
    pub firsts: [u16; MOST_SEGMENTS],
    pub lasts: [u16; MOST_SEGMENTS],
    pub values: [u32; MOST_SEGMENTS],
    pub count: usize,
}

impl Segments {
    // No segments.
    pub fn none() -> Segments
        ensures { result ≡ segment_arrays [] }
    {
        Segments {
            groups: [0; MOST_SEGMENTS],
            firsts: [0; MOST_SEGMENTS],
            lasts: [0; MOST_SEGMENTS],
            values: [0; MOST_SEGMENTS],
            count: 0,
        }
    }

    // The segment at a place.
    pub fn at(&self, index: usize) -> Segment
        requires { index < 255 }
        ensures { result ≡ segment_of (segment_in self.now index) }
    {
        Segment {
            group: self.groups[index],
            first: self.firsts[index],
            last: self.lasts[index],
            value: self.values[index],
        }
    }
}

// A row of a slot: a block of adjacent segments with its row value.
// A row and a segment are two structs of the C header.
#[repr(C)]
#[derive(Clone, Copy)]
pub struct Row {
    pub group: u8,
    pub first: u16,
    pub last: u16,
    pub value: u32,
}

// What limits the rows of an answer: their number, or their error in thousandths of the least error of the fewest rows.
#[derive(Clone, Copy)]
pub enum Bound {
    Rows(u16),
    Share(u16),
}

// A query by a bound. The width is that of its memory: how many of the last frames, the frame itself included, a frame's value is
// made of.
// The kind is a byte: a query is put together ahead of question 2.
#[derive(Clone, Copy)]
pub struct Query {
    pub kind: u8,
    pub bound: Bound,
    pub width: u16,
}

// What an answer's rows are made by: a bound, as above, or windows, which are every `length` frames from frame `start` on, or so
// many scenes.
// A bound is no variant of its own here: the paper names a query's enum field with Rows and Share.
#[derive(Clone, Copy)]
pub enum Rule {
    Rows(u16),
    Share(u16),
    Every { length: u16, start: u16 },
    Scenes(usize),
}

// The rule that a bound is.
impl From<Bound> for Rule {
    ghost from_gives = { λ bound rule. rule ≡ rule_of bound };

    fn from(bound: Bound) -> Rule {
        match bound {
            Bound::Rows(c) => Rule::Rows(c),
            Bound::Share(p) => Rule::Share(p),
        }
    }
}

// A query by any rule. The width of its memory is read for bounds alone. The first and last frames of its scenes stand beside the
// rule, and are read for scenes alone.
// Its kind is a byte for the same reason, and the frames are two lists since the C interface lends two.
#[derive(Clone, Copy)]
pub struct RuledQuery {
    pub kind: u8,
    pub rule: Rule,
    pub width: u16,
    pub firsts: [u16; MOST_SCENES],
    pub lasts: [u16; MOST_SCENES],
}

// The questions, in the order of the paper's numbers, 1 to 26. No call is refused with another number, but what is said of refusals is said
// of every number.
#[derive(Clone, Copy, PartialEq, Eq)]
pub enum Question {
    Room,
    Kind,
    Bound,
    LogLength,
    RecordCount,
    RecordMark,
    Group,
    FrameOrder,
    Load,
    EnoughRows,
    SlotMark,
    SlotKind,
    RowCount,
    RowMark,
    RowFields,
    RowOrder,
    Rest,
    WindowLength,
    Scenes,
    WindowRows,
    Twin,
    Coverage,
    GreatestLoad,
    SlotError,
    Width,
    PairCount,
    Other(OtherQuestion),
}

impl Question {
    // The question of a number.
    pub fn of(n: u8) -> Question
        ensures { number result ≡ n }
    {
        match n {
            1 => Question::Room,
            2 => Question::Kind,
            3 => Question::Bound,
            4 => Question::LogLength,
            5 => Question::RecordCount,
            6 => Question::RecordMark,
            7 => Question::Group,
            8 => Question::FrameOrder,
            9 => Question::Load,
            10 => Question::EnoughRows,
            11 => Question::SlotMark,
            12 => Question::SlotKind,
            13 => Question::RowCount,
            14 => Question::RowMark,
            15 => Question::RowFields,
            16 => Question::RowOrder,
            17 => Question::Rest,
            18 => Question::WindowLength,
            19 => Question::Scenes,
            20 => Question::WindowRows,
            21 => Question::Twin,
            22 => Question::Coverage,
            23 => Question::GreatestLoad,
            24 => Question::SlotError,
            25 => Question::Width,
            26 => Question::PairCount,
            0 | 27..=u8::MAX => Question::Other(OtherQuestion { number: n }),
        }
    }
}

// The paper's number of a question.
impl From<Question> for u8 {
    ghost from_gives = { λ question n. n ≡ number question };

    fn from(question: Question) -> u8 {
        // each case is the conversion itself
        match question {
            Question::Room => 1,
            Question::Kind => 2,
            Question::Bound => 3,
            Question::LogLength => 4,
            Question::RecordCount => 5,
            Question::RecordMark => 6,
            Question::Group => 7,
            Question::FrameOrder => 8,
            Question::Load => 9,
            Question::EnoughRows => 10,
            Question::SlotMark => 11,
            Question::SlotKind => 12,
            Question::RowCount => 13,
            Question::RowMark => 14,
            Question::RowFields => 15,
            Question::RowOrder => 16,
            Question::Rest => 17,
            Question::WindowLength => 18,
            Question::Scenes => 19,
            Question::WindowRows => 20,
            Question::Twin => 21,
            Question::Coverage => 22,
            Question::GreatestLoad => 23,
            Question::SlotError => 24,
            Question::Width => 25,
            Question::PairCount => 26,
            Question::Other(other) => other.number,
        }
    }
}

// The first question that was answered 'no', with the index of the record, row or pair (0 where there is none).
#[derive(Clone, Copy, PartialEq, Eq)]
pub struct Refusal {
    pub question: Question,
    pub index: usize,
}

// What is made of the loads of the records that meet a frame: the paper's kinds 0 to 4. Rows of the greatest load hold the greatest
// value of their block. No query and no slot has another number, but what is said of kinds is said of every number.
#[derive(Clone, Copy)]
pub enum Kind {
    Sum,
    Count,
    Least,
    Greatest,
    Mean,
    Other(OtherKind),
}

impl Kind {
    // The kind of a number.
    pub fn of(number: u8) -> Kind
        ensures { kind_number result ≡ number }
    {
        match number {
            0 => Kind::Sum,
            1 => Kind::Count,
            2 => Kind::Least,
            3 => Kind::Greatest,
            4 => Kind::Mean,
            _ => Kind::Other(OtherKind { number }),
        }
    }

    // Whether rows of this kind hold the greatest value of their block.
    pub fn is_greatest(self) -> bool
        ensures { result ≡ eqb (kind_number self) greatest_kind }
    {
        matches!(self, Kind::Greatest)
    }
}

// Question 2.
impl TryFrom<u8> for Kind {
    type Error = Refusal;

    ghost try_from_gives = { IsKind };

    fn try_from(kind: u8) -> Answer<Kind> {
        match Kind::of(kind) {
            Kind::Other(_) => Err(Refusal {
                question: Question::Kind,
                index: 0,
            }),
            known => Ok(known),
        }
    }
}

// The paper's number of a kind.
impl From<Kind> for u8 {
    ghost from_gives = { λ kind n. n ≡ kind_number kind };

    fn from(kind: Kind) -> u8 {
        match kind {
            Kind::Sum => 0,
            Kind::Count => 1,
            Kind::Least => 2,
            Kind::Greatest => 3,
            Kind::Mean => 4,
            Kind::Other(other) => other.number,
        }
    }
}

// What a call gives, or the question that refused it. A call that writes what is lent to it, and asks whether that is right, gives
// nothing more.
pub type Answer<T> = Result<T, Refusal>;

// What a query has written: how many rows, their error, and the cuts weighed on the way.
#[derive(Clone, Copy)]
pub struct Written {
    pub rows: usize,
    pub error: u64,
    pub weighed: u64,
}

// What the header of a slot says, the second byte of its mark first.
// The kind is the slot's byte, as the C interface gives it.
#[derive(Clone, Copy)]
pub struct Header {
    pub mark: u8,
    pub kind: u8,
    pub error: u64,
    pub rows: usize,
}

// A slot that is read: its header, and its rows. Places past the last row are rows of zeros.
#[derive(Clone, Copy)]
pub struct Reading {
    pub header: Header,
    pub rows: [Row; MOST_ROWS],
}

// One step of a walk over a slot's rows: the next row, none at the end.
pub type Step = Answer<Option<Row>>;

// A step, and the number of the row that comes next.
#[derive(Clone, Copy)]
pub struct Walked {
    pub step: Step,
    pub next: usize,
}
