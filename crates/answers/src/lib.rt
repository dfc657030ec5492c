// The answers of the tool's calls as C structs. The question is 0 where a call is accepted; in a refusal every other field but
// the index is 0, and so are a row's fields where there is no row.
// The fields, their order and their types are those of the C header: the numbers of questions and kinds, flags as bytes, a question and an
// index in each struct, and two structs that differ in a name alone.
#![tactic(auto)]

ghost use Rattle.std.specs.Prelude.{◌≡◌};
ghost use Rattle.model.specs.Calls.{asked_case, count_case, query_case, read_case, step_case, lookup_case};
ghost use Rattle.answers.specs.Fields.{asked_fields, log_fields, query_fields, segments_fields, read_fields, step_fields, lookup_fields};

use model::{Answer, Header, Walked, Written};

// Of a call that has nothing more to say than whether it is accepted: the record writer, many lookups and the check.
#[repr(C)]
#[derive(Clone, Copy, Default)]
pub struct CAnswer {
    pub question: u8,
    pub index: usize,
}

// `length` is the number of bytes written.
#[repr(C)]
#[derive(Clone, Copy, Default)]
pub struct CLogAnswer {
    pub question: u8,
    pub index: usize,
    pub length: usize,
}

#[repr(C)]
#[derive(Clone, Copy, Default)]
pub struct CQueryAnswer {
    pub question: u8,
    pub index: usize,
    pub rows: usize,
    pub error: u64,
    pub weighed: u64,
}

#[repr(C)]
#[derive(Clone, Copy, Default)]
pub struct CSegmentsAnswer {
    pub question: u8,
    pub index: usize,
    pub count: usize,
}

// `mark` is the second byte of the header's mark.
#[repr(C)]
#[derive(Clone, Copy, Default)]
pub struct CReadAnswer {
    pub question: u8,
    pub index: usize,
    pub kind: u8,
    pub mark: u8,
    pub rows: usize,
    pub error: u64,
}

// `found` is 1 for a row, and `next` the number of the row that comes next.
#[repr(C)]
#[derive(Clone, Copy, Default)]
pub struct CStepAnswer {
    pub question: u8,
    pub index: usize,
    pub found: u8,
    pub group: u8,
    pub first: u16,
    pub last: u16,
    pub value: u32,
    pub next: usize,
}

// `covered` is 1 where a row holds the frame.
#[repr(C)]
#[derive(Clone, Copy, Default)]
pub struct CLookupAnswer {
    pub question: u8,
    pub index: usize,
    pub covered: u8,
    pub value: u32,
}

// Of the record writer, many lookups and the check.
#[tactic(auto, unfolding(crate::specs::Fields::asked_fields, model::specs::Calls::answer_case))]
impl From<Answer<()>> for CAnswer {
    ghost from_gives = { λ answer fields. fields ≡ asked_fields (asked_case answer) };

    fn from(answer: Answer<()>) -> CAnswer {
        match answer {
            Ok(()) => CAnswer::default(),
            Err(refusal) => CAnswer {
                question: refusal.question.into(),
                index: refusal.index,
            },
        }
    }
}

// Of the call for logs on file.
#[tactic(auto, unfolding(crate::specs::Fields::log_fields, model::specs::Calls::answer_case))]
impl From<Answer<usize>> for CLogAnswer {
    ghost from_gives = { λ answer fields. fields ≡ log_fields (count_case answer) };

    fn from(answer: Answer<usize>) -> CLogAnswer {
        match answer {
            Ok(length) => CLogAnswer {
                length,
                ..CLogAnswer::default()
            },
            Err(refusal) => CLogAnswer {
                question: refusal.question.into(),
                index: refusal.index,
                ..CLogAnswer::default()
            },
        }
    }
}

// Of a query.
#[tactic(auto, unfolding(crate::specs::Fields::query_fields, model::specs::Calls::answer_case, model::specs::Calls::counts_in))]
impl From<Answer<Written>> for CQueryAnswer {
    ghost from_gives = { λ answer fields. fields ≡ query_fields (query_case answer) };

    fn from(answer: Answer<Written>) -> CQueryAnswer {
        match answer {
            Ok(written) => CQueryAnswer {
                rows: written.rows,
                error: written.error,
                weighed: written.weighed,
                ..CQueryAnswer::default()
            },
            Err(refusal) => CQueryAnswer {
                question: refusal.question.into(),
                index: refusal.index,
                ..CQueryAnswer::default()
            },
        }
    }
}

// Of the segment call.
#[tactic(auto, unfolding(crate::specs::Fields::segments_fields, model::specs::Calls::answer_case))]
impl From<Answer<usize>> for CSegmentsAnswer {
    ghost from_gives = { λ answer fields. fields ≡ segments_fields (count_case answer) };

    fn from(answer: Answer<usize>) -> CSegmentsAnswer {
        match answer {
            Ok(count) => CSegmentsAnswer {
                count,
                ..CSegmentsAnswer::default()
            },
            Err(refusal) => CSegmentsAnswer {
                question: refusal.question.into(),
                index: refusal.index,
                ..CSegmentsAnswer::default()
            },
        }
    }
}

// Of the reader.
#[tactic(auto, unfolding(crate::specs::Fields::read_fields, model::specs::Calls::answer_case, model::specs::Calls::header_in))]
impl From<Answer<Header>> for CReadAnswer {
    ghost from_gives = { λ answer fields. fields ≡ read_fields (read_case answer) };

    fn from(answer: Answer<Header>) -> CReadAnswer {
        match answer {
            Ok(header) => CReadAnswer {
                kind: header.kind,
                mark: header.mark,
                rows: header.rows,
                error: header.error,
                ..CReadAnswer::default()
            },
            Err(refusal) => CReadAnswer {
                question: refusal.question.into(),
                index: refusal.index,
                ..CReadAnswer::default()
            },
        }
    }
}

// Of a step of a walk.
#[tactic(auto, unfolding(crate::specs::Fields::step_fields, crate::specs::Fields::no_row, model::specs::Calls::answer_case, model::specs::Calls::row_found, model::specs::Calls::row_span, model::specs::Common::option_of))]
impl From<Walked> for CStepAnswer {
    ghost from_gives = { λ walked fields. fields ≡ step_fields (step_case walked.step) walked.next };

    fn from(walked: Walked) -> CStepAnswer {
        let next = walked.next;
        match walked.step {
            Ok(Some(row)) => CStepAnswer {
                found: 1,
                group: row.group,
                first: row.first,
                last: row.last,
                value: row.value,
                next,
                ..CStepAnswer::default()
            },
            Ok(None) => CStepAnswer {
                next,
                ..CStepAnswer::default()
            },
            Err(refusal) => CStepAnswer {
                question: refusal.question.into(),
                index: refusal.index,
                next,
                ..CStepAnswer::default()
            },
        }
    }
}

// Of a lookup.
#[tactic(auto, unfolding(crate::specs::Fields::lookup_fields, model::specs::Calls::answer_case, model::specs::Common::option_of))]
impl From<Answer<Option<u32>>> for CLookupAnswer {
    ghost from_gives = { λ answer fields. fields ≡ lookup_fields (lookup_case answer) };

    fn from(answer: Answer<Option<u32>>) -> CLookupAnswer {
        match answer {
            Ok(Some(value)) => CLookupAnswer {
                covered: 1,
                value,
                ..CLookupAnswer::default()
            },
            Ok(None) => CLookupAnswer::default(),
            Err(refusal) => CLookupAnswer {
                question: refusal.question.into(),
                index: refusal.index,
                ..CLookupAnswer::default()
            },
        }
    }
}
