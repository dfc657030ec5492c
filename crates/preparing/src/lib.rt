// A query's answer and slot, worked out before anything lent is touched: its questions, and the bytes of a slot with the rows of a
// reduction of the log's segments, or with rows by windows.
#![tactic(auto)]

ghost use Rattle.std.specs.Prelude.{◌≡◌, List, ◌≤◌};
ghost use Rattle.std.proofs.Math.Option.{none};
ghost use Rattle.model.specs.Split.{reduced};
ghost use Rattle.model.specs.Windows.{bound_in};
ghost use Rattle.model.specs.Slot.{by_bound, by_windows};
ghost use Rattle.model.specs.Questions.{outcome, order_questions, query_questions, window_rows, ruled_order, ruled_questions};
ghost use Rattle.model.specs.Calls.{answer_case, asked_case, kind_number, query_segments, answer_of, ruled_answer, ruled_mark};
ghost use Rattle.model.specs.Arrays.{rows_in};
ghost use Rattle.model.specs.Demands.{AllPass};
ghost use Rattle.preparing.specs.Prepared.{ahead_of_rows, with_rows, laid_out, listed, Prepares};

use common::no;
use model::{
    Answer, BY_BOUND, BY_WINDOWS, Kind, MOST_ROWS, Query, Question, Row, RuledQuery, SLOT_LENGTH,
    Segments, Written,
};
use rules::{ask_bound, ask_windows};

// What a query writes: what it answers, and the bytes of its slot.
#[derive(Clone, Copy)]
pub struct Prepared {
    pub written: Written,
    pub bytes: [u8; SLOT_LENGTH],
}

// Questions 1 and 2, behind them what was said of the questions of the query's rule, and then the log's. Gives the kind.
// The kind that comes in is a byte: question 2 is asked of it.
fn ask(kind: u8, rule: Answer<()>, log: &[u8], room: usize) -> Answer<Kind>
    ensures { (asks : List _) → asked_case rule ≡ outcome asks tt → answer_case kind_number result ≡ outcome (ahead_of_rows kind asks log.now room) kind }
{
    if room < SLOT_LENGTH {
        return no(Question::Room, 0);
    }
    let known = Kind::try_from(kind)?;
    rule?;
    load_log::ask(log)?;
    Ok(known)
}

// This answer and its slot with these rows, under the header of this mark.
fn lay_out(mark: u8, kind: Kind, written: Written, rows: [Row; MOST_ROWS]) -> Prepared
    requires { written.rows ≤ 64 }
    ensures { result ≡ with_rows mark (kind_number kind) written (rows_in rows written.rows) }
{
    Prepared {
        written,
        bytes: layout::layout(mark, u8::from(kind), written.error, rows, written.rows),
    }
}

// The reduction of a log's segments that a query asks for, laid out, and question 10 where there is none.
fn reduce(kind: Kind, query: Query, log: &[u8]) -> Answer<Prepared>
    requires in_order { AllPass (order_questions query log.now) }
    requires of_kind { kind_number kind ≡ query.kind }
    ensures { result ≡ laid_out by_bound Question.EnoughRows query.kind (reduced query.kind query.bound (query_segments query log.now)) }
{
    let mut segments = Segments::none();
    segments::of_log(log, kind, query.width, &mut segments);
    let mut cuts = [0u8; MOST_ROWS];
    let Some(reduction) = split::reduce(&segments, kind, query.bound, &mut cuts) else {
        return no(Question::EnoughRows, 0);
    };
    let rows = rows::between(&cuts, reduction.count, &segments, kind);
    let written = Written {
        rows: reduction.count,
        error: reduction.error,
        weighed: reduction.weighed,
    };
    Ok(lay_out(BY_BOUND, kind, written, rows))
}

// The rows of a log's records by a query's windows, laid out, and question 20 where they are more than 64.
fn list(kind: Kind, query: RuledQuery, log: &[u8]) -> Answer<Prepared>
    requires in_order { AllPass (ruled_order query log.now) }
    requires of_kind { kind_number kind ≡ query.kind }
    ensures { result ≡ laid_out by_windows Question.WindowRows query.kind (listed (window_rows query log.now)) }
{
    let records = load_log::decode(log);
    let Some(listing) = windows::rows(&records, kind, query) else {
        return no(Question::WindowRows, 0);
    };
    let written = Written {
        rows: listing.count,
        error: 0,
        weighed: 0,
    };
    Ok(lay_out(BY_WINDOWS, kind, written, listing.rows))
}

// Asks the questions of a query by a bound and works out its slot, where as many bytes are lent. It has the one call of `reduce` and is
// called from one place itself, so that the compiler puts both in place and does not copy the slot (docs/DECISIONS.md, 80).
pub fn prepare_by_bound(query: Query, log: &[u8], room: usize) -> Answer<Prepared>
    ensures { Prepares (query_questions query log.now room) by_bound query.kind (answer_of query log.now) result }
{
    let rule = ask_bound(query.bound, query.width);
    let kind = ask(query.kind, rule, log, room)?;
    reduce(kind, query, log)
}

// The same of a query by windows.
pub fn prepare_by_windows(query: RuledQuery, log: &[u8], room: usize) -> Answer<Prepared>
    requires { bound_in query.rule ≡ none }
    ensures { Prepares (ruled_questions query log.now room) (ruled_mark query) query.kind (ruled_answer query log.now) result }
{
    let rule = ask_windows(query);
    let kind = ask(query.kind, rule, log, room)?;
    list(kind, query, log)
}
