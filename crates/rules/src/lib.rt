// A query by a rule: it is put together, with a bound, every so many frames from a start frame on, or by scenes, and its rule is asked
// its own question. A bound is asked 3, whether or not it came as a rule, and with it the width 25, which windows do not read.
#![tactic(auto)]

ghost use Rattle.std.specs.Prelude.{◌≡◌, [], ◌∷◌, ◌++◌, cond, ◌<◌, eqb, take};
ghost use Rattle.std.proofs.Math.Option.{none};
ghost use Rattle.model.specs.Common.{option_of};
ghost use Rattle.model.specs.Windows.{bound_in};
ghost use Rattle.model.specs.Questions.{ask, outcome, bound_known, ask_width, scene_known, scenes_known, rule_question};
ghost use Rattle.model.specs.Calls.{asked_case, number, no_frames, bounded_query, beat_query, scene_query};

use common::{is_width, no};
use model::{Answer, Bound, MOST_ROWS, MOST_SCENES, MOST_SHARE, Query, Question, Rule, RuledQuery};

// The frames of no scene.
fn no_frames() -> [u16; MOST_SCENES]
    ensures { result ≡ no_frames }
{
    [0u16; MOST_SCENES]
}

// A query with a bound.
pub fn bounded(query: Query) -> RuledQuery
    ensures { result ≡ bounded_query query }
{
    RuledQuery {
        kind: query.kind,
        rule: query.bound.into(),
        width: query.width,
        firsts: no_frames(),
        lasts: no_frames(),
    }
}

// A query by windows every `length` frames from frame `start` on.
pub fn beats(kind: u8, length: u16, start: u16) -> RuledQuery
    ensures { result ≡ beat_query kind length start }
{
    RuledQuery {
        kind,
        rule: Rule::Every { length, start },
        width: 1,
        firsts: no_frames(),
        lasts: no_frames(),
    }
}

// The first 16 frames of a list, then zeros.
fn frames_of(list: &[u16]) -> [u16; MOST_SCENES]
    ensures { result ≡ take 16 (list.now ++ no_frames) }
{
    let count = list.len().min(MOST_SCENES);
    let mut frames = no_frames();
    frames[..count].copy_from_slice(&list[..count]);
    frames
}

// How many scenes two lists of frames give: none where they are not as many.
// A function, since what it promises of unequal lists has an edit of its own.
fn count_of(firsts: usize, lasts: usize) -> usize
    ensures { result ≡ cond (eqb firsts lasts) firsts 0 }
{
    if firsts == lasts { firsts } else { 0 }
}

// A query by scenes, from their first and their last frames.
pub fn scenes(kind: u8, firsts: &[u16], lasts: &[u16]) -> RuledQuery
    ensures { result ≡ scene_query kind firsts.now lasts.now }
{
    let count = count_of(firsts.len(), lasts.len());
    RuledQuery {
        kind,
        rule: Rule::Scenes(count),
        width: 1,
        firsts: frames_of(firsts),
        lasts: frames_of(lasts),
    }
}

// Whether scene i is from a first frame to a last one, wholly after the scene before.
fn scene_is_known(query: &RuledQuery, i: usize) -> bool
    requires { i < 16 }
    ensures { result ≡ scene_known query.now.firsts query.now.lasts i }
{
    let first = query.firsts[i];
    let ordered = first <= query.lasts[i];
    if i == 0 {
        return ordered;
    }
    let before = query.lasts[i - 1];
    ordered & (before < first)
}

// Whether there are 1 to 16 scenes, each as it must be.
fn scenes_are_known(query: &RuledQuery, count: usize) -> bool
    ensures { result ≡ scenes_known query.now.firsts query.now.lasts count }
{
    match count {
        1..=MOST_SCENES => (0..count).all(|i| scene_is_known(query, i)),
        _ => false,
    }
}

// What is said of a question with no index: that it is passed, or its number.
fn said(question: Question, passed: bool) -> Answer<()>
    ensures { asked_case result ≡ outcome (ask (number question) 0 passed ∷ []) tt }
{
    if passed { Ok(()) } else { no(question, 0) }
}

// Whether a row limit or a share is one that a query can have.
fn bound_is_known(bound: Bound) -> bool
    ensures { result ≡ bound_known bound }
{
    match bound {
        Bound::Rows(c) => usize::from(c) <= MOST_ROWS,
        Bound::Share(p) => p <= MOST_SHARE,
    }
}

// Questions 3 and 25, of a bound and the width of a memory.
pub fn ask_bound(bound: Bound, width: u16) -> Answer<()>
    ensures { asked_case result ≡ outcome (ask 3 0 (bound_known bound) ∷ ask_width width ∷ []) tt }
{
    said(Question::Bound, bound_is_known(bound))?;
    said(Question::Width, is_width(width))
}

// Question 18 or 19, of a query by windows.
// That the rule is no bound is one equation of one definition, and no type.
pub fn ask_windows(query: RuledQuery) -> Answer<()>
    requires { bound_in query.rule ≡ none }
    ensures { asked_case result ≡ outcome (rule_question query ∷ []) tt }
{
    match query.rule {
        Rule::Rows(_) | Rule::Share(_) => no(Question::Bound, 0),
        Rule::Every { length, .. } => said(Question::WindowLength, length > 0),
        Rule::Scenes(count) => said(Question::Scenes, scenes_are_known(&query, count)),
    }
}

// The bound that a rule is, none for windows.
pub fn bound_in(rule: Rule) -> Option<Bound>
    ensures { option_of result ≡ bound_in rule }
{
    match rule {
        Rule::Rows(c) => Some(Bound::Rows(c)),
        Rule::Share(p) => Some(Bound::Share(p)),
        Rule::Every { .. } | Rule::Scenes(_) => None,
    }
}
