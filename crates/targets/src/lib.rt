// The check of a statement: whether it assigns to a qualified target `q.n`, and where that stands.
// A text and a place in it are two arguments: one text has many places.
#![tactic(auto)]

ghost use Rattle.std.specs.Prelude.{◌≡◌, List, [], reverse, ◌^◌, ◌≤◌, ◌<◌, length, get_or, take, drop};
ghost use Rattle.spec.specs.Map.{Marked, live, bytes, front_byte};
ghost use Rattle.spec.specs.Assignments.{target_before, assign_target, equals_target, markings, marking_here, cases_behind, target_behind, marked_target, or_else, statement_target};
ghost use Rattle.targets.specs.Tells.{Tells};
ghost use Rattle.targets.specs.Words.{may_start, seen};

use classes::{byte_at, byte_before, is_word_byte, lone_equals};
use runs::{Place, Set, run_end, run_start};
use scanner::MappedText;
use spec::Mark;

// Where a qualified target stands in a statement.
#[derive(Clone, Copy)]
pub struct TargetPlaces {
    pub qualifier: Place,
    pub name: Place,
}

// A marking word.
#[derive(Clone, Copy)]
struct Marking {
    word: &'static [u8],
    mark: Mark,
}

const MARKINGS: [Marking; 6] = [
    Marking {
        word: b"CASE",
        mark: Mark::OpensCase,
    },
    Marking {
        word: b"END",
        mark: Mark::ClosesCase,
    },
    Marking {
        word: b"BEGIN",
        mark: Mark::OpensStatement,
    },
    Marking {
        word: b"THEN",
        mark: Mark::OpensStatement,
    },
    Marking {
        word: b"ELSE",
        mark: Mark::OpensStatement,
    },
    Marking {
        word: b"LOOP",
        mark: Mark::OpensStatement,
    },
];

// The target `q.n` that stands before `operator`, W allowed between.
#[tactic(auto, using(crate::proofs::TargetNameLaws::before_no_name, crate::proofs::TargetNameLaws::before_front, crate::proofs::TargetNameLaws::before_no_dot, crate::proofs::TargetNameLaws::before_no_qualifier))]
fn qualified_name_before(statement: &[u8], operator: usize) -> Option<TargetPlaces>
    requires { operator ≤ length statement.now }
    ensures { (t : List Marked) → bytes t ≡ statement.now → Tells t (target_before (reverse (take operator t))) result }
{
    let name_end = run_start(statement, Set::W, operator);
    let name_start = run_start(statement, Set::Ident, name_end);
    let name = Place::between(name_start, name_end)?;
    let dot = name_start.checked_sub(1)?;
    if statement[dot] != b'.' {
        return None;
    }
    let qualifier = Place::between(run_start(statement, Set::Ident, dot), dot)?;
    Some(TargetPlaces { qualifier, name })
}

// The target of the first live `:=` that has one.
#[tactic(auto, using(spec::proofs::WalkLaws::first_within, spec::proofs::RefusalBounds::bytes_length, crate::proofs::TargetNameLaws::tells_nothing, crate::proofs::WalrusLaws::assign_none, crate::proofs::WalrusLaws::assign_found, crate::proofs::WalrusLaws::assign_more), unfolding(spec::specs::Lists::is_empty))]
fn qualified_walrus_target(statement: &MappedText<'_>) -> Option<TargetPlaces>
    ensures { Tells statement.now (assign_target [] statement.now) result }
{
    let bytes = statement.text();
    let mut from: usize = 0;
    // On from one byte behind: what is before `at` is passed over already. A chain by `successors` and `find_map` would be no plainer: it
    // would name the search twice, for the first place and for those behind it.
    while let Some(at) = statement.find_str(b":=", from) {
        if let Some(places) = qualified_name_before(bytes, at) {
            return Some(places);
        }
        from = at + 1;
    }
    None
}

// The target `q.n` from `from` on with a lone `=` behind it; N may stand before q and before `=`.
#[tactic(auto, using(crate::proofs::TargetNameLaws::equals_no_qualifier, crate::proofs::TargetNameLaws::equals_no_dot, crate::proofs::TargetNameLaws::equals_no_name, spec::proofs::SpanLaws::seen, crate::proofs::TargetNameLaws::equals_no_sign, crate::proofs::TargetNameLaws::equals_found))]
fn qualified_name_at_with_equals(statement: &[u8], from: usize) -> Option<TargetPlaces>
    ensures { (t : List Marked) → bytes t ≡ statement.now → Tells t (equals_target (drop from t)) result }
{
    let start = run_end(statement, Set::N, from);
    let dot = run_end(statement, Set::Ident, start);
    let qualifier = Place::between(start, dot)?;
    if byte_at(statement, dot) != b'.' {
        return None;
    }
    let name_end = run_end(statement, Set::Ident, dot + 1);
    let name = Place::between(dot + 1, name_end)?;
    if !lone_equals(statement, run_end(statement, Set::N, name_end)) {
        return None;
    }
    Some(TargetPlaces { qualifier, name })
}

// Whether a word may start at i: a live word byte with no word byte before it.
#[tactic(auto, using(classes::proofs::BackLaws::byte_back))]
fn may_start(statement: &MappedText<'_>, i: usize) -> bool
    requires { i < length statement.now }
    ensures { result ≡ may_start (front_byte (reverse (take i statement.now))) (get_or statement.now i (live 0)) }
{
    statement.is_live(i)
        && is_word_byte(statement.byte(i))
        && !is_word_byte(byte_before(statement.text(), i))
}

// The marking word that stands live at i.
#[tactic(auto, using(crate::proofs::MarkingLaws::no_start))]
fn marking_at(statement: &MappedText<'_>, i: usize) -> Option<Marking>
    requires { i < length statement.now }
    ensures { seen result ≡ marking_here markings (front_byte (reverse (take i statement.now))) (drop i statement.now) }
{
    // Words are compared only where one may start, so that most bytes are passed over quickly.
    if !may_start(statement, i) {
        return None;
    }
    MARKINGS.iter().copied().find(
        |m|
            requires { i < length statement.now }
        { statement.keyword_at(m.word, i) },
    )
}

// How many CASEs are open behind what is met, `cases` being open before it.
#[tactic(auto, unfolding(spec::specs::Assignments::cases_behind, spec::specs::Assignments::cases_after))]
fn cases_behind(met: Option<Marking>, cases: usize) -> usize
    requires { cases ≤ 2 ^ 63 }
    ensures { result ≡ cases_behind (seen met) cases }
{
    let Some(m) = met else {
        return cases;
    };
    match m.mark {
        Mark::OpensCase => cases + 1,
        Mark::ClosesCase => cases.saturating_sub(1),
        Mark::OpensStatement => cases,
    }
}

// The target just past what is met at i, where no CASE is open.
#[tactic(auto, using(crate::proofs::TargetNameLaws::tells_nothing), unfolding(spec::specs::Assignments::target_behind, spec::specs::Assignments::target_past))]
fn target_behind(
    statement: &[u8],
    met: Option<Marking>,
    cases: usize,
    i: usize,
) -> Option<TargetPlaces>
    requires { i ≤ length statement.now }
    ensures { (t : List Marked) → bytes t ≡ statement.now → Tells t (target_behind (seen met) cases (drop i t)) result }
{
    let m = met?;
    match m.mark {
        Mark::OpensStatement if cases == 0 => {
            qualified_name_at_with_equals(statement, i + m.word.len())
        }
        _ => None,
    }
}

// The first target behind a marking word. A loop and no chain: a `try_fold` over the number of open CASEs would be no plainer, since it
// would hand the target out as the error that stops it.
#[tactic(auto, using(spec::proofs::RefusalBounds::bytes_length, crate::proofs::TargetNameLaws::tells_nothing, crate::proofs::MarkingLaws::cases_le, crate::proofs::MarkingLaws::walk_start, crate::proofs::MarkingLaws::walk_end, crate::proofs::MarkingLaws::walk_found, crate::proofs::MarkingLaws::walk_more))]
fn marked_target(statement: &MappedText<'_>) -> Option<TargetPlaces>
    ensures { Tells statement.now (marked_target 0 0 statement.now) result }
{
    let bytes = statement.text();
    let mut cases: usize = 0;
    for i in 0..statement.len() {
        let met = marking_at(statement, i);
        if let Some(places) = target_behind(bytes, met, cases, i) {
            return Some(places);
        }
        cases = cases_behind(met, cases);
    }
    None
}

// The target of a lone `=` at the front or just past a marking word.
#[tactic(auto, using(crate::proofs::TargetNameLaws::tells_some, crate::proofs::TargetNameLaws::tells_none))]
fn qualified_equals_target(statement: &MappedText<'_>) -> Option<TargetPlaces>
    ensures { Tells statement.now (or_else (equals_target statement.now) (marked_target 0 0 statement.now)) result }
{
    // No `or_else`, here and below: tried, and the proof did not close, since nothing is inferred of what its closure gives. Written
    // out, the closure's `ensures` is the second check's once more.
    if let Some(places) = qualified_name_at_with_equals(statement.text(), 0) {
        return Some(places);
    }
    marked_target(statement)
}

// The target that the statement assigns to: of `:=` first, then of a lone `=`.
#[tactic(auto, using(crate::proofs::TargetNameLaws::tells_some, crate::proofs::TargetNameLaws::tells_none), unfolding(spec::specs::Assignments::statement_target))]
pub fn qualified_assignment_target(statement: &MappedText<'_>) -> Option<TargetPlaces>
    ensures { Tells statement.now (statement_target statement.now) result }
{
    if let Some(places) = qualified_walrus_target(statement) {
        return Some(places);
    }
    qualified_equals_target(statement)
}
