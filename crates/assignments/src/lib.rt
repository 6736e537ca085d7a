// Pass 3: assignments, statement by statement, and refusal 4.
#![tactic(auto)]

ghost use Rattle.std.specs.Prelude.{◌≡◌, not, ◌&&◌, List, ◌+◌, ◌^◌, ◌≤◌, ◌<◌, length, Some};
ghost use Rattle.spec.specs.Lists.{is_empty};
ghost use Rattle.spec.specs.Map.{Marked, bytes};
ghost use Rattle.spec.specs.Outcome.{qualified_target, refused};
ghost use Rattle.spec.specs.Assignments.{right_side, starts_name, assignment_at, assignment, statement, assignments};
ghost use Rattle.output.specs.Passes.{pass_answer, Leaves, WroteOutcome};
ghost use Rattle.output.specs.Written.{Wrote};
ghost use Rattle.runs.specs.Places.{piece_at};
ghost use Rattle.assignments.specs.Written.{set_text};

use classes::{byte_at, is_ident_byte};
use output::Writer;
use runs::{Set, run_start, trim};
use scanner::MappedText;
use spec::Refusal;
use targets::{TargetPlaces, qualified_assignment_target};

// A right side: without W, then without `;` at its end, then without W.
fn right_side<'a>(text: &'a [u8]) -> &'a [u8]
    ensures { (t : List Marked) → bytes t ≡ text.now → bytes (right_side t) ≡ result.now }
{
    let inner = trim(text);
    let end = run_start(inner, Set::Only(b';'), inner.len());
    trim(&inner[..end])
}

// Whether a name starts with a letter or `_`.
#[tactic(auto, using(crate::proofs::AssignmentTextLaws::name_at), unfolding(spec::specs::Bytes::is_digit, spec::specs::Bytes::within))]
fn starts_name(name: &[u8]) -> bool
    ensures { (t : List Marked) → bytes t ≡ name.now → result ≡ starts_name t }
{
    let b = byte_at(name, 0);
    is_ident_byte(b) && !b.is_ascii_digit()
}

// Whether a name and a right side make an assignment: the name starts as one, and the right side is not empty.
#[tactic(auto, using(crate::proofs::AssignmentTextLaws::empty_bytes))]
fn is_assignment(name: &[u8], right: &[u8]) -> bool
    ensures { (t u : List Marked) → bytes t ≡ name.now → bytes u ≡ right.now → result ≡ (starts_name t && not (is_empty u)) }
{
    starts_name(name) && !right.is_empty()
}

// `SET name = right` behind `front`.
fn put_set(written: &mut Writer<'_>, front: &[u8], name: &[u8], right: &[u8])
    requires { written.old.len + length front.now + length name.now + length right.now + 7 < 2 ^ 63 }
    ensures { Wrote written.old (set_text front.now name.now right.now) written.new }
{
    written.put_all(front);
    written.put_all(b"SET ");
    written.put_all(name);
    written.put_all(b" = ");
    written.put_all(right);
}

// The statement with its first live `:=` at `at`.
#[tactic(auto, using(spec::proofs::RefusalBounds::bytes_length))]
fn put_assignment(written: &mut Writer<'_>, statement: &MappedText<'_>, at: usize)
    requires at_in_bounds { at + 2 ≤ length statement.now }
    requires statement_bound { written.old.len + length statement.now + 5 < 2 ^ 63 }
    ensures { Wrote written.old (bytes (assignment_at (Some at) statement.now)) written.new }
{
    let bytes = statement.text();
    let name_end = run_start(bytes, Set::W, at);
    let name_start = run_start(bytes, Set::Ident, name_end);
    let name = &bytes[name_start..name_end];
    let right = right_side(&bytes[at + 2..]);
    if is_assignment(name, right) {
        put_set(written, &bytes[..name_start], name, right);
    } else {
        written.put_all(bytes);
    }
}

// The statement as `SET name = right` if it is an assignment, else unchanged.
#[tactic(auto, using(crate::proofs::AssignmentTextLaws::assign_inside, crate::proofs::AssignmentTextLaws::assignment_found, crate::proofs::AssignmentTextLaws::assignment_none, spec::proofs::RefusalBounds::bytes_length), unfolding(spec::specs::Lists::is_empty))]
fn rewrite_assignment(written: &mut Writer<'_>, statement: &MappedText<'_>)
    requires { written.old.len + length statement.now + 5 < 2 ^ 63 }
    ensures { Wrote written.old (bytes (assignment statement.now)) written.new }
{
    match statement.find_str(b":=", 0) {
        Some(at) => put_assignment(written, statement, at),
        None => written.put_all(statement.text()),
    }
}

// Refusal 4: `q.n` at the front of the output, by the places of q and n in the statement.
fn put_qualified(
    written: &mut Writer<'_>,
    statement: &[u8],
    target: TargetPlaces,
) -> Result<(), Refusal>
    requires dot { target.name.at ≡ target.qualifier.at + target.qualifier.len + 1 }
    requires name_in_bounds { target.name.at + target.name.len ≤ length statement.now }
    requires statement_in_bounds { length statement.now ≤ length written.old.out.now }
    ensures { WroteOutcome written.old (refused (qualified_target (piece_at statement.now target.qualifier) (piece_at statement.now target.name))) written.new result }
{
    written.restart();
    written.put_all(target.qualifier.of(statement));
    written.put(b'.');
    written.put_all(target.name.of(statement));
    Err(Refusal::QualifiedTarget {
        qualifier: target.qualifier.len,
        length: written.len,
    })
}

// One statement, checked before it is rewritten.
#[tactic(auto, using(crate::proofs::RestLaws::statement_empty, crate::proofs::RestLaws::statement_qualified, crate::proofs::RestLaws::statement_rewritten, spec::proofs::RefusalBounds::bytes_length))]
fn put_statement(written: &mut Writer<'_>, text: &MappedText<'_>) -> Result<(), Refusal>
    requires text_bound { written.old.len + length text.now + 5 < 2 ^ 63 }
    requires text_in_bounds { length text.now ≤ length written.old.out.now }
    ensures { WroteOutcome written.old (statement text.now) written.new result }
{
    // An empty statement has neither a target nor a name: bodies of many `;` stay quick.
    if text.len() == 0 {
        return Ok(());
    }
    if let Some(target) = qualified_assignment_target(text) {
        return put_qualified(written, text.text(), target);
    }
    rewrite_assignment(written, text);
    Ok(())
}

// The text with its assignments rewritten, as far as `out` reaches; or refusal 4.
#[tactic(auto, using(crate::proofs::RestLaws::left_whole, crate::proofs::RestLaws::semicolon_within, output::proofs::OutcomeLaws::turn_none))]
pub fn transform_assignments(text: &MappedText<'_>, out: &mut [u8]) -> Result<usize, Refusal>
    requires text_len_bound { length text.now ≤ 65536 }
    requires text_in_bounds { length text.now ≤ length out.old }
    ensures value { result ≡ pass_answer (assignments text.now) }
    ensures leaves { Leaves (assignments text.now) out.old out.new }
{
    let mut written = Writer::new(out);
    // By hand from one live `;` to the next, as in `select_into` and `declared_records`: an iterator of the parts would be no plainer,
    // since no `;` ends the last one, and each of the three takes a part in another way: without its `;`, with it, or by its offsets.
    let mut from: usize = 0;
    while let Some(end) = text.find_byte(b';', from) {
        put_statement(&mut written, &text.part(from, end))?;
        written.put(b';');
        from = end + 1;
    }
    put_statement(&mut written, &text.rest(from))?;
    Ok(written.len)
}
