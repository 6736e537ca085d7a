// Whether a body is closed: a body with whatever is joined behind it is then rewritten as the two apart are.
// A text and a place in it are two arguments: one text has many places.
#![tactic(auto)]

ghost use Rattle.std.specs.Prelude.{◌≡◌, ℕ, List, not, ◌&&◌, [], ◌≤◌, ◌<◌, eqb, length, take, drop};
ghost use Rattle.spec.specs.Lists.{any, all};
ghost use Rattle.spec.specs.Spans.{span_at, span_len, lexeme_at, lexemes};
ghost use Rattle.spec.specs.Map.{Marked, bytes};
ghost use Rattle.spec.specs.Closed.{ends_live, is_plain_span, ends_word, is_followed, raises_followed};
ghost use Rattle.spec.specs.Answers.{map_exit};
ghost use Rattle.closed.specs.Answer.{closed_answer, is_unfollowed_raise};

use classes::{byte_at, is_ident_byte};
use runs::{Set, run_end};
use scanner::MappedText;
use searches::{searched, yes_no};
use spans::Cursor;
use spec::Refusal;

// Whether the last byte is a live `;`.
#[tactic(auto, using(crate::proofs::ClosedLaws::ends_none, crate::proofs::ClosedLaws::ends_last))]
fn ends_live(text: &MappedText<'_>) -> bool
    ensures { result ≡ ends_live text.now }
{
    let n = text.len();
    n != 0 && text.is_live_byte(n - 1, b';')
}

// Whether the bytes `span` are no comment, and no literal with a newline. One byte is neither, and most spans are one byte of
// live text.
#[tactic(auto, using(crate::proofs::ClosedLaws::bytes_one, crate::proofs::ClosedLaws::bytes_line, crate::proofs::ClosedLaws::bytes_block, crate::proofs::ClosedLaws::bytes_longer))]
fn is_plain_span(span: &[u8]) -> bool
    ensures { (xs : List ℕ) → span.now ≡ take (span_len (span_at xs)) xs → result ≡ is_plain_span (lexeme_at xs) }
{
    span.len() == 1
        || (!span.starts_with(b"--") && !span.starts_with(b"/*") && !span.contains(&b'\n'))
}

// Whether no span is a comment or a literal with a newline: a walk by `spans::Cursor`, for the reason at `scanner::has_unterminated`.
#[tactic(auto, using(crate::proofs::ClosedLaws::step_part, crate::proofs::ClosedLaws::plain_here, crate::proofs::ClosedLaws::plain_not, crate::proofs::ClosedLaws::plain_over, spans::proofs::StepLaws::step_taken, spans::proofs::StepLaws::step_done))]
fn has_plain_spans(text: &[u8]) -> bool
    ensures { result ≡ all is_plain_span (lexemes text.now) }
{
    let mut cursor = Cursor { at: 0 };
    while let Some((_, next)) = cursor.step(text) {
        if !is_plain_span(&text[cursor.at..next.at]) {
            return false;
        }
        cursor = next;
    }
    true
}

// A space or `;`.
#[tactic(auto, unfolding(spec::specs::Closed::ends_word))]
fn ends_word(b: u8) -> bool
    ensures { result ≡ ends_word b }
{
    matches!(b, b' ' | b';')
}

// Whether a space, a word and a space or `;` stand at i, live or not.
#[tactic(auto, using(crate::proofs::ClosedLaws::followed_bytes, crate::proofs::ClosedLaws::followed_word))]
fn is_followed(text: &[u8], i: usize) -> bool
    requires { i ≤ length text.now }
    ensures { (t : List Marked) → bytes t ≡ text.now → result ≡ is_followed (drop i t) }
{
    byte_at(text, i) == b' '
        && (is_ident_byte(byte_at(text, i + 1))
            && ends_word(byte_at(text, run_end(text, Set::Ident, i + 1))))
}

// Whether a RAISE stands at i that has something else behind it.
#[tactic(auto, using(crate::proofs::ClosedLaws::word_fits, spec::proofs::RefusalBounds::bytes_length))]
fn is_unfollowed_raise(text: &MappedText<'_>, i: usize) -> bool
    requires { i < length text.now }
    ensures { result ≡ is_unfollowed_raise text.now i }
{
    text.word_at(b"RAISE", i) && !is_followed(text.text(), i + 5)
}

// Whether every live RAISE has a space, a word and a space or `;` behind it.
fn has_followed_raises(text: &MappedText<'_>) -> bool
    ensures { result ≡ raises_followed 0 text.now }
{
    (0..text.len()).all(
        |i|
            requires { i < length text.now }
        { !is_unfollowed_raise(text, i) },
    )
}

// Whether a text with its map is a closed body.
#[tactic(auto, using(crate::proofs::ClosedLaws::backslash_yes, crate::proofs::ClosedLaws::backslash_no))]
fn is_closed_in(text: &MappedText<'_>) -> bool
    ensures { result ≡ (ends_live text.now && (not (any (eqb 92) (bytes text.now)) && (all is_plain_span (lexemes (bytes text.now)) && raises_followed 0 text.now))) }
{
    ends_live(text)
        && !text.text().contains(&b'\\')
        && has_plain_spans(text.text())
        && has_followed_raises(text)
}

// Whether the text is a closed body.
#[tactic(auto, using(spec::proofs::MapLaws::text_bytes), unfolding(crate::specs::Answer::closed_answer, spec::specs::Closed::is_closed))]
pub fn is_closed(text: &[u8], map: &mut [u8]) -> Result<Option<usize>, Refusal>
    ensures value { result ≡ closed_answer text.now map.old }
    ensures map_after { map.new ≡ map_exit text.now map.old [] }
{
    searched(text, map, b"", |t| yes_no(is_closed_in(t)))
}
