// Pass 1: each dollar literal in single quotes; and the length of what comes out.
#![tactic(auto)]

ghost use Rattle.std.specs.Prelude.{◌≡◌, ◌+◌, ◌*◌, ◌^◌, ◌≤◌, ◌<◌, length, take, drop};
ghost use Rattle.std.proofs.lemmas.List.Edits.{sets};
ghost use Rattle.spec.specs.Requote.{requote_span, requoted, quotes_in, requoted_span_length, requoted_length};
ghost use Rattle.output.specs.Written.{Wrote};
ghost use Rattle.requote.specs.Inside.{inside_end};

use output::Writer;
use spans::{Cursor, next_span, opens_span, span_len};
use spec::{DollarQuoted, Span};

// What stands between the delimiters of a dollar literal with the bytes `span`.
fn inside<'a>(span: &'a [u8], d: DollarQuoted) -> &'a [u8]
    requires { d.inner_start + d.inner_len ≤ length span.now }
    ensures { result.now ≡ take d.inner_len (drop d.inner_start span.now) }
{
    &span[d.inner_start..][..d.inner_len]
}

// What becomes of the span s with the bytes `span`.
#[tactic(auto, using(crate::proofs::RequoteLaws::part_laws), unfolding(spec::specs::Requote::requote_span))]
fn put_span(written: &mut Writer<'_>, span: &[u8], s: Span)
    requires span_bound { written.old.len + 2 * length span.now + 2 < 2 ^ 63 }
    requires s_in_bounds { inside_end s ≤ length span.now }
    ensures { Wrote written.old (requote_span s span.now) written.new }
{
    match s {
        Span::Verbatim(_) | Span::Code(_) => written.put_all(span),
        Span::Dollar(d) => written.put_single_quoted(inside(span, d)),
    }
}

// The requoted text, as far as `out` reaches; the result is how many bytes it has.
#[tactic(auto, using(spans::proofs::StepLaws::step_taken, spans::proofs::StepLaws::step_done, crate::proofs::RequoteLaws::requote_turn, crate::proofs::RequoteLaws::inside_within, crate::proofs::RequoteLaws::requoted_over, output::proofs::WriterLaws::left_start, output::proofs::WriterLaws::left_done, output::proofs::WriterLaws::wrote_front, spec::proofs::LengthLaws::requoted_length_lem))]
pub fn requote(text: &[u8], out: &mut [u8]) -> usize
    requires { length text.now ≤ 65536 }
    ensures value { result ≡ length (requoted text.now) }
    ensures out_after { out.new ≡ sets out.old 0 (requoted text.now) }
{
    let mut written = Writer::new(out);
    let mut cursor = Cursor { at: 0 };
    while let Some((s, next)) = cursor.step(text) {
        put_span(&mut written, &text[cursor.at..next.at], s);
        cursor = next;
    }
    written.len
}

// How many `'` stand in `text`.
fn quotes_in(text: &[u8]) -> usize
    ensures { result ≡ quotes_in text.now }
{
    text.iter().filter(|b| **b == b'\'').count()
}

// How many bytes a text makes in single quotes.
#[tactic(auto, using(crate::proofs::RequoteLaws::part_laws))]
fn single_quoted_len(text: &[u8]) -> usize
    requires { length text.now ≤ 65536 }
    ensures { result ≡ 2 + length text.now + quotes_in text.now }
{
    2 + text.len() + quotes_in(text)
}

// The length of what becomes of the span s with the bytes `span`.
#[tactic(auto, using(crate::proofs::RequoteLaws::part_laws), unfolding(spec::specs::Requote::requoted_span_length))]
fn requoted_span_len(span: &[u8], s: Span) -> usize
    requires span_len_bound { length span.now ≤ 65536 }
    requires s_in_bounds { inside_end s ≤ length span.now }
    ensures { result ≡ requoted_span_length s span.now }
{
    match s {
        Span::Verbatim(_) | Span::Code(_) => span.len(),
        Span::Dollar(d) => single_quoted_len(inside(span, d)),
    }
}

// The length of the requoted text.
#[tactic(auto, using(std::proofs::lemmas::List::take_rest, spec::proofs::RequotedLength::requoted_twice, crate::proofs::RequoteLaws::length_turn, crate::proofs::RequoteLaws::length_plain, crate::proofs::RequoteLaws::length_over, crate::proofs::RequoteLaws::inside_within, spans::proofs::StepLaws::stepped))]
pub fn requoted_len(text: &[u8]) -> usize
    requires { length text.now ≤ 65536 }
    ensures { result ≡ requoted_length text.now }
{
    let mut n: usize = 0;
    // By an index: by a `Cursor`, as in `requote`, tried and proved; but each byte then costs a call, and requoting misses its bar in
    // oracle/speed-run, 1.7 times what it took before it told its length (docs/DECISIONS.md, "Where the requoted length is counted").
    let mut at: usize = 0;
    while at < text.len() {
        // Most bytes open nothing, and such a byte stays as it is.
        if opens_span(text[at]) {
            let s = next_span(&text[at..]);
            let to = at + span_len(s);
            n += requoted_span_len(&text[at..to], s);
            at = to;
        } else {
            n += 1;
            at += 1;
        }
    }
    n
}
