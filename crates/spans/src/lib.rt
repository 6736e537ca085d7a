// Spans: what the text in front opens, and a cursor that walks from span to span.
// A text and a place in it are two arguments: one text has many places.
#![tactic(auto)]

ghost use Rattle.std.specs.Prelude.{◌≡◌, cond, ◌+◌, ◌≤◌, ◌<◌, length, drop};
ghost use Rattle.spec.specs.Spans.{escapes, quoted_len, block_len, line_len, tag_len, opens_dollar, dollar_of, span_at, span_len};
ghost use Rattle.spec.specs.declared.Span.TheVariants.{Dollar, Code};
ghost use Rattle.spans.specs.Openers.{opens_span};
ghost use Rattle.spans.specs.Places.{seek_place};
ghost use Rattle.spans.specs.Steps.{step_at};

use classes::{byte_at, is_pair};
use runs::{Set, run_end};
use spec::{DollarQuoted, Span};

// Whether b is a backslash, where backslashes escape.
#[tactic(auto, unfolding(spec::specs::Spans::escapes))]
fn escapes_here(escape: bool, b: u8) -> bool
    ensures { result ≡ escapes escape b }
{
    escape && b == b'\\'
}

// Length of the literal between quotes q at the front of `rest`, both quotes counted.
#[tactic(auto, using(crate::proofs::QuotedSpanLaws::quoted_laws))]
fn quoted_len(rest: &[u8], q: u8, escape: bool) -> usize
    ensures { result ≡ quoted_len escape q rest.now }
{
    let n = rest.len();
    if n < 2 {
        return n;
    }
    // By an index: a turn takes one byte or two. By slice patterns (`[b, rest @ ..]`) the same branches would stand, each with its rest,
    // and each length would be the difference of two: no plainer.
    let mut i: usize = 1;
    while i + 1 < n {
        let b = rest[i];
        if escapes_here(escape, b) {
            i += 2;
        } else if b != q {
            i += 1;
        } else if rest[i + 1] == q {
            i += 2;
        } else {
            return i + 1;
        }
    }
    n
}

// Length of the nested block comment at the front of `rest`.
#[tactic(auto, using(crate::proofs::CommentLaws::comment_laws))]
fn block_comment_len(rest: &[u8]) -> usize
    ensures { result ≡ block_len rest.now }
{
    let n = rest.len();
    if n < 2 {
        return n;
    }
    // By an index for the reason in `quoted_len`.
    let mut depth: usize = 1;
    let mut i: usize = 2;
    while i + 1 < n {
        let b = rest[i];
        let d = rest[i + 1];
        if is_pair(b'/', b'*', b, d) {
            depth += 1;
            i += 2;
        } else if is_pair(b'*', b'/', b, d) {
            depth -= 1;
            i += 2;
            if depth == 0 {
                return i;
            }
        } else {
            i += 1;
        }
    }
    n
}

// From inside a line comment, the length through its newline.
#[tactic(auto, using(crate::proofs::TagLaws::line_through, crate::proofs::TagLaws::line_whole))]
fn line_len(rest: &[u8]) -> usize
    ensures { result ≡ line_len rest.now }
{
    let n = run_end(rest, Set::Except(b'\n'), 0);
    (n + 1).min(rest.len())
}

// Where `pat`, which is not empty, stands first in `text`.
fn seek(text: &[u8], pat: &[u8]) -> Option<usize>
    requires { 0 < length pat.now }
    ensures { result ≡ seek_place pat.now text.now }
{
    text.windows(pat.len()).position(|w| w == pat)
}

// Whether a dollar literal opens, its tag being t bytes long.
#[tactic(auto, unfolding(spec::specs::Spans::opens_dollar, spec::specs::Bytes::is_digit, spec::specs::Bytes::within))]
fn opens_here(rest: &[u8], t: usize) -> bool
    requires t_value { t ≡ tag_len (drop 1 rest.now) }
    requires t_in_bounds { t ≤ length rest.now }
    ensures { result ≡ opens_dollar rest.now }
{
    byte_at(rest, 0) == b'$' && !byte_at(rest, 1).is_ascii_digit() && byte_at(rest, 1 + t) == b'$'
}

// The literal at the front of `rest` whose opening delimiter has n bytes.
#[tactic(auto, using(spec::proofs::SpanLaws::seek_stands, crate::proofs::PlaceLaws::found_at), unfolding(spec::specs::Spans::dollar_of))]
fn dollar_of(rest: &[u8], n: usize) -> DollarQuoted
    requires n_nonzero { 0 < n }
    requires n_in_bounds { n ≤ length rest.now }
    ensures { result ≡ dollar_of n rest.now }
{
    let (mark, body) = rest.split_at(n);
    match seek(body, mark) {
        Some(k) => DollarQuoted {
            span: n + k + n,
            inner_start: n,
            inner_len: k,
            closed: true,
        },
        None => DollarQuoted {
            span: rest.len(),
            inner_start: n,
            inner_len: body.len(),
            closed: false,
        },
    }
}

// The span at a `$`: a dollar literal, or the `$` alone.
#[tactic(auto, using(crate::proofs::TagLaws::tag_run))]
fn dollar_quoted(rest: &[u8]) -> Span
    ensures { result ≡ cond (opens_dollar rest.now) (Dollar (dollar_of (2 + tag_len (drop 1 rest.now)) rest.now)) (Code 1) }
{
    let t = run_end(rest, Set::Ident, 1) - 1;
    if opens_here(rest, t) {
        Span::Dollar(dollar_of(rest, 2 + t))
    } else {
        Span::Code(1)
    }
}

// Whether b is the first byte of a comment, of a quote or of a dollar literal's delimiter.
#[tactic(auto, unfolding(crate::specs::Openers::opens_span))]
pub fn opens_span(b: u8) -> bool
    ensures { result ≡ opens_span b }
{
    matches!(b, b'-' | b'/' | b'\'' | b'"' | b'$')
}

// The span at the front of `rest`.
#[tactic(auto, using(crate::proofs::OpenerLaws::span_laws), unfolding(spec::specs::Bytes::is_pair))]
pub fn next_span(rest: &[u8]) -> Span
    ensures { result ≡ span_at rest.now }
{
    let c = byte_at(rest, 0);
    // Most bytes open nothing; the next byte is read for the others alone.
    if !opens_span(c) {
        return Span::Code(1);
    }
    // No other span starts with a `$`.
    if c == b'$' {
        return dollar_quoted(rest);
    }
    match (c, byte_at(rest, 1)) {
        (b'-', b'-') => Span::Verbatim(2 + line_len(&rest[2..])),
        (b'/', b'*') => Span::Verbatim(block_comment_len(rest)),
        (b'\'', _) => Span::Verbatim(quoted_len(rest, b'\'', true)),
        (b'"', _) => Span::Verbatim(quoted_len(rest, b'"', false)),
        // What is left is a `-` or `/` that starts no comment.
        _ => Span::Code(1),
    }
}

// How many bytes a span takes.
pub fn span_len(s: Span) -> usize
    ensures { result ≡ span_len s }
{
    match s {
        Span::Verbatim(n) => n,
        Span::Dollar(d) => d.span,
        Span::Code(n) => n,
    }
}

// A place in a text, for a walk from span to span. The project's list of forms (docs/DECISIONS.md) names this one: a cursor by value,
// whose step takes it and gives the span and the next cursor. The walks move it in a `while let`.
#[derive(Clone, Copy)]
pub struct Cursor {
    pub at: usize,
}

impl Cursor {
    // The span here, and the cursor advanced behind it; nothing at the text's end.
    #[tactic(auto, using(std::proofs::lemmas::List::take_rest, spec::proofs::SpanLaws::span_le), unfolding(crate::specs::Steps::step_at))]
    pub fn step(self, text: &[u8]) -> Option<(Span, Cursor)>
        ensures { result ≡ step_at text.now self.at }
    {
        let at = self.at;
        if at < text.len() {
            let s = next_span(&text[at..]);
            let next = Cursor {
                at: at + span_len(s),
            };
            Some((s, next))
        } else {
            None
        }
    }
}
