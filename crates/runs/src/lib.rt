// Places in a text, and runs of the bytes of a set in it: where they end, where they start, whether there is one,
// and a text without W at both ends.
// A text and a place in it are two arguments: one text has many places.
#![tactic(auto)]

ghost use Rattle.std.specs.Prelude.{◌≡◌, ◌+◌, ◌≤◌, length, take, drop};
ghost use Rattle.spec.specs.Lists.{take_while, drop_end, any};
ghost use Rattle.runs.specs.Places.{piece_at, place_between};
ghost use Rattle.runs.specs.Sets.{in_set, trimmed};

use classes::{is_ident_byte, is_n, is_w};

// Where a piece of a text begins, and how many bytes it has.
#[derive(Clone, Copy, Default)]
pub struct Place {
    pub at: usize,
    pub len: usize,
}

impl Place {
    // The bytes from one offset up to the other, if there are any.
    #[tactic(auto, unfolding(crate::specs::Places::place_between))]
    pub fn between(at: usize, end: usize) -> Option<Place>
        ensures { result ≡ place_between at end }
    {
        (at < end).then(|| Place { at, len: end - at })
    }

    // What stands there in a text, as far as the text reaches.
    #[tactic(auto, using(std::proofs::lemmas::List::take_rest))]
    pub fn of<'a>(self, text: &'a [u8]) -> &'a [u8]
        ensures { result.now ≡ piece_at text.now self }
    {
        let rest = text.get(self.at..).unwrap_or(&[]);
        rest.get(..self.len).unwrap_or(rest)
    }
}

// A set of bytes. An enum, and no test as a closure, which would be no plainer: with it a contract gives a run by the set's name
// (`in_set set`), and callers and laws use that. With a closure each contract would speak of all predicates that the closure decides, as
// that of `MappedText::run_end` in scanner does, which has two callers.
#[derive(Clone, Copy)]
pub enum Set {
    W,
    N,
    Ident,
    // All but W.
    NotW,
    // All but W and this byte.
    NotWNor(u8),
    // This byte alone.
    Only(u8),
    // All but this byte.
    Except(u8),
    // Bytes up to 127.
    Ascii,
}

// Whether b is in the set.
#[tactic(auto, unfolding(spec::specs::Bytes::is_high))]
fn is_in(set: Set, b: u8) -> bool
    ensures { result ≡ in_set set b }
{
    match set {
        Set::W => is_w(b),
        Set::N => is_n(b),
        Set::Ident => is_ident_byte(b),
        Set::NotW => !is_w(b),
        Set::NotWNor(c) => !is_w(b) && b != c,
        Set::Only(c) => b == c,
        Set::Except(c) => b != c,
        Set::Ascii => b.is_ascii(),
    }
}

// Where the bytes of the set from `from` on end.
#[tactic(auto, using(crate::proofs::RunLaws::end_past))]
pub fn run_end(text: &[u8], set: Set, from: usize) -> usize
    ensures value { result ≡ from + length (take_while (in_set set) (drop from text.now)) }
    ensures upper_bound { from ≤ length text.now → result ≤ length text.now }
{
    match text.get(from..) {
        Some(rest) => from + rest.iter().take_while(|b| is_in(set, **b)).count(),
        None => from,
    }
}

// Where the bytes of the set that end at `end` start.
pub fn run_start(text: &[u8], set: Set, end: usize) -> usize
    requires { end ≤ length text.now }
    ensures value { result ≡ length (drop_end (in_set set) (take end text.now)) }
    ensures upper_bound { result ≤ end }
{
    end - text[..end]
        .iter()
        .rev()
        .take_while(|b| is_in(set, **b))
        .count()
}

// Whether a byte of the set stands in the text.
pub fn has(text: &[u8], set: Set) -> bool
    ensures { result ≡ any (in_set set) text.now }
{
    text.iter().any(|b| is_in(set, *b))
}

// The text without W at both ends.
#[tactic(auto, using(std::proofs::lemmas::List::take_rest, crate::proofs::RunLaws::trimmed_at))]
pub fn trim<'a>(text: &'a [u8]) -> &'a [u8]
    ensures { result.now ≡ trimmed text.now }
{
    let rest = &text[run_end(text, Set::W, 0)..];
    &rest[..run_start(rest, Set::W, rest.len())]
}
