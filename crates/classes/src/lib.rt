// Bytes: document 01's byte sets, letter case, bytes of a text, and a lone `=`. Where a function's body is one method of the library
// (`in_range`, `upper_of`), what it adds is its equation, in the words of the definitions; `is_pair` is the definition of that name. A
// text and a place in it are two arguments: one text has many places.
#![tactic(auto)]

ghost use Rattle.std.specs.Prelude.{◌≡◌, List, cond, ◌-◌, ◌≤◌, eqb, length, get_or, drop};
ghost use Rattle.spec.specs.Bytes.{within, is_ident, is_word, is_w, is_n, upper, is_pair, is_prefix};
ghost use Rattle.spec.specs.Map.{Marked, bytes};
ghost use Rattle.spec.specs.Assignments.{lone_equals};

// Whether lo <= b <= hi.
#[tactic(auto, unfolding(spec::specs::Bytes::within))]
pub fn in_range(lo: u8, hi: u8, b: u8) -> bool
    ensures { result ≡ within lo hi b }
{
    (lo..=hi).contains(&b)
}

// A letter, a digit or `_`.
#[tactic(auto, unfolding(spec::specs::Bytes::is_ident, spec::specs::Bytes::is_lower, spec::specs::Bytes::is_upper, spec::specs::Bytes::is_digit, spec::specs::Bytes::within))]
pub fn is_ident_byte(b: u8) -> bool
    ensures { result ≡ is_ident b }
{
    b.is_ascii_alphanumeric() || b == b'_'
}

// An identifier byte or `$`.
#[tactic(auto, unfolding(spec::specs::Bytes::is_word))]
pub fn is_word_byte(b: u8) -> bool
    ensures { result ≡ is_word b }
{
    is_ident_byte(b) || b == b'$'
}

// W: bytes 9 to 13 and 32.
#[tactic(auto, unfolding(spec::specs::Bytes::is_w))]
pub fn is_w(b: u8) -> bool
    ensures { result ≡ is_w b }
{
    in_range(9, 13, b) || b == b' '
}

// N: W without 11.
#[tactic(auto, unfolding(spec::specs::Bytes::is_n))]
pub fn is_n(b: u8) -> bool
    ensures { result ≡ is_n b }
{
    is_w(b) && b != 11
}

// A letter in capitals, any other byte as it is.
#[tactic(auto, unfolding(spec::specs::Bytes::upper, spec::specs::Bytes::is_lower, spec::specs::Bytes::within))]
pub fn upper_of(b: u8) -> u8
    ensures { result ≡ upper b }
{
    b.to_ascii_uppercase()
}

// Whether the bytes b and d are x and y.
#[tactic(auto, unfolding(spec::specs::Bytes::is_pair))]
pub fn is_pair(x: u8, y: u8, b: u8, d: u8) -> bool
    ensures { result ≡ is_pair x y b d }
{
    b == x && d == y
}

// The byte at i, or 0 past the end. No `Option`: each caller compares it with a byte that is not 0 or asks for a set without 0, and
// in a map 0 is live, as a missing byte is.
pub fn byte_at(text: &[u8], i: usize) -> u8
    ensures { result ≡ get_or text.now i 0 }
{
    text.get(i).copied().unwrap_or(0)
}

// The byte before i, or 0 at the front; no `Option`, as above.
pub fn byte_before(text: &[u8], i: usize) -> u8
    ensures { result ≡ cond (eqb i 0) 0 (get_or text.now (i - 1) 0) }
{
    i.checked_sub(1).map_or(0, |j| byte_at(text, j))
}

// Whether `pat` stands at the front of `text`. By `==`, which tests the first bytes before it calls anything; most places fail there.
#[tactic(auto, using(crate::proofs::PrefixLaws::prefix_too_long, crate::proofs::PrefixLaws::prefix_of_equal))]
pub fn starts_with(text: &[u8], pat: &[u8]) -> bool
    ensures { result ≡ is_prefix pat.now text.now }
{
    pat.len() <= text.len() && &text[..pat.len()] == pat
}

// Whether `=` stands at i, and neither `==` nor `=>`.
#[tactic(auto, using(spec::proofs::EqualsTargets::lone_bytes))]
pub fn lone_equals(text: &[u8], i: usize) -> bool
    requires { i ≤ length text.now }
    ensures { (t : List Marked) → bytes t ≡ text.now → result ≡ lone_equals (drop i t) }
{
    byte_at(text, i) == b'=' && !matches!(byte_at(text, i + 1), b'=' | b'>')
}
