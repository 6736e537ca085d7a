// One part of the declarations: where its name, its type's words and its default stand, and how they are written.
// A text and a place in it are two arguments: one text has many places.
#![tactic(auto)]

ghost use Rattle.std.specs.Prelude.{◌≡◌, ℕ, true, false, Some, reverse, ◌+◌, ◌*◌, ◌^◌, ◌≤◌, ◌<◌, length, take, drop};
ghost use Rattle.std.specs.Option.{unwrap_or, option_copied};
ghost use Rattle.spec.specs.Bytes.{is_w, is_before};
ghost use Rattle.spec.specs.Lists.{take_while, drop_end};
ghost use Rattle.spec.specs.Map.{bytes};
ghost use Rattle.spec.specs.Declarations.{requoted_default, is_lone, declaration};
ghost use Rattle.output.specs.Written.{Wrote};
ghost use Rattle.runs.specs.Sets.{in_set};
ghost use Rattle.spec.specs.Parts.{part};
ghost use Rattle.declared_parts.specs.DeclaredParts.{spaced, starts_key, key_at, cut_at, cut_in, is_text, constant_len, last_word, type_len, type_in, Fits, value_place, PlaceWithin, read_of, Within, inside_of};

use classes::{byte_before, is_w, lone_equals, starts_with, upper_of};
use output::Writer;
use runs::{Place, Set, run_end, run_start};
use scanner::MappedText;

// Where a part ends ahead of its default, and where the default begins, if there is one.
#[derive(Clone, Copy)]
pub struct Cut {
    pub head: usize,
    pub rest: Option<usize>,
}

// Where the type's words stand, and whether CONSTANT stands ahead of them and NOT NULL behind them: the two are what is told, and
// have no value beside them.
#[derive(Clone, Copy)]
pub struct TypePlaces {
    pub words: Place,
    pub constant: bool,
    pub not_null: bool,
}

// Places in a text: the name, the type's words, and the default, if there is one; then whether CONSTANT stands ahead of the
// type and NOT NULL behind it, which have no value beside them. A part that has no type declares nothing: its `kind.len` is 0, by
// which the definition `read_of` says so too. No Option: `read_part` tells the places of any part, and only `add_part` in
// `declared_records` asks whether the type is empty; an Option would be wrapped in `read_part` and taken apart again there.
#[derive(Clone, Copy)]
pub struct DeclarationPlaces {
    pub name: Place,
    pub kind: Place,
    pub value: Option<Place>,
    pub constant: bool,
    pub not_null: bool,
}

// Where the bytes of the set end that stand at the front of the text between the two places. The places are offsets in the
// whole text, as all that is read here; of a part of the text each caller would add where the part begins, and a struct of
// the two would be built for each call, since each call has another pair.
#[tactic(auto, using(crate::proofs::BetweenLaws::between_length))]
fn run_end_between(text: &[u8], set: Set, from: usize, to: usize) -> usize
    requires from_le_to { from ≤ to }
    requires to_in_bounds { to ≤ length text.now }
    ensures value { result ≡ from + length (take_while (in_set set) (part from to text.now)) }
    ensures in_range { (from ≤ result) × (result ≤ to) }
{
    from + run_end(&text[from..to], set, 0)
}

// Where W begins that stands at the end of the text between the two places, which are offsets as above.
#[tactic(auto, using(crate::proofs::BetweenLaws::between_length, runs::proofs::RunLaws::start_whole))]
fn trim_end(text: &[u8], from: usize, to: usize) -> usize
    requires from_le_to { from ≤ to }
    requires to_in_bounds { to ≤ length text.now }
    ensures value { result ≡ from + length (drop_end is_w (part from to text.now)) }
    ensures in_range { (from ≤ result) × (result ≤ to) }
{
    let part = &text[from..to];
    from + run_start(part, Set::W, part.len())
}

// Whether a lone `=` stands at i: no `=` on either side and no `>` behind.
#[tactic(auto, using(crate::proofs::DefaultCutLaws::lone_no, crate::proofs::DefaultCutLaws::lone_behind, spec::proofs::RefusalBounds::bytes_length))]
fn is_lone(text: &MappedText<'_>, i: usize) -> bool
    requires { i < length text.now }
    ensures { result ≡ is_lone (reverse (take i text.now)) (drop i text.now) }
{
    lone_equals(text.text(), i) && byte_before(text.text(), i) != b'='
}

// Whether a default key can start with b.
#[tactic(auto, unfolding(crate::specs::DeclaredParts::starts_key))]
fn starts_key(b: u8) -> bool
    ensures { result ≡ starts_key b }
{
    b == b':' || b == b'=' || upper_of(b) == b'D'
}

// How many bytes the default key at i has, if one stands there: 2 of a live `:=`, 1 of a live lone `=`, 7 of a live DEFAULT.
#[tactic(auto, using(crate::proofs::DefaultCutLaws::key_other, crate::proofs::DefaultCutLaws::key_quoted, crate::proofs::DefaultCutLaws::key_assign, crate::proofs::DefaultCutLaws::key_equals, crate::proofs::DefaultCutLaws::key_word, crate::proofs::DefaultCutLaws::key_none, std::proofs::lemmas::List::take_rest, spec::proofs::RefusalBounds::bytes_length))]
fn default_key(text: &MappedText<'_>, i: usize) -> Option<usize>
    requires { i < length text.now }
    ensures { result ≡ key_at text.now i }
{
    // Most bytes fail here.
    if !starts_key(text.byte(i)) || !text.is_live(i) {
        None
    } else if starts_with(&text.text()[i..], b":=") {
        Some(2)
    } else if is_lone(text, i) {
        Some(1)
    } else if text.keyword_at(b"DEFAULT", i) {
        Some(7)
    } else {
        None
    }
}

// Where a part is cut for the default key at i, if one stands there.
#[tactic(auto, using(crate::proofs::DefaultCutLaws::key_within), unfolding(crate::specs::DeclaredParts::cut_at))]
fn cut_at(text: &MappedText<'_>, i: usize) -> Option<Cut>
    requires in_bounds { i < length text.now }
    requires text_len_bound { length text.now < 2 ^ 64 }
    ensures { result ≡ cut_at text.now i }
{
    let n = default_key(text, i)?;
    Some(Cut {
        head: i,
        rest: Some(i + n),
    })
}

// Where a part, trimmed of W, is cut for its default: at its leftmost default key.
fn find_default(text: &MappedText<'_>) -> Cut
    ensures value { result ≡ cut_in text.now }
    ensures fits { Fits result (length text.now) }
{
    let cut = (0..text.len()).find_map(|i| cut_at(text, i));
    cut.unwrap_or(Cut {
        head: text.len(),
        rest: None,
    })
}

// Whether the text is this word, in any letter case.
fn is_text(text: &[u8], word: &[u8]) -> bool
    ensures { result ≡ is_text word.now text.now }
{
    text.eq_ignore_ascii_case(word)
}

// How many bytes CONSTANT and the W behind it take at the front of a text, if its first word is CONSTANT.
#[tactic(auto, unfolding(crate::specs::DeclaredParts::constant_len))]
fn constant_len(text: &[u8]) -> Option<usize>
    ensures value { result ≡ constant_len text.now }
    ensures upper_bound { unwrap_or result 0 ≤ length text.now }
{
    let end = run_end(text, Set::NotW, 0);
    is_text(&text[..end], b"CONSTANT").then(|| run_end(text, Set::W, end))
}

// The last word of a text; empty if there is none.
#[tactic(auto, using(crate::proofs::TypePlaceLaws::last_by))]
fn last_word(text: &[u8]) -> Place
    ensures value { result ≡ last_word text.now }
    ensures within { result.at + result.len ≤ length text.now }
{
    let end = run_start(text, Set::W, text.len());
    let at = run_start(text, Set::NotW, end);
    Place { at, len: end - at }
}

// How many bytes of a text stand ahead of NOT NULL, if its last two words are these.
#[tactic(auto, using(crate::proofs::TypePlaceLaws::both_stand, crate::proofs::TypePlaceLaws::not_missing, crate::proofs::TypePlaceLaws::null_missing))]
fn ahead_of_not_null(text: &[u8]) -> Option<usize>
    ensures value { result ≡ type_len text.now }
    ensures upper_bound { unwrap_or result (length text.now) ≤ length text.now }
{
    let last = last_word(text);
    if !is_text(last.of(text), b"NULL") {
        return None;
    }
    let front = &text[..last.at];
    let second = last_word(front);
    is_text(second.of(front), b"NOT").then_some(second.at)
}

// The type in what stands behind a name.
#[tactic(auto, using(std::proofs::lemmas::List::take_rest))]
fn read_type(text: &[u8]) -> TypePlaces
    ensures value { result ≡ type_in text.now }
    ensures within { result.words.at + result.words.len ≤ length text.now }
{
    let start = run_end(text, Set::W, 0);
    let constant = constant_len(&text[start..]);
    let from = start + constant.unwrap_or(0);
    let ahead = ahead_of_not_null(&text[from..]);
    let len = ahead.unwrap_or(text.len() - from);
    TypePlaces {
        words: Place { at: from, len },
        constant: constant.is_some(),
        not_null: ahead.is_some(),
    }
}

// Where a default stands without W at both ends, if there is one, by where it begins behind `from`.
fn value_place(text: &[u8], from: usize, to: usize, rest: Option<usize>) -> Option<Place>
    requires inside { (r : ℕ) → rest ≡ Some r → from + r ≤ to }
    requires to_in_bounds { to ≤ length text.now }
    ensures value { result ≡ value_place text.now from to rest }
    ensures within { PlaceWithin to result }
{
    let r = rest?;
    let at = run_end_between(text, Set::W, from + r, to);
    let end = trim_end(text, at, to);
    Some(Place { at, len: end - at })
}

// The part of a text between the two places.
#[tactic(auto, using(crate::proofs::BetweenLaws::between_length, spec::proofs::RefusalBounds::bytes_length))]
pub fn read_part(text: &MappedText<'_>, from: usize, to: usize) -> DeclarationPlaces
    requires from_le_to { from ≤ to }
    requires to_in_bounds { to ≤ length text.now }
    ensures map_value { declaration (part from to text.now) ≡ read_of (bytes text.now) result }
    ensures within { Within (length text.now) result }
{
    let bytes = text.text();
    let start = run_end_between(bytes, Set::W, from, to);
    // W alone declares nothing, and there is nothing in it to look for.
    if start == to {
        let nothing = Place { at: to, len: 0 };
        return DeclarationPlaces {
            name: nothing,
            kind: nothing,
            value: None,
            constant: false,
            not_null: false,
        };
    }
    let end = trim_end(bytes, start, to);
    let cut = find_default(&text.part(start, end));
    let head = start + cut.head;
    let name = run_end_between(bytes, Set::W, start, head);
    let name_end = run_end_between(bytes, Set::NotW, name, head);
    let kind = read_type(&bytes[name_end..head]);
    DeclarationPlaces {
        name: Place {
            at: name,
            len: name_end - name,
        },
        kind: Place {
            at: name_end + kind.words.at,
            len: kind.words.len,
        },
        value: value_place(bytes, start, end, cut.rest),
        constant: kind.constant,
        not_null: kind.not_null,
    }
}

// The words of a text that does not start with W, joined by single spaces.
#[tactic(auto, using(crate::proofs::SpacedLaws::spaced_over, crate::proofs::SpacedLaws::spaced_w, crate::proofs::SpacedLaws::spaced_gap, crate::proofs::SpacedLaws::spaced_next, output::proofs::WriterLaws::left_start, output::proofs::WriterLaws::left_more, output::proofs::WriterLaws::left_done))]
pub fn put_spaced(out: &mut Writer<'_>, text: &[u8])
    requires { out.old.len + 2 * length text.now < 2 ^ 63 }
    ensures { Wrote out.old (spaced false text.now) out.new }
{
    let mut gap = false;
    for &b in text {
        if is_w(b) {
            gap = true;
        } else if gap {
            out.put(b' ');
            out.put(b);
            gap = false;
        } else {
            out.put(b);
        }
    }
}

// Whether x comes before y in byte order. By `cmp`, which passes equal bytes in groups: `<` goes byte by byte, and with it
// `declarations::parse_declarations` took 3.5 times as long as with `cmp` on 80 names of 180 letters that differ in the last.
#[tactic(auto, using(crate::proofs::DeclaredNameLaws::before_of_library))]
pub fn comes_before(x: &[u8], y: &[u8]) -> bool
    ensures { result ≡ is_before x.now y.now }
{
    x.cmp(&y).is_lt()
}

// What stands inside a default that is wholly `$tag$..$tag$`: between its two delimiters, of d bytes each.
fn inside_whole<'a>(text: &'a [u8]) -> Option<&'a [u8]>
    ensures { option_copied result ≡ inside_of text.now }
{
    let d = run_end(text, Set::Ident, 1) + 1;
    let is_whole = d <= text.len() / 2
        && text[0] == b'$'
        && text[d - 1] == b'$'
        && text[text.len() - d..] == text[..d];
    is_whole.then(|| &text[d..text.len() - d])
}

// A default, requoted.
#[tactic(auto, using(crate::proofs::WholeLaws::inside_text, crate::proofs::WholeLaws::inside_none, crate::proofs::WholeLaws::inside_le, output::proofs::WriterLaws::wrote_same))]
pub fn put_requoted(out: &mut Writer<'_>, text: &[u8])
    requires { out.old.len + 2 * length text.now + 2 < 2 ^ 63 }
    ensures { Wrote out.old (requoted_default text.now) out.new }
{
    match inside_whole(text) {
        Some(inside) => out.put_single_quoted(inside),
        None => out.put_all(text),
    }
}
