// What pass 4 reads: a map that knows `'` and `"` only, and keywords and lists outside parentheses and those quotes.
// A text, a word, a place in the text and the depth there are arguments of their own: one text has many places.
#![tactic(auto)]

ghost use Rattle.std.specs.Prelude.{◌≡◌, ℕ, Bool, cond, ◌&&◌, reverse, ◌+◌, ◌^◌, ◌≤◌, ◌<◌, eqb, length, get_or, take, drop, None};
ghost use Rattle.spec.specs.Bytes.{is_ident, is_quote};
ghost use Rattle.spec.specs.Lists.{is_empty};
ghost use Rattle.spec.specs.Map.{live, is_live_byte, front_byte};
ghost use Rattle.spec.specs.Search.{Test, first, word_here};
ghost use Rattle.spec.specs.SelectInto.{quote_after, quote_walk, depth_after, depth_of, top_word_here, comma_here, listed, place_or};
ghost use Rattle.spec.specs.Answers.{kept_behind};
ghost use Rattle.quotes.specs.QuoteMap.{quote_flag, quote_map};
ghost use Rattle.quotes.specs.Items.{FirstItem};
ghost use Rattle.quotes.specs.Limits.{limit_next, limit_from};

use classes::upper_of;
use runs::{Place, Set, run_end, trim};
use scanner::MappedText;
use std::marker::Model;

// A single or a double quote.
#[tactic(auto, unfolding(spec::specs::Bytes::is_quote))]
fn is_quote(b: u8) -> bool
    ensures { result ≡ is_quote b }
{
    matches!(b, b'\'' | b'"')
}

// The map byte of b, the quote q being open before it, 0 for none. Not an `Option`: the definitions of the walk read a number,
// so each contract would have to say which number an `Option` stands for.
#[tactic(auto, unfolding(crate::specs::QuoteMap::quote_flag))]
fn quote_flag(q: u8, b: u8) -> u8
    ensures { result ≡ quote_flag q b }
{
    u8::from(q != 0 || is_quote(b))
}

// The quote that is open behind b, 0 for none.
#[tactic(auto, unfolding(spec::specs::SelectInto::quote_after))]
fn quote_after(q: u8, b: u8) -> u8
    ensures { result ≡ quote_after q b }
{
    if q == 0 {
        if is_quote(b) { b } else { 0 }
    } else if b == q {
        0
    } else {
        q
    }
}

// The map of `text`, at the front of `map`.
#[tactic(auto, using(crate::proofs::QuoteMapLaws::quotes_kept, crate::proofs::QuoteMapLaws::quotes_start, crate::proofs::QuoteMapLaws::quotes_step, crate::proofs::QuoteMapLaws::quotes_end))]
pub fn map_quotes(text: &[u8], map: &mut [u8])
    requires { length text.now ≤ length map.old }
    ensures { map.new ≡ kept_behind (quote_map text.now) map.old }
{
    let mut q: u8 = 0;
    // `map[i]`, and no `iter_mut` on the map beside the text: the map may be longer, and of the elements that such an iterator
    // leaves behind nothing is known.
    for (i, b) in text.iter().enumerate() {
        map[i] = quote_flag(q, *b);
        q = quote_after(q, *b);
    }
}

// A text with its map of quotes, which is written at the front of the buffer.
#[tactic(auto, using(crate::proofs::QuoteMapLaws::quote_marks))]
pub fn quotes_mapped<'a>(text: &'a [u8], map: &'a mut [u8]) -> MappedText<'a>
    requires { length text.now ≤ length map.old }
    ensures { result ≡ quote_walk 0 text.now }
{
    map_quotes(text, map);
    MappedText::new(text, map)
}

// How many parentheses are open behind the byte at i, d being open before it.
#[tactic(auto, using(crate::proofs::DepthLaws::depth_mark))]
fn depth_after(text: &MappedText<'_>, i: usize, d: usize) -> usize
    requires i_in_bounds { i < length text.now }
    requires d_bound { d + 1 < 2 ^ 64 }
    ensures { result ≡ depth_after (get_or text.now i (live 0)) d }
{
    match text.byte(i) {
        b'(' if text.is_live(i) => d + 1,
        b')' if text.is_live(i) => d.saturating_sub(1),
        _ => d,
    }
}

// How many parentheses are open before offset `to`.
fn depth_before(text: &MappedText<'_>, to: usize) -> usize
    ensures { result ≡ depth_of (reverse (take to text.now)) }
{
    (0..to.min(text.len())).fold(0, |d, i| depth_after(text, i, d))
}

// Whether `word` stands live at i as a whole word, in any letter case, outside parentheses; d are open before it.
fn top_word_at(text: &MappedText<'_>, word: &[u8], d: usize, i: usize) -> bool
    requires { i < length text.now }
    ensures { result ≡ (word_here is_ident word.now (front_byte (reverse (take i text.now))) (drop i text.now) && eqb d 0) }
{
    d == 0 && text.word_at(word, i)
}

// The least place at or after `from` that passes the test, which is asked of the place and of how many parentheses are open before it.
#[tactic(auto, using(spec::proofs::WalkLaws::first_end, spec::proofs::WalkLaws::first_hit, spec::proofs::WalkLaws::first_miss, crate::proofs::DepthLaws::depth_bound, crate::proofs::DepthLaws::depth_step))]
fn find_by_depth<F: Fn(usize, usize) -> bool>(
    text: &MappedText<'_>,
    from: usize,
    test: F,
) -> Option<usize>
    requires callable { (i d : ℕ) → i < length text.now → F.pre test i d }
    ensures { (p : Test) → ((i : ℕ) (r : Bool) → i < length text.now → F.post test i (depth_of (reverse (take i text.now))) r → r ≡ p (reverse (take i text.now)) (drop i text.now)) → result ≡ first p from text.now }
{
    let mut depth = depth_before(text, from);
    // A loop, since the depth goes along with the search: a `find` would keep it in a variable that its closure changes.
    for i in from..text.len() {
        if test(i, depth) {
            return Some(i);
        }
        depth = depth_after(text, i, depth);
    }
    None
}

// The least place at or after `from` where `word` stands so.
#[tactic(auto, using(spec::proofs::FirstLaws::empty_word, spec::proofs::FirstLaws::nonempty_word, crate::proofs::DepthLaws::top_at))]
pub fn find_top_keyword(text: &MappedText<'_>, word: &[u8], from: usize) -> Option<usize>
    ensures { result ≡ cond (is_empty word.now) None (first (top_word_here word.now) from text.now) }
{
    if word.is_empty() {
        return None;
    }
    find_by_depth(text, from, |i, d| top_word_at(text, word, d, i))
}

// Whether a live comma outside parentheses stands at i, d being open before it.
fn is_comma(text: &MappedText<'_>, i: usize, d: usize) -> bool
    requires { i < length text.now }
    ensures { result ≡ (is_live_byte 44 (get_or text.now i (live 0)) && eqb d 0) }
{
    text.is_live_byte(i, b',') && d == 0
}

// How many bytes stand before the first comma outside parentheses and quotes; all of them if there is none.
#[tactic(auto, using(crate::proofs::DepthLaws::comma_passes))]
fn comma_at(text: &MappedText<'_>) -> usize
    ensures { result ≡ place_or (first comma_here 0 text.now) (length text.now) }
{
    find_by_depth(text, 0, |i, d| is_comma(text, i, d)).unwrap_or(text.len())
}

// The first part of a list.
#[derive(Clone, Copy)]
pub struct Item {
    pub place: Place,
    // Where the search for the one behind it starts.
    pub next: usize,
}

// The first part from offset `from` on of the list that the text is: its parts stand between commas outside parentheses and
// quotes, are trimmed of W, and are not empty.
#[tactic(auto, using(spec::proofs::RefusalBounds::bytes_length, crate::proofs::ItemLaws::comma_within, crate::proofs::ItemLaws::item_fits, crate::proofs::ItemLaws::item_found, crate::proofs::ItemLaws::item_skip, crate::proofs::ItemLaws::item_over))]
pub fn next_item(text: &MappedText<'_>, from: usize) -> Option<Item>
    ensures { FirstItem text.now from result }
{
    let bytes = text.text();
    let mut at = from;
    // A `while`, since a turn goes on behind the next comma: no `for` counts it.
    while at < text.len() {
        let end = at + comma_at(&text.rest(at));
        let piece = &bytes[at..end];
        let len = trim(piece).len();
        if len != 0 {
            let start = at + run_end(piece, Set::W, 0);
            return Some(Item {
                place: Place { at: start, len },
                next: end + 1,
            });
        }
        at = end + 1;
    }
    None
}

// The parts of a list that are left, seen as the list of them.
#[derive(Drop)]
pub struct Items<'a> {
    list: MappedText<'a>,
    from: usize,
}

impl<'a> Model for Items<'a> {
    ghost use Rattle.std.specs.Prelude.{List, drop};
    ghost use Rattle.spec.specs.Map.{Marked};
    ghost use Rattle.spec.specs.SelectInto.{listed};

    ghost Value = { List (List Marked) };

    ghost view = { λ s. listed (drop s.from s.list) };
}

impl<'a> Items<'a> {
    // All parts of a list.
    #[tactic(auto, using(std::proofs::lemmas::List::take_rest))]
    pub fn new(list: &MappedText<'a>) -> Items<'a>
        ensures value { result ≡ listed list.now }
        ensures upper_bound { length result < 2 ^ 64 }
    {
        Items {
            list: list.part(0, list.len()),
            from: 0,
        }
    }
}

impl<'a> Iterator for Items<'a> {
    ghost use Rattle.std.specs.Iterator.{YieldsFirst, item_count};

    type Item = MappedText<'a>;

    ghost next_gives = { YieldsFirst (λ s. s) };

    ghost remaining = { item_count (λ s. s) };

    #[tactic(auto, using(crate::proofs::ItemLaws::item_part))]
    fn next(&mut self) -> Option<MappedText<'a>> {
        let Item { place, next } = next_item(&self.list, self.from)?;
        self.from = next;
        Some(self.list.part(place.at, place.at + place.len))
    }
}

// How many bytes ` LIMIT ` has: as many are matched behind a text that holds it.
pub const LIMIT_LEN: usize = 7;

// How many bytes of ` LIMIT ` stand matched behind b, k being matched before it.
#[tactic(auto, unfolding(crate::specs::Limits::limit_next))]
fn limit_next(k: usize, b: u8) -> usize
    requires { k ≤ 7 }
    ensures value { result ≡ limit_next k b }
    ensures upper_bound { result ≤ 7 }
{
    match upper_of(b) {
        _ if k == LIMIT_LEN => LIMIT_LEN,
        u if u == b" LIMIT "[k] => k + 1,
        b' ' => 1,
        _ => 0,
    }
}

// How many bytes of ` LIMIT `, in any letter case, stand matched behind `text`, k being matched before it: a text that comes
// in parts holds it if all are matched behind the last part.
pub fn limit_after(k: usize, text: &[u8]) -> usize
    requires { k ≤ 7 }
    ensures value { result ≡ limit_from k text.now }
    ensures upper_bound { result ≤ 7 }
{
    text.iter().fold(
        k,
        |n, b|
            requires { n ≤ 7 }
        { limit_next(n, *b) },
    )
}
