// The scanner: the map of a text, and searches on a text whose map is already made.
// A word, a needle and a place in the text are arguments of their own: one text is searched for many words, from many places. What
// reads the byte at a place asks that it lies within the text: a struct of the two would be made, and ask the same, for each place.
// What fills a map asks for room for the text, as a copy into a slice does.
#![tactic(auto)]

ghost use Rattle.std.specs.Prelude.{◌≡◌, ℕ, Bool, ◌^◌, cond, reverse, ◌+◌, ◌-◌, ◌≤◌, ◌<◌, length, get_or, take, drop, replicate, None};
ghost use Rattle.std.proofs.lemmas.List.Edits.{sets};
ghost use Rattle.spec.specs.Bytes.{ascii, is_ident, upper, prefix_by};
ghost use Rattle.spec.specs.Lists.{is_empty, take_while};
ghost use Rattle.spec.specs.Map.{Marked, live, byte, is_live, bytes, map_of, marked, marked_text, is_live_byte, front_byte, span_flag};
ghost use Rattle.spec.specs.Search.{first, word_here, keyword_here, byte_here, needle_here, is_skipped, is_word_mark, next_word, is_word_text, pieces, starts_from, is_unclosed, has_unterminated_dollar_quote, is_found, handler_here};
ghost use Rattle.spec.specs.Answers.{kept_behind};
ghost use Rattle.scanner.specs.Edges.{edges};

use classes::{byte_at, byte_before, is_ident_byte, is_n, is_word_byte, starts_with, upper_of};
use output::fill;
use spans::Cursor;
use spec::Span;
use std::marker::Model;

// The map byte of a span: 0 for live text, 1 for the others.
fn span_flag(s: Span) -> u8
    ensures { result ≡ span_flag s }
{
    match s {
        Span::Verbatim(_) | Span::Dollar(_) => 1,
        Span::Code(_) => 0,
    }
}

// A span's flag in the map. Most spans are one live byte, which is stored without a loop.
fn mark_span(map: &mut [u8], from: usize, to: usize, flag: u8)
    ensures { map.new ≡ sets map.old from (replicate (to - from) flag) }
{
    if from < map.len() && from + 1 == to {
        map[from] = flag;
    } else {
        fill(map, from, to, flag);
    }
}

// The map of `text`, at the front of `map`: a walk by `spans::Cursor`.
#[tactic(auto, using(spans::proofs::StepLaws::step_taken, spans::proofs::StepLaws::step_done, crate::proofs::SpanWalkLaws::map_turn, crate::proofs::SpanWalkLaws::map_over, crate::proofs::SpanWalkLaws::map_kept))]
pub fn map_text(text: &[u8], map: &mut [u8])
    requires { length text.now ≤ length map.old }
    ensures { map.new ≡ kept_behind (map_of text.now) map.old }
{
    let mut cursor = Cursor { at: 0 };
    while let Some((s, next)) = cursor.step(text) {
        mark_span(map, cursor.at, next.at, span_flag(s));
        cursor = next;
    }
}

// A text with its map, seen as marked bytes; map bytes that are missing count as live.
#[derive(Drop)]
pub struct MappedText<'a> {
    text: &'a [u8],
    map: &'a [u8],
}

impl<'a> Model for MappedText<'a> {
    ghost use Rattle.std.specs.Prelude.{List};
    ghost use Rattle.spec.specs.Map.{Marked, marked};

    ghost Value = { List Marked };

    ghost view = { λ t. marked t.text.now t.map.now };
}

impl<'a> MappedText<'a> {
    // A text with a map that is already made.
    pub fn new(text: &'a [u8], map: &'a [u8]) -> MappedText<'a>
        ensures { result ≡ marked text.now map.now }
    {
        MappedText { text, map }
    }

    // A text with its own map, which is written at the front of the buffer.
    #[tactic(auto, using(spec::proofs::WalkLaws::marked_kept), unfolding(spec::specs::Map::marked_text))]
    pub fn mapped(text: &'a [u8], map: &'a mut [u8]) -> MappedText<'a>
        requires { length text.now ≤ length map.old }
        ensures { result ≡ marked_text text.now }
    {
        map_text(text, map);
        MappedText::new(text, map)
    }

    // How many bytes it has.
    #[tactic(auto, using(spec::proofs::MapLaws::marked_length))]
    pub fn len(&self) -> usize
        ensures { result ≡ length self.now }
    {
        self.text.len()
    }

    // Its bytes.
    #[tactic(auto, using(spec::proofs::MapLaws::marked_bytes))]
    pub fn text(&self) -> &'a [u8]
        ensures { result.now ≡ bytes self.now }
    {
        self.text
    }

    // What stands from one offset up to the other.
    #[tactic(auto, using(spec::proofs::MapLaws::marked_length, crate::proofs::PartLaws::part_marked))]
    pub fn part(&self, from: usize, to: usize) -> MappedText<'a>
        requires from_le_to { from ≤ to }
        requires to_in_bounds { to ≤ length self.now }
        ensures { result ≡ take (to - from) (drop from self.now) }
    {
        MappedText {
            text: &self.text[from..to],
            map: rest_of(self.map, from),
        }
    }

    // What stands from an offset on.
    #[tactic(auto, using(spec::proofs::MapLaws::marked_length, spec::proofs::WalkLaws::marked_drop, std::proofs::lemmas::List::take_rest))]
    pub fn rest(&self, from: usize) -> MappedText<'a>
        requires { from ≤ length self.now }
        ensures { result ≡ drop from self.now }
    {
        MappedText {
            text: &self.text[from..],
            map: rest_of(self.map, from),
        }
    }

    // The byte at i.
    #[tactic(auto, using(spec::proofs::MapLaws::marked_length, crate::proofs::ByteLaws::byte_marked))]
    pub fn byte(&self, i: usize) -> u8
        requires { i < length self.now }
        ensures { result ≡ byte (get_or self.now i (live 0)) }
    {
        self.text[i]
    }

    // Whether the byte at i is live.
    #[tactic(auto, using(spec::proofs::MapLaws::marked_length, crate::proofs::ByteLaws::live_marked))]
    pub fn is_live(&self, i: usize) -> bool
        requires { i < length self.now }
        ensures { result ≡ is_live (get_or self.now i (live 0)) }
    {
        byte_at(self.map, i) == 0
    }

    // Whether the byte at i is the live byte b.
    #[tactic(auto, using(crate::proofs::ByteLaws::live_byte))]
    pub fn is_live_byte(&self, i: usize, b: u8) -> bool
        requires { i < length self.now }
        ensures { result ≡ is_live_byte b (get_or self.now i (live 0)) }
    {
        self.is_live(i) && self.byte(i) == b
    }

    // Whether the n bytes at i start live and have no word byte on either side.
    #[tactic(auto, using(spec::proofs::MapLaws::marked_length, crate::proofs::ByteLaws::live_marked, crate::proofs::KeywordLaws::edges_marked))]
    fn edges_at(&self, n: usize, i: usize) -> bool
        requires i_in_bounds { i < length self.now }
        requires n_in_bounds { i + n ≤ length self.now }
        ensures { result ≡ edges self.now n i }
    {
        self.is_live(i)
            && !is_word_byte(byte_before(self.text, i))
            && !is_word_byte(byte_at(self.text, i + n))
    }

    // Whether `word` stands live at i, in any letter case, with no byte that passes the test on either side. Most places fail at the
    // comparison.
    #[tactic(auto, using(spec::proofs::MapLaws::marked_length, std::proofs::lemmas::List::take_rest, crate::proofs::ByteLaws::live_marked, crate::proofs::KeywordLaws::word_here_lem, crate::proofs::KeywordLaws::prefix_fits, crate::proofs::KeywordLaws::byte_behind))]
    fn stands_apart<F: Fn(u8) -> bool>(&self, word: &[u8], i: usize, test: F) -> bool
        requires callable { F.IsAlwaysCallable test }
        requires i_in_bounds { i < length self.now }
        ensures { (f : ℕ → Bool) → ((b : ℕ) (r : Bool) → b < 2 ^ 8 → F.post test b r → r ≡ f b) → result ≡ word_here f word.now (front_byte (reverse (take i self.now))) (drop i self.now) }
    {
        starts_ignoring_case(&self.text[i..], word)
            && self.is_live(i)
            && !test(byte_before(self.text, i))
            && !test(byte_at(self.text, i + word.len()))
    }

    // Whether `word` stands live at i, as a whole word, in any letter case.
    #[tactic(auto, unfolding(spec::specs::Search::keyword_here))]
    pub fn keyword_at(&self, word: &[u8], i: usize) -> bool
        requires { i < length self.now }
        ensures { result ≡ keyword_here word.now (reverse (take i self.now)) (drop i self.now) }
    {
        self.stands_apart(word, i, is_word_byte)
    }

    // Whether `word` stands live at i, in any letter case, with no identifier byte on either side.
    pub fn word_at(&self, word: &[u8], i: usize) -> bool
        requires { i < length self.now }
        ensures { result ≡ word_here is_ident word.now (front_byte (reverse (take i self.now))) (drop i self.now) }
    {
        self.stands_apart(word, i, is_ident_byte)
    }

    // The least place at or after `from` where `word` stands live, as a whole word, in any letter case.
    #[tactic(auto, using(spec::proofs::FirstLaws::empty_word, spec::proofs::FirstLaws::nonempty_word, std::proofs::lemmas::List::take_rest, spec::proofs::MapLaws::marked_length, crate::proofs::KeywordLaws::key_initial, crate::proofs::KeywordLaws::key_edge, crate::proofs::KeywordLaws::key_off, crate::proofs::KeywordLaws::key_hit, crate::proofs::KeywordLaws::key_end, crate::proofs::KeywordLaws::next_byte, crate::proofs::KeywordLaws::key_differs, crate::proofs::KeywordLaws::key_whole))]
    pub fn find_keyword(&self, word: &[u8], from: usize) -> Option<usize>
        ensures { result ≡ cond (is_empty word.now) None (first (keyword_here word.now) from self.now) }
    {
        let n = word.len();
        if n == 0 {
            return None;
        }
        let last = self.text.len().checked_sub(n)?;
        let initial = upper_of(word[0]);
        let mut i = from;
        // The project's list of forms (docs/DECISIONS.md) names this one: a loop over offsets that gives its place by `break`, and in it
        // the comparison of bytes, left by a label.
        let place = 'offsets: loop {
            if last < i {
                return None;
            }
            let at = i;
            i += 1;
            // Most places fail here.
            if upper_of(self.text[at]) != initial {
                continue 'offsets;
            }
            if self.edges_at(n, at) {
                for j in 0..n {
                    if upper_of(self.text[at + j]) != upper_of(word[j]) {
                        continue 'offsets;
                    }
                }
                break at;
            }
        };
        Some(place)
    }

    // The least place at or after `from` of the live byte b.
    pub fn find_byte(&self, b: u8, from: usize) -> Option<usize>
        ensures { result ≡ first (byte_here b) from self.now }
    {
        (from..self.len()).find(
            |i|
                requires { i.now < length self.now }
            { self.is_live_byte(*i, b) },
        )
    }

    // Whether `needle` stands at i, its first byte live.
    #[tactic(auto, using(spec::proofs::MapLaws::marked_length, std::proofs::lemmas::List::take_rest, crate::proofs::ByteLaws::byte_marked, crate::proofs::ByteLaws::live_marked, crate::proofs::NeedleLaws::needle_at, crate::proofs::NeedleLaws::needle_differs))]
    fn needle_at(&self, needle: &[u8], i: usize) -> bool
        requires needle_nonempty { 0 < length needle.now }
        requires i_in_bounds { i < length self.now }
        ensures { result ≡ needle_here needle.now (reverse (take i self.now)) (drop i self.now) }
    {
        // Most places fail here.
        self.byte(i) == needle[0] && self.is_live(i) && starts_with(&self.text[i..], needle)
    }

    // The least place at or after `from` where `needle` stands, its first byte live.
    #[tactic(auto, using(spec::proofs::FirstLaws::empty_word))]
    pub fn find_str(&self, needle: &[u8], from: usize) -> Option<usize>
        ensures { result ≡ cond (is_empty needle.now) None (first (needle_here needle.now) from self.now) }
    {
        if needle.is_empty() {
            return None;
        }
        (from..self.len()).find(
            |i|
                requires needle_nonempty { 0 < length needle.now }
                requires i_in_bounds { i.now < length self.now }
            { self.needle_at(needle, *i) },
        )
    }

    // Where the bytes from `from` on that pass the test, which is asked whether a byte is live and of the byte, end.
    fn run_end<F: Fn(bool, u8) -> bool>(&self, from: usize, test: F) -> usize
        requires { F.IsAlwaysCallable test }
        ensures { (f : Marked → Bool) → ((x : Marked) (r : Bool) → byte x < 2 ^ 8 → F.post test (is_live x) (byte x) r → r ≡ f x) → result ≡ from + length (take_while f (drop from self.now)) }
    {
        from + (from..self.len())
            .take_while(
                |i|
                    requires in_bounds { i.now < length self.now }
                    requires callable { F.IsAlwaysCallable test }
                { test(self.is_live(*i), self.byte(*i)) },
            )
            .count()
    }

    // Where the bytes that are skipped from `from` on end.
    pub fn word_start(&self, from: usize) -> usize
        ensures { result ≡ from + length (take_while is_skipped (drop from self.now)) }
    {
        self.run_end(from, is_skipped)
    }

    // Where the live word bytes from `from` on end.
    pub fn word_end(&self, from: usize) -> usize
        ensures { result ≡ from + length (take_while is_word_mark (drop from self.now)) }
    {
        self.run_end(from, is_word_mark)
    }

    // Where each piece between live bytes `separator` starts, at the front of `starts`; the result is how many there are.
    #[tactic(auto, using(spec::proofs::MapLaws::marked_length, crate::proofs::SplitLaws::starts_split, crate::proofs::SplitLaws::starts_kept, crate::proofs::SplitLaws::starts_end, crate::proofs::SplitLaws::starts_hit, crate::proofs::SplitLaws::store_hit, crate::proofs::SplitLaws::starts_miss))]
    pub fn split(&self, starts: &mut [u32], separator: u8) -> usize
        requires text_len_bound { length self.now ≤ 65536 }
        requires text_in_bounds { length self.now < length starts.old }
        ensures value { result ≡ length (starts_from 0 (pieces (byte_here separator) self.now)) }
        ensures starts_after { starts.new ≡ kept_behind (starts_from 0 (pieces (byte_here separator) self.now)) starts.old }
    {
        starts[0] = 0;
        // Counted by hand: of the elements behind an adapter of `iter_mut`, as a `zip` with the offsets, the library's contracts say
        // nothing.
        let mut n: usize = 1;
        for i in 0..self.len() {
            if self.is_live_byte(i, separator) {
                starts[n] = i as u32 + 1;
                n += 1;
            }
        }
        n
    }

    // Whether the next live word from `from` on is WHEN.
    #[tactic(auto, using(spec::proofs::RefusalBounds::bytes_length, crate::proofs::WordLaws::word_within, crate::proofs::WordLaws::word_is))]
    fn next_is_when(&self, from: usize) -> bool
        ensures { result ≡ is_word_text (ascii "WHEN") (next_word (drop from self.now)) }
    {
        let start = self.word_start(from);
        let end = self.word_end(start);
        end - start == 4 && starts_ignoring_case(&self.text()[start..end], b"WHEN")
    }

    // Whether a live EXCEPTION has WHEN as its next live word: a search from keyword to keyword. `any` over the offsets with
    // `keyword_at` was proved too, but `has_exception_handler` took 1.3 times as long on a realistic body and 1.5 times on letters,
    // where 1.25 is the bar (docs/DESIGN-PASS.md).
    #[tactic(auto, using(spec::proofs::FirstLaws::nonempty_word, spec::proofs::MapLaws::marked_length, crate::proofs::HandlerLaws::handler_none, crate::proofs::HandlerLaws::keyword_within, crate::proofs::HandlerLaws::handler_hit, crate::proofs::HandlerLaws::handler_miss))]
    pub fn has_handler(&self) -> bool
        ensures { result ≡ is_found (first handler_here 0 self.now) }
    {
        // It has fewer than 2^63 bytes, as any slice has.
        let _ = &self.text;
        let mut from: usize = 0;
        while let Some(at) = self.find_keyword(b"EXCEPTION", from) {
            if self.next_is_when(at + 9) {
                return true;
            }
            // A turn goes on behind the first byte of what it found.
            from = at + 1;
        }
        false
    }
}

// What stands from an offset on, nothing past the end.
fn rest_of<'a>(map: &'a [u8], from: usize) -> &'a [u8]
    ensures { result.now ≡ drop from map.now }
{
    map.get(from..).unwrap_or(&[])
}

// Whether a byte is skipped ahead of a word: N and quoted bytes are.
#[tactic(auto, using(crate::proofs::ByteLaws::skipped_mark))]
fn is_skipped(live: bool, b: u8) -> bool
    ensures { (x : Marked) → is_live x ≡ live → byte x ≡ b → result ≡ is_skipped x }
{
    !live || is_n(b)
}

// Whether a byte is a live word byte.
#[tactic(auto, using(crate::proofs::ByteLaws::word_mark))]
fn is_word_mark(live: bool, b: u8) -> bool
    ensures { (x : Marked) → is_live x ≡ live → byte x ≡ b → result ≡ is_word_mark x }
{
    live && is_word_byte(b)
}

// Whether `word` stands at the front of `text`, in any letter case.
#[tactic(auto, using(crate::proofs::PrefixLaws::prefix_too_long))]
pub fn starts_ignoring_case(text: &[u8], word: &[u8]) -> bool
    ensures { result ≡ prefix_by upper word.now text.now }
{
    word.len() <= text.len() && text[..word.len()].eq_ignore_ascii_case(word)
}

// Whether a dollar literal opens and never closes: a walk by `spans::Cursor`. One search for the first span that passes a
// closure's test, for this walk and those of `closed::has_plain_spans` and `messages::content_len`, was tried and proved: with its
// definition and laws it takes 112 lines, more than the three would lose, and its invariant needs names of Rattle's own.
#[tactic(auto, using(spans::proofs::StepLaws::step_taken, spans::proofs::StepLaws::step_done, crate::proofs::SpanWalkLaws::unclosed_here, crate::proofs::SpanWalkLaws::unclosed_behind, crate::proofs::SpanWalkLaws::unclosed_over))]
pub fn has_unterminated(text: &[u8]) -> bool
    ensures { result ≡ has_unterminated_dollar_quote text.now }
{
    let mut cursor = Cursor { at: 0 };
    while let Some((s, next)) = cursor.step(text) {
        if is_unclosed(s) {
            return true;
        }
        cursor = next;
    }
    false
}

// Whether a span is a dollar literal that is not closed.
fn is_unclosed(s: Span) -> bool
    ensures { result ≡ is_unclosed s }
{
    matches!(s, Span::Dollar(d) if !d.closed)
}
