// Pass 5's reading of a RAISE: its level, its statement's content, and the message in it.
#![tactic(auto)]

ghost use Rattle.std.specs.Prelude.{◌≡◌, List, ◌+◌, ◌≤◌, ◌<◌, length, drop, Some};
ghost use Rattle.spec.specs.Map.{Marked, bytes, lives};
ghost use Rattle.spec.specs.Outcome.{forget};
ghost use Rattle.spec.specs.Raise.{close_len, message, using_fate, level_words, level_in, action_of, fate_text};
ghost use Rattle.spec.specs.declared.Level.{Level};
ghost use Rattle.spec.specs.declared.RaiseType.{RaiseType};
ghost use Rattle.spec.specs.declared.Action.{Action};
ghost use Rattle.messages.specs.Readings.{level_reach, level_end, ends_statement, content_in, literal_len, raised_as, raised_in, part_in, using_in, part_or, nonzero, fate_of, FateWithin, Reads};

use classes::byte_at;
use runs::{Place, Set, run_end, trim};
use scanner::starts_ignoring_case;
use spans::Cursor;
use spec::{Action, Actions, Level, RaiseType, Span};

// What becomes of a RAISE, by offsets in the text from the RAISE on.
#[derive(Clone, Copy)]
pub enum RaiseFate {
    // It becomes SQLite's RAISE with this word, and has this content.
    Raises { word: RaiseType, content: Place },
    Dropped,
    // It passes, with its separator.
    Passed,
}

// A RAISE as it is read: where the search for the next one goes on, and its fate.
#[derive(Clone, Copy)]
pub struct RaiseRead {
    pub end: usize,
    pub fate: RaiseFate,
}

// The words that stand for a level, as they are tried one after the other.
const LEVEL_WORDS: [(&[u8], Level); 8] = [
    (b"EXCEPTION", Level::Exception),
    (b"NOTICE", Level::Notice),
    (b"WARNING", Level::Warning),
    (b"DEBUG", Level::Debug),
    (b"LOG", Level::Log),
    (b"INFO ", Level::Info),
    (b"INFO\n", Level::Info),
    (b"INFO;", Level::Info),
];

// The level in front, in any letter case. `levels::ahead` finds in a table by the bytes as they stand: one search for both would take
// the comparison as a closure and say of it what each says of its table, and be longer than the two.
fn level_at(rest: &[u8]) -> Option<Level>
    ensures value { (t : List Marked) → bytes t ≡ rest.now → result ≡ level_in level_words t }
    ensures result_in_bounds { level_reach result ≤ length rest.now }
{
    let (_, level) = LEVEL_WORDS
        .iter()
        .find(|(word, _)| starts_ignoring_case(rest, *word))?;
    Some(*level)
}

// Whether the span s, whose first byte is b, ends a statement.
fn ends_statement(s: Span, b: u8) -> bool
    ensures { result ≡ ends_statement s b }
{
    matches!(s, Span::Code(_)) && b == b';'
}

// How long the content is of a statement that has `rest` behind its level: a walk by `spans::Cursor`, for the reason at
// `scanner::has_unterminated`.
#[tactic(auto, using(crate::proofs::ContentLaws::content_over, crate::proofs::ContentLaws::content_on, crate::proofs::ContentLaws::content_stops, spans::proofs::StepLaws::step_taken, spans::proofs::StepLaws::step_done))]
fn content_len(rest: &[u8]) -> usize
    ensures { result ≡ length (content_in rest.now) }
{
    let mut cursor = Cursor { at: 0 };
    while let Some((s, next)) = cursor.step(rest) {
        if ends_statement(s, byte_at(rest, cursor.at)) {
            return cursor.at;
        }
        cursor = next;
    }
    cursor.at
}

// From behind an opening `'`, the length through the quote that closes the literal, if one does. By an index for the reason in
// `spans::quoted_len`.
#[tactic(auto, using(crate::proofs::MessageLaws::close_pair, crate::proofs::MessageLaws::close_here, crate::proofs::MessageLaws::close_on, crate::proofs::MessageLaws::close_none, crate::proofs::MessageLaws::later_none, crate::proofs::MessageLaws::quote_within))]
fn close_len(rest: &[u8]) -> Option<usize>
    ensures { result ≡ nonzero (close_len (lives rest.now)) }
{
    let mut i: usize = 0;
    while i < rest.len() {
        if rest[i] != b'\'' {
            i += 1;
        } else if byte_at(rest, i + 1) == b'\'' {
            i += 2;
        } else {
            return Some(i + 1);
        }
    }
    None
}

// The length of the closed `'` literal in front, if there is one.
#[tactic(auto, using(std::proofs::lemmas::List::take_rest, crate::proofs::MessageLaws::close_within), unfolding(crate::specs::Readings::literal_len))]
fn literal_len(content: &[u8]) -> Option<usize>
    ensures { result ≡ nonzero (literal_len content.now) }
{
    let [b'\'', behind @ ..] = content else {
        return None;
    };
    Some(1 + close_len(behind)?)
}

// The message of a content: the closed literal in front, else the trimmed text up to the first comma.
#[tactic(auto, using(crate::proofs::MessageLaws::message_literal, crate::proofs::MessageLaws::message_words, crate::proofs::MessageLaws::literal_within))]
pub fn extract_first_string_literal<'a>(content: &'a [u8]) -> &'a [u8]
    ensures { (t : List Marked) → bytes t ≡ content.now → result.now ≡ bytes (message t) }
{
    match literal_len(content) {
        Some(n) => &content[..n],
        None => trim(&content[..run_end(content, Set::Except(b','), 0)]),
    }
}

// The message of a content that starts with USING: behind MESSAGE and `=`, if it starts with `'` and has only W behind it.
#[tactic(auto, using(std::proofs::lemmas::List::take_rest, crate::proofs::MessageLaws::quote_within, crate::proofs::UsingLaws::message_short))]
fn using_message<'a>(content: &'a [u8]) -> Option<&'a [u8]>
    requires { 5 ≤ length content.now }
    ensures t_value { (w : RaiseType) (t : List Marked) → bytes t ≡ content.now → forget (fate_text (using_fate w t (drop 5 t))) ≡ using_in w content.now result }
    ensures result_in_bounds { length (part_or content.now result) ≤ length content.now }
{
    let a = run_end(content, Set::W, 5);
    if !starts_ignoring_case(&content[a..], b"MESSAGE") {
        return None;
    }
    let b = run_end(content, Set::W, a + 7);
    if byte_at(content, b) != b'=' {
        return None;
    }
    let from = run_end(content, Set::W, b + 1);
    if byte_at(content, from) != b'\'' {
        return None;
    }
    let message = extract_first_string_literal(&content[from..]);
    if run_end(content, Set::W, from + message.len()) < content.len() {
        return None;
    }
    Some(message)
}

// The message of a RAISE that is not dropped, or the clause that is refused: a part of the statement's content.
#[tactic(auto, using(runs::proofs::RunLaws::trimmed_le, spec::proofs::WalkLaws::prefix_by_len, crate::proofs::UsingLaws::raised_clause, crate::proofs::UsingLaws::raised_message, crate::proofs::UsingLaws::message_short))]
pub fn raise_message<'a>(content: &'a [u8]) -> Result<&'a [u8], &'a [u8]>
    ensures content_value { (w : RaiseType) → raised_as w content.now ≡ raised_in w result }
    ensures result_in_bounds { length (part_in result) ≤ length content.now }
{
    let text = trim(content);
    if starts_ignoring_case(text, b"USING") {
        using_message(text).ok_or(text)
    } else {
        Ok(extract_first_string_literal(text))
    }
}

// The fate of a statement with this action and this content.
fn fate_of(action: Action, content: Place) -> RaiseFate
    ensures { result ≡ fate_of action content }
{
    match action {
        Action::Drop => RaiseFate::Dropped,
        Action::Raise(word) => RaiseFate::Raises { word, content },
    }
}

// Where the level ends, from the RAISE on: EXCEPTION has its nine letters, the others run to W or `;`.
#[tactic(auto, unfolding(spec::specs::Raise::level_len))]
fn level_end(rest: &[u8], level: Level) -> usize
    requires { 6 + level_reach (Some level) ≤ length rest.now }
    ensures value { result ≡ level_end level rest.now }
    ensures lower_bound { 6 ≤ result }
    ensures upper_bound { result ≤ length rest.now }
{
    match level {
        Level::Exception => 15,
        _ => run_end(rest, Set::NotWNor(b';'), 6),
    }
}

// A RAISE of this level, from the RAISE on, with this action.
#[tactic(auto, using(std::proofs::lemmas::List::take_rest, crate::proofs::ContentLaws::content_le, crate::proofs::ReadingLaws::fate_within))]
fn read_statement(rest: &[u8], level: Level, action: Action) -> RaiseRead
    requires { 6 + level_reach (Some level) ≤ length rest.now }
    ensures reads { (act : Level → Action) (t : List Marked) → bytes t ≡ rest.now → act level ≡ action → Reads act t (Some level) rest.now result }
    ensures fate_within { FateWithin result.fate 6 result.end }
    ensures end_in_bounds { result.end ≤ length rest.now }
    ensures goes_on { 0 < length rest.now → 0 < result.end }
{
    let at = level_end(rest, level);
    let len = content_len(&rest[at..]);
    RaiseRead {
        end: (at + len + 1).min(rest.len()),
        fate: fate_of(action, Place { at, len }),
    }
}

// The level behind RAISE and its separator.
#[tactic(auto, using(crate::proofs::ReadingLaws::level_none))]
fn level_behind(rest: &[u8]) -> Option<Level>
    ensures value { (t : List Marked) → bytes t ≡ rest.now → result ≡ level_in level_words (drop 6 t) }
    ensures level_in_bounds { (l : Level) → result ≡ Some l → 6 + level_reach (Some l) ≤ length rest.now }
{
    level_at(rest.get(6..)?)
}

// The RAISE at the front of `rest`.
pub fn read_raise(rest: &[u8], actions: Actions) -> RaiseRead
    ensures reads { (t : List Marked) → bytes t ≡ rest.now → Reads (action_of actions) t (level_in level_words (drop 6 t)) rest.now result }
    ensures fate_within { FateWithin result.fate 6 result.end }
    ensures end_in_bounds { result.end ≤ length rest.now }
    ensures goes_on { 0 < length rest.now → 0 < result.end }
{
    match level_behind(rest) {
        Some(l) => read_statement(rest, l, actions.get(l)),
        None => RaiseRead {
            end: rest.len().min(6),
            fate: RaiseFate::Passed,
        },
    }
}
