// The public searches. Each checks the text and the lent buffers first, and a refused one writes nothing. An accepted one
// leaves the text's map at the front of the lent map. C calls each and lends each buffer apart, so the functions take them so.
#![tactic(auto)]

ghost use Rattle.std.specs.Prelude.{◌≡◌, [], ◌+◌, ◌&&◌, leb, length};
ghost use Rattle.std.specs.Fn.{FnOnceReturnsAt};
ghost use Rattle.spec.specs.Map.{marked_text};
ghost use Rattle.spec.specs.Answers.{map_check, map_exit, if_passed, yes_no, regions_answer, keyword_answer, byte_answer, needle_answer, word_answer, word_part, handler_answer, unterminated_answer, split_check, split_answer, split_map_exit, split_exit, requoted_length_answer, requote_answer, requote_exit};
ghost use Rattle.searches.specs.Words.{word_found, word_bytes};

use checks::check_texts;
use requote::{requote, requoted_len};
use scanner::{MappedText, has_unterminated, map_text};
use spec::Refusal;

// The most bytes that a search's text may have.
const SEARCH_LIMIT: usize = 65536;

// The checks of a search that is lent a map, and the map if they pass.
#[tactic(auto, using(crate::proofs::CheckedLaws::map_passed), unfolding(spec::specs::Answers::map_check, spec::specs::Answers::map_exit, spec::specs::Answers::search_limit))]
fn map_checked(text: &[u8], map: &mut [u8], needle: &[u8]) -> Result<(), Refusal>
    ensures value { result ≡ map_check text.now map.old needle.now }
    ensures map_after { map.new ≡ map_exit text.now map.old needle.now }
{
    check_texts(SEARCH_LIMIT, text.len() <= map.len(), text, needle)?;
    // Here and in `split_in_code` not `MappedText::mapped`, which promises nothing of what the lent map holds at the end.
    map_text(text, map);
    Ok(())
}

// What a search of the text with its map gives, where the checks pass.
pub fn searched<T, F: FnOnce(&MappedText<'_>) -> T>(
    text: &[u8],
    map: &mut [u8],
    needle: &[u8],
    search: F,
) -> Result<T, Refusal>
    requires { F.IsAlwaysCallable search }
    ensures value { (a : T) → ((r : T) → FnOnceReturnsAt F.FnOnce search (marked_text text.now) r → r ≡ a) → result ≡ if_passed (map_check text.now map.old needle.now) a }
    ensures map_after { map.new ≡ map_exit text.now map.old needle.now }
{
    map_checked(text, map, needle)?;
    Ok(search(&MappedText::new(text, map)))
}

// The place of a yes/no search.
pub fn yes_no(yes: bool) -> Option<usize>
    ensures { result ≡ yes_no yes }
{
    yes.then_some(0)
}

// The region of every byte of the text: 0 live, 1 quoted.
#[tactic(auto, unfolding(spec::specs::Answers::regions_answer))]
pub fn regions(text: &[u8], map: &mut [u8]) -> Result<usize, Refusal>
    ensures value { result ≡ regions_answer text.now map.old }
    ensures map_after { map.new ≡ map_exit text.now map.old [] }
{
    searched(text, map, b"", |_| 0)
}

// The least offset at or after `from` where `keyword` stands live, as a whole word, in any letter case.
#[tactic(auto, unfolding(spec::specs::Answers::keyword_answer, spec::specs::Search::find_keyword))]
pub fn find_keyword(
    text: &[u8],
    map: &mut [u8],
    keyword: &[u8],
    from: usize,
) -> Result<Option<usize>, Refusal>
    ensures value { result ≡ keyword_answer text.now map.old keyword.now from }
    ensures map_after { map.new ≡ map_exit text.now map.old keyword.now }
{
    searched(text, map, keyword, |t| t.find_keyword(keyword, from))
}

// The least offset of the live byte b.
#[tactic(auto, unfolding(spec::specs::Answers::byte_answer, spec::specs::Search::find_in_code))]
pub fn find_in_code(text: &[u8], map: &mut [u8], b: u8) -> Result<Option<usize>, Refusal>
    ensures value { result ≡ byte_answer text.now map.old b }
    ensures map_after { map.new ≡ map_exit text.now map.old [] }
{
    searched(text, map, b"", |t| t.find_byte(b, 0))
}

// The least offset where `needle` stands, its first byte live.
#[tactic(auto, unfolding(spec::specs::Answers::needle_answer, spec::specs::Search::find_str_in_code))]
pub fn find_str_in_code(
    text: &[u8],
    map: &mut [u8],
    needle: &[u8],
) -> Result<Option<usize>, Refusal>
    ensures value { result ≡ needle_answer text.now map.old needle.now }
    ensures map_after { map.new ≡ map_exit text.now map.old needle.now }
{
    searched(text, map, needle, |t| t.find_str(needle, 0))
}

// A word of live text: its offset, and its bytes, which are a part of the caller's text.
#[derive(Clone, Copy)]
pub struct Word<'a> {
    pub place: usize,
    pub bytes: &'a [u8],
}

// The next word of live text at or after `from`. Not by `searched`: its closure may hand back the word's two ends alone, and that was
// tried: the proof did not close at the part between them, nor at what is answered.
#[tactic(auto, using(crate::proofs::CheckedLaws::passed_marks, crate::proofs::NextWordLaws::found_within, crate::proofs::NextWordLaws::found_place, crate::proofs::NextWordLaws::found_text, crate::proofs::NextWordLaws::none_place, crate::proofs::NextWordLaws::none_text), unfolding(spec::specs::Answers::word_answer, spec::specs::Answers::word_part))]
pub fn next_word_in_code<'a>(
    text: &'a [u8],
    map: &mut [u8],
    from: usize,
) -> Result<Option<Word<'a>>, Refusal>
    ensures value { word_found result ≡ word_answer text.now map.old from }
    ensures bytes { word_bytes result ≡ word_part text.now map.old from }
    ensures map_after { map.new ≡ map_exit text.now map.old [] }
{
    map_checked(text, map, b"")?;
    let mapped = MappedText::new(text, map);
    let start = mapped.word_start(from);
    let end = mapped.word_end(start);
    // By `if`: the closure of a `then` would have to say once more that the ends are in order and within the text.
    if start < end {
        let bytes = &text[start..end];
        Ok(Some(Word {
            place: start,
            bytes,
        }))
    } else {
        Ok(None)
    }
}

// Whether a live EXCEPTION has WHEN as its next live word.
#[tactic(auto, unfolding(spec::specs::Answers::handler_answer, spec::specs::Search::has_exception_handler))]
pub fn has_exception_handler(text: &[u8], map: &mut [u8]) -> Result<Option<usize>, Refusal>
    ensures value { result ≡ handler_answer text.now map.old }
    ensures map_after { map.new ≡ map_exit text.now map.old [] }
{
    searched(text, map, b"", |t| yes_no(t.has_handler()))
}

// Whether a dollar literal opens and never closes.
#[tactic(auto, unfolding(spec::specs::Answers::unterminated_answer, spec::specs::Answers::search_limit))]
pub fn has_unterminated_dollar_quote(text: &[u8]) -> Result<Option<usize>, Refusal>
    ensures { result ≡ unterminated_answer text.now }
{
    check_texts(SEARCH_LIMIT, true, text, b"")?;
    Ok(yes_no(has_unterminated(text)))
}

// Whether both buffers that a split is lent are long enough.
fn are_lent(text: &[u8], map: &[u8], starts: &[u32]) -> bool
    ensures { result ≡ (leb (length text.now) (length map.now) && leb (length text.now + 1) (length starts.now)) }
{
    text.len() <= map.len() && text.len() < starts.len()
}

// The checks of a split.
#[tactic(auto, unfolding(spec::specs::Answers::split_check, spec::specs::Answers::search_limit))]
fn split_checked(text: &[u8], map: &[u8], starts: &[u32]) -> Result<(), Refusal>
    ensures { result ≡ split_check text.now map.now starts.now }
{
    check_texts(SEARCH_LIMIT, are_lent(text, map, starts), text, b"")
}

// Where each piece between live bytes `separator` starts; the answer is how many there are.
#[tactic(auto, using(crate::proofs::CheckedLaws::split_passed, spec::proofs::WalkLaws::marked_kept, spec::proofs::MapLaws::marked_length), unfolding(spec::specs::Answers::split_answer, spec::specs::Answers::split_map_exit, spec::specs::Answers::split_exit, spec::specs::Search::split_in_code))]
pub fn split_in_code(
    text: &[u8],
    map: &mut [u8],
    starts: &mut [u32],
    separator: u8,
) -> Result<usize, Refusal>
    ensures value { result ≡ split_answer text.now map.old starts.old separator }
    ensures map_after { map.new ≡ split_map_exit text.now map.old starts.old }
    ensures starts_after { starts.new ≡ split_exit text.now map.old starts.old separator }
{
    split_checked(text, map, starts)?;
    map_text(text, map);
    Ok(MappedText::new(text, map).split(starts, separator))
}

// The length of the requoted text, before anything is written.
#[tactic(auto, using(crate::proofs::CheckedLaws::within_limit), unfolding(spec::specs::Answers::requoted_length_answer, spec::specs::Answers::search_limit))]
pub fn requoted_length(text: &[u8]) -> Result<usize, Refusal>
    ensures { result ≡ requoted_length_answer text.now }
{
    check_texts(SEARCH_LIMIT, true, text, b"")?;
    Ok(requoted_len(text))
}

// Each dollar literal as a single-quoted one, in a buffer of the requoted length or more; the answer is that length.
#[tactic(auto, using(spec::proofs::RequotedLength::length_refused, spec::proofs::RequotedLength::text_refused, spec::proofs::RequotedLength::told_fits, spec::proofs::RequotedLength::told_short, spec::proofs::RequotedLength::length_told, spec::proofs::RequotedLength::requoted_exactly, crate::proofs::CheckedLaws::within_limit, crate::proofs::CheckedLaws::sets_front), unfolding(spec::specs::Answers::requote_answer, spec::specs::Answers::requote_exit, spec::specs::Answers::requote_check))]
pub fn requote_dollar_literals(text: &[u8], output: &mut [u8]) -> Result<usize, Refusal>
    ensures value { result ≡ requote_answer text.now output.old }
    ensures output_after { output.new ≡ requote_exit text.now output.old }
{
    let n = requoted_length(text)?;
    if output.len() < n {
        return Err(Refusal::BufferTooShort);
    }
    Ok(requote(text, output))
}
