// One search, and the numbers of its answer.
use crate::kind::Kind;
use searches::Word;
use stored_list::{Found, Numbers};

// What a search is asked of a text. A sought or splitting byte is the needle's first.
#[derive(Clone, Copy)]
pub struct Question<'a> {
    pub text: &'a [u8],
    pub needle: &'a [u8],
    pub from: usize,
}

// How many bytes and how many starts a search is lent or writes.
#[derive(Clone, Copy, Default)]
pub struct Counts {
    pub bytes: usize,
    pub starts: usize,
}

// Where a word stands, and its length. No `From`: neither type is this crate's.
fn found_word(word: Word<'_>) -> Found {
    Found {
        place: word.place,
        length: word.bytes.len(),
    }
}

// Any search. `bytes` is lent as the map or the output.
pub fn ask(kind: Kind, question: Question<'_>, bytes: &mut [u8], starts: &mut [u32]) -> Numbers {
    let Question { text, needle, from } = question;
    let byte = needle.first().copied().unwrap_or(0);
    match kind {
        Kind::Regions => searches::regions(text, bytes).into(),
        Kind::Keyword => searches::find_keyword(text, bytes, needle, from).into(),
        Kind::Byte => searches::find_in_code(text, bytes, byte).into(),
        Kind::Needle => searches::find_str_in_code(text, bytes, needle).into(),
        Kind::NextWord => searches::next_word_in_code(text, bytes, from)
            .map(|word| word.map(found_word))
            .into(),
        Kind::Split => searches::split_in_code(text, bytes, starts, byte).into(),
        Kind::Requote => searches::requote_dollar_literals(text, bytes).into(),
        Kind::RequotedLength => searches::requoted_length(text).into(),
        Kind::Unterminated => searches::has_unterminated_dollar_quote(text).into(),
        Kind::Handler => searches::has_exception_handler(text, bytes).into(),
    }
}

// What stands for a line that asks for no search, or lends more than there is. It has numbers, since a line of the list can
// name them: then that is the answer that it expects.
pub const NO_ANSWER: Numbers = Numbers {
    number: 9,
    place: 0,
    length: 0,
    count: 0,
};

// Any search with the front of two buffers lent; none if the line asks for no search or lends more than there is.
pub fn ask_lent(
    kind: Option<Kind>,
    question: Question<'_>,
    bytes: &mut [u8],
    starts: &mut [u32],
    lent: Counts,
) -> Option<Numbers> {
    let bytes = bytes.get_mut(..lent.bytes)?;
    let starts = starts.get_mut(..lent.starts)?;
    Some(ask(kind?, question, bytes, starts))
}
