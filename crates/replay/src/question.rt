// A line about the text: KIND NEEDLE FROM NUMBER FOUND PLACE LENGTH RESULT. The search is made, and its numbers and what it
// wrote are compared with the line's. The kind stands in the line, and is read off it once, for the report's row.
use crate::ask::{Counts, NO_ANSWER, Question, ask_lent};
use crate::kind::Kind;
use stored_list::{
    Fault, Numbers, START_NUMBERS, TEXT_BYTES, count, decode, expected, field, inject, is_marked,
    marked, number,
};

// The fields that hold NUMBER, PLACE, LENGTH and FOUND.
const NUMBERS: [usize; 4] = [3, 5, 6, 4];

// The first field of a result; a list of numbers takes several.
const RESULT: usize = 7;

// The numbers of the lent buffers in a line that changes a place. They are the list's: a line may name any other number too.
const BYTES: usize = 0;

const STARTS: usize = 1;

// Whether a field holds the map, a digit for each byte. `-` is the empty map, and `*` any map.
fn is_map(map: &[u8], digits: &[u8]) -> bool {
    match digits {
        [b'*', ..] => true,
        [b'-', ..] if map.is_empty() => true,
        _ => {
            !map.is_empty()
                && map.len() == digits.len()
                && map.iter().zip(digits).all(|(flag, digit)| matches!(
                    (flag, digit),
                    (0, b'0') | (1, b'1')
                ))
        }
    }
}

// Whether a field holds the output in hex; `*` stands for any output.
fn is_output(output: &[u8], hex: &[u8]) -> bool {
    let mut bytes = [0u8; 4096];
    let n = decode(hex, &mut bytes);
    hex.first() == Some(&b'*') || &bytes[..n] == output
}

// Whether the starts are those of the line's last fields, and there are no more fields.
fn are_starts(starts: &[u32], line: &[u8]) -> bool {
    let mut fields = line.split(|b| *b == b' ').skip(RESULT);
    starts.iter().all(|start| fields.next().and_then(|field| number(field))
        == Some(*start as usize))
        && fields.next().unwrap_or(&[]).is_empty()
}

// How much a search writes that is not refused: an output, or the map of n bytes, and the starts of a split. Refused is what has a
// number: searches answer with three types of Result, and what is one type are the numbers that they become.
fn written(kind: Option<Kind>, got: Numbers, n: usize) -> Counts {
    if got.number != 0 {
        return Counts::default();
    }
    match kind {
        Some(Kind::RequotedLength | Kind::Unterminated) | None => Counts::default(),
        Some(Kind::Requote) => Counts {
            bytes: got.length,
            starts: 0,
        },
        Some(Kind::Split) => Counts {
            bytes: n,
            starts: got.length,
        },
        Some(_) => Counts {
            bytes: n,
            starts: 0,
        },
    }
}

// What a search answered, and the buffers that it wrote to.
#[derive(Clone, Copy)]
struct Answer<'a> {
    numbers: Numbers,
    bytes: &'a [u8],
    starts: &'a [u32],
}

// Whether what a search wrote is the line's result; one that is refused has none.
fn is_result(kind: Option<Kind>, line: &[u8], answer: Answer<'_>, told: Counts) -> bool {
    let bytes = answer.bytes.get(..told.bytes).unwrap_or(&[]);
    let starts = answer.starts.get(..told.starts).unwrap_or(&[]);
    answer.numbers.number != 0
        || match kind {
            Some(Kind::Regions) => is_map(bytes, field(line, RESULT)),
            Some(Kind::Requote) => is_output(bytes, field(line, RESULT)),
            Some(Kind::Split) => are_starts(starts, line),
            _ => true,
        }
}

// Whether the answer is the line's, and nothing is written behind the result in what was lent. No `==`: a line may leave open what
// was written, and a refusal leaves nothing to compare.
fn is_answer(kind: Option<Kind>, line: &[u8], answer: Answer<'_>, lent: Counts, n: usize) -> bool {
    let told = written(kind, answer.numbers, n);
    expected(line, NUMBERS) == Some(answer.numbers)
        && is_marked(answer.bytes, told.bytes, lent.bytes)
        && is_marked(answer.starts, told.starts, lent.starts)
        && is_result(kind, line, answer, told)
}

// The search of a line on buffers of which the front is lent, and whether its answer is the line's, after a place was changed.
pub fn agrees(
    kind: Option<Kind>,
    line: &[u8],
    text: &[u8],
    lent: Counts,
    fault: Option<Fault>,
) -> bool {
    let mut needle = [0u8; 4096];
    let n = decode(field(line, 1), &mut needle);
    let question = Question {
        text,
        needle: &needle[..n],
        from: count(field(line, 2)),
    };
    let mut bytes = marked::<u8, TEXT_BYTES>();
    let mut starts = marked::<u32, START_NUMBERS>();
    let numbers = ask_lent(kind, question, &mut bytes, &mut starts, lent).unwrap_or(NO_ANSWER);
    inject(&mut bytes, BYTES, fault);
    inject(&mut starts, STARTS, fault);
    let answer = Answer {
        numbers,
        bytes: &bytes,
        starts: &starts,
    };
    is_answer(kind, line, answer, lent, text.len())
}
