// A line `b` or `f` with NUMBER PLACE LENGTH RECORDS: the body call or the function call is made, with a table of levels if the
// letter is a capital, and its numbers and all lent buffers are compared with what they must be.
use crate::call::{Buffers, Call, Given, Lent, MoreBuffers};
use spec::{Accepted, Refusal};
use stored_list::{Fault, Mark, Numbers, expected, inject, is_filled, is_marked};

// The fields that hold NUMBER, PLACE, LENGTH and RECORDS.
const NUMBERS: [usize; 4] = [1, 2, 3, 4];

// How many bytes of each lent buffer a call fills; the replay states its sizes by itself.
const SIZE: usize = 65536;

// How many record numbers the function call fills.
const RECORD_NUMBERS: usize = 5130;

// The numbers of the lent buffers in a line that changes a place. They are the list's: a line may name any other number too.
const OUTPUT: usize = 0;

const WORK: usize = 1;

const SPARE: usize = 2;

const DECLARED: usize = 3;

const RECORDS: usize = 4;

// What stands for a call that is lent more than there is. It has numbers, since a line of the list can name them: then that is the
// answer that it expects.
const NO_CALL: Numbers = Numbers {
    number: 99,
    place: 0,
    length: 0,
    count: 0,
};

// What an accepted call must leave in the output, in the declaration text and in the records.
#[derive(Clone, Copy)]
pub struct Results<'a> {
    pub output: &'a [u8],
    pub declared: &'a [u8],
    pub records: &'a [u32],
}

// Whether a call with this answer writes nothing.
fn writes_nothing(answer: Option<Result<Accepted, Refusal>>) -> bool {
    matches!(
        answer,
        Some(Err(Refusal::TextTooLong | Refusal::NotAscii(_) | Refusal::BufferTooShort))
    )
}

// Whether the first `lent` elements are what a call leaves: the result, then zeros, and the mark from `size` on; or the mark
// alone, if it writes nothing.
fn is_left<T: Mark + Default>(
    buffer: &[T],
    lent: usize,
    untouched: bool,
    res: &[T],
    size: usize,
) -> bool {
    if untouched {
        is_marked(buffer, 0, lent)
    } else {
        buffer.starts_with(res)
            && is_filled(buffer, res.len(), size, T::default())
            && is_marked(buffer, size, lent)
    }
}

// Whether the buffers that both calls take are as they must be.
fn are_left(untouched: bool, buffers: &Buffers, lent: Lent, results: Results<'_>) -> bool {
    is_left(
        &buffers.output,
        lent.output,
        untouched,
        results.output,
        SIZE,
    ) && is_left(&buffers.work, lent.work, untouched, &[], SIZE)
        && is_left(&buffers.spare, lent.spare, untouched, &[], SIZE)
}

// Whether those that the function call takes besides are as they must be.
fn are_more_left(untouched: bool, more: &MoreBuffers, lent: Lent, results: Results<'_>) -> bool {
    is_left(
        &more.declared,
        lent.declared,
        untouched,
        results.declared,
        SIZE,
    ) && is_left(
        &more.records,
        lent.records,
        untouched,
        results.records,
        RECORD_NUMBERS,
    )
}

// Changes a place of a buffer that both calls take.
fn inject_all(buffers: &mut Buffers, fault: Option<Fault>) {
    inject(&mut buffers.output, OUTPUT, fault);
    inject(&mut buffers.work, WORK, fault);
    inject(&mut buffers.spare, SPARE, fault);
}

// Changes a place of one that the function call takes besides.
fn inject_more(more: &mut MoreBuffers, fault: Option<Fault>) {
    inject(&mut more.declared, DECLARED, fault);
    inject(&mut more.records, RECORDS, fault);
}

// The function call of a line if there are more buffers for it, or else the body call, and whether its answer is the line's and its
// buffers are as they must be, after a place was changed.
fn agrees_with(
    mut more: Option<&mut MoreBuffers>,
    line: &[u8],
    given: Given<'_>,
    results: Results<'_>,
    fault: Option<Fault>,
) -> bool {
    let mut buffers = Buffers::marked();
    let answer = buffers.rewrite(more.as_deref_mut(), given);
    inject_all(&mut buffers, fault);
    let untouched = writes_nothing(answer);
    expected(line, NUMBERS) == Some(answer.map_or(NO_CALL, |answer| answer.into()))
        && are_left(untouched, &buffers, given.lent, results)
        && match more {
            Some(more) => {
                inject_more(more, fault);
                are_more_left(untouched, more, given.lent, results)
            }
            None => true,
        }
}

// The same for the call of a line, with more buffers if it takes them.
pub fn agrees(
    call: Call,
    line: &[u8],
    given: Given<'_>,
    results: Results<'_>,
    fault: Option<Fault>,
) -> bool {
    match call {
        Call::Body => agrees_with(None, line, given, results, fault),
        Call::Function => {
            let mut more = MoreBuffers::marked();
            agrees_with(Some(&mut more), line, given, results, fault)
        }
    }
}
