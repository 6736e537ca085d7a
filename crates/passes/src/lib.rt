// The five passes one after the other, and what the lent buffers hold when they end.
#![tactic(auto)]

ghost use Rattle.std.specs.Prelude.{◌≡◌, [], ◌≤◌, length, take, replicate};
ghost use Rattle.std.proofs.lemmas.List.Edits.{sets};
ghost use Rattle.passes.specs.Gives.{Gives, finished, limited_answer};
ghost use Rattle.spec.specs.Answers.{call_numbers, result_of, by_table, body_result, zeroed_to};
ghost use Rattle.spec.specs.Body.{assign_pass, select_pass, raise_pass, limited, rewriting};
ghost use Rattle.spec.specs.Elsif.{elsif};
ghost use Rattle.spec.specs.Map.{marked_text, bytes};
ghost use Rattle.spec.specs.Raise.{action_of};

use assignments::transform_assignments;
use elsif::transform_elsif;
use output::{BUFFER_SIZE, Writer, fill, within_buffer};
use quotes::quotes_mapped;
use raise::transform_raise_statements;
use requote::requote;
use scanner::MappedText;
use select_into::transform_select_into;
use spec::{Accepted, Actions, Refusal, RefusalNumbers};

// The bytes of a lent buffer that a call fills.
type Buffer = [u8; BUFFER_SIZE];

// The k bytes at the front of `from` go to the front of `out`. By a writer: `copy_from_slice` would be a call of the C library, for the
// reason at `output::store`.
#[tactic(auto, using(output::proofs::WriterLaws::wrote_front, output::proofs::StoreLaws::front_stored))]
fn copy_front(out: &mut Buffer, from: &Buffer, k: usize)
    requires { k ≤ 65536 }
    ensures { take k out.new ≡ take k from.now }
{
    let mut written = Writer::new(out);
    written.put_all(&from[..k]);
}

// How many bytes the output holds with this answer.
fn output_length(r: Result<Accepted, Refusal>) -> usize
    ensures { result ≡ (call_numbers r).length }
{
    match r {
        Ok(accepted) => accepted.length,
        Err(refusal) => RefusalNumbers::from(refusal).length,
    }
}

// A pass's answer, refusal 6 if its result exceeds the buffer size.
fn limit(p: Result<usize, Refusal>) -> Result<usize, Refusal>
    ensures { result ≡ limited_answer p }
{
    within_buffer(p?)
}

// The call's answer where the passes end in p.
fn answer_of(p: Result<usize, Refusal>) -> Result<Accepted, Refusal>
    ensures { result ≡ finished p }
{
    let length = p?;
    Ok(Accepted { length, records: 0 })
}

// The passes end in p; the bytes that it hands back, if any, stand in `from`.
fn finish(out: &mut Buffer, from: &Buffer, p: Result<usize, Refusal>) -> Result<Accepted, Refusal>
    requires { (call_numbers (finished p)).length ≤ 65536 }
    ensures value { result ≡ finished p }
    ensures out_after { take (call_numbers (finished p)).length out.new ≡ take (call_numbers (finished p)).length from.now }
{
    let r = answer_of(p);
    copy_front(out, from, output_length(r));
    r
}

// Passes 2 to 5 are not one function that is handed the pass: each is one line, and what they share (`MappedText::mapped`, `limit`)
// are functions. Tried for pass 3: of a pass that captures `out`, what `out` holds then could be stated with Rattle's own names only.
// Handed `out` too, a call would have the pass's definition in clauses of its own.

// Pass 2 of a text; `map` takes its map.
#[tactic(auto, using(spec::proofs::MapLaws::text_length))]
fn elsif_pass(text: &[u8], map: &mut Buffer, out: &mut Buffer) -> usize
    requires { length text.now ≤ 65536 }
    ensures value { result ≡ length (bytes (elsif (marked_text text.now))) }
    ensures out_after { out.new ≡ sets out.old 0 (bytes (elsif (marked_text text.now))) }
{
    transform_elsif(&MappedText::mapped(text, map), out)
}

// Pass 3 of a text; `map` takes its map.
#[tactic(auto, using(spec::proofs::MapLaws::text_length))]
fn assign_pass(text: &[u8], map: &mut Buffer, out: &mut Buffer) -> Result<usize, Refusal>
    requires { length text.now ≤ 65536 }
    ensures { Gives (result_of [] (limited (assign_pass text.now))) (finished result) out.new }
{
    limit(transform_assignments(&MappedText::mapped(text, map), out))
}

// Pass 4 of a text; `map` takes its map of quotes.
#[tactic(auto, using(crate::proofs::StageLaws::quotes_length))]
fn select_pass(text: &[u8], map: &mut Buffer, out: &mut Buffer) -> Result<usize, Refusal>
    requires { length text.now ≤ 65536 }
    ensures { Gives (result_of [] (limited (select_pass text.now))) (finished result) out.new }
{
    transform_select_into(&quotes_mapped(text, map), out)
}

// Pass 5 of a text; `map` takes its map.
#[tactic(auto, using(spec::proofs::MapLaws::text_length))]
fn raise_pass(
    text: &[u8],
    actions: Actions,
    map: &mut Buffer,
    out: &mut Buffer,
) -> Result<usize, Refusal>
    requires { length text.now ≤ 65536 }
    ensures { Gives (result_of [] (limited (raise_pass (action_of actions) text.now))) (finished result) out.new }
{
    limit(transform_raise_statements(&MappedText::mapped(text, map), actions, out))
}

// All five passes over the text (the three buffers are parameters of their own, as those of each pass: a pass reads one and writes
// another, so that a struct would be taken apart at once): each reads the result of the one before, in the buffer where that one left it.
#[tactic(auto, using(spec::proofs::LengthLaws::requoted_length_lem, spec::proofs::LengthLaws::two_length, crate::proofs::StageLaws::front_of, crate::proofs::StageLaws::given_fits, crate::proofs::StageLaws::done_fits))]
fn run_passes(
    text: &[u8],
    actions: Actions,
    output: &mut Buffer,
    work: &mut Buffer,
    spare: &mut Buffer,
) -> Result<Accepted, Refusal>
    requires { length text.now ≤ 16384 }
    ensures { Gives (result_of [] (rewriting (action_of actions) text.now)) result output.new }
{
    let requoted = requote(text, work);
    let spelled = elsif_pass(&work[..requoted], spare, output);
    let assigned = assign_pass(&output[..spelled], work, spare);
    let Ok(n) = assigned else {
        return finish(output, spare, assigned);
    };
    // Pass 4 refuses by 6 alone, which hands no bytes back.
    let k = select_pass(&spare[..n], work, output)?;
    let raised = raise_pass(&output[..k], actions, work, spare);
    finish(output, spare, raised)
}

// How the passes ended: the call's answer, and how many bytes the output holds.
#[derive(Clone, Copy)]
struct Ended {
    answer: Result<Accepted, Refusal>,
    length: usize,
}

// The passes with what a table says, whose refusal comes before them and leaves no bytes.
#[tactic(auto, using(crate::proofs::BufferEndLaws::answer_length), unfolding(spec::specs::Answers::body_result))]
fn run_table(
    text: &[u8],
    table: Result<Actions, Refusal>,
    output: &mut Buffer,
    work: &mut Buffer,
    spare: &mut Buffer,
) -> Ended
    requires { length text.now ≤ 16384 }
    ensures gives { Gives (by_table table (body_result text.now)) result.answer output.new }
    ensures held { result.length ≡ length (by_table table (body_result text.now)).output }
    ensures same_len { (length output.new ≡ 65536) × (length work.new ≡ 65536) × (length spare.new ≡ 65536) }
{
    match table {
        Ok(actions) => {
            let answer = run_passes(text, actions, output, work, spare);
            Ended {
                answer,
                length: output_length(answer),
            }
        }
        Err(refusal) => Ended {
            answer: Err(refusal),
            length: 0,
        },
    }
}

// Zeros in the first `size` bytes of a work buffer. Any size, so that the proof computes no list of as many zeros as a call's.
fn clear(work: &mut [u8], size: usize)
    ensures { work.new ≡ sets work.old 0 (replicate size 0) }
{
    fill(work, 0, size, 0);
}

// The passes with what a table says, and zeros behind the result and in the work buffers.
pub fn run_body(
    text: &[u8],
    table: Result<Actions, Refusal>,
    output: &mut [u8],
    work: &mut [u8],
    spare: &mut [u8],
) -> Result<Accepted, Refusal>
    requires text_len_bound { length text.now ≤ 16384 }
    requires output_in_bounds { 65536 ≤ length output.old }
    requires work_in_bounds { 65536 ≤ length work.old }
    requires spare_in_bounds { 65536 ≤ length spare.old }
    ensures value { result ≡ (by_table table (body_result text.now)).answer }
    ensures output_after { output.new ≡ zeroed_to 65536 (by_table table (body_result text.now)).output output.old }
    ensures work_after { work.new ≡ zeroed_to 65536 [] work.old }
    ensures spare_after { spare.new ≡ zeroed_to 65536 [] spare.old }
{
    let (Some(out), Some(first), Some(second)) = (
        output.first_chunk_mut::<BUFFER_SIZE>(),
        work.first_chunk_mut::<BUFFER_SIZE>(),
        spare.first_chunk_mut::<BUFFER_SIZE>(),
    ) else {
        unreachable!()
    };
    let ended = run_table(text, table, out, first, second);
    fill(output, ended.length, BUFFER_SIZE, 0);
    clear(work, BUFFER_SIZE);
    clear(spare, BUFFER_SIZE);
    ended.answer
}
