// Demand 3 about the body call itself. The function takes what the three calls take, each with an output of its own.
#![tactic(auto)]

ghost use Rattle.std.specs.Prelude.{◌≡◌, ◌≤◌, length, take, drop};
ghost use Rattle.spec.specs.Answers.{body_check, body_answer, body_output, work_exit};
ghost use Rattle.joined_calls.specs.Joins.{Joins};

use preprocessor::transform_body_by_table;
use spec::{Accepted, Actions, Refusal};

// What the body call answers for a text, for its first bytes and for the rest of it.
#[derive(Clone, Copy)]
pub struct Joined {
    pub whole: Result<Accepted, Refusal>,
    pub first: Result<Accepted, Refusal>,
    pub second: Result<Accepted, Refusal>,
}

// Where to cut the text: at its end if `cut` is past it.
fn cut_within(text: &[u8], cut: usize) -> usize
    ensures upper_bound { result ≤ length text.now }
    ensures first_part { take result text.now ≡ take cut text.now }
    ensures second_part { drop result text.now ≡ drop cut text.now }
{
    cut.min(text.len())
}

// The body call on a text, on its first `cut` bytes and on the rest of it, with what one table says and each with an output
// of its own. The last promise is demand 3, of what these three calls answer and leave.
pub fn transform_joined(
    text: &[u8],
    cut: usize,
    table: Result<Actions, Refusal>,
    whole: &mut [u8],
    first: &mut [u8],
    second: &mut [u8],
    work: &mut [u8],
    spare: &mut [u8],
) -> Joined
    ensures whole_value { result.whole ≡ body_answer table text.now whole.old work.old spare.old }
    ensures whole_after { whole.new ≡ body_output table text.now whole.old work.old spare.old }
    ensures first_value { result.first ≡ body_answer table (take cut text.now) first.old work.old spare.old }
    ensures first_after { first.new ≡ body_output table (take cut text.now) first.old work.old spare.old }
    ensures second_value { result.second ≡ body_answer table (drop cut text.now) second.old work.old spare.old }
    ensures second_after { second.new ≡ body_output table (drop cut text.now) second.old work.old spare.old }
    ensures work_after { work.new ≡ work_exit (body_check (drop cut text.now) second.old work.old spare.old) (work_exit (body_check (take cut text.now) first.old work.old spare.old) (work_exit (body_check text.now whole.old work.old spare.old) work.old)) }
    ensures spare_after { spare.new ≡ work_exit (body_check (drop cut text.now) second.old work.old spare.old) (work_exit (body_check (take cut text.now) first.old work.old spare.old) (work_exit (body_check text.now whole.old work.old spare.old) spare.old)) }
    ensures joins { 65536 ≤ length whole.old → 65536 ≤ length first.old → 65536 ≤ length second.old → 65536 ≤ length work.old → 65536 ≤ length spare.old → Joins (take cut text.now) result whole.new first.new second.new }
{
    let at = cut_within(text, cut);
    let w = transform_body_by_table(text, table, whole, work, spare);
    let f = transform_body_by_table(&text[..at], table, first, work, spare);
    let s = transform_body_by_table(&text[at..], table, second, work, spare);
    Joined {
        whole: w,
        first: f,
        second: s,
    }
}
