// The two rewriting calls, with a table of levels and without one, since C calls both. C lends each buffer apart, so the calls and
// what they hand the buffers on to take them so.
#![tactic(auto)]

ghost use Rattle.std.specs.Prelude.{◌≡◌, ◌&&◌, [], ◌≤◌, leb, length, Err};
ghost use Rattle.spec.specs.Levels.{table_of, no_table};
ghost use Rattle.spec.specs.Answers.{zeroed_to, function_result, by_table, body_check, body_answer, body_output, work_exit, function_check, function_answer, function_output, function_text, function_records};
ghost use Rattle.preprocessor.specs.AnswerRecords.{passed, sizes_of, with_records, if_accepted};

use checks::check_texts;
use declarations::{DeclaredSizes, body_start, parse_declarations};
use declared_records::{RECORD_NUMBERS, RECORD_WIDTH};
use levels::{no_table, read_table};
use output::{BUFFER_SIZE, fill};
use passes::run_body;
use scanner::{MappedText, map_text};
use spec::{Accepted, Actions, Refusal};

// The most bytes that a call's text may have.
const TEXT_LIMIT: usize = 16384;

// Whether output and work buffers are long enough.
fn are_lent(output: usize, work: usize, spare: usize) -> bool
    ensures { result ≡ (leb 65536 output && (leb 65536 work && leb 65536 spare)) }
{
    BUFFER_SIZE <= output && BUFFER_SIZE <= work && BUFFER_SIZE <= spare
}

// The body call with what a table says, once it is read.
#[tactic(auto, using(crate::proofs::LentLaws::body_lent), unfolding(spec::specs::Answers::body_answer, spec::specs::Answers::body_output, spec::specs::Answers::work_exit, spec::specs::Answers::body_check, spec::specs::Answers::are_lent, spec::specs::Answers::text_limit, spec::specs::Body::buffer_size))]
pub fn transform_body_by_table(
    text: &[u8],
    table: Result<Actions, Refusal>,
    output: &mut [u8],
    work: &mut [u8],
    spare: &mut [u8],
) -> Result<Accepted, Refusal>
    ensures value { result ≡ body_answer table text.now output.old work.old spare.old }
    ensures output_after { output.new ≡ body_output table text.now output.old work.old spare.old }
    ensures work_after { work.new ≡ work_exit (body_check text.now output.old work.old spare.old) work.old }
    ensures spare_after { spare.new ≡ work_exit (body_check text.now output.old work.old spare.old) spare.old }
{
    let enough = are_lent(output.len(), work.len(), spare.len());
    check_texts(TEXT_LIMIT, enough, text, b"")?;
    run_body(text, table, output, work, spare)
}

// The body call: the five passes over a trigger's body. The output holds the result and then zeros; the work buffers
// hold zeros.
pub fn transform_body(
    text: &[u8],
    output: &mut [u8],
    work: &mut [u8],
    spare: &mut [u8],
) -> Result<Accepted, Refusal>
    ensures value { result ≡ body_answer no_table text.now output.old work.old spare.old }
    ensures output_after { output.new ≡ body_output no_table text.now output.old work.old spare.old }
    ensures work_after { work.new ≡ work_exit (body_check text.now output.old work.old spare.old) work.old }
    ensures spare_after { spare.new ≡ work_exit (body_check text.now output.old work.old spare.old) spare.old }
{
    transform_body_by_table(text, no_table(), output, work, spare)
}

// The same with the actions of a table.
pub fn transform_body_by_levels(
    text: &[u8],
    table: &[u8],
    output: &mut [u8],
    work: &mut [u8],
    spare: &mut [u8],
) -> Result<Accepted, Refusal>
    ensures value { result ≡ body_answer (table_of table.now) text.now output.old work.old spare.old }
    ensures output_after { output.new ≡ body_output (table_of table.now) text.now output.old work.old spare.old }
    ensures work_after { work.new ≡ work_exit (body_check text.now output.old work.old spare.old) work.old }
    ensures spare_after { spare.new ≡ work_exit (body_check text.now output.old work.old spare.old) spare.old }
{
    transform_body_by_table(text, read_table(table), output, work, spare)
}

// Whether all five buffers are long enough. Five lengths of one kind: the buffers themselves would be five slices, two kinds of them.
fn all_lent(output: usize, work: usize, spare: usize, declared: usize, records: usize) -> bool
    ensures { result ≡ ((leb 65536 output && (leb 65536 work && leb 65536 spare)) && (leb 65536 declared && leb 5130 records)) }
{
    are_lent(output, work, spare) && BUFFER_SIZE <= declared && RECORD_NUMBERS <= records
}

// The answer with this number of records, if it is accepted: one field is set, which no derive does.
fn with_records(r: Result<Accepted, Refusal>, count: usize) -> Result<Accepted, Refusal>
    ensures { result ≡ with_records count r }
{
    r.map(|accepted| Accepted {
        records: count,
        ..accepted
    })
}

// n if the answer is accepted, else 0: a refusal leaves no records.
fn if_accepted(r: Result<Accepted, Refusal>, n: usize) -> usize
    ensures { result ≡ if_accepted r n }
{
    if r.is_ok() { n } else { 0 }
}

// What a table says, unless the declarations are refused: a table's refusal comes before 7.
fn passed(
    table: Result<Actions, Refusal>,
    parsed: Result<DeclaredSizes, Refusal>,
) -> Result<Actions, Refusal>
    ensures { result ≡ passed table parsed }
{
    let actions = table?;
    parsed?;
    Ok(actions)
}

// How many records there are and how many bytes their texts have, none if the declarations are refused.
fn sizes_of(parsed: Result<DeclaredSizes, Refusal>) -> DeclaredSizes
    ensures { result ≡ sizes_of parsed }
{
    parsed.unwrap_or_default()
}

// The records, then the passes over the body, and zeros behind what the buffers hold; `work` takes the text's map first. The buffers are
// parameters of their own, here and in `preprocess_by_table`: each goes to a function of its own, so that a struct would be taken apart
// at once, and made by each of the calls.
#[tactic(auto, using(spec::proofs::MapLaws::marked_length))]
fn run_function(
    text: &[u8],
    table: Result<Actions, Refusal>,
    output: &mut [u8],
    work: &mut [u8],
    spare: &mut [u8],
    declared: &mut [u8],
    records: &mut [u32],
) -> Result<Accepted, Refusal>
    requires text_len_bound { length text.now ≤ 16384 }
    requires output_in_bounds { 65536 ≤ length output.old }
    requires work_in_bounds { 65536 ≤ length work.old }
    requires spare_in_bounds { 65536 ≤ length spare.old }
    requires declared_in_bounds { 65536 ≤ length declared.old }
    requires records_in_bounds { 5130 ≤ length records.old }
    ensures value { result ≡ (by_table table (function_result text.now)).answer }
    ensures output_after { output.new ≡ zeroed_to 65536 (by_table table (function_result text.now)).output output.old }
    ensures work_after { work.new ≡ zeroed_to 65536 [] work.old }
    ensures spare_after { spare.new ≡ zeroed_to 65536 [] spare.old }
    ensures declared_after { declared.new ≡ zeroed_to 65536 (by_table table (function_result text.now)).declared declared.old }
    ensures records_after { records.new ≡ zeroed_to 5130 (by_table table (function_result text.now)).records records.old }
{
    // Not `MappedText::mapped`, which promises nothing of what the lent map holds at the end.
    map_text(text, work);
    let mapped = MappedText::new(text, work);
    let start = body_start(&mapped);
    let parsed = parse_declarations(&mapped, declared, records);
    let r = run_body(&text[start..], passed(table, parsed), output, work, spare);
    let sizes = sizes_of(parsed);
    fill(declared, if_accepted(r, sizes.bytes), BUFFER_SIZE, 0);
    let numbers = if_accepted(r, RECORD_WIDTH * sizes.records + RECORD_WIDTH);
    fill(records, numbers, RECORD_NUMBERS, 0);
    with_records(r, sizes.records)
}

// The function call that refuses by its table, before the function is looked at any further: zeros in all that a call fills.
fn refuse_function(
    text: &[u8],
    refusal: Refusal,
    output: &mut [u8],
    work: &mut [u8],
    spare: &mut [u8],
    declared: &mut [u8],
    records: &mut [u32],
) -> Result<Accepted, Refusal>
    requires text_len_bound { length text.now ≤ 16384 }
    requires output_in_bounds { 65536 ≤ length output.old }
    requires work_in_bounds { 65536 ≤ length work.old }
    requires spare_in_bounds { 65536 ≤ length spare.old }
    requires declared_in_bounds { 65536 ≤ length declared.old }
    requires records_in_bounds { 5130 ≤ length records.old }
    ensures value { result ≡ Err refusal }
    ensures output_after { output.new ≡ zeroed_to 65536 [] output.old }
    ensures work_after { work.new ≡ zeroed_to 65536 [] work.old }
    ensures spare_after { spare.new ≡ zeroed_to 65536 [] spare.old }
    ensures declared_after { declared.new ≡ zeroed_to 65536 [] declared.old }
    ensures records_after { records.new ≡ zeroed_to 5130 [] records.old }
{
    fill(declared, 0, BUFFER_SIZE, 0);
    fill(records, 0, RECORD_NUMBERS, 0);
    run_body(text, Err(refusal), output, work, spare)
}

// The function call with what a table says, once it is read.
#[tactic(auto, using(crate::proofs::LentLaws::function_lent), unfolding(spec::specs::Answers::function_answer, spec::specs::Answers::function_output, spec::specs::Answers::function_text, spec::specs::Answers::function_records, spec::specs::Answers::work_exit, spec::specs::Answers::function_check, spec::specs::Answers::are_lent, spec::specs::Answers::text_limit, spec::specs::Body::buffer_size, spec::specs::Declarations::record_numbers, spec::specs::Declarations::record_width, spec::specs::Declarations::record_limit))]
fn preprocess_by_table(
    text: &[u8],
    table: Result<Actions, Refusal>,
    output: &mut [u8],
    work: &mut [u8],
    spare: &mut [u8],
    declared: &mut [u8],
    records: &mut [u32],
) -> Result<Accepted, Refusal>
    ensures value { result ≡ function_answer table text.now output.old work.old spare.old declared.old records.old }
    ensures output_after { output.new ≡ function_output table text.now output.old work.old spare.old declared.old records.old }
    ensures work_after { work.new ≡ work_exit (function_check text.now output.old work.old spare.old declared.old records.old) work.old }
    ensures spare_after { spare.new ≡ work_exit (function_check text.now output.old work.old spare.old declared.old records.old) spare.old }
    ensures declared_after { declared.new ≡ function_text table text.now output.old work.old spare.old declared.old records.old }
    ensures records_after { records.new ≡ function_records table text.now output.old work.old spare.old declared.old records.old }
{
    let enough = all_lent(
        output.len(),
        work.len(),
        spare.len(),
        declared.len(),
        records.len(),
    );
    check_texts(TEXT_LIMIT, enough, text, b"")?;
    match table {
        Ok(_) => run_function(text, table, output, work, spare, declared, records),
        Err(refusal) => { refuse_function(text, refusal, output, work, spare, declared, records) }
    }
}

// The function call: the declarations' records, and the five passes over the body. The output holds the result and then
// zeros, `declared` and `records` the declarations and then zeros; the work buffers hold zeros.
pub fn preprocess(
    text: &[u8],
    output: &mut [u8],
    work: &mut [u8],
    spare: &mut [u8],
    declared: &mut [u8],
    records: &mut [u32],
) -> Result<Accepted, Refusal>
    ensures value { result ≡ function_answer no_table text.now output.old work.old spare.old declared.old records.old }
    ensures output_after { output.new ≡ function_output no_table text.now output.old work.old spare.old declared.old records.old }
    ensures work_after { work.new ≡ work_exit (function_check text.now output.old work.old spare.old declared.old records.old) work.old }
    ensures spare_after { spare.new ≡ work_exit (function_check text.now output.old work.old spare.old declared.old records.old) spare.old }
    ensures declared_after { declared.new ≡ function_text no_table text.now output.old work.old spare.old declared.old records.old }
    ensures records_after { records.new ≡ function_records no_table text.now output.old work.old spare.old declared.old records.old }
{
    preprocess_by_table(text, no_table(), output, work, spare, declared, records)
}

// The same with the actions of a table.
pub fn preprocess_by_levels(
    text: &[u8],
    table: &[u8],
    output: &mut [u8],
    work: &mut [u8],
    spare: &mut [u8],
    declared: &mut [u8],
    records: &mut [u32],
) -> Result<Accepted, Refusal>
    ensures value { result ≡ function_answer (table_of table.now) text.now output.old work.old spare.old declared.old records.old }
    ensures output_after { output.new ≡ function_output (table_of table.now) text.now output.old work.old spare.old declared.old records.old }
    ensures work_after { work.new ≡ work_exit (function_check text.now output.old work.old spare.old declared.old records.old) work.old }
    ensures spare_after { spare.new ≡ work_exit (function_check text.now output.old work.old spare.old declared.old records.old) spare.old }
    ensures declared_after { declared.new ≡ function_text (table_of table.now) text.now output.old work.old spare.old declared.old records.old }
    ensures records_after { records.new ≡ function_records (table_of table.now) text.now output.old work.old spare.old declared.old records.old }
{
    preprocess_by_table(
        text,
        read_table(table),
        output,
        work,
        spare,
        declared,
        records,
    )
}
