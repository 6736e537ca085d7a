// The functions of the C interface, for Rattle crates; crate `plpgsql_rewriter_c` exports them to C. There are two crates, since
// C calls an extern function by its symbol, and a Rattle crate calls one that is not extern. C lends each buffer apart, so the
// functions take them so. Each function's last parameter takes four numbers: for a search its number, the found flag, the place,
// and the length of what was found or written; for a call its number, the place, the output length and the number of records.
#![tactic(auto)]

ghost use Rattle.std.specs.Prelude.{◌≡◌, [], ◌∷◌, length, Ok, Err, MatchResult};
ghost use Rattle.spec.specs.Answers.{map_exit, regions_answer, keyword_answer, byte_answer, needle_answer, word_answer, word_part, search_numbers, handler_answer, unterminated_answer, split_answer, split_map_exit, split_exit, requoted_length_answer, requote_answer, requote_exit, body_check, body_answer, body_output, work_exit, function_check, function_answer, function_output, function_text, function_records};
ghost use Rattle.spec.specs.Levels.{table_of, no_table};
ghost use Rattle.closed.specs.Answer.{closed_answer};
ghost use Rattle.plpgsql_rewriter.specs.Four.{narrow, four, four_found, four_filled, four_called};
ghost use Rattle.searches.specs.Words.{word_found, word_bytes};

use searches::Word;
use spec::{Accepted, Refusal, RefusalNumbers};

// A number in 32 bits; a larger one is the largest, where `try_from` would fail.
#[tactic(auto, unfolding(crate::specs::Four::narrow))]
fn narrowed(n: usize) -> u32
    ensures { result ≡ narrow n }
{
    u32::try_from(n).unwrap_or(u32::MAX)
}

// The four numbers, the last three in 32 bits: what every answer below gives.
fn four(number: u32, second: usize, third: usize, fourth: usize) -> [u32; 4]
    ensures { result ≡ number ∷ narrow second ∷ narrow third ∷ narrow fourth ∷ [] }
{
    [number, narrowed(second), narrowed(third), narrowed(fourth)]
}

// The four numbers of what a search found: a type of this crate, so that it may be made from a type of another by `From`.
struct Answer([u32; 4]);

// Of a search that fills a buffer.
impl From<usize> for Answer {
    ghost from_gives = { λ length a. a.0 ≡ four_filled (Ok length) };

    #[tactic(auto, unfolding(crate::specs::Four::narrow))]
    fn from(length: usize) -> Answer {
        Answer(four(0, 0, 0, length))
    }
}

// Of a search that seeks something.
impl From<Option<usize>> for Answer {
    ghost from_gives = { λ found a. a.0 ≡ four_found (Ok found) };

    #[tactic(auto, unfolding(crate::specs::Four::narrow))]
    fn from(found: Option<usize>) -> Answer {
        Answer(match found {
            Some(i) => four(0, 1, i, 0),
            None => four(0, 0, 0, 0),
        })
    }
}

// Of a search for a word.
impl From<Option<Word<'_>>> for Answer {
    ghost from_gives = { λ found a. a.0 ≡ four (search_numbers (word_found (Ok found))) (length (word_bytes (Ok found))) };

    #[tactic(auto, unfolding(crate::specs::Four::narrow))]
    fn from(found: Option<Word<'_>>) -> Answer {
        Answer(match found {
            Some(word) => four(0, 1, word.place, word.bytes.len()),
            None => four(0, 0, 0, 0),
        })
    }
}

// Of a search: what it found gives its own numbers. Not of a call too: a search's refusal has its place third, a call's second.
#[tactic(auto, unfolding(crate::specs::Four::narrow))]
fn of_search<T: Into<Answer>>(found: Result<T, Refusal>) -> [u32; 4]
    ensures { MatchResult found (λ x. (a : Answer) × T.converts x a × (result ≡ a.0)) (λ r. result ≡ four_found (Err r)) }
{
    match found {
        Ok(x) => {
            let Answer(numbers) = x.into();
            numbers
        }
        Err(r) => {
            let n = RefusalNumbers::from(r);
            four(n.number, 0, n.place, 0)
        }
    }
}

// Of a call. No `From`, since a call has one type of answer alone.
#[tactic(auto, unfolding(crate::specs::Four::narrow))]
fn of_call(answer: Result<Accepted, Refusal>) -> [u32; 4]
    ensures { result ≡ four_called answer }
{
    match answer {
        Ok(accepted) => four(0, 0, accepted.length, accepted.records),
        Err(r) => {
            let n = RefusalNumbers::from(r);
            four(n.number, n.place, n.length, 0)
        }
    }
}

// `regions` of crate `searches`; the fourth number is 0.
pub fn plpgsql_regions(text: &[u8], map: &mut [u8], answer: &mut [u32; 4])
    ensures map_after { map.new ≡ map_exit text.now map.old [] }
    ensures answer_after { answer.new ≡ four_filled (regions_answer text.now map.old) }
{
    *answer = of_search(searches::regions(text, map));
}

// `find_keyword`.
pub fn plpgsql_find_keyword(
    text: &[u8],
    map: &mut [u8],
    keyword: &[u8],
    from: usize,
    answer: &mut [u32; 4],
)
    ensures map_after { map.new ≡ map_exit text.now map.old keyword.now }
    ensures answer_after { answer.new ≡ four_found (keyword_answer text.now map.old keyword.now from) }
{
    *answer = of_search(searches::find_keyword(text, map, keyword, from));
}

// `find_in_code`.
pub fn plpgsql_find_in_code(text: &[u8], map: &mut [u8], byte: u8, answer: &mut [u32; 4])
    ensures map_after { map.new ≡ map_exit text.now map.old [] }
    ensures answer_after { answer.new ≡ four_found (byte_answer text.now map.old byte) }
{
    *answer = of_search(searches::find_in_code(text, map, byte));
}

// `find_str_in_code`.
pub fn plpgsql_find_str_in_code(text: &[u8], map: &mut [u8], needle: &[u8], answer: &mut [u32; 4])
    ensures map_after { map.new ≡ map_exit text.now map.old needle.now }
    ensures answer_after { answer.new ≡ four_found (needle_answer text.now map.old needle.now) }
{
    *answer = of_search(searches::find_str_in_code(text, map, needle));
}

// `next_word_in_code`: place and length stand for the part that it hands back.
pub fn plpgsql_next_word_in_code(text: &[u8], map: &mut [u8], from: usize, answer: &mut [u32; 4])
    ensures map_after { map.new ≡ map_exit text.now map.old [] }
    ensures answer_after { answer.new ≡ four (search_numbers (word_answer text.now map.old from)) (length (word_part text.now map.old from)) }
{
    *answer = of_search(searches::next_word_in_code(text, map, from));
}

// `split_in_code`; the fourth number counts the pieces.
pub fn plpgsql_split_in_code(
    text: &[u8],
    map: &mut [u8],
    starts: &mut [u32],
    separator: u8,
    answer: &mut [u32; 4],
)
    ensures map_after { map.new ≡ split_map_exit text.now map.old starts.old }
    ensures starts_after { starts.new ≡ split_exit text.now map.old starts.old separator }
    ensures answer_after { answer.new ≡ four_filled (split_answer text.now map.old starts.old separator) }
{
    *answer = of_search(searches::split_in_code(text, map, starts, separator));
}

// `requoted_length`; the fourth number is that length.
pub fn plpgsql_requoted_length(text: &[u8], answer: &mut [u32; 4])
    ensures { answer.new ≡ four_filled (requoted_length_answer text.now) }
{
    *answer = of_search(searches::requoted_length(text));
}

// `requote_dollar_literals`; the fourth number is the length of the result.
pub fn plpgsql_requote_dollar_literals(text: &[u8], output: &mut [u8], answer: &mut [u32; 4])
    ensures output_after { output.new ≡ requote_exit text.now output.old }
    ensures answer_after { answer.new ≡ four_filled (requote_answer text.now output.old) }
{
    *answer = of_search(searches::requote_dollar_literals(text, output));
}

// `has_unterminated_dollar_quote`.
pub fn plpgsql_has_unterminated_dollar_quote(text: &[u8], answer: &mut [u32; 4])
    ensures { answer.new ≡ four_found (unterminated_answer text.now) }
{
    *answer = of_search(searches::has_unterminated_dollar_quote(text));
}

// `has_exception_handler`.
pub fn plpgsql_has_exception_handler(text: &[u8], map: &mut [u8], answer: &mut [u32; 4])
    ensures map_after { map.new ≡ map_exit text.now map.old [] }
    ensures answer_after { answer.new ≡ four_found (handler_answer text.now map.old) }
{
    *answer = of_search(searches::has_exception_handler(text, map));
}

// The body call.
pub fn plpgsql_transform_body(
    text: &[u8],
    output: &mut [u8],
    work: &mut [u8],
    spare: &mut [u8],
    answer: &mut [u32; 4],
)
    ensures output_after { output.new ≡ body_output no_table text.now output.old work.old spare.old }
    ensures work_after { work.new ≡ work_exit (body_check text.now output.old work.old spare.old) work.old }
    ensures spare_after { spare.new ≡ work_exit (body_check text.now output.old work.old spare.old) spare.old }
    ensures answer_after { answer.new ≡ four_called (body_answer no_table text.now output.old work.old spare.old) }
{
    *answer = of_call(preprocessor::transform_body(text, output, work, spare));
}

// The body call with the actions of a table.
pub fn plpgsql_transform_body_by_levels(
    text: &[u8],
    table: &[u8],
    output: &mut [u8],
    work: &mut [u8],
    spare: &mut [u8],
    answer: &mut [u32; 4],
)
    ensures output_after { output.new ≡ body_output (table_of table.now) text.now output.old work.old spare.old }
    ensures work_after { work.new ≡ work_exit (body_check text.now output.old work.old spare.old) work.old }
    ensures spare_after { spare.new ≡ work_exit (body_check text.now output.old work.old spare.old) spare.old }
    ensures answer_after { answer.new ≡ four_called (body_answer (table_of table.now) text.now output.old work.old spare.old) }
{
    *answer = of_call(preprocessor::transform_body_by_levels(text, table, output, work, spare));
}

// The function call.
pub fn plpgsql_preprocess(
    text: &[u8],
    output: &mut [u8],
    work: &mut [u8],
    spare: &mut [u8],
    declared: &mut [u8],
    records: &mut [u32],
    answer: &mut [u32; 4],
)
    ensures output_after { output.new ≡ function_output no_table text.now output.old work.old spare.old declared.old records.old }
    ensures work_after { work.new ≡ work_exit (function_check text.now output.old work.old spare.old declared.old records.old) work.old }
    ensures spare_after { spare.new ≡ work_exit (function_check text.now output.old work.old spare.old declared.old records.old) spare.old }
    ensures declared_after { declared.new ≡ function_text no_table text.now output.old work.old spare.old declared.old records.old }
    ensures records_after { records.new ≡ function_records no_table text.now output.old work.old spare.old declared.old records.old }
    ensures answer_after { answer.new ≡ four_called (function_answer no_table text.now output.old work.old spare.old declared.old records.old) }
{
    *answer = of_call(preprocessor::preprocess(text, output, work, spare, declared, records));
}

// The function call with the actions of a table.
pub fn plpgsql_preprocess_by_levels(
    text: &[u8],
    table: &[u8],
    output: &mut [u8],
    work: &mut [u8],
    spare: &mut [u8],
    declared: &mut [u8],
    records: &mut [u32],
    answer: &mut [u32; 4],
)
    ensures output_after { output.new ≡ function_output (table_of table.now) text.now output.old work.old spare.old declared.old records.old }
    ensures work_after { work.new ≡ work_exit (function_check text.now output.old work.old spare.old declared.old records.old) work.old }
    ensures spare_after { spare.new ≡ work_exit (function_check text.now output.old work.old spare.old declared.old records.old) spare.old }
    ensures declared_after { declared.new ≡ function_text (table_of table.now) text.now output.old work.old spare.old declared.old records.old }
    ensures records_after { records.new ≡ function_records (table_of table.now) text.now output.old work.old spare.old declared.old records.old }
    ensures answer_after { answer.new ≡ four_called (function_answer (table_of table.now) text.now output.old work.old spare.old declared.old records.old) }
{
    *answer = of_call(preprocessor::preprocess_by_levels(
        text, table, output, work, spare, declared, records,
    ));
}

// `is_closed`: whether a body may be rewritten apart from what stands behind it.
pub fn plpgsql_is_closed(text: &[u8], map: &mut [u8], answer: &mut [u32; 4])
    ensures map_after { map.new ≡ map_exit text.now map.old [] }
    ensures answer_after { answer.new ≡ four_found (closed_answer text.now map.old) }
{
    *answer = of_search(closed::is_closed(text, map));
}
