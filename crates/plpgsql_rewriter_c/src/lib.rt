// The functions of include/plpgsql_rewriter.h, for C: the static library is made of this crate. Each calls the function of its
// name in crate `plpgsql_rewriter` and meets the same clauses. There are two crates, since C calls an extern function by its symbol,
// and a Rattle crate calls one that is not extern. A slice is a pointer and a length in C, and C lends each buffer apart, so the
// functions take them so.
#![tactic(auto)]

ghost use Rattle.std.specs.Prelude.{◌≡◌, [], length};
ghost use Rattle.spec.specs.Answers.{map_exit, regions_answer, keyword_answer, byte_answer, needle_answer, word_answer, word_part, search_numbers, handler_answer, unterminated_answer, split_answer, split_map_exit, split_exit, requoted_length_answer, requote_answer, requote_exit, body_check, body_answer, body_output, work_exit, function_check, function_answer, function_output, function_text, function_records};
ghost use Rattle.spec.specs.Levels.{table_of, no_table};
ghost use Rattle.closed.specs.Answer.{closed_answer};
ghost use Rattle.plpgsql_rewriter.specs.Four.{four, four_found, four_filled, four_called};

#[unsafe(no_mangle)]
pub extern "C" fn plpgsql_regions(text: &[u8], map: &mut [u8], answer: &mut [u32; 4])
    ensures map_after { map.new ≡ map_exit text.now map.old [] }
    ensures answer_after { answer.new ≡ four_filled (regions_answer text.now map.old) }
{
    plpgsql_rewriter::plpgsql_regions(text, map, answer);
}

#[unsafe(no_mangle)]
pub extern "C" fn plpgsql_find_keyword(
    text: &[u8],
    map: &mut [u8],
    keyword: &[u8],
    from: usize,
    answer: &mut [u32; 4],
)
    ensures map_after { map.new ≡ map_exit text.now map.old keyword.now }
    ensures answer_after { answer.new ≡ four_found (keyword_answer text.now map.old keyword.now from) }
{
    plpgsql_rewriter::plpgsql_find_keyword(text, map, keyword, from, answer);
}

#[unsafe(no_mangle)]
pub extern "C" fn plpgsql_find_in_code(text: &[u8], map: &mut [u8], byte: u8, answer: &mut [u32; 4])
    ensures map_after { map.new ≡ map_exit text.now map.old [] }
    ensures answer_after { answer.new ≡ four_found (byte_answer text.now map.old byte) }
{
    plpgsql_rewriter::plpgsql_find_in_code(text, map, byte, answer);
}

#[unsafe(no_mangle)]
pub extern "C" fn plpgsql_find_str_in_code(
    text: &[u8],
    map: &mut [u8],
    needle: &[u8],
    answer: &mut [u32; 4],
)
    ensures map_after { map.new ≡ map_exit text.now map.old needle.now }
    ensures answer_after { answer.new ≡ four_found (needle_answer text.now map.old needle.now) }
{
    plpgsql_rewriter::plpgsql_find_str_in_code(text, map, needle, answer);
}

#[unsafe(no_mangle)]
pub extern "C" fn plpgsql_next_word_in_code(
    text: &[u8],
    map: &mut [u8],
    from: usize,
    answer: &mut [u32; 4],
)
    ensures map_after { map.new ≡ map_exit text.now map.old [] }
    ensures answer_after { answer.new ≡ four (search_numbers (word_answer text.now map.old from)) (length (word_part text.now map.old from)) }
{
    plpgsql_rewriter::plpgsql_next_word_in_code(text, map, from, answer);
}

#[unsafe(no_mangle)]
pub extern "C" fn plpgsql_split_in_code(
    text: &[u8],
    map: &mut [u8],
    starts: &mut [u32],
    separator: u8,
    answer: &mut [u32; 4],
)
    ensures map_after { map.new ≡ split_map_exit text.now map.old starts.old }
    ensures starts_after { starts.new ≡ split_exit text.now map.old starts.old separator }
    ensures answer_after { answer.new ≡ four_filled (split_answer text.now map.old starts.old separator) }
{
    plpgsql_rewriter::plpgsql_split_in_code(text, map, starts, separator, answer);
}

#[unsafe(no_mangle)]
pub extern "C" fn plpgsql_requoted_length(text: &[u8], answer: &mut [u32; 4])
    ensures { answer.new ≡ four_filled (requoted_length_answer text.now) }
{
    plpgsql_rewriter::plpgsql_requoted_length(text, answer);
}

#[unsafe(no_mangle)]
pub extern "C" fn plpgsql_requote_dollar_literals(
    text: &[u8],
    output: &mut [u8],
    answer: &mut [u32; 4],
)
    ensures output_after { output.new ≡ requote_exit text.now output.old }
    ensures answer_after { answer.new ≡ four_filled (requote_answer text.now output.old) }
{
    plpgsql_rewriter::plpgsql_requote_dollar_literals(text, output, answer);
}

#[unsafe(no_mangle)]
pub extern "C" fn plpgsql_has_unterminated_dollar_quote(text: &[u8], answer: &mut [u32; 4])
    ensures { answer.new ≡ four_found (unterminated_answer text.now) }
{
    plpgsql_rewriter::plpgsql_has_unterminated_dollar_quote(text, answer);
}

#[unsafe(no_mangle)]
pub extern "C" fn plpgsql_has_exception_handler(text: &[u8], map: &mut [u8], answer: &mut [u32; 4])
    ensures map_after { map.new ≡ map_exit text.now map.old [] }
    ensures answer_after { answer.new ≡ four_found (handler_answer text.now map.old) }
{
    plpgsql_rewriter::plpgsql_has_exception_handler(text, map, answer);
}

#[unsafe(no_mangle)]
pub extern "C" fn plpgsql_transform_body(
    text: &[u8],
    output: &mut [u8],
    work: &mut [u8],
    spare: &mut [u8],
    answer: &mut [u32; 4],
)
    ensures output_after { output.new ≡ body_output no_table text.now output.old work.old spare.old }
    ensures work_after { work.new ≡ work_exit (body_check text.now output.old work.old spare.old) work.old }
    ensures spare_after { spare.new ≡ work_exit (body_check text.now output.old work.old spare.old) spare.old }
    ensures answer_after { answer.new ≡ four_called (body_answer no_table text.now output.old work.old spare.old) }
{
    plpgsql_rewriter::plpgsql_transform_body(text, output, work, spare, answer);
}

#[unsafe(no_mangle)]
pub extern "C" fn plpgsql_transform_body_by_levels(
    text: &[u8],
    table: &[u8],
    output: &mut [u8],
    work: &mut [u8],
    spare: &mut [u8],
    answer: &mut [u32; 4],
)
    ensures output_after { output.new ≡ body_output (table_of table.now) text.now output.old work.old spare.old }
    ensures work_after { work.new ≡ work_exit (body_check text.now output.old work.old spare.old) work.old }
    ensures spare_after { spare.new ≡ work_exit (body_check text.now output.old work.old spare.old) spare.old }
    ensures answer_after { answer.new ≡ four_called (body_answer (table_of table.now) text.now output.old work.old spare.old) }
{
    plpgsql_rewriter::plpgsql_transform_body_by_levels(text, table, output, work, spare, answer);
}

#[unsafe(no_mangle)]
pub extern "C" fn plpgsql_preprocess(
    text: &[u8],
    output: &mut [u8],
    work: &mut [u8],
    spare: &mut [u8],
    declared: &mut [u8],
    records: &mut [u32],
    answer: &mut [u32; 4],
)
    ensures output_after { output.new ≡ function_output no_table text.now output.old work.old spare.old declared.old records.old }
    ensures work_after { work.new ≡ work_exit (function_check text.now output.old work.old spare.old declared.old records.old) work.old }
    ensures spare_after { spare.new ≡ work_exit (function_check text.now output.old work.old spare.old declared.old records.old) spare.old }
    ensures declared_after { declared.new ≡ function_text no_table text.now output.old work.old spare.old declared.old records.old }
    ensures records_after { records.new ≡ function_records no_table text.now output.old work.old spare.old declared.old records.old }
    ensures answer_after { answer.new ≡ four_called (function_answer no_table text.now output.old work.old spare.old declared.old records.old) }
{
    plpgsql_rewriter::plpgsql_preprocess(text, output, work, spare, declared, records, answer);
}

#[unsafe(no_mangle)]
pub extern "C" fn plpgsql_preprocess_by_levels(
    text: &[u8],
    table: &[u8],
    output: &mut [u8],
    work: &mut [u8],
    spare: &mut [u8],
    declared: &mut [u8],
    records: &mut [u32],
    answer: &mut [u32; 4],
)
    ensures output_after { output.new ≡ function_output (table_of table.now) text.now output.old work.old spare.old declared.old records.old }
    ensures work_after { work.new ≡ work_exit (function_check text.now output.old work.old spare.old declared.old records.old) work.old }
    ensures spare_after { spare.new ≡ work_exit (function_check text.now output.old work.old spare.old declared.old records.old) spare.old }
    ensures declared_after { declared.new ≡ function_text (table_of table.now) text.now output.old work.old spare.old declared.old records.old }
    ensures records_after { records.new ≡ function_records (table_of table.now) text.now output.old work.old spare.old declared.old records.old }
    ensures answer_after { answer.new ≡ four_called (function_answer (table_of table.now) text.now output.old work.old spare.old declared.old records.old) }
{
    plpgsql_rewriter::plpgsql_preprocess_by_levels(
        text, table, output, work, spare, declared, records, answer,
    );
}

#[unsafe(no_mangle)]
pub extern "C" fn plpgsql_is_closed(text: &[u8], map: &mut [u8], answer: &mut [u32; 4])
    ensures map_after { map.new ≡ map_exit text.now map.old [] }
    ensures answer_after { answer.new ≡ four_found (closed_answer text.now map.old) }
{
    plpgsql_rewriter::plpgsql_is_closed(text, map, answer);
}
