// The rows of the report: one for each search, in the order of their kinds, and three more. The answers of the last one are
// stored wrong, so that all of them must differ.
pub const NAMES: [&str; 13] = [
    "regions",
    "find_keyword",
    "find_in_code",
    "find_str_in_code",
    "next_word_in_code",
    "split_in_code",
    "requote_dollar_literals",
    "requoted_length",
    "has_unterminated_dollar_quote",
    "has_exception_handler",
    "unknown_lines",
    "limits",
    "wrong_answers",
];

// How many rows there are.
pub const COUNT: usize = NAMES.len();

// The rows behind those of the searches: of the lines that ask for no search, of those with lengths of their own, and of the wrong
// answers. They are places in the report and no codes: an enum of the kinds and these three would only be turned into them.
pub const UNKNOWN: usize = 10;

pub const LIMITS: usize = 11;

pub const WRONG: usize = 12;
