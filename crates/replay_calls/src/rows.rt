// The rows of the report. The answers of the last one are stored wrong, so that all of them must differ.
pub const NAMES: [&str; 11] = [
    "random_bodies",
    "body_rows",
    "body_limits",
    "random_functions",
    "function_rows",
    "function_limits",
    "bodies_by_levels",
    "functions_by_levels",
    "refused_tables",
    "unknown_lines",
    "wrong_answers",
];

// How many rows there are.
pub const COUNT: usize = NAMES.len();

// The row of the lines that are of no kind: a row of the report, and no code for none. A line of the list names a row by its number.
pub const UNKNOWN: usize = 9;
