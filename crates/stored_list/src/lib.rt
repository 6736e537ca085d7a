// What the programs share that replay stored lists: the lines of an input, their fields, texts and numbers,
// marked buffers, places that are changed behind a call, and the report.
#![tactic(auto)]

mod answers;
mod fault;
mod fields;
mod held;
mod lines;
mod marks;
mod numbers;
mod replay;
mod runs;
mod tally;

pub use answers::{Found, Numbers, expected};
pub use fault::{Fault, fault_of, inject};
pub use fields::{decode, field, next_place, number, part};
pub use held::{Held, Listed, NumberList, Text};
pub use lines::{Line, for_each_line, next_line};
pub use marks::{Mark, START_NUMBERS, TEXT_BYTES, is_filled, is_marked, marked};
pub use numbers::count;
pub use replay::{Replay, replay_list};
pub use tally::{Row, note, print_rows};
