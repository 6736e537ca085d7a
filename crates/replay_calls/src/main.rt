// Replays a stored list of texts and answers: each text is rewritten again by the body call or the function call, some under a
// table of levels, and the answer and all that the lent buffers hold are compared with the stored ones. Prints how many answers
// were compared and how many differ.
#![tactic(auto)]

mod answer;
mod call;
mod list;
mod rows;

use crate::list::CallReplay;
use crate::rows::NAMES;
use std::io;
use stored_list::replay_list;

fn main(rt: HostRuntime) -> io::Result<()> {
    replay_list(&mut rt.stdin(), &rt, CallReplay::new(), &NAMES)
}
