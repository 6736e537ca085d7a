// Replays a stored list of questions and answers: each search is made again, and its answer and what it wrote are compared
// with the stored ones. Prints how many answers were compared and how many differ.
#![tactic(auto)]

mod ask;
mod kind;
mod list;
mod question;
mod rows;

use crate::list::SearchReplay;
use crate::rows::NAMES;
use std::io;
use stored_list::replay_list;

fn main(rt: HostRuntime) -> io::Result<()> {
    replay_list(&mut rt.stdin(), &rt, SearchReplay::new(), &NAMES)
}
