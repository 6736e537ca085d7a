// The replay of a stored list, which the programs differ in only by what a line asks.
use crate::lines::for_each_line;
use crate::tally::{Row, print_rows};
use std::io;
use std::io::Read;

// No promises: what a program asks and counts is its own, and that it agrees with the lists is what the replay shows.
pub trait Replay: Drop {
    // Takes one line: what it asks is asked again, and the answer is counted.
    fn take_line(&mut self, line: &[u8]);

    // The report so far.
    fn tally(&self) -> &[Row];
}

// Replays the list on an input, and prints the report, whose rows have these names. As of what it calls, nothing can be promised
// of what it reads and writes.
pub fn replay_list(
    input: &mut impl Read,
    rt: &impl Print,
    mut replay: impl Replay,
    names: &[&str],
) -> io::Result<()> {
    let mut lines = [0u8; 65536];
    for_each_line(input, &mut lines, |line| replay.take_line(line));
    print_rows(rt, names, replay.tally())
}
