// The answer on standard output.
use std::io;

// The four numbers with single spaces, a newline, and as many bytes of the output as the third says. No `Display`, which writes
// text alone: the output is bytes.
pub fn print_answer(rt: &impl Print, answer: [u32; 4], output: &[u8]) -> io::Result<()> {
    let [number, place, length, records] = answer;
    println!(rt; "{number} {place} {length} {records}")?;
    rt.write_all(output.get(..length as usize).unwrap_or(output))
}
