// The lines of an input. A buffer holds the bytes that were read last, and a line is a part of it.
ghost use Rattle.std.specs.Prelude.{◌≡◌, ◌≤◌, length, take, drop, IfSome};
ghost use Rattle.std.proofs.lemmas.List.Edits.{sets};
ghost use Rattle.stored_list.specs.ListLines.{start_after, line_from, FirstRead, NextLine, LineIn, HandsLines};

use crate::fields::{next_place, part};
use std::io::Read;

// Before the first line of an input nothing is read: there it is the default.
#[derive(Clone, Copy, Default)]
pub struct Line {
    // The line's bytes are those from start up to end.
    pub start: usize,
    pub end: usize,
    // How many bytes of the buffer were read.
    pub filled: usize,
}

// The functions below take the input, the buffer and a line apart, and no struct of the three: `next_line` promises of the buffer's
// bytes before and after, and a line is handed on without the two.

// Reads once, and gives how many bytes it put at the front: none where the input ends or the read fails.
fn read_some(input: &mut impl Read, buffer: &mut [u8]) -> usize
    ensures { result ≤ length buffer.new }
{
    input.read(buffer).unwrap_or(0)
}

// Reads until the buffer is full, the input ends or a read fails, and gives how many bytes it put at the front. The reads are
// counted here, since `read_exact` does not say how many bytes it read of an input that ends before.
fn read_full(input: &mut impl Read, buffer: &mut [u8]) -> usize
    ensures { result ≤ length buffer.new }
{
    let mut done = 0;
    while done < buffer.len() {
        let n = read_some(input, &mut buffer[done..]);
        if n == 0 {
            return done;
        }
        done += n;
    }
    done
}

// Reads on behind the first `left` bytes, and gives how many bytes there are then.
#[tactic(auto)]
fn read_behind(input: &mut impl Read, buffer: &mut [u8], left: usize) -> usize
    requires { left ≤ length buffer.old }
    ensures lower_bound { left ≤ result }
    ensures upper_bound { result ≤ length buffer.new }
    ensures buffer_unchanged { take left buffer.new ≡ take left buffer.old }
{
    left + read_full(input, &mut buffer[left..])
}

// Moves the bytes from `from` up to `end` to the front, and gives how many there are.
#[tactic(auto, using(crate::proofs::CopyLaws::moved))]
fn move_front(buffer: &mut [u8], from: usize, end: usize) -> usize
    ensures value { result ≡ length (drop from (take end buffer.old)) }
    ensures buffer_after { buffer.new ≡ sets buffer.old 0 (drop from (take end buffer.old)) }
{
    let end = end.min(buffer.len());
    let from = from.min(end);
    buffer.copy_within(from..end, 0);
    end - from
}

// Where the next line begins: behind the newline of the line before it.
fn next_start(before: Line) -> usize
    ensures { result ≡ start_after before }
{
    if before.end < before.filled {
        before.end + 1
    } else {
        before.end
    }
}

// The line from `start` on, of the first `filled` bytes, if a newline ends it there.
#[tactic(auto, using(crate::proofs::ListLineLaws::newline_read), unfolding(crate::specs::ListLines::line_from))]
fn line_from(buffer: &[u8], start: usize, filled: usize) -> Option<Line>
    ensures { result ≡ line_from start filled buffer.now }
{
    let end = next_place(part(buffer, 0, filled), start, b'\n');
    (end < filled).then_some(Line { start, end, filled })
}

// The first line of the buffer's bytes, after reading on behind the first `left` ones.
#[tactic(auto)]
fn read_line(input: &mut impl Read, buffer: &mut [u8], left: usize) -> Option<Line>
    requires { left ≤ length buffer.old }
    ensures first_read { FirstRead left buffer.new result }
    ensures buffer_unchanged { take left buffer.new ≡ take left buffer.old }
{
    let filled = read_behind(input, buffer, left);
    line_from(buffer, 0, filled)
}

// The line behind this one. It ends with a newline and is shorter than the buffer; other bytes at the end of the input are no
// line. What is read is free.
#[tactic(auto, using(crate::proofs::ListLineLaws::next_held, crate::proofs::ListLineLaws::next_read, crate::proofs::ListLineLaws::next_in))]
pub fn next_line(input: &mut impl Read, buffer: &mut [u8], before: Line) -> Option<Line>
    ensures next_line { NextLine buffer.old before buffer.new result }
    ensures line_in { before.filled ≤ length buffer.old → IfSome result (LineIn buffer.new) }
{
    let start = next_start(before);
    if let Some(line) = line_from(buffer, start, before.filled) {
        return Some(line);
    }
    let left = move_front(buffer, start, before.filled);
    read_line(input, buffer, left)
}

// Hands each line of an input to `take`, up to the last. What is read is free; none of what is handed over has a newline in it. A
// proved loop has to end, so its turns are bounded by a number that no list uses up.
pub fn for_each_line<F: FnMut(&[u8]) + Drop>(input: &mut impl Read, buffer: &mut [u8], mut take: F)
    requires { F.IsAlwaysCallable take }
    ensures { (last : F) × HandsLines (λ f x g. F.step f x tt g) take last }
{
    let mut line = Line::default();
    for _turn in 0..u64::MAX {
        let Some(next) = next_line(input, buffer, line) else {
            return;
        };
        line = next;
        take(part(buffer, line.start, line.end));
    }
}
