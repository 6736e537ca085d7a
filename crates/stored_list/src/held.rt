// The texts and the numbers that the lines of a list give, each in a buffer of its own.
ghost use Rattle.std.specs.Prelude.{◌≡◌, ◌≤◌, ℕ, List, [], length, min, take};
ghost use Rattle.std.proofs.lemmas.List.Edits.{sets};

use crate::marks::{START_NUMBERS, TEXT_BYTES};
use std::marker::Model;

// What a line gives a list of: bytes or numbers.
pub trait Listed: Copy + Default {
    // The list that a line gives.
    ghost listed: { List ℕ → List Self };

    // Puts it at the front of out, as far as out reaches, and gives how many elements there are.
    fn put_line(line: &[u8], out: &mut [Self]) -> usize
        ensures value { result ≡ min (length (listed line.now)) (length out.old) }
        ensures out_after { out.new ≡ sets out.old 0 (listed line.now) };
}

// A list in a buffer of N elements: the library allocates nothing.
#[derive(Drop)]
pub struct Held<T, const N: usize> {
    buffer: [T; N],
    len: usize,
}

pub type Text = Held<u8, TEXT_BYTES>;

pub type NumberList = Held<u32, START_NUMBERS>;

impl<T, const N: usize> Model for Held<T, N> {
    ghost Value = { List T };

    ghost view = { λ t. take t.len t.buffer };

    ghost invariant = { λ t. t.len ≤ N };
}

impl<T: Listed, const N: usize> Held<T, N> {
    pub fn new() -> Held<T, N>
        ensures { result ≡ [] }
    {
        Held {
            buffer: [T::default(); N],
            len: 0,
        }
    }

    pub fn as_slice(&self) -> &[T]
        ensures { result.now ≡ self.now }
    {
        &self.buffer[..self.len]
    }

    pub fn clear(&mut self)
        ensures { self.new ≡ [] }
    {
        self.len = 0;
    }

    // The list that a line gives, as far as the buffer reaches.
    #[tactic(auto, using(crate::proofs::RepeatLaws::held))]
    pub fn set_line(&mut self, line: &[u8])
        ensures { self.new ≡ take N (T.listed line.now) }
    {
        self.len = T::put_line(line, &mut self.buffer);
    }
}
