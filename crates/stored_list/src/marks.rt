// Buffers hold a mark in every place before a call, so that what it writes shows.
ghost use Rattle.std.specs.Prelude.{◌≡◌, replicate};
ghost use Rattle.stored_list.specs.Fault.{other, other_differs};
ghost use Rattle.stored_list.specs.Marks.{mark, number_mark, holds_only};

// Twice the longest text of a search, and a few bytes more.
pub const TEXT_BYTES: usize = 131_080;

// As many numbers as a split of the longest text needs, and a few more.
pub const START_NUMBERS: usize = 65_544;

// What a marked buffer holds: bytes or numbers.
pub trait Mark: Copy + PartialEq {
    // An element that no result holds.
    const MARK: Self;

    ghost MARK: { Self };

    ghost other: { Self → Self };

    // Another element. No default body for the two alike: it would make 1 and 2 by `From<u8>`, and each impl would owe a law of what that
    // gives, for one line.
    fn other(self) -> Self
        ensures { result ≡ other self };

    ghost differs: { (x : Self) → other x ≡ x → ⊥ };
}

// Texts are ASCII, and maps hold 0 and 1.
impl Mark for u8 {
    const MARK: u8 = 165;

    ghost MARK = { mark };

    ghost other = { other };

    fn other(self) -> u8 {
        if self == 1 { 2 } else { 1 }
    }

    ghost differs = { other_differs };
}

// Lists of starts and records hold no number so large.
impl Mark for u32 {
    const MARK: u32 = 2_779_096_485;

    ghost MARK = { number_mark };

    ghost other = { other };

    fn other(self) -> u32 {
        if self == 1 { 2 } else { 1 }
    }

    ghost differs = { other_differs };
}

// A buffer of N marks.
pub fn marked<T: Mark, const N: usize>() -> [T; N]
    ensures { result ≡ replicate N T.MARK }
{
    [T::MARK; N]
}

// Whether all elements from `from` up to `end` are x, as far as the buffer reaches. A list may lend more than there is, so what is asked
// of is two numbers and no part of the buffer.
pub fn is_filled<T: Copy + PartialEq>(buffer: &[T], from: usize, end: usize, x: T) -> bool
    ensures { result ≡ holds_only T.eq x from end buffer.now }
{
    let end = end.min(buffer.len());
    let part = buffer.get(from..end).unwrap_or(&[]);
    part.iter().all(|y| *y == x)
}

// Whether nothing was written from `from` up to `end`, as far as the buffer reaches.
pub fn is_marked<T: Mark>(buffer: &[T], from: usize, end: usize) -> bool
    ensures { result ≡ holds_only T.eq T.MARK from end buffer.now }
{
    is_filled(buffer, from, end, T::MARK)
}
