// Writing into a lent buffer. A writer stores where the buffer reaches and counts on where it does not, so that the count is
// the length of the whole result and a later check can refuse it.
#![tactic(auto)]

ghost use Rattle.std.specs.Prelude.{◌≡◌, [], ◌∷◌, ◌+◌, ◌-◌, ◌*◌, ◌^◌, ◌<◌, length, replicate};
ghost use Rattle.std.proofs.lemmas.List.Edits.{sets};
ghost use Rattle.output.specs.Written.{Starts, Wrote, counted, checked};
ghost use Rattle.spec.specs.Requote.{doubled, single_quoted};

use spec::Refusal;

// The bytes of each lent byte buffer that a call fills: the most that a pass's result may have. In `requires` bounds of lengths, offsets
// and counts are numbers: they keep sums, casts and results in range, and a type for them would have to be made of every part of a
// text.
pub const BUFFER_SIZE: usize = 65536;

// A count of bytes, refusal 6 past the buffer size.
#[tactic(auto, unfolding(crate::specs::Written::counted))]
pub fn within_buffer(n: usize) -> Result<usize, Refusal>
    ensures { result ≡ counted n }
{
    if BUFFER_SIZE < n {
        return Err(Refusal::ResultTooLong);
    }
    Ok(n)
}

// A lent buffer, and how many bytes of a result are written.
#[derive(Drop)]
pub struct Writer<'a> {
    pub out: &'a mut [u8],
    pub len: usize,
}

impl<'a> Writer<'a> {
    // At the front of the buffer.
    pub fn new(out: &'a mut [u8]) -> Writer<'a>
        ensures { Starts out.entry result }
    {
        Writer { out, len: 0 }
    }

    // One byte.
    #[tactic(auto, using(crate::proofs::StoreLaws::store_laws))]
    pub fn put(&mut self, b: u8)
        requires { self.old.len < 2 ^ 63 }
        ensures { Wrote self.old (b ∷ []) self.new }
    {
        // No `get_mut`: tried, and the proof did not close, since the library's contract says nothing of what the slice holds afterwards.
        if self.len < self.out.len() {
            self.out[self.len] = b;
        }
        self.len += 1;
    }

    // All of src.
    pub fn put_all(&mut self, src: &[u8])
        requires { self.old.len + length src.now < 2 ^ 63 }
        ensures { Wrote self.old src.now self.new }
    {
        // Many texts are one byte, which needs no loop.
        if let [b] = src {
            self.put(*b);
        } else {
            store(self.out, self.len, src);
            self.len += src.len();
        }
    }

    // One byte, a `'` twice.
    #[tactic(auto, unfolding(spec::specs::Requote::doubled))]
    fn put_doubled_byte(&mut self, b: u8)
        requires { self.old.len + 2 < 2 ^ 63 }
        ensures { Wrote self.old (doubled (b ∷ [])) self.new }
    {
        self.put(b);
        if b == b'\'' {
            self.put(b);
        }
    }

    // All of src, each `'` twice.
    #[tactic(auto, using(crate::proofs::StoreLaws::doubled_step, crate::proofs::StoreLaws::doubled_end, crate::proofs::WriterLaws::left_start, crate::proofs::WriterLaws::left_more, crate::proofs::WriterLaws::left_done, spec::proofs::RequotedLength::doubled_le))]
    fn put_doubled(&mut self, src: &[u8])
        requires { self.old.len + 2 * length src.now < 2 ^ 63 }
        ensures { Wrote self.old (doubled src.now) self.new }
    {
        for &b in src {
            self.put_doubled_byte(b);
        }
    }

    // All of src between single quotes, each `'` in it twice.
    #[tactic(auto, using(crate::proofs::StoreLaws::quoted_laws))]
    pub fn put_single_quoted(&mut self, src: &[u8])
        requires { self.old.len + 2 * length src.now + 2 < 2 ^ 63 }
        ensures { Wrote self.old (single_quoted src.now) self.new }
    {
        self.put(b'\'');
        self.put_doubled(src);
        self.put(b'\'');
    }

    // Refusal 6 if the result is past the buffer size.
    #[tactic(auto, unfolding(crate::specs::Written::checked))]
    pub fn check(&self) -> Result<(), Refusal>
        ensures { result ≡ checked self.now.len }
    {
        within_buffer(self.len)?;
        Ok(())
    }

    // Back to the front of the buffer, whose bytes stay.
    pub fn restart(&mut self)
        ensures { Starts self.old.out self.new }
    {
        self.len = 0;
    }
}

// src at offset n, as far as the buffer reaches. By a buffer and an offset: the count, which is what a writer adds to them,
// moves by the length of src whether it fits or not. A byte at a time, with the test in the loop: a copy of a part is compiled to
// calls of the C library's `memcpy` and `memmove`, which the static library would then need.
#[tactic(auto, using(crate::proofs::StoreLaws::sets_out, crate::proofs::StoreLaws::stored_turn, crate::proofs::StoreLaws::stored_end, crate::proofs::StoreLaws::store_laws))]
fn store(out: &mut [u8], n: usize, src: &[u8])
    ensures { out.new ≡ sets out.old n src.now }
{
    if n < out.len() {
        for i in 0..src.len() {
            if n + i < out.len() {
                out[n + i] = src[i];
            }
        }
    }
}

// The item x from offset `from` up to offset `to`, as far as the buffer reaches.
#[tactic(auto, using(crate::proofs::StoreLaws::fill_end))]
pub fn fill<T: Copy>(out: &mut [T], from: usize, to: usize, x: T)
    ensures { out.new ≡ sets out.old from (replicate (to - from) x) }
{
    let end = to.min(out.len());
    if from < end {
        out[from..end].fill_with(|| x);
    }
}
