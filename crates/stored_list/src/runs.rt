// Texts by run lengths: COUNT HEX COUNT HEX .. stands for COUNT times the first bytes, then COUNT times the second, and so on.
ghost use Rattle.std.specs.Prelude.{◌≡◌, ◌+◌, ◌≤◌, min, length};
ghost use Rattle.std.proofs.lemmas.List.Edits.{sets};
ghost use Rattle.stored_list.specs.Runs.{repeated, hex_run, runs_of};

use crate::fields::{decode, field};
use crate::held::Listed;
use crate::numbers::count;

// Puts bytes behind the first n bytes of out, as far as out reaches, and gives how many there are then. No `output::Writer`: a text
// stops with its buffer, where a `Writer` counts on past it. No `Held` either: `Listed` fills the buffer that a `Held` lends it, and
// `Held` alone sets its own length.
#[tactic(auto, using(crate::proofs::CopyLaws::copied))]
fn append(out: &mut [u8], n: usize, bytes: &[u8]) -> usize
    requires { n ≤ length out.old }
    ensures value { result ≡ min (n + length bytes.now) (length out.old) }
    ensures out_after { out.new ≡ sets out.old n bytes.now }
{
    let k = bytes.len().min(out.len() - n);
    out[n..n + k].copy_from_slice(&bytes[..k]);
    n + k
}

// The same, `times` times. A line can name far more turns than the buffer has bytes: those that would change nothing are not made.
#[tactic(auto, using(crate::proofs::StoringLaws::storing_list, crate::proofs::StoringLaws::stored_all, crate::proofs::StoringLaws::stored_full, crate::proofs::RepeatLaws::repeated_step, crate::proofs::RepeatLaws::repeated_end, crate::proofs::RepeatLaws::repeated_empty))]
fn append_times(out: &mut [u8], n: usize, bytes: &[u8], times: usize) -> usize
    requires { n ≤ length out.old }
    ensures value { result ≡ min (n + length (repeated times bytes.now)) (length out.old) }
    ensures out_after { out.new ≡ sets out.old n (repeated times bytes.now) }
{
    if bytes.is_empty() {
        return n;
    }
    let mut at = n;
    for _turn in 0..times {
        if at == out.len() {
            return at;
        }
        at = append(out, at, bytes);
    }
    at
}

// The same with bytes in hex.
fn append_hex(out: &mut [u8], n: usize, hex: &[u8], times: usize) -> usize
    requires { n ≤ length out.old }
    ensures value { result ≡ min (n + length (hex_run times hex.now)) (length out.old) }
    ensures out_after { out.new ≡ sets out.old n (hex_run times hex.now) }
{
    let mut bytes = [0u8; 4096];
    let k = decode(hex, &mut bytes);
    append_times(out, n, &bytes[..k], times)
}

// Puts the runs of a line, which begin with its second field, at the front of out, and gives how many bytes there are. A run is two
// fields, read by their numbers as the definition reads them: an iterator of the fields would be asked for two in each of the 500
// turns that the definition has, each time with what stands for a field that is missing, and be no shorter.
#[tactic(auto, using(crate::proofs::StoringLaws::storing, crate::proofs::StoringLaws::stored_all, crate::proofs::RepeatLaws::runs_none, crate::proofs::RepeatLaws::runs_step, crate::proofs::RepeatLaws::runs_end, crate::proofs::RepeatLaws::run_fields), unfolding(crate::specs::Runs::runs_of))]
fn put_runs(line: &[u8], out: &mut [u8]) -> usize
    ensures value { result ≡ min (length (runs_of line.now)) (length out.old) }
    ensures out_after { out.new ≡ sets out.old 0 (runs_of line.now) }
{
    let mut n = 0;
    for j in 0..500 {
        let times = field(line, 2 * j + 1);
        if times.is_empty() {
            return n;
        }
        n = append_hex(out, n, field(line, 2 * j + 2), count(times));
    }
    n
}

// A text, by the runs of a line.
impl Listed for u8 {
    ghost listed = { runs_of };

    fn put_line(line: &[u8], out: &mut [u8]) -> usize {
        put_runs(line, out)
    }
}
