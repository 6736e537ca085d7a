// Lists of 32-bit numbers.
ghost use Rattle.std.specs.Prelude.{◌≡◌, ◌≤◌, min, length};
ghost use Rattle.std.proofs.lemmas.List.Edits.{sets};
ghost use Rattle.stored_list.specs.Numbers.{counted, numbers_of};

use crate::fields::number;
use crate::held::Listed;

// What a field that is no number counts as: more than any buffer holds. A number and no `Option`, since a list of numbers has an
// element for each field, and a place or a length that is too large is refused where it is used, whatever it was read from.
const NO_NUMBER: usize = 99_999_999;

// The number that a field counts as.
pub fn count(field: &[u8]) -> usize
    ensures value { result ≡ counted field.now }
    ensures bound { result ≤ 99999999 }
{
    number(field).unwrap_or(NO_NUMBER)
}

// Puts the numbers of a line, which begin with its second field, at the front of out, as far as it reaches, and gives how many
// there are. Lent and written by index as in `decode`.
fn put_numbers(line: &[u8], out: &mut [u32]) -> usize
    ensures value { result ≡ min (length (numbers_of line.now)) (length out.old) }
    ensures out_after { out.new ≡ sets out.old 0 (numbers_of line.now) }
{
    let mut n = 0;
    for field in line.split(|b| *b == b' ').skip(1) {
        if out.len() <= n {
            return n;
        }
        out[n] = count(field) as u32;
        n += 1;
    }
    n
}

// The numbers of a line.
impl Listed for u32 {
    ghost listed = { numbers_of };

    fn put_line(line: &[u8], out: &mut [u32]) -> usize {
        put_numbers(line, out)
    }
}
