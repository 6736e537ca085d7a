// The fields of a line: a letter for its kind, then texts in hex and decimal numbers, with one space between two fields. A line and
// the number or the offset of a field are two arguments: a line has many fields.
ghost use Rattle.std.specs.Prelude.{◌≡◌, ◌≤◌, ◌<◌, min, length, IfSome};
ghost use Rattle.std.proofs.lemmas.List.Edits.{sets};
ghost use Rattle.stored_list.specs.Fields.{part_of, place_of, field_of};
ghost use Rattle.stored_list.specs.Numbers.{hex_digit, hex_bytes, with_digit, number_of};

// The bytes from a up to e, or none where they do not lie in the list.
#[tactic(auto, using(crate::proofs::FieldLaws::part_get))]
pub fn part(list: &[u8], a: usize, e: usize) -> &[u8]
    ensures { result.now ≡ part_of a e list.now }
{
    list.get(a..e).unwrap_or(&[])
}

// Where b stands next at or after `from`, or else the list's end; past the end it is `from` itself.
pub fn next_place(list: &[u8], from: usize, b: u8) -> usize
    ensures { result ≡ place_of b from list.now }
{
    let rest = list.get(from..).unwrap_or(&[]);
    from + rest.iter().position(|c| *c == b).unwrap_or(rest.len())
}

// The field that has k fields before it; empty if there is none.
pub fn field(line: &[u8], k: usize) -> &[u8]
    ensures { result.now ≡ field_of k line.now }
{
    line.split(|b| *b == b' ').nth(k).unwrap_or(&[])
}

// The value of a hex digit; 0 for any other byte: no `Option`, since a field's other bytes stand for something too, `-` for one.
#[tactic(auto, unfolding(crate::specs::Numbers::hex_digit, spec::specs::Bytes::within))]
fn digit(b: u8) -> u8
    ensures upper_bound { result < 16 }
    ensures value { result ≡ hex_digit b }
{
    match b {
        b'0'..=b'9' => b - b'0',
        b'a'..=b'f' => b - b'a' + 10,
        _ => 0,
    }
}

// Puts the bytes that a field of hex digits stands for at the front of out, as far as it reaches, and gives their number.
// The field `-` is the empty text. The library allocates nothing, so the buffer is lent. It is written by index: a digit pair
// would come by `iter_mut` behind an adapter, of whose elements a proof knows nothing. The result is their number and not the part
// that they fill: that part would keep the buffer lent, of which the promise speaks.
#[tactic(auto, using(crate::proofs::StoringLaws::storing_one, crate::proofs::StoringLaws::stored_all, crate::proofs::StoringLaws::stored_full, crate::proofs::NumberLaws::hex_turn, crate::proofs::NumberLaws::hex_end))]
pub fn decode(hex: &[u8], out: &mut [u8]) -> usize
    ensures value { result ≡ min (length (hex_bytes hex.now)) (length out.old) }
    ensures out_after { out.new ≡ sets out.old 0 (hex_bytes hex.now) }
{
    let n = out.len().min(hex.len() / 2);
    for i in 0..n {
        out[i] = 16 * digit(hex[2 * i]) + digit(hex[2 * i + 1]);
    }
    n
}

// The number n with one more digit behind it; none if b is no digit or n has seven digits.
#[tactic(auto, unfolding(crate::specs::Numbers::with_digit, spec::specs::Bytes::within))]
fn with_digit(n: usize, b: u8) -> Option<usize>
    ensures value { result ≡ with_digit n b }
    ensures bound { IfSome result (λ m. m ≤ 9999999) }
{
    match b {
        b'0'..=b'9' if n <= 999_999 => Some(10 * n + usize::from(b - b'0')),
        _ => None,
    }
}

// The value of a decimal field; none if it is empty, has a byte that is no digit or is too large.
#[tactic(auto, using(crate::proofs::NumberLaws::number_none, crate::proofs::NumberLaws::number_digits, crate::proofs::NumberLaws::digit_some, crate::proofs::NumberLaws::digit_none, crate::proofs::NumberLaws::digits_end))]
pub fn number(digits: &[u8]) -> Option<usize>
    ensures value { result ≡ number_of digits.now }
    ensures bound { IfSome result (λ n. n ≤ 9999999) }
{
    if digits.is_empty() {
        return None;
    }
    let mut n = 0;
    for b in digits {
        n = with_digit(n, *b)?;
    }
    Some(n)
}
