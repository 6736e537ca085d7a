// The records of a section while they are read: each holds the places of its last declaration in the section's text, and
// its name's hash.
// The text, the records and the number of a record are arguments of their own: one section has many records, and a struct of the
// caller's slice and the count would have to say in each promise that it holds the same slice. `number`, `mark_of`, `name_of`,
// `put_numbers` and `gather` take a slice that may be longer than 5,130, and `place_in` does, which `name_of` calls: an array would
// ask more of their callers. What else `gather` calls takes the slice's front as an array, so that it asks for no length. The bounds
// 512 and 5,130 are limits of the call.
#![tactic(auto)]

ghost use Rattle.std.specs.Prelude.{◌≡◌, ◌+◌, ◌*◌, ◌^◌, ◌≤◌, ◌<◌, length, get_or, drop};
ghost use Rattle.std.proofs.lemmas.List.Edits.{sets};
ghost use Rattle.spec.specs.Bytes.{is_same};
ghost use Rattle.spec.specs.Map.{bytes};
ghost use Rattle.declared_parts.specs.DeclaredParts.{place_at, is_set, Within};
ghost use Rattle.declared_records.specs.Held.{record_in, records_from, place_of, name_hash, held_numbers, HashIn, Hashed, Added, Gathered};

use declared_parts::{DeclarationPlaces, read_part};
use runs::Place;
use scanner::MappedText;
use spec::Refusal;

// How many numbers a record has, how many records there may be, and how many numbers they and the head take.
pub const RECORD_WIDTH: usize = 10;

pub const RECORD_LIMIT: usize = 512;

pub const RECORD_NUMBERS: usize = RECORD_WIDTH * (RECORD_LIMIT + 1);

// The numbers of the head, which is record 0, and of the records.
pub type Records = [u32; RECORD_NUMBERS];

// Where the numbers of a record stand: its next, or its name's hash while the records are read; its name, its type and its
// default, two each; before the default and at the end whether there is one, and the marks.
pub const NEXT: usize = 0;

pub const NAME: usize = 1;

pub const KIND: usize = 3;

pub const HAS_VALUE: usize = 5;

pub const VALUE: usize = 6;

pub const CONSTANT: usize = 8;

pub const NOT_NULL: usize = 9;

// Number j of record k.
pub fn number(records: &[u32], k: usize, j: usize) -> usize
    requires k_bound { k ≤ 512 }
    requires j_bound { j < 10 }
    requires in_bounds { 5130 ≤ length records.now }
    ensures value { result ≡ get_or (drop (10 * k) records.now) j 0 }
    ensures upper_bound { result < 2 ^ 32 }
{
    records[RECORD_WIDTH * k + j] as usize
}

// Whether the mark at number j of record k is set.
pub fn mark_of(records: &[u32], k: usize, j: usize) -> bool
    requires k_bound { k ≤ 512 }
    requires j_bound { j < 10 }
    requires in_bounds { 5130 ≤ length records.now }
    ensures { result ≡ is_set (get_or (drop (10 * k) records.now) j 0) }
{
    number(records, k, j) != 0
}

// The place at numbers j and j + 1 of record k.
pub fn place_in(records: &[u32], k: usize, j: usize) -> Place
    requires k_bound { k ≤ 512 }
    requires j_bound { j < 9 }
    requires in_bounds { 5130 ≤ length records.now }
    ensures { result ≡ place_at (drop (10 * k) records.now) j }
{
    Place {
        at: number(records, k, j),
        len: number(records, k, j + 1),
    }
}

// The name of record k.
#[tactic(auto, unfolding(declared_parts::specs::DeclaredParts::declared_by))]
pub fn name_of<'a>(text: &'a [u8], records: &[u32], k: usize) -> &'a [u8]
    requires k_bound { k ≤ 512 }
    requires in_bounds { 5130 ≤ length records.now }
    ensures { result.now ≡ (record_in text.now records.now k).name }
{
    place_in(records, k, NAME).of(text)
}

// The ten numbers of record k.
pub fn put_numbers(records: &mut [u32], k: usize, numbers: [u32; RECORD_WIDTH])
    requires k_bound { k ≤ 512 }
    requires in_bounds { 5130 ≤ length records.old }
    ensures { records.new ≡ sets records.old (10 * k) numbers }
{
    let at = RECORD_WIDTH * k;
    records[at..at + RECORD_WIDTH].copy_from_slice(&numbers);
}

// A hash of a name, with the multiplier of the FNV hashes; below 2 ^ 32, so that a record's number holds it. Names with
// different hashes are different. A usize and no u32, since `number` gives a record's numbers as usize, which it is compared with.
fn hash_of(name: &[u8]) -> usize
    ensures value { result ≡ name_hash name.now }
    ensures upper_bound { result < 2 ^ 32 }
{
    let hash = name.iter().fold(0u32, |hash, b| {
        hash.wrapping_mul(16777619).wrapping_add(u32::from(*b))
    });
    hash as usize
}

// The places of a part as record k, and in front of them its next, or where that will stand a hash: a usize below 2 ^ 32, as
// `number` gives the one and `hash_of` the other.
pub fn put_part(records: &mut Records, k: usize, front: usize, p: DeclarationPlaces)
    requires k_bound { k ≤ 512 }
    requires front_bound { front < 2 ^ 32 }
    requires within { Within 65536 p }
    ensures { records.new ≡ sets records.old (10 * k) (held_numbers front p) }
{
    // Numbers have no `None`: without a default its two numbers are 0, as the C interface has them.
    let value = p.value.unwrap_or_default();
    let numbers = [
        front as u32,
        p.name.at as u32,
        p.name.len as u32,
        p.kind.at as u32,
        p.kind.len as u32,
        u32::from(p.value.is_some()),
        value.at as u32,
        value.len as u32,
        u32::from(p.constant),
        u32::from(p.not_null),
    ];
    put_numbers(records, k, numbers);
}

// Whether a and b are the same bytes. Names of one hash may share their front and some bytes at their end, so the last four bytes are
// compared first.
#[tactic(auto, using(declared_parts::proofs::DeclaredNameLaws::same_of_library))]
fn is_same(a: &[u8], b: &[u8]) -> bool
    ensures { result ≡ is_same a.now b.now }
{
    a.last_chunk::<4>() == b.last_chunk::<4>() && a == b
}

// Whether record k has this name; the hashes tell most names apart. The name and its hash are two arguments: the hash is made once
// for the walk over the records, and a struct of the two would need an invariant for that one walk.
#[tactic(auto, using(crate::proofs::GatherLaws::other_hash))]
fn is_named(text: &[u8], records: &Records, k: usize, name: &[u8], hash: usize) -> bool
    requires k_bound { k ≤ 512 }
    requires hash_value { hash ≡ name_hash name.now }
    requires hash_in { HashIn text.now records.now k }
    ensures { result ≡ is_same name.now (record_in text.now records.now k).name }
{
    number(records, k, NEXT) == hash && is_same(name, name_of(text, records, k))
}

// How many records stand ahead of the first one of this name, all if none has it. No Option: a new record's place is the first free
// one, so that `add_part` puts both in alike.
fn find_name(text: &[u8], records: &Records, count: usize, name: &[u8], hash: usize) -> usize
    requires count_bound { count ≤ 512 }
    requires hash_value { hash ≡ name_hash name.now }
    requires hashed { Hashed text.now records.now count }
    ensures value { result ≡ place_of name.now (records_from text.now records.now 1 count) }
    ensures upper_bound { result ≤ count }
{
    let place = (0..count).find(
        |k|
            requires k_bound { k.now < 512 }
            requires hash_value { hash ≡ name_hash name.now }
            requires hash_in { HashIn text.now records.now (k.now + 1) }
        { is_named(text, records, *k + 1, name, hash) },
    );
    place.unwrap_or(count)
}

// The records with what a part declares: how many there are, unless there would be more than 512. That the array keeps its length
// is a clause, since nothing tells it of the last call in `gather`, behind which the array isn't read.
#[tactic(auto, using(crate::proofs::GatherLaws::add_none, crate::proofs::GatherLaws::add_full, crate::proofs::GatherLaws::add_one))]
fn add_part(
    text: &[u8],
    records: &mut Records,
    count: usize,
    p: DeclarationPlaces,
) -> Result<usize, Refusal>
    requires count_bound { count ≤ 512 }
    requires within { Within 65536 p }
    requires hashed { Hashed text.now records.old count }
    ensures added { Added text.now records.old count p records.new result }
    ensures records_len { length records.new ≡ 5130 }
{
    // A part without a type declares nothing; `DeclarationPlaces` says why it is no Option.
    if p.kind.len == 0 {
        return Ok(count);
    }
    let name = p.name.of(text);
    let hash = hash_of(name);
    let k = find_name(text, records, count, name, hash);
    if k == RECORD_LIMIT {
        return Err(Refusal::TooManyNames);
    }
    put_part(records, k + 1, hash, p);
    Ok(count.max(k + 1))
}

// The records of a section, as places in its text: how many there are, unless more than 512 names are declared. A walk from one
// live `;` to the next: a turn takes the offsets of its piece in the whole text, and no `;` ends the last piece, so an iterator
// over the pieces would be a struct with a flag for the last one, and its `next` would branch where that one stands behind the
// loop here.
#[tactic(auto, using(crate::proofs::GatherLaws::gathered_start, crate::proofs::GatherLaws::gathered_last, crate::proofs::GatherLaws::within_more))]
pub fn gather(text: &MappedText<'_>, records: &mut [u32]) -> Result<usize, Refusal>
    requires text_len_bound { length text.now ≤ 65536 }
    requires in_bounds { 5130 ≤ length records.old }
    ensures gathered { Gathered (bytes text.now) text.now records.new result }
    ensures records_unchanged { drop 5130 records.new ≡ drop 5130 records.old }
{
    let Some(records) = records.first_chunk_mut::<RECORD_NUMBERS>() else {
        unreachable!()
    };
    let bytes = text.text();
    let mut count: usize = 0;
    let mut at: usize = 0;
    while let Some(end) = text.find_byte(b';', at) {
        let p = read_part(text, at, end);
        count = add_part(bytes, records, count, p)?;
        at = end + 1;
    }
    let last = read_part(text, at, text.len());
    add_part(bytes, records, count, last)
}
