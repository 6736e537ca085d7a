// The declaration records of a text. They are read once, each record holding the places of its last declaration in the
// section's text; then each gets its next, and last the texts are packed and the places replaced.
// The records are an array here, which says the length in place of a clause on each function. The text that the places are in, and
// how many records there are, are passed beside them: `gather` alone changes the count and nothing the text, so in a struct of the
// three, as `Writer` is one of a buffer and its count, each function that stores a number would have to promise that the other two
// are as they were. The number of a record is passed beside them too, and its bounds, `k ≤ 512` or `k ≤ count`, are clauses: one
// section has many records, and a struct of one number and its bound would be built for each record that a loop comes to, and for
// each other one that `start_of` and `find_place` look at.
#![tactic(auto)]

ghost use Rattle.std.specs.Prelude.{◌≡◌, true, false, ◌+◌, ◌*◌, ◌^◌, ◌≤◌, ◌<◌, length, drop, set};
ghost use Rattle.std.proofs.lemmas.List.Edits.{sets};
ghost use Rattle.spec.specs.Bytes.{ascii};
ghost use Rattle.spec.specs.Map.{bytes};
ghost use Rattle.spec.specs.Search.{first, keyword_here};
ghost use Rattle.spec.specs.Declarations.{body_from, packed_record, packed, text_or};
ghost use Rattle.output.specs.Written.{Wrote};
ghost use Rattle.declared_parts.specs.DeclaredParts.{spaced};
ghost use Rattle.declared_records.specs.Held.{record_in, records_from};
ghost use Rattle.declarations.specs.Chain.{name_in, Different, Chained, LastAhead, Inserted, comes_behind, InChain};
ghost use Rattle.declarations.specs.SectionRecords.{records_in, Linked, requoted, text_in, value_from, packed_places, section_of, SectionIn, records_of_section, parsed_of, record_numbers, final_numbers, Holds};

use declared_parts::{DeclarationPlaces, comes_before, put_requoted, put_spaced};
use declared_records::{
    CONSTANT, HAS_VALUE, KIND, NEXT, NOT_NULL, RECORD_NUMBERS, RECORD_WIDTH, Records, VALUE,
    gather, mark_of, name_of, number, place_in, put_part,
};
use output::{BUFFER_SIZE, Writer, fill};
use runs::Place;
use scanner::MappedText;
use spec::Refusal;

// How many records there are, and how many bytes their texts have.
#[derive(Clone, Copy, Default)]
pub struct DeclaredSizes {
    pub records: usize,
    pub bytes: usize,
}

// Where the search for record k's place starts: at the record put in last if k comes behind it, else at the head.
fn start_of(text: &[u8], records: &Records, count: usize, k: usize) -> usize
    requires count_bound { count ≤ 512 }
    requires k_le_count { k ≤ count }
    ensures in_chain { InChain count k result }
    ensures comes_behind { comes_behind (name_in text.now records.now) result k ≡ true }
{
    if count <= k {
        return 0;
    }
    let name = name_of(text, records, k);
    let last = name_of(text, records, k + 1);
    if comes_before(last, name) { k + 1 } else { 0 }
}

// The last record in the chain that record k comes behind, from one that it comes behind on; record 0 is the head. A
// loop: the place sought is the last of the walk, which `successors(..).last()` would give as an Option that is never none, and
// `LastAhead` speaks of a last record, where the library's promise speaks of runs of steps.
fn find_place(text: &[u8], records: &Records, count: usize, k: usize, from: usize) -> usize
    requires count_bound { count ≤ 512 }
    requires k_le_count { k ≤ count }
    requires chained { Chained (name_in text.now records.now) records.now count k }
    requires in_chain { InChain count k from }
    requires comes_behind { comes_behind (name_in text.now records.now) from k ≡ true }
    ensures { LastAhead (name_in text.now records.now) records.now count k result }
{
    let name = name_of(text, records, k);
    let mut p = from;
    loop {
        let next = number(records, p, NEXT);
        if next == 0 || !comes_before(name_of(text, records, next), name) {
            return p;
        }
        p = next;
    }
}

// This record comes next behind record k; record 0 is the head.
fn set_next(records: &mut Records, k: usize, next: usize)
    requires k_bound { k ≤ 512 }
    requires next_bound { next < 2 ^ 32 }
    ensures { records.new ≡ set records.old (10 * k) next }
{
    records[RECORD_WIDTH * k + NEXT] = next as u32;
}

// Record k is put into the chain of those numbered above it.
fn insert(text: &[u8], records: &mut Records, count: usize, k: usize)
    requires count_bound { count ≤ 512 }
    requires le_k { 1 ≤ k }
    requires k_le_count { k ≤ count }
    requires different { Different (name_in text.now records.old) count }
    requires chained { Chained (name_in text.now records.old) records.old count k }
    ensures { Inserted text.now records.old count k records.new }
{
    let from = start_of(text, records, count, k);
    let p = find_place(text, records, count, k, from);
    let next = number(records, p, NEXT);
    set_next(records, k, next);
    set_next(records, p, k);
}

// Each record gets its next. The records are put in from the last to the first.
fn link(text: &[u8], records: &mut Records, count: usize)
    requires count_bound { count ≤ 512 }
    requires different { Different (name_in text.now records.old) count }
    ensures { Linked text.now records.old count records.new }
{
    set_next(records, 0, 0);
    for k in (1..=count).rev() {
        insert(text, records, count, k);
    }
}

// The words of record k's type as they stand in the section's text.
#[tactic(auto, using(declared_parts::proofs::BetweenLaws::piece_le), unfolding(declared_parts::specs::DeclaredParts::declared_by))]
fn type_words<'a>(text: &'a [u8], records: &Records, k: usize) -> &'a [u8]
    requires k_bound { k ≤ 512 }
    ensures value { spaced false result.now ≡ (record_in text.now records.now k).type }
    ensures upper_bound { length result.now ≤ length text.now }
{
    place_in(records, k, KIND).of(text)
}

// The default of record k as it stands in the section's text, if there is one.
#[tactic(auto, using(declared_parts::proofs::BetweenLaws::piece_le), unfolding(declared_parts::specs::DeclaredParts::declared_by, declared_parts::specs::DeclaredParts::default_by))]
fn value_in<'a>(text: &'a [u8], records: &Records, k: usize) -> Option<&'a [u8]>
    requires k_bound { k ≤ 512 }
    ensures value { requoted result ≡ (record_in text.now records.now k).default }
    ensures upper_bound { length (text_in result) ≤ length text.now }
{
    mark_of(records, k, HAS_VALUE).then(|| place_in(records, k, VALUE).of(text))
}

// A default, requoted, if there is one; the result is where it stands.
fn put_value(out: &mut Writer<'_>, value: Option<&[u8]>) -> Option<Place>
    requires { out.old.len + 2 * length (text_in value) + 2 < 2 ^ 63 }
    ensures place { result ≡ value_from out.old.len (requoted value.entry) }
    ensures written { Wrote out.old (text_or (requoted value.entry)) out.new }
{
    let text = value?;
    let at = out.len;
    put_requoted(out, text);
    Some(Place {
        at,
        len: out.len - at,
    })
}

// The texts of record k, packed; the result is where they stand, with the record's marks.
#[tactic(auto, using(declared_parts::proofs::SpacedLaws::spaced_le, crate::proofs::WriteLaws::name_le))]
fn put_texts(text: &[u8], out: &mut Writer<'_>, records: &Records, k: usize) -> DeclarationPlaces
    requires k_bound { k ≤ 512 }
    requires text_len_bound { length text.now ≤ 65536 }
    requires out_bound { out.old.len ≤ 65536 }
    ensures value { result ≡ packed_places out.old.len (record_in text.now records.now k) }
    ensures written { Wrote out.old (packed_record (record_in text.now records.now k)) out.new }
{
    let name = out.len;
    out.put_all(name_of(text, records, k));
    let kind = out.len;
    put_spaced(out, type_words(text, records, k));
    let end = out.len;
    DeclarationPlaces {
        name: Place {
            at: name,
            len: kind - name,
        },
        kind: Place {
            at: kind,
            len: end - kind,
        },
        value: put_value(out, value_in(text, records, k)),
        constant: mark_of(records, k, CONSTANT),
        not_null: mark_of(records, k, NOT_NULL),
    }
}

// The texts of record k, packed, and its numbers.
fn write_record(text: &[u8], out: &mut Writer<'_>, records: &mut Records, k: usize)
    requires k_bound { k ≤ 512 }
    requires text_len_bound { length text.now ≤ 65536 }
    requires room { out.old.len + length (packed_record (record_in text.now records.old k)) ≤ 65536 }
    ensures written { Wrote out.old (packed_record (record_in text.now records.old k)) out.new }
    ensures records_after { records.new ≡ sets records.old (10 * k) (record_numbers text.now records.old out.old.len k) }
{
    let next = number(records, k, NEXT);
    let places = put_texts(text, out, records, k);
    put_part(records, k, next, places);
}

// The texts of all records packed, and their numbers.
#[tactic(auto, using(crate::proofs::WriteLaws::written_none, crate::proofs::WriteLaws::record_fits, crate::proofs::WriteLaws::written_all))]
fn write_records(text: &[u8], out: &mut Writer<'_>, records: &mut Records, count: usize)
    requires count_bound { count ≤ 512 }
    requires text_len_bound { length text.now ≤ 65536 }
    requires room { out.old.len + length (packed (records_from text.now records.old 1 count)) ≤ 65536 }
    ensures written { Wrote out.old (packed (records_from text.now records.old 1 count)) out.new }
    ensures records_after { records.new ≡ sets records.old 10 (final_numbers text.now records.old out.old.len 1 count) }
{
    for k in 1..=count {
        write_record(text, out, records, k);
    }
}

// The texts of all records packed at the front of `declared`, and their numbers; the result is how many bytes the texts have.
#[tactic(auto, using(output::proofs::WriterLaws::wrote_front))]
fn pack_records(text: &[u8], declared: &mut [u8], records: &mut Records, count: usize) -> usize
    requires count_bound { count ≤ 512 }
    requires text_len_bound { length text.now ≤ 65536 }
    requires room { length (packed (records_from text.now records.old 1 count)) ≤ 65536 }
    ensures value { result ≡ length (packed (records_from text.now records.old 1 count)) }
    ensures declared_after { declared.new ≡ sets declared.old 0 (packed (records_from text.now records.old 1 count)) }
    ensures records_after { records.new ≡ sets records.old 10 (final_numbers text.now records.old 0 1 count) }
{
    let mut written = Writer::new(declared);
    write_records(text, &mut written, records, count);
    written.len
}

// The section by the first DECLARE and the first BEGIN, if there is one that is not empty. Contracts say of no `MappedText`
// how long it is at most, so the sum of DECLARE's place and its length stops at the largest number; nothing begins behind that.
#[tactic(auto, using(crate::proofs::SectionLaws::between_stopped))]
fn section_at(declare: Option<usize>, begin: Option<usize>) -> Option<Place>
    ensures { result ≡ section_of declare begin }
{
    Place::between(declare?.saturating_add(7), begin?)
}

// The section between the first live DECLARE and the first live BEGIN, empty if there is none, since a text without one is
// read as a text that declares nothing.
#[tactic(auto, unfolding(spec::specs::Lists::is_empty))]
pub fn find_section(text: &MappedText<'_>) -> Place
    ensures { SectionIn text.now result }
{
    let declare = text.find_keyword(b"DECLARE", 0);
    let begin = text.find_keyword(b"BEGIN", 0);
    section_at(declare, begin).unwrap_or_default()
}

// Where the body starts: at the first live BEGIN, else at 0.
#[tactic(auto, using(crate::proofs::SectionLaws::body_found, crate::proofs::SectionLaws::body_within), unfolding(spec::specs::Lists::is_empty))]
pub fn body_start(text: &MappedText<'_>) -> usize
    ensures text_value { drop result (bytes text.now) ≡ body_from (first (keyword_here (ascii "BEGIN")) 0 text.now) (bytes text.now) }
    ensures upper_bound { result ≤ length text.now }
{
    text.find_keyword(b"BEGIN", 0).unwrap_or(0)
}

// The records of a section's text.
fn parse_section(
    text: &MappedText<'_>,
    declared: &mut [u8; BUFFER_SIZE],
    records: &mut Records,
) -> Result<DeclaredSizes, Refusal>
    requires text_len_bound { length text.now ≤ 16384 }
    ensures value { result ≡ parsed_of (records_of_section text.now) }
    ensures holds { Holds (records_of_section text.now) declared.old declared.new records.old records.new }
    ensures records_len { length records.new ≡ 5130 }
{
    let bytes = text.text();
    let count = gather(text, records)?;
    link(bytes, records, count);
    // The head has a next, and no other number.
    fill(records, NEXT + 1, RECORD_WIDTH, 0);
    Ok(DeclaredSizes {
        records: count,
        bytes: pack_records(bytes, declared, records, count),
    })
}

// The records of a text: the texts in front of `declared`, the numbers in front of `records`.
pub fn parse_declarations(
    text: &MappedText<'_>,
    declared: &mut [u8],
    records: &mut [u32],
) -> Result<DeclaredSizes, Refusal>
    requires text_len_bound { length text.now ≤ 16384 }
    requires declared_in_bounds { 65536 ≤ length declared.old }
    requires records_in_bounds { 5130 ≤ length records.old }
    ensures value { result ≡ parsed_of (records_in text.now) }
    ensures holds { Holds (records_in text.now) declared.old declared.new records.old records.new }
{
    let (Some(declared), Some(records)) = (
        declared.first_chunk_mut::<BUFFER_SIZE>(),
        records.first_chunk_mut::<RECORD_NUMBERS>(),
    ) else {
        unreachable!()
    };
    let s = find_section(text);
    parse_section(&text.part(s.at, s.at + s.len), declared, records)
}
