// Pass 4: a SELECT INTO becomes a SET line for each of its variables. The result may be far longer than the text, so the pass
// stops once it is past 65536 bytes.
#![tactic(auto)]

ghost use Rattle.std.specs.Prelude.{◌≡◌, MatchOption, ◌+◌, ◌-◌, ◌^◌, ◌≤◌, ◌<◌, length, take, drop};
ghost use Rattle.std.proofs.lemmas.List.Edits.{sets};
ghost use Rattle.spec.specs.Bytes.{ascii};
ghost use Rattle.spec.specs.Map.{bytes};
ghost use Rattle.spec.specs.Search.{first};
ghost use Rattle.spec.specs.SelectInto.{top_word_here, listed, place_or, front_place, select_cut, select_statement, select_into};
ghost use Rattle.output.specs.Written.{WroteWithin, counted};
ghost use Rattle.select_into.specs.Keywords.{CutAt};
ghost use Rattle.select_into.specs.Pairs.{from_text, pairs_text};

use output::Writer;
use quotes::find_top_keyword;
use runs::{Set, run_start};
use scanner::MappedText;
use set_lines::{Lists, SharedParts, put_set_lines};
use spec::Refusal;

// All of src, or refusal 6 past the buffer size.
#[tactic(auto, using(output::proofs::WriterLaws::within_text))]
fn put_text(out: &mut Writer<'_>, src: &[u8]) -> Result<(), Refusal>
    requires { out.old.len + length src.now < 2 ^ 63 }
    ensures { WroteWithin out.old src.now out.new result }
{
    out.put_all(src);
    out.check()
}

// The FROM part that stands in front of the text.
#[tactic(auto, using(crate::proofs::FromLaws::from_cut))]
fn from_part<'a>(text: &'a [u8]) -> &'a [u8]
    ensures { result.now ≡ from_text text.now }
{
    let trimmed = run_start(text, Set::W, text.len());
    &text[..run_start(text, Set::Only(b';'), trimmed)]
}

// The text in front of the WITH part, and the lines of a statement with this WITH part and what stands from FROM on.
fn put_pairs(
    out: &mut Writer<'_>,
    front: &[u8],
    with: &[u8],
    from: &[u8],
    lists: &Lists<'_>,
) -> Result<(), Refusal>
    requires { out.old.len + length front.now + length with.now + length from.now + length lists.now.cols + length lists.now.vars < 2 ^ 61 }
    ensures { WroteWithin out.old (pairs_text front.now with.now from.now (listed lists.now.cols) (listed lists.now.vars)) out.new result }
{
    out.put_all(front);
    let indent = &front[run_start(front, Set::Except(b'\n'), front.len())..];
    let shared = SharedParts::new(with, from_part(from), indent);
    put_set_lines(out, &shared, lists)
}

// The WITH if it stands before SELECT, else SELECT.
#[tactic(auto, using(crate::proofs::StatementCutLaws::front_least), unfolding(spec::specs::Lists::is_empty))]
fn front_of(text: &MappedText<'_>, s: usize) -> usize
    ensures value { result ≡ front_place (first (top_word_here (ascii "WITH")) 0 text.now) s }
    ensures upper_bound { result ≤ s }
{
    find_top_keyword(text, b"WITH", 0).unwrap_or(s).min(s)
}

// The part from one offset up to the other, empty if that one is not behind it.
fn part_between<'a>(text: &MappedText<'a>, from: usize, to: usize) -> MappedText<'a>
    requires from_in_bounds { from ≤ length text.now }
    requires to_in_bounds { to ≤ length text.now }
    ensures { result ≡ take (to - from) (drop from text.now) }
{
    text.part(from, from.max(to))
}

// Where the keywords of a SELECT INTO stand.
#[derive(Clone, Copy)]
struct Keywords {
    select: usize,
    into: usize,
    from: Option<usize>,
}

// The keywords of a statement with its `;`, if it is a SELECT INTO.
#[tactic(auto, using(crate::proofs::StatementCutLaws::word_within, crate::proofs::StatementCutLaws::found_bound), unfolding(spec::specs::Lists::is_empty, spec::specs::SelectInto::select_statement, spec::specs::SelectInto::select_at, spec::specs::SelectInto::into_at))]
fn keywords_of(text: &MappedText<'_>) -> Option<Keywords>
    ensures { MatchOption result (select_statement text.now ≡ text.now) (λ k. CutAt text.now k.select k.into k.from) }
{
    let select = find_top_keyword(text, b"SELECT", 0)?;
    let into = find_top_keyword(text, b"INTO", select)?;
    let from = find_top_keyword(text, b"FROM", into);
    Some(Keywords { select, into, from })
}

// The statement that has these keywords.
#[tactic(auto, using(crate::proofs::StatementCutLaws::place_bound, crate::proofs::FromLaws::part_short, spec::proofs::RefusalBounds::bytes_length))]
fn put_cut(out: &mut Writer<'_>, text: &MappedText<'_>, k: Keywords) -> Result<(), Refusal>
    requires text_bound { out.old.len + length text.now < 2 ^ 32 }
    requires select_in_bounds { k.select + 6 ≤ length text.now }
    requires into_in_bounds { k.into + 4 ≤ length text.now }
    requires from_in_bounds { place_or k.from 0 ≤ length text.now }
    ensures { WroteWithin out.old (bytes (select_cut k.select k.into k.from text.now)) out.new result }
{
    let len = text.len();
    let cols = part_between(text, k.select + 6, k.into);
    let vars = part_between(text, k.into + 4, k.from.unwrap_or(len - 1));
    let lists = Lists { cols, vars };
    if !lists.pairs_up() {
        return put_text(out, text.text());
    }
    let bytes = text.text();
    let front = front_of(text, k.select);
    let from = k.from.unwrap_or(len);
    put_pairs(
        out,
        &bytes[..front],
        &bytes[front..k.select],
        &bytes[from..],
        &lists,
    )
}

// A statement with its `;`.
#[tactic(auto, using(spec::proofs::RefusalBounds::bytes_length))]
fn put_statement(out: &mut Writer<'_>, text: &MappedText<'_>) -> Result<(), Refusal>
    requires { out.old.len + length text.now < 2 ^ 32 }
    ensures { WroteWithin out.old (bytes (select_statement text.now)) out.new result }
{
    match keywords_of(text) {
        Some(k) => put_cut(out, text, k),
        None => put_text(out, text.text()),
    }
}

// All statements, and what stands behind the last one. Apart from `transform_select_into`, which makes the writer and reads its
// count: so each way out of the loop meets one promise about what is written.
#[tactic(auto, using(crate::proofs::StatementLaws::statement_within, spec::proofs::RefusalBounds::bytes_length))]
fn put_statements(out: &mut Writer<'_>, text: &MappedText<'_>) -> Result<(), Refusal>
    requires out_bound { out.old.len ≤ 65536 }
    requires text_bound { length text.now ≤ 65536 }
    ensures { WroteWithin out.old (bytes (select_into text.now)) out.new result }
{
    let mut from: usize = 0;
    // By hand from one live `;` to the next, for the reason in `assignments`.
    while let Some(at) = text.find_byte(b';', from) {
        let end = at + 1;
        put_statement(out, &text.part(from, end))?;
        from = end;
    }
    put_text(out, text.rest(from).text())
}

// The rewritten text, at the front of `out`; the result is how many bytes it has, or refusal 6 if it has more than 65536. The
// text's map is that of `'` and `"`.
#[tactic(auto, using(output::proofs::WriterLaws::within_ok, output::proofs::WriterLaws::within_err))]
pub fn transform_select_into(text: &MappedText<'_>, out: &mut [u8]) -> Result<usize, Refusal>
    requires { length text.now ≤ 65536 }
    ensures value { result ≡ counted (length (bytes (select_into text.now))) }
    ensures out_after { length (bytes (select_into text.now)) ≤ 65536 → out.new ≡ sets out.old 0 (bytes (select_into text.now)) }
{
    let mut written = Writer::new(out);
    put_statements(&mut written, text)?;
    Ok(written.len)
}
