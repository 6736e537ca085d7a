// The columns and the variables of a SELECT INTO: whether they pair up, and the SET lines of the pairs. There may be many long
// lines, so the writer stops once it is past 65536 bytes.
#![tactic(auto)]

ghost use Rattle.std.specs.Prelude.{◌≡◌, List, ◌+◌, ◌^◌, ◌≤◌, ◌<◌, length};
ghost use Rattle.spec.specs.Bytes.{is_w};
ghost use Rattle.spec.specs.Lists.{any};
ghost use Rattle.spec.specs.Map.{Marked, of_byte};
ghost use Rattle.spec.specs.SelectInto.{listed, pair_up};
ghost use Rattle.output.specs.Written.{Wrote, WroteWithin};
ghost use Rattle.set_lines.specs.Lines.{spaced, query_text, limit_text, limited, break_text, shared, shared_by, shared_line, lines_text};

use output::Writer;
use quotes::{Items, LIMIT_LEN, limit_after};
use runs::{Set, has, run_start};
use scanner::MappedText;
use spec::Refusal;
use std::marker::Model;

// A space and the FROM part, if it has one.
#[tactic(auto, using(output::proofs::WriterLaws::wrote_none, output::proofs::WriterLaws::wrote_then, crate::proofs::SetLineLaws::spaced_none, crate::proofs::SetLineLaws::spaced_some))]
fn put_spaced(out: &mut Writer<'_>, from: &[u8])
    requires { out.old.len + length from.now + 1 < 2 ^ 63 }
    ensures { Wrote out.old (spaced from.now) out.new }
{
    if !from.is_empty() {
        out.put(b' ');
        out.put_all(from);
    }
}

// The added LIMIT, unless the subquery has one.
#[tactic(auto, using(output::proofs::WriterLaws::wrote_none), unfolding(crate::specs::Lines::limit_text))]
fn put_limit(out: &mut Writer<'_>, held: bool)
    requires { out.old.len + 8 < 2 ^ 63 }
    ensures { Wrote out.old (limit_text held) out.new }
{
    if !held {
        out.put_all(b" LIMIT 1");
    }
}

// What all lines of a statement share: its WITH part, its FROM part without W at its end, the indentation, how many bytes of
// ` LIMIT ` are matched behind the WITH part and SELECT, and whether the FROM part has one.
#[derive(Drop)]
pub struct SharedParts<'a> {
    with: &'a [u8],
    from: &'a [u8],
    indent: &'a [u8],
    matched: usize,
    tail: bool,
}

impl<'a> Model for SharedParts<'a> {
    ghost use Rattle.std.specs.Prelude.{◌≤◌};
    ghost use Rattle.set_lines.specs.Lines.{Shared, shared};

    ghost Value = { Shared };

    ghost view = { λ s. shared s.with.now s.from.now s.indent.now s.matched s.tail };

    ghost invariant = { λ s. s.matched ≤ 7 };
}

impl<'a> SharedParts<'a> {
    // These parts, when how many bytes of ` LIMIT ` are matched and whether the FROM part has one are already known.
    pub fn from_parts(
        with: &'a [u8],
        from: &'a [u8],
        indent: &'a [u8],
        matched: usize,
        tail: bool,
    ) -> SharedParts<'a>
        requires { matched ≤ 7 }
        ensures { result ≡ shared with.now from.now indent.now matched tail }
    {
        SharedParts {
            with,
            from,
            indent,
            matched,
            tail,
        }
    }

    // What the lines of a statement with these parts share.
    #[tactic(auto, using(runs::proofs::RunLaws::start_whole, crate::proofs::SetLineLaws::space_first))]
    pub fn new(with: &'a [u8], from: &'a [u8], indent: &'a [u8]) -> SharedParts<'a>
        ensures { result ≡ shared_by with.now from.now indent.now }
    {
        let shown = &from[..run_start(from, Set::W, from.len())];
        let matched = limit_after(limit_after(0, with), b"SELECT ");
        // A space stands before the FROM part.
        let tail = limit_after(limit_after(0, b" "), from) == LIMIT_LEN;
        SharedParts::from_parts(with, shown, indent, matched, tail)
    }

    // The subquery of a column.
    fn put_query(&self, out: &mut Writer<'_>, col: &[u8])
        requires { out.old.len + length self.now.with_text + length self.now.from_text + length col.now + 8 < 2 ^ 63 }
        ensures { Wrote out.old (query_text self.now.with_text self.now.from_text col.now) out.new }
    {
        out.put_all(self.with);
        out.put_all(b"SELECT ");
        out.put_all(col);
        put_spaced(out, self.from);
    }

    // Whether the subquery of a column has a LIMIT: in the FROM part, or before the space that stands behind the column.
    #[tactic(auto, using(crate::proofs::SetLineLaws::space_last), unfolding(crate::specs::Lines::limited))]
    fn is_limited(&self, col: &[u8]) -> bool
        ensures { result ≡ limited self.now.matched self.now.tail col.now }
    {
        self.tail || limit_after(limit_after(self.matched, col), b" ") == LIMIT_LEN
    }

    // The line of a column and a variable.
    #[tactic(auto, using(crate::proofs::SetLineLaws::query_length, crate::proofs::SetLineLaws::limit_length))]
    fn put_line(&self, out: &mut Writer<'_>, col: &[u8], var: &[u8])
        requires { out.old.len + length self.now.with_text + length self.now.from_text + length col.now + length var.now + 32 < 2 ^ 63 }
        ensures { Wrote out.old (shared_line self.now col.now var.now) out.new }
    {
        out.put_all(b"SET ");
        out.put_all(var);
        out.put_all(b" = (");
        self.put_query(out, col);
        put_limit(out, self.is_limited(col));
        out.put_all(b");");
    }

    // A newline and the indentation, if more lines follow.
    #[tactic(auto, using(output::proofs::WriterLaws::wrote_none, output::proofs::WriterLaws::wrote_then), unfolding(crate::specs::Lines::break_text))]
    fn put_break(&self, out: &mut Writer<'_>, more: bool)
        requires { out.old.len + length self.now.indent + 1 < 2 ^ 63 }
        ensures { Wrote out.old (break_text self.now.indent more) out.new }
    {
        if more {
            out.put(b'\n');
            out.put_all(self.indent);
        }
    }
}

// How many parts the list has.
fn list_len(list: &MappedText<'_>) -> usize
    ensures { result ≡ length (listed list.now) }
{
    Items::new(list).count()
}

// Whether W stands in the part.
#[tactic(auto, using(crate::proofs::ListedLaws::any_bytes))]
fn has_w(part: MappedText<'_>) -> bool
    ensures { result ≡ any (of_byte is_w) part.entry }
{
    has(part.text(), Set::W)
}

// Whether W stands in a part of the list.
fn has_w_inside(list: &MappedText<'_>) -> bool
    ensures { result ≡ any (λ (v : List Marked). any (of_byte is_w) v) (listed list.now) }
{
    Items::new(list).any(has_w)
}

// The columns and the variables of a statement.
#[derive(Drop)]
pub struct Lists<'a> {
    pub cols: MappedText<'a>,
    pub vars: MappedText<'a>,
}

impl<'a> Lists<'a> {
    // Whether there are columns, as many as variables, and no W in a variable.
    #[tactic(auto, using(crate::proofs::ListedLaws::pairs_apart, crate::proofs::ListedLaws::pairs_none, crate::proofs::ListedLaws::pairs_some))]
    pub fn pairs_up(&self) -> bool
        ensures { result ≡ pair_up (listed self.now.cols) (listed self.now.vars) }
    {
        let n = list_len(&self.cols);
        n == list_len(&self.vars) && n != 0 && !has_w_inside(&self.vars)
    }
}

// The lines of the columns and variables, all in one statement.
pub fn put_set_lines(
    out: &mut Writer<'_>,
    shared: &SharedParts<'_>,
    lists: &Lists<'_>,
) -> Result<(), Refusal>
    requires { out.old.len + length lists.now.cols + length lists.now.vars + length shared.now.with_text + length shared.now.from_text + length shared.now.indent < 2 ^ 62 }
    ensures { WroteWithin out.old (lines_text shared.now (listed lists.now.cols) (listed lists.now.vars)) out.new result }
{
    out.check()?;
    let mut columns = Items::new(&lists.cols);
    let mut variables = Items::new(&lists.vars);
    let mut next = columns.next();
    // A `while`, and no `zip` with the break ahead of each line but the first: the break behind a line is written if a column
    // follows, also where no variable does.
    while let Some(col) = next {
        let Some(var) = variables.next() else {
            return Ok(());
        };
        shared.put_line(out, col.text(), var.text());
        next = columns.next();
        shared.put_break(out, next.is_some());
        out.check()?;
    }
    Ok(())
}
