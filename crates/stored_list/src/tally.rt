// How many answers were compared and how many differ, a row for each kind of question.
ghost use Rattle.std.specs.Prelude.{◌≡◌};
ghost use Rattle.stored_list.specs.Tally.{with_answer, noted};

use std::{fmt, io};

#[derive(Clone, Copy, Default)]
pub struct Row {
    pub compared: u32,
    pub differ: u32,
}

impl fmt::Display for Row {
    fn fmt<W: fmt::Write>(&self, f: &mut fmt::Formatter<W>) -> fmt::Result {
        let compared = self.compared;
        let differ = self.differ;
        write!(f, "{compared} compared, {differ} differ")
    }
}

// The row with one answer more; a number stays at the largest. An update, for which there is no derive and no operator.
fn with_answer(row: Row, agrees: bool) -> Row
    ensures { result ≡ with_answer row agrees }
{
    let compared = row.compared.saturating_add(1);
    let differ = if agrees {
        row.differ
    } else {
        row.differ.saturating_add(1)
    };
    Row { compared, differ }
}

// The last row that a tally may have.
const LAST_ROW: usize = 1000;

// Counts one answer in a row, if the tally has it. By index for the reason at `fault::change_at`.
#[tactic(auto, using(crate::proofs::ChangedLaws::changed_in, crate::proofs::ChangedLaws::changed_out))]
pub fn note(tally: &mut [Row], row: usize, agrees: bool)
    ensures { tally.new ≡ noted row agrees tally.old }
{
    if row <= LAST_ROW && row < tally.len() {
        tally[row] = with_answer(tally[row], agrees);
    }
}

// Prints a line for each row and its name, up to the first write that fails. The names are a list of their own, and not in the rows:
// only this reads them, and a row with its name would carry it through each count and its definition. It writes to standard output
// alone, of which nothing can be promised.
pub fn print_rows(rt: &impl Print, names: &[&str], tally: &[Row]) -> io::Result<()> {
    for (name, row) in names.iter().zip(tally) {
        println!(rt; "{name} {row}")?;
    }
    Ok(())
}
