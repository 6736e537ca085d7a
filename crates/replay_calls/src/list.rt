// The stored list, line by line. Eight kinds of line prepare for the calls behind them: `t RUNS` gives the text, `g RUNS` the
// table of levels, `e RUNS` the output that the call must leave, `d RUNS` the declaration text and `n NUMBER ..` the record
// numbers, `l` with five numbers lends buffers of these lengths, `s ROW` names the report's row, and `z BUFFER PLACE` changes a
// place behind the next call.
use crate::answer::{Results, agrees};
use crate::call::{Call, Given, Lent};
use crate::rows;
use stored_list::{Fault, NumberList, Replay, Row, Text, count, fault_of, field, note};

#[derive(Drop)]
pub struct CallReplay {
    text: Text,
    table: Text,
    // The output, the declaration text and the record numbers that are expected.
    output: Text,
    declared: Text,
    records: NumberList,
    lent: Lent,
    // The report's row.
    row: usize,
    // What the next call's buffers are changed at.
    fault: Option<Fault>,
    tally: [Row; rows::COUNT],
}

// The lengths that a line gives. One that is missing is too large to be lent.
fn lent_of(line: &[u8]) -> Lent {
    Lent {
        output: count(field(line, 1)),
        work: count(field(line, 2)),
        spare: count(field(line, 3)),
        declared: count(field(line, 4)),
        records: count(field(line, 5)),
    }
}

impl CallReplay {
    pub fn new() -> CallReplay {
        CallReplay {
            text: Text::new(),
            table: Text::new(),
            output: Text::new(),
            declared: Text::new(),
            records: NumberList::new(),
            lent: Lent::default(),
            row: rows::UNKNOWN,
            fault: None,
            tally: [Row::default(); rows::COUNT],
        }
    }

    // A new text; no output and no declarations are expected yet, and no place is changed.
    fn take_text(&mut self, line: &[u8]) {
        self.text.set_line(line);
        self.output.clear();
        self.declared.clear();
        self.records.clear();
        self.fault = None;
    }

    // Makes the call of a line and counts it. Whether it has the table is a flag, the case of the line's letter: the table itself could
    // not be lent beside `&mut self`.
    fn compare(&mut self, call: Call, by_levels: bool, line: &[u8]) {
        let given = Given {
            text: self.text.as_slice(),
            table: by_levels.then_some(self.table.as_slice()),
            lent: self.lent,
        };
        let results = Results {
            output: self.output.as_slice(),
            declared: self.declared.as_slice(),
            records: self.records.as_slice(),
        };
        let same = agrees(call, line, given, results, self.fault);
        note(&mut self.tally, self.row, same);
        self.fault = None;
    }
}

impl Replay for CallReplay {
    fn take_line(&mut self, line: &[u8]) {
        match line.first().copied() {
            Some(b't') => self.take_text(line),
            Some(b'g') => self.table.set_line(line),
            Some(b'e') => self.output.set_line(line),
            Some(b'd') => self.declared.set_line(line),
            Some(b'n') => self.records.set_line(line),
            Some(b'l') => self.lent = lent_of(line),
            Some(b's') => self.row = count(field(line, 1)),
            Some(b'z') => self.fault = Some(fault_of(line)),
            Some(b'b') => self.compare(Call::Body, false, line),
            Some(b'B') => self.compare(Call::Body, true, line),
            Some(b'f') => self.compare(Call::Function, false, line),
            Some(b'F') => self.compare(Call::Function, true, line),
            _ => {
                note(&mut self.tally, rows::UNKNOWN, false);
                self.fault = None;
            }
        }
    }

    fn tally(&self) -> &[Row] {
        &self.tally
    }
}
