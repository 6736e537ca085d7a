// The stored list, line by line. Four kinds of line prepare for the questions behind them: `t RUNS` gives the text,
// `l BYTES STARTS` lends buffers of these lengths, `x` says that the answers are wrong, and `z BUFFER PLACE` changes a place
// behind the next search: 0 is the buffer of bytes, 1 that of starts.
use crate::ask::Counts;
use crate::kind::Kind;
use crate::question::agrees;
use crate::rows;
use stored_list::{Fault, Replay, Row, Text, count, fault_of, field, note};

#[derive(Drop)]
pub struct SearchReplay {
    text: Text,
    // What is lent, if a line said so.
    limits: Option<Counts>,
    // Whether a line said that the answers are wrong.
    wrong: bool,
    // What the next search's buffers are changed at.
    fault: Option<Fault>,
    tally: [Row; rows::COUNT],
}

impl SearchReplay {
    pub fn new() -> SearchReplay {
        SearchReplay {
            text: Text::new(),
            limits: None,
            wrong: false,
            fault: None,
            tally: [Row::default(); rows::COUNT],
        }
    }

    // What is lent: without a line that says so more than any search of the text needs.
    fn lent(&self) -> Counts {
        let n = self.text.as_slice().len();
        match self.limits {
            Some(limits) => limits,
            None if n <= 65536 => Counts {
                bytes: 2 * n + 3,
                starts: n + 4,
            },
            None => Counts::default(),
        }
    }

    // The row of the report that a question belongs to.
    fn row_of(&self, kind: Option<Kind>) -> usize {
        match kind {
            None => rows::UNKNOWN,
            Some(_) if self.wrong => rows::WRONG,
            Some(_) if self.limits.is_some() => rows::LIMITS,
            Some(kind) => kind as usize,
        }
    }

    // Makes the search of a line and counts it.
    fn compare(&mut self, kind: Option<Kind>, line: &[u8]) {
        let same = agrees(kind, line, self.text.as_slice(), self.lent(), self.fault);
        let row = self.row_of(kind);
        note(&mut self.tally, row, same);
        self.fault = None;
    }
}

impl Replay for SearchReplay {
    fn take_line(&mut self, line: &[u8]) {
        match line.first().copied() {
            Some(b't') => {
                self.text.set_line(line);
                self.limits = None;
                self.wrong = false;
                self.fault = None;
            }
            Some(b'l') => {
                self.limits = Some(Counts {
                    bytes: count(field(line, 1)),
                    starts: count(field(line, 2)),
                });
            }
            Some(b'x') => self.wrong = true,
            Some(b'z') => self.fault = Some(fault_of(line)),
            letter => {
                let kind = letter.and_then(|letter| Kind::try_from(letter).ok());
                self.compare(kind, line);
            }
        }
    }

    fn tally(&self) -> &[Row] {
        &self.tally
    }
}
