// The types that the definitions of document 01 and of the requests name. The definitions themselves stand in specs/.
#![tactic(auto)]

ghost use Rattle.std.specs.Prelude.{◌≡◌};
ghost use Rattle.spec.specs.Answers.{refusal_numbers};
ghost use Rattle.spec.specs.Raise.{at_all, at_level, with_level};

// A dollar literal: its length, where its inside starts and how long that is, and whether it is closed. The two numbers are no
// `runs::Place`, since `runs` stands on this crate: its methods, their definitions and edits would have to move here for the one
// function that reads the two.
#[derive(Clone, Copy)]
pub struct DollarQuoted {
    pub span: usize,
    pub inner_start: usize,
    pub inner_len: usize,
    pub closed: bool,
}

// One span at the front of a text; each kind carries its length.
#[derive(Clone, Copy)]
pub enum Span {
    // A comment or a quoted literal, kept as it stands.
    Verbatim(usize),
    // A dollar literal.
    Dollar(DollarQuoted),
    // Live text.
    Code(usize),
}

// Why a call or a search refuses its text, by number. 1, 3 and 2 are checked before anything is written; a search gives no
// others.
#[derive(Clone, Copy)]
pub enum Refusal {
    // 1: the text is over the limit.
    TextTooLong,
    // 2: the offset of the first byte over 127, in the text or in the needle.
    NotAscii(usize),
    // 3: a lent buffer is too short.
    BufferTooShort,
    // 4: the lengths of q and of `q.n`.
    QualifiedTarget { qualifier: usize, length: usize },
    // 5: the length of the clause from USING.
    UsingClause { length: usize },
    // 6: a pass's result exceeds the buffer size.
    ResultTooLong,
    // 7: over 512 different names are declared.
    TooManyNames,
    // 11: a table's first bad line, at this offset, is malformed.
    MalformedLine(usize),
    // 12: a table's first bad line, at this offset, gives a level again.
    RepeatedLevel(usize),
    // 13: no line of a table is bad and a level is missing; the table's length.
    MissingLevel(usize),
}

// What is handed back of a refusal: its number, its place, and how many bytes the output holds.
#[derive(Clone, Copy)]
pub struct RefusalNumbers {
    pub number: u32,
    pub place: usize,
    pub length: usize,
}

// What a rewriting call answers that accepts its text: how many bytes the result has, and how many records were declared.
#[derive(Clone, Copy)]
pub struct Accepted {
    pub length: usize,
    pub records: usize,
}

// The level of a RAISE.
#[derive(Clone, Copy)]
pub enum Level {
    Debug,
    Log,
    Info,
    Notice,
    Warning,
    Exception,
}

// The words of SQLite's RAISE that take a message.
#[derive(Clone, Copy)]
pub enum RaiseType {
    Abort,
    Fail,
    Rollback,
}

// What becomes of a RAISE of some level: it vanishes, or it becomes SQLite's RAISE with this word. No `Option`: `drop` is an action
// that a table names, as `abort` is, and a table may name none for a level.
#[derive(Clone, Copy)]
pub enum Action {
    Drop,
    Raise(RaiseType),
}

// What a marking word does: CASE opens one, END closes one, a statement may follow the others.
#[derive(Clone, Copy)]
pub enum Mark {
    OpensCase,
    ClosesCase,
    OpensStatement,
}

// A refusal's number, place and length of what the output holds: a constructor, which each arm of the `From` below calls.
fn told(number: u32, place: usize, length: usize) -> RefusalNumbers
    ensures { result ≡ record { number = number; place = place; length = length } }
{
    RefusalNumbers {
        number,
        place,
        length,
    }
}

impl From<Refusal> for RefusalNumbers {
    ghost from_gives = { λ r n. n ≡ refusal_numbers r };

    fn from(r: Refusal) -> RefusalNumbers {
        match r {
            Refusal::TextTooLong => told(1, 0, 0),
            Refusal::NotAscii(i) => told(2, i, 0),
            Refusal::BufferTooShort => told(3, 0, 0),
            Refusal::QualifiedTarget { qualifier, length } => told(4, qualifier, length),
            Refusal::UsingClause { length } => told(5, 0, length),
            Refusal::ResultTooLong => told(6, 0, 0),
            Refusal::TooManyNames => told(7, 0, 0),
            Refusal::MalformedLine(i) => told(11, i, 0),
            Refusal::RepeatedLevel(i) => told(12, i, 0),
            Refusal::MissingLevel(i) => told(13, i, 0),
        }
    }
}

// Something for each level.
#[derive(Clone, Copy)]
pub struct ByLevel<T> {
    pub debug: T,
    pub log: T,
    pub info: T,
    pub notice: T,
    pub warning: T,
    pub exception: T,
}

impl<T: Copy> ByLevel<T> {
    // The same for every level.
    pub fn all(x: T) -> ByLevel<T>
        ensures { result ≡ at_all x }
    {
        ByLevel {
            debug: x,
            log: x,
            info: x,
            notice: x,
            warning: x,
            exception: x,
        }
    }

    // What it has for a level.
    pub fn get(self, level: Level) -> T
        ensures { result ≡ at_level self level }
    {
        match level {
            Level::Debug => self.debug,
            Level::Log => self.log,
            Level::Info => self.info,
            Level::Notice => self.notice,
            Level::Warning => self.warning,
            Level::Exception => self.exception,
        }
    }

    // The same with x for a level.
    pub fn with(self, level: Level, x: T) -> ByLevel<T>
        ensures { result ≡ with_level self level x }
    {
        match level {
            Level::Debug => ByLevel { debug: x, ..self },
            Level::Log => ByLevel { log: x, ..self },
            Level::Info => ByLevel { info: x, ..self },
            Level::Notice => ByLevel { notice: x, ..self },
            Level::Warning => ByLevel { warning: x, ..self },
            Level::Exception => ByLevel {
                exception: x,
                ..self
            },
        }
    }
}

// The action of each level.
pub type Actions = ByLevel<Action>;
