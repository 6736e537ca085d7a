// The table of RAISE levels: a line for each level, with its action.
#![tactic(auto)]

ghost use Rattle.std.specs.Prelude.{◌≡◌, ℕ, List};
ghost use Rattle.spec.specs.Levels.{table_of, no_table};
ghost use Rattle.levels.specs.Lines.{IsTextTable, found_ahead, line_ahead, completed};

use classes::starts_with;
use spec::{Action, Actions, ByLevel, Level, RaiseType, Refusal};

// A line of a table: what it says, and how many bytes it has.
#[derive(Clone, Copy)]
struct Line {
    level: Level,
    action: Action,
    len: usize,
}

// The levels, each as a line has it, with the space behind it.
const LEVELS: [(&[u8], Level); 6] = [
    (b"DEBUG ", Level::Debug),
    (b"LOG ", Level::Log),
    (b"INFO ", Level::Info),
    (b"NOTICE ", Level::Notice),
    (b"WARNING ", Level::Warning),
    (b"EXCEPTION ", Level::Exception),
];

// The actions, each with the newline behind it.
const ACTIONS: [(&[u8], Action); 4] = [
    (b"drop\n", Action::Drop),
    (b"abort\n", Action::Raise(RaiseType::Abort)),
    (b"fail\n", Action::Raise(RaiseType::Fail)),
    (b"rollback\n", Action::Raise(RaiseType::Rollback)),
];

// What a table has for the first of its texts that stands in front, and how long the text is.
fn ahead<T: Copy>(text: &[u8], table: &[(&[u8], T)]) -> Option<(T, usize)>
    ensures { (name : T → List ℕ) (all : List T) → IsTextTable name all table.now → result ≡ found_ahead name all text.now }
{
    let (name, x) = table.iter().find(|(name, _)| starts_with(text, *name))?;
    Some((*x, name.len()))
}

// The line in front. No more of it is read than a well-formed line can have.
fn read_line(text: &[u8]) -> Option<Line>
    ensures { result ≡ line_ahead text.now }
{
    let (level, n) = ahead(text, &LEVELS)?;
    let (action, m) = ahead(&text[n..], &ACTIONS)?;
    Some(Line {
        level,
        action,
        len: n + m,
    })
}

// What a table of n bytes says that has no bad line, by what its lines give.
fn complete(given: ByLevel<Option<Action>>, n: usize) -> Result<Actions, Refusal>
    ensures { result ≡ completed given n }
{
    let missing = Refusal::MissingLevel(n);
    Ok(ByLevel {
        debug: given.debug.ok_or(missing)?,
        log: given.log.ok_or(missing)?,
        info: given.info.ok_or(missing)?,
        notice: given.notice.ok_or(missing)?,
        warning: given.warning.ok_or(missing)?,
        exception: given.exception.ok_or(missing)?,
    })
}

// What a table says. The first bad line decides, and nothing behind it is read.
#[tactic(auto, using(std::proofs::lemmas::List::take_rest, spec::proofs::LineLaws::text_size, crate::proofs::AheadLaws::line_found_lem, crate::proofs::AheadLaws::found_none, crate::proofs::GivenLaws::given_by_lem, crate::proofs::TurnLaws::says_malformed, crate::proofs::TurnLaws::line_fits, crate::proofs::TurnLaws::says_repeated))]
pub fn read_table(table: &[u8]) -> Result<Actions, Refusal>
    ensures { result ≡ table_of table.now }
{
    let mut given = ByLevel::all(None);
    // By hand: a turn takes a line, and how long that is only `read_line` tells.
    let mut rest = table;
    while !rest.is_empty() {
        let at = table.len() - rest.len();
        let line = read_line(rest).ok_or(Refusal::MalformedLine(at))?;
        if given.get(line.level).is_some() {
            return Err(Refusal::RepeatedLevel(at));
        }
        given = given.with(line.level, Some(line.action));
        rest = &rest[line.len..];
    }
    complete(given, table.len())
}

// What stands for a table where there is none: EXCEPTION aborts, the others vanish.
pub fn no_table() -> Result<Actions, Refusal>
    ensures { result ≡ no_table }
{
    Ok(ByLevel::all(Action::Drop).with(Level::Exception, Action::Raise(RaiseType::Abort)))
}
