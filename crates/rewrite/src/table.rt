// The table of levels, in the file that the argument names.
ghost use Rattle.std.specs.Prelude.{◌≡◌, ◌≤◌, IfOk, IfSome, length};
ghost use Rattle.spec.specs.Levels.{table_of, no_table};

use crate::failure::{Reported, report};
use crate::input::read_text;
use std::env::{Env, FillError};
use std::fs::File;
use std::io;
use std::rt::Files;

// Opens the file and reads the table from it.
fn open_and_read<'a>(rt: &impl Files, path: &str, table: &'a mut [u8]) -> io::Result<&'a [u8]>
    ensures { IfOk result (λ read. length read.now ≤ length table.old) }
{
    let mut file = File::open(rt, path)?;
    read_text(&mut file, table)
}

// The argument is no name that a file can be opened by.
fn bad_name(rt: &impl Eprint, why: &str) -> Reported {
    report(
        rt,
        "the table's name",
        io::Error::new(io::ErrorKind::InvalidFilename, why),
    )
}

// Reads the table in the file that the argument names, if there is one; if that fails, it was said on standard error. A table
// may be longer than the buffer: its first 133 bytes decide.
pub fn read_table<'a>(
    rt: &(impl Env + Files + Eprint),
    table: &'a mut [u8],
) -> Result<Option<&'a [u8]>, Reported>
    ensures { IfOk result (λ told. IfSome told (λ read. length read.now ≤ length table.old)) }
{
    let mut path = [0u8; 4096];
    let n = match rt.arg(1, &mut path) {
        Ok(n) => n,
        Err(FillError::NotPresent) => return Ok(None),
        Err(FillError::TooLong) => return Err(bad_name(rt, "File name too long")),
    };
    let path = std::str::from_utf8(&path[..n]).map_err(|_error| bad_name(rt, "not UTF-8"))?;
    let table = open_and_read(rt, path, table).map_err(|error| report(rt, path, error))?;
    Ok(Some(table))
}

// The table that is taken if the argument names none: it says what the calls without a table do.
#[tactic(auto, unfolding(spec::proofs::LevelRowForms::levelled))]
pub fn default_table() -> &'static [u8]
    ensures { table_of result.now ≡ no_table }
{
    b"DEBUG drop\nLOG drop\nINFO drop\nNOTICE drop\nWARNING drop\nEXCEPTION abort\n"
}
