// Rewrites the function on standard input: prints the call's four numbers, a newline and the output. An argument names a
// file with a table of levels.
#![tactic(auto)]

mod failure;
mod input;
mod print;
mod table;

use crate::failure::{Reported, report};
use crate::input::{TEXT_SIZE, read_text};
use crate::print::print_answer;
use crate::table::{default_table, read_table};
use plpgsql_rewriter::plpgsql_preprocess_by_levels;
use std::env::Env;
use std::io;
use std::rt::Files;

// How many bytes of each buffer and how many record numbers a call fills: a caller of the interface states them by itself, as the
// header gives them.
const BUFFER_SIZE: usize = 65536;

const RECORD_NUMBERS: usize = 5130;

// Makes the function call with a table, and prints its answer.
fn rewrite(rt: &impl Print, text: &[u8], table: &[u8]) -> io::Result<()> {
    let mut output = [0u8; BUFFER_SIZE];
    let mut work = [0u8; BUFFER_SIZE];
    let mut spare = [0u8; BUFFER_SIZE];
    let mut declared = [0u8; BUFFER_SIZE];
    let mut records = [0u32; RECORD_NUMBERS];
    let mut answer = [0u32; 4];
    plpgsql_preprocess_by_levels(
        text,
        table,
        &mut output,
        &mut work,
        &mut spare,
        &mut declared,
        &mut records,
        &mut answer,
    );
    print_answer(rt, answer, &output)
}

// Reads the function and the table and prints the answer, or names on standard error what failed. Standard input is read
// first: were it closed, the table's file would be opened in its place and read as the function.
fn run(rt: &(impl Input + Env + Files + Print + Eprint)) -> Result<(), Reported> {
    let mut text = [0u8; TEXT_SIZE];
    let text = read_text(&mut rt.reader(), &mut text).map_err(|error| report(
        rt,
        "standard input",
        error,
    ))?;
    let mut table = [0u8; 4096];
    let table = read_table(rt, &mut table)?;
    rewrite(rt, text, table.unwrap_or(default_table())).map_err(|error| report(
        rt,
        "standard output",
        error,
    ))
}

// What fails is named on standard error, and the exit status is 0 all the same.
fn main(rt: HostRuntime) {
    let _ = run(&rt);
}
