//! Runs rows of tests as a caller of the libraries does. Of each row whose answer isn't the expected one it prints both, the
//! expected one first.
//!
//! Each row of standard input is a call: its kind, its subject, its input, and the expected answer. The last line of
//! the output says how many rows were run.
#![tactic(auto)]

mod answers;
mod cache;
mod capture;
mod cells;
mod ending;
mod filling;
mod frame;
mod hearings;
mod message;
mod moments;
mod name;
mod people;
mod record;
mod text;
mod written;

use answers::answered;
use cells::{Row, row_of};
use mdns_message::{MessageReader, Want};
use std::io;

fn main(rt: HostRuntime) -> io::Result<()> {
    let text = io::read_to_string(rt.alloc(), rt.reader())?;
    count_compared(&rt, text.as_str())
}

// Runs the rows of a text, and prints how many there are.
fn count_compared(rt: &HostRuntime, text: &str) -> io::Result<()> {
    let count = compare_all(rt, text)?;
    println!(rt; "{count} rows")
}

// Runs the rows of a text; one reader reads all messages.
fn compare_all(rt: &HostRuntime, text: &str) -> io::Result<u32> {
    let mut reader = MessageReader::new(rt.alloc());
    compare_rows(rt, &mut reader, text)
}

fn compare_rows(rt: &HostRuntime, reader: &mut MessageReader, text: &str) -> io::Result<u32> {
    let mut count = 0u32;
    let mut number = 0u32;
    for line in text.lines() {
        number = number.saturating_add(1);
        if let Some(row) = row_of(line) {
            count = count.saturating_add(1);
            compare(rt, reader, number, &row)?;
        }
    }
    Ok(count)
}

// Prints the row of a line with the answer, where that isn't the expected one.
fn compare(
    rt: &HostRuntime,
    reader: &mut MessageReader,
    number: u32,
    row: &Row<'_>,
) -> io::Result<()> {
    match answered(rt.alloc(), reader, row) {
        Ok(answer) => print_unexpected(rt, number, row, answer.as_str()),
        Err(Want) => print_unexpected(rt, number, row, "it can't be read"),
    }
}

fn print_unexpected(rt: &HostRuntime, number: u32, row: &Row<'_>, answer: &str) -> io::Result<()> {
    if answer.trim_end() == row.answer {
        return Ok(());
    }
    let what = row.what;
    let expected = row.answer;
    println!(rt; "crates/test_rows/stdin:{number}: {what}\n  - {expected}\n  + {answer}")
}
