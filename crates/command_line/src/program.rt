//! What `mdnsmerge` and `mdnswhy` do alike: they read their arguments, open files and print.

ghost use Rattle.std.specs.Prelude.{◌≡◌, ℕ, List, [], ◌∷◌, ◌++◌, IfErr, IfOk, OnOk, MatchResult, length, map};
ghost use Rattle.std.specs.{Prelude.{string_bytes}, Bool.{OnFalse, OnTrue}, Io.KnownBytes.{Appends}};
ghost use Rattle.mdns_capture.specs.{Calls.{WritesWell}, Output.{AppendsPrefix}};
ghost use Rattle.command_line.specs.Program.{AnswersFault, IsIndexOf, IsOpenLine, IsUnopened, Prints, PrintsRefusal, Shows, trimmed};

use crate::words::{AskFault, WordsFault};
use mdns_capture::{ReadAhead, Sink, Through, write_all};
use mdns_message::Want;
use mdns_survey::error_lines;
use mdns_survey::program_lines::open_line_of;
use mdns_survey::status::{REFUSED, WHOLE};
use mdns_trace::usable::{Usable, separate_usable};
use std::env::{self, Env};
use std::fs::File;
use std::io::ErrorKind;
use std::rt::Files;

/// The name of a program, and its error lines that are the same for all files.
#[derive(Clone, Copy)]
pub struct ErrorLines {
    pub program: &'static str,
    /// An allocation failed.
    pub out_of_memory: &'static str,
    /// An argument isn't UTF-8.
    pub not_text: &'static str,
    /// A write on standard output failed.
    pub write_failed: &'static str,
}

/// The error lines of the program of this name.
macro_rules! error_lines {
    ($program:literal) => {
        ErrorLines {
            program: $program,
            out_of_memory: concat!($program, ": out of memory"),
            not_text: concat!($program, ": an argument is not UTF-8 text"),
            write_failed: concat!($program, ": write failed"),
        }
    };
}

/// The error lines of `mdnsmerge`.
pub const MDNSMERGE: ErrorLines = error_lines!("mdnsmerge");

/// The error lines of `mdnswhy`.
pub const MDNSWHY: ErrorLines = error_lines!("mdnswhy");

/// A file that is read ahead.
pub type Reader<F> = ReadAhead<Through<F>>;

/// Why files were not opened.
#[derive(Clone, Copy)]
enum OpenFault {
    /// An allocation failed.
    Memory,
    /// The first file that can't be opened, counted from 0.
    File { index: usize },
}

/// Returns the arguments, of which the first is the program's name.
///
/// # Errors
///
/// The error line, where an argument isn't UTF-8 or an allocation failed.
pub fn arguments<R: Env + AllocGlobal>(
    rt: &R,
    lines: ErrorLines,
) -> Result<Vec<String>, &'static str> {
    match env::args(rt) {
        Ok(words) => words.collect(rt.alloc()).map_err(|_| lines.out_of_memory),
        Err(error) if error.kind() == ErrorKind::OutOfMemory => Err(lines.out_of_memory),
        Err(_) => Err(lines.not_text),
    }
}

/// Opens the files in order. Where one can't be opened, or an allocation fails, prints the error line on `err`.
///
/// # Errors
///
/// The exit status of a refusal.
pub fn open_or_refuse<R: Files + AllocGlobal, E: Sink>(
    rt: &R,
    lines: ErrorLines,
    names: &[String],
    err: &mut E,
) -> Result<Vec<Reader<R::File>>, u8>
    ensures opened { IfOk result (λ readers. length names.now ≡ length readers.items) }
    ensures silent { OnOk result (err.new ≡ err.old) }
    ensures refused { IfErr result (λ status. (line : List ℕ)
        × IsOpenLine lines.program.now lines.out_of_memory.now (map string_bytes names.now) line
        × PrintsRefusal E.Sink err.old err.new line status) }
{
    match open_files(rt, names) {
        Ok(readers) => Ok(readers),
        Err(OpenFault::File { index }) => {
            let line = open_line_of(rt.alloc(), lines.program, names[index].as_str());
            print_error(line, lines, err);
            Err(REFUSED)
        }
        Err(OpenFault::Memory) => Err(refuse(lines.out_of_memory, err)),
    }
}

// Opens the files in order, up to the first that can't be opened.
fn open_files<R: Files + AllocGlobal>(
    rt: &R,
    names: &[String],
) -> Result<Vec<Reader<R::File>>, OpenFault>
    ensures opened { IfOk result (λ readers. length names.now ≡ length readers.items) }
    ensures fault { IfErr result (IsIndexOf (length names.now)) }
{
    let mut readers = Vec::new(rt.alloc());
    for name in names {
        let Ok(file) = File::open(rt, name.as_str()) else {
            return Err(OpenFault::File {
                index: readers.len(),
            });
        };
        if readers
            .push(ReadAhead::new(rt.alloc(), Through(file)))
            .is_err()
        {
            return Err(OpenFault::Memory);
        }
    }
    Ok(readers)
}

/// Opens each of the files in order, past those that can't be opened, for which there is `None`.
///
/// # Errors
///
/// An allocation failed.
pub fn open_each<R: Files + AllocGlobal>(
    rt: &R,
    names: &[String],
) -> Result<Vec<Option<Reader<R::File>>>, Want>
    ensures opened { IfOk result (λ readers. length names.now ≡ length readers.items) }
{
    let mut readers = Vec::new(rt.alloc());
    for name in names {
        let reader = match File::open(rt, name.as_str()) {
            Ok(file) => Some(ReadAhead::new(rt.alloc(), Through(file))),
            Err(_) => None,
        };
        if readers.push(reader).is_err() {
            return Err(Want);
        }
    }
    Ok(readers)
}

/// Opens the files, and leaves out those that can't be used. Where a read or an allocation fails, prints the error line on `err`.
///
/// # Errors
///
/// The exit status of a refusal.
pub fn open_usable<R: Files + AllocGlobal, E: Sink>(
    rt: &R,
    lines: ErrorLines,
    names: &[String],
    err: &mut E,
) -> Result<Usable<Reader<R::File>>, u8>
    ensures paired { IfOk result (λ usable. length usable.names.items ≡ length usable.readers.items) }
    ensures silent { OnOk result (err.new ≡ err.old) }
    ensures refused { IfErr result (IsUnopened E.Sink lines.program.now lines.out_of_memory.now (map string_bytes names.now)
        err.old err.new) }
{
    let Ok(readers) = open_each(rt, names) else {
        return Err(refuse(lines.out_of_memory, err));
    };
    match separate_usable(rt.alloc(), lines.program, names, readers) {
        Ok(usable) => Ok(usable),
        Err(fault) => Err(error_lines::say_fault(rt.alloc(), lines.program, names, &fault, err)),
    }
}

/// Prints the help or the version on `out`, or the error line of a refusal on `err`, and returns the exit status.
pub fn print_fault<O: Sink, E: Sink>(
    fault: &AskFault,
    lines: ErrorLines,
    out: &mut O,
    err: &mut E,
) -> u8
    ensures { AnswersFault
        (λ text. Shows O.Sink out.old out.new E.Sink err.old err.new text lines.write_failed.now result)
        (λ text. (out.new ≡ out.old) × PrintsRefusal E.Sink err.old err.new text result)
        lines.out_of_memory.now fault.now }
{
    match fault {
        AskFault::Version { text } => print_asked(text.as_str(), lines, out, err),
        AskFault::Words(WordsFault::Help { text }) => print_asked(text.as_str(), lines, out, err),
        AskFault::Words(WordsFault::Memory) => refuse(lines.out_of_memory, err),
        AskFault::Words(WordsFault::Refused { text }) => refuse(text.as_str(), err),
    }
}

// Prints the text that was asked for.
fn print_asked<O: Sink, E: Sink>(text: &str, lines: ErrorLines, out: &mut O, err: &mut E) -> u8
    ensures { Shows O.Sink out.old out.new E.Sink err.old err.new text.now lines.write_failed.now result }
{
    if print_line(text, out) {
        WHOLE
    } else {
        refuse(lines.write_failed, err)
    }
}

/// Prints an error line, and returns the status of a refusal.
pub fn refuse<E: Sink>(line: &str, err: &mut E) -> u8
    ensures { PrintsRefusal E.Sink err.old err.new line.now result }
{
    print_line(line, err);
    REFUSED
}

// Prints an error line, or the one of a failed allocation where there was no memory for it.
fn print_error<E: Sink>(line: Result<String, Want>, lines: ErrorLines, err: &mut E)
    ensures { MatchResult line (λ line. Prints E.Sink err.old err.new (string_bytes line))
        (λ _. Prints E.Sink err.old err.new lines.out_of_memory.now) }
{
    match line {
        Ok(line) => print_line(line.as_str(), err),
        Err(Want) => print_line(lines.out_of_memory, err),
    };
}

// Writes a text with exactly one line feed at its end, and returns `true` if all of it was written.
#[tactic(auto, using(crate::proofs::PrintLemmas::for_print_line))]
fn print_line<S: Sink>(text: &str, to: &mut S) -> bool
    ensures whole { OnTrue result (Appends (S.written to.old) (S.written to.new) (trimmed text.now ++ 10 ∷ [])) }
    ensures prefix { OnFalse result (AppendsPrefix (S.written to.old) (S.written to.new) (trimmed text.now ++ 10 ∷ [])) }
    ensures well { WritesWell S.Sink to.old to.new result }
{
    match write_all(to, trimmed(text.as_bytes())) {
        Ok(()) => match write_all(to, b"\n") {
            Ok(()) => true,
            Err(_) => false,
        },
        Err(_) => false,
    }
}

// Returns a text without the line feeds at its end.
#[tactic(auto, using(crate::proofs::PrintLemmas::trimmed_feed, crate::proofs::PrintLemmas::trimmed_other))]
fn trimmed(text: &[u8]) -> &[u8]
    ensures { result.now ≡ trimmed text.now }
{
    let mut line = text;
    while let Some((last, rest)) = line.split_last() {
        if *last != b'\n' {
            return line;
        }
        line = rest;
    }
    line
}
