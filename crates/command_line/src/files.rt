//! The files of a command line.

ghost use Rattle.std.specs.Prelude.{◌≡◌, false, IfOk, map, string_bytes};
ghost use Rattle.clap.specs.Words.{rule_of};
ghost use Rattle.command_line.specs.Line.{file_rule};

use clap::Arg;
use mdns_message::Want;
use std::alloc::Global;

/// One or more files.
pub(crate) fn files<'a>(alloc: Global) -> Arg<'a>
    ensures rule { rule_of result ≡ file_rule }
    ensures local { result.global ≡ false }
{
    Arg::new(alloc, "FILE")
        .required(true)
        .num_args(1..)
        .help("Classic pcap captures of one link, in any order")
}

/// Copies of words, such as the names of files.
pub(crate) fn names_of(alloc: Global, files: &[&str]) -> Result<Vec<String>, Want>
    ensures { IfOk result (λ names. map string_bytes names.items ≡ map (λ file. file.now) files.now) }
{
    let mut names = Vec::new(alloc);
    for file in files {
        names.push(String::from_str(alloc, file)?)?;
    }
    Ok(names)
}
