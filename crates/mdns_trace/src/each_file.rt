//! Writing about several files, one after another.

ghost use Rattle.std.specs.Prelude.{◌≡◌, ℕ, IfErr, IfOk, List, length, map, string_bytes};
ghost use Rattle.mdns_trace.specs.{EachFile.{NamesFile, StopsAmong, WritesEach}, Inquiry.{StopsTrace, WritesTrace}};

use crate::inquiry::Tracer;
use crate::trace::{TraceFault, write_trace};
use mdns_capture::{Sink, Source};
use mdns_survey::summary::Summary;
use std::alloc::Global;
use thiserror::Error;

/// Why not all lines about several files were written.
#[derive(Debug, Clone, Copy, Error)]
pub enum FilesFault {
    /// The first file, counted from 0, at which the writing broke off.
    #[error("File")]
    File { index: usize, fault: TraceFault },
    /// An allocation failed.
    #[error("Memory")]
    Memory,
}

/// Writes about files.
pub(crate) trait Scribe<R, W> {
    ghost use Rattle.mdns_trace.specs.declared.trace.TraceFault.{TraceFault};

    /// What a scribe finds of a file.
    type Finding: Drop;

    // What was written about a file of that name with that reader, and found of it.
    ghost Writes: { Self → List ℕ → R → W → W → Self.Finding → Type 0 };

    // What was written before a fault.
    ghost Stops: { Self → List ℕ → R → W → W → TraceFault → Type 0 };

    /// Writes about a file.
    fn write(
        &self,
        alloc: Global,
        name: &str,
        reader: R,
        out: &mut W,
    ) -> Result<Self::Finding, TraceFault>
        ensures written { IfOk result (Writes self.now name.now reader out.old out.new) }
        ensures stops { IfErr result (Stops self.now name.now reader out.old out.new) };
}

/// Writes about each file in order, and returns what was found of each.
#[tactic(auto, using(crate::proofs::FilesLemmas::for_write_each))]
pub(crate) fn write_each<R: Drop, W, S: Scribe<R, W>>(
    alloc: Global,
    scribe: &S,
    names: &[String],
    readers: Vec<R>,
    out: &mut W,
) -> Result<Vec<S::Finding>, FilesFault>
    requires { length names.now ≡ length readers.items }
    ensures written { IfOk result (λ found. WritesEach (S.Writes scribe.now) out.old
        (map string_bytes names.now) readers.items out.new found.items) }
    ensures stops { IfErr result (StopsAmong (S.Writes scribe.now) (S.Stops scribe.now)
        (map string_bytes names.now) readers.items out.old out.new) }
    ensures within { IfErr result (NamesFile (length names.now)) }
{
    let mut all = match Vec::with_capacity(alloc, readers.len()) {
        Ok(all) => all,
        Err(_) => return Err(FilesFault::Memory),
    };
    for reader in readers {
        let index = all.len();
        let found = match scribe.write(alloc, names[index].as_str(), reader, out) {
            Ok(found) => found,
            Err(fault) => return Err(FilesFault::File { index, fault }),
        };
        match all.push(found) {
            Ok(()) => {}
            Err(_) => return Err(FilesFault::Memory),
        }
    }
    Ok(all)
}

impl<R: Source + Drop, W: Sink> Scribe<R, W> for Tracer<'_> {
    ghost use Rattle.mdns_trace.specs.Inquiry.{StopsTrace, WritesTrace};

    type Finding = Summary;

    ghost Writes = { λ tracer. WritesTrace R.Source W.Sink tracer.trace tracer.about.now tracer.window };

    ghost Stops = { λ tracer. StopsTrace R.Source W.Sink tracer.trace tracer.about.now tracer.window };

    fn write(
        &self,
        alloc: Global,
        name: &str,
        reader: R,
        out: &mut W,
    ) -> Result<Summary, TraceFault> {
        write_trace(alloc, *self, name, reader, out)
    }
}

/// Writes to `out` the lines of each capture in order, as `write_trace` does for one, and gives one summary for each.
/// `names` are the files' names.
///
/// # Errors
///
/// `File` names the capture at which the writing broke off. The lines of those before it have gone out.
pub fn write_traces<R: Source + Drop, W: Sink>(
    alloc: Global,
    tracer: Tracer<'_>,
    names: &[String],
    readers: Vec<R>,
    out: &mut W,
) -> Result<Vec<Summary>, FilesFault>
    requires { length names.now ≡ length readers.items }
    ensures written { IfOk result (λ summaries. WritesEach
        (WritesTrace R.Source W.Sink tracer.entry.trace tracer.entry.about.now tracer.entry.window)
        out.old (map string_bytes names.now) readers.items out.new summaries.items) }
    ensures stops { IfErr result (StopsAmong
        (WritesTrace R.Source W.Sink tracer.entry.trace tracer.entry.about.now tracer.entry.window)
        (StopsTrace R.Source W.Sink tracer.entry.trace tracer.entry.about.now tracer.entry.window)
        (map string_bytes names.now) readers.items out.old out.new) }
    ensures within { IfErr result (NamesFile (length names.now)) }
{
    write_each(alloc, &tracer, names, readers, out)
}
