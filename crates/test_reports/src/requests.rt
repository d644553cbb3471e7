//! Questions, and the captures that they are asked of.

use mdns_browse::report::Ask;
use mdns_message::Want;
use mdns_survey::{Request, What, answer, answer_request};
use std::alloc::Global;
use test_values::changed;
use test_values::one_answer::ONE_PACKET;
use test_values::streams::SlowWriter;

/// The question for the records as of the newest hearing.
pub(crate) const RECORDS: What = What::Report {
    ask: Ask::Records,
    at: None,
};

static ARRAY: [u8; 117] = ONE_PACKET;

/// A capture of one packet. It is a slice, so that a test that reads it doesn't own its bytes.
pub(crate) const PACKET: &[u8] = &ONE_PACKET;

/// Returns the same capture with its packet at 150 s.
pub(crate) fn later_packet() -> [u8; 117] {
    changed(&ARRAY, &[(24, &[0x96])])
}

/// Adds the name of a capture.
pub(crate) fn push_name(alloc: Global, names: &mut Vec<String>, name: &str) -> Result<(), Want> {
    names.push(String::from_str(alloc, name)?)?;
    Ok(())
}

// Adds a capture's name and its bytes.
fn push<'a>(
    alloc: Global,
    names: &mut Vec<String>,
    readers: &mut Vec<&'a [u8]>,
    name: &str,
    bytes: &'a [u8],
) -> Result<(), Want> {
    push_name(alloc, names, name)?;
    readers.push(bytes)?;
    Ok(())
}

fn push_all<'a>(
    alloc: Global,
    names: &mut Vec<String>,
    readers: &mut Vec<&'a [u8]>,
    captures: &[(&str, &'a [u8])],
) -> Result<(), Want> {
    for (name, bytes) in captures {
        push(alloc, names, readers, name, bytes)?;
    }
    Ok(())
}

/// Answers what is asked over captures with their names, and writes the error lines to `err`.
pub(crate) fn answer_of(
    alloc: Global,
    what: What,
    captures: &[(&str, &[u8])],
    out: &mut SlowWriter,
    err: &mut SlowWriter,
) -> Result<u8, Want> {
    let mut names = Vec::new(alloc);
    let mut readers = Vec::new(alloc);
    match push_all(alloc, &mut names, &mut readers, captures) {
        Ok(()) if names.len() == readers.len() => {
            Ok(answer(alloc, what, names.as_slice(), readers, out, err))
        }
        _ => Err(Want),
    }
}

/// Answers a request, as `answer_of` does.
pub(crate) fn request_answer(
    alloc: Global,
    request: Request,
    captures: &[(&str, &[u8])],
    out: &mut SlowWriter,
    err: &mut SlowWriter,
) -> Result<u8, Want> {
    let mut names = Vec::new(alloc);
    let mut readers = Vec::new(alloc);
    match push_all(alloc, &mut names, &mut readers, captures) {
        Ok(()) if names.len() == readers.len() => Ok(answer_request(
            alloc,
            request,
            names.as_slice(),
            readers,
            out,
            err,
        )),
        _ => Err(Want),
    }
}
