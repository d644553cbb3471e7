//! Calls that are repeated after a failed allocation. Each test passes whichever one allocation fails, and if none
//! does: the scripts in trials/ let one after another fail.

use mdns_message::Want;
use std::alloc::Global;

mod cache;
mod capture;
mod gathering;
mod join;
mod message;

/// The call that a test makes and repeats. Its result is `Want`, or whether every comparison held.
#[derive(Clone, Copy)]
enum Call {
    Begin,
    MakeName,
    WriteName,
    WriteString,
    MakeBytes,
    CopyRecord,
    HearMessage,
    JoinMoments,
    JoinHearings,
    ChangeMap(join::Change),
    AddFlush,
    Cache(cache::CacheTest),
}

fn run(alloc: Global, call: Call) -> Result<bool, Want> {
    match call {
        Call::Begin => capture::begins(alloc),
        Call::MakeName => message::is_named(alloc),
        Call::WriteName => message::is_written(alloc),
        Call::WriteString => message::is_string_written(alloc),
        Call::MakeBytes => message::is_kept(alloc),
        Call::CopyRecord => message::is_copied(alloc),
        Call::HearMessage => message::is_heard(alloc),
        Call::JoinMoments => join::joins_moments(alloc),
        Call::JoinHearings => join::joins_hearings(alloc),
        Call::ChangeMap(change) => join::changes(alloc, change),
        Call::AddFlush => join::takes_a_flush(alloc),
        Call::Cache(test) => cache::passes(alloc, test),
    }
}

/// Returns whether a call succeeds, the first time or, after `Want`, the second time: at most one allocation fails.
fn succeeds(alloc: Global, call: Call) -> bool {
    match run(alloc, call) {
        Ok(passed) => passed,
        Err(Want) => matches!(run(alloc, call), Ok(true)),
    }
}
