//! Assertions: calls of these make a test's proof cheap, where each `assert!` of its own makes it costly.

use std::process::Abort;

/// Fails the test where `is_so` is false.
pub(crate) fn holds(rt: &impl Abort, is_so: bool) {
    assert!(rt; is_so);
}

/// Fails the test where one of its rows failed, and names the row.
pub(crate) fn no_row_failed(rt: &impl Abort, failed: Option<usize>) {
    assert!(rt; failed.is_none(), "row {failed:?}");
}
