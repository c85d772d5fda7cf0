//! How the tests compare, each by one function, so that no test carries a comparison's proof along.

use std::fmt::Display;
use std::process::Abort;

/// This holds. If it doesn't, the note says what was looked at.
pub(crate) fn expect(rt: &impl Abort, holds: bool, note: &str) {
    assert!(rt; holds, "{note}");
}

/// This many were found, and as many are due.
pub(crate) fn expect_count(rt: &impl Abort, found: u64, due: u64, note: &str) {
    assert!(rt; found == due, "{note}: {found}, not {due}");
}

/// A value is shown as this text.
pub(crate) fn expect_text<D: Display>(rt: &(impl Abort + AllocGlobal), told: &D, text: &str) {
    let shown = format!(in rt.alloc(); "{told}").expect(rt, "there is memory");
    expect_bytes(rt, shown.as_bytes(), text.as_bytes());
}

/// These bytes are those that are due.
fn expect_bytes(rt: &impl Abort, found: &[u8], due: &[u8]) {
    assert_eq!(rt; found, due);
}
