//! How the tests compare.

use std::fmt::Debug;
use std::process::Abort;

/// What was found is what is due. If it isn't, the note says what was looked at.
pub(crate) fn expect_same<T: PartialEq + Debug>(rt: &impl Abort, found: &T, due: &T, note: &str) {
    assert!(rt; *found == *due, "{note}: {found:?}, not {due:?}");
}
