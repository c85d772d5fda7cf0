//! How the tests compare, by one function, so that no test carries a comparison's proof along.

use std::fmt::{Debug, Display};
use std::process::Abort;

/// What was found is what is due. If it isn't, the note says what was looked at.
pub(crate) fn expect_same<T: PartialEq + Debug>(
    rt: &impl Abort,
    found: &T,
    due: &T,
    note: impl Display + Drop,
) {
    assert_eq!(rt; *found, *due, "{note}");
}
