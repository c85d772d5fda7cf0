//! The settings and the sources that tests share.

use std::process::Abort;
use tests_fixtures::USUAL;
use war_types::Settings;

pub(crate) fn defaults(rt: &impl Abort) -> Settings {
    Settings::new(USUAL).expect(rt, "they are settings")
}

/// A head, `count` times a part, and a tail.
pub(crate) fn source_of(
    rt: &(impl Abort + AllocGlobal),
    head: &str,
    part: &str,
    count: usize,
    tail: &str,
) -> String {
    let parts = part.repeat(rt.alloc(), count).expect(rt, "there is memory");
    format!(in rt.alloc(); "{head}{parts}{tail}").expect(rt, "there is memory")
}
