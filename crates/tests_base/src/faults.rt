//! How faults are written. The program prints the names of refusals by other calls, so none of these texts is in its output.

use crate::expecting::expect_text;
use sector_disk::Fault;
use war_types::{AsmFault, AsmKind, ExprFault, SettingsFault};

/// Why an expression has no value, by name.
static EXPRESSIONS: [(ExprFault, &str); 4] = [
    (ExprFault::BadExpression, "BadExpression"),
    (ExprFault::UnknownName, "UnknownName"),
    (ExprFault::DivideByZero, "DivideByZero"),
    (ExprFault::Overflow, "Overflow"),
];

/// Which field of settings is refused, by name.
static FIELDS: [(SettingsFault, &str); 10] = [
    (SettingsFault::Core, "Core"),
    (SettingsFault::Cycles, "Cycles"),
    (SettingsFault::Processes, "Processes"),
    (SettingsFault::Length, "Length"),
    (SettingsFault::Distance, "Distance"),
    (SettingsFault::Rounds, "Rounds"),
    (SettingsFault::Seed, "Seed"),
    (SettingsFault::Capacity, "Capacity"),
    (SettingsFault::ReadLimit, "ReadLimit"),
    (SettingsFault::WriteLimit, "WriteLimit"),
];

#[test]
fn faults_are_written_by_name(rt: HostRuntime) {
    for (fault, name) in &EXPRESSIONS {
        expect_text(&rt, fault, name);
    }
    for (fault, name) in &FIELDS {
        expect_text(&rt, fault, name);
    }
    expect_text(&rt, &Fault, "the device failed");
}

#[test]
fn a_refusal_is_its_line_and_its_kind(rt: HostRuntime) {
    let refusal = AsmFault {
        line: 12,
        kind: AsmKind::ForCount(ExprFault::UnknownName),
    };
    expect_text(&rt, &refusal, "12 UnknownName");
    expect_text(&rt, &AsmFault::MEMORY, "0 Memory");
}
