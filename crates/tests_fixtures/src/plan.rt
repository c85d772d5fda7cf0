//! What becomes of the next growths.
ghost use Rattle.std.specs.Prelude.{◌≡◌, ◌+◌, ◌-◌, ◌<◌, min, IsTrue};

/// How many growths are passed on, how many after them are refused, and how many were refused so far.
#[derive(Clone, Copy)]
pub(crate) struct Plan {
    passed: u64,
    refusals: u64,
    refused: u64,
}

impl Plan {
    pub(crate) fn new(passed: u64, refusals: u64) -> Plan
        ensures { result ≡ record { passed = passed; refusals = refusals; refused = 0 } }
    {
        Plan {
            passed,
            refusals,
            refused: 0,
        }
    }

    pub(crate) fn refused(self) -> u64
        ensures { result ≡ self.refused }
    {
        self.refused
    }

    /// Nothing more is passed on.
    pub(crate) fn refuse_rest(self) -> Plan
        ensures { result ≡ record self { passed = 0; refusals = 18446744073709551615 } }
    {
        Plan {
            passed: 0,
            refusals: u64::MAX,
            refused: self.refused,
        }
    }

    pub(crate) fn refuses_next(self) -> bool
        ensures refused { IsTrue result → (self.passed ≡ 0) × (0 < self.refusals) }
        ensures passed { self.passed ≡ 0 → 0 < self.refusals → IsTrue result }
    {
        self.passed == 0 && self.refusals > 0
    }

    /// A growth more: it is passed on, or refused and counted.
    pub(crate) fn after_growth(self) -> Plan
        ensures passed { 0 < self.passed → result ≡ record self { passed = self.passed - 1 } }
        ensures refused { self.passed ≡ 0 → 0 < self.refusals
            → result ≡ record self { refusals = self.refusals - 1; refused = min (self.refused + 1) 18446744073709551615 } }
        ensures done { self.passed ≡ 0 → self.refusals ≡ 0 → result ≡ self }
    {
        if self.passed > 0 {
            Plan {
                passed: self.passed - 1,
                ..self
            }
        } else if self.refusals > 0 {
            Plan {
                refusals: self.refusals - 1,
                refused: self.refused.saturating_add(1),
                ..self
            }
        } else {
            self
        }
    }
}
