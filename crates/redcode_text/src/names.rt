//! The names that an expression may use.

/// What names stand for.
pub trait Names {
    ghost use Rattle.std.specs.Prelude.{◌≡◌, ℕ, List, Option, ℤ};

    /// The value of each name that has one.
    ghost values: { Self → List ℕ → Option ℤ };

    /// The value of a name, or `None` if it has none.
    fn value_of(&self, name: &[u8]) -> Option<i64>
        ensures { result ≡ values self.now name.now };
}
