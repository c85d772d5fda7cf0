//! What an operation makes of two numbers.

/// An operation on a number of the B operand and one of the A operand. A quotient and a remainder are by the latter.
#[derive(Clone, Copy, PartialEq, Eq)]
pub enum Arithmetic {
    Sum,
    Difference,
    Product,
    Quotient,
    Remainder,
}
