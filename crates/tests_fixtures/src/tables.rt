//! How tables of tests are written.

/// A table of tuples: `rows! { "x" => 1, 2; "y" => 3, 4; }`.
#[macro_export]
macro_rules! rows {
    ($($first:expr => $($other:expr),+;)*) => { [$(($first, $($other),+)),*] };
}

/// The settings `SMALL` but for some fields: `small!(core: 65, distance: 32)`.
#[macro_export]
macro_rules! small {
    ($($field:ident: $value:expr),*) => { $crate::RawSettings { $($field: $value,)* ..$crate::SMALL } };
}
