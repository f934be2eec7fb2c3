//! Fields of rows that are written.
use rail_model::Name;

/// A field of a row that is written.
#[derive(Clone, Copy)]
pub enum Field<'a> {
    /// A word, or other bytes.
    Text(&'a [u8]),
    /// A name.
    Name(&'a Name),
    /// A number that is not negative, in plain decimal.
    Count(u64),
    /// A signed number, in plain decimal.
    Number(i64),
}
