//! Faults in the form of a row.

/// What is wrong with the form of a row.
#[derive(Clone, Copy, Debug, PartialEq, Eq)]
pub enum Form {
    /// The first field is no kind of row.
    Kind,
    /// A row of this kind has another number of fields.
    Fields,
    /// A field is no number of one to nine digits, no rate or no time of day; or a row says a
    /// version that is neither 1 nor 2.
    Number,
    /// A field is no name.
    BadName,
    /// A time of a run is less than the time before it, in version 2 of the rows.
    Order,
}
