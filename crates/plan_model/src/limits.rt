//! The limit of what is compressed.
ghost use Rattle.std.specs.Prelude.{◌≡◌, nat_lt};

/// The greatest number of members of a cut that is compressed.
pub const MEMBERS: usize = 768;

/// Whether a cut with so many members is crowded: it has more than are compressed.
pub fn is_crowded(count: u32) -> bool
    ensures { result ≡ nat_lt MEMBERS count }
{
    count as usize > MEMBERS
}
