//! Reading the rows of a cut.
ghost use Rattle.std.specs.Prelude.{◌≡◌, ◌<◌, length};
ghost use Rattle.std.specs.Borrow.{sem};
ghost use Rattle.plan_model.specs.Cut.{IsSoundCut};
ghost use Rattle.plan_model.specs.Members.{member, member_count};
ghost use Rattle.plan_model.specs.Reading.{Shown, Takes, uses_of, use_count};

use crate::{Cut, CutRow};
use rail_model::{List, Name, Section, Use};

/// A sound cut that is read row by row. It counts the uses that are taken of it, up to 2^64 - 1;
/// no call changes the cut or its number.
pub trait Rows {
    /// The cut, its number, and how many uses were taken.
    ghost shown: { Self → Shown };

    /// The cut's section.
    fn section(&self) -> &Section
        ensures { result.now ≡ (shown self.now).cut.section };

    /// The names of the cut's connections.
    fn connections(&self) -> &List<Name>
        ensures { result.now ≡ (shown self.now).cut.connections };

    /// The number of the last edit before the cut was read.
    fn at(&self) -> u64
        ensures { result ≡ (shown self.now).at };

    /// How many uses were taken.
    fn taken(&self) -> u64
        ensures { result ≡ (shown self.now).taken };

    /// How many rows there are.
    fn count(&self) -> u32
        ensures count { result ≡ member_count (shown self.now).cut }
        ensures sound { IsSoundCut (shown self.now).cut };

    /// The name of row `i`.
    fn name(&self, i: u32) -> Name
        requires { i < member_count (shown self.now).cut }
        ensures { result ≡ (member (shown self.now).cut i).name };

    /// The stamp of row `i`.
    fn stamp(&self, i: u32) -> u64
        requires { i < member_count (shown self.now).cut }
        ensures { result ≡ (member (shown self.now).cut i).stamp };

    /// Takes the uses of row `i`, in their order.
    fn take(&mut self, i: u32) -> &[Use]
        requires { i < member_count (shown self.old).cut }
        ensures* takes { sem 𝓛 (Takes Self.row self.entry shown (shown self.old)
            (length (uses_of (shown self.old) i))) }
        ensures uses { result.now ≡ uses_of (shown self.old) i };

    /// Takes row `i`, with its uses.
    fn row(&mut self, i: u32) -> &CutRow
        requires { i < member_count (shown self.old).cut }
        ensures* takes { sem 𝓛 (Takes Self.row self.entry shown (shown self.old)
            (length (uses_of (shown self.old) i))) }
        ensures row { result.now ≡ member (shown self.old).cut i };

    /// Takes the whole cut, with the uses of all rows.
    fn whole(&mut self) -> &Cut
        ensures* takes { sem 𝓛 (Takes Self.row self.entry shown (shown self.old)
            (use_count (shown self.old))) }
        ensures cut { result.now ≡ (shown self.old).cut }
        ensures sound { IsSoundCut (shown self.old).cut };
}
