//! Values that a desk keeps.
ghost use Rattle.std.specs.Prelude.{◌≡◌, ℕ, ◌+◌, ◌<◌, List, [], ◌∷◌, ◌++◌, IfOk, OnOk, OnErr};
ghost use Rattle.turn_desk.specs.Journal.{NeverIssuesFewer, HasLegalPrefixes};

use rail_model::OutOfMemory;

/// The most passes that can be issued at one desk, pass 0 among them.
pub const MOST_PASSES: u32 = u32::MAX;

// Learns that the value's list is legal.
pub(crate) fn learn_legal<V: Kept>(value: &V)
    ensures { V.is_legal (V.entries value.now) }
{
    let _issued = value.issued();
}

/// A value that a desk hands from thread to thread. It keeps a list of entries, to which every
/// change is added at the end: its journal.
pub trait Kept {
    /// What stands in the list.
    type Entry;

    /// The value's list of entries.
    ghost entries: { Self → List Self.Entry };

    /// The pass number that an entry carries.
    ghost pass_of: { Self.Entry → ℕ };

    /// The number of passes that a list of entries has issued.
    ghost issued_by: { List Self.Entry → ℕ };

    /// Which lists of entries are legal.
    ghost is_legal: { List Self.Entry → Type 0 };

    /// The number of passes that the value's list has issued. The list is legal.
    fn issued(&self) -> u32
        ensures number { result ≡ issued_by (entries self.now) }
        ensures legal { is_legal (entries self.now) };

    /// Adds one entry that carries `by`, and answers the number that it issues: how many passes
    /// were issued before. Out of memory, the list stays as it was.
    fn enter(&mut self, by: u32) -> Result<u32, OutOfMemory>
        requires issued { by < issued_by (entries self.old) }
        requires room { issued_by (entries self.old) < MOST_PASSES }
        ensures number { IfOk result (λ n. n ≡ issued_by (entries self.old)) }
        ensures issues { OnOk result
            (issued_by (entries self.new) ≡ issued_by (entries self.old) + 1) }
        ensures entry { OnOk result ((e : Self.Entry)
            × (entries self.new ≡ entries self.old ++ e ∷ []) × (pass_of e ≡ by)) }
        ensures same { OnErr result (entries self.new ≡ entries self.old) };

    /// A longer list that begins with a list has issued no fewer passes.
    ghost longer_issues_no_fewer: { NeverIssuesFewer issued_by };

    /// A legal list is not empty.
    ghost legal_has_one: { is_legal [] → ⊥ };

    /// Each prefix of a legal list with at least one entry is legal.
    ghost prefixes_are_legal: { HasLegalPrefixes is_legal };
}
