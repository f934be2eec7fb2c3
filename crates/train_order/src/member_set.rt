//! Sets of members, a bit for each.
ghost use Rattle.std.specs.Prelude.{◌≡◌, ◌≢◌, ℕ, ◌+◌, ◌*◌, ◌<◌, ◌≤◌, ◌==◌, ◌&&◌, ◌||◌, false, not, IsTrue, length};
ghost use Rattle.std.specs.Int.{bit_at};
ghost use Rattle.train_order.specs.Sets.{IsFirstBit, IsFirstMember, IsFirstOutside, holds};

use plan_model::MEMBERS;

// How many members a word has bits for.
const WORD: usize = 64;

// How many words have bits for all members of a cut that is compressed: `WORDS` times `WORD` is
// `MEMBERS`.
const WORDS: usize = 12;

const _: () = prove!(WORD * WORDS == MEMBERS);

// A set of members by their positions, which are below `MEMBERS`.
#[derive(Clone, Copy)]
pub(crate) struct MemberSet {
    words: [u64; WORDS],
}

impl MemberSet {
    // A set without members.
    pub(crate) fn new() -> Self
        ensures { (k : ℕ) → holds result.words k ≡ false }
    {
        MemberSet { words: [0; WORDS] }
    }

    // Whether a member is in the set.
    pub(crate) fn has(&self, member: usize) -> bool
        requires { member < MEMBERS }
        ensures { result ≡ holds self.now.words member }
    {
        has_bit(self.words[member / WORD], member % WORD)
    }

    // Puts a member in.
    pub(crate) fn insert(&mut self, member: usize)
        requires { member < MEMBERS }
        ensures { (k : ℕ) → holds self.new.words k ≡ ((member == k) || holds self.old.words k) }
    {
        let place = member / WORD;
        self.words[place] = with_bit(self.words[place], member % WORD);
    }

    // Puts all members of another set in.
    pub(crate) fn take_in(&mut self, other: &MemberSet)
        ensures { (k : ℕ) → holds self.new.words k
            ≡ (holds self.old.words k || holds other.now.words k) }
    {
        for place in 0..WORDS {
            self.words[place] = with_bits(self.words[place], other.words[place]);
        }
    }

    // The first member from a position on, or a number that no member has where there is none.
    pub(crate) fn next(&self, from: usize) -> usize
        ensures { IsFirstMember self.now.words from result }
    {
        if from >= MEMBERS {
            return from;
        }
        let place = from / WORD;
        let bit = bit_from(self.words[place], from % WORD);
        if bit < WORD {
            return WORD * place + bit;
        }
        self.first_after(place)
    }

    // Whether it has no member below a number. `false` says nothing: the caller looks further.
    pub(crate) fn is_above(&self, count: u32) -> bool
        ensures { IsTrue result → (k : ℕ) → k < count → holds self.now.words k ≡ false }
    {
        self.next(0) >= count as usize
    }

    // The first member that isn't in another set, or a number that no member has where there is
    // none.
    pub(crate) fn first_outside(&self, other: &MemberSet) -> usize
        ensures { IsFirstOutside self.now.words other.now.words result }
    {
        for place in 0..WORDS {
            let bit = bit_from(without_bits(self.words[place], other.words[place]), 0);
            if bit < WORD {
                return WORD * place + bit;
            }
        }
        MEMBERS
    }

    // The first member of the words after a place.
    fn first_after(&self, place: usize) -> usize
        requires { place < WORDS }
        ensures { IsFirstMember self.now.words (64 * place + 64) result }
    {
        for later in place + 1..WORDS {
            let bit = bit_from(self.words[later], 0);
            if bit < WORD {
                return WORD * later + bit;
            }
        }
        MEMBERS
    }
}

fn has_bit(word: u64, bit: usize) -> bool
    requires { bit < 64 }
    ensures { result ≡ (bit_at word bit == 1) }
{
    word & (1 << bit) != 0
}

fn with_bit(word: u64, bit: usize) -> u64
    requires { bit < 64 }
    ensures set { bit_at result bit ≡ 1 }
    ensures others { (i : ℕ) → i ≢ bit → bit_at result i ≡ bit_at word i }
{
    word | (1 << bit)
}

fn with_bits(word: u64, other: u64) -> u64
    ensures { (i : ℕ) → (bit_at result i == 1) ≡ ((bit_at word i == 1) || (bit_at other i == 1)) }
{
    word | other
}

fn without_bits(word: u64, other: u64) -> u64
    ensures { (i : ℕ) → i < 64 → (bit_at result i == 1)
        ≡ ((bit_at word i == 1) && not (bit_at other i == 1)) }
{
    word & !other
}

// The first bit of a word that is 1 from one on, or `WORD` where none is.
fn bit_from(word: u64, from: usize) -> usize
    requires { from < 64 }
    ensures { IsFirstBit word from result }
{
    let rest = word >> from;
    if rest == 0 {
        return WORD;
    }
    from + rest.trailing_zeros() as usize
}
