//! Sets of keys.
ghost use Rattle.std.specs.Prelude.{◌≡◌, ◌≢◌, ℕ, ◌/◌, ◌<◌, ◌≤◌, ◌==◌, ◌&&◌, ◌||◌, not, true, false, [], length, slice_index, IfOk, OnOk, OnErr};
ghost use Rattle.std.specs.Int.{bit_at};
ghost use Rattle.line_tables.specs.KeySet.{holds, SameKeys, HasWord, Meets, KeepsApart};
ghost use Rattle.line_tables.specs.Links.{repeats_key};

use rail_model::OutOfMemory;
use std::alloc::{AllocError, Global};
use std::marker::Model;

// How many keys a word has bits for.
const WORD: usize = 64;

// For how many words a set asks at first, so that few sets move while they grow.
const FIRST_WORDS: usize = 16;

// A set of keys, seen as the words that have a bit for each key.
#[derive(Drop)]
pub(crate) struct KeySet {
    words: Vec<u64>,
}

impl Model for KeySet {
    ghost use Rattle.std.specs.Prelude.{ℕ, List};

    ghost Value = { List ℕ };

    ghost view = { λ s. s.words.items };
}

impl KeySet {
    // A set without keys.
    pub(crate) fn new(alloc: Global) -> Self
        ensures { result ≡ [] }
    {
        KeySet {
            words: Vec::new(alloc),
        }
    }

    // The words of the set.
    pub(crate) fn words(&self) -> &[u64]
        ensures { result.now ≡ self.now }
    {
        &self.words
    }

    // Puts a key in, and says whether it is new there.
    pub(crate) fn insert(&mut self, key: usize) -> Result<bool, OutOfMemory>
        ensures fresh { IfOk result (λ new. new ≡ not (holds self.old key)) }
        ensures ok { OnOk result ((k : ℕ) → holds self.new k ≡ ((k == key) || holds self.old k)) }
        ensures err { OnErr result ((k : ℕ) → holds self.new k ≡ holds self.old k) }
    {
        let word = key / WORD;
        grow(&mut self.words, word + 1)?;
        let bit = key % WORD;
        let bits = self.words[word];
        self.words[word] = with_bit(bits, bit);
        Ok(!has_bit(bits, bit))
    }

    // Makes room for this many words; the keys stay.
    pub(crate) fn make_room(&mut self, words: usize) -> Result<(), OutOfMemory>
        ensures same { SameKeys self.old self.new }
        ensures longer { length self.old ≤ length self.new }
        ensures room { OnOk result (words ≤ length self.new) }
    {
        grow(&mut self.words, words)
    }

    // Puts a key in.
    pub(crate) fn put(&mut self, key: usize)
        requires { HasWord self.old key }
        ensures put { (k : ℕ) → holds self.new k ≡ ((k == key) || holds self.old k) }
        ensures long { length self.new ≡ length self.old }
    {
        let word = key / WORD;
        self.words[word] = with_bit(self.words[word], key % WORD);
    }

    // Takes a key out.
    pub(crate) fn take(&mut self, key: usize)
        ensures taken { (k : ℕ) → holds self.new k ≡ (not (k == key) && holds self.old k) }
        ensures long { length self.new ≡ length self.old }
    {
        let word = key / WORD;
        if word < self.words.len() {
            self.words[word] = without_bit(self.words[word], key % WORD);
        }
    }

    // Puts the keys of another set in.
    pub(crate) fn put_all(&mut self, others: &[u64])
        requires { length others.now ≤ length self.old }
        ensures { (k : ℕ) → holds self.new k ≡ (holds others.now k || holds self.old k) }
    {
        join(&mut self.words, others);
    }

    // Takes the keys of another set out.
    pub(crate) fn take_all(&mut self, others: &[u64])
        ensures taken { (k : ℕ) → holds self.new k ≡ (not (holds others.now k) && holds self.old k) }
        ensures long { length self.new ≡ length self.old }
    {
        part(&mut self.words, others);
    }
}

impl Clone for KeySet {
    ghost is_clone = { λ set other. other ≡ set };

    fn clone(&self) -> Result<KeySet, AllocError> {
        Ok(KeySet {
            words: self.words.clone()?,
        })
    }
}

// Whether a key stands twice.
pub(crate) fn repeats(alloc: Global, keys: &[usize]) -> Result<bool, OutOfMemory>
    ensures { IfOk result (λ twice. twice ≡ repeats_key keys.now) }
{
    let mut seen = KeySet::new(alloc);
    for key in keys {
        if !seen.insert(*key)? {
            return Ok(true);
        }
    }
    Ok(false)
}

// Whether some key is in both sets, given by their words.
pub(crate) fn meet(one: &[u64], other: &[u64]) -> bool
    ensures some { result ≡ true → Meets one.now other.now }
    ensures none { result ≡ false → KeepsApart one.now other.now }
{
    for word in 0..one.len().min(other.len()) {
        if one[word] & other[word] != 0 {
            return true;
        }
    }
    false
}

// Whether a key is in a set, given by its words.
pub(crate) fn has_key(words: &[u64], key: usize) -> bool
    ensures { result ≡ holds words.now key }
{
    let word = key / WORD;
    if word >= words.len() {
        return false;
    }
    has_bit(words[word], key % WORD)
}

// How many words a set has where a key is its greatest.
pub(crate) fn words_for(key: usize) -> usize
    ensures { key / 64 < result }
{
    key / WORD + 1
}

// Adds words without keys until there are so many.
fn grow(words: &mut Vec<u64>, count: usize) -> Result<(), OutOfMemory>
    ensures same { (k : ℕ) → slice_index words.new.items k ≡ slice_index words.old.items k }
    ensures longer { length words.old.items ≤ length words.new.items }
    ensures within { OnOk result (count ≤ length words.new.items) }
{
    if words.len() >= count {
        return Ok(());
    }
    if words.is_empty() {
        words.reserve(FIRST_WORDS)?;
    }
    while words.len() < count {
        words.push(0)?;
    }
    Ok(())
}

// Puts the keys of one set into another.
fn join(words: &mut [u64], others: &[u64])
    requires { length others.now ≤ length words.old }
    ensures { (k : ℕ) → holds words.new k ≡ (holds others.now k || holds words.old k) }
{
    for word in 0..others.len() {
        words[word] |= others[word];
    }
}

// Takes the keys of one set out of another.
fn part(words: &mut [u64], others: &[u64])
    ensures { (k : ℕ) → holds words.new k ≡ (not (holds others.now k) && holds words.old k) }
{
    for word in 0..words.len().min(others.len()) {
        words[word] &= !others[word];
    }
}

fn has_bit(word: u64, bit: usize) -> bool
    requires { bit < 64 }
    ensures { result ≡ (bit_at word bit == 1) }
{
    word & (1 << bit) != 0
}

fn with_bit(word: u64, bit: usize) -> u64
    requires { bit < 64 }
    ensures set { bit_at result bit ≡ 1 }
    ensures others { (i : ℕ) → i ≢ bit → bit_at result i ≡ bit_at word i }
{
    word | (1 << bit)
}

fn without_bit(word: u64, bit: usize) -> u64
    requires { bit < 64 }
    ensures clear { bit_at result bit ≡ 0 }
    ensures others { (i : ℕ) → i < 64 → i ≢ bit → bit_at result i ≡ bit_at word i }
{
    word & !(1 << bit)
}
