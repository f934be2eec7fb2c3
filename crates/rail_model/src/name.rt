//! Names of blocks, signals, routes, runs, sections and connections.
ghost use Rattle.std.specs.Prelude.{◌≡◌, ◌↔◌, IsOk, IfOk, OnOk, OnErr, nat_eq, Some, None, true};
ghost use Rattle.std.specs.Ordering.{nat_cmp};
ghost use Rattle.std.specs.Cmp.Lexicographic.{slice_cmp, pointwise, nat_list_eq_equiv, nat_list_cmp_total, texts_ties, texts_po};
ghost use Rattle.std.specs.Cmp;
ghost use Rattle.std.specs.Hash as fed;
ghost use Rattle.std.proofs.Common.{rules, refl};

use std::cmp::Ordering;
use std::hash::{Hash, Hasher};
use std::marker::Model;
use std::str;

/// The greatest number of bytes of a name.
pub const NAME_BYTES: usize = 64;

/// The bytes are no name.
#[derive(Clone, Copy, Debug, PartialEq, Eq)]
pub struct BadName;

/// The name of a block, signal, route, run, section or connection: 1 to 64 bytes of UTF-8 without a
/// control character of ASCII. Contracts see its bytes, and names are ordered by their bytes.
#[derive(Clone, Copy)]
pub struct Name {
    len: usize,
    bytes: [u8; 64],
}

impl Model for Name {
    ghost use Rattle.std.specs.Prelude.{◌≡◌, ◌≤◌, ◌-◌, ◌++◌, ℕ, List, length, replicate, take};
    ghost use Rattle.std.specs.Coded.{coded_list, coded_ℕ};

    ghost Value = { List ℕ };

    ghost coded = { coded_list coded_ℕ };

    ghost use Rattle.rail_model.specs.declared.name.TheConstants.{NAME_BYTES};
    ghost use Rattle.rail_model.specs.Name.{IsName};

    ghost view = { λ n. take n.len n.bytes };

    // Past the name's own bytes all are 0.
    ghost invariant = { λ n. let own = take n.len n.bytes in (n.len ≤ length n.bytes) × (n.bytes ≡ own ++ replicate (NAME_BYTES - length own) 0) × ∥ IsName own ∥₁ };

    ghost inverse = { λ bytes. record { len = length bytes; bytes = bytes ++ replicate (NAME_BYTES - length bytes) 0 } };
}

impl Name {
    ghost use Rattle.std.specs.Result.{result_ok};
    ghost use Rattle.rail_model.specs.Name.{name_of};

    /// The name with these bytes. `BadName` comes exactly where they are no name.
    pub fn read(bytes: &[u8]) -> Result<Name, BadName>
        ensures named { IsOk result ↔ IsName bytes.now }
        ensures same { IfOk result (λ name. name ≡ bytes.now) }
        // What comes is a function of the bytes.
        ensures exact { result_ok result ≡ name_of bytes.now }
    {
        if !is_name(bytes) {
            return Err(BadName);
        }
        Ok(Name {
            len: bytes.len(),
            bytes: padded(bytes),
        })
    }

    /// Makes this the name with these bytes. `BadName` comes exactly where they are no name, and then
    /// the name stays. A name of a list is so made where it stands.
    #[inline]
    pub fn set(&mut self, bytes: &[u8]) -> Result<(), BadName>
        ensures ok { OnOk result (name_of bytes.now ≡ Some self.new) }
        ensures err { OnErr result (name_of bytes.now ≡ None) }
        ensures kept { OnErr result (self.new ≡ self.old) }
    {
        let old = *self;
        if fill(&mut self.bytes, bytes) {
            self.len = bytes.len();
            return Ok(());
        }
        *self = old;
        *self = Name::read(bytes)?;
        Ok(())
    }

    /// The name's bytes.
    pub fn bytes(&self) -> &[u8]
        ensures same { result.now ≡ self.now }
        ensures named { ∥ IsName self.now ∥₁ }
    {
        &self.bytes[..self.len]
    }

    // The name's bytes with the zeros behind them.
    pub(crate) fn with_zeros(&self) -> &[u8; 64]
        ensures { result.now ≡ self.now ++ replicate (NAME_BYTES - length self.now) 0 }
    {
        &self.bytes
    }
}

ghost use Rattle.std.specs.Prelude.{IsTrue, ◌≤◌, ◌-◌, ◌++◌, ◌&&◌, nat_le, nat_lt, length, replicate};
ghost use Rattle.std.specs.List.{list_all};
ghost use Rattle.std.specs.Str.{is_utf8};
ghost use Rattle.rail_model.specs.Name.{IsName, is_name, is_name_byte, IsFilled};

// Whether the bytes are a name.
fn is_name(bytes: &[u8]) -> bool
    ensures { result ≡ is_name bytes.now }
{
    !bytes.is_empty() && bytes.len() <= NAME_BYTES && is_plain_text(bytes)
}

// Whether the bytes are UTF-8 without a control character of ASCII.
fn is_plain_text(bytes: &[u8]) -> bool
    ensures { result ≡ (list_all is_name_byte bytes.now && is_utf8 bytes.now) }
{
    is_printable(bytes) || (is_plain(bytes) && is_text(bytes))
}

// Whether every byte is a printable one of ASCII, as in most names: such bytes are plain text.
fn is_printable(bytes: &[u8]) -> bool
    ensures { result ≡ list_all (λ b. nat_le 32 b && nat_lt b 127) bytes.now }
{
    bytes.iter().all(|b| *b >= 32 && *b < 127)
}

// Whether no byte is a control character of ASCII.
fn is_plain(bytes: &[u8]) -> bool
    ensures { result ≡ list_all is_name_byte bytes.now }
{
    bytes.iter().all(|b| *b >= 32 && *b != 127)
}

fn is_text(bytes: &[u8]) -> bool
    ensures { result ≡ is_utf8 bytes.now }
{
    str::from_utf8(bytes).is_ok()
}

// Copies the bytes of a name to its room, if all are printable ones of ASCII, and fills it up with
// zeros. `false` says nothing, nor what is in the room then.
fn fill(room: &mut [u8; 64], bytes: &[u8]) -> bool
    ensures { result ≡ true → IsFilled bytes.now room.new }
{
    if bytes.is_empty() || bytes.len() > NAME_BYTES {
        return false;
    }
    *room = [0u8; 64];
    for i in 0..bytes.len() {
        let byte = bytes[i];
        if byte < 32 || byte >= 127 {
            return false;
        }
        room[i] = byte;
    }
    true
}

// The bytes, filled up with zeros to the room of a name.
fn padded(bytes: &[u8]) -> [u8; 64]
    requires { length bytes.now ≤ NAME_BYTES }
    ensures { result ≡ bytes.now ++ replicate (NAME_BYTES - length bytes.now) 0 }
{
    let mut room = [0u8; 64];
    room[..bytes.len()].copy_from_slice(bytes);
    room
}

/// Whether two lists have the same names in the same order.
pub fn same_names(some: &[Name], others: &[Name]) -> bool
    ensures { IsTrue result ↔ (some.now ≡ others.now) }
{
    some == others
}

impl PartialEq for Name {
    ghost eq = { pointwise nat_eq };

    ghost laws = { Cmp.partial_equiv_from_equiv nat_list_eq_equiv };

    // All 64 bytes are compared at once: past a name's own bytes they are 0.
    fn eq(&self, other: &Name) -> bool {
        self.len == other.len && self.bytes == other.bytes
    }
}

impl Eq for Name {
    ghost laws = { nat_list_eq_equiv };
}

impl PartialOrd for Name {
    ghost partial_cmp = { λ a b. Some (slice_cmp nat_cmp a b) };

    ghost laws = { texts_po };

    fn partial_cmp(&self, other: &Name) -> Option<Ordering> {
        Some(self.cmp(other))
    }
}

impl Ord for Name {
    ghost cmp = { slice_cmp nat_cmp };

    ghost total = { nat_list_cmp_total };

    ghost matches_partial_cmp = { λ a b. refl };

    ghost matches_eq = { texts_ties };

    fn cmp(&self, other: &Name) -> Ordering {
        self.bytes().cmp(other.bytes())
    }
}

impl Hash for Name {
    ghost hash_input = { fed.str };

    ghost respects_eq = { Prim.search rules };

    fn hash<H: Hasher>(&self, state: &mut H) {
        state.write(self.bytes());
        state.write_u8(0xff);
    }
}
