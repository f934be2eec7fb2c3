//! Lists of names that take little memory.
ghost use Rattle.std.specs.Prelude.{◌≡◌, ◌+◌, ◌<◌, ◌++◌, [], ◌∷◌, length, slice_index_or, IfOk, OnOk, OnErr};
ghost use Rattle.rail_model.specs.Name.{IsName};
ghost use Rattle.rail_model.specs.Names.{name_at, IsNameAt};

use crate::{NAME_BYTES, Name, OutOfMemory};
use std::alloc::{AllocError, Global};
use std::marker::Model;

/// Names in order. Contracts see their list.
///
/// Their bytes stand one after another. A name takes its own bytes and four more, not the 72 of a
/// `Name`. Until a list is shrunk it may have more room: what it was made with, or twice its bytes
/// where it has grown. All names together have fewer than 2^32 bytes: a push past that answers as
/// if memory ran out.
#[derive(Drop)]
pub struct Names {
    bytes: Vec<u8>,
    // Where each name starts among the bytes, and then where the last one ends.
    starts: Vec<u32>,
}

impl Model for Names {
    ghost use Rattle.std.specs.Prelude.{ℕ, List};

    ghost Value = { List (List ℕ) };

    ghost use Rattle.rail_model.specs.Names.{names_of, AreNames};

    ghost view = { λ n. names_of n.starts.items n.bytes.items };

    ghost invariant = { λ n. AreNames n.starts.items n.bytes.items };
}

// For so many bytes of each name room is asked for at once. Longer names ask for more.
const USUAL_BYTES: usize = 8;

impl Names {
    /// No names, with room for so many of eight bytes.
    pub fn with_capacity(alloc: Global, count: usize) -> Result<Names, OutOfMemory>
        ensures { IfOk result (λ names. names ≡ []) }
    {
        // The last name is copied with the zeros behind it.
        let room = count.saturating_mul(USUAL_BYTES).saturating_add(NAME_BYTES);
        let bytes = Vec::with_capacity(alloc, room)?;
        let mut starts = Vec::with_capacity(alloc, count.saturating_add(1))?;
        starts.push(0)?;
        Ok(Names { bytes, starts })
    }

    /// Puts a name at the end. Without memory the names stay as they were.
    pub fn push(&mut self, name: &Name) -> Result<(), OutOfMemory>
        ensures ok { OnOk result (self.new ≡ self.old ++ name.now ∷ []) }
        ensures err { OnErr result (self.new ≡ self.old) }
    {
        let start = self.starts[self.starts.len() - 1];
        let Some(end) = start.checked_add(name.bytes().len() as u32) else {
            return Err(OutOfMemory);
        };
        self.starts.reserve(1)?;
        // To copy as many bytes for each name takes less than to copy its own alone.
        self.bytes.extend_from_slice(name.with_zeros())?;
        self.bytes.truncate(end as usize);
        self.starts.push_reserved(end);
        Ok(())
    }

    /// How many names there are.
    pub fn len(&self) -> usize
        ensures { result ≡ length self.now }
    {
        self.starts.len() - 1
    }

    /// The bytes of the name at `i`.
    pub fn bytes(&self, i: usize) -> &[u8]
        requires { i < length self.now }
        ensures same { result.now ≡ slice_index_or self.now i [] }
        ensures named { ∥ IsName result.now ∥₁ }
    {
        name_at(&self.bytes, &self.starts, i)
    }

    /// The name at `i`.
    pub fn get(&self, i: usize) -> Name
        requires { i < length self.now }
        ensures { result ≡ slice_index_or self.now i [] }
    {
        Name::read(self.bytes(i)).unwrap()
    }

    /// Gives back the room that no name takes.
    pub fn shrink_to_fit(&mut self)
        ensures { self.new ≡ self.old }
    {
        self.bytes.shrink_to_fit();
        self.starts.shrink_to_fit();
    }
}

impl Clone for Names {
    ghost is_clone = { λ names other. other ≡ names };

    fn clone(&self) -> Result<Names, AllocError> {
        let alloc = *self.bytes.allocator();
        Ok(Names {
            bytes: Vec::from_slice(alloc, &self.bytes)?,
            starts: Vec::from_slice(alloc, &self.starts)?,
        })
    }
}

// The bytes of the name at `i`, of names that start at these places.
#[inline]
fn name_at<'a>(bytes: &'a [u8], starts: &[u32], i: usize) -> &'a [u8]
    requires at { i + 1 < length starts.now }
    requires name { IsNameAt starts.now bytes.now i }
    ensures { result.now ≡ name_at starts.now bytes.now i }
{
    let from = starts[i] as usize;
    let to = starts[i + 1] as usize;
    &bytes[from..to]
}
