//! The words that rows begin with.
ghost use Rattle.std.specs.Prelude.{◌≡◌, find};
ghost use Rattle.rail_model.specs.Name.{is_same};
ghost use Rattle.row_text.specs.Words as words;

use rail_model::{Kind, PATH_HOPS};

/// What the first field of a row says that the row does.
#[derive(Clone, Copy)]
pub enum Word {
    /// Puts an item of a kind.
    Put(Kind),
    /// Changes one.
    Change(Kind),
    /// Drops one.
    Drop(Kind),
    /// Asks for the answer of a section.
    Ask,
    /// Starts a planner's script.
    Planner,
}

impl Word {
    ghost use Rattle.row_text.specs.Words.{shape_of, allows, word_text};

    // The field that a row of this word begins with.
    pub(crate) fn text(self) -> &'static [u8]
        ensures { result.now ≡ word_text self }
    {
        match self {
            Word::Put(Kind::Block) => b"block",
            Word::Put(Kind::Signal) => b"signal",
            Word::Put(Kind::Route) => b"route",
            Word::Put(Kind::Run) => b"run",
            Word::Put(Kind::Section) => b"section",
            Word::Put(Kind::Connection) => b"connect",
            Word::Change(Kind::Block) => b"change-block",
            Word::Change(Kind::Signal) => b"change-signal",
            Word::Change(Kind::Route) => b"change-route",
            Word::Change(Kind::Run) => b"change-run",
            Word::Change(Kind::Section) => b"change-section",
            Word::Change(Kind::Connection) => b"change-connect",
            Word::Drop(Kind::Block) => b"drop-block",
            Word::Drop(Kind::Signal) => b"drop-signal",
            Word::Drop(Kind::Route) => b"drop-route",
            Word::Drop(Kind::Run) => b"drop-run",
            Word::Drop(Kind::Section) => b"drop-section",
            Word::Drop(Kind::Connection) => b"drop-connect",
            Word::Ask => b"ask",
            Word::Planner => b"planner",
        }
    }

    // Whether a row of this word may have as many fields, with the word.
    pub(crate) fn allows(self, fields: usize) -> bool
        ensures { result ≡ allows (shape_of self) fields }
    {
        match self {
            Word::Put(kind) | Word::Change(kind) => kind_allows(kind, fields),
            Word::Drop(_) | Word::Ask | Word::Planner => fields == 2,
        }
    }
}

// Whether a row that puts an item of a kind may have as many fields.
fn kind_allows(kind: Kind, fields: usize) -> bool
    ensures { result ≡ words.allows (words.kind_shape kind) fields }
{
    match kind {
        Kind::Block => fields == 3,
        Kind::Signal => fields == 8,
        Kind::Route => fields > 2 && fields - 2 <= PATH_HOPS,
        Kind::Run => fields > 6 && (fields - 6) % 2 == 1 && fields - 6 < 2 * PATH_HOPS,
        Kind::Section => fields > 5 && fields - 5 <= PATH_HOPS,
        Kind::Connection => fields == 5,
    }
}

/// The word that a field is, if it is one.
pub fn word_of(field: &[u8]) -> Option<Word>
    ensures { result ≡ words.word_of field.now }
{
    if let Some(kind) = field.strip_prefix(b"change-".as_slice()) {
        return kind_of(kind).map(Word::Change);
    }
    if let Some(kind) = field.strip_prefix(b"drop-".as_slice()) {
        return kind_of(kind).map(Word::Drop);
    }
    if is_word(field, b"ask") {
        return Some(Word::Ask);
    }
    if is_word(field, b"planner") {
        return Some(Word::Planner);
    }
    kind_of(field).map(Word::Put)
}

// The kind of items that a field is the word of, if it is one.
fn kind_of(field: &[u8]) -> Option<Kind>
    ensures { result ≡ find (λ k. is_same field.now (words.kind_text k)) words.kinds }
{
    if is_word(field, b"block") {
        return Some(Kind::Block);
    }
    if is_word(field, b"signal") {
        return Some(Kind::Signal);
    }
    if is_word(field, b"route") {
        return Some(Kind::Route);
    }
    if is_word(field, b"run") {
        return Some(Kind::Run);
    }
    if is_word(field, b"section") {
        return Some(Kind::Section);
    }
    if is_word(field, b"connect") {
        return Some(Kind::Connection);
    }
    None
}

// Whether a field is a word.
#[inline]
pub(crate) fn is_word(field: &[u8], word: &[u8]) -> bool
    ensures { result ≡ is_same field.now word.now }
{
    field == word
}
