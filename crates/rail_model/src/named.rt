//! What has a name.
ghost use Rattle.std.specs.Prelude.{◌≡◌, ℕ, List};

use crate::{Block, Connection, Name, Route, Run, Section, Signal};

/// An item with a name.
pub trait Named {
    /// Its name.
    ghost label: { Self → List ℕ };

    fn name(&self) -> &Name
        ensures { result.now ≡ label self.now };
}

impl Named for Block {
    ghost label = { λ b. b.name };

    fn name(&self) -> &Name {
        &self.name
    }
}

impl Named for Signal {
    ghost label = { λ s. s.name };

    fn name(&self) -> &Name {
        &self.name
    }
}

impl Named for Route {
    ghost label = { λ r. r.name };

    fn name(&self) -> &Name {
        &self.name
    }
}

impl Named for Run {
    ghost label = { λ r. r.name };

    fn name(&self) -> &Name {
        &self.name
    }
}

impl Named for Section {
    ghost label = { λ s. s.name };

    fn name(&self) -> &Name {
        &self.name
    }
}

impl Named for Connection {
    ghost label = { λ c. c.name };

    fn name(&self) -> &Name {
        &self.name
    }
}
