//! Access to a journal that others may add to.
ghost use Rattle.std.specs.Prelude.{◌≡◌, ◌<◌};
ghost use Rattle.plan_model.specs.Outcome.{EditsTo, AsksTo, StepsTo, ReadsTo, PublishesTo};
ghost use Rattle.plan_model.specs.Outcome.{IsPlanner, IsDone};
ghost use Rattle.plan_model.specs.Board.{Access, IsCall, Gives};
ghost use Rattle.plan_model.specs.Board.{KeepsCounts, CountsNext, CountsHanded};

use crate::{Asked, Done, Next, NotTaken, Rows, Stepped};
use rail_model::{Edit, Name, OutOfMemory, Rule};
use std::sync::Wait;

/// A board is one caller's access to a journal that others may add to between two calls. The caller
/// is known there by the number of its pass. Each call finds the journal as it is then: what the
/// pass has seen of it, and then entries of others. It answers by what it found, and what it leaves
/// is seen. An entry that a call adds carries the number of the pass, and is a legal next one.
/// Without memory a call adds no entry.
pub trait Board {
    /// A reading of a section's cut.
    type Read: Rows + Drop;

    /// The journal and the pass, the part of the journal that was seen, and how many readings were
    /// given, and uses taken of the last that was handed back.
    ghost access: { Self → Access };

    /// Does the next task of a planner's script, as an edit or a question of that planner. `Ended`
    /// comes where none is left, and then nothing is added.
    fn step<R: Wait>(&mut self, rt: &R, planner: u32) -> Result<Stepped, OutOfMemory>
        requires { IsPlanner (access self.old).seen planner }
        ensures call { IsCall (Gives (StepsTo (access self.old).pass planner) result)
            (access self.old) (access self.new) }
        ensures counts { KeepsCounts (access self.old) (access self.new) };

    /// Makes an edit outside the scripts, and gives its number; or says by which rule it is
    /// refused, the first that refuses it. Each adds its entry.
    fn edit<R: Wait>(&mut self, rt: &R, edit: Edit) -> Result<Result<u64, Rule>, OutOfMemory>
        ensures call { IsCall (Gives (EditsTo (access self.old).pass 0 edit) result)
            (access self.old) (access self.new) }
        ensures counts { KeepsCounts (access self.old) (access self.new) };

    /// Asks for a section outside the scripts. `Ready` gives the answer that was published last and
    /// that no later edit touches. Each reply adds its entry.
    fn ask<R: Wait>(&mut self, rt: &R, section: Name) -> Result<Asked, OutOfMemory>
        ensures call { IsCall (Gives (AsksTo (access self.old).pass 0 section) result)
            (access self.old) (access self.new) }
        ensures counts { KeepsCounts (access self.old) (access self.new) };

    /// Reads the first section by name that is not current, of those whose number leaves the rest
    /// `share` on division by `of`. `Idle` comes where all of these are current. Nothing is added.
    fn read_next<R: Wait>(
        &mut self,
        rt: &R,
        share: u32,
        of: u32,
    ) -> Result<Next<Self::Read>, OutOfMemory>
        requires { share < of }
        ensures call { IsCall (Gives (ReadsTo Self.Read.shown share of) result)
            (access self.old) (access self.new) }
        ensures counts { CountsNext result (access self.old) (access self.new) };

    /// Publishes the answer of a section, which was worked out from this reading. `Stale` comes
    /// where a later edit touches the section, and names the last one; `Current` where none does
    /// and the section is current. With either nothing is added, and the answer is dropped.
    fn publish<R: Wait>(
        &mut self,
        rt: &R,
        done: Done,
        reading: Self::Read,
    ) -> Result<Result<(), NotTaken>, OutOfMemory>
        requires done { IsDone (access self.old).seen done }
        requires section { (Self.Read.shown reading).cut.section.name ≡ done.section }
        requires at { (Self.Read.shown reading).at ≡ done.at }
        ensures call { IsCall (Gives (PublishesTo (access self.old).pass done) result)
            (access self.old) (access self.new) }
        ensures counts { CountsHanded (Self.Read.shown reading).taken result
            (access self.old) (access self.new) };
}
