//! Steps of a cut, looked at one by one.
ghost use Rattle.std.specs.Prelude.{◌≡◌, ◌<◌, ◌↔◌, IsTrue};
ghost use Rattle.plan_model.specs.Members as members;
ghost use Rattle.cycle_time.specs.Checking.{IsStepFrom};
ghost use Rattle.cycle_time.specs.Demands.{IsLight};
ghost use Rattle.cycle_time.specs.Cycle as rings;
ghost use Rattle.cycle_time.specs.Cycle.{AreUsers, IsStep};

use crate::demand::{headway, since};
use crate::found::Step;
use plan_model::SoundCut;

// Whether a step is one of the cut, and begins with a train.
pub(crate) fn leads_on(cut: &SoundCut, train: u32, step: Step) -> bool
    ensures { IsTrue result ↔ IsStepFrom cut.now train step }
{
    step.from == train && is_step(cut, step)
}

fn is_step(cut: &SoundCut, step: Step) -> bool
    ensures { IsTrue result ↔ IsStep cut.now step }
{
    let count = cut.member_count();
    if step.from >= count || step.to >= count {
        return false;
    }
    if step.next {
        are_users(cut, step.from, step.to, step.block)
    } else {
        cut.precedes(step.from, step.to, step.block)
    }
}

// Whether two trains use a block.
fn are_users(cut: &SoundCut, i: u32, j: u32, block: u32) -> bool
    requires one { i < members.member_count cut.now }
    requires other { j < members.member_count cut.now }
    ensures { IsTrue result ↔ AreUsers cut.now i j block }
{
    block < cut.block_count() && uses(cut, i, block) && uses(cut, j, block)
}

fn uses(cut: &SoundCut, i: u32, place: u32) -> bool
    requires { i < members.member_count cut.now }
    ensures { result ≡ members.uses_place (members.member cut.now i) place }
{
    cut.use_at(i, place).is_some()
}

// How many seconds after the first train of a step the second must enter; where it is one of the
// next pattern, the period is taken off that.
pub(crate) fn weight(cut: &SoundCut, step: Step) -> i64
    requires { IsStep cut.now step }
    ensures is { result ≡ rings.weight cut.now step }
    ensures light { IsLight result }
{
    let until = since(
        cut.row(step.from).entry,
        cut.used(step.from, step.block).end,
    );
    let from = since(cut.row(step.to).entry, cut.used(step.to, step.block).start);
    headway(until, from)
}
