//! Laws of the definitions: each function does nothing, and its contract is the law.
ghost use Rattle.delay_spread.specs.Laws.{NoneIsKnockedOn, EntersByItsKnockOn, NoneIsEarlier, SpreadIsThere, SpreadingIsThere, SpreadIsUnique, SpreadingIsUnique};

/// Where no train is delayed and the planned entries are a schedule, no train has a knock-on delay.
pub fn none_is_knocked_on()
    ensures { NoneIsKnockedOn }
{}

/// By a delayed schedule a train enters at its planned entry, its own delay and its knock-on delay.
pub fn enters_by_its_knock_on()
    ensures { EntersByItsKnockOn }
{}

/// Where each train's own delay is at least as great, no train enters earlier.
pub fn none_is_earlier()
    ensures { NoneIsEarlier }
{}

/// Any delays spread over a sound cut whose trains have an order: there is a least delayed schedule.
pub fn spread_is_there()
    ensures { SpreadIsThere }
{}

/// Each sound cut has an answer, whatever the delays.
pub fn spreading_is_there()
    ensures { SpreadingIsThere }
{}

/// Delays are spread over a cut in one way.
pub fn spread_is_unique()
    ensures { SpreadIsUnique }
{}

/// With its delays a cut has at most one answer: one spread, or one disorder.
pub fn spreading_is_unique()
    ensures { SpreadingIsUnique }
{}
