//! Laws of the definitions: each function does nothing, and its contract is the law.
ghost use Rattle.compression.specs.Laws.{NoneIsLaterWithout, OrderStaysWithout, SoundWithout, LeastIsThere, AnswerIsThere};

/// Where one train is taken out of a cut, no other train of the compressed timetable enters later.
/// The occupancy time may still rise. The cut's places stay: a connection of the train that is
/// taken out is still one of them, and binds no other train.
pub fn none_is_later_without()
    ensures { NoneIsLaterWithout }
{}

/// Where one train is taken out of trains that have an order, the others have one.
pub fn order_stays_without()
    ensures { OrderStaysWithout }
{}

/// A sound cut is sound without one of its trains, where that train has no connection.
pub fn sound_without()
    ensures { SoundWithout }
{}

/// A sound cut in which no member remains has a least schedule from floors, one for each member:
/// from the window's start as from later moments.
pub fn least_is_there()
    ensures { LeastIsThere }
{}

/// Each sound cut has an answer. It is the only one, by `plan_model::answer_is_unique`.
pub fn answer_is_there()
    ensures { AnswerIsThere }
{}
