//! Laws of the definitions: each function does nothing, and its contract is the law.
ghost use Rattle.made_line.specs.Laws.{AnyOrderMakesOne, EachSessionMakesAll};

/// In whatever order the edits of the scripts are made over the base, no rule refuses one, and they
/// leave the same tables: each run that the scripts change starts 30 s later, and all else is as in
/// the base.
pub fn any_order_makes_one()
    ensures { AnyOrderMakesOne }
{}

/// The journal of a session of the scripts over the base has made the 64 edits of the scripts, each
/// once, and leaves these same tables: whatever the order of its entries, and with any number of
/// workers.
pub fn each_session_makes_all()
    ensures { EachSessionMakesAll }
{}
