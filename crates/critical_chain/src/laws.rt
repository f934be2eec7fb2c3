//! Laws of the definitions: each function does nothing, and its contract is the law.
ghost use Rattle.critical_chain.specs.Chain.{ChainIsUnique, ChainIsOf};
ghost use Rattle.critical_chain.specs.Checked.{CheckedIsCompressed, OrderedIsNotOpposite};

/// A train of a plan has at most one chain.
pub fn chain_is_unique()
    ensures { ChainIsUnique }
{}

/// The links that are found behind a train of a compressed timetable, tie after tie, are its chain.
pub fn chain_is_of()
    ensures { ChainIsOf }
{}

/// Where no member remains, a plan is the compressed timetable of a sound cut exactly where it is
/// what its entries make of the cut, they are a schedule, and each train whose tie is `Start`
/// enters at the window's start. So a plan is judged with no search for a better one.
pub fn checked_is_compressed()
    ensures { CheckedIsCompressed }
{}

/// Where no member remains, no two members are opposite. So an order alone tells that there is no
/// disorder.
pub fn ordered_is_not_opposite()
    ensures { OrderedIsNotOpposite }
{}
