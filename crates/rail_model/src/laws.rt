//! Laws of the definitions: each function does nothing, and its contract is the law.
ghost use Rattle.std.specs.Prelude.{◌≡◌, pos};
ghost use Rattle.rail_model.specs.Laws.{SoundAfterEdits, RefusedIsFirst};

use crate::{
    BLOCKS, CONNECTIONS, GREATEST_LENGTH_M, GREATEST_MOMENT_S, GREATEST_RATE, GREATEST_START_S,
    GREATEST_TIME_S, GREATEST_WINDOW_END_S, NAME_BYTES, PATH_HOPS, ROUTES, RUNS, SECTIONS, SIGNALS,
};

/// The limits, by their numbers.
pub fn limits()
    ensures name_bytes { NAME_BYTES ≡ 64 }
    ensures blocks { BLOCKS ≡ 4096 }
    ensures signals { SIGNALS ≡ 8192 }
    ensures routes { ROUTES ≡ 4096 }
    ensures runs { RUNS ≡ 2048 }
    ensures sections { SECTIONS ≡ 64 }
    ensures connections { CONNECTIONS ≡ 1024 }
    ensures path_hops { PATH_HOPS ≡ 256 }
    ensures length_m { GREATEST_LENGTH_M ≡ 1000000 }
    ensures start_s { GREATEST_START_S ≡ 604800 }
    ensures time_s { GREATEST_TIME_S ≡ 86400 }
    ensures window_end_s { GREATEST_WINDOW_END_S ≡ 1209600 }
    ensures rate { GREATEST_RATE ≡ 1000 }
    ensures moment_s { GREATEST_MOMENT_S ≡ pos 50000000 }
{}

/// Sound tables stay sound by edits that no rule refuses.
pub fn sound_after_edits()
    ensures { SoundAfterEdits }
{}

/// Where a rule refuses one of some edits, those before the first that is refused are accepted, and
/// the rule refuses it in the tables that they leave.
pub fn refused_is_first()
    ensures { RefusedIsFirst }
{}
