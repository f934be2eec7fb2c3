//! How much there is of the made line.
ghost use Rattle.std.specs.Prelude.{◌≡◌, length, count_by, sum_by};
ghost use Rattle.made_line.specs.Base.{base_edits, scripts_of_made, is_edit};

/// How many edits put the base together: 64 blocks, 64 signals, a route, 300 runs and 8 sections.
/// It is the number of the last edit before the scripts.
pub const BASE_EDITS: u64 = 437;

/// How many planners have scripts.
pub const PLANNERS: u32 = 4;

/// How many workers answer meanwhile.
pub const WORKERS: u32 = 4;

/// How many of the scripts' tasks are edits: 16 of each planner.
pub const SCRIPT_EDITS: u64 = 64;

/// How many edits the base has, how many scripts there are, how many tasks in all, and how many of
/// these are edits; and how many workers. This function does nothing: its contract is the law.
pub fn made_counts(n: u32)
    ensures base { length (base_edits n) ≡ BASE_EDITS }
    ensures planners { length (scripts_of_made n) ≡ PLANNERS }
    ensures tasks { sum_by length (scripts_of_made n) ≡ 128 }
    ensures edits { sum_by (count_by is_edit) (scripts_of_made n) ≡ SCRIPT_EDITS }
    ensures workers { WORKERS ≡ 4 }
{}
