//! What an input that is not refused gives to a command.
use line_tables::LineTables;
use plan_model::Scripts;

// The tables after the edits of the base, the number of these edits, and the scripts of planners.
#[derive(Drop)]
pub(crate) struct Accepted {
    pub(crate) tables: LineTables,
    pub(crate) at: u64,
    pub(crate) scripts: Scripts,
}
