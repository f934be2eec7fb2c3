//! What the words of a call ask for.
ghost use Rattle.std.specs.Prelude.{◌≡◌, ◌≤◌, map, IfOk, IfSome};
ghost use Rattle.std.specs.String.{string_bytes};
ghost use Rattle.rail_model.specs.Name.{name_of};
ghost use Rattle.session_run.specs.declared.threads.TheConstants.{WORKERS};
ghost use Rattle.capacity_cmd.specs.Command.{command_of, short_command_of, workers_in, workers_of, workers_asked, planners_of, made_of, IsRead, delays_of};
ghost use Rattle.capacity_cmd.specs.declared.command.Command.TheVariants as command;

use crate::given_delay::{GivenDelay, are_delays, delays_of};
use plan_book::PLANNERS;
use rail_model::{List, Name, OutOfMemory};
use row_text::number;
use session_run::WORKERS;
use std::alloc::Global;

/// A command of the program. A section and a run are named by any one word: a word that is no name
/// names none, and stands here as `None`, as do delays of which one is given to such a word.
#[derive(Drop)]
pub enum Command {
    /// Writes the blocking times of every run: the word `stairs`.
    Stairs,
    /// Writes the conflicts of the timetable: the word `check`.
    Check,
    /// Writes the answer of a section with its trains and the chain of its critical train: the
    /// words `compress` and NAME.
    Compress(Option<Name>),
    /// Writes the head of every section's answer and a total: the word `report`.
    Report,
    /// Writes the headways of a section's trains, or of a crowded one how many these are: the words
    /// `headways` and NAME.
    Headways(Option<Name>),
    /// Writes the fewest orderly pieces of a section, or of a crowded one how many trains it has:
    /// the words `cut` and NAME.
    Cut(Option<Name>),
    /// Writes the least time after which a section's trains can come again and again, with a ring
    /// of trains that allows no less: the words `cycle` and NAME.
    Cycle(Option<Name>),
    /// Spreads delays over the planned timetable of a section, and writes the knock-on delays: the
    /// words `delays`, NAME and 1 to 64 pairs of RUN and SECONDS.
    Delays(Option<Name>, Option<List<GivenDelay>>),
    /// Writes how many more trains fit into a section, copies of one of its trains: the words
    /// `fill`, NAME and RUN.
    Fill(Option<Name>, Option<Name>),
    /// Runs planners' scripts with so many workers, and writes the journal and the report of the
    /// tables at its end: the words `session` and a number from 0 to 16, in one or two digits. With
    /// workers each planner and each worker has a thread of its own.
    Session(u32),
}

impl Command {
    // How many planners' scripts the command takes.
    pub(crate) fn planners(&self) -> usize
        ensures { result ≡ planners_of self.now }
    {
        match self {
            Command::Session(_) => PLANNERS,
            Command::Stairs | Command::Check | Command::Report => 0,
            Command::Compress(_) | Command::Headways(_) | Command::Cut(_) => 0,
            Command::Cycle(_) | Command::Delays(_, _) | Command::Fill(_, _) => 0,
        }
    }

    // How many workers the command has.
    fn workers(&self) -> u32
        ensures { result ≡ workers_of self.now }
    {
        match self {
            Command::Session(workers) => *workers,
            Command::Stairs | Command::Check | Command::Report => 0,
            Command::Compress(_) | Command::Headways(_) | Command::Cut(_) => 0,
            Command::Cycle(_) | Command::Delays(_, _) | Command::Fill(_, _) => 0,
        }
    }
}

// The command that the words spell, if they spell one. Only for one that they spell memory may run
// out.
pub(crate) fn command_of(alloc: Global, words: &[String]) -> Result<Option<Command>, OutOfMemory>
    ensures { IsRead (command_of (map string_bytes words.now)) result }
{
    match words {
        [word, section, given @ ..] if word.as_str() == "delays" && are_delays(given) => {
            let command = delays_command(alloc, name_of(section), given)?;
            Ok(Some(command))
        }
        _ => Ok(short_command_of(words)),
    }
}

fn delays_command(
    alloc: Global,
    section: Option<Name>,
    given: &[String],
) -> Result<Command, OutOfMemory>
    ensures { IfOk result (λ made.
        made ≡ command.Delays section (delays_of (map string_bytes given.now))) }
{
    Ok(Command::Delays(section, delays_of(alloc, given)?))
}

// The command that up to three words spell, if they spell one.
fn short_command_of(words: &[String]) -> Option<Command>
    ensures spelled { result ≡ short_command_of (map string_bytes words.now) }
    ensures workers { IfSome result (λ command. workers_of command ≤ WORKERS) }
{
    match words {
        [word] if word.as_str() == "stairs" => Some(Command::Stairs),
        [word] if word.as_str() == "check" => Some(Command::Check),
        [word] if word.as_str() == "report" => Some(Command::Report),
        [word, section] if word.as_str() == "compress" => Some(Command::Compress(name_of(section))),
        [word, section] if word.as_str() == "headways" => Some(Command::Headways(name_of(section))),
        [word, section] if word.as_str() == "cut" => Some(Command::Cut(name_of(section))),
        [word, section] if word.as_str() == "cycle" => Some(Command::Cycle(name_of(section))),
        [word, workers] if word.as_str() == "session" => {
            workers_in(workers).map(Command::Session)
        }
        [word, section, run] if word.as_str() == "fill" => {
            Some(Command::Fill(name_of(section), name_of(run)))
        }
        _ => None,
    }
}

// How many workers the words ask for: those of a session, and none where they spell another command
// or no command.
pub(crate) fn workers_asked(words: &[String]) -> u32
    ensures asked { result ≡ workers_asked (command_of (map string_bytes words.now)) }
    ensures most { result ≤ WORKERS }
{
    match short_command_of(words) {
        Some(command) => command.workers(),
        None => 0,
    }
}

// The number from which the words ask for a line to be made, if they do.
pub(crate) fn made_of(words: &[String]) -> Option<u32>
    ensures { result ≡ made_of (map string_bytes words.now) }
{
    match words {
        [word, n] if word.as_str() == "made" => number(n.as_bytes()),
        _ => None,
    }
}

// The number of workers that a word says, if it is one.
fn workers_in(word: &str) -> Option<u32>
    ensures said { result ≡ workers_in word.now }
    ensures most { IfSome result (λ workers. workers ≤ WORKERS) }
{
    if word.len() > 2 {
        return None;
    }
    let workers = number(word.as_bytes())?;
    if workers > WORKERS {
        return None;
    }
    Some(workers)
}

// The name that a word is, if it is one.
fn name_of(word: &str) -> Option<Name>
    ensures { result ≡ name_of word.now }
{
    Name::read(word.as_bytes()).ok()
}
