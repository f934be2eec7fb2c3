//! The delays that the words of a call give.
ghost use Rattle.std.specs.Prelude.{◌≡◌, ◌+◌, ◌*◌, ◌<◌, ◌≤◌, length, map, is_some, IfOk};
ghost use Rattle.std.specs.String.{string_bytes};
ghost use Rattle.delay_spread.specs.declared.spreading.TheConstants.{GREATEST_DELAY_S};
ghost use Rattle.capacity_cmd.specs.declared.given_delay.TheConstants.{DELAY_DIGITS};
ghost use Rattle.capacity_cmd.specs.Command.{seconds_of, is_among_runs, are_pairs, are_delays, given_delay, pair_at, delays_of};

use delay_spread::GREATEST_DELAY_S;
use rail_model::{List, Name, OutOfMemory};
use row_text::number;
use std::alloc::Global;
use std::marker::Model;

/// The most delays that words give.
pub const GIVEN_DELAYS: usize = 64;

/// The greatest number of digits of a delay.
pub const DELAY_DIGITS: usize = 5;

/// A delay that is given: seconds, at most `GREATEST_DELAY_S`.
#[derive(Clone, Copy)]
pub struct Delay {
    seconds: u32,
}

impl Model for Delay {
    ghost use Rattle.std.specs.Prelude.{◌≤◌, ℕ};
    ghost use Rattle.delay_spread.specs.declared.spreading.TheConstants.{GREATEST_DELAY_S};

    ghost Value = { ℕ };

    ghost view = { λ d. d.seconds };

    ghost invariant = { λ d. d.seconds ≤ GREATEST_DELAY_S };

    ghost inverse = { λ seconds. record { seconds = seconds } };
}

impl Delay {
    fn none() -> Delay
        ensures { result ≡ 0 }
    {
        Delay { seconds: 0 }
    }

    // The delay that a word of one to five digits says.
    fn read(word: &[u8]) -> Option<Delay>
        ensures { result ≡ seconds_of word.now }
    {
        if word.len() > DELAY_DIGITS {
            return None;
        }
        match number(word) {
            Some(seconds) if seconds <= GREATEST_DELAY_S => Some(Delay { seconds }),
            _ => None,
        }
    }

    /// The delay in seconds, at most `GREATEST_DELAY_S`.
    pub fn seconds(&self) -> u32
        ensures same { result ≡ self.now }
        ensures limit { result ≤ GREATEST_DELAY_S }
    {
        self.seconds
    }
}

/// A delay that words give to the run of a name.
#[derive(Clone, Copy)]
pub struct GivenDelay {
    pub run: Name,
    pub delay: Delay,
}

// Whether words give delays: 1 to 64 pairs of a run's word and its delay's, no run's word twice.
pub(crate) fn are_delays(words: &[String]) -> bool
    ensures { result ≡ are_delays (map string_bytes words.now) }
{
    !words.is_empty() && words.len() <= 2 * GIVEN_DELAYS && are_pairs(words)
}

// Whether words are pairs of a run's word and its delay's, however many, no run's word twice.
fn are_pairs(words: &[String]) -> bool
    ensures { result ≡ are_pairs (map string_bytes words.now) }
{
    match words {
        [] => true,
        [_] => false,
        [run, delay, more @ ..] => {
            if !is_delay(delay) {
                return false;
            }
            if is_among_runs(run, more) {
                return false;
            }
            are_pairs(more)
        }
    }
}

// Whether a word stands where pairs of words name a run.
fn is_among_runs(run: &str, words: &[String]) -> bool
    ensures { result ≡ is_among_runs run.now (map string_bytes words.now) }
{
    match words {
        [other, _, more @ ..] => run == other.as_str() || is_among_runs(run, more),
        _ => false,
    }
}

// Whether a word says a delay.
fn is_delay(word: &str) -> bool
    ensures { result ≡ is_some (seconds_of word.now) }
{
    Delay::read(word.as_bytes()).is_some()
}

// The delays that pairs of words give, or that some word of a run is no name.
pub(crate) fn delays_of(
    alloc: Global,
    words: &[String],
) -> Result<Option<List<GivenDelay>>, OutOfMemory>
    ensures { IfOk result (λ delays. delays ≡ delays_of (map string_bytes words.now)) }
{
    let mut delays = List::new(alloc);
    for k in 0..words.len() / 2 {
        match pair_at(words, k) {
            Some(given) => delays.push(given)?,
            None => return Ok(None),
        }
    }
    Ok(Some(delays))
}

// What the pair of a number gives, counted from 0, if its run's word is a name.
fn pair_at(words: &[String], k: usize) -> Option<GivenDelay>
    requires { 2 * k + 1 < length words.now }
    ensures { result ≡ pair_at (map string_bytes words.now) k }
{
    given_delay(&words[2 * k], &words[2 * k + 1])
}

fn given_delay(run: &str, delay: &str) -> Option<GivenDelay>
    ensures { result ≡ given_delay run.now delay.now }
{
    match Name::read(run.as_bytes()).ok() {
        Some(run) => Some(GivenDelay {
            run,
            delay: Delay::read(delay.as_bytes()).unwrap_or(Delay::none()),
        }),
        None => None,
    }
}
