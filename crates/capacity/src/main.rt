//! The program: its words, standard input and standard output, and lines for people on standard
//! error, mostly where it doesn't end with status 0.
//!
//! `end_of_call` makes the one call and turns its status into the exit code. `main` can't end
//! otherwise, since an `Ended` comes from nowhere else.
#![tactic(auto)]

mod program;
mod sentence;

use program::{Ended, end_of_call};
use rail_outside::{StdSink, StdSource, StdWords};
use std::env;

fn main(rt: HostRuntime) -> Ended {
    end_of_call(
        &rt,
        &StdWords::of(rt.alloc(), env::args(&rt)),
        &mut StdSource::of(rt.stdin()),
        &mut StdSink::of(rt.stdout()),
    )
}
