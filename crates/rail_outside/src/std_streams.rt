//! Standard input and standard output.
use crate::{FromReader, ToWriter};
use std::io::{Stdin, Stdout};

/// Standard input. The stream behind it doesn't tell what it has left.
pub type StdSource = FromReader<Stdin>;

/// Standard output. The stream behind it doesn't tell what it holds.
pub type StdSink = ToWriter<Stdout>;
