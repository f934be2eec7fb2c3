//! A source and a sink whose counts of faults stand at their last value, where they show no fault.
ghost use Rattle.std.specs.Prelude.{◌-◌, ◌^◌};

use rail_outside::{Failed, Sink, Source};

#[derive(Drop)]
pub(crate) struct WornSource<S> {
    pub(crate) source: S,
}

impl<S: Source> Source for WornSource<S> {
    ghost given = { λ s. S.given s.source };

    ghost left = { λ s. S.left s.source };

    ghost ended = { λ s. S.ended s.source };

    ghost faults = { λ s. 2 ^ 64 - 1 };

    ghost at_fault = { λ s. S.at_fault s.source };

    fn read(&mut self, into: &mut [u8]) -> Result<usize, Failed> {
        self.source.read(into)
    }
}

#[derive(Drop)]
pub(crate) struct WornSink<K> {
    pub(crate) sink: K,
}

impl<K: Sink> Sink for WornSink<K> {
    ghost taken = { λ s. K.taken s.sink };

    ghost written = { λ s. K.written s.sink };

    ghost flushed = { λ s. K.flushed s.sink };

    ghost faults = { λ s. 2 ^ 64 - 1 };

    fn write(&mut self, from: &[u8]) -> Result<usize, Failed> {
        self.sink.write(from)
    }

    fn flush(&mut self) -> Result<(), Failed> {
        self.sink.flush()
    }
}
