//! A reader as a source and a writer as a sink. They tell the bytes that the reader and the writer tell,
//! which standard input and output do not.

ghost use Rattle.std.specs.Prelude.{◌≡◌};

use log_base::{Failed, Sink, Source};
use std::io::{Read, Write};

/// A reader as a source, with a count of its errors.
#[derive(Drop)]
pub struct Reading<R: Read + Drop> {
    inner: R,
    faults: u64,
}

impl<R: Read + Drop> Reading<R> {
    /// A source of what a reader gives, with no fault so far.
    pub fn new(inner: R) -> Reading<R>
        ensures { result ≡ record { inner = inner; faults = 0 } }
    {
        Reading { inner, faults: 0 }
    }
}

impl<R: Read + Drop> Source for Reading<R> {
    ghost left = { λ s. R.remaining s.inner };

    ghost faults = { λ s. s.faults };

    fn read(&mut self, buf: &mut [u8]) -> Result<usize, Failed> {
        match self.inner.read(buf) {
            Ok(count) => Ok(count),
            Err(_) => {
                self.faults = self.faults.saturating_add(1);
                Err(Failed)
            }
        }
    }
}

/// A writer as a sink, with a count of its errors. A write of nothing counts as an error.
#[derive(Drop)]
pub struct Writing<W: Write + Drop> {
    inner: W,
    faults: u64,
}

impl<W: Write + Drop> Writing<W> {
    /// A sink into a writer, with no fault so far.
    pub fn new(inner: W) -> Writing<W>
        ensures { result ≡ record { inner = inner; faults = 0 } }
    {
        Writing { inner, faults: 0 }
    }
}

impl<W: Write + Drop> Sink for Writing<W> {
    ghost taken = { λ s. W.contents s.inner };

    ghost faults = { λ s. s.faults };

    fn write(&mut self, bytes: &[u8]) -> Result<usize, Failed> {
        match self.inner.write(bytes) {
            Ok(count) if count > 0 => Ok(count),
            _ => {
                self.faults = self.faults.saturating_add(1);
                Err(Failed)
            }
        }
    }
}
