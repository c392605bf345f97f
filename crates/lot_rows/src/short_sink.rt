//! A sink that takes short pieces, whose writes can fail, and runs of the player on it.
ghost use Rattle.std.specs.Prelude.{◌≡◌, ◌^◌, ◌<◌, ◌≤◌, Some};

use crate::one_file::OneFile;
use lot_play::{Sink, SinkRefusal, Status, run};
use lot_types::{Bytes, Memory, Seq, Steps, Text};
use std::alloc::Global;
use std::marker::Brand;
use std::sync::ledger::{Blank, Ledger};

/// A sink that takes at most a given number of bytes a write, and of which one write fails.
#[derive(Drop)]
pub struct ShortSink {
    pub taken: Bytes,
    most: usize,
    fails_at: u64,
    pub writes: u64,
    faults: u64,
    ghost takes_some: { 0 < most },
}

impl ShortSink {
    /// Makes a sink of which no write fails.
    pub fn new(alloc: Global, most: usize) -> ShortSink
        requires { 0 < most }
    {
        ShortSink::failing(alloc, most, 0)
    }

    /// Makes a sink of which the write of this number fails, counted from 1.
    pub fn failing(alloc: Global, most: usize, fails_at: u64) -> ShortSink
        requires { 0 < most }
    {
        ShortSink {
            taken: Bytes::new(alloc),
            most,
            fails_at,
            writes: 0,
            faults: 0,
        }
    }

    /// Returns what was taken, as a text.
    pub fn text(&self) -> &str {
        match str::from_utf8(self.taken.as_slice()) {
            Ok(text) => text,
            Err(_) => "bytes that are no text",
        }
    }
}

impl Sink for ShortSink {
    ghost state = { λ s. record { taken = Some s.taken; faults = s.faults } };

    fn write(&mut self, bytes: &[u8]) -> Result<usize, SinkRefusal> {
        self.writes = self.writes.saturating_add(1);
        if self.writes == self.fails_at {
            self.faults = self.faults.saturating_add(1);
            return Err(SinkRefusal::Failed);
        }
        let n = bytes.len().min(self.most);
        self.taken.append(&bytes[..n])?;
        Ok(n)
    }
}

fn list_of(alloc: Global, arguments: &[&str]) -> Result<Seq<Text>, Memory> {
    let mut list = Seq::new(alloc);
    for argument in arguments {
        list.push(Text::of(alloc, argument)?)?;
    }
    Ok(list)
}

fn run_counting<L: Ledger>(
    blank: Blank,
    alloc: Global,
    arguments: &Seq<Text>,
    folder: &mut OneFile<'_>,
    out: &mut ShortSink,
) -> Status
    requires name { blank.name ≡ L.name }
    requires parts { blank.parts ≡ L.parts }
    requires shared { 0 < L.parts }
{
    let mut steps = Steps::<L>::new(blank);
    run(alloc, arguments, folder, out, &mut steps)
}

/// Runs the player on its arguments.
pub fn run_on(
    alloc: Global,
    arguments: &[&str],
    folder: &mut OneFile<'_>,
    out: &mut ShortSink,
) -> Result<Status, Memory> {
    let arguments = list_of(alloc, arguments)?;
    Ok(run_counting::<Brand>(Blank::new(1), alloc, &arguments, folder, out))
}
