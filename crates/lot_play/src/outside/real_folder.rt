//! The files of this machine, and standard input.
ghost use Rattle.std.specs.Prelude.{◌≡◌, ◌≢◌, ◌≤◌, ◌↔◌, length, codes, None, IfOk, IsErr, OnErr, MatchOption, MatchResult, Ok, IsTrue, ⊤};
ghost use Rattle.lot_play.specs.RealFolder.{IsOpenAt, IsOpenAfter, IsNextAfter, no_content};

use crate::outside::Folder;
use lot_types::{Failed, Memory, Text};
use std::fs;
use std::io::{self, Read, Seek, SeekFrom};
use std::rt::Files;

/// The files of this machine by their paths, and standard input by the name `-`.
///
/// A file stays open for the read that goes on where the last one ended; a read of another name, or at another place,
/// opens its file anew and skips to the place. Standard input can only be read in sequence: a read at another place
/// than where the last one ended is a fault.
///
/// What a file contains is not known to contracts. Want of memory within the folder is a fault of it.
#[derive(Drop)]
pub struct RealFolder<R: Files + Input + AllocGlobal + Drop> {
    rt: R,
    /// The file that is open.
    current: Option<OpenFile<R::File>>,
    /// How many bytes of standard input were read.
    input: u64,
    faults: u64,
    given: u64,
}

/// A file that is open, by its name, and the place of the next byte that it gives.
#[derive(Drop)]
struct OpenFile<T> {
    name: Text,
    place: u64,
    file: T,
}

impl<R: Files + Input + AllocGlobal + Drop> RealFolder<R> {
    /// Makes the folder of a runtime, of which nothing was read.
    pub fn new(rt: R) -> RealFolder<R>
        ensures current { result.current ≡ None }
        ensures input { result.input ≡ 0 }
        ensures faults { result.faults ≡ 0 }
        ensures given { result.given ≡ 0 }
    {
        RealFolder {
            rt,
            current: None,
            input: 0,
            faults: 0,
            given: 0,
        }
    }

    /// Reads from standard input.
    fn read_input(&mut self, from: u64, buf: &mut [u8]) -> Result<usize, Failed>
        ensures within { IfOk result (λ n. n ≤ length buf.old) }
        ensures elsewhere { from ≢ self.old.input → IsErr result }
        ensures next { IfOk result (λ n. IsNextAfter n self.old.input self.new.input) }
        ensures refused { OnErr result (self.new.input ≡ self.old.input) }
        ensures file { self.new.current ≡ self.old.current }
        ensures faults { self.new.faults ≡ self.old.faults }
        ensures given { self.new.given ≡ self.old.given }
    {
        if from != self.input {
            return Err(Failed);
        }
        let mut input = self.rt.reader();
        let n = answer_of(input.read(buf))?;
        self.input = self.input.saturating_add(n as u64);
        Ok(n)
    }

    /// Reads from a file, which is opened where it is not open at the place already. It stays open after a read, at
    /// the place after what was read; one whose read failed is closed.
    fn read_file(&mut self, name: &str, from: u64, buf: &mut [u8]) -> Result<usize, Failed>
        ensures within { IfOk result (λ n. n ≤ length buf.old) }
        ensures stays_open { IfOk result (λ n. MatchOption self.new.current ⊥
            (λ file. IsOpenAfter n name.now from file.name file.place)) }
        ensures closed { IsErr result → self.new.current ≡ None }
        ensures input { self.new.input ≡ self.old.input }
        ensures faults { self.new.faults ≡ self.old.faults }
        ensures given { self.new.given ≡ self.old.given }
    {
        let opened = match self.current.take() {
            Some(file) if file.is_at(name, from) => Ok(file),
            _ => open_at(&self.rt, name, from),
        };
        let (current, read) = read_next(opened, buf);
        self.current = current;
        read
    }

    /// Reads from standard input under the name `-`, and from a file under any other.
    fn read_named(&mut self, name: &str, from: u64, buf: &mut [u8]) -> Result<usize, Failed>
        ensures within { IfOk result (λ n. n ≤ length buf.old) }
        ensures input { name.now ≡ codes "-" → self.new.current ≡ self.old.current }
        ensures file { name.now ≢ codes "-" → self.new.input ≡ self.old.input }
        ensures faults { self.new.faults ≡ self.old.faults }
        ensures given { self.new.given ≡ self.old.given }
    {
        if name == "-" {
            self.read_input(from, buf)
        } else {
            self.read_file(name, from, buf)
        }
    }
}

impl<T> OpenFile<T> {
    /// Whether the next byte of the file is that of the named content at this place.
    fn is_at(&self, name: &str, place: u64) -> bool
        ensures { IsTrue result ↔ IsOpenAt name.now place self.now.name self.now.place }
    {
        self.name.as_str() == name && self.place == place
    }
}

/// Opens a file at a place. A file that is not there, or that cannot be read from that place on, is a fault.
fn open_at<R: Files + AllocGlobal>(
    rt: &R,
    name: &str,
    place: u64,
) -> Result<OpenFile<R::File>, Failed>
    ensures { IfOk result (λ opened. IsOpenAt name.now place opened.name opened.place) }
{
    let mut file = answer_of(fs::open(rt, name))?;
    if place > 0 {
        answer_of(file.seek(SeekFrom::Start(place)))?;
    }
    let name = match Text::of(rt.alloc(), name) {
        Ok(name) => name,
        Err(Memory) => return Err(Failed),
    };
    Ok(OpenFile { name, place, file })
}

/// Reads the next bytes of a file that was opened, and returns it with its new place. A file that could not be opened
/// is a fault, and no empty file; one whose read failed is closed.
fn read_next<T: Read + Drop>(
    opened: Result<OpenFile<T>, Failed>,
    buf: &mut [u8],
) -> (Option<OpenFile<T>>, Result<usize, Failed>)
    ensures missing { IsErr opened → IsErr result.1 }
    ensures within { IfOk result.1 (λ n. n ≤ length buf.old) }
    ensures stays_open { IfOk opened (λ file. IfOk result.1 (λ n. MatchOption result.0 ⊥
        (λ next. IsOpenAfter n file.name file.place next.name next.place))) }
    ensures closed { IsErr result.1 → result.0 ≡ None }
{
    let mut file = match opened {
        Ok(file) => file,
        Err(Failed) => return (None, Err(Failed)),
    };
    match answer_of(file.file.read(buf)) {
        Ok(n) => {
            file.place = file.place.saturating_add(n as u64);
            (Some(file), Ok(n))
        }
        Err(Failed) => (None, Err(Failed)),
    }
}

/// The answer of the folder to what the system answered to a call: an error is a fault, and a missing file is no empty
/// one.
fn answer_of<T: Drop>(answer: io::Result<T>) -> Result<T, Failed>
    ensures { MatchResult answer (λ x. result ≡ Ok x) (λ _. IsErr result) }
{
    match answer {
        Ok(x) => Ok(x),
        Err(_) => Err(Failed),
    }
}

impl<R: Files + Input + AllocGlobal + Drop> Folder for RealFolder<R> {
    ghost state = { λ f. record { content = no_content; faults = f.faults; given = f.given } };

    ghost serves = { λ _ _. ⊤ };

    fn read(&mut self, name: &str, from: u64, buf: &mut [u8]) -> Result<usize, Failed> {
        let read = self.read_named(name, from, buf);
        match read {
            Ok(n) => self.given = self.given.saturating_add(n as u64),
            Err(_) => self.faults = self.faults.saturating_add(1),
        }
        read
    }
}
