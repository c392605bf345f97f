//! The program `lottie`: validates Lottie animations, plays them, and writes their frames as SVG 1.1.
//!
//! `main` only makes the real folder and sink, calls the player with the arguments after the program's name, and ends
//! with the number of its status.
#![tactic(auto)]

ghost use Rattle.std.specs.Prelude.{◌≡◌, ◌<◌, ◌⊎◌, [], ◌∷◌, ◌++◌, IfErr, OnOk, OnErr};
ghost use Rattle.std.specs.Process.{exit_status};
ghost use Rattle.lot_play.specs.Status.{status_number};
ghost use Rattle.lot_play.specs.declared.status.Status.TheVariants as status;

use lot_play::{RealFolder, RealSink, Status, run};
use lot_types::{Memory, Seq, Steps, Text};
use std::alloc::Global;
use std::env;
use std::io::ErrorKind;
use std::marker::Brand;
use std::process::ExitCode;
use std::rt::Env;
use std::sync::ledger::{Blank, Ledger};

/// The status with which the program ends where its arguments are no text in UTF-8. No run has it.
const NO_ARGUMENTS: u8 = 8;

/// Reads the arguments after the program's name. Where they cannot be had it answers the number with which the program
/// ends: that of [`Status::Memory`] for want of memory, and 8 otherwise.
fn read_arguments(rt: &(impl Env + AllocGlobal)) -> Result<Seq<Text>, u8>
    ensures { IfErr result (λ number.
        (number ≡ status_number status.Memory) ⊎ (number ≡ NO_ARGUMENTS)) }
{
    let alloc = rt.alloc();
    let mut arguments = Seq::new(alloc);
    let found = match env::args(rt) {
        Ok(found) => found,
        Err(e) if e.kind() == ErrorKind::OutOfMemory => return Err(Status::Memory.number()),
        Err(_) => return Err(NO_ARGUMENTS),
    };
    for argument in found.skip(1) {
        if push_text(&mut arguments, alloc, argument.as_str()).is_err() {
            return Err(Status::Memory.number());
        }
    }
    Ok(arguments)
}

/// Adds a copy of a text at the end of a list. Where there is no memory the list is as before.
fn push_text(list: &mut Seq<Text>, alloc: Global, text: &str) -> Result<(), Memory>
    ensures ok { OnOk result (list.new ≡ list.old ++ text.now ∷ []) }
    ensures err { OnErr result (list.new ≡ list.old) }
{
    list.push(Text::of(alloc, text)?)
}

/// Runs the player on the real folder and sink, with a counter of evaluations that nobody reads.
fn run_real<L: Ledger>(blank: Blank, rt: &HostRuntime, arguments: &Seq<Text>) -> Status
    requires name { blank.name ≡ L.name }
    requires parts { blank.parts ≡ L.parts }
    requires shared { 0 < L.parts }
{
    let mut folder = RealFolder::new(rt);
    let mut sink = RealSink::new(rt);
    let mut steps = Steps::<L>::new(blank);
    run(rt.alloc(), arguments, &mut folder, &mut sink, &mut steps)
}

/// The exit code of the program for a status: its number.
fn exit_code(status: Status) -> ExitCode
    ensures { exit_status result ≡ status_number status }
{
    ExitCode::from(status.number())
}

fn main(rt: HostRuntime) -> ExitCode {
    let arguments = match read_arguments(&rt) {
        Ok(arguments) => arguments,
        Err(number) => return ExitCode::from(number),
    };
    exit_code(run_real::<Brand>(Blank::new(1), &rt, &arguments))
}
