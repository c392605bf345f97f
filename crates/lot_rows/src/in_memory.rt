//! Runs over a folder and a sink in memory that never fail.
ghost use Rattle.std.specs.Prelude.{◌≡◌, ◌<◌, ◌⊎◌, ℕ, List, [], ◌∷◌, codes, IfOk, IsSome};
ghost use Rattle.lot_play.specs.Folder.{content_of};
ghost use Rattle.lot_play.specs.Output.{AreServed};
ghost use Rattle.lot_play.specs.Status.{IsComplete};
ghost use Rattle.lot_play.specs.declared.status.Status.TheVariants as status;

use crate::documents::{EMPTY, EMPTY_SVG, SOLID, SOLID_SVG};
use lot_play::{Status, SureFolder, SureSink, run};
use lot_types::{Memory, Seq, Steps, Text};
use std::alloc::Global;
use std::marker::Brand;
use std::sync::ledger::{Blank, Ledger};
use std::test::Fail;

/// The arguments that ask for a frame.
fn frame_arguments(alloc: Global, document: &str, time: &str) -> Result<Seq<Text>, Memory>
    ensures { IfOk result (λ list. list ≡ codes "frame" ∷ document.now ∷ time.now ∷ []) }
{
    let mut list = Seq::new(alloc);
    list.push(Text::of(alloc, "frame")?)?;
    list.push(Text::of(alloc, document)?)?;
    list.push(Text::of(alloc, time)?)?;
    Ok(list)
}

/// Runs the player, which is complete where there is memory.
fn run_counting<L: Ledger>(
    blank: Blank,
    alloc: Global,
    arguments: &Seq<Text>,
    folder: &mut SureFolder,
    out: &mut SureSink,
) -> Status
    requires name { blank.name ≡ L.name }
    requires parts { blank.parts ≡ L.parts }
    requires shared { 0 < L.parts }
    requires serves { AreServed (λ name. IsSome (content_of folder.old.entries name))
        arguments.now }
    ensures { IsComplete result ⊎ (result ≡ status.Memory) }
{
    let mut steps = Steps::<L>::new(blank);
    run(alloc, arguments, folder, out, &mut steps)
}

/// Draws the first frame of a document that a folder in memory contains after an earlier content of the same name.
fn draw(alloc: Global, earlier: &str, document: &str, out: &mut SureSink) -> Result<Status, Memory>
    ensures { IfOk result (λ ended. IsComplete ended ⊎ (ended ≡ status.Memory)) }
{
    let arguments = frame_arguments(alloc, "a.json", "0")?;
    let mut folder = SureFolder::new(alloc);
    folder.hold("a.json", earlier.as_bytes())?;
    folder.hold("a.json", document.as_bytes())?;
    Ok(run_counting::<Brand>(Blank::new(1), alloc, &arguments, &mut folder, out))
}

#[test]
fn frames_follow_one_another_in_memory(rt: HostRuntime) -> Result<(), Fail> {
    let alloc = rt.alloc();
    let mut out = SureSink::new(alloc);
    assert_eq!(rt; draw(alloc, SOLID, EMPTY, &mut out)?, Status::Done);
    assert_eq!(rt; out.taken(), EMPTY_SVG.as_bytes());
    assert_eq!(rt; draw(alloc, EMPTY, SOLID, &mut out)?, Status::Done);
    assert_eq!(rt; out.taken().len(), 105 + 163);
    assert!(rt; out.taken().starts_with(EMPTY_SVG.as_bytes()));
    assert!(rt; out.taken().ends_with(SOLID_SVG.as_bytes()));
    Ok(())
}
