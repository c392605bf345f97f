//! Reads and writes of short pieces, and one that fails, at each call in turn.
use crate::documents::{SOLID, SOLID_SVG};
use crate::one_file::OneFile;
use crate::short_sink::{ShortSink, run_on};
use lot_play::Status;
use std::test::Fail;

#[test]
fn short_pieces_give_the_whole_frame(rt: HostRuntime) -> Result<(), Fail> {
    let alloc = rt.alloc();
    let mut folder = OneFile::new(SOLID.as_bytes(), 5);
    let mut sink = ShortSink::new(alloc, 7);
    let ended = run_on(alloc, &["frame", "-", "0"], &mut folder, &mut sink)?;
    assert_eq!(rt; ended, Status::Done);
    assert_eq!(rt; sink.text(), SOLID_SVG);
    Ok(())
}

/// The document has 112 bytes: twelve reads of at most ten bytes, and one that finds its end.
#[test]
fn each_failing_read_ends_the_run_with_no_bytes(rt: HostRuntime) -> Result<(), Fail> {
    let alloc = rt.alloc();
    assert_eq!(rt; SOLID.len(), 112);
    for n in 1..14 {
        let mut folder = OneFile::failing(SOLID.as_bytes(), 10, n);
        let mut sink = ShortSink::new(alloc, 4096);
        let ended = run_on(alloc, &["frame", "-", "0"], &mut folder, &mut sink)?;
        assert_eq!(rt; ended, Status::ReadFault);
        assert_eq!(rt; sink.writes, 0);
    }
    Ok(())
}

/// The frame has 163 bytes: five writes of at most forty bytes.
#[test]
fn each_failing_write_leaves_a_prefix_of_the_frame(rt: HostRuntime) -> Result<(), Fail> {
    let alloc = rt.alloc();
    for n in 1..6 {
        let mut folder = OneFile::new(SOLID.as_bytes(), 4096);
        let mut sink = ShortSink::failing(alloc, 40, n);
        let ended = run_on(alloc, &["frame", "-", "0"], &mut folder, &mut sink)?;
        assert_eq!(rt; ended, Status::WriteFault);
        let taken = sink.taken.as_slice();
        assert_eq!(rt; taken.len() as u64, 40 * (n - 1));
        assert!(rt; SOLID_SVG.as_bytes().starts_with(taken));
    }
    Ok(())
}
