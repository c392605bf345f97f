//! The real folder over files of this machine.
use lot_play::{Folder, RealFolder};
use lot_types::Failed;
use std::fs;
use std::test::Fail;

/// What a read answers, with what is given in place of a fault.
fn answer(read: Result<usize, Failed>) -> usize {
    match read {
        Ok(n) => n,
        Err(Failed) => FAULT,
    }
}

const FAULT: usize = usize::MAX;

/// Reads at places: one file on and on, another, the first again at an earlier place, past its end; a file that is not
/// there, at its start and later; standard input at another place than where its last read ended.
const READS: [(&str, u64, usize, &[u8]); 9] = [
    ("real_files_a.txt", 0, 2, b"ab"),
    ("real_files_a.txt", 2, 2, b"cd"),
    ("real_files_b.txt", 1, 2, b"yz"),
    ("real_files_a.txt", 4, 1, b"ez"),
    ("real_files_a.txt", 1, 2, b"bc"),
    ("real_files_a.txt", 9, 0, b"bc"),
    ("real_files_no.txt", 0, FAULT, b"bc"),
    ("real_files_no.txt", 3, FAULT, b"bc"),
    ("-", 1, FAULT, b"bc"),
];

#[test]
fn files_are_read_at_the_place_that_is_asked_for(rt: HostRuntime) -> Result<(), Fail> {
    fs::write(&rt, "real_files_a.txt", b"abcde")?;
    fs::write(&rt, "real_files_b.txt", b"xyz")?;
    let mut folder = RealFolder::new(&rt);
    let mut buf = [0; 2];
    for (name, from, n, bytes) in READS {
        assert_eq!(rt; answer(folder.read(name, from, &mut buf)), n);
        assert_eq!(rt; buf.as_slice(), bytes);
    }
    fs::remove_file(&rt, "real_files_a.txt")?;
    fs::remove_file(&rt, "real_files_b.txt")?;
    Ok(())
}
