//! The decoder of JSON texts, fed with a whole text and byte by byte.
use lot_json::{Decoder, Json, JsonRefusal, parse};
use std::alloc::Global;
use std::test::Fail;

/// The offset of a refusal, with values in place of a tree and of want of memory.
fn offset(read: &Result<Json, JsonRefusal>) -> u64 {
    match read {
        Ok(_) => A_TREE,
        Err(JsonRefusal::Syntax(offset)) => *offset,
        Err(JsonRefusal::Memory) => NO_MEMORY,
    }
}

const A_TREE: u64 = u64::MAX;

const NO_MEMORY: u64 = u64::MAX - 1;

/// Texts, and what a decoder answers: a tree, or the length of the longest prefix that can become a text.
const TEXTS: [(&[u8], u64); 8] = [
    (br#"{"a":[1,-2.5e3,"\u00e9"]}"#, A_TREE),
    (b"\xEF\xBB\xBF [true]", A_TREE),
    (b"", 0),
    (b"01", 1),
    (b"[1]x", 3),
    (br#""\uD800""#, 7),
    (br#"{"w":1"#, 6),
    (b"[1,]", 3),
];

/// Feeds a decoder with the bytes one by one, also after a refusal.
fn read_by_bytes(alloc: Global, bytes: &[u8]) -> Result<Json, JsonRefusal> {
    let mut decoder = Decoder::new(alloc)?;
    for c in bytes {
        let _ = decoder.feed(&[*c]);
    }
    decoder.finish()
}

#[test]
fn pieces_make_no_difference(rt: HostRuntime) -> Result<(), Fail> {
    let alloc = rt.alloc();
    for (bytes, wanted) in TEXTS {
        assert_eq!(rt; offset(&parse(alloc, bytes)), wanted);
        assert_eq!(rt; offset(&read_by_bytes(alloc, bytes)), wanted);
    }
    Ok(())
}
