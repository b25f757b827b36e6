// Two sheets of one block each, and the sheet that both are side by side, written out by hand.
use crate::{joined_law, measure, stitch};
use std::alloc::{AllocError, Global};
use std::test::Fail;

// A line of this head and 64 such fields.
fn push_line(text: &mut Vec<u8>, head: &[u8], field: &[u8]) -> Result<(), AllocError> {
    text.extend_from_slice(head)?;
    for _ in 0..64 {
        text.extend_from_slice(field)?;
    }
    text.extend_from_slice(b"\n")
}

// A sheet of this width, whose only channel has these blocks.
fn sheet(alloc: Global, width: &[u8], blocks: &[&[u8]]) -> Result<Vec<u8>, AllocError> {
    let mut text = Vec::new(alloc);
    text.extend_from_slice(b"S\t")?;
    text.extend_from_slice(width)?;
    text.extend_from_slice(b"\t8\t")?;
    text.extend_from_slice(width)?;
    text.extend_from_slice(b"\t8\t1\ts\t0\t0\t0\tw0\tw0\tw0\tw0\tw0\tw0\nC\t")?;
    text.extend_from_slice(width)?;
    push_line(&mut text, b"\t8\t1\t1", b"\t8")?;
    for &block in blocks {
        push_line(&mut text, b"B", block)?;
    }
    text.extend_from_slice(b"E\n")?;
    Ok(text)
}

#[test]
fn joins(rt: HostRuntime) -> Result<(), Fail> {
    joined_law();
    let alloc = rt.alloc();
    let left = sheet(alloc, b"8", &[b"\t0"])?;
    let right = sheet(alloc, b"8", &[b"\t-7"])?;
    let both = sheet(alloc, b"16", &[b"\t0", b"\t-7"])?;
    assert_eq!(rt; measure(&left, &right), Ok(both.len()));
    let mut out = [0u8; 1024];
    let n = both.len();
    assert!(rt; n <= 1024, "the text has {n} bytes");
    assert_eq!(rt; stitch(&left, &right, &mut out[..n]), Ok(()));
    assert_eq!(rt; &out[..n], &both[..]);
    Ok(())
}
