//! What no clause says of cutting: that it succeeds with ample memory, in pieces of any length.
ghost use Rattle.std.specs.Prelude.{◌≤◌, ◌+◌, ◌^◌, length};
ghost use Rattle.fuse_frames.specs.Cutter.{fed};

use crate::{CutFault, FrameCutter};
use io_ports::Bytes;
use std::alloc::Global;
use std::test::Fail;

/// An INIT of protocol 7.31 of 56 bytes, unique 1, and behind it a DESTROY of 40 bytes, unique 2.
const STREAM: [u8; 96] = [
    0x38, 0, 0, 0, 0x1a, 0, 0, 0, 1, 0, 0, 0, 0, 0, 0, 0, 0, 0, 0, 0, 0, 0, 0, 0, 0, 0, 0, 0, 0, 0,
    0, 0, 0, 0, 0, 0, 0, 0, 0, 0, 7, 0, 0, 0, 0x1f, 0, 0, 0, 0, 0, 2, 0, 0xff, 0xff, 0xff, 0xff,
    0x28, 0, 0, 0, 0x26, 0, 0, 0, 2, 0, 0, 0, 0, 0, 0, 0, 0, 0, 0, 0, 0, 0, 0, 0, 0, 0, 0, 0, 0, 0,
    0, 0, 0, 0, 0, 0, 0, 0, 0, 0,
];

/// A cutter that was fed the bytes in pieces of one byte, twice over.
fn fed_twice_by_bytes(alloc: Global, bytes: &[u8]) -> Result<FrameCutter, CutFault>
    requires { length bytes.now ≤ 96 }
{
    let mut cutter = FrameCutter::new(alloc);
    feed_by_bytes(&mut cutter, bytes)?;
    feed_by_bytes(&mut cutter, bytes)?;
    Ok(cutter)
}

fn feed_by_bytes(cutter: &mut FrameCutter, bytes: &[u8]) -> Result<(), CutFault>
    requires { fed cutter.old + length bytes.now ≤ 2 ^ 62 }
    ensures { fed cutter.new ≤ fed cutter.old + length bytes.now }
{
    for byte in bytes {
        cutter.feed(&[*byte])?;
    }
    Ok(())
}

/// The frames of two pieces that are fed one after the other.
fn frames_of_two(alloc: Global, front: &[u8], back: &[u8]) -> Result<Vec<Bytes>, Fail>
    requires { length front.now + length back.now ≤ 96 }
{
    let mut cutter = FrameCutter::new(alloc);
    cutter.feed(front)?;
    cutter.feed(back)?;
    let mut frames = Vec::new(alloc);
    while let Some(frame) = cutter.next() {
        frames.push(frame)?;
    }
    cutter.finish()?;
    Ok(frames)
}

#[test]
fn a_frame_twice_byte_by_byte_is_two_equal_frames(rt: HostRuntime) -> Result<(), Fail> {
    let init = &STREAM[..56];
    let mut cutter = fed_twice_by_bytes(rt.alloc(), init)?;
    let first = cutter.next().ok_or("no first frame")?;
    let second = cutter.next().ok_or("no second frame")?;
    assert_eq!(rt; first.as_slice(), init);
    assert_eq!(rt; second.as_slice(), init);
    assert!(rt; cutter.next().is_none());
    assert_eq!(rt; cutter.finish(), Ok(()));
    Ok(())
}

#[test]
fn every_split_into_two_pieces_gives_the_same_frames(rt: HostRuntime) -> Result<(), Fail> {
    for split in 0..97 {
        let (front, back) = STREAM.split_at(split);
        let frames = frames_of_two(rt.alloc(), front, back)?;
        assert_eq!(rt; frames.len(), 2);
        assert_eq!(rt; frames[0].as_slice(), &STREAM[..56], "split at {split}");
        assert_eq!(rt; frames[1].as_slice(), &STREAM[56..], "split at {split}");
    }
    Ok(())
}

#[test]
fn a_len_above_the_limit_is_met_at_its_fourth_byte_and_stays(rt: HostRuntime) -> Result<(), Fail> {
    let mut cutter = FrameCutter::new(rt.alloc());
    cutter.feed(&STREAM[..56])?;
    assert_eq!(rt; cutter.feed(&[0x01, 0x10, 0x02]), Ok(()));
    assert_eq!(rt; cutter.feed(&[0x00, 0xff]), Err(CutFault::LenOver(56)));
    let first = cutter.next().ok_or("no frame")?;
    assert_eq!(rt; first.as_slice(), &STREAM[..56]);
    assert!(rt; cutter.next().is_none());
    assert_eq!(rt; cutter.feed(&STREAM), Err(CutFault::LenOver(56)));
    assert!(rt; cutter.next().is_none());
    assert_eq!(rt; cutter.finish(), Err(CutFault::LenOver(56)));
    Ok(())
}

#[test]
fn a_len_of_39_is_refused_and_of_135_168_is_waited_for(rt: HostRuntime) -> Result<(), Fail> {
    let mut bytes = [0u8; 40];
    bytes[0] = 0x27;
    let mut cutter = FrameCutter::new(rt.alloc());
    assert_eq!(rt; cutter.feed(&bytes), Err(CutFault::LenBelow40(0)));
    assert_eq!(rt; cutter.finish(), Err(CutFault::LenBelow40(0)));
    let mut longest = FrameCutter::new(rt.alloc());
    assert_eq!(rt; longest.feed(&[0x00, 0x10, 0x02, 0x00]), Ok(()));
    assert_eq!(rt; longest.finish(), Err(CutFault::Truncated(0)));
    Ok(())
}

#[test]
fn a_cut_frame_is_truncated_at_its_place(rt: HostRuntime) -> Result<(), Fail> {
    let mut cutter = FrameCutter::new(rt.alloc());
    cutter.feed(&STREAM[..55])?;
    assert!(rt; cutter.next().is_none());
    assert_eq!(rt; cutter.finish(), Err(CutFault::Truncated(0)));
    let mut second = FrameCutter::new(rt.alloc());
    second.feed(&STREAM[..95])?;
    assert_eq!(rt; second.finish(), Err(CutFault::Truncated(56)));
    Ok(())
}
