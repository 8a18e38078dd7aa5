//! What no clause says of replies: frames from outside, and that each is written and read with ample memory.
ghost use Rattle.std.specs.Prelude.{◌≤◌};
ghost use Rattle.fuse_replies.specs.Replies.{without_spare, IsSendable};

use crate::{
    AttrOut, Dirent, EntryOut, Reply, ReplyFault, ReplyKind, dirent_len, read_reply, write_reply,
};
use io_ports::{Bytes, NoMemory, Row, Text};
use std::alloc::Global;
use std::process::Abort;
use std::test::Fail;

/// A file of 513 bytes, which are two blocks.
const FILE: AttrOut = AttrOut {
    ino: 2,
    size: 513,
    mtime: 0x01_0203_0405,
    nanos: 7,
    mode: 0o100644,
    nlink: 1,
};

/// The frame of its attributes, unique 9.
const ATTR: [u8; 120] = [
    120, 0, 0, 0, 0, 0, 0, 0, 9, 0, 0, 0, 0, 0, 0, 0, 0, 0, 0, 0, 0, 0, 0, 0, 0, 0, 0, 0, 0, 0, 0,
    0, 2, 0, 0, 0, 0, 0, 0, 0, 1, 2, 0, 0, 0, 0, 0, 0, 2, 0, 0, 0, 0, 0, 0, 0, 5, 4, 3, 2, 1, 0, 0,
    0, 5, 4, 3, 2, 1, 0, 0, 0, 5, 4, 3, 2, 1, 0, 0, 0, 7, 0, 0, 0, 7, 0, 0, 0, 7, 0, 0, 0, 0xa4,
    0x81, 0, 0, 1, 0, 0, 0, 0, 0, 0, 0, 0, 0, 0, 0, 0, 0, 0, 0, 0, 16, 0, 0, 0, 0, 0, 0,
];

/// The frame of its entry, unique 9.
const ENTRY: [u8; 144] = [
    144, 0, 0, 0, 0, 0, 0, 0, 9, 0, 0, 0, 0, 0, 0, 0, 2, 0, 0, 0, 0, 0, 0, 0, 0, 0, 0, 0, 0, 0, 0,
    0, 0, 0, 0, 0, 0, 0, 0, 0, 0, 0, 0, 0, 0, 0, 0, 0, 0, 0, 0, 0, 0, 0, 0, 0, 2, 0, 0, 0, 0, 0, 0,
    0, 1, 2, 0, 0, 0, 0, 0, 0, 2, 0, 0, 0, 0, 0, 0, 0, 5, 4, 3, 2, 1, 0, 0, 0, 5, 4, 3, 2, 1, 0, 0,
    0, 5, 4, 3, 2, 1, 0, 0, 0, 7, 0, 0, 0, 7, 0, 0, 0, 7, 0, 0, 0, 0xa4, 0x81, 0, 0, 1, 0, 0, 0, 0,
    0, 0, 0, 0, 0, 0, 0, 0, 0, 0, 0, 0, 16, 0, 0, 0, 0, 0, 0,
];

/// The frame of the file as it was created, with handle 1, unique 9.
const CREATED: [u8; 160] = [
    160, 0, 0, 0, 0, 0, 0, 0, 9, 0, 0, 0, 0, 0, 0, 0, 2, 0, 0, 0, 0, 0, 0, 0, 0, 0, 0, 0, 0, 0, 0,
    0, 0, 0, 0, 0, 0, 0, 0, 0, 0, 0, 0, 0, 0, 0, 0, 0, 0, 0, 0, 0, 0, 0, 0, 0, 2, 0, 0, 0, 0, 0, 0,
    0, 1, 2, 0, 0, 0, 0, 0, 0, 2, 0, 0, 0, 0, 0, 0, 0, 5, 4, 3, 2, 1, 0, 0, 0, 5, 4, 3, 2, 1, 0, 0,
    0, 5, 4, 3, 2, 1, 0, 0, 0, 7, 0, 0, 0, 7, 0, 0, 0, 7, 0, 0, 0, 0xa4, 0x81, 0, 0, 1, 0, 0, 0, 0,
    0, 0, 0, 0, 0, 0, 0, 0, 0, 0, 0, 0, 16, 0, 0, 0, 0, 0, 0, 1, 0, 0, 0, 0, 0, 0, 0, 0, 0, 0, 0,
    0, 0, 0, 0,
];

/// The frame of handle 0x0102030405060708, unique 5.
const OPENED: [u8; 32] = [
    32, 0, 0, 0, 0, 0, 0, 0, 5, 0, 0, 0, 0, 0, 0, 0, 8, 7, 6, 5, 4, 3, 2, 1, 0, 0, 0, 0, 0, 0, 0, 0,
];

/// The frame of 131,072 bytes written, unique 5.
const WRITTEN: [u8; 24] = [
    24, 0, 0, 0, 0, 0, 0, 0, 5, 0, 0, 0, 0, 0, 0, 0, 0, 0, 2, 0, 0, 0, 0, 0,
];

/// The frame of `Stat`, unique 3.
const STATFS: [u8; 96] = [
    96, 0, 0, 0, 0, 0, 0, 0, 3, 0, 0, 0, 0, 0, 0, 0, 0, 0, 0, 64, 0, 0, 0, 0, 0, 0, 0, 64, 0, 0, 0,
    0, 0, 0, 0, 64, 0, 0, 0, 0, 0, 0, 0, 64, 0, 0, 0, 0, 0, 0, 0, 64, 0, 0, 0, 0, 0, 0, 1, 0, 255,
    0, 0, 0, 0, 0, 1, 0, 0, 0, 0, 0, 0, 0, 0, 0, 0, 0, 0, 0, 0, 0, 0, 0, 0, 0, 0, 0, 0, 0, 0, 0, 0,
    0, 0, 0,
];

/// The frame of the answer to an INIT of 7.31, unique 1.
const INIT: [u8; 80] = [
    80, 0, 0, 0, 0, 0, 0, 0, 1, 0, 0, 0, 0, 0, 0, 0, 7, 0, 0, 0, 31, 0, 0, 0, 0, 0, 2, 0, 0x21, 0,
    4, 0, 12, 0, 9, 0, 0, 0, 2, 0, 1, 0, 0, 0, 0, 0, 0, 0, 0, 0, 0, 0, 0, 0, 0, 0, 0, 0, 0, 0, 0,
    0, 0, 0, 0, 0, 0, 0, 0, 0, 0, 0, 0, 0, 0, 0, 0, 0, 0, 0,
];

/// The frame of the answer to an INIT of 8.0, unique 1.
const WAITS: [u8; 80] = [
    80, 0, 0, 0, 0, 0, 0, 0, 1, 0, 0, 0, 0, 0, 0, 0, 7, 0, 0, 0, 31, 0, 0, 0, 0, 0, 0, 0, 0, 0, 0,
    0, 0, 0, 0, 0, 0, 0, 0, 0, 0, 0, 0, 0, 0, 0, 0, 0, 0, 0, 0, 0, 0, 0, 0, 0, 0, 0, 0, 0, 0, 0, 0,
    0, 0, 0, 0, 0, 0, 0, 0, 0, 0, 0, 0, 0, 0, 0, 0, 0,
];

/// The frame of the dirent of `a.txt` at position 0, unique 4.
const LISTED: [u8; 48] = [
    48, 0, 0, 0, 0, 0, 0, 0, 4, 0, 0, 0, 0, 0, 0, 0, 0xff, 0xff, 0xff, 0xff, 0, 0, 0, 0, 1, 0, 0,
    0, 0, 0, 0, 0, 5, 0, 0, 0, 8, 0, 0, 0, 0x61, 0x2e, 0x74, 0x78, 0x74, 0, 0, 0,
];

/// The frame of errno 71, unique 2.
const EPROTO: [u8; 16] = [16, 0, 0, 0, 0xb9, 0xff, 0xff, 0xff, 2, 0, 0, 0, 0, 0, 0, 0];

/// The frame of three bytes that are no text, unique 6.
const BYTES: [u8; 19] = [
    19, 0, 0, 0, 0, 0, 0, 0, 6, 0, 0, 0, 0, 0, 0, 0, 0xff, 0, 0x61,
];

/// A head alone, unique 6.
const BARE: [u8; 16] = [16, 0, 0, 0, 0, 0, 0, 0, 6, 0, 0, 0, 0, 0, 0, 0];

/// The reply has this frame, and is read back from it.
fn both_ways(
    rt: &impl Abort,
    alloc: Global,
    kind: ReplyKind,
    unique: u64,
    reply: &Reply,
    frame: &[u8],
) -> Result<(), Fail>
    requires { IsSendable (without_spare reply.now) }
{
    assert_eq!(rt; write_reply(alloc, unique, reply)?.as_slice(), frame);
    let (told, read) = read_reply(alloc, kind, frame)?;
    assert_eq!(rt; told, unique);
    assert_eq!(rt;
        format!(in alloc; "{read:?}")?,
        format!(in alloc; "{reply:?}")?
    );
    Ok(())
}

#[test]
fn init_is_answered_with_7_31(rt: HostRuntime) -> Result<(), Fail> {
    let told = Reply::InitDone {
        readahead: 131_072,
        flags: 0x40021,
        waits: false,
    };
    both_ways(&rt, rt.alloc(), ReplyKind::InitDone, 1, &told, &INIT)
}

#[test]
fn a_newer_kernel_is_told_the_version_alone(rt: HostRuntime) -> Result<(), Fail> {
    let waits = Reply::InitDone {
        readahead: 0,
        flags: 0,
        waits: true,
    };
    both_ways(&rt, rt.alloc(), ReplyKind::InitDone, 1, &waits, &WAITS)
}

#[test]
fn an_error_is_read_for_every_kind(rt: HostRuntime) -> Result<(), Fail> {
    let error = Reply::Error(71);
    both_ways(&rt, rt.alloc(), ReplyKind::Attr, 2, &error, &EPROTO)?;
    both_ways(&rt, rt.alloc(), ReplyKind::Empty, 2, &error, &EPROTO)
}

#[test]
fn attributes_fill_a_fuse_attr(rt: HostRuntime) -> Result<(), Fail> {
    let attr = Reply::Attr(FILE);
    both_ways(&rt, rt.alloc(), ReplyKind::Attr, 9, &attr, &ATTR)
}

#[test]
fn an_entry_shows_its_node(rt: HostRuntime) -> Result<(), Fail> {
    let entry = Reply::Entry(EntryOut {
        node: 2,
        attr: FILE,
    });
    both_ways(&rt, rt.alloc(), ReplyKind::Entry, 9, &entry, &ENTRY)
}

#[test]
fn a_new_file_is_open(rt: HostRuntime) -> Result<(), Fail> {
    let entry = EntryOut {
        node: 2,
        attr: FILE,
    };
    let created = Reply::Created { entry, fh: 1 };
    both_ways(&rt, rt.alloc(), ReplyKind::Created, 9, &created, &CREATED)
}

#[test]
fn a_handle_is_told(rt: HostRuntime) -> Result<(), Fail> {
    let opened = Reply::Opened(0x0102_0304_0506_0708);
    both_ways(&rt, rt.alloc(), ReplyKind::Opened, 5, &opened, &OPENED)
}

#[test]
fn a_size_is_told(rt: HostRuntime) -> Result<(), Fail> {
    let written = Reply::Written(131_072);
    both_ways(&rt, rt.alloc(), ReplyKind::Written, 5, &written, &WRITTEN)
}

#[test]
fn the_file_system_has_one_size(rt: HostRuntime) -> Result<(), Fail> {
    both_ways(&rt, rt.alloc(), ReplyKind::Stat, 3, &Reply::Stat, &STATFS)
}

#[test]
fn a_payload_stands_as_it_is(rt: HostRuntime) -> Result<(), Fail> {
    let content = Reply::Content(Bytes::of(rt.alloc(), b"\xff\0a")?);
    both_ways(&rt, rt.alloc(), ReplyKind::Content, 6, &content, &BYTES)?;
    let target = Reply::Target(Bytes::of(rt.alloc(), b"\xff\0a")?);
    both_ways(&rt, rt.alloc(), ReplyKind::Target, 6, &target, &BYTES)
}

#[test]
fn nothing_is_a_head_alone(rt: HostRuntime) -> Result<(), Fail> {
    let nothing = Reply::Content(Bytes::of(rt.alloc(), b"")?);
    both_ways(&rt, rt.alloc(), ReplyKind::Content, 6, &nothing, &BARE)?;
    both_ways(&rt, rt.alloc(), ReplyKind::Empty, 6, &Reply::Empty, &BARE)?;
    let silent = write_reply(rt.alloc(), 6, &Reply::Silent)?;
    assert_eq!(rt; silent.as_slice(), b"".as_slice());
    Ok(())
}

#[test]
fn a_dirent_ends_at_a_multiple_of_8(rt: HostRuntime) -> Result<(), Fail> {
    let name = Text::of(rt.alloc(), "a.txt")?;
    let dirent = Dirent {
        off: 1,
        kind: 8,
        name,
    };
    let mut dirents = Vec::new(rt.alloc());
    dirents.push(dirent)?;
    let listed = Reply::Dirents(Row::from_vec(dirents));
    both_ways(&rt, rt.alloc(), ReplyKind::Dirents, 4, &listed, &LISTED)
}

/// A frame with another byte at a place is refused as a reply of this kind.
fn refused_with(
    rt: &impl Abort,
    alloc: Global,
    kind: ReplyKind,
    frame: &[u8],
    place: usize,
    byte: u8,
) -> Result<(), Fail> {
    let mut changed = Vec::from_slice(alloc, frame)?;
    if place < changed.len() {
        changed[place] = byte;
    }
    let refused = read_reply(alloc, kind, changed.as_slice()).err();
    assert_eq!(rt; refused, Some(ReplyFault::Malformed));
    Ok(())
}

#[test]
fn another_length_is_malformed(rt: HostRuntime) -> Result<(), Fail> {
    refused_with(&rt, rt.alloc(), ReplyKind::Attr, &ATTR[..119], 0, 119)?;
    refused_with(&rt, rt.alloc(), ReplyKind::Empty, &BARE[..15], 0, 15)?;
    refused_with(&rt, rt.alloc(), ReplyKind::Empty, &BARE, 0, 17)?;
    refused_with(&rt, rt.alloc(), ReplyKind::Attr, &STATFS, 8, 3)
}

#[test]
fn another_value_of_a_fixed_field_is_malformed(rt: HostRuntime) -> Result<(), Fail> {
    refused_with(&rt, rt.alloc(), ReplyKind::Stat, &STATFS, 95, 9)?;
    refused_with(&rt, rt.alloc(), ReplyKind::Attr, &ATTR, 56, 9)?;
    refused_with(&rt, rt.alloc(), ReplyKind::Dirents, &LISTED, 16, 9)?;
    refused_with(&rt, rt.alloc(), ReplyKind::Dirents, &LISTED, 45, 9)
}

/// Many equal bytes.
fn many(alloc: Global, count: usize) -> Result<Bytes, NoMemory> {
    let mut bytes = Vec::with_capacity(alloc, count)?;
    for _ in 0..count {
        bytes.push(b'n')?;
    }
    Ok(Bytes::from_vec(bytes))
}

/// How many bytes the frame of a payload of so many has, and how many are read back from it.
fn lens_of(alloc: Global, count: usize) -> Result<(usize, usize), NoMemory>
    requires { count ≤ 1000000 }
{
    let bytes = many(alloc, count)?;
    if bytes.as_slice().len() > 1_000_000 {
        return Ok((0, 0));
    }
    let frame = write_reply(alloc, 1, &Reply::Content(bytes))?;
    match read_reply(alloc, ReplyKind::Content, frame.as_slice()) {
        Ok((_, Reply::Content(read))) => Ok((frame.as_slice().len(), read.as_slice().len())),
        _ => Ok((frame.as_slice().len(), 0)),
    }
}

#[test]
fn the_longest_read_is_answered_whole(rt: HostRuntime) -> Result<(), Fail> {
    assert_eq!(rt; lens_of(rt.alloc(), 131_072)?, (131_088, 131_072));
    assert_eq!(rt; lens_of(rt.alloc(), 1_000_000)?, (1_000_016, 1_000_000));
    Ok(())
}

#[test]
fn an_entry_of_a_directory_fills_whole_words(rt: HostRuntime) {
    for (name, len) in [("", 24), ("a", 32), ("12345678", 32), ("123456789", 40)] {
        assert_eq!(rt; dirent_len(name), len, "{name}");
    }
}
