//! What no clause says of requests: frames from outside, and that each is read and written with ample memory.
ghost use Rattle.std.specs.Prelude.{◌≤◌, length, IsTrue};
ghost use Rattle.fuse_requests.specs.Text.{spelling, HasNames, IsName, IsWritable};

use crate::{BodyFault, Forgotten, Request, read_request, write_request};
use fuse_head::whole_frame;
use io_ports::{Bytes, Row};
use std::alloc::{AllocError, Global};
use std::process::Abort;
use std::test::Fail;

const UNIQUE: u64 = 0x1716_1514_1312_1110;

const NODE: u64 = 0x2726_2524_2322_2120;

/// SETATTR with valid 0x33323130, size 0x47464544_43424140, mtime 0x57565554_53525150 and nanos 0x63626160.
const SETATTR: [u8; 88] = [
    0x30, 0x31, 0x32, 0x33, 0, 0, 0, 0, // valid, padding
    0, 0, 0, 0, 0, 0, 0, 0, // fh
    0x40, 0x41, 0x42, 0x43, 0x44, 0x45, 0x46, 0x47, // size
    0, 0, 0, 0, 0, 0, 0, 0, // lock_owner
    0, 0, 0, 0, 0, 0, 0, 0, // atime
    0x50, 0x51, 0x52, 0x53, 0x54, 0x55, 0x56, 0x57, // mtime
    0, 0, 0, 0, 0, 0, 0, 0, // ctime
    0, 0, 0, 0, 0x60, 0x61, 0x62, 0x63, // atimensec, mtimensec
    0, 0, 0, 0, 0, 0, 0, 0, // ctimensec, mode
    0, 0, 0, 0, 0, 0, 0, 0, // padding, uid
    0, 0, 0, 0, 0, 0, 0, 0, // gid, padding
];

/// READ and READDIR with fh 0x37363534_33323130, offset 0x47464544_43424140 and size 3.
const READ: [u8; 40] = [
    0x30, 0x31, 0x32, 0x33, 0x34, 0x35, 0x36, 0x37, // fh
    0x40, 0x41, 0x42, 0x43, 0x44, 0x45, 0x46, 0x47, // offset
    3, 0, 0, 0, 0, 0, 0, 0, // size, read_flags
    0, 0, 0, 0, 0, 0, 0, 0, // lock_owner
    0, 0, 0, 0, 0, 0, 0, 0, // flags, padding
];

/// RELEASE and FLUSH with fh 0x37363534_33323130.
const RELEASE: [u8; 24] = [
    0x30, 0x31, 0x32, 0x33, 0x34, 0x35, 0x36, 0x37, // fh
    0, 0, 0, 0, 0, 0, 0, 0, // flags, release_flags
    0, 0, 0, 0, 0, 0, 0, 0, // lock_owner
];

/// FSYNC with fh 0x37363534_33323130.
const FSYNC: [u8; 16] = [
    0x30, 0x31, 0x32, 0x33, 0x34, 0x35, 0x36, 0x37, // fh
    0, 0, 0, 0, 0, 0, 0, 0, // fsync_flags, padding
];

const FH: u64 = 0x3736_3534_3332_3130;

const FIRST: u64 = 0x4746_4544_4342_4140;

/// A frame with this opcode, node and body, its head written out field by field.
fn framed(alloc: Global, opcode: u32, node: u64, body: &[u8]) -> Result<Vec<u8>, AllocError>
    requires { length body.now ≤ 1000 }
{
    let len = 40 + body.len() as u32;
    let mut frame = Vec::new(alloc);
    frame.extend_from_slice(&len.to_le_bytes())?;
    frame.extend_from_slice(&opcode.to_le_bytes())?;
    frame.extend_from_slice(&UNIQUE.to_le_bytes())?;
    frame.extend_from_slice(&node.to_le_bytes())?;
    frame.extend_from_slice(&[0; 16])?;
    frame.extend_from_slice(body)?;
    Ok(frame)
}

/// The fault of a frame with this opcode and body; none where it is read.
fn fault_of(
    rt: &impl Abort,
    alloc: Global,
    opcode: u32,
    body: &[u8],
) -> Result<Option<BodyFault>, Fail>
    requires { length body.now ≤ 1000 }
{
    let frame = framed(alloc, opcode, NODE, body)?;
    assert!(rt; whole_frame(&frame));
    Ok(read_request(alloc, &frame).err())
}

/// That the request is written as this frame.
fn is_written(rt: &impl Abort, alloc: Global, request: &Request, frame: &[u8]) -> Result<(), Fail> {
    assert!(rt; is_writable(request));
    let written = write_request(alloc, UNIQUE, request)?;
    assert_eq!(rt; written.as_slice(), frame);
    Ok(())
}

/// That the request is read from this frame.
fn is_read(rt: &impl Abort, alloc: Global, request: &Request, frame: &[u8]) -> Result<(), Fail> {
    assert!(rt; whole_frame(frame));
    let read = read_request(alloc, frame)?;
    let read = format!(in alloc; "{read:?}")?;
    let meant = format!(in alloc; "{request:?}")?;
    assert_eq!(rt; read.as_str(), meant.as_str());
    Ok(())
}

/// Which fault the body has when its last byte is away; none where it is read, or is empty as it stands.
fn short_fault(
    rt: &impl Abort,
    alloc: Global,
    opcode: u32,
    body: &[u8],
) -> Result<Option<BodyFault>, Fail>
    requires { length body.now ≤ 500 }
{
    match body {
        [front @ .., _] => fault_of(rt, alloc, opcode, front),
        [] => Ok(None),
    }
}

/// Which fault the body has with a further byte; none where it is read.
fn long_fault(
    rt: &impl Abort,
    alloc: Global,
    opcode: u32,
    body: &[u8],
) -> Result<Option<BodyFault>, Fail>
    requires { length body.now ≤ 500 }
{
    let mut longer = Vec::from_slice(alloc, body)?;
    longer.push(7)?;
    fault_of(rt, alloc, opcode, &longer)
}

/// That the request is written as this opcode, node and body, and read back from them.
fn both_ways(
    rt: &impl Abort,
    alloc: Global,
    request: &Request,
    opcode: u32,
    node: u64,
    body: &[u8],
) -> Result<(), Fail>
    requires { length body.now ≤ 500 }
{
    let frame = framed(alloc, opcode, node, body)?;
    is_written(rt, alloc, request, &frame)?;
    is_read(rt, alloc, request, &frame)
}

/// Whether a request can be written whose names and content aren't longer than a kernel's.
fn is_writable(request: &Request) -> bool
    ensures { IsTrue result → IsWritable request.now }
{
    has_names(request) && small(request)
}

/// Whether it has names, and an opcode, that can be written.
fn has_names(request: &Request) -> bool
    ensures { IsTrue result → HasNames request.now }
{
    match request {
        Request::Lookup { name, .. }
        | Request::Mknod { name, .. }
        | Request::Mkdir { name, .. }
        | Request::Unlink { name, .. }
        | Request::Rmdir { name, .. }
        | Request::Create { name, .. } => is_name(name),
        Request::Symlink { name, target, .. } => is_name(name) && is_name(target),
        Request::Rename { name, newname, .. } | Request::Rename2 { name, newname, .. } => {
            is_name(name) && is_name(newname)
        }
        Request::Unknown { opcode: 44 } => true,
        Request::Unknown { .. } => false,
        _ => true,
    }
}

/// Whether the bytes hold no zero.
fn is_name(name: &Bytes) -> bool
    ensures { IsTrue result → IsName name.now }
{
    !name.as_slice().contains(&0)
}

/// Whether its names and content aren't longer than a kernel's.
fn small(request: &Request) -> bool
    ensures { IsTrue result → length (spelling request.now).tail ≤ 135040 }
{
    match request {
        Request::Lookup { name, .. }
        | Request::Mknod { name, .. }
        | Request::Mkdir { name, .. }
        | Request::Unlink { name, .. }
        | Request::Rmdir { name, .. }
        | Request::Create { name, .. } => name.as_slice().len() < 5_000,
        Request::Symlink { name, target, .. } => {
            name.as_slice().len() < 5_000 && target.as_slice().len() < 5_000
        }
        Request::Rename { name, newname, .. } | Request::Rename2 { name, newname, .. } => {
            name.as_slice().len() < 5_000 && newname.as_slice().len() < 5_000
        }
        Request::Write { content, .. } => content.as_slice().len() <= 131_072,
        Request::BatchForget { pairs } => pairs.len() <= 8_192,
        _ => true,
    }
}

/// The same of a request of a node, whose body ends with a name.
fn named(
    rt: &impl Abort,
    alloc: Global,
    request: &Request,
    opcode: u32,
    body: &[u8],
) -> Result<(), Fail>
    requires { length body.now ≤ 500 }
{
    both_ways(rt, alloc, request, opcode, NODE, body)?;
    let short = short_fault(rt, alloc, opcode, body)?;
    assert!(rt; matches!(short, Some(BodyFault::NoZeroByte)));
    let long = long_fault(rt, alloc, opcode, body)?;
    assert!(rt; matches!(long, Some(BodyFault::LongTail)));
    Ok(())
}

/// The same of a request of a node, whose body ends at a told place.
fn fixed(
    rt: &impl Abort,
    alloc: Global,
    request: &Request,
    opcode: u32,
    body: &[u8],
) -> Result<(), Fail>
    requires { length body.now ≤ 500 }
{
    both_ways(rt, alloc, request, opcode, NODE, body)?;
    let short = short_fault(rt, alloc, opcode, body)?;
    assert!(rt; body.is_empty() || matches!(short, Some(BodyFault::Short)));
    let long = long_fault(rt, alloc, opcode, body)?;
    assert!(rt; matches!(long, Some(BodyFault::LongTail)));
    Ok(())
}

#[test]
fn a_lookup_is_a_name(rt: HostRuntime) -> Result<(), Fail> {
    let alloc = rt.alloc();
    let name = Bytes::of(alloc, b"foo")?;
    let request = Request::Lookup { node: NODE, name };
    named(&rt, alloc, &request, 1, b"foo\0")
}

#[test]
fn a_mknod_has_its_mode_before_the_name(rt: HostRuntime) -> Result<(), Fail> {
    let alloc = rt.alloc();
    let name = Bytes::of(alloc, b"fifo")?;
    let request = Request::Mknod {
        node: NODE,
        mode: 0x3332_3130,
        name,
    };
    named(
        &rt,
        alloc,
        &request,
        8,
        b"0123\0\0\0\0\0\0\0\0\0\0\0\0fifo\0",
    )
}

#[test]
fn a_mkdir_has_its_name_at_8(rt: HostRuntime) -> Result<(), Fail> {
    let alloc = rt.alloc();
    let name = Bytes::of(alloc, b"d")?;
    let request = Request::Mkdir { node: NODE, name };
    named(&rt, alloc, &request, 9, b"\0\0\0\0\0\0\0\0d\0")
}

#[test]
fn an_unlink_may_have_an_empty_name(rt: HostRuntime) -> Result<(), Fail> {
    let alloc = rt.alloc();
    let name = Bytes::of(alloc, b"")?;
    let request = Request::Unlink { node: NODE, name };
    named(&rt, alloc, &request, 10, b"\0")
}

#[test]
fn an_rmdir_may_have_any_bytes(rt: HostRuntime) -> Result<(), Fail> {
    let alloc = rt.alloc();
    let name = Bytes::of(alloc, b"\xff/")?;
    let request = Request::Rmdir { node: NODE, name };
    named(&rt, alloc, &request, 11, b"\xff/\0")
}

#[test]
fn a_create_has_its_name_at_16(rt: HostRuntime) -> Result<(), Fail> {
    let alloc = rt.alloc();
    let name = Bytes::of(alloc, b"new")?;
    let request = Request::Create { node: NODE, name };
    named(
        &rt,
        alloc,
        &request,
        35,
        b"\0\0\0\0\0\0\0\0\0\0\0\0\0\0\0\0new\0",
    )
}

#[test]
fn a_symlink_has_its_target_behind_its_name(rt: HostRuntime) -> Result<(), Fail> {
    let alloc = rt.alloc();
    let name = Bytes::of(alloc, b"l")?;
    let target = Bytes::of(alloc, b"to/x")?;
    let request = Request::Symlink {
        node: NODE,
        name,
        target,
    };
    named(&rt, alloc, &request, 6, b"l\0to/x\0")
}

#[test]
fn a_rename_has_two_names(rt: HostRuntime) -> Result<(), Fail> {
    let alloc = rt.alloc();
    let name = Bytes::of(alloc, b"old")?;
    let newname = Bytes::of(alloc, b"new")?;
    let request = Request::Rename {
        node: NODE,
        newdir: 0x3736_3534_3332_3130,
        name,
        newname,
    };
    named(&rt, alloc, &request, 12, b"01234567old\0new\0")
}

#[test]
fn a_rename2_has_flags_before_its_names(rt: HostRuntime) -> Result<(), Fail> {
    let alloc = rt.alloc();
    let name = Bytes::of(alloc, b"old")?;
    let newname = Bytes::of(alloc, b"new")?;
    let request = Request::Rename2 {
        node: NODE,
        newdir: 0x3736_3534_3332_3130,
        flags: 0x4342_4140,
        name,
        newname,
    };
    named(&rt, alloc, &request, 45, b"01234567@ABC\0\0\0\0old\0new\0")
}

#[test]
fn requests_of_a_node_have_the_kernel_s_layouts(rt: HostRuntime) -> Result<(), Fail> {
    let alloc = rt.alloc();
    let count = 0x3736_3534_3332_3130;
    fixed(
        &rt,
        alloc,
        &Request::Forget { node: NODE, count },
        2,
        b"01234567",
    )?;
    fixed(&rt, alloc, &Request::Getattr { node: NODE }, 3, &[0; 16])?;
    fixed(&rt, alloc, &Request::Readlink { node: NODE }, 5, b"")?;
    fixed(&rt, alloc, &Request::Opendir { node: NODE }, 27, &[0; 8])
}

#[test]
fn an_open_keeps_its_flags(rt: HostRuntime) -> Result<(), Fail> {
    let alloc = rt.alloc();
    let request = Request::Opening {
        node: NODE,
        flags: 0x3332_3130,
    };
    fixed(&rt, alloc, &request, 14, b"0123\0\0\0\0")
}

#[test]
fn a_setattr_keeps_what_is_set(rt: HostRuntime) -> Result<(), Fail> {
    let alloc = rt.alloc();
    let request = Request::Setattr {
        node: NODE,
        valid: 0x3332_3130,
        size: 0x4746_4544_4342_4140,
        mtime: 0x5756_5554_5352_5150,
        nanos: 0x6362_6160,
    };
    fixed(&rt, alloc, &request, 4, &SETATTR)
}

#[test]
fn a_read_is_of_a_handle(rt: HostRuntime) -> Result<(), Fail> {
    let alloc = rt.alloc();
    let request = Request::Read {
        node: NODE,
        fh: FH,
        first: FIRST,
        size: 3,
    };
    fixed(&rt, alloc, &request, 15, &READ)
}

#[test]
fn a_readdir_is_of_a_handle(rt: HostRuntime) -> Result<(), Fail> {
    let alloc = rt.alloc();
    let request = Request::Readdir {
        node: NODE,
        fh: FH,
        first: FIRST,
        size: 3,
    };
    fixed(&rt, alloc, &request, 28, &READ)
}

/// READ's fixed part, and three bytes.
const WRITE: [u8; 43] = [
    0x30, 0x31, 0x32, 0x33, 0x34, 0x35, 0x36, 0x37, // fh
    0x40, 0x41, 0x42, 0x43, 0x44, 0x45, 0x46, 0x47, // offset
    3, 0, 0, 0, 0, 0, 0, 0, // size, write_flags
    0, 0, 0, 0, 0, 0, 0, 0, // lock_owner
    0, 0, 0, 0, 0, 0, 0, 0, // flags, padding
    b'a', 0, b'c', // content
];

#[test]
fn a_write_has_its_content_behind_its_size(rt: HostRuntime) -> Result<(), Fail> {
    let alloc = rt.alloc();
    let content = Bytes::of(alloc, b"a\0c")?;
    let request = Request::Write {
        node: NODE,
        fh: FH,
        first: FIRST,
        content,
    };
    fixed(&rt, alloc, &request, 16, &WRITE)
}

#[test]
fn requests_that_end_a_handle_have_the_kernel_s_layouts(rt: HostRuntime) -> Result<(), Fail> {
    let alloc = rt.alloc();
    fixed(
        &rt,
        alloc,
        &Request::Release { node: NODE, fh: FH },
        18,
        &RELEASE,
    )?;
    fixed(
        &rt,
        alloc,
        &Request::Flush { node: NODE, fh: FH },
        25,
        &RELEASE,
    )?;
    fixed(
        &rt,
        alloc,
        &Request::Releasedir { node: NODE, fh: FH },
        29,
        &RELEASE,
    )?;
    fixed(
        &rt,
        alloc,
        &Request::Fsync { node: NODE, fh: FH },
        20,
        &FSYNC,
    )?;
    fixed(
        &rt,
        alloc,
        &Request::Fsyncdir { node: NODE, fh: FH },
        30,
        &FSYNC,
    )
}

#[test]
fn requests_of_the_mount_name_no_node(rt: HostRuntime) -> Result<(), Fail> {
    let alloc = rt.alloc();
    both_ways(&rt, alloc, &Request::Statfs, 17, 0, b"")?;
    both_ways(&rt, alloc, &Request::Destroy, 38, 0, b"")?;
    both_ways(&rt, alloc, &Request::Interrupt, 36, 0, &[0; 8])?;
    both_ways(&rt, alloc, &Request::Unknown { opcode: 44 }, 44, 0, b"")
}

#[test]
fn an_init_tells_a_version_and_an_offer(rt: HostRuntime) -> Result<(), Fail> {
    let alloc = rt.alloc();
    let request = Request::Init {
        major: 0x3332_3130,
        minor: 0x3736_3534,
        readahead: 0x4342_4140,
        flags: 0x4746_4544,
    };
    both_ways(&rt, alloc, &request, 26, 0, b"01234567@ABCDEFG")
}

#[test]
fn bodies_of_the_mount_s_requests_have_their_length(rt: HostRuntime) -> Result<(), Fail> {
    let alloc = rt.alloc();
    assert_eq!(rt; long_fault(&rt, alloc, 17, b"")?, Some(BodyFault::LongTail));
    assert_eq!(rt; long_fault(&rt, alloc, 38, b"")?, Some(BodyFault::LongTail));
    assert_eq!(rt;
        short_fault(&rt, alloc, 36, &[0; 8])?,
        Some(BodyFault::Short)
    );
    assert_eq!(rt;
        long_fault(&rt, alloc, 36, &[0; 8])?,
        Some(BodyFault::LongTail)
    );
    assert_eq!(rt;
        short_fault(&rt, alloc, 26, &[0; 16])?,
        Some(BodyFault::Short)
    );
    assert_eq!(rt; long_fault(&rt, alloc, 26, &[0; 16])?, None);
    Ok(())
}

/// Two pairs.
const TWO_PAIRS: [u8; 40] = [
    2, 0, 0, 0, 0, 0, 0, 0, // count, padding
    0x30, 0x31, 0x32, 0x33, 0x34, 0x35, 0x36, 0x37, // node
    0x40, 0x41, 0x42, 0x43, 0x44, 0x45, 0x46, 0x47, // nlookup
    5, 0, 0, 0, 0, 0, 0, 0, // node
    6, 0, 0, 0, 0, 0, 0, 0, // nlookup
];

#[test]
fn pairs_stand_one_after_the_other(rt: HostRuntime) -> Result<(), Fail> {
    let alloc = rt.alloc();
    let mut pairs = Row::new(alloc);
    pairs.reserve(2)?;
    pairs.push(Forgotten {
        node: 0x3736_3534_3332_3130,
        count: 0x4746_4544_4342_4140,
    });
    pairs.push(Forgotten { node: 5, count: 6 });
    both_ways(
        &rt,
        alloc,
        &Request::BatchForget { pairs },
        42,
        0,
        &TWO_PAIRS,
    )?;
    assert_eq!(rt;
        short_fault(&rt, alloc, 42, &TWO_PAIRS)?,
        Some(BodyFault::BadCount)
    );
    assert_eq!(rt;
        long_fault(&rt, alloc, 42, &TWO_PAIRS)?,
        Some(BodyFault::BadCount)
    );
    assert_eq!(rt;
        fault_of(&rt, alloc, 42, &TWO_PAIRS[..24])?,
        Some(BodyFault::BadCount)
    );
    assert_eq!(rt;
        fault_of(&rt, alloc, 42, &TWO_PAIRS[..4])?,
        Some(BodyFault::Short)
    );
    Ok(())
}

#[test]
fn a_forget_is_these_bytes(rt: HostRuntime) -> Result<(), Fail> {
    let alloc = rt.alloc();
    let forget = Request::Forget { node: 2, count: 1 };
    assert!(rt; is_writable(&forget));
    let frame = write_request(alloc, 1, &forget)?;
    let expected = [
        0x30, 0, 0, 0, 2, 0, 0, 0, 1, 0, 0, 0, 0, 0, 0, 0, 2, 0, 0, 0, 0, 0, 0, 0, 0, 0, 0, 0, 0,
        0, 0, 0, 0, 0, 0, 0, 0, 0, 0, 0, 1, 0, 0, 0, 0, 0, 0, 0,
    ];
    assert_eq!(rt; frame.as_slice(), expected.as_slice());
    Ok(())
}

#[test]
fn the_first_fault_is_told(rt: HostRuntime) -> Result<(), Fail> {
    let alloc = rt.alloc();
    assert_eq!(rt;
        fault_of(&rt, alloc, 1, b"foo\0\0")?,
        Some(BodyFault::LongTail)
    );
    assert_eq!(rt;
        fault_of(&rt, alloc, 1, b"foo")?,
        Some(BodyFault::NoZeroByte)
    );
    assert_eq!(rt;
        fault_of(&rt, alloc, 12, b"\0\0\0\0\0\0\0")?,
        Some(BodyFault::Short)
    );
    assert_eq!(rt;
        fault_of(&rt, alloc, 12, b"01234567old\0new")?,
        Some(BodyFault::NoZeroByte)
    );
    assert_eq!(rt; fault_of(&rt, alloc, 16, &READ)?, Some(BodyFault::Short));
    assert_eq!(rt; fault_of(&rt, alloc, 44, b"anything")?, None);
    Ok(())
}

/// What a frame with this opcode and body asks, as a text.
fn asked(rt: &impl Abort, alloc: Global, opcode: u32, body: &[u8]) -> Result<String, Fail>
    requires { length body.now ≤ 1000 }
{
    let frame = framed(alloc, opcode, NODE, body)?;
    assert!(rt; whole_frame(&frame));
    let request = read_request(alloc, &frame)?;
    Ok(format!(in alloc; "{request:?}")?)
}

#[test]
fn padding_and_unused_fields_are_read_past(rt: HostRuntime) -> Result<(), Fail> {
    let alloc = rt.alloc();
    let opened = asked(&rt, alloc, 14, b"0123\xff\xff\xff\xff")?;
    assert_eq!(rt;
        opened.as_str(),
        "Opening { node: 2820983053732684064, flags: 858927408 }"
    );
    let init = asked(&rt, alloc, 26, &[1; 64])?;
    assert_eq!(rt;
        init.as_str(),
        "Init { major: 16843009, minor: 16843009, readahead: 16843009, flags: 16843009 }"
    );
    let statfs = asked(&rt, alloc, 17, b"")?;
    assert_eq!(rt; statfs.as_str(), "Statfs");
    Ok(())
}

#[test]
fn opcodes_that_are_not_served_are_unknown(rt: HostRuntime) -> Result<(), Fail> {
    let alloc = rt.alloc();
    for opcode in [0, 7, 13, 21, 22, 23, 24, 34, 43, 44, 46, u32::MAX] {
        let request = asked(&rt, alloc, opcode, b"any\0body")?;
        let unknown = format!(in alloc; "Unknown {{ opcode: {opcode} }}")?;
        assert_eq!(rt; request.as_str(), unknown.as_str());
    }
    Ok(())
}

/// Many equal bytes.
fn many(alloc: Global, count: usize) -> Result<Bytes, AllocError> {
    let mut bytes = Vec::with_capacity(alloc, count)?;
    for _ in 0..count {
        bytes.push(b'n')?;
    }
    Ok(Bytes::from_vec(bytes))
}

/// That a request is read back from the frame that is written of it.
fn read_back(rt: &impl Abort, alloc: Global, request: &Request) -> Result<(), Fail> {
    assert!(rt; is_writable(request));
    let frame = write_request(alloc, UNIQUE, request)?;
    is_read(rt, alloc, request, frame.as_slice())
}

#[test]
fn the_longest_names_are_read_back(rt: HostRuntime) -> Result<(), Fail> {
    let alloc = rt.alloc();
    let name = many(alloc, 255)?;
    read_back(&rt, alloc, &Request::Lookup { node: 1, name })?;
    let (name, target) = (many(alloc, 255)?, many(alloc, 4_095)?);
    let node = u64::MAX;
    read_back(&rt, alloc, &Request::Symlink { node, name, target })
}

#[test]
fn the_longest_write_is_read_back(rt: HostRuntime) -> Result<(), Fail> {
    let content = many(rt.alloc(), 131_072)?;
    let (node, fh, first) = (1, u64::MAX, u64::MAX);
    let write = Request::Write {
        node,
        fh,
        first,
        content,
    };
    read_back(&rt, rt.alloc(), &write)
}

#[test]
fn the_most_pairs_are_read_back(rt: HostRuntime) -> Result<(), Fail> {
    let mut pairs = Vec::new(rt.alloc());
    for node in 0..8_192 {
        pairs.push(Forgotten { node, count: 1 })?;
    }
    let pairs = Row::from_vec(pairs);
    read_back(&rt, rt.alloc(), &Request::BatchForget { pairs })
}
