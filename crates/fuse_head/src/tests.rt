//! What no clause says of heads and fields: where each field stands in bytes from outside.
use crate::{
    HeadFault, InHead, LONGEST_FRAME, OutHead, append_u16, append_u32, append_u64, out_head_of,
    read_head, u16_at, u32_at, u64_at, whole_frame, write_in_head, write_out_head,
};
use std::test::Fail;

/// The head of an INIT of protocol 7.31, unique 1, as a kernel sends it.
const INIT_HEAD: [u8; 40] = [
    0x38, 0, 0, 0, 0x1a, 0, 0, 0, 1, 0, 0, 0, 0, 0, 0, 0, 0, 0, 0, 0, 0, 0, 0, 0, 0, 0, 0, 0, 0, 0,
    0, 0, 0, 0, 0, 0, 0, 0, 0, 0,
];

/// The bytes 40 to 79, so that each field shows its offset and the order of its bytes.
const COUNTED: [u8; 40] = [
    40, 41, 42, 43, 44, 45, 46, 47, 48, 49, 50, 51, 52, 53, 54, 55, 56, 57, 58, 59, 60, 61, 62, 63,
    64, 65, 66, 67, 68, 69, 70, 71, 72, 73, 74, 75, 76, 77, 78, 79,
];

#[test]
fn a_kernel_s_init_is_read(rt: HostRuntime) {
    let init = InHead {
        len: 56,
        opcode: 26,
        unique: 1,
        node: 0,
        uid: 0,
        gid: 0,
        pid: 0,
    };
    assert_eq!(rt; read_head(&INIT_HEAD), Ok(init));
    let mut text = [0xffu8; 40];
    write_in_head(&init, &mut text);
    assert_eq!(rt; text.as_slice(), INIT_HEAD.as_slice());
}

#[test]
fn each_field_has_its_offset(rt: HostRuntime) {
    let head = InHead {
        len: 0x2b2a_2928,
        opcode: 0x2f2e_2d2c,
        unique: 0x3736_3534_3332_3130,
        node: 0x3f3e_3d3c_3b3a_3938,
        uid: 0x4342_4140,
        gid: 0x4746_4544,
        pid: 0x4b4a_4948,
    };
    assert_eq!(rt; read_head(&COUNTED), Ok(head));
    assert_eq!(rt; u16_at(&COUNTED, 38), 0x4f4e);
    assert_eq!(rt; u32_at(&COUNTED, 36), 0x4f4e_4d4c);
    assert_eq!(rt; u64_at(&COUNTED, 32), 0x4f4e_4d4c_4b4a_4948);
}

#[test]
fn a_short_head_and_a_short_len_are_refused(rt: HostRuntime) {
    let mut bytes = [0u8; 40];
    bytes[0] = 39;
    assert_eq!(rt; read_head(&bytes), Err(HeadFault::LenBelow40));
    assert_eq!(rt; read_head(&INIT_HEAD[..39]), Err(HeadFault::Short));
    assert_eq!(rt; read_head(&[]), Err(HeadFault::Short));
}

#[test]
fn a_frame_is_whole_from_40_to_its_limit(rt: HostRuntime) {
    let mut frame = [0u8; 40];
    frame[0] = 40;
    assert!(rt; whole_frame(&frame));
    assert!(rt; !whole_frame(&frame[..39]));
    assert!(rt; !whole_frame(&INIT_HEAD));
    assert_eq!(rt; LONGEST_FRAME, 131_072 + 4096);
}

#[test]
fn a_reply_s_error_stands_negated(rt: HostRuntime) {
    let mut head = [0u8; 16];
    write_out_head(80, 0, 1, &mut head);
    assert_eq!(rt;
        head.as_slice(),
        [0x50, 0, 0, 0, 0, 0, 0, 0, 1, 0, 0, 0, 0, 0, 0, 0].as_slice()
    );
    write_out_head(16, 71, 2, &mut head);
    assert_eq!(rt;
        head.as_slice(),
        [
            0x10, 0, 0, 0, 0xb9, 0xff, 0xff, 0xff, 2, 0, 0, 0, 0, 0, 0, 0
        ]
        .as_slice()
    );
    assert_eq!(rt;
        out_head_of(&head),
        OutHead {
            len: 16,
            errno: 71,
            unique: 2,
        }
    );
}

#[test]
fn numbers_are_appended_lowest_byte_first(rt: HostRuntime) -> Result<(), Fail> {
    let mut out = Vec::new(rt.alloc());
    append_u16(&mut out, 0x0201)?;
    append_u32(&mut out, 0x0605_0403)?;
    append_u64(&mut out, 0x0e0d_0c0b_0a09_0807)?;
    assert_eq!(rt;
        out.as_slice(),
        [1, 2, 3, 4, 5, 6, 7, 8, 9, 10, 11, 12, 13, 14].as_slice()
    );
    Ok(())
}
