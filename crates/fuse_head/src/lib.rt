//! Heads of FUSE requests and replies, and little-endian fields, for whoever reads or writes frames.
#![tactic(auto)]

mod fields;
mod in_head;
mod out_head;
#[cfg(test)]
mod tests;

pub use fields::{
    append_u16, append_u32, append_u64, put_u16, put_u32, put_u64, u16_at, u32_at, u64_at,
};
pub use in_head::{
    HeadFault, InHead, LONGEST_FRAME, head_of, read_head, whole_frame, write_in_head,
};
pub use out_head::{OutHead, out_head_of, write_out_head};
