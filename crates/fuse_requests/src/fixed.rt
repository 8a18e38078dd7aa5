//! The fixed part of each request, appended.
ghost use Rattle.std.specs.Prelude.{◌≡◌, ◌≤◌, ◌++◌, length, OnOk};
ghost use Rattle.fuse_head.specs.Head.{longest_frame};
ghost use Rattle.fuse_requests.specs.Layout.{fields_text};
ghost use Rattle.fuse_requests.specs.Text.{spelling, FieldsFit};
ghost use Rattle.fuse_requests.specs.Fields.{FixedOfNode, FixedOfHandle};

use crate::fields::push_fields;
use crate::request::Request;
use crate::{mounts, naming, nodes};
use io_ports::NoMemory;

/// Appends the fixed part of a request's body.
pub(crate) fn push_fixed(out: &mut Vec<u8>, request: &Request) -> Result<(), NoMemory>
    requires { length (spelling request.now).tail ≤ longest_frame }
    ensures ok { OnOk result (out.new.items ≡ out.old.items ++ fields_text (spelling request.now).fixed) }
    ensures fields { FieldsFit request.now }
{
    match request {
        Request::Forget { count, .. } => push_fields(out, &mounts::forget_in(*count)),
        Request::Mknod { mode, .. } => push_fields(out, &naming::mknod_in(*mode)),
        Request::Mkdir { .. } => push_fields(out, &naming::mkdir_in()),
        Request::Rename { newdir, .. } => push_fields(out, &naming::rename_in(*newdir)),
        Request::Init {
            major,
            minor,
            readahead,
            flags,
        } => { push_fields(out, &mounts::init_in(*major, *minor, *readahead, *flags)) }
        Request::Create { .. } => push_fields(out, &naming::create_in()),
        Request::Interrupt => push_fields(out, &mounts::interrupt_in()),
        Request::BatchForget { pairs } => {
            let count = pairs.len() as u32;
            push_fields(out, &mounts::batch_forget_in(count))
        }
        Request::Rename2 { newdir, flags, .. } => {
            push_fields(out, &naming::rename2_in(*newdir, *flags))
        }
        _ => push_fixed_of_node(out, request),
    }
}

fn push_fixed_of_node(out: &mut Vec<u8>, request: &Request) -> Result<(), NoMemory>
    requires room { length (spelling request.now).tail ≤ longest_frame }
    requires node { FixedOfNode request.now }
    ensures ok { OnOk result (out.new.items ≡ out.old.items ++ fields_text (spelling request.now).fixed) }
    ensures fields { FieldsFit request.now }
{
    match request {
        Request::Getattr { .. } => push_fields(out, &nodes::getattr_in()),
        Request::Setattr {
            valid,
            size,
            mtime,
            nanos,
            ..
        } => { push_fields(out, &nodes::setattr_in(*valid, *size, *mtime, *nanos)) }
        Request::Opening { flags, .. } => push_fields(out, &nodes::open_in(*flags)),
        Request::Opendir { .. } => push_fields(out, &nodes::open_in(0)),
        _ => push_fixed_of_handle(out, request),
    }
}

fn push_fixed_of_handle(out: &mut Vec<u8>, request: &Request) -> Result<(), NoMemory>
    requires room { length (spelling request.now).tail ≤ longest_frame }
    requires handle { FixedOfHandle request.now }
    ensures ok { OnOk result (out.new.items ≡ out.old.items ++ fields_text (spelling request.now).fixed) }
    ensures fields { FieldsFit request.now }
{
    match request {
        Request::Read {
            fh,
            first,
            size,
            ..
        }
        | Request::Readdir {
            fh,
            first,
            size,
            ..
        } => { push_fields(out, &nodes::read_in(*fh, *first, *size)) }
        Request::Write {
            fh,
            first,
            content,
            ..
        } => {
            let size = content.as_slice().len() as u32;
            push_fields(out, &nodes::read_in(*fh, *first, size))
        }
        Request::Release { fh, .. } | Request::Releasedir { fh, .. } => {
            push_fields(out, &nodes::release_in(*fh))
        }
        Request::Fsync { fh, .. } | Request::Fsyncdir { fh, .. } => {
            push_fields(out, &nodes::fsync_in(*fh))
        }
        Request::Flush { fh, .. } => push_fields(out, &nodes::flush_in(*fh)),
        _ => Ok(()),
    }
}
