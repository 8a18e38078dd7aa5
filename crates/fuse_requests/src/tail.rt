//! What stands behind the fixed part of a request's body, appended.
ghost use Rattle.std.specs.Prelude.{◌≡◌, ◌≤◌, ◌++◌, length, OnOk};
ghost use Rattle.std.specs.List.{AllByRecursion};
ghost use Rattle.fuse_head.specs.Head.{longest_frame};
ghost use Rattle.fuse_requests.specs.Text.{name_text, pairs_text, spelling, PairFits, PairsFit};

use crate::request::{Forgotten, Request};
use fuse_head::append_u64;
use io_ports::{Bytes, NoMemory};

/// Appends what stands behind the fixed part of a request's body.
pub(crate) fn push_tail(out: &mut Vec<u8>, request: &Request) -> Result<(), NoMemory>
    ensures ok { OnOk result (out.new.items ≡ out.old.items ++ (spelling request.now).tail) }
    ensures pairs { OnOk result (PairsFit request.now) }
{
    match request {
        Request::Lookup { name, .. }
        | Request::Mknod { name, .. }
        | Request::Mkdir { name, .. }
        | Request::Unlink { name, .. }
        | Request::Rmdir { name, .. }
        | Request::Create { name, .. } => push_name(out, name),
        Request::Symlink { name, target, .. } => push_names(out, name, target),
        Request::Rename { name, newname, .. } | Request::Rename2 { name, newname, .. } => {
            push_names(out, name, newname)
        }
        Request::Write { content, .. } => {
            out.extend_from_slice(content.as_slice())?;
            Ok(())
        }
        Request::BatchForget { pairs } => push_pairs(out, pairs.as_slice()),
        _ => Ok(()),
    }
}

/// How many bytes stand behind the fixed part of a request's body.
pub(crate) fn tail_len(request: &Request) -> usize
    requires { length (spelling request.now).tail ≤ longest_frame }
    ensures { result ≡ length (spelling request.now).tail }
{
    match request {
        Request::Lookup { name, .. }
        | Request::Mknod { name, .. }
        | Request::Mkdir { name, .. }
        | Request::Unlink { name, .. }
        | Request::Rmdir { name, .. }
        | Request::Create { name, .. } => name.as_slice().len() + 1,
        Request::Symlink { name, target, .. } => names_len(name, target),
        Request::Rename { name, newname, .. } | Request::Rename2 { name, newname, .. } => {
            names_len(name, newname)
        }
        Request::Write { content, .. } => content.as_slice().len(),
        Request::BatchForget { pairs } => 16 * pairs.as_slice().len(),
        _ => 0,
    }
}

fn names_len(first: &Bytes, second: &Bytes) -> usize
    requires { length (name_text first.now ++ name_text second.now) ≤ longest_frame }
    ensures { result ≡ length (name_text first.now ++ name_text second.now) }
{
    first.as_slice().len() + 1 + second.as_slice().len() + 1
}

fn push_name(out: &mut Vec<u8>, name: &Bytes) -> Result<(), NoMemory>
    ensures ok { OnOk result (out.new.items ≡ out.old.items ++ name_text name.now) }
{
    out.extend_from_slice(name.as_slice())?;
    out.push(0)?;
    Ok(())
}

fn push_names(out: &mut Vec<u8>, first: &Bytes, second: &Bytes) -> Result<(), NoMemory>
    ensures ok { OnOk result (out.new.items ≡ out.old.items ++ (name_text first.now ++ name_text second.now)) }
{
    push_name(out, first)?;
    push_name(out, second)
}

fn push_pairs(out: &mut Vec<u8>, pairs: &[Forgotten]) -> Result<(), NoMemory>
    ensures ok { OnOk result (out.new.items ≡ out.old.items ++ pairs_text pairs.now) }
    ensures pairs { OnOk result (AllByRecursion PairFits pairs.now) }
{
    for pair in pairs {
        append_u64(out, pair.node)?;
        append_u64(out, pair.count)?;
    }
    Ok(())
}
