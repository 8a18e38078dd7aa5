//! Paths of files and directories, and the prefixes of directories.
ghost use Rattle.std.specs.Prelude.{◌≡◌, ◌≤◌, ◌<◌, ◌++◌, ◌+◌, ◌^◌, length, ◌↔◌, IsTrue, IfOk, OnOk, OnErr};
ghost use Rattle.object_names.specs.Paths.{path_max, dir_prefix_of, IsPrefix, IsPath};

use crate::component::Component;
use io_ports::{NoMemory, Text};
use std::alloc::Global;

/// The greatest length of a path, in bytes. With a slash it is still an object name of at most 1,024 bytes, which is
/// Cloud Storage's limit.
pub const PATH_MAX: usize = 1023;

/// Why a path was not made.
#[derive(Clone, Copy, Debug, PartialEq, Eq)]
pub enum PathFault {
    /// Memory for the path was refused.
    NoMemory,
    /// The path would have more than 1,023 bytes.
    TooLong,
}

/// The path of a child: the prefix of its parent, which is empty for the root, and the child's component.
///
/// `TooLong` exactly where it would pass 1,023 bytes.
pub fn join(alloc: Global, prefix: &str, part: &Component) -> Result<Text, PathFault>
    ensures ok { IfOk result (λ path. path ≡ prefix.now ++ part.now) }
    ensures path { IsPrefix prefix.now → IfOk result (λ path. IsPath path) }
    ensures long { (result ≡ Err PathFault.TooLong) ↔ (path_max < length (prefix.now ++ part.now)) }
{
    let part = part.as_str();
    if !path_fits(prefix, part) {
        return Err(PathFault::TooLong);
    }
    match joined(alloc, prefix, part) {
        Ok(path) => Ok(path),
        Err(_) => Err(PathFault::NoMemory),
    }
}

/// Whether the path of a child has at most 1,023 bytes: the prefix of its parent, and the child's component. It is the
/// test that [`join`] makes, and asks for no memory.
pub fn path_fits(prefix: &str, part: &str) -> bool
    ensures { IsTrue result ↔ (length (prefix.now ++ part.now) ≤ path_max) }
{
    prefix.len() <= PATH_MAX && part.len() <= PATH_MAX - prefix.len()
}

/// The prefix of the directory at a path: the path and a slash, or the empty text for the root, whose path is empty.
pub fn dir_prefix(alloc: Global, path: &str) -> Result<Text, NoMemory>
    ensures ok { IfOk result (λ prefix. prefix ≡ dir_prefix_of path.now) }
    ensures prefix { IsPath path.now → IfOk result (λ prefix. IsPrefix prefix) }
{
    if path.is_empty() {
        return Text::of(alloc, "");
    }
    joined(alloc, path, "/")
}

/// One text after the other, in one piece of memory.
pub(crate) fn joined(alloc: Global, front: &str, back: &str) -> Result<Text, NoMemory>
    requires { length front.now + length back.now < 2 ^ 64 }
    ensures ok { IfOk result (λ text. text ≡ front.now ++ back.now) }
{
    let mut text = String::with_capacity(alloc, front.len() + back.len())?;
    text.push_str(front)?;
    text.push_str(back)?;
    Ok(Text::from_string(text))
}
