//! The test of a name that stands between slashes.
ghost use Rattle.std.specs.Prelude.{◌≡◌, IfOk, IfErr, OnOk, MatchResult, MatchOption, Some, None, true, false};
ghost use Rattle.std.specs.List.{list_any};
ghost use Rattle.std.specs.Str.{is_utf8};
ghost use Rattle.object_names.specs.Components as components;
ghost use Rattle.object_names.specs.Components.{name_fault, IsRefusedFor, IsComponent, is_slash, is_control};

use io_ports::Text;
use std::alloc::Global;
use std::marker::Model;
use std::str;

/// The greatest length of a component, in bytes: `NAME_MAX` of Linux's limits.h.
const COMPONENT_MAX: usize = 255;

/// Why a name is no component. A name with several faults is refused for the first of them in this order, and for want
/// of memory only where it has none.
#[derive(Clone, Copy, Debug, PartialEq, Eq)]
pub enum NameFault {
    /// Memory for the copy was refused.
    NoMemory,
    /// The name has no bytes.
    Empty,
    /// The name has more than 255 bytes.
    TooLong,
    /// The bytes are not UTF-8.
    NotUtf8,
    /// The name is `.` or `..`.
    Dot,
    /// The name has a `/`.
    Slash,
    /// The name has a zero byte, an LF or a CR.
    Control,
}

/// One name of a path, as it stands between slashes: 1 to 255 bytes of UTF-8 without `/`, zero byte, CR and LF, and
/// neither `.` nor `..`. Contracts see it as the list of its bytes.
#[derive(Debug, Drop)]
pub struct Component {
    name: Text,
}

impl Model for Component {
    ghost use Rattle.std.specs.Prelude.{◌≡◌, List, ℕ, None};
    ghost use Rattle.object_names.specs.Components.{name_fault};

    ghost Value = { List ℕ };

    ghost view = { λ component. component.name };

    ghost invariant = { λ component. name_fault component.name ≡ None };
}

impl Component {
    /// A copy of these bytes, where they are a component; else their first fault.
    pub fn new(alloc: Global, bytes: &[u8]) -> Result<Component, NameFault>
        ensures ok { IfOk result (λ part. part ≡ bytes.now) }
        ensures valid { OnOk result (name_fault bytes.now ≡ None) }
        ensures component { OnOk result (IsComponent bytes.now) }
        ensures full { IsComponent bytes.now → IfErr result (λ fault. fault ≡ NameFault.NoMemory) }
        ensures err { IfErr result (λ fault. IsRefusedFor bytes.now fault) }
    {
        match component_text(bytes) {
            Ok(text) => match Text::of(alloc, text) {
                Ok(name) => Ok(Component { name }),
                Err(_) => Err(NameFault::NoMemory),
            },
            Err(fault) => Err(fault),
        }
    }

    /// The name, lent.
    pub fn as_str(&self) -> &str
        ensures bytes { result.now ≡ self.now }
        ensures valid { name_fault self.now ≡ None }
        ensures component { IsComponent self.now }
    {
        self.name.as_str()
    }
}

/// The bytes as a text, where they are a component; else their first fault. It is the test of a borrowed name, and asks
/// for no memory.
pub fn component_text(bytes: &[u8]) -> Result<&str, NameFault>
    ensures { MatchResult result (λ text. (text.now ≡ bytes.now) × (name_fault bytes.now ≡ None)) (λ fault. name_fault bytes.now ≡ Some fault) }
{
    if bytes.is_empty() {
        return Err(NameFault::Empty);
    }
    if bytes.len() > COMPONENT_MAX {
        return Err(NameFault::TooLong);
    }
    let Some(text) = text_of(bytes) else {
        return Err(NameFault::NotUtf8);
    };
    if is_dots(bytes) {
        return Err(NameFault::Dot);
    }
    if has_slash(bytes) {
        return Err(NameFault::Slash);
    }
    if has_control(bytes) {
        return Err(NameFault::Control);
    }
    Ok(text)
}

/// The bytes as a text, where they are UTF-8.
fn text_of(bytes: &[u8]) -> Option<&str>
    ensures { MatchOption result (is_utf8 bytes.now ≡ false) (λ text. (text.now ≡ bytes.now) × (is_utf8 bytes.now ≡ true)) }
{
    match str::from_utf8(bytes) {
        Ok(text) => Some(text),
        Err(_) => None,
    }
}

/// Whether a name is `.` or `..`.
fn is_dots(name: &[u8]) -> bool
    ensures { result ≡ components.is_dots name.now }
{
    name == b".".as_slice() || name == b"..".as_slice()
}

/// Whether a name has a slash.
fn has_slash(name: &[u8]) -> bool
    ensures { result ≡ list_any is_slash name.now }
{
    name.contains(&b'/')
}

/// Whether a name has a byte that ends a text or a line: zero, LF or CR.
fn has_control(name: &[u8]) -> bool
    ensures { result ≡ list_any is_control name.now }
{
    name.iter()
        .any(|byte| *byte == 0 || *byte == b'\n' || *byte == b'\r')
}
