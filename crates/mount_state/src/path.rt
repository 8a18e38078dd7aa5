//! The path of a name that a request may show, made before the request asks anything.
ghost use Rattle.std.specs.Prelude.{◌≡◌, ◌++◌, IfOk};
ghost use Rattle.object_names.specs.Paths.{dir_prefix_of};

use io_ports::{NoMemory, Text};
use std::alloc::Global;
use std::marker::Model;

/// A path with room for a slash behind it. Contracts see the path.
#[derive(Drop)]
pub(crate) struct RoomyPath {
    text: String,
}

impl Model for RoomyPath {
    ghost use Rattle.std.specs.Prelude.{ℕ, List, ◌+◌, ◌≤◌, string_bytes, string_len, string_capacity};

    ghost Value = { List ℕ };

    ghost view = { λ p. string_bytes p.text };

    ghost invariant = { λ p. string_len p.text + 1 ≤ string_capacity p.text };
}

impl RoomyPath {
    /// The path of a part of a directory. `NoMemory` where memory for it was refused.
    pub(crate) fn of(alloc: Global, prefix: &str, part: &str) -> Result<RoomyPath, NoMemory>
        ensures { IfOk result (λ path. path ≡ prefix.now ++ part.now) }
    {
        let mut text = String::with_capacity(alloc, prefix.len() + part.len() + 1)?;
        text.push_str(prefix)?;
        text.push_str(part)?;
        Ok(RoomyPath { text })
    }

    /// An equal path of its own. `NoMemory` where memory for it was refused.
    fn copy(&self, alloc: Global) -> Result<RoomyPath, NoMemory>
        ensures { IfOk result (λ copy. copy ≡ self.now) }
    {
        let mut text = String::with_capacity(alloc, self.text.len() + 1)?;
        text.push_str(self.text.as_str())?;
        Ok(RoomyPath { text })
    }

    /// The path, lent.
    pub(crate) fn as_str(&self) -> &str
        ensures { result.now ≡ self.now }
    {
        self.text.as_str()
    }

    /// The path.
    fn into_path(self) -> Text
        ensures { result ≡ self }
    {
        let RoomyPath { text } = self;
        Text::from_string(text)
    }

    /// The prefix of the directory at the path: no memory is asked for.
    pub(crate) fn into_prefix(self) -> Text
        ensures { result ≡ dir_prefix_of self }
    {
        let RoomyPath { mut text } = self;
        if !text.is_empty() {
            text.push('/').unwrap();
        }
        Text::from_string(text)
    }
}

/// The path of a name, twice: for its node, and for the map of current nodes. Contracts see the path.
#[derive(Drop)]
pub(crate) struct PathTwice {
    path: RoomyPath,
    again: RoomyPath,
}

impl Model for PathTwice {
    ghost use Rattle.std.specs.Prelude.{ℕ, List, ◌≡◌};

    ghost Value = { List ℕ };

    ghost view = { λ p. p.path };

    ghost invariant = { λ p. p.again ≡ p.path };
}

impl PathTwice {
    /// The path of a part of a directory. `NoMemory` where memory for it was refused.
    pub(crate) fn of(alloc: Global, prefix: &str, part: &str) -> Result<PathTwice, NoMemory>
        ensures { IfOk result (λ path. path ≡ prefix.now ++ part.now) }
    {
        let path = RoomyPath::of(alloc, prefix, part)?;
        let again = path.copy(alloc)?;
        Ok(PathTwice { path, again })
    }

    /// The path, twice.
    pub(crate) fn into_paths(self) -> (Text, Text)
        ensures path { result.0 ≡ self }
        ensures again { result.1 ≡ self }
    {
        let PathTwice { path, again } = self;
        (path.into_path(), again.into_path())
    }

    /// The prefix of the directory at the path, twice.
    pub(crate) fn into_prefixes(self) -> (Text, Text)
        ensures prefix { result.0 ≡ dir_prefix_of self }
        ensures again { result.1 ≡ dir_prefix_of self }
    {
        let PathTwice { path, again } = self;
        (path.into_prefix(), again.into_prefix())
    }
}
