//! What a listed name is in its directory.
ghost use Rattle.std.specs.Prelude.{◌≡◌, ◌≢◌, ℕ, List, ◌++◌, ◌∷◌, [], MatchOption};
ghost use Rattle.dir_listing.specs.Names.{listed_name, FitsRole, HasNoPart, IsPartOf};

use object_names::{PATH_MAX, component_text};

/// What a listed name is in the directory.
#[derive(Clone, Copy)]
pub(crate) enum Role {
    /// The name of a directory's placeholder: the prefix, a component that can be shown, and a slash.
    Placeholder,
    /// The name of a file's or symlink's object: the prefix and a component that can be shown.
    FileObject,
    /// A name that gives no entry.
    NoEntry,
}

/// What a listed name is in the directory of this prefix, and its component, or the whole name where it gives no entry.
/// No memory is asked for.
pub(crate) fn role_of<'a>(prefix: &[u8], name: &'a str) -> (Role, &'a str)
    ensures whole { listed_name prefix.now result.0 result.1.now ≡ name.now }
    ensures fits { FitsRole prefix.now result.0 result.1.now }
{
    let bytes = name.as_bytes();
    match dir_path(bytes) {
        Some(path) => match shown_part(prefix, path) {
            Some(part) => (Role::Placeholder, part),
            None => (Role::NoEntry, name),
        },
        None => match shown_part(prefix, bytes) {
            Some(part) => (Role::FileObject, part),
            None => (Role::NoEntry, name),
        },
    }
}

/// The part that a path leaves after the prefix of a directory, where it can be shown: it is a component, and the path
/// is not too long.
fn shown_part<'a>(prefix: &[u8], path: &'a [u8]) -> Option<&'a str>
    ensures { MatchOption result (HasNoPart prefix.now path.now) (λ part. IsPartOf prefix.now path.now part.now) }
{
    let Some(rest) = rest_of(prefix, path) else {
        return None;
    };
    if path.len() > PATH_MAX {
        return None;
    }
    match component_text(rest) {
        Ok(part) => Some(part),
        Err(_) => None,
    }
}

/// What a path has after the prefix, where it begins with it.
fn rest_of<'a>(prefix: &[u8], path: &'a [u8]) -> Option<&'a [u8]>
    ensures { MatchOption result ((rest : List ℕ) → path.now ≢ prefix.now ++ rest) (λ rest. path.now ≡ prefix.now ++ rest.now) }
{
    path.strip_prefix(prefix)
}

/// The path of a directory, of which this is the name of the placeholder.
fn dir_path(name: &[u8]) -> Option<&[u8]>
    ensures { MatchOption result ((front : List ℕ) → name.now ≢ front ++ 47 ∷ []) (λ path. name.now ≡ path.now ++ 47 ∷ []) }
{
    name.strip_suffix(b"/".as_slice())
}
