//! A walk over the keys of a listing.
use bucket_api::Object;
use io_ports::Text;
use std::collections::BTreeMap;
use std::collections::btree_map::Range;

/// The next name that begins with the prefix.
#[derive(Clone, Copy)]
pub(crate) struct Ahead<'a> {
    pub(crate) name: &'a Text,
    /// What follows the prefix in it.
    pub(crate) rest: &'a str,
    pub(crate) object: &'a Object,
}

/// The keys that are left of a listing. All names that stand under one key that ends at a slash are
/// passed at once, by a new look-up in the map.
#[derive(Drop)]
pub(crate) struct Walk<'a> {
    pub(crate) objects: &'a BTreeMap<Text, Object>,
    pub(crate) prefix: &'a str,
    pub(crate) slash: bool,
    pub(crate) rest: Range<'a, Text, Object>,
    pub(crate) ahead: Option<Ahead<'a>>,
}

/// A key of a listing.
#[derive(Drop)]
pub(crate) enum Key<'a> {
    /// The whole name of an object.
    Name(&'a Text, &'a Object),
    /// A key that ends at a slash after the prefix, and the object that has it as its name.
    Prefix(Text, Option<&'a Object>),
}
