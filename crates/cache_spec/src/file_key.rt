//! The key of a file that may be kept.
use io_ports::Text;

/// A file that may be kept: an object's name and one of its generations. The bytes of a generation never change, so what
/// is kept under a key is right for as long as it is kept.
#[derive(Debug, Drop, Eq, Hash)]
pub struct FileKey {
    /// The object's name.
    pub name: Text,
    /// Its generation.
    pub generation: u64,
}

impl PartialEq for FileKey {
    ghost use Rattle.std.proofs.Common.{rules};
    ghost use Rattle.std.specs.Cmp.Rules.{comparing};
    ghost use Rattle.cache_spec.specs.KeptFiles.{same_file};

    ghost eq = { same_file };

    ghost laws = { Prim.search (comparing, rules) };

    fn eq(&self, other: &FileKey) -> bool {
        self.name == other.name && self.generation == other.generation
    }
}
