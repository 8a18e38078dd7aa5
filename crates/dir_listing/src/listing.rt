//! A directory that is listed page by page.
ghost use Rattle.std.specs.Prelude.{◌≡◌, IfOk, OnOk, OnErr};
ghost use Rattle.object_names.specs.ShownNames.{shown_entries, Shows};
ghost use Rattle.dir_listing.specs.Pages.{none_listed, with_page};

use crate::entries::{parted, put_dirs, put_files};
use crate::kept::{Kept, kept_items, kept_prefixes};
use bucket_api::Page;
use io_ports::{NoMemory, Row, Text};
use object_names::{DirItem, entry_row};
use std::alloc::Global;
use std::marker::Model;

/// What was listed of a directory so far, page by page. Contracts see it as the directory's prefix, whether prefixes
/// make directories, and the names of all items, each with what its object is, and all prefixes of the pages added, in
/// the order of the pages.
#[derive(Drop)]
pub struct Listing {
    alloc: Global,
    prefix: Text,
    implicit: bool,
    items: Vec<Kept>,
    prefixes: Vec<Kept>,
}

impl Model for Listing {
    ghost use Rattle.object_names.specs.ShownNames.{Listed};
    ghost use Rattle.dir_listing.specs.Names.{listed_from, Fit};

    ghost Value = { Listed };

    ghost view = { λ l. listed_from l.prefix l.items.items l.prefixes.items l.implicit };

    ghost invariant = { λ l. Fit l.prefix l.items.items l.prefixes.items };
}

impl Listing {
    /// A listing of the directory with this prefix, with no page added. The prefix is empty for the root, and else ends
    /// in a slash. With `implicit`, a listed prefix makes a directory, as in gcsfuse's mode of that name.
    pub fn new(alloc: Global, prefix: Text, implicit: bool) -> Listing
        ensures ok { result ≡ none_listed prefix implicit }
    {
        Listing {
            alloc,
            prefix,
            implicit,
            items: Vec::new(alloc),
            prefixes: Vec::new(alloc),
        }
    }

    /// Adds a page of the directory's list behind those added before. The page is only lent, and each of its names is
    /// copied once. `NoMemory` where memory for them was refused; then nothing has changed.
    pub fn add_page(&mut self, page: &Page) -> Result<(), NoMemory>
        ensures ok { OnOk result (self.new ≡ with_page self.old page.now) }
        ensures err { OnErr result (self.new ≡ self.old) }
    {
        let prefix = self.prefix.as_str().as_bytes();
        let mut items = kept_items(self.alloc, prefix, page.items.as_slice())?;
        let mut prefixes = kept_prefixes(self.alloc, prefix, page.prefixes.as_slice())?;
        self.items.reserve(items.len())?;
        self.prefixes.reserve(prefixes.len())?;
        self.items.append(&mut items).unwrap();
        self.prefixes.append(&mut prefixes).unwrap();
        Ok(())
    }

    /// The entries of the directory, out of all pages together: by shown names in the order of their bytes, a file under
    /// its name with the suffix where a directory of the same name is there too. Names that are no component, whose path
    /// has more than 1,023 bytes or that equal the prefix give no entry. The names that are shown are those that were kept,
    /// moved. `NoMemory` where memory for the entries was refused.
    pub fn finish(self) -> Result<Row<DirItem>, NoMemory>
        ensures ok { IfOk result (λ row. row.items ≡ shown_entries self) }
        ensures shows { IfOk result (λ row. Shows self row.items) }
    {
        let (mut entries, files) = parted(self.alloc, self.items)?;
        put_dirs(&mut entries, self.prefixes, self.implicit)?;
        put_files(&mut entries, files)?;
        entry_row(self.alloc, entries)
    }
}
