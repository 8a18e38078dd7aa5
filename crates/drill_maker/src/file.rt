//! The calls of a drill that speak of one file.
ghost use Rattle.std.specs.Prelude.{◌≡◌, ◌∷◌, [], ◌++◌, decimal, IfOk, OnOk};
ghost use Rattle.fuse_requests.specs.declared.request.Request.TheVariants.{Create, Write, Flush, Release};
ghost use Rattle.drill_maker.specs.Steps as steps;
ghost use Rattle.drill_maker.specs.Steps.{with_steps};
ghost use Rattle.drill_maker.specs.Drill as drill;
ghost use Rattle.drill_maker.specs.Files.{IsFile};

use crate::lane::Lane;
use fuse_requests::Request;
use io_ports::{Bytes, NoMemory};
use mount_model::CallId;
use scenario::Fix;
use std::alloc::Global;

/// The fixup of a head's node, which `struct fuse_in_header` has at 16.
pub(crate) fn node_of(call: CallId) -> Fix
    ensures { result ≡ steps.node_of call }
{
    Fix {
        at: 16,
        call,
        handle: false,
    }
}

/// The fixup of a handle, which begins the body of `struct fuse_write_in`, `fuse_flush_in` and `fuse_release_in`.
pub(crate) fn handle_of(call: CallId) -> Fix
    ensures { result ≡ steps.handle_of call }
{
    Fix {
        at: 40,
        call,
        handle: true,
    }
}

/// A letter and a number, as a name.
pub(crate) fn name_of(alloc: Global, letter: &str, number: u64) -> Result<Bytes, NoMemory>
    ensures { IfOk result (λ name. name ≡ letter.now ++ decimal number) }
{
    let name = format!(in alloc; "{letter}{number}")?;
    Ok(Bytes::from_vec(name.into_bytes()))
}

/// A file of a drill.
#[derive(Clone, Copy)]
pub(crate) struct File {
    /// The drill's seed.
    pub(crate) seed: u64,
    /// The number of the file's directory, 1 to 8.
    pub(crate) directory: u64,
    /// Its own number, 1 to 16.
    pub(crate) number: u64,
}

impl File {
    /// Creates the file, writes its content, flushes and releases it.
    pub(crate) fn fill(self, alloc: Global, lane: &mut Lane) -> Result<(), NoMemory>
        requires { IsFile self }
        ensures ok { OnOk result (lane.new ≡ with_steps lane.old (drill.filling self.seed self.directory self.number)) }
    {
        self.create(alloc, lane)?;
        self.write(alloc, lane)?;
        self.flush(alloc, lane)?;
        self.release(alloc, lane)
    }

    /// Takes the file away.
    pub(crate) fn remove(self, alloc: Global, lane: &mut Lane) -> Result<(), NoMemory>
        requires { IsFile self }
        ensures ok { OnOk result (lane.new ≡ with_steps lane.old (drill.removing self.directory self.number ∷ [])) }
    {
        let name = name_of(alloc, "f", self.number)?;
        lane.ask(
            alloc,
            &Request::Unlink { node: 0, name },
            &[node_of(self.made())],
        )
    }

    /// The CREATE of the file in its directory.
    fn create(self, alloc: Global, lane: &mut Lane) -> Result<(), NoMemory>
        requires { IsFile self }
        ensures ok { OnOk result (lane.new ≡ with_steps lane.old (drill.in_directory self.directory (Create 0 (drill.file_name self.number)) ∷ [])) }
    {
        let name = name_of(alloc, "f", self.number)?;
        lane.ask(
            alloc,
            &Request::Create { node: 0, name },
            &[node_of(self.made())],
        )
    }

    /// The WRITE of its whole content.
    #[tactic(auto, using(crate::proofs::WritableLaws::write_writable))]
    fn write(self, alloc: Global, lane: &mut Lane) -> Result<(), NoMemory>
        requires { IsFile self }
        ensures ok { OnOk result (lane.new ≡ with_steps lane.old (drill.on_file self.directory self.number (Write 0 0 0 (drill.content_of self.seed self.directory self.number)) ∷ [])) }
    {
        let content = self.content(alloc)?;
        let write = Request::Write {
            node: 0,
            fh: 0,
            first: 0,
            content,
        };
        lane.ask(alloc, &write, &self.handle())
    }

    /// Its FLUSH.
    #[tactic(auto, using(crate::proofs::WritableLaws::flush_writable))]
    fn flush(self, alloc: Global, lane: &mut Lane) -> Result<(), NoMemory>
        requires { IsFile self }
        ensures ok { OnOk result (lane.new ≡ with_steps lane.old (drill.on_file self.directory self.number (Flush 0 0) ∷ [])) }
    {
        lane.ask(alloc, &Request::Flush { node: 0, fh: 0 }, &self.handle())
    }

    /// Its RELEASE.
    #[tactic(auto, using(crate::proofs::WritableLaws::release_writable))]
    fn release(self, alloc: Global, lane: &mut Lane) -> Result<(), NoMemory>
        requires { IsFile self }
        ensures ok { OnOk result (lane.new ≡ with_steps lane.old (drill.on_file self.directory self.number (Release 0 0) ∷ [])) }
    {
        lane.ask(alloc, &Request::Release { node: 0, fh: 0 }, &self.handle())
    }

    /// The call that makes the directory.
    fn made(self) -> CallId
        requires { IsFile self }
        ensures { result ≡ drill.made self.directory }
    {
        CallId {
            lane: self.directory + 1,
            index: 1,
        }
    }

    /// The fixups of the file's node and of its handle.
    fn handle(self) -> [Fix; 2]
        requires { IsFile self }
        ensures { result ≡ steps.node_of (drill.created self.directory self.number) ∷ steps.handle_of (drill.created self.directory self.number) ∷ [] }
    {
        let created = CallId {
            lane: self.directory + 1,
            index: 4 * self.number - 2,
        };
        [node_of(created), handle_of(created)]
    }

    /// Its content.
    #[tactic(auto, unfolding(crate::specs::Drill::content_of))]
    fn content(self, alloc: Global) -> Result<Bytes, NoMemory>
        requires { IsFile self }
        ensures { IfOk result (λ content. content ≡ drill.content_of self.seed self.directory self.number) }
    {
        let fill = (self.directory + self.number) as u8;
        Ok(Bytes::from_vec(vec![in alloc; fill; self.size()]?))
    }

    /// The size of its content, 1 to 131,072 bytes.
    fn size(self) -> usize
        requires { IsFile self }
        ensures { result ≡ drill.size_of self.seed self.directory self.number }
    {
        let spread = self.seed % 1000 * 31 + 977 * self.directory + 4099 * self.number;
        1 + (spread % 131_072) as usize
    }
}
