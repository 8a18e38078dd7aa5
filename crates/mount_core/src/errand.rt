//! What a request has to do on its bucket.
ghost use Rattle.std.specs.Prelude.{◌≡◌, ◌≢◌, ◌≤◌, false, List, [], None, IfOk, IfSome, IsSome, OnOk, OnErr, option_map};
ghost use Rattle.std.specs.List.{filter_map};
ghost use Rattle.dir_listing.specs.Pages.{with_pages};
ghost use Rattle.file_metadata.specs.FileMetadata.{last_second};
ghost use Rattle.fuse_requests.specs.Grammar.{without_spare};
ghost use Rattle.bucket_api.specs.Operation.{operation, IsAllowed};
ghost use Rattle.mount_core.specs.Errands.{keys_of, plan_of, plan_over, wanted_of, AsksAs, HasAsked, HoldsEntries, IsErrand, IsListing, IsWalked};
ghost use Rattle.mount_core.specs.Metadatas.{GivesMetadata};
ghost use Rattle.mount_model.specs.Configs.{IsConfig};
ghost use Rattle.mount_model.specs.Observing.{next_step, Observed};
ghost use Rattle.mount_rules.specs.Dispatch.{early, is_full, plan, rules_of, view_in, wants};
ghost use Rattle.mount_rules.specs.Files.{FilesAreShort};
ghost use Rattle.mount_rules.specs.Mount.{IsMount};
ghost use Rattle.mount_rules.specs.Plans.{answers_of, done};
ghost use Rattle.mount_rules.specs.Requests.Opendir as opendir;
ghost use Rattle.mount_rules.specs.Rules.{AtTake};
ghost use Rattle.mount_state.specs.Spares.{Fills};
ghost use Rattle.object_names.specs.declared.shown.DirItem.{DirItem};
ghost use Rattle.plan_files.specs.Errands.{read_of};
ghost use Rattle.plan_names.specs.Errands.{next_of, MayMake};

use crate::{files, making, names, removing};
use bucket_api::{Answer, Op};
use dir_listing::Listing;
use fuse_requests::Request;
use io_ports::{NoMemory, Row};
use mount_model::{Config, Next};
use mount_state::Mount;
use object_names::DirItem;
use plan_files::FileErrand;
use plan_names::NameErrand;
use staged_file::Frozen;
use std::alloc::Global;

/// What a request has to do on its bucket, as plain data made from what it sees at its take.
#[derive(Drop)]
pub(crate) enum Errand {
    /// Nothing.
    Nothing,
    /// An errand on names.
    Names(NameErrand),
    /// An errand on a file.
    Files(FileErrand),
    /// A flush.
    Flush {
        /// The errand.
        errand: FileErrand,
        /// What is staged, as it was at the take.
        frozen: Frozen,
    },
}

impl Errand {
    /// The errand of a request that isn't refused, at a second. `NoMemory` where memory for its paths, or for a copy of
    /// what it flushes, was refused.
    pub(crate) fn of(
        alloc: Global,
        config: &Config,
        mount: &Mount,
        second: u64,
        request: &Request,
    ) -> Result<Errand, NoMemory>
        requires config { IsConfig config.now }
        requires second { second ≤ last_second }
        requires valid { IsMount mount.now.mount }
        requires short { FilesAreShort mount.now.mount }
        requires metadata { GivesMetadata mount.now.mount }
        requires free { early mount.now.mount (without_spare request.now) ≡ None }
        requires fits { is_full config.now mount.now.mount (without_spare request.now) ≡ false }
        ensures plan { IfOk result (λ errand. (at : AtTake) → at.config ≡ config.now → at.second ≡ second → AsksAs (plan_over errand at.contents at.second) (plan at mount.now.mount (without_spare request.now))) }
        ensures wanted { IfOk result (λ errand. wanted_of errand ≡ wants config.now mount.now.mount (without_spare request.now)) }
        ensures keys { IfOk result (λ errand. keys_of errand ≡ (rules_of (without_spare request.now)).keys (view_in mount.now.mount (without_spare request.now))) }
        ensures errand { IfOk result IsErrand }
        ensures entries { IfOk result (λ errand. (seen : List Observed) (items : List DirItem) → HoldsEntries errand config.now.implicit_dirs (answers_of seen) items → Fills config.now mount.now.mount (without_spare request.now) seen items) }
    {
        match request {
            Request::Lookup { node, name } => {
                names::look_up(alloc, config, mount, *node, name.as_slice())
            }
            Request::Opendir { node } => names::list(alloc, config, mount, *node),
            Request::Create { node, name } | Request::Mknod { node, name, .. } => {
                making::make_file(alloc, mount, *node, name.as_slice())
            }
            Request::Symlink { node, name, target } => {
                making::make_link(alloc, mount, *node, name.as_slice(), target.as_slice())
            }
            Request::Mkdir { node, name } => {
                making::make_directory(alloc, mount, *node, name.as_slice())
            }
            Request::Unlink { node, name } => {
                removing::unlink(alloc, mount, *node, name.as_slice())
            }
            Request::Rmdir { node, name } => {
                removing::remove_directory(alloc, mount, *node, name.as_slice())
            }
            Request::Rename {
                node,
                newdir,
                name,
                newname,
            }
            | Request::Rename2 {
                node,
                newdir,
                name,
                newname,
                ..
            } => {
                let (name, newname) = (name.as_slice(), newname.as_slice());
                removing::rename(alloc, config, mount, *node, name, *newdir, newname)
            }
            Request::Getattr { node } | Request::Opening { node, .. } => {
                files::ask(alloc, mount, *node)
            }
            Request::Setattr {
                node,
                valid,
                size,
                mtime,
                nanos,
            } => {
                let asked = plan_files::Asked {
                    valid: *valid,
                    size: *size,
                    seconds: *mtime,
                    nanos: *nanos,
                };
                files::set(alloc, mount, second, *node, &asked)
            }
            Request::Read {
                node,
                first,
                size,
                ..
            } => files::read(alloc, mount, *node, *first, *size),
            Request::Write {
                node,
                first,
                content,
                ..
            } => files::write(alloc, mount, *node, *first, content.as_slice()),
            Request::Flush { node, .. } | Request::Fsync { node, .. } => {
                files::flush(alloc, mount, *node)
            }
            _ => Ok(Errand::Nothing),
        }
    }

    /// The read of all that the errand wants of a source; none where it wants nothing. `NoMemory` comes only where it wants
    /// something.
    pub(crate) fn read_op(&self, alloc: Global) -> Result<Option<Op>, NoMemory>
        requires { IsErrand self.now }
        ensures ok { IfOk result (λ found. option_map operation found ≡ option_map read_of (wanted_of self.now)) }
        ensures may { IfOk result (λ found. IfSome found (λ op. IsAllowed (operation op))) }
        ensures err { OnErr result (IsSome (wanted_of self.now)) }
    {
        match self {
            Errand::Files(errand) | Errand::Flush { errand, .. } => {
                plan_files::read_op(alloc, errand)
            }
            _ => Ok(None),
        }
    }

    /// What an errand that is walked asks next, after it was answered so; `second` stamps what it makes. What it wants of a
    /// source was read before.
    pub(crate) fn next_op(
        &self,
        alloc: Global,
        second: u64,
        answers: &[Answer],
    ) -> Result<Next, NoMemory>
        requires walked { IsWalked self.now }
        requires errand { IsErrand self.now }
        requires asked { HasAsked self.now second answers.now }
        ensures ok { IfOk result (λ next. next_step next ≡ next_of (plan_of self.now [] second answers.now)) }
        ensures may { IfOk result (λ next. MayMake (next_step next)) }
        ensures err { OnErr result (plan_of self.now [] second answers.now ≢ done) }
    {
        match self {
            Errand::Nothing | Errand::Files(FileErrand::Source { .. }) => Ok(Next::Finish),
            Errand::Names(errand) => plan_names::next_op(alloc, errand, second, answers),
            Errand::Files(errand) => plan_files::next_op(alloc, errand, second, answers),
            Errand::Flush { .. } => unreachable!(),
        }
    }

    /// The entries of a directory whose listing was answered so; none where the errand lists none. `NoMemory` where
    /// memory for them was refused.
    pub(crate) fn entries(
        &self,
        alloc: Global,
        implicit: bool,
        answers: &[Answer],
    ) -> Result<Row<DirItem>, NoMemory>
        ensures ok { IfOk result (λ row. HoldsEntries self.now implicit answers.now row.items) }
        ensures err { OnErr result (IsListing self.now) }
    {
        let Errand::Names(NameErrand::Opendir { prefix, .. }) = self else {
            return Ok(Row::new(alloc));
        };
        let mut listing = Listing::new(alloc, prefix.copy(alloc)?, implicit);
        add_pages(&mut listing, answers)?;
        listing.finish()
    }
}

/// Adds the pages among these answers to a listing, in order.
fn add_pages(listing: &mut Listing, answers: &[Answer]) -> Result<(), NoMemory>
    ensures { OnOk result (listing.new ≡ with_pages listing.old (filter_map opendir.page_in answers.now)) }
{
    for answer in answers {
        if let Answer::Page(page) = answer {
            listing.add_page(page)?;
        }
    }
    Ok(())
}
