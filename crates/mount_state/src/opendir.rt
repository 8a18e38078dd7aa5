//! The end of an OPENDIR.
ghost use Rattle.std.specs.Prelude.{◌≡◌, ◌≤◌, ◌<◌, ◌^◌};
ghost use Rattle.std.specs.List.{list_all};
ghost use Rattle.fuse_replies.specs.Replies.{IsSendable, without_spare};
ghost use Rattle.mount_rules.specs.Requests.Opendir as spec;
ghost use Rattle.mount_state.specs.Spares.{entries_told};
ghost use Rattle.mount_state.specs.Tables.{mount_of, Uses};

use crate::tables::Tables;
use crate::told::Told;
use bucket_api::Answer;
use fuse_replies::Reply;
use fuse_replies::errno::EIO;
use io_ports::Row;
use object_names::DirItem;

impl Tables {
    /// A handle with the entries that were listed, or EIO where the bucket failed.
    pub(crate) fn open_directory(&mut self, node: u64, items: Row<DirItem>, seen: Told) -> Reply
        requires handle { 1 ≤ self.old.handles.spare }
        requires number { self.old.handles.next < 2 ^ 62 }
        ensures reply { result ≡ spec.reply_to (mount_of self.old) (entries_told seen.items items.items) }
        ensures mount { mount_of self.new ≡ spec.mount_after node (mount_of self.old) (entries_told seen.items items.items) }
        ensures uses { Uses 1 self.old self.new }
        ensures sendable { IsSendable (without_spare result) }
    {
        if !are_pages(seen.answers()) {
            return Reply::Error(EIO);
        }
        Reply::Opened(self.handles.open_dir(node, items))
    }
}

/// Whether all answers are pages.
fn are_pages(answers: &[Answer]) -> bool
    ensures { result ≡ list_all spec.is_page answers.now }
{
    answers.iter().all(is_page)
}

/// Whether the answer is a page.
fn is_page(answer: &Answer) -> bool
    ensures { result ≡ spec.is_page answer.now }
{
    match answer {
        Answer::Page(_) => true,
        _ => false,
    }
}
