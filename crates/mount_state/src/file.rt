//! What a mount keeps of a file or symlink.
ghost use Rattle.std.specs.Prelude.{◌≡◌};
ghost use Rattle.mount_rules.specs.Showing as spec;

use bucket_api::Meta;
use std::marker::Model;

/// What is kept of the object of a file or symlink.
#[derive(Drop)]
pub struct Kept {
    /// What the bucket last told of the generation.
    pub meta: Meta,
    /// The moment at which that generation was last known to be live.
    pub known: u64,
}

impl Model for Kept {
    ghost use Rattle.mount_rules.specs.Mount as rules;
    ghost use Rattle.mount_state.specs.Codes.{kept_code};

    ghost Value = { rules.Kept };

    ghost coded = { kept_code };

    ghost view = { λ k. record { meta = k.meta; known = k.known } };
}

/// A file or symlink: which generation of its object it shows.
#[derive(Drop)]
pub struct File {
    /// The generation.
    pub source: u64,
    /// The bytes of its content, which change with the generation alone.
    pub size: u64,
    /// What is kept of it.
    pub kept: Kept,
}

impl Model for File {
    ghost use Rattle.mount_rules.specs.Mount as rules;
    ghost use Rattle.mount_state.specs.Codes.{file_code};

    ghost Value = { rules.File };

    ghost coded = { file_code };

    ghost view = { λ f. record { source = f.source; size = f.size; kept = f.kept } };
}

impl File {
    /// The file that the bucket told of at this moment.
    pub(crate) fn shown(meta: Meta, moment: u64) -> File
        ensures { result ≡ spec.file_shown meta moment }
    {
        File {
            source: meta.generation,
            size: meta.size,
            kept: Kept {
                meta,
                known: moment,
            },
        }
    }

    /// Whether the file stands for this object's generation, or was known later than this moment.
    pub(crate) fn stands_for(&self, meta: &Meta, moment: u64) -> bool
        ensures { result ≡ spec.stands_for meta.now moment self.now }
    {
        self.source == meta.generation || moment < self.kept.known
    }

    /// Lets the file know that its own generation was shown at this moment, if it was.
    pub(crate) fn refresh(&mut self, meta: Meta, moment: u64)
        ensures { self.new ≡ spec.refreshed meta moment self.old }
    {
        if self.source != meta.generation {
            return;
        }
        self.kept.known = self.kept.known.max(moment);
        self.kept.keep_newer(meta);
    }
}

impl Kept {
    /// Keeps what tells the greater metageneration.
    fn keep_newer(&mut self, meta: Meta)
        ensures { self.new ≡ record self.old { meta = spec.newer self.old.meta meta } }
    {
        if self.meta.metageneration < meta.metageneration {
            self.meta = meta;
        }
    }
}
