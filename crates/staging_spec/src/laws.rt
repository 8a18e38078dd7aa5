//! The laws of contents, of touched blocks, of all files and of what is held of staged content, as clauses of functions
//! that do nothing.
ghost use Rattle.staging_spec.specs.Laws.{CutOffIsGone, WritesJoin, TouchedAreFew, WritesCount, ResizesCount, PutsCount, EndsCount, HeldIsShown, StagedStands, WrittenStands, ResizedStands};

/// Bytes cut off never come back; writes one behind the other join; touched blocks of a content are at most its blocks; a
/// write touches as many blocks more as it needs, and a size change none.
pub fn content_laws()
    ensures gone { CutOffIsGone }
    ensures joins { WritesJoin }
    ensures few { TouchedAreFew }
    ensures counts { WritesCount }
    ensures fewer { ResizesCount }
{}

/// Staged content put in changes the blocks that all files have touched by its own, in place of those that its file had;
/// and one let go leaves those of the others.
pub fn file_laws()
    ensures puts { PutsCount }
    ensures ends { EndsCount }
{}

/// What is held of staged content shows it again over its source; and staged content stands over its source when it is
/// staged, and behind each write and each size change.
pub fn overlay_laws()
    ensures shows { HeldIsShown }
    ensures staged { StagedStands }
    ensures written { WrittenStands }
    ensures resized { ResizedStands }
{}
