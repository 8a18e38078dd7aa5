//! The law of what is told at the end of a call, as a clause of a function that does nothing.
ghost use Rattle.mount_kept.specs.Items.{NotesTellItems};

/// What is told of the notes of a call is told of its items along the log: the list is then as they leave it, and the uses
/// are printed of them.
pub fn kept_laws()
    ensures items { NotesTellItems }
{}
