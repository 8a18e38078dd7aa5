//! The laws that tie a file's chain to what is held of its staged content, as clauses of a function that does nothing.
ghost use Rattle.staged_file.specs.Laws.{ChainIsShown, ChainIsHeld};

/// A file shows over a source what its chain holds, and the chain holds exactly what is to be held of the staged content.
pub fn chain_laws()
    ensures shows { ChainIsShown }
    ensures held { ChainIsHeld }
{}
