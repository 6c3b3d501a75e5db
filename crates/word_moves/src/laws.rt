//! What follows over verdicts.

ghost use Rattle.word_moves.specs.Verdicts.{LinkedIsMoved};

/// Moves lead from one program to another exactly where the verdict says that they do.
pub fn linked_programs()
    ensures { LinkedIsMoved }
{}
