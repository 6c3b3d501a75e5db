ghost use Rattle.program_text.specs.Laws.{AllWellFormed, ProgramsAgain, ProgramsOneText};
ghost use Rattle.program_text.specs.Trees.{TreeAgain, TreeExact};

/// Trees are read by their grammar: the pieces of a tree are this tree, and pieces that are a tree are its pieces.
pub fn tree_grammar()
    ensures again { TreeAgain }
    ensures exact { TreeExact }
{}

/// What a text says is well formed; the canonical text of a well formed program is read to this program; and two well
/// formed programs never have one text.
pub fn program_texts()
    ensures well_formed { AllWellFormed }
    ensures again { ProgramsAgain }
    ensures one_text { ProgramsOneText }
{}
