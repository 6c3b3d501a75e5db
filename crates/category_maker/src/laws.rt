//! What the texts of a number say.

ghost use Rattle.category_maker.specs.Laws.{CategoriesRead, ProgramsRead, ProgramsWellFormed, SchedulesLegal, SchedulesRead};

/// The category text of each number from 2 to 12 is read, to the root, the names, the rules and the symbols of the category.
pub fn made_categories()
    ensures { CategoriesRead }
{}

/// The program of each number from 2 to 12 is well formed over the category of the number, and its text is read over the
/// names and the rules of the category to this program.
pub fn made_programs()
    ensures well_formed { ProgramsWellFormed }
    ensures read { ProgramsRead }
{}

/// The turns 0, 1, 0, 1 and so on are a legal schedule of the program of each number from 2 to 12, and the schedule text is
/// read for the program to these turns.
pub fn made_schedules()
    ensures legal { SchedulesLegal }
    ensures read { SchedulesRead }
{}
