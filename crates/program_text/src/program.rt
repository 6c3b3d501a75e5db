//! Program texts.

ghost use Rattle.std.specs.Prelude.{◌≡◌, ◌≤◌, ◌<◌, ◌+◌, ◌-◌, ◌^◌, ◌++◌, length, IfOk, OnOk};
ghost use Rattle.line_text.specs.Text.{words_of};
ghost use Rattle.fusion_rules.specs.Fusion.{fuses};
ghost use Rattle.tree_shapes.specs.Labelled.{leaves, size};
ghost use Rattle.tree_shapes.specs.Views.{labelled};
ghost use Rattle.tree_shapes.specs.declared.limits.TheConstants.{STRAND_LIMIT};
ghost use Rattle.program_text.specs.Answers.{Says, Told, so_far};
ghost use Rattle.program_text.specs.Grammar.{begun, body_of, line_of, program_in, program_said};
ghost use Rattle.program_text.specs.Program.{program_of};
ghost use Rattle.program_text.specs.WellFormed.{IsProgram};

use crate::command_line::read_command;
use crate::draft::Draft;
use crate::fault::{ProgramFault, Stop, stop_on_line};
use crate::head::read_head;
use crate::plan::{Plan, Site};
use crate::push::push;
use crate::site_line::read_site;
use fusion_rules::{Names, Rules};
use line_text::{Line, Lines};
use std::alloc::{AllocError, Global};
use tree_shapes::Tree;

/// The program of a text of fewer than 2^32 - 1 bytes, or its first fault.
///
/// The text has the line `program 1` or `program 2`, the line `start` with a tree of 2 to 24 strands, whose nodes are
/// written `(L R):q`, and then lines `site NAME FIRST LAST`, `braid K +`, `braid K -`, `raise K` and `measure K`; in version
/// 2 also `measure K as NAME` and `braid K S when NAME LABEL`. Commands belong to the site before them; without a site
/// line there is the one site `main` with all strands. The names are as many as the labels of the rules. `Memory` is
/// free. A program that is read is well formed.
pub fn read_program(
    alloc: Global,
    names: &Names,
    rules: &Rules,
    bytes: &[u8],
) -> Result<Plan, ProgramFault>
    requires short { length bytes.now < 2 ^ 32 - 1 }
    requires counts { length names.now ≡ rules.now.count }
    ensures program { Told program_of result (program_in names.now (fuses rules.now) bytes.now) }
    ensures well_formed { IfOk result (λ plan. IsProgram (fuses rules.now) rules.now.count (program_of plan)) }
{
    read_lines(alloc, names, rules, bytes)
}

/// Reads the lines of a program.
#[tactic(auto, unfolding(crate::specs::Grammar::program_in))]
fn read_lines(
    alloc: Global,
    names: &Names,
    rules: &Rules,
    bytes: &[u8],
) -> Result<Plan, ProgramFault>
    requires short { length bytes.now < 2 ^ 32 - 1 }
    requires counts { length names.now ≡ rules.now.count }
    ensures { Told program_of result (program_in names.now (fuses rules.now) bytes.now) }
{
    let mut lines = Lines::new(bytes);
    let (version, start) = read_head(alloc, names, rules, &mut lines)?;
    let draft = begin(alloc, &start)?;
    let whole = read_body(alloc, names, version, &mut lines, draft)?;
    Ok(finish(version, start, whole)?)
}

/// The draft of a start: the site `main` with all strands, and no commands.
fn begin(alloc: Global, start: &Tree) -> Result<Draft, AllocError>
    requires { size (labelled start.now) ≤ STRAND_LIMIT }
    ensures { IfOk result (λ draft. so_far draft ≡ begun (labelled start.now)) }
{
    let mut strands = Vec::new(alloc);
    push_leaves(start, &mut strands)?;
    let main = Site {
        name: String::from_str(alloc, "main")?,
        first: 1,
        last: strands.len() as u8,
        commands: Vec::new(alloc),
    };
    Ok(Draft {
        earlier: Vec::new(alloc),
        current: main,
        has_site: false,
        outcomes: Vec::new(alloc),
        strands,
        commands: 0,
        measured: 0,
    })
}

/// Appends the labels of the strands of a tree.
fn push_leaves(tree: &Tree, strands: &mut Vec<u8>) -> Result<(), AllocError>
    ensures labels { OnOk result (strands.new.items ≡ strands.old.items ++ leaves (labelled tree.now)) }
    ensures count { OnOk result (length strands.new.items ≡ length strands.old.items + size (labelled tree.now)) }
{
    match tree {
        Tree::Leaf(label) => push(strands, *label),
        Tree::Node(fork) => {
            push_leaves(&fork.left, strands)?;
            push_leaves(&fork.right, strands)
        }
    }
}

/// Reads the lines behind the start.
fn read_body(
    alloc: Global,
    names: &Names,
    version: u8,
    lines: &mut Lines,
    draft: Draft,
) -> Result<Draft, ProgramFault>
    ensures { Told so_far result (body_of names.now version (so_far draft) lines.old.ahead) }
{
    let mut draft = draft;
    while let Some(line) = lines.next_line()? {
        draft = stop_on_line(line.number, read_line(alloc, names, version, &line, draft))?;
    }
    Ok(draft)
}

/// Reads a site line or a command line.
fn read_line(
    alloc: Global,
    names: &Names,
    version: u8,
    line: &Line,
    draft: Draft,
) -> Result<Draft, Stop>
    ensures { Says so_far result (line_of names.now version (so_far draft) (words_of line.now.text.now)) }
{
    if line.has_word(0, b"site") {
        read_site(alloc, line, draft)
    } else {
        read_command(alloc, names, version, line, draft)
    }
}

/// The plan of a draft to which no line is added.
fn finish(version: u8, start: Tree, whole: Draft) -> Result<Plan, AllocError>
    ensures { IfOk result (λ plan. program_of plan ≡ program_said version (labelled start) (so_far whole)) }
{
    let Draft {
        earlier,
        current,
        outcomes,
        ..
    } = whole;
    let mut sites = earlier;
    push(&mut sites, current)?;
    Ok(Plan {
        version,
        start,
        sites,
        outcomes,
    })
}
