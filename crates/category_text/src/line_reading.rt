ghost use Rattle.std.specs.Prelude.{◌≡◌, ◌<◌, ◌≤◌, ℕ, length, IfOk, OnOk};
ghost use Rattle.line_text.specs.Text.{words_of};
ghost use Rattle.symbol_table.specs.Index.{AreThreeLabels};
ghost use Rattle.category_text.specs.Named.{named_draft, with_fusion};
ghost use Rattle.category_text.specs.Reading.{fuse_of, fusion_fault, is_head, line_kind};
ghost use Rattle.category_text.specs.Answers.{FindsSymbol, Fuses, Tells, Told, body_said, fusing, left_of, may, rules_given, setting};

use crate::fault::{CategoryCause, CategoryFault, Refused, on_line, stop_on_line};
use crate::kind::LineKind;
use crate::symbol_line::SymbolLine;
use crate::symbols::{kind_of, labels_at, read_symbol};
use crate::words::sized;
use cyclo_core::Cyclo;
use fusion_rules::{Names, RuleRefused, Rules};
use line_text::{Line, Lines};
use symbol_table::{Draft, VIndex};

/// Reads the fuse lines. The first symbol line is given, and not read.
pub(crate) fn read_fusions<'a>(
    names: &Names,
    lines: &mut Lines<'a>,
    rules: &mut Rules,
) -> Result<Option<SymbolLine<'a>>, Refused>
    requires { length names.now ≡ rules.old.count }
    ensures said { Fuses names.now result rules.old rules.new lines.old.ahead lines.new.ahead }
    ensures count { rules.new.count ≡ rules.old.count }
{
    while let Some(line) = lines.next_line()? {
        match on_line(line.number, line_kind(&line))? {
            LineKind::Fusion => on_line(line.number, read_triple(names, &line, rules))?,
            LineKind::OfSymbol(kind) => return Ok(Some(SymbolLine { line, kind })),
        }
    }
    Ok(None)
}

/// Reads the symbol lines from the first on.
pub(crate) fn read_symbols<'a>(
    names: &Names,
    first: Option<SymbolLine<'a>>,
    lines: &mut Lines<'a>,
    draft: &mut Draft<Cyclo>,
) -> Result<(), CategoryFault>
    requires { length names.now ≡ draft.old.rules.count }
    ensures said { Told (λ _. named_draft names.now draft.new) result
        (body_said (setting names.now draft.old) (left_of first.entry lines.old.ahead)) }
    ensures rules { draft.new.rules ≡ draft.old.rules }
{
    let mut next = first;
    while let Some(symbol) = next {
        stop_on_line(
            symbol.line.number,
            read_symbol(names, &symbol.line, symbol.kind, draft),
        )?;
        next = next_symbol_line(lines)?;
    }
    Ok(())
}

/// The next line, which has to be a symbol line.
fn next_symbol_line<'a>(lines: &mut Lines<'a>) -> Result<Option<SymbolLine<'a>>, Refused>
    ensures found { FindsSymbol result lines.old.ahead lines.new.ahead }
    ensures fewer { IfOk result (λ next. length (left_of next lines.new.ahead) ≤ length lines.old.ahead) }
{
    let Some(line) = lines.next_line()? else {
        return Ok(None);
    };
    match on_line(line.number, line_kind(&line))? {
        LineKind::Fusion => Err(Refused {
            line: line.number,
            cause: CategoryCause::Misplaced,
        }),
        LineKind::OfSymbol(kind) => Ok(Some(SymbolLine { line, kind })),
    }
}

/// What a line gives by its first word.
fn line_kind(line: &Line) -> Result<LineKind, CategoryCause>
    ensures { result ≡ line_kind (words_of line.now.text.now) }
{
    if is_head_word(line.word_or_empty(0)) {
        return Err(CategoryCause::Misplaced);
    }
    if line.has_word(0, b"fuse") {
        return Ok(LineKind::Fusion);
    }
    match kind_of(line.word_or_empty(0)) {
        Some(kind) => Ok(LineKind::OfSymbol(kind)),
        None => Err(CategoryCause::Word),
    }
}

fn is_head_word(word: &[u8]) -> bool
    ensures { result ≡ is_head word.now }
{
    word == b"category".as_slice() || word == b"root".as_slice() || word == b"labels".as_slice()
}

/// Reads the triple of a fuse line.
#[tactic(auto, unfolding(crate::specs::Reading::fuse_of))]
fn read_triple(names: &Names, line: &Line, rules: &mut Rules) -> Result<(), CategoryCause>
    requires { length names.now ≡ rules.old.count }
    ensures said { (version ring : ℕ) → Tells (λ _. fusing version ring names.now rules.new) result
        (fuse_of (fusing version ring names.now rules.old).said (words_of line.now.text.now)) }
    ensures count { rules.new.count ≡ rules.old.count }
{
    sized(line, 4)?;
    let at = labels_at(names, line, 1)?;
    allow(rules, at)?;
    Ok(())
}

/// Adds a triple.
fn allow(rules: &mut Rules, at: VIndex) -> Result<(), CategoryCause>
    requires { AreThreeLabels rules.old.count at.a at.b at.c }
    ensures told { result ≡ may (fusion_fault (rules_given rules.old) at) }
    ensures given { OnOk result (rules_given rules.new ≡ with_fusion (rules_given rules.old) at.a at.b at.c) }
    ensures count { rules.new.count ≡ rules.old.count }
{
    match rules.allow(at.a, at.b, at.c) {
        Ok(()) => Ok(()),
        Err(RuleRefused::Unit) => Err(CategoryCause::UnitFuse),
        Err(RuleRefused::Repeated) => Err(CategoryCause::Repeated),
    }
}
