ghost use Rattle.std.specs.Prelude.{◌≡◌, ◌<◌, ◌-◌, ◌^◌, ◌++◌, ◌∷◌, [], codes, decimal, IsTrue, IfOk, OnOk, OnErr, length};
ghost use Rattle.line_text.specs.Spelling.{spelled};
ghost use Rattle.line_text.specs.Writing.{Extends, spaced_on};
ghost use Rattle.poly_core.specs.Rho.{is_accepted};
ghost use Rattle.cyclo_core.specs.Ratio.{is_held, ring_at};
ghost use Rattle.cyclo_text.specs.NumberWords.{spelled_number};
ghost use Rattle.fusion_rules.specs.Fusion.{AreRules, fuses};
ghost use Rattle.fusion_rules.specs.Names.{AreNames, name_of};
ghost use Rattle.symbol_table.specs.Draft.{IsVersioned};
ghost use Rattle.symbol_table.specs.Index.{AreSixLabels, AreThreeLabels};
ghost use Rattle.category_text.specs.Named.{named_draft, seen};
ghost use Rattle.category_text.specs.Canonical.{behind, canonical, f_words, head_lines, is_one, kind_word, mark_value, mark_word, version_word, vertex_value};
ghost use Rattle.category_text.specs.Again.{IsSaid, ReadAgain};
ghost use Rattle.category_text.specs.Writing.{AllMarkNumbers, BehindNumber, FNumber, GroupBelow, GroupNumber, InPlane, InRow, InSpace, MarkNumber, MarkNumbers, VertexNumber, VertexNumbers, all_marks_text, behind_text, f_text, fuse_text, group_text, mark_text, marks_text, named_parts, plane, row, space, vertex_text, vertices_text, written};

use crate::kind::{Group, MarkKind, VertexKind};
use crate::named::Named;
use cyclo_core::{Cyclo, Number};
use cyclo_text::write_number;
use fusion_rules::{Names, UNIT};
use line_text::{cut_back, end_line, write_line, write_plain_number, write_word};
use ring_laws::StarRing;
use std::alloc::{AllocError, Global};
use symbol_table::{Draft, FIndex, VIndex};

/// The names of the labels, and the draft over their numbers.
#[derive(Clone, Copy)]
struct Parts<'a> {
    names: &'a Names,
    draft: &'a Draft<Cyclo>,
}

/// Appends the canonical text of what a category text says: see [`write_parts`].
///
/// Asks for as many names as the rules have labels. What is written is read again, to the same category, and is short
/// enough for the reader. Only want of memory refuses it, and `out` is then unchanged.
pub fn write_category(alloc: Global, named: &Named, out: &mut Vec<u8>) -> Result<(), AllocError>
    requires { length named.now.names ≡ named.now.draft.rules.count }
    ensures written { OnOk result (out.new.items ≡ out.old.items ++ canonical (seen named.now)) }
    ensures again { OnOk result (ReadAgain (seen named.now)) }
    ensures short { OnOk result (length (canonical (seen named.now)) < 2 ^ 32 - 1) }
    ensures unchanged { OnErr result (out.new.items ≡ out.old.items) }
{
    write_parts(alloc, &named.names, &named.draft, out)
}

/// Appends the canonical text of a category: the lines `category V` with the version, `root N` and `labels` with the
/// names, all triples whose first two labels aren't the unit, the values of F, R, w and v that aren't 1 at their
/// admissible indices, and the twists and loop values that aren't 1, which version 2 alone has. Each of these groups
/// stands in the order of its label numbers.
///
/// Asks for as many names as the rules have labels. What is written is read again, to the same category, and is short
/// enough for the reader. Only want of memory refuses it, and `out` is then unchanged.
pub fn write_parts(
    alloc: Global,
    names: &Names,
    draft: &Draft<Cyclo>,
    out: &mut Vec<u8>,
) -> Result<(), AllocError>
    requires { length names.now ≡ draft.now.rules.count }
    ensures written { OnOk result (out.new.items ≡ out.old.items ++ canonical (named_draft names.now draft.now)) }
    ensures again { OnOk result (ReadAgain (named_draft names.now draft.now)) }
    ensures short { OnOk result (length (canonical (named_draft names.now draft.now)) < 2 ^ 32 - 1) }
    ensures unchanged { OnErr result (out.new.items ≡ out.old.items) }
{
    let begun = out.len();
    let written = write_lines(alloc, Parts { names, draft }, out);
    cut_back(written, begun, out)
}

/// Appends all lines. Where a writer of this file is refused, what stood in `text` is still in front; what was written
/// behind it is cut off by [`write_parts`] alone.
#[tactic(auto, using(line_text::proofs::WritingLemmas::still_in_front, line_text::proofs::WritingLemmas::in_front))]
fn write_lines(alloc: Global, parts: Parts<'_>, text: &mut Vec<u8>) -> Result<(), AllocError>
    requires { length parts.names.now ≡ parts.draft.now.rules.count }
    ensures text { Extends result text.old.items text.new.items (canonical (named_parts parts.entry)) }
    ensures said { OnOk result (IsSaid (named_parts parts.entry)) }
{
    write_head(parts, text)?;
    write_group(alloc, parts, Group::Fusions, text)?;
    write_f_groups(alloc, parts, text)?;
    write_vertices(alloc, parts, text)?;
    write_all_marks(alloc, parts, text)?;
    Ok(())
}

/// Appends the lines of R, w and v.
#[tactic(auto, using(line_text::proofs::WritingLemmas::still_in_front, line_text::proofs::WritingLemmas::in_front))]
fn write_vertices(alloc: Global, parts: Parts<'_>, text: &mut Vec<u8>) -> Result<(), AllocError>
    requires { length parts.names.now ≡ parts.draft.now.rules.count }
    ensures text { Extends result text.old.items text.new.items (vertices_text (named_parts parts.entry)) }
    ensures numbers { OnOk result (VertexNumbers (named_parts parts.entry)) }
{
    write_group(alloc, parts, Group::Vertices(VertexKind::OnR), text)?;
    write_group(alloc, parts, Group::Vertices(VertexKind::OnW), text)?;
    write_group(alloc, parts, Group::Vertices(VertexKind::OnV), text)?;
    Ok(())
}

/// Appends the lines of twists and of loop values.
#[tactic(auto, using(line_text::proofs::WritingLemmas::still_in_front, line_text::proofs::WritingLemmas::in_front))]
fn write_all_marks(alloc: Global, parts: Parts<'_>, text: &mut Vec<u8>) -> Result<(), AllocError>
    requires { length parts.names.now ≡ parts.draft.now.rules.count }
    ensures text { Extends result text.old.items text.new.items (all_marks_text (named_parts parts.entry)) }
    ensures numbers { OnOk result (AllMarkNumbers (named_parts parts.entry)) }
{
    write_marks(alloc, parts, MarkKind::OnTwist, text)?;
    write_marks(alloc, parts, MarkKind::OnLoop, text)?;
    Ok(())
}

/// Appends the lines of the marks of a kind, for all labels.
#[tactic(auto, using(line_text::proofs::WritingLemmas::still_in_front, line_text::proofs::WritingLemmas::in_front))]
fn write_marks(
    alloc: Global,
    parts: Parts<'_>,
    kind: MarkKind,
    text: &mut Vec<u8>,
) -> Result<(), AllocError>
    requires names { length parts.names.now ≡ parts.draft.now.rules.count }
    ensures text { Extends result text.old.items text.new.items (marks_text (named_parts parts.entry) kind) }
    ensures numbers { OnOk result (MarkNumbers (named_parts parts.entry) kind) }
{
    for a in 0..parts.names.count() {
        write_mark(alloc, parts, kind, a, text)?;
    }
    Ok(())
}

/// Appends the line of a mark of a label, where it isn't 1.
#[tactic(auto, using(line_text::proofs::WritingLemmas::still_in_front, line_text::proofs::WritingLemmas::in_front))]
fn write_mark(
    alloc: Global,
    parts: Parts<'_>,
    kind: MarkKind,
    a: u8,
    text: &mut Vec<u8>,
) -> Result<(), AllocError>
    requires names { length parts.names.now ≡ parts.draft.now.rules.count }
    requires label { a < parts.draft.now.rules.count }
    ensures text { Extends result text.old.items text.new.items (mark_text (named_parts parts.entry) kind a) }
    ensures number { OnOk result (MarkNumber (named_parts parts.entry) kind a) }
{
    let value = mark_value(parts, kind, a);
    if is_one(parts.draft.ring(), &value) {
        return Ok(());
    }
    text.extend_from_slice(mark_word(kind))?;
    write_word(parts.names.name(a), text)?;
    write_value(alloc, &value, text)?;
    Ok(())
}

/// Appends the first three lines.
#[tactic(auto, using(line_text::proofs::WritingLemmas::still_in_front, line_text::proofs::WritingLemmas::in_front))]
fn write_head(parts: Parts<'_>, text: &mut Vec<u8>) -> Result<(), AllocError>
    ensures text { Extends result text.old.items text.new.items (spelled (head_lines (named_parts parts.entry))) }
    ensures names { OnOk result (AreNames parts.entry.names.now) }
    ensures accepted { OnOk result (IsTrue (is_accepted parts.entry.draft.now.ring)) }
    ensures versioned { IsVersioned parts.entry.draft.now.version parts.entry.draft.now.set_twist parts.entry.draft.now.set_loop }
{
    write_line(&["category", version_word(parts.draft.version())], text)?;
    write_root_line(parts.draft.ring(), text)?;
    write_names_line(parts.names, text)?;
    Ok(())
}

/// Appends the line of the root.
#[tactic(auto, using(line_text::proofs::WritingLemmas::still_in_front, line_text::proofs::WritingLemmas::in_front))]
fn write_root_line(ring: &Cyclo, text: &mut Vec<u8>) -> Result<(), AllocError>
    ensures text { Extends result text.old.items text.new.items (spelled ((codes "root" ∷ decimal ring.now ∷ []) ∷ [])) }
    ensures accepted { OnOk result (IsTrue (is_accepted ring.now)) }
{
    text.extend_from_slice(b"root")?;
    write_plain_number(u32::from(ring.root()), text)?;
    end_line(text)?;
    Ok(())
}

/// Appends the line of the labels.
#[tactic(auto, using(line_text::proofs::WritingLemmas::still_in_front, line_text::proofs::WritingLemmas::in_front))]
fn write_names_line(names: &Names, text: &mut Vec<u8>) -> Result<(), AllocError>
    ensures text { Extends result text.old.items text.new.items (spelled ((codes "labels" ∷ names.now) ∷ [])) }
    ensures names { OnOk result (AreNames names.now) }
{
    text.extend_from_slice(b"labels")?;
    write_names(names, text)?;
    end_line(text)?;
    Ok(())
}

/// Appends all names, each behind a space.
#[tactic(auto, using(line_text::proofs::WritingLemmas::still_in_front, line_text::proofs::WritingLemmas::in_front))]
fn write_names(names: &Names, text: &mut Vec<u8>) -> Result<(), AllocError>
    ensures text { Extends result text.old.items text.new.items (spaced_on names.now) }
    ensures names { AreNames names.now }
{
    for label in 0..names.count() {
        write_word(names.name(label), text)?;
    }
    Ok(())
}

/// Appends the F lines, for all first three labels.
#[tactic(auto, using(line_text::proofs::WritingLemmas::still_in_front, line_text::proofs::WritingLemmas::in_front))]
fn write_f_groups(alloc: Global, parts: Parts<'_>, text: &mut Vec<u8>) -> Result<(), AllocError>
    requires { length parts.names.now ≡ parts.draft.now.rules.count }
    ensures text { Extends result text.old.items text.new.items (space parts.entry.draft.now.rules.count (behind_text (named_parts parts.entry))) }
    ensures numbers { OnOk result (InSpace parts.entry.draft.now.rules.count (BehindNumber (named_parts parts.entry))) }
    ensures rules { AreRules parts.entry.draft.now.rules }
{
    for a in 0..parts.draft.rules().count() {
        write_f_planes(alloc, parts, a, text)?;
    }
    Ok(())
}

#[tactic(auto, using(line_text::proofs::WritingLemmas::still_in_front, line_text::proofs::WritingLemmas::in_front))]
fn write_f_planes(
    alloc: Global,
    parts: Parts<'_>,
    a: u8,
    text: &mut Vec<u8>,
) -> Result<(), AllocError>
    requires names { length parts.names.now ≡ parts.draft.now.rules.count }
    requires first { a < parts.draft.now.rules.count }
    ensures text { Extends result text.old.items text.new.items (plane parts.entry.draft.now.rules.count (behind_text (named_parts parts.entry)) a) }
    ensures numbers { OnOk result (InPlane parts.entry.draft.now.rules.count (BehindNumber (named_parts parts.entry)) a) }
{
    for b in 0..parts.names.count() {
        write_f_rows(alloc, parts, a, b, text)?;
    }
    Ok(())
}

#[tactic(auto, using(line_text::proofs::WritingLemmas::still_in_front, line_text::proofs::WritingLemmas::in_front))]
fn write_f_rows(
    alloc: Global,
    parts: Parts<'_>,
    a: u8,
    b: u8,
    text: &mut Vec<u8>,
) -> Result<(), AllocError>
    requires names { length parts.names.now ≡ parts.draft.now.rules.count }
    requires first { a < parts.draft.now.rules.count }
    requires second { b < parts.draft.now.rules.count }
    ensures text { Extends result text.old.items text.new.items (row parts.entry.draft.now.rules.count (behind_text (named_parts parts.entry)) a b) }
    ensures numbers { OnOk result (InRow parts.entry.draft.now.rules.count (BehindNumber (named_parts parts.entry)) a b) }
{
    for c in 0..parts.names.count() {
        write_group(alloc, parts, Group::FBehind(VIndex { a, b, c }), text)?;
    }
    Ok(())
}

/// Appends the lines of a group, for all three labels.
#[tactic(auto, using(line_text::proofs::WritingLemmas::still_in_front, line_text::proofs::WritingLemmas::in_front))]
fn write_group(
    alloc: Global,
    parts: Parts<'_>,
    group: Group,
    text: &mut Vec<u8>,
) -> Result<(), AllocError>
    requires names { length parts.names.now ≡ parts.draft.now.rules.count }
    requires below { GroupBelow parts.draft.now.rules.count group }
    ensures text { Extends result text.old.items text.new.items (space parts.entry.draft.now.rules.count (group_text (named_parts parts.entry) group)) }
    ensures numbers { OnOk result (InSpace parts.entry.draft.now.rules.count (GroupNumber (named_parts parts.entry) group)) }
{
    for a in 0..parts.names.count() {
        write_plane(alloc, parts, group, a, text)?;
    }
    Ok(())
}

#[tactic(auto, using(line_text::proofs::WritingLemmas::still_in_front, line_text::proofs::WritingLemmas::in_front))]
fn write_plane(
    alloc: Global,
    parts: Parts<'_>,
    group: Group,
    a: u8,
    text: &mut Vec<u8>,
) -> Result<(), AllocError>
    requires names { length parts.names.now ≡ parts.draft.now.rules.count }
    requires below { GroupBelow parts.draft.now.rules.count group }
    requires first { a < parts.draft.now.rules.count }
    ensures text { Extends result text.old.items text.new.items (plane parts.entry.draft.now.rules.count (group_text (named_parts parts.entry) group) a) }
    ensures numbers { OnOk result (InPlane parts.entry.draft.now.rules.count (GroupNumber (named_parts parts.entry) group) a) }
{
    for b in 0..parts.names.count() {
        write_row(alloc, parts, group, a, b, text)?;
    }
    Ok(())
}

#[tactic(auto, using(line_text::proofs::WritingLemmas::still_in_front, line_text::proofs::WritingLemmas::in_front))]
fn write_row(
    alloc: Global,
    parts: Parts<'_>,
    group: Group,
    a: u8,
    b: u8,
    text: &mut Vec<u8>,
) -> Result<(), AllocError>
    requires names { length parts.names.now ≡ parts.draft.now.rules.count }
    requires below { GroupBelow parts.draft.now.rules.count group }
    requires first { a < parts.draft.now.rules.count }
    requires second { b < parts.draft.now.rules.count }
    ensures text { Extends result text.old.items text.new.items (row parts.entry.draft.now.rules.count (group_text (named_parts parts.entry) group) a b) }
    ensures numbers { OnOk result (InRow parts.entry.draft.now.rules.count (GroupNumber (named_parts parts.entry) group) a b) }
{
    for c in 0..parts.names.count() {
        write_entry(alloc, parts, group, VIndex { a, b, c }, text)?;
    }
    Ok(())
}

/// Appends the line of three labels, where they have one.
#[tactic(auto, using(line_text::proofs::WritingLemmas::still_in_front, line_text::proofs::WritingLemmas::in_front))]
fn write_entry(
    alloc: Global,
    parts: Parts<'_>,
    group: Group,
    at: VIndex,
    text: &mut Vec<u8>,
) -> Result<(), AllocError>
    requires names { length parts.names.now ≡ parts.draft.now.rules.count }
    requires below { GroupBelow parts.draft.now.rules.count group }
    requires labels { AreThreeLabels parts.draft.now.rules.count at.a at.b at.c }
    ensures text { Extends result text.old.items text.new.items (group_text (named_parts parts.entry) group at) }
    ensures numbers { OnOk result (GroupNumber (named_parts parts.entry) group at) }
{
    match group {
        Group::Fusions => write_fuse(parts, at, text),
        Group::Vertices(kind) => write_vertex(alloc, parts, kind, at, text),
        Group::FBehind(first) => write_f(alloc, parts, first, at, text),
    }
}

/// Appends the line of a triple whose first two labels aren't the unit.
#[tactic(auto, using(line_text::proofs::WritingLemmas::still_in_front, line_text::proofs::WritingLemmas::in_front))]
fn write_fuse(parts: Parts<'_>, at: VIndex, text: &mut Vec<u8>) -> Result<(), AllocError>
    requires names { length parts.names.now ≡ parts.draft.now.rules.count }
    requires labels { AreThreeLabels parts.draft.now.rules.count at.a at.b at.c }
    ensures { Extends result text.old.items text.new.items (fuse_text (named_parts parts.entry) at) }
{
    if at.a == UNIT || at.b == UNIT || !parts.draft.rules().allows(at.a, at.b, at.c) {
        return Ok(());
    }
    text.extend_from_slice(b"fuse")?;
    write_labels(parts.names, at, text)?;
    end_line(text)?;
    Ok(())
}

/// Appends the line of a symbol of a vertex, where it is admissible and isn't 1.
#[tactic(auto, using(line_text::proofs::WritingLemmas::still_in_front, line_text::proofs::WritingLemmas::in_front))]
fn write_vertex(
    alloc: Global,
    parts: Parts<'_>,
    kind: VertexKind,
    at: VIndex,
    text: &mut Vec<u8>,
) -> Result<(), AllocError>
    requires names { length parts.names.now ≡ parts.draft.now.rules.count }
    requires labels { AreThreeLabels parts.draft.now.rules.count at.a at.b at.c }
    ensures text { Extends result text.old.items text.new.items (vertex_text (named_parts parts.entry) kind at) }
    ensures numbers { OnOk result (VertexNumber (named_parts parts.entry) kind at) }
{
    if !parts.draft.rules().allows(at.a, at.b, at.c) {
        return Ok(());
    }
    let value = vertex_value(parts, kind, at);
    if is_one(parts.draft.ring(), &value) {
        return Ok(());
    }
    text.extend_from_slice(kind_word(kind))?;
    write_labels(parts.names, at, text)?;
    write_value(alloc, &value, text)?;
    Ok(())
}

/// Appends the line of F, where it is admissible and isn't 1.
#[tactic(auto, using(line_text::proofs::WritingLemmas::still_in_front, line_text::proofs::WritingLemmas::in_front))]
fn write_f(
    alloc: Global,
    parts: Parts<'_>,
    first: VIndex,
    last: VIndex,
    text: &mut Vec<u8>,
) -> Result<(), AllocError>
    requires names { length parts.names.now ≡ parts.draft.now.rules.count }
    requires first { AreThreeLabels parts.draft.now.rules.count first.a first.b first.c }
    requires last { AreThreeLabels parts.draft.now.rules.count last.a last.b last.c }
    ensures text { Extends result text.old.items text.new.items (f_text (named_parts parts.entry) (behind first last)) }
    ensures numbers { OnOk result (FNumber (named_parts parts.entry) (behind first last)) }
{
    let at = FIndex {
        a: first.a,
        b: first.b,
        c: first.c,
        d: last.a,
        e: last.b,
        f: last.c,
    };
    if !at.is_admissible(parts.draft.rules()) {
        return Ok(());
    }
    let value = parts.draft.f(&at);
    if is_one(parts.draft.ring(), &value) {
        return Ok(());
    }
    write_f_line(alloc, parts.names, &at, &value, text)?;
    Ok(())
}

/// Appends the line of F with these labels and this value.
#[tactic(auto, using(line_text::proofs::WritingLemmas::still_in_front, line_text::proofs::WritingLemmas::in_front))]
fn write_f_line(
    alloc: Global,
    names: &Names,
    at: &FIndex,
    value: &Number,
    text: &mut Vec<u8>,
) -> Result<(), AllocError>
    requires { AreSixLabels (length names.now) at.now.a at.now.b at.now.c at.now.d at.now.e at.now.f }
    ensures { Extends result text.old.items text.new.items (spelled (f_words names.now at.now value.now ∷ [])) }
{
    let first = VIndex {
        a: at.a,
        b: at.b,
        c: at.c,
    };
    let last = VIndex {
        a: at.d,
        b: at.e,
        c: at.f,
    };
    text.push(b'f')?;
    write_labels(names, first, text)?;
    write_labels(names, last, text)?;
    write_value(alloc, value, text)?;
    Ok(())
}

fn version_word(version: u8) -> &'static str
    ensures { result.now ≡ version_word version }
{
    if version == 2 { "2" } else { "1" }
}

fn mark_word(kind: MarkKind) -> &'static [u8]
    ensures { result.now ≡ mark_word kind }
{
    match kind {
        MarkKind::OnTwist => b"twist",
        MarkKind::OnLoop => b"loop",
    }
}

/// A mark of a label.
fn mark_value(parts: Parts<'_>, kind: MarkKind, a: u8) -> Number
    requires { a < parts.draft.now.rules.count }
    ensures value { result ≡ mark_value (named_parts parts.entry) kind a }
    ensures member { IsTrue ((ring_at parts.entry.draft.now.ring).member result) }
    ensures held { IsTrue (is_held result) }
{
    match kind {
        MarkKind::OnTwist => parts.draft.twist(a),
        MarkKind::OnLoop => parts.draft.loop_value(a),
    }
}

fn kind_word(kind: VertexKind) -> &'static [u8]
    ensures { result.now ≡ kind_word kind }
{
    match kind {
        VertexKind::OnR => b"r",
        VertexKind::OnW => b"w",
        VertexKind::OnV => b"v",
    }
}

/// The value of a symbol at an admissible index.
fn vertex_value(parts: Parts<'_>, kind: VertexKind, at: VIndex) -> Number
    requires { IsTrue (fuses parts.draft.now.rules at.a at.b at.c) }
    ensures value { result ≡ vertex_value (named_parts parts.entry) kind at }
    ensures member { IsTrue ((ring_at parts.entry.draft.now.ring).member result) }
    ensures held { IsTrue (is_held result) }
{
    match kind {
        VertexKind::OnR => parts.draft.r(&at),
        VertexKind::OnW => parts.draft.w(&at),
        VertexKind::OnV => parts.draft.v(&at),
    }
}

fn is_one(ring: &Cyclo, value: &Number) -> bool
    requires { IsTrue ((ring_at ring.now).member value.now) }
    ensures { result ≡ is_one ring.now value.now }
{
    ring.same(value, &ring.one())
}

/// Appends three names, each behind a space.
#[tactic(auto, using(line_text::proofs::WritingLemmas::still_in_front, line_text::proofs::WritingLemmas::in_front))]
fn write_labels(names: &Names, at: VIndex, text: &mut Vec<u8>) -> Result<(), AllocError>
    requires { AreThreeLabels (length names.now) at.a at.b at.c }
    ensures { Extends result text.old.items text.new.items (32 ∷ (name_of names.now at.a ++ 32 ∷ (name_of names.now at.b ++ 32 ∷ name_of names.now at.c))) }
{
    write_word(names.name(at.a), text)?;
    write_word(names.name(at.b), text)?;
    write_word(names.name(at.c), text)?;
    Ok(())
}

/// Appends a space, a number and the end of the line.
#[tactic(auto, using(line_text::proofs::WritingLemmas::still_in_front, line_text::proofs::WritingLemmas::in_front))]
fn write_value(alloc: Global, value: &Number, text: &mut Vec<u8>) -> Result<(), AllocError>
    ensures { Extends result text.old.items text.new.items (32 ∷ (spelled_number value.now ++ 10 ∷ [])) }
{
    text.push(b' ')?;
    write_number(alloc, value, text)?;
    end_line(text)?;
    Ok(())
}
