//! The names that a source knows, and the one of them that was probably meant.

ghost use Rattle.std.specs.{Prelude.{◌≡◌, ◌++◌, IfOk, OnOk, map, option_map}, List.filter};
ghost use Rattle.{redcode_text.specs.Tokens.pieces, redcode_lines.specs.Line.names_among};
ghost use Rattle.redcode_scene.specs.{Nearest.{Suggests, is_known, known_names, names_on, predefined_names}, Search.with_names};

use crate::nearest::nearest_among;
use crate::scene::Scene;
use redcode_expand::Expanded;
use redcode_lines::{LineForm, SourceLine, is_name};
use redcode_text::{Token, Word};
use std::alloc::{AllocError, Allocator};

/// The predefined names.
const PREDEFINED: [&[u8]; 8] = [
    b"CORESIZE",
    b"MAXPROCESSES",
    b"MAXCYCLES",
    b"MAXLENGTH",
    b"MINDISTANCE",
    b"ROUNDS",
    b"WARRIORS",
    b"CURLINE",
];

/// The name nearest to one that nothing defines: a label, the name of an `EQU` or a predefined name; `None` if none may
/// be told. It fails when memory runs out.
pub fn nearest_name<'s, A: Allocator + Copy>(
    scene: &Scene<'s, A>,
    name: &[u8],
) -> Result<Option<&'s [u8]>, AllocError>
    ensures { IfOk result (λ found. Suggests name.now
        (known_names scene.now.expanded scene.now.lines.items) (option_map (λ name. name.now) found)) }
{
    let mut names = Vec::new(scene.alloc);
    add_names(&scene.expanded, scene.lines.as_slice(), &mut names)?;
    add_predefined(&mut names)?;
    nearest_among(scene.alloc, name, names.as_slice())
}

/// Adds the predefined names.
#[tactic(auto, using(crate::proofs::Texts::more_of))]
fn add_predefined<'s, A: Allocator>(names: &mut Vec<&'s [u8], A>) -> Result<(), AllocError>
    ensures { OnOk result (map (λ name. name.now) names.new.items
        ≡ map (λ name. name.now) names.old.items ++ predefined_names) }
{
    names.extend_from_slice(&PREDEFINED)
}

/// Adds the names that these lines define.
fn add_names<'s, A: Allocator + Copy>(
    expanded: &Option<Expanded<'s, A>>,
    lines: &[SourceLine<'s, A>],
    names: &mut Vec<&'s [u8], A>,
) -> Result<(), AllocError>
    ensures { OnOk result (map (λ name. name.now) names.new.items
        ≡ with_names expanded.now (map (λ name. name.now) names.old.items) lines.now) }
{
    let mut rest = lines;
    while let [line, behind @ ..] = rest {
        add_names_on(expanded, line, names)?;
        rest = behind;
    }
    Ok(())
}

/// Adds the names that a line defines.
fn add_names_on<'s, A: Allocator + Copy>(
    expanded: &Option<Expanded<'s, A>>,
    line: &SourceLine<'s, A>,
    names: &mut Vec<&'s [u8], A>,
) -> Result<(), AllocError>
    ensures { OnOk result (map (λ name. name.now) names.new.items
        ≡ map (λ name. name.now) names.old.items ++ names_on expanded.now line.now) }
{
    let reading = line.reading();
    match reading.form {
        LineForm::Statement => {
            let is_equ = matches!(reading.word, Some(Word::Equ));
            add_labels(expanded, is_equ, reading.labels(), names)
        }
        LineForm::Assert | LineForm::Name | LineForm::Author => Ok(()),
    }
}

/// Adds the names among the labels of a line that are known.
fn add_labels<'s, A: Allocator + Copy>(
    expanded: &Option<Expanded<'s, A>>,
    is_equ: bool,
    labels: &[Token<'s>],
    names: &mut Vec<&'s [u8], A>,
) -> Result<(), AllocError>
    ensures { OnOk result (map (λ name. name.now) names.new.items
        ≡ map (λ name. name.now) names.old.items
        ++ filter (is_known expanded.now is_equ) (names_among (pieces labels.now))) }
{
    let mut rest = labels;
    while let [label, behind @ ..] = rest {
        if is_name(label) && is_known(expanded, is_equ, label.text) {
            names.push(label.text)?;
        }
        rest = behind;
    }
    Ok(())
}

/// Whether a name before a word is that of an `EQU`, or a label of what is written out.
fn is_known<A: Allocator + Copy>(
    expanded: &Option<Expanded<'_, A>>,
    is_equ: bool,
    name: &[u8],
) -> bool
    ensures { result ≡ is_known expanded.now is_equ name.now }
{
    match expanded {
        _ if is_equ => true,
        Some(expanded) => expanded.label(name).is_some(),
        None => false,
    }
}
