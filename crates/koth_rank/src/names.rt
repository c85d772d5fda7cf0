//! The warriors that the lines of a part call by their names.

ghost use Rattle.std.specs.Prelude.{◌≡◌, ◌++◌, ◌∷◌, [], true, IfOk, OnOk, length, map};
ghost use Rattle.koth_json.specs.{Contest.contender_parts, declared.contest.Contender.Contender};
ghost use Rattle.koth_standings.specs.declared.part_text.Row.{Row};
ghost use Rattle.koth_rank.specs.{Join.{label_of, named_parts, IsNamedTable}, declared.names.Named.Named};

use crate::table::table_of;
use koth_json::Contender;
use koth_standings::{NoPart, Row, Standings};
use koth_words::View;
use std::alloc::{AllocError, Allocator};
use war_types::Title;

/// A warrior, as the line of a part calls it.
#[derive(Drop)]
pub(crate) struct Named<'t> {
    name: Title,
    author: Title,
    file: &'t str,
}

/// The table of the warriors of these rows with these standings.
pub(crate) fn named_table<A: Allocator + Copy>(
    alloc: A,
    view: View,
    rows: &[Row<'_>],
    standings: &Standings<A>,
) -> Result<Vec<u8, A>, NoPart>
    requires { length standings.now.counts ≡ length rows.now }
    ensures { IfOk result (λ table.
        IsNamedTable view (map (λ (r : Row). r.label.now) rows.now) standings.now.counts table.items) }
{
    let names = match names_of(alloc, rows) {
        Ok(names) => names,
        Err(fault) => return Err(fault),
    };
    let contenders = match contenders_of(alloc, names.as_slice()) {
        Ok(contenders) => contenders,
        Err(AllocError) => return Err(NoPart::Memory),
    };
    match table_of(alloc, view, contenders.as_slice(), standings) {
        Ok(table) => Ok(table),
        Err(AllocError) => Err(NoPart::Memory),
    }
}

/// The warriors of these rows.
fn names_of<'t, A: Allocator + Copy>(
    alloc: A,
    rows: &[Row<'t>],
) -> Result<Vec<Named<'t>, A>, NoPart>
    ensures { IfOk result (λ names. map (λ (n : Named). label_of (named_parts n)) names.items
        ≡ map (λ (r : Row). r.label.now) rows.now) }
{
    let mut names = Vec::new(alloc);
    for place in 0..rows.len() {
        let label = rows[place].label;
        match named_by(alloc, label) {
            Ok(named) => push_name(&mut names, named)?,
            Err(fault) => return Err(fault),
        }
    }
    Ok(names)
}

fn push_name<'t, A: Allocator>(
    names: &mut Vec<Named<'t>, A>,
    named: Named<'t>,
) -> Result<(), AllocError>
    ensures { OnOk result (names.new.items ≡ names.old.items ++ named.entry ∷ []) }
{
    names.push(named)?;
    Ok(())
}

/// The warrior that a line calls this.
fn named_by<'t, A: Allocator + Copy>(alloc: A, label: &'t str) -> Result<Named<'t>, NoPart>
    ensures { IfOk result (λ named. label_of (named_parts named) ≡ label.entry.now) }
{
    let Some(named) = parts_of(label) else {
        return Err(NoPart::Cut);
    };
    match is_called(alloc, &named, label) {
        Ok(true) => Ok(named),
        Ok(false) => Err(NoPart::Cut),
        Err(AllocError) => Err(NoPart::Memory),
    }
}

/// What is between the tabs of a label.
fn parts_of(label: &str) -> Option<Named<'_>> {
    let (name, behind) = label.split_once('\t')?;
    let (author, file) = behind.split_once('\t')?;
    Some(Named {
        name: Title::new(name.as_bytes(), "-"),
        author: Title::new(author.as_bytes(), "-"),
        file,
    })
}

/// Whether this is what a line calls a warrior.
fn is_called<A: Allocator + Copy>(
    alloc: A,
    named: &Named<'_>,
    label: &str,
) -> Result<bool, AllocError>
    ensures { IfOk result (λ is. is ≡ true → label_of (named_parts named.now) ≡ label.now) }
{
    match label_text(alloc, named) {
        Ok(text) => Ok(is_same(text.as_slice(), label.as_bytes())),
        Err(error) => Err(error),
    }
}

fn is_same(first: &[u8], second: &[u8]) -> bool
    ensures { result ≡ true → first.now ≡ second.now }
{
    first == second
}

/// What a line calls a warrior.
fn label_text<A: Allocator>(alloc: A, named: &Named<'_>) -> Result<Vec<u8, A>, AllocError>
    ensures { IfOk result (λ text. text.items ≡ label_of (named_parts named.now)) }
{
    let mut text = Vec::new(alloc);
    text.extend_from_slice(named.name.bytes())?;
    text.extend_from_slice(b"\t")?;
    text.extend_from_slice(named.author.bytes())?;
    text.extend_from_slice(b"\t")?;
    text.extend_from_slice(named.file.as_bytes())?;
    Ok(text)
}

/// What lines say of these warriors.
fn contenders_of<'n, A: Allocator + Copy>(
    alloc: A,
    names: &'n [Named<'n>],
) -> Result<Vec<Contender<'n>, A>, AllocError>
    ensures { IfOk result (λ contenders. map contender_parts contenders.items ≡ map named_parts names.entry.now) }
{
    let mut contenders = Vec::new(alloc);
    for place in 0..names.len() {
        let named = &names[place];
        contenders.push(Contender {
            file: named.file,
            name: &named.name,
            author: &named.author,
        })?;
    }
    Ok(contenders)
}
