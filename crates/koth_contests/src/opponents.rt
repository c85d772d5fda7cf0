//! The sources that the words for opponents stand for.

ghost use Rattle.std.specs.Prelude.{◌≡◌, ◌++◌, ◌∷◌, [], OnOk, IfOk, MatchResult};
ghost use Rattle.{koth_commands.specs.{Pair.IsWarriorOf, Streams.source_name}, koth_contests.specs.{Opponents.{names_of, AreFiles, PutsFiles, PutsIn}, Pair.IsNoneOf}};

use crate::folder::{names_in, sources_among};
use crate::pair::{NoWarrior, warrior_from};
use crate::paths::{path_in, shown_bytes};
use koth_commands::trouble::Trouble;
use koth_commands::{Reason, source_name};
use koth_words::Source;
use std::alloc::{AllocError, Allocator};
use std::io::Read;
use std::rt::Files;
use std::str;
use war_types::{Settings, Warrior};

/// An opponent, by what messages call its source.
#[derive(Drop)]
pub struct Opponent<A: Allocator> {
    pub name: String<A>,
    pub place: Place,
}

/// Where the source of an opponent is read.
#[derive(Clone, Copy)]
pub enum Place {
    /// From standard input.
    Input,
    /// From the file of its name.
    File,
    /// From the same, if that is no FIFO, device or socket.
    PlainFile,
    /// Nowhere, for this reason.
    Nowhere(Reason),
}

impl<A: Allocator + Copy> Opponent<A> {
    /// The warrior that its source assembles to.
    pub fn warrior<R: Files, I: Read>(
        &self,
        rt: &R,
        alloc: A,
        settings: &Settings,
        input: &mut I,
    ) -> Result<Warrior<A>, NoWarrior<'_, A>>
        ensures { MatchResult result (IsWarriorOf settings.now) (IsNoneOf settings.now) }
    {
        let name = self.name.as_str();
        match self.place {
            Place::Input => warrior_from(rt, alloc, settings, None, Source::Input(name), input),
            Place::File => warrior_from(rt, alloc, settings, None, Source::File(name), input),
            Place::PlainFile if is_special(rt, name) => {
                Err(NoWarrior::Failed(Trouble::file(name, Reason::NoFile)))
            }
            Place::PlainFile => warrior_from(rt, alloc, settings, None, Source::File(name), input),
            Place::Nowhere(reason) => Err(NoWarrior::Failed(Trouble::file(name, reason))),
        }
    }
}

/// Whether a source is a folder.
pub(crate) fn is_folder<R: Files>(rt: &R, source: Source<'_>) -> bool {
    match source {
        Source::Input(_) => false,
        Source::File(path) => match rt.metadata(path) {
            Ok(found) => found.is_dir(),
            Err(_) => false,
        },
    }
}

/// Whether what has this name is neither a file nor a folder. A FIFO isn't opened, since that would wait for its
/// writer.
fn is_special<R: Files>(rt: &R, path: &str) -> bool {
    match rt.metadata(path) {
        Ok(found) => !found.is_file() && !found.is_dir(),
        Err(_) => false,
    }
}

/// The opponents that words stand for, in their order. A folder stands for the files in it whose names end with `.red`
/// or `.RED` and don't begin with a point, in the order of the bytes of their names. If no folder has such a file, each
/// is for itself, as an opponent without a warrior. The error is lack of memory.
pub fn opponents_of<R: Files, A: Allocator + Copy>(
    rt: &R,
    alloc: A,
    words: &[Source<'_>],
) -> Result<Vec<Opponent<A>, A>, AllocError>
    ensures { IfOk result (λ opponents. AreFiles words.now (names_of opponents.items)) }
{
    match opponents_found(rt, alloc, words) {
        Ok(found) if found.len() == 0 => opponents_missed(alloc, words),
        found => found,
    }
}

/// The opponents that words stand for, where a folder may have none.
fn opponents_found<R: Files, A: Allocator + Copy>(
    rt: &R,
    alloc: A,
    words: &[Source<'_>],
) -> Result<Vec<Opponent<A>, A>, AllocError>
    ensures { IfOk result (λ opponents. AreFiles words.now (names_of opponents.items)) }
{
    let mut opponents = Vec::new(alloc);
    for word in words {
        put_word(rt, alloc, &mut opponents, *word)?;
    }
    Ok(opponents)
}

/// The folders that words name, which have no source.
fn opponents_missed<A: Allocator + Copy>(
    alloc: A,
    words: &[Source<'_>],
) -> Result<Vec<Opponent<A>, A>, AllocError>
    ensures { IfOk result (λ opponents. AreFiles words.now (names_of opponents.items)) }
{
    let mut opponents = Vec::new(alloc);
    for word in words {
        put_missed(alloc, &mut opponents, *word)?;
    }
    Ok(opponents)
}

/// Puts the folder that a word names.
fn put_missed<A: Allocator + Copy>(
    alloc: A,
    opponents: &mut Vec<Opponent<A>, A>,
    word: Source<'_>,
) -> Result<(), AllocError>
    ensures { OnOk result (PutsFiles (source_name word.entry)
        (names_of opponents.old.items) (names_of opponents.new.items)) }
{
    let name = source_name(word);
    put_alone(alloc, opponents, name, Place::Nowhere(Reason::NoSources))
}

/// Puts the opponents that a word stands for.
fn put_word<R: Files, A: Allocator + Copy>(
    rt: &R,
    alloc: A,
    opponents: &mut Vec<Opponent<A>, A>,
    word: Source<'_>,
) -> Result<(), AllocError>
    ensures { OnOk result (PutsFiles (source_name word.entry)
        (names_of opponents.old.items) (names_of opponents.new.items)) }
{
    let name = source_name(word);
    if is_folder(rt, word) {
        return put_folder(rt, alloc, opponents, name);
    }
    put_alone(alloc, opponents, name, place_of(word))
}

/// Where the one source that a word stands for is read.
fn place_of(word: Source<'_>) -> Place {
    match word {
        Source::Input(_) => Place::Input,
        Source::File(_) => Place::File,
    }
}

/// Puts the one source that a word stands for.
fn put_alone<A: Allocator + Copy>(
    alloc: A,
    opponents: &mut Vec<Opponent<A>, A>,
    word: &str,
    place: Place,
) -> Result<(), AllocError>
    ensures { OnOk result (PutsFiles word.now (names_of opponents.old.items) (names_of opponents.new.items)) }
{
    put_one(alloc, opponents, word, place)
}

fn put_one<A: Allocator + Copy>(
    alloc: A,
    opponents: &mut Vec<Opponent<A>, A>,
    name: &str,
    place: Place,
) -> Result<(), AllocError>
    ensures { OnOk result (names_of opponents.new.items ≡ names_of opponents.old.items ++ name.now ∷ []) }
{
    let name = String::from_str(alloc, name)?;
    opponents.push(Opponent { name, place })?;
    Ok(())
}

/// Puts the sources in a folder, or the folder itself if it can't be read.
fn put_folder<R: Files, A: Allocator + Copy>(
    rt: &R,
    alloc: A,
    opponents: &mut Vec<Opponent<A>, A>,
    folder: &str,
) -> Result<(), AllocError>
    ensures { OnOk result (PutsFiles folder.now (names_of opponents.old.items) (names_of opponents.new.items)) }
{
    match names_in(rt, alloc, folder) {
        Ok(names) => put_sources(alloc, opponents, folder, names.as_slice()),
        Err(Reason::Memory) => Err(AllocError),
        Err(reason) => put_alone(alloc, opponents, folder, Place::Nowhere(reason)),
    }
}

/// Puts the sources among these names in a folder, in the order of their bytes.
fn put_sources<A: Allocator + Copy>(
    alloc: A,
    opponents: &mut Vec<Opponent<A>, A>,
    folder: &str,
    names: &[u8],
) -> Result<(), AllocError>
    ensures { OnOk result (PutsFiles folder.now (names_of opponents.old.items) (names_of opponents.new.items)) }
{
    let mut found = sources_among(alloc, names)?;
    found.sort()?;
    put_found(alloc, opponents, folder, found.as_slice())
}

/// Puts the files of these names in a folder.
fn put_found<A: Allocator + Copy>(
    alloc: A,
    opponents: &mut Vec<Opponent<A>, A>,
    folder: &str,
    names: &[&[u8]],
) -> Result<(), AllocError>
    ensures { OnOk result (PutsFiles folder.now (names_of opponents.old.items) (names_of opponents.new.items)) }
{
    for name in names {
        put_file(alloc, opponents, folder, name)?;
    }
    Ok(())
}

/// Puts the file of this name in a folder. One whose name is no text can't be opened.
fn put_file<A: Allocator + Copy>(
    alloc: A,
    opponents: &mut Vec<Opponent<A>, A>,
    folder: &str,
    name: &[u8],
) -> Result<(), AllocError>
    ensures { OnOk result (PutsIn folder.now (names_of opponents.old.items) (names_of opponents.new.items)) }
{
    match str::from_utf8(name) {
        Ok(text) => put_in(alloc, opponents, folder, text, Place::PlainFile),
        Err(_) => {
            let shown = shown_bytes(alloc, name)?;
            let nowhere = Place::Nowhere(Reason::NoText);
            put_in(alloc, opponents, folder, shown.as_str(), nowhere)
        }
    }
}

/// Puts what has this name in a folder.
fn put_in<A: Allocator + Copy>(
    alloc: A,
    opponents: &mut Vec<Opponent<A>, A>,
    folder: &str,
    name: &str,
    place: Place,
) -> Result<(), AllocError>
    ensures { OnOk result (PutsIn folder.now (names_of opponents.old.items) (names_of opponents.new.items)) }
{
    let path = path_in(alloc, folder, name)?;
    put_one(alloc, opponents, path.as_str(), place)
}
