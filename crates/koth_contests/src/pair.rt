//! The warriors that sources assemble to, and the answer if there are none.

ghost use Rattle.std.specs.Prelude.{◌≡◌, ℕ, List, MatchResult, None, Option, option_copied};
ghost use Rattle.koth_commands.specs.{Define.IsUndefined, Pair.IsWarriorOf, Streams.{From, is_input}, Trouble.IsReadFault};
ghost use Rattle.koth_contests.specs.Pair.{ArePairOf, AreTaken, IsAnswer, IsNoneOf, IsTaken, IsUndefinedFor, WasUndefined};

use koth_commands::trouble::{Fault, Trouble};
use koth_commands::{
    Answer, RefusedSource, Status, defined_text, named_note, open_source, refusal, text_from,
};
use koth_words::{Source, View};
use redcode_asm::assemble;
use std::alloc::Allocator;
use std::io::Read;
use std::rt::Files;
use war_types::{AsmFault, AsmKind, Settings, Warrior};

/// Two warriors that may fight.
#[derive(Drop)]
pub struct Pair<A: Allocator> {
    pub older: Warrior<A>,
    pub younger: Warrior<A>,
}

/// Why there is no warrior.
#[derive(Drop)]
pub enum NoWarrior<'f, A: Allocator> {
    /// The source that is called this is refused.
    Refused(&'f str, Vec<u8, A>, AsmFault),
    /// The source can't be read, or memory ran out.
    Failed(Trouble<'f>),
    /// Nothing is assembled for the source: its definition is none, or no line defines the name.
    Undefined(Trouble<'f>),
}

/// The warriors that two sources assemble to, the older one's with a definition if one is given. The older one is read
/// and assembled before the younger one's file is opened.
pub fn pair_from<'f, R: Files, A: Allocator + Copy, I: Read>(
    rt: &R,
    alloc: A,
    settings: &Settings,
    definition: Option<&'f str>,
    older: Source<'f>,
    younger: Source<'f>,
    input: &mut I,
) -> Result<Pair<A>, NoWarrior<'f, A>>
    ensures comes { MatchResult result (ArePairOf settings.now) (IsNoneOf settings.now) }
    ensures taken { AreTaken (option_copied definition.entry) settings.now (is_input older.entry)
        (is_input younger.entry) result (I.remaining input.old) (I.remaining input.new) }
{
    let older = match warrior_from(rt, alloc, settings, definition, older, input) {
        Ok(warrior) => warrior,
        Err(none) => return Err(none),
    };
    match warrior_from(rt, alloc, settings, None, younger, input) {
        Ok(younger) => Ok(Pair { older, younger }),
        Err(none) => Err(none),
    }
}

/// The warrior that a source assembles to, with a definition if one is given.
pub(crate) fn warrior_from<'f, R: Files, A: Allocator + Copy, I: Read>(
    rt: &R,
    alloc: A,
    settings: &Settings,
    definition: Option<&'f str>,
    source: Source<'f>,
    input: &mut I,
) -> Result<Warrior<A>, NoWarrior<'f, A>>
    ensures comes { MatchResult result (IsWarriorOf settings.now) (IsNoneOf settings.now) }
    ensures taken { From (is_input source.entry) (IsTaken (option_copied definition.entry) settings.now result)
        (I.remaining input.old) (I.remaining input.new) }
{
    match source {
        Source::Input(name) => warrior_of(alloc, settings, definition, name, input),
        Source::File(path) => match open_source(rt, path) {
            Ok(mut file) => warrior_of(alloc, settings, definition, path, &mut file),
            Err(trouble) => Err(NoWarrior::Failed(trouble)),
        },
    }
}

/// The warrior that the source in a reader assembles to. `name` is what messages call it.
fn warrior_of<'f, A: Allocator + Copy, I: Read>(
    alloc: A,
    settings: &Settings,
    definition: Option<&'f str>,
    name: &'f str,
    reader: &mut I,
) -> Result<Warrior<A>, NoWarrior<'f, A>>
    ensures comes { MatchResult result (IsWarriorOf settings.now) (IsNoneOf settings.now) }
    ensures taken { IsTaken (option_copied definition.entry) settings.now result (I.remaining reader.old)
        (I.remaining reader.new) }
{
    let source = match text_from(alloc, name, reader) {
        Ok(source) => source,
        Err(trouble) => return Err(NoWarrior::Failed(trouble)),
    };
    let text = match defined_text(alloc, definition, source) {
        Ok(text) => text,
        Err(trouble) => return Err(undefined(trouble)),
    };
    match assemble(alloc, text.as_slice(), settings) {
        Ok(warrior) => Ok(warrior),
        Err(fault) if matches!(fault.kind, AsmKind::Memory) => {
            Err(NoWarrior::Failed(Trouble::memory()))
        }
        Err(fault) => Err(NoWarrior::Refused(name, text, fault)),
    }
}

/// No warrior, for the trouble that nothing is assembled for a source, or that memory ran out.
fn undefined<'f, A: Allocator>(trouble: Trouble<'f>) -> NoWarrior<'f, A>
    ensures { (define : Option (List ℕ)) → (source : List ℕ) → IsUndefined define source trouble.entry
        → IsUndefinedFor define source result }
{
    match trouble.fault {
        Fault::Memory => NoWarrior::Failed(Trouble::memory()),
        _ => NoWarrior::Undefined(trouble),
    }
}

/// The answer if there is no warrior: the line of a refusal, and where in the source it is and why; or its line of
/// JSON. If nothing is assembled for a source, the answer has a note of that, and no line.
pub fn answer_none<'f, A: Allocator + Copy>(
    alloc: A,
    settings: &Settings,
    none: NoWarrior<'f, A>,
    view: View,
) -> Result<Answer<A>, Trouble<'f>>
    requires { IsNoneOf settings.now none }
    ensures { MatchResult result (IsAnswer settings.now view (λ text. ⊥) (WasUndefined none.entry)) IsReadFault }
{
    match none {
        NoWarrior::Refused(path, text, fault) => {
            let text = text.as_slice();
            refusal(alloc, settings, RefusedSource { path, text, fault }, view)
        }
        NoWarrior::Failed(trouble) => Err(trouble),
        NoWarrior::Undefined(trouble) => Ok(Answer {
            status: Status::Refused,
            text: Vec::new(alloc),
            note: named_note(alloc, trouble),
        }),
    }
}
