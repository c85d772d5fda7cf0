//! The source that comes next on the input.

ghost use Rattle.std.specs.Prelude.{◌≡◌, ◌++◌, ◌∷◌, [], ℕ, true, List, IfOk};
ghost use Rattle.koth_protocol.specs.Commands.{Command, commands_of, kept_source};
ghost use Rattle.koth_candidates.specs.Sources.{opening, IsAt, ReadsByte, TakesNext};

use koth_commands::reason_of;
use koth_commands::trouble::Trouble;
use koth_protocol::{Met, Script};
use koth_text::read_uninterrupted;
use std::alloc::{AllocError, Allocator};
use std::io::Read;

/// What messages call the input.
const INPUT: &str = "-";

/// What was taken from the input.
#[derive(Drop)]
pub enum Taken<A: Allocator> {
    /// A source, which the script has as that of its submission.
    Source(Script<A>),
    /// Nothing: the input is at its end.
    End,
    /// The beginning of a source, in which the input ends.
    Cut,
}

/// Takes the next source from the input, up to the line that ends it, and no byte after that.
pub fn next_source<'t, A: Allocator + Copy, I: Read>(
    alloc: A,
    input: &mut I,
) -> Result<Taken<A>, Trouble<'t>>
    ensures { TakesNext result (I.remaining input.old) (I.remaining input.new) }
{
    let Ok(mut script) = begun(alloc) else {
        return Err(Trouble::memory());
    };
    let mut is_begun = false;
    for _ in 0..u64::MAX {
        match read_byte(input) {
            Ok(Some(byte)) => match feed(&mut script, byte) {
                Met::Nothing => is_begun = true,
                Met::Submit => return Ok(Taken::Source(script)),
                _ => return Ok(Taken::Cut),
            },
            Ok(None) if is_begun => return Ok(Taken::Cut),
            Ok(None) => return Ok(Taken::End),
            Err(trouble) => return Err(trouble),
        }
    }
    Ok(Taken::Cut)
}

/// The next byte of the input, if it has one.
fn read_byte<'t, I: Read>(input: &mut I) -> Result<Option<u8>, Trouble<'t>>
    ensures { ReadsByte result (I.remaining input.old) (I.remaining input.new) }
{
    let mut byte = [0];
    match read_uninterrupted(input, &mut byte) {
        Ok(0) => Ok(None),
        Ok(_) => Ok(Some(byte[0])),
        Err(error) => Err(Trouble::file(INPUT, reason_of(error.kind()))),
    }
}

/// A session that was sent the line before a source.
fn begun<A: Allocator + Copy>(alloc: A) -> Result<Script<A>, AllocError>
    ensures { IfOk result (λ script. IsAt script opening) }
{
    let mut script = Script::new(alloc)?;
    if feed_all(&mut script, b"SUBMIT\n") {
        Ok(script)
    } else {
        Err(AllocError)
    }
}

/// Passes bytes on to a session, of which none ends a command. If one does, the rest isn't passed on.
fn feed_all<A: Allocator>(script: &mut Script<A>, text: &[u8]) -> bool
    ensures { result ≡ true → IsAt script.old [] → IsAt script.new text.now }
{
    for place in 0..text.len() {
        match feed(script, text[place]) {
            Met::Nothing => {}
            _ => return false,
        }
    }
    true
}

/// Passes a byte on to a session.
fn feed<A: Allocator>(script: &mut Script<A>, byte: u8) -> Met
    ensures goes_on { (text : List ℕ) → IsAt script.old text → result ≡ Met.Nothing → IsAt script.new (text ++ byte ∷ []) }
    ensures submits { (text : List ℕ) → IsAt script.old text → result ≡ Met.Submit
        → commands_of (text ++ byte ∷ []) ≡ Command.Submit (kept_source script.new.source) ∷ [] }
{
    script.take(byte)
}
