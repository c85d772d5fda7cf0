//! A source with another body in the `EQU` lines of a name.

ghost use Rattle.std.specs.Prelude.{◌≡◌, ◌≤◌, length, IfOk, option_map};
ghost use Rattle.redcode_lines.specs.Source.{lines_of, live_lines};
ghost use Rattle.redcode_define.specs.{Define.{all_defined, defined}, Place.{first_place, open_in}};

use crate::bytes::first_line;
use crate::equ_line::put_line;
use crate::place::Place;
use redcode_lines::live_source;
use std::alloc::{AllocError, Allocator};

/// The most bytes that a source may have.
const SOURCE_LIMIT: usize = 65_536;

/// The source with `value` for the body of each `EQU` line of this name that is read, also in blocks that are dropped; `None` if there
/// is no such line. A name that `&` joins is another one. A source of over 65,536 bytes stays as it is, since it is refused anyway.
pub fn define<A: Allocator + Copy>(
    alloc: A,
    source: &[u8],
    name: &[u8],
    value: &[u8],
) -> Result<Option<Vec<u8, A>>, AllocError>
    ensures { IfOk result (λ found. option_map (λ text. text.items) found ≡ defined source.now name.now value.now) }
{
    if source.len() > SOURCE_LIMIT {
        return Ok(Some(Vec::from_slice(alloc, source)?));
    }
    lines_defined(alloc, source, name, value, first_place(source))
}

/// The place of the first line of a source.
#[tactic(auto, using(crate::proofs::Places::first_of, crate::proofs::Places::none_of))]
fn first_place(source: &[u8]) -> Place
    requires { length source.now ≤ 65536 }
    ensures place { result ≡ first_place (live_lines source.now) }
    ensures blocks { open_in result ≡ 0 }
{
    let (number, live) = live_source(source);
    if live.is_empty() {
        return Place::Read(0);
    }
    Place::first(number)
}

/// The same of a source whose first line is at this place.
#[tactic(auto, using(crate::proofs::Places::or_of))]
fn lines_defined<A: Allocator + Copy>(
    alloc: A,
    source: &[u8],
    name: &[u8],
    value: &[u8],
    first: Place,
) -> Result<Option<Vec<u8, A>>, AllocError>
    requires short { length source.now ≤ 65536 }
    requires blocks { open_in first ≡ 0 }
    ensures { IfOk result (λ found. option_map (λ text. text.items) found
        ≡ all_defined name.now value.now first (lines_of source.entry.now)) }
{
    let mut text = Vec::new(alloc);
    let mut found = false;
    let mut place = first;
    let mut rest = source;
    while !rest.is_empty() {
        let (line, behind) = first_line(rest);
        let said = put_line(alloc, name, value, place, line, &mut text)?;
        text.push(b'\n')?;
        found = found || said.is_one;
        place = place.behind(said.word);
        rest = behind;
    }
    if found { Ok(Some(text)) } else { Ok(None) }
}
