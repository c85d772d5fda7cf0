//! Where a source defines its names.

use crate::definers::is_label;
use crate::scene::Scene;
use redcode_lines::{LineForm, Reading, is_name};
use redcode_text::{Token, Word};
use std::alloc::Allocator;

/// What a name may be.
#[derive(Clone, Copy)]
pub enum Role {
    Label,
    /// The name of an `EQU`.
    Equ,
    /// The counter of a block.
    Counter,
}

/// The number of the first line that defines this name so, if its number is below a limit.
pub fn definition<A: Allocator + Copy>(
    scene: &Scene<'_, A>,
    role: Role,
    name: &[u8],
    limit: u32,
) -> Option<u32> {
    for line in &scene.lines {
        if line.number() >= limit {
            break;
        }
        if defines(scene, &line.reading(), role, name) {
            return Some(line.number());
        }
    }
    None
}

/// Whether a line defines this name so, as it is written.
fn defines<A: Allocator + Copy>(
    scene: &Scene<'_, A>,
    line: &Reading<'_, '_>,
    role: Role,
    name: &[u8],
) -> bool {
    if !matches!(line.form, LineForm::Statement) {
        return false;
    }
    let labels = line.labels();
    for (i, token) in labels.iter().enumerate() {
        let behind = &labels[i + 1..];
        let is_last = last_name(behind).is_none();
        let is_such = match (role, line.word) {
            (Role::Counter, Some(Word::For)) => is_name(token) && is_last,
            (Role::Equ, Some(Word::Equ)) => is_last
                && is_label(scene, line, &labels[..i], token, behind),
            (Role::Counter | Role::Equ, _) => false,
            (Role::Label, Some(Word::Equ)) if is_last => false,
            (Role::Label, _) => is_label(scene, line, &labels[..i], token, behind),
        };
        if is_such && token.text == name {
            return true;
        }
    }
    false
}

/// The last name among these tokens.
pub fn last_name<'s>(tokens: &[Token<'s>]) -> Option<&'s [u8]> {
    let mut last = None;
    for token in tokens {
        if is_name(token) {
            last = Some(token.text);
        }
    }
    last
}

/// Whether a name is among these tokens.
pub fn is_among(tokens: &[Token<'_>], name: &[u8]) -> bool {
    for token in tokens {
        if is_name(token) && token.text == name {
            return true;
        }
    }
    false
}
