//! What tells a field from others.

ghost use Rattle.std.specs.Prelude.{◌≡◌, ◌++◌, ℕ, List, All, IfOk, OnOk, string_bytes};
ghost use Rattle.{war_types.specs.Warrior.Fits, sha2.specs.Sha256.{sha256}};
ghost use Rattle.koth_field.specs.{Field.{entrant_of, entrants_of}, Digest.{digest_of, entrant_text, field_text, label_of}};

use crate::field::Member;
use hex::encode;
use koth_commands::put_name;
use koth_text::Piece::Text;
use koth_text::put_all;
use redcode_asm::load_text;
use sha2::{Digest, Sha256};
use std::alloc::{AllocError, Allocator};
use war_types::Settings;

/// What a member is called in a line: the name of its warrior, its author and its file, with a tab between two. The
/// error is lack of memory.
pub fn label_of<A: Allocator + Copy>(alloc: A, member: &Member<A>) -> Result<Vec<u8, A>, AllocError>
    ensures { IfOk result (λ label. label.items ≡ label_of (entrant_of member.now)) }
{
    let mut label = Vec::new(alloc);
    put_label(&mut label, member)?;
    Ok(label)
}

fn put_label<A: Allocator>(text: &mut Vec<u8, A>, member: &Member<A>) -> Result<(), AllocError>
    ensures { OnOk result (text.new.items ≡ text.old.items ++ label_of (entrant_of member.now)) }
{
    let name = Text(member.warrior.name().bytes());
    let author = Text(member.warrior.author().bytes());
    put_all(text, &[name, Text(b"\t"), author, Text(b"\t")])?;
    put_name(text, member.file.as_str())
}

/// The SHA-256 of a field in 64 hexadecimal digits: of what its members are called and of their load texts, in their
/// order. The error is lack of memory.
pub fn digest_of<A: Allocator + Copy>(
    alloc: A,
    settings: &Settings,
    members: &[Member<A>],
) -> Result<String<A>, AllocError>
    requires { All (λ m. Fits settings.now m.warrior) members.now }
    ensures { IfOk result (λ digest. string_bytes digest ≡ digest_of settings.now.core (entrants_of members.now)) }
{
    let mut hasher = Sha256::new();
    for place in 0..members.len() {
        let text = entrant_text(alloc, settings, &members[place])?;
        hasher.update(text.as_slice());
    }
    let digest = hasher.finalize();
    encode(alloc, digest.as_slice())
}

/// A member in full.
fn entrant_text<A: Allocator + Copy>(
    alloc: A,
    settings: &Settings,
    member: &Member<A>,
) -> Result<Vec<u8, A>, AllocError>
    requires { Fits settings.now member.now.warrior }
    ensures { IfOk result (λ text. text.items ≡ entrant_text settings.now.core (entrant_of member.now)) }
{
    let code = load_text(alloc, &member.warrior, settings.core())?;
    let mut text = label_of(alloc, member)?;
    text.extend_from_slice(b"\n")?;
    text.extend_from_slice(code.as_slice())?;
    Ok(text)
}
