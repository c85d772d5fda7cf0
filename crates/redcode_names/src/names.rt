//! The names of a source, and the lines that define them.

ghost use Rattle.std.specs.Prelude.{◌≡◌, ◌↔◌, [], length, option_map, IsTrue};
ghost use Rattle.{redcode_text.specs.Tokens.pieces, redcode_lines.specs.Line.names_among};
ghost use Rattle.redcode_names.specs.{Gives.{Gives, fault_at}, Equ.has_word, Cut.{cut_names, with_cut}, Name.{names_of, defined, all_defined, but_last, equ_defined, equ_line, for_labels}};

use crate::equs::Equs;
use crate::labels::Labels;
use crate::name::predefined;
use crate::name_key::NameHash;
use indexmap::IndexMap;
use redcode_lines::{is_name, word_at};
use redcode_text::Token;
use std::alloc::Allocator;
use std::marker::Model;
use war_types::{AsmFault, AsmKind, Settings};

/// The names that a source has defined so far.
#[derive(Drop)]
pub struct Names<'s, A: Allocator + Copy> {
    pub labels: Labels<'s, A>,
    pub equs: Equs<'s, A>,
}

impl<'s, A: Allocator + Copy> Model for Names<'s, A> {
    ghost use Rattle.redcode_names.specs.Name.{Names, names_of};

    ghost Value = { Names };

    ghost view = { λ n. names_of n.labels n.equs };
}

impl<'s, A: Allocator + Copy> Names<'s, A> {
    /// No names.
    pub fn new(alloc: A, hash: NameHash) -> Self
        ensures { result ≡ names_of [] [] }
    {
        Names {
            labels: Labels {
                addresses: IndexMap::with_hasher(alloc, hash),
            },
            equs: Equs {
                alloc,
                bodies: IndexMap::with_hasher(alloc, hash),
            },
        }
    }

    /// Whether no `EQU` is among them.
    #[tactic(auto, using(crate::proofs::Lookups::none))]
    pub fn has_no_equs(&self) -> bool
        ensures { IsTrue result ↔ (length self.now.equs ≡ 0) }
    {
        self.equs.bodies.is_empty()
    }

    /// Defines a label. Its name must be new.
    fn define(
        &mut self,
        settings: &Settings,
        number: u32,
        address: u32,
        name: &'s [u8],
    ) -> Result<(), AsmFault>
        ensures { Gives (λ _. self.new) result (defined settings.now number address name.entry.now self.old) }
    {
        if predefined(settings, 0, name).is_some()
            || self.equs.is_equ(name)
            || !self.labels.add(name, address)?
        {
            return Err(refused(number, AsmKind::DuplicateName));
        }
        Ok(())
    }

    /// Defines the names among these tokens, one after another.
    pub fn define_all(
        &mut self,
        settings: &Settings,
        number: u32,
        address: u32,
        labels: &[Token<'s>],
    ) -> Result<(), AsmFault>
        ensures { Gives (λ _. self.new) result (all_defined settings.now number address (names_among (pieces labels.now)) self.old) }
    {
        for label in labels {
            // Paid by the steps of a line that is walked over: one for each of its tokens.
            if is_name(label) {
                self.define(settings, number, address, label.text)?;
            }
        }
        Ok(())
    }

    /// Defines the names among these tokens but the last one, and answers that.
    fn define_but_last(
        &mut self,
        settings: &Settings,
        number: u32,
        address: u32,
        labels: &[Token<'s>],
    ) -> Result<Option<&'s [u8]>, AsmFault>
        ensures { Gives (λ name. (self.new, option_map (λ text. text.now) name)) result (but_last settings.now number address (names_among (pieces labels.now)) self.old) }
    {
        let mut name = None;
        // Paid by the steps of a line that is walked over: one for each of its tokens.
        for label in labels {
            if !is_name(label) {
                continue;
            }
            if let Some(earlier) = name {
                self.define(settings, number, address, earlier)?;
            }
            name = Some(label.text);
        }
        Ok(name)
    }

    /// Defines the names of an EQU line: the last of its labels with this body, and those before it at this address. Of the body no more
    /// is kept than shows that it is too long.
    pub fn equate_line(
        &mut self,
        settings: &Settings,
        number: u32,
        address: u32,
        labels: &[Token<'s>],
        body: &[Token<'s>],
    ) -> Result<(), AsmFault>
        ensures { Gives (λ _. cut_names self.new) result (with_cut (equ_line settings.now number address (pieces body.now) (names_among (pieces labels.now)) self.old)) }
    {
        match self.define_but_last(settings, number, address, labels)? {
            Some(name) => self.equate(settings, number, name, body),
            None => Err(refused(number, AsmKind::BadEqu)),
        }
    }

    /// Defines an EQU of this name.
    fn equate(
        &mut self,
        settings: &Settings,
        number: u32,
        name: &'s [u8],
        body: &[Token<'s>],
    ) -> Result<(), AsmFault>
        ensures { Gives (λ _. cut_names self.new) result (with_cut (equ_defined settings.now number (pieces body.now) name.entry.now self.old)) }
    {
        let is_taken = predefined(settings, 0, name).is_some()
            || self.labels.address_of(name).is_some()
            || self.equs.is_equ(name);
        if is_taken {
            return Err(refused(number, AsmKind::DuplicateName));
        }
        if body.is_empty() || has_word(body) {
            return Err(refused(number, AsmKind::BadEqu));
        }
        self.equs.add(name, body)?;
        Ok(())
    }

    /// Defines the labels of a FOR line at this address but the last one, and answers that: the counter's name, empty if there is none.
    pub fn define_earlier(
        &mut self,
        settings: &Settings,
        number: u32,
        address: u32,
        labels: &[Token<'s>],
    ) -> Result<&'s [u8], AsmFault>
        ensures { Gives (λ name. (self.new, name.now)) result (for_labels settings.now number address (names_among (pieces labels.now)) self.old) }
    {
        let name = self.define_but_last(settings, number, address, labels)?;
        Ok(name.unwrap_or(b""))
    }
}

fn refused(number: u32, kind: AsmKind) -> AsmFault
    ensures { result ≡ fault_at number kind }
{
    AsmFault { line: number, kind }
}

/// Whether a reserved word is among these tokens.
fn has_word(tokens: &[Token<'_>]) -> bool
    ensures { result ≡ has_word (pieces tokens.now) }
{
    for token in tokens {
        // Paid by the steps of a line that is walked over: one for each of its tokens.
        if word_at(token).is_some() {
            return true;
        }
    }
    false
}
