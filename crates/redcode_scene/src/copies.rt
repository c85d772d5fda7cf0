//! The copy of a block that is refused.

use crate::definitions::last_name;
use crate::judge::{Faulty, faulty_line};
use crate::scene::Scene;
use redcode_expand::LineKind;
use redcode_lines::SourceLine;
use redcode_text::Word;
use std::alloc::{AllocError, Allocator};
use war_types::AsmFault;

/// A line as it reads in a copy of a block.
#[derive(Drop)]
pub struct Copied<A: Allocator> {
    /// How often the line has been written out, this time included: the number of the copy, if no block stands around its block.
    pub times: u32,
    /// The line of the `FOR` of the innermost block around it.
    pub block: u32,
    /// Whether a block stands around that block.
    pub is_nested: bool,
    /// Its tokens with a blank between two of them; counters and the names of `EQU` lines are replaced.
    pub text: Vec<u8, A>,
}

/// The copy in which a line has this fault, if the line stands in a block and the source could be written out.
pub fn copy_of<A: Allocator + Copy>(
    scene: &Scene<'_, A>,
    fault: AsmFault,
) -> Result<Option<Copied<A>>, AllocError> {
    let Some(expanded) = &scene.expanded else {
        return Ok(None);
    };
    let Some(faulty) = faulty_line(expanded, scene.settings, fault) else {
        return Ok(None);
    };
    let around = blocks_around(scene.lines.as_slice(), fault.line);
    let Some(block) = around.innermost else {
        return Ok(None);
    };
    match text_of(scene.alloc, &faulty) {
        Ok(text) => Ok(Some(Copied {
            times: faulty.times,
            block,
            is_nested: around.count > 1,
            text,
        })),
        Err(error) => Err(error),
    }
}

/// The blocks around a line.
#[derive(Clone, Copy)]
pub struct Around {
    /// The line of the innermost block's `FOR`.
    pub innermost: Option<u32>,
    pub count: u32,
    /// Blocks whose `ROF` was met, and whose `FOR` is still to come.
    closed: u32,
}

/// The blocks that are open before the line of this number.
pub fn blocks_around<A: Allocator>(lines: &[SourceLine<'_, A>], number: u32) -> Around {
    let mut around = Around {
        innermost: None,
        count: 0,
        closed: 0,
    };
    for line in lines.iter().rev() {
        if line.number() < number {
            around = around.with(line.word(), line.number());
        }
    }
    around
}

/// Whether a block is open before the line of this number whose counter has this name.
pub fn is_counter_at<A: Allocator>(lines: &[SourceLine<'_, A>], number: u32, name: &[u8]) -> bool {
    let mut closed: u32 = 0;
    for line in lines.iter().rev() {
        match line.word() {
            _ if line.number() >= number => {}
            Some(Word::Rof) => closed = closed.saturating_add(1),
            Some(Word::For) if closed > 0 => closed = closed.saturating_sub(1),
            Some(Word::For) if last_name(line.reading().front) == Some(name) => return true,
            _ => {}
        }
    }
    false
}

impl Around {
    /// The same with the line of this number, which stands before those that were met.
    fn with(self, word: Option<Word>, number: u32) -> Around {
        match word {
            Some(Word::Rof) => Around {
                closed: self.closed.saturating_add(1),
                ..self
            },
            Some(Word::For) if self.closed > 0 => Around {
                closed: self.closed.saturating_sub(1),
                ..self
            },
            Some(Word::For) => Around {
                innermost: self.innermost.or(Some(number)),
                count: self.count.saturating_add(1),
                ..self
            },
            _ => self,
        }
    }
}

/// A line as it reads.
fn text_of<A: Allocator>(alloc: A, faulty: &Faulty<'_, '_>) -> Result<Vec<u8, A>, AllocError> {
    let mut text = Vec::new(alloc);
    match append_line(&mut text, faulty) {
        Ok(()) => Ok(text),
        Err(error) => Err(error),
    }
}

/// Appends a line as it reads.
fn append_line<A: Allocator>(
    text: &mut Vec<u8, A>,
    faulty: &Faulty<'_, '_>,
) -> Result<(), AllocError> {
    if let LineKind::Assert = faulty.line.kind {
        text.extend_from_slice(b";assert")?;
    }
    for token in faulty.tokens {
        if !text.is_empty() {
            text.push(b' ')?;
        }
        text.extend_from_slice(token.text)?;
    }
    Ok(())
}
