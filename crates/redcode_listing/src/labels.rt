//! The labels of a source with their addresses.

ghost use Rattle.std.specs.Prelude.{All, IfOk, OnOk};
ghost use Rattle.redcode_listing.specs.Listing.{IsLabelOf};

use redcode_expand::Expanded;
use redcode_lines::{SourceLine, is_name};
use redcode_text::Token;
use std::alloc::{AllocError, Allocator};

/// A label, and the number of instructions before it.
#[derive(Clone, Copy)]
pub(crate) struct Label<'s> {
    pub name: &'s [u8],
    pub address: u32,
}

/// The labels that stand in the lines of a source, in their order.
pub(crate) fn labels_in<'s, A: Allocator + Copy>(
    alloc: A,
    lines: &[SourceLine<'s, A>],
    expanded: &Expanded<'s, A>,
) -> Result<Vec<Label<'s>, A>, AllocError>
    ensures { IfOk result (λ labels. All (IsLabelOf expanded.now.labels) labels.items) }
{
    let mut labels = Vec::new(alloc);
    for line in lines {
        add_labels(&mut labels, line.reading().labels(), expanded)?;
    }
    Ok(labels)
}

/// Adds those of these names that are labels.
fn add_labels<'s, A: Allocator + Copy>(
    labels: &mut Vec<Label<'s>, A>,
    tokens: &[Token<'s>],
    expanded: &Expanded<'s, A>,
) -> Result<(), AllocError>
    requires { All (IsLabelOf expanded.now.labels) labels.old.items }
    ensures { OnOk result (All (IsLabelOf expanded.now.labels) labels.new.items) }
{
    for token in tokens {
        if is_name(token)
            && let Some(address) = expanded.label(token.text)
        {
            labels.push(Label {
                name: token.text,
                address,
            })?;
        }
    }
    Ok(())
}
