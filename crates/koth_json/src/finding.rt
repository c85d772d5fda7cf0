//! The lines of `check`, and of a source that is refused.

ghost use Rattle.std.specs.Prelude.{◌≡◌, ◌++◌, codes, OnOk};
ghost use Rattle.koth_json.specs.{Finding.{copy_fields, finding_fields, finding_line, refused_line, severity_text}, Objects.further_text};

use crate::key::Key;
use crate::object::Value::{Number, Text};
use crate::object::{begin, end_with, put_fields};
use std::alloc::{AllocError, Allocator};

/// How bad a finding is.
#[derive(Clone, Copy, PartialEq, Eq)]
pub enum Severity {
    /// The source is refused for it.
    Error,
    /// The source may assemble.
    Warning,
}

/// How a line reads in a copy of a block.
#[derive(Clone, Copy)]
pub struct Copied<'f> {
    /// How often the line has been written out by then.
    pub times: u32,
    /// The line of the innermost `FOR` around it.
    pub block: u32,
    pub text: &'f [u8],
}

/// What is found in a source.
#[derive(Clone, Copy)]
pub struct Finding<'f> {
    /// The line of the source, counted from 1, or 0 if none is to blame.
    pub line: u32,
    /// The column of the first byte to blame, counted from 1.
    pub column: u32,
    /// Bytes to blame.
    pub width: u32,
    pub kind: &'f str,
    pub severity: Severity,
    pub message: &'f [u8],
    /// The text of the line.
    pub text: &'f [u8],
    /// The copy of a block that is to blame, if the line is in one.
    pub copy: Option<Copied<'f>>,
}

/// Puts the line of a finding in the source in a file. The error is lack of memory.
pub fn put_finding<A: Allocator>(
    lines: &mut Vec<u8, A>,
    file: &str,
    finding: Finding<'_>,
) -> Result<(), AllocError>
    ensures { OnOk result (lines.new.items ≡ lines.old.items ++ finding_line file.now finding.entry) }
{
    begin(lines, (Key::File, Text(file.as_bytes())))?;
    put_parts(lines, finding)?;
    end_with(lines, &[(Key::Type, Text(b"finding"))])
}

/// Puts the line of a source that is refused, for what is found in it. The error is lack of memory.
pub fn put_refused<A: Allocator>(
    lines: &mut Vec<u8, A>,
    file: &str,
    finding: Finding<'_>,
) -> Result<(), AllocError>
    ensures { OnOk result (lines.new.items ≡ lines.old.items ++ refused_line file.now finding.entry) }
{
    begin(lines, (Key::Type, Text(b"refused")))?;
    put_fields(lines, &[(Key::File, Text(file.as_bytes()))])?;
    put_parts(lines, finding)?;
    end_with(lines, &[])
}

/// Puts what is found, and where it is.
fn put_parts<A: Allocator>(line: &mut Vec<u8, A>, finding: Finding<'_>) -> Result<(), AllocError>
    ensures { OnOk result (line.new.items ≡ line.old.items ++ further_text (finding_fields finding.entry)) }
{
    let fields = [
        (Key::Line, Number(u64::from(finding.line))),
        (Key::Column, Number(u64::from(finding.column))),
        (Key::Width, Number(u64::from(finding.width))),
        (Key::Kind, Text(finding.kind.as_bytes())),
        (
            Key::Severity,
            Text(severity_text(finding.severity).as_bytes()),
        ),
        (Key::Message, Text(finding.message)),
        (Key::Text, Text(finding.text)),
    ];
    put_fields(line, &fields)?;
    put_copy(line, finding.copy)
}

/// Puts the copy that is to blame, if there is one.
fn put_copy<A: Allocator>(line: &mut Vec<u8, A>, copy: Option<Copied<'_>>) -> Result<(), AllocError>
    ensures { OnOk result (line.new.items ≡ line.old.items ++ further_text (copy_fields copy.entry)) }
{
    match copy {
        None => Ok(()),
        Some(copy) => {
            let fields = [
                (Key::Copy, Number(u64::from(copy.times))),
                (Key::Block, Number(u64::from(copy.block))),
                (Key::Reads, Text(copy.text)),
            ];
            put_fields(line, &fields)
        }
    }
}

fn severity_text(severity: Severity) -> &'static str
    ensures { result.now ≡ severity_text severity }
{
    match severity {
        Severity::Error => "error",
        Severity::Warning => "warning",
    }
}
