//! The assembler.

ghost use Rattle.std.specs.Prelude.{◌≡◌, ◌^◌, ◌<◌, ◌≤◌, ◌+◌, true, length, IfOk, Ok, Err, unwrap_or, []};
ghost use Rattle.{war_types.specs.{Warrior.Fits, declared.fault.AsmKind.TheVariants.SourceTooLong}, redcode_names.specs.Gives.{Gives, fault_at}, redcode_expand.specs.{Budget.most_steps, Steps.is_plain, Taken.steps_taken}, redcode_asm.specs.Said.statement_of};
ghost use Rattle.redcode_asm.specs.Assembly.{Assembles, assembly, assembly_of, checked_start, warrior_said, all_said, code_of, given_start, start_of, all_hold, last_text, is_name, is_author};

use crate::names::Labels;
use bumpalo::Bump;
use redcode_expand::{Entry, Expanded, LineKind, Steps, expand_within};
use redcode_lines::behind_first;
use redcode_statement::{
    Statement, assert_said, end_said, has_bad_token, instruction_of, org_said, other_said,
};
use std::alloc::Allocator;
use war_types::{AsmFault, AsmKind, Instr, Settings, Title, Warrior};

/// What a line says, with its number in the source, counted from 1.
type Said = (u32, Statement);

/// Assembles a source of Redcode under these settings.
///
/// The first refusal that is due is answered: that of the expansion; then the first fault of the first expanded line that has one, in
/// the order of `AsmKind`; then `Empty`, `TooLong`, `BadStart`, and the first assertion that doesn't hold. It names a line of the
/// source, counted from 1, or 0 if none is to blame. `AsmKind::Memory` stands only if memory ran out.
pub fn assemble<A: Allocator + Copy>(
    alloc: A,
    source: &[u8],
    settings: &Settings,
) -> Result<Warrior<A>, AsmFault>
    ensures assembled { Assembles result (assembly settings.now source.now) }
    ensures too_long { 65536 < length source.now → result ≡ Err (fault_at 0 SourceTooLong) }
    ensures fits { IfOk result (Fits settings.now) }
{
    let mut steps = Steps::new(u64::MAX);
    assemble_by(alloc, source, settings, &mut steps)
}

/// The same within a budget of steps: `Memory` is answered too if they are spent.
pub(crate) fn assemble_by<A: Allocator + Copy>(
    alloc: A,
    source: &[u8],
    settings: &Settings,
    steps: &mut Steps,
) -> Result<Warrior<A>, AsmFault>
    ensures assembled { Assembles result (assembly settings.now source.now) }
    ensures too_long { 65536 < length source.now → result ≡ Err (fault_at 0 SourceTooLong) }
    ensures fits { IfOk result (Fits settings.now) }
    ensures steps { steps.old ≤ steps.new + most_steps (length source.now) }
    ensures plain { is_plain source.now ≡ true → steps.old ≤ steps.new + (length source.now + 1) }
    ensures taken { steps.old ≤ steps.new + steps_taken settings.now source.now }
{
    let region = Bump::new(alloc);
    let expanded = expand_within(alloc, &region, source, settings, steps)?;
    warrior_from(alloc, &expanded, settings)
}

/// The warrior of a source that is written out.
pub fn warrior_from<A: Allocator + Copy>(
    alloc: A,
    expanded: &Expanded<'_, A>,
    settings: &Settings,
) -> Result<Warrior<A>, AsmFault>
    ensures assembled { Assembles result (assembly_of settings.now expanded.now) }
    ensures fits { IfOk result (Fits settings.now) }
{
    let said = all_said(alloc, expanded, settings)?;
    warrior_of(alloc, expanded, said.as_slice(), settings)
}

/// The warrior of lines that say this.
fn warrior_of<A: Allocator + Copy>(
    alloc: A,
    expanded: &Expanded<'_, A>,
    said: &[Said],
    settings: &Settings,
) -> Result<Warrior<A>, AsmFault>
    requires { all_said settings.now expanded.now.labels expanded.now.lines ≡ Ok said.now }
    ensures assembled { Assembles result (warrior_said settings.now expanded.now.lines said.now) }
    ensures fits { IfOk result (Fits settings.now) }
{
    let code = code_of(alloc, said)?;
    let start = checked_start(code.as_slice(), said, settings.length())?;
    let (name, author) = last_texts(expanded);
    let name = Title::new(name, "Unnamed");
    let author = Title::new(author, "Anonymous");
    Ok(Warrior::new(code, start, name, author, settings).unwrap())
}

/// The start of the code of these lines, if that is neither too short nor too long and no assertion fails.
fn checked_start(code: &[Instr], said: &[Said], limit: u16) -> Result<u16, AsmFault>
    requires code { code.now ≡ code_of said.now }
    ensures { result ≡ checked_start limit said.now }
{
    if code.is_empty() {
        return Err(fault(0, AsmKind::Empty));
    }
    if code.len() > usize::from(limit) {
        return Err(fault(0, AsmKind::TooLong));
    }
    let start = start_of(said, code.len())?;
    check_assertions(said)?;
    Ok(start)
}

fn fault(line: u32, kind: AsmKind) -> AsmFault
    ensures { result ≡ fault_at line kind }
{
    AsmFault { line, kind }
}

/// What the lines say one after another, or the first fault among them.
fn all_said<A: Allocator + Copy>(
    alloc: A,
    expanded: &Expanded<'_, A>,
    settings: &Settings,
) -> Result<Vec<Said, A>, AsmFault>
    ensures { Gives (λ all. all.items) result (all_said settings.now expanded.now.labels expanded.now.lines) }
{
    let mut all = Vec::new(alloc);
    // Takes no step: each of at most 4,096 lines that are written out took one when it was, and is judged once.
    for entry in expanded.entries() {
        let line = entry.line.source_line;
        match said_by(expanded, settings, entry) {
            Ok(statement) => all.push((line, statement))?,
            Err(kind) => return Err(fault(line, kind)),
        }
    }
    Ok(all)
}

/// What a line of an expanded source says, or the first of its faults.
#[tactic(auto, unfolding(crate::specs::Said::said_by))]
pub fn said_by<A: Allocator + Copy>(
    expanded: &Expanded<'_, A>,
    settings: &Settings,
    entry: &Entry<'_, A>,
) -> Result<Statement, AsmKind>
    ensures { result ≡ statement_of settings.now expanded.now.labels entry.now }
{
    let tokens = entry.tokens.as_slice();
    if has_bad_token(tokens) {
        return Err(AsmKind::BadToken);
    }
    let before = entry.line.before;
    let absolute = Labels {
        expanded,
        settings,
        before,
        origin: 0,
    };
    match entry.line.kind {
        LineKind::Operation => {
            let relative = Labels {
                origin: before,
                ..absolute
            };
            let operands = behind_first(tokens);
            let instr = instruction_of(settings.core(), entry.word, operands, &relative)?;
            Ok(Statement::Instruction(instr))
        }
        LineKind::Org => org_said(behind_first(tokens), &absolute),
        LineKind::End => end_said(behind_first(tokens), &absolute),
        LineKind::Assert => assert_said(tokens, &absolute),
        LineKind::Name | LineKind::Author => Ok(Statement::Nothing),
        LineKind::Other => other_said(entry.word),
    }
}

/// The instructions of the lines one after another.
fn code_of<A: Allocator>(alloc: A, said: &[Said]) -> Result<Vec<Instr, A>, AsmFault>
    ensures { Gives (λ code. code.items) result (Ok (code_of said.now)) }
{
    let mut code = Vec::new(alloc);
    // Takes no step: each line took one when it was written out.
    for (_, statement) in said {
        if let Statement::Instruction(instr) = statement {
            code.push(*instr)?;
        }
    }
    Ok(code)
}

/// The start among `count` instructions: that of the last `ORG`, else that of the `END`, else 0. It has to be an instruction.
fn start_of(said: &[Said], count: usize) -> Result<u16, AsmFault>
    requires { count < 2 ^ 16 }
    ensures { result ≡ start_of count (given_start said.now) }
{
    let mut org = None;
    let mut end = None;
    // Takes no step: each line took one when it was written out.
    for (line, statement) in said {
        match statement {
            Statement::Org(value) => org = Some((*line, *value)),
            Statement::End(value) => end = Some((*line, *value)),
            _ => {}
        }
    }
    match org.or(end) {
        None => Ok(0),
        Some((line, value)) => match u16::try_from(value) {
            Ok(start) if usize::from(start) < count => Ok(start),
            _ => Err(fault(line, AsmKind::BadStart)),
        },
    }
}

/// Refuses the first assertion that doesn't hold.
fn check_assertions(said: &[Said]) -> Result<(), AsmFault>
    ensures { result ≡ all_hold said.now }
{
    // Takes no step: each line took one when it was written out.
    for (line, statement) in said {
        if matches!(statement, Statement::Assert(0)) {
            return Err(fault(*line, AsmKind::AssertFalse));
        }
    }
    Ok(())
}

/// The texts of the last `;name` and of the last `;author`, each empty if there is none.
fn last_texts<'e, A: Allocator + Copy>(expanded: &'e Expanded<'_, A>) -> (&'e [u8], &'e [u8])
    ensures name { result.0.now ≡ unwrap_or (last_text is_name expanded.now.lines) [] }
    ensures author { result.1.now ≡ unwrap_or (last_text is_author expanded.now.lines) [] }
{
    let mut name: &[u8] = b"";
    let mut author: &[u8] = b"";
    // Takes no step: each line took one when it was written out.
    for entry in expanded.entries() {
        match entry.line.kind {
            LineKind::Name => name = entry.title,
            LineKind::Author => author = entry.title,
            _ => {}
        }
    }
    (name, author)
}
