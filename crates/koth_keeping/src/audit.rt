//! The command `audit`: whether the results that the hill in a file keeps are those of its matches.

ghost use Rattle.std.specs.Prelude.{◌≡◌, ◌≤◌, IfOk, length};
ghost use Rattle.{koth_json.specs.Reply.audit_line, koth_keeping.specs.{Answers.Answers, Audit.{AuditsOf, SaysAudit, audit_answer, audit_text, counts_line, pair_line, plain_line, untrue_text}}};

use hill_store::{Store, Untrue};
use koth_commands::trouble::Trouble;
use koth_commands::{Answer, Status};
use koth_files::look_hill;
use koth_json::put_audit;
use koth_match::Bout;
use koth_protocol::Line;
use koth_words::View;
use sector_disk::Device;
use std::alloc::{AllocError, Allocator};
use std::rt::Files;

/// Fights every pair of the hill in a file again, and answers `true` if each result that is kept is its match's, else
/// `false`; or that as a line of JSON. The note is then the first pair whose result isn't, by the younger warrior's entry and then the older's: their
/// entries, the result that is kept, and that of their match, each as the rounds that the older won, that the younger won,
/// and ties. The file is only read, and its lock is not taken.
pub fn perform_audit<'p, R: Files, A: Allocator + Copy>(
    rt: &R,
    alloc: A,
    path: &'p str,
    view: View,
) -> Result<Answer<A>, Trouble<'p>>
    ensures { Answers (SaysAudit view) result }
{
    match look_hill(rt, alloc, path) {
        Ok(mut store) => Ok(audit_store(alloc, &mut store, view)?),
        Err(trouble) => Err(trouble),
    }
}

/// Audits a store's hill.
fn audit_store<D: Device, A: Allocator + Copy>(
    alloc: A,
    store: &mut Store<D, A>,
    view: View,
) -> Result<Answer<A>, AllocError>
    ensures { IfOk result (AuditsOf view store.old.hill) }
{
    let found = store.first_untrue();
    answer_found(alloc, view, found)
}

/// The answer to an audit that found this.
pub(crate) fn answer_found<A: Allocator + Copy>(
    alloc: A,
    view: View,
    found: Option<Untrue>,
) -> Result<Answer<A>, AllocError>
    ensures { IfOk result (λ answer. answer ≡ audit_answer view found) }
{
    let text = audit_text(alloc, view, found)?;
    match found {
        None => Ok(Answer {
            status: Status::Done,
            text,
            note: Vec::new(alloc),
        }),
        Some(untrue) => Ok(Answer {
            status: Status::Refused,
            text,
            note: untrue_text(alloc, &untrue)?,
        }),
    }
}

/// What an audit that found this says.
fn audit_text<A: Allocator>(
    alloc: A,
    view: View,
    found: Option<Untrue>,
) -> Result<Vec<u8, A>, AllocError>
    ensures { IfOk result (λ text. text.items ≡ audit_text view found) }
{
    match view {
        View::Json => json_text(alloc, found),
        View::Plain | View::Table => Vec::from_slice(alloc, plain_line(found)),
    }
}

fn json_text<A: Allocator>(alloc: A, found: Option<Untrue>) -> Result<Vec<u8, A>, AllocError>
    ensures { IfOk result (λ text. text.items ≡ audit_line found) }
{
    let mut text = Vec::new(alloc);
    put_audit(&mut text, found)?;
    Ok(text)
}

fn plain_line(found: Option<Untrue>) -> &'static [u8]
    ensures { result.now ≡ plain_line found }
{
    match found {
        None => b"true\n",
        Some(_) => b"false\n",
    }
}

/// The pair of an untrue result, the result that is kept, and that of its match.
fn untrue_text<A: Allocator>(alloc: A, untrue: &Untrue) -> Result<Vec<u8, A>, AllocError>
    ensures { IfOk result (λ text. text.items ≡ untrue_text untrue.now) }
{
    let pair = pair_line(untrue.older, untrue.younger);
    let kept = counts_line(b"KEPT ", untrue.kept);
    let fought = counts_line(b"FOUGHT ", untrue.fought);
    let mut text = Vec::from_slice(alloc, pair.as_slice())?;
    text.extend_from_slice(kept.as_slice())?;
    text.extend_from_slice(fought.as_slice())?;
    Ok(text)
}

fn pair_line(older: u64, younger: u64) -> Line
    ensures { result ≡ pair_line older younger }
{
    let mut line = Line::new();
    line.put(b"PAIR ");
    line.put_number(older);
    line.put(b" ");
    line.put_number(younger);
    line.put(b"\n");
    line
}

fn counts_line(word: &[u8], bout: Bout) -> Line
    requires { length word.now ≤ 7 }
    ensures { result ≡ counts_line word.now bout }
{
    let mut line = Line::new();
    line.put(word);
    line.put_number(u64::from(bout.older_wins));
    line.put(b" ");
    line.put_number(u64::from(bout.younger_wins));
    line.put(b" ");
    line.put_number(u64::from(bout.ties));
    line.put(b"\n");
    line
}
