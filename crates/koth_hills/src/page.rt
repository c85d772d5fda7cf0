//! The command `page`: the page of the hill in a file.

ghost use Rattle.std.specs.Prelude.{◌≡◌, IfOk};
ghost use Rattle.{koth_page.specs.{Page.hill_page, Sign.untold}, koth_keeping.specs.Answers.Answers, koth_hills.specs.Page.SaysPage};

use hill_store::Store;
use koth_commands::trouble::Trouble;
use koth_commands::{Answer, Status};
use koth_files::look_hill;
use koth_page::{Links, Sign, TITLE, hill_page};
use sector_disk::Device;
use std::alloc::{AllocError, Allocator};
use std::rt::Files;

/// Answers with the page of the hill in a file: one file of HTML. The file is only read, and its lock is not taken: so
/// `page` can show a hill while a service works on it.
pub fn perform_page<'p, R: Files, A: Allocator + Copy>(
    rt: &R,
    alloc: A,
    path: &'p str,
) -> Result<Answer<A>, Trouble<'p>>
    ensures { Answers SaysPage result }
{
    match look_hill(rt, alloc, path) {
        Ok(store) => {
            let text = page_text(alloc, &store)?;
            Ok(Answer {
                status: Status::Done,
                text,
                note: Vec::new(alloc),
            })
        }
        Err(trouble) => Err(trouble),
    }
}

fn page_text<D: Device, A: Allocator + Copy>(
    alloc: A,
    store: &Store<D, A>,
) -> Result<Vec<u8, A>, AllocError>
    ensures { IfOk result (λ text. text.items ≡ hill_page store.now.hill untold Links.None) }
{
    let sign = Sign {
        title: TITLE,
        address: None,
    };
    hill_page(alloc, store.hill(), &sign, Links::None)
}
