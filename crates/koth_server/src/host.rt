//! The host of a service: its hill is opened again if its device failed.

ghost use Rattle.std.specs.Prelude.{map, option_map};
ghost use Rattle.{koth_files.specs.Trouble.IsOfHill, koth_server.specs.{Pages.IsShown, Sign.sign_given}};

use crate::log::Log;
use crate::pages::page_shown;
use crate::sign::{Door, sign_given};
use crate::titles::Titles;
use hill_file::{Headers, HillFile, TryLock};
use hill_store::Reply;
use koth_commands::trouble::{About, Fault, Trouble};
use koth_files::{HillStore, reopen_hill};
use koth_hill::Hill;
use koth_http::Page;
use koth_page::Links;
use koth_service::{Event, Host, LogWrite, ServiceFault};
use std::alloc::{AllocError, Allocator};
use std::cell::Cell;
use std::marker::Model;
use std::net::SocketAddr;
use std::rt::{Clock, Files};

/// Why the hill can't be opened again.
#[derive(Drop)]
pub(crate) struct Lost {
    fault: Fault,
}

impl Model for Lost {
    ghost use Rattle.std.specs.Prelude.{◌≡◌, false};
    ghost use Rattle.{koth_commands.specs.declared.trouble.Fault.Fault, koth_files.specs.Trouble.is_of_settings};

    ghost Value = { Fault };

    ghost view = { λ lost. lost.fault };

    ghost invariant = { λ lost. is_of_settings lost.fault ≡ false };
}

/// The hill in a file, which is opened again if its device failed, and the log of its service.
#[derive(Drop)]
pub(crate) struct Hosting<'f, R, A: Allocator> {
    pub rt: &'f R,
    pub alloc: A,
    pub path: &'f str,
    pub log: Log<'f, R>,
    pub links: Links,
    /// The title of the hill's page, if one is given.
    pub title: Option<&'f str>,
    /// Where peers submit, if the hill's page says so.
    pub door: Option<Door<A>>,
    pub names: &'f [&'f str],
    pub steps: u32,
    /// The headers with which the hill was left when its device failed.
    pub left: Cell<Headers>,
    /// Those on the hill when the log was told of it last.
    pub titles: Cell<Titles<A>>,
}

impl<'f, R: Files + Clock, A: Allocator + Copy> Host<HillFile<'f, R>, A> for Hosting<'f, R, A>
where
    R::File: TryLock,
{
    type Fault = Lost;

    ghost shows = { λ host store. record {
      names = map (λ name. name.now) host.names.now;
      pages = λ page text.
          IsShown (sign_given (option_map (λ text. text.now) host.title) host.door) host.links store.hill page text;
      steps = host.steps;
    } };

    /// The file is closed first, since it is locked while it is open. If another hill is in it then, that isn't opened.
    fn reopen(&self, device: HillFile<'f, R>) -> Result<HillStore<'f, R, A>, Lost> {
        let left = device.settled();
        self.left.set(left);
        drop(device);
        match reopen_hill(self.rt, self.alloc, self.path, &left) {
            Ok(store) => {
                self.titles.set(Titles::of(self.alloc, store.hill()));
                Ok(store)
            }
            Err(trouble) => Err(Lost {
                fault: trouble.fault,
            }),
        }
    }

    fn names(&self) -> &[&str] {
        self.names
    }

    fn steps(&self) -> u64 {
        u64::from(self.steps)
    }

    fn page(
        &self,
        store: &HillStore<'f, R, A>,
        page: Page,
    ) -> Result<Option<Vec<u8, A>>, AllocError> {
        let sign = sign_given(self.title, &self.door);
        page_shown(self.alloc, store, page, &sign, self.links)
    }

    fn tell_answer<E: LogWrite>(
        &self,
        peer: SocketAddr,
        reply: Reply,
        hill: &Hill<A>,
        errors: &mut E,
    ) {
        let now = Titles::of(self.alloc, hill);
        let before = self.titles.replace(Titles::new(self.alloc));
        self.log
            .tell_answer(self.alloc, peer, reply, &before, &now, errors);
        self.titles.set(now);
    }

    fn tell<E: LogWrite>(&self, peer: SocketAddr, event: Event<'_>, errors: &mut E) {
        self.log.tell(self.alloc, peer, event, errors);
    }
}

/// Why a service has ended.
pub(crate) fn trouble_of<'f, R: Files + Clock, A: Allocator + Copy>(
    host: &Hosting<'f, R, A>,
    fault: ServiceFault<Lost>,
) -> Trouble<'f>
where
    R::File: TryLock,
    ensures { IsOfHill result }
{
    match fault {
        ServiceFault::Memory => Trouble::memory(),
        ServiceFault::Reopening(lost) => trouble_at(host, lost),
        ServiceFault::Rounds => Trouble {
            fault: Fault::Stream,
            about: About::Nothing,
        },
    }
}

/// Why the hill can't be opened again: it is tried once more for what failed, and why.
fn trouble_at<'f, R: Files + Clock, A: Allocator + Copy>(
    host: &Hosting<'f, R, A>,
    lost: Lost,
) -> Trouble<'f>
where
    R::File: TryLock,
    ensures { IsOfHill result }
{
    match reopen_hill(host.rt, host.alloc, host.path, &host.left.get()) {
        Err(trouble) => trouble,
        Ok(_) => Trouble {
            fault: lost.fault,
            about: About::Nothing,
        },
    }
}
