//! A host that writes what it is told.

ghost use Rattle.std.specs.Prelude.{◌≡◌, [], ◌∷◌, codes};
ghost use Rattle.koth_http.specs.declared.target.Page.TheVariants as pages;

use hill_store::{Reply, Store};
use koth_hill::Hill;
use koth_http::Page;
use koth_service::{Event, Host, LogWrite};
use std::alloc::AllocError;
use std::cell::Cell;
use std::io::Write;
use std::net::SocketAddr;
use tests_stores::TestMemory;

/// It writes a line for each event, with the peer's port before it, and opens the hill again as often as it may.
#[derive(Drop)]
pub(crate) struct Clerk<M: TestMemory> {
    pub(crate) memory: M,
    pub(crate) openings: Cell<u32>,
}

/// The hill can't be opened again.
#[derive(Clone, Copy, Debug, PartialEq)]
pub(crate) struct Shut;

impl<M: TestMemory> Host<M::Device, M> for Clerk<M> {
    type Fault = Shut;

    ghost shows = { λ _ _. record {
      names = codes "here.example" ∷ [];
      pages = λ page _. page
          ≡ pages.Hill;
      steps = 1000000;
    } };

    fn reopen(&self, device: M::Device) -> Result<Store<M::Device, M>, Shut> {
        let openings = self.openings.get();
        if openings == 0 {
            return Err(Shut);
        }
        self.openings.set(openings.saturating_sub(1));
        match Store::open(self.memory, device) {
            Ok(store) => Ok(store),
            Err(_) => Err(Shut),
        }
    }

    fn names(&self) -> &[&str] {
        &["here.example"]
    }

    fn steps(&self) -> u64 {
        1_000_000
    }

    /// The page of the hill says how many are on it. There is no other.
    fn page(
        &self,
        store: &Store<M::Device, M>,
        page: Page,
    ) -> Result<Option<Vec<u8, M>>, AllocError> {
        match page {
            Page::Hill => {
                let text = format!(in self.memory; "{} here\n", store.hill().len())?;
                Ok(Some(text.into_bytes()))
            }
            Page::Data | Page::Health | Page::Robots | Page::Icon | Page::Round { .. } => Ok(None),
        }
    }

    fn tell_answer<E: LogWrite>(
        &self,
        peer: SocketAddr,
        reply: Reply,
        _hill: &Hill<M>,
        errors: &mut E,
    ) {
        if let Ok(line) = answered(self.memory, peer.port(), reply) {
            let _ = errors.write(line.as_bytes());
        }
    }

    fn tell<E: LogWrite>(&self, peer: SocketAddr, event: Event<'_>, errors: &mut E) {
        if let Ok(line) = line_of(self.memory, peer.port(), event) {
            let _ = errors.write(line.as_bytes());
        }
    }
}

fn line_of<M: TestMemory>(memory: M, port: u16, event: Event<'_>) -> Result<String<M>, AllocError> {
    match event {
        Event::Connected => told(memory, port, "connected\n"),
        Event::Refused => told(memory, port, "refused\n"),
        Event::Ended(how) => format!(in memory; "{} {:?}\n", port, how),
        Event::Unasked(why) => format!(in memory; "{} {:?}\n", port, why),
        Event::Asked {
            line,
            status,
            bytes,
        } => asked(memory, port, line, status, bytes),
    }
}

/// A line of this text about the peer at a port.
fn told<M: TestMemory>(memory: M, port: u16, text: &str) -> Result<String<M>, AllocError> {
    format!(in memory; "{} {}", port, text)
}

fn answered<M: TestMemory>(memory: M, port: u16, reply: Reply) -> Result<String<M>, AllocError> {
    let line = koth_session::line_of(&reply);
    told(
        memory,
        port,
        str::from_utf8(line.as_slice()).unwrap_or("\n"),
    )
}

fn asked<M: TestMemory>(
    memory: M,
    port: u16,
    line: &[u8],
    status: &[u8],
    bytes: usize,
) -> Result<String<M>, AllocError> {
    let line = str::from_utf8(line).unwrap_or("");
    let status = str::from_utf8(status).unwrap_or("");
    format!(in memory; "{} {}: {} {}\n", port, line, status, bytes)
}
