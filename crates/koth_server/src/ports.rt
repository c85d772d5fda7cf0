//! The ports of a service: where peers and browsers connect.

ghost use Rattle.std.specs.Prelude.{◌≡◌, IfErr, MatchResult};
ghost use Rattle.{koth_files.specs.Trouble.IsOfHill, koth_server.specs.Serving.{listening_line, Announces, AnnouncesPart}};

use koth_commands::trouble::Trouble;
use koth_commands::{Cause, Reason, Subject, reason_of, write_whole};
use koth_protocol::Line;
use koth_sockets::PolledSockets;
use koth_words::Service;
use std::alloc::Allocator;
use std::io;
use std::io::{ErrorKind, Write};
use std::net::{Net, SocketAddr};
use std::rt::Clock;

/// The most browsers that are served at once.
pub(crate) const BROWSERS: usize = 16;

/// Sockets at the address that is asked for, whose line is written.
pub(crate) fn announced<'r, 't, R: Net + Clock, A: Allocator + Copy, O: Write>(
    rt: &'r R,
    alloc: A,
    service: &Service<'_>,
    output: &mut O,
) -> Result<PolledSockets<'r, R, A>, Trouble<'t>>
    ensures { MatchResult result (λ _. Announces (O.contents output.old) (O.contents output.new))
        (λ trouble. AnnouncesPart (O.contents output.old) (O.contents output.new) × IsOfHill trouble) }
{
    match bound(rt, alloc, service) {
        Ok(sockets) => match announce(sockets.local_addr(), service.port, output) {
            Ok(()) => Ok(sockets),
            Err(trouble) => Err(trouble),
        },
        Err(trouble) => Err(trouble),
    }
}

/// Sockets at the address that is asked for, and of browsers at the same address, if they are asked for.
fn bound<'r, 't, R: Net + Clock, A: Allocator + Copy>(
    rt: &'r R,
    alloc: A,
    service: &Service<'_>,
) -> Result<PolledSockets<'r, R, A>, Trouble<'t>>
    ensures { IfErr result IsOfHill }
{
    let address = SocketAddr::new(service.listen, service.port);
    let mut sockets = match PolledSockets::bind(rt, alloc, address, service.peers as usize) {
        Ok(sockets) => sockets,
        Err(error) => return Err(port_failed(service.port, &error)),
    };
    if let Some(port) = service.http {
        let port = u16::try_from(port).unwrap_or(0);
        let address = SocketAddr::new(service.listen, port);
        if let Err(error) = sockets.listen_to_browsers(rt, alloc, address, BROWSERS) {
            return Err(port_failed(port, &error));
        }
    }
    Ok(sockets)
}

/// Writes the line of sockets at this address.
fn announce<'t, O: Write>(
    address: io::Result<SocketAddr>,
    asked: u16,
    output: &mut O,
) -> Result<(), Trouble<'t>>
    ensures { MatchResult result (λ _. Announces (O.contents output.old) (O.contents output.new))
        (λ trouble. AnnouncesPart (O.contents output.old) (O.contents output.new) × IsOfHill trouble) }
{
    let port = match address {
        Ok(address) => address.port(),
        Err(error) => return Err(port_failed(asked, &error)),
    };
    match write_whole(output, listening_line(port).as_slice()) {
        Ok(()) => Ok(()),
        Err(fault) => Err(Trouble::stream(Cause::output(fault.reason))),
    }
}

/// A port can't be listened at, or there is no memory for its sockets.
fn port_failed<'t>(port: u16, error: &io::Error) -> Trouble<'t>
    ensures { IsOfHill result }
{
    match error.kind() {
        ErrorKind::OutOfMemory => Trouble::memory(),
        kind => Trouble::stream(Cause {
            subject: Subject::Port(port),
            reason: listening_reason(kind),
        }),
    }
}

/// Why a port can't be listened at.
fn listening_reason(kind: ErrorKind) -> Reason {
    match kind {
        ErrorKind::InvalidInput => Reason::NoListening,
        kind => reason_of(kind),
    }
}

fn listening_line(port: u16) -> Line
    ensures { result ≡ listening_line port }
{
    let mut line = Line::new();
    line.put(b"LISTENING ");
    line.put_number(u64::from(port));
    line.put(b"\n");
    line
}
