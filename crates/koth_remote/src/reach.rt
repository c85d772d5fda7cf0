//! A connection to a service.

ghost use Rattle.std.specs.Prelude.{IfErr};
ghost use Rattle.koth_files.specs.Trouble.{IsOfHill};

use koth_commands::Reason;
use koth_commands::trouble::Trouble;
use koth_protocol::Counted;
use std::io;
use std::io::ErrorKind;
use std::net::{Net, OpenStream, ToSocketAddrs};
use std::time::Duration;

/// Seconds in which a connection is made.
const CONNECTING: u64 = 10;

/// Both ends of a connection: what comes, and what goes.
pub(crate) type Ends<S> = (Counted<S>, Counted<S>);

/// A connection to this address and port. All addresses of a name are tried in turn, ten seconds each. A read or a
/// write that waits for `timeout` seconds fails.
pub(crate) fn connected<'t, R: Net>(
    rt: &R,
    to: &'t str,
    timeout: u32,
) -> Result<Ends<R::Stream>, Trouble<'t>>
    ensures { IfErr result IsOfHill }
{
    let Ok(addresses) = to.to_socket_addrs(rt) else {
        return Err(Trouble::file(to, Reason::NoName));
    };
    let mut reason = Reason::NoName;
    for address in addresses {
        match rt.connect_timeout(address, Duration::from_secs(CONNECTING)) {
            Ok(stream) => return ends_of(stream, to, timeout),
            Err(error) => reason = reach_reason(error.kind()),
        }
    }
    Err(Trouble::file(to, reason))
}

/// The ends of a connection, with its limit of time.
fn ends_of<'t, S: OpenStream + Drop>(
    stream: S,
    to: &'t str,
    timeout: u32,
) -> Result<Ends<S>, Trouble<'t>>
    ensures { IfErr result IsOfHill }
{
    match limited(&stream, timeout) {
        Ok(other) => Ok((Counted::new(stream), Counted::new(other))),
        Err(error) => Err(Trouble::file(to, reach_reason(error.kind()))),
    }
}

/// The other end of a stream, whose reads and writes wait for `timeout` seconds at most.
fn limited<S: OpenStream>(stream: &S, timeout: u32) -> io::Result<S> {
    let silence = Some(Duration::from_secs(u64::from(timeout)));
    stream.set_read_timeout(silence)?;
    stream.set_write_timeout(silence)?;
    stream.try_clone()
}

/// Why a service isn't reached.
fn reach_reason(kind: ErrorKind) -> Reason {
    match kind {
        ErrorKind::ConnectionRefused => Reason::NoService,
        ErrorKind::TimedOut | ErrorKind::WouldBlock => Reason::Late,
        ErrorKind::HostUnreachable | ErrorKind::NetworkUnreachable | ErrorKind::NetworkDown => {
            Reason::Unreached
        }
        ErrorKind::PermissionDenied => Reason::NotPermitted,
        _ => Reason::Other,
    }
}
