//! One listener.

use koth_service::Arrival;
use mio::net::{TcpListener, TcpStream};
use mio::{Interest, Registry, Token};
use std::io;
use std::io::ErrorKind;
use std::net::{Net, SocketAddr};

/// A listener, and the connection that it accepted last.
#[derive(Drop)]
pub(crate) struct Door {
    listener: TcpListener,
    /// Whether an accept may give a connection: until one gives none, and again after the next event.
    can_accept: bool,
    accepted: Option<TcpStream>,
}

impl Door {
    /// A listener at this address, whose events have this token. It fails as the system's calls do.
    pub(crate) fn bind(
        rt: &impl Net,
        address: SocketAddr,
        registry: &Registry,
        token: Token,
    ) -> io::Result<Door> {
        let mut listener = TcpListener::bind(rt, address)?;
        registry.register(&mut listener, token, Interest::READABLE)?;
        Ok(Door {
            listener,
            can_accept: true,
            accepted: None,
        })
    }

    /// Takes note of an event that a poll reported.
    pub(crate) fn take_event(&mut self) {
        self.can_accept = true;
    }

    pub(crate) fn local_addr(&self) -> io::Result<SocketAddr> {
        self.listener.local_addr()
    }

    /// Takes a connection that waits.
    pub(crate) fn accept(&mut self) -> Arrival {
        if !self.can_accept {
            return Arrival::Nobody;
        }
        match self.listener.accept() {
            Ok((stream, address)) => {
                self.accepted = Some(stream);
                Arrival::Peer(address)
            }
            Err(error) => match error.kind() {
                ErrorKind::WouldBlock => {
                    self.can_accept = false;
                    Arrival::Nobody
                }
                _ => Arrival::Failed,
            },
        }
    }

    /// Gives the connection that was accepted last, if it was not given yet.
    pub(crate) fn take(&mut self) -> Option<TcpStream> {
        self.accepted.take()
    }
}
