//! What the page of a served hill says that the hill doesn't know: its title, and where peers submit.

ghost use Rattle.std.specs.Prelude.{◌≡◌, length, option_map, IfOk};
ghost use Rattle.{koth_page.specs.Sign.{address_parts, sign_parts}, koth_server.specs.Sign.{door_parts, door_to, sign_given}};
ghost use Rattle.{std.specs.Option.option_map_or, koth_page.specs.declared.sign.TheConstants.TITLE};

use koth_page::{Address, Sign, TITLE, put_number};
use koth_words::Service;
use std::alloc::{AllocError, Allocator};
use std::io;
use std::net::SocketAddr;

/// Where peers submit, in the two ways in which commands take it.
#[derive(Drop)]
pub(crate) struct Door<A: Allocator> {
    /// `HOST:PORT`
    pub joined: Vec<u8, A>,
    /// `HOST PORT`
    pub apart: Vec<u8, A>,
}

/// The sign of a hill with this title and this door.
pub(crate) fn sign_given<'s, A: Allocator>(
    title: Option<&'s str>,
    door: &'s Option<Door<A>>,
) -> Sign<'s>
    ensures { sign_parts result ≡ sign_given (option_map (λ text. text.now) title.entry) door.now }
{
    Sign {
        title: title_given(title),
        address: address_given(door),
    }
}

fn title_given(title: Option<&str>) -> &[u8]
    ensures { result.now ≡ option_map_or (λ text. text) (option_map (λ text. text.now) title.entry) TITLE.now }
{
    match title {
        Some(title) => title.as_bytes(),
        None => TITLE,
    }
}

fn address_given<A: Allocator>(door: &Option<Door<A>>) -> Option<Address<'_>>
    ensures { option_map address_parts result ≡ option_map door_parts door.now }
{
    match door {
        Some(door) => Some(Address {
            joined: door.joined.as_slice(),
            apart: door.apart.as_slice(),
        }),
        None => None,
    }
}

/// Where peers submit, if the address of their port is known and there is memory for it.
pub(crate) fn door_if_known<A: Allocator + Copy>(
    alloc: A,
    service: &Service<'_>,
    address: io::Result<SocketAddr>,
) -> Option<Door<A>> {
    match address {
        Ok(address) => door_of(alloc, service, address).ok(),
        Err(_) => None,
    }
}

/// Where peers of a service submit that listens at this address: as `--peers-at` says, else at the first name of this
/// machine, and else there. The error is lack of memory.
fn door_of<A: Allocator + Copy>(
    alloc: A,
    service: &Service<'_>,
    address: SocketAddr,
) -> Result<Door<A>, AllocError> {
    if let Some(text) = service.peers_at {
        return door_at(alloc, text.as_bytes());
    }
    match service.hosts.as_slice() {
        [host, ..] => door_to(alloc, host.as_bytes(), address.port()),
        [] => door_here(alloc, address),
    }
}

/// The door of a host and a port.
fn door_to<A: Allocator + Copy>(alloc: A, host: &[u8], port: u16) -> Result<Door<A>, AllocError>
    ensures { IfOk result (λ door. door_parts door ≡ door_to host.now port) }
{
    let mut joined = Vec::from_slice(alloc, host)?;
    let mut apart = Vec::from_slice(alloc, host)?;
    joined.extend_from_slice(b":")?;
    apart.extend_from_slice(b" ")?;
    put_number(&mut joined, u64::from(port))?;
    put_number(&mut apart, u64::from(port))?;
    Ok(Door { joined, apart })
}

/// The door of an address.
fn door_here<A: Allocator + Copy>(alloc: A, address: SocketAddr) -> Result<Door<A>, AllocError> {
    let joined = format!(in alloc; "{}", address)?;
    let apart = format!(in alloc; "{} {}", address.ip(), address.port())?;
    Ok(Door {
        joined: joined.into_bytes(),
        apart: apart.into_bytes(),
    })
}

/// The door that a text names: its last colon is before the port.
fn door_at<A: Allocator + Copy>(alloc: A, text: &[u8]) -> Result<Door<A>, AllocError>
    ensures { IfOk result (λ door. door.joined.items ≡ text.now) }
{
    let joined = Vec::from_slice(alloc, text)?;
    let mut apart = Vec::from_slice(alloc, text)?;
    if let Some(at) = text.iter().rposition(|&byte| byte == b':') {
        if let Some(colon) = apart.get_mut(at) {
            *colon = b' ';
        }
    }
    Ok(Door { joined, apart })
}
