//! Which host a request is for, and whether it is this machine's.

ghost use Rattle.std.specs.Prelude.{◌≡◌, length, map, codes, option_map, All, IsTrue};
ghost use Rattle.std.specs.{Net.Grammar.{IsIpv4Text, IsIpv6Text, IsSocketText}, Str.str_eq_ignore_ascii_case};
ghost use Rattle.std.specs.{declared.net.ipv4_addr.Ipv4Addr.Ipv4Addr, declared.net.ipv6_addr.Ipv6Addr.Ipv6Addr, declared.net.socket_addr.SocketAddr.SocketAddr};
ghost use Rattle.httparse.specs.Spans.{header_bytes, IsHeaderWithin};
ghost use Rattle.koth_http.specs.Host.{first_host, has_name, has_port, host_fault, host_named, host_values, is_absolute, origin_of, path_or_root, undotted, IsAddress, IsBracketed, IsJudged, IsNamed};

use crate::refusal::Refusal;
use crate::target::cut;
use httparse::spans::HeaderSpan;
use std::net::{Ipv4Addr, Ipv6Addr, SocketAddr};
use std::str::from_utf8;

/// The fields `Host` of a head.
#[derive(Clone, Copy)]
pub(crate) struct Hosts<'b> {
    /// The value of the first one, or nothing if there is none.
    pub(crate) first: &'b [u8],
    pub(crate) count: usize,
}

/// The fields `Host` among these, whose spans lie in the bytes.
pub(crate) fn hosts_in<'b>(bytes: &'b [u8], fields: &[HeaderSpan]) -> Hosts<'b>
    requires { All (IsHeaderWithin (length bytes.now)) fields.now }
    ensures first { result.first.now ≡ first_host (host_values (map (header_bytes bytes.now) fields.now)) }
    ensures count { result.count ≡ length (host_values (map (header_bytes bytes.now) fields.now)) }
{
    let mut first: &[u8] = &[];
    let mut count = 0;
    for at in (0..fields.len()).rev() {
        let field = fields[at];
        if is_host(field.name.of(bytes)) {
            first = field.value.of(bytes);
            count += 1;
        }
    }
    Hosts { first, count }
}

/// Whether a field of this name is a field `Host`, upper and lower case being one.
fn is_host(name: &[u8]) -> bool
    ensures { result ≡ str_eq_ignore_ascii_case name.now (codes "host") }
{
    name.eq_ignore_ascii_case(b"host")
}

/// What a target asks, and the host that it names, if it names one.
#[derive(Clone, Copy)]
pub(crate) struct Parts<'b> {
    pub(crate) host: Option<&'b [u8]>,
    pub(crate) origin: &'b [u8],
}

/// The parts of a target.
pub(crate) fn parts_of(target: &[u8]) -> Parts<'_>
    ensures host { option_map (λ host. host.now) result.host ≡ host_named target.now }
    ensures origin { result.origin.now ≡ origin_of target.now }
{
    if !is_absolute(target) {
        return Parts {
            host: None,
            origin: target,
        };
    }
    let rest = &target[7..];
    let (host, _) = cut(rest, b'/');
    Parts {
        host: Some(host),
        origin: path_or_root(&rest[host.len()..]),
    }
}

/// Whether a target names its host.
fn is_absolute(target: &[u8]) -> bool
    ensures { result ≡ is_absolute target.now }
{
    target.len() >= 7 && target[..7].eq_ignore_ascii_case(b"http://")
}

/// A path, or `/` if there is none.
fn path_or_root(path: &[u8]) -> &[u8]
    ensures { result.now ≡ path_or_root path.entry.now }
{
    if path.is_empty() { b"/" } else { path }
}

/// Why a request of HTTP/1.`minor` with `count` fields `Host` gets no page, if its host is this machine's or isn't.
pub(crate) fn host_fault(minor: u8, count: usize, own: bool) -> Option<Refusal>
    ensures { result ≡ host_fault minor count own }
{
    if count > 1 || (count == 0 && minor == 1) {
        Some(Refusal::BadRequest)
    } else if own {
        None
    } else {
        Some(Refusal::Misdirected)
    }
}

/// Whether a host is this machine's: `localhost`, an address, or one of these names, with a port or without.
pub(crate) fn is_own(names: &[&str], host: &[u8]) -> bool
    ensures { IsJudged (map (λ name. name.now) names.now) host.now result }
{
    has_name(host, b"localhost") || is_address(host) || is_named(names, host)
}

/// Whether a host without its port and a dot at its end has this name, upper and lower case being one, and no user before it.
fn has_name(host: &[u8], name: &[u8]) -> bool
    ensures { result ≡ has_name host.now name.now }
{
    let (alone, _) = cut(host, b':');
    undotted(alone).eq_ignore_ascii_case(name) && has_port(host) && !host.contains(&b'@')
}

/// A name without the dot that may end it.
fn undotted(name: &[u8]) -> &[u8]
    ensures { result.now ≡ undotted name.entry.now }
{
    let end = name.len();
    if end > 0 && name[end - 1] == b'.' {
        return &name[..end - 1];
    }
    name
}

/// Whether what follows a host's name is no port, or one of digits.
fn has_port(host: &[u8]) -> bool
    ensures { result ≡ has_port host.now }
{
    let (_, port) = cut(host, b':');
    port.iter().all(|byte| byte.is_ascii_digit())
}

fn is_named(names: &[&str], host: &[u8]) -> bool
    ensures { IsTrue result → IsNamed (map (λ name. name.now) names.now) host.now }
{
    for at in 0..names.len() {
        if has_name(host, names[at].as_bytes()) {
            return true;
        }
    }
    false
}

/// Whether a host is an address, with a port or without. One of IPv4 may end with a dot, as a name may.
fn is_address(host: &[u8]) -> bool
    ensures { IsTrue result → IsAddress host.now }
{
    let Ok(text) = from_utf8(host) else {
        return false;
    };
    writes_socket(text) || is_ipv4(host) || is_bracketed(host)
}

fn writes_socket(text: &str) -> bool
    ensures { IsTrue result → ((a : SocketAddr) × IsSocketText text.now a) }
{
    text.parse::<SocketAddr>().is_ok()
}

fn is_ipv4(host: &[u8]) -> bool
    ensures { IsTrue result → ((a : Ipv4Addr) × IsIpv4Text (undotted host.now) a) }
{
    match from_utf8(undotted(host)) {
        Ok(text) => text.parse::<Ipv4Addr>().is_ok(),
        Err(_) => false,
    }
}

fn writes_ipv6(text: &str) -> bool
    ensures { IsTrue result → ((a : Ipv6Addr) × IsIpv6Text text.now a) }
{
    text.parse::<Ipv6Addr>().is_ok()
}

/// Whether a host is an IPv6 address in brackets.
fn is_bracketed(host: &[u8]) -> bool
    ensures { IsTrue result → IsBracketed host.now }
{
    if host.len() < 2 || host[0] != b'[' || host[host.len() - 1] != b']' {
        return false;
    }
    match from_utf8(&host[1..host.len() - 1]) {
        Ok(inside) => writes_ipv6(inside),
        Err(_) => false,
    }
}
