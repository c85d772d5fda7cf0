//! How a hill is served, and what the arguments that `clap` took give a service, or one session.

ghost use Rattle.std.specs.{Prelude.{◌≡◌, ◌↔◌, [], Some, codes, map, option_map, unwrap_or, IfOk, IsTrue}, Net.Addr.ipv4_octets};
ghost use Rattle.{clap.specs.Words.{all_of, first_of, found_of, one_of, rows_of}, koth_words.specs.Options.{number_below, number_given, number_or}};
ghost use Rattle.koth_words.specs.Words.{draws_seed, form_under, has_flag, text_or_none, AreOfMany, HasAddress, IsAddress, IsOfMany, WritesAddress};

use crate::given::{file_named, flag_given, form_under, option_given, text_given, texts_given};
use crate::options::{number_given, number_if_given};
use crate::requests::Form;
use clap::ArgMatches;
use koth_options::default_steps;
use std::alloc::{AllocError, Global};
use std::net::{IpAddr, Ipv4Addr};

/// Peers that are served at once, unless `--peers` is given.
const PEERS: u32 = 64;

/// A number as it is.
macro_rules! number {
    ($number:literal) => { $number };
}

/// Steps that the assembly of a source may take in a service, unless `--steps` is given.
pub const STEPS: u32 = default_steps!(number);

/// The address to listen at, unless `--listen` is given.
const THIS_MACHINE: &str = "127.0.0.1";

/// The file of a hill, and how it is served.
#[derive(Drop)]
pub struct Service<'w> {
    pub hill: &'w str,
    /// 0 to 65,535; with 0 the system finds one.
    pub port: u16,
    /// Most peers that are served at once; with 1 it is one connection after the other.
    pub peers: u32,
    /// Most peers of one address that are served at once; further ones are refused. `None` for no limit.
    pub peers_per_address: Option<u32>,
    /// How many steps the assembly of a source may take.
    pub steps: u32,
    /// The address to listen at.
    pub listen: IpAddr,
    /// Connections to serve before the service ends; `None` for no limit.
    pub connections: Option<u32>,
    /// The port for browsers, 0 to 65,535; with 0 the system finds one. `None` for no pages.
    pub http: Option<u32>,
    /// The names of this machine that requests of browsers may be for, in the order of the command line.
    pub hosts: Vec<&'w str>,
    /// Whether browsers see rounds too: their pages have both warriors whole.
    pub replays: bool,
    /// The title of the hill's page, if one is given.
    pub title: Option<&'w str>,
    /// Where peers submit by the hill's page, if that is given: a host and a port, with a colon between them.
    pub peers_at: Option<&'w str>,
    /// Whether no line is written for a connection.
    pub quiet: bool,
    /// The form of these lines.
    pub log_format: Form,
    /// Whether the hill is created first if there is no file.
    pub create: bool,
    /// Whether the seed of a hill that is created is drawn, in place of that of the settings: none is given.
    pub draw_seed: bool,
}

/// The file of a hill, and how one session on it is served.
#[derive(Clone, Copy)]
pub struct Session<'w> {
    pub hill: &'w str,
    /// Seconds for which the hill's lock is tried again if another program has it, at most 3,600; 0 if that isn't asked
    /// for.
    pub wait: u32,
    /// How many steps the assembly of a source may take.
    pub steps: u32,
}

pub(crate) fn service_named<'w>(
    heap: Global,
    matches: &ArgMatches<'w>,
) -> Result<Service<'w>, AllocError>
    requires { HasAddress (rows_of (found_of matches.now)) }
    ensures hill { IfOk result (λ service. service.hill.now
        ≡ text_or_none (first_of (codes "FILE") (rows_of (found_of matches.now)))) }
    ensures port { IfOk result (λ service. service.port
        ≡ number_below 65536 0 (one_of (codes "port") (rows_of (found_of matches.now)))) }
    ensures peers { IfOk result (λ service. service.peers
        ≡ number_or 64 (one_of (codes "peers") (rows_of (found_of matches.now)))) }
    ensures peers_per_address { IfOk result (λ service. service.peers_per_address
        ≡ number_given 4294967296 (one_of (codes "peers-per-address") (rows_of (found_of matches.now)))) }
    ensures steps { IfOk result (λ service. service.steps
        ≡ number_or STEPS (one_of (codes "steps") (rows_of (found_of matches.now)))) }
    ensures listen { IfOk result (λ service. IsAddress
        (first_of (codes "listen") (rows_of (found_of matches.now))) service.listen) }
    ensures connections { IfOk result (λ service. service.connections
        ≡ number_given 4294967296 (one_of (codes "connections") (rows_of (found_of matches.now)))) }
    ensures http { IfOk result (λ service. service.http
        ≡ number_given 4294967296 (one_of (codes "http") (rows_of (found_of matches.now)))) }
    ensures hosts { IfOk result (λ service. map (λ host. host.now) service.hosts.items
        ≡ unwrap_or (all_of (codes "host") (rows_of (found_of matches.now))) []) }
    ensures replays { IfOk result (λ service. service.replays
        ≡ has_flag (codes "replays") (rows_of (found_of matches.now))) }
    ensures title { IfOk result (λ service. option_map (λ text. text.now) service.title
        ≡ first_of (codes "title") (rows_of (found_of matches.now))) }
    ensures peers_at { IfOk result (λ service. option_map (λ text. text.now) service.peers_at
        ≡ first_of (codes "peers-at") (rows_of (found_of matches.now))) }
    ensures quiet { IfOk result (λ service. service.quiet ≡ has_flag (codes "quiet") (rows_of (found_of matches.now))) }
    ensures log_format { IfOk result (λ service. service.log_format
        ≡ form_under (codes "log-format") (rows_of (found_of matches.now))) }
    ensures create { IfOk result (λ service. service.create
        ≡ has_flag (codes "create") (rows_of (found_of matches.now))) }
    ensures draw_seed { IfOk result (λ service. service.draw_seed ≡ draws_seed (rows_of (found_of matches.now))) }
{
    Ok(Service {
        hill: file_named(matches, "FILE"),
        port: port_given(matches),
        peers: number_given(matches, "peers", PEERS),
        peers_per_address: number_if_given(matches, "peers-per-address"),
        steps: number_given(matches, "steps", STEPS),
        listen: address_given(matches),
        connections: number_if_given(matches, "connections"),
        http: number_if_given(matches, "http"),
        hosts: texts_given(heap, matches, "host")?,
        replays: flag_given(matches, "replays"),
        title: text_given(matches, "title"),
        peers_at: text_given(matches, "peers-at"),
        quiet: flag_given(matches, "quiet"),
        log_format: form_under(matches, "log-format"),
        create: flag_given(matches, "create"),
        draw_seed: draws_seed(matches),
    })
}

/// Whether a seed is drawn for a hill that is created: none is given.
fn draws_seed(matches: &ArgMatches<'_>) -> bool
    ensures { result ≡ draws_seed (rows_of (found_of matches.now)) }
{
    flag_given(matches, "create") && !option_given(matches, "seed")
}

pub(crate) fn session_named<'w>(matches: &ArgMatches<'w>) -> Session<'w>
    ensures hill { result.hill.now ≡ text_or_none (first_of (codes "FILE") (rows_of (found_of matches.now))) }
    ensures wait { result.wait ≡ number_or 0 (one_of (codes "wait") (rows_of (found_of matches.now))) }
    ensures steps { result.steps ≡ number_or STEPS (one_of (codes "steps") (rows_of (found_of matches.now))) }
{
    Session {
        hill: file_named(matches, "FILE"),
        wait: number_given(matches, "wait", 0),
        steps: number_given(matches, "steps", STEPS),
    }
}

/// The address to listen at.
fn address_given(matches: &ArgMatches<'_>) -> IpAddr
    requires { HasAddress (rows_of (found_of matches.now)) }
    ensures { IsAddress (first_of (codes "listen") (rows_of (found_of matches.now))) result }
{
    let text = text_given(matches, "listen").unwrap_or(THIS_MACHINE);
    text.parse().unwrap()
}

/// Whether the address to listen at is one of one machine, if it is given.
pub(crate) fn has_address(matches: &ArgMatches<'_>) -> bool
    ensures { IsTrue result ↔ HasAddress (rows_of (found_of matches.now)) }
{
    match text_given(matches, "listen") {
        Some(text) => writes_address(text),
        None => true,
    }
}

/// Whether a text writes an address of one machine.
fn writes_address(text: &str) -> bool
    ensures { IsTrue result ↔ WritesAddress (Some text.now) }
{
    match text.parse::<IpAddr>() {
        Ok(address) => !is_of_many(address),
        Err(_) => false,
    }
}

/// Whether an address is one of many machines at once, to which no one can connect: 224.0.0.0/4, 255.255.255.255, one
/// of these as an IPv6 address, or ff00::/8.
fn is_of_many(address: IpAddr) -> bool
    ensures { IsTrue result ↔ IsOfMany address }
{
    match address {
        IpAddr::V4(address) => is_of_many_v4(address),
        IpAddr::V6(address) => match address.to_ipv4_mapped() {
            Some(mapped) => is_of_many_v4(mapped),
            None => address.is_multicast(),
        },
    }
}

/// The same of an IPv4 address.
fn is_of_many_v4(address: Ipv4Addr) -> bool
    ensures { IsTrue result ↔ AreOfMany (ipv4_octets address) }
{
    address.is_multicast() || address.is_broadcast()
}

/// The port. `clap` refuses a command line without it.
fn port_given(matches: &ArgMatches<'_>) -> u16
    ensures { result ≡ number_below 65536 0 (one_of (codes "port") (rows_of (found_of matches.now))) }
{
    matches.get_one("port").unwrap_or(0)
}
