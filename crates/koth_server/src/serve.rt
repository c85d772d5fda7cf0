//! The command `serve`: sessions of many peers over sockets on the hill in a file.

ghost use Rattle.std.specs.Prelude.{◌≡◌, ◌≢◌, None, false, IfErr, IfOk, MatchResult};
ghost use Rattle.{war_types.specs.Settings.settings_of, koth_commands.specs.{Streams.streams, Told.WritesSome}, koth_files.specs.Trouble.IsOfHill};
ghost use Rattle.koth_server.specs.Serving.{Announces, AnnouncesPart, EndsMade, EndsServe, EndsService};

use crate::host::{Hosting, trouble_of};
use crate::log::Log;
use crate::pages::links_for;
use crate::ports::{BROWSERS, announced};
use crate::sign::door_if_known;
use crate::titles::Titles;
use hill_file::{Existing, Headers, TryLock};
use koth_commands::trouble::{Fault, Trouble};
use koth_commands::{Status, refuse_settings};
use koth_files::{HillStore, create_hill, open_alone};
use koth_keeping::made_settings;
use koth_service::{LogWrite, serve_peers};
use koth_sockets::PolledSockets;
use koth_words::Service;
use std::alloc::Allocator;
use std::cell::Cell;
use std::io::Write;
use std::net::Net;
use std::random::RandomSource;
use std::rt::{Clock, Files};
use war_types::{RawSettings, Settings};

/// Serves sessions on the hill in a file over connections to an address and a port, `peers` at once at most, and
/// `peers_per_address` of one address if that is given, and ends after `connections` sessions if that is given. It
/// assembles no source in more than `steps` steps. The line `LISTENING port` says that peers may connect, and to which
/// port if the system chooses it. What happens is written on standard error, unless the service is quiet, and so is
/// where browsers see the hill, if they may.
///
/// If that is asked for and there is no file, the hill is created first, with these settings, but with a seed that is
/// drawn unless one is given. Settings that are out of their ranges are refused before the file is touched.
pub(crate) fn serve<
    'f,
    R: Files + Net + Clock + RandomSource,
    A: Allocator + Copy,
    O: Write,
    E: LogWrite,
>(
    rt: &'f R,
    alloc: A,
    given: RawSettings,
    service: &'f Service<'f>,
    output: &mut O,
    errors: &mut E,
) -> Status
where
    R::File: TryLock,
    ensures ends { EndsServe service.now.draw_seed given result
        (streams None (O.contents output.old) (E.contents errors.old))
        (streams None (O.contents output.new) (E.contents errors.new)) }
    ensures words { result ≢ Status.WordFault }
{
    match made_settings(rt, given, service.draw_seed) {
        Ok(made) => serve_made(rt, alloc, made, service, output, errors),
        Err(trouble) => trouble.tell(alloc, errors),
    }
}

/// The same with these settings of a hill that is created.
fn serve_made<'f, R: Files + Net + Clock, A: Allocator + Copy, O: Write, E: LogWrite>(
    rt: &'f R,
    alloc: A,
    given: RawSettings,
    service: &'f Service<'f>,
    output: &mut O,
    errors: &mut E,
) -> Status
where
    R::File: TryLock,
    ensures ends { EndsMade (settings_of given) result
        (streams None (O.contents output.old) (E.contents errors.old))
        (streams None (O.contents output.new) (E.contents errors.new)) }
    ensures words { result ≢ Status.WordFault }
{
    match Settings::new(given) {
        Ok(settings) => serve_under(rt, alloc, settings, service, output, errors),
        Err(fault) => refuse_settings(alloc, given, fault, errors),
    }
}

fn serve_under<'f, R: Files + Net + Clock, A: Allocator + Copy, O: Write, E: LogWrite>(
    rt: &'f R,
    alloc: A,
    settings: Settings,
    service: &'f Service<'f>,
    output: &mut O,
    errors: &mut E,
) -> Status
where
    R::File: TryLock,
    ensures ends { EndsService result
        (streams None (O.contents output.old) (E.contents errors.old))
        (streams None (O.contents output.new) (E.contents errors.new)) }
    ensures words { result ≢ Status.WordFault }
{
    let mut host = Hosting {
        rt,
        alloc,
        path: service.hill,
        log: Log::new(rt, service.quiet, service.log_format),
        links: links_for(service.replays),
        title: service.title,
        door: None,
        names: service.hosts.as_slice(),
        steps: service.steps,
        left: Cell::new(Headers::ZEROS),
        titles: Cell::new(Titles::new(alloc)),
    };
    let (store, mut sockets) = match begin(&host, settings, service, output, errors) {
        Ok(begun) => begun,
        Err(trouble) => return trouble.tell(alloc, errors),
    };
    host.door = door_if_known(alloc, service, sockets.local_addr());
    host.log.tell_pages(alloc, sockets.pages_addr(), errors);
    let limits = koth_service::Limits {
        peers: service.peers as usize,
        peers_per_address: service.peers_per_address,
        browsers: BROWSERS,
        connections: service.connections,
    };
    let served = serve_peers(alloc, &mut sockets, limits, store, &host, errors);
    match served {
        Ok(()) => Status::Done,
        Err(fault) => trouble_of(&host, fault).tell(alloc, errors),
    }
}

/// Opens the hill, or creates it, and then opens the port, and writes the line of the port.
fn begin<'f, R: Files + Net + Clock, A: Allocator + Copy, O: Write, E: LogWrite>(
    host: &Hosting<'f, R, A>,
    settings: Settings,
    service: &'f Service<'f>,
    output: &mut O,
    errors: &mut E,
) -> Result<(HillStore<'f, R, A>, PolledSockets<'f, R, A>), Trouble<'f>>
where
    R::File: TryLock,
    ensures open { IfOk result (λ begun. begun.0.reopen ≡ false) }
    ensures announced { MatchResult result (λ _. Announces (O.contents output.old) (O.contents output.new))
        (λ trouble. AnnouncesPart (O.contents output.old) (O.contents output.new) × IsOfHill trouble) }
    ensures told { WritesSome (E.contents errors.old) (E.contents errors.new) }
{
    let store = match hill_served(host, settings, service, errors) {
        Ok(store) => store,
        Err(trouble) => return Err(trouble),
    };
    host.titles.set(Titles::of(host.alloc, store.hill()));
    match announced(host.rt, host.alloc, service, output) {
        Ok(sockets) => Ok((store, sockets)),
        Err(trouble) => Err(trouble),
    }
}

/// The hill in the file. If that is asked for and the file holds nothing, the hill is created there, and that is
/// reported, with what its seed is.
fn hill_served<'f, R: Files + Clock, A: Allocator + Copy, E: LogWrite>(
    host: &Hosting<'f, R, A>,
    settings: Settings,
    service: &'f Service<'f>,
    errors: &mut E,
) -> Result<HillStore<'f, R, A>, Trouble<'f>>
where
    R::File: TryLock,
    ensures open { IfOk result (λ store. store.reopen ≡ false) }
    ensures of_hill { IfErr result IsOfHill }
    ensures told { WritesSome (E.contents errors.old) (E.contents errors.new) }
{
    match create_if_asked(host, settings, service, errors) {
        Ok(()) => open_alone(host.rt, host.alloc, host.path),
        Err(trouble) => Err(trouble),
    }
}

/// Creates the hill in the file if that is asked for and the file holds nothing, and reports that.
fn create_if_asked<'f, R: Files + Clock, A: Allocator + Copy, E: LogWrite>(
    host: &Hosting<'f, R, A>,
    settings: Settings,
    service: &'f Service<'f>,
    errors: &mut E,
) -> Result<(), Trouble<'f>>
where
    R::File: TryLock,
    ensures told { WritesSome (E.contents errors.old) (E.contents errors.new) }
    ensures of_hill { IfErr result IsOfHill }
{
    if !service.create {
        return Ok(());
    }
    match create_hill(host.rt, host.alloc, settings, host.path, Existing::Kept) {
        Ok(()) => {
            host.log
                .tell_created(host.alloc, service, settings.seed(), errors);
            Ok(())
        }
        Err(trouble) if matches!(trouble.fault, Fault::Occupied) => Ok(()),
        Err(trouble) => Err(trouble),
    }
}
