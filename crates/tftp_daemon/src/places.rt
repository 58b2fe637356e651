//! Where the requests of several servers arrive: at sockets that are bound here, or handed over.

use crate::daemon::{DaemonConfig, DaemonFault};
use crate::listen::Listen;
use std::alloc::Global;
use std::io::{self, ErrorKind};
use std::os::fd::OwnedFd;
use std::time::{Clock, Duration};
use tftp_ends::Endpoint;
use tftp_lines::reason_of;
use tftp_service::{HandedSocket, Input};
use tftp_sockets::address_of;
use tftp_supervisor::{Place, Supervise};

/// For how long a port that is in use is tried, in seconds: the servers of a supervisor that has just
/// ended have it until they have ended, too. One that syncs a file, or waits for the reader of its log,
/// ends only after that.
const BIND_SECONDS: u64 = 10;

/// How often it is tried in this time.
const BINDS: u32 = 501;

/// After how many tries that is said.
const SILENT_BINDS: u32 = 26;

/// The time between two tries, in milliseconds.
const BIND_PAUSE: u64 = 20;

const _: () = prove!((BINDS as u64 - 1) * BIND_PAUSE == BIND_SECONDS * 1_000);

/// The places of the servers, in their order: those at one address have the same request port. Of several
/// addresses those that this host does not have yet are tried later, but one has to be there.
pub(crate) fn places_of<R: Supervise + Clock + Eprint>(
    rt: &R,
    alloc: Global,
    config: &DaemonConfig<'_>,
    input: Input,
) -> Result<Vec<Place>, DaemonFault> {
    let mut places = Vec::new(alloc);
    match add_all(rt, &mut places, config, input) {
        Ok(()) => Ok(places),
        Err(fault) => Err(fault),
    }
}

/// Adds the places of all servers.
fn add_all<R: Supervise + Clock + Eprint>(
    rt: &R,
    places: &mut Vec<Place>,
    config: &DaemonConfig<'_>,
    input: Input,
) -> Result<(), DaemonFault> {
    let servers = config.instance.servers;
    add_places(places, first_place(rt, config, input), servers)?;
    for at in config.others.iter() {
        add_places(places, place_at(rt, config, *at), servers)?;
    }
    match config.listen {
        Listen::At(at) if are_absent(places.as_slice()) => check_bind(rt, at),
        _ => Ok(()),
    }
}

/// Whether all addresses are absent.
fn are_absent(places: &[Place]) -> bool {
    for place in places {
        if let Place::Bound(_) = place {
            return false;
        }
    }
    true
}

/// Adds a place that was found, once for each of so many servers.
fn add_places(
    places: &mut Vec<Place>,
    place: Result<Place, DaemonFault>,
    servers: u8,
) -> Result<(), DaemonFault> {
    match place {
        Ok(place) => add_place(places, &place, servers),
        Err(fault) => Err(fault),
    }
}

/// Adds a place, once for each of so many servers.
fn add_place(places: &mut Vec<Place>, place: &Place, servers: u8) -> Result<(), DaemonFault> {
    for _ in 0..servers {
        let same = match same_place(place) {
            Ok(same) => same,
            Err(error) => return Err(DaemonFault::Start(reason_of(&error))),
        };
        if places.push(same).is_err() {
            return Err(DaemonFault::Memory);
        }
    }
    Ok(())
}

/// The same place, for another server.
fn same_place(place: &Place) -> io::Result<Place> {
    match place {
        Place::Bound(socket) => Ok(Place::Bound(socket.try_clone()?)),
        Place::Absent(at) => Ok(Place::Absent(*at)),
    }
}

/// The place of the first address: bound here, absent, or handed over.
fn first_place<R: Supervise + Clock + Eprint>(
    rt: &R,
    config: &DaemonConfig<'_>,
    input: Input,
) -> Result<Place, DaemonFault> {
    match config.listen {
        Listen::At(at) => place_at(rt, config, at),
        Listen::Handed => match HandedSocket::new(input) {
            Ok(socket) => Ok(Place::Bound(socket.into_descriptor())),
            Err(fault) => Err(DaemonFault::Handed(fault)),
        },
    }
}

/// The place of an address: bound here, or of several addresses absent, which is said.
fn place_at<R: Supervise + Clock + Eprint>(
    rt: &R,
    config: &DaemonConfig<'_>,
    at: Endpoint,
) -> Result<Place, DaemonFault> {
    match bind(rt, at) {
        Ok(socket) => Ok(Place::Bound(socket)),
        Err(error) => {
            let reason = reason_of(&error);
            if error.kind() == ErrorKind::AddrNotAvailable && !config.others.is_empty() {
                let _ = eprintln!(rt; "tftpd: {at}: {reason}, tried again each second");
                return Ok(Place::Absent(address_of(at)));
            }
            Err(DaemonFault::Bind(at, reason))
        }
    }
}

/// Tries once more whether a socket can be bound to this endpoint.
fn check_bind<R: Supervise + Clock + Eprint>(rt: &R, at: Endpoint) -> Result<(), DaemonFault> {
    match bind(rt, at) {
        Ok(_) => Ok(()),
        Err(error) => Err(DaemonFault::Bind(at, reason_of(&error))),
    }
}

/// Binds a socket to this endpoint, for which it waits some seconds while another socket has it.
fn bind<R: Supervise + Clock + Eprint>(rt: &R, at: Endpoint) -> io::Result<OwnedFd> {
    for tries in 1..BINDS {
        let bound = rt.bind_shared(address_of(at));
        if !is_in_use(&bound) {
            return bound;
        }
        if tries == SILENT_BINDS {
            let _ = eprintln!(rt; "tftpd: {at}: address in use, tried for {BIND_SECONDS} s");
        }
        rt.sleep(Duration::from_millis(BIND_PAUSE));
    }
    rt.bind_shared(address_of(at))
}

/// Whether a port could not be bound since another socket has it.
fn is_in_use(bound: &io::Result<OwnedFd>) -> bool {
    match bound {
        Ok(_) => false,
        Err(error) => error.kind() == ErrorKind::AddrInUse,
    }
}
