//! The file of a server's counts: where it may be, and when its reports begin.

ghost use Rattle.std.specs.Prelude.{◌≡◌, ◌≢◌, ◌⊎◌, false, true, IfOk, IfSome, IsSomeAnd, OnOk};
ghost use Rattle.std.specs.Prelude.{is_some};
ghost use Rattle.std.specs.String.{string_bytes};
ghost use Rattle.tftp_status.specs.StatusFile.{draft_of};
ghost use Rattle.tftp_daemon.specs.Refused.{is_name, name_in, names_file};
ghost use Rattle.tftp_daemon.specs.Reports.{AreFactsOf, HasLooked, IsOwnFile, LooksApart};
ghost use Rattle.tftp_daemon.specs.Reports.{LooksApartFrom, LooksOutside, ReportsAt, folder_of};
ghost use Rattle.tftp_daemon.specs.Reports.{or_here};

use crate::daemon::{DaemonConfig, DaemonFault, StatusFault};
use std::alloc::{AllocError, Global};
use std::path::Path;
use tftp_arguments::VERSION;
use tftp_disk::{Disk, Looks};
use tftp_ends::Endpoint;
use tftp_sockets::ServerUdp;
use tftp_status::{Labels, ReportSettings, ServerFacts, StatusPaths, file_of_server};

/// Refuses a status file in the folder of a configuration, and one that is the file of `--drain`,
/// wherever links lead. Without one it asks nothing.
pub(crate) fn check_status<D: Disk>(
    disk: &D,
    alloc: Global,
    config: &DaemonConfig<'_>,
) -> Result<(), DaemonFault>
    ensures place { OnOk result (IfSome config.now.status (λ file.
        HasLooked D.View.log (LooksOutside config.now.root.now (folder_of file.now)))) }
    ensures drain { OnOk result (IfSome config.now.status (λ file. IfSome config.now.drain (λ drain.
        HasLooked D.View.log (LooksApart config.now.instance.server drain.now file.now)))) }
{
    match config.status {
        Some(file) => check_file(disk, alloc, config, file),
        None => Ok(()),
    }
}

/// As [`check_status`], of a status file with this path.
fn check_file<D: Disk>(
    disk: &D,
    alloc: Global,
    config: &DaemonConfig<'_>,
    file: &str,
) -> Result<(), DaemonFault>
    ensures place { OnOk result (HasLooked D.View.log
        (LooksOutside config.now.root.now (folder_of file.now))) }
    ensures drain { OnOk result (IfSome config.now.drain (λ drain.
        HasLooked D.View.log (LooksApart config.now.instance.server drain.now file.now))) }
{
    let mut looks = disk.view();
    match check_place(&mut looks, alloc, config.root, file) {
        Ok(()) => check_file_and_drain(disk, alloc, config, file),
        Err(fault) => Err(fault),
    }
}

/// Refuses a status file that is the file of `--drain`, if there is one.
fn check_file_and_drain<D: Disk>(
    disk: &D,
    alloc: Global,
    config: &DaemonConfig<'_>,
    file: &str,
) -> Result<(), DaemonFault>
    ensures { OnOk result (IfSome config.now.drain (λ drain.
        HasLooked D.View.log (LooksApart config.now.instance.server drain.now file.now))) }
{
    match config.drain {
        Some(drain) => {
            let mut looks = disk.view();
            check_drain(&mut looks, alloc, config.instance.server, drain, file)
        }
        None => Ok(()),
    }
}

/// Refuses a status file in the served folder or below it, wherever the links of both lead. A folder
/// that cannot be resolved is none of a file that can be written by now.
fn check_place<L: Looks>(
    looks: &mut L,
    alloc: Global,
    root: &str,
    file: &str,
) -> Result<(), DaemonFault>
    ensures { OnOk result (LooksOutside root.now (folder_of file.now) (L.log looks.old)
        (L.log looks.new)) }
{
    let root = match looks.resolve(alloc, root) {
        Ok(root) => root,
        Err(_) => return Ok(()),
    };
    let folder = match looks.resolve(alloc, folder_of(file)) {
        Ok(folder) => folder,
        Err(_) => return Ok(()),
    };
    if folder.starts_with(root.as_str()) {
        Err(DaemonFault::Status(StatusFault::InRoot))
    } else {
        Ok(())
    }
}

/// Refuses a status file that is the file of `--drain`, as is its temporary file, wherever the links of
/// both folders lead: of several servers this server's own. A folder that cannot be resolved has no
/// file by now.
fn check_drain<L: Looks>(
    looks: &mut L,
    alloc: Global,
    server: Option<u8>,
    drain: &str,
    file: &str,
) -> Result<(), DaemonFault>
    ensures { OnOk result (LooksApart server drain.now file.now (L.log looks.old)
        (L.log looks.new)) }
{
    let own = own_file(alloc, file, server)?;
    let draft = draft_of(alloc, own.as_str())?;
    check_own(looks, alloc, drain, own.as_str(), draft.as_str())
}

/// As [`check_drain`], of a server's own file and its temporary file.
fn check_own<L: Looks>(
    looks: &mut L,
    alloc: Global,
    drain: &str,
    own: &str,
    draft: &str,
) -> Result<(), DaemonFault>
    requires { draft.now ≡ draft_of own.now }
    ensures { OnOk result (LooksApartFrom drain.now own.now (L.log looks.old) (L.log looks.new)) }
{
    let place = match looks.resolve(alloc, folder_of(own)) {
        Ok(place) => place,
        Err(_) => return Ok(()),
    };
    let other = match looks.resolve(alloc, folder_of(drain)) {
        Ok(other) => other,
        Err(_) => return Ok(()),
    };
    if !is_same(place.as_str(), other.as_str()) {
        return Ok(());
    }
    if is_named_apart(drain, own, draft) {
        Ok(())
    } else {
        Err(DaemonFault::Status(StatusFault::Drain))
    }
}

/// Whether two texts are the same.
fn is_same(one: &str, other: &str) -> bool
    ensures { one.now ≡ other.now → result ≡ true }
{
    one == other
}

/// Whether the file of `--drain` has another name than a status file and its temporary file.
fn is_named_apart(drain: &str, own: &str, draft: &str) -> bool
    ensures { result ≡ true → (name_in drain.now ≢ name_in own.now)
        × (name_in drain.now ≢ name_in draft.now) }
{
    differs(name_in(drain), name_in(own)) && differs(name_in(drain), name_in(draft))
}

/// Whether two texts differ.
fn differs(one: &str, other: &str) -> bool
    ensures { result ≡ true → one.now ≢ other.now }
{
    one != other
}

/// The folder of a file.
fn folder_of(file: &str) -> &str
    ensures { result.now ≡ folder_of file.now }
{
    match Path::new(file).parent() {
        Some(folder) => or_here(folder.as_str()),
        None => ".",
    }
}

/// A folder, which is this one if its path is empty.
fn or_here(folder: &str) -> &str
    ensures { result.now ≡ or_here folder.now }
{
    if folder.is_empty() { "." } else { folder }
}

/// Whether a path has the name of a file behind its last slash: neither nothing, `.` nor `..`.
pub(crate) fn names_file(path: &str) -> bool
    ensures { result ≡ names_file path.now }
{
    is_name(name_in(path))
}

/// What is behind the last slash of a path, or all of a path without one.
fn name_in(path: &str) -> &str
    ensures { result.now ≡ name_in path.now }
{
    match path.rsplit_once('/') {
        Some((_, name)) => name,
        None => path,
    }
}

/// Whether a part of a path may be the name of a file.
fn is_name(name: &str) -> bool
    ensures { result ≡ is_name name.now }
{
    !name.is_empty() && name != "." && name != ".."
}

/// The settings of a server's reports, if its configuration has a file for them: the one that it names,
/// or of several servers the one with this server's number. Its samples have the address.
pub(crate) fn report_settings<N: ServerUdp>(
    net: &N,
    alloc: Global,
    config: &DaemonConfig<'_>,
    at: Endpoint,
) -> Result<Option<ReportSettings>, DaemonFault>
    ensures begun { IfOk result (λ settings. is_some settings ≡ is_some config.now.status) }
    ensures file { IfOk result (λ settings. IfSome settings
        (λ settings. ReportsAt config.now settings.paths)) }
    ensures server { IfOk result (λ settings. IfSome settings
        (λ settings. AreFactsOf config.now at settings.server)) }
{
    let Some(file) = config.status else {
        return Ok(None);
    };
    let own = own_file(alloc, file, config.instance.server)?;
    let paths = StatusPaths::new(alloc, own)?;
    if is_drain(config.drain, paths.file(), paths.draft()) {
        return Err(DaemonFault::Status(StatusFault::Drain));
    }
    Ok(Some(ReportSettings {
        paths,
        server: server_facts(net, alloc, config, at)?,
    }))
}

/// What a status file says of a server of this configuration, whose requests arrive at this endpoint,
/// and which starts now.
fn server_facts<N: ServerUdp>(
    net: &N,
    alloc: Global,
    config: &DaemonConfig<'_>,
    at: Endpoint,
) -> Result<ServerFacts, AllocError>
    ensures { IfOk result (λ server. AreFactsOf config.now at server) }
{
    let version = String::from_str(alloc, VERSION)?;
    Ok(ServerFacts {
        labels: Labels {
            address: at,
            server: config.instance.server,
        },
        version,
        limit: u64::from(config.config.cap),
        start: start_of(net),
    })
}

/// The time in seconds since 1970 began in UTC; 0 if the clock cannot be read.
fn start_of<N: ServerUdp>(net: &N) -> u64 {
    net.utc_millis().unwrap_or(0) / 1_000
}

/// The path of a server's own file: this one, or of several servers the one with its number.
fn own_file(alloc: Global, file: &str, server: Option<u8>) -> Result<String, AllocError>
    ensures { IfOk result (λ own. IsOwnFile file.now server (string_bytes own)) }
{
    match server {
        Some(server) => file_of_server(alloc, file, server),
        None => String::from_str(alloc, file),
    }
}

/// The path of the temporary file of a status file.
pub(crate) fn draft_of(alloc: Global, file: &str) -> Result<String, AllocError>
    ensures { IfOk result (λ draft. string_bytes draft ≡ draft_of file.now) }
{
    format!(in alloc; "{file}~")
}

/// Whether the file that has a server drain is this status file, or its temporary file.
pub(crate) fn is_drain(drain: Option<&str>, file: &str, draft: &str) -> bool
    ensures apart { result ≡ false → IfSome drain.entry (λ path. (path.now ≢ file.now)
        × (path.now ≢ draft.now)) }
    ensures same { result ≡ true → IsSomeAnd drain.entry (λ path. (path.now ≡ file.now)
        ⊎ (path.now ≡ draft.now)) }
{
    match drain {
        Some(path) => path == file || path == draft,
        None => false,
    }
}
