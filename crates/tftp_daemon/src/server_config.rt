//! Whether a configuration is that of one of several servers.

ghost use Rattle.std.specs.Prelude.{◌≡◌, [], option_map, Some, IfSome, IsTrue};
ghost use Rattle.tftp_daemon.specs.Configured.{servers_of};
ghost use Rattle.tftp_daemon.specs.Servers.{IsPart, IsServer, PartOf, start_of};

use crate::daemon::DaemonConfig;
use crate::listen::Listen;
use tftp_loop::PortRange;

/// Whether this is the configuration of a server of another one.
pub(crate) fn is_server(own: &DaemonConfig<'_>, config: &DaemonConfig<'_>, server: u8) -> bool
    ensures { IsTrue result → IsServer config.now server own.now }
{
    if !is_instance(own, server) || !has_same_paths(own, config) {
        return false;
    }
    if !has_same_settings(own, config) || !has_same_end(own, config) {
        return false;
    }
    has_own_part(own, config, server)
}

/// Whether the first of these configurations has the server's part of the ports of the other.
fn has_own_part(own: &DaemonConfig<'_>, config: &DaemonConfig<'_>, server: u8) -> bool
    ensures { IsTrue result → PartOf config.now.ports (servers_of config.now) server own.now.ports }
{
    match config.servers() {
        Some(servers) => has_part(own.ports, config.ports, servers, server),
        None => false,
    }
}

/// Whether this is the configuration of this server of several.
fn is_instance(own: &DaemonConfig<'_>, server: u8) -> bool
    ensures listen { IsTrue result → own.now.listen ≡ Listen.Handed }
    ensures others { IsTrue result → own.now.others.items ≡ [] }
    ensures servers { IsTrue result → own.now.instance.servers ≡ 1 }
    ensures server { IsTrue result → own.now.instance.server ≡ Some server }
{
    if !own.others.is_empty() {
        return false;
    }
    match own.instance.server {
        Some(number) => is_handed(own.listen) && own.instance.servers == 1 && number == server,
        None => false,
    }
}

/// Whether the folders of two configurations are the same, the file that has them drain, and that of
/// their counts.
fn has_same_paths(own: &DaemonConfig<'_>, config: &DaemonConfig<'_>) -> bool
    ensures root { IsTrue result → own.now.root.now ≡ config.now.root.now }
    ensures uploads { IsTrue result → option_map (λ folder. folder.now) own.now.uploads
        ≡ option_map (λ folder. folder.now) config.now.uploads }
    ensures drain { IsTrue result → option_map (λ path. path.now) own.now.drain
        ≡ option_map (λ path. path.now) config.now.drain }
    ensures status { IsTrue result → option_map (λ path. path.now) own.now.status
        ≡ option_map (λ path. path.now) config.now.status }
{
    own.root == config.root
        && is_same_path(own.uploads, config.uploads)
        && is_same_path(own.drain, config.drain)
        && is_same_path(own.status, config.status)
}

/// Whether two paths that may be given are the same.
fn is_same_path(own: Option<&str>, other: Option<&str>) -> bool
    ensures { IsTrue result → option_map (λ path. path.now) own.entry
        ≡ option_map (λ path. path.now) other.entry }
{
    match (own, other) {
        (Some(own), Some(other)) => own == other,
        (None, None) => true,
        _ => false,
    }
}

/// Whether the limits and the flags of two configurations are the same.
fn has_same_settings(own: &DaemonConfig<'_>, config: &DaemonConfig<'_>) -> bool
    ensures limits { IsTrue result → own.now.config ≡ config.now.config }
    ensures per_client { IsTrue result → own.now.per_client ≡ config.now.per_client }
    ensures requests_only { IsTrue result → own.now.requests_only ≡ config.now.requests_only }
    ensures read_only { IsTrue result → own.now.read_only ≡ config.now.read_only }
    ensures logs { IsTrue result → own.now.logs ≡ config.now.logs }
    ensures log_times { IsTrue result → own.now.log_times ≡ config.now.log_times }
    ensures memory { IsTrue result → own.now.length_memory ≡ config.now.length_memory }
{
    own.config == config.config
        && is_same_count(own.per_client, config.per_client)
        && own.requests_only == config.requests_only
        && own.read_only == config.read_only
        && own.logs == config.logs
        && own.log_times == config.log_times
        && own.length_memory == config.length_memory
}

/// Whether two servers end alike, and their transfers, which wait alike.
fn has_same_end(own: &DaemonConfig<'_>, config: &DaemonConfig<'_>) -> bool
    ensures transfers { IsTrue result → own.now.ending.transfers ≡ config.now.ending.transfers }
    ensures rounds { IsTrue result → own.now.ending.rounds ≡ config.now.ending.rounds }
    ensures longest { IsTrue result → own.now.longest ≡ config.now.longest }
    ensures backoff { IsTrue result → own.now.backoff ≡ config.now.backoff }
{
    own.ending.transfers == config.ending.transfers
        && own.ending.rounds == config.ending.rounds
        && is_same_age(own.longest, config.longest)
        && own.backoff == config.backoff
}

/// Whether two ages that may be given are the same.
fn is_same_age(own: Option<u32>, other: Option<u32>) -> bool
    ensures { IsTrue result → own ≡ other }
{
    match (own, other) {
        (Some(own), Some(other)) => own == other,
        (None, None) => true,
        _ => false,
    }
}

/// Whether two counts that may be given are the same.
fn is_same_count(own: Option<u8>, other: Option<u8>) -> bool
    ensures { IsTrue result → own ≡ other }
{
    match (own, other) {
        (Some(own), Some(other)) => own == other,
        (None, None) => true,
        _ => false,
    }
}

/// Whether requests arrive at standard input.
fn is_handed(listen: Listen) -> bool
    ensures { IsTrue result → listen ≡ Listen.Handed }
{
    match listen {
        Listen::At(_) => false,
        Listen::Handed => true,
    }
}

/// Whether these are the server's part of the ports.
fn has_part(own: Option<PortRange>, ports: Option<PortRange>, servers: u8, server: u8) -> bool
    ensures { IsTrue result → PartOf ports servers server own }
{
    match (own, ports) {
        (None, None) => true,
        (Some(own), Some(range)) => is_part(own, range, servers, server),
        _ => false,
    }
}

/// Whether this is the server's part of a range.
fn is_part(own: PortRange, range: PortRange, servers: u8, server: u8) -> bool
    ensures { IsTrue result → IsPart range servers server own }
{
    match part_of(range, servers, server) {
        Some(part) => own.first == part.first && own.last == part.last,
        None => false,
    }
}

/// The server's part of a range, if it has one: it begins behind that of the server before.
pub(crate) fn part_of(range: PortRange, servers: u8, server: u8) -> Option<PortRange>
    ensures { IfSome result (IsPart range servers server) }
{
    let first = start_of(range, servers, server.checked_sub(1)?)?;
    let next = start_of(range, servers, server)?;
    Some(PortRange {
        first: u16::try_from(first).ok()?,
        last: u16::try_from(next.checked_sub(1)?).ok()?,
    })
}

/// The first port behind the parts of the first `before` servers.
fn start_of(range: PortRange, servers: u8, before: u8) -> Option<u32>
    ensures { IfSome result (λ start. start ≡ start_of range servers before) }
{
    let count = u32::from(range.last).checked_sub(u32::from(range.first))? + 1;
    let behind = (count * u32::from(before)).checked_div(u32::from(servers))?;
    Some(u32::from(range.first) + behind)
}
