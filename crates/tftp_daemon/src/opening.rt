//! The server over the folder of a configuration.

ghost use Rattle.std.specs.Prelude.{◌≡◌, IfOk, None, false, option_map};
ghost use Rattle.std.specs.String.{string_bytes};
ghost use Rattle.tftp_server.specs.Config.{IsConfig};
ghost use Rattle.tftp_folder.specs.Counted.{lengths_in};
ghost use Rattle.tftp_folder.specs.Effects.{changes_of};
ghost use Rattle.tftp_disk.specs.Changes.{changes};
ghost use Rattle.tftp_folder.specs.Inside.{StaysInside};
ghost use Rattle.tftp_folder.specs.Opened.{IsRootOf};
ghost use Rattle.tftp_daemon.specs.Configured.{IsServerOf, IsUploads, drafts_in};

use crate::daemon::{DaemonConfig, DaemonFault};
use std::alloc::Global;
use std::io::{self, ErrorKind};
use tftp_disk::Disk;
use tftp_folder::FolderStore;
use tftp_lines::reason_of;
use tftp_server::Server;

/// A server over the folder.
pub(crate) fn open_server<D: Disk>(
    disk: D,
    alloc: Global,
    config: &DaemonConfig<'_>,
) -> Result<Server<FolderStore<D>>, DaemonFault>
    requires { IsConfig config.now.config }
    ensures { IfOk result (IsServerOf D.log (D.log disk) config.now) }
{
    match open_store(disk, alloc, config) {
        Ok(store) => match Server::new(alloc, config.config, store) {
            Ok(server) => Ok(server),
            Err(_) => Err(DaemonFault::Memory),
        },
        Err(fault) => Err(fault),
    }
}

/// The store over the folder, with its writes refused or kept below one folder.
fn open_store<D: Disk>(
    disk: D,
    alloc: Global,
    config: &DaemonConfig<'_>,
) -> Result<FolderStore<D>, DaemonFault>
    ensures root { IfOk result (λ store. IsRootOf config.now.root.now
        (string_bytes store.folder.root) (D.log disk) (D.log store.disk)) }
    ensures read_only { IfOk result (λ store. store.is_read_only ≡ config.now.read_only) }
    ensures uploads { IfOk result (λ store.
        IsUploads (option_map (λ folder. folder.now) config.now.uploads) store.uploads) }
    ensures drafts { IfOk result (λ store. string_bytes store.folder.drafts
        ≡ drafts_in (string_bytes store.folder.root) store.uploads) }
    ensures unchanged { IfOk result (λ store. changes_of D.log store ≡ changes (D.log disk)) }
    ensures inside { IfOk result (λ store. StaysInside (string_bytes store.folder.root)
        (D.log disk) (D.log store.disk)) }
    ensures lengths { IfOk result (λ store.
        store.lengths.most ≡ lengths_in config.now.length_memory) }
{
    let mut store = match open_root(disk, alloc, config) {
        Ok(store) => store,
        Err(fault) => return Err(fault),
    };
    if config.read_only {
        store.refuse_writes();
    }
    if let Some(folder) = config.uploads {
        if let Err(error) = store.admit_uploads(alloc, folder) {
            return Err(fault_of(&error, DaemonFault::Uploads(reason_of(&error))));
        }
    }
    Ok(store)
}

/// The store over the folder, which takes writes everywhere.
fn open_root<D: Disk>(
    disk: D,
    alloc: Global,
    config: &DaemonConfig<'_>,
) -> Result<FolderStore<D>, DaemonFault>
    ensures root { IfOk result (λ store. IsRootOf config.now.root.now
        (string_bytes store.folder.root) (D.log disk) (D.log store.disk)) }
    ensures settings { IfOk result (λ store. (store.is_read_only ≡ false)
        × (store.uploads ≡ None)) }
    ensures drafts { IfOk result (λ store. string_bytes store.folder.drafts
        ≡ string_bytes store.folder.root) }
    ensures inside { IfOk result (λ store. StaysInside (string_bytes store.folder.root)
        (D.log disk) (D.log store.disk)) }
    ensures looks { IfOk result (λ store. changes (D.log store.disk) ≡ changes (D.log disk)) }
    ensures lengths { IfOk result (λ store.
        store.lengths.most ≡ lengths_in config.now.length_memory) }
{
    match FolderStore::new(disk, alloc, config.root, config.length_memory) {
        Ok(store) => Ok(store),
        Err(error) => Err(fault_of(&error, DaemonFault::Root(reason_of(&error)))),
    }
}

/// The fault of a folder that could not be opened: out of memory, or else this one.
fn fault_of(error: &io::Error, other: DaemonFault) -> DaemonFault {
    if error.kind() == ErrorKind::OutOfMemory {
        DaemonFault::Memory
    } else {
        other
    }
}
