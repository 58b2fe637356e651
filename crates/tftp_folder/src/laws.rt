//! Laws of what is served of a folder, and of what changes in it.

ghost use Rattle.tftp_folder.specs.Changing.{BeginStaysWithin, BeginsOwn, CommitStaysWithin};
ghost use Rattle.tftp_folder.specs.Changing.{KeepsRoot, KeepsWithin, ReadOnlyChangesNothing};
ghost use Rattle.tftp_folder.specs.Held.{StoresKeepDrafts};
ghost use Rattle.tftp_folder.specs.Locks.{StoresKeepLocks};
ghost use Rattle.tftp_folder.specs.Source.{GivesFile};
ghost use Rattle.tftp_folder.specs.Stored.{StoresWhatItTook};

use crate::{FolderDraft, FolderSource, FolderStore};
use tftp_disk::laws::gives_in_order;
use tftp_disk::{Disk, View};
use tftp_file::Source;
use tftp_store::Store;

/// What the calls of a source have given since a store opened it is a beginning of the wire text of
/// what reads of the file at that path returned, in order and each byte once; and it is all of it
/// but what the source still has, unless a read failed.
pub fn gives_its_file<V: View>()
    ensures { GivesFile V.log ⟦<FolderSource<V> as Source>⟧.meaning }
{
    gives_in_order::<V::File>();
}

/// The calls that begin a draft change nothing but it, and nothing in a store that refuses writes
/// (`not_made`, `made` and `untouched` of [`FolderStore`](crate::FolderStore)).
pub fn begin_stays_within()
    ensures { BeginStaysWithin }
{}

/// A draft that a store begins is at a path of its drafts, for a place that it admits, and stays so
/// (`made`, `uploads`, `read_only` and `names` of [`FolderStore`](crate::FolderStore)). The calls of
/// its commit change nothing but it and the name that it is given (`named` and `not_named`).
pub fn draft_stays_within<F>(draft: &FolderDraft<F>)
    ensures begun { BeginsOwn draft.now }
    ensures committed { CommitStaysWithin draft.now }
{
    let _ = draft;
}

/// A draft that a store began for a path, and that then took bytes, call by call, is stored there
/// once its commit succeeds: a file was made at the path of the draft, these bytes alone were
/// written to it, in order and each once, and synced; then it got its name, by a call that replaces
/// no file, unless it may, and the folder was synced.
pub fn stores_what_it_took<D: Disk>()
    ensures { StoresWhatItTook D.log ⟦<FolderStore<D> as Store>⟧.meaning }
{}

/// Each call of a store that has changed nothing beyond its limits, and has passed no path outside
/// its root to the system, keeps it so, and its drafts its own.
pub fn keeps_within_its_limits<D: Disk>()
    ensures { KeepsWithin D.log ⟦<FolderStore<D> as Store>⟧.meaning }
{}

/// Each call of a store keeps that its root is the folder that the operator's path was resolved to,
/// by the oldest calls of the store.
pub fn keeps_its_root<D: Disk>()
    ensures { KeepsRoot D.log ⟦<FolderStore<D> as Store>⟧.meaning }
{}

/// A store that refuses writes, and is within its limits, has changed nothing on the disk.
pub fn read_only_changes_nothing()
    ensures { ReadOnlyChangesNothing }
{}

/// A store that changes nothing beyond its limits removes the lock of a name only if it holds it: by
/// its own calls it made that file, and none of them took it away since.
pub fn locks_are_removed_by_their_makers()
    ensures { StoresKeepLocks }
{}

/// A store that changes nothing beyond its limits, and names only files that by its own calls are still
/// where it made them, removes the path of a draft, or links or renames what has it, only while it holds
/// that: by its own calls it made the file, or locked what it found there, and none of them took the path
/// away since. No file is to get the path of a draft as its name.
pub fn drafts_are_taken_by_their_holders()
    ensures { StoresKeepDrafts }
{}
