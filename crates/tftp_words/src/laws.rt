//! The law from command lines to the promises, over the definitions alone.

ghost use Rattle.tftp_words.specs.EndToEnd.{WordsMoveFiles};
ghost use Rattle.tftp_words.specs.Explained.{EachCommandIsExplained, EachOfSeveralIsExplained};
ghost use Rattle.tftp_words.specs.FromDisk.{FromDiskToDisk};
ghost use Rattle.tftp_words.specs.OverSeveral.{SeveralMoveFiles};
ghost use Rattle.tftp_words.specs.PutFromDisk.{PutsFromDiskToDisk};
ghost use Rattle.tftp_words.specs.SeveralFromDisk.{SeveralFromDiskToDisk};
ghost use Rattle.tftp_words.specs.SeveralFromDisk.{SeveralPutsFromDiskToDisk};
ghost use Rattle.tftp_words.specs.SharedDrafts.{HeldIsLeft, NamesTheirOwn};
ghost use Rattle.tftp_words.specs.SharedWitness.{ShareAFolder};
ghost use Rattle.tftp_words.specs.SharedFolder.{OneHasTheName, PutsAreNamed, PutsNameTheirFiles};
ghost use Rattle.tftp_words.specs.Unblamed.{NoCommandIsBlamed, NoneOfSeveralIsBlamed};
ghost use Rattle.tftp_words.specs.Witness.{SomeMeetAll};
ghost use Rattle.tftp_words.specs.WordsKept.{SeveralKeepAnyFiles, WordsKeepAnyFiles};

use std::io::Read;
use tftp_client::LocalFile;
use tftp_daemon::laws::a_run_keeps_the_settings;
use tftp_disk::{Disk, DiskSource};
use tftp_file::{Sink, Source};
use tftp_folder::laws::{drafts_are_taken_by_their_holders, gives_its_file, stores_what_it_took};
use tftp_folder::{FolderSource, FolderStore};
use tftp_promises::laws::{
    a_client_ends_for_a_reason, a_client_is_one_run, a_server_is_one_run,
    each_client_keeps_promises, no_program_is_blamed, programs_keep_promises,
};
use tftp_server::Store;

/// Of a run of `tftpd`, and runs of `tftp` whose arguments name that server, the traces are those of
/// programs of a network, which keep the promises over any files if the network is honest and their
/// ports are fresh. What the file of a complete get was handed is then just what
/// the source gave, call by call, that the server's store opened under the path of its name; and
/// what that of a complete put gave is just what the draft took, call by call, that the store began
/// under the path of its name, before its commit. Of several `tftpd` at one address and request
/// port, each and each client that it serves keep the promises, and of one that passes it over it
/// has nothing; and the files of a complete job moved so between the client and the server that
/// serves it (RFC 1350, sections 2, 4 and 6).
pub fn words_keep_promises<D: Disk, G: Source, K: Sink>()
    ensures one { WordsKeepAnyFiles D.log ⟦<FolderStore<D> as Store>⟧.meaning
        ⟦<FolderSource<D::View> as Source>⟧.meaning G.meaning K.meaning }
    ensures files { WordsMoveFiles D.log ⟦<FolderStore<D> as Store>⟧.meaning
        ⟦<FolderSource<D::View> as Source>⟧.meaning G.meaning K.meaning }
    ensures several { SeveralKeepAnyFiles D.log ⟦<FolderStore<D> as Store>⟧.meaning
        ⟦<FolderSource<D::View> as Source>⟧.meaning G.meaning K.meaning }
    ensures several_files { SeveralMoveFiles D.log ⟦<FolderStore<D> as Store>⟧.meaning
        ⟦<FolderSource<D::View> as Source>⟧.meaning G.meaning K.meaning }
{
    a_client_is_one_run::<G, K>();
    a_server_is_one_run::<FolderStore<D>>();
    programs_keep_promises::<FolderStore<D>, G, K>();
    each_client_keeps_promises::<FolderStore<D>, G, K>();
}

/// Of a run of `tftpd`, and runs of `tftp` whose arguments name that server, over an honest network
/// with fresh ports, no end whose peer is no stranger closes because of what that peer sent: as
/// `NotNetascii` only if the peer's file gave no netascii of its measured length, as `SourceFault`
/// only if its own file failed, and as `Illegal`, `TooLarge` or `Refused` never. So a transfer fails
/// only if no retry was left, a file or a store failed, or an ERROR was received (RFC 1350, sections
/// 2, 4 and 7). Of several `tftpd` at one address and request port the same holds of each, and each
/// client that it serves.
pub fn no_command_is_blamed<D: Disk, G: Source, K: Sink>()
    ensures one { NoCommandIsBlamed D.log ⟦<FolderStore<D> as Store>⟧.meaning
        ⟦<FolderSource<D::View> as Source>⟧.meaning G.meaning K.meaning }
    ensures several { NoneOfSeveralIsBlamed D.log ⟦<FolderStore<D> as Store>⟧.meaning
        ⟦<FolderSource<D::View> as Source>⟧.meaning G.meaning K.meaning }
{
    a_client_is_one_run::<G, K>();
    a_server_is_one_run::<FolderStore<D>>();
    programs_keep_promises::<FolderStore<D>, G, K>();
    no_program_is_blamed::<FolderStore<D>, G, K>();
}

/// Of a run of `tftpd`, and runs of `tftp` whose arguments name that server, over an honest network
/// with fresh ports, each `tftp` that sent its request and ended otherwise than by `complete N` did so
/// because its file or its store failed, an ERROR came, or the other file was no netascii; because
/// the file of a put has more blocks than can be numbered at the block size that the server agreed to,
/// or that of a get is longer than the client accepts; because it had made all its waits; or because
/// of one datagram, its request or a later one, all copies were not received, or all answers to them:
/// it sent that once and for each retry, and the server, if it handled a copy, answered, or its
/// transfer failed (RFC 1350, sections 2 and 7). Of several `tftpd` at one address and request port
/// the same holds of each, and each client that it serves.
pub fn a_command_ends_for_a_reason<D: Disk, G: Source, K: Sink>()
    ensures one { EachCommandIsExplained D.log ⟦<FolderStore<D> as Store>⟧.meaning
        ⟦<FolderSource<D::View> as Source>⟧.meaning G.meaning K.meaning }
    ensures several { EachOfSeveralIsExplained D.log ⟦<FolderStore<D> as Store>⟧.meaning
        ⟦<FolderSource<D::View> as Source>⟧.meaning G.meaning K.meaning }
{
    a_client_is_one_run::<G, K>();
    a_server_is_one_run::<FolderStore<D>>();
    programs_keep_promises::<FolderStore<D>, G, K>();
    a_client_ends_for_a_reason::<FolderStore<D>, G, K>();
}

/// From disk to disk: if an honest network joined a run of `tftpd` and runs of `tftp` whose
/// arguments name that server, with fresh ports, then each `tftp get` that printed
/// `complete N` has made, written, synced and then named a file of N bytes, which are just what
/// reads of the file of its name in ROOT returned at the server, in order, or a beginning of that.
/// The server found that file at the path of the name in its folder, and opened it there. A `tftp get`
/// is one whose clause `runs` is this, over a disk of which it had asked nothing before (RFC 1350,
/// sections 2, 4 and 6).
pub fn complete_gets_go_from_disk_to_disk<D: Disk, L: Disk, G: Source>()
    ensures { FromDiskToDisk G.meaning ⟦<LocalFile<L> as Sink>⟧.meaning D.log D.View.log
        ⟦<FolderStore<D> as Store>⟧.meaning ⟦<FolderSource<D::View> as Source>⟧.meaning }
{
    words_keep_promises::<D, G, LocalFile<L>>();
    a_run_keeps_the_settings::<D>();
    gives_its_file::<D::View>();
}

/// From disk to disk in the other direction: if an honest network joined a run of `tftpd` and runs
/// of `tftp` whose arguments name that server, with fresh ports, then what each
/// `tftp put` that printed `complete N` sent, N bytes in octet, is what reads of LOCAL returned, in
/// order from its start, or a beginning of that. It is the wire text of just the bytes that the server
/// wrote to a file that it made in the folder of its drafts, in order and each once. That was
/// synced, and then got its name, ROOT/NAME, and the folder was synced. A `tftp put` is one whose
/// clause `sends` is this (RFC 1350, sections 2, 4 and 6).
pub fn complete_puts_go_from_disk_to_disk<D: Disk, F: Read, K: Sink>()
    ensures { PutsFromDiskToDisk ⟦<DiskSource<F> as Source>⟧.meaning K.meaning D.log
        ⟦<FolderStore<D> as Store>⟧.meaning ⟦<FolderSource<D::View> as Source>⟧.meaning }
{
    words_keep_promises::<D, DiskSource<F>, K>();
    a_run_keeps_the_settings::<D>();
    stores_what_it_took::<D>();
}

/// From disk to disk with several `tftpd` at one address and request port, as `tftpd --servers N`
/// starts them: each `tftp get` that printed `complete N` has named a file of N bytes, which are just
/// what reads of the file of its name returned, in the folder of the server that serves it, or a
/// beginning of that. Each server has a disk trace of its own. Which server serves a client is in
/// the traces: the client takes no other's answer (RFC 1350, sections 2, 4 and 6).
pub fn gets_of_several_go_from_disk_to_disk<D: Disk, L: Disk, G: Source>()
    ensures { SeveralFromDiskToDisk G.meaning ⟦<LocalFile<L> as Sink>⟧.meaning D.log D.View.log
        ⟦<FolderStore<D> as Store>⟧.meaning ⟦<FolderSource<D::View> as Source>⟧.meaning }
{
    words_keep_promises::<D, G, LocalFile<L>>();
    a_run_keeps_the_settings::<D>();
    gives_its_file::<D::View>();
}

/// From disk to disk with several `tftpd` in the other direction: what each `tftp put` that printed
/// `complete N` sent is what reads of LOCAL returned, in order from its start, or a beginning of
/// that; and it is the wire text of just the bytes that the server which serves it wrote to a file
/// that it made in the folder of its drafts, which was synced, and then got its name. Each server has
/// a disk trace of its own (RFC 1350, sections 2, 4 and 6).
pub fn puts_of_several_go_from_disk_to_disk<D: Disk, F: Read, K: Sink>()
    ensures { SeveralPutsFromDiskToDisk ⟦<DiskSource<F> as Source>⟧.meaning K.meaning D.log
        ⟦<FolderStore<D> as Store>⟧.meaning ⟦<FolderSource<D::View> as Source>⟧.meaning }
{
    words_keep_promises::<D, DiskSource<F>, K>();
    a_run_keeps_the_settings::<D>();
    stores_what_it_took::<D>();
}

/// Of a folder that several servers share, by the calls of all on its files in one order, with which
/// the system's answers agree: a put that is stored got its name by one of these calls, and the file
/// that got it has just the bytes that were put. Of two that got one name, one got it later, and that
/// one alone can have it. If the later may replace no file, as without `--overwrite`, a call between
/// had taken the name from the first. The one exception is that the system refused it a hard link,
/// and the other got the name meanwhile. If each program removes the lock of the name only where it
/// made it, as a store does (`locks_are_removed_by_their_makers` of `tftp_folder`), the other got it
/// without the lock then: by a hard link, or by a rename of a server with `--overwrite`.
pub fn one_put_has_the_name()
    ensures named { PutsAreNamed }
    ensures files { PutsNameTheirFiles }
    ensures one { OneHasTheName }
{}

/// Of a folder that several servers share, by the calls of all on its files in any order: from the call
/// that made the temporary file of a put until its last, by which the file gets its name or its path is
/// removed, no call takes that path away, gives it to another file or makes one there; and no other
/// server removes, links or renames it. So each file that is to get a name is the one that its server
/// made for that put, and no name gets a file that another put still writes. Each server keeps within its
/// limits, and by its own calls its files are still where it made them. What the system must promise is
/// that a lock which one server has is granted to no other (flock(2)), and that no file is made where one
/// is (open(2)). A program that takes no locks may still do all of that, if the folder's permissions let it.
pub fn no_put_takes_anothers_file()
    ensures held { HeldIsLeft }
    ensures named { NamesTheirOwn }
{
    drafts_are_taken_by_their_holders();
}

/// The premises of [`no_put_takes_anothers_file`] can be met: one program makes its temporary file while
/// another holds its own in the same folder, which then gets its name.
pub fn some_puts_share_a_folder()
    ensures { ShareAFolder }
{}

/// The premises of the laws from disk to disk can be met, all of them: by a `tftpd` and a `tftp get`,
/// by another `tftpd` and a `tftp put`, and by all four at one address and port, where each server
/// serves its client, and the get passes the server of the put over. Each has its arguments, its trace of the network and the calls of its disk, and
/// an honest network joined them (RFC 1350, section 4).
pub fn some_commands_meet_all_premises()
    ensures { SomeMeetAll }
{}
