//! Laws of the runs of `tftpd`, over the definitions alone.

ghost use Rattle.tftp_daemon.specs.Changes.{ReadOnlyRunChangesNothing, RunStaysWithin};
ghost use Rattle.tftp_daemon.specs.Changes.{UploadsRunChangesBelow};
ghost use Rattle.tftp_daemon.specs.DraftPorts.{EachDraftHasItsPort, NoTwoShareADraft};
ghost use Rattle.tftp_daemon.specs.Leaves.{ReadOnlyRunStoresNothing, RunKeepsSettings};
ghost use Rattle.tftp_daemon.specs.Leaves.{UploadsStayInTheirFolder};
ghost use Rattle.tftp_daemon.specs.Reported.{RunReportsAlone};
ghost use Rattle.tftp_daemon.specs.Sent.{OnlyAskedFilesLeave};
ghost use Rattle.tftp_daemon.specs.Witness.{SomeServe};

use tftp_disk::Disk;
use tftp_file::Source;
use tftp_folder::laws::{gives_its_file, keeps_within_its_limits, read_only_changes_nothing};
use tftp_folder::{FolderSource, FolderStore};
use tftp_loop::laws::a_server_sends_only_what_was_asked;
use tftp_server::Store;

/// A run leaves the settings of its store: one that refuses writes refuses them to its end, and one
/// that takes them below a folder alone takes them there alone.
pub fn a_run_keeps_the_settings<D: Disk>()
    ensures { RunKeepsSettings ⟦<FolderStore<D> as Store>⟧.meaning
        ⟦<FolderSource<D::View> as Source>⟧.meaning }
{}

/// A run whose store refuses writes never holds a transfer that stores, if it begins with none: no
/// request opens one.
pub fn a_read_only_run_stores_nothing<D: Disk>()
    ensures { ReadOnlyRunStoresNothing ⟦<FolderStore<D> as Store>⟧.meaning
        ⟦<FolderSource<D::View> as Source>⟧.meaning }
{
    a_run_keeps_the_settings::<D>();
}

/// A run whose store takes writes below a folder alone never holds a transfer that stores elsewhere,
/// if it begins with none: each has the path of its request, and no request opens one with another.
pub fn uploads_stay_in_their_folder<D: Disk>()
    ensures { UploadsStayInTheirFolder ⟦<FolderStore<D> as Store>⟧.meaning
        ⟦<FolderSource<D::View> as Source>⟧.meaning }
{
    a_run_keeps_the_settings::<D>();
}

/// Each transfer that stores does so in a temporary file of its own: the name of that has the port,
/// as a transfer identifier, from which the transfer is answered (RFC 1350, section 4). So no two
/// open transfers of a server share one, whatever datagrams come.
pub fn each_draft_has_its_port<D: Disk>()
    ensures port { EachDraftHasItsPort ⟦<FolderStore<D> as Store>⟧.meaning
        ⟦<FolderSource<D::View> as Source>⟧.meaning }
    ensures apart { NoTwoShareADraft ⟦<FolderStore<D> as Store>⟧.meaning
        ⟦<FolderSource<D::View> as Source>⟧.meaning }
{}

/// A run changes the disk within the limits of its store alone, which are those of the
/// configuration: drafts at the server's own names are made and removed, and get the names of paths
/// that clients can spell, and what got such a name may lose it. No other file is made, named,
/// replaced or removed, whatever datagrams come and whatever the system answers. Just before each call
/// that was to give a file a name, each folder on the way to that, below the root, was looked at, and
/// was a folder and no link; the same looks come between the opening of a file and its first read
/// (`OpensAt` of `tftp_folder`). Each path that the store passes to the system, even to look at a file, is
/// textually the root or below it. The one exception is ROOT as the operator wrote it, before it is
/// resolved. The disk of `--status` is another one (`a_run_reports_in_its_file_alone`).
///
/// The calls that open a file are recorded apart: in the trace of the source, if the opening
/// succeeds. They change nothing, and use such paths only (`OpensSource` of `tftp_folder`). For an
/// opening that fails, the clauses of `open_file` there state it.
pub fn a_run_stays_within_its_limits<D: Disk>()
    ensures { RunStaysWithin D.log ⟦<FolderStore<D> as Store>⟧.meaning
        ⟦<FolderSource<D::View> as Source>⟧.meaning }
{
    keeps_within_its_limits::<D>();
}

/// A run with `--read-only` among its arguments changes nothing on the disk of its store. The file of
/// `--status` is changed by a second disk (`a_run_reports_in_its_file_alone`).
pub fn a_read_only_run_changes_nothing<D: Disk>()
    ensures { ReadOnlyRunChangesNothing D.log ⟦<FolderStore<D> as Store>⟧.meaning
        ⟦<FolderSource<D::View> as Source>⟧.meaning }
{
    a_run_stays_within_its_limits::<D>();
    read_only_changes_nothing();
}

/// A run with `--uploads FOLDER` among its arguments makes, names and removes files in that folder
/// of the root and below it alone.
pub fn a_run_changes_its_uploads_alone<D: Disk>()
    ensures { UploadsRunChangesBelow D.log ⟦<FolderStore<D> as Store>⟧.meaning
        ⟦<FolderSource<D::View> as Source>⟧.meaning }
{
    a_run_stays_within_its_limits::<D>();
}

/// On its second disk a run changes the file that its arguments name by `--status`, and the temporary
/// file of that, alone; one of several servers has its number in the name. What it removes or replaces
/// there was a regular file, or nothing, by the newest look before. Each text that got the name is that
/// of what was counted by then: what the server had noted, and its datagrams. Its other lines are
/// comments. Without `--status` there is no report.
/// Whatever the arguments, what is left of a run's report is such a one (`tftpd_on`: `reports`).
pub fn a_run_reports_in_its_file_alone()
    ensures { RunReportsAlone }
{}

/// Nothing of the disk leaves a server but blocks of files that were asked for: each datagram that
/// it sends is an ERROR, an ACK, an OACK, or DATA, and goes to an endpoint that sent one before.
/// DATA goes to an endpoint that requested to read. What it has of that file, with the blocks
/// before it, is a beginning of what reads of the file returned that was found in the folder at
/// that path, as the mode of the request writes it (RFC 1350, sections 2 and 4).
pub fn only_what_was_asked_leaves_the_folder<D: Disk>()
    ensures { OnlyAskedFilesLeave D.View.log ⟦<FolderStore<D> as Store>⟧.meaning
        ⟦<FolderSource<D::View> as Source>⟧.meaning }
{
    a_run_keeps_the_settings::<D>();
    gives_its_file::<D::View>();
    a_server_sends_only_what_was_asked::<FolderStore<D>>();
}

/// What is proved of a run of `tftpd` can be met, from its arguments to its disk: of a server that
/// gives a file to a client, and of one that stores a file (RFC 1350, section 4).
pub fn some_servers_serve()
    ensures { SomeServe }
{}
