//! The four TFTP programs, under one name: `tftp-show` is `tftp_show`'s, `tftp-play` is
//! `tftp_play`'s, the client over UDP is `tftp_client`'s and the server `tftp_daemon`'s.
//!
//! Begin with [`show_run`], [`play_run`], [`tftp_words`] and [`tftpd_words`].
#![tactic(auto)]

pub use tftp_client::{fallback, tftp_command, tftp_words};
pub use tftp_daemon::{tftpd_command, tftpd_words};
pub use tftp_folder::{FolderDraft, FolderStore};
pub use tftp_lines::{ClientOutcome, LineClock, LogLine, Printed, ProgressLine};
pub use tftp_play::{play_command, play_run, play_words};
pub use tftp_show::{ShowFault, show_command, show_lines, show_reported, show_run, show_words};
pub use tftp_sockets::{LONGEST_WAIT, Port, Watch, deadline, index_of, is_due, wait_for};
