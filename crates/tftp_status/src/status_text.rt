//! The text of a status file, in the format that Prometheus reads.

ghost use Rattle.std.specs.Prelude.{◌≡◌, codes};
ghost use Rattle.tftp_status.specs.StatusText.{closed_of, closed_text, metric_of, metric_text};
ghost use Rattle.tftp_status.specs.StatusText.{sample_line, sample_text};
ghost use Rattle.tftp_status.specs.declared.status_text.Kind.TheVariants.{Gauge};

use crate::counts::{Counts, OutcomeCounts};
use crate::datagrams::Datagrams;
use crate::labels::Labels;
use std::fmt;

/// The text of a status file: Prometheus' text format, and a comment line for each open transfer.
#[derive(Clone, Copy)]
pub struct StatusText<'a> {
    pub counts: Counts,
    pub datagrams: Datagrams,
    pub facts: Facts<'a>,
    /// A comment line for each open transfer, with its end.
    pub lines: &'a str,
}

/// What a status file has beside what was counted and the lines of the open transfers.
#[derive(Clone, Copy)]
pub struct Facts<'a> {
    /// Which server it is of.
    pub labels: Labels,
    /// The version of the program.
    pub version: &'a str,
    /// The most transfers that may be open.
    pub limit: u64,
    /// When the server started, in seconds since 1970 began in UTC.
    pub start: u64,
    /// When the text was made, in seconds since 1970 began in UTC.
    pub time: u64,
}

impl fmt::Display for StatusText<'_> {
    ghost use Rattle.std.specs.Prelude.{Some};
    ghost use Rattle.tftp_status.specs.StatusText.{status_text};

    ghost output = { λ status. Some (status_text status.counts status.datagrams status.facts
        status.lines.now) };

    fn fmt<W: fmt::Write>(&self, f: &mut fmt::Formatter<W>) -> fmt::Result {
        let (counts, datagrams, lines) = (self.counts, self.datagrams, self.lines);
        let labels = self.facts.labels;
        let requests = Requests { counts, labels };
        let transfers = Transfers { counts, labels };
        let amounts = Amounts { counts, labels };
        let load = Load {
            counts,
            datagrams,
            labels,
        };
        let fixed = Fixed(self.facts);
        write!(f, "{requests}{transfers}{amounts}{load}{fixed}{lines}")
    }
}

/// What a metric is.
#[derive(Clone, Copy)]
enum Kind {
    Counter,
    Gauge,
}

impl fmt::Display for Kind {
    ghost use Rattle.std.specs.Prelude.{Some};
    ghost use Rattle.tftp_status.specs.StatusText.{kind_text};

    ghost output = { λ kind. Some (kind_text kind) };

    fn fmt<W: fmt::Write>(&self, f: &mut fmt::Formatter<W>) -> fmt::Result {
        let name = match *self {
            Kind::Counter => "counter",
            Kind::Gauge => "gauge",
        };
        f.write_str(name)
    }
}

/// The lines before the samples of a metric.
#[derive(Clone, Copy)]
struct Head<'a> {
    name: &'a str,
    kind: Kind,
    help: &'a str,
}

impl fmt::Display for Head<'_> {
    ghost use Rattle.std.specs.Prelude.{Some};
    ghost use Rattle.tftp_status.specs.StatusText.{head_text};

    ghost output = { λ head. Some (head_text head.name.now head.kind head.help.now) };

    fn fmt<W: fmt::Write>(&self, f: &mut fmt::Formatter<W>) -> fmt::Result {
        let (name, kind, help) = (self.name, self.kind, self.help);
        write!(f, "# HELP {name} {help}\n# TYPE {name} {kind}\n")
    }
}

/// A sample of a metric with a label.
#[derive(Clone, Copy)]
struct Sample<'a> {
    name: &'a str,
    label: &'a str,
    of: &'a str,
    labels: Labels,
    value: u64,
}

impl fmt::Display for Sample<'_> {
    ghost use Rattle.std.specs.Prelude.{Some};
    ghost use Rattle.tftp_status.specs.StatusText.{sample_text};

    ghost output = { λ sample. Some (sample_text sample.name.now sample.label.now sample.of.now
        sample.labels sample.value) };

    fn fmt<W: fmt::Write>(&self, f: &mut fmt::Formatter<W>) -> fmt::Result {
        let (name, label, of) = (self.name, self.label, self.of);
        let (labels, value) = (self.labels, self.value);
        write!(f, "{name}{{{label}=\"{of}\",{labels}}} {value}\n")
    }
}

/// A sample of the datagrams to the request port, with this answer.
fn answer<'a>(of: &'a str, labels: Labels, value: u64) -> Sample<'a>
    ensures { sample_line result
        ≡ sample_text (codes "tftpd_requests_total") (codes "answer") of.now labels value }
{
    Sample {
        name: "tftpd_requests_total",
        label: "answer",
        of,
        labels,
        value,
    }
}

/// The datagrams to the request port, by their answer.
#[derive(Clone, Copy)]
struct Requests {
    counts: Counts,
    labels: Labels,
}

impl fmt::Display for Requests {
    ghost use Rattle.std.specs.Prelude.{Some};
    ghost use Rattle.tftp_status.specs.StatusText.{requests_text};

    ghost output = { λ requests. Some (requests_text requests.counts requests.labels) };

    fn fmt<W: fmt::Write>(&self, f: &mut fmt::Formatter<W>) -> fmt::Result {
        let (counts, labels) = (self.counts, self.labels);
        let head = Head {
            name: "tftpd_requests_total",
            kind: Kind::Counter,
            help: "Datagrams to the request port, by their answer.",
        };
        let all = counts.reads.opened.saturating_add(counts.writes.opened);
        let opened = answer("opened", labels, all);
        let refused = answer("refused", labels, counts.requests.refused);
        let busy = answer("busy", labels, counts.requests.busy);
        let ignored = answer("ignored", labels, counts.requests.ignored);
        let lost = answer("lost", labels, counts.requests.lost);
        write!(f, "{head}{opened}{refused}{busy}{ignored}{lost}")
    }
}

/// A sample of the closed transfers, of a direction and with an outcome.
#[derive(Clone, Copy)]
struct Closed<'a> {
    way: &'a str,
    outcome: &'a str,
    labels: Labels,
    value: u64,
}

impl fmt::Display for Closed<'_> {
    ghost use Rattle.std.specs.Prelude.{Some};
    ghost use Rattle.tftp_status.specs.StatusText.{closed_of};

    ghost output = { λ closed. Some (closed_of closed) };

    fn fmt<W: fmt::Write>(&self, f: &mut fmt::Formatter<W>) -> fmt::Result {
        let (way, outcome) = (self.way, self.outcome);
        let (labels, value) = (self.labels, self.value);
        write!(
            f,
            "tftpd_transfers_total{{direction=\"{way}\",outcome=\"{outcome}\",{labels}}} {value}\n"
        )
    }
}

/// A sample of the closed transfers of a direction, with this outcome.
fn outcome<'a>(way: &'a str, labels: Labels, outcome: &'a str, value: u64) -> Closed<'a>
    ensures { closed_of result ≡ closed_text way.now outcome.now labels value }
{
    Closed {
        way,
        outcome,
        labels,
        value,
    }
}

/// The closed transfers of a direction, by their outcome.
#[derive(Clone, Copy)]
struct Outcomes<'a> {
    way: &'a str,
    labels: Labels,
    counts: OutcomeCounts,
}

impl fmt::Display for Outcomes<'_> {
    ghost use Rattle.std.specs.Prelude.{Some};
    ghost use Rattle.tftp_status.specs.StatusText.{outcomes_text};

    ghost output = { λ all. Some (outcomes_text all.way.now all.labels all.counts) };

    fn fmt<W: fmt::Write>(&self, f: &mut fmt::Formatter<W>) -> fmt::Result {
        let (way, labels, counts) = (self.way, self.labels, self.counts);
        let complete = outcome(way, labels, "complete", counts.complete);
        let timed_out = outcome(way, labels, "timed_out", counts.timed_out);
        let peer_error = outcome(way, labels, "peer_error", counts.peer_error);
        let illegal = outcome(way, labels, "illegal", counts.illegal);
        let refused = outcome(way, labels, "refused", counts.refused);
        let too_large = outcome(way, labels, "too_large", counts.too_large);
        let store_fault = outcome(way, labels, "store_fault", counts.store_fault);
        let source_fault = outcome(way, labels, "source_fault", counts.source_fault);
        let not_netascii = outcome(way, labels, "not_netascii", counts.not_netascii);
        write!(f, "{complete}{timed_out}{peer_error}{illegal}{refused}")?;
        write!(f, "{too_large}{store_fault}{source_fault}{not_netascii}")
    }
}

/// The closed transfers.
#[derive(Clone, Copy)]
struct Transfers {
    counts: Counts,
    labels: Labels,
}

impl fmt::Display for Transfers {
    ghost use Rattle.std.specs.Prelude.{Some};
    ghost use Rattle.tftp_status.specs.StatusText.{transfers_text};

    ghost output = { λ all. Some (transfers_text all.counts all.labels) };

    fn fmt<W: fmt::Write>(&self, f: &mut fmt::Formatter<W>) -> fmt::Result {
        let labels = self.labels;
        let head = Head {
            name: "tftpd_transfers_total",
            kind: Kind::Counter,
            help: "Closed transfers, by their outcome.",
        };
        let reads = Outcomes {
            way: "read",
            labels,
            counts: self.counts.reads.outcomes,
        };
        let writes = Outcomes {
            way: "write",
            labels,
            counts: self.counts.writes.outcomes,
        };
        write!(f, "{head}{reads}{writes}")
    }
}

/// What closed transfers moved.
#[derive(Clone, Copy)]
struct Amounts {
    counts: Counts,
    labels: Labels,
}

impl fmt::Display for Amounts {
    ghost use Rattle.std.specs.Prelude.{Some};
    ghost use Rattle.tftp_status.specs.StatusText.{amounts_text};

    ghost output = { λ amounts. Some (amounts_text amounts.counts amounts.labels) };

    fn fmt<W: fmt::Write>(&self, f: &mut fmt::Formatter<W>) -> fmt::Result {
        let (counts, labels) = (self.counts, self.labels);
        let bytes = Head {
            name: "tftpd_bytes_total",
            kind: Kind::Counter,
            help: "Bytes of DATA of closed transfers, each block once.",
        };
        let read = direction("tftpd_bytes_total", "read", labels, counts.reads.bytes);
        let written = direction("tftpd_bytes_total", "write", labels, counts.writes.bytes);
        let again = Metric {
            name: "tftpd_blocks_sent_again_total",
            kind: Kind::Counter,
            help: "Datagrams that closed transfers sent again.",
            labels,
            value: counts.again,
        };
        write!(f, "{bytes}{read}{written}{again}")
    }
}

/// A sample of a metric by the direction of transfers.
fn direction<'a>(name: &'a str, way: &'a str, labels: Labels, value: u64) -> Sample<'a>
    ensures { sample_line result
        ≡ sample_text name.now (codes "direction") way.now labels value }
{
    Sample {
        name,
        label: "direction",
        of: way,
        labels,
        value,
    }
}

/// A sample of the datagrams.
fn moved<'a>(way: &'a str, labels: Labels, value: u64) -> Sample<'a>
    ensures { sample_line result
        ≡ sample_text (codes "tftpd_datagrams_total") (codes "way") way.now labels value }
{
    Sample {
        name: "tftpd_datagrams_total",
        label: "way",
        of: way,
        labels,
        value,
    }
}

/// What the server's sockets moved, and how many transfers are open.
#[derive(Clone, Copy)]
struct Load {
    counts: Counts,
    datagrams: Datagrams,
    labels: Labels,
}

impl fmt::Display for Load {
    ghost use Rattle.std.specs.Prelude.{Some};
    ghost use Rattle.tftp_status.specs.StatusText.{load_text};

    ghost output = { λ load. Some (load_text load.counts load.datagrams load.labels) };

    fn fmt<W: fmt::Write>(&self, f: &mut fmt::Formatter<W>) -> fmt::Result {
        let (counts, labels) = (self.counts, self.labels);
        let datagrams = Head {
            name: "tftpd_datagrams_total",
            kind: Kind::Counter,
            help: "Datagrams of all ports of the server.",
        };
        let received = moved("received", labels, self.datagrams.received);
        let sent = moved("sent", labels, self.datagrams.sent);
        let open = Head {
            name: "tftpd_transfers_open",
            kind: Kind::Gauge,
            help: "Transfers that are open.",
        };
        let reads = counts.reads.open();
        let read = direction("tftpd_transfers_open", "read", labels, reads);
        let writes = counts.writes.open();
        let written = direction("tftpd_transfers_open", "write", labels, writes);
        write!(f, "{datagrams}{received}{sent}{open}{read}{written}")
    }
}

/// What does not change while the server runs, and when the text was made.
#[derive(Clone, Copy)]
struct Fixed<'a>(Facts<'a>);

impl fmt::Display for Fixed<'_> {
    ghost use Rattle.std.specs.Prelude.{Some};
    ghost use Rattle.tftp_status.specs.StatusText.{fixed_text};

    ghost output = { λ fixed. Some (fixed_text fixed.0) };

    fn fmt<W: fmt::Write>(&self, f: &mut fmt::Formatter<W>) -> fmt::Result {
        let Facts {
            labels,
            version,
            limit,
            start,
            time,
        } = self.0;
        let limit = gauge(
            "tftpd_transfers_limit",
            "The most transfers that may be open.",
            labels,
            limit,
        );
        let start = gauge(
            "tftpd_start_time_seconds",
            "When the server started, since 1970 began in UTC.",
            labels,
            start,
        );
        let time = gauge(
            "tftpd_report_time_seconds",
            "When this text was made, since 1970 began in UTC.",
            labels,
            time,
        );
        let build = Head {
            name: "tftpd_build_info",
            kind: Kind::Gauge,
            help: "The version of the program.",
        };
        let version = Sample {
            name: "tftpd_build_info",
            label: "version",
            of: version,
            labels,
            value: 1,
        };
        write!(f, "{limit}{start}{time}{build}{version}")
    }
}

/// A gauge of one sample.
fn gauge<'a>(name: &'a str, help: &'a str, labels: Labels, value: u64) -> Metric<'a>
    ensures { metric_of result ≡ metric_text name.now Gauge help.now labels value }
{
    Metric {
        name,
        kind: Kind::Gauge,
        help,
        labels,
        value,
    }
}

/// A metric of one sample.
#[derive(Clone, Copy)]
struct Metric<'a> {
    name: &'a str,
    kind: Kind,
    help: &'a str,
    labels: Labels,
    value: u64,
}

impl fmt::Display for Metric<'_> {
    ghost use Rattle.std.specs.Prelude.{Some};
    ghost use Rattle.tftp_status.specs.StatusText.{metric_of};

    ghost output = { λ metric. Some (metric_of metric) };

    fn fmt<W: fmt::Write>(&self, f: &mut fmt::Formatter<W>) -> fmt::Result {
        let (name, labels, value) = (self.name, self.labels, self.value);
        let head = Head {
            name,
            kind: self.kind,
            help: self.help,
        };
        write!(f, "{head}{name}{{{labels}}} {value}\n")
    }
}
