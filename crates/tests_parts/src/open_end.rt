//! An end with its file, and scenes: what arrives at one end, and what it has to do.

use crate::expect::{expect, expect_equal};
use std::alloc::Global;
use std::marker::Model;
use std::process::Abort;
use tftp_ends::{
    Backoff, End, EndConfig, EndFault, Endpoint, Held, OpenFault, Outcome, Outgoing, Record, Side,
    Step, decode_packet,
};
use tftp_file::{FaultSource, Files, MemSink};
use tftp_negotiate::{Agreed, Asked, Kind, Limits, accept_ref};
use tftp_wire::{Mode, PacketRef};

pub(crate) const SERVER: Endpoint = Endpoint {
    ip: [10, 0, 0, 1],
    port: 69,
};

pub(crate) const SERVER_END: Endpoint = Endpoint {
    ip: [10, 0, 0, 1],
    port: 1025,
};

pub(crate) const CLIENT: Endpoint = Endpoint {
    ip: [10, 0, 0, 2],
    port: 1024,
};

pub(crate) const CONFIG: EndConfig = EndConfig {
    limits: Limits {
        max_block: 1428,
        max_file: 4_290_183_239,
    },
    retries: 5,
};

pub(crate) const NOTHING: Asked = Asked {
    blksize: None,
    timeout: None,
    tsize: None,
};

/// Blocks of eight bytes.
pub(crate) const EIGHT: Asked = Asked {
    blksize: Some(8),
    timeout: None,
    tsize: None,
};

/// A read request for `a` in octet, without options.
pub(crate) const RRQ_A: &[u8] = b"\x00\x01a\x00octet\x00";

/// A read request for `a` in octet, by blocks of eight bytes.
pub(crate) const RRQ_8: &[u8] = b"\x00\x01a\x00octet\x00blksize\x008\x00";

/// A write request for `n` in octet, by blocks of eight bytes.
pub(crate) const WRQ_8: &[u8] = b"\x00\x02n\x00octet\x00blksize\x008\x00";

pub(crate) const OACK_8: &[u8] = b"\x00\x06blksize\x008\x00";

pub(crate) const ACK_0: &[u8] = b"\x00\x04\x00\x00";

pub(crate) const ACK_1: &[u8] = b"\x00\x04\x00\x01";

pub(crate) const ACK_2: &[u8] = b"\x00\x04\x00\x02";

/// DATA 1 of three letters.
pub(crate) const DATA_1: &[u8] = b"\x00\x03\x00\x01ABC";

pub(crate) const EMPTY_DATA_2: &[u8] = b"\x00\x03\x00\x02";

/// DATA 1 of 512 letters `x`, 64 on a line.
pub(crate) const FULL_DATA_1: &[u8] = b"\x00\x03\x00\x01\
xxxxxxxxxxxxxxxxxxxxxxxxxxxxxxxxxxxxxxxxxxxxxxxxxxxxxxxxxxxxxxxx\
xxxxxxxxxxxxxxxxxxxxxxxxxxxxxxxxxxxxxxxxxxxxxxxxxxxxxxxxxxxxxxxx\
xxxxxxxxxxxxxxxxxxxxxxxxxxxxxxxxxxxxxxxxxxxxxxxxxxxxxxxxxxxxxxxx\
xxxxxxxxxxxxxxxxxxxxxxxxxxxxxxxxxxxxxxxxxxxxxxxxxxxxxxxxxxxxxxxx\
xxxxxxxxxxxxxxxxxxxxxxxxxxxxxxxxxxxxxxxxxxxxxxxxxxxxxxxxxxxxxxxx\
xxxxxxxxxxxxxxxxxxxxxxxxxxxxxxxxxxxxxxxxxxxxxxxxxxxxxxxxxxxxxxxx\
xxxxxxxxxxxxxxxxxxxxxxxxxxxxxxxxxxxxxxxxxxxxxxxxxxxxxxxxxxxxxxxx\
xxxxxxxxxxxxxxxxxxxxxxxxxxxxxxxxxxxxxxxxxxxxxxxxxxxxxxxxxxxxxxxx";

pub(crate) const DISK_FULL: &[u8] = b"\x00\x05\x00\x03disk full\x00";

/// A client that has sent a request to read: no peer, and the default block size.
pub(crate) const ASKED_TO_READ: Record = Record {
    side: Side::ClientRead,
    peer: None,
    size: 512,
    timeout: None,
    number: 0,
    complete: false,
    outcome: None,
};

/// The capacity of a sink: more than the longest file of the tests.
const ROOM: u64 = 1_000_000;

/// How an end is opened. A server's end has five retries.
#[derive(Clone, Copy)]
pub(crate) enum Opening {
    /// A client requests to read the file of this name, in this mode, with these options.
    Get(&'static [u8], Mode, Asked, EndConfig),
    /// A client requests to write the file as `n` in octet, as one of this length, with these
    /// options.
    Put(u64, &'static [u8], Asked, EndConfig),
    /// A server's end answers this request in this mode by the file, as one of this length on the
    /// wire.
    ServeRead(&'static [u8], Mode, u64, &'static [u8]),
    /// A server's end answers a write in octet that has the options of this read request. Its sink
    /// may refuse each commit.
    ServeWrite(&'static [u8], bool),
}

/// How many bytes a source gives at most, and whether it then fails.
#[derive(Clone, Copy)]
pub(crate) struct Gives {
    pub(crate) bytes: u64,
    pub(crate) then_fails: bool,
}

/// The whole file, and no fault.
pub(crate) const WHOLE: Gives = Gives {
    bytes: u64::MAX,
    then_fails: false,
};

/// Whether an event is progress, and how it closes the end, or the fault by which the end refuses
/// it.
pub(crate) type Then = Result<(bool, Option<Outcome>), EndFault>;

/// The peer became known, a block was new, or the end became complete.
pub(crate) const PROGRESS: Then = Ok((true, None));

/// The end stays as it was.
pub(crate) const STAYS: Then = Ok((false, None));

/// The last block was acknowledged.
pub(crate) const COMPLETES: Then = Ok((true, Some(Outcome::Complete)));

/// The file is longer than the limit, or than blocks of the agreed size carry.
pub(crate) const TOO_LARGE: Then = Ok((false, Some(Outcome::TooLarge)));

/// The sink refuses a call.
pub(crate) const STORE_FAULT: Then = Ok((false, Some(Outcome::StoreFault)));

/// The end is closed, and refuses the event.
pub(crate) const REFUSED: Then = Err(EndFault::Closed);

/// What happens at an end. The end answers a datagram by the second bytes of its row, or not at all
/// if they are empty.
#[derive(Clone, Copy)]
pub(crate) enum Event {
    /// This datagram arrives from this endpoint, and is answered so.
    Arrives(Endpoint, &'static [u8], &'static [u8], Then),
    /// After a timeout the end sends these bytes to this endpoint.
    TimesOut(&'static [u8], Endpoint, Then),
    /// This datagram arrives from this endpoint, and the end lends the answer.
    Lends(Endpoint, &'static [u8], &'static [u8], Then),
    /// After a timeout the end lends these bytes, for this endpoint.
    LendsAfterTimeout(&'static [u8], Endpoint, Then),
    /// The end is then so.
    Shows(Fact),
}

/// What is asked of an end.
#[derive(Clone, Copy)]
pub(crate) enum Fact {
    /// The end lends these bytes.
    Lent(Outgoing, &'static [u8]),
    /// The end waits so many seconds for its next timeout.
    Waits(Backoff, u16),
    /// The end keeps so many bytes.
    Keeps(Held),
    /// The end reports this.
    Reports(Record),
    /// The sink holds these bytes, and has committed them or not.
    Holds(&'static [u8], bool),
}

/// An opened end, what it sends first and to whom, and what happens then.
#[derive(Clone, Copy)]
pub(crate) struct Scene {
    pub(crate) name: &'static str,
    pub(crate) opening: Opening,
    pub(crate) sends: (&'static [u8], Endpoint),
    pub(crate) events: &'static [Event],
}

/// An end, its file, the step of its opening, and the datagram of its last event.
#[derive(Drop)]
pub(crate) struct OpenEnd {
    end: End,
    files: Files<FaultSource, MemSink>,
    first: Step,
    sent: Vec<u8>,
}

impl Model for OpenEnd {
    ghost use Rattle.std.specs.Prelude.{⊤};
    ghost use Rattle.tftp_ends.specs.Files.{AreFilesOf};

    ghost Value = { ⊤ };

    ghost view = { λ _. tt };

    ghost invariant = { λ e. AreFilesOf e.end.role.side e.files };
}

/// The fault of an end that was not opened: nothing is sent.
fn refused(rt: &impl Abort, fault: OpenFault, sent: &[u8]) -> OpenFault {
    expect(rt, sent.is_empty(), "nothing is sent");
    fault
}

/// An opened client that reads.
fn get(
    rt: &impl Abort,
    alloc: Global,
    name: &[u8],
    mode: Mode,
    asked: &Asked,
    config: &EndConfig,
) -> Result<OpenEnd, OpenFault> {
    let mut sent = Vec::new(alloc);
    match End::get(alloc, SERVER, name, mode, asked, config, &mut sent) {
        Ok((end, first)) => Ok(OpenEnd {
            end,
            files: Files::Sink(MemSink::new(alloc, ROOM, false)),
            first,
            sent,
        }),
        Err(fault) => Err(refused(rt, fault, &sent)),
    }
}

/// An opened client that writes.
fn put(
    rt: &impl Abort,
    alloc: Global,
    asked: &Asked,
    config: &EndConfig,
    length: u64,
    source: FaultSource,
) -> Result<OpenEnd, OpenFault> {
    let mut sent = Vec::new(alloc);
    match End::put(
        alloc,
        SERVER,
        b"n",
        Mode::Octet,
        asked,
        length,
        config,
        &mut sent,
    ) {
        Ok((end, first)) => Ok(OpenEnd {
            end,
            files: Files::Source(source),
            first,
            sent,
        }),
        Err(fault) => Err(refused(rt, fault, &sent)),
    }
}

/// The options agreed for a request, with a file of this length.
fn agreed_of(rt: &impl Abort, request: &[u8], length: u64) -> Agreed {
    let Some(PacketRef::Read(asks)) = decode_packet(request) else {
        panic!(rt; "a request to read");
    };
    accept_ref(&asks.options, Kind::Read, asks.mode, length, &CONFIG.limits).expect(
        rt,
        "the options are answered",
    )
}

/// A server's end that sends.
fn serve_read(
    rt: &impl Abort,
    alloc: Global,
    mode: Mode,
    agreed: &Agreed,
    length: u64,
    source: FaultSource,
) -> Result<OpenEnd, OpenFault> {
    let mut sent = Vec::new(alloc);
    let mut files: Files<FaultSource, MemSink> = Files::Source(source);
    match End::serve_read(
        alloc, &mut files, CLIENT, mode, agreed, length, 5, &mut sent,
    ) {
        Ok((end, first)) => Ok(OpenEnd {
            end,
            files,
            first,
            sent,
        }),
        Err(fault) => Err(refused(rt, fault, &sent)),
    }
}

/// A server's end that receives.
fn serve_write(
    rt: &impl Abort,
    alloc: Global,
    agreed: &Agreed,
    refuses_commit: bool,
) -> Result<OpenEnd, OpenFault> {
    let mut sent = Vec::new(alloc);
    match End::serve_write(alloc, CLIENT, Mode::Octet, agreed, 5, &mut sent) {
        Ok((end, first)) => Ok(OpenEnd {
            end,
            files: Files::Sink(MemSink::new(alloc, ROOM, refuses_commit)),
            first,
            sent,
        }),
        Err(fault) => Err(refused(rt, fault, &sent)),
    }
}

/// A source of these bytes of the file.
fn source_of(rt: &impl Abort, alloc: Global, file: &[u8], mode: Mode, gives: Gives) -> FaultSource {
    FaultSource::new(alloc, file, mode, gives.bytes, gives.then_fails).expect(rt, "memory")
}

/// Opens the end, with a source that gives this of the file. An end that is not opened has sent
/// nothing.
pub(crate) fn open(
    rt: &impl Abort,
    alloc: Global,
    opening: &Opening,
    gives: Gives,
) -> Result<OpenEnd, OpenFault> {
    match *opening {
        Opening::Get(name, mode, asked, config) => get(rt, alloc, name, mode, &asked, &config),
        Opening::Put(length, file, asked, config) => {
            let source = source_of(rt, alloc, file, Mode::Octet, gives);
            put(rt, alloc, &asked, &config, length, source)
        }
        Opening::ServeRead(request, mode, length, file) => {
            let source = source_of(rt, alloc, file, mode, gives);
            let agreed = agreed_of(rt, request, length);
            serve_read(rt, alloc, mode, &agreed, length, source)
        }
        Opening::ServeWrite(request, refuses_commit) => {
            let agreed = agreed_of(rt, request, 0);
            serve_write(rt, alloc, &agreed, refuses_commit)
        }
    }
}

/// An event had the expected result: the end sent the answer to `to`, or nothing if the answer is
/// empty. `event` names the event.
fn is_done(
    rt: &impl Abort,
    event: (&str, &[u8]),
    found: (&[u8], Result<Step, EndFault>),
    answer: &[u8],
    to: Endpoint,
    then: Then,
) {
    let to = if answer.is_empty() { None } else { Some(to) };
    let step = match then {
        Ok((progress, closed)) => Ok(Step {
            to,
            progress,
            closed,
        }),
        Err(fault) => Err(fault),
    };
    expect_equal(rt, &(event, found), &(event, (answer, step)), "an event");
}

impl OpenEnd {
    /// Drops the end. The drop is proved here once instead of in each test.
    pub(crate) fn finish(self) {}

    pub(crate) fn as_end(&self) -> &End {
        &self.end
    }

    /// The datagram of the last event.
    pub(crate) fn sent(&self) -> &[u8] {
        self.sent.as_slice()
    }

    /// Delivers a datagram.
    fn takes(&mut self, from: Endpoint, bytes: &[u8]) -> Result<Step, EndFault> {
        self.sent.clear();
        self.end
            .on_datagram(&mut self.files, from, bytes, &mut self.sent)
    }

    /// Delivers a datagram of a scene, which is answered so.
    pub(crate) fn answers(
        &mut self,
        rt: &impl Abort,
        (scene, bytes): (&str, &[u8]),
        from: Endpoint,
        answer: &[u8],
        then: Then,
    ) {
        let step = self.takes(from, bytes);
        let found = (self.sent.as_slice(), step);
        is_done(rt, (scene, bytes), found, answer, from, then);
    }

    /// Delivers a timeout of a scene, after which the end sends this.
    fn times_out(&mut self, rt: &impl Abort, scene: &str, answer: &[u8], to: Endpoint, then: Then) {
        self.sent.clear();
        let step = self.end.on_timeout(&mut self.sent);
        let found = (self.sent.as_slice(), step);
        is_done(rt, (scene, b"timeout"), found, answer, to, then);
    }

    /// As [`is_done`], of a call that lends the answer.
    fn has_lent(
        &self,
        rt: &impl Abort,
        event: (&str, &[u8]),
        found: Result<(Step, Outgoing), EndFault>,
        answer: &[u8],
        to: Endpoint,
        then: Then,
    ) {
        let found = match found {
            Ok((step, outgoing)) => (self.end.bytes_of(outgoing), Ok(step)),
            Err(fault) => (b"".as_slice(), Err(fault)),
        };
        is_done(rt, event, found, answer, to, then);
    }

    /// Sets the sink to refuse its next call.
    pub(crate) fn set_sink(&mut self) {
        if let Files::Sink(sink) = &mut self.files {
            sink.refuse_next(true);
        }
    }

    /// The sink holds these bytes, and has committed them or not.
    pub(crate) fn holds(&self, rt: &impl Abort, bytes: &[u8], is_committed: bool, scene: &str) {
        let Files::Sink(sink) = &self.files else {
            panic!(rt; "a sink");
        };
        let found = (sink.as_bytes(), sink.is_committed());
        expect_equal(rt, &found, &(bytes, is_committed), scene);
    }

    /// The end is so.
    fn shows(&self, rt: &impl Abort, scene: &str, fact: &Fact) {
        match *fact {
            Fact::Lent(outgoing, bytes) => {
                expect_equal(rt, &self.end.bytes_of(outgoing), &bytes, scene);
            }
            Fact::Waits(backoff, seconds) => {
                let found = backoff.wait(self.end.interval(), self.end.timeouts());
                expect_equal(rt, &found, &seconds, scene);
            }
            Fact::Keeps(held) => expect_equal(rt, &self.end.held(), &held, scene),
            Fact::Reports(record) => {
                let found = (self.end.record(), self.end.outcome());
                expect_equal(rt, &found, &(record, record.outcome), scene);
            }
            Fact::Holds(bytes, is_committed) => self.holds(rt, bytes, is_committed, scene),
        }
    }

    /// Plays one event of a scene.
    fn plays(&mut self, rt: &impl Abort, scene: &str, event: &Event) {
        match *event {
            Event::Arrives(from, bytes, answer, then) => {
                self.answers(rt, (scene, bytes), from, answer, then);
            }
            Event::TimesOut(answer, to, then) => self.times_out(rt, scene, answer, to, then),
            Event::Lends(from, bytes, answer, then) => {
                let found = self.end.handle_datagram(&mut self.files, from, bytes);
                self.has_lent(rt, (scene, bytes), found, answer, from, then);
            }
            Event::LendsAfterTimeout(answer, to, then) => {
                let found = self.end.handle_timeout();
                self.has_lent(rt, (scene, b"timeout"), found, answer, to, then);
            }
            Event::Shows(fact) => self.shows(rt, scene, &fact),
        }
    }
}

/// Plays the scene, and returns its end.
pub(crate) fn play(rt: &impl Abort, alloc: Global, scene: &Scene) -> OpenEnd {
    let mut end = open(rt, alloc, &scene.opening, WHOLE).expect(rt, scene.name);
    let (first, to) = scene.sends;
    let found = (end.sent.as_slice(), Ok(end.first));
    is_done(rt, (scene.name, b"opening"), found, first, to, STAYS);
    for event in scene.events {
        end.plays(rt, scene.name, event);
    }
    end
}

/// Plays each scene.
pub(crate) fn play_each(rt: &impl Abort, alloc: Global, scenes: &[Scene]) {
    for scene in scenes {
        play(rt, alloc, scene).finish();
    }
}

/// Openings that are refused with this fault, each with its name. Nothing is sent.
pub(crate) fn refuses_each(rt: &impl Abort, alloc: Global, refused: &[(&str, Opening, OpenFault)]) {
    for &(name, opening, fault) in refused {
        let found = open(rt, alloc, &opening, WHOLE).err();
        expect_equal(rt, &found, &Some(fault), name);
    }
}

/// Delivers the server's datagram to the client, and the answer to the server. Returns how many
/// datagrams that adds.
pub(crate) fn round(rt: &impl Abort, client: &mut OpenEnd, server: &mut OpenEnd) -> u32 {
    let answer = client.takes(SERVER_END, &server.sent);
    answer.expect(rt, "the client takes it");
    let next = server.takes(CLIENT, &client.sent);
    next.expect(rt, "the server takes it");
    if server.sent.is_empty() { 1 } else { 2 }
}
