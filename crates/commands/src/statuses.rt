ghost use Rattle.std.specs.Prelude.{◌≡◌, ◌+◌, ◌≤◌, ◌++◌, length, decimal};
ghost use Rattle.commands.specs.Statuses.{line_of, number_of, port_text, reason_text, setup_reason_text, control_reason_text, ng_reason_text, refusal_text};

use arrayvec::ArrayString;
use control_files::ControlReason;
use itoa::Buffer;
use pcap_io::CaptureReason;
use pcapng_io::NgReason;
use sfc_config::SetupReason;
use sfc_desk::Port;

/// How a command ends. Each status has a number, with which the program ends, and a line.
#[derive(Clone, Copy, Debug, PartialEq, Eq)]
pub enum Status {
    /// The inputs were read to their ends, and all was written.
    Ok,
    /// The words are no command.
    Words,
    /// A call on this port failed, or there is no such input.
    File(Port),
    /// The setup is refused: the line, counted from 1, or 0 where a part is missing, and why.
    Setup(u64, SetupReason),
    /// The capture is refused: the place of the refused field, and why.
    Capture(u64, CaptureReason),
    /// The control file is refused: the place of the refused field, and why.
    Control(u64, ControlReason),
    /// There was not enough memory.
    Memory,
    /// A line of the records or routes is refused: its number, counted from 1.
    Records(u64),
    /// This input has more bytes than are read of it.
    Long(Port),
    /// The pcapng file is refused: the place of the refused field, and why.
    Pcapng(u64, NgReason),
}

impl Status {
    /// The number with which the program ends.
    pub fn number(&self) -> u8
        ensures { result ≡ number_of self.now }
    {
        match self {
            Status::Ok => 0,
            Status::Words => 2,
            Status::File(_) => 3,
            Status::Setup(_, _) => 4,
            Status::Capture(_, _) => 5,
            Status::Control(_, _) => 6,
            Status::Memory => 7,
            Status::Records(_) => 8,
            Status::Long(_) => 10,
            Status::Pcapng(_, _) => 12,
        }
    }
}

/// A port's word.
fn port_word(port: Port) -> &'static str
    ensures text { result.now ≡ port_text port }
    ensures short { length result.now ≤ 8 }
{
    match port {
        Port::Setup => "setup",
        Port::Capture => "capture",
        Port::Control => "control",
        Port::Records => "records",
        Port::Routes => "routes",
        Port::Source => "source",
        Port::Egress => "egress",
        Port::Lines => "lines",
        Port::Replies => "replies",
        Port::Trace => "trace",
        Port::Made => "made",
        Port::Report => "report",
    }
}

/// The word of a reason of a setup.
fn setup_reason_word(reason: SetupReason) -> &'static str
    ensures text { result.now ≡ setup_reason_text reason }
    ensures short { length result.now ≤ 8 }
{
    match reason {
        SetupReason::Byte => "byte",
        SetupReason::Word => "word",
        SetupReason::Shape => "shape",
        SetupReason::Count => "count",
        SetupReason::Name => "name",
        SetupReason::Twice => "twice",
        SetupReason::Mode => "mode",
        SetupReason::Missing => "missing",
        SetupReason::NoPeer => "no-peer",
    }
}

/// The word of a reason of a control file.
fn control_reason_word(reason: ControlReason) -> &'static str
    ensures text { result.now ≡ control_reason_text reason }
    ensures short { length result.now ≤ 8 }
{
    match reason {
        ControlReason::Kind => "kind",
        ControlReason::Peer => "peer",
        ControlReason::Moment => "moment",
        ControlReason::Position => "position",
        ControlReason::Length => "length",
        ControlReason::Short => "short",
    }
}

/// The word of a reason of a pcapng file.
fn ng_reason_word(reason: NgReason) -> &'static str
    ensures text { result.now ≡ ng_reason_text reason }
    ensures short { length result.now ≤ 10 }
{
    match reason {
        NgReason::Magic => "magic",
        NgReason::Block => "block",
        NgReason::Version => "version",
        NgReason::Option => "option",
        NgReason::Resolution => "resolution",
        NgReason::Interface => "interface",
        NgReason::Length => "length",
        NgReason::Original => "original",
        NgReason::Time => "time",
        NgReason::Short => "short",
    }
}

/// The word of a reason of a capture.
fn reason_word(reason: CaptureReason) -> &'static str
    ensures text { result.now ≡ reason_text reason }
    ensures short { length result.now ≤ 8 }
{
    match reason {
        CaptureReason::Magic => "magic",
        CaptureReason::Version => "version",
        CaptureReason::Link => "link",
        CaptureReason::Length => "length",
        CaptureReason::Original => "original",
        CaptureReason::Time => "time",
        CaptureReason::Short => "short",
    }
}

/// Appends a text that fits.
fn add(line: &mut ArrayString<64>, text: &str)
    requires { length line.old.bytes + length text.now ≤ 64 }
    ensures { line.new.bytes ≡ line.old.bytes ++ text.now }
{
    line.push_str(text);
}

/// Appends a number.
fn add_number(line: &mut ArrayString<64>, number: u64)
    requires { length line.old.bytes ≤ 32 }
    ensures text { line.new.bytes ≡ line.old.bytes ++ decimal number }
    ensures short { length line.new.bytes ≤ length line.old.bytes + 20 }
{
    let mut buffer = Buffer::new();
    add(line, buffer.format(number));
}

/// Appends a word, a place or a line, and the word of a reason.
fn add_refusal(line: &mut ArrayString<64>, word: &str, place: u64, reason: &str)
    requires empty { length line.old.bytes ≡ 0 }
    requires word { length word.now ≤ 8 }
    requires reason { length reason.now ≤ 10 }
    ensures { line.new.bytes ≡ refusal_text word.now place reason.now }
{
    add(line, word);
    add(line, " ");
    add_number(line, place);
    add(line, " ");
    add(line, reason);
}

/// The status as a line, without its end: its word, and what it names, in lower case.
pub fn status_line(status: &Status) -> ArrayString<64>
    ensures { result.bytes ≡ line_of status.now }
{
    let mut line = ArrayString::new();
    match status {
        Status::Ok => add(&mut line, "ok"),
        Status::Words => add(&mut line, "words"),
        Status::File(port) => {
            add(&mut line, "file ");
            add(&mut line, port_word(*port));
        }
        Status::Setup(number, reason) => {
            add_refusal(&mut line, "setup", *number, setup_reason_word(*reason));
        }
        Status::Capture(place, reason) => {
            add_refusal(&mut line, "capture", *place, reason_word(*reason));
        }
        Status::Control(place, reason) => {
            add_refusal(&mut line, "control", *place, control_reason_word(*reason));
        }
        Status::Memory => add(&mut line, "memory"),
        Status::Records(number) => {
            add(&mut line, "records ");
            add_number(&mut line, *number);
        }
        Status::Long(port) => {
            add(&mut line, "long ");
            add(&mut line, port_word(*port));
        }
        Status::Pcapng(place, reason) => {
            add_refusal(&mut line, "pcapng", *place, ng_reason_word(*reason));
        }
    }
    line
}
