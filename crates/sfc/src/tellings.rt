//! What the user reads on standard error: the status as a line, and behind it a line in words.

use sfc_desk::{FileDesk, Port};
use sfc_program::{CaptureReason, ControlReason, NgReason, SetupReason, Status, status_line};
use std::fs::Files;
use std::io::Eprint;

/// What a user calls the port: the name that it was given, or standard output.
fn called<'a, R: Files, O>(desk: Option<&'a FileDesk<R, O>>, port: Port) -> &'a str {
    if port == Port::Report {
        return "standard output";
    }
    let Some(desk) = desk else {
        return "a file";
    };
    match desk.name(port) {
        Some(name) => name,
        None => "a file",
    }
}

/// Tells why a call on the port failed.
fn tell_fault<R: Files + Eprint, O>(rt: &R, desk: Option<&FileDesk<R, O>>, port: Port) {
    let Some(open) = desk else {
        return;
    };
    if let Some(reason) = open.reason(port) {
        let _ = eprintln!(rt; "sfc: {}: {}", called(desk, port), reason);
    }
}

/// Why a setup is refused, and what can be done.
fn setup_words(reason: SetupReason) -> &'static str {
    match reason {
        SetupReason::Byte => "a byte that is no printable one",
        SetupReason::Word => "its first word begins no statement",
        SetupReason::Shape => "its words do not fit the statement",
        SetupReason::Count => "one more of these than a setup may have",
        SetupReason::Name => "a name that no line above declares",
        SetupReason::Twice => "what a line above has said already",
        SetupReason::Mode => "a proxy cannot have a function on metadata; make it aware",
        SetupReason::Missing => "a setup needs a local, a forwarder and an ingress line",
        SetupReason::NoPeer => "no peer line has this number",
    }
}

/// Why a control file is refused.
fn control_words(reason: ControlReason) -> &'static str {
    match reason {
        ControlReason::Kind => "a segment's kind is not 1, 2 or 3",
        ControlReason::Peer => "no peer line of the setup has this number",
        ControlReason::Moment => "a moment lies before that of the segment before",
        ControlReason::Position => "a position lies before that of the segment before",
        ControlReason::Length =>
            "a segment has more than 65535 bytes, or bytes where it may have none",
        ControlReason::Short => "it ends in a segment",
    }
}

/// Why a pcapng file is refused, and what can be done.
fn ng_words(reason: NgReason) -> &'static str {
    match reason {
        NgReason::Magic => "it is no pcapng file, or a section of it has no mark of a byte order",
        NgReason::Block => "a block's length is wrong, or above 1048576 bytes",
        NgReason::Version => "a section is of another major version than 1",
        NgReason::Option => "an option of an interface runs past its block, or has a wrong length",
        NgReason::Resolution => "an interface counts its time in parts that are too small",
        NgReason::Interface =>
            "an interface that its section does not describe, or more than 1024 of them",
        NgReason::Length =>
            "a frame of more than 262144 bytes, or more than its block holds; editcap -s cuts frames",
        NgReason::Original =>
            "a frame was shorter than what is kept of it, or longer than 2147483647 bytes",
        NgReason::Time => "a frame's time lies before 1970 or after 2106",
        NgReason::Short => "it ends in a block; the frames before are written",
    }
}

/// Why a capture is refused, and what can be done.
fn refused_words(reason: CaptureReason) -> &'static str {
    match reason {
        CaptureReason::Magic => "it is no pcap file; from-pcapng makes one of a pcapng file",
        CaptureReason::Version =>
            "it is of another version than 2.4; editcap -F pcap writes one of 2.4",
        CaptureReason::Link => "its link type is not Ethernet",
        CaptureReason::Length => "a frame of more than 262144 bytes; editcap -s cuts frames",
        CaptureReason::Original =>
            "a frame was shorter than what is kept of it, or longer than 2147483647 bytes",
        CaptureReason::Time => "a frame's time lies past what a pcapng file tells in seconds",
        CaptureReason::Short =>
            "it ends in its header or in a frame; the frames before are written",
    }
}

/// Tells a status that is not Ok, and in words what is wrong or what can be done.
pub(crate) fn tell<R: Files + Eprint, O>(rt: &R, status: &Status, desk: Option<&FileDesk<R, O>>) {
    if *status == Status::Ok {
        return;
    }
    let line = status_line(status);
    let _ = eprintln!(rt; "sfc: {}", line.as_str());
    match status {
        Status::Ok => {}
        Status::Words => {
            let _ = eprintln!(rt; "sfc: these words are no command; --help lists the commands");
        }
        Status::File(port) => tell_fault(rt, desk, *port),
        Status::Capture(place, reason) => {
            let name = called(desk, Port::Capture);
            let _ = eprintln!(rt;
                "sfc: {} is refused at byte {}: {}",
                name,
                place,
                refused_words(*reason)
            );
        }
        Status::Setup(0, reason) => {
            let name = called(desk, Port::Setup);
            let _ = eprintln!(rt; "sfc: {} is refused: {}", name, setup_words(*reason));
        }
        Status::Setup(number, reason) => {
            let name = called(desk, Port::Setup);
            let _ = eprintln!(rt;
                "sfc: line {} of {} is refused: {}",
                number,
                name,
                setup_words(*reason)
            );
        }
        Status::Control(place, reason) => {
            let name = called(desk, Port::Control);
            let _ = eprintln!(rt;
                "sfc: {} is refused at byte {}: {}",
                name,
                place,
                control_words(*reason)
            );
        }
        Status::Records(number) => {
            let name = called(desk, Port::Routes);
            let _ = eprintln!(rt; "sfc: line {} of {} is refused", number, name);
        }
        Status::Pcapng(place, reason) => {
            let name = called(desk, Port::Source);
            let _ = eprintln!(rt;
                "sfc: {} is refused at byte {}: {}",
                name,
                place,
                ng_words(*reason)
            );
        }
        Status::Memory => {
            let _ = eprintln!(rt;
                "sfc: there was not enough memory; free some, or give a smaller input"
            );
        }
        Status::Long(port) => {
            let name = called(desk, *port);
            let _ = eprintln!(rt;
                "sfc: {} has more bytes than are read of one input; give it in parts",
                name
            );
        }
    }
}
