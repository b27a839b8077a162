use control_files::Refusal as ControlRefusal;
use pcap_io::Refusal as CaptureRefusal;

/// How a run over both inputs ends.
#[derive(Clone, Copy, Debug, PartialEq, Eq)]
pub enum RunEnd {
    /// Both inputs were read to their ends.
    Whole,
    /// The capture's refusal is answered.
    Capture(CaptureRefusal),
    /// The control file's refusal is answered.
    Control(ControlRefusal),
}
