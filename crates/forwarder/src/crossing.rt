use crate::frames_in::FrameIn;
use crate::gates::OpenGate;
use crate::workspaces::Workspace;

fn crosses<T: Send + Sync + Drop>() {}

/// Shows that the types of this crate may be handed to and shared with threads, as soon as it compiles.
pub fn types_cross_threads() {
    crosses::<FrameIn>();
    crosses::<OpenGate>();
    crosses::<Workspace>();
}
