ghost use Rattle.std.specs.Prelude.{◌≡◌};

use arrayvec::ArrayVec;
use wire_base::{InstanceId, Spi};

/// What became of a frame: which worker forwarded it, on which path, by which versions of the table, which instances it
/// visited, and its end.
#[derive(Debug, Drop)]
pub struct Record {
    pub worker: u32,
    /// None where no rule put the frame on a path.
    pub path: Option<Spi>,
    /// The versions that its lookups named, in order.
    pub versions: ArrayVec<u64, 63>,
    /// The instances that it visited, in order; the last one may have dropped it.
    pub visits: ArrayVec<InstanceId, 63>,
    pub end: End,
}

/// How a frame's walk ends.
#[derive(Clone, Copy, Debug, PartialEq, Eq)]
pub enum End {
    /// Its path ended: it goes out without its header.
    Egress,
    /// No rule put it on a path: it goes out as it came.
    Bypass,
    Drop(Reason),
}

/// Why a frame was dropped.
#[derive(Clone, Copy, Debug, PartialEq, Eq)]
pub enum Reason {
    /// A rule refused it.
    Rule,
    /// It bore NSH where it came in.
    NshIngress,
    /// Its TTL came to 0.
    Ttl,
    /// No path had its service path identifier.
    NoPath,
    /// The hop of this service index had no instance.
    NoInstance(u8),
    /// The instance denied it.
    Denied(InstanceId),
    /// Its hop limit was spent at the instance.
    HopLimit(InstanceId),
    /// The instance missed metadata.
    Meta(InstanceId),
    /// Its header had no room for the instance's metadata.
    MetaFull(InstanceId),
    /// It was too long for the instance's tag.
    TooLong(InstanceId),
}

impl Record {
    /// The same record. It takes no memory.
    pub fn copy(&self) -> Record
        ensures { result ≡ self.now }
    {
        Record {
            worker: self.worker,
            path: self.path,
            versions: copy_versions(&self.versions),
            visits: copy_visits(&self.visits),
            end: self.end,
        }
    }
}

/// The same versions.
fn copy_versions(versions: &ArrayVec<u64, 63>) -> ArrayVec<u64, 63>
    ensures { result ≡ versions.now }
{
    let mut copy = ArrayVec::new();
    match copy.try_extend_from_slice(versions.as_slice()) {
        Ok(()) => copy,
        Err(_) => unreachable!(),
    }
}

/// The same visits.
fn copy_visits(visits: &ArrayVec<InstanceId, 63>) -> ArrayVec<InstanceId, 63>
    ensures { result ≡ visits.now }
{
    let mut copy = ArrayVec::new();
    match copy.try_extend_from_slice(visits.as_slice()) {
        Ok(()) => copy,
        Err(_) => unreachable!(),
    }
}
