/// A frame as it comes in: its captured bytes, at most 262,144, and its length on the wire, at least as many and at most
/// 2,147,483,647.
#[derive(Clone, Copy, Debug)]
pub struct FrameIn<'a> {
    pub bytes: &'a [u8],
    pub original: u32,
}
