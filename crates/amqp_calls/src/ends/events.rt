//! Events as C reads them.

/// An event as it crosses to C: its kind, and what an event of that kind has.
///
/// Of a message, `method` and `header` are the payloads of its frames, and `body` its body; `holds` says whether
/// there is a content. Of a close, `holds` says whether it was the other end's, with `code` and `text`. Of a flow
/// `holds` says whether contents may be sent. Of a content that is lent, `method`, `header` or `body` is what came with
/// the frame, and `holds` says whether the content is whole with it.
#[repr(C)]
#[derive(Clone, Copy)]
pub struct SeenEvent<'a> {
    pub method: &'a [u8],
    pub header: &'a [u8],
    pub body: &'a [u8],
    pub text: &'a [u8],
    pub frame_max: u32,
    pub channel: u16,
    pub channel_max: u16,
    pub heartbeat: u16,
    pub code: u16,
    pub kind: u8,
    pub holds: bool,
}
