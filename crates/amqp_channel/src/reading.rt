//! What a frame says, as its payload is read once.
ghost use Rattle.std.specs.Prelude.{◌≡◌};
ghost use Rattle.amqp_frame.specs.Frame.{lent};
ghost use Rattle.amqp_model.specs.Wire.Methods.{header_at, method_at};
ghost use Rattle.amqp_model.specs.Wire.Readings.{header_reading, method_reading, reading};
ghost use Rattle.amqp_channel.specs.ReadingView.{reading_view};

use crate::codes::CloseCode;
use amqp_frame::{FrameKind, FrameRef};
use amqp_method::{HeaderRef, MethodFaultKind, MethodRef};

/// What a frame says. It is lent, and takes no memory.
#[derive(Clone, Copy)]
pub enum Reading<'a> {
    Method(MethodRef<'a>),
    /// No method has these ids.
    UnknownMethod,
    MalformedMethod,
    Header(HeaderRef<'a>),
    MalformedHeader,
    Body(&'a [u8]),
    Heartbeat(&'a [u8]),
}

impl<'a> Reading<'a> {
    /// What a whole frame says.
    #[inline(always)]
    pub fn of(frame: FrameRef<'a>) -> Reading<'a>
        ensures { reading_view result ≡ reading (lent frame.entry) }
    {
        match frame.kind {
            FrameKind::Method => Reading::of_method(frame.payload),
            FrameKind::Header => Reading::of_header(frame.payload),
            FrameKind::Body => Reading::Body(frame.payload),
            FrameKind::Heartbeat => Reading::Heartbeat(frame.payload),
        }
    }

    /// What the payload of a method frame says.
    #[inline(always)]
    #[tactic(auto, unfolding(amqp_model::specs::Wire::Methods::method_at))]
    fn of_method(payload: &'a [u8]) -> Reading<'a>
        ensures { reading_view result ≡ method_reading (method_at payload.now) }
    {
        match MethodRef::new(payload) {
            Ok(method) => Reading::Method(method),
            Err(fault) => match fault.kind {
                MethodFaultKind::UnknownMethod => Reading::UnknownMethod,
                MethodFaultKind::OutOfMemory
                | MethodFaultKind::Value(_)
                | MethodFaultKind::Trailing
                | MethodFaultKind::BadWeight
                | MethodFaultKind::BadFlags => Reading::MalformedMethod,
            },
        }
    }

    /// What the payload of a header frame says.
    #[inline(always)]
    #[tactic(auto, unfolding(amqp_model::specs::Wire::Methods::header_at))]
    fn of_header(payload: &'a [u8]) -> Reading<'a>
        ensures { reading_view result ≡ header_reading (header_at payload.now) }
    {
        match HeaderRef::new(payload) {
            Ok(header) => Reading::Header(header),
            Err(_) => Reading::MalformedHeader,
        }
    }
}

/// A method that can't be read.
#[derive(Clone, Copy)]
pub enum Unread {
    /// No method has these ids.
    UnknownMethod,
    MalformedMethod,
}

impl Unread {
    ghost use Rattle.std.specs.Prelude.{◌≡◌};
    ghost use Rattle.amqp_channel.specs.Events.Closes.{code_view};
    ghost use Rattle.amqp_channel.specs.ReadingView.{unread_code};

    /// The code with which it is answered.
    pub fn code(self) -> CloseCode
        ensures { code_view result ≡ unread_code self }
    {
        match self {
            Unread::UnknownMethod => CloseCode::NotImplemented,
            Unread::MalformedMethod => CloseCode::SyntaxError,
        }
    }
}
