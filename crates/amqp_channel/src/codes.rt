//! The codes with which an end closes of itself (AMQP 0-9-1 specification, `amqp0-9-1.xml`, the constants with reply codes).
ghost use Rattle.std.specs.Prelude.{◌≡◌, Some};
ghost use Rattle.amqp_model.specs.End.Closes.{number_of, text_of};
ghost use Rattle.amqp_channel.specs.Events.Closes.{code_view};

use std::fmt;

/// The codes with which an end closes of itself.
#[derive(Clone, Copy, PartialEq, Eq, Debug)]
pub enum CloseCode {
    ContentTooLarge,
    FrameError,
    SyntaxError,
    CommandInvalid,
    ChannelError,
    UnexpectedFrame,
    ResourceError,
    NotImplemented,
}

impl CloseCode {
    /// The reply code.
    pub fn number(self) -> u16
        ensures { result ≡ number_of (code_view self) }
    {
        match self {
            CloseCode::ContentTooLarge => 311,
            CloseCode::FrameError => 501,
            CloseCode::SyntaxError => 502,
            CloseCode::CommandInvalid => 503,
            CloseCode::ChannelError => 504,
            CloseCode::UnexpectedFrame => 505,
            CloseCode::ResourceError => 506,
            CloseCode::NotImplemented => 540,
        }
    }

    /// The reply text.
    pub fn text(self) -> &'static str
        ensures { result.now ≡ text_of (code_view self) }
    {
        match self {
            CloseCode::ContentTooLarge => "content-too-large",
            CloseCode::FrameError => "frame-error",
            CloseCode::SyntaxError => "syntax-error",
            CloseCode::CommandInvalid => "command-invalid",
            CloseCode::ChannelError => "channel-error",
            CloseCode::UnexpectedFrame => "unexpected-frame",
            CloseCode::ResourceError => "resource-error",
            CloseCode::NotImplemented => "not-implemented",
        }
    }
}

/// Prints the reply text.
impl fmt::Display for CloseCode {
    ghost output = { λ code. Some (text_of (code_view code)) };

    fn fmt<W: fmt::Write>(&self, f: &mut fmt::Formatter<W>) -> fmt::Result {
        match self {
            CloseCode::ContentTooLarge => write!(f, "content-too-large"),
            CloseCode::FrameError => write!(f, "frame-error"),
            CloseCode::SyntaxError => write!(f, "syntax-error"),
            CloseCode::CommandInvalid => write!(f, "command-invalid"),
            CloseCode::ChannelError => write!(f, "channel-error"),
            CloseCode::UnexpectedFrame => write!(f, "unexpected-frame"),
            CloseCode::ResourceError => write!(f, "resource-error"),
            CloseCode::NotImplemented => write!(f, "not-implemented"),
        }
    }
}
