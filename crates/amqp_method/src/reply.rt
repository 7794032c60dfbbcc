//! The reply codes of a close, and of a message that is returned (`amqp0-9-1.xml`, constants).
ghost use Rattle.std.specs.Prelude.{◌≡◌, None, Some, MatchOption};
ghost use Rattle.amqp_method.specs.Replies.{reply_rows, name_in, hard_in};

/// All went well.
pub const REPLY_SUCCESS: u16 = 200;

/// A content is larger than the other end takes.
pub const CONTENT_TOO_LARGE: u16 = 311;

/// A mandatory message can't be routed: RabbitMQ's code.
pub const NO_ROUTE: u16 = 312;

/// An immediate message has no consumer.
pub const NO_CONSUMERS: u16 = 313;

/// An operator closes the connection.
pub const CONNECTION_FORCED: u16 = 320;

/// The virtual host is unknown.
pub const INVALID_PATH: u16 = 402;

/// The client may not work with this.
pub const ACCESS_REFUSED: u16 = 403;

/// There is no such thing.
pub const NOT_FOUND: u16 = 404;

/// Another client works with it.
pub const RESOURCE_LOCKED: u16 = 405;

/// What has to hold before doesn't.
pub const PRECONDITION_FAILED: u16 = 406;

/// A frame can't be read.
pub const FRAME_ERROR: u16 = 501;

/// A field can't be read.
pub const SYNTAX_ERROR: u16 = 502;

/// The method is not one for this moment.
pub const COMMAND_INVALID: u16 = 503;

/// The channel is not open, or is open already.
pub const CHANNEL_ERROR: u16 = 504;

/// The frame is not one for this moment.
pub const UNEXPECTED_FRAME: u16 = 505;

/// The server lacks resources.
pub const RESOURCE_ERROR: u16 = 506;

/// The client may not do this, whatever the resource.
pub const NOT_ALLOWED: u16 = 530;

/// The server doesn't do this.
pub const NOT_IMPLEMENTED: u16 = 540;

/// The server has failed.
pub const INTERNAL_ERROR: u16 = 541;

/// The name of a reply code in the standard, as `not-found`.
pub fn reply_name(code: u16) -> Option<&'static str>
    ensures { MatchOption result (name_in reply_rows code ≡ None) (λ name. name_in reply_rows code ≡ Some name.now) }
{
    match code {
        REPLY_SUCCESS => Some("reply-success"),
        CONTENT_TOO_LARGE => Some("content-too-large"),
        NO_ROUTE => Some("no-route"),
        NO_CONSUMERS => Some("no-consumers"),
        CONNECTION_FORCED => Some("connection-forced"),
        INVALID_PATH => Some("invalid-path"),
        ACCESS_REFUSED => Some("access-refused"),
        NOT_FOUND => Some("not-found"),
        RESOURCE_LOCKED => Some("resource-locked"),
        PRECONDITION_FAILED => Some("precondition-failed"),
        FRAME_ERROR => Some("frame-error"),
        SYNTAX_ERROR => Some("syntax-error"),
        COMMAND_INVALID => Some("command-invalid"),
        CHANNEL_ERROR => Some("channel-error"),
        UNEXPECTED_FRAME => Some("unexpected-frame"),
        RESOURCE_ERROR => Some("resource-error"),
        NOT_ALLOWED => Some("not-allowed"),
        NOT_IMPLEMENTED => Some("not-implemented"),
        INTERNAL_ERROR => Some("internal-error"),
        _ => None,
    }
}

/// Whether a reply code is of a hard error, which closes the connection. A soft error closes the channel alone.
pub fn is_hard(code: u16) -> bool
    ensures { result ≡ hard_in reply_rows code }
{
    matches!(
        code,
        CONNECTION_FORCED
            | INVALID_PATH
            | FRAME_ERROR
            | SYNTAX_ERROR
            | COMMAND_INVALID
            | CHANNEL_ERROR
            | UNEXPECTED_FRAME
            | RESOURCE_ERROR
            | NOT_ALLOWED
            | NOT_IMPLEMENTED
            | INTERNAL_ERROR
    )
}
