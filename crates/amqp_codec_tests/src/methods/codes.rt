//! The reply codes of the standard, with their names, and which are of hard errors.
use crate::showing::{assert_for, assert_same, assert_same_for};
use amqp_method::reply::{is_hard, reply_name};

/// Code, name, and whether it is of a hard error.
static CODES: [(u16, &str, bool); 19] = [
    (200, "reply-success", false),
    (311, "content-too-large", false),
    (312, "no-route", false),
    (313, "no-consumers", false),
    (320, "connection-forced", true),
    (402, "invalid-path", true),
    (403, "access-refused", false),
    (404, "not-found", false),
    (405, "resource-locked", false),
    (406, "precondition-failed", false),
    (501, "frame-error", true),
    (502, "syntax-error", true),
    (503, "command-invalid", true),
    (504, "channel-error", true),
    (505, "unexpected-frame", true),
    (506, "resource-error", true),
    (530, "not-allowed", true),
    (540, "not-implemented", true),
    (541, "internal-error", true),
];

#[test]
fn reply_codes_have_names(rt: HostRuntime) {
    for (code, name, hard) in CODES {
        assert_same(&rt, reply_name(code), Some(name));
        assert_same_for(&rt, is_hard(code), hard, code);
    }
    for code in [0, 199, 310, 407, 500, 542, 65535] {
        assert_same(&rt, reply_name(code), None);
        assert_for(&rt, !is_hard(code), code);
    }
}
