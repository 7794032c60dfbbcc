//! What comes of every kind of frame in every state of an end, written from the rules of the profile
//! (`docs/PROTOCOL.md`).

/// How many words a row has: name, channel, octets, and one for each state.
pub(crate) const WORDS: usize = 18;

/// A row has the frame's name, its channel and its octets: a method whose fields are all 0 or empty, a header of a body
/// of two octets, that body, or a heartbeat. On its second line stands what comes of it at a server, on its third what
/// comes of it at a client, state by state: the code of a fault, the first word of an event, or `-`.
pub(crate) static ROWS: &str = "
    connection.start 0 01000000000012000a000a0000000000000000000000000000ce
        503 503 503 503 503 503 discarded
        quiet 503 503 503 503 503 503 discarded
    connection.start 1 01000100000012000a000a0000000000000000000000000000ce
        503 503 503 503 503 discarded discarded
        503 503 503 503 503 503 discarded discarded
    connection.start-ok 0 0100000000000e000a000b00000000000000000000ce
        quiet 503 503 503 503 503 discarded
        503 503 503 503 503 503 503 discarded
    connection.start-ok 1 0100010000000e000a000b00000000000000000000ce
        503 503 503 503 503 discarded discarded
        503 503 503 503 503 503 discarded discarded
    connection.secure 0 01000000000008000a001400000000ce
        503 503 503 503 503 503 discarded
        540 540 540 540 540 540 540 discarded
    connection.secure 1 01000100000008000a001400000000ce
        503 503 503 503 503 discarded discarded
        503 503 503 503 503 503 discarded discarded
    connection.secure-ok 0 01000000000008000a001500000000ce
        503 503 503 503 503 503 discarded
        503 503 503 503 503 503 503 discarded
    connection.secure-ok 1 01000100000008000a001500000000ce
        503 503 503 503 503 discarded discarded
        503 503 503 503 503 503 discarded discarded
    connection.tune 0 0100000000000c000a001e0000000000000000ce
        503 503 503 503 503 503 discarded
        503 503 503 503 503 503 503 discarded
    connection.tune 1 0100010000000c000a001e0000000000000000ce
        503 503 503 503 503 discarded discarded
        503 503 503 503 503 503 discarded discarded
    connection.tune-ok 0 0100000000000c000a001f0000000000000000ce
        503 503 503 503 503 503 discarded
        503 503 503 503 503 503 503 discarded
    connection.tune-ok 1 0100010000000c000a001f0000000000000000ce
        503 503 503 503 503 discarded discarded
        503 503 503 503 503 503 discarded discarded
    connection.open 0 01000000000007000a0028000000ce
        503 503 503 503 503 503 discarded
        503 503 503 503 503 503 503 discarded
    connection.open 1 01000100000007000a0028000000ce
        503 503 503 503 503 discarded discarded
        503 503 503 503 503 503 discarded discarded
    connection.open-ok 0 01000000000005000a002900ce
        503 503 503 503 503 503 discarded
        503 503 503 503 503 503 503 discarded
    connection.open-ok 1 01000100000005000a002900ce
        503 503 503 503 503 discarded discarded
        503 503 503 503 503 503 discarded discarded
    connection.close 0 0100000000000b000a003200000000000000ce
        connection-closed connection-closed connection-closed connection-closed connection-closed connection-closed quiet
        connection-closed connection-closed connection-closed connection-closed connection-closed connection-closed connection-closed quiet
    connection.close 1 0100010000000b000a003200000000000000ce
        503 503 503 503 503 discarded discarded
        503 503 503 503 503 503 discarded discarded
    connection.close-ok 0 01000000000004000a0033ce
        503 503 503 503 503 503 connection-closed
        503 503 503 503 503 503 503 connection-closed
    connection.close-ok 1 01000100000004000a0033ce
        503 503 503 503 503 discarded discarded
        503 503 503 503 503 503 discarded discarded
    connection.blocked 0 01000000000005000a003c00ce
        503 503 503 503 503 503 discarded
        503 blocked blocked blocked blocked blocked blocked discarded
    connection.blocked 1 01000100000005000a003c00ce
        503 503 503 503 503 discarded discarded
        503 503 503 503 503 503 discarded discarded
    connection.unblocked 0 01000000000004000a003dce
        503 503 503 503 503 503 discarded
        503 unblocked unblocked unblocked unblocked unblocked unblocked discarded
    connection.unblocked 1 01000100000004000a003dce
        503 503 503 503 503 discarded discarded
        503 503 503 503 503 503 discarded discarded
    channel.open 0 010000000000050014000a00ce
        503 504 504 504 504 504 discarded
        503 503 503 503 503 503 503 discarded
    channel.open 1 010001000000050014000a00ce
        503 opened 504 505 505 discarded discarded
        503 503 503 503 503 503 discarded discarded
    channel.open-ok 0 010000000000080014000b00000000ce
        503 503 503 503 503 503 discarded
        503 504 504 504 504 504 504 discarded
    channel.open-ok 1 010001000000080014000b00000000ce
        503 503 503 503 503 discarded discarded
        503 504 opened 503 505 505 discarded discarded
    channel.flow 0 010000000000050014001400ce
        503 504 504 504 504 504 discarded
        503 504 504 504 504 504 504 discarded
    channel.flow 1 010001000000050014001400ce
        503 504 flow 505 505 discarded discarded
        503 504 504 flow 505 505 discarded discarded
    channel.flow-ok 0 010000000000050014001500ce
        503 504 504 504 504 504 discarded
        503 504 504 504 504 504 504 discarded
    channel.flow-ok 1 010001000000050014001500ce
        503 504 503 505 505 discarded discarded
        503 504 504 503 505 505 discarded discarded
    channel.close 0 0100000000000b0014002800000000000000ce
        503 504 504 504 504 504 discarded
        503 504 504 504 504 504 504 discarded
    channel.close 1 0100010000000b0014002800000000000000ce
        503 504 channel-closed channel-closed channel-closed quiet discarded
        503 504 channel-closed channel-closed channel-closed channel-closed quiet discarded
    channel.close-ok 0 0100000000000400140029ce
        503 504 504 504 504 504 discarded
        503 504 504 504 504 504 504 discarded
    channel.close-ok 1 0100010000000400140029ce
        503 504 503 505 505 channel-closed discarded
        503 504 504 503 505 505 channel-closed discarded
    exchange.declare 0 0100000000000d0028000a000000000000000000ce
        503 504 504 504 504 504 discarded
        503 503 503 503 503 503 503 discarded
    exchange.declare 1 0100010000000d0028000a000000000000000000ce
        503 504 told 505 505 discarded discarded
        503 503 503 503 503 503 discarded discarded
    exchange.declare-ok 0 010000000000040028000bce
        503 503 503 503 503 503 discarded
        503 504 504 504 504 504 504 discarded
    exchange.declare-ok 1 010001000000040028000bce
        503 503 503 503 503 discarded discarded
        503 504 504 503 505 505 discarded discarded
    exchange.delete 0 010000000000080028001400000000ce
        503 504 504 504 504 504 discarded
        503 503 503 503 503 503 503 discarded
    exchange.delete 1 010001000000080028001400000000ce
        503 504 told 505 505 discarded discarded
        503 503 503 503 503 503 discarded discarded
    exchange.delete-ok 0 0100000000000400280015ce
        503 503 503 503 503 503 discarded
        503 504 504 504 504 504 504 discarded
    exchange.delete-ok 1 0100010000000400280015ce
        503 503 503 503 503 discarded discarded
        503 504 504 503 505 505 discarded discarded
    exchange.bind 0 0100000000000e0028001e00000000000000000000ce
        503 504 504 504 504 504 discarded
        503 503 503 503 503 503 503 discarded
    exchange.bind 1 0100010000000e0028001e00000000000000000000ce
        503 504 told 505 505 discarded discarded
        503 503 503 503 503 503 discarded discarded
    exchange.bind-ok 0 010000000000040028001fce
        503 503 503 503 503 503 discarded
        503 504 504 504 504 504 504 discarded
    exchange.bind-ok 1 010001000000040028001fce
        503 503 503 503 503 discarded discarded
        503 504 504 503 505 505 discarded discarded
    exchange.unbind 0 0100000000000e0028002800000000000000000000ce
        503 504 504 504 504 504 discarded
        503 503 503 503 503 503 503 discarded
    exchange.unbind 1 0100010000000e0028002800000000000000000000ce
        503 504 told 505 505 discarded discarded
        503 503 503 503 503 503 discarded discarded
    exchange.unbind-ok 0 0100000000000400280033ce
        503 503 503 503 503 503 discarded
        503 504 504 504 504 504 504 discarded
    exchange.unbind-ok 1 0100010000000400280033ce
        503 503 503 503 503 discarded discarded
        503 504 504 503 505 505 discarded discarded
    queue.declare 0 0100000000000c0032000a0000000000000000ce
        503 504 504 504 504 504 discarded
        503 503 503 503 503 503 503 discarded
    queue.declare 1 0100010000000c0032000a0000000000000000ce
        503 504 told 505 505 discarded discarded
        503 503 503 503 503 503 discarded discarded
    queue.declare-ok 0 0100000000000d0032000b000000000000000000ce
        503 503 503 503 503 503 discarded
        503 504 504 504 504 504 504 discarded
    queue.declare-ok 1 0100010000000d0032000b000000000000000000ce
        503 503 503 503 503 discarded discarded
        503 504 504 503 505 505 discarded discarded
    queue.bind 0 0100000000000e0032001400000000000000000000ce
        503 504 504 504 504 504 discarded
        503 503 503 503 503 503 503 discarded
    queue.bind 1 0100010000000e0032001400000000000000000000ce
        503 504 told 505 505 discarded discarded
        503 503 503 503 503 503 discarded discarded
    queue.bind-ok 0 0100000000000400320015ce
        503 503 503 503 503 503 discarded
        503 504 504 504 504 504 504 discarded
    queue.bind-ok 1 0100010000000400320015ce
        503 503 503 503 503 discarded discarded
        503 504 504 503 505 505 discarded discarded
    queue.unbind 0 0100000000000d00320032000000000000000000ce
        503 504 504 504 504 504 discarded
        503 503 503 503 503 503 503 discarded
    queue.unbind 1 0100010000000d00320032000000000000000000ce
        503 504 told 505 505 discarded discarded
        503 503 503 503 503 503 discarded discarded
    queue.unbind-ok 0 0100000000000400320033ce
        503 503 503 503 503 503 discarded
        503 504 504 504 504 504 504 discarded
    queue.unbind-ok 1 0100010000000400320033ce
        503 503 503 503 503 discarded discarded
        503 504 504 503 505 505 discarded discarded
    queue.purge 0 010000000000080032001e00000000ce
        503 504 504 504 504 504 discarded
        503 503 503 503 503 503 503 discarded
    queue.purge 1 010001000000080032001e00000000ce
        503 504 told 505 505 discarded discarded
        503 503 503 503 503 503 discarded discarded
    queue.purge-ok 0 010000000000080032001f00000000ce
        503 503 503 503 503 503 discarded
        503 504 504 504 504 504 504 discarded
    queue.purge-ok 1 010001000000080032001f00000000ce
        503 503 503 503 503 discarded discarded
        503 504 504 503 505 505 discarded discarded
    queue.delete 0 010000000000080032002800000000ce
        503 504 504 504 504 504 discarded
        503 503 503 503 503 503 503 discarded
    queue.delete 1 010001000000080032002800000000ce
        503 504 told 505 505 discarded discarded
        503 503 503 503 503 503 discarded discarded
    queue.delete-ok 0 010000000000080032002900000000ce
        503 503 503 503 503 503 discarded
        503 504 504 504 504 504 504 discarded
    queue.delete-ok 1 010001000000080032002900000000ce
        503 503 503 503 503 discarded discarded
        503 504 504 503 505 505 discarded discarded
    basic.qos 0 0100000000000b003c000a00000000000000ce
        503 504 504 504 504 504 discarded
        503 503 503 503 503 503 503 discarded
    basic.qos 1 0100010000000b003c000a00000000000000ce
        503 504 told 505 505 discarded discarded
        503 503 503 503 503 503 discarded discarded
    basic.qos-ok 0 01000000000004003c000bce
        503 503 503 503 503 503 discarded
        503 504 504 504 504 504 504 discarded
    basic.qos-ok 1 01000100000004003c000bce
        503 503 503 503 503 discarded discarded
        503 504 504 503 505 505 discarded discarded
    basic.consume 0 0100000000000d003c0014000000000000000000ce
        503 504 504 504 504 504 discarded
        503 503 503 503 503 503 503 discarded
    basic.consume 1 0100010000000d003c0014000000000000000000ce
        503 504 told 505 505 discarded discarded
        503 503 503 503 503 503 discarded discarded
    basic.consume-ok 0 01000000000005003c001500ce
        503 503 503 503 503 503 discarded
        503 504 504 504 504 504 504 discarded
    basic.consume-ok 1 01000100000005003c001500ce
        503 503 503 503 503 discarded discarded
        503 504 504 503 505 505 discarded discarded
    basic.cancel 0 01000000000006003c001e0000ce
        503 504 504 504 504 504 discarded
        503 504 504 504 504 504 504 discarded
    basic.cancel 1 01000100000006003c001e0000ce
        503 504 told 505 505 discarded discarded
        503 504 504 told 505 505 discarded discarded
    basic.cancel-ok 0 01000000000005003c001f00ce
        503 504 504 504 504 504 discarded
        503 504 504 504 504 504 504 discarded
    basic.cancel-ok 1 01000100000005003c001f00ce
        503 504 told 505 505 discarded discarded
        503 504 504 503 505 505 discarded discarded
    basic.publish 0 01000000000009003c00280000000000ce
        503 504 504 504 504 504 discarded
        503 503 503 503 503 503 503 discarded
    basic.publish 1 01000100000009003c00280000000000ce
        503 504 - 505 505 discarded discarded
        503 503 503 503 503 503 discarded discarded
    basic.return 0 01000000000009003c00320000000000ce
        503 503 503 503 503 503 discarded
        503 504 504 504 504 504 504 discarded
    basic.return 1 01000100000009003c00320000000000ce
        503 503 503 503 503 discarded discarded
        503 504 504 - 505 505 discarded discarded
    basic.deliver 0 01000000000010003c003c000000000000000000000000ce
        503 503 503 503 503 503 discarded
        503 504 504 504 504 504 504 discarded
    basic.deliver 1 01000100000010003c003c000000000000000000000000ce
        503 503 503 503 503 discarded discarded
        503 504 504 - 505 505 discarded discarded
    basic.get 0 01000000000008003c004600000000ce
        503 504 504 504 504 504 discarded
        503 503 503 503 503 503 503 discarded
    basic.get 1 01000100000008003c004600000000ce
        503 504 told 505 505 discarded discarded
        503 503 503 503 503 503 discarded discarded
    basic.get-ok 0 01000000000013003c0047000000000000000000000000000000ce
        503 503 503 503 503 503 discarded
        503 504 504 504 504 504 504 discarded
    basic.get-ok 1 01000100000013003c0047000000000000000000000000000000ce
        503 503 503 503 503 discarded discarded
        503 504 504 503 505 505 discarded discarded
    basic.get-empty 0 01000000000005003c004800ce
        503 503 503 503 503 503 discarded
        503 504 504 504 504 504 504 discarded
    basic.get-empty 1 01000100000005003c004800ce
        503 503 503 503 503 discarded discarded
        503 504 504 503 505 505 discarded discarded
    basic.ack 0 0100000000000d003c0050000000000000000000ce
        503 504 504 504 504 504 discarded
        503 504 504 504 504 504 504 discarded
    basic.ack 1 0100010000000d003c0050000000000000000000ce
        503 504 told 505 505 discarded discarded
        503 504 504 told 505 505 discarded discarded
    basic.reject 0 0100000000000d003c005a000000000000000000ce
        503 504 504 504 504 504 discarded
        503 503 503 503 503 503 503 discarded
    basic.reject 1 0100010000000d003c005a000000000000000000ce
        503 504 told 505 505 discarded discarded
        503 503 503 503 503 503 discarded discarded
    basic.recover-async 0 01000000000005003c006400ce
        503 504 504 504 504 504 discarded
        503 503 503 503 503 503 503 discarded
    basic.recover-async 1 01000100000005003c006400ce
        503 504 told 505 505 discarded discarded
        503 503 503 503 503 503 discarded discarded
    basic.recover 0 01000000000005003c006e00ce
        503 504 504 504 504 504 discarded
        503 503 503 503 503 503 503 discarded
    basic.recover 1 01000100000005003c006e00ce
        503 504 told 505 505 discarded discarded
        503 503 503 503 503 503 discarded discarded
    basic.recover-ok 0 01000000000004003c006fce
        503 503 503 503 503 503 discarded
        503 504 504 504 504 504 504 discarded
    basic.recover-ok 1 01000100000004003c006fce
        503 503 503 503 503 discarded discarded
        503 504 504 503 505 505 discarded discarded
    basic.nack 0 0100000000000d003c0078000000000000000000ce
        503 504 504 504 504 504 discarded
        503 504 504 504 504 504 504 discarded
    basic.nack 1 0100010000000d003c0078000000000000000000ce
        503 504 told 505 505 discarded discarded
        503 504 504 told 505 505 discarded discarded
    tx.select 0 01000000000004005a000ace
        503 504 504 504 504 504 discarded
        503 503 503 503 503 503 503 discarded
    tx.select 1 01000100000004005a000ace
        503 504 told 505 505 discarded discarded
        503 503 503 503 503 503 discarded discarded
    tx.select-ok 0 01000000000004005a000bce
        503 503 503 503 503 503 discarded
        503 504 504 504 504 504 504 discarded
    tx.select-ok 1 01000100000004005a000bce
        503 503 503 503 503 discarded discarded
        503 504 504 503 505 505 discarded discarded
    tx.commit 0 01000000000004005a0014ce
        503 504 504 504 504 504 discarded
        503 503 503 503 503 503 503 discarded
    tx.commit 1 01000100000004005a0014ce
        503 504 told 505 505 discarded discarded
        503 503 503 503 503 503 discarded discarded
    tx.commit-ok 0 01000000000004005a0015ce
        503 503 503 503 503 503 discarded
        503 504 504 504 504 504 504 discarded
    tx.commit-ok 1 01000100000004005a0015ce
        503 503 503 503 503 discarded discarded
        503 504 504 503 505 505 discarded discarded
    tx.rollback 0 01000000000004005a001ece
        503 504 504 504 504 504 discarded
        503 503 503 503 503 503 503 discarded
    tx.rollback 1 01000100000004005a001ece
        503 504 told 505 505 discarded discarded
        503 503 503 503 503 503 discarded discarded
    tx.rollback-ok 0 01000000000004005a001fce
        503 503 503 503 503 503 discarded
        503 504 504 504 504 504 504 discarded
    tx.rollback-ok 1 01000100000004005a001fce
        503 503 503 503 503 discarded discarded
        503 504 504 503 505 505 discarded discarded
    confirm.select 0 010000000000050055000a00ce
        503 504 504 504 504 504 discarded
        503 503 503 503 503 503 503 discarded
    confirm.select 1 010001000000050055000a00ce
        503 504 told 505 505 discarded discarded
        503 503 503 503 503 503 discarded discarded
    confirm.select-ok 0 010000000000040055000bce
        503 503 503 503 503 503 discarded
        503 504 504 504 504 504 504 discarded
    confirm.select-ok 1 010001000000040055000bce
        503 503 503 503 503 discarded discarded
        503 504 504 503 505 505 discarded discarded
    header 0 0200000000000e003c000000000000000000020000ce
        503 504 504 504 504 504 discarded
        503 504 504 504 504 504 504 discarded
    header 1 0200010000000e003c000000000000000000020000ce
        503 504 505 - 505 discarded discarded
        503 504 504 505 - 505 discarded discarded
    body 0 030000000000026869ce
        503 504 504 504 504 504 discarded
        503 504 504 504 504 504 504 discarded
    body 1 030001000000026869ce
        503 504 505 505 told discarded discarded
        503 504 504 505 505 told discarded discarded
    heartbeat 0 08000000000000ce
        quiet quiet quiet quiet quiet quiet discarded
        quiet quiet quiet quiet quiet quiet quiet discarded
    heartbeat 1 08000100000000ce
        501 501 501 501 501 501 discarded
        501 501 501 501 501 501 501 discarded
";
