//! Methods, frames and parts of them by name, octet by octet, as the profile has them.

/// A name begins its line, and its octets follow: in hexadecimal, or as a text after `'`. A name with a channel at its
/// end, as
/// `tx.select/1`, is that of a whole frame: type, channel, size, payload, end.
pub(crate) static NAMED: &str = "
    nothing '
    protocol-header 'AMQP 00 00 09 01

    # of the queue q
    queue.declare 0032 000a 0000 01 'q 00 00000000
    queue.declare-ok 0032 000b 01 'q 00000000 00000000
    basic.get 003c 0046 0000 01 'q 00
    # to the default exchange with the key q
    basic.publish 003c 0028 0000 00 01 'q 00
    # to the consumer c, with the tag 1, from the default exchange with the key q
    basic.deliver 003c 003c 01 'c 0000000000000001 00 00 01 'q
    # with the tag 1, from the default exchange with the key q, with no messages left
    basic.get-ok 003c 0047 0000000000000001 00 00 01 'q 00000000
    # of the tag 1; it asks for no reply
    basic.ack 003c 0050 0000000000000001 00
    tx.select 005a 000a
    tx.select-ok 005a 000b
    connection.close-ok 000a 0033
    channel.flow-ok 0014 0015 01

    # queue.declare with a table of one pair, whose string of 4068 octets is to follow: 4088 octets, the longest payload of a frame
    # of 4096; and with a string of 4069 octets
    longest-declare 0032 000a 0000 01 'q 00 00000feb 01 'x 'S 00000fe4
    too-long-declare 0032 000a 0000 01 'q 00 00000fec 01 'x 'S 00000fe5
    # a table of one pair, whose string of 4063 octets is to follow; a header has 14 octets beside its table: 4088 octets; and with
    # a string of 4064 octets
    longest-table 00000fe6 01 'x 'S 00000fdf
    too-long-table 00000fe7 01 'x 'S 00000fe0

    # version 0 9, no properties, the mechanism and the locale
    connection.start/0 01 0000 0000001c 000a 000a 00 09 00000000 00000005 'PLAIN 00000005 'en_US ce
    # no properties, the mechanism, the response and the locale
    connection.start-ok/0 01 0000 00000024 000a 000b 00000000 05 'PLAIN 0000000c 00 'guest 00 'guest 05 'en_US ce
    # channels up to 2047, frames of 131072 octets, no heartbeat
    connection.tune/0 01 0000 0000000c 000a 001e 07ff 00020000 0000 ce
    # channels up to 10, frames of 8192 octets, no heartbeat
    connection.tune-ok/0 01 0000 0000000c 000a 001f 000a 00002000 0000 ce
    # of the host /
    connection.open/0 01 0000 00000008 000a 0028 01 '/ 00 00 ce
    connection.open-ok/0 01 0000 00000005 000a 0029 00 ce
    # with the code 200 and the text bye
    connection.close/0 01 0000 0000000e 000a 0032 00c8 03 'bye 0000 0000 ce
    connection.close-ok/0 01 0000 00000004 000a 0033 ce
    # for the reason low
    connection.blocked/0 01 0000 00000008 000a 003c 03 'low ce
    connection.unblocked/0 01 0000 00000004 000a 003d ce
    # connection.close with the codes 501 and 503
    frame-error/0 01 0000 00000016 000a 0032 01f5 0b 'frame-error 0000 0000 ce
    command-invalid/0 01 0000 0000001a 000a 0032 01f7 0f 'command-invalid 0000 0000 ce

    channel.open/1 01 0001 00000005 0014 000a 00 ce
    channel.open/2 01 0002 00000005 0014 000a 00 ce
    channel.open-ok/1 01 0001 00000008 0014 000b 00000000 ce
    # for no more contents, and for contents
    flow-off/1 01 0001 00000005 0014 0014 00 ce
    flow-on/1 01 0001 00000005 0014 0014 01 ce
    flow-off-ok/1 01 0001 00000005 0014 0015 00 ce
    flow-on-ok/1 01 0001 00000005 0014 0015 01 ce
    # with the code 200 and the text bye
    channel.close/1 01 0001 0000000e 0014 0028 00c8 03 'bye 0000 0000 ce
    channel.close-ok/1 01 0001 00000004 0014 0029 ce
    # channel.close with the code 311
    content-too-large/1 01 0001 0000001c 0014 0028 0137 11 'content-too-large 0000 0000 ce

    tx.select/1 01 0001 00000004 005a 000a ce
    tx.select/2 01 0002 00000004 005a 000a ce
    tx.select-ok/1 01 0001 00000004 005a 000b ce
    queue.declare-ok/1 01 0001 0000000e 0032 000b 01 'q 00000000 00000000 ce
    basic.publish/1 01 0001 0000000a 003c 0028 0000 00 01 'q 00 ce
    basic.publish/2 01 0002 0000000a 003c 0028 0000 00 01 'q 00 ce
    basic.deliver/1 01 0001 00000012 003c 003c 01 'c 0000000000000001 00 00 01 'q ce

    # content headers without properties: of bodies of no octets, of 2, 3, 4088 and 4089
    header/1 02 0001 0000000e 003c 0000 0000000000000000 0000 ce
    header/2 02 0002 0000000e 003c 0000 0000000000000000 0000 ce
    header-of-2/1 02 0001 0000000e 003c 0000 0000000000000002 0000 ce
    header-of-3/1 02 0001 0000000e 003c 0000 0000000000000003 0000 ce
    header-of-4088/1 02 0001 0000000e 003c 0000 0000000000000ff8 0000 ce
    header-of-4089/1 02 0001 0000000e 003c 0000 0000000000000ff9 0000 ce
    # the longest content header up to its table: no body, and the flag of the headers
    longest-header 02 0001 00000ff8 003c 0000 0000000000000000 2000

    body-of-2/1 03 0001 00000002 'hi ce
    body-of-3/1 03 0001 00000003 00 01 02 ce
    # the beginning of a frame of 4088 octets of a body
    long-body 03 0001 00000ff8 00 01 02
    # the last octet of a body of 4089: 72, since 4088 is 16 times 251 and 72
    rest-of-body/1 03 0001 00000001 48 ce
";
