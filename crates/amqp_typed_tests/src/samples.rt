//! Each method: its octets, written from the table of methods, and its struct as `Debug` prints it, field by field.
//!
//! The numbers, strings and tables are those of the tests of `amqp_method`. A short string prints in quotes, a long one
//! as its octets, and a method without arguments as its name.

/// The octets in hexadecimal, and the text.
pub type Sample = (&'static str, &'static str);

pub static CONNECTION: [Sample; 12] = [
    (
        "000a000af0f100000004016b740100000003444444000000024545",
        "ConnectionStart(Start { version_major: 240, version_minor: 241, server_properties: Table { pairs: [(\"k\", Boolean(true))] }, mechanisms: [68, 68, 68], locales: [69, 69] })",
    ),
    (
        "000a000b00000004016b7401026262000000024343026464",
        "ConnectionStartOk(StartOk { client_properties: Table { pairs: [(\"k\", Boolean(true))] }, mechanism: \"bb\", response: [67, 67], locale: \"dd\" })",
    ),
    (
        "000a0014000000024141",
        "ConnectionSecure(Secure { challenge: [65, 65] })",
    ),
    (
        "000a0015000000024141",
        "ConnectionSecureOk(SecureOk { response: [65, 65] })",
    ),
    (
        "000a001ef1f0f1f2f3f1f1f2",
        "ConnectionTune(Tune { channel_max: 61936, frame_max: 4059231217, heartbeat: 61938 })",
    ),
    (
        "000a001ff1f0f1f2f3f1f1f2",
        "ConnectionTuneOk(TuneOk { channel_max: 61936, frame_max: 4059231217, heartbeat: 61938 })",
    ),
    (
        "000a002801610000",
        "ConnectionOpen(Open { virtual_host: \"a\" })",
    ),
    ("000a002900", "ConnectionOpenOk(connection.open-ok)"),
    (
        "000a0032f1f0026262f1f2f1f3",
        "ConnectionClose(Close { reply_code: 61936, reply_text: \"bb\", class_id: 61938, method_id: 61939 })",
    ),
    ("000a0033", "ConnectionCloseOk(connection.close-ok)"),
    (
        "000a003c0161",
        "ConnectionBlocked(Blocked { reason: \"a\" })",
    ),
    ("000a003d", "ConnectionUnblocked(connection.unblocked)"),
];

pub static CHANNEL: [Sample; 6] = [
    ("0014000a00", "ChannelOpen(channel.open)"),
    ("0014000b00000000", "ChannelOpenOk(channel.open-ok)"),
    ("0014001401", "ChannelFlow(Flow { active: true })"),
    ("0014001501", "ChannelFlowOk(FlowOk { active: true })"),
    (
        "00140028f1f0026262f1f2f1f3",
        "ChannelClose(Close { reply_code: 61936, reply_text: \"bb\", class_id: 61938, method_id: 61939 })",
    ),
    ("00140029", "ChannelCloseOk(channel.close-ok)"),
];

pub static EXCHANGE: [Sample; 8] = [
    (
        "0028000a000001610262620d00000004016b7401",
        "ExchangeDeclare(Declare { exchange: \"a\", type_name: \"bb\", passive: true, durable: false, auto_delete: true, internal: true, no_wait: false, arguments: Table { pairs: [(\"k\", Boolean(true))] } })",
    ),
    ("0028000b", "ExchangeDeclareOk(exchange.declare-ok)"),
    (
        "002800140000016101",
        "ExchangeDelete(Delete { exchange: \"a\", if_unused: true, no_wait: false })",
    ),
    ("00280015", "ExchangeDeleteOk(exchange.delete-ok)"),
    (
        "0028001e0000016102626201630100000004016b7401",
        "ExchangeBind(Bind { destination: \"a\", source: \"bb\", routing_key: \"c\", no_wait: true, arguments: Table { pairs: [(\"k\", Boolean(true))] } })",
    ),
    ("0028001f", "ExchangeBindOk(exchange.bind-ok)"),
    (
        "002800280000016102626201630100000004016b7401",
        "ExchangeUnbind(Unbind { destination: \"a\", source: \"bb\", routing_key: \"c\", no_wait: true, arguments: Table { pairs: [(\"k\", Boolean(true))] } })",
    ),
    ("00280033", "ExchangeUnbindOk(exchange.unbind-ok)"),
];

pub static QUEUE: [Sample; 10] = [
    (
        "0032000a000001610d00000004016b7401",
        "QueueDeclare(Declare { queue: \"a\", passive: true, durable: false, exclusive: true, auto_delete: true, no_wait: false, arguments: Table { pairs: [(\"k\", Boolean(true))] } })",
    ),
    (
        "0032000b0161f1f2f3f1f1f2f3f2",
        "QueueDeclareOk(DeclareOk { queue: \"a\", message_count: 4059231217, consumer_count: 4059231218 })",
    ),
    (
        "003200140000016102626201630100000004016b7401",
        "QueueBind(Bind { queue: \"a\", exchange: \"bb\", routing_key: \"c\", no_wait: true, arguments: Table { pairs: [(\"k\", Boolean(true))] } })",
    ),
    ("00320015", "QueueBindOk(queue.bind-ok)"),
    (
        "0032003200000161026262016300000004016b7401",
        "QueueUnbind(Unbind { queue: \"a\", exchange: \"bb\", routing_key: \"c\", arguments: Table { pairs: [(\"k\", Boolean(true))] } })",
    ),
    ("00320033", "QueueUnbindOk(queue.unbind-ok)"),
    (
        "0032001e0000016101",
        "QueuePurge(Purge { queue: \"a\", no_wait: true })",
    ),
    (
        "0032001ff1f2f3f0",
        "QueuePurgeOk(PurgeOk { message_count: 4059231216 })",
    ),
    (
        "003200280000016105",
        "QueueDelete(Delete { queue: \"a\", if_unused: true, if_empty: false, no_wait: true })",
    ),
    (
        "00320029f1f2f3f0",
        "QueueDeleteOk(DeleteOk { message_count: 4059231216 })",
    ),
];

pub static BASIC: [Sample; 18] = [
    (
        "003c000af1f2f3f0f1f101",
        "BasicQos(Qos { prefetch_size: 4059231216, prefetch_count: 61937, global: true })",
    ),
    ("003c000b", "BasicQosOk(basic.qos-ok)"),
    (
        "003c0014000001610262620d00000004016b7401",
        "BasicConsume(Consume { queue: \"a\", consumer_tag: \"bb\", no_local: true, no_ack: false, exclusive: true, no_wait: true, arguments: Table { pairs: [(\"k\", Boolean(true))] } })",
    ),
    (
        "003c00150161",
        "BasicConsumeOk(ConsumeOk { consumer_tag: \"a\" })",
    ),
    (
        "003c001e016101",
        "BasicCancel(Cancel { consumer_tag: \"a\", no_wait: true })",
    ),
    (
        "003c001f0161",
        "BasicCancelOk(CancelOk { consumer_tag: \"a\" })",
    ),
    (
        "003c00280000016102626201",
        "BasicPublish(Publish { exchange: \"a\", routing_key: \"bb\", mandatory: true, immediate: false })",
    ),
    (
        "003c0032f1f00262620163026464",
        "BasicReturn(Return { reply_code: 61936, reply_text: \"bb\", exchange: \"c\", routing_key: \"dd\" })",
    ),
    (
        "003c003c0161f1f2f3f4f5f6f7f1010264640165",
        "BasicDeliver(Deliver { consumer_tag: \"a\", delivery_tag: 17434265340928784369, redelivered: true, exchange: \"dd\", routing_key: \"e\" })",
    ),
    (
        "003c00460000016101",
        "BasicGet(Get { queue: \"a\", no_ack: true })",
    ),
    (
        "003c0047f1f2f3f4f5f6f7f0010163026464f1f2f3f4",
        "BasicGetOk(GetOk { delivery_tag: 17434265340928784368, redelivered: true, exchange: \"c\", routing_key: \"dd\", message_count: 4059231220 })",
    ),
    ("003c004800", "BasicGetEmpty(basic.get-empty)"),
    (
        "003c0050f1f2f3f4f5f6f7f001",
        "BasicAck(Ack { delivery_tag: 17434265340928784368, multiple: true })",
    ),
    (
        "003c005af1f2f3f4f5f6f7f001",
        "BasicReject(Reject { delivery_tag: 17434265340928784368, requeue: true })",
    ),
    (
        "003c006401",
        "BasicRecoverAsync(RecoverAsync { requeue: true })",
    ),
    ("003c006e01", "BasicRecover(Recover { requeue: true })"),
    ("003c006f", "BasicRecoverOk(basic.recover-ok)"),
    (
        "003c0078f1f2f3f4f5f6f7f001",
        "BasicNack(Nack { delivery_tag: 17434265340928784368, multiple: true, requeue: false })",
    ),
];

pub static TX: [Sample; 6] = [
    ("005a000a", "TxSelect(tx.select)"),
    ("005a000b", "TxSelectOk(tx.select-ok)"),
    ("005a0014", "TxCommit(tx.commit)"),
    ("005a0015", "TxCommitOk(tx.commit-ok)"),
    ("005a001e", "TxRollback(tx.rollback)"),
    ("005a001f", "TxRollbackOk(tx.rollback-ok)"),
];

pub static CONFIRM: [Sample; 2] = [
    ("0055000a01", "ConfirmSelect(Select { no_wait: true })"),
    ("0055000b", "ConfirmSelectOk(confirm.select-ok)"),
];
