//! One method of each kind: its arguments, its octets and its text, written from the table of methods.
//!
//! Numbers stand in the upper half of their width, and no two arguments of one kind in a method are equal, bits apart. The
//! table is always [`TABLE`].
use amqp_method::Kind;

/// An argument.
#[derive(Clone, Copy, Debug)]
pub enum Given {
    Bit(bool),
    Octet(u8),
    Short(u16),
    Long(u32),
    LongLong(u64),
    Text(&'static str),
    LongText(&'static str),
    Table,
}

use Given::{Bit, Long, LongLong, LongText, Octet, Short, Table, Text};

/// The octets of the table `{"k"=t:1}`.
pub static TABLE: &str = "00000004016b7401";

/// Kind, arguments, octets in hexadecimal, text.
pub type Sample = (Kind, &'static [Given], &'static str, &'static str);

macro_rules! samples {
    ($($kind:ident [$($given:expr),*] $octets:literal $text:literal;)*) => {
        [$((Kind::$kind, &[$($given),*], $octets, $text)),*]
    };
}

pub static CONNECTION: [Sample; 12] = samples! {
    ConnectionStart [Octet(0xf0), Octet(0xf1), Table, LongText("DDD"), LongText("EE")]
        "000a000af0f100000004016b740100000003444444000000024545"
        "connection.start version-major=240 version-minor=241 server-properties={\"k\"=t:1} mechanisms=\"DDD\" locales=\"EE\"";
    ConnectionStartOk [Table, Text("bb"), LongText("CC"), Text("dd")]
        "000a000b00000004016b7401026262000000024343026464"
        "connection.start-ok client-properties={\"k\"=t:1} mechanism=\"bb\" response=\"CC\" locale=\"dd\"";
    ConnectionSecure [LongText("AA")] "000a0014000000024141" "connection.secure challenge=\"AA\"";
    ConnectionSecureOk [LongText("AA")] "000a0015000000024141" "connection.secure-ok response=\"AA\"";
    ConnectionTune [Short(0xf1f0), Long(0xf1f2f3f1), Short(0xf1f2)]
        "000a001ef1f0f1f2f3f1f1f2"
        "connection.tune channel-max=61936 frame-max=4059231217 heartbeat=61938";
    ConnectionTuneOk [Short(0xf1f0), Long(0xf1f2f3f1), Short(0xf1f2)]
        "000a001ff1f0f1f2f3f1f1f2"
        "connection.tune-ok channel-max=61936 frame-max=4059231217 heartbeat=61938";
    ConnectionOpen [Text("a")] "000a002801610000" "connection.open virtual-host=\"a\"";
    ConnectionOpenOk [] "000a002900" "connection.open-ok";
    ConnectionClose [Short(0xf1f0), Text("bb"), Short(0xf1f2), Short(0xf1f3)]
        "000a0032f1f0026262f1f2f1f3"
        "connection.close reply-code=61936 reply-text=\"bb\" class-id=61938 method-id=61939";
    ConnectionCloseOk [] "000a0033" "connection.close-ok";
    ConnectionBlocked [Text("a")] "000a003c0161" "connection.blocked reason=\"a\"";
    ConnectionUnblocked [] "000a003d" "connection.unblocked";
};

pub static CHANNEL: [Sample; 6] = samples! {
    ChannelOpen [] "0014000a00" "channel.open";
    ChannelOpenOk [] "0014000b00000000" "channel.open-ok";
    ChannelFlow [Bit(true)] "0014001401" "channel.flow active=1";
    ChannelFlowOk [Bit(true)] "0014001501" "channel.flow-ok active=1";
    ChannelClose [Short(0xf1f0), Text("bb"), Short(0xf1f2), Short(0xf1f3)]
        "00140028f1f0026262f1f2f1f3"
        "channel.close reply-code=61936 reply-text=\"bb\" class-id=61938 method-id=61939";
    ChannelCloseOk [] "00140029" "channel.close-ok";
};

pub static EXCHANGE: [Sample; 8] = samples! {
    ExchangeDeclare [Text("a"), Text("bb"), Bit(true), Bit(false), Bit(true), Bit(true), Bit(false), Table]
        "0028000a000001610262620d00000004016b7401"
        "exchange.declare exchange=\"a\" type=\"bb\" passive=1 durable=0 auto-delete=1 internal=1 no-wait=0 arguments={\"k\"=t:1}";
    ExchangeDeclareOk [] "0028000b" "exchange.declare-ok";
    ExchangeDelete [Text("a"), Bit(true), Bit(false)]
        "002800140000016101"
        "exchange.delete exchange=\"a\" if-unused=1 no-wait=0";
    ExchangeDeleteOk [] "00280015" "exchange.delete-ok";
    ExchangeBind [Text("a"), Text("bb"), Text("c"), Bit(true), Table]
        "0028001e0000016102626201630100000004016b7401"
        "exchange.bind destination=\"a\" source=\"bb\" routing-key=\"c\" no-wait=1 arguments={\"k\"=t:1}";
    ExchangeBindOk [] "0028001f" "exchange.bind-ok";
    ExchangeUnbind [Text("a"), Text("bb"), Text("c"), Bit(true), Table]
        "002800280000016102626201630100000004016b7401"
        "exchange.unbind destination=\"a\" source=\"bb\" routing-key=\"c\" no-wait=1 arguments={\"k\"=t:1}";
    ExchangeUnbindOk [] "00280033" "exchange.unbind-ok";
};

pub static QUEUE: [Sample; 10] = samples! {
    QueueDeclare [Text("a"), Bit(true), Bit(false), Bit(true), Bit(true), Bit(false), Table]
        "0032000a000001610d00000004016b7401"
        "queue.declare queue=\"a\" passive=1 durable=0 exclusive=1 auto-delete=1 no-wait=0 arguments={\"k\"=t:1}";
    QueueDeclareOk [Text("a"), Long(0xf1f2f3f1), Long(0xf1f2f3f2)]
        "0032000b0161f1f2f3f1f1f2f3f2"
        "queue.declare-ok queue=\"a\" message-count=4059231217 consumer-count=4059231218";
    QueueBind [Text("a"), Text("bb"), Text("c"), Bit(true), Table]
        "003200140000016102626201630100000004016b7401"
        "queue.bind queue=\"a\" exchange=\"bb\" routing-key=\"c\" no-wait=1 arguments={\"k\"=t:1}";
    QueueBindOk [] "00320015" "queue.bind-ok";
    QueueUnbind [Text("a"), Text("bb"), Text("c"), Table]
        "0032003200000161026262016300000004016b7401"
        "queue.unbind queue=\"a\" exchange=\"bb\" routing-key=\"c\" arguments={\"k\"=t:1}";
    QueueUnbindOk [] "00320033" "queue.unbind-ok";
    QueuePurge [Text("a"), Bit(true)] "0032001e0000016101" "queue.purge queue=\"a\" no-wait=1";
    QueuePurgeOk [Long(0xf1f2f3f0)] "0032001ff1f2f3f0" "queue.purge-ok message-count=4059231216";
    QueueDelete [Text("a"), Bit(true), Bit(false), Bit(true)]
        "003200280000016105"
        "queue.delete queue=\"a\" if-unused=1 if-empty=0 no-wait=1";
    QueueDeleteOk [Long(0xf1f2f3f0)] "00320029f1f2f3f0" "queue.delete-ok message-count=4059231216";
};

pub static BASIC: [Sample; 18] = samples! {
    BasicQos [Long(0xf1f2f3f0), Short(0xf1f1), Bit(true)]
        "003c000af1f2f3f0f1f101"
        "basic.qos prefetch-size=4059231216 prefetch-count=61937 global=1";
    BasicQosOk [] "003c000b" "basic.qos-ok";
    BasicConsume [Text("a"), Text("bb"), Bit(true), Bit(false), Bit(true), Bit(true), Table]
        "003c0014000001610262620d00000004016b7401"
        "basic.consume queue=\"a\" consumer-tag=\"bb\" no-local=1 no-ack=0 exclusive=1 no-wait=1 arguments={\"k\"=t:1}";
    BasicConsumeOk [Text("a")] "003c00150161" "basic.consume-ok consumer-tag=\"a\"";
    BasicCancel [Text("a"), Bit(true)] "003c001e016101" "basic.cancel consumer-tag=\"a\" no-wait=1";
    BasicCancelOk [Text("a")] "003c001f0161" "basic.cancel-ok consumer-tag=\"a\"";
    BasicPublish [Text("a"), Text("bb"), Bit(true), Bit(false)]
        "003c00280000016102626201"
        "basic.publish exchange=\"a\" routing-key=\"bb\" mandatory=1 immediate=0";
    BasicReturn [Short(0xf1f0), Text("bb"), Text("c"), Text("dd")]
        "003c0032f1f00262620163026464"
        "basic.return reply-code=61936 reply-text=\"bb\" exchange=\"c\" routing-key=\"dd\"";
    BasicDeliver [Text("a"), LongLong(0xf1f2f3f4f5f6f7f1), Bit(true), Text("dd"), Text("e")]
        "003c003c0161f1f2f3f4f5f6f7f1010264640165"
        "basic.deliver consumer-tag=\"a\" delivery-tag=17434265340928784369 redelivered=1 exchange=\"dd\" routing-key=\"e\"";
    BasicGet [Text("a"), Bit(true)] "003c00460000016101" "basic.get queue=\"a\" no-ack=1";
    BasicGetOk [LongLong(0xf1f2f3f4f5f6f7f0), Bit(true), Text("c"), Text("dd"), Long(0xf1f2f3f4)]
        "003c0047f1f2f3f4f5f6f7f0010163026464f1f2f3f4"
        "basic.get-ok delivery-tag=17434265340928784368 redelivered=1 exchange=\"c\" routing-key=\"dd\" message-count=4059231220";
    BasicGetEmpty [] "003c004800" "basic.get-empty";
    BasicAck [LongLong(0xf1f2f3f4f5f6f7f0), Bit(true)]
        "003c0050f1f2f3f4f5f6f7f001"
        "basic.ack delivery-tag=17434265340928784368 multiple=1";
    BasicReject [LongLong(0xf1f2f3f4f5f6f7f0), Bit(true)]
        "003c005af1f2f3f4f5f6f7f001"
        "basic.reject delivery-tag=17434265340928784368 requeue=1";
    BasicRecoverAsync [Bit(true)] "003c006401" "basic.recover-async requeue=1";
    BasicRecover [Bit(true)] "003c006e01" "basic.recover requeue=1";
    BasicRecoverOk [] "003c006f" "basic.recover-ok";
    BasicNack [LongLong(0xf1f2f3f4f5f6f7f0), Bit(true), Bit(false)]
        "003c0078f1f2f3f4f5f6f7f001"
        "basic.nack delivery-tag=17434265340928784368 multiple=1 requeue=0";
};

pub static TX_AND_CONFIRM: [Sample; 8] = samples! {
    TxSelect [] "005a000a" "tx.select";
    TxSelectOk [] "005a000b" "tx.select-ok";
    TxCommit [] "005a0014" "tx.commit";
    TxCommitOk [] "005a0015" "tx.commit-ok";
    TxRollback [] "005a001e" "tx.rollback";
    TxRollbackOk [] "005a001f" "tx.rollback-ok";
    ConfirmSelect [Bit(true)] "0055000a01" "confirm.select no-wait=1";
    ConfirmSelectOk [] "0055000b" "confirm.select-ok";
};
