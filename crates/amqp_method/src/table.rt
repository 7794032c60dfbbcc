//! The table of methods, in the order and the words of `amqp0-9-1.xml`, with the methods that RabbitMQ added.
ghost use Rattle.std.specs.Prelude.{◌≡◌};
ghost use Rattle.amqp_method.specs.Methods.{row};
ghost use Rattle.amqp_method.specs.Rows.{row_view};

use crate::fields::{Field, FieldKind};
use crate::kinds::Kind;

/// Who sends a method.
#[derive(Clone, Copy, PartialEq, Eq, Debug)]
pub enum Sender {
    Client,
    Server,
    Both,
}

impl Sender {
    ghost use Rattle.std.specs.Prelude.{◌≡◌};
    ghost use Rattle.amqp_method.specs.Kinds.{permits as is_permitted};

    /// Whether the client may send a method that is sent so, or the server.
    pub(crate) fn permits(self, client: bool) -> bool
        ensures { result ≡ is_permitted self client }
    {
        match self {
            Sender::Client => client,
            Sender::Server => !client,
            Sender::Both => true,
        }
    }
}

/// What a method of a client asks for. The classes connection and channel have answers of their own.
#[derive(Clone, Copy)]
pub(crate) enum Wanted {
    /// A reply.
    Always,
    /// None.
    Never,
    /// A reply, unless the bit no-wait at this place is set.
    UnlessNoWait(usize),
}

impl Wanted {
    ghost use Rattle.amqp_method.specs.Requests.{is_never};
    ghost use Rattle.amqp_method.specs.Rows.{wanted_view};

    /// Whether no method with this is answered.
    #[inline(always)]
    pub(crate) fn is_never(self) -> bool
        ensures { result ≡ is_never (wanted_view self) }
    {
        match self {
            Wanted::Always => false,
            Wanted::Never => true,
            Wanted::UnlessNoWait(_) => false,
        }
    }
}

/// What the standard says of a method.
pub(crate) struct Row {
    pub(crate) class: u16,
    pub(crate) id: u16,
    pub(crate) name: &'static str,
    pub(crate) sender: Sender,
    pub(crate) content: bool,
    pub(crate) answers: Option<Kind>,
    pub(crate) wanted: Wanted,
    pub(crate) fields: &'static [Field],
    /// how many arguments a method has: one for each field that isn't reserved
    pub(crate) arguments: usize,
}

/// A row: the class id and the method id, the name, who sends the method, whether content follows, the request that it
/// answers, the reply that it wants, if it wants one, and the fields.
macro_rules! method {
    ($class:literal $id:literal $name:literal from $sender:ident, content $content:literal, answers $answers:expr;
        $($reserved:ident $kind:ident $label:literal),*) => {
        method!($class $id $name from $sender, content $content, answers $answers, wants Never;
            $($reserved $kind $label),*)
    };
    ($class:literal $id:literal $name:literal from $sender:ident, content $content:literal, answers $answers:expr,
        wants $wanted:ident; $($reserved:ident $kind:ident $label:literal),*) => {
        method!($class $id $name from $sender, content $content, answers $answers, wanted Wanted::$wanted;
            $($reserved $kind $label),*)
    };
    ($class:literal $id:literal $name:literal from $sender:ident, content $content:literal, answers $answers:expr,
        wants $wanted:ident($place:literal); $($reserved:ident $kind:ident $label:literal),*) => {
        method!($class $id $name from $sender, content $content, answers $answers, wanted Wanted::$wanted($place);
            $($reserved $kind $label),*)
    };
    ($class:literal $id:literal $name:literal from $sender:ident, content $content:literal, answers $answers:expr,
        wanted $wanted:expr; $($reserved:ident $kind:ident $label:literal),*) => {
        Row {
            class: $class,
            id: $id,
            name: $name,
            sender: Sender::$sender,
            content: $content,
            answers: $answers,
            wanted: $wanted,
            fields: &[$(Field {
                name: $label,
                kind: FieldKind::$kind,
                reserved: is_reserved!($reserved),
            }),*],
            arguments: 0 $(+ count_of!($reserved))*,
        }
    };
}

macro_rules! is_reserved {
    (field) => {
        false
    };
    (reserved) => {
        true
    };
}

/// How many arguments a field has.
macro_rules! count_of {
    (field) => {
        1
    };
    (reserved) => {
        0
    };
}

static CONNECTION_START: Row =
    method!(10 10 "connection.start" from Server, content false, answers None;
    field Octet "version-major", field Octet "version-minor", field Table "server-properties",
    field LongStr "mechanisms", field LongStr "locales");

static CONNECTION_START_OK: Row =
    method!(10 11 "connection.start-ok" from Client, content false, answers Some(Kind::ConnectionStart);
    field Table "client-properties", field ShortStr "mechanism", field LongStr "response",
    field ShortStr "locale");

static CONNECTION_SECURE: Row =
    method!(10 20 "connection.secure" from Server, content false, answers None;
    field LongStr "challenge");

static CONNECTION_SECURE_OK: Row =
    method!(10 21 "connection.secure-ok" from Client, content false, answers Some(Kind::ConnectionSecure);
    field LongStr "response");

static CONNECTION_TUNE: Row =
    method!(10 30 "connection.tune" from Server, content false, answers None;
    field Short "channel-max", field Long "frame-max", field Short "heartbeat");

static CONNECTION_TUNE_OK: Row =
    method!(10 31 "connection.tune-ok" from Client, content false, answers Some(Kind::ConnectionTune);
    field Short "channel-max", field Long "frame-max", field Short "heartbeat");

static CONNECTION_OPEN: Row =
    method!(10 40 "connection.open" from Client, content false, answers None;
    field ShortStr "virtual-host", reserved ShortStr "reserved-1", reserved Bit "reserved-2");

static CONNECTION_OPEN_OK: Row =
    method!(10 41 "connection.open-ok" from Server, content false, answers Some(Kind::ConnectionOpen);
    reserved ShortStr "reserved-1");

static CONNECTION_CLOSE: Row =
    method!(10 50 "connection.close" from Both, content false, answers None;
    field Short "reply-code", field ShortStr "reply-text", field Short "class-id", field Short "method-id");

static CONNECTION_CLOSE_OK: Row =
    method!(10 51 "connection.close-ok" from Both, content false, answers Some(Kind::ConnectionClose););

static CONNECTION_BLOCKED: Row =
    method!(10 60 "connection.blocked" from Server, content false, answers None;
    field ShortStr "reason");

static CONNECTION_UNBLOCKED: Row =
    method!(10 61 "connection.unblocked" from Server, content false, answers None;);

static CHANNEL_OPEN: Row = method!(20 10 "channel.open" from Client, content false, answers None;
    reserved ShortStr "reserved-1");

static CHANNEL_OPEN_OK: Row =
    method!(20 11 "channel.open-ok" from Server, content false, answers Some(Kind::ChannelOpen);
    reserved LongStr "reserved-1");

static CHANNEL_FLOW: Row = method!(20 20 "channel.flow" from Both, content false, answers None;
    field Bit "active");

static CHANNEL_FLOW_OK: Row =
    method!(20 21 "channel.flow-ok" from Both, content false, answers Some(Kind::ChannelFlow);
    field Bit "active");

static CHANNEL_CLOSE: Row = method!(20 40 "channel.close" from Both, content false, answers None;
    field Short "reply-code", field ShortStr "reply-text", field Short "class-id", field Short "method-id");

static CHANNEL_CLOSE_OK: Row =
    method!(20 41 "channel.close-ok" from Both, content false, answers Some(Kind::ChannelClose););

static EXCHANGE_DECLARE: Row =
    method!(40 10 "exchange.declare" from Client, content false, answers None, wants UnlessNoWait(6);
    reserved Short "reserved-1", field ShortStr "exchange", field ShortStr "type", field Bit "passive",
    field Bit "durable", field Bit "auto-delete", field Bit "internal", field Bit "no-wait",
    field Table "arguments");

static EXCHANGE_DECLARE_OK: Row =
    method!(40 11 "exchange.declare-ok" from Server, content false, answers Some(Kind::ExchangeDeclare););

static EXCHANGE_DELETE: Row =
    method!(40 20 "exchange.delete" from Client, content false, answers None, wants UnlessNoWait(2);
    reserved Short "reserved-1", field ShortStr "exchange", field Bit "if-unused", field Bit "no-wait");

static EXCHANGE_DELETE_OK: Row =
    method!(40 21 "exchange.delete-ok" from Server, content false, answers Some(Kind::ExchangeDelete););

static EXCHANGE_BIND: Row =
    method!(40 30 "exchange.bind" from Client, content false, answers None, wants UnlessNoWait(3);
    reserved Short "reserved-1", field ShortStr "destination", field ShortStr "source",
    field ShortStr "routing-key", field Bit "no-wait", field Table "arguments");

static EXCHANGE_BIND_OK: Row =
    method!(40 31 "exchange.bind-ok" from Server, content false, answers Some(Kind::ExchangeBind););

static EXCHANGE_UNBIND: Row =
    method!(40 40 "exchange.unbind" from Client, content false, answers None, wants UnlessNoWait(3);
    reserved Short "reserved-1", field ShortStr "destination", field ShortStr "source",
    field ShortStr "routing-key", field Bit "no-wait", field Table "arguments");

static EXCHANGE_UNBIND_OK: Row =
    method!(40 51 "exchange.unbind-ok" from Server, content false, answers Some(Kind::ExchangeUnbind););

static QUEUE_DECLARE: Row =
    method!(50 10 "queue.declare" from Client, content false, answers None, wants UnlessNoWait(5);
    reserved Short "reserved-1", field ShortStr "queue", field Bit "passive", field Bit "durable",
    field Bit "exclusive", field Bit "auto-delete", field Bit "no-wait", field Table "arguments");

static QUEUE_DECLARE_OK: Row =
    method!(50 11 "queue.declare-ok" from Server, content false, answers Some(Kind::QueueDeclare);
    field ShortStr "queue", field Long "message-count", field Long "consumer-count");

static QUEUE_BIND: Row =
    method!(50 20 "queue.bind" from Client, content false, answers None, wants UnlessNoWait(3);
    reserved Short "reserved-1", field ShortStr "queue", field ShortStr "exchange",
    field ShortStr "routing-key", field Bit "no-wait", field Table "arguments");

static QUEUE_BIND_OK: Row =
    method!(50 21 "queue.bind-ok" from Server, content false, answers Some(Kind::QueueBind););

static QUEUE_UNBIND: Row =
    method!(50 50 "queue.unbind" from Client, content false, answers None, wants Always;
    reserved Short "reserved-1", field ShortStr "queue", field ShortStr "exchange",
    field ShortStr "routing-key", field Table "arguments");

static QUEUE_UNBIND_OK: Row =
    method!(50 51 "queue.unbind-ok" from Server, content false, answers Some(Kind::QueueUnbind););

static QUEUE_PURGE: Row =
    method!(50 30 "queue.purge" from Client, content false, answers None, wants UnlessNoWait(1);
    reserved Short "reserved-1", field ShortStr "queue", field Bit "no-wait");

static QUEUE_PURGE_OK: Row =
    method!(50 31 "queue.purge-ok" from Server, content false, answers Some(Kind::QueuePurge);
    field Long "message-count");

static QUEUE_DELETE: Row =
    method!(50 40 "queue.delete" from Client, content false, answers None, wants UnlessNoWait(3);
    reserved Short "reserved-1", field ShortStr "queue", field Bit "if-unused", field Bit "if-empty",
    field Bit "no-wait");

static QUEUE_DELETE_OK: Row =
    method!(50 41 "queue.delete-ok" from Server, content false, answers Some(Kind::QueueDelete);
    field Long "message-count");

static BASIC_QOS: Row =
    method!(60 10 "basic.qos" from Client, content false, answers None, wants Always;
    field Long "prefetch-size", field Short "prefetch-count", field Bit "global");

static BASIC_QOS_OK: Row =
    method!(60 11 "basic.qos-ok" from Server, content false, answers Some(Kind::BasicQos););

static BASIC_CONSUME: Row =
    method!(60 20 "basic.consume" from Client, content false, answers None, wants UnlessNoWait(5);
    reserved Short "reserved-1", field ShortStr "queue", field ShortStr "consumer-tag", field Bit "no-local",
    field Bit "no-ack", field Bit "exclusive", field Bit "no-wait", field Table "arguments");

static BASIC_CONSUME_OK: Row =
    method!(60 21 "basic.consume-ok" from Server, content false, answers Some(Kind::BasicConsume);
    field ShortStr "consumer-tag");

static BASIC_CANCEL: Row =
    method!(60 30 "basic.cancel" from Both, content false, answers None, wants UnlessNoWait(1);
    field ShortStr "consumer-tag", field Bit "no-wait");

static BASIC_CANCEL_OK: Row =
    method!(60 31 "basic.cancel-ok" from Both, content false, answers Some(Kind::BasicCancel);
    field ShortStr "consumer-tag");

static BASIC_PUBLISH: Row = method!(60 40 "basic.publish" from Client, content true, answers None;
    reserved Short "reserved-1", field ShortStr "exchange", field ShortStr "routing-key",
    field Bit "mandatory", field Bit "immediate");

static BASIC_RETURN: Row = method!(60 50 "basic.return" from Server, content true, answers None;
    field Short "reply-code", field ShortStr "reply-text", field ShortStr "exchange",
    field ShortStr "routing-key");

static BASIC_DELIVER: Row = method!(60 60 "basic.deliver" from Server, content true, answers None;
    field ShortStr "consumer-tag", field LongLong "delivery-tag", field Bit "redelivered",
    field ShortStr "exchange", field ShortStr "routing-key");

static BASIC_GET: Row =
    method!(60 70 "basic.get" from Client, content false, answers None, wants Always;
    reserved Short "reserved-1", field ShortStr "queue", field Bit "no-ack");

static BASIC_GET_OK: Row =
    method!(60 71 "basic.get-ok" from Server, content true, answers Some(Kind::BasicGet);
    field LongLong "delivery-tag", field Bit "redelivered", field ShortStr "exchange",
    field ShortStr "routing-key", field Long "message-count");

static BASIC_GET_EMPTY: Row =
    method!(60 72 "basic.get-empty" from Server, content false, answers Some(Kind::BasicGet);
    reserved ShortStr "reserved-1");

static BASIC_ACK: Row = method!(60 80 "basic.ack" from Both, content false, answers None;
    field LongLong "delivery-tag", field Bit "multiple");

static BASIC_REJECT: Row = method!(60 90 "basic.reject" from Client, content false, answers None;
    field LongLong "delivery-tag", field Bit "requeue");

static BASIC_RECOVER_ASYNC: Row =
    method!(60 100 "basic.recover-async" from Client, content false, answers None;
    field Bit "requeue");

static BASIC_RECOVER: Row =
    method!(60 110 "basic.recover" from Client, content false, answers None, wants Always;
    field Bit "requeue");

static BASIC_RECOVER_OK: Row =
    method!(60 111 "basic.recover-ok" from Server, content false, answers Some(Kind::BasicRecover););

static BASIC_NACK: Row = method!(60 120 "basic.nack" from Both, content false, answers None;
    field LongLong "delivery-tag", field Bit "multiple", field Bit "requeue");

static TX_SELECT: Row =
    method!(90 10 "tx.select" from Client, content false, answers None, wants Always;);

static TX_SELECT_OK: Row =
    method!(90 11 "tx.select-ok" from Server, content false, answers Some(Kind::TxSelect););

static TX_COMMIT: Row =
    method!(90 20 "tx.commit" from Client, content false, answers None, wants Always;);

static TX_COMMIT_OK: Row =
    method!(90 21 "tx.commit-ok" from Server, content false, answers Some(Kind::TxCommit););

static TX_ROLLBACK: Row =
    method!(90 30 "tx.rollback" from Client, content false, answers None, wants Always;);

static TX_ROLLBACK_OK: Row =
    method!(90 31 "tx.rollback-ok" from Server, content false, answers Some(Kind::TxRollback););

static CONFIRM_SELECT: Row =
    method!(85 10 "confirm.select" from Client, content false, answers None, wants UnlessNoWait(0);
    field Bit "no-wait");

static CONFIRM_SELECT_OK: Row =
    method!(85 11 "confirm.select-ok" from Server, content false, answers Some(Kind::ConfirmSelect););

/// The row of a kind.
#[tactic(auto, unfolding(crate::specs::Methods::row))]
pub(crate) fn row_for(kind: Kind) -> &'static Row
    ensures { row_view result.now ≡ row kind }
{
    match kind {
        Kind::ConnectionStart => &CONNECTION_START,
        Kind::ConnectionStartOk => &CONNECTION_START_OK,
        Kind::ConnectionSecure => &CONNECTION_SECURE,
        Kind::ConnectionSecureOk => &CONNECTION_SECURE_OK,
        Kind::ConnectionTune => &CONNECTION_TUNE,
        Kind::ConnectionTuneOk => &CONNECTION_TUNE_OK,
        Kind::ConnectionOpen => &CONNECTION_OPEN,
        Kind::ConnectionOpenOk => &CONNECTION_OPEN_OK,
        Kind::ConnectionClose => &CONNECTION_CLOSE,
        Kind::ConnectionCloseOk => &CONNECTION_CLOSE_OK,
        Kind::ConnectionBlocked => &CONNECTION_BLOCKED,
        Kind::ConnectionUnblocked => &CONNECTION_UNBLOCKED,
        Kind::ChannelOpen => &CHANNEL_OPEN,
        Kind::ChannelOpenOk => &CHANNEL_OPEN_OK,
        Kind::ChannelFlow => &CHANNEL_FLOW,
        Kind::ChannelFlowOk => &CHANNEL_FLOW_OK,
        Kind::ChannelClose => &CHANNEL_CLOSE,
        Kind::ChannelCloseOk => &CHANNEL_CLOSE_OK,
        Kind::ExchangeDeclare => &EXCHANGE_DECLARE,
        Kind::ExchangeDeclareOk => &EXCHANGE_DECLARE_OK,
        Kind::ExchangeDelete => &EXCHANGE_DELETE,
        Kind::ExchangeDeleteOk => &EXCHANGE_DELETE_OK,
        Kind::ExchangeBind => &EXCHANGE_BIND,
        Kind::ExchangeBindOk => &EXCHANGE_BIND_OK,
        Kind::ExchangeUnbind => &EXCHANGE_UNBIND,
        Kind::ExchangeUnbindOk => &EXCHANGE_UNBIND_OK,
        Kind::QueueDeclare => &QUEUE_DECLARE,
        Kind::QueueDeclareOk => &QUEUE_DECLARE_OK,
        Kind::QueueBind => &QUEUE_BIND,
        Kind::QueueBindOk => &QUEUE_BIND_OK,
        Kind::QueueUnbind => &QUEUE_UNBIND,
        Kind::QueueUnbindOk => &QUEUE_UNBIND_OK,
        Kind::QueuePurge => &QUEUE_PURGE,
        Kind::QueuePurgeOk => &QUEUE_PURGE_OK,
        Kind::QueueDelete => &QUEUE_DELETE,
        Kind::QueueDeleteOk => &QUEUE_DELETE_OK,
        Kind::BasicQos => &BASIC_QOS,
        Kind::BasicQosOk => &BASIC_QOS_OK,
        Kind::BasicConsume => &BASIC_CONSUME,
        Kind::BasicConsumeOk => &BASIC_CONSUME_OK,
        Kind::BasicCancel => &BASIC_CANCEL,
        Kind::BasicCancelOk => &BASIC_CANCEL_OK,
        Kind::BasicPublish => &BASIC_PUBLISH,
        Kind::BasicReturn => &BASIC_RETURN,
        Kind::BasicDeliver => &BASIC_DELIVER,
        Kind::BasicGet => &BASIC_GET,
        Kind::BasicGetOk => &BASIC_GET_OK,
        Kind::BasicGetEmpty => &BASIC_GET_EMPTY,
        Kind::BasicAck => &BASIC_ACK,
        Kind::BasicReject => &BASIC_REJECT,
        Kind::BasicRecoverAsync => &BASIC_RECOVER_ASYNC,
        Kind::BasicRecover => &BASIC_RECOVER,
        Kind::BasicRecoverOk => &BASIC_RECOVER_OK,
        Kind::BasicNack => &BASIC_NACK,
        Kind::TxSelect => &TX_SELECT,
        Kind::TxSelectOk => &TX_SELECT_OK,
        Kind::TxCommit => &TX_COMMIT,
        Kind::TxCommitOk => &TX_COMMIT_OK,
        Kind::TxRollback => &TX_ROLLBACK,
        Kind::TxRollbackOk => &TX_ROLLBACK_OK,
        Kind::ConfirmSelect => &CONFIRM_SELECT,
        Kind::ConfirmSelectOk => &CONFIRM_SELECT_OK,
    }
}
