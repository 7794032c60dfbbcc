//! What the standard and RabbitMQ's additions say of each method, row by row: its ids, its name, who sends it, whether
//! content follows, and the request that it answers.
use crate::showing::assert_same_for;
use amqp_method::{Kind, sends};
use std::fmt::Debug;
use std::process::Abort;

#[derive(Clone, Copy, PartialEq, Eq, Debug)]
enum Sender {
    Client,
    Server,
    Both,
}

/// Kind, class id, method id, name, sender, whether content follows, the request that is answered.
type Facts = (Kind, u16, u16, &'static str, Sender, bool, Option<Kind>);

macro_rules! facts {
    ($($kind:ident $class:literal $id:literal $name:literal $sender:ident $content:literal $answered:expr;)*) => {
        [$((Kind::$kind, $class, $id, $name, Sender::$sender, $content, $answered)),*]
    };
}

static CONNECTION_AND_CHANNEL: [Facts; 18] = facts! {
    ConnectionStart 10 10 "connection.start" Server false None;
    ConnectionStartOk 10 11 "connection.start-ok" Client false Some(Kind::ConnectionStart);
    ConnectionSecure 10 20 "connection.secure" Server false None;
    ConnectionSecureOk 10 21 "connection.secure-ok" Client false Some(Kind::ConnectionSecure);
    ConnectionTune 10 30 "connection.tune" Server false None;
    ConnectionTuneOk 10 31 "connection.tune-ok" Client false Some(Kind::ConnectionTune);
    ConnectionOpen 10 40 "connection.open" Client false None;
    ConnectionOpenOk 10 41 "connection.open-ok" Server false Some(Kind::ConnectionOpen);
    ConnectionClose 10 50 "connection.close" Both false None;
    ConnectionCloseOk 10 51 "connection.close-ok" Both false Some(Kind::ConnectionClose);
    ConnectionBlocked 10 60 "connection.blocked" Server false None;
    ConnectionUnblocked 10 61 "connection.unblocked" Server false None;
    ChannelOpen 20 10 "channel.open" Client false None;
    ChannelOpenOk 20 11 "channel.open-ok" Server false Some(Kind::ChannelOpen);
    ChannelFlow 20 20 "channel.flow" Both false None;
    ChannelFlowOk 20 21 "channel.flow-ok" Both false Some(Kind::ChannelFlow);
    ChannelClose 20 40 "channel.close" Both false None;
    ChannelCloseOk 20 41 "channel.close-ok" Both false Some(Kind::ChannelClose);
};

static EXCHANGE_AND_QUEUE: [Facts; 18] = facts! {
    ExchangeDeclare 40 10 "exchange.declare" Client false None;
    ExchangeDeclareOk 40 11 "exchange.declare-ok" Server false Some(Kind::ExchangeDeclare);
    ExchangeDelete 40 20 "exchange.delete" Client false None;
    ExchangeDeleteOk 40 21 "exchange.delete-ok" Server false Some(Kind::ExchangeDelete);
    ExchangeBind 40 30 "exchange.bind" Client false None;
    ExchangeBindOk 40 31 "exchange.bind-ok" Server false Some(Kind::ExchangeBind);
    ExchangeUnbind 40 40 "exchange.unbind" Client false None;
    ExchangeUnbindOk 40 51 "exchange.unbind-ok" Server false Some(Kind::ExchangeUnbind);
    QueueDeclare 50 10 "queue.declare" Client false None;
    QueueDeclareOk 50 11 "queue.declare-ok" Server false Some(Kind::QueueDeclare);
    QueueBind 50 20 "queue.bind" Client false None;
    QueueBindOk 50 21 "queue.bind-ok" Server false Some(Kind::QueueBind);
    QueueUnbind 50 50 "queue.unbind" Client false None;
    QueueUnbindOk 50 51 "queue.unbind-ok" Server false Some(Kind::QueueUnbind);
    QueuePurge 50 30 "queue.purge" Client false None;
    QueuePurgeOk 50 31 "queue.purge-ok" Server false Some(Kind::QueuePurge);
    QueueDelete 50 40 "queue.delete" Client false None;
    QueueDeleteOk 50 41 "queue.delete-ok" Server false Some(Kind::QueueDelete);
};

static BASIC: [Facts; 18] = facts! {
    BasicQos 60 10 "basic.qos" Client false None;
    BasicQosOk 60 11 "basic.qos-ok" Server false Some(Kind::BasicQos);
    BasicConsume 60 20 "basic.consume" Client false None;
    BasicConsumeOk 60 21 "basic.consume-ok" Server false Some(Kind::BasicConsume);
    BasicCancel 60 30 "basic.cancel" Both false None;
    BasicCancelOk 60 31 "basic.cancel-ok" Both false Some(Kind::BasicCancel);
    BasicPublish 60 40 "basic.publish" Client true None;
    BasicReturn 60 50 "basic.return" Server true None;
    BasicDeliver 60 60 "basic.deliver" Server true None;
    BasicGet 60 70 "basic.get" Client false None;
    BasicGetOk 60 71 "basic.get-ok" Server true Some(Kind::BasicGet);
    BasicGetEmpty 60 72 "basic.get-empty" Server false Some(Kind::BasicGet);
    BasicAck 60 80 "basic.ack" Both false None;
    BasicReject 60 90 "basic.reject" Client false None;
    BasicRecoverAsync 60 100 "basic.recover-async" Client false None;
    BasicRecover 60 110 "basic.recover" Client false None;
    BasicRecoverOk 60 111 "basic.recover-ok" Server false Some(Kind::BasicRecover);
    BasicNack 60 120 "basic.nack" Both false None;
};

static TX_AND_CONFIRM: [Facts; 8] = facts! {
    TxSelect 90 10 "tx.select" Client false None;
    TxSelectOk 90 11 "tx.select-ok" Server false Some(Kind::TxSelect);
    TxCommit 90 20 "tx.commit" Client false None;
    TxCommitOk 90 21 "tx.commit-ok" Server false Some(Kind::TxCommit);
    TxRollback 90 30 "tx.rollback" Client false None;
    TxRollbackOk 90 31 "tx.rollback-ok" Server false Some(Kind::TxRollback);
    ConfirmSelect 85 10 "confirm.select" Client false None;
    ConfirmSelectOk 85 11 "confirm.select-ok" Server false Some(Kind::ConfirmSelect);
};

fn assert_is<T: Copy + PartialEq + Debug>(rt: &impl Abort, found: T, wanted: T, name: &str) {
    assert_same_for(rt, found, wanted, name);
}

fn assert_facts(rt: &impl Abort, rows: &[Facts]) {
    for (kind, class, id, name, sender, content, answered) in rows.iter().copied() {
        assert_is(rt, kind.class_id(), class, name);
        assert_is(rt, kind.method_id(), id, name);
        assert_is(rt, Kind::from_ids(class, id), Some(kind), name);
        assert_is(rt, kind.name(), name, name);
        assert_is(rt, sends(true, kind), sender != Sender::Server, name);
        assert_is(rt, sends(false, kind), sender != Sender::Client, name);
        assert_is(rt, kind.has_content(), content, name);
        assert_is(rt, kind.answers(), answered, name);
    }
}

#[test]
fn kinds_are_those_of_the_standard(rt: HostRuntime) {
    assert_facts(&rt, &CONNECTION_AND_CHANNEL);
    assert_facts(&rt, &EXCHANGE_AND_QUEUE);
    assert_facts(&rt, &BASIC);
    assert_facts(&rt, &TX_AND_CONFIRM);
}

/// Class ids and method ids that no method has.
static OTHER_IDS: [(u16, u16); 8] = [
    (10, 12),
    (10, 70),
    (30, 10),
    (60, 121),
    (60, 0),
    (80, 10),
    (90, 12),
    (0, 0),
];

#[test]
fn other_ids_are_no_kind(rt: HostRuntime) {
    for (class, id) in OTHER_IDS.iter().copied() {
        assert_same_for(&rt, Kind::from_ids(class, id), None, (class, id));
    }
}
