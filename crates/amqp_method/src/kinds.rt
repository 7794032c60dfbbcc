//! The kinds of method.
ghost use Rattle.std.specs.Prelude.{◌≡◌, ◌↔◌, IsTrue, Bool, map};
ghost use Rattle.amqp_method.specs.Methods.{row};
ghost use Rattle.amqp_method.specs.Kinds.{same_kind, sends as is_sent, has_content, fields_of, with_id, kind_with, connection_kinds, channel_kinds, exchange_kinds, queue_kinds, basic_kinds, tx_kinds, confirm_kinds};
ghost use Rattle.amqp_method.specs.Rows.{field_view};
ghost use Rattle.amqp_method.specs.Sorts.{sort_by, begins_content};

use crate::fields::Field;
use crate::table::row_for;

/// The methods, in the order of `amqp0-9-1.xml`.
#[derive(Clone, Copy, PartialEq, Eq, Debug)]
pub enum Kind {
    ConnectionStart,
    ConnectionStartOk,
    ConnectionSecure,
    ConnectionSecureOk,
    ConnectionTune,
    ConnectionTuneOk,
    ConnectionOpen,
    ConnectionOpenOk,
    ConnectionClose,
    ConnectionCloseOk,
    ConnectionBlocked,
    ConnectionUnblocked,
    ChannelOpen,
    ChannelOpenOk,
    ChannelFlow,
    ChannelFlowOk,
    ChannelClose,
    ChannelCloseOk,
    ExchangeDeclare,
    ExchangeDeclareOk,
    ExchangeDelete,
    ExchangeDeleteOk,
    ExchangeBind,
    ExchangeBindOk,
    ExchangeUnbind,
    ExchangeUnbindOk,
    QueueDeclare,
    QueueDeclareOk,
    QueueBind,
    QueueBindOk,
    QueueUnbind,
    QueueUnbindOk,
    QueuePurge,
    QueuePurgeOk,
    QueueDelete,
    QueueDeleteOk,
    BasicQos,
    BasicQosOk,
    BasicConsume,
    BasicConsumeOk,
    BasicCancel,
    BasicCancelOk,
    BasicPublish,
    BasicReturn,
    BasicDeliver,
    BasicGet,
    BasicGetOk,
    BasicGetEmpty,
    BasicAck,
    BasicReject,
    BasicRecoverAsync,
    BasicRecover,
    BasicRecoverOk,
    BasicNack,
    TxSelect,
    TxSelectOk,
    TxCommit,
    TxCommitOk,
    TxRollback,
    TxRollbackOk,
    ConfirmSelect,
    ConfirmSelectOk,
}

impl Kind {
    /// The kind with this class id and this method id, if there is one.
    pub fn from_ids(class: u16, id: u16) -> Option<Kind>
        ensures { result ≡ kind_with class id }
    {
        match class {
            10 => connection_kind(id),
            20 => channel_kind(id),
            40 => exchange_kind(id),
            50 => queue_kind(id),
            60 => basic_kind(id),
            90 => tx_kind(id),
            85 => confirm_kind(id),
            _ => None,
        }
    }

    /// The class id.
    pub fn class_id(self) -> u16
        ensures { result ≡ (row self).class }
    {
        row_for(self).class
    }

    /// The method id, within the class.
    pub fn method_id(self) -> u16
        ensures { result ≡ (row self).id }
    {
        row_for(self).id
    }

    /// The class and the method by name, as `basic.get-ok`.
    pub fn name(self) -> &'static str
        ensures { result.now ≡ (row self).name }
    {
        row_for(self).name
    }

    /// Whether it is the same method.
    pub(crate) fn is_same(self, other: Kind) -> bool
        ensures { result ≡ same_kind self other }
    {
        self.class_id() == other.class_id() && self.method_id() == other.method_id()
    }

    /// Whether a content header and a content body follow.
    pub fn has_content(self) -> bool
        ensures content { result ≡ has_content self }
        ensures sort { (active : Bool) → result ≡ begins_content (sort_by self active) }
    {
        row_for(self).content
    }

    /// The request that the method replies to, if it is a reply.
    pub fn answers(self) -> Option<Kind>
        ensures { result ≡ (row self).answers }
    {
        row_for(self).answers
    }
}

/// The fields of a method, in order.
pub fn schema(kind: Kind) -> &'static [Field]
    ensures { map field_view result.now ≡ fields_of kind }
{
    row_for(kind).fields
}

/// Whether the client sends the method, or the server.
pub fn sends(client: bool, kind: Kind) -> bool
    ensures { result ≡ is_sent client kind }
{
    row_for(kind).sender.permits(client)
}

#[tactic(auto, unfolding(crate::specs::Kinds::with_id))]
fn connection_kind(id: u16) -> Option<Kind>
    ensures { result ≡ with_id id connection_kinds }
{
    match id {
        10 => Some(Kind::ConnectionStart),
        11 => Some(Kind::ConnectionStartOk),
        20 => Some(Kind::ConnectionSecure),
        21 => Some(Kind::ConnectionSecureOk),
        30 => Some(Kind::ConnectionTune),
        31 => Some(Kind::ConnectionTuneOk),
        40 => Some(Kind::ConnectionOpen),
        41 => Some(Kind::ConnectionOpenOk),
        50 => Some(Kind::ConnectionClose),
        51 => Some(Kind::ConnectionCloseOk),
        60 => Some(Kind::ConnectionBlocked),
        61 => Some(Kind::ConnectionUnblocked),
        _ => None,
    }
}

#[tactic(auto, unfolding(crate::specs::Kinds::with_id))]
fn channel_kind(id: u16) -> Option<Kind>
    ensures { result ≡ with_id id channel_kinds }
{
    match id {
        10 => Some(Kind::ChannelOpen),
        11 => Some(Kind::ChannelOpenOk),
        20 => Some(Kind::ChannelFlow),
        21 => Some(Kind::ChannelFlowOk),
        40 => Some(Kind::ChannelClose),
        41 => Some(Kind::ChannelCloseOk),
        _ => None,
    }
}

#[tactic(auto, unfolding(crate::specs::Kinds::with_id))]
fn exchange_kind(id: u16) -> Option<Kind>
    ensures { result ≡ with_id id exchange_kinds }
{
    match id {
        10 => Some(Kind::ExchangeDeclare),
        11 => Some(Kind::ExchangeDeclareOk),
        20 => Some(Kind::ExchangeDelete),
        21 => Some(Kind::ExchangeDeleteOk),
        30 => Some(Kind::ExchangeBind),
        31 => Some(Kind::ExchangeBindOk),
        40 => Some(Kind::ExchangeUnbind),
        51 => Some(Kind::ExchangeUnbindOk),
        _ => None,
    }
}

#[tactic(auto, unfolding(crate::specs::Kinds::with_id))]
fn queue_kind(id: u16) -> Option<Kind>
    ensures { result ≡ with_id id queue_kinds }
{
    match id {
        10 => Some(Kind::QueueDeclare),
        11 => Some(Kind::QueueDeclareOk),
        20 => Some(Kind::QueueBind),
        21 => Some(Kind::QueueBindOk),
        50 => Some(Kind::QueueUnbind),
        51 => Some(Kind::QueueUnbindOk),
        30 => Some(Kind::QueuePurge),
        31 => Some(Kind::QueuePurgeOk),
        40 => Some(Kind::QueueDelete),
        41 => Some(Kind::QueueDeleteOk),
        _ => None,
    }
}

#[tactic(auto, unfolding(crate::specs::Kinds::with_id))]
fn basic_kind(id: u16) -> Option<Kind>
    ensures { result ≡ with_id id basic_kinds }
{
    match id {
        10 => Some(Kind::BasicQos),
        11 => Some(Kind::BasicQosOk),
        20 => Some(Kind::BasicConsume),
        21 => Some(Kind::BasicConsumeOk),
        30 => Some(Kind::BasicCancel),
        31 => Some(Kind::BasicCancelOk),
        40 => Some(Kind::BasicPublish),
        50 => Some(Kind::BasicReturn),
        60 => Some(Kind::BasicDeliver),
        70 => Some(Kind::BasicGet),
        71 => Some(Kind::BasicGetOk),
        72 => Some(Kind::BasicGetEmpty),
        80 => Some(Kind::BasicAck),
        90 => Some(Kind::BasicReject),
        100 => Some(Kind::BasicRecoverAsync),
        110 => Some(Kind::BasicRecover),
        111 => Some(Kind::BasicRecoverOk),
        120 => Some(Kind::BasicNack),
        _ => None,
    }
}

#[tactic(auto, unfolding(crate::specs::Kinds::with_id))]
fn tx_kind(id: u16) -> Option<Kind>
    ensures { result ≡ with_id id tx_kinds }
{
    match id {
        10 => Some(Kind::TxSelect),
        11 => Some(Kind::TxSelectOk),
        20 => Some(Kind::TxCommit),
        21 => Some(Kind::TxCommitOk),
        30 => Some(Kind::TxRollback),
        31 => Some(Kind::TxRollbackOk),
        _ => None,
    }
}

#[tactic(auto, unfolding(crate::specs::Kinds::with_id))]
fn confirm_kind(id: u16) -> Option<Kind>
    ensures { result ≡ with_id id confirm_kinds }
{
    match id {
        10 => Some(Kind::ConfirmSelect),
        11 => Some(Kind::ConfirmSelectOk),
        _ => None,
    }
}
