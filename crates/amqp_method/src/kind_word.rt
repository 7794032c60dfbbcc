//! A kind of method, kept as a word.
ghost use Rattle.std.specs.Cmp.{and_equiv, nat_eq_equiv, on_equiv, partial_equiv_from_equiv};
ghost use Rattle.amqp_method.specs.Kinds.{class_of, id_of, same_kind};

use crate::kinds::Kind;
use crate::table::{Row, row_for};
use std::fmt;
use std::marker::Model;

/// The kinds, each at its number.
static KINDS: [Kind; 62] = [
    Kind::ConnectionStart,
    Kind::ConnectionStartOk,
    Kind::ConnectionSecure,
    Kind::ConnectionSecureOk,
    Kind::ConnectionTune,
    Kind::ConnectionTuneOk,
    Kind::ConnectionOpen,
    Kind::ConnectionOpenOk,
    Kind::ConnectionClose,
    Kind::ConnectionCloseOk,
    Kind::ConnectionBlocked,
    Kind::ConnectionUnblocked,
    Kind::ChannelOpen,
    Kind::ChannelOpenOk,
    Kind::ChannelFlow,
    Kind::ChannelFlowOk,
    Kind::ChannelClose,
    Kind::ChannelCloseOk,
    Kind::ExchangeDeclare,
    Kind::ExchangeDeclareOk,
    Kind::ExchangeDelete,
    Kind::ExchangeDeleteOk,
    Kind::ExchangeBind,
    Kind::ExchangeBindOk,
    Kind::ExchangeUnbind,
    Kind::ExchangeUnbindOk,
    Kind::QueueDeclare,
    Kind::QueueDeclareOk,
    Kind::QueueBind,
    Kind::QueueBindOk,
    Kind::QueueUnbind,
    Kind::QueueUnbindOk,
    Kind::QueuePurge,
    Kind::QueuePurgeOk,
    Kind::QueueDelete,
    Kind::QueueDeleteOk,
    Kind::BasicQos,
    Kind::BasicQosOk,
    Kind::BasicConsume,
    Kind::BasicConsumeOk,
    Kind::BasicCancel,
    Kind::BasicCancelOk,
    Kind::BasicPublish,
    Kind::BasicReturn,
    Kind::BasicDeliver,
    Kind::BasicGet,
    Kind::BasicGetOk,
    Kind::BasicGetEmpty,
    Kind::BasicAck,
    Kind::BasicReject,
    Kind::BasicRecoverAsync,
    Kind::BasicRecover,
    Kind::BasicRecoverOk,
    Kind::BasicNack,
    Kind::TxSelect,
    Kind::TxSelectOk,
    Kind::TxCommit,
    Kind::TxCommitOk,
    Kind::TxRollback,
    Kind::TxRollbackOk,
    Kind::ConfirmSelect,
    Kind::ConfirmSelectOk,
];

/// A kind of method, kept as its number: its place in the order of `amqp0-9-1.xml`, from 0.
///
/// A method is moved word by word, and its kind alone is one octet, which a move reads with the seven beside it: it
/// would wait for what was written in parts a moment before.
#[derive(Drop)]
pub(crate) struct KindWord {
    number: u64,
}

impl Model for KindWord {
    ghost use Rattle.std.specs.Prelude.{◌<◌};
    ghost use Rattle.amqp_method.specs.declared.kinds.Kind.{Kind};
    ghost use Rattle.amqp_method.specs.Kinds.{kind_numbered};

    ghost Value = { Kind };

    ghost view = { λ word. kind_numbered word.number };

    ghost invariant = { λ word. word.number < 62 };
}

impl PartialEq for KindWord {
    ghost eq = { same_kind };

    ghost laws = { partial_equiv_from_equiv (and_equiv (on_equiv class_of nat_eq_equiv)
        (on_equiv id_of nat_eq_equiv)) };

    fn eq(&self, other: &KindWord) -> bool {
        self.kind().is_same(other.kind())
    }
}

impl Eq for KindWord {
    ghost laws = { and_equiv (on_equiv class_of nat_eq_equiv) (on_equiv id_of nat_eq_equiv) };
}

impl fmt::Debug for KindWord {
    fn fmt<W: fmt::Write>(&self, f: &mut fmt::Formatter<W>) -> fmt::Result {
        fmt::Debug::fmt(&self.kind(), f)
    }
}

impl KindWord {
    ghost use Rattle.std.specs.Prelude.{◌≡◌};
    ghost use Rattle.amqp_method.specs.Methods.{row};
    ghost use Rattle.amqp_method.specs.Rows.{row_view};

    /// This kind.
    #[tactic(auto, unfolding(crate::specs::Kinds::kind_numbered))]
    pub(crate) fn new(kind: Kind) -> KindWord
        ensures { result ≡ kind }
    {
        KindWord {
            number: kind as u64,
        }
    }

    /// The same.
    pub(crate) fn copy(&self) -> KindWord
        ensures { result ≡ self.now }
    {
        KindWord {
            number: self.number,
        }
    }

    #[tactic(auto, unfolding(crate::specs::Kinds::kind_numbered))]
    pub(crate) fn kind(&self) -> Kind
        ensures { result ≡ self.now }
    {
        KINDS[self.number as usize]
    }

    /// What the table says of it.
    pub(crate) fn row(&self) -> &'static Row
        ensures { row_view result.now ≡ row self.now }
    {
        row_for(self.kind())
    }
}
