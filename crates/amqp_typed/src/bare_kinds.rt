//! The kinds of the methods without arguments, each as a type. The types have the names of [`Kind`]'s variants.
// Written by `tools/typed_methods.py` from the table of methods in `docs/PROTOCOL.md`: change those and run it again.
ghost use Rattle.std.proofs.Common.{refl};
ghost use Rattle.amqp_method.specs.declared.kinds.Kind.TheVariants as kind;

use crate::bare::BareKind;
use amqp_method::Kind;

/// `connection.open-ok`.
#[derive(Clone, Copy)]
pub struct ConnectionOpenOk;

impl BareKind for ConnectionOpenOk {
    ghost KIND = { kind.ConnectionOpenOk };

    const KIND: Kind = Kind::ConnectionOpenOk;

    ghost bare = { refl };
}

/// `connection.close-ok`.
#[derive(Clone, Copy)]
pub struct ConnectionCloseOk;

impl BareKind for ConnectionCloseOk {
    ghost KIND = { kind.ConnectionCloseOk };

    const KIND: Kind = Kind::ConnectionCloseOk;

    ghost bare = { refl };
}

/// `connection.unblocked`.
#[derive(Clone, Copy)]
pub struct ConnectionUnblocked;

impl BareKind for ConnectionUnblocked {
    ghost KIND = { kind.ConnectionUnblocked };

    const KIND: Kind = Kind::ConnectionUnblocked;

    ghost bare = { refl };
}

/// `channel.open`.
#[derive(Clone, Copy)]
pub struct ChannelOpen;

impl BareKind for ChannelOpen {
    ghost KIND = { kind.ChannelOpen };

    const KIND: Kind = Kind::ChannelOpen;

    ghost bare = { refl };
}

/// `channel.open-ok`.
#[derive(Clone, Copy)]
pub struct ChannelOpenOk;

impl BareKind for ChannelOpenOk {
    ghost KIND = { kind.ChannelOpenOk };

    const KIND: Kind = Kind::ChannelOpenOk;

    ghost bare = { refl };
}

/// `channel.close-ok`.
#[derive(Clone, Copy)]
pub struct ChannelCloseOk;

impl BareKind for ChannelCloseOk {
    ghost KIND = { kind.ChannelCloseOk };

    const KIND: Kind = Kind::ChannelCloseOk;

    ghost bare = { refl };
}

/// `exchange.declare-ok`.
#[derive(Clone, Copy)]
pub struct ExchangeDeclareOk;

impl BareKind for ExchangeDeclareOk {
    ghost KIND = { kind.ExchangeDeclareOk };

    const KIND: Kind = Kind::ExchangeDeclareOk;

    ghost bare = { refl };
}

/// `exchange.delete-ok`.
#[derive(Clone, Copy)]
pub struct ExchangeDeleteOk;

impl BareKind for ExchangeDeleteOk {
    ghost KIND = { kind.ExchangeDeleteOk };

    const KIND: Kind = Kind::ExchangeDeleteOk;

    ghost bare = { refl };
}

/// `exchange.bind-ok`.
#[derive(Clone, Copy)]
pub struct ExchangeBindOk;

impl BareKind for ExchangeBindOk {
    ghost KIND = { kind.ExchangeBindOk };

    const KIND: Kind = Kind::ExchangeBindOk;

    ghost bare = { refl };
}

/// `exchange.unbind-ok`.
#[derive(Clone, Copy)]
pub struct ExchangeUnbindOk;

impl BareKind for ExchangeUnbindOk {
    ghost KIND = { kind.ExchangeUnbindOk };

    const KIND: Kind = Kind::ExchangeUnbindOk;

    ghost bare = { refl };
}

/// `queue.bind-ok`.
#[derive(Clone, Copy)]
pub struct QueueBindOk;

impl BareKind for QueueBindOk {
    ghost KIND = { kind.QueueBindOk };

    const KIND: Kind = Kind::QueueBindOk;

    ghost bare = { refl };
}

/// `queue.unbind-ok`.
#[derive(Clone, Copy)]
pub struct QueueUnbindOk;

impl BareKind for QueueUnbindOk {
    ghost KIND = { kind.QueueUnbindOk };

    const KIND: Kind = Kind::QueueUnbindOk;

    ghost bare = { refl };
}

/// `basic.qos-ok`.
#[derive(Clone, Copy)]
pub struct BasicQosOk;

impl BareKind for BasicQosOk {
    ghost KIND = { kind.BasicQosOk };

    const KIND: Kind = Kind::BasicQosOk;

    ghost bare = { refl };
}

/// `basic.get-empty`.
#[derive(Clone, Copy)]
pub struct BasicGetEmpty;

impl BareKind for BasicGetEmpty {
    ghost KIND = { kind.BasicGetEmpty };

    const KIND: Kind = Kind::BasicGetEmpty;

    ghost bare = { refl };
}

/// `basic.recover-ok`.
#[derive(Clone, Copy)]
pub struct BasicRecoverOk;

impl BareKind for BasicRecoverOk {
    ghost KIND = { kind.BasicRecoverOk };

    const KIND: Kind = Kind::BasicRecoverOk;

    ghost bare = { refl };
}

/// `tx.select`.
#[derive(Clone, Copy)]
pub struct TxSelect;

impl BareKind for TxSelect {
    ghost KIND = { kind.TxSelect };

    const KIND: Kind = Kind::TxSelect;

    ghost bare = { refl };
}

/// `tx.select-ok`.
#[derive(Clone, Copy)]
pub struct TxSelectOk;

impl BareKind for TxSelectOk {
    ghost KIND = { kind.TxSelectOk };

    const KIND: Kind = Kind::TxSelectOk;

    ghost bare = { refl };
}

/// `tx.commit`.
#[derive(Clone, Copy)]
pub struct TxCommit;

impl BareKind for TxCommit {
    ghost KIND = { kind.TxCommit };

    const KIND: Kind = Kind::TxCommit;

    ghost bare = { refl };
}

/// `tx.commit-ok`.
#[derive(Clone, Copy)]
pub struct TxCommitOk;

impl BareKind for TxCommitOk {
    ghost KIND = { kind.TxCommitOk };

    const KIND: Kind = Kind::TxCommitOk;

    ghost bare = { refl };
}

/// `tx.rollback`.
#[derive(Clone, Copy)]
pub struct TxRollback;

impl BareKind for TxRollback {
    ghost KIND = { kind.TxRollback };

    const KIND: Kind = Kind::TxRollback;

    ghost bare = { refl };
}

/// `tx.rollback-ok`.
#[derive(Clone, Copy)]
pub struct TxRollbackOk;

impl BareKind for TxRollbackOk {
    ghost KIND = { kind.TxRollbackOk };

    const KIND: Kind = Kind::TxRollbackOk;

    ghost bare = { refl };
}

/// `confirm.select-ok`.
#[derive(Clone, Copy)]
pub struct ConfirmSelectOk;

impl BareKind for ConfirmSelectOk {
    ghost KIND = { kind.ConfirmSelectOk };

    const KIND: Kind = Kind::ConfirmSelectOk;

    ghost bare = { refl };
}
