//! The methods of the class basic (`amqp0-9-1.xml`, class 60).
// Written by `tools/typed_methods.py` from the table of methods in `docs/PROTOCOL.md`: change those and run it again.
ghost use Rattle.std.specs.Prelude.{◌≡◌, IfOk, false, ◌∷◌, []};
ghost use Rattle.amqp_value.specs.Values.{no_pairs};
ghost use Rattle.amqp_method.specs.Arguments.{call, bit, short, long, long_long, short_string, table};
ghost use Rattle.amqp_method.specs.HeaderView.{properties_view};
ghost use Rattle.amqp_method.specs.MessageView.{message_view};
ghost use Rattle.amqp_method.specs.Messages.{letter_with};
ghost use Rattle.amqp_method.specs.MethodRefView.{lent_call};
ghost use Rattle.amqp_method.specs.MethodView.{method_view};
ghost use Rattle.amqp_method.specs.Methods.{row};
ghost use Rattle.amqp_method.specs.declared.kinds.Kind.TheVariants.{BasicQos, BasicConsume, BasicConsumeOk, BasicCancel, BasicCancelOk, BasicPublish, BasicReturn, BasicDeliver, BasicGet, BasicGetOk, BasicAck, BasicReject, BasicRecoverAsync, BasicRecover, BasicNack};
ghost use Rattle.amqp_typed.specs.Basic.{qos_call, consume_call, consume_ok_call, cancel_call, cancel_ok_call, publish_call, return_call, deliver_call, get_call, get_ok_call, ack_call, reject_call, recover_async_call, recover_call, nack_call, consume_ref_call, consume_ok_ref_call, cancel_ref_call, cancel_ok_ref_call, publish_ref_call, return_ref_call, deliver_ref_call, get_ref_call, get_ok_ref_call, consume_view_call, consume_ok_view_call, cancel_view_call, cancel_ok_view_call, publish_view_call, return_view_call, deliver_view_call, get_view_call, get_ok_view_call, any_call, any_view_call};

use crate::args::{
    bit, bit_at, five, four, long, long_at, long_long, long_long_at, method_of, one, own_args,
    seven, short, short_at, short_str, short_str_at, table, table_at, two,
};
use crate::bare::Bare;
use crate::bare_kinds::{BasicGetEmpty, BasicQosOk, BasicRecoverOk};
use crate::contents::content_of;
use crate::typed::{Typed, TypedRef, TypedView};
use crate::views::{bit_in, kind_in, long_in, long_long_in, short_in, short_str_in, table_in};
use amqp_method::{Arg, Kind, Message, Method, MethodRef, OutOfMemory, Properties};
use amqp_value::{ShortStr, Table, TableRef};
use std::alloc::Global;
use std::fmt;

/// Limits what the server sends ahead of acknowledgements. `basic.qos`, class 60, method 10.
#[derive(Clone, Copy, PartialEq, Eq, Debug)]
pub struct Qos {
    /// In octets; 0 sets no limit.
    pub prefetch_size: u32,
    /// In messages; 0 sets no limit.
    pub prefetch_count: u16,
    /// The limits are those of the whole channel.
    pub global: bool,
}

impl Qos {
    /// With no bit set and `prefetch_size` 0.
    pub fn new(prefetch_count: u16) -> Qos
        ensures { qos_call result ≡ call BasicQos (long 0 ∷ short prefetch_count ∷ bit false ∷ []) }
    {
        Qos {
            prefetch_size: 0,
            prefetch_count,
            global: false,
        }
    }
}

impl Typed for Qos {
    ghost KIND = { BasicQos };

    ghost says = { qos_call };

    const KIND: Kind = Kind::BasicQos;

    fn into_method(self, alloc: Global) -> Result<Method, OutOfMemory> {
        method_of(
            alloc,
            Kind::BasicQos,
            [
                Arg::Long(self.prefetch_size),
                Arg::Short(self.prefetch_count),
                Arg::Bit(self.global),
            ],
        )
    }

    fn of_method(method: Method) -> Qos {
        Qos::of_ref(&method)
    }
}

impl<'a> TypedRef<'a> for Qos {
    type Of = Qos;

    ghost lends = { qos_call };

    fn of_ref(method: &'a Method) -> Qos {
        Qos {
            prefetch_size: long_at(method, 0),
            prefetch_count: short_at(method, 1),
            global: bit_at(method, 2),
        }
    }
}

impl<'a> TypedView<'a> for Qos {
    type Of = Qos;

    ghost shows = { qos_call };

    fn of_view(method: MethodRef<'a>) -> Qos {
        Qos {
            prefetch_size: long_in(method, 0),
            prefetch_count: short_in(method, 1),
            global: bit_in(method, 2),
        }
    }
}

/// Confirms the limits. `basic.qos-ok`, class 60, method 11.
pub type QosOk = Bare<BasicQosOk>;

/// Starts a consumer of a queue. `basic.consume`, class 60, method 20.
#[derive(Debug, Drop, PartialEq, Eq)]
pub struct Consume {
    pub queue: ShortStr,
    /// A name of the consumer on its channel; empty for one that the server makes up.
    pub consumer_tag: ShortStr,
    /// No messages that this connection published.
    pub no_local: bool,
    /// Messages count as acknowledged as they are sent.
    pub no_ack: bool,
    /// No other consumer may use the queue.
    pub exclusive: bool,
    /// The server sends no reply.
    pub no_wait: bool,
    pub arguments: Table,
}

impl Consume {
    /// With no bit set and an empty table.
    pub fn new(alloc: Global, queue: ShortStr, consumer_tag: ShortStr) -> Consume
        ensures { consume_call result ≡ call BasicConsume
            (short_string queue ∷ short_string consumer_tag ∷ bit false ∷ bit false ∷ bit false
            ∷ bit false ∷ table no_pairs ∷ []) }
    {
        Consume {
            queue,
            consumer_tag,
            no_local: false,
            no_ack: false,
            exclusive: false,
            no_wait: false,
            arguments: Table::new(alloc),
        }
    }
}

impl Typed for Consume {
    ghost KIND = { BasicConsume };

    ghost says = { consume_call };

    const KIND: Kind = Kind::BasicConsume;

    fn into_method(self, alloc: Global) -> Result<Method, OutOfMemory> {
        method_of(
            alloc,
            Kind::BasicConsume,
            [
                Arg::ShortStr(self.queue),
                Arg::ShortStr(self.consumer_tag),
                Arg::Bit(self.no_local),
                Arg::Bit(self.no_ack),
                Arg::Bit(self.exclusive),
                Arg::Bit(self.no_wait),
                Arg::Table(self.arguments),
            ],
        )
    }

    fn of_method(method: Method) -> Consume {
        let taken = seven(own_args(method, Kind::BasicConsume));
        Consume {
            queue: short_str(taken.0),
            consumer_tag: short_str(taken.1),
            no_local: bit(taken.2),
            no_ack: bit(taken.3),
            exclusive: bit(taken.4),
            no_wait: bit(taken.5),
            arguments: table(taken.6),
        }
    }
}

/// [`Consume`], lent by a method.
#[derive(Clone, Copy)]
pub struct ConsumeRef<'a> {
    pub queue: &'a ShortStr,
    pub consumer_tag: &'a ShortStr,
    pub no_local: bool,
    pub no_ack: bool,
    pub exclusive: bool,
    pub no_wait: bool,
    pub arguments: &'a Table,
}

impl<'a> TypedRef<'a> for ConsumeRef<'a> {
    type Of = Consume;

    ghost lends = { consume_ref_call };

    fn of_ref(method: &'a Method) -> ConsumeRef<'a> {
        ConsumeRef {
            queue: short_str_at(method, 0),
            consumer_tag: short_str_at(method, 1),
            no_local: bit_at(method, 2),
            no_ack: bit_at(method, 3),
            exclusive: bit_at(method, 4),
            no_wait: bit_at(method, 5),
            arguments: table_at(method, 6),
        }
    }
}

/// [`Consume`], as it lies in its payload.
#[derive(Clone, Copy)]
pub struct ConsumeView<'a> {
    pub queue: &'a [u8],
    pub consumer_tag: &'a [u8],
    pub no_local: bool,
    pub no_ack: bool,
    pub exclusive: bool,
    pub no_wait: bool,
    pub arguments: TableRef<'a>,
}

impl<'a> TypedView<'a> for ConsumeView<'a> {
    type Of = Consume;

    ghost shows = { consume_view_call };

    fn of_view(method: MethodRef<'a>) -> ConsumeView<'a> {
        ConsumeView {
            queue: short_str_in(method, 0),
            consumer_tag: short_str_in(method, 1),
            no_local: bit_in(method, 2),
            no_ack: bit_in(method, 3),
            exclusive: bit_in(method, 4),
            no_wait: bit_in(method, 5),
            arguments: table_in(method, 6),
        }
    }
}

/// Gives the tag of the consumer that was started. `basic.consume-ok`, class 60, method 21.
#[derive(Debug, Drop, PartialEq, Eq)]
pub struct ConsumeOk {
    pub consumer_tag: ShortStr,
}

impl ConsumeOk {
    /// With these arguments.
    pub fn new(consumer_tag: ShortStr) -> ConsumeOk
        ensures { consume_ok_call result ≡ call BasicConsumeOk (short_string consumer_tag ∷ []) }
    {
        ConsumeOk { consumer_tag }
    }
}

impl Typed for ConsumeOk {
    ghost KIND = { BasicConsumeOk };

    ghost says = { consume_ok_call };

    const KIND: Kind = Kind::BasicConsumeOk;

    fn into_method(self, alloc: Global) -> Result<Method, OutOfMemory> {
        method_of(
            alloc,
            Kind::BasicConsumeOk,
            [Arg::ShortStr(self.consumer_tag)],
        )
    }

    fn of_method(method: Method) -> ConsumeOk {
        let taken = one(own_args(method, Kind::BasicConsumeOk));
        ConsumeOk {
            consumer_tag: short_str(taken),
        }
    }
}

/// [`ConsumeOk`], lent by a method.
#[derive(Clone, Copy)]
pub struct ConsumeOkRef<'a> {
    pub consumer_tag: &'a ShortStr,
}

impl<'a> TypedRef<'a> for ConsumeOkRef<'a> {
    type Of = ConsumeOk;

    ghost lends = { consume_ok_ref_call };

    fn of_ref(method: &'a Method) -> ConsumeOkRef<'a> {
        ConsumeOkRef {
            consumer_tag: short_str_at(method, 0),
        }
    }
}

/// [`ConsumeOk`], as it lies in its payload.
#[derive(Clone, Copy)]
pub struct ConsumeOkView<'a> {
    pub consumer_tag: &'a [u8],
}

impl<'a> TypedView<'a> for ConsumeOkView<'a> {
    type Of = ConsumeOk;

    ghost shows = { consume_ok_view_call };

    fn of_view(method: MethodRef<'a>) -> ConsumeOkView<'a> {
        ConsumeOkView {
            consumer_tag: short_str_in(method, 0),
        }
    }
}

/// Ends a consumer. `basic.cancel`, class 60, method 30.
#[derive(Debug, Drop, PartialEq, Eq)]
pub struct Cancel {
    pub consumer_tag: ShortStr,
    /// The server sends no reply.
    pub no_wait: bool,
}

impl Cancel {
    /// With no bit set.
    pub fn new(consumer_tag: ShortStr) -> Cancel
        ensures { cancel_call result ≡ call BasicCancel
            (short_string consumer_tag ∷ bit false ∷ []) }
    {
        Cancel {
            consumer_tag,
            no_wait: false,
        }
    }
}

impl Typed for Cancel {
    ghost KIND = { BasicCancel };

    ghost says = { cancel_call };

    const KIND: Kind = Kind::BasicCancel;

    fn into_method(self, alloc: Global) -> Result<Method, OutOfMemory> {
        method_of(
            alloc,
            Kind::BasicCancel,
            [Arg::ShortStr(self.consumer_tag), Arg::Bit(self.no_wait)],
        )
    }

    fn of_method(method: Method) -> Cancel {
        let taken = two(own_args(method, Kind::BasicCancel));
        Cancel {
            consumer_tag: short_str(taken.0),
            no_wait: bit(taken.1),
        }
    }
}

/// [`Cancel`], lent by a method.
#[derive(Clone, Copy)]
pub struct CancelRef<'a> {
    pub consumer_tag: &'a ShortStr,
    pub no_wait: bool,
}

impl<'a> TypedRef<'a> for CancelRef<'a> {
    type Of = Cancel;

    ghost lends = { cancel_ref_call };

    fn of_ref(method: &'a Method) -> CancelRef<'a> {
        CancelRef {
            consumer_tag: short_str_at(method, 0),
            no_wait: bit_at(method, 1),
        }
    }
}

/// [`Cancel`], as it lies in its payload.
#[derive(Clone, Copy)]
pub struct CancelView<'a> {
    pub consumer_tag: &'a [u8],
    pub no_wait: bool,
}

impl<'a> TypedView<'a> for CancelView<'a> {
    type Of = Cancel;

    ghost shows = { cancel_view_call };

    fn of_view(method: MethodRef<'a>) -> CancelView<'a> {
        CancelView {
            consumer_tag: short_str_in(method, 0),
            no_wait: bit_in(method, 1),
        }
    }
}

/// Confirms that the consumer has ended. `basic.cancel-ok`, class 60, method 31.
#[derive(Debug, Drop, PartialEq, Eq)]
pub struct CancelOk {
    pub consumer_tag: ShortStr,
}

impl CancelOk {
    /// With these arguments.
    pub fn new(consumer_tag: ShortStr) -> CancelOk
        ensures { cancel_ok_call result ≡ call BasicCancelOk (short_string consumer_tag ∷ []) }
    {
        CancelOk { consumer_tag }
    }
}

impl Typed for CancelOk {
    ghost KIND = { BasicCancelOk };

    ghost says = { cancel_ok_call };

    const KIND: Kind = Kind::BasicCancelOk;

    fn into_method(self, alloc: Global) -> Result<Method, OutOfMemory> {
        method_of(
            alloc,
            Kind::BasicCancelOk,
            [Arg::ShortStr(self.consumer_tag)],
        )
    }

    fn of_method(method: Method) -> CancelOk {
        let taken = one(own_args(method, Kind::BasicCancelOk));
        CancelOk {
            consumer_tag: short_str(taken),
        }
    }
}

/// [`CancelOk`], lent by a method.
#[derive(Clone, Copy)]
pub struct CancelOkRef<'a> {
    pub consumer_tag: &'a ShortStr,
}

impl<'a> TypedRef<'a> for CancelOkRef<'a> {
    type Of = CancelOk;

    ghost lends = { cancel_ok_ref_call };

    fn of_ref(method: &'a Method) -> CancelOkRef<'a> {
        CancelOkRef {
            consumer_tag: short_str_at(method, 0),
        }
    }
}

/// [`CancelOk`], as it lies in its payload.
#[derive(Clone, Copy)]
pub struct CancelOkView<'a> {
    pub consumer_tag: &'a [u8],
}

impl<'a> TypedView<'a> for CancelOkView<'a> {
    type Of = CancelOk;

    ghost shows = { cancel_ok_view_call };

    fn of_view(method: MethodRef<'a>) -> CancelOkView<'a> {
        CancelOkView {
            consumer_tag: short_str_in(method, 0),
        }
    }
}

/// Publishes a message to an exchange. `basic.publish`, class 60, method 40.
#[derive(Debug, Drop, PartialEq, Eq)]
pub struct Publish {
    /// The name of the exchange; empty for the default one, which routes to queues by their names.
    pub exchange: ShortStr,
    pub routing_key: ShortStr,
    /// The message is returned if it can't be routed to a queue.
    pub mandatory: bool,
    /// The message is returned if no consumer can take it at once.
    pub immediate: bool,
}

impl Publish {
    /// With no bit set.
    pub fn new(exchange: ShortStr, routing_key: ShortStr) -> Publish
        ensures { publish_call result ≡ call BasicPublish
            (short_string exchange ∷ short_string routing_key ∷ bit false ∷ bit false ∷ []) }
    {
        Publish {
            exchange,
            routing_key,
            mandatory: false,
            immediate: false,
        }
    }

    /// The message: the method with these arguments, and the content that follows it.
    pub fn message(
        self,
        alloc: Global,
        properties: Properties,
        body: Vec<u8>,
    ) -> Result<Message, OutOfMemory>
        ensures { IfOk result (λ m. message_view m
            ≡ letter_with (publish_call self) (properties_view properties) body.items) }
    {
        content_of(self.into_method(alloc), properties, body)
    }
}

impl Typed for Publish {
    ghost KIND = { BasicPublish };

    ghost says = { publish_call };

    const KIND: Kind = Kind::BasicPublish;

    fn into_method(self, alloc: Global) -> Result<Method, OutOfMemory> {
        method_of(
            alloc,
            Kind::BasicPublish,
            [
                Arg::ShortStr(self.exchange),
                Arg::ShortStr(self.routing_key),
                Arg::Bit(self.mandatory),
                Arg::Bit(self.immediate),
            ],
        )
    }

    fn of_method(method: Method) -> Publish {
        let taken = four(own_args(method, Kind::BasicPublish));
        Publish {
            exchange: short_str(taken.0),
            routing_key: short_str(taken.1),
            mandatory: bit(taken.2),
            immediate: bit(taken.3),
        }
    }
}

/// [`Publish`], lent by a method.
#[derive(Clone, Copy)]
pub struct PublishRef<'a> {
    pub exchange: &'a ShortStr,
    pub routing_key: &'a ShortStr,
    pub mandatory: bool,
    pub immediate: bool,
}

impl<'a> TypedRef<'a> for PublishRef<'a> {
    type Of = Publish;

    ghost lends = { publish_ref_call };

    fn of_ref(method: &'a Method) -> PublishRef<'a> {
        PublishRef {
            exchange: short_str_at(method, 0),
            routing_key: short_str_at(method, 1),
            mandatory: bit_at(method, 2),
            immediate: bit_at(method, 3),
        }
    }
}

/// [`Publish`], as it lies in its payload.
#[derive(Clone, Copy)]
pub struct PublishView<'a> {
    pub exchange: &'a [u8],
    pub routing_key: &'a [u8],
    pub mandatory: bool,
    pub immediate: bool,
}

impl<'a> TypedView<'a> for PublishView<'a> {
    type Of = Publish;

    ghost shows = { publish_view_call };

    fn of_view(method: MethodRef<'a>) -> PublishView<'a> {
        PublishView {
            exchange: short_str_in(method, 0),
            routing_key: short_str_in(method, 1),
            mandatory: bit_in(method, 2),
            immediate: bit_in(method, 3),
        }
    }
}

/// Returns a message that could not be routed or delivered. `basic.return`, class 60, method 50.
#[derive(Debug, Drop, PartialEq, Eq)]
pub struct Return {
    pub reply_code: u16,
    pub reply_text: ShortStr,
    pub exchange: ShortStr,
    pub routing_key: ShortStr,
}

impl Return {
    /// With these arguments.
    pub fn new(
        reply_code: u16,
        reply_text: ShortStr,
        exchange: ShortStr,
        routing_key: ShortStr,
    ) -> Return
        ensures { return_call result ≡ call BasicReturn
            (short reply_code ∷ short_string reply_text ∷ short_string exchange
            ∷ short_string routing_key ∷ []) }
    {
        Return {
            reply_code,
            reply_text,
            exchange,
            routing_key,
        }
    }

    /// The message: the method with these arguments, and the content that follows it.
    pub fn message(
        self,
        alloc: Global,
        properties: Properties,
        body: Vec<u8>,
    ) -> Result<Message, OutOfMemory>
        ensures { IfOk result (λ m. message_view m
            ≡ letter_with (return_call self) (properties_view properties) body.items) }
    {
        content_of(self.into_method(alloc), properties, body)
    }
}

impl Typed for Return {
    ghost KIND = { BasicReturn };

    ghost says = { return_call };

    const KIND: Kind = Kind::BasicReturn;

    fn into_method(self, alloc: Global) -> Result<Method, OutOfMemory> {
        method_of(
            alloc,
            Kind::BasicReturn,
            [
                Arg::Short(self.reply_code),
                Arg::ShortStr(self.reply_text),
                Arg::ShortStr(self.exchange),
                Arg::ShortStr(self.routing_key),
            ],
        )
    }

    fn of_method(method: Method) -> Return {
        let taken = four(own_args(method, Kind::BasicReturn));
        Return {
            reply_code: short(taken.0),
            reply_text: short_str(taken.1),
            exchange: short_str(taken.2),
            routing_key: short_str(taken.3),
        }
    }
}

/// [`Return`], lent by a method.
#[derive(Clone, Copy)]
pub struct ReturnRef<'a> {
    pub reply_code: u16,
    pub reply_text: &'a ShortStr,
    pub exchange: &'a ShortStr,
    pub routing_key: &'a ShortStr,
}

impl<'a> TypedRef<'a> for ReturnRef<'a> {
    type Of = Return;

    ghost lends = { return_ref_call };

    fn of_ref(method: &'a Method) -> ReturnRef<'a> {
        ReturnRef {
            reply_code: short_at(method, 0),
            reply_text: short_str_at(method, 1),
            exchange: short_str_at(method, 2),
            routing_key: short_str_at(method, 3),
        }
    }
}

/// [`Return`], as it lies in its payload.
#[derive(Clone, Copy)]
pub struct ReturnView<'a> {
    pub reply_code: u16,
    pub reply_text: &'a [u8],
    pub exchange: &'a [u8],
    pub routing_key: &'a [u8],
}

impl<'a> TypedView<'a> for ReturnView<'a> {
    type Of = Return;

    ghost shows = { return_view_call };

    fn of_view(method: MethodRef<'a>) -> ReturnView<'a> {
        ReturnView {
            reply_code: short_in(method, 0),
            reply_text: short_str_in(method, 1),
            exchange: short_str_in(method, 2),
            routing_key: short_str_in(method, 3),
        }
    }
}

/// Delivers a message to a consumer. `basic.deliver`, class 60, method 60.
#[derive(Debug, Drop, PartialEq, Eq)]
pub struct Deliver {
    pub consumer_tag: ShortStr,
    /// The number of the delivery on its channel.
    pub delivery_tag: u64,
    /// The message was sent before.
    pub redelivered: bool,
    pub exchange: ShortStr,
    pub routing_key: ShortStr,
}

impl Deliver {
    /// With no bit set.
    pub fn new(
        consumer_tag: ShortStr,
        delivery_tag: u64,
        exchange: ShortStr,
        routing_key: ShortStr,
    ) -> Deliver
        ensures { deliver_call result ≡ call BasicDeliver
            (short_string consumer_tag ∷ long_long delivery_tag ∷ bit false ∷ short_string exchange
            ∷ short_string routing_key ∷ []) }
    {
        Deliver {
            consumer_tag,
            delivery_tag,
            redelivered: false,
            exchange,
            routing_key,
        }
    }

    /// The message: the method with these arguments, and the content that follows it.
    pub fn message(
        self,
        alloc: Global,
        properties: Properties,
        body: Vec<u8>,
    ) -> Result<Message, OutOfMemory>
        ensures { IfOk result (λ m. message_view m
            ≡ letter_with (deliver_call self) (properties_view properties) body.items) }
    {
        content_of(self.into_method(alloc), properties, body)
    }
}

impl Typed for Deliver {
    ghost KIND = { BasicDeliver };

    ghost says = { deliver_call };

    const KIND: Kind = Kind::BasicDeliver;

    fn into_method(self, alloc: Global) -> Result<Method, OutOfMemory> {
        method_of(
            alloc,
            Kind::BasicDeliver,
            [
                Arg::ShortStr(self.consumer_tag),
                Arg::LongLong(self.delivery_tag),
                Arg::Bit(self.redelivered),
                Arg::ShortStr(self.exchange),
                Arg::ShortStr(self.routing_key),
            ],
        )
    }

    fn of_method(method: Method) -> Deliver {
        let taken = five(own_args(method, Kind::BasicDeliver));
        Deliver {
            consumer_tag: short_str(taken.0),
            delivery_tag: long_long(taken.1),
            redelivered: bit(taken.2),
            exchange: short_str(taken.3),
            routing_key: short_str(taken.4),
        }
    }
}

/// [`Deliver`], lent by a method.
#[derive(Clone, Copy)]
pub struct DeliverRef<'a> {
    pub consumer_tag: &'a ShortStr,
    pub delivery_tag: u64,
    pub redelivered: bool,
    pub exchange: &'a ShortStr,
    pub routing_key: &'a ShortStr,
}

impl<'a> TypedRef<'a> for DeliverRef<'a> {
    type Of = Deliver;

    ghost lends = { deliver_ref_call };

    fn of_ref(method: &'a Method) -> DeliverRef<'a> {
        DeliverRef {
            consumer_tag: short_str_at(method, 0),
            delivery_tag: long_long_at(method, 1),
            redelivered: bit_at(method, 2),
            exchange: short_str_at(method, 3),
            routing_key: short_str_at(method, 4),
        }
    }
}

/// [`Deliver`], as it lies in its payload.
#[derive(Clone, Copy)]
pub struct DeliverView<'a> {
    pub consumer_tag: &'a [u8],
    pub delivery_tag: u64,
    pub redelivered: bool,
    pub exchange: &'a [u8],
    pub routing_key: &'a [u8],
}

impl<'a> TypedView<'a> for DeliverView<'a> {
    type Of = Deliver;

    ghost shows = { deliver_view_call };

    fn of_view(method: MethodRef<'a>) -> DeliverView<'a> {
        DeliverView {
            consumer_tag: short_str_in(method, 0),
            delivery_tag: long_long_in(method, 1),
            redelivered: bit_in(method, 2),
            exchange: short_str_in(method, 3),
            routing_key: short_str_in(method, 4),
        }
    }
}

/// Asks for one message of a queue. `basic.get`, class 60, method 70.
#[derive(Debug, Drop, PartialEq, Eq)]
pub struct Get {
    pub queue: ShortStr,
    /// Messages count as acknowledged as they are sent.
    pub no_ack: bool,
}

impl Get {
    /// With no bit set.
    pub fn new(queue: ShortStr) -> Get
        ensures { get_call result ≡ call BasicGet (short_string queue ∷ bit false ∷ []) }
    {
        Get {
            queue,
            no_ack: false,
        }
    }
}

impl Typed for Get {
    ghost KIND = { BasicGet };

    ghost says = { get_call };

    const KIND: Kind = Kind::BasicGet;

    fn into_method(self, alloc: Global) -> Result<Method, OutOfMemory> {
        method_of(
            alloc,
            Kind::BasicGet,
            [Arg::ShortStr(self.queue), Arg::Bit(self.no_ack)],
        )
    }

    fn of_method(method: Method) -> Get {
        let taken = two(own_args(method, Kind::BasicGet));
        Get {
            queue: short_str(taken.0),
            no_ack: bit(taken.1),
        }
    }
}

/// [`Get`], lent by a method.
#[derive(Clone, Copy)]
pub struct GetRef<'a> {
    pub queue: &'a ShortStr,
    pub no_ack: bool,
}

impl<'a> TypedRef<'a> for GetRef<'a> {
    type Of = Get;

    ghost lends = { get_ref_call };

    fn of_ref(method: &'a Method) -> GetRef<'a> {
        GetRef {
            queue: short_str_at(method, 0),
            no_ack: bit_at(method, 1),
        }
    }
}

/// [`Get`], as it lies in its payload.
#[derive(Clone, Copy)]
pub struct GetView<'a> {
    pub queue: &'a [u8],
    pub no_ack: bool,
}

impl<'a> TypedView<'a> for GetView<'a> {
    type Of = Get;

    ghost shows = { get_view_call };

    fn of_view(method: MethodRef<'a>) -> GetView<'a> {
        GetView {
            queue: short_str_in(method, 0),
            no_ack: bit_in(method, 1),
        }
    }
}

/// Delivers the message that was asked for. `basic.get-ok`, class 60, method 71.
#[derive(Debug, Drop, PartialEq, Eq)]
pub struct GetOk {
    /// The number of the delivery on its channel.
    pub delivery_tag: u64,
    /// The message was sent before.
    pub redelivered: bool,
    pub exchange: ShortStr,
    pub routing_key: ShortStr,
    /// How many messages are left in the queue.
    pub message_count: u32,
}

impl GetOk {
    /// With no bit set.
    pub fn new(
        delivery_tag: u64,
        exchange: ShortStr,
        routing_key: ShortStr,
        message_count: u32,
    ) -> GetOk
        ensures { get_ok_call result ≡ call BasicGetOk
            (long_long delivery_tag ∷ bit false ∷ short_string exchange ∷ short_string routing_key
            ∷ long message_count ∷ []) }
    {
        GetOk {
            delivery_tag,
            redelivered: false,
            exchange,
            routing_key,
            message_count,
        }
    }

    /// The message: the method with these arguments, and the content that follows it.
    pub fn message(
        self,
        alloc: Global,
        properties: Properties,
        body: Vec<u8>,
    ) -> Result<Message, OutOfMemory>
        ensures { IfOk result (λ m. message_view m
            ≡ letter_with (get_ok_call self) (properties_view properties) body.items) }
    {
        content_of(self.into_method(alloc), properties, body)
    }
}

impl Typed for GetOk {
    ghost KIND = { BasicGetOk };

    ghost says = { get_ok_call };

    const KIND: Kind = Kind::BasicGetOk;

    fn into_method(self, alloc: Global) -> Result<Method, OutOfMemory> {
        method_of(
            alloc,
            Kind::BasicGetOk,
            [
                Arg::LongLong(self.delivery_tag),
                Arg::Bit(self.redelivered),
                Arg::ShortStr(self.exchange),
                Arg::ShortStr(self.routing_key),
                Arg::Long(self.message_count),
            ],
        )
    }

    fn of_method(method: Method) -> GetOk {
        let taken = five(own_args(method, Kind::BasicGetOk));
        GetOk {
            delivery_tag: long_long(taken.0),
            redelivered: bit(taken.1),
            exchange: short_str(taken.2),
            routing_key: short_str(taken.3),
            message_count: long(taken.4),
        }
    }
}

/// [`GetOk`], lent by a method.
#[derive(Clone, Copy)]
pub struct GetOkRef<'a> {
    pub delivery_tag: u64,
    pub redelivered: bool,
    pub exchange: &'a ShortStr,
    pub routing_key: &'a ShortStr,
    pub message_count: u32,
}

impl<'a> TypedRef<'a> for GetOkRef<'a> {
    type Of = GetOk;

    ghost lends = { get_ok_ref_call };

    fn of_ref(method: &'a Method) -> GetOkRef<'a> {
        GetOkRef {
            delivery_tag: long_long_at(method, 0),
            redelivered: bit_at(method, 1),
            exchange: short_str_at(method, 2),
            routing_key: short_str_at(method, 3),
            message_count: long_at(method, 4),
        }
    }
}

/// [`GetOk`], as it lies in its payload.
#[derive(Clone, Copy)]
pub struct GetOkView<'a> {
    pub delivery_tag: u64,
    pub redelivered: bool,
    pub exchange: &'a [u8],
    pub routing_key: &'a [u8],
    pub message_count: u32,
}

impl<'a> TypedView<'a> for GetOkView<'a> {
    type Of = GetOk;

    ghost shows = { get_ok_view_call };

    fn of_view(method: MethodRef<'a>) -> GetOkView<'a> {
        GetOkView {
            delivery_tag: long_long_in(method, 0),
            redelivered: bit_in(method, 1),
            exchange: short_str_in(method, 2),
            routing_key: short_str_in(method, 3),
            message_count: long_in(method, 4),
        }
    }
}

/// Says that the queue has no message. `basic.get-empty`, class 60, method 72.
pub type GetEmpty = Bare<BasicGetEmpty>;

/// Acknowledges one message or several. `basic.ack`, class 60, method 80.
#[derive(Clone, Copy, PartialEq, Eq, Debug)]
pub struct Ack {
    /// The number of the delivery on its channel.
    pub delivery_tag: u64,
    /// All messages up to this one, too.
    pub multiple: bool,
}

impl Ack {
    /// With no bit set.
    pub fn new(delivery_tag: u64) -> Ack
        ensures { ack_call result ≡ call BasicAck (long_long delivery_tag ∷ bit false ∷ []) }
    {
        Ack {
            delivery_tag,
            multiple: false,
        }
    }
}

impl Typed for Ack {
    ghost KIND = { BasicAck };

    ghost says = { ack_call };

    const KIND: Kind = Kind::BasicAck;

    fn into_method(self, alloc: Global) -> Result<Method, OutOfMemory> {
        method_of(
            alloc,
            Kind::BasicAck,
            [Arg::LongLong(self.delivery_tag), Arg::Bit(self.multiple)],
        )
    }

    fn of_method(method: Method) -> Ack {
        Ack::of_ref(&method)
    }
}

impl<'a> TypedRef<'a> for Ack {
    type Of = Ack;

    ghost lends = { ack_call };

    fn of_ref(method: &'a Method) -> Ack {
        Ack {
            delivery_tag: long_long_at(method, 0),
            multiple: bit_at(method, 1),
        }
    }
}

impl<'a> TypedView<'a> for Ack {
    type Of = Ack;

    ghost shows = { ack_call };

    fn of_view(method: MethodRef<'a>) -> Ack {
        Ack {
            delivery_tag: long_long_in(method, 0),
            multiple: bit_in(method, 1),
        }
    }
}

/// Rejects a message. `basic.reject`, class 60, method 90.
#[derive(Clone, Copy, PartialEq, Eq, Debug)]
pub struct Reject {
    /// The number of the delivery on its channel.
    pub delivery_tag: u64,
    /// The message goes back to its queue.
    pub requeue: bool,
}

impl Reject {
    /// With no bit set.
    pub fn new(delivery_tag: u64) -> Reject
        ensures { reject_call result ≡ call BasicReject (long_long delivery_tag ∷ bit false ∷ []) }
    {
        Reject {
            delivery_tag,
            requeue: false,
        }
    }
}

impl Typed for Reject {
    ghost KIND = { BasicReject };

    ghost says = { reject_call };

    const KIND: Kind = Kind::BasicReject;

    fn into_method(self, alloc: Global) -> Result<Method, OutOfMemory> {
        method_of(
            alloc,
            Kind::BasicReject,
            [Arg::LongLong(self.delivery_tag), Arg::Bit(self.requeue)],
        )
    }

    fn of_method(method: Method) -> Reject {
        Reject::of_ref(&method)
    }
}

impl<'a> TypedRef<'a> for Reject {
    type Of = Reject;

    ghost lends = { reject_call };

    fn of_ref(method: &'a Method) -> Reject {
        Reject {
            delivery_tag: long_long_at(method, 0),
            requeue: bit_at(method, 1),
        }
    }
}

impl<'a> TypedView<'a> for Reject {
    type Of = Reject;

    ghost shows = { reject_call };

    fn of_view(method: MethodRef<'a>) -> Reject {
        Reject {
            delivery_tag: long_long_in(method, 0),
            requeue: bit_in(method, 1),
        }
    }
}

/// Asks for all unacknowledged messages again, without a reply. `basic.recover-async`, class 60, method 100.
#[derive(Clone, Copy, PartialEq, Eq, Debug)]
pub struct RecoverAsync {
    /// To any consumer, and not to the one that had the message.
    pub requeue: bool,
}

impl RecoverAsync {
    /// With no bit set.
    pub fn new() -> RecoverAsync
        ensures { recover_async_call result ≡ call BasicRecoverAsync (bit false ∷ []) }
    {
        RecoverAsync { requeue: false }
    }
}

impl Typed for RecoverAsync {
    ghost KIND = { BasicRecoverAsync };

    ghost says = { recover_async_call };

    const KIND: Kind = Kind::BasicRecoverAsync;

    fn into_method(self, alloc: Global) -> Result<Method, OutOfMemory> {
        method_of(alloc, Kind::BasicRecoverAsync, [Arg::Bit(self.requeue)])
    }

    fn of_method(method: Method) -> RecoverAsync {
        RecoverAsync::of_ref(&method)
    }
}

impl<'a> TypedRef<'a> for RecoverAsync {
    type Of = RecoverAsync;

    ghost lends = { recover_async_call };

    fn of_ref(method: &'a Method) -> RecoverAsync {
        RecoverAsync {
            requeue: bit_at(method, 0),
        }
    }
}

impl<'a> TypedView<'a> for RecoverAsync {
    type Of = RecoverAsync;

    ghost shows = { recover_async_call };

    fn of_view(method: MethodRef<'a>) -> RecoverAsync {
        RecoverAsync {
            requeue: bit_in(method, 0),
        }
    }
}

/// Asks for all unacknowledged messages again. `basic.recover`, class 60, method 110.
#[derive(Clone, Copy, PartialEq, Eq, Debug)]
pub struct Recover {
    /// To any consumer, and not to the one that had the message.
    pub requeue: bool,
}

impl Recover {
    /// With no bit set.
    pub fn new() -> Recover
        ensures { recover_call result ≡ call BasicRecover (bit false ∷ []) }
    {
        Recover { requeue: false }
    }
}

impl Typed for Recover {
    ghost KIND = { BasicRecover };

    ghost says = { recover_call };

    const KIND: Kind = Kind::BasicRecover;

    fn into_method(self, alloc: Global) -> Result<Method, OutOfMemory> {
        method_of(alloc, Kind::BasicRecover, [Arg::Bit(self.requeue)])
    }

    fn of_method(method: Method) -> Recover {
        Recover::of_ref(&method)
    }
}

impl<'a> TypedRef<'a> for Recover {
    type Of = Recover;

    ghost lends = { recover_call };

    fn of_ref(method: &'a Method) -> Recover {
        Recover {
            requeue: bit_at(method, 0),
        }
    }
}

impl<'a> TypedView<'a> for Recover {
    type Of = Recover;

    ghost shows = { recover_call };

    fn of_view(method: MethodRef<'a>) -> Recover {
        Recover {
            requeue: bit_in(method, 0),
        }
    }
}

/// Confirms that the messages come again. `basic.recover-ok`, class 60, method 111.
pub type RecoverOk = Bare<BasicRecoverOk>;

/// Rejects one message or several, or says that published ones were not taken. `basic.nack`, class 60, method 120.
#[derive(Clone, Copy, PartialEq, Eq, Debug)]
pub struct Nack {
    /// The number of the delivery on its channel.
    pub delivery_tag: u64,
    /// All messages up to this one, too.
    pub multiple: bool,
    /// The message goes back to its queue.
    pub requeue: bool,
}

impl Nack {
    /// With no bit set.
    pub fn new(delivery_tag: u64) -> Nack
        ensures { nack_call result ≡ call BasicNack
            (long_long delivery_tag ∷ bit false ∷ bit false ∷ []) }
    {
        Nack {
            delivery_tag,
            multiple: false,
            requeue: false,
        }
    }
}

impl Typed for Nack {
    ghost KIND = { BasicNack };

    ghost says = { nack_call };

    const KIND: Kind = Kind::BasicNack;

    fn into_method(self, alloc: Global) -> Result<Method, OutOfMemory> {
        method_of(
            alloc,
            Kind::BasicNack,
            [
                Arg::LongLong(self.delivery_tag),
                Arg::Bit(self.multiple),
                Arg::Bit(self.requeue),
            ],
        )
    }

    fn of_method(method: Method) -> Nack {
        Nack::of_ref(&method)
    }
}

impl<'a> TypedRef<'a> for Nack {
    type Of = Nack;

    ghost lends = { nack_call };

    fn of_ref(method: &'a Method) -> Nack {
        Nack {
            delivery_tag: long_long_at(method, 0),
            multiple: bit_at(method, 1),
            requeue: bit_at(method, 2),
        }
    }
}

impl<'a> TypedView<'a> for Nack {
    type Of = Nack;

    ghost shows = { nack_call };

    fn of_view(method: MethodRef<'a>) -> Nack {
        Nack {
            delivery_tag: long_long_in(method, 0),
            multiple: bit_in(method, 1),
            requeue: bit_in(method, 2),
        }
    }
}

/// A method of the class basic.
#[derive(Drop)]
pub enum AnyMethod {
    Qos(Qos),
    QosOk(QosOk),
    Consume(Consume),
    ConsumeOk(ConsumeOk),
    Cancel(Cancel),
    CancelOk(CancelOk),
    Publish(Publish),
    Return(Return),
    Deliver(Deliver),
    Get(Get),
    GetOk(GetOk),
    GetEmpty(GetEmpty),
    Ack(Ack),
    Reject(Reject),
    RecoverAsync(RecoverAsync),
    Recover(Recover),
    RecoverOk(RecoverOk),
    Nack(Nack),
}

impl AnyMethod {
    pub fn kind(&self) -> Kind
        ensures { result ≡ (any_call self.now).kind }
    {
        match self {
            AnyMethod::Qos(_) => Kind::BasicQos,
            AnyMethod::QosOk(_) => Kind::BasicQosOk,
            AnyMethod::Consume(_) => Kind::BasicConsume,
            AnyMethod::ConsumeOk(_) => Kind::BasicConsumeOk,
            AnyMethod::Cancel(_) => Kind::BasicCancel,
            AnyMethod::CancelOk(_) => Kind::BasicCancelOk,
            AnyMethod::Publish(_) => Kind::BasicPublish,
            AnyMethod::Return(_) => Kind::BasicReturn,
            AnyMethod::Deliver(_) => Kind::BasicDeliver,
            AnyMethod::Get(_) => Kind::BasicGet,
            AnyMethod::GetOk(_) => Kind::BasicGetOk,
            AnyMethod::GetEmpty(_) => Kind::BasicGetEmpty,
            AnyMethod::Ack(_) => Kind::BasicAck,
            AnyMethod::Reject(_) => Kind::BasicReject,
            AnyMethod::RecoverAsync(_) => Kind::BasicRecoverAsync,
            AnyMethod::Recover(_) => Kind::BasicRecover,
            AnyMethod::RecoverOk(_) => Kind::BasicRecoverOk,
            AnyMethod::Nack(_) => Kind::BasicNack,
        }
    }

    /// What a method of the class says.
    pub fn from_method(method: Method) -> AnyMethod
        requires { (row (method_view method).kind).class ≡ 60 }
        ensures { any_call result ≡ method_view method }
    {
        match method.kind() {
            Kind::BasicQos => AnyMethod::Qos(Qos::of_method(method)),
            Kind::BasicQosOk => AnyMethod::QosOk(QosOk::of_method(method)),
            Kind::BasicConsume => AnyMethod::Consume(Consume::of_method(method)),
            Kind::BasicConsumeOk => AnyMethod::ConsumeOk(ConsumeOk::of_method(method)),
            Kind::BasicCancel => AnyMethod::Cancel(Cancel::of_method(method)),
            Kind::BasicCancelOk => AnyMethod::CancelOk(CancelOk::of_method(method)),
            Kind::BasicPublish => AnyMethod::Publish(Publish::of_method(method)),
            Kind::BasicReturn => AnyMethod::Return(Return::of_method(method)),
            Kind::BasicDeliver => AnyMethod::Deliver(Deliver::of_method(method)),
            Kind::BasicGet => AnyMethod::Get(Get::of_method(method)),
            Kind::BasicGetOk => AnyMethod::GetOk(GetOk::of_method(method)),
            Kind::BasicGetEmpty => AnyMethod::GetEmpty(GetEmpty::of_method(method)),
            Kind::BasicAck => AnyMethod::Ack(Ack::of_method(method)),
            Kind::BasicReject => AnyMethod::Reject(Reject::of_method(method)),
            Kind::BasicRecoverAsync => AnyMethod::RecoverAsync(RecoverAsync::of_method(method)),
            Kind::BasicRecover => AnyMethod::Recover(Recover::of_method(method)),
            Kind::BasicRecoverOk => AnyMethod::RecoverOk(RecoverOk::of_method(method)),
            Kind::BasicNack => AnyMethod::Nack(Nack::of_method(method)),
            _ => unreachable!(),
        }
    }

    /// The method with these arguments.
    pub fn into_method(self, alloc: Global) -> Result<Method, OutOfMemory>
        ensures { IfOk result (λ m. method_view m ≡ any_call self) }
    {
        match self {
            AnyMethod::Qos(method) => method.into_method(alloc),
            AnyMethod::QosOk(method) => method.into_method(alloc),
            AnyMethod::Consume(method) => method.into_method(alloc),
            AnyMethod::ConsumeOk(method) => method.into_method(alloc),
            AnyMethod::Cancel(method) => method.into_method(alloc),
            AnyMethod::CancelOk(method) => method.into_method(alloc),
            AnyMethod::Publish(method) => method.into_method(alloc),
            AnyMethod::Return(method) => method.into_method(alloc),
            AnyMethod::Deliver(method) => method.into_method(alloc),
            AnyMethod::Get(method) => method.into_method(alloc),
            AnyMethod::GetOk(method) => method.into_method(alloc),
            AnyMethod::GetEmpty(method) => method.into_method(alloc),
            AnyMethod::Ack(method) => method.into_method(alloc),
            AnyMethod::Reject(method) => method.into_method(alloc),
            AnyMethod::RecoverAsync(method) => method.into_method(alloc),
            AnyMethod::Recover(method) => method.into_method(alloc),
            AnyMethod::RecoverOk(method) => method.into_method(alloc),
            AnyMethod::Nack(method) => method.into_method(alloc),
        }
    }
}

/// Prints what the struct prints.
impl fmt::Debug for AnyMethod {
    fn fmt<W: fmt::Write>(&self, f: &mut fmt::Formatter<W>) -> fmt::Result {
        match self {
            AnyMethod::Qos(method) => fmt::Debug::fmt(method, f),
            AnyMethod::QosOk(method) => fmt::Debug::fmt(method, f),
            AnyMethod::Consume(method) => fmt::Debug::fmt(method, f),
            AnyMethod::ConsumeOk(method) => fmt::Debug::fmt(method, f),
            AnyMethod::Cancel(method) => fmt::Debug::fmt(method, f),
            AnyMethod::CancelOk(method) => fmt::Debug::fmt(method, f),
            AnyMethod::Publish(method) => fmt::Debug::fmt(method, f),
            AnyMethod::Return(method) => fmt::Debug::fmt(method, f),
            AnyMethod::Deliver(method) => fmt::Debug::fmt(method, f),
            AnyMethod::Get(method) => fmt::Debug::fmt(method, f),
            AnyMethod::GetOk(method) => fmt::Debug::fmt(method, f),
            AnyMethod::GetEmpty(method) => fmt::Debug::fmt(method, f),
            AnyMethod::Ack(method) => fmt::Debug::fmt(method, f),
            AnyMethod::Reject(method) => fmt::Debug::fmt(method, f),
            AnyMethod::RecoverAsync(method) => fmt::Debug::fmt(method, f),
            AnyMethod::Recover(method) => fmt::Debug::fmt(method, f),
            AnyMethod::RecoverOk(method) => fmt::Debug::fmt(method, f),
            AnyMethod::Nack(method) => fmt::Debug::fmt(method, f),
        }
    }
}

/// [`AnyMethod`], as it lies in its payload.
#[derive(Clone, Copy)]
pub enum AnyMethodView<'a> {
    Qos(Qos),
    QosOk(QosOk),
    Consume(ConsumeView<'a>),
    ConsumeOk(ConsumeOkView<'a>),
    Cancel(CancelView<'a>),
    CancelOk(CancelOkView<'a>),
    Publish(PublishView<'a>),
    Return(ReturnView<'a>),
    Deliver(DeliverView<'a>),
    Get(GetView<'a>),
    GetOk(GetOkView<'a>),
    GetEmpty(GetEmpty),
    Ack(Ack),
    Reject(Reject),
    RecoverAsync(RecoverAsync),
    Recover(Recover),
    RecoverOk(RecoverOk),
    Nack(Nack),
}

impl<'a> AnyMethodView<'a> {
    pub fn kind(self) -> Kind
        ensures { result ≡ (any_view_call self.entry).kind }
    {
        match self {
            AnyMethodView::Qos(_) => Kind::BasicQos,
            AnyMethodView::QosOk(_) => Kind::BasicQosOk,
            AnyMethodView::Consume(_) => Kind::BasicConsume,
            AnyMethodView::ConsumeOk(_) => Kind::BasicConsumeOk,
            AnyMethodView::Cancel(_) => Kind::BasicCancel,
            AnyMethodView::CancelOk(_) => Kind::BasicCancelOk,
            AnyMethodView::Publish(_) => Kind::BasicPublish,
            AnyMethodView::Return(_) => Kind::BasicReturn,
            AnyMethodView::Deliver(_) => Kind::BasicDeliver,
            AnyMethodView::Get(_) => Kind::BasicGet,
            AnyMethodView::GetOk(_) => Kind::BasicGetOk,
            AnyMethodView::GetEmpty(_) => Kind::BasicGetEmpty,
            AnyMethodView::Ack(_) => Kind::BasicAck,
            AnyMethodView::Reject(_) => Kind::BasicReject,
            AnyMethodView::RecoverAsync(_) => Kind::BasicRecoverAsync,
            AnyMethodView::Recover(_) => Kind::BasicRecover,
            AnyMethodView::RecoverOk(_) => Kind::BasicRecoverOk,
            AnyMethodView::Nack(_) => Kind::BasicNack,
        }
    }

    /// What a method of the class says.
    pub fn from_view(method: MethodRef<'a>) -> AnyMethodView<'a>
        requires { (row (lent_call method).kind).class ≡ 60 }
        ensures { any_view_call result ≡ lent_call method.entry }
    {
        match kind_in(method) {
            Kind::BasicQos => AnyMethodView::Qos(Qos::of_view(method)),
            Kind::BasicQosOk => AnyMethodView::QosOk(QosOk::of_view(method)),
            Kind::BasicConsume => AnyMethodView::Consume(ConsumeView::of_view(method)),
            Kind::BasicConsumeOk => AnyMethodView::ConsumeOk(ConsumeOkView::of_view(method)),
            Kind::BasicCancel => AnyMethodView::Cancel(CancelView::of_view(method)),
            Kind::BasicCancelOk => AnyMethodView::CancelOk(CancelOkView::of_view(method)),
            Kind::BasicPublish => AnyMethodView::Publish(PublishView::of_view(method)),
            Kind::BasicReturn => AnyMethodView::Return(ReturnView::of_view(method)),
            Kind::BasicDeliver => AnyMethodView::Deliver(DeliverView::of_view(method)),
            Kind::BasicGet => AnyMethodView::Get(GetView::of_view(method)),
            Kind::BasicGetOk => AnyMethodView::GetOk(GetOkView::of_view(method)),
            Kind::BasicGetEmpty => AnyMethodView::GetEmpty(GetEmpty::of_view(method)),
            Kind::BasicAck => AnyMethodView::Ack(Ack::of_view(method)),
            Kind::BasicReject => AnyMethodView::Reject(Reject::of_view(method)),
            Kind::BasicRecoverAsync => AnyMethodView::RecoverAsync(RecoverAsync::of_view(method)),
            Kind::BasicRecover => AnyMethodView::Recover(Recover::of_view(method)),
            Kind::BasicRecoverOk => AnyMethodView::RecoverOk(RecoverOk::of_view(method)),
            Kind::BasicNack => AnyMethodView::Nack(Nack::of_view(method)),
            _ => unreachable!(),
        }
    }
}
