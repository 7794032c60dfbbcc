//! A method that lies in its payload.
ghost use Rattle.std.specs.Prelude.{◌≡◌, Ok};
ghost use Rattle.amqp_method.specs.Checking.{kind_read, AreBelow256};
ghost use Rattle.amqp_method.specs.Reading.{method_at};

use crate::args_ref::ArgsRef;
use crate::checker::{check_method, common_kind};
use crate::faults::{MethodFault, OutOfMemory};
use crate::fields::Arg;
use crate::kinds::{Kind, schema, sends};
use crate::methods::Method;
use crate::table::row_for;
use std::alloc::Global;

/// How many octets stand before the arguments: the class id and the method id.
const IDS_LENGTH: usize = 4;

/// A method as it lies in its payload, which is known to encode it. Beside it stands [`Method`], which owns its
/// arguments.
#[derive(Clone, Copy)]
pub struct MethodRef<'a> {
    payload: &'a [u8],
    kind: Kind,
    ghost below: { AreBelow256 payload.now },
    pub ghost reads: { kind_read (method_at payload.now) ≡ Ok kind },
}

impl<'a> MethodRef<'a> {
    ghost use Rattle.std.specs.Prelude.{◌≡◌, IfOk, IfErr, Ok, Err, List, map};
    ghost use Rattle.amqp_method.specs.Arguments.{Call, call, Fits};
    ghost use Rattle.amqp_method.specs.Encoding.{EncodesMethod};
    ghost use Rattle.amqp_method.specs.FirstFault.{FirstFaultOfMethod};
    ghost use Rattle.amqp_method.specs.Kinds.{class_of, fields_of, has_content as content_follows, sends as is_sent};
    ghost use Rattle.amqp_method.specs.MethodRefs.{args_left};
    ghost use Rattle.amqp_method.specs.MethodRefView.{lent_call, lent_payload};
    ghost use Rattle.amqp_method.specs.MethodView.{method_view};
    ghost use Rattle.amqp_method.specs.Reading.{Equals, method_at};
    ghost use Rattle.amqp_method.specs.Rows.{field_view};
    ghost use Rattle.amqp_method.specs.Views.{args_view};

    /// The method that a payload encodes. The faults are those of [`read_method`](crate::read_method), and no memory is
    /// taken.
    pub fn new(payload: &'a [u8]) -> Result<MethodRef<'a>, MethodFault>
        ensures exact { Equals lent_call result (method_at payload.now) }
        ensures payload { IfOk result (λ m. lent_payload m ≡ payload.now) }
        ensures only { (c : Call) → EncodesMethod c payload.now → IfOk result (λ m. lent_call m ≡ c) }
        ensures fault { IfErr result (λ e. FirstFaultOfMethod payload.now e) }
    {
        if let Some(kind) = common_kind(payload) {
            return Ok(MethodRef { kind, payload });
        }
        let kind = check_method(payload)?;
        Ok(MethodRef { kind, payload })
    }

    /// The payload, whole: the class id, the method id and the arguments.
    pub fn payload(self) -> &'a [u8]
        ensures payload { result.now ≡ lent_payload self.entry }
        ensures encodes { EncodesMethod (lent_call self.entry) result.now }
        ensures read { method_at result.now ≡ Ok (lent_call self.entry) }
    {
        self.payload
    }

    pub fn kind(self) -> Kind
        ensures { result ≡ (lent_call self.entry).kind }
    {
        self.kind
    }

    /// The class id.
    pub fn class_id(self) -> u16
        ensures { result ≡ class_of (lent_call self.entry).kind }
    {
        self.kind.class_id()
    }

    /// Whether a content header and a content body follow.
    pub fn has_content(self) -> bool
        ensures { result ≡ content_follows (lent_call self.entry).kind }
    {
        self.kind.has_content()
    }

    /// Whether the client sends the method, or the server.
    pub fn is_sent_by(self, client: bool) -> bool
        ensures { result ≡ is_sent client (lent_call self.entry).kind }
    {
        sends(client, self.kind)
    }

    /// The arguments, from the first on.
    pub fn args(self) -> ArgsRef<'a>
        ensures args { args_left result ≡ (lent_call self.entry).args }
        ensures fit { Fits (lent_call self.entry) }
    {
        self.lent_args()
    }

    /// The same, and for which fields they are.
    #[inline(always)]
    pub(crate) fn lent_args(self) -> ArgsRef<'a>
        ensures args { args_left result ≡ (lent_call self.entry).args }
        ensures fit { Fits (lent_call self.entry) }
        ensures fields { map field_view result.fields.now ≡ fields_of self.entry.kind }
    {
        let (_, octets) = self.payload.split_at(IDS_LENGTH);
        ArgsRef::new(schema(self.kind), octets, self.payload.len())
    }

    /// Builds the arguments.
    ///
    /// Most methods that no content follows are acks, whose fields are known: so their arguments take half as many
    /// instructions as by their row.
    #[inline(never)]
    pub(crate) fn own_args(self, alloc: Global) -> Result<Vec<Arg>, OutOfMemory>
        ensures args { IfOk result (λ args. args_view args.items ≡ (lent_call self.entry).args) }
        ensures fit { Fits (lent_call self.entry) }
    {
        match self.kind {
            Kind::BasicAck => self.lent_args().own_ack(alloc),
            _ => self.own_others(alloc),
        }
    }

    /// The same for other methods than acks. Those that begin most contents have known fields too.
    #[inline(never)]
    fn own_others(self, alloc: Global) -> Result<Vec<Arg>, OutOfMemory>
        ensures args { IfOk result (λ args. args_view args.items ≡ (lent_call self.entry).args) }
        ensures fit { Fits (lent_call self.entry) }
    {
        let lent = self.lent_args();
        match self.kind {
            Kind::BasicPublish => lent.own_publish(alloc),
            Kind::BasicDeliver => lent.own_deliver(alloc),
            _ => self.own_by_row(alloc),
        }
    }

    /// Builds the arguments field by field of the method's row.
    #[inline(never)]
    fn own_by_row(self, alloc: Global) -> Result<Vec<Arg>, OutOfMemory>
        ensures { IfOk result (λ args. args_view args.items ≡ (lent_call self.entry).args) }
    {
        let mut args = Vec::with_capacity(alloc, row_for(self.kind).arguments)?;
        self.args().own_into(&mut args)?;
        Ok(args)
    }

    /// The same method with arguments of its own. Nothing is checked again, so it fails for memory alone.
    #[inline(always)]
    pub fn to_owned(self, alloc: Global) -> Result<Method, OutOfMemory>
        ensures { IfOk result (λ m. method_view m ≡ lent_call self.entry) }
    {
        let args = self.own_args(alloc)?;
        Ok(Method::new(self.kind, args))
    }
}
