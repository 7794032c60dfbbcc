//! The methods of the class channel (`amqp0-9-1.xml`, class 20).
// Written by `tools/typed_methods.py` from the table of methods in `docs/PROTOCOL.md`: change those and run it again.
ghost use Rattle.std.specs.Prelude.{◌≡◌, IfOk, ◌∷◌, []};
ghost use Rattle.amqp_method.specs.Arguments.{call, bit, short, short_string};
ghost use Rattle.amqp_method.specs.MethodRefView.{lent_call};
ghost use Rattle.amqp_method.specs.MethodView.{method_view};
ghost use Rattle.amqp_method.specs.Methods.{row};
ghost use Rattle.amqp_method.specs.declared.kinds.Kind.TheVariants.{ChannelFlow, ChannelFlowOk, ChannelClose};
ghost use Rattle.amqp_typed.specs.Channel.{flow_call, flow_ok_call, close_call, close_ref_call, close_view_call, any_call, any_view_call};

use crate::args::{bit_at, four, method_of, own_args, short, short_at, short_str, short_str_at};
use crate::bare::Bare;
use crate::bare_kinds::{ChannelCloseOk, ChannelOpen, ChannelOpenOk};
use crate::typed::{Typed, TypedRef, TypedView};
use crate::views::{bit_in, kind_in, short_in, short_str_in};
use amqp_method::{Arg, Kind, Method, MethodRef, OutOfMemory};
use amqp_value::ShortStr;
use std::alloc::Global;
use std::fmt;

/// Opens the channel. `channel.open`, class 20, method 10.
pub type Open = Bare<ChannelOpen>;

/// Says that the channel is open. `channel.open-ok`, class 20, method 11.
pub type OpenOk = Bare<ChannelOpenOk>;

/// Asks the peer to stop or to resume sending contents. `channel.flow`, class 20, method 20.
#[derive(Clone, Copy, PartialEq, Eq, Debug)]
pub struct Flow {
    /// Whether contents may be sent.
    pub active: bool,
}

impl Flow {
    /// With these arguments.
    pub fn new(active: bool) -> Flow
        ensures { flow_call result ≡ call ChannelFlow (bit active ∷ []) }
    {
        Flow { active }
    }
}

impl Typed for Flow {
    ghost KIND = { ChannelFlow };

    ghost says = { flow_call };

    const KIND: Kind = Kind::ChannelFlow;

    fn into_method(self, alloc: Global) -> Result<Method, OutOfMemory> {
        method_of(alloc, Kind::ChannelFlow, [Arg::Bit(self.active)])
    }

    fn of_method(method: Method) -> Flow {
        Flow::of_ref(&method)
    }
}

impl<'a> TypedRef<'a> for Flow {
    type Of = Flow;

    ghost lends = { flow_call };

    fn of_ref(method: &'a Method) -> Flow {
        Flow {
            active: bit_at(method, 0),
        }
    }
}

impl<'a> TypedView<'a> for Flow {
    type Of = Flow;

    ghost shows = { flow_call };

    fn of_view(method: MethodRef<'a>) -> Flow {
        Flow {
            active: bit_in(method, 0),
        }
    }
}

/// Confirms a flow. `channel.flow-ok`, class 20, method 21.
#[derive(Clone, Copy, PartialEq, Eq, Debug)]
pub struct FlowOk {
    /// Whether contents will be sent.
    pub active: bool,
}

impl FlowOk {
    /// With these arguments.
    pub fn new(active: bool) -> FlowOk
        ensures { flow_ok_call result ≡ call ChannelFlowOk (bit active ∷ []) }
    {
        FlowOk { active }
    }
}

impl Typed for FlowOk {
    ghost KIND = { ChannelFlowOk };

    ghost says = { flow_ok_call };

    const KIND: Kind = Kind::ChannelFlowOk;

    fn into_method(self, alloc: Global) -> Result<Method, OutOfMemory> {
        method_of(alloc, Kind::ChannelFlowOk, [Arg::Bit(self.active)])
    }

    fn of_method(method: Method) -> FlowOk {
        FlowOk::of_ref(&method)
    }
}

impl<'a> TypedRef<'a> for FlowOk {
    type Of = FlowOk;

    ghost lends = { flow_ok_call };

    fn of_ref(method: &'a Method) -> FlowOk {
        FlowOk {
            active: bit_at(method, 0),
        }
    }
}

impl<'a> TypedView<'a> for FlowOk {
    type Of = FlowOk;

    ghost shows = { flow_ok_call };

    fn of_view(method: MethodRef<'a>) -> FlowOk {
        FlowOk {
            active: bit_in(method, 0),
        }
    }
}

/// Closes the channel, and says why. `channel.close`, class 20, method 40.
#[derive(Debug, Drop, PartialEq, Eq)]
pub struct Close {
    pub reply_code: u16,
    pub reply_text: ShortStr,
    /// The class of the method that is at fault, or 0.
    pub class_id: u16,
    /// The method that is at fault, or 0.
    pub method_id: u16,
}

impl Close {
    /// With `class_id` 0 and `method_id` 0.
    pub fn new(reply_code: u16, reply_text: ShortStr) -> Close
        ensures { close_call result ≡ call ChannelClose
            (short reply_code ∷ short_string reply_text ∷ short 0 ∷ short 0 ∷ []) }
    {
        Close {
            reply_code,
            reply_text,
            class_id: 0,
            method_id: 0,
        }
    }
}

impl Typed for Close {
    ghost KIND = { ChannelClose };

    ghost says = { close_call };

    const KIND: Kind = Kind::ChannelClose;

    fn into_method(self, alloc: Global) -> Result<Method, OutOfMemory> {
        method_of(
            alloc,
            Kind::ChannelClose,
            [
                Arg::Short(self.reply_code),
                Arg::ShortStr(self.reply_text),
                Arg::Short(self.class_id),
                Arg::Short(self.method_id),
            ],
        )
    }

    fn of_method(method: Method) -> Close {
        let taken = four(own_args(method, Kind::ChannelClose));
        Close {
            reply_code: short(taken.0),
            reply_text: short_str(taken.1),
            class_id: short(taken.2),
            method_id: short(taken.3),
        }
    }
}

/// [`Close`], lent by a method.
#[derive(Clone, Copy)]
pub struct CloseRef<'a> {
    pub reply_code: u16,
    pub reply_text: &'a ShortStr,
    pub class_id: u16,
    pub method_id: u16,
}

impl<'a> TypedRef<'a> for CloseRef<'a> {
    type Of = Close;

    ghost lends = { close_ref_call };

    fn of_ref(method: &'a Method) -> CloseRef<'a> {
        CloseRef {
            reply_code: short_at(method, 0),
            reply_text: short_str_at(method, 1),
            class_id: short_at(method, 2),
            method_id: short_at(method, 3),
        }
    }
}

/// [`Close`], as it lies in its payload.
#[derive(Clone, Copy)]
pub struct CloseView<'a> {
    pub reply_code: u16,
    pub reply_text: &'a [u8],
    pub class_id: u16,
    pub method_id: u16,
}

impl<'a> TypedView<'a> for CloseView<'a> {
    type Of = Close;

    ghost shows = { close_view_call };

    fn of_view(method: MethodRef<'a>) -> CloseView<'a> {
        CloseView {
            reply_code: short_in(method, 0),
            reply_text: short_str_in(method, 1),
            class_id: short_in(method, 2),
            method_id: short_in(method, 3),
        }
    }
}

/// Confirms that the channel is closed. `channel.close-ok`, class 20, method 41.
pub type CloseOk = Bare<ChannelCloseOk>;

/// A method of the class channel.
#[derive(Drop)]
pub enum AnyMethod {
    Open(Open),
    OpenOk(OpenOk),
    Flow(Flow),
    FlowOk(FlowOk),
    Close(Close),
    CloseOk(CloseOk),
}

impl AnyMethod {
    pub fn kind(&self) -> Kind
        ensures { result ≡ (any_call self.now).kind }
    {
        match self {
            AnyMethod::Open(_) => Kind::ChannelOpen,
            AnyMethod::OpenOk(_) => Kind::ChannelOpenOk,
            AnyMethod::Flow(_) => Kind::ChannelFlow,
            AnyMethod::FlowOk(_) => Kind::ChannelFlowOk,
            AnyMethod::Close(_) => Kind::ChannelClose,
            AnyMethod::CloseOk(_) => Kind::ChannelCloseOk,
        }
    }

    /// What a method of the class says.
    pub fn from_method(method: Method) -> AnyMethod
        requires { (row (method_view method).kind).class ≡ 20 }
        ensures { any_call result ≡ method_view method }
    {
        match method.kind() {
            Kind::ChannelOpen => AnyMethod::Open(Open::of_method(method)),
            Kind::ChannelOpenOk => AnyMethod::OpenOk(OpenOk::of_method(method)),
            Kind::ChannelFlow => AnyMethod::Flow(Flow::of_method(method)),
            Kind::ChannelFlowOk => AnyMethod::FlowOk(FlowOk::of_method(method)),
            Kind::ChannelClose => AnyMethod::Close(Close::of_method(method)),
            Kind::ChannelCloseOk => AnyMethod::CloseOk(CloseOk::of_method(method)),
            _ => unreachable!(),
        }
    }

    /// The method with these arguments.
    pub fn into_method(self, alloc: Global) -> Result<Method, OutOfMemory>
        ensures { IfOk result (λ m. method_view m ≡ any_call self) }
    {
        match self {
            AnyMethod::Open(method) => method.into_method(alloc),
            AnyMethod::OpenOk(method) => method.into_method(alloc),
            AnyMethod::Flow(method) => method.into_method(alloc),
            AnyMethod::FlowOk(method) => method.into_method(alloc),
            AnyMethod::Close(method) => method.into_method(alloc),
            AnyMethod::CloseOk(method) => method.into_method(alloc),
        }
    }
}

/// Prints what the struct prints.
impl fmt::Debug for AnyMethod {
    fn fmt<W: fmt::Write>(&self, f: &mut fmt::Formatter<W>) -> fmt::Result {
        match self {
            AnyMethod::Open(method) => fmt::Debug::fmt(method, f),
            AnyMethod::OpenOk(method) => fmt::Debug::fmt(method, f),
            AnyMethod::Flow(method) => fmt::Debug::fmt(method, f),
            AnyMethod::FlowOk(method) => fmt::Debug::fmt(method, f),
            AnyMethod::Close(method) => fmt::Debug::fmt(method, f),
            AnyMethod::CloseOk(method) => fmt::Debug::fmt(method, f),
        }
    }
}

/// [`AnyMethod`], as it lies in its payload.
#[derive(Clone, Copy)]
pub enum AnyMethodView<'a> {
    Open(Open),
    OpenOk(OpenOk),
    Flow(Flow),
    FlowOk(FlowOk),
    Close(CloseView<'a>),
    CloseOk(CloseOk),
}

impl<'a> AnyMethodView<'a> {
    pub fn kind(self) -> Kind
        ensures { result ≡ (any_view_call self.entry).kind }
    {
        match self {
            AnyMethodView::Open(_) => Kind::ChannelOpen,
            AnyMethodView::OpenOk(_) => Kind::ChannelOpenOk,
            AnyMethodView::Flow(_) => Kind::ChannelFlow,
            AnyMethodView::FlowOk(_) => Kind::ChannelFlowOk,
            AnyMethodView::Close(_) => Kind::ChannelClose,
            AnyMethodView::CloseOk(_) => Kind::ChannelCloseOk,
        }
    }

    /// What a method of the class says.
    pub fn from_view(method: MethodRef<'a>) -> AnyMethodView<'a>
        requires { (row (lent_call method).kind).class ≡ 20 }
        ensures { any_view_call result ≡ lent_call method.entry }
    {
        match kind_in(method) {
            Kind::ChannelOpen => AnyMethodView::Open(Open::of_view(method)),
            Kind::ChannelOpenOk => AnyMethodView::OpenOk(OpenOk::of_view(method)),
            Kind::ChannelFlow => AnyMethodView::Flow(Flow::of_view(method)),
            Kind::ChannelFlowOk => AnyMethodView::FlowOk(FlowOk::of_view(method)),
            Kind::ChannelClose => AnyMethodView::Close(CloseView::of_view(method)),
            Kind::ChannelCloseOk => AnyMethodView::CloseOk(CloseOk::of_view(method)),
            _ => unreachable!(),
        }
    }
}
