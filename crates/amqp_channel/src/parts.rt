//! An event before it is made: its parts.
//!
//! An event has room for the properties of a content, some 600 octets. So the rules write its parts, which are small, and the
//! event is made of them where it is answered.
ghost use Rattle.std.specs.Prelude.{◌≡◌, false, None, IfOk, IsOk, OnOk};
ghost use Rattle.amqp_method.specs.Kinds.{has_content};
ghost use Rattle.amqp_method.specs.MethodView.{method_view};

use crate::aligned::Aligned;
use crate::events::{Agreed, Event, Reason, lent_reason};
use crate::reading::Reading;
use crate::verdict::Told;
use amqp_method::{Content, Message, Method, OutOfMemory};
use amqp_value::ShortStr;
use std::alloc::Global;
use std::mem::forget;

/// A method that no content follows.
#[derive(Drop)]
pub struct PlainMethod {
    method: Method,
    pub ghost plain: { has_content (method_view method).kind ≡ false },
}

/// What an event is made of: a message is still a method, or a content in its box, and all else is as in [`Event`].
///
/// Each variant begins at a word, so that it is moved word by word: with parts that begin at any octet a small frame takes a
/// tenth longer.
#[derive(Drop)]
pub enum EventParts {
    AnswerAsked,
    LoginAsked,
    OpenAsked,
    Negotiated(Aligned<Agreed>),
    Opened(Aligned<u16>),
    Method(Aligned<u16>, PlainMethod),
    Content(Aligned<u16>, Box<Content>),
    Flow(Aligned<u16>, bool),
    FlowOk(Aligned<u16>, bool),
    ChannelClosed(Option<Reason>, Aligned<u16>),
    ConnectionClosed(Option<Reason>),
    Discarded(Aligned<u16>),
    Blocked(ShortStr),
    Unblocked,
    Quiet,
}

impl PlainMethod {
    ghost use Rattle.std.specs.Prelude.{◌≡◌, false, IfOk};
    ghost use Rattle.amqp_method.specs.Kinds.{has_content};
    ghost use Rattle.amqp_method.specs.MessageView.{message_view};
    ghost use Rattle.amqp_method.specs.MethodView.{method_view};
    ghost use Rattle.amqp_model.specs.End.Events.{Plain};
    ghost use Rattle.amqp_channel.specs.Events.EventView.{message_of};
    ghost use Rattle.amqp_channel.specs.Events.PartsView.{plain_view};

    fn new(method: Method) -> PlainMethod
        requires { has_content (method_view method).kind ≡ false }
        ensures { plain_view result ≡ method_view method }
    {
        PlainMethod { method }
    }

    /// The message that the method makes.
    fn into_message(self) -> Message
        ensures { message_of (message_view result) ≡ Plain (plain_view self) }
    {
        Message::plain(self.method)
    }

    /// An equal message.
    pub fn copy_message(&self) -> Result<Message, OutOfMemory>
        ensures { IfOk result (λ message. message_of (message_view message) ≡ Plain (plain_view self.now)) }
    {
        let method = self.method.copy()?;
        Ok(Message::plain(method))
    }
}

impl EventParts {
    ghost use Rattle.std.specs.Prelude.{◌≡◌, Some, None, IsOk, OnOk};
    ghost use Rattle.amqp_channel.specs.Contents.ContentView.{content_there};
    ghost use Rattle.amqp_channel.specs.Events.EventView.{event_view};
    ghost use Rattle.amqp_channel.specs.Events.PartsView.{parts_there, parts_view};
    ghost use Rattle.amqp_channel.specs.ReadingView.{reading_view};
    ghost use Rattle.amqp_channel.specs.Verdict.Passing.{IsOfMessage};
    ghost use Rattle.amqp_channel.specs.Verdict.VerdictView.{event_told, FitsEvent, IsDiscarded, IsPart};

    /// Puts the parts where the caller has room for them, in which nothing is yet: to look whether there is anything to drop
    /// would cost each frame some nanoseconds.
    #[inline(always)]
    pub fn put_in(self, place: &mut Option<EventParts>)
        ensures { place.new ≡ Some self }
    {
        forget(place.replace(self));
    }

    /// The event. It is made where it is called: out of line it is written twice, which costs a small frame half as much again.
    #[inline(always)]
    pub fn into_event(self) -> Event
        ensures { event_view result ≡ parts_view self }
    {
        match self {
            EventParts::AnswerAsked => Event::AnswerAsked,
            EventParts::LoginAsked => Event::LoginAsked,
            EventParts::OpenAsked => Event::OpenAsked,
            EventParts::Negotiated(agreed) => Event::Negotiated(agreed.get()),
            EventParts::Opened(channel) => Event::Opened(channel.get()),
            EventParts::Method(channel, method) => {
                Event::Told(channel.get(), method.into_message())
            }
            EventParts::Content(channel, content) => {
                Event::Told(channel.get(), Message::gathered(content))
            }
            EventParts::Flow(channel, active) => Event::Flow(channel.get(), active),
            EventParts::FlowOk(channel, active) => Event::FlowOk(channel.get(), active),
            EventParts::ChannelClosed(reason, channel) => {
                Event::ChannelClosed(channel.get(), reason)
            }
            EventParts::ConnectionClosed(reason) => Event::ConnectionClosed(reason),
            EventParts::Discarded(channel) => Event::Discarded(channel.get()),
            EventParts::Blocked(reason) => Event::Blocked(reason),
            EventParts::Unblocked => Event::Unblocked,
            EventParts::Quiet => Event::Quiet,
        }
    }

    /// The event of a frame of a channel, where the caller has room for it. The frame makes this content whole, if any.
    #[inline(always)]
    pub fn tell(
        alloc: Global,
        number: u16,
        reading: Reading<'_>,
        told: Told,
        content: Option<Box<Content>>,
        place: &mut Option<EventParts>,
    ) -> Result<(), OutOfMemory>
        requires fits { FitsEvent (reading_view reading) told }
        requires none { place.old ≡ None }
        ensures event { OnOk result (parts_there place.new
            ≡ event_told number (reading_view reading.entry) (content_there content) told) }
        // What is dropped takes no memory.
        ensures drops { IsDiscarded told → IsOk result }
    {
        match told {
            Told::Method | Told::Begun | Told::Headed | Told::Continued | Told::Completed => {
                EventParts::tell_passed(alloc, number, reading, told, content, place)?;
            }
            Told::Opened => EventParts::Opened(Aligned::new(number)).put_in(place),
            Told::Flow(active) => EventParts::Flow(Aligned::new(number), active).put_in(place),
            Told::FlowOk(active) => EventParts::FlowOk(Aligned::new(number), active).put_in(place),
            Told::ClosedByPeer => {
                let Reading::Method(method) = reading else {
                    unreachable!()
                };
                let reason = lent_reason(alloc, method)?;
                EventParts::ChannelClosed(Some(reason), Aligned::new(number)).put_in(place);
            }
            Told::ClosedByUs => EventParts::ChannelClosed(None, Aligned::new(number)).put_in(place),
            Told::Discarded => EventParts::Discarded(Aligned::new(number)).put_in(place),
            Told::Quiet => EventParts::Quiet.put_in(place),
        }
        Ok(())
    }

    /// The same of a frame that passes, which has few events. Most frames pass: where all events were made in line, that
    /// would be too large to be inlined.
    #[inline(always)]
    pub fn tell_passed(
        alloc: Global,
        number: u16,
        reading: Reading<'_>,
        told: Told,
        content: Option<Box<Content>>,
        place: &mut Option<EventParts>,
    ) -> Result<(), OutOfMemory>
        requires fits { FitsEvent (reading_view reading) told }
        requires message { IsOfMessage told }
        requires none { place.old ≡ None }
        ensures event { OnOk result (parts_there place.new
            ≡ event_told number (reading_view reading.entry) (content_there content) told) }
        // Only a method without content takes memory.
        ensures part { IsPart (reading_view reading.entry) → IsOk result }
    {
        match told {
            Told::Method => {
                let Reading::Method(method) = reading else {
                    unreachable!()
                };
                let method = method.to_owned(alloc)?;
                EventParts::Method(Aligned::new(number), PlainMethod::new(method)).put_in(place);
            }
            Told::Completed => {
                if let Some(content) = content {
                    EventParts::Content(Aligned::new(number), content).put_in(place);
                }
            }
            _ => {}
        }
        Ok(())
    }
}
