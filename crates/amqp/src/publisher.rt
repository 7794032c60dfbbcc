//! The steps of a client that publishes one content, and what it hears of the server.
use crate::asks::{
    CHANNEL, ask_back, close_channel, close_connection, open_channel, select_confirms,
};
use crate::printing::Stop;
use amqp_core::{AskFault, ChannelState, Chunks, Client, End, Event, Phase};
use amqp_io::{Session, Stream};
use amqp_method::{Kind, Method, Properties};
use std::alloc::Global;

/// What the client waits for between the content and the close of the channel.
#[derive(Clone, Copy, PartialEq, Eq)]
pub enum Awaited {
    /// Nothing but that the content is written.
    Nothing,
    /// That the server returns the content, or answers a request after it and so has not returned it.
    Return,
    /// That the server confirms that it took the content.
    Confirm,
}

/// What the client asks next. The steps come in this order; confirms are selected, and the server is asked back, only
/// where that is waited for.
#[derive(Clone, Copy)]
enum Step {
    OpenChannel,
    SelectConfirms,
    Publish,
    AskBack,
    CloseChannel,
    CloseConnection,
    /// Nothing more.
    Nothing,
}

/// The most steps that are taken at once.
const STEPS: u8 = 6;

/// A content that is published once.
#[derive(Drop)]
pub struct Outgoing {
    pub method: Method,
    pub properties: Properties,
    /// until the end has put it
    pub body: Chunks,
}

/// A client that publishes one content.
#[derive(Drop)]
pub struct Publisher {
    alloc: Global,
    content: Outgoing,
    awaited: Awaited,
    next: Step,
    /// the server answered that it will confirm
    selected: bool,
    /// the server confirmed that it took the content, or answered the request after it
    answered: bool,
    /// the server closed the channel or the connection, or did not take the content
    refused: bool,
}

impl Publisher {
    pub fn new(alloc: Global, content: Outgoing, awaited: Awaited) -> Publisher {
        Publisher {
            alloc,
            content,
            awaited,
            next: Step::OpenChannel,
            selected: false,
            answered: false,
            refused: false,
        }
    }

    /// Whether the server closed the channel or the connection, or said that it did not take the content.
    pub fn is_refused(&self) -> bool {
        self.refused
    }

    /// Takes notice of an event.
    pub fn hear(&mut self, event: &Event) {
        match event {
            Event::Told(_, message) => self.hear_method(message.method()),
            Event::ChannelClosed(_, reason) => {
                self.refused |= reason.is_some();
                // the channel is gone, so that only the connection is left to close
                self.skip_to_close();
            }
            Event::ConnectionClosed(reason) => self.refused |= reason.is_some(),
            _ => {}
        }
    }

    /// What a method of the server says of the content. It is the first on its channel, so that its delivery tag is 1.
    fn hear_method(&mut self, method: &Method) {
        match method.kind() {
            Kind::ConfirmSelectOk => self.selected = true,
            Kind::BasicAck => self.answered |= is_of_first(method),
            Kind::BasicQosOk => self.answered = true,
            Kind::BasicNack => self.refused |= is_of_first(method),
            Kind::BasicReturn => self.refused = true,
            _ => {}
        }
    }

    fn skip_to_close(&mut self) {
        self.next = match self.next {
            Step::Nothing => Step::Nothing,
            _ => Step::CloseConnection,
        };
    }

    /// Takes all steps that can be taken now.
    pub fn ask_all<S: Stream>(&mut self, session: &mut Session<Client, S>) -> Result<(), Stop> {
        for _ in 0..STEPS {
            if !self.ask_next(session)? {
                break;
            }
        }
        Ok(())
    }

    /// Takes the next step, if it can be taken now. It answers whether it was.
    fn ask_next<S: Stream>(&mut self, session: &mut Session<Client, S>) -> Result<bool, Stop> {
        if !self.may_go_on(session.end()) {
            return Ok(false);
        }
        match self.ask(session) {
            Ok(()) => {
                self.next = self.following();
                Ok(true)
            }
            // the server will say when it takes contents again
            Err(Stop::Refused(AskFault::Paused)) => Ok(false),
            Err(stop) => Err(stop),
        }
    }

    /// Whether the channel is closed next, without waiting for anything of the server.
    pub fn closes_channel(&self, end: &End<Client>) -> bool {
        matches!(self.next, Step::CloseChannel) && self.may_go_on(end)
    }

    /// Whether the server has done what the next step waits for. The channel is closed once the content is written:
    /// until then the server may say why it doesn't take it.
    fn may_go_on(&self, end: &End<Client>) -> bool {
        if end.phase() != Phase::Running {
            return false;
        }
        let channel = end.channel_state(CHANNEL);
        match self.next {
            Step::OpenChannel => true,
            Step::SelectConfirms => channel == ChannelState::Open,
            Step::Publish => channel == ChannelState::Open && self.may_publish(),
            Step::AskBack => channel == ChannelState::Open,
            Step::CloseChannel => {
                channel == ChannelState::Open && self.is_answered() && end.output().is_empty()
            }
            Step::CloseConnection => channel == ChannelState::Free,
            Step::Nothing => false,
        }
    }

    /// Whether the server will confirm the content, or need not.
    fn may_publish(&self) -> bool {
        self.selected || self.awaited != Awaited::Confirm
    }

    /// Whether the server has said of the content what it is to say.
    fn is_answered(&self) -> bool {
        self.awaited == Awaited::Nothing || self.answered || self.refused
    }

    fn ask<S: Stream>(&mut self, session: &mut Session<Client, S>) -> Result<(), Stop> {
        match self.next {
            Step::OpenChannel => open_channel(session),
            Step::SelectConfirms => select_confirms(self.alloc, session),
            Step::Publish => self.publish(session),
            Step::AskBack => ask_back(self.alloc, session),
            Step::CloseChannel => close_channel(self.alloc, session),
            Step::CloseConnection => close_connection(self.alloc, session),
            Step::Nothing => Ok(()),
        }
    }

    /// Asks the end to send the content. Its body is let go while the end puts it.
    fn publish<S: Stream>(&mut self, session: &mut Session<Client, S>) -> Result<(), Stop> {
        let Outgoing {
            method,
            properties,
            body,
        } = &mut self.content;
        match session.send_chunks(CHANNEL, method, properties, body) {
            Ok(()) => Ok(()),
            Err(fault) => Err(Stop::from(fault)),
        }
    }

    fn following(&self) -> Step {
        match self.next {
            Step::OpenChannel if self.awaited == Awaited::Confirm => Step::SelectConfirms,
            Step::OpenChannel => Step::Publish,
            Step::SelectConfirms => Step::Publish,
            Step::Publish if self.awaited == Awaited::Return => Step::AskBack,
            Step::Publish => Step::CloseChannel,
            Step::AskBack => Step::CloseChannel,
            Step::CloseChannel => Step::CloseConnection,
            Step::CloseConnection => Step::Nothing,
            Step::Nothing => Step::Nothing,
        }
    }
}

/// Whether a basic.ack or basic.nack speaks of the first content: by its delivery tag, or of all up to its tag.
fn is_of_first(method: &Method) -> bool {
    method.long_long_at(0) == Some(1) || method.bit_at(1) == Some(true)
}
