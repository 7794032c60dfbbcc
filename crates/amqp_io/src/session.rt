//! One end of a connection, over a stream.
ghost use Rattle.std.specs.Prelude.{◌≡◌, ◌<◌, true, false, [], ◌++◌, length, option_to_list, Err, OnOk, OnErr};
ghost use Rattle.std.specs.VecDeque.{deque_len, deque_capacity};
ghost use Rattle.amqp_method.specs.HeaderView.{properties_view};
ghost use Rattle.amqp_method.specs.Kinds.{has_content};
ghost use Rattle.amqp_method.specs.Messages.{letter_with};
ghost use Rattle.amqp_method.specs.MessageView.{message_view};
ghost use Rattle.amqp_method.specs.MethodView.{method_view};
ghost use Rattle.amqp_model.specs.End.Asks as asks;
ghost use Rattle.amqp_model.specs.End.Closes.{cause_of, no_cause};
ghost use Rattle.amqp_model.specs.End.Controls as controls;
ghost use Rattle.amqp_channel.specs.Events.EventView.{message_of};
ghost use Rattle.amqp_core.specs.Asks.View.{ask_view};
ghost use Rattle.amqp_core.specs.End.Asks.{AnswersLowest, AnswersNumber};
ghost use Rattle.amqp_io.specs.SessionAsks.{Asked, Controlled};
ghost use Rattle.amqp_io.specs.SessionCalls.{Began, Handed, Pulled, Pushed, Turned};
ghost use Rattle.amqp_io.specs.Sessions.{FeedsThose};

use crate::faults::IoFault;
use crate::reading::Arrival;
use crate::stream::Stream;
use crate::unfed::Unfed;
use crate::writing::write_prefix;
use amqp_core::{Ask, AskFault, Chunks, End, Event, Role, Taken};
use amqp_method::{Kind, Message, Method, Properties};
use amqp_value::ShortStr;
use std::alloc::Global;
use std::collections::VecDeque;

/// One end of a connection, over a stream.
///
/// [`Session::pull`] reads from the stream and feeds the end, [`Session::push`] writes what the end has put, all of it
/// by
/// `push(usize::MAX)`, and [`Session::turn`] does the one and then the other. The end's events are kept until
/// [`Session::next_event`] hands them out. After a fault the session may be used again: [`IoFault`] says what stands
/// after each.
///
/// It has room for the 4096 octets of one read in itself, or the room that [`Session::with_room`] was given, so that
/// reading takes no memory.
#[derive(Drop)]
pub struct Session<R: Role, S: Stream> {
    end: End<R>,
    stream: S,
    /// what was read and not fed
    unfed: Unfed,
    /// what was not handed out, oldest first
    events: VecDeque<Event>,
}

/// What a session holds.
#[derive(Drop)]
pub struct Parts<R: Role, S: Stream> {
    pub end: End<R>,
    pub stream: S,
    /// What was read and not fed: the next octets of the peer.
    pub unfed: Unfed,
    /// The events that were not handed out, oldest first.
    pub events: VecDeque<Event>,
}

/// Keeps an event, if there is one, after those that are there.
fn keep(events: &mut VecDeque<Event>, event: Option<Event>)
    requires { deque_len events.old < deque_capacity events.old }
    ensures { events.new.items ≡ events.old.items ++ option_to_list event }
{
    match event {
        Some(event) => events.push_back_reserved(event),
        None => {}
    }
}

impl<R: Role, S: Stream> Session<R, S> {
    ghost use Rattle.amqp_io.specs.SessionView.{end_of, stream_of, unfed_in, events_in, intake_of, settings_in, role_in, config_in, room_in};

    /// An end over a stream. Nothing is read or written yet.
    pub fn new(alloc: Global, end: End<R>, stream: S) -> Session<R, S>
        ensures { Began 4096 end stream result }
    {
        Session {
            end,
            stream,
            unfed: Unfed::new(),
            events: VecDeque::new(alloc),
        }
    }

    /// An end over a stream, as [`Session::new`] makes it, that reads into this room: at most as many octets at once as
    /// it is long, as `vec![in alloc; 0; 65_536]?`, whatever stands in it. Few large reads cost less than many small
    /// ones.
    pub fn with_room(alloc: Global, end: End<R>, stream: S, room: Vec<u8>) -> Session<R, S>
        requires { 0 < length room.items }
        ensures { Began (length room.items) end stream result }
    {
        Session {
            end,
            stream,
            unfed: Unfed::with_room(room),
            events: VecDeque::new(alloc),
        }
    }

    /// The end.
    pub fn end(&self) -> &End<R>
        ensures { result.now ≡ end_of self.now }
    {
        &self.end
    }

    /// The stream.
    pub fn stream(&self) -> &S
        ensures { result.now ≡ stream_of self.now }
    {
        &self.stream
    }

    /// Gives the end and the stream back. Octets that were read and not fed are dropped, and so are the events that
    /// were not handed out: [`Session::into_all`] gives these too.
    pub fn into_parts(self) -> (End<R>, S)
        ensures end { result.0 ≡ end_of self }
        ensures stream { result.1 ≡ stream_of self }
    {
        let Session {
            end,
            stream,
            unfed: _,
            events: _,
        } = self;
        (end, stream)
    }

    /// Gives all back that the session holds.
    pub fn into_all(self) -> Parts<R, S>
        ensures end { result.end ≡ end_of self }
        ensures stream { result.stream ≡ stream_of self }
        ensures unfed { result.unfed.octets ≡ unfed_in self }
        ensures events { result.events.items ≡ events_in self }
    {
        let Session {
            end,
            stream,
            unfed,
            events,
        } = self;
        Parts {
            end,
            stream,
            unfed,
            events,
        }
    }

    /// Asks something of the end, as [`End::ask`]. Nothing is written yet.
    pub fn ask(&mut self, ask: &Ask) -> Result<Option<u16>, AskFault>
        ensures asked { Asked self.old (ask_view ask.now) result self.new }
        ensures number { AnswersNumber (end_of self.old) (ask_view ask.now) result }
    {
        self.end.ask(ask)
    }

    /// Opens the lowest channel that is free, as [`End::open_channel`].
    pub fn open_channel(&mut self) -> Result<u16, AskFault>
        ensures asked { Asked self.old asks.Open result self.new }
        ensures number { AnswersLowest (end_of self.old) result }
    {
        self.end.open_channel()
    }

    /// Sends a message on a channel, as [`End::send`].
    pub fn send(&mut self, channel: u16, message: &Message) -> Result<(), AskFault>
        ensures { Asked self.old (asks.Send channel (message_of (message_view message.now))) result self.new }
    {
        self.end.send(channel, message)
    }

    /// Sends a method and its content on a channel, as [`End::send_content`]. A method that no content follows is
    /// [`AskFault::NotSendable`].
    pub fn send_content(
        &mut self,
        channel: u16,
        method: &Method,
        properties: &Properties,
        body: &[u8],
    ) -> Result<(), AskFault>
        ensures asked { has_content (method_view method.now).kind ≡ true
            → Asked self.old (asks.Send channel
            (message_of (letter_with (method_view method.now) (properties_view properties.now) body.now))) result
            self.new }
        ensures alone { has_content (method_view method.now).kind ≡ false → (result ≡ Err AskFault.NotSendable)
            × (self.new ≡ self.old) }
    {
        self.end.send_content(channel, method, properties, body)
    }

    /// Sends a method and its content on a channel, as [`End::send_chunks`]: each chunk of the body is let go once its
    /// octets stand in the output.
    pub fn send_chunks(
        &mut self,
        channel: u16,
        method: &Method,
        properties: &Properties,
        body: &mut Chunks,
    ) -> Result<(), AskFault>
        ensures asked { has_content (method_view method.now).kind ≡ true
            → Asked self.old (asks.Send channel
            (message_of (letter_with (method_view method.now) (properties_view properties.now) body.old))) result
            self.new }
        ensures alone { has_content (method_view method.now).kind ≡ false → (result ≡ Err AskFault.NotSendable)
            × (self.new ≡ self.old) }
        ensures taken { OnOk result (body.new ≡ []) }
        ensures kept { OnErr result (body.new ≡ body.old) }
    {
        self.end.send_chunks(channel, method, properties, body)
    }

    /// Asks the other end to send contents on a channel, or no more of them, as [`End::flow`].
    pub fn flow(&mut self, channel: u16, active: bool) -> Result<(), AskFault>
        ensures { Asked self.old (asks.Flow channel active) result self.new }
    {
        self.end.flow(channel, active)
    }

    /// Closes a channel, as [`End::close_channel`].
    pub fn close_channel(
        &mut self,
        channel: u16,
        code: u16,
        text: &ShortStr,
    ) -> Result<(), AskFault>
        ensures { Asked self.old (asks.CloseChannel channel code text.now no_cause) result self.new }
    {
        self.end.close_channel(channel, code, text)
    }

    /// Closes a channel for a method of this kind, as [`End::close_channel_for`].
    pub fn close_channel_for(
        &mut self,
        channel: u16,
        code: u16,
        text: &ShortStr,
        kind: Kind,
    ) -> Result<(), AskFault>
        ensures { Asked self.old (asks.CloseChannel channel code text.now (cause_of kind)) result self.new }
    {
        self.end.close_channel_for(channel, code, text, kind)
    }

    /// Closes the connection, as [`End::close`].
    pub fn close(&mut self, code: u16, text: &ShortStr) -> Result<(), AskFault>
        ensures { Asked self.old (asks.Close code text.now no_cause) result self.new }
    {
        self.end.close(code, text)
    }

    /// Closes the connection for a method of this kind, as [`End::close_for`].
    pub fn close_for(&mut self, code: u16, text: &ShortStr, kind: Kind) -> Result<(), AskFault>
        ensures { Asked self.old (asks.Close code text.now (cause_of kind)) result self.new }
    {
        self.end.close_for(code, text, kind)
    }

    /// Says that the server takes no more contents, as [`End::blocked`].
    pub fn blocked(&mut self, reason: &ShortStr) -> Result<(), AskFault>
        ensures { Asked self.old (asks.Blocked reason.now) result self.new }
    {
        self.end.blocked(reason)
    }

    /// Says that the server takes contents again, as [`End::unblocked`].
    pub fn unblocked(&mut self) -> Result<(), AskFault>
        ensures { Asked self.old asks.Unblocked result self.new }
    {
        self.end.unblocked()
    }

    /// Puts a heartbeat, as [`End::beat`]. Nothing is written yet.
    pub fn beat(&mut self) -> Result<(), AskFault>
        ensures { Controlled self.old controls.Beat result self.new }
    {
        self.end.beat()
    }

    /// Admits a login or an open, as [`End::admit`].
    pub fn admit(&mut self) -> Result<(), AskFault>
        ensures { Controlled self.old controls.Admit result self.new }
    {
        self.end.admit()
    }

    /// Refuses a login or an open, as [`End::refuse`].
    pub fn refuse(&mut self, code: u16, text: &ShortStr) -> Result<(), AskFault>
        ensures { Controlled self.old (controls.Refuse code text.now) result self.new }
    {
        self.end.refuse(code, text)
    }

    /// Answers start, as [`End::answer_start`].
    pub fn answer_start(
        &mut self,
        mechanism: &ShortStr,
        response: &[u8],
        locale: &ShortStr,
    ) -> Result<(), AskFault>
        ensures { Controlled self.old (controls.AnswerStart mechanism.now response.now locale.now) result self.new }
    {
        self.end.answer_start(mechanism, response, locale)
    }

    /// The oldest of the events that were not handed out yet.
    pub fn next_event(&mut self) -> Option<Event>
        ensures { Handed self.old result self.new }
    {
        self.events.pop_front()
    }

    /// Writes octets of the output, at most so many, in as many writes as it takes. It answers how many: as many as the
    /// limit allows and there are. Where there is nothing to write, no write is called.
    pub fn push(&mut self, limit: usize) -> Result<usize, IoFault>
        ensures { Pushed S.Stream limit self.old result self.new }
    {
        let output = self.end.output();
        let count = limit.min(output.len());
        let written = write_prefix(&mut self.stream, &output[..count]);
        self.end.wrote(written.octets);
        if written.failed {
            return Err(IoFault::Write);
        }
        Ok(written.octets)
    }

    /// Feeds the end all that is there to feed. Room for an event is made before each feed, so that no event is lost.
    fn feed_all(&mut self) -> Result<(), IoFault>
        ensures fed { FeedsThose (role_in self.old) (config_in self.old) result (intake_of self.old)
            (intake_of self.new) }
        ensures settings { settings_in self.new ≡ settings_in self.old }
        ensures stream { stream_of self.new ≡ stream_of self.old }
        ensures room { room_in self.new ≡ room_in self.old }
    {
        while !self.unfed.is_empty() {
            let Ok(()) = self.events.try_reserve(1) else {
                return Err(IoFault::OutOfMemory);
            };
            let taken = match self.end.feed(self.unfed.octets()) {
                Ok(taken) => taken,
                Err(fault) => {
                    self.unfed.clear();
                    return Err(IoFault::Core(fault));
                }
            };
            let Taken { octets, event } = taken;
            self.unfed.fed(octets);
            keep(&mut self.events, event);
        }
        Ok(())
    }

    /// Feeds the end what was read before and not fed. Then it reads once, at most as many octets as there is room for,
    /// and feeds all of them. It answers how many it read: at least 1. Nothing is written.
    ///
    /// Replies wait in the end's output, which has no limit: do not pull while `session.end().output()` is longer than
    /// a bound of your own.
    pub fn pull(&mut self) -> Result<usize, IoFault>
        ensures { Pulled S.Stream self.old result self.new }
    {
        self.feed_all()?;
        let count = match self.unfed.refill(&mut self.stream) {
            Arrival::Octets(count) => count,
            Arrival::End => return Err(IoFault::EndOfInput),
            Arrival::Failure => return Err(IoFault::Read),
        };
        self.feed_all()?;
        Ok(count)
    }

    /// Pulls, and then, if that answers Ok, pushes the whole output. A client speaks first, so it pushes before its
    /// first turn: else both sides wait.
    pub fn turn(&mut self) -> Result<(), IoFault>
        ensures { Turned S.Stream self.old result self.new }
    {
        self.pull()?;
        let all = self.end.output().len();
        self.push(all)?;
        Ok(())
    }
}
