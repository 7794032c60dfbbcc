//! What an application asks of an end whose events lend, and what such an end answers of itself: as
//! [`End`](crate::End) does.
ghost use Rattle.std.specs.Prelude.{ℕ, List, [], IfOk, OnOk, OnErr, ◌≡◌, ◌≤◌, ◌<◌, true, false, length, take, None, Some, Err, MatchOption};
ghost use Rattle.std.specs.Option.{option_copied};
ghost use Rattle.amqp_method.specs.HeaderView.{properties_view};
ghost use Rattle.amqp_method.specs.Kinds.{has_content};
ghost use Rattle.amqp_method.specs.MessageView.{message_view};
ghost use Rattle.amqp_method.specs.MethodView.{method_view};
ghost use Rattle.amqp_model.specs.Output.ArrangementRules.{FollowsRules};
ghost use Rattle.amqp_model.specs.End.Answers.{channel_state, octets_gathered, reply_due};
ghost use Rattle.amqp_model.specs.End.Asks as asks;
ghost use Rattle.amqp_model.specs.End.Closes.{cause_of, no_cause};
ghost use Rattle.amqp_model.specs.End.Bounds.{OthersAreFree};
ghost use Rattle.amqp_model.specs.End.EndVerdict.{takes_octets};
ghost use Rattle.amqp_model.specs.End.Heard.{nothing_heard};
ghost use Rattle.amqp_model.specs.History.Negotiation.{frame_limit};
ghost use Rattle.amqp_model.specs.Output.Outputs.{output_octets, waiting_on};
ghost use Rattle.amqp_channel.specs.Events.EventView.{agreed_there, message_of, state_view};
ghost use Rattle.amqp_outbox.specs.BodyToCome.{octets_left};
ghost use Rattle.amqp_outbox.specs.OutboxFaults.{begun};
ghost use Rattle.amqp_core.specs.Asks.Outcomes.{content_asked};
ghost use Rattle.amqp_core.specs.Asks.View.{ask_view, lent_view};
ghost use Rattle.amqp_core.specs.End.Bounded.{IsBounded};
ghost use Rattle.amqp_core.specs.End.Counted.{heartbeat_in};
ghost use Rattle.amqp_core.specs.Heard.OfEnd.{IsLastHeard};
ghost use Rattle.amqp_core.specs.Heard.View.{cause_there, cause_view, kept_of_kind, method_there};
ghost use Rattle.amqp_core.specs.Asks.LentLetter.{lent_letter};
ghost use Rattle.amqp_core.specs.Connection.Stages.{phase_name};
ghost use Rattle.amqp_core.specs.declared.faults.LendFault.TheVariants as lend_faults;

use crate::asks::{Ask, LentAsk};
use crate::blame::Blame;
use crate::faults::{AskFault, LendFault};
use crate::heard::{Cause, NO_CAUSE};
use crate::lent_message::LentMessage;
use crate::roles::Role;
use crate::stage::Phase;
use crate::stream::StreamEnd;
use amqp_channel::{Agreed, ChannelState};
use amqp_method::{Kind, Message, Method, Properties};
use amqp_model::{answers, arrangement, bounds, fitting, octets, one_end, replies, streaming};
use amqp_outbox::{BodyWriter, Chunks, ContentFrames, HandOverFault, SendQueue};
use amqp_value::ShortStr;

impl<R: Role> StreamEnd<R> {
    ghost use Rattle.amqp_core.specs.Faults.Blamed.{blame_view};
    ghost use Rattle.amqp_core.specs.Stream.Asks.{StreamAnswersLowest, StreamAnswersNumber, StreamAsked};
    ghost use Rattle.amqp_core.specs.Stream.Queries.{AgreedOfHistory, CameOfHistory, DueOfHistory, OutputIsInOrder};
    ghost use Rattle.amqp_core.specs.Stream.Queries.{PendingOfHistory, PhaseOfHistory, StateOfHistory};
    ghost use Rattle.amqp_core.specs.Stream.LentAsks.{Begins, Lend, LendsContent};
    ghost use Rattle.amqp_core.specs.Stream.Writes.{HandsOver, StreamWrote};
    ghost use Rattle.amqp_core.specs.Stream.View.{config_at, counters_of, endpoint_of, heard_in, role_played};
    ghost use Rattle.amqp_core.specs.Stream.View.{settings_at};

    /// The octets to send next. They stay until [`StreamEnd::wrote`] says that they were sent.
    pub fn output(&self) -> &[u8]
        ensures octets { result.now ≡ output_octets (endpoint_of self.now).output }
        // The frames that are not begun stand in it by the rules.
        ensures rules { FollowsRules (endpoint_of self.now).output.last (endpoint_of self.now).output.row }
        // With what was written, those of each channel are in the order put.
        ensures order { OutputIsInOrder self.now }
    {
        arrangement::output_follows();
        one_end::closes_are_put_last();
        fitting::owed_read_back();
        self.inner.outbox.output()
    }

    /// How many octets wait to be written on a channel: what is left of a frame that is begun, and the frames after it.
    pub fn waiting(&self, channel: u16) -> usize
        ensures { result ≡ waiting_on channel (endpoint_of self.now).output }
    {
        self.inner.outbox.waiting(channel)
    }

    /// How many octets wait to be written on all channels: as many as [`StreamEnd::output`] has.
    pub fn waiting_in_all(&self) -> usize
        ensures { result ≡ length (output_octets (endpoint_of self.now).output) }
    {
        self.inner.outbox.waiting_in_all()
    }

    /// So many octets of the output were sent.
    pub fn wrote(&mut self, octets: usize)
        requires { octets ≤ length (output_octets (endpoint_of self.old).output) }
        ensures { StreamWrote self.old octets self.new }
    {
        octets::octets_follow();
        streaming::alike_endpoints_stay_alike();
        self.inner.wrote(octets);
        self.octets_written = self.octets_written.saturating_add(octets as u64);
    }

    /// Adds what waits to a queue, and counts it as sent here: all of it, or nothing.
    ///
    /// The output is one slice, so a put that goes before others moves octets. In the queue it moves none: an end that
    /// sends beside much that waits hands its output over after each call that puts. What the queue has is what is to
    /// be sent then.
    ///
    ///     end.send(channel, &message)?;
    ///     end.hand_over(&mut queue)?;
    ///     let mut pieces = queue.pieces();
    ///     while let Some(piece) = pieces.next_piece() {
    ///         socket.write_all(piece)?;
    ///     }
    ///
    /// The frames leave the queue in the fair order, from the frame that was begun there most recently. Where the
    /// answer is `Begun`, send what the queue has and then [`StreamEnd::output`]: so it is with the protocol header of
    /// a client.
    pub fn hand_over(&mut self, queue: &mut SendQueue) -> Result<(), HandOverFault>
        ensures { HandsOver self.old queue.old result self.new queue.new }
    {
        self.inner.outbox.copy_into(queue)?;
        let octets = self.waiting_in_all();
        self.wrote(octets);
        Ok(())
    }

    /// What the other end said in the handshake: as [`End::heard`](crate::End::heard).
    pub fn heard(&self, kind: Kind) -> Option<&Method>
        ensures kept { method_there (option_copied result) ≡ kept_of_kind kind (heard_in self.now).methods }
        // By each history of which this is what was heard, it is the last method of this kind.
        ensures history { IsLastHeard (role_played self.now) (config_at self.now) (heard_in self.now).methods kind
            (method_there (option_copied result)) }
    {
        self.heard.of(kind)
    }

    /// Forgets what the other end said in the handshake, its credentials among it, and gives back room that its output
    /// doesn't need now: for an end that may stay idle.
    pub fn forget_heard(&mut self)
        ensures heard { heard_in self.new ≡ record (heard_in self.old) { methods = nothing_heard } }
        ensures same { endpoint_of self.new ≡ endpoint_of self.old }
        ensures settings { settings_at self.new ≡ settings_at self.old }
        ensures counters { counters_of self.new ≡ counters_of self.old }
    {
        self.heard.forget();
        self.inner.outbox.shrink_to_fit();
    }

    /// What the last close of the other end was about, of a channel or of the connection, that an event reported.
    pub fn closed_for(&self) -> Option<Cause>
        ensures { cause_there result ≡ (heard_in self.now).cause }
    {
        self.heard.closed_for
    }

    /// How many frames the end took, heartbeats too: as [`End::frames_taken`](crate::End::frames_taken).
    pub fn frames_taken(&self) -> u64
        ensures { result ≡ (counters_of self.now).frames }
    {
        self.frames_taken
    }

    /// How many octets of the output were written: as [`End::octets_written`](crate::End::octets_written).
    pub fn octets_written(&self) -> u64
        ensures { result ≡ (counters_of self.now).octets }
    {
        self.octets_written
    }

    /// How many octets the end took in all: as [`End::octets_taken`](crate::End::octets_taken).
    pub fn octets_taken(&self) -> u64
        ensures { result ≡ (counters_of self.now).tally.taken }
    {
        self.inner.tally.octets
    }

    /// What was wrong: as [`End::blame`](crate::End::blame).
    pub fn blame(&self) -> Option<&Blame>
        ensures { MatchOption result ((counters_of self.now).tally.blame ≡ None)
            (λ blame. (counters_of self.now).tally.blame ≡ Some (blame_view blame.now)) }
    {
        self.inner.tally.blame.as_ref()
    }

    /// The heartbeat that was agreed, in seconds; 0 is none, and what stands before tune-ok (section 4.2.7).
    pub fn heartbeat(&self) -> u16
        ensures { result ≡ heartbeat_in (endpoint_of self.now).end.agreed }
    {
        self.inner.connection.stage.heartbeat()
    }

    /// How far the connection is.
    pub fn phase(&self) -> Phase
        ensures phase { result ≡ phase_name (endpoint_of self.now).end.phase }
        ensures history { PhaseOfHistory self.now result }
    {
        self.inner.connection.stage.phase()
    }

    /// What tune-ok settled: known from the moment on that a client has put it, or that a server has taken it.
    pub fn agreed(&self) -> Option<Agreed>
        ensures agreed { agreed_there result ≡ (endpoint_of self.now).end.agreed }
        ensures history { AgreedOfHistory self.now (agreed_there result) }
    {
        self.inner.connection.stage.agreed()
    }

    /// The state of a channel. Channel 0 and the numbers above the agreed maximum are Free.
    pub fn channel_state(&self, channel: u16) -> ChannelState
        ensures state { state_view result ≡ channel_state (endpoint_of self.now).end channel }
        // So no more channels than were agreed are other than Free.
        ensures others { OthersAreFree (endpoint_of self.now).end channel }
        ensures history { StateOfHistory self.now channel (state_view result) }
    {
        bounds::answers_are_bounded();
        one_end::answers_are_of_history();
        answers::states_are_of_notes();
        streaming::alike_ends_ask_alike();
        self.inner.connection.channel_state(channel)
    }

    /// How many octets were taken of a frame that isn't whole yet, or of the protocol header: fewer than a frame may
    /// have.
    pub fn pending(&self) -> usize
        ensures count { result ≡ length (endpoint_of self.now).unfinished }
        ensures below { result < frame_limit (endpoint_of self.now).end.agreed }
        // A closed or failed end keeps none.
        ensures none { takes_octets (endpoint_of self.now).end.phase ≡ false → result ≡ 0 }
        ensures history { PendingOfHistory self.now result }
    {
        self.inner.pending()
    }

    /// How many octets have come of the body of a content that isn't whole yet, in phase Running on an Open channel.
    /// They were reported as they came, and are not kept.
    pub fn came(&self, channel: u16) -> usize
        ensures came { result ≡ octets_gathered (endpoint_of self.now).end channel }
        ensures most { result ≤ (config_at self.now).max_body }
        ensures history { CameOfHistory self.now channel result }
    {
        bounds::answers_are_bounded();
        one_end::answers_are_of_history();
        one_end::record_reads();
        answers::octets_are_of_body();
        streaming::contents_are_streamed();
        self.inner.connection.gathered(channel)
    }

    /// The request that is to be answered next on a channel: at a client the one that waits for its reply, at a
    /// server the oldest that it took.
    pub fn reply_due(&self, channel: u16) -> Option<Kind>
        ensures request { result ≡ reply_due (endpoint_of self.now).end channel }
        // Of each channel at most 1,024 requests are kept, and one at a client.
        ensures most { IsBounded (role_played self.now) (config_at self.now) (endpoint_of self.now).end }
        ensures history { DueOfHistory self.now channel result }
    {
        one_end::answers_are_of_history();
        one_end::record_reads();
        replies::unanswered_are_kept();
        fitting::owed_read_back();
        streaming::alike_ends_ask_alike();
        self.inner.connection.reply_due(channel)
    }

    /// Asks something of the end.
    fn put_ask(&mut self, ask: LentAsk<'_>) -> Result<Option<u16>, AskFault>
        ensures asked { StreamAsked self.old (lent_view ask.entry) result self.new }
        ensures number { StreamAnswersNumber self.old (lent_view ask.entry) result }
    {
        octets::octets_follow();
        fitting::frames_fit();
        one_end::ask_is_of_history();
        streaming::alike_ends_ask_alike();
        streaming::alike_endpoints_stay_alike();
        self.inner.ask(ask)
    }

    /// Asks something of the end: it is refused with the first refusal that applies, which changes nothing, or its
    /// frames are put. The answer is the channel that an open takes.
    pub fn ask(&mut self, ask: &Ask) -> Result<Option<u16>, AskFault>
        ensures asked { StreamAsked self.old (ask_view ask.now) result self.new }
        ensures number { StreamAnswersNumber self.old (ask_view ask.now) result }
    {
        self.put_ask(ask.lent())
    }

    /// Opens the lowest channel that is free, which it answers. Only a client opens channels.
    pub fn open_channel(&mut self) -> Result<u16, AskFault>
        ensures asked { StreamAsked self.old asks.Open result self.new }
        ensures number { StreamAnswersLowest self.old result }
    {
        match self.put_ask(LentAsk::Open)? {
            Some(number) => Ok(number),
            None => unreachable!(),
        }
    }

    /// Sends a message whose parts are lent.
    fn put_message(&mut self, channel: u16, message: LentMessage<'_>) -> Result<(), AskFault>
        ensures { StreamAsked self.old (asks.Send channel (message_of (lent_letter message.entry))) result self.new }
    {
        self.put_ask(LentAsk::Send(channel, message))?;
        Ok(())
    }

    /// Sends a message on a channel: a method, or a method with its content, which is cut to the agreed frame size.
    pub fn send(&mut self, channel: u16, message: &Message) -> Result<(), AskFault>
        ensures { StreamAsked self.old (asks.Send channel (message_of (message_view message.now))) result self.new }
    {
        self.put_message(channel, LentMessage::of(message))
    }

    /// Sends a method and its content on a channel, as [`StreamEnd::send`] sends the message that these make. The body
    /// is copied once, into the output, and nothing else is.
    ///
    /// A method that no content follows makes no such message: it is [`AskFault::NotSendable`], whatever else is so.
    pub fn send_content(
        &mut self,
        channel: u16,
        method: &Method,
        properties: &Properties,
        body: &[u8],
    ) -> Result<(), AskFault>
        ensures asked { has_content (method_view method.now).kind ≡ true
            → StreamAsked self.old (content_asked channel (method_view method.now) (properties_view properties.now)
            body.now) result self.new }
        ensures alone { has_content (method_view method.now).kind ≡ false → (result ≡ Err AskFault.NotSendable)
            × (self.new ≡ self.old) }
    {
        if !method.has_content() {
            return Err(AskFault::NotSendable);
        }
        let message = LentMessage::content(method, properties, body);
        self.put_message(channel, message)
    }

    /// Sends a method and its content on a channel, as [`StreamEnd::send_content`] does, the body out of chunks. Each chunk
    /// is let go once its octets stand in the output, so that a large body is not in memory twice. An error leaves the
    /// body as it was.
    pub fn send_chunks(
        &mut self,
        channel: u16,
        method: &Method,
        properties: &Properties,
        body: &mut Chunks,
    ) -> Result<(), AskFault>
        ensures asked { has_content (method_view method.now).kind ≡ true
            → StreamAsked self.old (content_asked channel (method_view method.now) (properties_view properties.now)
            body.old) result self.new }
        ensures alone { has_content (method_view method.now).kind ≡ false → (result ≡ Err AskFault.NotSendable)
            × (self.new ≡ self.old) }
        ensures taken { OnOk result (body.new ≡ []) }
        ensures kept { OnErr result (body.new ≡ body.old) }
    {
        if !method.has_content() {
            return Err(AskFault::NotSendable);
        }
        octets::octets_follow();
        fitting::frames_fit();
        one_end::ask_is_of_history();
        streaming::alike_ends_ask_alike();
        streaming::alike_endpoints_stay_alike();
        self.inner.send_chunks(channel, method, properties, body)
    }

    /// Lends the frames of a method and its content, with the body where it lies, for a write that takes several slices:
    /// as [`StreamEnd::send_content`] sends them, and without the copy. They count as put and as written, so the caller
    /// writes all of them before anything else; where the stream stops half-way, the connection is lost.
    ///
    ///     let mut frames = end.lend_content(channel, &method, &properties, &body, &mut octets)?;
    ///     while !frames.is_empty() {
    ///         let written = socket.write_vectored(&slices_of(frames))?;
    ///         frames.wrote(written);
    ///     }
    ///
    /// What stands around the parts of the body goes to `octets`, in the place of what is there: the frames of the method
    /// and of the header, and 8 octets for each part. Nothing is lent while octets of the output wait
    /// ([`LendFault::Waits`]).
    pub fn lend_content<'a>(
        &mut self,
        channel: u16,
        method: &Method,
        properties: &Properties,
        body: &'a [u8],
        octets: &'a mut Vec<u8>,
    ) -> Result<ContentFrames<'a>, LendFault>
        ensures lends { has_content (method_view method.now).kind ≡ true
            → LendsContent self.old (content_asked channel (method_view method.now) (properties_view properties.now)
            body.now) Lend result self.new }
        ensures alone { has_content (method_view method.now).kind ≡ false
            → (result ≡ Err (lend_faults.Refused AskFault.NotSendable)) × (self.new ≡ self.old) }
    {
        if !method.has_content() {
            return Err(LendFault::Refused(AskFault::NotSendable));
        }
        octets::octets_follow();
        fitting::frames_fit();
        one_end::ask_is_of_history();
        streaming::alike_ends_ask_alike();
        streaming::alike_endpoints_stay_alike();
        if self.waiting_in_all() > 0 {
            return Err(LendFault::Waits);
        }
        match self
            .inner
            .lend_content(channel, method, properties, body, octets)
        {
            Ok(frames) => {
                self.octets_written = frames.add_to(self.octets_written);
                Ok(frames)
            }
            Err(fault) => Err(LendFault::Refused(fault)),
        }
    }

    /// Begins a content whose body, of so many octets, is still to come: as [`StreamEnd::send_content`] sends it, whatever
    /// its body will be. The frames of the method and of the header are appended to `octets`, and the frames of the body
    /// by the writer that is answered, as its octets come:
    ///
    ///     let mut writer = end.begin_content(channel, &method, &properties, size, &mut octets)?;
    ///     socket.write_all(&octets)?;
    ///     while writer.left() > 0 {
    ///         octets.clear();
    ///         writer.write(source.next_part()?, &mut octets)?;
    ///         socket.write_all(&octets)?;
    ///     }
    ///
    /// So a body of any length goes out through a small buffer. All its frames count as put and as written, so the caller
    /// writes them to the last octet before anything else that the end puts; where the body or the stream stops half-way,
    /// the connection is lost. Nothing is begun while octets of the output wait ([`LendFault::Waits`]).
    pub fn begin_content(
        &mut self,
        channel: u16,
        method: &Method,
        properties: &Properties,
        size: u64,
        octets: &mut Vec<u8>,
    ) -> Result<BodyWriter, LendFault>
        ensures begins { has_content (method_view method.now).kind ≡ true → (body : List ℕ) → length body ≡ size
            → LendsContent self.old (content_asked channel (method_view method.now) (properties_view properties.now)
            body) (Begins octets.old.items octets.new.items body) result self.new }
        ensures size { IfOk result (λ writer. octets_left writer ≡ size) }
        ensures alone { has_content (method_view method.now).kind ≡ false
            → (result ≡ Err (lend_faults.Refused AskFault.NotSendable)) × (self.new ≡ self.old) }
        ensures kept { OnErr result (octets.new.items ≡ octets.old.items) }
        ensures stays { take (length octets.old.items) octets.new.items ≡ octets.old.items }
    {
        if !method.has_content() {
            return Err(LendFault::Refused(AskFault::NotSendable));
        }
        octets::octets_follow();
        fitting::frames_fit();
        one_end::ask_is_of_history();
        streaming::alike_ends_ask_alike();
        streaming::alike_endpoints_stay_alike();
        if self.waiting_in_all() > 0 {
            return Err(LendFault::Waits);
        }
        let before = octets.len();
        match self
            .inner
            .begin_content(channel, method, properties, size, octets)
        {
            Ok(writer) => {
                let ahead = (octets.len() - before) as u64;
                self.octets_written = writer.add_to(self.octets_written.saturating_add(ahead));
                Ok(writer)
            }
            Err(fault) => Err(LendFault::Refused(fault)),
        }
    }

    /// Asks the other end to send contents on a channel, or no more of them.
    pub fn flow(&mut self, channel: u16, active: bool) -> Result<(), AskFault>
        ensures { StreamAsked self.old (asks.Flow channel active) result self.new }
    {
        self.put_ask(LentAsk::Flow(channel, active))?;
        Ok(())
    }

    /// Closes a channel, with a code and a text.
    pub fn close_channel(
        &mut self,
        channel: u16,
        code: u16,
        text: &ShortStr,
    ) -> Result<(), AskFault>
        ensures { StreamAsked self.old (asks.CloseChannel channel code text.now no_cause) result self.new }
    {
        self.put_channel_close(channel, code, text, NO_CAUSE)
    }

    /// Closes a channel for a method of this kind: the close names its class and its method, which the other end
    /// reads as the cause.
    pub fn close_channel_for(
        &mut self,
        channel: u16,
        code: u16,
        text: &ShortStr,
        kind: Kind,
    ) -> Result<(), AskFault>
        ensures { StreamAsked self.old (asks.CloseChannel channel code text.now (cause_of kind)) result self.new }
    {
        let cause = Cause::by(kind);
        self.put_channel_close(channel, code, text, cause)
    }

    fn put_channel_close(
        &mut self,
        channel: u16,
        code: u16,
        text: &ShortStr,
        cause: Cause,
    ) -> Result<(), AskFault>
        ensures { StreamAsked self.old (asks.CloseChannel channel code text.now (cause_view cause)) result self.new }
    {
        self.put_ask(LentAsk::CloseChannel(channel, code, text, cause))?;
        Ok(())
    }

    /// Closes the connection, with a code and a text.
    pub fn close(&mut self, code: u16, text: &ShortStr) -> Result<(), AskFault>
        ensures { StreamAsked self.old (asks.Close code text.now no_cause) result self.new }
    {
        self.put_close(code, text, NO_CAUSE)
    }

    /// Closes the connection for a method of this kind, as [`StreamEnd::close_channel_for`] does a channel.
    pub fn close_for(&mut self, code: u16, text: &ShortStr, kind: Kind) -> Result<(), AskFault>
        ensures { StreamAsked self.old (asks.Close code text.now (cause_of kind)) result self.new }
    {
        let cause = Cause::by(kind);
        self.put_close(code, text, cause)
    }

    fn put_close(&mut self, code: u16, text: &ShortStr, cause: Cause) -> Result<(), AskFault>
        ensures { StreamAsked self.old (asks.Close code text.now (cause_view cause)) result self.new }
    {
        self.put_ask(LentAsk::Close(code, text, cause))?;
        Ok(())
    }

    /// Says that the server takes no more contents, and why. Only a server says so.
    pub fn blocked(&mut self, reason: &ShortStr) -> Result<(), AskFault>
        ensures { StreamAsked self.old (asks.Blocked reason.now) result self.new }
    {
        self.put_ask(LentAsk::Blocked(reason))?;
        Ok(())
    }

    /// Says that the server takes contents again. Only a server says so.
    pub fn unblocked(&mut self) -> Result<(), AskFault>
        ensures { StreamAsked self.old asks.Unblocked result self.new }
    {
        self.put_ask(LentAsk::Unblocked)?;
        Ok(())
    }
}
