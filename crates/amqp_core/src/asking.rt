//! What an application asks of an end: it is refused with the first refusal that applies, or its frames are put.
//!
//! The refusals come first, and change nothing. Then all is done that may want memory, the frames being staged; then
//! the state changes, and the frames are put, which can't fail.
ghost use Rattle.std.specs.Prelude.{◌≡◌, ◌<◌, ℕ, List, [], ◌++◌, length, take, Some, IfOk, IfErr, OnOk, true, OnErr};
ghost use Rattle.amqp_frame.specs.Splitting.{stream};
ghost use Rattle.amqp_method.specs.HeaderView.{properties_view};
ghost use Rattle.amqp_method.specs.Kinds.{has_content};
ghost use Rattle.amqp_method.specs.MethodView.{method_view};
ghost use Rattle.amqp_model.specs.End.Asks as asks;
ghost use Rattle.amqp_model.specs.End.Asks.{frames_asked, lowest_free};
ghost use Rattle.amqp_model.specs.End.Machine.{end_after_put};
ghost use Rattle.amqp_model.specs.End.ReadingBack.{AskReadsBack};
ghost use Rattle.amqp_outbox.specs.BodyToCome.{octets_left, still_to_write};
ghost use Rattle.amqp_outbox.specs.LentFrames.{content_left};
ghost use Rattle.amqp_channel.specs.Events.EventView.{message_of};
ghost use Rattle.amqp_core.specs.Asks.View.{lent_view};
ghost use Rattle.amqp_core.specs.Asks.Outcomes.{content_asked, number_taken, IsAccepted, IsAllowed, IsRefusal, IsRefused};
ghost use Rattle.amqp_core.specs.Heard.View.{cause_view};
ghost use Rattle.amqp_core.specs.Config.Settings.{config_view, role_for};
ghost use Rattle.amqp_core.specs.Asks.LentLetter.{lent_letter};

use crate::asks::LentAsk;
use crate::connection::Connection;
use crate::faults::AskFault;
use crate::heard::Cause;
use crate::lent_message::LentMessage;
use crate::replies::bare;
use crate::sending;
use crate::stage::Stage;
use amqp_channel::Channel;
use amqp_method::{Kind, Method, Properties};
use amqp_outbox::{BodyWriter, Chunks, ContentFrames, Outbox};
use amqp_value::ShortStr;

impl Connection {
    ghost use Rattle.amqp_core.specs.Connection.View.{connection_end};

    /// Opens the lowest channel that is free, which it answers.
    pub(crate) fn open_channel(&mut self, outbox: &mut Outbox) -> Result<u16, AskFault>
        requires staged { outbox.old.staged ≡ [] }
        ensures accepted { OnOk result (IsAccepted self.old.settings asks.Open (connection_end self.old)
            (connection_end self.new) outbox.old outbox.new) }
        ensures number { IfOk result (λ number. lowest_free (connection_end self.old) ≡ Some number) }
        ensures refused { IfErr result (λ fault. IsRefused self.old.settings asks.Open fault (connection_end self.old)
            (connection_end self.new) outbox.old outbox.new) }
        ensures settings { self.new.settings ≡ self.old.settings }
    {
        let number = self.allow_open()?;
        let method = bare(self.alloc, Kind::ChannelOpen);
        sending::stage_method(outbox, number, &method)?;
        let Ok(()) = self.channels.put_open(number) else {
            outbox.discard();
            return Err(AskFault::OutOfMemory);
        };
        outbox.put();
        Ok(number)
    }

    /// Sends a message on a channel.
    pub(crate) fn send(
        &mut self,
        outbox: &mut Outbox,
        number: u16,
        message: LentMessage<'_>,
    ) -> Result<(), AskFault>
        requires staged { outbox.old.staged ≡ [] }
        ensures accepted { OnOk result (IsAccepted self.old.settings
            (asks.Send number (message_of (lent_letter message.entry))) (connection_end self.old)
            (connection_end self.new) outbox.old outbox.new) }
        ensures refused { IfErr result (λ fault. IsRefused self.old.settings
            (asks.Send number (message_of (lent_letter message.entry))) fault (connection_end self.old)
            (connection_end self.new) outbox.old outbox.new) }
        ensures settings { self.new.settings ≡ self.old.settings }
    {
        let agreed = self.allow_send(number, message)?;
        let site = self.site(number, agreed.channel_max);
        let Ok(()) = sending::stage_message(outbox, number, agreed.frame_max, message) else {
            outbox.discard();
            return Err(AskFault::OutOfMemory);
        };
        let Ok(()) = self
            .channels
            .put_message(self.alloc, site, message.method())
        else {
            outbox.discard();
            return Err(AskFault::OutOfMemory);
        };
        outbox.put();
        Ok(())
    }

    /// Sends a method and its content on a channel, and lets the chunks go in which the body lies.
    pub(crate) fn send_chunks(
        &mut self,
        outbox: &mut Outbox,
        number: u16,
        method: &Method,
        properties: &Properties,
        chunks: &mut Chunks,
    ) -> Result<(), AskFault>
        requires staged { outbox.old.staged ≡ [] }
        requires content { has_content (method_view method.now).kind ≡ true }
        ensures accepted { OnOk result (IsAccepted self.old.settings
            (content_asked number (method_view method.now) (properties_view properties.now) chunks.old)
            (connection_end self.old) (connection_end self.new) outbox.old outbox.new) }
        ensures refused { IfErr result (λ fault. IsRefused self.old.settings
            (content_asked number (method_view method.now) (properties_view properties.now) chunks.old) fault
            (connection_end self.old) (connection_end self.new) outbox.old outbox.new) }
        ensures settings { self.new.settings ≡ self.old.settings }
        ensures taken { OnOk result (chunks.new ≡ []) }
        ensures kept { OnErr result (chunks.new ≡ chunks.old) }
    {
        let agreed = self.allow_content(number, method, properties)?;
        let site = self.site(number, agreed.channel_max);
        let frame_max = agreed.frame_max;
        let staged = sending::stage_chunks(outbox, number, frame_max, method, properties, chunks);
        let Ok(()) = staged else {
            outbox.discard();
            return Err(AskFault::OutOfMemory);
        };
        let Ok(()) = self.channels.put_message(self.alloc, site, method) else {
            unreachable!()
        };
        outbox.put();
        Ok(())
    }

    /// Sends a method and its content on a channel, with the body where it lies: gives the frames, and puts none.
    pub(crate) fn lend_content<'a>(
        &mut self,
        number: u16,
        method: &Method,
        properties: &Properties,
        body: &'a [u8],
        octets: &'a mut Vec<u8>,
    ) -> Result<ContentFrames<'a>, AskFault>
        requires content { has_content (method_view method.now).kind ≡ true }
        ensures allowed { OnOk result (IsAllowed self.old.settings (connection_end self.old)
            (content_asked number (method_view method.now) (properties_view properties.now) body.now)) }
        ensures end { OnOk result (connection_end self.new ≡ end_after_put (role_for self.old.settings)
            (config_view self.old.settings) (frames_asked (connection_end self.old)
            (content_asked number (method_view method.now) (properties_view properties.now) body.now))
            (connection_end self.old)) }
        ensures reads_back { OnOk result (AskReadsBack
            (content_asked number (method_view method.now) (properties_view properties.now) body.now)) }
        ensures lent { IfOk result (λ frames. content_left frames ≡ stream (frames_asked (connection_end self.old)
            (content_asked number (method_view method.now) (properties_view properties.now) body.now))) }
        ensures above { OnOk result (0 < number) }
        ensures refused { IfErr result (λ fault. IsRefusal self.old.settings (connection_end self.old)
            (content_asked number (method_view method.now) (properties_view properties.now) body.now) fault) }
        ensures same { OnErr result (connection_end self.new ≡ connection_end self.old) }
        ensures settings { self.new.settings ≡ self.old.settings }
    {
        let agreed = self.allow_content(number, method, properties)?;
        let site = self.site(number, agreed.channel_max);
        let frame_max = agreed.frame_max;
        let frames = sending::lend_frames(octets, number, frame_max, method, properties, body)?;
        let Ok(()) = self.channels.put_message(self.alloc, site, method) else {
            unreachable!()
        };
        Ok(frames)
    }

    /// Sends a method and the header of its content on a channel, whose body of so many octets is still to come: they go
    /// to `octets`, and nothing goes to the outbox.
    pub(crate) fn begin_content(
        &mut self,
        number: u16,
        method: &Method,
        properties: &Properties,
        size: u64,
        octets: &mut Vec<u8>,
    ) -> Result<BodyWriter, AskFault>
        requires content { has_content (method_view method.now).kind ≡ true }
        ensures allowed { OnOk result ((body : List ℕ) → length body ≡ size → IsAllowed self.old.settings
            (connection_end self.old) (content_asked number (method_view method.now) (properties_view properties.now)
            body)) }
        ensures end { OnOk result ((body : List ℕ) → length body ≡ size → connection_end self.new
            ≡ end_after_put (role_for self.old.settings)
            (config_view self.old.settings) (frames_asked (connection_end self.old)
            (content_asked number (method_view method.now) (properties_view properties.now) body))
            (connection_end self.old)) }
        ensures reads_back { OnOk result ((body : List ℕ) → length body ≡ size → AskReadsBack
            (content_asked number (method_view method.now) (properties_view properties.now) body)) }
        ensures begun { IfOk result (λ writer. (body : List ℕ) → length body ≡ size
            → octets.new.items ++ still_to_write writer body ≡ octets.old.items ++ stream (frames_asked
            (connection_end self.old)
            (content_asked number (method_view method.now) (properties_view properties.now) body))) }
        ensures left { IfOk result (λ writer. octets_left writer ≡ size) }
        ensures above { OnOk result (0 < number) }
        ensures refused { IfErr result (λ fault. (body : List ℕ) → IsRefusal self.old.settings
            (connection_end self.old) (content_asked number (method_view method.now) (properties_view properties.now)
            body) fault) }
        ensures same { OnErr result (connection_end self.new ≡ connection_end self.old) }
        ensures kept { OnErr result (octets.new.items ≡ octets.old.items) }
        ensures stays { take (length octets.old.items) octets.new.items ≡ octets.old.items }
        ensures settings { self.new.settings ≡ self.old.settings }
    {
        let agreed = self.allow_content(number, method, properties)?;
        let site = self.site(number, agreed.channel_max);
        let frame_max = agreed.frame_max;
        let writer = sending::begin_frames(octets, number, frame_max, method, properties, size)?;
        let Ok(()) = self.channels.put_message(self.alloc, site, method) else {
            unreachable!()
        };
        Ok(writer)
    }

    /// Asks the other end to send contents on a channel, or no more of them.
    pub(crate) fn flow(
        &mut self,
        outbox: &mut Outbox,
        number: u16,
        active: bool,
    ) -> Result<(), AskFault>
        requires staged { outbox.old.staged ≡ [] }
        ensures accepted { OnOk result (IsAccepted self.old.settings (asks.Flow number active)
            (connection_end self.old) (connection_end self.new) outbox.old outbox.new) }
        ensures refused { IfErr result (λ fault. IsRefused self.old.settings (asks.Flow number active) fault
            (connection_end self.old) (connection_end self.new) outbox.old outbox.new) }
        ensures settings { self.new.settings ≡ self.old.settings }
    {
        let agreed = self.allow_flow(number)?;
        let site = self.site(number, agreed.channel_max);
        let method = sending::flow(self.alloc, active)?;
        sending::stage_method(outbox, number, &method)?;
        self.channels.put_flow(site, active);
        outbox.put();
        Ok(())
    }

    /// Closes a channel.
    pub(crate) fn close_channel(
        &mut self,
        outbox: &mut Outbox,
        number: u16,
        code: u16,
        text: &ShortStr,
        cause: Cause,
    ) -> Result<(), AskFault>
        requires staged { outbox.old.staged ≡ [] }
        ensures accepted { OnOk result (IsAccepted self.old.settings (asks.CloseChannel number code text.now
            (cause_view cause)) (connection_end self.old) (connection_end self.new) outbox.old outbox.new) }
        ensures refused { IfErr result (λ fault. IsRefused self.old.settings (asks.CloseChannel number code text.now
            (cause_view cause)) fault (connection_end self.old) (connection_end self.new) outbox.old outbox.new) }
        ensures settings { self.new.settings ≡ self.old.settings }
    {
        let agreed = self.allow_close(number)?;
        let site = self.site(number, agreed.channel_max);
        let method = sending::close(self.alloc, Kind::ChannelClose, code, text, cause)?;
        sending::stage_method(outbox, number, &method)?;
        self.channels.put_close(site);
        outbox.put();
        Ok(())
    }

    /// Closes the connection.
    pub(crate) fn close(
        &mut self,
        outbox: &mut Outbox,
        code: u16,
        text: &ShortStr,
        cause: Cause,
    ) -> Result<(), AskFault>
        requires staged { outbox.old.staged ≡ [] }
        ensures accepted { OnOk result (IsAccepted self.old.settings (asks.Close code text.now (cause_view cause))
            (connection_end self.old) (connection_end self.new) outbox.old outbox.new) }
        ensures refused { IfErr result (λ fault. IsRefused self.old.settings
            (asks.Close code text.now (cause_view cause)) fault (connection_end self.old) (connection_end self.new)
            outbox.old outbox.new) }
        ensures settings { self.new.settings ≡ self.old.settings }
    {
        let agreed = self.running()?;
        let method = sending::close(self.alloc, Kind::ConnectionClose, code, text, cause)?;
        sending::stage_method(outbox, 0, &method)?;
        self.stage = Stage::Closing(Some(agreed));
        outbox.put();
        Ok(())
    }

    /// Says that the server takes no more contents, and why.
    pub(crate) fn blocked(&mut self, outbox: &mut Outbox, reason: &ShortStr) -> Result<(), AskFault>
        requires staged { outbox.old.staged ≡ [] }
        ensures accepted { OnOk result (IsAccepted self.old.settings (asks.Blocked reason.now)
            (connection_end self.old) (connection_end self.new) outbox.old outbox.new) }
        ensures refused { IfErr result (λ fault. IsRefused self.old.settings (asks.Blocked reason.now) fault
            (connection_end self.old) (connection_end self.new) outbox.old outbox.new) }
        ensures settings { self.new.settings ≡ self.old.settings }
    {
        let _agreed = self.allow_block()?;
        let method = sending::blocked(self.alloc, reason)?;
        sending::stage_method(outbox, 0, &method)?;
        outbox.put();
        Ok(())
    }

    /// Says that the server takes contents again.
    pub(crate) fn unblocked(&mut self, outbox: &mut Outbox) -> Result<(), AskFault>
        requires staged { outbox.old.staged ≡ [] }
        ensures accepted { OnOk result (IsAccepted self.old.settings asks.Unblocked (connection_end self.old)
            (connection_end self.new) outbox.old outbox.new) }
        ensures refused { IfErr result (λ fault. IsRefused self.old.settings asks.Unblocked fault
            (connection_end self.old) (connection_end self.new) outbox.old outbox.new) }
        ensures settings { self.new.settings ≡ self.old.settings }
    {
        let _agreed = self.allow_block()?;
        let method = bare(self.alloc, Kind::ConnectionUnblocked);
        sending::stage_method(outbox, 0, &method)?;
        outbox.put();
        Ok(())
    }

    /// Does what is asked. The answer is the channel that an open takes.
    pub(crate) fn ask(
        &mut self,
        outbox: &mut Outbox,
        ask: LentAsk<'_>,
    ) -> Result<Option<u16>, AskFault>
        requires staged { outbox.old.staged ≡ [] }
        ensures accepted { OnOk result (IsAccepted self.old.settings (lent_view ask.entry) (connection_end self.old)
            (connection_end self.new) outbox.old outbox.new) }
        ensures number { IfOk result (λ number. number ≡ number_taken (connection_end self.old) (lent_view ask.entry)) }
        ensures refused { IfErr result (λ fault. IsRefused self.old.settings (lent_view ask.entry) fault
            (connection_end self.old) (connection_end self.new) outbox.old outbox.new) }
        ensures settings { self.new.settings ≡ self.old.settings }
    {
        match ask {
            LentAsk::Open => {
                let number = self.open_channel(outbox)?;
                return Ok(Some(number));
            }
            LentAsk::Send(channel, message) => self.send(outbox, channel, message)?,
            LentAsk::Flow(channel, active) => self.flow(outbox, channel, active)?,
            LentAsk::CloseChannel(channel, code, text, cause) => {
                self.close_channel(outbox, channel, code, text, cause)?
            }
            LentAsk::Close(code, text, cause) => self.close(outbox, code, text, cause)?,
            LentAsk::Blocked(reason) => self.blocked(outbox, reason)?,
            LentAsk::Unblocked => self.unblocked(outbox)?,
        }
        Ok(None)
    }
}
