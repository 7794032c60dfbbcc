//! An end that gathers whole contents turns into one whose events lend, and back.
ghost use Rattle.std.specs.Prelude.{◌≡◌, true, false, ℕ, List, IfOk, IfErr};
ghost use Rattle.amqp_model.specs.History.Histories.{History};
ghost use Rattle.amqp_model.specs.Laws.OctetLaws.{EndpointStandsFor};
ghost use Rattle.amqp_model.specs.Laws.StreamingLaws.{StreamStandsFor};
ghost use Rattle.amqp_core.specs.End.View as ends;
ghost use Rattle.amqp_core.specs.Stream.View as streams;
ghost use Rattle.amqp_core.specs.Stream.Turning.{TurnsBack, TurnsLending};

use crate::end::End;
use crate::endpoint::Endpoint;
use crate::roles::Role;
use crate::stream::StreamEnd;

impl Endpoint {
    ghost use Rattle.std.specs.Prelude.{cond};
    ghost use Rattle.amqp_channel.specs.Channels.ChannelsView.{NoneUnderWay};
    ghost use Rattle.amqp_core.specs.Faults.Blamed.{tally_view};
    ghost use Rattle.amqp_core.specs.End.EndpointView.{endpoint_view, EndpointIsSound};

    /// From here on the end lends what it takes.
    fn lend(&mut self)
        requires { EndpointIsSound self.old }
        ensures view { endpoint_view self.new ≡ endpoint_view self.old }
        ensures settings { self.new.connection.settings ≡ record self.old.connection.settings { lends = true } }
        ensures sound { EndpointIsSound self.new }
        ensures tally { tally_view self.new.tally ≡ tally_view self.old.tally }
    {
        self.connection.lend();
    }

    /// From here on the end gathers whole contents, if none is under way. The answer is whether that is so.
    fn gather(&mut self) -> bool
        requires { EndpointIsSound self.old }
        ensures view { endpoint_view self.new ≡ endpoint_view self.old }
        ensures settings { self.new.connection.settings
            ≡ cond result (record self.old.connection.settings { lends = false }) self.old.connection.settings }
        ensures none { result ≡ true → NoneUnderWay self.old.connection.channels }
        ensures sound { EndpointIsSound self.new }
        ensures tally { tally_view self.new.tally ≡ tally_view self.old.tally }
    {
        self.connection.gather()
    }
}

impl<R: Role> End<R> {
    /// The same end, which lends what it takes from here on. A content under way goes on: its next part is an event as it
    /// comes.
    pub fn into_stream(self) -> StreamEnd<R>
        ensures { TurnsLending self result }
    {
        let mut inner = self.inner;
        inner.lend();
        StreamEnd {
            inner,
            role: self.role,
            frames_taken: self.frames_taken,
            octets_written: self.octets_written,
            heard: self.heard,
        }
    }
}

impl<R: Role> StreamEnd<R> {
    /// The same end, which gathers whole contents from here on. While a content is under way on any channel, the end
    /// is given back as it is.
    pub fn into_end(self) -> Result<End<R>, StreamEnd<R>>
        ensures ok { IfOk result (λ end. TurnsBack self end) }
        ensures err { IfErr result (λ end. streams.endpoint_of end ≡ streams.endpoint_of self) }
        ensures heard { IfErr result (λ end. streams.heard_in end ≡ streams.heard_in self) }
    {
        let mut inner = self.inner;
        let role = self.role;
        let frames_taken = self.frames_taken;
        let octets_written = self.octets_written;
        let heard = self.heard;
        if inner.gather() {
            return Ok(End {
                inner,
                role,
                frames_taken,
                octets_written,
                heard,
            });
        }
        Err(StreamEnd {
            inner,
            role,
            frames_taken,
            octets_written,
            heard,
        })
    }
}
