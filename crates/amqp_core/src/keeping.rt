//! How many octets an end keeps for its peer.
ghost use Rattle.std.specs.Prelude.{◌≡◌, ◌<◌, false, length};
ghost use Rattle.amqp_value.specs.Lengths.{capped};
ghost use Rattle.amqp_model.specs.End.Amounts.{GathersOctets, KeepsOctets};
ghost use Rattle.amqp_model.specs.History.Negotiation.{frame_limit};
ghost use Rattle.amqp_core.specs.Connection.View.{connection_end};
ghost use Rattle.amqp_core.specs.Connection.Stages.{agreed_at};

use crate::connection::Connection;
use crate::end::End;
use crate::endpoint::Endpoint;
use crate::roles::Role;
use crate::stage::Phase;
use crate::stream::StreamEnd;
use amqp_model::{bounds, fitting};

/// A count, or the greatest of 64 bits for every count above it.
fn capped(octets: u128) -> usize
    ensures { result ≡ capped octets }
{
    if octets < u64::MAX as u128 {
        octets as usize
    } else {
        usize::MAX
    }
}

impl Connection {
    /// How many octets are kept of bodies, on all channels, while the connection is Running.
    fn gathered_in_all(&self) -> usize
        requires { self.now.settings.lends ≡ false }
        ensures { GathersOctets (connection_end self.now) result }
    {
        match self.stage.phase() {
            Phase::Running => capped(self.channels.body_octets()),
            Phase::Handshake => 0,
            Phase::Closing => 0,
            Phase::Closed => 0,
            Phase::Failed => 0,
        }
    }
}

impl Endpoint {
    ghost use Rattle.amqp_core.specs.End.EndpointView.{endpoint_view, EndpointIsSound};
    ghost use Rattle.amqp_core.specs.End.KeptOctets.{kept_by};

    /// How many octets are kept of the contents that are gathered, and of a frame that isn't whole.
    fn kept(&self) -> usize
        requires { EndpointIsSound self.now }
        ensures lent { KeepsOctets (kept_by self.now) result }
        ensures gathered { self.now.connection.settings.lends ≡ false → KeepsOctets (endpoint_view self.now) result }
        ensures unfinished { length (endpoint_view self.now).unfinished
            < frame_limit (agreed_at self.now.connection.stage) }
    {
        let headers = self.connection.channels.header_octets();
        let bodies = self.connection.channels.body_octets();
        capped(headers + bodies + self.pending() as u128)
    }
}

impl<R: Role> End<R> {
    ghost use Rattle.amqp_core.specs.End.View.{endpoint_of};
    ghost use Rattle.amqp_core.specs.End.KeptOctets.{KeptIsWithin};

    /// How many octets the end keeps for its peer: of each channel the header of the content under way and what has
    /// come of its body, and what has come of a frame that isn't whole, or of the protocol header. It looks at no
    /// channel.
    ///
    /// A closed or failed end keeps what its channels had until it is dropped. The method of a content isn't counted.
    /// The greatest number of 64 bits stands for every number above it.
    pub fn kept(&self) -> usize
        ensures octets { KeepsOctets (endpoint_of self.now) result }
        // At most a body and a frame for each channel that was agreed, and one frame more.
        ensures most { KeptIsWithin self.now result }
    {
        bounds::contents_are_bounded();
        fitting::owed_read_back();
        self.inner.kept()
    }

    /// How many octets are kept of the bodies of contents that aren't whole yet, on all channels, in phase Running: the
    /// sum of what [`End::gathered`] answers of each. It looks at no channel.
    pub fn gathered_in_all(&self) -> usize
        ensures { GathersOctets (endpoint_of self.now).end result }
    {
        self.inner.connection.gathered_in_all()
    }
}

impl<R: Role> StreamEnd<R> {
    ghost use Rattle.amqp_core.specs.End.KeptOctets.{KeepsLent};

    /// How many octets the end keeps for its peer: what has come of a frame that isn't whole, or of the protocol
    /// header. A content that is lent counts nothing. What was gathered of a content before [`End::into_stream`] counts
    /// up to that content's next frame.
    pub fn kept(&self) -> usize
        ensures { KeepsLent self.now result }
    {
        self.inner.kept()
    }
}
