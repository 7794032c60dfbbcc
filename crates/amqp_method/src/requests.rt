//! Requests and replies.
ghost use Rattle.std.specs.Prelude.{◌≡◌};
ghost use Rattle.amqp_method.specs.MethodView.{method_view};
ghost use Rattle.amqp_method.specs.Requests.{is_request as asks, answered, is_reply as replies, answers, is_one_way};

use crate::kinds::Kind;
use crate::methods::Method;
use crate::table::{Wanted, row_for};

/// The last class whose methods have answers of their own: connection is 10, and channel is 20.
const CHANNEL: u16 = 20;

impl Method {
    /// Whether the server replies to the method: some method answers its kind, and its argument no-wait, if it has one,
    /// is
    /// 0. The classes connection and channel have answers of their own, and no requests.
    #[inline(always)]
    pub fn is_request(&self) -> bool
        ensures { result ≡ asks (method_view self.now) }
    {
        match self.row().wanted {
            Wanted::Always => true,
            Wanted::Never => false,
            Wanted::UnlessNoWait(place) => self.bit_at(place) != Some(true),
        }
    }
}

impl Kind {
    /// The request that the method answers, but of the classes connection and channel.
    pub fn request(self) -> Option<Kind>
        ensures { result ≡ answered self }
    {
        if self.class_id() > CHANNEL {
            return self.answers();
        }
        None
    }

    /// Whether the method answers a request. No method of the classes connection and channel does.
    pub fn is_reply(self) -> bool
        ensures { result ≡ replies self }
    {
        self.request().is_some()
    }

    /// Whether the method has nothing to do with requests: this side may send it, its class is above channel, and the
    /// server never replies to it, or, sent by the server, it is no reply. Such are a publish, a deliver and an ack.
    #[inline(always)]
    pub fn is_one_way(self, client: bool) -> bool
        ensures { result ≡ is_one_way client self }
    {
        let row = row_for(self);
        if row.class <= CHANNEL || !row.sender.permits(client) {
            return false;
        }
        if client {
            row.wanted.is_never()
        } else {
            row.answers.is_none()
        }
    }

    /// Whether the method answers this request.
    pub fn is_reply_to(self, request: Kind) -> bool
        ensures { result ≡ answers self request }
    {
        match self.request() {
            Some(kind) => request.is_same(kind),
            None => false,
        }
    }
}
