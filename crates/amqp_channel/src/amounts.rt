//! How many octets are kept of the contents under way.
ghost use Rattle.std.specs.Prelude.{◌≡◌, ◌+◌, ◌*◌, ◌^◌, ◌<◌, ◌≤◌, length};
ghost use Rattle.amqp_model.specs.End.Amounts.{body_octets_on, header_octets, header_octets_on, IsSum};
ghost use Rattle.amqp_model.specs.Wire.Gathering.{kept};
ghost use Rattle.amqp_channel.specs.Channel.ChannelView.{gathered_view};
ghost use Rattle.amqp_channel.specs.Contents.GatheringView.{gathering_view};

use crate::channel::Channel;
use crate::channels::Channels;
use crate::life::Life;

/// How many octets are kept of one content: of its header, and of its body.
#[derive(Clone, Copy)]
pub(crate) struct Amount {
    pub(crate) header: u64,
    pub(crate) body: u64,
}

/// The same of all contents together.
#[derive(Clone, Copy)]
pub(crate) struct Amounts {
    pub(crate) headers: u128,
    pub(crate) bodies: u128,
}

/// A sum of which one part has changed.
fn changed(sum: u128, before: u64, after: u64) -> u128
    requires within { before ≤ sum }
    requires below { sum ≤ 65535 * 2 ^ 64 }
    ensures { result + before ≡ sum + after }
{
    sum - before as u128 + after as u128
}

impl Amount {
    /// No content is under way.
    pub(crate) fn none() -> Amount
        ensures header { result.header ≡ 0 }
        ensures body { result.body ≡ 0 }
    {
        Amount { header: 0, body: 0 }
    }
}

impl Amounts {
    ghost use Rattle.amqp_channel.specs.Channels.AmountView.{ChangesBy, IsPartOf};

    /// No content is under way.
    pub(crate) fn none() -> Amounts
        ensures headers { result.headers ≡ 0 }
        ensures bodies { result.bodies ≡ 0 }
    {
        Amounts {
            headers: 0,
            bodies: 0,
        }
    }

    /// The sums where so much was kept of one content, and so much is kept now.
    #[inline(always)]
    pub(crate) fn after(self, before: Amount, left: Amount) -> Amounts
        requires { IsPartOf self before }
        ensures { ChangesBy before left self result }
    {
        if before.header == left.header && before.body == left.body {
            return self;
        }
        Amounts {
            headers: changed(self.headers, before.header, left.header),
            bodies: changed(self.bodies, before.body, left.body),
        }
    }
}

impl Life {
    /// How much is kept of the content under way.
    #[inline(always)]
    fn amount(&self) -> Amount
        ensures header { result.header ≡ header_octets (gathering_view self.now.content) }
        ensures body { result.body ≡ length (kept (gathering_view self.now.content)) }
        ensures small { result.body < 2 ^ 63 }
    {
        Amount {
            header: self.content.header_octets() as u64,
            body: self.content.octets() as u64,
        }
    }
}

impl Channel {
    /// How much is kept of the content under way: of one that is lent nothing is.
    #[inline(always)]
    pub(crate) fn amount(&self) -> Amount
        ensures header { result.header ≡ header_octets_on (gathered_view self.now) }
        ensures body { result.body ≡ body_octets_on (gathered_view self.now) }
        ensures small { result.body < 2 ^ 63 }
    {
        match self {
            Channel::Open(life) => life.amount(),
            Channel::Free
            | Channel::Opening
            | Channel::Closing
            | Channel::LentHeader(_, _)
            | Channel::LentBody { .. } => Amount::none(),
        }
    }
}

impl Channels {
    ghost use Rattle.amqp_channel.specs.Channels.ChannelsView.{channels_gathered, channels_view, NoneLent};

    /// How many octets the headers of the contents under way have together. A content that is lent counts nothing.
    #[tactic(auto, using(crate::proofs::SumLemmas::sum_is_small, crate::proofs::AmountLemmas::headers_fit))]
    pub fn header_octets(&self) -> u128
        ensures gathered { IsSum (λ number. header_octets_on (channels_gathered self.now number)) result }
        ensures sum { NoneLent self.now → IsSum (λ number. header_octets_on (channels_view self.now number)) result }
        ensures small { result ≤ 65535 * 2 ^ 64 }
    {
        self.amounts.headers
    }

    /// How many octets of the bodies of the contents under way are kept together. A content that is lent counts nothing.
    #[tactic(auto, using(crate::proofs::SumLemmas::sum_is_small, crate::proofs::AmountLemmas::all_bodies))]
    pub fn body_octets(&self) -> u128
        ensures gathered { IsSum (λ number. body_octets_on (channels_gathered self.now number)) result }
        ensures sum { NoneLent self.now → IsSum (λ number. body_octets_on (channels_view self.now number)) result }
        ensures small { result ≤ 65535 * 2 ^ 64 }
    {
        self.amounts.bodies
    }
}
