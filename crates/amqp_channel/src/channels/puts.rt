//! What an end puts on its channels.
ghost use Rattle.std.specs.Prelude.{◌≡◌, ◌<◌, true};
ghost use Rattle.amqp_method.specs.MethodView.{method_view};
ghost use Rattle.amqp_model.specs.End.Asks.{is_free};
ghost use Rattle.amqp_model.specs.Wire.Readings.{Calls, kind_of};
ghost use Rattle.amqp_channel.specs.Channel.LifeView.{IsOther};
ghost use Rattle.amqp_channel.specs.Channels.Used.{is_open_at};

use crate::channel::Channel;
use crate::channels::Channels;
use crate::site::Site;
use amqp_method::{Method, OutOfMemory};
use std::alloc::Global;

impl Channels {
    ghost use Rattle.amqp_channel.specs.Channels.ChannelsView.{channels_view};
    ghost use Rattle.amqp_channel.specs.Channels.Puts.{PutsClose, PutsFlow, PutsMessage, PutsOpen};

    /// An open that a client puts.
    pub fn put_open(&mut self, number: u16) -> Result<(), OutOfMemory>
        requires above { 0 < number }
        requires free { is_free (channels_view self.old number) ≡ true }
        ensures { PutsOpen number self.old result self.new }
    {
        let mut channel = Channel::Free;
        channel.put_open();
        self.set(number, channel)
    }

    /// A close that this end puts, with any code, text and cause.
    pub fn put_close(&mut self, site: Site)
        requires above { 0 < site.number }
        requires open { is_open_at (channels_view self.old site.number) ≡ true }
        ensures { PutsClose site self.old self.new }
    {
        match self.used.get_mut(&site.number) {
            Some(channel) => {
                let before = channel.amount();
                channel.put_close(site);
                let left = channel.amount();
                self.amounts = self.amounts.after(before, left);
            }
            None => unreachable!(),
        }
    }

    /// A flow that this end puts.
    pub fn put_flow(&mut self, site: Site, active: bool)
        requires above { 0 < site.number }
        requires open { is_open_at (channels_view self.old site.number) ≡ true }
        ensures { PutsFlow site active self.old self.new }
    {
        match self.used.get_mut(&site.number) {
            Some(channel) => {
                let before = channel.amount();
                channel.put_flow(site, active);
                let left = channel.amount();
                self.amounts = self.amounts.after(before, left);
            }
            None => unreachable!(),
        }
    }

    /// A message with this method that this end puts, in frames of any size. A content after the method changes nothing.
    pub fn put_message(
        &mut self,
        alloc: Global,
        site: Site,
        method: &Method,
    ) -> Result<(), OutOfMemory>
        requires above { 0 < site.number }
        requires open { is_open_at (channels_view self.old site.number) ≡ true }
        requires other { IsOther (kind_of (Calls (method_view method.now))) }
        ensures { PutsMessage site (method_view method.now) self.old result self.new }
    {
        match self.used.get_mut(&site.number) {
            Some(channel) => {
                let before = channel.amount();
                let answer = channel.put_message(alloc, site, method);
                let left = channel.amount();
                self.amounts = self.amounts.after(before, left);
                answer
            }
            None => unreachable!(),
        }
    }
}
