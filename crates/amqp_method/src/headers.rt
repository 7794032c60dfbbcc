//! Content headers.
ghost use Rattle.std.specs.Prelude.{◌≡◌, ◌↔◌, ℕ, length, replicate, None, IsTrue, IfOk, OnOk};
ghost use Rattle.amqp_value.specs.Lengths.{capped};
ghost use Rattle.amqp_method.specs.Arguments.{short_string};
ghost use Rattle.amqp_method.specs.HeaderParts.{earlier_view, later_view, middle_view, last_view};
ghost use Rattle.amqp_method.specs.HeaderView.{present, table_argument, properties_view, header_view};
ghost use Rattle.amqp_method.specs.Plain.{plain_header};
ghost use Rattle.amqp_method.specs.Properties.{header};

use crate::faults::OutOfMemory;
use crate::lengths::properties_length;
use amqp_value::{ShortStr, Table};

/// The properties of a content: those of the class basic, in the order of their flags.
#[derive(Debug, Default, Drop, PartialEq, Eq)]
pub struct Properties {
    pub content_type: Option<ShortStr>,
    pub content_encoding: Option<ShortStr>,
    pub headers: Option<Table>,
    pub delivery_mode: Option<u8>,
    pub priority: Option<u8>,
    pub correlation_id: Option<ShortStr>,
    pub reply_to: Option<ShortStr>,
    pub expiration: Option<ShortStr>,
    pub message_id: Option<ShortStr>,
    pub timestamp: Option<u64>,
    pub type_name: Option<ShortStr>,
    pub user_id: Option<ShortStr>,
    pub app_id: Option<ShortStr>,
    pub cluster_id: Option<ShortStr>,
}

/// A content header: the size of the body in octets, and the properties.
#[derive(Debug, Default, Drop, PartialEq, Eq)]
pub struct Header {
    pub body_size: u64,
    pub properties: Properties,
}

fn copy_text(text: &Option<ShortStr>) -> Result<Option<ShortStr>, OutOfMemory>
    ensures { IfOk result (λ copy. present short_string copy ≡ present short_string text.now) }
{
    match text {
        Some(text) => Ok(Some(text.copy()?)),
        None => Ok(None),
    }
}

fn copy_table(table: &Option<Table>) -> Result<Option<Table>, OutOfMemory>
    ensures { IfOk result (λ copy. present table_argument copy ≡ present table_argument table.now) }
{
    match table {
        Some(table) => Ok(Some(table.copy()?)),
        None => Ok(None),
    }
}

/// Most properties are not there, and to look is less than to write.
#[inline(always)]
fn clear_place<T: Drop>(place: &mut Option<T>)
    ensures { place.new ≡ None }
{
    if place.is_some() {
        *place = None;
    }
}

impl Header {
    /// How many octets [`write_header`](crate::write_header) writes of the header. `u64::MAX` stands for every number
    /// from there on, which no header in memory reaches.
    pub fn payload_length(&self) -> u64
        ensures { result ≡ capped (length (plain_header (header_view self.now))) }
    {
        self.properties.header_length()
    }

    /// The size of the body and the properties, out of the header.
    pub fn into_parts(self) -> (u64, Properties)
        ensures { header (result.0) (properties_view result.1) ≡ header_view self }
    {
        (self.body_size, self.properties)
    }
}

impl Properties {
    /// Whether there are none.
    #[inline(always)]
    pub fn is_empty(&self) -> bool
        ensures { IsTrue result ↔ (properties_view self.now ≡ replicate 14 None) }
    {
        self.earlier_are_none() && self.later_are_none()
    }

    #[inline(always)]
    fn earlier_are_none(&self) -> bool
        ensures { IsTrue result ↔ (earlier_view self.now ≡ replicate 5 None) }
    {
        self.content_type.is_none()
            && self.content_encoding.is_none()
            && self.headers.is_none()
            && self.delivery_mode.is_none()
            && self.priority.is_none()
    }

    #[inline(always)]
    fn later_are_none(&self) -> bool
        ensures { IsTrue result ↔ (later_view self.now ≡ replicate 9 None) }
    {
        self.middle_are_none() && self.last_are_none()
    }

    #[inline(always)]
    fn middle_are_none(&self) -> bool
        ensures { IsTrue result ↔ (middle_view self.now ≡ replicate 5 None) }
    {
        self.correlation_id.is_none()
            && self.reply_to.is_none()
            && self.expiration.is_none()
            && self.message_id.is_none()
            && self.timestamp.is_none()
    }

    #[inline(always)]
    fn last_are_none(&self) -> bool
        ensures { IsTrue result ↔ (last_view self.now ≡ replicate 4 None) }
    {
        self.type_name.is_none()
            && self.user_id.is_none()
            && self.app_id.is_none()
            && self.cluster_id.is_none()
    }

    /// Takes each away.
    #[inline(always)]
    pub fn clear(&mut self)
        ensures { properties_view self.new ≡ replicate 14 None }
    {
        clear_place(&mut self.content_type);
        clear_place(&mut self.content_encoding);
        clear_place(&mut self.headers);
        clear_place(&mut self.correlation_id);
        clear_place(&mut self.reply_to);
        clear_place(&mut self.expiration);
        clear_place(&mut self.message_id);
        clear_place(&mut self.type_name);
        clear_place(&mut self.user_id);
        clear_place(&mut self.app_id);
        clear_place(&mut self.cluster_id);
        self.delivery_mode = None;
        self.priority = None;
        self.timestamp = None;
    }

    /// Drops each for itself, where it is used, so that those that are known not to be there are not even looked at.
    #[inline(always)]
    pub(crate) fn drop_parts(self) {
        let Properties {
            content_type: _,
            content_encoding: _,
            headers: _,
            delivery_mode: _,
            priority: _,
            correlation_id: _,
            reply_to: _,
            expiration: _,
            message_id: _,
            timestamp: _,
            type_name: _,
            user_id: _,
            app_id: _,
            cluster_id: _,
        } = self;
    }

    /// How many octets a header with these properties is written in: the same for every size of a body. `u64::MAX`
    /// stands for every number from there on, which no properties in memory reach.
    pub fn header_length(&self) -> u64
        ensures { (body_size : ℕ) → result ≡ capped (length
            (plain_header (header body_size (properties_view self.now)))) }
    {
        14_u64.saturating_add(properties_length(self))
    }

    /// Equal properties.
    pub fn copy(&self) -> Result<Properties, OutOfMemory>
        ensures { IfOk result (λ p. properties_view p ≡ properties_view self.now) }
    {
        let mut copy = Properties::default();
        match self.copy_to(&mut copy) {
            Ok(()) => Ok(copy),
            Err(OutOfMemory) => {
                drop(copy);
                Err(OutOfMemory)
            }
        }
    }

    /// Makes other properties equal to these.
    fn copy_to(&self, copy: &mut Properties) -> Result<(), OutOfMemory>
        ensures { OnOk result (properties_view copy.new ≡ properties_view self.now) }
    {
        copy.content_type = copy_text(&self.content_type)?;
        copy.content_encoding = copy_text(&self.content_encoding)?;
        copy.headers = copy_table(&self.headers)?;
        copy.delivery_mode = self.delivery_mode;
        copy.priority = self.priority;
        copy.correlation_id = copy_text(&self.correlation_id)?;
        copy.reply_to = copy_text(&self.reply_to)?;
        copy.expiration = copy_text(&self.expiration)?;
        copy.message_id = copy_text(&self.message_id)?;
        copy.timestamp = self.timestamp;
        copy.type_name = copy_text(&self.type_name)?;
        copy.user_id = copy_text(&self.user_id)?;
        copy.app_id = copy_text(&self.app_id)?;
        copy.cluster_id = copy_text(&self.cluster_id)?;
        Ok(())
    }
}
