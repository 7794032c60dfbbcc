//! Properties with one more: `Properties::default().with_delivery_mode(2).with_priority(4)`.
ghost use Rattle.std.specs.Prelude.{◌≡◌};
ghost use Rattle.amqp_method.specs.Arguments.{octet, long_long, short_string};
ghost use Rattle.amqp_method.specs.HeaderView.{table_argument, properties_view, with_property};

use crate::headers::Properties;
use amqp_value::{ShortStr, Table};

/// Each sets one property, and leaves the others as they are.
impl Properties {
    /// With the type of the content, as `text/plain`.
    pub fn with_content_type(mut self, content_type: ShortStr) -> Properties
        ensures { properties_view result ≡ with_property 0 (short_string content_type) (properties_view self) }
    {
        self.content_type = Some(content_type);
        self
    }

    /// With the encoding of the content.
    pub fn with_content_encoding(mut self, content_encoding: ShortStr) -> Properties
        ensures { properties_view result ≡ with_property 1 (short_string content_encoding) (properties_view self) }
    {
        self.content_encoding = Some(content_encoding);
        self
    }

    /// With the application's headers.
    pub fn with_headers(mut self, headers: Table) -> Properties
        ensures { properties_view result ≡ with_property 2 (table_argument headers) (properties_view self) }
    {
        self.headers = Some(headers);
        self
    }

    /// With the delivery mode: 1 for not persistent, 2 for persistent.
    pub fn with_delivery_mode(mut self, delivery_mode: u8) -> Properties
        ensures { properties_view result ≡ with_property 3 (octet delivery_mode) (properties_view self) }
    {
        self.delivery_mode = Some(delivery_mode);
        self
    }

    /// With the priority, 0 to 9.
    pub fn with_priority(mut self, priority: u8) -> Properties
        ensures { properties_view result ≡ with_property 4 (octet priority) (properties_view self) }
    {
        self.priority = Some(priority);
        self
    }

    /// With the request that the message answers.
    pub fn with_correlation_id(mut self, correlation_id: ShortStr) -> Properties
        ensures { properties_view result ≡ with_property 5 (short_string correlation_id) (properties_view self) }
    {
        self.correlation_id = Some(correlation_id);
        self
    }

    /// With where replies are to go.
    pub fn with_reply_to(mut self, reply_to: ShortStr) -> Properties
        ensures { properties_view result ≡ with_property 6 (short_string reply_to) (properties_view self) }
    {
        self.reply_to = Some(reply_to);
        self
    }

    /// With when the message expires.
    pub fn with_expiration(mut self, expiration: ShortStr) -> Properties
        ensures { properties_view result ≡ with_property 7 (short_string expiration) (properties_view self) }
    {
        self.expiration = Some(expiration);
        self
    }

    /// With the message's identifier.
    pub fn with_message_id(mut self, message_id: ShortStr) -> Properties
        ensures { properties_view result ≡ with_property 8 (short_string message_id) (properties_view self) }
    {
        self.message_id = Some(message_id);
        self
    }

    /// With when the message was sent, in seconds of POSIX time.
    pub fn with_timestamp(mut self, timestamp: u64) -> Properties
        ensures { properties_view result ≡ with_property 9 (long_long timestamp) (properties_view self) }
    {
        self.timestamp = Some(timestamp);
        self
    }

    /// With the message's type.
    pub fn with_type(mut self, type_name: ShortStr) -> Properties
        ensures { properties_view result ≡ with_property 10 (short_string type_name) (properties_view self) }
    {
        self.type_name = Some(type_name);
        self
    }

    /// With the user who sent the message.
    pub fn with_user_id(mut self, user_id: ShortStr) -> Properties
        ensures { properties_view result ≡ with_property 11 (short_string user_id) (properties_view self) }
    {
        self.user_id = Some(user_id);
        self
    }

    /// With the application that sent the message.
    pub fn with_app_id(mut self, app_id: ShortStr) -> Properties
        ensures { properties_view result ≡ with_property 12 (short_string app_id) (properties_view self) }
    {
        self.app_id = Some(app_id);
        self
    }
}
