//! The properties of a content header, in order: their names, and writing them to octets.
ghost use Rattle.std.specs.Prelude.{◌≡◌, ◌+◌, ◌<◌, ◌≤◌, ◌⊎◌, ◌++◌, ℕ, List, length, map, take, get_or, OnOk, OnErr, IfErr, Err};
ghost use Rattle.amqp_method.specs.Arguments.{octet as octet_argument, long_long as long_long_argument, short_string};
ghost use Rattle.amqp_method.specs.Faults.{out_of_memory, too_long};
ghost use Rattle.amqp_method.specs.HeaderChecking.{kind_at};
ghost use Rattle.amqp_method.specs.HeaderReading.{has_flag};
ghost use Rattle.amqp_method.specs.HeaderView.{present, table_argument, properties_view};
ghost use Rattle.amqp_method.specs.Lent.{value_view, lent_view, lent_views};
ghost use Rattle.amqp_method.specs.Plain.{plain_argument, plain_property, plain_present, CountFits, CountOfPropertyFits, CountsPresentFit};
ghost use Rattle.amqp_method.specs.Properties.{flags_of};
ghost use Rattle.amqp_method.specs.Texts.{property_names};
ghost use Rattle.amqp_method.specs.Writing.{Fitting, PropertyFitting, PresentFitting};

use crate::faults::MethodFault;
use crate::fields::FieldKind;
use crate::headers::Properties;
use crate::writing::{append_long_long, append_octet, append_short_string, append_table};
use amqp_value::{ShortStr, Table};

/// How many properties there are.
pub(crate) const PROPERTIES: usize = 14;

/// A property: its name in `amqp0-9-1.xml`, the bit of the flags that says whether it is there, and its kind.
#[derive(Clone, Copy)]
pub(crate) struct Property {
    pub(crate) name: &'static str,
    pub(crate) flag: u32,
    pub(crate) kind: FieldKind,
}

impl Property {
    /// Whether its flag is set.
    #[inline(always)]
    pub(crate) fn is_flagged(&self, flags: u16) -> bool
        requires { self.now.flag < 16 }
        ensures { result ≡ has_flag self.now.flag flags }
    {
        (flags >> self.flag) % 2 == 1
    }
}

/// The properties, in the order of their flags.
static PROPERTY_ROWS: [Property; PROPERTIES] = [
    Property {
        name: "content-type",
        flag: 15,
        kind: FieldKind::ShortStr,
    },
    Property {
        name: "content-encoding",
        flag: 14,
        kind: FieldKind::ShortStr,
    },
    Property {
        name: "headers",
        flag: 13,
        kind: FieldKind::Table,
    },
    Property {
        name: "delivery-mode",
        flag: 12,
        kind: FieldKind::Octet,
    },
    Property {
        name: "priority",
        flag: 11,
        kind: FieldKind::Octet,
    },
    Property {
        name: "correlation-id",
        flag: 10,
        kind: FieldKind::ShortStr,
    },
    Property {
        name: "reply-to",
        flag: 9,
        kind: FieldKind::ShortStr,
    },
    Property {
        name: "expiration",
        flag: 8,
        kind: FieldKind::ShortStr,
    },
    Property {
        name: "message-id",
        flag: 7,
        kind: FieldKind::ShortStr,
    },
    Property {
        name: "timestamp",
        flag: 6,
        kind: FieldKind::LongLong,
    },
    Property {
        name: "type",
        flag: 5,
        kind: FieldKind::ShortStr,
    },
    Property {
        name: "user-id",
        flag: 4,
        kind: FieldKind::ShortStr,
    },
    Property {
        name: "app-id",
        flag: 3,
        kind: FieldKind::ShortStr,
    },
    Property {
        name: "cluster-id",
        flag: 2,
        kind: FieldKind::ShortStr,
    },
];

/// The property at a place, in the order of the flags.
#[inline(always)]
pub(crate) fn property_at(place: usize) -> &'static Property
    requires { place < 14 }
    ensures name { (default : List ℕ) → result.now.name.now ≡ get_or property_names place default }
    ensures flag { result.now.flag + place ≡ 15 }
    ensures kind { result.now.kind ≡ kind_at place }
{
    &PROPERTY_ROWS[place]
}

/// The name of the property at a place.
pub(crate) fn property_name(place: usize) -> &'static str
    requires { place < 14 }
    ensures { (default : List ℕ) → result.now ≡ get_or property_names place default }
{
    property_at(place).name
}

/// The value of a property, lent.
#[derive(Clone, Copy)]
pub(crate) enum Lent<'a> {
    Octet(u8),
    LongLong(u64),
    ShortStr(&'a ShortStr),
    Table(&'a Table),
}

fn text(property: &Option<ShortStr>) -> Option<Lent<'_>>
    ensures { lent_view result ≡ present short_string property.now }
{
    match property {
        Some(text) => Some(Lent::ShortStr(text)),
        None => None,
    }
}

fn table(property: &Option<Table>) -> Option<Lent<'_>>
    ensures { lent_view result ≡ present table_argument property.now }
{
    match property {
        Some(table) => Some(Lent::Table(table)),
        None => None,
    }
}

fn octet<'a>(property: Option<u8>) -> Option<Lent<'a>>
    ensures { lent_view result ≡ present octet_argument property }
{
    match property {
        Some(number) => Some(Lent::Octet(number)),
        None => None,
    }
}

fn long_long<'a>(property: Option<u64>) -> Option<Lent<'a>>
    ensures { lent_view result ≡ present long_long_argument property }
{
    match property {
        Some(number) => Some(Lent::LongLong(number)),
        None => None,
    }
}

/// The properties in order, lent.
pub(crate) fn lent_properties(properties: &Properties) -> [Option<Lent<'_>>; PROPERTIES]
    ensures { lent_views result ≡ properties_view properties.now }
{
    [
        text(&properties.content_type),
        text(&properties.content_encoding),
        table(&properties.headers),
        octet(properties.delivery_mode),
        octet(properties.priority),
        text(&properties.correlation_id),
        text(&properties.reply_to),
        text(&properties.expiration),
        text(&properties.message_id),
        long_long(properties.timestamp),
        text(&properties.type_name),
        text(&properties.user_id),
        text(&properties.app_id),
        text(&properties.cluster_id),
    ]
}

fn append_lent(value: Lent, out: &mut Vec<u8>) -> Result<(), MethodFault>
    ensures ok { OnOk result (out.new.items ≡ out.old.items ++ plain_argument (value_view value.entry)) }
    ensures fits { OnOk result (Fitting (value_view value.entry)) }
    ensures too_long { result ≡ Err too_long → CountFits (value_view value.entry) → ⊥ }
    ensures err { IfErr result (λ e. (e ≡ too_long) ⊎ (e ≡ out_of_memory)) }
    ensures kept { OnErr result (take (length out.old.items) out.new.items ≡ out.old.items) }
{
    match value {
        Lent::Octet(number) => append_octet(number, out),
        Lent::LongLong(number) => append_long_long(number, out),
        Lent::ShortStr(text) => append_short_string(text, out),
        Lent::Table(table) => append_table(table, out),
    }
}

/// A property, if it is there.
fn append_property(property: Option<Lent>, out: &mut Vec<u8>) -> Result<(), MethodFault>
    ensures ok { OnOk result (out.new.items ≡ out.old.items ++ plain_property (lent_view property.entry)) }
    ensures fits { OnOk result (PropertyFitting (lent_view property.entry)) }
    ensures too_long { result ≡ Err too_long → CountOfPropertyFits (lent_view property.entry) → ⊥ }
    ensures err { IfErr result (λ e. (e ≡ too_long) ⊎ (e ≡ out_of_memory)) }
    ensures kept { OnErr result (take (length out.old.items) out.new.items ≡ out.old.items) }
{
    let Some(value) = property else {
        return Ok(());
    };
    append_lent(value, out)
}

/// The properties that are there, in order.
pub(crate) fn append_present(
    properties: &[Option<Lent>],
    out: &mut Vec<u8>,
) -> Result<(), MethodFault>
    ensures ok { OnOk result (out.new.items ≡ out.old.items ++ plain_present (lent_views properties.now)) }
    ensures fits { OnOk result (PresentFitting (lent_views properties.now)) }
    ensures too_long { result ≡ Err too_long → CountsPresentFit (lent_views properties.now) → ⊥ }
    ensures err { IfErr result (λ e. (e ≡ too_long) ⊎ (e ≡ out_of_memory)) }
    ensures kept { OnErr result (take (length out.old.items) out.new.items ≡ out.old.items) }
{
    for property in properties {
        append_property(*property, out)?;
    }
    Ok(())
}

/// The flags: a bit for each property, set where it is there, and two clear bits.
pub(crate) fn flags_word(properties: &[Option<Lent>]) -> u16
    requires { length properties.now ≤ 14 }
    ensures { result ≡ flags_of (lent_views properties.now) }
{
    let mut flags = 0;
    for property in properties {
        flags = 2 * flags + u16::from(property.is_some());
    }
    4 * flags
}
