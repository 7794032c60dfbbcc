//! A lent content header, built with memory of its own: of octets that were checked, so that it fails for memory alone.
ghost use Rattle.std.specs.Prelude.{◌≡◌, ◌≤◌, ◌<◌, length, drop, replicate, IfOk, OnOk, None, Some};
ghost use Rattle.amqp_value.specs.Lent.{table_ref_view};
ghost use Rattle.amqp_method.specs.Arguments.{octet, long_long, short_string, table as table_of};
ghost use Rattle.amqp_method.specs.HeaderChecking.{kind_at};
ghost use Rattle.amqp_method.specs.HeaderParts.{earlier_view, later_view};
ghost use Rattle.amqp_method.specs.HeaderRefs.{PropertiesLeft, ReadsProperty};
ghost use Rattle.amqp_method.specs.HeaderRefView.{lent_header};
ghost use Rattle.amqp_method.specs.HeaderView.{present, table_argument, properties_view, header_view};
ghost use Rattle.amqp_method.specs.declared.fields.FieldKind.TheVariants as kinds;

use crate::arg_ref::read_table;
use crate::faults::OutOfMemory;
use crate::field_octets::{read_long_long, read_octet, read_short_octets};
use crate::header_checker::LATER_FLAGS;
use crate::header_ref::HeaderRef;
use crate::headers::{Header, Properties};
use crate::own::own_short_string;
use crate::properties::property_at;
use amqp_value::{ShortStr, Table, TableRef};
use std::alloc::Global;
use std::mem::{forget, replace};

/// A short string of these octets, in a place where none is. It stands apart, since most properties are not there.
#[inline(never)]
fn put_text(alloc: Global, text: &[u8], property: &mut Option<ShortStr>) -> Result<(), OutOfMemory>
    requires { length text.now ≤ 255 }
    ensures { OnOk result (present short_string property.new ≡ Some (short_string text.now)) }
{
    let text = own_short_string(alloc, text)?;
    forget(replace(property, Some(text)));
    Ok(())
}

/// A table, in a place where none is. It is built there.
fn put_table(
    alloc: Global,
    table: TableRef<'_>,
    property: &mut Option<Table>,
) -> Result<(), OutOfMemory>
    ensures { OnOk result (present table_argument property.new ≡ Some (table_of (table_ref_view table.entry))) }
{
    forget(replace(property, Some(Table::new(alloc))));
    let Some(place) = property else {
        unreachable!()
    };
    table.read_into(alloc, place)?;
    Ok(())
}

/// Each builds the property at a place, whose octets are the first, where it is kept, if its flag is set. None was
/// there before. The answer is the octets after it.
impl<'a> HeaderRef<'a> {
    #[inline(always)]
    fn text(
        self,
        alloc: Global,
        place: usize,
        octets: &'a [u8],
        property: &mut Option<ShortStr>,
    ) -> Result<&'a [u8], OutOfMemory>
        requires place { place < 14 }
        requires kind { kind_at place ≡ kinds.ShortStr }
        requires left { PropertiesLeft self place octets.now }
        requires blank { present short_string property.old ≡ None }
        ensures { IfOk result (λ after. ReadsProperty self.entry place (present short_string property.new) after.now) }
    {
        if !property_at(place).is_flagged(self.flags) {
            return Ok(octets);
        }
        let Ok((text, after)) = read_short_octets(octets, self.payload.len()) else {
            unreachable!()
        };
        put_text(alloc, text, property)?;
        Ok(after)
    }

    #[inline(always)]
    fn table(
        self,
        alloc: Global,
        place: usize,
        octets: &'a [u8],
        property: &mut Option<Table>,
    ) -> Result<&'a [u8], OutOfMemory>
        requires place { place < 14 }
        requires kind { kind_at place ≡ kinds.Table }
        requires left { PropertiesLeft self place octets.now }
        requires blank { present table_argument property.old ≡ None }
        ensures { IfOk result (λ after.
            ReadsProperty self.entry place (present table_argument property.new) after.now) }
    {
        if !property_at(place).is_flagged(self.flags) {
            return Ok(octets);
        }
        let (table, after) = read_table(octets);
        put_table(alloc, table, property)?;
        Ok(after)
    }

    #[inline(always)]
    fn octet(self, place: usize, octets: &'a [u8], property: &mut Option<u8>) -> &'a [u8]
        requires place { place < 14 }
        requires kind { kind_at place ≡ kinds.Octet }
        requires left { PropertiesLeft self place octets.now }
        requires blank { present octet property.old ≡ None }
        ensures { ReadsProperty self.entry place (present octet property.new) result.now }
    {
        if !property_at(place).is_flagged(self.flags) {
            return octets;
        }
        let Ok((number, after)) = read_octet(octets, self.payload.len()) else {
            unreachable!()
        };
        *property = Some(number);
        after
    }

    #[inline(always)]
    fn long_long(self, place: usize, octets: &'a [u8], property: &mut Option<u64>) -> &'a [u8]
        requires place { place < 14 }
        requires kind { kind_at place ≡ kinds.LongLong }
        requires left { PropertiesLeft self place octets.now }
        requires blank { present long_long property.old ≡ None }
        ensures { ReadsProperty self.entry place (present long_long property.new) result.now }
    {
        if !property_at(place).is_flagged(self.flags) {
            return octets;
        }
        let Ok((number, after)) = read_long_long(octets, self.payload.len()) else {
            unreachable!()
        };
        *property = Some(number);
        after
    }
}

impl<'a> HeaderRef<'a> {
    /// All properties, where there were none before. Many headers have none.
    pub(crate) fn own_properties(
        self,
        alloc: Global,
        properties: &mut Properties,
    ) -> Result<(), OutOfMemory>
        requires { properties_view properties.old ≡ replicate 14 None }
        ensures { OnOk result (properties_view properties.new ≡ (lent_header self.entry).properties) }
    {
        if self.flags == 0 {
            return Ok(());
        }
        let octets = self.properties();
        let octets = self.text(alloc, 0, octets, &mut properties.content_type)?;
        let octets = self.text(alloc, 1, octets, &mut properties.content_encoding)?;
        let octets = self.table(alloc, 2, octets, &mut properties.headers)?;
        let octets = self.octet(3, octets, &mut properties.delivery_mode);
        let octets = self.octet(4, octets, &mut properties.priority);
        self.own_later(alloc, octets, properties)
    }

    /// Those from the sixth on. Few headers have any of them.
    fn own_later(
        self,
        alloc: Global,
        octets: &'a [u8],
        properties: &mut Properties,
    ) -> Result<(), OutOfMemory>
        requires left { PropertiesLeft self 5 octets.now }
        requires blank { later_view properties.old ≡ replicate 9 None }
        ensures later { OnOk result (drop 5 (lent_header self.entry).properties ≡ later_view properties.new) }
        ensures kept { earlier_view properties.new ≡ earlier_view properties.old }
    {
        if self.flags % LATER_FLAGS == 0 {
            return Ok(());
        }
        let octets = self.text(alloc, 5, octets, &mut properties.correlation_id)?;
        let octets = self.text(alloc, 6, octets, &mut properties.reply_to)?;
        let octets = self.text(alloc, 7, octets, &mut properties.expiration)?;
        let octets = self.text(alloc, 8, octets, &mut properties.message_id)?;
        let octets = self.long_long(9, octets, &mut properties.timestamp);
        let octets = self.text(alloc, 10, octets, &mut properties.type_name)?;
        let octets = self.text(alloc, 11, octets, &mut properties.user_id)?;
        let octets = self.text(alloc, 12, octets, &mut properties.app_id)?;
        self.text(alloc, 13, octets, &mut properties.cluster_id)?;
        Ok(())
    }

    /// Makes another header the same as this one, with memory of its own: what it was before is gone. Nothing is
    /// checked again, so it fails for memory alone, after which the header has some of the properties.
    ///
    /// A header is large, so who keeps it in a box builds it there.
    pub fn read_into(self, alloc: Global, header: &mut Header) -> Result<(), OutOfMemory>
        ensures { OnOk result (header_view header.new ≡ lent_header self.entry) }
    {
        header.body_size = self.body_size();
        if !header.properties.is_empty() {
            header.properties.clear();
        }
        self.own_properties(alloc, &mut header.properties)
    }

    /// The same header with properties of its own. Nothing is checked again, so it fails for memory alone.
    pub fn to_owned(self, alloc: Global) -> Result<Header, OutOfMemory>
        ensures { IfOk result (λ h. header_view h ≡ lent_header self.entry) }
    {
        let mut header = Header::default();
        self.read_into(alloc, &mut header)?;
        Ok(header)
    }
}
