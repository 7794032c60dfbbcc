//! An array of field values where it lies.

ghost use Rattle.amqp_value.specs.Whole.{AreItems};

use crate::check::check_items;
use crate::fault::ValueFault;
use crate::items_ref::ItemsRef;
use crate::tables::MAX_DEPTH;

/// An array that lies in octets which are lent: tags with values. It was checked, so reading it never fails.
#[derive(Clone, Copy)]
pub struct ArrayRef<'a> {
    body: &'a [u8],
    pub ghost are_items: { AreItems body.now },
}

impl<'a> ArrayRef<'a> {
    ghost use Rattle.std.specs.Prelude.{◌≡◌, length, IfOk};
    ghost use Rattle.amqp_value.specs.Checking.{Equals};
    ghost use Rattle.amqp_value.specs.Lent.{body_of, array_ref_view, items_left};
    ghost use Rattle.amqp_value.specs.Reading.{elements, value_at};
    ghost use Rattle.amqp_value.specs.Values.{items_of};
    ghost use Rattle.amqp_value.specs.Whole.{items_encoded};

    /// The array whose values all the octets are, without the count that stands before them in a table. Faults are
    /// those of [`check_table`](crate::check_table): what doesn't fit the octets passes the array's end.
    pub fn new(octets: &'a [u8]) -> Result<ArrayRef<'a>, ValueFault>
        ensures exact { Equals (λ a. items_encoded (body_of a)) result
            (elements (value_at 31) (length octets.now) octets.now) }
        ensures octets { IfOk result (λ a. body_of a ≡ octets.now) }
    {
        check_items(octets, octets.len(), MAX_DEPTH - 1)?;
        Ok(ArrayRef { body: octets })
    }

    /// The array whose values these octets are.
    pub(crate) fn of_checked(octets: &'a [u8]) -> ArrayRef<'a>
        requires { AreItems octets.now }
        ensures { body_of result ≡ octets.now }
    {
        ArrayRef { body: octets }
    }

    /// The octets of the values, without the count that stands before them.
    pub fn body(self) -> &'a [u8]
        ensures octets { result.now ≡ body_of self.entry }
        ensures whole { AreItems result.now }
    {
        self.body
    }

    /// The values, in order.
    pub fn iter(self) -> ItemsRef<'a>
        ensures { items_of (items_left result) ≡ array_ref_view self.entry }
    {
        ItemsRef::of_checked(self.body)
    }
}
