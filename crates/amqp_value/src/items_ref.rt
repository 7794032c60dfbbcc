//! The values of an array that is lent, one after the other.

ghost use Rattle.amqp_value.specs.Whole.{AreItems};

use crate::split::split_value;
use crate::value_ref::ValueRef;

/// Values, in the order in which they lie in the octets of an array.
#[derive(Clone, Copy)]
pub struct ItemsRef<'a> {
    rest: &'a [u8],
    pub ghost are_items: { AreItems rest.now },
}

impl<'a> ItemsRef<'a> {
    ghost use Rattle.std.specs.Prelude.{◌≡◌};
    ghost use Rattle.amqp_value.specs.Lent.{items_left};
    ghost use Rattle.amqp_value.specs.Whole.{items_encoded};

    /// The values that these octets are.
    pub(crate) fn of_checked(octets: &'a [u8]) -> ItemsRef<'a>
        requires { AreItems octets.now }
        ensures { items_left result ≡ items_encoded octets.now }
    {
        ItemsRef { rest: octets }
    }
}

impl<'a> Iterator for ItemsRef<'a> {
    ghost use Rattle.std.specs.Iterator.{YieldsFirstBy, item_count};
    ghost use Rattle.amqp_value.specs.Lent.{items_left, value_ref_view};

    type Item = ValueRef<'a>;

    ghost next_gives = { YieldsFirstBy value_ref_view items_left };

    ghost remaining = { item_count items_left };

    fn next(&mut self) -> Option<ValueRef<'a>> {
        if self.rest.is_empty() {
            return None;
        }
        let (value, rest) = split_value(self.rest);
        self.rest = rest;
        Some(value)
    }
}
