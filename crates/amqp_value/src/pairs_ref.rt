//! The names with values of a table that is lent, one after the other.

ghost use Rattle.amqp_value.specs.Whole.{ArePairs};

use crate::split::{split_name, split_value};
use crate::value_ref::ValueRef;

/// Names with values, in the order in which they lie in the octets of a table.
#[derive(Clone, Copy)]
pub struct PairsRef<'a> {
    rest: &'a [u8],
    pub ghost are_pairs: { ArePairs rest.now },
}

impl<'a> PairsRef<'a> {
    ghost use Rattle.std.specs.Prelude.{◌≡◌};
    ghost use Rattle.amqp_value.specs.Lent.{pairs_left};
    ghost use Rattle.amqp_value.specs.Whole.{pairs_encoded};

    /// The pairs that these octets are.
    pub(crate) fn of_checked(octets: &'a [u8]) -> PairsRef<'a>
        requires { ArePairs octets.now }
        ensures { pairs_left result ≡ pairs_encoded octets.now }
    {
        PairsRef { rest: octets }
    }
}

impl<'a> Iterator for PairsRef<'a> {
    ghost use Rattle.std.specs.Iterator.{YieldsFirstBy, item_count};
    ghost use Rattle.amqp_value.specs.Lent.{pairs_left, named_ref_view};

    type Item = (&'a [u8], ValueRef<'a>);

    ghost next_gives = { YieldsFirstBy named_ref_view pairs_left };

    ghost remaining = { item_count pairs_left };

    fn next(&mut self) -> Option<(&'a [u8], ValueRef<'a>)> {
        if self.rest.is_empty() {
            return None;
        }
        let (name, field) = split_name(self.rest);
        let (value, rest) = split_value(field);
        self.rest = rest;
        Some((name, value))
    }
}
