//! Laws of the grammar, each the contract of a function that does nothing.

ghost use Rattle.amqp_value.specs.Laws.{OneTable, OneValue};

/// No octets encode two values, and no encoding of a value begins another one.
pub fn one_value()
    ensures { OneValue }
{}

/// No octets encode two tables, and no encoding of a table begins another one.
pub fn one_table()
    ensures { OneTable }
{}
