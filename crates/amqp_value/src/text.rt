//! Values and tables as text of their own.

ghost use Rattle.std.specs.Prelude.{◌≡◌, IfOk};
ghost use Rattle.std.specs.String.{string_bytes};
ghost use Rattle.amqp_value.specs.Tables.{table_view};
ghost use Rattle.amqp_value.specs.Text.{value_text, text_of_table};
ghost use Rattle.amqp_value.specs.View.{view};

use crate::fault::OutOfMemory;
use crate::tables::Table;
use crate::values::Value;
use std::alloc::Global;

/// A value: its tag, a colon and what it holds; an array in brackets, a table inside in braces.
pub fn text_of(alloc: Global, value: &Value) -> Result<String, OutOfMemory>
    ensures { IfOk result (λ text. string_bytes text ≡ value_text (view value.now)) }
{
    Ok(format!(in alloc; "{value}")?)
}

/// A table: pairs of a quoted name, `=` and a value, parted by commas, in braces. The text takes its
/// memory where the table does.
pub fn table_text(table: &Table) -> Result<String, OutOfMemory>
    ensures { IfOk result (λ text. string_bytes text ≡ text_of_table (table_view table.now)) }
{
    Ok(format!(in table.allocator(); "{table}")?)
}
