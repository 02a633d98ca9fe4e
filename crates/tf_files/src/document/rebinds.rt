ghost use Rattle.std.specs.Prelude.{◌≡◌, Ok, IfOk, IfErr};
ghost use Rattle.tf_files.specs.document.Reading.{RefusesWith};
ghost use Rattle.tf_files.specs.document.Places.{place_of};
ghost use Rattle.tf_files.specs.document.Tasks.{rebind_form as rebind_spelled, rebounds_of as rebounds_spelled, rebound_form as rebound_spelled};
ghost use Rattle.toml.specs.View.{view, table_view};

use crate::document::faults::FileFault;
use crate::document::fields::{Field, Step};
use crate::document::values::{key_form, name_below};
use std::alloc::Global;
use tf_flow::Arg;
use toml::{Table, Value};

/// A table of names with the symbols that they are bound to, in byte order: `BadName` for a key or a
/// string that is no name.
pub fn rebind_form(alloc: Global, field: &Field<'_>) -> Result<Vec<Arg>, FileFault>
    ensures ok { IfOk result (λ args. rebind_spelled (place_of field.now) (view field.now.value.now) ≡ Ok args.items) }
    ensures refused { IfErr result (RefusesWith (rebind_spelled (place_of field.now) (view field.now.value.now))) }
{
    let table = field.table(alloc)?;
    rebounds_of(alloc, field, table)
}

/// The names of a table, with their symbols.
fn rebounds_of(alloc: Global, field: &Field<'_>, table: &Table) -> Result<Vec<Arg>, FileFault>
    ensures ok { IfOk result (λ args. rebounds_spelled (place_of field.now) (table_view table.now) ≡ Ok args.items) }
    ensures refused { IfErr result (RefusesWith (rebounds_spelled (place_of field.now) (table_view table.now))) }
{
    let mut args = Vec::with_capacity(alloc, table.len())?;
    for (key, value) in table {
        args.push(rebound_form(alloc, field, key.as_str(), value)?)?;
    }
    Ok(args)
}

/// A name of a table, with its symbol.
fn rebound_form(
    alloc: Global,
    field: &Field<'_>,
    key: &str,
    value: &Value,
) -> Result<Arg, FileFault>
    ensures ok { IfOk result (λ arg. rebound_spelled (place_of field.now) key.now (view value.now) ≡ Ok arg) }
    ensures refused { IfErr result (RefusesWith (rebound_spelled (place_of field.now) key.now (view value.now))) }
{
    let name = key_form(alloc, field, key)?;
    let symbol = name_below(alloc, field, Step::Key(name.bytes()), value)?;
    Ok(Arg { name, symbol })
}
