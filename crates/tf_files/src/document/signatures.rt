ghost use Rattle.std.specs.Prelude.{◌≡◌, Ok, IfOk, IfErr, [], codes};
ghost use Rattle.tf_files.specs.document.Reading.{RefusesWith, optional as optional_there, names_form as names_spelled, binds_form as binds_spelled};
ghost use Rattle.tf_files.specs.document.Places.{place_of};
ghost use Rattle.tf_files.specs.document.Tasks.{signature_form as signature_spelled, rebind_form as rebind_spelled, provides_form as provides_spelled};
ghost use Rattle.tf_flow.specs.declared.atoms.Provides.TheVariants as provided;
ghost use Rattle.toml.specs.View.{view, table_view};

use crate::document::arguments::arguments;
use crate::document::faults::FileFault;
use crate::document::fields::{Field, optional};
use crate::document::paths::Path;
use crate::document::rebinds::rebind_form;
use crate::document::values::{binds_form, each_name, named, names_form};
use std::alloc::Global;
use tf_flow::{Arg, ArgList, Bind, Binds, Provides};
use tf_values::{Name, Names};
use toml::{Table, Value};

/// What a task and a retry controller have alike: arguments, symbols with constant values, and the
/// symbols that the result gives.
#[derive(Drop)]
pub struct Signature {
    pub args: ArgList,
    pub inject: Binds,
    pub provides: Provides,
}

/// The signature that the table under the path spells, or the first reason why it spells none.
pub fn signature_form(alloc: Global, path: &Path, table: &Table) -> Result<Signature, FileFault>
    ensures ok { IfOk result (λ signature. signature_spelled path.now (table_view table.now) ≡ Ok signature) }
    ensures refused { IfErr result (RefusesWith (signature_spelled path.now (table_view table.now))) }
{
    let required = requires_at(alloc, path, table)?;
    let rebound = rebind_at(alloc, path, table)?;
    let inject = inject_at(alloc, path, table)?;
    let provides = provides_at(alloc, path, table)?;
    let args = arguments(alloc, &required, &rebound, &inject)?;
    Ok(Signature {
        args: ArgList::make(args),
        inject: Binds::make(inject),
        provides,
    })
}

fn requires_at(alloc: Global, path: &Path, table: &Table) -> Result<Vec<Name>, FileFault>
    ensures ok { IfOk result (λ names. optional_there path.now (codes "requires")
        (table_view table.now) [] names_spelled ≡ Ok names.items) }
    ensures refused { IfErr result (RefusesWith (optional_there path.now (codes "requires")
        (table_view table.now) [] names_spelled)) }
{
    match optional(path, "requires", table) {
        Some(field) => names_form(alloc, &field),
        None => Ok(Vec::new(alloc)),
    }
}

fn rebind_at(alloc: Global, path: &Path, table: &Table) -> Result<Vec<Arg>, FileFault>
    ensures ok { IfOk result (λ args. optional_there path.now (codes "rebind")
        (table_view table.now) [] rebind_spelled ≡ Ok args.items) }
    ensures refused { IfErr result (RefusesWith (optional_there path.now (codes "rebind")
        (table_view table.now) [] rebind_spelled)) }
{
    match optional(path, "rebind", table) {
        Some(field) => rebind_form(alloc, &field),
        None => Ok(Vec::new(alloc)),
    }
}

fn inject_at(alloc: Global, path: &Path, table: &Table) -> Result<Vec<Bind>, FileFault>
    ensures ok { IfOk result (λ binds. optional_there path.now (codes "inject")
        (table_view table.now) [] binds_spelled ≡ Ok binds.items) }
    ensures refused { IfErr result (RefusesWith (optional_there path.now (codes "inject")
        (table_view table.now) [] binds_spelled)) }
{
    match optional(path, "inject", table) {
        Some(field) => binds_form(alloc, &field),
        None => Ok(Vec::new(alloc)),
    }
}

fn provides_at(alloc: Global, path: &Path, table: &Table) -> Result<Provides, FileFault>
    ensures ok { IfOk result (λ provides. optional_there path.now (codes "provides")
        (table_view table.now) provided.Nothing provides_spelled ≡ Ok provides) }
    ensures refused { IfErr result (RefusesWith (optional_there path.now (codes "provides")
        (table_view table.now) provided.Nothing provides_spelled)) }
{
    match optional(path, "provides", table) {
        Some(field) => provides_form(alloc, &field),
        None => Ok(Provides::Nothing),
    }
}

/// What an atom provides: `WrongKind` where the value is neither a string nor an array, `BadName`
/// where a string is no name.
fn provides_form(alloc: Global, field: &Field<'_>) -> Result<Provides, FileFault>
    ensures ok { IfOk result (λ provides. provides_spelled (place_of field.now) (view field.now.value.now)
        ≡ Ok provides) }
    ensures refused { IfErr result (RefusesWith (provides_spelled (place_of field.now) (view field.now.value.now))) }
{
    match field.value {
        Value::String(string) => {
            let name = named(alloc, field, string.as_str())?;
            Ok(Provides::Whole(name))
        }
        Value::Array(items) => {
            let names = each_name(alloc, field, items)?;
            Ok(Provides::Parts(Names::make(names)))
        }
        _ => Err(FileFault::WrongKind(field.path(alloc)?)),
    }
}
