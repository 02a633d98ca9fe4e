ghost use Rattle.std.specs.Prelude.{◌≡◌, codes, Ok, IfOk, IfErr};
ghost use Rattle.tf_flow.specs.Outline.{decision_of};
ghost use Rattle.tf_flow.specs.declared.deciders.Depth.TheVariants as depths;
ghost use Rattle.tf_files.specs.FlowFile.{depth_named as depth_of, depth_form as depth_spelled, decider_form as decider_spelled, decider_of as decider_there};
ghost use Rattle.tf_files.specs.document.Reading.{RefusesWith, optional as optional_there};
ghost use Rattle.tf_files.specs.document.Places.{place_of};
ghost use Rattle.toml.specs.View.{view, table_view};

use crate::document::conditions::test_form;
use crate::document::faults::FileFault;
use crate::document::fields::{Field, optional};
use crate::document::paths::Path;
use std::alloc::Global;
use tf_flow::{Decider, Depth};
use toml::Table;

/// The decider of the link's table under the path; none where the key `decider` isn't there.
pub fn decider_of(alloc: Global, path: &Path, table: &Table) -> Result<Option<Decider>, FileFault>
    ensures ok { IfOk result (λ decider. decider_there path.now (table_view table.now) ≡ Ok (decision_of decider)) }
    ensures refused { IfErr result (RefusesWith (decider_there path.now (table_view table.now))) }
{
    match optional(path, "decider", table) {
        Some(field) => decider_form(alloc, path, table, &field),
        None => Ok(None),
    }
}

/// The decider with this test in the link's table under the path.
fn decider_form(
    alloc: Global,
    path: &Path,
    table: &Table,
    field: &Field<'_>,
) -> Result<Option<Decider>, FileFault>
    ensures ok { IfOk result (λ decider. decider_spelled path.now (table_view table.now) (place_of field.now)
        (view field.now.value.now) ≡ Ok (decision_of decider)) }
    ensures refused { IfErr result (RefusesWith (decider_spelled path.now (table_view table.now) (place_of field.now)
        (view field.now.value.now))) }
{
    let test = test_form(alloc, field)?;
    let depth = depth_at(alloc, path, table)?;
    Ok(Some(Decider { test, depth }))
}

fn depth_at(alloc: Global, path: &Path, table: &Table) -> Result<Depth, FileFault>
    ensures ok { IfOk result (λ depth. optional_there path.now (codes "depth")
        (table_view table.now) depths.All depth_spelled ≡ Ok depth) }
    ensures refused { IfErr result (RefusesWith (optional_there path.now (codes "depth")
        (table_view table.now) depths.All depth_spelled)) }
{
    match optional(path, "depth", table) {
        Some(field) => depth_form(alloc, &field),
        None => Ok(Depth::All),
    }
}

/// A depth: `WrongKind` where the value is no string, `BadChoice` where it is no depth.
fn depth_form(alloc: Global, field: &Field<'_>) -> Result<Depth, FileFault>
    ensures ok { IfOk result (λ depth. depth_spelled (place_of field.now) (view field.now.value.now) ≡ Ok depth) }
    ensures refused { IfErr result (RefusesWith (depth_spelled (place_of field.now) (view field.now.value.now))) }
{
    let word = field.word(alloc)?;
    depth_named(alloc, field, word)
}

fn depth_named(alloc: Global, field: &Field<'_>, word: &str) -> Result<Depth, FileFault>
    ensures ok { IfOk result (λ depth. depth_of (place_of field.now) word.now ≡ Ok depth) }
    ensures refused { IfErr result (RefusesWith (depth_of (place_of field.now) word.now)) }
{
    match word {
        "ALL" => Ok(Depth::All),
        "FLOW" => Ok(Depth::Flow),
        "NEIGHBORS" => Ok(Depth::Neighbors),
        "ATOM" => Ok(Depth::Atom),
        _ => Err(FileFault::BadChoice(field.path(alloc)?)),
    }
}
