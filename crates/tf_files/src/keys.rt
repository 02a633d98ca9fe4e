ghost use Rattle.std.specs.Prelude.{◌≡◌, Ok, IfOk, IfErr};
ghost use Rattle.tf_files.specs.document.Reading.{RefusesWith, required as spelled_at, name_form as name_spelled};
ghost use Rattle.toml.specs.View.{table_view};

use crate::document::{FileFault, Path, name_form, required};
use std::alloc::Global;
use tf_values::Name;
use toml::Table;

/// The name at a key that must be there.
#[tactic(auto, using(crate::proofs::ReadingLemmas::required_stops, crate::proofs::ReadingLemmas::required_goes))]
pub fn name_at(alloc: Global, path: &Path, key: &str, table: &Table) -> Result<Name, FileFault>
    ensures ok { IfOk result (λ name. spelled_at path.now key.now (table_view table.now) name_spelled ≡ Ok name) }
    ensures refused { IfErr result (RefusesWith (spelled_at path.now key.now (table_view table.now) name_spelled)) }
{
    let field = required(alloc, path, key, table)?;
    name_form(alloc, &field)
}
