ghost use Rattle.std.specs.Prelude.{◌≡◌, IfOk, OnOk, map};
ghost use Rattle.indexmap.specs.IndexMap.{insert_all};
ghost use Rattle.tf_flow.specs.Tree.{same_name};
ghost use Rattle.tf_files.specs.FlowFile.{store_with as store_put_together};
ghost use Rattle.tf_files.specs.Pairs.{pair_of, bind_of};

use indexmap::IndexMap;
use std::alloc::Global;
use tf_flow::Bind;
use tf_values::{Memory, Name, Val};

/// The values of a file's store with those that are set: each of these takes the place of the value
/// that its symbol has, or comes after all others.
#[tactic(auto, using(crate::proofs::StoreLemmas::put_together))]
pub fn store_with(alloc: Global, store: &[Bind], sets: &[Bind]) -> Result<Vec<Bind>, Memory>
    ensures { IfOk result (λ binds. binds.items ≡ store_put_together store.now sets.now) }
{
    let mut values = IndexMap::new(alloc);
    put_all(alloc, &mut values, store)?;
    put_all(alloc, &mut values, sets)?;
    binds_of(alloc, values)
}

/// Puts each value under its symbol.
fn put_all(alloc: Global, values: &mut IndexMap<Name, Val>, binds: &[Bind]) -> Result<(), Memory>
    ensures { OnOk result (values.new.entries ≡ insert_all same_name values.old.entries (map pair_of binds.now)) }
{
    for bind in binds {
        let value = bind.value.copy(alloc)?;
        values.insert(bind.symbol, value)?;
    }
    Ok(())
}

/// The symbols of a map with their values, in its order.
fn binds_of(alloc: Global, values: IndexMap<Name, Val>) -> Result<Vec<Bind>, Memory>
    ensures { IfOk result (λ binds. binds.items ≡ map bind_of values.entries) }
{
    let mut binds = Vec::new(alloc);
    for (symbol, value) in values {
        binds.push(Bind { symbol, value })?;
    }
    Ok(binds)
}
