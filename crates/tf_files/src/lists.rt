ghost use Rattle.std.specs.Prelude.{◌≡◌, ◌∷◌, ◌++◌, [], OnOk};

use tf_values::Memory;

/// Puts one more at the end of a list.
pub fn add<T: Drop>(list: &mut Vec<T>, one: T) -> Result<(), Memory>
    ensures { OnOk result (list.new.items ≡ list.old.items ++ one ∷ []) }
{
    list.push(one)?;
    Ok(())
}
