ghost use Rattle.std.specs.Prelude.{◌≡◌, ◌++◌, [], OnOk};
ghost use Rattle.std.specs.List.{cons_option};

use skk_text::{Memory, Sequence};

/// Adds an item at the end of a list, where there is one.
pub fn push_some<T: Drop>(list: &mut Sequence<T>, item: Option<T>) -> Result<(), Memory>
    ensures { OnOk result (list.new ≡ list.old ++ cons_option item []) }
{
    match item {
        Some(item) => list.push(item),
        None => Ok(()),
    }
}
