//! What has still to be shown, found by its address.
ghost use Rattle.std.specs.Prelude.{◌≡◌, ◌+◌, IfOk, IfSome, length, option_copied};
ghost use Rattle.zi_showing.specs.Tree.{selected_for};
ghost use Rattle.zi_showing.specs.Steps.{left_in, AreLeft, IsTaken};

use std::alloc::Global;
use std::collections::HashMap;
use zi_sels::Selection;
use zi_text::Memory;

// The selections by their addresses: of those of one address the first.
pub(crate) fn all_left<'a>(
    alloc: Global,
    items: &'a [Selection],
) -> Result<HashMap<&'a str, &'a Selection>, Memory>
    ensures { IfOk result (λ left. AreLeft (selected_for items.entry.now) left.entries) }
{
    let mut left = HashMap::new(alloc);
    let mut n = items.len();
    while n > 0 {
        n -= 1;
        let item = &items[n];
        left.insert(item.interface.as_str(), item)?;
    }
    Ok(left)
}

// What has still to be shown of an address, which is taken out.
pub(crate) fn take<'a>(
    left: &mut HashMap<&'a str, &'a Selection>,
    interface: &'a str,
) -> Option<&'a Selection>
    ensures { IsTaken interface.entry.now (option_copied result) left.old.entries left.new.entries }
{
    left.remove(&interface)
}
