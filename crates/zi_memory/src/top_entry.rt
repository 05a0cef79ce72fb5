//! The top entries of a shelf in memory, and what is pending there.

ghost use Rattle.std.specs.Prelude.{◌≡◌, ◌<◌, ◌++◌, ◌∷◌, ◌≤◌, [], true, None, Some, MatchOption, MatchResult, OnOk, length, vec_len, vec_capacity};
ghost use Rattle.zi_shelf.specs.Names.{put};
ghost use Rattle.zi_memory.specs.Memory.{top_of, tops_of, are_apart, are_trees, IsAt, IsPlace};

use zi_shelf::ShelfFault;
use zi_text::Text;
use zi_tree::Tree;

/// A top entry.
#[derive(Drop)]
pub struct TopEntry {
    pub name: Text,
    pub tree: Tree,
    pub settled: bool,
}

/// A rename or a removal since the last settle of the top.
#[derive(Drop)]
pub enum Later {
    RenamedTop(Text, Text),
    RemovedTop(TopEntry),
}

/// Where the entry of this name is, or else where one would go.
pub fn place_of(entries: &[TopEntry], name: &str) -> Result<usize, usize>
    requires { are_apart entries.now ≡ true }
    ensures { MatchResult result
        (λ i. (i < length entries.now) × IsAt name.now entries.now i)
        (λ i. (i ≤ length entries.now) × IsPlace name.now entries.now i × (tops_of entries.now name.now ≡ None)) }
{
    entries.binary_search_by(|entry| entry.name.as_str().cmp(name))
}

/// Where the entry of this name is.
pub fn find_top(entries: &[TopEntry], name: &str) -> Option<usize>
    requires { are_apart entries.now ≡ true }
    ensures { MatchOption result (tops_of entries.now name.now ≡ None) (λ i. (i < length entries.now) × IsAt name.now entries.now i) }
{
    match place_of(entries, name) {
        Ok(i) => Some(i),
        Err(_) => None,
    }
}

/// Makes room for one more entry.
pub fn room(entries: &mut Vec<TopEntry>) -> Result<(), ShelfFault>
    ensures ok { OnOk result (vec_len entries.new < vec_capacity entries.new) }
    ensures same { entries.new.items ≡ entries.old.items }
    ensures err { result ≡ Err ShelfFault.Failed → ⊥ }
{
    match entries.reserve(1) {
        Ok(()) => Ok(()),
        Err(_) => Err(ShelfFault::Memory),
    }
}

/// Makes room for one more pending rename or removal.
pub fn room_for(pending: &mut Vec<Later>) -> Result<(), ShelfFault>
    ensures ok { OnOk result (vec_len pending.new < vec_capacity pending.new) }
    ensures same { pending.new.items ≡ pending.old.items }
    ensures err { result ≡ Err ShelfFault.Failed → ⊥ }
{
    match pending.reserve(1) {
        Ok(()) => Ok(()),
        Err(_) => Err(ShelfFault::Memory),
    }
}

/// Puts an entry among the others, where there is room and its name is free.
pub fn put_in(entries: &mut Vec<TopEntry>, entry: TopEntry)
    requires room { vec_len entries.old < vec_capacity entries.old }
    requires apart { are_apart entries.old.items ≡ true }
    requires free { tops_of entries.old.items entry.name ≡ None }
    ensures tops { tops_of entries.new.items ≡ put (tops_of entries.old.items) entry.name (Some (top_of entry)) }
    ensures apart { are_apart entries.new.items ≡ true }
    ensures whole { are_trees entries.old.items ≡ true → are_trees entries.new.items ≡ true }
{
    entry.tree.is_whole();
    let Err(place) = place_of(entries.as_slice(), entry.name.as_str()) else {
        unreachable!()
    };
    match entries.insert(place, entry) {
        Ok(()) => (),
        Err(_) => unreachable!(),
    }
}

/// Puts the newest pending one behind the others, where there is room.
pub fn put_newest(pending: &mut Vec<Later>, later: Later)
    requires { vec_len pending.old < vec_capacity pending.old }
    ensures { pending.new.items ≡ pending.old.items ++ later ∷ [] }
{
    match pending.push(later) {
        Ok(()) => (),
        Err(_) => unreachable!(),
    }
}
