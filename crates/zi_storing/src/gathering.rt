//! The files of `store add`: they are got in order, and a tree is made of them.
ghost use Rattle.std.specs.Prelude.{◌≡◌, ◌++◌, ◌∷◌, [], true, List, map, OnOk, MatchResult};
ghost use Rattle.std.specs.List.{list_all};
ghost use Rattle.zi_words.specs.Store.{last_part, is_name, is_file};
ghost use Rattle.zi_storing.specs.Gathering.{Holds, GetsPart, GetsParts, PutsPart, MakesTree, Gathers, Refuses, part_name};
ghost use Rattle.zi_storing.specs.declared.gathering.Part.{Part as APart};

use std::alloc::Global;
use zi_outside::{Feeds, FeedsFault, Got};
use zi_text::{Bytes, List, Memory, Text};
use zi_tree::{InsertFault, NODES_LIMIT, RelPath, SIZE_LIMIT, Tree, TreeLimit, TreeNode};
use zi_words::last_part;

/// How many bytes a file may have: 64 MiB.
pub(crate) const FILE_LIMIT: u64 = 67_108_864;

/// A file as it goes into the tree: its name there, and its bytes.
#[derive(Drop)]
pub(crate) struct Part {
    pub(crate) name: Text,
    pub(crate) bytes: Bytes,
}

/// Why there is no tree of the files.
#[derive(Drop)]
pub(crate) enum GatherFault {
    /// The feeds failed at this file.
    Read { file: Text },
    /// This file isn't there.
    Absent { file: Text },
    /// This file has more bytes than its limit.
    TooLong { file: Text, limit: u64 },
    /// Two files have this last part.
    Twice { name: Text },
    /// The tree passes this limit.
    TooLarge { what: TreeLimit, limit: u64 },
    /// Memory was refused.
    Memory,
}

impl From<Memory> for GatherFault {
    ghost use Rattle.std.specs.Prelude.{◌≡◌};
    ghost use Rattle.zi_storing.specs.declared.gathering.GatherFault.TheVariants.{Memory as NoMemory};

    ghost from_gives = { λ _ e. e ≡ NoMemory };

    fn from(_: Memory) -> GatherFault {
        GatherFault::Memory
    }
}

/// The part of a file with these bytes.
fn part_of(alloc: Global, file: &Text, bytes: Vec<u8>) -> Result<Part, GatherFault>
    ensures { MatchResult result (λ p. (p.name ≡ last_part file.now) × (p.bytes ≡ bytes.items)) (λ e. e ≡ GatherFault.Memory) }
{
    let name = Text::from_str(alloc, last_part(file.as_str()))?;
    let bytes = Bytes::from_vec(bytes);
    Ok(Part { name, bytes })
}

/// Gets a file. The text that names it in a refusal is made before the call, so that none lacks memory after it.
fn get_part<F: Feeds>(alloc: Global, file: &Text, feeds: &mut F) -> Result<Part, GatherFault>
    ensures { GetsPart file.now (F.seen feeds.old) (F.seen feeds.new) result }
{
    let Ok(named) = file.copy(alloc) else {
        return Err(GatherFault::Memory);
    };
    let mut bytes = Vec::new(alloc);
    match feeds.get(file.as_str(), FILE_LIMIT, &mut bytes) {
        Ok(Got::Held) => part_of(alloc, file, bytes),
        Ok(Got::Absent) => Err(GatherFault::Absent { file: named }),
        Ok(Got::TooLong) => Err(GatherFault::TooLong {
            file: named,
            limit: FILE_LIMIT,
        }),
        Err(FeedsFault::Failed) => Err(GatherFault::Read { file: named }),
        Err(FeedsFault::Memory) => Err(GatherFault::Memory),
    }
}

/// What was got of the files. Their bytes are held as long as all together have no more than their limit; past it the rest are
/// only looked at, and their names are held.
#[derive(Drop)]
pub(crate) struct Held {
    pub(crate) parts: List<Part>,
    /// How many bytes more may come.
    pub(crate) left: u64,
    /// Whether the files have more bytes together than their limit.
    pub(crate) large: bool,
}

impl Held {
    /// Nothing yet.
    #[tactic(auto, using(crate::proofs::HeldLemmas::holds_none))]
    fn new(alloc: Global) -> Held
        ensures { Holds [] result }
    {
        Held {
            parts: List::new(alloc),
            left: SIZE_LIMIT,
            large: false,
        }
    }

    /// Adds a name without bytes.
    fn add_name(&mut self, alloc: Global, name: Text) -> Result<(), Memory>
        ensures parts { OnOk result (self.new.parts ≡ self.old.parts ++ record { name = name; bytes = [] } ∷ []) }
        ensures large { self.new.large ≡ self.old.large }
    {
        let bytes = Bytes::from_vec(Vec::new(alloc));
        match self.parts.push(Part { name, bytes }) {
            Ok(()) => Ok(()),
            Err(_) => Err(Memory),
        }
    }

    /// Adds the next part.
    #[tactic(auto, using(crate::proofs::HeldLemmas::holding))]
    fn add(&mut self, alloc: Global, part: Part) -> Result<(), Memory>
        ensures { (parts : List APart) → Holds parts self.old → OnOk result (Holds (parts ++ part ∷ []) self.new) }
    {
        let Part { name, bytes } = part;
        if self.large {
            return self.add_name(alloc, name);
        }
        let size = bytes.len() as u64;
        if size > self.left {
            self.large = true;
            return self.add_name(alloc, name);
        }
        self.left -= size;
        match self.parts.push(Part { name, bytes }) {
            Ok(()) => Ok(()),
            Err(_) => Err(Memory),
        }
    }
}

/// Gets the files in their order.
#[tactic(auto, using(crate::proofs::GatheringLemmas::getting))]
fn get_parts<F: Feeds>(alloc: Global, files: &[Text], feeds: &mut F) -> Result<Held, GatherFault>
    ensures { GetsParts files.now (F.seen feeds.old) (F.seen feeds.new) result }
{
    let mut held = Held::new(alloc);
    for file in files {
        match get_part(alloc, file, feeds) {
            Ok(part) => match held.add(alloc, part) {
                Ok(()) => {}
                Err(_) => return Err(GatherFault::Memory),
            },
            Err(fault) => return Err(fault),
        }
    }
    Ok(held)
}

/// Puts a file into a tree.
#[tactic(auto, using(crate::proofs::GatheringLemmas::put_there, crate::proofs::GatheringLemmas::put_twice))]
fn put_part(alloc: Global, tree: &mut Tree, part: Part) -> Result<(), GatherFault>
    requires { is_name part.name ≡ true }
    ensures { PutsPart part tree.old result tree.new }
{
    let Part { name, bytes } = part;
    let root = RelPath::root(alloc);
    let Some(path) = root.child(alloc, name.as_str())? else {
        unreachable!()
    };
    let node = TreeNode::File {
        bytes,
        exec: false,
        mtime: 0,
    };
    match tree.insert(alloc, &path, node) {
        Ok(()) => Ok(()),
        Err(InsertFault::Overlap) => Err(GatherFault::Twice { name }),
        Err(InsertFault::Memory) => Err(GatherFault::Memory),
    }
}

/// The tree of the parts.
fn tree_of(alloc: Global, parts: List<Part>) -> Result<Tree, GatherFault>
    requires { list_all is_name (map part_name parts) ≡ true }
    ensures { MakesTree parts result }
{
    let mut tree = Tree::new(alloc);
    for part in parts.into_vec() {
        match put_part(alloc, &mut tree, part) {
            Ok(()) => {}
            Err(fault) => return Err(fault),
        }
    }
    tree.is_whole();
    Ok(tree)
}

/// Gets the files and makes the tree of them.
#[tactic(auto, using(crate::proofs::GatheringLemmas::gathering))]
pub(crate) fn gather<F: Feeds>(
    alloc: Global,
    files: &[Text],
    feeds: &mut F,
) -> Result<Tree, GatherFault>
    requires { list_all is_file files.now ≡ true }
    ensures { MatchResult result (Gathers files.now (F.seen feeds.old) (F.seen feeds.new)) (Refuses files.now (F.seen feeds.old) (F.seen feeds.new)) }
{
    let held = match get_parts(alloc, files, feeds) {
        Ok(held) => held,
        Err(fault) => return Err(fault),
    };
    let Held { parts, large, .. } = held;
    let tree = match tree_of(alloc, parts) {
        Ok(tree) => tree,
        Err(fault) => return Err(fault),
    };
    if large {
        return Err(GatherFault::TooLarge {
            what: TreeLimit::Size,
            limit: SIZE_LIMIT,
        });
    }
    if files.len() as u64 > NODES_LIMIT {
        return Err(GatherFault::TooLarge {
            what: TreeLimit::Nodes,
            limit: NODES_LIMIT,
        });
    }
    Ok(tree)
}
