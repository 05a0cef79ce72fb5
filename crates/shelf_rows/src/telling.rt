//! What lines tell: nodes of a tree, top entries, which calls fail.
use crate::kept::Kept;
use crate::nodes::{path_of, put_bytes};
use std::alloc::Global;
use zi_lines::{Sheet, halves, take_numbers};
use zi_memory::MemoryShelf;
use zi_purge::Purge;
use zi_session::Session;
use zi_text::{Bytes, List, Memory, Text};
use zi_tree::{RelPath, Tree, TreeNode};

/// What was told so far.
#[derive(Drop)]
pub(crate) struct Told {
    rt: HostRuntime,
    /// The tree whose nodes are told; `put` and `begin` take it away.
    pub tree: Tree,
    pub shelf: Kept,
    /// Shelves in memory that are read besides, in their order.
    pub others: Vec<MemoryShelf>,
    /// Those that began, each up to where it is asked what it is blamed for.
    pub sessions: Vec<Option<Session>>,
    /// The purger that began last.
    pub purge: Option<Purge>,
    /// Whose sessions begin anew for each crash.
    pub adders: Vec<Text>,
}

impl Told {
    /// An empty tree, an empty shelf, no session and no purger.
    pub(crate) fn new(rt: HostRuntime) -> Told {
        let alloc = rt.alloc();
        Told {
            rt,
            tree: Tree::new(alloc),
            shelf: Kept::Planned(MemoryShelf::new(alloc)),
            others: Vec::new(alloc),
            sessions: Vec::new(alloc),
            purge: None,
            adders: Vec::new(alloc),
        }
    }

    /// The tree that was told; the next one begins.
    pub(crate) fn taken(&mut self, alloc: Global) -> Tree {
        std::mem::replace(&mut self.tree, Tree::new(alloc))
    }

    /// Adds a node, where its path is one and has room.
    fn take_node(&mut self, alloc: Global, path: &str, node: TreeNode) -> Result<(), Memory> {
        match path_of(alloc, path) {
            Ok(Some(at)) => insert(alloc, &mut self.tree, &at, node),
            Ok(None) => Ok(()),
            Err(Memory) => Err(Memory),
        }
    }

    /// Takes a file: its path, `x` where it is executable, its time, and its bytes.
    fn take_file(&mut self, alloc: Global, row: &str) -> Result<(), Memory> {
        let (path, rest) = halves(row);
        let (exec, rest) = halves(rest);
        let (mtime, text) = halves(rest);
        let mut bytes = Vec::new(alloc);
        put_bytes(&mut bytes, text)?;
        let node = TreeNode::File {
            bytes: Bytes::from_vec(bytes),
            exec: exec == "x",
            mtime: mtime.parse::<i64>().unwrap_or(0),
        };
        self.take_node(alloc, path, node)
    }

    /// Takes a file of the time 7 with so many bytes 0: its path and the number.
    fn take_zeros(&mut self, alloc: Global, row: &str) -> Result<(), Memory> {
        let (path, number) = halves(row);
        let bytes = vec![in alloc; 0u8; number.parse::<u32>().unwrap_or(0) as usize]?;
        let node = TreeNode::File {
            bytes: Bytes::from_vec(bytes),
            exec: false,
            mtime: 7,
        };
        self.take_node(alloc, path, node)
    }

    /// Takes a link: its path and its target.
    fn take_link(&mut self, alloc: Global, row: &str) -> Result<(), Memory> {
        let (path, target) = halves(row);
        let target = Text::from_str(alloc, target)?;
        self.take_node(alloc, path, TreeNode::Link { target })
    }

    /// Takes a node away again.
    fn take_away(&mut self, alloc: Global, path: &str) -> Result<(), Memory> {
        match path_of(alloc, path) {
            Ok(Some(at)) => {
                let _gone = self.tree.take(&at);
                Ok(())
            }
            Ok(None) => Ok(()),
            Err(Memory) => Err(Memory),
        }
    }

    /// Sets the top entry of this name to the tree.
    fn put(&mut self, alloc: Global, top: &str) -> Result<(), Memory> {
        let tree = self.taken(alloc);
        self.shelf.place(top, tree)
    }

    /// Sets the temporary name of this number to an empty tree.
    fn fill(&mut self, alloc: Global, number: u32) -> Result<(), Memory> {
        let mut name = Sheet::new(alloc);
        name.put("tmp-");
        name.number(u64::from(number));
        self.shelf.place(name.text()?, Tree::new(alloc))
    }

    /// Sets the first so many temporary names to empty trees.
    fn crowd(&mut self, alloc: Global, count: u32) -> Result<(), Memory> {
        for number in 0..count {
            self.fill(alloc, number)?;
        }
        Ok(())
    }

    /// Sets the numbers of the calls that fail.
    fn fail(&mut self, alloc: Global, row: &str) -> Result<(), Memory> {
        let mut calls = List::new(alloc);
        take_numbers(&mut calls, row)?;
        self.shelf.fail_at(calls.as_slice())
    }

    /// Takes another shelf, behind those so far: its root.
    fn take_other(&mut self, alloc: Global, root: &str) -> Result<(), Memory> {
        Ok(self.others.push(MemoryShelf::with_root(alloc, root)?)?)
    }

    /// Sets the top entry of this name of the last of the others to the tree.
    fn put_other(&mut self, alloc: Global, top: &str) -> Result<(), Memory> {
        let tree = self.taken(alloc);
        match self.others.last_mut() {
            Some(shelf) => shelf.place(top, tree),
            None => Ok(()),
        }
    }

    /// Sets the numbers of the calls that fail, of the last of the others.
    fn fail_other(&mut self, alloc: Global, row: &str) -> Result<(), Memory> {
        let mut calls = List::new(alloc);
        take_numbers(&mut calls, row)?;
        match self.others.last_mut() {
            Some(shelf) => shelf.fail_at(calls.as_slice()),
            None => Ok(()),
        }
    }

    /// Takes a shelf: its form and its root.
    fn take_shelf(&mut self, row: &str) -> Result<(), Memory> {
        let (form, root) = halves(row);
        self.shelf = Kept::with_root(self.rt, form, root)?;
        Ok(())
    }

    /// Takes who adds.
    fn take_adder(&mut self, alloc: Global, row: &str) -> Result<(), Memory> {
        Ok(self.adders.push(Text::from_str(alloc, row)?)?)
    }
}

/// Adds a node to a tree; one whose path has no room is taken for want of memory.
fn insert(alloc: Global, tree: &mut Tree, at: &RelPath, node: TreeNode) -> Result<(), Memory> {
    match tree.insert(alloc, at, node) {
        Ok(_) => Ok(()),
        Err(_) => Err(Memory),
    }
}

/// Takes what a line tells of a tree, and says whether it tells such.
fn tells_of_tree(alloc: Global, out: &mut Sheet, word: &str, rest: &str, told: &mut Told) -> bool {
    match word {
        "file" => out.needs(told.take_file(alloc, rest)),
        "zeros" => out.needs(told.take_zeros(alloc, rest)),
        "link" => out.needs(told.take_link(alloc, rest)),
        "folder" => out.needs(told.take_node(alloc, rest, TreeNode::Folder(Tree::new(alloc)))),
        "away" => out.needs(told.take_away(alloc, rest)),
        _ => return false,
    }
    true
}

/// Takes what a line tells of another shelf, and says whether it tells such.
fn tells_of_others(
    alloc: Global,
    out: &mut Sheet,
    word: &str,
    rest: &str,
    told: &mut Told,
) -> bool {
    match word {
        "other" => out.needs(told.take_other(alloc, rest)),
        "put_other" => out.needs(told.put_other(alloc, rest)),
        "fails_other" => out.needs(told.fail_other(alloc, rest)),
        _ => return false,
    }
    true
}

/// Takes what a line tells, and says whether it tells something.
pub(crate) fn tells(
    alloc: Global,
    out: &mut Sheet,
    word: &str,
    rest: &str,
    told: &mut Told,
) -> bool {
    if tells_of_others(alloc, out, word, rest, told) {
        return true;
    }
    match word {
        "#" => {}
        "shelf" => out.needs(told.take_shelf(rest)),
        "put" => out.needs(told.put(alloc, rest)),
        "crowd" => out.needs(told.crowd(alloc, rest.parse::<u32>().unwrap_or(0))),
        "fails" => out.needs(told.fail(alloc, rest)),
        "adder" => out.needs(told.take_adder(alloc, rest)),
        "crash" => out.needs(told.shelf.crash(rest.parse::<u64>().unwrap_or(0))),
        _ => return tells_of_tree(alloc, out, word, rest, told),
    }
    true
}
