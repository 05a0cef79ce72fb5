//! What lines tell: feeds and files, the web, variables, what is stored, how programs end, and which calls fail.
use crate::asking::put_spelled;
use crate::held::{Held, LongFeeds};
use crate::limited::{LimitedWeb, Most};
use std::alloc::Global;
use zi_lines::{Sheet, halves, take_numbers};
use zi_memory::MemoryShelf;
use zi_outside::{MemoryFeeds, MemorySink, MemorySpawner, MemoryWeb, Vars};
use zi_text::{Bytes, List, Memory, Text};
use zi_tree::{RelPath, Tree, TreeNode};

/// What stands before the inside of a feed.
const FEED: &str =
    "<interface xmlns=\"http://zero-install.sourceforge.net/2004/injector/interface\">";

/// What stands before the attributes and the inside of a document of selections.
const SELECTIONS: &str =
    "<selections xmlns=\"http://zero-install.sourceforge.net/2004/injector/interface\" ";

/// A file with these bytes: not executable, and with the time 0.
fn plain(bytes: Vec<u8>) -> TreeNode {
    TreeNode::File {
        bytes: Bytes::from_vec(bytes),
        exec: false,
        mtime: 0,
    }
}

/// The objects of a call, but for the feeds. The streams are those of the last call.
#[derive(Drop)]
pub(crate) struct Objects {
    pub vars: Vars,
    /// The store that is written.
    pub shelf: MemoryShelf,
    /// Those that are read besides, in their order.
    pub others: Vec<MemoryShelf>,
    pub web: LimitedWeb,
    pub spawner: MemorySpawner,
    pub out: MemorySink,
    pub err: MemorySink,
}

impl Objects {
    /// The store that was told last.
    pub(crate) fn store(&self) -> &MemoryShelf {
        self.others.last().unwrap_or(&self.shelf)
    }

    /// The store that was told last.
    fn store_mut(&mut self) -> &mut MemoryShelf {
        match self.others.last_mut() {
            Some(shelf) => shelf,
            None => &mut self.shelf,
        }
    }

    /// Empty ones.
    fn new(alloc: Global) -> Objects {
        Objects {
            vars: Vars::new(alloc),
            shelf: MemoryShelf::new(alloc),
            others: Vec::new(alloc),
            web: LimitedWeb::new(MemoryWeb::new(alloc)),
            spawner: MemorySpawner::new(alloc),
            out: MemorySink::new(alloc),
            err: MemorySink::new(alloc),
        }
    }
}

/// What was told so far.
#[derive(Drop)]
pub(crate) struct Told {
    pub feeds: Held,
    pub objects: Objects,
    /// The calls of the output that fail.
    pub output_fails: List<u32>,
    /// Those of the errors.
    pub errors_fail: List<u32>,
    /// The tree whose nodes are told; `place` takes it away.
    tree: Tree,
}

impl Told {
    /// Nothing.
    pub(crate) fn new(alloc: Global) -> Told {
        Told {
            feeds: Held::Planned(MemoryFeeds::new(alloc)),
            objects: Objects::new(alloc),
            output_fails: List::new(alloc),
            errors_fail: List::new(alloc),
            tree: Tree::new(alloc),
        }
    }

    /// Begins the streams of a call anew; those calls of them fail that were told.
    pub(crate) fn begin(&mut self, alloc: Global) -> Result<(), Memory> {
        self.objects.out = MemorySink::new(alloc);
        self.objects.err = MemorySink::new(alloc);
        self.objects.out.fail_at(self.output_fails.as_slice())?;
        self.objects.err.fail_at(self.errors_fail.as_slice())
    }

    /// Takes a feed: its address and what stands in its root.
    fn take_feed(&mut self, alloc: Global, row: &str) -> Result<(), Memory> {
        let (uri, inside) = halves(row);
        let mut document = Sheet::new(alloc);
        document.put(FEED);
        document.put(inside);
        document.put("</interface>");
        self.feeds.put(uri, document.text()?.as_bytes())
    }

    /// Takes the feed of this number in a chain.
    fn take_link(&mut self, alloc: Global, number: u32) -> Result<(), Memory> {
        let mut row = Sheet::new(alloc);
        row.put("/");
        row.number(u64::from(number));
        row.put(" <feed src='/");
        row.number(u64::from(number) + 1);
        row.put("'/>");
        self.take_feed(alloc, row.text()?)
    }

    /// Takes a chain of so many feeds from `/0`, each of which imports the next.
    fn take_chain(&mut self, alloc: Global, count: u32) -> Result<(), Memory> {
        for number in 0..count {
            self.take_link(alloc, number)?;
        }
        Ok(())
    }

    /// Takes a document of selections: its name and what stands behind the namespace of its root.
    fn take_selections(&mut self, alloc: Global, row: &str) -> Result<(), Memory> {
        let (name, rest) = halves(row);
        let mut document = Sheet::new(alloc);
        document.put(SELECTIONS);
        document.put(rest);
        document.put("</selections>");
        self.feeds.put(name, document.text()?.as_bytes())
    }

    /// Takes a file: its name and its text.
    fn take_file(&mut self, alloc: Global, row: &str) -> Result<(), Memory> {
        let (name, text) = halves(row);
        let mut key = Sheet::new(alloc);
        let mut bytes = Sheet::new(alloc);
        put_spelled(&mut key, name);
        put_spelled(&mut bytes, text);
        self.feeds.put(key.text()?, bytes.text()?.as_bytes())
    }

    /// Takes what an address of the web holds.
    fn take_remote(&mut self, row: &str) -> Result<(), Memory> {
        let (href, text) = halves(row);
        self.objects.web.put(href, text.as_bytes())
    }

    /// Takes the greatest limit with which a feed, a file or an address may be asked for, and which that is. It goes before the
    /// feeds that are told.
    fn take_limit(&mut self, alloc: Global, row: &str) -> Result<(), Memory> {
        let (number, key) = halves(row);
        let limit = number.parse::<u64>().unwrap_or(0);
        self.objects.web.allow(Most {
            key: Text::from_str(alloc, key)?,
            limit,
        });
        self.feeds.allow(
            alloc,
            Most {
                key: Text::from_str(alloc, key)?,
                limit,
            },
        );
        Ok(())
    }

    /// Takes a variable: its name and its value.
    fn take_variable(&mut self, row: &str) -> Result<(), Memory> {
        let (name, value) = halves(row);
        self.objects.vars.set(name, value)
    }

    /// Takes the feeds of a demonstration.
    fn take_demonstration(&mut self, alloc: Global, size: &str) -> Result<(), Memory> {
        self.feeds = Held::demonstration(alloc, size)?;
        Ok(())
    }

    /// Adds a node to the tree, where its path is one and has room: a file where a text stands behind the path, else a folder.
    fn take_node(&mut self, alloc: Global, row: &str) -> Result<(), Memory> {
        let (path, text) = row.split_once(' ').unwrap_or((row, "/"));
        match RelPath::parse(alloc, path) {
            Ok(Some(at)) => {
                let node = node_of(alloc, text)?;
                insert(alloc, &mut self.tree, &at, node)
            }
            Ok(None) => Ok(()),
            Err(Memory) => Err(Memory),
        }
    }

    /// Adds a file of so many zero bytes to the tree, where its path is one and has room.
    fn take_zeros(&mut self, alloc: Global, row: &str) -> Result<(), Memory> {
        let (path, number) = halves(row);
        match RelPath::parse(alloc, path) {
            Ok(Some(at)) => {
                let node = zeros(alloc, number.parse::<u32>().unwrap_or(0))?;
                insert(alloc, &mut self.tree, &at, node)
            }
            Ok(None) => Ok(()),
            Err(Memory) => Err(Memory),
        }
    }

    /// Takes a further store: its root. From here on `place`, `fails store` and `stored` mean it.
    fn take_store(&mut self, alloc: Global, root: &str) -> Result<(), Memory> {
        let shelf = MemoryShelf::with_root(alloc, root)?;
        Ok(self.objects.others.push(shelf)?)
    }

    /// Sets the top entry of this name to the tree.
    fn place(&mut self, alloc: Global, top: &str) -> Result<(), Memory> {
        let tree = std::mem::replace(&mut self.tree, Tree::new(alloc));
        self.objects.store_mut().place(top, tree)
    }

    /// Sets the temporary name of this number to an empty tree.
    fn fill(&mut self, alloc: Global, number: u32) -> Result<(), Memory> {
        let mut name = Sheet::new(alloc);
        name.put("tmp-");
        name.number(u64::from(number));
        self.objects
            .store_mut()
            .place(name.text()?, Tree::new(alloc))
    }

    /// Sets the first so many temporary names to empty trees.
    fn crowd(&mut self, alloc: Global, count: u32) -> Result<(), Memory> {
        for number in 0..count {
            self.fill(alloc, number)?;
        }
        Ok(())
    }

    /// Sets the numbers of the calls of the output that fail.
    fn fail_output(&mut self, alloc: Global, row: &str) -> Result<(), Memory> {
        self.output_fails = List::new(alloc);
        take_numbers(&mut self.output_fails, row)
    }

    /// Sets the numbers of the calls of an object that fail.
    fn fail_object(&mut self, object: &str, calls: &[u32]) -> Result<(), Memory> {
        match object {
            "feeds" => self.feeds.fail_at(calls),
            "store" => self.objects.store_mut().fail_at(calls),
            "web" => self.objects.web.fail_at(calls),
            _ => self.objects.spawner.fail_at(calls),
        }
    }

    /// Sets the number of the one call of an object that fails; 0 is none. `first` is the store that is written.
    pub(crate) fn fail_once(&mut self, object: &str, call: u32) -> Result<(), Memory> {
        match object {
            "output" => self.output_fails.push(call),
            "errors" => self.errors_fail.push(call),
            "first" => self.objects.shelf.fail_at(&[call]),
            _ => self.fail_object(object, &[call]),
        }
    }

    /// Sets the numbers of the calls of an object that fail.
    fn fail(&mut self, alloc: Global, row: &str) -> Result<(), Memory> {
        let (object, rest) = halves(row);
        if object == "output" {
            return self.fail_output(alloc, rest);
        }
        let mut calls = List::new(alloc);
        take_numbers(&mut calls, rest)?;
        self.fail_object(object, calls.as_slice())
    }

    /// Sets the statuses of the programs that are started.
    fn end(&mut self, alloc: Global, row: &str) -> Result<(), Memory> {
        let mut statuses = Vec::new(alloc);
        take_statuses(&mut statuses, row)?;
        self.objects.spawner.answer(statuses.as_slice())
    }
}

/// Adds the statuses of a row.
fn take_statuses(statuses: &mut Vec<u8>, row: &str) -> Result<(), Memory> {
    for word in row.split(' ') {
        statuses.push(word.parse::<u8>().unwrap_or(0))?;
    }
    Ok(())
}

/// Makes so many allocations, and gives each back.
fn spend(alloc: Global, count: u32) -> Result<(), Memory> {
    for _ in 0..count {
        let _spent = Vec::from_slice(alloc, &[0u8])?;
    }
    Ok(())
}

/// The file whose text a line spells.
fn file_of(alloc: Global, text: &str) -> Result<TreeNode, Memory> {
    let mut spelled = Sheet::new(alloc);
    put_spelled(&mut spelled, text);
    Ok(plain(Vec::from_slice(alloc, spelled.text()?.as_bytes())?))
}

/// A file of so many zero bytes.
fn zeros(alloc: Global, count: u32) -> Result<TreeNode, Memory> {
    Ok(plain(vec![in alloc; 0u8; count as usize]?))
}

/// A folder where the text is `/`, else the file whose text that is.
fn node_of(alloc: Global, text: &str) -> Result<TreeNode, Memory> {
    if text == "/" {
        Ok(TreeNode::Folder(Tree::new(alloc)))
    } else {
        file_of(alloc, text)
    }
}

/// Adds a node to a tree; one whose path has no room is taken for want of memory.
fn insert(alloc: Global, tree: &mut Tree, at: &RelPath, node: TreeNode) -> Result<(), Memory> {
    match tree.insert(alloc, at, node) {
        Ok(_) => Ok(()),
        Err(_) => Err(Memory),
    }
}

/// Takes what a line tells of feeds, and says whether it tells such.
fn tells_of_feeds(alloc: Global, out: &mut Sheet, word: &str, rest: &str, told: &mut Told) -> bool {
    match word {
        "feed" => out.needs(told.take_feed(alloc, rest)),
        "chain" => out.needs(told.take_chain(alloc, rest.parse::<u32>().unwrap_or(0))),
        "selections" => out.needs(told.take_selections(alloc, rest)),
        "file" => out.needs(told.take_file(alloc, rest)),
        "demonstration" => out.needs(told.take_demonstration(alloc, rest)),
        "long" => told.feeds = Held::Long(LongFeeds),
        "web" => out.needs(told.take_remote(rest)),
        "limit" => out.needs(told.take_limit(alloc, rest)),
        _ => return false,
    }
    true
}

/// Takes what a line tells, and says whether it tells something.
pub(crate) fn tells(
    alloc: Global,
    out: &mut Sheet,
    word: &str,
    rest: &str,
    told: &mut Told,
) -> bool {
    match word {
        "#" => {}
        "spend" => out.needs(spend(alloc, rest.parse::<u32>().unwrap_or(0))),
        "set" => out.needs(told.take_variable(rest)),
        "node" => out.needs(told.take_node(alloc, rest)),
        "zeros" => out.needs(told.take_zeros(alloc, rest)),
        "store" => out.needs(told.take_store(alloc, rest)),
        "place" => out.needs(told.place(alloc, rest)),
        "crowd" => out.needs(told.crowd(alloc, rest.parse::<u32>().unwrap_or(0))),
        "fails" => out.needs(told.fail(alloc, rest)),
        "ends" => out.needs(told.end(alloc, rest)),
        _ => return tells_of_feeds(alloc, out, word, rest, told),
    }
    true
}
