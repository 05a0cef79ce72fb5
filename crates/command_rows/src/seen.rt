//! What is seen of the objects behind the calls.
use crate::told::Objects;
use std::alloc::Global;
use zi_lines::{Sheet, halves};
use zi_memory::MemoryShelf;
use zi_outside::{Dir, Launch, MemorySink};
use zi_shelf::CallKind;
use zi_text::{Memory, Text};
use zi_tree::{RelPath, Tree, TreeNode};

/// Adds the words of a launch.
fn put_words(out: &mut Sheet, launch: &Launch) {
    for (i, word) in launch.words.as_slice().iter().enumerate() {
        out.put(if i > 0 { " " } else { "" });
        out.put(word.as_str());
    }
}

/// Adds the value of a variable of a launch.
fn put_variable(out: &mut Sheet, name: &str, launch: &Launch) {
    match launch.vars.get(name) {
        Some(value) => out.put(value.as_str()),
        None => out.put("unset"),
    }
}

/// Adds folders of a launch, each behind its interface.
fn put_folders(out: &mut Sheet, dirs: &[Dir]) {
    for dir in dirs {
        out.put(dir.interface.as_str());
        out.put(" ");
        out.put(dir.folder.as_str());
        out.put(";");
    }
}

/// Adds a node.
fn put_node(out: &mut Sheet, node: &TreeNode) {
    match node {
        TreeNode::File { bytes, exec, mtime } => {
            let text = std::str::from_utf8(bytes.as_slice()).unwrap_or("no text");
            out.put(if *exec { "program " } else { "file " });
            out.value(&text);
            out.put(" ");
            out.value(mtime);
        }
        TreeNode::Folder(folder) => {
            out.put("folder of ");
            out.number(folder.len() as u64);
        }
        TreeNode::Link { .. } => out.put("link"),
    }
}

/// Adds what stands at a path of a tree.
fn put_found(out: &mut Sheet, path: &RelPath, tree: &Tree) {
    match tree.find(path) {
        Some(node) => put_node(out, node),
        None => out.put("none"),
    }
}

/// Adds what stands at the path that a text spells.
fn put_at(alloc: Global, out: &mut Sheet, path: &str, tree: &Tree) {
    match RelPath::parse(alloc, path) {
        Ok(Some(path)) => put_found(out, &path, tree),
        Ok(None) => out.put("no path"),
        Err(Memory) => out.lose(),
    }
}

/// Adds what stands at a path of a stored tree, or that it is stored where no path is given.
fn put_stored(alloc: Global, out: &mut Sheet, row: &str, shelf: &MemoryShelf) {
    let (name, path) = halves(row);
    match shelf.top(name) {
        None => out.put("not stored"),
        Some(_) if path.is_empty() => out.put("stored"),
        Some(tree) => put_at(alloc, out, path, tree),
    }
}

/// Adds how many addresses the web was asked for, and each of them.
fn put_asked(out: &mut Sheet, asked: &[Text]) {
    out.number(asked.len() as u64);
    for address in asked {
        out.put(" ");
        out.put(address.as_str());
    }
}

/// How many entries the store was asked to make.
fn made(shelf: &MemoryShelf) -> usize {
    let calls = shelf.calls().as_slice().iter();
    calls.filter(|call| call.kind == CallKind::MakeTop).count()
}

/// Adds each read of the store: the offset, and how many bytes were asked for at most.
fn put_reads(out: &mut Sheet, shelf: &MemoryShelf) {
    for call in shelf.calls().as_slice() {
        if call.kind == CallKind::Read {
            out.number(call.offset);
            out.put(" ");
            out.number(u64::from(call.max));
            out.put(";");
        }
    }
}

/// How often a text stands in what was written.
fn times(text: &str, out: &MemorySink) -> usize {
    let written = std::str::from_utf8(out.bytes().as_slice()).unwrap_or("");
    written.matches(text).count()
}

/// Adds what is seen of the last launch.
fn put_launch(out: &mut Sheet, word: &str, rest: &str, objects: &Objects) {
    let Some(launch) = objects.spawner.launches().as_slice().last() else {
        return out.put("nothing");
    };
    match word {
        "variable" => put_variable(out, rest, launch),
        "folders" => put_folders(out, launch.dirs.as_slice()),
        "shims" => put_folders(out, launch.shims.as_slice()),
        _ => put_words(out, launch),
    }
}

/// Adds what is seen: the words, a variable, the folders or those of the shims of the last launch; how many were launched, asked of the web,
/// called of the store that was told last or made in it; the reads of it; what is stored there, or in the first; how often a text was written.
pub(crate) fn put_seen(alloc: Global, out: &mut Sheet, word: &str, rest: &str, objects: &Objects) {
    match word {
        "last" | "variable" | "folders" | "shims" => put_launch(out, word, rest, objects),
        "launched" => out.number(objects.spawner.launches().len() as u64),
        "asked" => put_asked(out, objects.web.asked()),
        "called" => out.number(objects.store().calls().len() as u64),
        "reads" => put_reads(out, objects.store()),
        "made" => out.number(made(objects.store()) as u64),
        "stored" => put_stored(alloc, out, rest, objects.store()),
        "first" => put_stored(alloc, out, rest, &objects.shelf),
        "times" => out.number(times(rest, &objects.out) as u64),
        _ => out.put("no question"),
    }
}
