//! What words ask for, or the index at which they stop being right.
use crate::asking::take_words;
use std::alloc::Global;
use zi_edge::feed_file;
use zi_lines::Sheet;
use zi_policy::{Override, Policy};
use zi_text::{List, Memory, Text};
use zi_version::{Range, Version};
use zi_words::{Address, Ask, Request, Wanted, WordsFault};

/// Adds the texts with commas between them, in brackets.
fn put_texts(out: &mut Sheet, texts: &[Text]) {
    out.put("[");
    for (i, text) in texts.iter().enumerate() {
        out.put(if i > 0 { "," } else { "" });
        out.put(text.as_str());
    }
    out.put("]");
}

/// Adds whether a range admits the version of a text.
fn put_admits(alloc: Global, out: &mut Sheet, range: &Range, text: &str) {
    if let Ok(version) = Version::parse(alloc, text) {
        out.put(if range.admits(&version) {
            " true"
        } else {
            " false"
        });
    }
}

/// Adds the limits: the address of each, and which of the versions 1 and 2 it admits.
fn put_limits(alloc: Global, out: &mut Sheet, all: &[Wanted]) {
    for wanted in all {
        out.put(wanted.interface.as_str());
        put_admits(alloc, out, &wanted.range, "1");
        put_admits(alloc, out, &wanted.range, "2");
        out.put(";");
    }
}

/// Adds the ratings.
fn put_ratings(out: &mut Sheet, all: &[Override]) {
    for rated in all {
        out.put(rated.interface.as_str());
        out.put(" ");
        out.put(rated.id.as_str());
        out.put(" ");
        out.value(&rated.stability);
        out.put(";");
    }
}

/// Adds the policy.
fn put_policy(out: &mut Sheet, policy: &Policy) {
    out.put(policy.os.as_str());
    out.put(" ");
    out.put(policy.machine.as_str());
    out.put(" ");
    put_texts(out, policy.langs.as_slice());
    out.put(" ");
    out.value(&policy.level);
    out.put(" ");
    out.value(&policy.network);
    out.put(" ");
    put_texts(out, policy.uses.as_slice());
    out.put(" [");
    put_ratings(out, policy.overrides.as_slice());
    out.put("]");
}

/// Adds a command; `-` where there is none.
fn put_command(out: &mut Sheet, command: &Option<Text>) {
    match command {
        Some(command) => out.put(command.as_str()),
        None => out.put("-"),
    }
}

/// Adds the fields of what is asked, in their order.
fn put_ask(alloc: Global, out: &mut Sheet, ask: &Ask) {
    out.put(ask.root.as_str());
    out.put(" ");
    put_command(out, &ask.command);
    out.put(" [");
    put_limits(alloc, out, ask.limits.as_slice());
    out.put("] ");
    put_policy(out, &ask.policy);
    out.put(" ");
    out.value(&ask.search);
}

/// Adds a word with a text and a blank.
fn put_named(out: &mut Sheet, word: &str, text: &Text) {
    out.put(word);
    out.put(" ");
    out.put(text.as_str());
    out.put(" ");
}

/// Adds a request that asks for a root.
fn put_rooted(alloc: Global, out: &mut Sheet, request: &Request) {
    match request {
        Request::Select { ask, proof } => {
            put_ask(alloc, out, ask);
            out.put(if *proof { " proof" } else { "" });
        }
        Request::Refute { ask, proof } => {
            put_named(out, "refute", proof);
            put_ask(alloc, out, ask);
        }
        Request::Download { ask } => {
            out.put("download ");
            put_ask(alloc, out, ask);
        }
        Request::Why { ask } => {
            out.put("why ");
            put_ask(alloc, out, ask);
        }
        Request::Run { ask, user } => {
            out.put("run ");
            put_texts(out, user.as_slice());
            out.put(" ");
            put_ask(alloc, out, ask);
        }
        Request::Check { ask, sels, proof } => {
            put_named(out, "check", sels);
            out.put(proof.as_str());
            out.put(" ");
            put_ask(alloc, out, ask);
        }
        _ => out.put("no root"),
    }
}

/// Adds a request.
fn put_asked(alloc: Global, out: &mut Sheet, request: &Request) {
    match request {
        Request::Launch { file, user } => {
            put_named(out, "launch", file);
            put_texts(out, user.as_slice());
        }
        Request::Show { file } => {
            out.put("show ");
            out.put(file.as_str());
        }
        Request::Manifest { algorithm, name } => {
            out.put("manifest ");
            out.value(algorithm);
            out.put(" ");
            out.put(name.as_str());
        }
        Request::Add { name, files } => {
            out.put("add ");
            out.made(name.text(alloc));
            out.put(" ");
            put_texts(out, files.as_slice());
        }
        Request::Verify { name } => {
            out.put("verify ");
            out.made(name.text(alloc));
        }
        Request::Purge { files } => {
            out.put("purge ");
            put_texts(out, files.as_slice());
        }
        Request::Names => out.put("names"),
        Request::Demo { n } => {
            out.put("demo ");
            out.value(n);
        }
        Request::Help => out.put("help"),
        Request::Version => out.put("version"),
        _ => put_rooted(alloc, out, request),
    }
}

/// Adds what these words ask for, or the index at which they stop being right.
fn put_read(alloc: Global, out: &mut Sheet, words: &[Text]) {
    match Request::read(alloc, words) {
        Ok(request) => put_asked(alloc, out, &request),
        Err(WordsFault::Usage { index }) => out.value(&index),
        Err(WordsFault::Memory) => out.lose(),
    }
}

/// Adds what words ask for, or the index at which they stop being right.
pub(crate) fn put_request(alloc: Global, out: &mut Sheet, row: &str) {
    let mut words = List::new(alloc);
    out.needs(take_words(alloc, &mut words, row));
    put_read(alloc, out, words.as_slice());
}

/// Adds what a root alone asks for, without options.
fn put_root(alloc: Global, out: &mut Sheet, root: Address) {
    match Ask::without_options(alloc, root) {
        Ok(ask) => put_ask(alloc, out, &ask),
        Err(Memory) => out.lose(),
    }
}

/// Adds what an address alone asks for, without options; of what is none, nothing.
pub(crate) fn put_bare(alloc: Global, out: &mut Sheet, address: &str) {
    let mut text = Text::new(alloc);
    out.needs(text.push_str(address));
    if let Some(root) = Address::new(text) {
        put_root(alloc, out, root);
    }
}

/// Adds the name of the file that holds what is at an address.
pub(crate) fn put_file(alloc: Global, out: &mut Sheet, address: &str) {
    match feed_file(alloc, address) {
        Ok(name) => out.put(name.as_str()),
        Err(Memory) => out.lose(),
    }
}
