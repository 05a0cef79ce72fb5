//! What lines tell: feeds, and the lines of a proof text.
use std::alloc::Global;
use zi_lines::{Sheet, halves};
use zi_outside::SureFeeds;
use zi_text::{List, Memory};

/// What stands before the inside of a feed.
const HEAD: &str =
    "<interface xmlns='http://zero-install.sourceforge.net/2004/injector/interface'>";

/// What was told so far.
#[derive(Drop)]
pub(crate) struct Told {
    pub feeds: SureFeeds,
    /// The address of the root; empty before the first feed.
    pub root: String,
    /// The lemmas and blocks of the proof text, a line each.
    pub proof: String,
    /// The address of the document whose lines are told, and those so far.
    uri: String,
    document: String,
}

impl Told {
    /// Nothing.
    pub(crate) fn new(alloc: Global) -> Told {
        Told {
            feeds: SureFeeds::new(alloc),
            root: String::new(alloc),
            proof: String::new(alloc),
            uri: String::new(alloc),
            document: String::new(alloc),
        }
    }

    /// Takes the bytes of a feed. The first one is the root's.
    fn take(&mut self, uri: &str, bytes: &[u8]) -> Result<(), Memory> {
        if self.root.is_empty() {
            self.root.push_str(uri)?;
        }
        self.feeds.put(uri, bytes)
    }

    /// Takes a feed: its address and what stands in its root.
    fn take_feed(&mut self, alloc: Global, row: &str) -> Result<(), Memory> {
        let (uri, inside) = halves(row);
        let mut text = String::new(alloc);
        put_feed(&mut text, inside)?;
        self.take(uri, text.as_bytes())
    }

    /// Takes the next line of a document.
    fn take_line(&mut self, line: &str) -> Result<(), Memory> {
        self.document.push_str(line)?;
        self.document.push('\n')?;
        if self.root.is_empty() {
            self.root.push_str(self.uri.as_str())?;
        }
        self.feeds.put(self.uri.as_str(), self.document.as_bytes())
    }

    /// Takes the next line of a proof text.
    fn take_step(&mut self, word: &str, rest: &str) -> Result<(), Memory> {
        self.proof.push_str(word)?;
        self.proof.push(' ')?;
        self.proof.push_str(rest)?;
        Ok(self.proof.push('\n')?)
    }

    /// Takes the address of the document whose lines come next.
    fn take_address(&mut self, uri: &str) -> Result<(), Memory> {
        Ok(self.uri.push_str(uri)?)
    }
}

/// Adds the document of a feed with this inside.
fn put_feed(text: &mut String, inside: &str) -> Result<(), Memory> {
    text.push_str(HEAD)?;
    text.push_str(inside)?;
    Ok(text.push_str("</interface>")?)
}

/// Takes what a line tells, and says whether it tells something.
pub(crate) fn tells(
    alloc: Global,
    out: &mut Sheet,
    word: &str,
    rest: &str,
    told: &mut Told,
) -> bool {
    match word {
        "#" => {}
        "feed" => out.needs(told.take_feed(alloc, rest)),
        "document" => out.needs(told.take_address(rest)),
        "|" => out.needs(told.take_line(rest)),
        "l" | "b" => out.needs(told.take_step(word, rest)),
        _ => return false,
    }
    true
}

/// Adds what words pick.
pub(crate) fn take_picks(picks: &mut List<Option<u32>>, words: &str) -> Result<(), Memory> {
    for word in words.split(' ') {
        picks.push(word.parse::<u32>().ok())?;
    }
    Ok(())
}
