//! The feeds of the demonstration.
use std::alloc::Global;
use zi_demo::universe_of;
use zi_lines::{Sheet, halves};
use zi_outside::{Feeds, FeedsFault, Got, SureFeeds};
use zi_text::Memory;

/// Adds what was got: bytes, or that there are none.
fn put_got(out: &mut Sheet, got: Result<Got, FeedsFault>, bytes: &[u8]) {
    match got {
        Ok(Got::Held) => out.put(std::str::from_utf8(bytes).unwrap_or("no text")),
        Ok(_) => out.put("absent"),
        Err(_fault) => out.lose(),
    }
}

/// Adds the feed at an address.
fn put_at(alloc: Global, out: &mut Sheet, feeds: &mut SureFeeds, uri: &str) {
    let mut bytes = Vec::new(alloc);
    let got = feeds.get(uri, 1_000_000, &mut bytes);
    put_got(out, got, bytes.as_slice());
}

/// Adds a feed of the demonstration, where the row is the demonstration's number and the feed's address.
pub(crate) fn put_feed(alloc: Global, out: &mut Sheet, row: &str) {
    let (number, uri) = halves(row);
    let number = number.parse::<u64>().unwrap_or(0);
    if number < 1 || number > 1000 {
        return out.put("no demonstration");
    }
    match universe_of(alloc, number) {
        Ok(mut feeds) => put_at(alloc, out, &mut feeds, uri),
        Err(Memory) => out.lose(),
    }
}
