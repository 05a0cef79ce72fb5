//! What the addresses in a feed mean: in a feed of the web joined to its own by the URL Standard, in a local one placed after
//! the feed's folder. The definition is `resolved` in specs/Address.antt.
//!
//! A local address is the feed's own up to its last slash and the text behind it, as one text; one loop over its parts keeps
//! those that are left in a list of lent pieces, and `..` takes the last away, so the work is linear (SettledLaws has the texts
//! that are settled as they are written, WalkLaws the list). The rest goes to the kit's `url`. Texts.antt has the small words about
//! texts that all crates of feeds use.
#![tactic(auto)]

mod address;

pub use address::{is_local, place, resolve};
