//! The names of the files in which a folder of feeds keeps what is at web addresses.
ghost use Rattle.std.specs.Prelude.{◌≡◌, IfOk};
ghost use Rattle.zi_edge.specs.FileName.{file_name};

use percent_encoding::{AsciiSet, NON_ALPHANUMERIC, ascii_set, utf8_percent_encode};
use std::alloc::Global;
use zi_text::{Memory, Text};

// Letters, digits, `-`, `.` and `_` stand as they are.
const ESCAPED: AsciiSet = ascii_set!(NON_ALPHANUMERIC.remove(b'-').remove(b'.').remove(b'_'));

/// The name of the file in which a folder of feeds keeps what is at a web address: the address with each byte but ASCII
/// letters, digits, `-`, `.` and `_` as `%` and its two upper-case hexadecimal digits (RFC 3986, section 2.1). No two addresses
/// have one file (`laws::files_differ`). Memory is its one refusal.
#[tactic(auto, using(crate::proofs::FileNameLaws::file_name_is))]
pub fn feed_file(alloc: Global, uri: &str) -> Result<Text, Memory>
    ensures { IfOk result (λ name. name ≡ file_name uri.now) }
{
    let mut name = String::new(alloc);
    utf8_percent_encode(uri, ESCAPED).append_to(&mut name)?;
    let name = Text::from_str(alloc, name.as_str())?;
    Ok(name)
}
