//! The line and the column of a place.
ghost use Rattle.std.specs.Prelude.{◌≡◌, ◌++◌, ◌+◌, length, OnOk};
ghost use Rattle.std.specs.List.{count_by};
ghost use Rattle.std.specs.Prelude.{nat_eq};
ghost use Rattle.std.specs.Io.KnownBytes.{Appends};
ghost use Rattle.zi_hints.specs.Saying.{line};
ghost use Rattle.zi_hints.specs.Spot.{last_line, at_spot, spotted};

use crate::saying::{say, say_five};
use itoa::Buffer;
use std::io::{self, Write};

// The bytes behind the last line feed, or all.
fn last_line(bytes: &[u8]) -> &[u8]
    ensures { result.now ≡ last_line bytes.now bytes.now }
{
    let mut line = bytes;
    let mut left = bytes;
    while let Some((byte, behind)) = left.split_first() {
        if *byte == b'\n' {
            line = behind;
        }
        left = behind;
    }
    line
}

// How many line feeds there are.
fn line_feeds(bytes: &[u8]) -> usize
    ensures { result ≡ count_by (λ b. nat_eq b 10) bytes.now }
{
    bytes.iter().filter(|b| **b == b'\n').count()
}

// Writes a hint of a fault behind these bytes of a document.
#[tactic(auto, unfolding(crate::specs::Spot::at_spot))]
fn say_behind<W: Write>(front: &[u8], fault: &str, writer: &mut W) -> io::Result<()>
    ensures { OnOk result (Appends (W.contents writer.old) (W.contents writer.new) (line (at_spot front.now fault.now))) }
{
    let mut lines = Buffer::new();
    let mut columns = Buffer::new();
    let row = lines.format(line_feeds(front) as u128 + 1);
    let column = columns.format(last_line(front).len() as u128 + 1);
    say_five(fault, ": line ", row, ", column ", column, writer)
}

/// Writes a hint of a fault at a place of a document, in bytes from 0: with its line and its column, both from 1, the column in
/// bytes, where the document is so long.
pub fn say_at<W: Write>(document: &[u8], place: u64, fault: &str, writer: &mut W) -> io::Result<()>
    ensures { OnOk result (Appends (W.contents writer.old) (W.contents writer.new) (line (spotted document.now place fault.now))) }
{
    match document.get(..place as usize) {
        Some(front) => say_behind(front, fault, writer),
        None => say(fault, writer),
    }
}
