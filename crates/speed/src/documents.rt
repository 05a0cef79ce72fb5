//! Reads standard input as a document, and prints `ok`, or the number of the kind of its fault and the place. It takes no word.
//! It reads all bytes before it begins, so its time is that of reading them and of the tree.
//! `bench/documents.py` holds it against Python's expat.

use crate::line;
use std::io::{self, Read};
use zi_doc::{DocFault, read};

pub fn told(rt: &HostRuntime, word: &str) -> io::Result<Option<Vec<u8>>> {
    if !word.is_empty() {
        return Ok(None);
    }
    let mut bytes = Vec::new(rt.alloc());
    rt.stdin().read_to_end(&mut bytes)?;
    let told = match read(rt.alloc(), bytes.as_slice()) {
        Ok(_) => line(rt.alloc(), "ok")?,
        Err(DocFault::Bad { kind, place }) => {
            let told = format!(in rt.alloc(); "{} {place}", kind.number())?;
            line(rt.alloc(), told.as_str())?
        }
        Err(DocFault::Memory) => line(rt.alloc(), "out of memory")?,
    };
    Ok(Some(told))
}
