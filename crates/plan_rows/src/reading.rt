//! What a paragraph asks for.
use std::alloc::Global;
use zi_outside::Vars;
use zi_text::{List, Memory, Text};

/// What is planned.
#[derive(Drop)]
pub(crate) struct Asked<'a> {
    pub vars: Vars,
    pub user: List<Text>,
    pub folders: &'a str,
    pub shims: List<Text>,
    pub inside: String,
}

/// The words of a line.
fn words_of(alloc: Global, line: &str) -> Result<List<Text>, Memory> {
    let mut words = List::new(alloc);
    for word in line.split_whitespace() {
        words.push(Text::from_str(alloc, word)?)?;
    }
    Ok(words)
}

/// Sets variables by the words of a line.
fn set_all(vars: &mut Vars, line: &str) -> Result<(), Memory> {
    for word in line.split_whitespace() {
        if let Some((name, value)) = word.split_once('=') {
            vars.set(name, value)?;
        }
    }
    Ok(())
}

/// What the lines behind the first ask for.
pub(crate) fn asked_in<'a>(alloc: Global, lines: &'a str) -> Result<Asked<'a>, Memory> {
    let mut asked = Asked {
        vars: Vars::new(alloc),
        user: List::new(alloc),
        folders: "",
        shims: List::new(alloc),
        inside: String::new(alloc),
    };
    for line in lines.lines() {
        if let Some(words) = line.strip_prefix("vars ") {
            set_all(&mut asked.vars, words)?;
        } else if let Some(words) = line.strip_prefix("user ") {
            asked.user = words_of(alloc, words)?;
        } else if let Some(words) = line.strip_prefix("folders ") {
            asked.folders = words;
        } else if let Some(words) = line.strip_prefix("shims ") {
            asked.shims = words_of(alloc, words)?;
        } else {
            asked.inside.push_str(line)?;
            asked.inside.push('\n')?;
        }
    }
    Ok(asked)
}
