//! What lines tell: the start and end tags of open elements, and a formula.
use std::alloc::Global;
use zi_formula::{Constraints, Formula, Lit};
use zi_lines::{Sheet, halves, take_numbers};
use zi_names::{Entered, Raw, Scopes, Started};
use zi_text::{List, Memory, Text};

/// What was told so far.
#[derive(Drop)]
pub(crate) struct Told {
    pub scopes: Scopes,
    pub formula: Formula,
}

impl Told {
    /// No open element, no variable, no constraint.
    pub(crate) fn new(alloc: Global) -> Result<Told, Memory> {
        Ok(Told {
            scopes: Scopes::new(alloc)?,
            formula: Formula {
                variables: 0,
                constraints: Constraints::new(alloc),
            },
        })
    }
}

/// The literal of a number: a variable, or behind `-` its opposite.
fn lit_of(word: &str) -> Lit {
    let digits = word.strip_prefix('-');
    Lit {
        variable: digits.unwrap_or(word).parse::<u32>().unwrap_or(0),
        positive: digits.is_none(),
    }
}

/// Adds the literals of numbers.
pub(crate) fn take_lits(lits: &mut List<Lit>, row: &str) -> Result<(), Memory> {
    for word in row.split_whitespace() {
        lits.push(lit_of(word))?;
    }
    Ok(())
}

/// Takes a clause of these literals.
fn take_clause(alloc: Global, formula: &mut Formula, row: &str) -> Result<(), Memory> {
    let mut lits = List::new(alloc);
    take_lits(&mut lits, row)?;
    formula.constraints.push_clause(lits.as_slice())
}

/// Takes a group of which at most one is true.
fn take_group(alloc: Global, formula: &mut Formula, row: &str) -> Result<(), Memory> {
    let mut numbers = List::new(alloc);
    take_numbers(&mut numbers, row)?;
    formula.constraints.push_group(numbers.as_slice())
}

/// Takes what a line tells, and says whether it tells something.
pub(crate) fn tells(
    alloc: Global,
    out: &mut Sheet,
    word: &str,
    rest: &str,
    told: &mut Told,
) -> bool {
    match word {
        "#" => {}
        "leave" => told.scopes.leave(),
        "variables" => told.formula.variables = rest.parse::<u32>().unwrap_or(0),
        "clause" => out.needs(take_clause(alloc, &mut told.formula, rest)),
        "group" => out.needs(take_group(alloc, &mut told.formula, rest)),
        _ => return false,
    }
    true
}

/// An attribute of a start tag: a name and behind `=` its value.
fn raw_of(alloc: Global, word: &str) -> Result<Raw, Memory> {
    let (name, value) = word.split_once('=').unwrap_or((word, ""));
    let mut raw = Raw {
        name: Text::new(alloc),
        value: Text::new(alloc),
    };
    raw.name.push_str(name)?;
    raw.value.push_str(value)?;
    Ok(raw)
}

/// Adds the attributes of a start tag.
fn take_raw(alloc: Global, all: &mut List<Raw>, row: &str) -> Result<(), Memory> {
    for word in row.split_whitespace() {
        all.push(raw_of(alloc, word)?)?;
    }
    Ok(())
}

/// Adds a name, as `{address}name`.
fn put_name(out: &mut Sheet, space: &Text, name: &Text) {
    out.put("{");
    out.put(space.as_str());
    out.put("}");
    out.put(name.as_str());
}

/// Adds the name and the attributes of a start tag.
fn put_started(out: &mut Sheet, tag: &Started) {
    put_name(out, &tag.space, &tag.name);
    for a in tag.attrs.as_slice() {
        out.put(" ");
        put_name(out, &a.space, &a.name);
        out.put("=");
        out.put(a.value.as_str());
    }
}

/// Adds what is said of a start tag.
fn put_entered(out: &mut Sheet, entered: &Entered) {
    match entered {
        Entered::BadPrefix => out.put("bad prefix"),
        Entered::Repeated => out.put("repeated"),
        Entered::Started(tag) => put_started(out, tag),
    }
}

/// Adds what is said of a start tag of this name and these attributes.
fn put_opened(alloc: Global, out: &mut Sheet, told: &mut Told, name: &str, raw: List<Raw>) {
    match told.scopes.enter(alloc, name, raw) {
        Ok(entered) => put_entered(out, &entered),
        Err(Memory) => out.lose(),
    }
}

/// Adds what an element is named, as `{address}name`, and its attributes with their values; or what is wrong with its names. It is open from
/// then on, up to `leave`.
pub(crate) fn put_tag(alloc: Global, out: &mut Sheet, row: &str, told: &mut Told) {
    let (name, attributes) = halves(row);
    let mut raw = List::new(alloc);
    out.needs(take_raw(alloc, &mut raw, attributes));
    put_opened(alloc, out, told, name, raw);
}
