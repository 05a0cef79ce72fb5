//! The launch or the shims that selections mean, or the fault.
use crate::reading::{Asked, asked_in};
use std::alloc::Global;
use std::fmt::Write;
use zi_bind::BindFault;
use zi_outside::{Dir, Launch};
use zi_plan::{PlanFault, ShimCall, plan, plan_before_shims, shim_words};
use zi_sels::{Selection, Selections, read};
use zi_text::{List, Memory, Text};

const NS: &str = "http://zero-install.sourceforge.net/2004/injector/interface";

/// Adds why there is no plan.
fn put_fault(out: &mut String, fault: &PlanFault) -> Result<(), Memory> {
    match fault {
        PlanFault::NoSelection { interface } => {
            Ok(writeln!(out, "NoSelection {}", interface.as_str())?)
        }
        PlanFault::NoCommand { interface, command } => {
            Ok(writeln!(out, "NoCommand {} {}", interface.as_str(), command.as_str())?)
        }
        PlanFault::NoPath { interface, command } => {
            Ok(writeln!(out, "NoPath {} {}", interface.as_str(), command.as_str())?)
        }
        PlanFault::Loop { interface, command } => {
            Ok(writeln!(out, "Loop {} {}", interface.as_str(), command.as_str())?)
        }
        PlanFault::Bind(BindFault::Unset { name }) => Ok(writeln!(out, "Unset {}", name.as_str())?),
        PlanFault::Bind(BindFault::BadDollar { place }) => Ok(writeln!(out, "BadDollar {place}")?),
        PlanFault::Bind(BindFault::Memory) => Err(Memory),
        PlanFault::Unbuilt { element } => Ok(writeln!(out, "Unbuilt {}", element.as_str())?),
        PlanFault::BadPath { text } => Ok(writeln!(out, "BadPath {}", text.as_str())?),
        PlanFault::NoFolder { interface } => Ok(writeln!(out, "NoFolder {}", interface.as_str())?),
        PlanFault::Memory => Err(Memory),
    }
}

/// Adds words, each on a line.
fn put_words(out: &mut String, words: &List<Text>) -> Result<(), Memory> {
    for word in words.as_slice() {
        writeln!(out, "word {}", word.as_str())?;
    }
    Ok(())
}

/// Adds folders, each on a line.
fn put_dirs(out: &mut String, kind: &str, dirs: &List<Dir>) -> Result<(), Memory> {
    for dir in dirs.as_slice() {
        writeln!(
            out,
            "{kind} {} {}",
            dir.interface.as_str(),
            dir.folder.as_str()
        )?;
    }
    Ok(())
}

/// Adds a launch.
fn put_launch(out: &mut String, launch: &Launch) -> Result<(), Memory> {
    put_words(out, &launch.words)?;
    for i in 0..launch.vars.len() {
        writeln!(
            out,
            "var {}={}",
            launch.vars.name_at(i).as_str(),
            launch.vars.value_at(i).as_str()
        )?;
    }
    put_dirs(out, "dir", &launch.dirs)?;
    put_dirs(out, "shim", &launch.shims)
}

/// Adds the calls of shims.
fn put_calls(out: &mut String, calls: &List<ShimCall>) -> Result<(), Memory> {
    for call in calls.as_slice() {
        writeln!(
            out,
            "call {} {} as {}",
            call.interface.as_str(),
            call.command.as_str(),
            call.name.as_str()
        )?;
        put_words(out, &call.words)?;
    }
    Ok(())
}

/// A folder for each selection.
fn folders_of(
    alloc: Global,
    items: &[Selection],
    words: &str,
) -> Result<List<Option<Text>>, Memory> {
    let mut folders = List::new(alloc);
    let mut words = words.split_whitespace();
    for _ in items {
        folders.push(match words.next() {
            None | Some("-") => None,
            Some(word) => Some(Text::from_str(alloc, word)?),
        })?;
    }
    Ok(folders)
}

/// Adds what these selections mean.
fn put_meant(
    alloc: Global,
    out: &mut String,
    kind: &str,
    sels: &Selections,
    asked: &Asked<'_>,
) -> Result<(), Memory> {
    let items = sels.items.as_slice();
    let folders = folders_of(alloc, items, asked.folders)?;
    let folders = folders.as_slice();
    let user = asked.user.as_slice();
    if folders.len() != items.len() {
        return Ok(());
    }
    if kind == "shims" {
        return match shim_words(alloc, sels, &asked.vars, folders) {
            Ok(calls) => put_calls(out, &calls),
            Err(fault) => put_fault(out, &fault),
        };
    }
    let launch = if kind == "before" {
        plan_before_shims(alloc, sels, &asked.vars, user, folders)
    } else {
        plan(
            alloc,
            sels,
            &asked.vars,
            user,
            folders,
            asked.shims.as_slice(),
        )
    };
    match launch {
        Ok(launch) => put_launch(out, &launch),
        Err(fault) => put_fault(out, &fault),
    }
}

/// Adds the answer to a paragraph.
pub(crate) fn put_answer(alloc: Global, out: &mut String, paragraph: &str) -> Result<(), Memory> {
    let Some((kind, lines)) = paragraph.split_once('\n') else {
        return Ok(());
    };
    if kind.starts_with('#') {
        return Ok(());
    }
    let asked = asked_in(alloc, lines)?;
    let document = format!(in alloc;
        "<selections interface='/a' command='run' xmlns='{NS}'>{}</selections>",
        asked.inside.as_str()
    )?;
    match read(alloc, document.as_bytes()) {
        Ok(sels) => put_meant(alloc, out, kind, &sels, &asked),
        Err(_) => Ok(out.push_str("no selections\n")?),
    }
}
