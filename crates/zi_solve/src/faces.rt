//! The interfaces of a universe as the decider takes them that has an order of its own: the variables of their candidates, and
//! of those that lead to them, by a dependency of their own or of one of their commands.
//! Nothing is promised of what is listed: it decides in which order candidates are tried, and no more.

use std::alloc::Global;
use zi_choice::Names;
use zi_inherited::Inherited;
use zi_numbering::Numbering;
use zi_parts::{Command, Dep, DepKind};
use zi_reach::Face;
use zi_text::{List, Memory};
use zi_universe::Candidate;

// The variables of an interface's candidates.
fn variables_of(alloc: Global, numbering: &Numbering, i: u32) -> Result<List<u32>, Memory> {
    let mut variables = List::new(alloc);
    for c in 0..numbering.candidates(i).len() as u32 {
        variables.push(numbering.number(i, c))?;
    }
    Ok(variables)
}

// The interfaces, to which nothing leads yet.
fn bare(alloc: Global, numbering: &Numbering) -> Result<Vec<Face>, Memory> {
    let mut faces = Vec::new(alloc);
    for i in 0..numbering.universe().interfaces().len() as u32 {
        faces.push(Face {
            variables: variables_of(alloc, numbering, i)?,
            wanted_by: List::new(alloc),
            root: i == 0,
        })?;
    }
    Ok(faces)
}

// A candidate leads along a dependency.
fn lead_along(names: &Names, x: u32, dep: &Dep, faces: &mut Vec<Face>) -> Result<(), Memory> {
    if dep.kind == DepKind::Restricts {
        return Ok(());
    }
    let Some(i) = names.number(&dep.interface) else {
        return Ok(());
    };
    let Some(face) = faces.get_mut(i as usize) else {
        return Ok(());
    };
    if face.wanted_by.as_slice().last() != Some(&x) {
        face.wanted_by.push(x)?;
    }
    Ok(())
}

// A candidate leads along some dependencies.
fn lead_along_all(
    names: &Names,
    x: u32,
    deps: &[Dep],
    faces: &mut Vec<Face>,
) -> Result<(), Memory> {
    for dep in deps {
        lead_along(names, x, dep, faces)?;
    }
    Ok(())
}

// A candidate leads along dependencies that are inherited.
fn lead_along_inherited(
    alloc: Global,
    names: &Names,
    x: u32,
    deps: &Inherited<Dep>,
    faces: &mut Vec<Face>,
) -> Result<(), Memory> {
    let pieces = deps.segments(alloc)?;
    for piece in pieces.as_slice() {
        lead_along_all(names, x, piece, faces)?;
    }
    Ok(())
}

// A candidate leads along what its command needs.
fn lead_by_command(
    names: &Names,
    x: u32,
    m: &Command,
    faces: &mut Vec<Face>,
) -> Result<(), Memory> {
    lead_along_all(names, x, m.deps.as_slice(), faces)?;
    match &m.runner {
        None => Ok(()),
        Some(runner) => lead_along(names, x, &runner.dep, faces),
    }
}

// A candidate leads along all that it may need.
fn lead_by(
    alloc: Global,
    names: &Names,
    x: u32,
    k: &Candidate,
    faces: &mut Vec<Face>,
) -> Result<(), Memory> {
    lead_along_inherited(alloc, names, x, &k.imp.deps, faces)?;
    for n in 0..k.imp.commands.len() {
        lead_by_command(names, x, k.imp.commands.at(n).as_ref(), faces)?;
    }
    Ok(())
}

// The candidates of an interface lead along all that they may need.
fn lead_from(
    alloc: Global,
    names: &Names,
    numbering: &Numbering,
    i: u32,
    faces: &mut Vec<Face>,
) -> Result<(), Memory> {
    let candidates = numbering.candidates(i);
    for c in 0..candidates.len() {
        let x = numbering.number(i, c as u32);
        lead_by(alloc, names, x, &candidates[c], faces)?;
    }
    Ok(())
}

/// The interfaces of a universe, in its order. The work is linear in the dependencies.
pub(crate) fn faces_of(
    alloc: Global,
    names: &Names,
    numbering: &Numbering,
) -> Result<Vec<Face>, Memory> {
    let mut faces = bare(alloc, numbering)?;
    for i in 0..numbering.universe().interfaces().len() as u32 {
        lead_from(alloc, names, numbering, i, &mut faces)?;
    }
    Ok(faces)
}
