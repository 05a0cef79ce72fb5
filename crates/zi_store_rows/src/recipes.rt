//! Ways to fetch that no feed says, and inputs that are made to cost much. Other ways to fetch are rows of what the program answers.
use std::alloc::Global;
use std::test::Fail;
use zi_outside::{Got, SureWeb, Web, WebFault};
use zi_parts::{Method, Step};
use zi_recipe::{RecipeFault, make_tree};
use zi_text::{List, Memory, Text};
use zi_tree::{RelPath, TreeLimit};

/// The path of a text; the root where it is none.
fn path(alloc: Global, text: &str) -> Result<RelPath, Memory> {
    match RelPath::parse(alloc, text)? {
        Some(path) => Ok(path),
        None => Ok(RelPath::root(alloc)),
    }
}

/// Adds a step that fetches a file of so many bytes.
fn take_file(
    alloc: Global,
    m: &mut Method,
    href: &str,
    size: u64,
    dest: &str,
) -> Result<(), Memory> {
    let dest = path(alloc, dest)?;
    let href = Text::from_str(alloc, href)?;
    m.steps.push(Step::File {
        href,
        size,
        dest,
        exec: false,
    })
}

/// Adds a step that renames.
fn take_rename(alloc: Global, m: &mut Method, source: &str, dest: &str) -> Result<(), Memory> {
    let source = path(alloc, source)?;
    let dest = path(alloc, dest)?;
    m.steps.push(Step::Rename { source, dest })
}

/// No step.
fn no_steps(alloc: Global) -> Method {
    Method {
        steps: List::new(alloc),
    }
}

/// What is answered over a web that holds an empty file `none`, and `a` with three bytes.
fn answer(alloc: Global, m: &Method) -> Result<usize, RecipeFault> {
    let mut web = SureWeb::new(alloc);
    web.put("none", b"")?;
    web.put("a", b"abc")?;
    Ok(make_tree(alloc, m, &mut web)?.len())
}

#[test]
fn the_top_is_there(rt: HostRuntime) -> Result<(), Fail> {
    let mut m = no_steps(rt.alloc());
    take_file(rt.alloc(), &mut m, "a", 3, ".")?;
    assert!(rt; matches!(answer(rt.alloc(), &m), Err(RecipeFault::Overlap { .. })));
    Ok(())
}

/// A web that has no end anywhere, and notes the greatest number of bytes that it was asked for.
#[derive(Drop)]
struct EndlessWeb {
    most: u64,
}

impl Web for EndlessWeb {
    ghost use Rattle.std.specs.Prelude.{None, []};

    ghost seen = { λ _. record { told = None; faults = 0; plan = [] } };

    fn get(&mut self, _href: &str, limit: u64, _into: &mut Vec<u8>) -> Result<Got, WebFault> {
        self.most = self.most.max(limit);
        Ok(Got::TooLong)
    }
}

#[test]
fn an_endless_web_is_asked_for_what_is_said(rt: HostRuntime) -> Result<(), Fail> {
    let mut web = EndlessWeb { most: 0 };
    let mut m = no_steps(rt.alloc());
    take_file(rt.alloc(), &mut m, "a", 3, "x")?;
    let fault = make_tree(rt.alloc(), &m, &mut web);
    assert!(rt;
        matches!(
            fault,
            Err(RecipeFault::WrongSize {
                said: 3,
                got: 4,
                ..
            })
        )
    );
    assert_eq!(rt; web.most, 3);
    Ok(())
}

/// Adds so many folders to a path, and a name.
fn take_folders(dest: &mut Text, folders: usize) -> Result<(), Memory> {
    for _ in 0..folders {
        dest.push_str("a/")?;
    }
    dest.push_str("x")
}

/// Adds a step that fetches `none` to a place in so many folders, one in another.
fn take_deep(alloc: Global, m: &mut Method, folders: usize) -> Result<(), Memory> {
    let mut dest = Text::new(alloc);
    take_folders(&mut dest, folders)?;
    take_file(alloc, m, "none", 0, dest.as_str())
}

/// The limit that is passed by a place in so many folders.
fn passed(alloc: Global, folders: usize) -> Result<Option<TreeLimit>, Memory> {
    let mut m = no_steps(alloc);
    take_deep(alloc, &mut m, folders)?;
    match answer(alloc, &m) {
        Err(RecipeFault::TooLarge { what, .. }) => Ok(Some(what)),
        _ => Ok(None),
    }
}

#[test]
fn folders_one_in_another(rt: HostRuntime) -> Result<(), Fail> {
    let alloc = rt.alloc();
    assert_eq!(rt; passed(alloc, 64)?, None);
    assert_eq!(rt; passed(alloc, 65)?, Some(TreeLimit::Depth));
    assert_eq!(rt; passed(alloc, 99_999)?, Some(TreeLimit::Depth));
    assert_eq!(rt; passed(alloc, 100_000)?, Some(TreeLimit::Nodes));
    Ok(())
}

#[test]
fn two_million_parts(rt: HostRuntime) -> Result<(), Fail> {
    assert_eq!(rt; passed(rt.alloc(), 2_000_000)?, Some(TreeLimit::Nodes));
    Ok(())
}

/// Adds so many times two steps that undo one another.
fn take_undone(alloc: Global, m: &mut Method, times: usize) -> Result<(), Memory> {
    for _ in 0..times {
        take_rename(alloc, m, "a", "b")?;
        take_rename(alloc, m, "b", "a")?;
    }
    Ok(())
}

#[test]
fn steps_that_undo_one_another(rt: HostRuntime) -> Result<(), Fail> {
    let mut m = no_steps(rt.alloc());
    take_deep(rt.alloc(), &mut m, 60_000)?;
    take_undone(rt.alloc(), &mut m, 20_000)?;
    m.steps.push(Step::Remove {
        path: path(rt.alloc(), "b")?,
    })?;
    assert!(rt; matches!(answer(rt.alloc(), &m), Err(RecipeFault::NoPath { .. })));
    Ok(())
}
