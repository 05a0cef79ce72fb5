//! The words of a chain.
ghost use Rattle.std.specs.Prelude.{◌≡◌, [], ◌∷◌, ◌++◌, Some, map, option_copied, IfOk, OnOk};
ghost use Rattle.zi_outside.specs.Vars.{value_of};
ghost use Rattle.zi_bind.specs.Answers.{Answers, Adds};
ghost use Rattle.zi_bind.specs.Expansion.{expanded};
ghost use Rattle.zi_plan.specs.Launches.{args, runner_args, path_text, link_words, chain_words, spoken_all};
ghost use Rattle.zi_plan.specs.Plans.{said};
ghost use Rattle.zi_plan.specs.Steps.{Says, link_seen};

use crate::PlanFault;
use crate::chain::Linked;
use std::alloc::Global;
use zi_bind::{BindFault, expand};
use zi_outside::Vars;
use zi_parts::{Runner, Word};
use zi_text::{List, Memory, Text};

// Adds texts, one after another.
fn put_all(texts: List<Text>, out: &mut List<Text>) -> Result<(), Memory>
    ensures { OnOk result (out.new ≡ out.old ++ texts) }
{
    for text in texts.into_vec() {
        out.push(text)?;
    }
    Ok(())
}

// Adds what a word stands for.
fn put_word(alloc: Global, word: &Word, vars: &Vars, out: &mut List<Text>) -> Result<(), BindFault>
    ensures { Adds (expanded (value_of vars.now) word.now) out.old result out.new }
{
    let texts = expand(alloc, word, vars)?;
    put_all(texts, out)?;
    Ok(())
}

// Adds what words stand for.
fn put_args(
    alloc: Global,
    words: &[Word],
    vars: &Vars,
    out: &mut List<Text>,
) -> Result<(), BindFault>
    ensures { Adds (spoken_all (value_of vars.now) (args words.now)) out.old result out.new }
{
    for word in words {
        match put_word(alloc, word, vars, out) {
            Ok(()) => {}
            Err(fault) => return Err(fault),
        }
    }
    Ok(())
}

// Adds the arguments of a runner.
fn put_runner_args(
    alloc: Global,
    runner: &Option<Runner>,
    vars: &Vars,
    out: &mut List<Text>,
) -> Result<(), BindFault>
    ensures { Adds (spoken_all (value_of vars.now) (runner_args runner.now)) out.old result out.new }
{
    match runner {
        Some(runner) => put_args(alloc, runner.words.as_slice(), vars, out),
        None => Ok(()),
    }
}

// A path in a folder, or as it is where there is none.
fn path_in(alloc: Global, folder: Option<&Text>, path: &Text) -> Result<Text, Memory>
    ensures { IfOk result (λ text. text ∷ [] ≡ path_text (option_copied folder.entry) (Some path.now)) }
{
    let Some(folder) = folder else {
        return path.copy(alloc);
    };
    let mut text = folder.copy(alloc)?;
    text.push_str("/")?;
    text.push_str(path.as_str())?;
    Ok(text)
}

// Adds a path, where there is one.
fn put_path(
    alloc: Global,
    folder: Option<&Text>,
    path: &Option<Text>,
    out: &mut List<Text>,
) -> Result<(), Memory>
    ensures { OnOk result (out.new ≡ out.old ++ path_text (option_copied folder.entry) path.now) }
{
    match path {
        Some(path) => out.push(path_in(alloc, folder, path)?),
        None => Ok(()),
    }
}

// Adds the words of a command of a chain.
fn put_link(
    alloc: Global,
    link: &Linked<'_>,
    vars: &Vars,
    out: &mut List<Text>,
) -> Result<(), BindFault>
    ensures { Adds (spoken_all (value_of vars.now) (link_words (link_seen link.now))) out.old result out.new }
{
    put_runner_args(alloc, &link.command.runner, vars, out)?;
    put_path(alloc, link.folder, &link.command.path, out)?;
    put_args(alloc, link.command.words.as_slice(), vars, out)
}

// What the words of a chain stand for: those of what runs a command come before its own.
fn chain_words(alloc: Global, links: &[Linked<'_>], vars: &Vars) -> Result<List<Text>, BindFault>
    ensures { Answers (spoken_all (value_of vars.now) (chain_words (map link_seen links.now))) result }
{
    let mut out = List::new(alloc);
    let mut left = links.len();
    while left > 0 {
        left -= 1;
        match put_link(alloc, &links[left], vars, &mut out) {
            Ok(()) => {}
            Err(fault) => return Err(fault),
        }
    }
    Ok(out)
}

// Adds the user's words as they stand.
fn put_user(alloc: Global, user: &[Text], out: &mut List<Text>) -> Result<(), Memory>
    ensures { OnOk result (out.new ≡ out.old ++ user.now) }
{
    for word in user {
        out.push(word.copy(alloc)?)?;
    }
    Ok(())
}

/// The words of a chain, and then the user's.
pub fn words(
    alloc: Global,
    links: &[Linked<'_>],
    vars: &Vars,
    user: &[Text],
) -> Result<List<Text>, PlanFault>
    ensures { Says (said user.now (spoken_all (value_of vars.now) (chain_words (map link_seen links.now)))) result }
{
    let mut out = match chain_words(alloc, links, vars) {
        Ok(out) => out,
        Err(BindFault::Memory) => return Err(PlanFault::Memory),
        Err(fault) => return Err(PlanFault::Bind(fault)),
    };
    put_user(alloc, user, &mut out)?;
    Ok(out)
}
