//! Commands as elements, with their arguments and what runs them.
ghost use Rattle.std.specs.Prelude.{◌≡◌, ◌++◌, map, option_map, IfOk, OnOk};
ghost use Rattle.zi_elements.specs.Forest.{element_view};
ghost use Rattle.zi_docout.specs.Elements.{Adds};
ghost use Rattle.zi_reading.specs.Words.{optional};
ghost use Rattle.zi_sels.specs.Written.{command_wanted, arg_elem, word_elem, runner_elem, unbuilt_elem, command_elem};

use crate::bindings::{put_bindings, put_deps};
use crate::elements::{arg_element, put_unless, put_where_there};
use std::alloc::Global;
use zi_docout::{Element, Node, element, put_attr, put_child};
use zi_parts::{Command, Runner, Word};
use zi_text::{List, Memory, Text};

// Adds arguments.
fn put_args(alloc: Global, children: &mut List<Node>, args: &[Text]) -> Result<(), Memory>
    ensures { OnOk result (Adds children.old children.new (map arg_elem args.now)) }
{
    for arg in args {
        put_child(children, arg_element(alloc, arg)?)?;
    }
    Ok(())
}

// An argument, or arguments that are repeated, as an element.
#[tactic(auto, unfolding(crate::specs::Written::word_elem))]
fn word_element(alloc: Global, word: &Word) -> Result<Element, Memory>
    ensures { IfOk result (λ e. element_view e ≡ word_elem word.now) }
{
    match word {
        Word::Arg(text) => arg_element(alloc, text),
        Word::ForEach {
            item_from,
            separator,
            args,
        } => {
            let mut attrs = List::new(alloc);
            put_attr(alloc, &mut attrs, "item-from", item_from.as_str())?;
            put_unless(alloc, &mut attrs, ":", "separator", separator.as_str())?;
            let mut children = List::new(alloc);
            put_args(alloc, &mut children, args.as_slice())?;
            element(alloc, "for-each", attrs, children)
        }
    }
}

// Adds a command's arguments.
fn put_words(alloc: Global, children: &mut List<Node>, words: &[Word]) -> Result<(), Memory>
    ensures { OnOk result (Adds children.old children.new (map word_elem words.now)) }
{
    for word in words {
        put_child(children, word_element(alloc, word)?)?;
    }
    Ok(())
}

// The command that a runner names.
fn command_wanted<'a>(runner: &'a Runner) -> &'a str
    ensures { result.now ≡ command_wanted runner.now }
{
    match runner.dep.commands.as_slice().first() {
        Some(name) => name.as_str(),
        None => "run",
    }
}

// What runs a command, as an element.
#[tactic(auto, unfolding(crate::specs::Written::runner_elem))]
fn runner_element(alloc: Global, runner: &Runner) -> Result<Element, Memory>
    ensures { IfOk result (λ e. element_view e ≡ runner_elem runner.now) }
{
    let mut attrs = List::new(alloc);
    put_attr(
        alloc,
        &mut attrs,
        "interface",
        runner.dep.interface.as_str(),
    )?;
    put_attr(alloc, &mut attrs, "command", command_wanted(runner))?;
    let mut children = List::new(alloc);
    put_bindings(alloc, &mut children, runner.dep.bindings.as_slice())?;
    put_words(alloc, &mut children, runner.words.as_slice())?;
    element(alloc, "runner", attrs, children)
}

// Adds what runs a command, where something does.
fn put_runner(
    alloc: Global,
    children: &mut List<Node>,
    runner: &Option<Runner>,
) -> Result<(), Memory>
    ensures { OnOk result (Adds children.old children.new (optional (option_map runner_elem runner.now))) }
{
    match runner {
        None => Ok(()),
        Some(runner) => put_child(children, runner_element(alloc, runner)?),
    }
}

// Adds the element that isn't built, where there is one.
fn put_unbuilt(
    alloc: Global,
    children: &mut List<Node>,
    unbuilt: &Option<Text>,
) -> Result<(), Memory>
    ensures { OnOk result (Adds children.old children.new (optional (option_map unbuilt_elem unbuilt.now))) }
{
    match unbuilt {
        None => Ok(()),
        Some(name) => {
            let unbuilt = element(alloc, name.as_str(), List::new(alloc), List::new(alloc))?;
            put_child(children, unbuilt)
        }
    }
}

// A command as an element.
#[tactic(auto, unfolding(crate::specs::Written::command_elem))]
fn command_element(alloc: Global, command: &Command) -> Result<Element, Memory>
    ensures { IfOk result (λ e. element_view e ≡ command_elem command.now) }
{
    let mut attrs = List::new(alloc);
    put_attr(alloc, &mut attrs, "name", command.name.as_str())?;
    put_where_there(alloc, &mut attrs, "path", &command.path)?;
    let mut children = List::new(alloc);
    put_bindings(alloc, &mut children, command.bindings.as_slice())?;
    put_unbuilt(alloc, &mut children, &command.unbuilt)?;
    put_deps(alloc, &mut children, command.deps.as_slice())?;
    put_words(alloc, &mut children, command.words.as_slice())?;
    put_runner(alloc, &mut children, &command.runner)?;
    element(alloc, "command", attrs, children)
}

/// Adds commands.
pub fn put_commands(
    alloc: Global,
    children: &mut List<Node>,
    commands: &[Command],
) -> Result<(), Memory>
    ensures { OnOk result (Adds children.old children.new (map command_elem commands.now)) }
{
    for command in commands {
        put_child(children, command_element(alloc, command)?)?;
    }
    Ok(())
}
