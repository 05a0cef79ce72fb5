//! Bindings and dependencies as elements.
ghost use Rattle.std.specs.Prelude.{◌≡◌, ◌∷◌, [], ◌++◌, map, codes, IfOk, OnOk};
ghost use Rattle.zi_elements.specs.Forest.{element_view};
ghost use Rattle.zi_docout.specs.Elements.{Adds};
ghost use Rattle.zi_sels.specs.Written.{extra_attr, mode_attrs, kind_attrs, shim_elem, binding_elem, dep_elem};

use crate::elements::{put_unless, put_where_there};
use std::alloc::Global;
use zi_docout::{Attr, Element, Node, element, put_attr, put_child};
use zi_parts::{Binding, Dep, DepKind, Extra, Mode};
use zi_text::{List, Memory, Text};

// Adds what a binding adds.
fn put_extra(alloc: Global, attrs: &mut List<Attr>, extra: &Extra) -> Result<(), Memory>
    ensures { OnOk result (attrs.new ≡ attrs.old ++ extra_attr extra.now ∷ []) }
{
    match extra {
        Extra::Insert(path) => put_attr(alloc, attrs, "insert", path.as_str()),
        Extra::Value(text) => put_attr(alloc, attrs, "value", text.as_str()),
    }
}

// Adds where a binding adds, unless it is before the old value.
fn put_mode(alloc: Global, attrs: &mut List<Attr>, mode: Mode) -> Result<(), Memory>
    ensures { OnOk result (attrs.new ≡ attrs.old ++ mode_attrs mode) }
{
    match mode {
        Mode::Prepend => Ok(()),
        Mode::Append => put_attr(alloc, attrs, "mode", "append"),
        Mode::Replace => put_attr(alloc, attrs, "mode", "replace"),
    }
}

// A binding that makes a command known as a program of this name, as an element.
fn shim_element(alloc: Global, kind: &str, name: &Text, command: &Text) -> Result<Element, Memory>
    ensures { IfOk result (λ e. element_view e ≡ shim_elem kind.now name.now command.now) }
{
    let mut attrs = List::new(alloc);
    put_attr(alloc, &mut attrs, "name", name.as_str())?;
    put_unless(alloc, &mut attrs, "run", "command", command.as_str())?;
    element(alloc, kind, attrs, List::new(alloc))
}

// A binding as an element.
#[tactic(auto, unfolding(crate::specs::Written::binding_elem))]
fn binding_element(alloc: Global, binding: &Binding) -> Result<Element, Memory>
    ensures { IfOk result (λ e. element_view e ≡ binding_elem binding.now) }
{
    let mut attrs = List::new(alloc);
    match binding {
        Binding::Env {
            name,
            extra,
            mode,
            separator,
            default,
        } => {
            put_attr(alloc, &mut attrs, "name", name.as_str())?;
            put_extra(alloc, &mut attrs, extra)?;
            put_mode(alloc, &mut attrs, *mode)?;
            put_unless(alloc, &mut attrs, ":", "separator", separator.as_str())?;
            put_where_there(alloc, &mut attrs, "default", default)?;
            element(alloc, "environment", attrs, List::new(alloc))
        }
        Binding::ExecVar { name, command } => {
            shim_element(alloc, "executable-in-var", name, command)
        }
        Binding::ExecPath { name, command } => {
            shim_element(alloc, "executable-in-path", name, command)
        }
        Binding::Unbuilt { element: name } => {
            element(alloc, name.as_str(), attrs, List::new(alloc))
        }
    }
}

/// Adds bindings.
pub fn put_bindings(
    alloc: Global,
    children: &mut List<Node>,
    bindings: &[Binding],
) -> Result<(), Memory>
    ensures { OnOk result (Adds children.old children.new (map binding_elem bindings.now)) }
{
    for binding in bindings {
        put_child(children, binding_element(alloc, binding)?)?;
    }
    Ok(())
}

// Adds how a dependency is meant, unless it must be selected.
fn put_kind(alloc: Global, attrs: &mut List<Attr>, kind: DepKind) -> Result<(), Memory>
    ensures { OnOk result (attrs.new ≡ attrs.old ++ kind_attrs kind) }
{
    match kind {
        DepKind::Essential => Ok(()),
        DepKind::Recommended => put_attr(alloc, attrs, "importance", "recommended"),
        DepKind::Restricts => Ok(()),
    }
}

// A dependency as an element.
#[tactic(auto, unfolding(crate::specs::Written::dep_elem))]
fn dep_element(alloc: Global, dep: &Dep) -> Result<Element, Memory>
    ensures { IfOk result (λ e. element_view e ≡ dep_elem dep.now) }
{
    let mut attrs = List::new(alloc);
    put_attr(alloc, &mut attrs, "interface", dep.interface.as_str())?;
    put_kind(alloc, &mut attrs, dep.kind)?;
    let mut children = List::new(alloc);
    put_bindings(alloc, &mut children, dep.bindings.as_slice())?;
    element(alloc, "requires", attrs, children)
}

/// Adds dependencies.
pub fn put_deps(alloc: Global, children: &mut List<Node>, deps: &[Dep]) -> Result<(), Memory>
    ensures { OnOk result (Adds children.old children.new (map dep_elem deps.now)) }
{
    for dep in deps {
        put_child(children, dep_element(alloc, dep)?)?;
    }
    Ok(())
}
