//! Copies of what is selected: dependencies without what they restrict, and what stands beside them; texts of attributes.
ghost use Rattle.std.specs.Prelude.{◌≡◌, option_map, IfOk};
ghost use Rattle.zi_elements.specs.Forest.{attribute, element_view};
ghost use Rattle.zi_sels.specs.Chosen.{plain, plain_runner, arch_text};

use std::alloc::Global;
use zi_elements::Element;
use zi_inherited::Inherited;
use zi_parts::{
    Binding, Dep, Package, Runner, add_bindings, copy_bindings, copy_texts, copy_words,
};
use zi_policy::{Arch, Condition};
use zi_reading::attribute_text;
use zi_text::{List, Memory, Text};

/// The value of an attribute without a namespace as a text of its own, where there is one.
pub fn copied(alloc: Global, e: &Element, name: &str) -> Result<Option<Text>, Memory>
    ensures { IfOk result (λ t. t ≡ attribute name.now (element_view e.now)) }
{
    match attribute_text(e, name) {
        Some(text) => Ok(Some(text.copy(alloc)?)),
        None => Ok(None),
    }
}

/// The same bindings, inherited ones among them, once more.
pub fn copy_inherited(alloc: Global, bindings: &Inherited<Binding>) -> Result<List<Binding>, Memory>
    ensures { IfOk result (λ bs. bs ≡ bindings.now) }
{
    let mut copy = List::new(alloc);
    let pieces = bindings.segments(alloc)?;
    for piece in pieces.as_slice() {
        add_bindings(alloc, piece, &mut copy)?;
    }
    Ok(copy)
}

/// A dependency once more, without what it restricts and when it is active.
pub fn plain_copy(alloc: Global, dep: &Dep) -> Result<Dep, Memory>
    ensures { IfOk result (λ d. d ≡ plain dep.now) }
{
    let interface = dep.interface.copy(alloc)?;
    let commands = copy_texts(alloc, &dep.commands)?;
    let bindings = copy_bindings(alloc, &dep.bindings)?;
    Ok(Dep {
        interface,
        kind: dep.kind,
        ranges: List::new(alloc),
        condition: Condition {
            os: None,
            wanted: None,
        },
        commands,
        bindings,
    })
}

/// What runs a command once more, without what it restricts.
pub fn plain_runner(alloc: Global, runner: &Option<Runner>) -> Result<Option<Runner>, Memory>
    ensures { IfOk result (λ r. r ≡ option_map plain_runner runner.now) }
{
    match runner {
        None => Ok(None),
        Some(runner) => {
            let dep = plain_copy(alloc, &runner.dep)?;
            let words = copy_words(alloc, &runner.words)?;
            Ok(Some(Runner { dep, words }))
        }
    }
}

/// The name of a package once more, where there is one.
pub fn package_name(alloc: Global, whole: &Option<Package>) -> Result<Option<Text>, Memory>
    ensures { IfOk result (λ t. t ≡ option_map (λ p. p.name) whole.now) }
{
    match whole {
        None => Ok(None),
        Some(whole) => Ok(Some(whole.name.copy(alloc)?)),
    }
}

/// A platform as feeds write it, where there is one.
pub fn arch_text(alloc: Global, arch: &Option<Arch>) -> Result<Option<Text>, Memory>
    ensures { IfOk result (λ t. t ≡ option_map arch_text arch.now) }
{
    match arch {
        None => Ok(None),
        Some(arch) => {
            let mut text = arch.os.copy(alloc)?;
            text.push_str("-")?;
            text.push_str(arch.machine.as_str())?;
            Ok(Some(text))
        }
    }
}
