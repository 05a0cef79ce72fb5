//! Copies of bindings, arguments and implementations.
ghost use Rattle.std.specs.Prelude.{◌≡◌, ◌++◌, IfOk};

use crate::types::{Binding, Extra, Impl, Package, Word};
use std::alloc::Global;
use zi_digest::DigestName;
use zi_policy::Arch;
use zi_text::{List, Memory, Text};

/// The same text once more, where there is one. Memory is the one refusal.
pub fn copy_text(alloc: Global, text: &Option<Text>) -> Result<Option<Text>, Memory>
    ensures { IfOk result (λ t. t ≡ text.now) }
{
    match text {
        Some(text) => Ok(Some(text.copy(alloc)?)),
        None => Ok(None),
    }
}

/// The same texts once more. Memory is the one refusal.
pub fn copy_texts(alloc: Global, texts: &List<Text>) -> Result<List<Text>, Memory>
    ensures { IfOk result (λ ts. ts ≡ texts.now) }
{
    let mut out = List::new(alloc);
    for text in texts.as_slice() {
        out.push(text.copy(alloc)?)?;
    }
    Ok(out)
}

impl Extra {
    /// The same once more. Memory is its one refusal.
    pub fn copy(&self, alloc: Global) -> Result<Extra, Memory>
        ensures { IfOk result (λ x. x ≡ self.now) }
    {
        match self {
            Extra::Insert(path) => Ok(Extra::Insert(path.copy(alloc)?)),
            Extra::Value(text) => Ok(Extra::Value(text.copy(alloc)?)),
        }
    }
}

impl Binding {
    /// The same binding once more. Memory is its one refusal.
    pub fn copy(&self, alloc: Global) -> Result<Binding, Memory>
        ensures { IfOk result (λ b. b ≡ self.now) }
    {
        match self {
            Binding::Env {
                name,
                extra,
                mode,
                separator,
                default,
            } => Ok(Binding::Env {
                name: name.copy(alloc)?,
                mode: *mode,
                separator: separator.copy(alloc)?,
                extra: extra.copy(alloc)?,
                default: copy_text(alloc, default)?,
            }),
            Binding::ExecVar { name, command } => Ok(Binding::ExecVar {
                name: name.copy(alloc)?,
                command: command.copy(alloc)?,
            }),
            Binding::ExecPath { name, command } => Ok(Binding::ExecPath {
                name: name.copy(alloc)?,
                command: command.copy(alloc)?,
            }),
            Binding::Unbuilt { element } => Ok(Binding::Unbuilt {
                element: element.copy(alloc)?,
            }),
        }
    }
}

/// Adds the same bindings once more. Memory is the one refusal.
pub fn add_bindings(
    alloc: Global,
    bindings: &[Binding],
    out: &mut List<Binding>,
) -> Result<(), Memory>
    ensures { IfOk result (λ _. out.new ≡ out.old ++ bindings.now) }
{
    for binding in bindings {
        out.push(binding.copy(alloc)?)?;
    }
    Ok(())
}

/// The same bindings once more. Memory is the one refusal.
pub fn copy_bindings(alloc: Global, bindings: &List<Binding>) -> Result<List<Binding>, Memory>
    ensures { IfOk result (λ bs. bs ≡ bindings.now) }
{
    let mut out = List::new(alloc);
    add_bindings(alloc, bindings.as_slice(), &mut out)?;
    Ok(out)
}

impl Word {
    /// The same once more. Memory is its one refusal.
    pub fn copy(&self, alloc: Global) -> Result<Word, Memory>
        ensures { IfOk result (λ w. w ≡ self.now) }
    {
        match self {
            Word::Arg(text) => Ok(Word::Arg(text.copy(alloc)?)),
            Word::ForEach {
                item_from,
                separator,
                args,
            } => Ok(Word::ForEach {
                item_from: item_from.copy(alloc)?,
                separator: separator.copy(alloc)?,
                args: copy_texts(alloc, args)?,
            }),
        }
    }
}

/// The same arguments once more. Memory is the one refusal.
pub fn copy_words(alloc: Global, words: &List<Word>) -> Result<List<Word>, Memory>
    ensures { IfOk result (λ ws. ws ≡ words.now) }
{
    let mut out = List::new(alloc);
    for word in words.as_slice() {
        out.push(word.copy(alloc)?)?;
    }
    Ok(out)
}

/// The same platform once more, where there is one. Memory is the one refusal.
pub fn copied_arch(alloc: Global, arch: &Option<Arch>) -> Result<Option<Arch>, Memory>
    ensures { IfOk result (λ a. a ≡ arch.now) }
{
    match arch {
        Some(arch) => Ok(Some(arch.copy(alloc)?)),
        None => Ok(None),
    }
}

/// The same digests once more, of which there is at most one by each algorithm. Memory is the one refusal.
pub fn copy_digests(alloc: Global, digests: &List<DigestName>) -> Result<List<DigestName>, Memory>
    ensures { IfOk result (λ ds. ds ≡ digests.now) }
{
    Ok(List::from_vec(Vec::from_slice(alloc, digests.as_slice())?))
}

// The same package once more, where there is one.
fn copy_package(alloc: Global, whole: &Option<Package>) -> Result<Option<Package>, Memory>
    ensures { IfOk result (λ p. p ≡ whole.now) }
{
    match whole {
        Some(package) => Ok(Some(Package {
            name: package.name.copy(alloc)?,
            installed: package.installed,
        })),
        None => Ok(None),
    }
}

impl Impl {
    /// The same implementation once more, which costs none of what it says but its few digests: both share it. Memory is its one refusal.
    pub fn copy(&self, alloc: Global) -> Result<Impl, Memory>
        ensures { IfOk result (λ i. i ≡ self.now) }
    {
        let id = self.id.copy(alloc)?;
        let version = self.version.copy(alloc)?;
        let arch = copied_arch(alloc, &self.arch)?;
        let langs = self.langs.share()?;
        let released = copy_text(alloc, &self.released)?;
        let local = copy_text(alloc, &self.local)?;
        let digests = copy_digests(alloc, &self.digests)?;
        let methods = self.methods.share()?;
        let deps = self.deps.share()?;
        let commands = self.commands.share()?;
        let bindings = self.bindings.share()?;
        let package = copy_package(alloc, &self.package)?;
        Ok(Impl {
            id,
            version,
            arch,
            stability: self.stability,
            langs,
            released,
            local,
            digests,
            methods,
            deps,
            commands,
            bindings,
            place: self.place,
            package,
        })
    }
}
