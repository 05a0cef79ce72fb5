//! A feed as a text that has all its fields: a line for each import, implementation, package, digest, method, step, dependency, command
//! and binding, and what is absent left out.
use std::alloc::Global;
use zi_digest::DigestName;
use zi_feed::Feed;
use zi_inherited::{Inherited, Shared};
use zi_lines::Sheet;
use zi_parts::{Binding, Command, Dep, Extra, Impl, Import, Method, Native, Runner, Step, Word};
use zi_policy::Arch;
use zi_text::{List, Text};
use zi_tree::RelPath;
use zi_version::{Alternative, Range, Version};

/// Adds a text behind what stands before it.
fn put_named(out: &mut Sheet, before: &str, text: &Text) {
    out.put(before);
    out.put(text.as_str());
}

/// Adds a text behind ` name=`.
fn put_equal(out: &mut Sheet, name: &str, text: &Text) {
    out.put(" ");
    out.put(name);
    out.put("=");
    out.put(text.as_str());
}

/// Adds a named text, where there is one.
fn put_field(out: &mut Sheet, name: &str, text: &Option<Text>) {
    if let Some(text) = text {
        put_equal(out, name, text);
    }
}

/// Adds named texts, each with the name.
fn put_fields(out: &mut Sheet, name: &str, texts: &List<Text>) {
    for text in texts.as_slice() {
        put_equal(out, name, text);
    }
}

/// Adds a platform, where there is one.
fn put_arch(out: &mut Sheet, arch: &Option<Arch>) {
    if let Some(arch) = arch {
        put_named(out, " arch=", &arch.os);
        put_named(out, "-", &arch.machine);
    }
}

/// Adds a version behind what stands before it, where there is one.
fn put_version(out: &mut Sheet, before: &str, version: &Option<Version>) {
    if let Some(version) = version {
        out.put(before);
        out.put(version.text());
    }
}

/// Adds a range of an expression.
fn put_alternative(out: &mut Sheet, one: &Alternative) {
    match one {
        Alternative::Equal(version) => out.put(version.text()),
        Alternative::Other(version) => {
            out.put("!");
            out.put(version.text());
        }
        Alternative::Within(start, end) => {
            put_version(out, "", start);
            out.put("..");
            put_version(out, "!", end);
        }
    }
}

/// Adds several ranges, each behind `|`.
fn put_alternatives(out: &mut Sheet, all: &[Alternative]) {
    for one in all {
        out.put("|");
        put_alternative(out, one);
    }
}

/// Adds an expression.
fn put_range(out: &mut Sheet, range: &Range) {
    out.put(" range=");
    match range {
        Range::One(one) => put_alternative(out, one),
        Range::Any(all) => put_alternatives(out, all.as_slice()),
    }
}

/// Adds expressions.
fn put_ranges(out: &mut Sheet, ranges: &[Range]) {
    for range in ranges {
        put_range(out, range);
    }
}

/// Adds what is inserted, or the value.
fn put_extra(out: &mut Sheet, extra: &Extra) {
    match extra {
        Extra::Insert(text) => put_equal(out, "insert", text),
        Extra::Value(text) => put_equal(out, "value", text),
    }
}

/// Adds a binding.
pub(crate) fn put_binding(out: &mut Sheet, binding: &Binding) {
    match binding {
        Binding::Env {
            name,
            extra,
            mode,
            separator,
            default,
        } => {
            put_named(out, "\nenv ", name);
            put_extra(out, extra);
            out.put(" ");
            out.value(mode);
            put_equal(out, "separator", separator);
            put_field(out, "default", default);
        }
        Binding::ExecVar { name, command } => {
            put_named(out, "\nvar ", name);
            put_equal(out, "command", command);
        }
        Binding::ExecPath { name, command } => {
            put_named(out, "\nprogram ", name);
            put_equal(out, "command", command);
        }
        Binding::Unbuilt { element } => put_named(out, "\nunbuilt ", element),
    }
}

/// Adds bindings.
fn put_bindings(out: &mut Sheet, bindings: &List<Binding>) {
    for binding in bindings.as_slice() {
        put_binding(out, binding);
    }
}

/// Adds a dependency.
pub(crate) fn put_dep(out: &mut Sheet, dep: &Dep) {
    out.put("\n");
    out.value(&dep.kind);
    put_named(out, " ", &dep.interface);
    put_ranges(out, dep.ranges.as_slice());
    put_field(out, "os", &dep.condition.os);
    put_field(out, "use", &dep.condition.wanted);
    put_fields(out, "command", &dep.commands);
    put_bindings(out, &dep.bindings);
}

/// Adds dependencies.
fn put_deps(out: &mut Sheet, deps: &List<Dep>) {
    for dep in deps.as_slice() {
        put_dep(out, dep);
    }
}

/// Adds an argument.
fn put_word(out: &mut Sheet, word: &Word) {
    match word {
        Word::Arg(text) => put_named(out, "\narg ", text),
        Word::ForEach {
            item_from,
            separator,
            args,
        } => {
            put_named(out, "\nfor ", item_from);
            put_equal(out, "separator", separator);
            put_fields(out, "arg", args);
        }
    }
}

/// Adds arguments.
fn put_words(out: &mut Sheet, words: &List<Word>) {
    for word in words.as_slice() {
        put_word(out, word);
    }
}

/// Adds what runs a command, where something does.
fn put_runner(out: &mut Sheet, runner: &Option<Runner>) {
    if let Some(runner) = runner {
        out.put("\nrunner");
        put_dep(out, &runner.dep);
        put_words(out, &runner.words);
        out.put("\nend");
    }
}

/// Adds a command.
pub(crate) fn put_command(out: &mut Sheet, command: &Command) {
    put_named(out, "\ncommand ", &command.name);
    put_field(out, "path", &command.path);
    put_field(out, "unbuilt", &command.unbuilt);
    put_words(out, &command.words);
    put_runner(out, &command.runner);
    put_deps(out, &command.deps);
    put_bindings(out, &command.bindings);
    out.put("\nend");
}

/// Adds a path.
fn put_path(out: &mut Sheet, path: &RelPath) {
    for part in path.parts().as_slice() {
        put_named(out, "/", part);
    }
}

/// Adds a step.
fn put_step(out: &mut Sheet, step: &Step) {
    match step {
        Step::File {
            href,
            size,
            dest,
            exec,
        } => {
            put_named(out, "\nfile ", href);
            out.put(" ");
            out.number(*size);
            out.put(if *exec { " true " } else { " false " });
            put_path(out, dest);
        }
        Step::Rename { source, dest } => {
            out.put("\nrename ");
            put_path(out, source);
            out.put(" ");
            put_path(out, dest);
        }
        Step::Remove { path } => {
            out.put("\nremove ");
            put_path(out, path);
        }
    }
}

/// Adds a way to fetch.
fn put_method(out: &mut Sheet, method: &Method) {
    out.put("\nmethod");
    for step in method.steps.as_slice() {
        put_step(out, step);
    }
}

/// Adds ways to fetch.
fn put_methods(out: &mut Sheet, methods: &List<Method>) {
    for method in methods.as_slice() {
        put_method(out, method);
    }
}

/// Adds digests.
pub(crate) fn put_digests(alloc: Global, out: &mut Sheet, digests: &List<DigestName>) {
    for digest in digests.as_slice() {
        out.put("\ndigest ");
        out.made(digest.text(alloc));
    }
}

/// Adds what an implementation is, on one line.
fn put_facts(out: &mut Sheet, one: &Impl) {
    put_named(out, "\nimpl ", &one.id);
    out.put(" ");
    out.put(one.version.text());
    out.put(" ");
    out.value(&one.stability);
    out.put(" at=");
    out.number(one.place);
    put_arch(out, &one.arch);
    put_fields(out, "lang", one.langs.as_ref());
    put_field(out, "released", &one.released);
    put_field(out, "local", &one.local);
}

/// Adds what groups hold too.
fn put_inherited(
    out: &mut Sheet,
    deps: &Inherited<Dep>,
    commands: &Inherited<Shared<Command>>,
    bindings: &Inherited<Binding>,
) {
    for n in 0..deps.len() {
        put_dep(out, deps.at(n));
    }
    for n in 0..commands.len() {
        put_command(out, commands.at(n).as_ref());
    }
    for n in 0..bindings.len() {
        put_binding(out, bindings.at(n));
    }
}

/// Adds an implementation.
fn put_impl(alloc: Global, out: &mut Sheet, one: &Impl) {
    put_facts(out, one);
    put_digests(alloc, out, &one.digests);
    put_methods(out, &one.methods);
    put_inherited(out, &one.deps, &one.commands, &one.bindings);
}

/// Adds what a feed says of a package.
fn put_native(out: &mut Sheet, one: &Native) {
    put_named(out, "\npackage ", &one.package);
    out.put(" at=");
    out.number(one.place);
    put_fields(out, "distribution", &one.distributions);
    put_fields(out, "lang", one.langs.as_ref());
    put_field(out, "released", &one.released);
    put_inherited(out, &one.deps, &one.commands, &one.bindings);
}

/// Adds the imports.
fn put_imports(out: &mut Sheet, imports: &[Import]) {
    for import in imports {
        put_named(out, "\nimport ", &import.uri);
        put_arch(out, &import.arch);
        put_fields(out, "lang", &import.langs);
    }
}

/// Adds a feed.
pub(crate) fn put_feed(alloc: Global, out: &mut Sheet, feed: &Feed) {
    out.put(feed.uri.as_str());
    put_imports(out, feed.imports.as_slice());
    for one in feed.impls.as_slice() {
        put_impl(alloc, out, one);
    }
    for one in feed.natives.as_slice() {
        put_native(out, one);
    }
}
