//! The constraints, a function for each kind.
ghost use Rattle.std.specs.Prelude.{◌≡◌, ◌≤◌, ◌<◌, ◌++◌, ◌∷◌, [], true, false, not, length, map, option_map, slice_get, Some, IfSome, OnOk, Option, ℕ};
ghost use Rattle.zi_choice.specs.Choice.{number, needs_of};
ghost use Rattle.zi_choice.specs.Vars.{Cand, Cmd, Wide, candidates_of, var_number};
ghost use Rattle.zi_build.specs.Clauses.{is_admitted, refused_one, named_one, admission, admitted_one, among, at_target, naming, named_by, need, needs, of_width, of_command, of_candidate, of_interface, group_of, one_var, root_one, wanted_one, of_requirement, rules, each, clause, no, yes, lit_of, keep, having, same_var, without, two_or_more, One_of};
ghost use Rattle.zi_choice.specs.Choice.{command_place};
ghost use Rattle.zi_build.specs.Writing.{as_var, plan_of, IsPlan, Adds};
ghost use Rattle.zi_build.specs.There.{Listed};

use crate::variables::Variable;
use crate::writing::{Plan, Writer, is_full, lit, number, put, put_clause, put_two};
use zi_choice::group;
use zi_formula::{Lent, Lit};
use zi_inherited::Inherited;
use zi_parts::{Command, Dep, DepKind};
use zi_policy::Width;
use zi_text::{Memory, Text};
use zi_universe::{Candidate, Interface, Requirement, asks};

// Whether a candidate's version is admitted.
fn is_admitted(dep: &Dep, k: &Candidate) -> bool
    ensures { result ≡ is_admitted dep.now k.now }
{
    dep.ranges
        .as_slice()
        .iter()
        .all(|r| r.admits(&k.imp.version))
}

// The number of the interface that a dependency is on.
fn target(plan: &Plan, dep: &Dep) -> Option<u32>
    requires { IsPlan plan.now }
    ensures is { result ≡ number (plan_of plan.now) dep.now.interface }
    ensures within { IfSome result (λ j. j < length (plan_of plan.now)) }
{
    plan.names.number(&dep.interface)
}

// The candidates of an interface.
fn candidates<'u>(plan: &Plan<'u>, j: u32) -> &'u [Candidate]
    requires { j < length (plan_of plan.now) }
    ensures is { result.now ≡ candidates_of (plan_of plan.now) j }
    ensures few { length result.now ≤ 65536 }
{
    plan.universe.interfaces()[j as usize].candidates.as_slice()
}

// The literal that a candidate isn't chosen, where it isn't said already.
fn push_other(plan: &Plan, y: Variable, j: u32, e: u32, lits: &mut Vec<Lit>) -> Result<(), Memory>
    requires plan { IsPlan plan.now }
    requires there { Listed (plan_of plan.now) (Cand j e) }
    ensures { OnOk result (lits.new.items ≡ lits.old.items ++ map (lit_of (plan_of plan.now)) (without (no (as_var y)) (no (Cand j e) ∷ []))) }
{
    if is_choosing(y, j, e) {
        return Ok(());
    }
    lits.push(lit(plan, Variable::Choosing(j, e), false))?;
    Ok(())
}

// Whether a variable says that a candidate is chosen.
fn is_choosing(y: Variable, j: u32, e: u32) -> bool
    ensures { result ≡ same_var (as_var y) (Cand j e) }
{
    match y {
        Variable::Choosing(i, c) => i == j && c == e,
        Variable::Using(..) => false,
        Variable::SixtyFour => false,
    }
}

// The literal that a command is used, where there is one.
fn push_having(
    plan: &Plan,
    j: u32,
    e: u32,
    place: Option<u32>,
    lits: &mut Vec<Lit>,
) -> Result<(), Memory>
    requires plan { IsPlan plan.now }
    requires used { IfSome place (λ m. Listed (plan_of plan.now) (Cmd j e m)) }
    ensures { OnOk result (lits.new.items ≡ lits.old.items ++ map (lit_of (plan_of plan.now)) (having j e place)) }
{
    let Some(m) = place else {
        return Ok(());
    };
    lits.push(lit(plan, Variable::Using(j, e, m), true))?;
    Ok(())
}

// The clause that says of two variables that not both hold, where the command of a name isn't used.
fn put_against(
    plan: &Plan,
    y: Variable,
    j: u32,
    e: u32,
    place: Option<u32>,
    w: &mut Writer,
) -> Result<(), Memory>
    requires plan { IsPlan plan.now }
    requires needing { Listed (plan_of plan.now) (as_var y) }
    requires there { Listed (plan_of plan.now) (Cand j e) }
    requires used { IfSome place (λ m. Listed (plan_of plan.now) (Cmd j e m)) }
    ensures { OnOk result (Adds plan.now.keeps (plan_of plan.now) w.old (clause (no (as_var y) ∷ no (Cand j e) ∷ having j e place) ∷ []) w.new) }
{
    w.lits.clear();
    w.lits.push(lit(plan, y, false))?;
    push_other(plan, y, j, e, &mut w.lits)?;
    push_having(plan, j, e, place, &mut w.lits)?;
    put_clause(plan, w)?;
    Ok(())
}

// A candidate that isn't admitted is refused.
fn add_refusal(
    plan: &Plan,
    y: Variable,
    dep: &Dep,
    j: u32,
    e: u32,
    k: &Candidate,
    w: &mut Writer,
) -> Result<(), Memory>
    requires plan { IsPlan plan.now }
    requires needing { Listed (plan_of plan.now) (as_var y) }
    requires there { slice_get (candidates_of (plan_of plan.now) j) e ≡ Some k.now }
    ensures { OnOk result (Adds plan.now.keeps (plan_of plan.now) w.old (refused_one (as_var y) dep.now j e k.now) w.new) }
{
    if is_admitted(dep, k) {
        return Ok(());
    }
    put_against(plan, y, j, e, None, w)?;
    Ok(())
}

// A candidate that is admitted is to have the command of a name.
fn add_named(
    plan: &Plan,
    y: Variable,
    dep: &Dep,
    name: &Text,
    j: u32,
    e: u32,
    k: &Candidate,
    w: &mut Writer,
) -> Result<(), Memory>
    requires plan { IsPlan plan.now }
    requires needing { Listed (plan_of plan.now) (as_var y) }
    requires there { slice_get (candidates_of (plan_of plan.now) j) e ≡ Some k.now }
    ensures { OnOk result (Adds plan.now.keeps (plan_of plan.now) w.old (named_one (as_var y) dep.now name.now j e k.now) w.new) }
{
    if !is_admitted(dep, k) {
        return Ok(());
    }
    let place = place_in(plan, j, e, k, name);
    put_against(plan, y, j, e, place, w)?;
    Ok(())
}

// The place of a command of a candidate that is there.
fn place_in(plan: &Plan, j: u32, e: u32, k: &Candidate, name: &Text) -> Option<u32>
    requires plan { IsPlan plan.now }
    requires there { slice_get (candidates_of (plan_of plan.now) j) e ≡ Some k.now }
    ensures is { result ≡ command_place k.now name.now }
    ensures used { IfSome result (λ m. Listed (plan_of plan.now) (Cmd j e m)) }
{
    let m = plan.names.command_place(j, e, name)?;
    Some(m as u32)
}

// All candidates that aren't admitted are refused.
fn add_refusals(plan: &Plan, y: Variable, dep: &Dep, j: u32, w: &mut Writer) -> Result<(), Memory>
    requires plan { IsPlan plan.now }
    requires needing { Listed (plan_of plan.now) (as_var y) }
    requires there { j < length (plan_of plan.now) }
    ensures { OnOk result (Adds plan.now.keeps (plan_of plan.now) w.old (each 0 (refused_one (as_var y) dep.now j) (candidates_of (plan_of plan.now) j)) w.new) }
{
    for (e, k) in candidates(plan, j).iter().enumerate() {
        add_refusal(plan, y, dep, j, e as u32, k, w)?;
    }
    Ok(())
}

// All candidates that are admitted are to have the command of a name.
fn add_all_named(
    plan: &Plan,
    y: Variable,
    dep: &Dep,
    name: &Text,
    j: u32,
    w: &mut Writer,
) -> Result<(), Memory>
    requires plan { IsPlan plan.now }
    requires needing { Listed (plan_of plan.now) (as_var y) }
    requires there { j < length (plan_of plan.now) }
    ensures { OnOk result (Adds plan.now.keeps (plan_of plan.now) w.old (each 0 (named_one (as_var y) dep.now name.now j) (candidates_of (plan_of plan.now) j)) w.new) }
{
    for (e, k) in candidates(plan, j).iter().enumerate() {
        add_named(plan, y, dep, name, j, e as u32, k, w)?;
    }
    Ok(())
}

// The literals of the admitted candidates.
fn push_admitted(plan: &Plan, dep: &Dep, j: u32, lits: &mut Vec<Lit>) -> Result<(), Memory>
    requires plan { IsPlan plan.now }
    requires there { j < length (plan_of plan.now) }
    ensures { OnOk result (lits.new.items ≡ lits.old.items ++ map (lit_of (plan_of plan.now)) (each 0 (admitted_one dep.now j) (candidates_of (plan_of plan.now) j))) }
{
    for (e, k) in candidates(plan, j).iter().enumerate() {
        push_if_admitted(plan, dep, j, e as u32, k, lits)?;
    }
    Ok(())
}

// The literal of a candidate, where it is admitted.
fn push_if_admitted(
    plan: &Plan,
    dep: &Dep,
    j: u32,
    e: u32,
    k: &Candidate,
    lits: &mut Vec<Lit>,
) -> Result<(), Memory>
    requires plan { IsPlan plan.now }
    requires there { slice_get (candidates_of (plan_of plan.now) j) e ≡ Some k.now }
    ensures { OnOk result (lits.new.items ≡ lits.old.items ++ map (lit_of (plan_of plan.now)) (admitted_one dep.now j e k.now)) }
{
    if !is_admitted(dep, k) {
        return Ok(());
    }
    lits.push(lit(plan, Variable::Choosing(j, e), true))?;
    Ok(())
}

// One of the admitted candidates is to be chosen.
fn put_admitted(
    plan: &Plan,
    y: Variable,
    dep: &Dep,
    j: Option<u32>,
    w: &mut Writer,
) -> Result<(), Memory>
    requires plan { IsPlan plan.now }
    requires needing { Listed (plan_of plan.now) (as_var y) }
    requires there { IfSome j (λ j. j < length (plan_of plan.now)) }
    ensures { OnOk result (Adds plan.now.keeps (plan_of plan.now) w.old (clause (no (as_var y) ∷ at_target (plan_of plan.now) (admitted_one dep.now) j) ∷ []) w.new) }
{
    w.lits.clear();
    w.lits.push(lit(plan, y, false))?;
    push_target(plan, dep, j, &mut w.lits)?;
    put_clause(plan, w)?;
    Ok(())
}

// The literals of the admitted candidates, where there is an interface.
fn push_target(plan: &Plan, dep: &Dep, j: Option<u32>, lits: &mut Vec<Lit>) -> Result<(), Memory>
    requires plan { IsPlan plan.now }
    requires there { IfSome j (λ j. j < length (plan_of plan.now)) }
    ensures { OnOk result (lits.new.items ≡ lits.old.items ++ map (lit_of (plan_of plan.now)) (at_target (plan_of plan.now) (admitted_one dep.now) j)) }
{
    let Some(j) = j else {
        return Ok(());
    };
    push_admitted(plan, dep, j, lits)?;
    Ok(())
}

// Which candidates a dependency admits.
fn add_admission(
    plan: &Plan,
    y: Variable,
    dep: &Dep,
    j: Option<u32>,
    w: &mut Writer,
) -> Result<(), Memory>
    requires plan { IsPlan plan.now }
    requires needing { Listed (plan_of plan.now) (as_var y) }
    requires target { j ≡ number (plan_of plan.now) dep.now.interface }
    requires there { IfSome j (λ j. j < length (plan_of plan.now)) }
    ensures { OnOk result (Adds plan.now.keeps (plan_of plan.now) w.old (admission (plan_of plan.now) (as_var y) dep.now dep.now.kind) w.new) }
{
    if let DepKind::Essential = dep.kind {
        put_admitted(plan, y, dep, j, w)?;
        return Ok(());
    }
    let Some(j) = j else {
        return Ok(());
    };
    add_refusals(plan, y, dep, j, w)?;
    Ok(())
}

// The commands that a dependency names.
fn add_naming(plan: &Plan, y: Variable, dep: &Dep, j: u32, w: &mut Writer) -> Result<(), Memory>
    requires plan { IsPlan plan.now }
    requires needing { Listed (plan_of plan.now) (as_var y) }
    requires target { number (plan_of plan.now) dep.now.interface ≡ Some j }
    requires there { j < length (plan_of plan.now) }
    ensures { OnOk result (Adds plan.now.keeps (plan_of plan.now) w.old (naming (plan_of plan.now) (as_var y) dep.now dep.now.commands) w.new) }
{
    for name in dep.commands.as_slice() {
        add_all_named(plan, y, dep, name, j, w)?;
    }
    Ok(())
}

// What a variable needs where it needs a dependency.
fn add_need(plan: &Plan, y: Variable, dep: &Dep, w: &mut Writer) -> Result<(), Memory>
    requires plan { IsPlan plan.now }
    requires needing { Listed (plan_of plan.now) (as_var y) }
    ensures { OnOk result (Adds plan.now.keeps (plan_of plan.now) w.old (need (plan_of plan.now) (as_var y) dep.now) w.new) }
{
    if is_full(w) {
        return Ok(());
    }
    let j = target(plan, dep);
    add_admission(plan, y, dep, j, w)?;
    let Some(j) = j else {
        return Ok(());
    };
    if !asks(dep) {
        return Ok(());
    }
    add_naming(plan, y, dep, j, w)?;
    Ok(())
}

// What a variable needs where it needs dependencies.
fn add_needs(plan: &Plan, y: Variable, deps: &[Dep], w: &mut Writer) -> Result<(), Memory>
    requires plan { IsPlan plan.now }
    requires needing { Listed (plan_of plan.now) (as_var y) }
    ensures { OnOk result (Adds plan.now.keeps (plan_of plan.now) w.old (needs (plan_of plan.now) (as_var y) deps.now) w.new) }
{
    for dep in deps {
        add_need(plan, y, dep, w)?;
    }
    Ok(())
}

// The width of a candidate.
fn add_width(plan: &Plan, i: u32, c: u32, width: Width, w: &mut Writer) -> Result<(), Memory>
    requires plan { IsPlan plan.now }
    requires there { Listed (plan_of plan.now) (Cand i c) }
    ensures { OnOk result (Adds plan.now.keeps (plan_of plan.now) w.old (of_width (Cand i c) width) w.new) }
{
    let positive = match width {
        Width::Any => return Ok(()),
        Width::Bits32 => false,
        Width::Bits64 => true,
    };
    let a = lit(plan, Variable::Choosing(i, c), false);
    let b = lit(plan, Variable::SixtyFour, positive);
    put_two(plan, a, b, w)?;
    Ok(())
}

// What a command of a candidate needs.
fn add_command(
    plan: &Plan,
    i: u32,
    c: u32,
    n: u32,
    m: &Command,
    w: &mut Writer,
) -> Result<(), Memory>
    requires plan { IsPlan plan.now }
    requires there { Listed (plan_of plan.now) (Cmd i c n) }
    ensures { OnOk result (Adds plan.now.keeps (plan_of plan.now) w.old (of_command (plan_of plan.now) i c n m.now) w.new) }
{
    let y = Variable::Using(i, c, n);
    let a = lit(plan, y, false);
    let b = lit(plan, Variable::Choosing(i, c), true);
    put_two(plan, a, b, w)?;
    add_needs(plan, y, m.deps.as_slice(), w)?;
    let Some(runner) = &m.runner else {
        return Ok(());
    };
    add_need(plan, y, &runner.dep, w)?;
    Ok(())
}

// What the commands of a candidate need.
fn add_commands(plan: &Plan, i: u32, c: u32, k: &Candidate, w: &mut Writer) -> Result<(), Memory>
    requires plan { IsPlan plan.now }
    requires there { slice_get (candidates_of (plan_of plan.now) i) c ≡ Some k.now }
    ensures { OnOk result (Adds plan.now.keeps (plan_of plan.now) w.old (each 0 (of_command (plan_of plan.now) i c) k.now.imp.commands) w.new) }
{
    for n in 0..k.imp.commands.len() {
        let m = k.imp.commands.at(n);
        add_command(plan, i, c, n as u32, m.as_ref(), w)?;
    }
    Ok(())
}

// What a variable needs of dependencies that are inherited.
fn add_inherited(
    plan: &Plan,
    y: Variable,
    deps: &Inherited<Dep>,
    w: &mut Writer,
) -> Result<(), Memory>
    requires plan { IsPlan plan.now }
    requires needing { Listed (plan_of plan.now) (as_var y) }
    ensures { OnOk result (Adds plan.now.keeps (plan_of plan.now) w.old (needs (plan_of plan.now) (as_var y) deps.now) w.new) }
{
    let pieces = deps.segments(plan.alloc)?;
    for piece in pieces.as_slice() {
        add_needs(plan, y, piece, w)?;
    }
    Ok(())
}

// What a candidate needs. Behind the limit it takes one step.
fn add_candidate(plan: &Plan, i: u32, c: u32, k: &Candidate, w: &mut Writer) -> Result<(), Memory>
    requires plan { IsPlan plan.now }
    requires there { slice_get (candidates_of (plan_of plan.now) i) c ≡ Some k.now }
    ensures { OnOk result (Adds plan.now.keeps (plan_of plan.now) w.old (of_candidate (plan_of plan.now) i c k.now) w.new) }
{
    if is_full(w) {
        return Ok(());
    }
    add_width(plan, i, c, group(k), w)?;
    add_inherited(plan, Variable::Choosing(i, c), &k.imp.deps, w)?;
    add_commands(plan, i, c, k, w)?;
    Ok(())
}

// What the candidates of an interface need.
fn add_interface(plan: &Plan, i: u32, w: &mut Writer) -> Result<(), Memory>
    requires plan { IsPlan plan.now }
    requires there { i < length (plan_of plan.now) }
    ensures { OnOk result (Adds plan.now.keeps (plan_of plan.now) w.old (each 0 (of_candidate (plan_of plan.now) i) (candidates_of (plan_of plan.now) i)) w.new) }
{
    for (c, k) in candidates(plan, i).iter().enumerate() {
        add_candidate(plan, i, c as u32, k, w)?;
    }
    Ok(())
}

// What the candidates of all interfaces need.
fn add_interfaces(plan: &Plan, w: &mut Writer) -> Result<(), Memory>
    requires { IsPlan plan.now }
    ensures { OnOk result (Adds plan.now.keeps (plan_of plan.now) w.old (each 0 (of_interface (plan_of plan.now)) (plan_of plan.now)) w.new) }
{
    for i in 0..plan.universe.interfaces().len() {
        add_interface(plan, i as u32, w)?;
    }
    Ok(())
}

// The numbers of an interface's candidates.
fn push_numbers(plan: &Plan, i: u32, variables: &mut Vec<u32>) -> Result<(), Memory>
    requires plan { IsPlan plan.now }
    requires there { i < length (plan_of plan.now) }
    ensures { OnOk result (variables.new.items ≡ variables.old.items ++ map (var_number (plan_of plan.now)) (each 0 (one_var i) (candidates_of (plan_of plan.now) i))) }
{
    for (c, _k) in candidates(plan, i).iter().enumerate() {
        push_number(plan, i, c as u32, variables)?;
    }
    Ok(())
}

// The number of a candidate.
fn push_number(plan: &Plan, i: u32, c: u32, variables: &mut Vec<u32>) -> Result<(), Memory>
    requires plan { IsPlan plan.now }
    requires there { Listed (plan_of plan.now) (Cand i c) }
    ensures { OnOk result (variables.new.items ≡ variables.old.items ++ var_number (plan_of plan.now) (Cand i c) ∷ []) }
{
    variables.push(number(plan, Variable::Choosing(i, c)))?;
    Ok(())
}

// At most one candidate of an interface is chosen.
fn add_group(plan: &Plan, i: u32, w: &mut Writer) -> Result<(), Memory>
    requires plan { IsPlan plan.now }
    requires there { i < length (plan_of plan.now) }
    ensures { OnOk result (Adds plan.now.keeps (plan_of plan.now) w.old (keep (two_or_more (length (candidates_of (plan_of plan.now) i))) (One_of (each 0 (one_var i) (candidates_of (plan_of plan.now) i)))) w.new) }
{
    if candidates(plan, i).len() < 2 {
        return Ok(());
    }
    let mut variables = Vec::new(plan.alloc);
    push_numbers(plan, i, &mut variables)?;
    put(plan, w, Lent::AtMostOne(variables.as_slice()))?;
    Ok(())
}

// At most one candidate of each interface is chosen.
fn add_groups(plan: &Plan, w: &mut Writer) -> Result<(), Memory>
    requires { IsPlan plan.now }
    ensures { OnOk result (Adds plan.now.keeps (plan_of plan.now) w.old (each 0 group_of (plan_of plan.now)) w.new) }
{
    for i in 0..plan.universe.interfaces().len() {
        add_group(plan, i as u32, w)?;
    }
    Ok(())
}

// The literals of the root's candidates.
fn push_roots(plan: &Plan, lits: &mut Vec<Lit>) -> Result<(), Memory>
    requires { IsPlan plan.now }
    ensures { OnOk result (lits.new.items ≡ lits.old.items ++ map (lit_of (plan_of plan.now)) (each 0 root_one (candidates_of (plan_of plan.now) 0))) }
{
    let _root = plan.universe.root();
    for (c, _k) in candidates(plan, 0).iter().enumerate() {
        push_root(plan, c as u32, lits)?;
    }
    Ok(())
}

// The literal of a candidate of the root.
fn push_root(plan: &Plan, c: u32, lits: &mut Vec<Lit>) -> Result<(), Memory>
    requires plan { IsPlan plan.now }
    requires there { Listed (plan_of plan.now) (Cand 0 c) }
    ensures { OnOk result (lits.new.items ≡ lits.old.items ++ lit_of (plan_of plan.now) (yes (Cand 0 c)) ∷ []) }
{
    lits.push(lit(plan, Variable::Choosing(0, c), true))?;
    Ok(())
}

// A candidate of the root is chosen.
fn put_root(plan: &Plan, w: &mut Writer) -> Result<(), Memory>
    requires { IsPlan plan.now }
    ensures { OnOk result (Adds plan.now.keeps (plan_of plan.now) w.old (clause (each 0 root_one (candidates_of (plan_of plan.now) 0)) ∷ []) w.new) }
{
    w.lits.clear();
    push_roots(plan, &mut w.lits)?;
    put_clause(plan, w)?;
    Ok(())
}

// The root is to have the command of a name.
fn add_wanted(plan: &Plan, name: &Text, w: &mut Writer) -> Result<(), Memory>
    requires { IsPlan plan.now }
    ensures { OnOk result (Adds plan.now.keeps (plan_of plan.now) w.old (each 0 (wanted_one name.now) (candidates_of (plan_of plan.now) 0)) w.new) }
{
    let _root = plan.universe.root();
    for (c, k) in candidates(plan, 0).iter().enumerate() {
        let place = place_in(plan, 0, c as u32, k, name);
        put_wanted(plan, c as u32, place, w)?;
    }
    Ok(())
}

// A candidate of the root that is chosen has a command that is used.
fn put_wanted(plan: &Plan, c: u32, place: Option<u32>, w: &mut Writer) -> Result<(), Memory>
    requires plan { IsPlan plan.now }
    requires there { Listed (plan_of plan.now) (Cand 0 c) }
    requires used { IfSome place (λ m. Listed (plan_of plan.now) (Cmd 0 c m)) }
    ensures { OnOk result (Adds plan.now.keeps (plan_of plan.now) w.old (clause (no (Cand 0 c) ∷ having 0 c place) ∷ []) w.new) }
{
    w.lits.clear();
    w.lits.push(lit(plan, Variable::Choosing(0, c), false))?;
    push_having(plan, 0, c, place, &mut w.lits)?;
    put_clause(plan, w)?;
    Ok(())
}

/// All constraints, in their order.
pub(crate) fn add_rules(plan: &Plan, req: &Requirement, w: &mut Writer) -> Result<(), Memory>
    requires { IsPlan plan.now }
    ensures { OnOk result (Adds plan.now.keeps (plan_of plan.now) w.old (rules (plan_of plan.now) req.now) w.new) }
{
    put_root(plan, w)?;
    if let Some(name) = &req.command {
        add_wanted(plan, name, w)?;
    }
    add_groups(plan, w)?;
    add_interfaces(plan, w)?;
    Ok(())
}
