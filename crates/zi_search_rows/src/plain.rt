//! A plain search for the tests, with no trail, no watches and no lemmas.
//! It goes over all constraints for what they say, and at a conflict it takes back all that came after the last decision.
//! It decides as the tests' decider does: the first open variable, as false.

use std::alloc::Global;
use zi_formula::{Formula, Lent, Lit};
use zi_text::Memory;

// What is known of each variable, by its number.
type Values = Vec<Option<bool>>;

// What a constraint says of the values.
#[derive(Clone, Copy)]
enum Says {
    Nothing,
    Makes(Lit),
    Clashes,
}

fn value(values: &Values, x: u32) -> Option<bool> {
    match values.get(x as usize) {
        Some(value) => *value,
        None => None,
    }
}

fn set(values: &mut Values, x: u32, value: Option<bool>) {
    if let Some(cell) = values.get_mut(x as usize) {
        *cell = value;
    }
}

fn clause_says(lits: &[Lit], values: &Values) -> Says {
    let mut open = None;
    for l in lits {
        match value(values, l.variable) {
            None => {
                if open.is_some() {
                    return Says::Nothing;
                }
                open = Some(*l);
            }
            Some(sign) => {
                if sign == l.positive {
                    return Says::Nothing;
                }
            }
        }
    }
    match open {
        Some(l) => Says::Makes(l),
        None => Says::Clashes,
    }
}

fn group_says(variables: &[u32], values: &Values) -> Says {
    let mut open = None;
    let mut chosen = false;
    for x in variables {
        match value(values, *x) {
            None => open = Some(*x),
            Some(false) => {}
            Some(true) => {
                if chosen {
                    return Says::Clashes;
                }
                chosen = true;
            }
        }
    }
    match open {
        Some(x) if chosen => Says::Makes(Lit {
            variable: x,
            positive: false,
        }),
        _ => Says::Nothing,
    }
}

// What the first constraint that says something says.
fn all_say(f: &Formula, values: &Values) -> Says {
    for i in 0..f.constraints.len() {
        let says = match f.constraints.at(i) {
            Lent::Clause(lits) => clause_says(lits, values),
            Lent::AtMostOne(variables) => group_says(variables, values),
        };
        match says {
            Says::Nothing => {}
            _ => return says,
        }
    }
    Says::Nothing
}

fn first_open(variables: u32, values: &Values) -> Option<u32> {
    for x in 0..variables {
        if value(values, x + 1).is_none() {
            return Some(x + 1);
        }
    }
    None
}

// Takes back all that came after the last decision, and the decision, whose opposite holds from then on.
fn go_back(made: &mut Vec<(Lit, bool)>, values: &mut Values) -> Result<bool, Memory> {
    for _i in 0..made.len() {
        if let Some((l, decided)) = made.pop() {
            if decided {
                set(values, l.variable, Some(!l.positive));
                made.push((l.opposite(), false))?;
                return Ok(true);
            }
            set(values, l.variable, None);
        }
    }
    Ok(false)
}

// Whether the formula has a model; none where that takes more than so many steps.
pub(crate) fn has_model(alloc: Global, f: &Formula, steps: u32) -> Result<Option<bool>, Memory> {
    let mut values: Values = Vec::new(alloc);
    for _x in 0..f.variables {
        values.push(None)?;
    }
    values.push(None)?;
    let mut made = Vec::new(alloc);
    for _step in 0..steps {
        match all_say(f, &values) {
            Says::Clashes => {
                if !go_back(&mut made, &mut values)? {
                    return Ok(Some(false));
                }
            }
            Says::Makes(l) => {
                set(&mut values, l.variable, Some(l.positive));
                made.push((l, false))?;
            }
            Says::Nothing => match first_open(f.variables, &values) {
                None => return Ok(Some(true)),
                Some(x) => {
                    let l = Lit {
                        variable: x,
                        positive: false,
                    };
                    set(&mut values, x, Some(false));
                    made.push((l, true))?;
                }
            },
        }
    }
    Ok(None)
}
