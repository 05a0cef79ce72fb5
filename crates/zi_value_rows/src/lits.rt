//! Literals: the opposite of an opposite.
use zi_formula::Lit;

#[test]
fn opposites(rt: HostRuntime) {
    let one = Lit {
        variable: 1,
        positive: true,
    };
    assert!(rt; one.opposite() != one && one.opposite().opposite() == one);
}
