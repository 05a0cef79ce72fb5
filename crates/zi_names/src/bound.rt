use crate::Binding;

// A binding that is in force, or that a binding of the same prefix hides.
#[derive(Drop)]
pub struct Bound {
    pub binding: Binding,
    // The place of the binding that this one hides, if there is one.
    pub hides: Option<usize>,
}
