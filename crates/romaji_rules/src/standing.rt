use crate::rule::Rule;

// What a text is among the inputs of a rule set.
pub(crate) enum Standing<'a> {
    // Some input begins with it and goes on.
    Begins,
    // It is the input of this rule, and begins none.
    Input(&'a Rule),
    // It is no input and begins none.
    Neither,
}
