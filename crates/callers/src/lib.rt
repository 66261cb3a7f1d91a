// Tests alone: calls from another crate of what no other crate here calls, which are `samples::fill`, and the ways to give a direction the
// length 1, to sample a quad and to hold a distance.
#![tactic(auto)]

#[cfg(test)]
mod tests;
