// What the members of an agreement's groups are tested against.

// How many states, variables and accounts the agreement has.
#[derive(Clone, Copy)]
pub struct Limits {
    pub states: usize,
    pub variables: usize,
    pub accounts: usize,
}
