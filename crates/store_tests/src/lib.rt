// Tests of the order stores. They stand in a crate of their own, so that the stores' own is proved once.
#![tactic(auto)]

#[cfg(test)]
mod calls;
#[cfg(test)]
mod row;
#[cfg(test)]
mod turns;
