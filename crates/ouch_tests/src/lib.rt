// Messages and replies against bytes that were written by hand.
#![tactic(auto)]

#[cfg(test)]
mod asked;
#[cfg(test)]
mod told;
