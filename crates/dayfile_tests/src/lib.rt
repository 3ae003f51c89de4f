// Days by their bytes: what is read of a record, how a fault is shown, and what a day writes.
#![tactic(auto)]

#[cfg(test)]
mod playing;
#[cfg(test)]
mod records;
