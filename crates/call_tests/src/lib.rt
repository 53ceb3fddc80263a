//! Tests of what no case's text can ask: generic calls at a second operator type, and calls that the program's own
//! calls don't reach.
#![tactic(auto)]

#[cfg(test)]
mod lists;
#[cfg(test)]
mod picking;
#[cfg(test)]
mod read_off;
#[cfg(test)]
mod std_streams;
#[cfg(test)]
mod terms;
