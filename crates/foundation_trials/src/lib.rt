#![tactic(auto)]

// Examples of the foundations, run as tests: arithmetics, the form of lines, the two hosts.
#[cfg(test)]
mod arithmetics;
#[cfg(test)]
mod hosts;
#[cfg(test)]
mod notes;
