// The stepper on examples: at its limits, and lone jobs by two locks.
#![tactic(auto)]

#[cfg(test)]
mod asks;
#[cfg(test)]
mod bench;
#[cfg(test)]
mod opening;
#[cfg(test)]
mod steps;
