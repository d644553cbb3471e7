//! Tests of what no run of the programs can show: calls that fail, counts of calls, and a call that no program makes.
#![tactic(auto)]

#[cfg(test)]
mod allocations;
#[cfg(test)]
mod asserts;
#[cfg(test)]
mod hearings;
#[cfg(test)]
mod listen;
#[cfg(test)]
mod listeners;
#[cfg(test)]
mod requests;
#[cfg(test)]
mod slow;
#[cfg(test)]
mod survey;
#[cfg(test)]
mod traces;
#[cfg(test)]
mod unread;
#[cfg(test)]
mod unwritten;
#[cfg(test)]
mod words;
