//! Tests of captures, messages, joins and caches.
#![tactic(auto)]

#[cfg(test)]
mod addresses;
#[cfg(test)]
mod allocations;
#[cfg(test)]
mod asserts;
#[cfg(test)]
mod capture;
#[cfg(test)]
mod faults;
#[cfg(test)]
mod joins;
#[cfg(test)]
mod maps;
#[cfg(test)]
mod search_hash;
#[cfg(test)]
mod stream;
