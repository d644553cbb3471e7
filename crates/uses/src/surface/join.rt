//! A key of a caller's own, in a map of `mdns_join`.

ghost use Rattle.std.proofs.lemmas.Map.Lookups.{exact_unsigned};

use mdns_capture::Moment;
use mdns_join::{Copied, JoinMap, Moments};
use mdns_message::Want;
use std::alloc::Global;

/// A key for which only `copy` and `exact` are written.
#[derive(Drop, PartialEq, Eq, PartialOrd, Ord)]
pub struct Port {
    number: u16,
}

impl Copied for Port {
    fn copy(&self, _alloc: Global) -> Result<Port, Want> {
        Ok(Port {
            number: self.number,
        })
    }

    ghost exact = { λ a b tie i. record { number = exact_unsigned a.number b.number tie i } };
}

/// Joins a moment into the flush moments at a port, and returns these.
pub fn flush_port(
    alloc: Global,
    flushes: &mut JoinMap<Port, Moments>,
    number: u16,
    moment: Moment,
) -> Result<Option<&Moments>, Want> {
    let port = Port { number };
    let moments = Moments::of(alloc, moment)?;
    flushes.put_join(alloc, &port, &moments)?;
    Ok(flushes.get(&port))
}
