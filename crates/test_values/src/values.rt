//! Values for tests. A value that can't be made is the error `Want`, which no test expects.

use mdns_capture::Moment;
use mdns_message::{Body, Name, Resource, Want};
use std::alloc::Global;

/// Makes a moment from seconds and nanoseconds.
pub fn at(seconds: u32, nanos: u32) -> Result<Moment, Want> {
    Moment::from_parts(seconds, nanos).ok_or(Want)
}

/// Makes a moment from tenths of a second.
pub fn tenth(tenths: u32) -> Result<Moment, Want> {
    at(tenths / 10, tenths % 10 * 100_000_000)
}

/// Makes a name from its wire form.
pub fn name(alloc: Global, wire: &[u8]) -> Result<Name, Want> {
    match Name::from_wire(alloc, wire) {
        Ok(name) => Ok(name),
        Err(_) => Err(Want),
    }
}

/// Makes an A record of `owner` with the address 192.0.2.`last`.
pub fn address(alloc: Global, owner: &[u8], last: u8) -> Result<Resource, Want> {
    Ok(Resource {
        owner: name(alloc, owner)?,
        body: Body::A([192, 0, 2, last]),
    })
}

/// Returns whether what a call made is equal to a value. A function that owns a value is costly to prove: this one is
/// proved once for values of any type.
pub fn is_made<T: PartialEq + Drop>(made: Result<T, Want>, value: &T) -> Result<bool, Want> {
    match made {
        Ok(made) => Ok(made == *value),
        Err(want) => Err(want),
    }
}
