//! Rows of senders with the names that they go by, and the names of the listeners that rows give by their positions.

ghost use Rattle.std.specs.Prelude.{◌≡◌, map, string_bytes};
ghost use Rattle.mdns_listeners.specs.NamedSender.{listener_name_at};

use crate::senders::SenderRow;
use mdns_message::Name;

/// A row of a sender, and the names that the sender goes by.
#[derive(Clone, Copy)]
pub struct NamedSender<'a> {
    pub row: SenderRow,
    pub names: &'a [Name],
}

/// Returns the name of the listener at a position; an empty text if there is no such listener.
pub(crate) fn listener_name_at(listener_names: &[String], listener: usize) -> &str
    ensures { result.now ≡ listener_name_at (map string_bytes listener_names.now) listener }
{
    let name = listener_names.get(listener);
    name.map_or("", |name| name.as_str())
}
