//! The pieces of service instances, as a walk over the live records hands them to a form.

ghost use Rattle.std.specs.Prelude.{List, [], ◌∷◌, OnOk};
ghost use Rattle.mdns_message.specs.Borrowed.{body_lent};
ghost use Rattle.mdns_browse.specs.{Given.{given_lent}, Sheet.{Piece, TakeLaws, instance_begin, instance_end, instance_text}};
ghost use Rattle.mdns_browse.specs.Sheet.{server_address, server_begin, server_end, servers_end};

pub use crate::report_walk::walk_given;
use mdns_cache::LiveRecord;
use mdns_capture::Moment;
use mdns_message::{BorrowedBody, Bytes, Name, Want};

/// The live PTR record that gives an instance (RFC 6763, section 4.1).
#[derive(Clone, Copy)]
pub struct InstancePointer<'a> {
    /// Its last hearing and its end.
    pub row: LiveRecord<'a>,
    /// Since when it has been live, where that is known.
    pub since: Option<Moment>,
}

/// Takes the pieces of service instances, and writes each in its form. After `Want` the contents of a sheet are not specified.
pub trait Sheet {
    /// What holds of a sheet before some pieces and after all of them.
    ghost takes: { Self → List Piece → Self → Type 0 };

    /// Takes the record that gives an instance, and the instance's name; its servers and texts follow.
    fn instance_begin(&mut self, given: &InstancePointer<'_>, name: &Name) -> Result<(), Want>
        ensures { OnOk result (takes self.old (instance_begin (given_lent given.now) name.now ∷ []) self.new) };

    /// Takes a server; its addresses follow.
    fn server_begin(
        &mut self,
        priority: u16,
        weight: u16,
        port: u16,
        target: &Name,
    ) -> Result<(), Want>
        ensures { OnOk result (takes self.old (server_begin priority weight port target.now ∷ []) self.new) };

    /// Takes an address of the server.
    fn server_address(&mut self, address: &BorrowedBody<'_>) -> Result<(), Want>
        ensures { OnOk result (takes self.old (server_address (body_lent address.now) ∷ []) self.new) };

    /// Ends the server.
    fn server_end(&mut self) -> Result<(), Want>
        ensures { OnOk result (takes self.old (server_end ∷ []) self.new) };

    /// Ends the servers of the instance, of which there may be none.
    fn servers_end(&mut self, none: bool) -> Result<(), Want>
        ensures { OnOk result (takes self.old (servers_end none ∷ []) self.new) };

    /// Takes the data of a TXT record of the instance.
    fn instance_text(&mut self, text: &Bytes) -> Result<(), Want>
        ensures { OnOk result (takes self.old (instance_text text.now ∷ []) self.new) };

    /// Ends the instance.
    fn instance_end(&mut self) -> Result<(), Want>
        ensures { OnOk result (takes self.old (instance_end ∷ []) self.new) };

    ghost laws: { TakeLaws takes };
}
