//! Hearings.

ghost use Rattle.std.specs.Prelude.{◌≡◌};
ghost use Rattle.mdns_message.specs.Borrowed.{hearing_lent};

use crate::borrowed::BorrowedHearing;
use crate::resource::Resource;
use mdns_capture::Moment;

/// One record as one packet announces it.
#[derive(Debug, Drop)]
pub struct Hearing {
    /// The packet's moment.
    pub moment: Moment,
    /// The record.
    pub heard: Resource,
    /// Its time to live in seconds; 0 is a goodbye (RFC 6762, section 10.1).
    pub ttl: u32,
    /// The cache-flush bit (RFC 6762, section 10.2).
    pub flush: bool,
}

impl Hearing {
    /// Borrows the hearing.
    pub fn borrowed(&self) -> BorrowedHearing<'_>
        ensures { hearing_lent result ≡ self.now }
    {
        let heard = self.heard.borrowed();
        let hashes = heard.search_hashes();
        BorrowedHearing {
            moment: self.moment,
            heard,
            ttl: self.ttl,
            flush: self.flush,
            hashes,
        }
    }
}
