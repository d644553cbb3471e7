//! Hearings of one record, and the lives that they give it.

use mdns_capture::Moment;

/// A hearing of a record: its moment and its TTL.
#[derive(Clone, Copy)]
pub struct RecordHearing {
    /// The packet's moment.
    pub moment: Moment,
    /// The time to live in seconds; 0 is a goodbye (RFC 6762, section 10.1).
    pub ttl: u32,
}

/// Why a life ends.
#[derive(Clone, Copy)]
pub enum EndReason {
    /// The TTL of its last hearing ran out. Texts say `expired`.
    Expired,
    /// Its last hearing was a goodbye, one second before (RFC 6762, section 10.1).
    Goodbye,
    /// A cache flush of its record set struck it (RFC 6762, section 10.2).
    Flushed,
}

/// A life of a record: the record was live at each moment from `from` until just before `until`. It was not live at
/// `until`, nor just before `from`.
#[derive(Clone, Copy)]
pub struct Life {
    /// The moment of its first hearing.
    pub from: Moment,
    /// The last hearing in it, which decides when and why it ends.
    pub last: RecordHearing,
    /// Its end, in nanoseconds since 1970. It may be later than the greatest `Moment`.
    pub until: u64,
    /// Why it ends.
    pub reason: EndReason,
    /// The record's latest goodbye, if this life took it back: it came in it, and the record was announced again within a second
    /// (RFC 6762, section 10.1). The last hearing in the life is no goodbye, and comes no earlier.
    pub taken_back: Option<Moment>,
}

/// Which lives of each record.
#[derive(Clone, Copy)]
pub enum Which {
    /// All of them.
    All,
    /// All of those record sets in which a record came, or came back, after another had come. None of a PTR record, since those
    /// of a set stand side by side (RFC 6763, section 4.1). With a window, of the sets in which that happened in it.
    Changes,
}
