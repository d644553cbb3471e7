//! Records and hearings that borrow their names and text.

ghost use Rattle.std.specs.Prelude.{◌≡◌, ◌↔◌, IfOk, IsTrue, OnOk};
ghost use Rattle.mdns_message.specs.Resource.{folded_data_of, service_bytes, body_cmp, resource_cmp};
ghost use Rattle.mdns_message.specs.Borrowed.{priority_of, weight_of, port_of, tail_of, body_lent, hearing_lent, resource_lent};

use crate::body::{Body, Bytes, RecordData};
use crate::hearing::Hearing;
use crate::resource::Resource;
use crate::search_hash::SearchHashes;
use dns_name::BorrowedName;
use mdns_capture::Moment;
use memory::{Want, same_bytes};
use std::alloc::Global;
use std::cmp::Ordering;

/// How many bytes the priority, weight and port of an SRV record have.
const SERVICE_LEN: usize = 6;

/// The data of a record, its name or text borrowed.
pub type BorrowedBody<'a> = RecordData<BorrowedName<'a>, &'a [u8]>;

/// A resource record, its names and text borrowed.
#[derive(Debug, Drop)]
pub struct BorrowedResource<'a> {
    pub owner: BorrowedName<'a>,
    pub body: BorrowedBody<'a>,
}

/// A hearing, its record borrowed.
#[derive(Debug, Drop)]
pub struct BorrowedHearing<'a> {
    pub moment: Moment,
    pub heard: BorrowedResource<'a>,
    pub ttl: u32,
    pub flush: bool,
    /// The hashes of the record and its set, used only to find them faster.
    pub hashes: SearchHashes,
}

impl<'a> BorrowedBody<'a> {
    /// Copies the data into owned data.
    pub fn to_body(&self, alloc: Global) -> Result<Body, Want>
        ensures { IfOk result (λ body. body ≡ body_lent self.now) }
    {
        Ok(match self {
            BorrowedBody::A(address) => Body::A(*address),
            BorrowedBody::Aaaa(address) => Body::Aaaa(*address),
            BorrowedBody::Ptr(target) => Body::Ptr(target.to_name(alloc)?),
            BorrowedBody::Txt(strings) => Body::Txt(Bytes::of(alloc, strings)?),
            BorrowedBody::Srv {
                priority,
                weight,
                port,
                target,
            } => Body::Srv {
                priority: *priority,
                weight: *weight,
                port: *port,
                target: target.to_name(alloc)?,
            },
        })
    }

    /// Replaces `folded` by the data's bytes, a name in it folded.
    pub(crate) fn fold_into(&self, alloc: Global, folded: &mut Bytes) -> Result<(), Want>
        ensures { OnOk result (folded.new ≡ folded_data_of (body_lent self.now)) }
    {
        match self {
            BorrowedBody::Ptr(target) => folded.refill_folded(alloc, b"", target),
            BorrowedBody::Srv {
                priority,
                weight,
                port,
                target,
            } => {
                let head = service_bytes(*priority, *weight, *port);
                folded.refill_folded(alloc, head.as_slice(), target)
            }
            nameless => folded.refill(alloc, nameless.tail()),
        }
    }

    // Checks that the other data is the same, letters of a name in the same case. It is asked of each repeat, and equality
    // takes less time than order.
    fn is_spelled_as(&self, other: &BorrowedBody) -> bool
        ensures { IsTrue result ↔ (body_lent self.now ≡ body_lent other.now) }
    {
        match (self, other) {
            (BorrowedBody::A(one), BorrowedBody::A(other)) => one == other,
            (BorrowedBody::Aaaa(one), BorrowedBody::Aaaa(other)) => {
                same_bytes(one.as_slice(), other.as_slice())
            }
            (BorrowedBody::Ptr(one), BorrowedBody::Ptr(other)) => {
                same_bytes(one.wire(), other.wire())
            }
            (BorrowedBody::Txt(one), BorrowedBody::Txt(other)) => same_bytes(one, other),
            (BorrowedBody::Srv { target: one, .. }, BorrowedBody::Srv { target: two, .. }) => {
                self.numbers() == other.numbers() && same_bytes(one.wire(), two.wire())
            }
            _ => false,
        }
    }

    // Compares by type number, then by the data's bytes, without copying these.
    fn spelling(&self, other: &BorrowedBody) -> Ordering
        ensures { result ≡ body_cmp (body_lent self.now) (body_lent other.now) }
    {
        let by_number = self.number().cmp(&other.number());
        if by_number.is_ne() {
            return by_number;
        }
        let by_numbers = self.numbers().cmp(&other.numbers());
        if by_numbers.is_ne() {
            return by_numbers;
        }
        self.tail().cmp(&other.tail())
    }

    // Returns the priority, weight and port of an SRV record, and zeros for data of another type.
    fn numbers(&self) -> (u16, u16, u16)
        ensures priority { result.0 ≡ priority_of (body_lent self.now) }
        ensures weight { result.1 ≡ weight_of (body_lent self.now) }
        ensures port { result.2 ≡ port_of (body_lent self.now) }
    {
        match self {
            BorrowedBody::Srv {
                priority,
                weight,
                port,
                target: _,
            } => (*priority, *weight, *port),
            _ => (0, 0, 0),
        }
    }

    /// Returns the data's bytes, those of an SRV record from after its port.
    pub(crate) fn tail(&self) -> &[u8]
        ensures { result.now ≡ tail_of (body_lent self.now) }
    {
        match self {
            BorrowedBody::A(address) => address.as_slice(),
            BorrowedBody::Aaaa(address) => address.as_slice(),
            BorrowedBody::Ptr(target) => target.wire(),
            BorrowedBody::Txt(strings) => strings,
            BorrowedBody::Srv { target, .. } => target.wire(),
        }
    }
}

impl<'a> BorrowedResource<'a> {
    /// Copies the record into an owned one.
    pub fn to_resource(&self, alloc: Global) -> Result<Resource, Want>
        ensures { IfOk result (λ resource. resource ≡ resource_lent self.now) }
    {
        Ok(Resource {
            owner: self.owner.to_name(alloc)?,
            body: self.body.to_body(alloc)?,
        })
    }

    /// Checks that the other record is the same, letters of names in the same case.
    pub fn is_spelled_as(&self, other: &BorrowedResource) -> bool
        ensures { IsTrue result ↔ (resource_lent self.now ≡ resource_lent other.now) }
    {
        same_bytes(self.owner.wire(), other.owner.wire()) && self.body.is_spelled_as(&other.body)
    }

    /// Compares two records as spelled: by the owner's bytes, the type number, then the data's bytes, all unfolded.
    pub fn spelling(&self, other: &BorrowedResource) -> Ordering
        ensures { result ≡ resource_cmp (resource_lent self.now) (resource_lent other.now) }
    {
        let by_owner = self.owner.wire().cmp(&other.owner.wire());
        if by_owner.is_ne() {
            return by_owner;
        }
        self.body.spelling(&other.body)
    }
}

impl<'a> BorrowedHearing<'a> {
    /// Copies the hearing into an owned one.
    pub fn to_hearing(&self, alloc: Global) -> Result<Hearing, Want>
        ensures { IfOk result (λ hearing. hearing ≡ hearing_lent self.now) }
    {
        Ok(Hearing {
            moment: self.moment,
            heard: self.heard.to_resource(alloc)?,
            ttl: self.ttl,
            flush: self.flush,
        })
    }
}

// Returns the priority, weight and port of an SRV record in big-endian order.
pub(crate) fn service_bytes(priority: u16, weight: u16, port: u16) -> [u8; SERVICE_LEN]
    ensures { result ≡ service_bytes priority weight port }
{
    let priority = priority.to_be_bytes();
    let weight = weight.to_be_bytes();
    let port = port.to_be_bytes();
    [
        priority[0],
        priority[1],
        weight[0],
        weight[1],
        port[0],
        port[1],
    ]
}
