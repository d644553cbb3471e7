//! What is kept of one record.

ghost use Rattle.std.specs.Prelude.{◌≡◌, IfOk};
ghost use Rattle.mdns_message.specs.Borrowed.{hearing_lent};
ghost use Rattle.mdns_join.specs.Latest.{latest_of};
ghost use Rattle.mdns_lives.specs.Account.{goodbye_of};

use crate::chronicle::newer;
use crate::history::History;
use join_map::{Join, Semilattice};
use mdns_capture::Moment;
use mdns_join::Latest;
use mdns_message::BorrowedHearing;
use memory::Want;
use std::alloc::Global;

/// What is kept of one record: its last hearing, the moments and TTLs of the first and the last hearing of each second, and
/// the moment of its latest goodbye, which may lie between these.
#[derive(Drop)]
pub struct Account {
    pub latest: Latest,
    pub history: History,
    pub goodbye: Option<Moment>,
}

impl Account {
    /// Sorts the hearings, and drops those between the first and the last of their second, as long as more than 32 are
    /// left.
    pub(crate) fn sort(&mut self)
        ensures { self.new ≡ self.old }
    {
        self.history.sort();
    }
}

impl Semilattice for Account {
    ghost use Rattle.mdns_lives.specs.Account.{IsAccount, join_account};
    ghost use Rattle.mdns_lives.specs.laws.Account.{account-laws};

    ghost Valid = { IsAccount };

    ghost join = { join_account };

    fn valid(&self) {
        self.history.valid();
    }

    ghost laws = { account-laws };
}

impl Join for Account {
    fn copy(&self, alloc: Global) -> Result<Account, Want> {
        Ok(Account {
            latest: self.latest.copy(alloc)?,
            history: self.history.copy(alloc)?,
            goodbye: self.goodbye,
        })
    }

    #[tactic(auto, using(crate::proofs::AccountLemmas::part_history, crate::proofs::AccountLemmas::part_latest))]
    fn join_with(&mut self, alloc: Global, other: &Account) -> Result<(), Want> {
        self.history.valid();
        other.history.valid();
        self.history.join_with(alloc, &other.history)?;
        self.latest.join_with(alloc, &other.latest)?;
        self.goodbye = newer(self.goodbye, other.goodbye);
        Ok(())
    }
}

/// Returns the moment of a goodbye; `None` of any other hearing (RFC 6762, section 10.1).
pub(crate) fn goodbye_of(hearing: &BorrowedHearing) -> Option<Moment>
    ensures { result ≡ goodbye_of (hearing_lent hearing.now) }
{
    (hearing.ttl == 0).then_some(hearing.moment)
}

/// Copies a hearing as a last hearing.
pub(crate) fn latest_of(alloc: Global, hearing: &BorrowedHearing) -> Result<Latest, Want>
    ensures { IfOk result (λ latest. latest ≡ latest_of (hearing_lent hearing.now)) }
{
    Ok(Latest {
        moment: hearing.moment,
        ttl: hearing.ttl,
        resource: hearing.heard.to_resource(alloc)?,
    })
}
