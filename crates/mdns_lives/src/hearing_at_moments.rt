//! A hearing at each of some moments, which is looked up once.

use crate::account::{Account, goodbye_of, latest_of};
use crate::chronicle::newer;
use crate::flushes::Flushes;
use crate::history::History;
use crate::waiting_moments::MomentsAtOnce;
use join_map::{JoinOwn, ToValue};
use mdns_message::{BorrowedHearing, Key, SetKey};
use memory::Want;
use std::alloc::Global;

/// A hearing at each of some moments, of which its own is the latest.
#[derive(Drop)]
pub(crate) struct HearingAtMoments<'a> {
    pub(crate) hearing: &'a BorrowedHearing<'a>,
    pub(crate) moments: MomentsAtOnce<'a>,
}

/// Its hearings are joined as the account of them.
impl<'a> ToValue<Account> for HearingAtMoments<'a> {
    ghost use Rattle.mdns_message.specs.Borrowed.{hearing_lent};
    ghost use Rattle.mdns_lives.specs.Each.{account_each};

    ghost value = { λ repeats. account_each (hearing_lent repeats.hearing.now) repeats.moments };

    fn to_value(&self, alloc: Global) -> Result<Account, Want> {
        Ok(Account {
            latest: latest_of(alloc, self.hearing)?,
            history: History::of(alloc, self.hearing.ttl, self.moments.all())?,
            goodbye: goodbye_of(self.hearing),
        })
    }
}

/// It recognizes the account of its record as a hearing recognizes the last hearing there.
impl<'a> JoinOwn<Key, Account> for HearingAtMoments<'a> {
    ghost use Rattle.mdns_message.specs.Borrowed.{hearing_lent};
    ghost use Rattle.mdns_message.specs.Resource.{key_of};
    ghost use Rattle.mdns_lives.specs.Account.{IsOwnAccount};

    ghost own = { λ repeats. key_of (hearing_lent repeats.hearing.now).heard };

    ghost Fits = { IsOwnAccount };

    fn to_key(&self, alloc: Global) -> Result<Key, Want> {
        self.hearing.heard.key(alloc)
    }

    fn join_own(&self, alloc: Global, key: &Key, held: &mut Account) -> Option<Result<(), Want>> {
        let moments = self.moments.all();
        let added = held
            .history
            .add_own(alloc, key, self.hearing, moments, &mut held.latest);
        if let Some(Ok(())) = added {
            held.goodbye = newer(held.goodbye, goodbye_of(self.hearing));
        }
        added
    }
}

/// If it has the cache-flush bit, it is joined as the flushes of its moments.
impl<'a> ToValue<Flushes> for HearingAtMoments<'a> {
    ghost use Rattle.mdns_join.specs.Kept.{ascending};
    ghost use Rattle.mdns_join.specs.Nanos.{nanos_of};

    ghost value = { λ repeats. ascending (nanos_of repeats.moments) };

    fn to_value(&self, alloc: Global) -> Result<Flushes, Want> {
        Flushes::of_all(alloc, self.moments.all())
    }
}

/// It recognizes the flushes of its record set by the set's key.
impl<'a> JoinOwn<SetKey, Flushes> for HearingAtMoments<'a> {
    ghost use Rattle.mdns_message.specs.Borrowed.{hearing_lent};
    ghost use Rattle.mdns_message.specs.Resource.{set_key_of};

    ghost own = { λ repeats. set_key_of (hearing_lent repeats.hearing.now).heard };

    ghost Fits = { λ _ _. Unit {0} };

    fn to_key(&self, alloc: Global) -> Result<SetKey, Want> {
        self.hearing.heard.set_key(alloc)
    }

    fn join_own(
        &self,
        _alloc: Global,
        set: &SetKey,
        held: &mut Flushes,
    ) -> Option<Result<(), Want>> {
        if !set.is_of(&self.hearing.heard) {
            return None;
        }
        Some(held.add_all(self.moments.all()))
    }
}
