//! Which service instances have a subject.

ghost use Rattle.std.specs.{Prelude.{◌≡◌, ◌∷◌, [], IfOk, map}, List.{flat_map}};
ghost use Rattle.mdns_cache.specs.LentRecords.{last_lent};
ghost use Rattle.mdns_browse.specs.About.{asks_for_any, data_terms, instance_terms, server_terms};
ghost use Rattle.mdns_browse.specs.Services.{AreAscending, body_of, instance_in, servers_of, servers_in};

use crate::about::Subject;
use crate::about_data::is_in_data;
use crate::about_names::{matches_name, matches_rest};
use crate::lookup::of_set;
use mdns_cache::Last;
use mdns_message::{Name, RecordType, Want};

/// Checks that one of the subjects is the name of an instance, its type, a server or an address of one. The servers are
/// looked up in the rows.
#[tactic(auto, using(crate::proofs::AboutLemmas::for_terms))]
pub(crate) fn is_in_instance(
    about: &[Subject],
    rows: &[Last<'_>],
    name: &Name,
    scratch: &mut String,
) -> Result<bool, Want>
    ensures { IfOk result (λ is. AreAscending (map last_lent rows.now)
        → is ≡ asks_for_any about.now (instance_terms (instance_in (map last_lent rows.now) name.now))) }
{
    let whole = name.borrowed();
    if matches_name(about, &whole, scratch)? {
        return Ok(true);
    }
    if matches_rest(about, &whole, scratch)? {
        return Ok(true);
    }
    is_in_servers(about, rows, name, scratch)
}

// Checks that one of the subjects is a server of a name, or an address of one.
#[tactic(auto, using(crate::proofs::AboutLemmas::for_terms))]
fn is_in_servers(
    about: &[Subject],
    rows: &[Last<'_>],
    name: &Name,
    scratch: &mut String,
) -> Result<bool, Want>
    ensures { IfOk result (λ is. AreAscending (map last_lent rows.now)
        → is ≡ asks_for_any about.now (flat_map server_terms (servers_in (map last_lent rows.now) name.now))) }
{
    for row in of_set(rows, name, RecordType::Srv) {
        if is_in_server(about, rows, row, scratch)? {
            return Ok(true);
        }
    }
    Ok(false)
}

// Checks that one of the subjects is the target of an SRV record's server, or an address of the target.
#[tactic(auto, using(crate::proofs::AboutLemmas::for_terms))]
fn is_in_server(
    about: &[Subject],
    rows: &[Last<'_>],
    row: &Last<'_>,
    scratch: &mut String,
) -> Result<bool, Want>
    ensures { IfOk result (λ is. AreAscending (map last_lent rows.now)
        → is ≡ asks_for_any about.now (flat_map server_terms (servers_of (map last_lent rows.now) (last_lent row.now ∷ [])))) }
{
    let Some(service) = row.resource.body.srv() else {
        return Ok(false);
    };
    let fours = of_set(rows, service.target, RecordType::A);
    let sixes = of_set(rows, service.target, RecordType::Aaaa);
    if matches_name(about, &service.target.borrowed(), scratch)? {
        return Ok(true);
    }
    if is_in_rows(about, fours, scratch)? {
        return Ok(true);
    }
    is_in_rows(about, sixes, scratch)
}

/// Checks that one of the subjects is a word of the data of one of the rows.
#[tactic(auto, using(crate::proofs::AboutLemmas::for_terms))]
pub(crate) fn is_in_rows(
    about: &[Subject],
    rows: &[Last<'_>],
    scratch: &mut String,
) -> Result<bool, Want>
    ensures { IfOk result (λ is. is ≡ asks_for_any about.now (flat_map data_terms (map body_of (map last_lent rows.now)))) }
{
    for row in rows {
        if is_in_data(about, &row.resource.body.borrowed(), scratch)? {
            return Ok(true);
        }
    }
    Ok(false)
}
