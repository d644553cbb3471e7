//! The walk over service instances, which hands what it finds to a sheet.

ghost use Rattle.std.specs.{Prelude.{map, OnOk}, List.{filter_map, flat_map}};
ghost use Rattle.mdns_message.specs.Parts.{srv_lent};
ghost use Rattle.mdns_cache.specs.LentRecords.{last_lent};
ghost use Rattle.mdns_browse.specs.{Given.{given_lent}, Services.{AreAscending, body_of, instance_in, instance_row_in, server_at, servers_in}};
ghost use Rattle.mdns_browse.specs.{Services.{texts_in}, Sheet.{instance_pieces, instance_text, server_address, server_pieces, servers_pieces}};

use crate::lookup::of_set;
use crate::sheet::{InstancePointer, Sheet};
use mdns_cache::Last;
use mdns_message::{Name, RecordType, SrvData, Want};

/// Hands over to a sheet the instance of each of the records that give one, in order. The servers and texts are looked up in
/// `rows`, last hearings of records, each record once, in key order.
#[tactic(auto, using(crate::proofs::ReachLemmas::for_walks))]
pub fn walk_given<S: Sheet>(
    sheet: &mut S,
    rows: &[Last<'_>],
    given: &[InstancePointer<'_>],
) -> Result<(), Want>
    ensures { OnOk result (AreAscending (map last_lent rows.now) → S.takes sheet.old
        (flat_map instance_pieces (filter_map (instance_row_in (map last_lent rows.now)) (map given_lent given.now))) sheet.new) }
{
    for row in given {
        // Each has the name of an instance: only PTR records give one.
        let Some(name) = row.row.last.resource.body.ptr_target() else {
            continue;
        };
        walk_instance(sheet, rows, row, name)?;
    }
    Ok(())
}

/// Hands over an instance: the record that gives it with its name, its servers with their addresses, its texts.
pub(crate) fn walk_instance<S: Sheet>(
    sheet: &mut S,
    rows: &[Last<'_>],
    given: &InstancePointer<'_>,
    name: &Name,
) -> Result<(), Want>
    ensures { OnOk result (AreAscending (map last_lent rows.now) → S.takes sheet.old (instance_pieces (record {
      given = given_lent given.now;
      instance = instance_in (map last_lent rows.now) name.now;
    })) sheet.new) }
{
    sheet.instance_begin(given, name)?;
    walk_servers(sheet, rows, name)?;
    walk_texts(sheet, rows, name)?;
    sheet.instance_end()
}

// Hands over the servers of an instance, and their end.
#[tactic(auto, using(crate::proofs::ReachLemmas::for_walks))]
fn walk_servers<S: Sheet>(sheet: &mut S, rows: &[Last<'_>], name: &Name) -> Result<(), Want>
    ensures { OnOk result (AreAscending (map last_lent rows.now)
        → S.takes sheet.old (servers_pieces (servers_in (map last_lent rows.now) name.now)) sheet.new) }
{
    let servers = of_set(rows, name, RecordType::Srv);
    for row in servers {
        // Every row is an SRV record: no other data has this type number.
        let Some(service) = row.resource.body.srv() else {
            continue;
        };
        walk_server(sheet, rows, service)?;
    }
    sheet.servers_end(servers.is_empty())
}

// Hands over a server, and the addresses of its target, which are looked up in the rows.
fn walk_server<S: Sheet>(
    sheet: &mut S,
    rows: &[Last<'_>],
    service: SrvData<&Name>,
) -> Result<(), Want>
    ensures { OnOk result (AreAscending (map last_lent rows.now)
        → S.takes sheet.old (server_pieces (server_at (map last_lent rows.now) (srv_lent service.entry))) sheet.new) }
{
    sheet.server_begin(
        service.priority,
        service.weight,
        service.port,
        service.target,
    )?;
    walk_addresses(sheet, of_set(rows, service.target, RecordType::A))?;
    walk_addresses(sheet, of_set(rows, service.target, RecordType::Aaaa))?;
    sheet.server_end()
}

// Hands over the address of each row.
fn walk_addresses<S: Sheet>(sheet: &mut S, rows: &[Last<'_>]) -> Result<(), Want>
    ensures { OnOk result (S.takes sheet.old (map server_address (map body_of (map last_lent rows.now))) sheet.new) }
{
    for row in rows {
        sheet.server_address(&row.resource.body.borrowed())?;
    }
    Ok(())
}

// Hands over the texts of an instance.
#[tactic(auto, using(crate::proofs::ReachLemmas::for_walks))]
fn walk_texts<S: Sheet>(sheet: &mut S, rows: &[Last<'_>], name: &Name) -> Result<(), Want>
    ensures { OnOk result (AreAscending (map last_lent rows.now)
        → S.takes sheet.old (map instance_text (texts_in (map last_lent rows.now) name.now)) sheet.new) }
{
    for row in of_set(rows, name, RecordType::Txt) {
        // Every row is a TXT record: no other data has this type number.
        let Some(text) = row.resource.body.text() else {
            continue;
        };
        sheet.instance_text(text)?;
    }
    Ok(())
}
