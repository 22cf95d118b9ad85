//! Identities that two or more records have, for which none was chosen and that are not withheld.

ghost use Rattle.std.specs.Prelude.{◌≡◌, All, IfOk, IsTrue, false, map, option_map};
ghost use Rattle.tree_tables.specs.States.{state_of};
ghost use Rattle.book_model.specs.Words.{AreDisputes, dispute_shown, disputes_outcome, Naming};
ghost use Rattle.book_model.specs.Words.{ShowsDispute, dispute_outcome};
ghost use Rattle.tree_tables.specs.Stored.{stored_entry};
ghost use Rattle.table_model.specs.DisputesRead.{join_last, dispute_of_one, variant_read};
ghost use Rattle.tree_tables.specs.Steps.{Looks};
ghost use Rattle.table_ledger.specs.DisputeReads.{FindsGroups, FindsNext, IsIdentity, IsShownRow};
ghost use Rattle.table_ledger.specs.DisputeReads.{dispute_made, is_settled_in};
ghost use Rattle.table_ledger.specs.Adoptions.{IsLast};
ghost use Rattle.table_ledger.specs.Stages.{AttemptsOne};

use crate::chosen::{Chosen, look_for_chosen};
use crate::days::is_day;
use crate::summary::Summary;
use crate::withheld::is_withheld;
use book_core::{Dispute, LedgerFault, Variant, copied};
use smf_type30::Type30;
use sqlite_trees::error::StoreError;
use sqlite_trees::store::Store;
use std::alloc::Global;
use tree_tables::{MOST_STEPS, StoredRecord, TreeTables, usage_bytes};

/// The bytes of an identity by the first rule.
pub(crate) const IDENTITY_LENGTH: usize = 24;

/// The bytes of an identity by the second rule.
const IDENTITY2_LENGTH: usize = 32;

/// The bytes are as many as the parts of an identity need by one of the two rules.
fn is_identity(bytes: &[u8]) -> bool
    ensures is { IsTrue result → IsIdentity bytes.now }
    ensures is_not { result ≡ false → ¬ IsIdentity bytes.now }
{
    bytes.len() == IDENTITY_LENGTH || bytes.len() == IDENTITY2_LENGTH
}

/// The record can be shown: its identity is one, and it is dated on a day.
fn is_shown(row: &StoredRecord) -> bool
    ensures shown { IsTrue result → IsShownRow (stored_entry row.now) }
    ensures refused { result ≡ false → ¬ IsShownRow (stored_entry row.now) }
{
    is_identity(&row.identity) && is_day(row.priced.day)
}

/// All of the records can be shown.
pub(crate) fn can_show(rows: &[StoredRecord]) -> bool
    ensures shown { IsTrue result → All (λ row. IsShownRow (stored_entry row)) rows.now }
    ensures refused { result ≡ false → ¬ All (λ row. IsShownRow (stored_entry row)) rows.now }
{
    rows.iter().all(|row| is_shown(row))
}

/// A record as the list of disputes shows it.
fn variant(alloc: Global, stored: &StoredRecord) -> Result<Variant, StoreError>
    ensures read { IfOk result (λ variant. variant ≡ variant_read (stored_entry stored.now)) }
{
    let bytes = usage_bytes(alloc, &stored.data_bytes)?;
    let usage = Type30::of_usage(&bytes);
    Ok(Variant {
        name: stored.name,
        priced: stored.priced,
        job_id: copied(usage.job_id()),
        program: copied(usage.program()),
        completion: usage.completion(),
        initiation: copied(usage.initiation()),
    })
}

/// A dispute of one record.
fn single_dispute(alloc: Global, stored: &StoredRecord) -> Result<Dispute, StoreError>
    ensures made { IfOk result (λ made. dispute_shown made ≡ dispute_of_one (stored_entry stored.now)) }
{
    let member = variant(alloc, stored)?;
    let identity = Vec::from_slice(alloc, &stored.identity)?;
    let mut members = Vec::new(alloc);
    members.push(member)?;
    Ok(Dispute { identity, members })
}

/// A record joins the last dispute if that has its identity; else it begins one.
fn join(alloc: Global, found: &mut Vec<Dispute>, stored: &StoredRecord) -> Result<(), StoreError>
    ensures joined { IfOk result (λ joined. map dispute_shown found.new.items
        ≡ join_last (map dispute_shown found.old.items) (stored_entry stored.now)) }
    ensures shown { IfOk result (λ joined. IsShownRow (stored_entry stored.now)
        → AreDisputes (map dispute_shown found.old.items)
        → AreDisputes (map dispute_shown found.new.items)) }
{
    let Some(mut last) = found.pop() else {
        found.push(single_dispute(alloc, stored)?)?;
        return Ok(());
    };
    if last.identity.as_slice() == stored.identity.as_slice() {
        last.members.push(variant(alloc, stored)?)?;
        found.push(last)?;
    } else {
        found.push(last)?;
        found.push(single_dispute(alloc, stored)?)?;
    }
    Ok(())
}

/// An identity is settled: a record of it is charged, which was chosen, or its work is withheld, by
/// the last choice of each identity.
fn is_settled_by<S: Store>(
    tables: &mut TreeTables<S>,
    chosen: &Chosen,
    identity: &[u8],
) -> Result<bool, StoreError>
    ensures looks { Looks result (state_of tables.old) (state_of tables.new)
        (λ tables settled. IsLast chosen.now tables → settled ≡ is_settled_in tables identity.now) }
{
    if chosen.withholds(identity) {
        return Ok(true);
    }
    let charged = tables.has_charged(identity)?;
    Ok(charged)
}

/// Records that are not charged and in order, in groups: neighbours of one identity are one
/// dispute. If their identity is settled, they are left out.
fn grouped<S: Store>(
    tables: &mut TreeTables<S>,
    alloc: Global,
    chosen: &Chosen,
    rows: &[StoredRecord],
) -> Result<Vec<Dispute>, StoreError>
    requires shown { All (λ row. IsShownRow (stored_entry row)) rows.now }
    ensures looks { Looks result (state_of tables.old) (state_of tables.new)
        (λ tables found. IsLast chosen.now tables
        → FindsGroups (map stored_entry rows.now) tables (map dispute_shown found.items)) }
    ensures shown { IfOk result (λ found. AreDisputes (map dispute_shown found.items)) }
{
    let mut found = Vec::new(alloc);
    for stored in rows {
        if !is_settled_by(tables, chosen, &stored.identity)? {
            join(alloc, &mut found, stored)?;
        }
    }
    Ok(found)
}

/// The identities of two or more records for which none was chosen, by their bytes, each with its
/// records by name.
pub(crate) fn try_disputes<S: Store>(
    tables: &mut TreeTables<S>,
    summary: &Summary,
    alloc: Global,
) -> Result<Result<Vec<Dispute>, LedgerFault>, StoreError>
    ensures tries { (naming : Naming) → AttemptsOne (λ found. map dispute_shown found.items) naming
        summary.now summary.now (state_of tables.old) (state_of tables.new)
        (disputes_outcome naming) result }
    ensures shown { IfOk result (λ answer.
        IfOk answer (λ found. AreDisputes (map dispute_shown found.items))) }
{
    let rows = tables.list_uncharged(alloc)?;
    if !can_show(&rows) {
        return Err(StoreError::Corrupt);
    }
    let chosen = look_for_chosen(tables, alloc)?;
    Ok(Ok(grouped(tables, alloc, &chosen, &rows)?))
}

/// An identity is settled: a record of it is charged, which was chosen, or its work is withheld.
fn is_settled<S: Store>(
    tables: &mut TreeTables<S>,
    alloc: Global,
    identity: &[u8],
) -> Result<bool, StoreError>
    ensures looks { Looks result (state_of tables.old) (state_of tables.new)
        (λ tables settled. settled ≡ is_settled_in tables identity.now) }
{
    let charged = tables.has_charged(identity)?;
    if charged {
        return Ok(true);
    }
    let withheld = is_withheld(tables, alloc, identity)?;
    Ok(withheld)
}

/// The least identity in dispute that is these bytes or comes after them. An identity that is
/// settled is passed over.
fn next_disputed<S: Store>(
    tables: &mut TreeTables<S>,
    alloc: Global,
    from: &[u8],
) -> Result<Option<Vec<u8>>, StoreError>
    ensures looks { Looks result (state_of tables.old) (state_of tables.new) (FindsNext from.now) }
{
    let mut reached = Vec::from_slice(alloc, from)?;
    'identities: for _steps in 0..MOST_STEPS {
        let Some(mut identity) = tables.find_uncharged(alloc, &reached)? else {
            return Ok(None);
        };
        let settled = is_settled(tables, alloc, &identity)?;
        if !settled {
            return Ok(Some(identity));
        }
        // With a zero byte behind, it is the first bytes after itself.
        identity.push(0)?;
        reached = identity;
    }
    // So many are never held.
    Err(StoreError::OutOfMemory)
}

/// Records as the list of disputes shows them.
pub(crate) fn variants(alloc: Global, rows: &[StoredRecord]) -> Result<Vec<Variant>, StoreError>
    ensures made { IfOk result (λ made. made.items ≡ map variant_read (map stored_entry rows.now)) }
{
    let mut members = Vec::new(alloc);
    for stored in rows {
        let member = variant(alloc, stored)?;
        members.push(member)?;
    }
    Ok(members)
}

/// The dispute of an identity with these records.
fn dispute_of(
    alloc: Global,
    identity: Vec<u8>,
    rows: &[StoredRecord],
) -> Result<Dispute, StoreError>
    ensures made { IfOk result (λ made. dispute_shown made ≡ dispute_made identity.items rows.now) }
{
    let members = variants(alloc, rows)?;
    Ok(Dispute { identity, members })
}

/// The first dispute whose identity is these bytes or comes after them: the records of one identity
/// are read, and no others.
pub(crate) fn try_dispute<S: Store>(
    tables: &mut TreeTables<S>,
    summary: &Summary,
    alloc: Global,
    from: &[u8],
) -> Result<Result<Option<Dispute>, LedgerFault>, StoreError>
    ensures tries { (naming : Naming) → AttemptsOne (λ found. option_map dispute_shown found) naming
        summary.now summary.now (state_of tables.old) (state_of tables.new)
        (dispute_outcome naming from.now) result }
    ensures shown { IfOk result (λ answer. IfOk answer ShowsDispute) }
{
    let Some(identity) = next_disputed(tables, alloc, from)? else {
        return Ok(Ok(None));
    };
    let rows = tables.list_sharing(alloc, &identity)?;
    if !is_identity(&identity) {
        return Err(StoreError::Corrupt);
    }
    if !can_show(&rows) {
        return Err(StoreError::Corrupt);
    }
    let dispute = dispute_of(alloc, identity, &rows)?;
    Ok(Ok(Some(dispute)))
}
