//! Records that are submitted.

ghost use Rattle.std.specs.Prelude.{◌≡◌, ◌<◌, Ok, Err, [], ◌∷◌, if◌then◌else◌, All, IfOk, drop};
ghost use Rattle.std.specs.Prelude.{length};
ghost use Rattle.table_model.specs.Tables.{JournalTable};
ghost use Rattle.tree_tables.specs.States.{state_of};
ghost use Rattle.book_model.specs.Words.{data_of, IsUsageRecord, record_with};
ghost use Rattle.book_model.specs.Words.{same_bytes};
ghost use Rattle.book_core.specs.Identities.{identity_in};
ghost use Rattle.book_core.specs.OfficeRulings.{ruled_in};
ghost use Rattle.book_core.specs.Submissions.{records_in};
ghost use Rattle.table_model.specs.Steps.{count_where_row};
ghost use Rattle.tree_tables.specs.Steps.{Does};
ghost use Rattle.tree_tables.specs.Stored.{IsFree, IsUncounted, new_entry};
ghost use Rattle.table_ledger.specs.Groups.{before_entry};
ghost use Rattle.table_ledger.specs.Premises.{AreRemembered};
ghost use Rattle.table_ledger.specs.Stages.{AttemptsMany, KeepsRulings, StagesFirst};
ghost use Rattle.table_ledger.specs.Stages.{StagesJoined, StagesMany, StagesRecord, staged_at};

use crate::commits::{commit_written, write_effects, write_sums};
use crate::disputes::IDENTITY_LENGTH;
use crate::effects::look_for_effects;
use crate::groups::{Joined, joined_of, newest_entry, number_of, renew};
use crate::summary::Summary;
use book_core::{Accepted, DayChange, LedgerFault, Naming, Share, is_full, name_of, price_in};
use smf_type30::Type30;
use sqlite_trees::error::StoreError;
use sqlite_trees::store::Store;
use std::alloc::{AllocError, Global};
use tariff_rules::Priced;
use tree_tables::{NewRecord, StoredRecord, TreeTables};

/// What is answered to a record whose name is that of a held one.
fn known_or_clash(stored: &StoredRecord, bytes: &[u8]) -> Result<Accepted, LedgerFault>
    requires { IsUsageRecord bytes.now }
    ensures { result ≡ (if same_bytes stored.now.data_bytes.items (data_of bytes.now)
        then Ok Accepted.Known else Err LedgerFault.DigestClash) }
{
    let (_, data) = bytes.split_at(4);
    if stored.data_bytes.as_slice() == data {
        Ok(Accepted::Known)
    } else {
        Err(LedgerFault::DigestClash)
    }
}

/// Which work a record measures by the rule in force, given its identity by the second rule. That
/// by the first rule is the beginning of it.
fn identity_in_force(adopted: Option<u16>, second: &[u8; 32]) -> &[u8]
    ensures { result.now ≡ identity_in adopted second.now }
{
    match adopted {
        None => &second[..IDENTITY_LENGTH],
        Some(_) => second,
    }
}

/// A record that was just written is counted, where its price joins the charge rows.
fn count_kept<S: Store>(
    tables: &mut TreeTables<S>,
    change: &Option<DayChange>,
    kept: &NewRecord<'_>,
    usage: &Type30<'_>,
) -> Result<(), StoreError>
    requires same { usage.now ≡ record_with kept.now.data_bytes.now }
    ensures does { Does result (state_of tables.old) (state_of tables.new)
        (IsUncounted (new_entry kept.now)) (count_where_row change.now (new_entry kept.now).0) }
{
    match change {
        None | Some(DayChange::Take(_)) => Ok(()),
        Some(DayChange::Add(_)) => tables.count_new(kept, usage),
    }
}

/// Writes a new record at a price, with its effects, inside the transaction, and by which entry it
/// came, if it came by one; the sums and the entry are not written yet.
fn write_new<S: Store>(
    tables: &mut TreeTables<S>,
    alloc: Global,
    summary: &Summary,
    came: Option<u64>,
    name: [u8; 32],
    bytes: &[u8],
    usage: &Type30<'_>,
    priced: &Priced,
) -> Result<(), StoreError>
    requires same { usage.now ≡ bytes.now }
    requires usage { IsUsageRecord bytes.now }
    ensures does { Does result (state_of tables.old) (state_of tables.new)
        (λ tables. AreRemembered summary.now tables × IsFree name tables)
        (staged_at (ruled_in summary.now.rulings) name bytes.now came priced.now) }
{
    let second = usage.identity2();
    let identity = identity_in_force(summary.rulings.adopted(), &second);
    let last_close = summary.rulings.last_close();
    let effects = look_for_effects(tables, alloc, last_close, identity, name, priced)?;
    write_effects(tables, summary.rulings.open_number(), &effects)?;
    let (_, data) = bytes.split_at(4);
    let kept = NewRecord {
        name: &name,
        identity,
        data_bytes: data,
        priced: *priced,
        charged: effects.charged,
        posted: false,
    };
    tables.insert_record(&kept, came)?;
    count_kept(tables, &effects.day, &kept, usage)
}

/// Answers a record, and writes it inside the transaction if it is new, a tariff is in force on
/// its day, and there is room for it. The row of the book has the sums that it had, and the journal
/// the entries.
fn stage_one<S: Store, N: Naming>(
    tables: &mut TreeTables<S>,
    alloc: Global,
    naming: &N,
    summary: &mut Summary,
    came: Option<u64>,
    bytes: &[u8],
) -> Result<Result<Accepted, LedgerFault>, StoreError>
    requires usage { IsUsageRecord bytes.now }
    ensures stages { StagesRecord came (N.name_of naming.now) bytes.now summary.old summary.new
        (state_of tables.old) (state_of tables.new) result }
    ensures ruled { KeepsRulings summary.old summary.new }
{
    let name = name_of(naming, bytes);
    if let Some(stored) = tables.find_record(alloc, &name)? {
        return Ok(known_or_clash(&stored, bytes));
    }
    let usage = Type30::of_usage(bytes);
    let Some(priced) = price_in(summary.rulings.tariffs(), &usage) else {
        return Ok(Ok(Accepted::Unpriced));
    };
    if is_full(summary.held, summary.total, priced.amount) {
        return Ok(Err(LedgerFault::Full));
    }
    write_new(tables, alloc, summary, came, name, bytes, &usage, &priced)?;
    summary.held += 1;
    summary.total += priced.amount;
    Ok(Ok(Accepted::Kept))
}

/// Answers records inside the transaction, in order, up to the first that is refused, and says why
/// that one is. The row of the book has the sums that it had, and the journal the entries.
fn stage_each<S: Store, N: Naming>(
    tables: &mut TreeTables<S>,
    alloc: Global,
    naming: &N,
    summary: &mut Summary,
    came: Option<u64>,
    records: &[Vec<u8>],
    answers: &mut Vec<Accepted>,
) -> Result<Result<(), LedgerFault>, StoreError>
    requires usage { All (λ one. IsUsageRecord one.items) records.now }
    requires none { answers.old.items ≡ [] }
    ensures stages { (rows : JournalTable)
        → StagesMany came (before_entry summary.old.held summary.old.total rows)
        (N.name_of naming.now) (records_in records.now) summary.old summary.new
        (state_of tables.old) (state_of tables.new) answers.new.items result }
    ensures ruled { KeepsRulings summary.old summary.new }
    ensures all { IfOk result (λ told. told ≡ Ok tt
        → length answers.new.items ≡ length records.now) }
{
    for one in records {
        match stage_one(tables, alloc, naming, summary, came, one)? {
            Err(fault) => return Ok(Err(fault)),
            Ok(accepted) => answers.push(accepted)?,
        }
    }
    Ok(Ok(()))
}

/// The same, with the entry that they join. The sums and the entry are written once, after the last.
fn stage_joined<S: Store, N: Naming>(
    tables: &mut TreeTables<S>,
    alloc: Global,
    naming: &N,
    summary: &mut Summary,
    joined: &Option<Joined<'_>>,
    import: &Option<Share>,
    count: usize,
    records: &[Vec<u8>],
    answers: &mut Vec<Accepted>,
) -> Result<Result<(), LedgerFault>, StoreError>
    requires usage { All (λ one. IsUsageRecord one.items) records.now }
    requires none { answers.old.items ≡ [] }
    ensures stages { StagesJoined joined.now (N.name_of naming.now) import.now count
        (records_in records.now) summary.old summary.new (state_of tables.old)
        (state_of tables.new) answers.new.items result }
    ensures ruled { KeepsRulings summary.old summary.new }
    ensures all { IfOk result (λ told. told ≡ Ok tt
        → length answers.new.items ≡ length records.now) }
{
    let (held, total) = (summary.held, summary.total);
    let came = number_of(joined);
    let told = stage_each(tables, alloc, naming, summary, came, records, answers)?;
    write_sums(tables, held, total, summary)?;
    let more = summary.held.saturating_sub(held);
    renew(tables, joined, import, answers.as_slice(), count, more)?;
    Ok(told)
}

/// Answers records inside the transaction, in order, up to the first that is refused: those before
/// it, or why the first one is. With those that are kept comes what their import says of itself,
/// where so many are all that it submits.
fn stage_many<S: Store, N: Naming>(
    tables: &mut TreeTables<S>,
    alloc: Global,
    naming: &N,
    summary: &mut Summary,
    import: &Option<Share>,
    count: usize,
    records: &[Vec<u8>],
) -> Result<Result<Vec<Accepted>, LedgerFault>, StoreError>
    requires some { 0 < length records.now }
    requires usage { All (λ one. IsUsageRecord one.items) records.now }
    ensures stages { StagesFirst (N.name_of naming.now) import.now count (records_in records.now)
        summary.old summary.new (state_of tables.old) (state_of tables.new) result }
    ensures ruled { KeepsRulings summary.old summary.new }
    ensures some { IfOk result (λ answer. IfOk answer (λ answers. 0 < length answers.items)) }
{
    let mut answers = Vec::with_capacity(alloc, records.len())?;
    let newest = newest_entry(tables, alloc)?;
    let joined = joined_of(&newest, import);
    let told = stage_joined(
        tables,
        alloc,
        naming,
        summary,
        &joined,
        import,
        count,
        records,
        &mut answers,
    )?;
    let Err(fault) = told else {
        return Ok(Ok(answers));
    };
    if answers.is_empty() {
        return Ok(Err(fault));
    }
    Ok(Ok(answers))
}

/// Submits records, in order, as one commit, up to the first that is refused.
pub(crate) fn try_accept_many<S: Store, N: Naming>(
    tables: &mut TreeTables<S>,
    alloc: Global,
    naming: &N,
    summary: &mut Summary,
    import: &Option<Share>,
    count: usize,
    records: &[Vec<u8>],
) -> Result<Result<Vec<Accepted>, LedgerFault>, StoreError>
    requires some { 0 < length records.now }
    requires usage { All (λ one. IsUsageRecord one.items) records.now }
    ensures tries { AttemptsMany (N.name_of naming.now) import.now count (records_in records.now)
        summary.old summary.new (state_of tables.old) (state_of tables.new) result }
    ensures some { IfOk result (λ answer. IfOk answer (λ answers. 0 < length answers.items)) }
{
    let held = summary.held;
    let total = summary.total;
    let staged = stage_many(tables, alloc, naming, summary, import, count, records);
    match commit_written(tables, staged) {
        Ok(answer) => Ok(answer),
        Err(error) => {
            // What was written is rolled back.
            summary.held = held;
            summary.total = total;
            Err(error)
        }
    }
}

/// A record alone, as records that are submitted together.
pub(crate) fn alone(alloc: Global, bytes: &[u8]) -> Result<Vec<Vec<u8>>, AllocError>
    ensures { IfOk result (λ records. records_in records.items ≡ bytes.now ∷ []) }
{
    let own = Vec::from_slice(alloc, bytes)?;
    let mut records = Vec::with_capacity(alloc, 1)?;
    records.push(own)?;
    Ok(records)
}

/// The first of some answers.
pub(crate) fn first_answer(answers: Vec<Accepted>) -> Accepted
    requires { 0 < length answers.items }
    ensures { answers.items ≡ result ∷ drop 1 answers.items }
{
    answers[0]
}
