//! The ledger: each call is tried on the store, and then settled.

ghost use Rattle.std.specs.Prelude.{◌≡◌, ◌<◌, ◌≤◌, length, take};
ghost use Rattle.table_ledger.specs.Stages.{most_in_commit};

mod creating;
mod opening;

use crate::accept::{alone, first_answer, try_accept_many};
use crate::adjustments::try_adjustments;
use crate::adoption::try_adopt;
use crate::arrivals::try_arrival;
use crate::charges::try_charges;
use crate::choices::try_choose;
use crate::close::try_close;
use crate::credits::try_credit;
use crate::details::try_next_detail;
use crate::disputes::{try_dispute, try_disputes};
use crate::ends::try_end;
use crate::finish::finish;
use crate::given_credits::try_credit_given;
use crate::line_periods::try_period_of_line;
use crate::listed_entries::try_entry;
use crate::listed_rulings::try_ruling;
use crate::named_records::try_record;
use crate::other_prices::try_charges_under;
use crate::periods::try_periods;
use crate::replacing::try_replace;
use crate::summary::Summary;
use crate::tariff::try_tariff;
use crate::trails::try_trail_of;
use crate::withheld_together::try_withhold_many;
use crate::withholding::try_withhold;
use book_core::{
    Accepted, Arrival, ChargeRow, Credit, Detail, Dispute, Ledger, LedgerFault, Line, ListedEntry,
    ListedRuling, Name, Naming, Note, Ruled, Ruling, Share, Stop, Trail, Withheld,
};
use sqlite_trees::store::Store;
use std::alloc::Global;
use tariff_rules::Tariff;
use tree_tables::{Close, CreditText, TreeTables};

/// The most records that one commit takes, and the most works that one withholds.
const MOST_IN_COMMIT: usize = 8_000;

/// Books that are stored in the trees of a store.
#[derive(Drop)]
pub struct TableLedger<S: Store, N: Naming + Drop> {
    tables: TreeTables<S>,
    /// The store failed: the books have to be opened again.
    must_reopen: bool,
    naming: N,
    summary: Summary,
    alloc: Global,
}

/// The records that one commit takes: the first of them.
fn first_records(records: &[Vec<u8>]) -> &[Vec<u8>]
    ensures first { result.now ≡ take most_in_commit records.now }
    ensures some { 0 < length records.now → 0 < length result.now }
{
    if records.len() > MOST_IN_COMMIT {
        &records[..MOST_IN_COMMIT]
    } else {
        records
    }
}

/// The works that one commit withholds: those of the first of these names.
fn first_names(names: &[[u8; 32]]) -> &[[u8; 32]]
    ensures first { result.now ≡ take most_in_commit names.now }
    ensures some { 0 < length names.now → 0 < length result.now }
    ensures few { length result.now ≤ most_in_commit }
    ensures within { length result.now ≤ length names.now }
{
    if names.len() > MOST_IN_COMMIT {
        &names[..MOST_IN_COMMIT]
    } else {
        names
    }
}

impl<S: Store, N: Naming + Drop> Ledger for TableLedger<S, N> {
    ghost use Rattle.std.specs.Prelude.{All, IfOk};
    ghost use Rattle.book_model.specs.Words.{IsUsageRecord};
    ghost use Rattle.book_core.specs.Calls.{Reopens};
    ghost use Rattle.book_core.specs.Submissions.{TakesOf, records_in};
    ghost use Rattle.book_core.specs.Transition.{IsTransition};
    ghost use Rattle.table_ledger.specs.LedgerState.{seen_in};
    ghost use Rattle.table_ledger.specs.ReadyBooks.{settled_on};
    ghost use Rattle.table_ledger.specs.Stages.{TakesFew};

    ghost seen = { seen_in N.name_of };

    fn rule(&mut self, ruling: Ruling<'_>, note: &Option<Note>) -> Result<Ruled, LedgerFault> {
        if self.must_reopen {
            return Err(LedgerFault::Reopen);
        }
        let tables = &mut self.tables;
        let summary = &mut self.summary;
        let alloc = self.alloc;
        let tried = match ruling {
            Ruling::Tariff(text) => try_tariff(tables, summary, alloc, text, note),
            Ruling::Close { period, through } => {
                try_close(tables, alloc, summary, &Close { period, through }, note)
            }
            Ruling::Choose(name) => try_choose(tables, alloc, summary, name, note),
            Ruling::Adopt(rule) => try_adopt(tables, alloc, summary, rule, note),
            Ruling::Replace(text) => try_replace(tables, summary, alloc, text, note),
            Ruling::Withhold(name) => try_withhold(tables, alloc, summary, name, note),
            Ruling::Credit {
                period,
                centre,
                amount,
                reason,
            } => {
                let credit = CreditText {
                    period,
                    centre,
                    amount,
                    reason,
                };
                try_credit(tables, alloc, summary, &credit, note)
            }
        };
        finish(&mut self.tables, &mut self.must_reopen, tried)
    }

    fn withhold_many(
        &mut self,
        names: &[[u8; 32]],
        note: &Option<Note>,
    ) -> Result<Withheld, LedgerFault> {
        if self.must_reopen {
            return Err(LedgerFault::Reopen);
        }
        let first = first_names(names);
        let tried = try_withhold_many(&mut self.tables, self.alloc, &mut self.summary, first, note);
        finish(&mut self.tables, &mut self.must_reopen, tried)
    }

    fn accept(&mut self, bytes: &[u8]) -> Result<Accepted, LedgerFault> {
        if self.must_reopen {
            return Err(LedgerFault::Reopen);
        }
        let records = alone(self.alloc, bytes)?;
        let answers = self.accept_many(&records, &None)?;
        Ok(first_answer(answers))
    }

    fn accept_many(
        &mut self,
        records: &[Vec<u8>],
        import: &Option<Share>,
    ) -> Result<Vec<Accepted>, LedgerFault>
        requires some { 0 < length records.now }
        requires usage { All (λ one. IsUsageRecord one.items) records.now }
        ensures takes { IsTransition (seen_in N.name_of self.old) (seen_in N.name_of self.new)
            (TakesOf (N.name_of self.old.naming) import.now (records_in records.now) result) }
        ensures some { IfOk result (λ answers. 0 < length answers.items) }
        ensures reopens { Reopens result (seen_in N.name_of self.old).must_reopen
            (seen_in N.name_of self.new).must_reopen }

        // It is one commit, which takes no more records than this, also where a stop comes within.
        ensures few { IsTransition (seen_in N.name_of self.old) (seen_in N.name_of self.new)
            (TakesFew (N.name_of self.old.naming) import.now (length records.now)
            (records_in (take most_in_commit records.now)) result) }
    {
        if self.must_reopen {
            return Err(LedgerFault::Reopen);
        }
        let first = first_records(records);
        let tried = try_accept_many(
            &mut self.tables,
            self.alloc,
            &self.naming,
            &mut self.summary,
            import,
            records.len(),
            first,
        );
        finish(&mut self.tables, &mut self.must_reopen, tried)
    }

    fn end_import(&mut self, stop: Stop) -> Result<(), LedgerFault> {
        if self.must_reopen {
            return Err(LedgerFault::Reopen);
        }
        let tried = try_end(&mut self.tables, &self.summary, self.alloc, stop);
        finish(&mut self.tables, &mut self.must_reopen, tried)
    }

    fn charges(&mut self, period: u16) -> Result<Vec<ChargeRow>, LedgerFault> {
        if self.must_reopen {
            return Err(LedgerFault::Reopen);
        }
        let tried = try_charges(&mut self.tables, self.alloc, &self.summary, period);
        finish(&mut self.tables, &mut self.must_reopen, tried)
    }

    fn charges_under(
        &mut self,
        period: u16,
        tariff: &Tariff,
    ) -> Result<Vec<ChargeRow>, LedgerFault> {
        if self.must_reopen {
            return Err(LedgerFault::Reopen);
        }
        let tried = try_charges_under(&mut self.tables, self.alloc, &self.summary, period, tariff);
        finish(&mut self.tables, &mut self.must_reopen, tried)
    }

    fn adjustments(&mut self, period: u16) -> Result<Vec<Line>, LedgerFault> {
        if self.must_reopen {
            return Err(LedgerFault::Reopen);
        }
        let tried = try_adjustments(&mut self.tables, &self.summary, self.alloc, period);
        finish(&mut self.tables, &mut self.must_reopen, tried)
    }

    fn period_of_line(&mut self, number: u16, line: &Line) -> Result<Option<u16>, LedgerFault> {
        if self.must_reopen {
            return Err(LedgerFault::Reopen);
        }
        let tried = try_period_of_line(&mut self.tables, &self.summary, self.alloc, number, line);
        finish(&mut self.tables, &mut self.must_reopen, tried)
    }

    fn next_detail(
        &mut self,
        period: u16,
        centre: Option<Name>,
        after: Option<Detail>,
    ) -> Result<Option<Detail>, LedgerFault> {
        if self.must_reopen {
            return Err(LedgerFault::Reopen);
        }
        let tried = try_next_detail(&mut self.tables, &self.summary, period, centre, after);
        finish(&mut self.tables, &mut self.must_reopen, tried)
    }

    fn disputes(&mut self) -> Result<Vec<Dispute>, LedgerFault> {
        if self.must_reopen {
            return Err(LedgerFault::Reopen);
        }
        let tried = try_disputes(&mut self.tables, &self.summary, self.alloc);
        finish(&mut self.tables, &mut self.must_reopen, tried)
    }

    fn dispute_from(&mut self, from: &[u8]) -> Result<Option<Dispute>, LedgerFault> {
        if self.must_reopen {
            return Err(LedgerFault::Reopen);
        }
        let tried = try_dispute(&mut self.tables, &self.summary, self.alloc, from);
        finish(&mut self.tables, &mut self.must_reopen, tried)
    }

    fn periods(&mut self) -> Result<Vec<i32>, LedgerFault> {
        if self.must_reopen {
            return Err(LedgerFault::Reopen);
        }
        let tried = try_periods(&self.tables, &self.summary, self.alloc);
        finish(&mut self.tables, &mut self.must_reopen, tried)
    }

    fn ruling(&mut self, number: u64) -> Result<Option<ListedRuling>, LedgerFault> {
        if self.must_reopen {
            return Err(LedgerFault::Reopen);
        }
        let tried = try_ruling(&mut self.tables, &self.summary, self.alloc, number);
        finish(&mut self.tables, &mut self.must_reopen, tried)
    }

    fn credit_given(&mut self, number: u64) -> Result<Option<Credit>, LedgerFault> {
        if self.must_reopen {
            return Err(LedgerFault::Reopen);
        }
        let tried = try_credit_given(&mut self.tables, &self.summary, self.alloc, number);
        finish(&mut self.tables, &mut self.must_reopen, tried)
    }

    fn entry(&mut self, number: u64) -> Result<Option<ListedEntry>, LedgerFault> {
        if self.must_reopen {
            return Err(LedgerFault::Reopen);
        }
        let tried = try_entry(&mut self.tables, &self.summary, self.alloc, number);
        finish(&mut self.tables, &mut self.must_reopen, tried)
    }

    fn arrival_from(&mut self, from: &[u8]) -> Result<Option<Arrival>, LedgerFault> {
        if self.must_reopen {
            return Err(LedgerFault::Reopen);
        }
        let tried = try_arrival(&mut self.tables, &self.summary, from);
        finish(&mut self.tables, &mut self.must_reopen, tried)
    }

    fn record_named(&mut self, alloc: Global, name: &[u8; 32]) -> Result<Vec<u8>, LedgerFault> {
        if self.must_reopen {
            return Err(LedgerFault::Reopen);
        }
        let tried = try_record(&mut self.tables, &self.summary, alloc, name);
        finish(&mut self.tables, &mut self.must_reopen, tried)
    }

    fn trail_of(&mut self, alloc: Global, name: &[u8; 32]) -> Result<Trail, LedgerFault> {
        if self.must_reopen {
            return Err(LedgerFault::Reopen);
        }
        let tried = try_trail_of(&mut self.tables, &self.summary, alloc, name);
        finish(&mut self.tables, &mut self.must_reopen, tried)
    }

    ghost settled = { λ ledger clean books. settled_on _ _ _ _ _ (λ trees is_open left.
        S.Store.settled ledger.tables.store trees is_open left) clean books };
}
