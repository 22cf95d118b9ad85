//! Books in memory.

use crate::names::Names;
use crate::rows::{AsksOpenBooks, Books};
use plain_ledger::PlainLedger;
use std::alloc::Global;
use tariff_rules::Tariff;
use tests_scripts::{AnswerText, Ask, LineFault, LineResult, Named};

/// The tariff of two rates.
fn flat_of(alloc: Global, cpu: &str, blocks: &str) -> Option<Tariff> {
    let (cpu, blocks) = (cpu.parse::<u64>().ok()?, blocks.parse::<u64>().ok()?);
    Tariff::flat(alloc, cpu, blocks, 0)
}

impl Books for PlainLedger<Names> {
    fn begun(alloc: Global, words: &[&str]) -> Option<PlainLedger<Names>> {
        let names = Names::of(words);
        match *words {
            ["new" | "one-name"] => PlainLedger::new(alloc, names).ok(),
            ["flat" | "one-name", cpu, blocks] => {
                PlainLedger::flat(alloc, names, flat_of(alloc, cpu, blocks)?).ok()
            }
            _ => None,
        }
    }

    fn answer_alone(
        self,
        _named: &Named,
        _ask: Ask<'_>,
        _out: &mut AnswerText,
    ) -> (PlainLedger<Names>, LineResult) {
        (self, Err(LineFault::NotUnderstood))
    }

    fn ask_open<A: AsksOpenBooks>(
        self,
        named: &Named,
        asking: &mut A,
        out: &mut AnswerText,
    ) -> (PlainLedger<Names>, LineResult) {
        let mut ledger = self;
        let answered = asking.ask(named, &mut ledger, out);
        (ledger, answered)
    }
}
