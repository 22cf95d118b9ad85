//! The rates of a tariff file.

ghost use Rattle.std.specs.Prelude.{◌≡◌};
ghost use Rattle.toml.specs.View.{table_view};
ghost use Rattle.tariff_rules.specs.TariffFile as spec;

use super::{MAX_RATE, Rates};
use crate::document::integer_at;
use crate::fault::TariffFault;
use crate::key::Key;
use toml::Table;

impl Rates {
    /// The rates at three keys of the table: of a CPU second, of 1,000 blocks, of a record.
    #[tactic(auto, unfolding(crate::specs::TariffFile::rates_at))]
    pub(crate) fn at(
        table: &Table,
        cpu_key: Key,
        excp_key: Key,
        record_key: Key,
    ) -> Result<Rates, TariffFault>
        ensures { result ≡ spec.rates_at (table_view table.now) cpu_key excp_key record_key }
    {
        let cpu = integer_at(table, cpu_key, 0, MAX_RATE)?;
        let excp = integer_at(table, excp_key, 0, MAX_RATE)?;
        let record_fee = integer_at(table, record_key, 0, MAX_RATE)?;
        Ok(Rates {
            cpu,
            excp,
            record_fee,
        })
    }
}
