//! Receipts that words spell.

use crate::faults::stop_of;
use book_import::Receipt;
use tests_scripts::{LineFault, LineResult};

/// Reads the numbers that words spell, as many as there is room for.
pub(crate) fn read_numbers(numbers: &mut [u64], words: &[&str]) -> LineResult {
    for (number, word) in numbers.iter_mut().zip(words) {
        *number = word.parse::<u64>()?;
    }
    Ok(())
}

/// The receipt of nine counts and a stop.
pub(crate) fn receipt_of(words: &[&str]) -> LineResult<Receipt> {
    let (words, stop) = words.split_at_checked(9).ok_or(LineFault::NotUnderstood)?;
    let mut counts = [0u64; 9];
    read_numbers(&mut counts, words)?;
    let stop = stop_of(stop)?;
    let [
        kept,
        known,
        unpriced,
        other,
        headers,
        trailers,
        lost,
        continued,
        damaged,
    ] = counts;
    Ok(Receipt {
        kept,
        known,
        unpriced,
        other,
        headers,
        trailers,
        lost,
        continued,
        damaged,
        stop,
    })
}
