//! Where each column stands in the rows of its table, as files of this form have them.

// The row of the book.

/// Its number, which is 1.
pub const BOOK_NUMBER: usize = 0;

/// The rule of identity in force, 1 or 2.
pub const BOOK_RULE: usize = 1;

/// The period that was open when the second rule was adopted, or 0.
pub const BOOK_ADOPTED: usize = 2;

/// How many records are held.
pub const BOOK_HELD: usize = 3;

/// What they cost together, in ten-thousandths of the money unit.
pub const BOOK_AMOUNT: usize = 4;

// Tariffs.

/// Its first day, in days since 1970-01-01.
pub const TARIFF_DAY: usize = 0;

/// The text of its file, if it came as one.
pub const TARIFF_TEXT: usize = 1;

// Closes.

/// The number of the period.
pub const CLOSE_PERIOD: usize = 0;

/// The day through which it was closed, in days since 1970-01-01.
pub const CLOSE_THROUGH: usize = 1;

// Records.

/// Its name, 32 bytes.
pub const RECORD_NAME: usize = 0;

/// Its identity by the rule in force, 24 bytes or 32.
pub const RECORD_IDENTITY: usize = 1;

/// Its data after the descriptor.
pub const RECORD_DATA: usize = 2;

/// The day of its header, in days since 1970-01-01.
pub const RECORD_DAY: usize = 3;

/// The name of its shift.
pub const RECORD_SHIFT: usize = 4;

/// The name of its centre.
pub const RECORD_CENTRE: usize = 5;

/// Its CPU time, in hundredths of a second.
pub const RECORD_CPU: usize = 6;

/// Its blocks transferred, the EXCP count.
pub const RECORD_BLOCKS: usize = 7;

/// What it costs, in ten-thousandths of the money unit.
pub const RECORD_AMOUNT: usize = 8;

/// Whether it is charged now.
pub const RECORD_CHARGED: usize = 9;

/// Whether the last close charged it.
pub const RECORD_POSTED: usize = 10;

/// The number of the entry of the journal by which it came. The row of a record that came by none
/// ends before it.
pub const RECORD_CAME: usize = 11;

// Charge rows.

/// The number of the period.
pub const CHARGE_PERIOD: usize = 0;

/// Its day, in days since 1970-01-01.
pub const CHARGE_DAY: usize = 1;

/// The name of its centre.
pub const CHARGE_CENTRE: usize = 2;

/// The name of its shift.
pub const CHARGE_SHIFT: usize = 3;

/// How many records it counts.
pub const CHARGE_COUNT: usize = 4;

/// Their CPU time, in hundredths of a second.
pub const CHARGE_CPU: usize = 5;

/// Their blocks transferred.
pub const CHARGE_BLOCKS: usize = 6;

/// What they cost, in ten-thousandths of the money unit.
pub const CHARGE_AMOUNT: usize = 7;

// Adjustment lines.

/// The number of the period.
pub const LINE_PERIOD: usize = 0;

/// The name of the record.
pub const LINE_NAME: usize = 1;

/// Whether it adds the record.
pub const LINE_PLUS: usize = 2;

// Records by their identities.

/// The identity.
pub const IDENTITY_IDENTITY: usize = 0;

/// The name of a record that has it.
pub const IDENTITY_NAME: usize = 1;

// Records by their marks: whether they are charged.

/// Whether it is charged now.
pub const MARK_CHARGED: usize = 0;

/// Its identity.
pub const MARK_IDENTITY: usize = 1;

/// Its name.
pub const MARK_NAME: usize = 2;

// Choices.

/// Its number, from 1.
pub const CHOICE_NUMBER: usize = 0;

/// The name of the record that was named.
pub const CHOICE_NAME: usize = 1;

/// The period that was open then.
pub const CHOICE_PERIOD: usize = 2;

/// Whether it counts, or none of its work does.
pub const CHOICE_COUNTS: usize = 3;

// Choices by the names of the records that were chosen.

/// The name of the record.
pub const CHOSEN_NAME: usize = 0;

/// The number of the choice.
pub const CHOSEN_NUMBER: usize = 1;

// Details.

/// The day on which it is charged, in days since 1970-01-01.
pub const DETAIL_DAY: usize = 0;

/// The name of its centre.
pub const DETAIL_CENTRE: usize = 1;

/// The name of its shift.
pub const DETAIL_SHIFT: usize = 2;

/// The time of its header, in hundredths of a second since midnight.
pub const DETAIL_TIME: usize = 3;

/// The name of its record.
pub const DETAIL_NAME: usize = 4;

/// The name of the job, in EBCDIC.
pub const DETAIL_JOB: usize = 5;

/// The name of the program, in EBCDIC.
pub const DETAIL_PROGRAM: usize = 6;

/// The JES job identifier, in EBCDIC.
pub const DETAIL_JOB_ID: usize = 7;

/// The number of the step that ended, if one did.
pub const DETAIL_STEP: usize = 8;

/// Its CPU time, in hundredths of a second.
pub const DETAIL_CPU: usize = 9;

/// Its blocks transferred.
pub const DETAIL_BLOCKS: usize = 10;

/// What it costs, in ten-thousandths of the money unit.
pub const DETAIL_AMOUNT: usize = 11;

// Credits.

/// Its number, from 1.
pub const CREDIT_NUMBER: usize = 0;

/// The period that was open when it was given.
pub const CREDIT_PERIOD: usize = 1;

/// The name of its centre.
pub const CREDIT_CENTRE: usize = 2;

/// Its amount, in ten-thousandths of the money unit, which may be below 0.
pub const CREDIT_AMOUNT: usize = 3;

/// Its reason.
pub const CREDIT_REASON: usize = 4;

// Tariffs that were replaced.

/// Its number among them, from 1.
pub const REPLACED_NUMBER: usize = 0;

/// Its first day, in days since 1970-01-01.
pub const REPLACED_DAY: usize = 1;

/// The period that was open when another took its place.
pub const REPLACED_PERIOD: usize = 2;

/// The text of its file, if it came as one.
pub const REPLACED_TEXT: usize = 3;

// Entries of the journal.

/// Its number, from 1.
pub const ENTRY_NUMBER: usize = 0;

/// When, in seconds since the beginning of 1970, UTC.
pub const ENTRY_TIME: usize = 1;

/// Who.
pub const ENTRY_PERSON: usize = 2;

/// A remark.
pub const ENTRY_REMARK: usize = 3;

/// The name of the file that was read.
pub const ENTRY_FILE: usize = 4;

/// The word for a ruling, or for an import.
pub const ENTRY_ACT: usize = 5;

/// The number under which a ruling stands. The row of a ruling ends with it; an import has none.
pub const ENTRY_PLACE: usize = 6;

/// The SHA-256 of the bytes that were read, 32 bytes.
pub const ENTRY_DIGEST: usize = 7;

/// How many bytes they are.
pub const ENTRY_LENGTH: usize = 8;

/// How many records were kept.
pub const ENTRY_KEPT: usize = 9;

/// How many were held already.
pub const ENTRY_KNOWN: usize = 10;

/// How many no tariff was in force for.
pub const ENTRY_UNPRICED: usize = 11;

/// How many were of other types.
pub const ENTRY_OTHER: usize = 12;

/// How many were headers of dumps.
pub const ENTRY_HEADERS: usize = 13;

/// How many were trailers of dumps.
pub const ENTRY_TRAILERS: usize = 14;

/// How many said that records were lost.
pub const ENTRY_LOST: usize = 15;

/// How many were continued elsewhere.
pub const ENTRY_CONTINUED: usize = 16;

/// How many were damaged.
pub const ENTRY_DAMAGED: usize = 17;

/// Why the import ended, in a word; none where it goes on or was cut off.
pub const ENTRY_STOP: usize = 18;

/// The number of the fault that ended it, or 0.
pub const ENTRY_FAULT: usize = 19;
