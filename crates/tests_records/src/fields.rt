//! The fields of a usage record: `subtype`, `day`, `time`, `cpu`, `blocks`, `completion`, `job`,
//! `program`, `job_id`, `identity`, and `account:NUMBER`.

use crate::dumps::push_damage;
use smf_type30::{Class, Type30, class};
use tests_scripts::{AnswerText, LineFault, LineResult};

/// A record that is shorter is read whatever its class: it is too short.
const TRIPLETS_END: usize = 72;

/// Adds the bytes of a field that may be absent.
fn push_bytes(out: &mut AnswerText, bytes: Option<&[u8]>) {
    match bytes {
        Some(bytes) => out.digits_line("", bytes),
        None => out.line("NONE"),
    }
}

/// Adds the completion code.
fn push_completion(out: &mut AnswerText, usage: &Type30<'_>) {
    match usage.completion() {
        Some(bytes) => out.digits_line("", &bytes),
        None => out.line("NONE"),
    }
}

/// Adds an accounting field, by its name.
fn push_account(out: &mut AnswerText, name: &str, usage: &Type30<'_>) -> LineResult {
    let Some(number) = name.strip_prefix("account:") else {
        return Err(LineFault::NotUnderstood);
    };
    push_bytes(out, usage.account(number.parse::<u16>()?));
    Ok(())
}

/// Adds a field that is bytes, by its name.
fn push_bytes_named(out: &mut AnswerText, name: &str, usage: &Type30<'_>) -> LineResult {
    match name {
        "job" => out.digits_line("", usage.job()),
        "program" => out.digits_line("", usage.program()),
        "job_id" => out.digits_line("", usage.job_id()),
        "identity" => out.digits_line("", &usage.identity()),
        "completion" => push_completion(out, usage),
        _ => return push_account(out, name, usage),
    }
    Ok(())
}

/// Adds a field of a usage record, by its name.
fn push_named(out: &mut AnswerText, name: &str, usage: &Type30<'_>) -> LineResult {
    match name {
        "subtype" => out.value_line("", usage.subtype()),
        "day" => out.value_line("", usage.moment().day),
        "time" => out.value_line("", usage.moment().time),
        "cpu" => out.value_line("", usage.cpu()),
        "blocks" => out.value_line("", usage.excp()),
        _ => return push_bytes_named(out, name, usage),
    }
    Ok(())
}

/// Adds a field of a record, by its name, or the record's damage.
pub(crate) fn push_field(out: &mut AnswerText, name: &str, bytes: &[u8]) -> LineResult {
    if TRIPLETS_END <= bytes.len() && class(bytes) != Class::Usage {
        return Err(LineFault::NotUnderstood);
    }
    match Type30::read(bytes) {
        Ok(usage) => push_named(out, name, &usage),
        Err(damage) => {
            push_damage(out, damage);
            Ok(())
        }
    }
}
