//! What is said about a script that was played.

use crate::answer_text::AnswerText;
use crate::ask::Answers;
use crate::player::{Player, Transcript};
use std::fs;
use std::test::Fail;

/// How many lines are shown where a script was answered differently.
const SHOWN: usize = 40;

/// How many lines two texts have in common, up to the first that differs.
fn same_lines(got: &str, want: &str) -> usize {
    let mut same: usize = 0;
    for (line, other) in got.lines().zip(want.lines()) {
        if line != other {
            break;
        }
        same = same.saturating_add(1);
    }
    same
}

/// Adds how many rows and answers a script has.
fn push_counts(out: &mut AnswerText, name: &str, played: &Transcript) {
    out.text(name);
    out.value(": ", played.rows);
    out.value(" rows, ", played.answers);
    out.value(" answers, ", played.unread);
    out.text(" not understood, ");
}

/// Adds where a script was answered differently, and how.
fn push_other(out: &mut AnswerText, got: &str, want: &str) {
    let same = same_lines(got, want);
    out.value_line("OTHER IN LINE ", same.saturating_add(1));
    for line in got.lines().skip(same).take(SHOWN) {
        out.line(line);
    }
}

/// Adds how many rows and answers a script has, and whether it was answered as it is written.
fn push_verdict(out: &mut AnswerText, name: &str, script: &str, played: &Transcript) {
    push_counts(out, name, played);
    match str::from_utf8(played.text.as_bytes()) {
        Ok(text) if text == script => out.line("as written"),
        Ok(text) => push_other(out, text, script),
        Err(_) => out.line("NO TEXT"),
    }
}

/// Plays the script of a file, and prints the result.
fn play_file<A: Answers>(rt: &HostRuntime, player: &mut Player<A>, name: &str) -> Result<(), Fail> {
    let script = fs::read_to_string(rt, name)?;
    player.play(script.as_str());
    let mut verdict = AnswerText::new(rt.alloc());
    push_verdict(&mut verdict, name, script.as_str(), &player.played);
    if player.played.text.is_cut() || verdict.is_cut() {
        return Err(Fail::new("there is no memory for the answers"));
    }
    print!(rt; "{}", str::from_utf8(verdict.as_bytes())?)?;
    Ok(())
}

/// Plays the scripts of these files, one after the other, and prints the result of each. What one
/// names is named in those after it.
pub fn play_files<A: Answers>(rt: &HostRuntime, answers: A, names: &[String]) -> Result<(), Fail> {
    let mut player = Player::new(rt.alloc(), answers);
    for name in names {
        play_file(rt, &mut player, name.as_str())?;
    }
    Ok(())
}
