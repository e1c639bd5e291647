// The script: one call to a line, as `place 2`, `book 1` or `objection 0`.
ghost use Rattle.std.specs.Prelude.{◌≡◌};
ghost use Rattle.drill.specs.Script.{NumberAfter, CallIn};

use crate::problems::Problem;
use checker::calls::Call;
use std::alloc::AllocError;

// The number after the word, if the line is the word, a blank and a number.
fn number_after(line: &str, word: &str) -> Option<usize>
    ensures { NumberAfter word.now line.now result }
{
    let rest = line.strip_prefix(word)?;
    rest.parse::<usize>().ok()
}

// The call in a line, if there is one.
fn parse_call(line: &str) -> Option<Call>
    ensures { CallIn line.now result }
{
    if let Some(state) = number_after(line, "place ") {
        return Some(Call::Place { state });
    }
    if let Some(event) = number_after(line, "book ") {
        return Some(Call::Book { event });
    }
    if let Some(command) = number_after(line, "objection ") {
        return Some(Call::Objection { command });
    }
    None
}

// All calls of the script on standard input; a line without one is named by its number.
pub(crate) fn read_script(rt: &HostRuntime) -> Result<Vec<Call>, Problem> {
    let mut calls = Vec::new(rt.alloc());
    for (before, line) in rt.lines(rt.alloc()).enumerate() {
        let line = line?;
        let Some(call) = parse_call(line.as_str()) else {
            return Err(Problem::BadLine(before.saturating_add(1)));
        };
        calls.push(call).map_err(AllocError::from)?;
    }
    Ok(calls)
}
