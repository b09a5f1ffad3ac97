//! The words behind the one that is asked for.

ghost use Rattle.std.specs.Prelude.{◌≡◌, ◌⊎◌, IfErr};

use crate::asked::Call;
use crate::command_line::refusing::{refuse_usage, report_no_memory};
use std::env;
use std::io::{self, ErrorKind};

/// The words of a call, as clap reads them: the name of the program and the word, and what stands behind it; or the
/// question for help.
fn words_of(rt: &HostRuntime, call: Call) -> io::Result<Vec<String>> {
    let mut words = Vec::new(rt.alloc());
    words.push(String::from_str(rt.alloc(), call.word.program())?)?;
    if call.is_help {
        words.push(String::from_str(rt.alloc(), "--help")?)?;
        return Ok(words);
    }
    for (number, word) in env::args(rt)?.enumerate() {
        if number > 1 {
            words.push(word)?;
        }
    }
    Ok(words)
}

/// The words of a call, as clap reads them. Takes memory for them.
///
/// Returns the exit status, 2 where a word isn't UTF-8 and 3 when out of memory, and reports why on standard error. A
/// failing write changes nothing.
pub(crate) fn gather(rt: &HostRuntime, call: Call) -> Result<Vec<String>, u8>
    ensures status { IfErr result (λ status. (status ≡ 2) ⊎ (status ≡ 3)) }
{
    match words_of(rt, call) {
        Ok(words) => Ok(words),
        Err(error) if error.kind() == ErrorKind::InvalidData => {
            Err(refuse_usage(rt, "an argument isn't UTF-8"))
        }
        Err(_) => Err(report_no_memory(rt)),
    }
}
