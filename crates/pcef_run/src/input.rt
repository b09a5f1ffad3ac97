//! Reads an input to its end.

ghost use Rattle.std.specs.Prelude.{IfErr, IfOk};
ghost use Rattle.pcef_run.specs.Inputs.{IsRead, IsUnread};

use crate::fault::PlanFault;
use pcef_script::read_some;
use std::alloc::Global;
use std::io::Read;

/// The most bytes of an input.
const MAX_INPUT: usize = 1_073_741_824;

/// All bytes up to the end of an input, of which there may be 1,073,741,824; reads at most a byte more. Takes memory
/// for them.
///
/// Answers the first [`PlanFault`] that it meets: that of the reader, an input that is too long, or out of memory.
pub(crate) fn read_all<R: Read>(alloc: Global, reader: &mut R) -> Result<Vec<u8>, PlanFault>
    ensures all { IfOk result (λ bytes.
        IsRead bytes.items (R.remaining reader.old) (R.remaining reader.new)) }
    ensures fault { IfErr result (λ e.
        IsUnread e (R.remaining reader.old) (R.remaining reader.new)) }
{
    let mut bytes = Vec::new(alloc);
    let mut block = [0u8; 8192];
    loop {
        let room = (MAX_INPUT - bytes.len()) + 1;
        match read_some(reader, &mut block, room) {
            Ok(0) => return Ok(bytes),
            Ok(n) if n >= room => return Err(PlanFault::TooMuch),
            Ok(n) => {
                if bytes.extend_from_slice(&block[..n]).is_err() {
                    return Err(PlanFault::NoMemory);
                }
            }
            Err(_) => return Err(PlanFault::Read),
        }
    }
}
