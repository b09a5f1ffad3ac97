//! The functions that C calls: each makes one call of a safe function, by a pointer to a handle. `include/pcef.h` says
//! what the caller owes.

ghost use Rattle.std.specs.Prelude.{◌≡◌};
ghost use Rattle.std.specs.Borrow.{sem};
ghost use Rattle.pcef_handle.specs.declared.held.Handle.{Handle};
ghost use Rattle.pcef_c.specs.Calls.{Closes, ForgetReturns, LineReturns, NumberReturns, OpenReturns, RenewReturns, ReportsReturn};
ghost use Rattle.pcef_c.specs.Handles.{IsEmpty, handle_size, lies, room};
ghost use Rattle.pcef_c.specs.Judging.{JudgesAll};

use crate::calls::{close, empty, forget, judge, line, number, open, renew, reports};
use crate::judging::{CPacket, CVerdict};
use pcef_handle::Handle;
use std::alloc::Global;
use std::mem::size_of;

/// The version that `include/pcef.h` has.
const VERSION: u32 = 1;

/// The version of this interface, which is that of its header: `PCEF_VERSION`.
#[unsafe(no_mangle)]
pub extern "C" fn pcef_version() -> u32
    ensures { result ≡ 1 }
{
    VERSION
}

/// The size of a handle, in octets. Its room must be aligned to 16.
#[unsafe(no_mangle)]
pub extern "C" fn pcef_size() -> usize
    ensures { result ≡ handle_size }
{
    size_of::<Handle>()
}

/// Makes a handle without a session in the room at an address. Takes no memory.
#[unsafe(no_mangle)]
pub unsafe extern "C" fn pcef_room(alloc: Global, at: *mut u8)
    requires* { sem 𝓛 (room at) }
    ensures* { ∃ₛ (λ (new : Handle). sem 𝓛 (lies at new) ∗ ⌜ IsEmpty new ⌝) }
{
    std::ptr::write(at as *mut Handle, empty(alloc));
}

/// Opens a session by the text of a profile (TOML v1.0.0), over the predefined rules that `pcef` has. Returns 0, or why
/// there is none. A refusal leaves the handle as it was. Takes memory for the session.
#[unsafe(no_mangle)]
pub unsafe extern "C" fn pcef_open(at: *mut u8, profile: &[u8]) -> u8
    ghost old: { Handle }
    requires* { sem 𝓛 (lies at old) }
    ensures* { ∃ₛ (λ (new : Handle). sem 𝓛 (lies at new)
        ∗ ⌜ OpenReturns old profile.now new result ⌝) }
{
    open(&mut *(at as *mut Handle), profile)
}

/// Gives the sessions to come at a handle this number and those behind it. A session that is open keeps its own.
/// Returns the number that the next one would have had. Takes no memory.
#[unsafe(no_mangle)]
pub unsafe extern "C" fn pcef_number(at: *mut u8, first: u64) -> u64
    ghost old: { Handle }
    requires* { sem 𝓛 (lies at old) }
    ensures* { ∃ₛ (λ (new : Handle). sem 𝓛 (lies at new) ∗ ⌜ NumberReturns old first new result ⌝) }
{
    number(&mut *(at as *mut Handle), first)
}

/// Answers a line of a script as `pcef script` does. Returns the answer's length in octets, or why there is none. As
/// much of the answer as fits is written. Takes memory for the answer and for what the session keeps.
#[unsafe(no_mangle)]
pub unsafe extern "C" fn pcef_line(at: *mut u8, text: &[u8], answer: &mut [u8]) -> usize
    ghost old: { Handle }
    requires* { sem 𝓛 (lies at old) }
    ensures* { ∃ₛ (λ (new : Handle). sem 𝓛 (lies at new)
        ∗ ⌜ LineReturns old text.now answer.old new answer.new result ⌝) }
{
    line(&mut *(at as *mut Handle), text, answer)
}

/// Judges as many packets as there are verdicts by the newest generation, and returns their number. A packet
/// may be given by its first octets alone. Nothing is counted, and no row is kept. Takes no memory.
#[unsafe(no_mangle)]
pub unsafe extern "C" fn pcef_judge(
    at: *mut u8,
    packets: &[CPacket<'_>],
    verdicts: &mut [CVerdict],
) -> usize
    ghost old: { Handle }
    requires* { sem 𝓛 (lies at old) }
    ensures* { ∃ₛ (λ (new : Handle). sem 𝓛 (lies at new)
        ∗ ⌜ JudgesAll old packets.now verdicts.old new verdicts.new result ⌝) }
{
    judge(packets, verdicts, &mut *(at as *mut Handle))
}

/// Writes the reports of the session from number `first` on, as far as they fit. Returns the length of their text in
/// octets, or why there is none: no session, no memory, or one of them is forgotten. Takes memory for the text.
#[unsafe(no_mangle)]
pub unsafe extern "C" fn pcef_reports(at: *mut u8, first: u64, answer: &mut [u8]) -> usize
    ghost old: { Handle }
    requires* { sem 𝓛 (lies at old) }
    ensures* { ∃ₛ (λ (new : Handle). sem 𝓛 (lies at new)
        ∗ ⌜ ReportsReturn old first answer.old new answer.new result ⌝) }
{
    reports(&mut *(at as *mut Handle), first, answer)
}

/// Forgets the reports of the session so far. Returns their number, which is the number of the next one, or why there
/// are none. Takes no memory.
#[unsafe(no_mangle)]
pub unsafe extern "C" fn pcef_forget(at: *mut u8) -> usize
    ghost old: { Handle }
    requires* { sem 𝓛 (lies at old) }
    ensures* { ∃ₛ (λ (new : Handle). sem 𝓛 (lies at new) ∗ ⌜ ForgetReturns old new result ⌝) }
{
    forget(&mut *(at as *mut Handle))
}

/// Renews the session in its place, and writes the answer as far as it fits. Returns the answer's length in octets, or
/// why there is none: no session, or no memory. Takes memory for the new session and for the answer.
#[unsafe(no_mangle)]
pub unsafe extern "C" fn pcef_renew(at: *mut u8, answer: &mut [u8]) -> usize
    ghost old: { Handle }
    requires* { sem 𝓛 (lies at old) }
    ensures* { ∃ₛ (λ (new : Handle). sem 𝓛 (lies at new)
        ∗ ⌜ RenewReturns old answer.old new answer.new result ⌝) }
{
    renew(&mut *(at as *mut Handle), answer)
}

/// Closes the session, if there is one, and frees all its memory but the handle's own. Returns 1, or 0 where there was
/// none.
#[unsafe(no_mangle)]
pub unsafe extern "C" fn pcef_close(at: *mut u8) -> u8
    ghost old: { Handle }
    requires* { sem 𝓛 (lies at old) }
    ensures* { ∃ₛ (λ (new : Handle). sem 𝓛 (lies at new) ∗ ⌜ Closes old new result ⌝) }
{
    close(&mut *(at as *mut Handle))
}
