//! Capture files in either format.

ghost use Rattle.std.specs.Prelude.{◌≡◌, ◌⊎◌, IfErr, IfOk, IsTrue, Err as DueErr, map};
ghost use Rattle.pcef_capture_file.specs.declared.fault.CaptureFault.TheVariants.{NoMemory};
ghost use Rattle.pcef_capture_file.specs.Blocks.{begins_section};
ghost use Rattle.pcef_capture_file.specs.Captured.{captured};
ghost use Rattle.pcef_capture_file.specs.Captures.{ReadsCapture};
ghost use Rattle.pcef_capture_file.specs.Classic.{file_header_of};

use crate::blocks::begins_section;
use crate::classic::read_classic;
use crate::fault::CaptureFault;
use crate::packet::Capture;
use crate::pcapng::read_pcapng;
use std::alloc::Global;

/// The packets of a capture file: of the format pcapng where it begins with a section header, else of the classic one.
/// They go up to the end of the file or to the first fault, which is returned beside them. The packets borrow the
/// file's octets; the list of them takes memory. An `Err` is the fault of a classic file's header, or `NoMemory`.
pub fn read_capture<'a>(alloc: Global, octets: &'a [u8]) -> Result<Capture<'a>, CaptureFault>
    ensures packets { IfOk result (λ capture.
        ReadsCapture octets.now (map captured capture.packets.items) capture.fault) }
    ensures fault { IfErr result (λ fault. (fault ≡ NoMemory)
        ⊎ ((file_header_of octets.now ≡ DueErr fault) × ¬ IsTrue (begins_section octets.now))) }
{
    if begins_section(octets) {
        read_pcapng(alloc, octets)
    } else {
        read_classic(alloc, octets)
    }
}
