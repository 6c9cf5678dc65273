//! Laws of the parts of UMIDs: each is the contract of a function that does nothing.
ghost use Rattle.std.specs.Prelude.{◌≡◌, ◌<◌, ℕ, true, Ok, slice_index};
ghost use Rattle.umid.specs.BasicUmid.{UmidParts, basic_umid, is_umid};
ghost use Rattle.umid.specs.Fault.{reading_of_bytes};

use crate::Umid;

/// The parts of a UMID are those of some 32 bytes.
pub fn parts_are_of_32_bytes(umid: &Umid)
    ensures { is_umid umid.now ≡ true }
{
    bytes_are_small(&umid.bytes);
}

/// Such parts are read back from their bytes.
pub fn parts_are_read_back()
    ensures { (parts : UmidParts) → is_umid parts ≡ true → reading_of_bytes (basic_umid parts) ≡ Ok parts }
{}

// A byte is below 256.
fn bytes_are_small(bytes: &[u8])
    ensures { (i : ℕ) → slice_index bytes.now i < 256 }
{}
