// UMIDs.
ghost use Rattle.std.specs.Prelude.{◌≡◌, ◌≤◌, ◌<◌, ◌^◌, length, Ok};
ghost use Rattle.temolunai.specs.Rooms.{put};
ghost use Rattle.umid.specs.BasicUmid.{UmidParts, basic_umid};
ghost use Rattle.umid.specs.Fault.{reading_of_bytes, reading_of_text};
ghost use Rattle.temolunai.specs.Umids.{fault_of, umid_read, umid_written, digits_of};
ghost use Rattle.temolunai.specs.Umids.{instance_written, with_instance};

use crate::numbers::{DONE, INSTANCE_RANGE, NO_ROOM};
use crate::rooms::put;
use umid::{Umid, UmidFault};

/// The parts of a UMID but its material number, or the number of the fault why there are none.
#[repr(C)]
#[derive(Clone, Copy)]
pub struct UmidRead {
    pub fault: u32,
    pub instance: u32,
    pub version: u8,
    pub material_type: u8,
    pub material_number_method: u8,
    pub instance_number_method: u8,
}

/// Whether the bytes are a basic UMID: 0, or 11 to 13.
#[unsafe(no_mangle)]
pub extern "C" fn temolunai_umid_fault(bytes: &[u8]) -> u32
    ensures { result ≡ fault_of (reading_of_bytes bytes.now) }
{
    match Umid::from_bytes(bytes) {
        Ok(_) => DONE,
        Err(fault) => u32::from(fault.number()),
    }
}

// What C gets of the parts of a UMID.
fn umid_read(umid: Result<Umid, UmidFault>) -> UmidRead
    ensures { result ≡ umid_read umid }
{
    match umid {
        Ok(umid) => UmidRead {
            fault: DONE,
            instance: umid.instance(),
            version: umid.version(),
            material_type: umid.material_type(),
            material_number_method: umid.material_number_method(),
            instance_number_method: umid.instance_number_method(),
        },
        Err(fault) => UmidRead {
            fault: u32::from(fault.number()),
            instance: 0,
            version: 0,
            material_type: 0,
            material_number_method: 0,
            instance_number_method: 0,
        },
    }
}

/// The parts of a UMID of 32 bytes, or its fault, 11 to 13.
#[unsafe(no_mangle)]
pub extern "C" fn temolunai_umid_parts(bytes: &[u8]) -> UmidRead
    ensures { result ≡ umid_read (reading_of_bytes bytes.now) }
{
    umid_read(Umid::from_bytes(bytes))
}

/// Writes the 16 bytes of the material number of a UMID of 32 bytes, and gives 0 or the fault: 11 to 13, or 7 where
/// the output is smaller. With a fault nothing was written.
#[unsafe(no_mangle)]
pub extern "C" fn temolunai_umid_material_number(bytes: &[u8], out: &mut [u8]) -> u32
    ensures { (result, out.new)
        ≡ umid_written 16 (λ parts. parts.material_number) (reading_of_bytes bytes.now) out.old }
{
    match Umid::from_bytes(bytes) {
        Ok(_) if out.len() < 16 => NO_ROOM,
        Ok(umid) => put(&umid.material_number(), out),
        Err(fault) => u32::from(fault.number()),
    }
}

// The UMID that bytes spell as hexadecimal digits.
#[tactic(auto, using(crate::proofs::Digits::digits_are_text))]
fn umid_of_digits(text: &[u8]) -> Result<Umid, UmidFault>
    ensures { result ≡ reading_of_text text.now }
{
    match str::from_utf8(text) {
        Ok(text) => Umid::from_hex(text),
        Err(_) => Err(UmidFault::HexText),
    }
}

/// Writes the 32 bytes of the UMID that 64 hexadecimal digits spell, and gives 0 or the fault: 11 to 14, or 7 where the
/// output is smaller. With a fault nothing was written.
#[unsafe(no_mangle)]
pub extern "C" fn temolunai_umid_from_hex(text: &[u8], out: &mut [u8]) -> u32
    ensures { (result, out.new) ≡ umid_written 32 basic_umid (reading_of_text text.now) out.old }
{
    match umid_of_digits(text) {
        Ok(_) if out.len() < 32 => NO_ROOM,
        Ok(umid) => put(&umid.to_bytes(), out),
        Err(fault) => u32::from(fault.number()),
    }
}

// Writes the digits of a UMID.
fn put_digits(umid: &Umid, out: &mut [u8]) -> u32
    requires { 64 ≤ length out.old }
    ensures answer { result ≡ 0 }
    ensures written { out.new ≡ put (digits_of umid.now) out.old }
{
    let mut digits = [0u8; 64];
    hex::encode_to_slice(umid.to_bytes(), &mut digits).unwrap();
    put(&digits, out)
}

/// Writes the 64 hexadecimal digits, in lower case, of a UMID of 32 bytes, and gives 0 or the fault: 11 to 13, or 7
/// where the output is smaller. With a fault nothing was written.
#[unsafe(no_mangle)]
pub extern "C" fn temolunai_umid_to_hex(bytes: &[u8], out: &mut [u8]) -> u32
    ensures { (result, out.new) ≡ umid_written 64 digits_of (reading_of_bytes bytes.now) out.old }
{
    match Umid::from_bytes(bytes) {
        Ok(_) if out.len() < 64 => NO_ROOM,
        Ok(umid) => put_digits(&umid, out),
        Err(fault) => u32::from(fault.number()),
    }
}

// Writes a UMID with another instance number.
fn put_instance(umid: Umid, number: u32, out: &mut [u8]) -> u32
    requires number { number < 2 ^ 24 }
    requires room { 32 ≤ length out.old }
    ensures answer { result ≡ 0 }
    ensures written { out.new ≡ put (basic_umid (with_instance number umid)) out.old }
{
    put(&umid.with_instance(number).to_bytes(), out)
}

/// Writes the 32 bytes of a UMID with another instance number, which is below 2^24, and gives 0 or the fault: 9 where
/// the number isn't, 11 to 13, or 7 where the output is smaller. With a fault nothing was written.
#[unsafe(no_mangle)]
pub extern "C" fn temolunai_umid_with_instance(bytes: &[u8], number: u32, out: &mut [u8]) -> u32
    ensures { (result, out.new) ≡ instance_written number (reading_of_bytes bytes.now) out.old }
{
    if number >= 1 << 24 {
        return INSTANCE_RANGE;
    }
    match Umid::from_bytes(bytes) {
        Ok(_) if out.len() < 32 => NO_ROOM,
        Ok(umid) => put_instance(umid, number, out),
        Err(fault) => u32::from(fault.number()),
    }
}
