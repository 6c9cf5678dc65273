//! Basic UMIDs, the 32-byte names of material of SMPTE ST 330.
//!
//! It is proved that [`Umid::from_bytes`] accepts just the 32 bytes of the standard and otherwise names their first
//! fault, that [`Umid::to_bytes`] gives the same bytes back, that [`Umid::with_instance`] changes bytes 14 to 16 alone,
//! and that [`Umid::from_hex`] reads the bytes that its digits spell. No call takes memory. The module `laws` has what
//! follows for the parts of all UMIDs.
//!
//! The label's bytes 1 to 7, 9 and 10 are tested; byte 8, the version of its register, is kept and not tested; the
//! material type and the methods are given as numbers and not interpreted.
//!
//! ```rust
//! let umid: Umid = "060a2b340101010501010d201300000000112233445566778899aabbccddeeff".parse()?;
//! println!(rt; "{}", umid.with_instance(2))?;
//! println!(rt; "{:02x} {}", umid.material_type(), umid.material_number_method())?;   // 0d 2
//! let again = Umid::try_from(umid.to_bytes().as_slice())?;
//! ```
//!
//! `from_str` and `try_from` are [`Umid::from_hex`] and [`Umid::from_bytes`]. A UMID prints as lower-case
//! hexadecimal.
#![tactic(auto)]

ghost use Rattle.std.specs.Prelude.{◌≡◌, ◌*◌, ◌%◌, ◌<◌, ◌^◌, ◌↔◌, IsTrue, Ok, Err, MatchResult, Some, length};
ghost use Rattle.std.specs.List.{AllPass};
ghost use Rattle.hex.specs.Hex.{decode_of, encode_lower, is_hex_digit};
ghost use Rattle.umid.specs.BasicUmid.{UmidParts, IsBasicUmid, IsExtended, basic_umid, parts_in};
ghost use Rattle.umid.specs.BasicUmid.{material_number_method, instance_number_method};
ghost use Rattle.umid.specs.Fault.{IsReadingOf, reading_of_bytes, reading_of_text};

use hex::FromHex;
use std::fmt;
use std::marker::Model;
use std::str::FromStr;

mod fault;
pub mod laws;

pub use crate::fault::UmidFault;

/// A basic UMID.
#[derive(Clone, Copy, PartialEq, Eq, PartialOrd, Ord, Hash)]
pub struct Umid {
    bytes: [u8; 32],
}

impl Model for Umid {
    ghost use Rattle.umid.specs.BasicUmid.{UmidParts, IsBasicUmid, basic_umid, parts_in};
    ghost use Rattle.std.proofs.Common.{ap, sym};

    ghost Value = { UmidParts };

    ghost view = { λ umid. parts_in umid.bytes };

    ghost invariant = { λ umid. IsBasicUmid umid.bytes (parts_in umid.bytes) };

    ghost inverse = { λ parts. record { bytes = basic_umid parts } };

    ghost inverse_ok = { λ umid basic. ap (λ bytes. record { bytes = bytes }) (sym basic.spelled) };
}

// Whether the bytes are an extended UMID: 64, of which the length byte, 13, says that 51 follow it.
fn is_extended(bytes: &[u8]) -> bool
    ensures { IsTrue result ↔ IsExtended bytes.now }
{
    bytes.len() == 64 && bytes[12] == 0x33
}

impl Umid {
    /// The UMID of 32 bytes.
    ///
    /// The faults are told in this order: [`UmidFault::Extended`], [`UmidFault::Length`], [`UmidFault::NotUmid`].
    pub fn from_bytes(bytes: &[u8]) -> Result<Umid, UmidFault>
        ensures reading { IsReadingOf bytes.now result }
        ensures value { result ≡ reading_of_bytes bytes.now }
        ensures accepts { (parts : UmidParts) → IsBasicUmid bytes.now parts → result ≡ Ok parts }
    {
        if is_extended(bytes) {
            return Err(UmidFault::Extended);
        }
        let Ok(bytes) = <[u8; 32]>::try_from(bytes) else {
            return Err(UmidFault::Length);
        };
        let [0x06, 0x0a, 0x2b, 0x34, 0x01, 0x01, 0x01, ..] = bytes else {
            return Err(UmidFault::NotUmid);
        };
        if bytes[8] != 0x01 || bytes[9] != 0x01 || bytes[12] != 0x13 {
            return Err(UmidFault::NotUmid);
        }
        Ok(Umid { bytes })
    }

    /// The 32 bytes.
    pub fn to_bytes(&self) -> [u8; 32]
        ensures { result ≡ basic_umid self.now }
    {
        let Umid { bytes } = *self;
        bytes
    }

    /// The version of the register of its label: byte 8.
    pub fn version(&self) -> u8
        ensures { result ≡ self.now.version }
    {
        self.bytes[7]
    }

    /// What kind of material it names: byte 11, by the table of SMPTE ST 330.
    pub fn material_type(&self) -> u8
        ensures { result ≡ self.now.material_type }
    {
        self.bytes[10]
    }

    /// How the material number was made: the high four bits of byte 12, by the table of SMPTE ST 330.
    pub fn material_number_method(&self) -> u8
        ensures { result ≡ material_number_method self.now }
    {
        self.bytes[11] / 16
    }

    /// How the instance number was made: the low four bits of byte 12, by the table of SMPTE ST 330.
    pub fn instance_number_method(&self) -> u8
        ensures { result ≡ instance_number_method self.now }
    {
        self.bytes[11] % 16
    }

    /// The material number: bytes 17 to 32.
    pub fn material_number(&self) -> [u8; 16]
        ensures { result ≡ self.now.material_number }
    {
        let mut number = [0; 16];
        number.copy_from_slice(&self.bytes[16..]);
        number
    }

    /// The instance number: bytes 14 to 16, the most significant first.
    pub fn instance(&self) -> u32
        ensures { result ≡ self.now.instance_number }
    {
        u32::from_be_bytes([0, self.bytes[13], self.bytes[14], self.bytes[15]])
    }

    /// The same UMID with another instance number, which is below 2^24: bytes 14 to 16 alone differ.
    pub fn with_instance(&self, number: u32) -> Umid
        requires { number < 2 ^ 24 }
        ensures { result ≡ record self.now { instance_number = number } }
    {
        let [_, high, middle, low] = number.to_be_bytes();
        let mut bytes = self.bytes;
        bytes[13] = high;
        bytes[14] = middle;
        bytes[15] = low;
        Umid { bytes }
    }

    /// The UMID that pairs of hexadecimal digits spell, in either case.
    ///
    /// A text that is no such pairs is [`UmidFault::HexText`]; their bytes are read as by [`Umid::from_bytes`].
    pub fn from_hex(text: &str) -> Result<Umid, UmidFault>
        ensures value { result ≡ reading_of_text text.now }
        ensures reading { MatchResult (decode_of text.now) (λ bytes. IsReadingOf bytes result)
            (λ _. result ≡ Err UmidFault.HexText) }
    {
        match text.len() {
            64 => read_sized::<32>(text),
            // An extended UMID has 64 bytes.
            128 => read_sized::<64>(text),
            // No other count of bytes is a UMID, nor is no text at all.
            _ if is_hex(text) => Err(UmidFault::Length),
            _ => Err(UmidFault::HexText),
        }
    }

    // The digits of the bytes, in lower case.
    fn lower_text<'a>(&self, digits: &'a mut [u8; 64]) -> &'a str
        ensures { result.now ≡ encode_lower (basic_umid self.now) }
    {
        hex::encode_to_slice(self.bytes, digits).unwrap();
        str::from_utf8(digits).unwrap()
    }
}

/// Reads what `Display` writes, as [`Umid::from_hex`].
impl FromStr for Umid {
    type Err = UmidFault;

    ghost from_str_gives = { λ text read. read ≡ reading_of_text text };

    fn from_str(text: &str) -> Result<Umid, UmidFault> {
        Umid::from_hex(text)
    }
}

/// Reads the 32 bytes, as [`Umid::from_bytes`].
impl TryFrom<&[u8]> for Umid {
    type Error = UmidFault;

    ghost try_from_gives = { λ bytes read. read ≡ reading_of_bytes bytes.now };

    fn try_from(bytes: &[u8]) -> Result<Umid, UmidFault> {
        Umid::from_bytes(bytes)
    }
}

impl fmt::Display for Umid {
    ghost output = { λ umid. Some (encode_lower (basic_umid umid)) };

    /// The 64 hexadecimal digits, in lower case.
    fn fmt<W: fmt::Write>(&self, f: &mut fmt::Formatter<W>) -> fmt::Result {
        let mut digits = [0u8; 64];
        f.write_str(self.lower_text(&mut digits))
    }
}

impl fmt::Debug for Umid {
    fn fmt<W: fmt::Write>(&self, f: &mut fmt::Formatter<W>) -> fmt::Result {
        write!(f, "Umid({self})")
    }
}

// Reads the text of N bytes.
fn read_sized<const N: usize>(text: &str) -> Result<Umid, UmidFault>
    requires { length text.now ≡ 2 * N }
    ensures value { result ≡ reading_of_text text.now }
    ensures reading { MatchResult (decode_of text.now) (λ bytes. IsReadingOf bytes result)
        (λ _. result ≡ Err UmidFault.HexText) }
{
    match <[u8; N]>::from_hex(text) {
        Ok(bytes) => Umid::from_bytes(&bytes),
        Err(_) => Err(UmidFault::HexText),
    }
}

// Whether the text is pairs of hexadecimal digits.
fn is_hex(text: &str) -> bool
    ensures { IsTrue result ↔ (length text.now % 2 ≡ 0) × AllPass is_hex_digit text.now }
{
    text.len() % 2 == 0
        && text.as_bytes().iter().all(
            |digit| matches!(digit, b'0'..=b'9' | b'A'..=b'F' | b'a'..=b'f'),
        )
}
