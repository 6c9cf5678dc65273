ghost use Rattle.std.specs.Prelude.{◌≡◌, Some};
ghost use Rattle.umid.specs.Fault.{fault_name, fault_number, fault_text};

use std::error::Error;
use std::fmt;

/// Why bytes or a text are no basic UMID.
#[derive(Clone, Copy, Debug, PartialEq, Eq, PartialOrd, Ord, Hash)]
pub enum UmidFault {
    /// There are not 32 bytes.
    Length,
    /// It is an extended UMID, of 64 bytes.
    Extended,
    /// A byte that is the same in each basic UMID differs.
    NotUmid,
    /// The text is not pairs of hexadecimal digits.
    HexText,
}

impl UmidFault {
    /// The fault's number, 11 to 14.
    pub fn number(&self) -> u16
        ensures { result ≡ fault_number self.now }
    {
        match self {
            UmidFault::Length => 11,
            UmidFault::Extended => 12,
            UmidFault::NotUmid => 13,
            UmidFault::HexText => 14,
        }
    }

    /// The fault's name, as it is printed.
    pub fn name(&self) -> &'static str
        ensures { result.now ≡ fault_name self.now }
    {
        match self {
            UmidFault::Length => "Length",
            UmidFault::Extended => "Extended",
            UmidFault::NotUmid => "NotUmid",
            UmidFault::HexText => "HexText",
        }
    }
}

impl fmt::Display for UmidFault {
    ghost output = { λ fault. Some (fault_text fault) };

    /// The number and the name, as `11 Length`.
    fn fmt<W: fmt::Write>(&self, f: &mut fmt::Formatter<W>) -> fmt::Result {
        let number = self.number();
        let name = self.name();
        write!(f, "{number} {name}")
    }
}

impl Error for UmidFault {}
