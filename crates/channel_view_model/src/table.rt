//! The tables of one channel, as text to read.
ghost use Rattle.std.specs.Prelude.{◌≡◌, bytes_eq};

use report_texts::{RowFault, WriteFault};
use std::marker::Model;
use timecode::Unavailable;

/// A table of one channel.
#[derive(Clone, Copy, PartialEq, Eq)]
pub enum Table {
    /// Its tapes.
    Vault,
    /// Its clips, retired ones included.
    Clips,
    /// Its offers, withdrawn ones included.
    Offers,
    /// The clips that others lend it, withdrawn ones included.
    Lent,
    /// Its broadcast days.
    Days,
}

/// Why a table wasn't written whole.
#[derive(Clone, Copy, Debug, PartialEq, Eq)]
pub enum TableFault {
    /// The writer failed.
    Write,
    /// Want of memory, a statement of the store that failed, or rows that have no table: a frame of them has no label.
    Unavailable,
}

impl From<WriteFault> for TableFault {
    ghost use Rattle.std.specs.Prelude.{◌≡◌};
    ghost use Rattle.channel_view_model.specs.declared.table.TableFault.TheVariants.{Write};

    ghost from_gives = { λ _ fault. fault ≡ Write };

    fn from(_fault: WriteFault) -> TableFault {
        TableFault::Write
    }
}

impl From<RowFault> for TableFault {
    ghost use Rattle.std.specs.Prelude.{◌≡◌};
    ghost use Rattle.channel_view_model.specs.TableFault.{fault_of_row};

    ghost from_gives = { λ fault made. made ≡ fault_of_row fault };

    fn from(fault: RowFault) -> TableFault {
        match fault {
            RowFault::NoLabel => TableFault::Unavailable,
            RowFault::Write(_) => TableFault::Write,
        }
    }
}

impl From<Unavailable> for TableFault {
    ghost use Rattle.std.specs.Prelude.{◌≡◌};
    ghost use Rattle.channel_view_model.specs.declared.table.TableFault.TheVariants.{Unavailable};

    ghost from_gives = { λ _ fault. fault ≡ Unavailable };

    fn from(_fault: Unavailable) -> TableFault {
        TableFault::Unavailable
    }
}

/// The text of a table.
#[derive(Debug, Drop)]
pub struct TableText {
    text: Vec<u8>,
}

impl Model for TableText {
    ghost use Rattle.std.specs.Prelude.{ℕ, List};

    ghost Value = { List ℕ };

    ghost view = { λ t. t.text.items };
}

impl TableText {
    /// This text.
    pub fn of(text: Vec<u8>) -> TableText
        ensures { result ≡ text.items }
    {
        TableText { text }
    }

    /// Its bytes.
    pub fn as_bytes(&self) -> &[u8]
        ensures { result.now ≡ self.now }
    {
        self.text.as_slice()
    }
}

impl PartialEq for TableText {
    ghost use Rattle.std.specs.Prelude.{bytes_eq};
    ghost use Rattle.std.proofs.Common.{rules};
    ghost use Rattle.std.specs.Cmp.Rules.{comparing};

    ghost eq = { bytes_eq };

    ghost laws = { Prim.search (comparing, rules) };

    fn eq(&self, other: &TableText) -> bool {
        self.as_bytes() == other.as_bytes()
    }
}

impl Eq for TableText {
    ghost use Rattle.std.proofs.Common.{rules};
    ghost use Rattle.std.specs.Cmp.Rules.{comparing};

    ghost laws = { Prim.search (comparing, rules) };
}
