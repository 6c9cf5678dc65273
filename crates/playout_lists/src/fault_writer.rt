//! Where faults are said, and whether a write has failed. Apart from the calls: their definitions name these types, and
//! a ghost field may not lead back to them.
ghost use Rattle.std.specs.Prelude.{◌≡◌, ◌≢◌, Bool, true, None, OnOk, OnErr};
ghost use Rattle.std.specs.Io.KnownBytes.{Appends};
ghost use Rattle.report_texts.specs.Output.{AppendsPart};

use report_texts::{WriteFault, send};
use std::io::Write;

/// A writer for faults, which knows of itself whether a write has failed.
pub trait FaultWriter: Write {
    /// A write of this very writer has failed, or taken nothing.
    ghost has_failed: { Self → Bool };

    /// Writes all the bytes, and flushes. Where it fails, a beginning of them was written.
    fn send_all(&mut self, bytes: &[u8]) -> Result<(), WriteFault>
        ensures ok { OnOk result (Appends (Self.contents self.old) (Self.contents self.new) bytes.now) }
        ensures err { OnErr result (AppendsPart (Self.contents self.old) (Self.contents self.new) bytes.now) }
        ensures failed { OnErr result (has_failed self.new ≡ true) }
        ensures kept { has_failed self.old ≡ true → has_failed self.new ≡ true };
}

/// Any writer that is lent. No contract knows when one fails, so of it nothing more is said.
impl<W: Write> FaultWriter for &mut W {
    ghost has_failed = { λ _. true };

    fn send_all(&mut self, bytes: &[u8]) -> Result<(), WriteFault> {
        send(self, bytes)
    }
}

/// Standard error, and whether a write of it has failed.
///
/// That one has is a [`WriteFault`], which only a writer gives, and known of this very writer (`cause`). So what wasn't
/// said can't pass for what couldn't be said.
#[derive(Drop)]
pub struct FaultLines<E: FaultWriter> {
    pub(crate) writer: E,
    pub(crate) failed: Option<WriteFault>,
    ghost cause: { failed ≢ None → E.has_failed writer ≡ true },
}
