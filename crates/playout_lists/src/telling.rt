//! Standard error, on which it is said what went wrong.
ghost use Rattle.std.specs.Prelude.{◌≡◌, None};
ghost use Rattle.playout_lists.specs.Fault.{line_of};
ghost use Rattle.playout_lists.specs.Telling.{Tells, has_told};

use crate::fault::Fault;
use crate::fault_text::line_of;
use crate::fault_writer::{FaultLines, FaultWriter};

impl<E: FaultWriter> FaultLines<E> {
    /// Over this writer, none of whose writes has failed.
    pub fn new(writer: E) -> FaultLines<E>
        ensures writer { result.writer ≡ writer }
        ensures well { result.failed ≡ None }
    {
        FaultLines {
            writer,
            failed: None,
        }
    }

    /// Says a fault in one line.
    pub fn report(&mut self, fault: Fault)
        ensures { Tells (has_told E.contents self.old) (has_told E.contents self.new) (line_of fault) }
    {
        self.tell(line_of(fault).as_slice());
    }

    /// Says a text.
    pub fn tell(&mut self, text: &[u8])
        ensures { Tells (has_told E.contents self.old) (has_told E.contents self.new) text.now }
    {
        if let Err(fault) = self.writer.send_all(text) {
            self.failed = Some(fault);
        }
    }
}
