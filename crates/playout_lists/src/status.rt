//! The exit status of the program.
ghost use Rattle.std.specs.Prelude.{◌≡◌, ◌≤◌, if◌then◌else◌, IfOk, IfErr, OnOk, MatchResult};
ghost use Rattle.playout_lists.specs.Fault.{line_of};
ghost use Rattle.playout_lists.specs.Telling.{Tells, has_told};

use crate::fault::Fault;
use crate::fault_writer::{FaultLines, FaultWriter};

const DONE: u8 = 0;

const FAULT: u8 = 1;

/// The exit status of what was done: 0, or 1 after a fault, which is said in one line, of which a writer that failed
/// has a beginning.
pub fn exit_status<E: FaultWriter>(done: Result<(), Fault>, faults: &mut FaultLines<E>) -> u8
    ensures { MatchResult done
        (λ _. (result ≡ 0) × (has_told E.contents faults.new ≡ has_told E.contents faults.old))
        (λ fault. (result ≡ 1)
        × Tells (has_told E.contents faults.old) (has_told E.contents faults.new) (line_of fault)) }
{
    match done {
        Ok(()) => DONE,
        Err(fault) => {
            // No one is left to tell that the fault couldn't be told.
            faults.report(fault);
            FAULT
        }
    }
}

/// The exit status of connections that were served: whether none had a fault, which were said before. A fault that
/// ended the serving is said as by [`exit_status`].
pub fn served_status<E: FaultWriter>(served: Result<bool, Fault>, faults: &mut FaultLines<E>) -> u8
    ensures status { result ≤ 1 }
    ensures value { IfOk served (λ quiet. result ≡ (if quiet then 0 else 1)) }
    ensures fault { IfErr served
        (λ fault. (result ≡ 1)
        × Tells (has_told E.contents faults.old) (has_told E.contents faults.new) (line_of fault)) }
    ensures kept { OnOk served (has_told E.contents faults.new ≡ has_told E.contents faults.old) }
    ensures quiet { result ≡ 0 → has_told E.contents faults.new ≡ has_told E.contents faults.old }
{
    match served {
        Ok(true) => DONE,
        Ok(false) => FAULT,
        Err(fault) => exit_status(Err(fault), faults),
    }
}
