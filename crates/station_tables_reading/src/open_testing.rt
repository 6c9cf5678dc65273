//! Whether a store is open, where nothing else may be asked of it.
ghost use Rattle.station_tables_records.specs.Inside.{Reads};

use sqlite::{Alter, Transaction};
use timecode::Unavailable;

// A text that names no table. It is compiled, and not run.
const NO_TABLE: &str = "SELECT 1";

/// Tests that the store is open. One that a fault of the disk has shut answers nothing, also where all that is asked
/// for is at hand.
pub(crate) fn test_open<S: Alter>(tx: &mut Transaction<'_, S>) -> Result<(), Unavailable>
    ensures reads { Reads S.Store tx.old tx.new result }
{
    let Ok(_compiled) = tx.prepare(NO_TABLE) else {
        return Err(Unavailable);
    };
    Ok(())
}
