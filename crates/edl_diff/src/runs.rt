//! The list of runs, as it grows.
ghost use Rattle.std.specs.Prelude.{◌≡◌, ◌+◌, ◌<◌, ◌^◌, ◌++◌, OnOk, length, replicate};
ghost use Rattle.edl_diff.specs.Runs.{LieInRow, spelled};

use crate::status::Run;
use std::alloc::AllocError;

/// Adds a stretch behind the runs: to the last, where that has its status.
pub(crate) fn push(runs: &mut Vec<Run>, next: Run) -> Result<(), AllocError>
    requires some { 0 < next.frames }
    requires behind { next.position ≡ length (spelled runs.old.items) }
    requires within { next.position + next.frames < 2 ^ 32 }
    requires runs { LieInRow 0 runs.old.items }
    ensures spelled { OnOk result (spelled runs.new.items
        ≡ spelled runs.old.items ++ replicate next.frames next.status) }
    ensures runs { OnOk result (LieInRow 0 runs.new.items) }
{
    let len = runs.len();
    if len > 0 && runs[len - 1].status == next.status {
        runs[len - 1].frames += next.frames;
        return Ok(());
    }
    runs.push(next)?;
    Ok(())
}
