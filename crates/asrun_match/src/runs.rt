//! The list of runs, as it grows.
ghost use Rattle.std.specs.Prelude.{◌≡◌, ◌+◌, ◌<◌, ◌≤◌, ◌^◌, ◌++◌, length, replicate, vec_len, vec_capacity};
ghost use Rattle.asrun_match.specs.Runs.{LieInRow, spelled};

use crate::status::Run;

/// Adds a stretch behind the runs: to the last, where that has its status.
pub(crate) fn push(runs: &mut Vec<Run>, next: Run)
    requires room { vec_len runs.old < vec_capacity runs.old }
    requires some { 0 < next.frames }
    requires behind { next.position ≡ length (spelled runs.old.items) }
    requires within { next.position + next.frames < 2 ^ 32 }
    requires runs { LieInRow 0 runs.old.items }
    ensures spelled { spelled runs.new.items ≡ spelled runs.old.items ++ replicate next.frames next.status }
    ensures runs { LieInRow 0 runs.new.items }
    ensures len { vec_len runs.new ≤ vec_len runs.old + 1 }
    ensures capacity { vec_capacity runs.old ≤ vec_capacity runs.new }
{
    let len = runs.len();
    if len > 0 && runs[len - 1].status == next.status {
        runs[len - 1].frames += next.frames;
        return;
    }
    let Ok(()) = runs.push(next) else {
        unreachable!();
    };
}
