//! Laws of the match table: each is the contract of a function that does nothing.
ghost use Rattle.std.specs.Prelude.{◌≡◌, ◌+◌, List, length};
ghost use Rattle.channel_plan.specs.declared.plan.PlanRow.{PlanRow};
ghost use Rattle.playlist_core.specs.Day.{Day, picture_in};
ghost use Rattle.asrun_match.specs.declared.status.Run.{Run};
ghost use Rattle.asrun_match.specs.declared.status.Status.{Status};
ghost use Rattle.asrun_match.specs.declared.status.Status.TheVariants.{Missed, Ok, Slip, Wrong};
ghost use Rattle.asrun_match.specs.Aired.{Airing, aired_picture};
ghost use Rattle.asrun_match.specs.Runs.{AreRunsOf};
ghost use Rattle.asrun_match.specs.Status.{statuses_of};
ghost use Rattle.report_texts.specs.Asrun.{frames_with, match_text, runs_of, status_frames, status_table};

/// The runs that are made of a list of statuses are its runs.
pub fn runs_are_made()
    ensures { (statuses : List Status) → AreRunsOf statuses (runs_of statuses) }
{}

/// The runs of a list of statuses have as many frames of each status as the list.
pub fn counts_are_of_the_statuses()
    ensures { (statuses : List Status) (runs : List Run) → AreRunsOf statuses runs
        → (s : Status) → frames_with s runs ≡ status_frames s statuses }
{}

/// Each frame is counted once: the counts of a day add up to its frames.
pub fn counts_add_up()
    ensures list { (statuses : List Status) → status_frames Ok statuses + status_frames Slip statuses
        + status_frames Wrong statuses + status_frames Missed statuses ≡ length statuses }
    ensures day { (day : Day) (airing : Airing) → airing.frames ≡ day.frames
        → length (statuses_of (picture_in day) (aired_picture airing)) ≡ day.frames }
{}

/// The table of a list's runs is the one that the list says.
pub fn tables_are_of_the_statuses()
    ensures { (plan : PlanRow) (statuses : List Status) (runs : List Run) → AreRunsOf statuses runs
        → match_text plan runs ≡ status_table plan statuses }
{}
