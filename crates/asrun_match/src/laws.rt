//! Laws of runs: each is the contract of a function that does nothing.
ghost use Rattle.std.specs.Prelude.{◌≡◌, List};
ghost use Rattle.asrun_match.specs.declared.status.Run.{Run};
ghost use Rattle.asrun_match.specs.declared.status.Status.{Status};
ghost use Rattle.asrun_match.specs.Runs.{AreRunsOf};

/// A list of statuses has one list of runs.
pub fn runs_are_determined()
    ensures { (list : List Status) (a b : List Run) → AreRunsOf list a → AreRunsOf list b → a ≡ b }
{}
