//! Runs of requests.
ghost use Rattle.std.specs.Prelude.{◌≡◌, length, IfOk, OnErr};
ghost use Rattle.channel_view_model.specs.Store.{WhileClean};
ghost use Rattle.channel_view_laws.specs.Ran.{HasRun, AnswersEachAlone, AnswersAsWhole, StopsBetween};

use crate::requests::handle;
use channel_view_model::{Command, Outcome, RowStore};
use std::alloc::Global;
use timecode::Unavailable;

/// Answers requests of any channels in order, each with one outcome. It takes the room for all outcomes first: an error
/// means that there was none, and nothing was done.
pub fn run<S: RowStore>(
    alloc: Global,
    store: &mut S,
    requests: &[(u16, Command)],
) -> Result<Vec<Outcome>, Unavailable>
    ensures clean { S.is_clean store.new → S.is_clean store.old }
    ensures count { IfOk result (λ os. length os.items ≡ length requests.now) }
    ensures ran { WhileClean (S.is_clean store.new) (S.stands_for store.old)
        (λ rows. IfOk result (λ os. HasRun (S.stands_for store.new) rows requests.now os.items)) }
    ensures apart { WhileClean (S.is_clean store.new) (S.stands_for store.old)
        (λ rows. IfOk result (λ os. AnswersEachAlone rows requests.now os.items)) }
    ensures part { WhileClean (S.is_clean store.new) (S.stands_for store.old)
        (λ rows. IfOk result (λ os. AnswersAsWhole (S.stands_for store.new) rows requests.now os.items)) }
    ensures stop { WhileClean (S.is_clean store.new) (S.stands_for store.old)
        (λ rows. IfOk result (λ os.
        StopsBetween (S.may_leave store.old) (S.may_leave store.new) rows requests.now os.items)) }
    // All that a stop may leave holds a set, where it did before.
    ensures sets { WhileClean (S.is_clean store.new) (S.stands_for store.old)
        (λ rows. S.leaves_sets store.old → S.leaves_sets store.new) }
    ensures err { OnErr result (store.new ≡ store.old) }
{
    let mut outcomes = Vec::with_capacity(alloc, requests.len())?;
    for request in requests {
        let outcome = handle(alloc, store, request.0, &request.1);
        outcomes.push(outcome)?;
    }
    Ok(outcomes)
}
