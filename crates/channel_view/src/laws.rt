//! Laws: what an answer depends on, and what a request keeps.
ghost use Rattle.std.specs.Prelude.{◌≡◌};
ghost use Rattle.channel_view_model.specs.Centre.{Centre, view_of};
ghost use Rattle.channel_view_laws.specs.Requests.{UnlessUnavailable, rows_after};

pub use channel_view_laws::{
    a_revision_is_its_commands, a_revision_is_taken_back, a_run_is_gone_on_with,
    closed_parts_answer_as_one, equal_feeds_are_answered_alike, one_channel_alone, others_deleted,
    others_see_no_stop, questions_of_picked_rows_agree, sent_again_nothing_changes,
    what_is_seen_decides, whole_channels_deleted,
};
pub use channel_view_model::laws::rules_are_kept;
use channel_view_model::{Command, Outcome, RowStore};
use channel_view_requests::handle;
use std::alloc::Global;

/// Two stores, of whatever kinds, that stand for sets that a channel sees alike answer it alike, and it sees the sets
/// that they stand for afterwards alike.
pub fn stores_answer_alike<S1: RowStore, S2: RowStore>(
    alloc: Global,
    one: &mut S1,
    other: &mut S2,
    channel: u16,
    command: &Command,
) -> (Outcome, Outcome)
    ensures clean { (S1.is_clean one.new → S1.is_clean one.old) × (S2.is_clean other.new → S2.is_clean other.old) }
    ensures rows { (S1.is_clean one.new → (rows : Centre) → S1.stands_for one.old rows →
        S1.stands_for one.new (rows_after rows (channel, command.now) result.0))
        × (S2.is_clean other.new → (rows : Centre) → S2.stands_for other.old rows →
        S2.stands_for other.new (rows_after rows (channel, command.now) result.1)) }
    ensures answers { S1.is_clean one.new → S2.is_clean other.new → (rows others : Centre) →
        S1.stands_for one.old rows → S2.stands_for other.old others →
        view_of channel rows ≡ view_of channel others →
        UnlessUnavailable result.0 (UnlessUnavailable result.1 (result.0 ≡ result.1)) }
    ensures views { S1.is_clean one.new → S2.is_clean other.new → (rows others : Centre) →
        S1.stands_for one.old rows → S2.stands_for other.old others →
        view_of channel rows ≡ view_of channel others → UnlessUnavailable result.0 (UnlessUnavailable result.1 (
        view_of channel (rows_after rows (channel, command.now) result.0)
        ≡ view_of channel (rows_after others (channel, command.now) result.1))) }
{
    (
        handle(alloc, one, channel, command),
        handle(alloc, other, channel, command),
    )
}
