//! What an answer depends on, and what a request keeps: the laws of the centre, of its definitions alone.
//!
//! They stand on the model, and on no code that decides or stores. A run is a list of requests of any channels over one
//! set of rows. To each channel it answers what a machine of its own does, which hears of the others their offers to it
//! and nothing else. So the requests of the channels that lend it nothing may be left out ([`others_deleted`]), and
//! closed parts of a centre answer as one ([`closed_parts_answer_as_one`]).
//!
//! `specs/Requests`, `Runs` and `Ran` say what a request and a run over a store came to, where some found no means, and
//! what a stop may leave. `specs/Again` has a request that is sent again, `specs/Revisions` a revision and the one that
//! takes it back, `specs/Parts` the parts of a centre.
#![tactic(auto)]

mod laws;

pub use laws::{
    a_revision_is_its_commands, a_revision_is_taken_back, a_run_is_gone_on_with,
    closed_parts_answer_as_one, equal_feeds_are_answered_alike, one_channel_alone, others_deleted,
    others_see_no_stop, questions_of_picked_rows_agree, sent_again_nothing_changes,
    what_is_seen_decides, whole_channels_deleted,
};
