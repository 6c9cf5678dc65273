//! The part of the rows that a command needs.
use asrun_match::AiredDay;
use channel_plan::PlanRow;
use grant_core::OffersFound;
use playlist_core::{DayPlan, SourcesFound};
use vault_core::{ClipsFound, TapesFound};

/// A channel's row of the plan, and just the rows and counts that answer a [`Need`](crate::Need); of the clips and the
/// lent clips that items name, more may be there.
#[derive(Drop)]
pub struct Part {
    pub plan: PlanRow,
    /// Of its tapes.
    pub tapes: TapesFound,
    /// Of its clips.
    pub clips: ClipsFound,
    /// Of its offers.
    pub offers: OffersFound,
    /// The day that is asked for, there or not.
    pub day: Option<DayPlan>,
    /// What was aired of the day for which this is asked.
    pub aired: Option<AiredDay>,
    /// The clips and the lent clips that items may show.
    pub sources: SourcesFound,
}
