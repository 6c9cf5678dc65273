//! The rows of all channels, in memory.
use asrun_match::DayAsRun;
use channel_plan::PlanRow;
use playlist_core::DayPlan;
use std::marker::Model;
use vault_core::{Clip, Offer, Tape};

/// One set of rows of all channels: the plan, and each table in the order of the channels and, within one, of the row
/// numbers. Each row of a table stands beside its channel.
#[derive(Drop)]
pub struct CentreRows {
    pub channels: Vec<PlanRow>,
    pub tapes: Vec<(u16, Tape)>,
    pub clips: Vec<(u16, Clip)>,
    /// Beside their owners.
    pub offers: Vec<(u16, Offer)>,
    pub days: Vec<(u16, DayPlan)>,
    /// What was aired of the days.
    pub aired: Vec<(u16, DayAsRun)>,
}

impl Model for CentreRows {
    ghost use Rattle.channel_view_model.specs.Centre.{Centre};

    ghost Value = { Centre };

    ghost view = { λ rows. record {
      channels = rows.channels.items;
      tapes = rows.tapes.items;
      clips = rows.clips.items;
      offers = rows.offers.items;
      days = rows.days.items;
      aired = rows.aired.items;
    } };
}
