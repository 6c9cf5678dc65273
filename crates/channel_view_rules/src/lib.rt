//! Whether a set of rows of all channels keeps the integrity rules, and where a channel's rows stand in tables in order.
//!
//! - [`keeps_rules`] is true just of a set that keeps them. It goes through the plan with a place in each table, and
//!   through each table once.
//! - [`keeps_view_rules`] is true just of what one channel sees that keeps them (`specs/ViewRules`).
//! - [`channel_start`], [`channel_end`] and [`channel_rows`] find a channel's rows by bisection.
//! - [`write_vault_of`], [`write_clips_of`], [`write_offers_of`] and [`write_days_of`] write the table of rows that
//!   stand beside their channel.
//!
//! A set that keeps the rules gives each channel a view that keeps them (`views_keep_the_rules`).
#![tactic(auto)]

mod airing_rules;
mod bisecting;
mod day_rules;
mod row_tables;
mod rules;
mod view_rules;

pub use bisecting::{OfChannel, channel_end, channel_rows, channel_start};
pub use day_rules::grants_to;
pub use row_tables::{write_clips_of, write_days_of, write_offers_of, write_vault_of};
pub use rules::{keeps_rules, without_channels};
pub use view_rules::{keeps_view_rules, views_keep_the_rules};
