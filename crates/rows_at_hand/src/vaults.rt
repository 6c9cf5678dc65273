//! The vaults of all channels: of each its row of the plan, its tapes, its clips and its offers, as lists in memory.
ghost use Rattle.std.specs.Prelude.{◌≡◌, ◌==◌, IfOk, IfSome, OnOk, OnErr, true, false, filter, is_some};
ghost use Rattle.std.specs.Option.{option_map};
ghost use Rattle.std.specs.List.Sorted.{IsNonDecreasingBy};
ghost use Rattle.std.specs.Io.KnownBytes.{Appends};
ghost use Rattle.report_texts.specs.Output.{AppendsPart};
ghost use Rattle.channel_view_model.specs.declared.command.Change.TheVariants as Change;
ghost use Rattle.channel_view_model.specs.declared.command.VaultChange.{VaultChange};
ghost use Rattle.vault_core.specs.declared.command.Put.{Put};
ghost use Rattle.channel_view_model.specs.Tables.{is_in_order};
ghost use Rattle.channel_view_model.specs.TableText.{text_at};
ghost use Rattle.channel_view_model.specs.Centre.{Centre, IsChangeOf, IsInOrder, changed, view_of};
ghost use Rattle.channel_view_model.specs.Need.{IsFetched, of_own};
ghost use Rattle.report_texts.specs.Lent.{lent_text};
ghost use Rattle.rows_at_hand.specs.Vaults.{AreVaults, HasChannel, is_at_hand, lent_in, vault_at, vault_clips};
ghost use Rattle.rows_at_hand.specs.Vaults.{vault_of, vaults_in, walks_far_in, with_sources};

use channel_view::{FindsSources, MemRows, sources_at};
use channel_view_model::{
    CentreRows, Change, Need, Part, RowStore, SourcesAsked, Table, TableFault, items_asked,
    names_asked,
};
use channel_view_rules::{OfChannel, channel_rows, channel_start, grants_to, without_channels};
use grant_core::Grant;
use playlist_core::{Source, SourcesFound};
use report_texts::RowFault;
use reports::write_lent;
use std::alloc::Global;
use std::io::Write;
use timecode::Unavailable;
use vault_core::Clip;

/// What one channel has beside its days.
#[derive(Drop)]
pub struct Vault {
    channel: u16,
    // Of this channel alone.
    rows: MemRows,
}

impl OfChannel for Vault {
    ghost channel_of = { λ v. v.channel };

    fn channel(&self) -> u16 {
        self.channel
    }
}

// The rows of one channel again, each with its channel. `None` is for want of memory.
fn own_table<T: Copy>(alloc: Global, table: &[(u16, T)], channel: u16) -> Option<Vec<(u16, T)>>
    requires { is_in_order table.now ≡ true }
    ensures { IfSome result (λ rows. rows.items ≡ filter (λ r. r.0 == channel) table.now) }
{
    channel_rows(table, channel)
        .iter()
        .copied()
        .collect(alloc)
        .ok()
}

// The rows of one channel, but its days and what was aired of them. `None` is for want of memory.
fn vault_of(alloc: Global, rows: &CentreRows, channel: u16) -> Option<Vault>
    requires { IsInOrder rows.now }
    ensures { IfSome result (λ vault. vault ≡ vault_of channel rows.now) }
{
    let own = CentreRows {
        channels: channel_rows(&rows.channels, channel).to_vec(alloc).ok()?,
        tapes: own_table(alloc, &rows.tapes, channel)?,
        clips: own_table(alloc, &rows.clips, channel)?,
        offers: own_table(alloc, &rows.offers, channel)?,
        days: Vec::new(alloc),
        aired: Vec::new(alloc),
    };
    Some(Vault {
        channel,
        rows: MemRows::from_rows(alloc, own)?,
    })
}

// What a need asks for of own rows, and nothing beside it.
fn of_own<'a>(need: &Need<'_>) -> Need<'a>
    ensures { result ≡ of_own need.now.tapes need.now.clips need.now.offers }
{
    Need {
        tapes: need.tapes,
        clips: need.clips,
        offers: need.offers,
        day: None,
        items: None,
        aired: None,
        sources: SourcesAsked::Nothing,
        named: None,
    }
}

// A part with these in it as what sources name.
fn with_sources(part: Option<Part>, sources: SourcesFound) -> Option<Part>
    ensures { result ≡ with_sources sources part }
{
    match part {
        Some(part) => Some(Part { sources, ..part }),
        None => None,
    }
}

/// The vaults of all channels of a plan, each by itself: a row that is added to one moves none of another.
#[derive(Drop)]
pub struct Vaults {
    alloc: Global,
    each: Vec<Vault>,
    ghost order: { IsNonDecreasingBy (λ v. v.channel) each.items },
}

impl Vaults {
    /// The vaults of these rows, whose days are left out. `None` is for want of memory.
    pub fn of(alloc: Global, rows: &MemRows) -> Option<Vaults>
        ensures { IfSome result (λ vaults. vaults.each.items ≡ vaults_in rows.now) }
    {
        let set = rows.rows();
        let mut each = Vec::new(alloc);
        for plan in &set.channels {
            each.push(vault_of(alloc, set, plan.ch)?).ok()?;
        }
        Some(Vaults { alloc, each })
    }

    // The channel's vault, if it has one.
    fn vault(&self, channel: u16) -> Option<&Vault>
        ensures { option_map (λ v. v.now) result ≡ vault_at channel self.now.each.items }
    {
        channel_rows(&self.each, channel).first()
    }

    /// Whether a look-up that is asked for walks over more than 2,000 of the channel's rows.
    pub fn walks_far(&self, channel: u16, need: &Need<'_>) -> bool
        ensures { result ≡ walks_far_in channel need.now (vault_at channel self.now.each.items) }
    {
        match self.vault(channel) {
            Some(vault) => vault.rows.walks_far(channel, need),
            None => false,
        }
    }

    /// Of rows whose vaults these are, just the part of what the channel sees that a command needs which asks for no
    /// day, or `None` where the channel isn't in the plan. For want of memory it is [`Unavailable`].
    pub fn part(&self, channel: u16, need: &Need<'_>) -> Result<Option<Part>, Unavailable>
        ensures { (rows : Centre) → AreVaults rows self.now.each.items → is_some need.now.day ≡ false →
            is_some need.now.aired ≡ false → IfOk result (IsFetched need.now (view_of channel rows)) }
    {
        let Some(vault) = self.vault(channel) else {
            return Ok(None);
        };
        if let SourcesAsked::Nothing = need.sources {
            return vault.rows.part(channel, need);
        }
        let no_day = None;
        let items = items_asked(need.items, &no_day);
        let named = names_asked(need.named);
        let sources = sources_at(self.alloc, self, channel, need.sources, items, named)?;
        let own = vault.rows.part(channel, &of_own(need))?;
        Ok(with_sources(own, sources))
    }

    // The channel's clips.
    fn clips_of(&self, channel: u16) -> Result<Vec<Clip>, Unavailable>
        ensures { IfOk result (λ v. v.items ≡ vault_clips (vault_at channel self.now.each.items)) }
    {
        match self.vault(channel) {
            Some(vault) => without_channels(self.alloc, &vault.rows.rows().clips),
            None => Ok(Vec::new(self.alloc)),
        }
    }

    // What all channels lend to this one, by owner and number.
    fn lent_to(&self, channel: u16) -> Result<Vec<Grant>, Unavailable>
        ensures { IfOk result (λ v. v.items ≡ lent_in channel self.now.each.items) }
    {
        let mut lent = Vec::new(self.alloc);
        for vault in &self.each {
            let more = grants_to(self.alloc, &vault.rows.rows().offers, channel)?;
            lent.extend_from_slice(&more)?;
        }
        Ok(lent)
    }

    // The lent table of the channel.
    fn write_lent_table<W: Write>(&self, channel: u16, output: &mut W) -> Result<(), TableFault>
        ensures ok { OnOk result (Appends (W.contents output.old) (W.contents output.new)
            (lent_text (lent_in channel self.now.each.items))) }
        ensures err { OnErr result (AppendsPart (W.contents output.old) (W.contents output.new)
            (lent_text (lent_in channel self.now.each.items))) }
    {
        let lent = self.lent_to(channel)?;
        write_lent(output, &lent)?;
        Ok(())
    }

    /// Writes a table of the channel, but that of its days, and says whether the channel is in the plan. Where it
    /// isn't, nothing is written; at a [`TableFault`] it is a beginning of the table.
    pub fn write<W: Write>(
        &self,
        channel: u16,
        table: Table,
        output: &mut W,
    ) -> Result<bool, TableFault>
        ensures there { (rows : Centre) → AreVaults rows self.now.each.items → is_at_hand table ≡ true →
            IfOk result (λ b. b ≡ is_some (view_of channel rows)) }
        ensures ok { (rows : Centre) → AreVaults rows self.now.each.items → is_at_hand table ≡ true →
            OnOk result (Appends (W.contents output.old) (W.contents output.new)
            (text_at table (view_of channel rows))) }
        ensures err { (rows : Centre) → AreVaults rows self.now.each.items → is_at_hand table ≡ true →
            OnErr result (AppendsPart (W.contents output.old) (W.contents output.new)
            (text_at table (view_of channel rows))) }
    {
        let Some(vault) = self.vault(channel) else {
            return Ok(false);
        };
        let Table::Lent = table else {
            return vault.rows.write(channel, table, output);
        };
        self.write_lent_table(channel, output)?;
        Ok(true)
    }

    /// Makes a change of the channel's own rows. Where it fails the vaults are none of the rows' any more.
    pub fn commit(&mut self, channel: u16, change: &Change) -> Result<(), Unavailable>
        ensures { (rows : Centre) → (put : Put) → (own : VaultChange) → change.now ≡ Change.Vault put own →
            AreVaults rows self.old.each.items → IsChangeOf channel change.now rows →
            OnOk result (AreVaults (changed channel change.now rows) self.new.each.items) }
    {
        let place = channel_start(&self.each, channel);
        if place < self.each.len() && self.each[place].channel == channel {
            self.each[place].rows.commit(channel, change)
        } else {
            Err(Unavailable)
        }
    }
}

impl FindsSources for Vaults {
    ghost is_found = { λ vaults c. HasChannel c vaults.each.items };

    ghost clips = { λ vaults c. vault_clips (vault_at c vaults.each.items) };

    ghost grants = { λ vaults c. lent_in c vaults.each.items };

    // A lent clip is found among its owner's offers.
    fn source_at(&self, channel: u16, source: Source) -> Result<SourcesFound, Unavailable> {
        let holder = match source {
            Source::Lent(owner, _number) => owner.get(),
            Source::Own(_number) => channel,
            Source::Black | Source::Bars => channel,
        };
        match self.vault(holder) {
            Some(vault) => vault.rows.source_at(channel, source),
            None => Ok(SourcesFound::nothing(self.alloc)),
        }
    }

    fn all_sources(&self, channel: u16) -> Result<SourcesFound, Unavailable> {
        Ok(SourcesFound {
            clips: self.clips_of(channel)?,
            grants: self.lent_to(channel)?,
        })
    }
}
