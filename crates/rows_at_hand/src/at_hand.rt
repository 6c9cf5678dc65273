//! The plan, the tapes, the clips and the offers of all channels at hand, over a store of all rows.
ghost use Rattle.std.specs.Prelude.{◌≡◌, IfOk, IfSome, OnOk, OnErr, Some};
ghost use Rattle.channel_view_model.specs.Centre.{Centre, IsChangeOf, changed, view_of};
ghost use Rattle.channel_view_model.specs.Need.{IsFetched};
ghost use Rattle.rows_at_hand.specs.Vaults.{is_at_hand, vaults_in};
ghost use Rattle.rows_at_hand.specs.AtHand.{AreVaultsOf, of_days};

use crate::recent::{beside_day, with_airing, with_day};
use crate::vaults::Vaults;
use channel_view::MemRows;
use channel_view_model::{Change, Need, Part, RowStore, SourcesAsked, Table, TableFault, View};
use grant_core::OffersAsked;
use std::alloc::Global;
use std::io::Write;
use timecode::Unavailable;
use vault_core::{ClipsAsked, TapesAsked};

/// A store over another one, which may have at hand the plan, the tapes, the clips and the offers of all channels. Of
/// these it asks the store below nothing but a look-up that would walk over many rows. Each change goes there first.
/// Where that store fails, nothing is at hand any more: what it has then may be none of what was.
#[derive(Drop)]
pub struct VaultsAtHand<S> {
    store: S,
    vaults: Option<Vaults>,
}

impl<S> VaultsAtHand<S> {
    /// Over this store, with the vaults of these of its rows at hand, where memory is there for them.
    pub fn over(alloc: Global, store: S, rows: Option<MemRows>) -> VaultsAtHand<S>
        ensures store { result.store ≡ store }
        ensures vaults { IfSome result.vaults (λ vaults. (set : Centre) × (rows ≡ Some set)
            × (vaults.each.items ≡ vaults_in set)) }
    {
        let vaults = match rows {
            Some(rows) => Vaults::of(alloc, &rows),
            None => None,
        };
        VaultsAtHand { store, vaults }
    }

    /// The store below.
    pub fn into_store(self) -> S
        ensures { result ≡ self.store }
    {
        let VaultsAtHand {
            store,
            vaults: _vaults,
        } = self;
        store
    }
}

// What a need asks for of days, and nothing beside it.
fn of_days<'a>(need: &Need<'_>) -> Need<'a>
    ensures { result ≡ of_days need.now }
{
    Need {
        tapes: TapesAsked::nothing(),
        clips: ClipsAsked::nothing(),
        offers: OffersAsked::nothing(),
        day: need.day,
        items: None,
        aired: need.aired,
        sources: SourcesAsked::Nothing,
        named: None,
    }
}

// The part that a command needs, of the vaults at hand and of this part, which has what it needs of days.
fn part_of_both(
    vaults: &Vaults,
    channel: u16,
    need: &Need<'_>,
    days: Part,
) -> Result<Option<Part>, Unavailable>
    ensures { (rows : Centre) → AreVaultsOf rows vaults.now →
        IsFetched (of_days need.now) (view_of channel rows) (Some days) →
        IfOk result (IsFetched need.now (view_of channel rows)) }
{
    let Part { day, aired, .. } = days;
    let beside = Need {
        aired: None,
        ..beside_day(need, &day)
    };
    let part = vaults.part(channel, &beside)?;
    Ok(with_airing(with_day(part, day), aired))
}

// What is at hand once the store below made a change of the channel, or failed: then nothing.
fn after_commit(
    vaults: Option<Vaults>,
    channel: u16,
    change: &Change,
    made: &Result<(), Unavailable>,
) -> Option<Vaults>
    ensures made { OnOk made.now ((rows : Centre) → IfSome vaults (AreVaultsOf rows) →
        IsChangeOf channel change.now rows → IfSome result (AreVaultsOf (changed channel change.now rows))) }
    ensures failed { OnErr made.now (result ≡ None) }
{
    if made.is_err() {
        return None;
    }
    let mut vaults = vaults?;
    let Change::Vault(_, _) = change else {
        return Some(vaults);
    };
    match vaults.commit(channel, change) {
        Ok(()) => Some(vaults),
        Err(_) => None,
    }
}

// Lets go what is at hand, as the store below failed with this fault.
fn let_go<F>(vaults: &mut Option<Vaults>, fault: F) -> F
    ensures fault { result ≡ fault }
    ensures none { vaults.new ≡ None }
{
    *vaults = None;
    fault
}

// Whether a table is one of vaults alone.
fn is_at_hand(table: Table) -> bool
    ensures { result ≡ is_at_hand table }
{
    match table {
        Table::Vault | Table::Clips | Table::Offers | Table::Lent => true,
        Table::Days => false,
    }
}

impl<S: RowStore> RowStore for VaultsAtHand<S> {
    // What is at hand is of the rows of the store below.
    ghost stands_for = { λ v rows. S.stands_for v.store rows × IfSome v.vaults (AreVaultsOf rows) };

    ghost is_clean = { λ v. S.is_clean v.store };

    ghost may_leave = { λ v. S.may_leave v.store };

    ghost leaves_sets = { λ v. S.leaves_sets v.store };

    fn load(&mut self, channel: u16) -> Result<Option<View>, Unavailable> {
        match self.store.load(channel) {
            Ok(view) => Ok(view),
            Err(fault) => Err(let_go(&mut self.vaults, fault)),
        }
    }

    fn fetch(&mut self, channel: u16, need: &Need<'_>) -> Result<Option<Part>, Unavailable> {
        let Some(vaults) = &self.vaults else {
            return self.store.fetch(channel, need);
        };
        if vaults.walks_far(channel, need) {
            return match self.store.fetch(channel, need) {
                Ok(part) => Ok(part),
                Err(fault) => Err(let_go(&mut self.vaults, fault)),
            };
        }
        if need.day.is_none() && need.aired.is_none() {
            return vaults.part(channel, need);
        }
        match self.store.fetch(channel, &of_days(need)) {
            Ok(Some(days)) => part_of_both(vaults, channel, need, days),
            Ok(None) => Ok(None),
            Err(fault) => Err(let_go(&mut self.vaults, fault)),
        }
    }

    fn write_table<W: Write>(
        &mut self,
        channel: u16,
        table: Table,
        output: &mut W,
    ) -> Result<bool, TableFault> {
        if is_at_hand(table)
            && let Some(vaults) = &self.vaults
        {
            return vaults.write(channel, table, output);
        }
        match self.store.write_table(channel, table, output) {
            Err(TableFault::Unavailable) => Err(let_go(&mut self.vaults, TableFault::Unavailable)),
            written => written,
        }
    }

    fn commit(&mut self, channel: u16, change: &Change) -> Result<(), Unavailable> {
        let made = self.store.commit(channel, change);
        self.vaults = after_commit(self.vaults.take(), channel, change, &made);
        made
    }
}
