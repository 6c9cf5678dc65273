//! A store of lists in memory: one for each table, in the order of the channels.
ghost use Rattle.std.specs.Prelude.{◌≡◌, ◌==◌, ◌&&◌, ◌<◌, ℕ, [], true, false, Some, find, bytes_eq, length, ◌⊎◌};
ghost use Rattle.std.specs.Prelude.{IfOk, IfErr, IfSome, IfNone, IsTrue, is_some, slice_index_or, slice_set, ◌↔◌};
ghost use Rattle.std.specs.Prelude.{OnOk, OnErr, IsPermutation};
ghost use Rattle.std.specs.Io.KnownBytes.{Appends};
ghost use Rattle.std.specs.List.Sorted.{IsNonDecreasingBy};
ghost use Rattle.report_texts.specs.Output.{AppendsPart};
ghost use Rattle.channel_plan.specs.Refusal.{refused};
ghost use Rattle.channel_plan.specs.Plan.{is_plan as is_plan_of};
ghost use Rattle.vault_core.specs.Questions.{listed};
ghost use Rattle.vault_core.specs.Tape.{stands_in};
ghost use Rattle.vault_core.specs.Asked.{AreTapeAnswers, AreClipAnswers};
ghost use Rattle.vault_core.specs.Clip.{has_umid};
ghost use Rattle.vault_core.specs.Offer.{is_open_to};
ghost use Rattle.grant_core.specs.Asked.{AreOfferAnswers};
ghost use Rattle.vault_core.specs.Rules.{is_numbered_from, KeepsOwnRules};
ghost use Rattle.channel_view_model.specs.Puts.{RowMayBePut, IsPutAmong};
ghost use Rattle.channel_view_model.specs.Tables.{rows_alone, rows_of, is_in_order, add_row as with_row};
ghost use Rattle.channel_view_model.specs.Tables.{alter_row, replace_row};
ghost use Rattle.channel_view_model.specs.Seen.{grants_to};
ghost use Rattle.channel_view_model.specs.Centre.{IsInOrder, plan_of, own_of, own_changed, day_changed};
ghost use Rattle.channel_view_model.specs.Centre.{airing_changed, view_at, view_of};
ghost use Rattle.channel_view_model.specs.Need.{IsFetched, IsPartOf};
ghost use Rattle.channel_view_model.specs.Rules.{KeepsRules};
ghost use Rattle.channel_view_model.specs.TableText.{table_text, text_at};
ghost use Rattle.channel_view.specs.Places.{AreSourcesNumbered};
ghost use Rattle.channel_view.specs.Walks.{has_many, walks_far};

use crate::lending::write_lent_of;
use crate::mem_days::{airing_found, day_found, just, set_day};
use crate::sources::{FindsSources, sources_at};
use asrun_match::DayAsRun;
use channel_plan::{Code, PlanRow, Refusal, is_plan};
use channel_view_model::{
    CentreRows, Change, Need, Part, RowStore, Table, TableFault, VaultChange, View, airings_alone,
    days_alone, items_asked, names_asked,
};
use channel_view_rules::{
    OfChannel, channel_end, channel_rows, channel_start, grants_to, without_channels,
    write_clips_of, write_days_of, write_offers_of, write_vault_of,
};
use grant_core::{Grant, LentRows, OffersAsked, OffersFound, OpenOffer, is_open_to};
use playlist_core::{DayPlan, Source, SourcesFound};
use report_texts::RowFault;
use std::alloc::Global;
use std::io::Write;
use std::marker::Model;
use timecode::Unavailable;
use umid::Umid;
use vault_core::{Clip, ClipsAsked, ClipsFound, Offer, OwnRows, Put, Tape, TapesAsked, TapesFound};

// To walk over so many rows takes as long as to look one up in a table by its key.
const FEW_ROWS: usize = 2_000;

/// A store of lists in memory. Nothing of it outlives the program.
#[derive(Drop)]
pub struct MemRows {
    alloc: Global,
    rows: CentreRows,
}

impl Model for MemRows {
    ghost use Rattle.channel_view_model.specs.Centre.{Centre, IsInOrder};

    ghost Value = { Centre };

    ghost view = { λ m. m.rows };

    ghost invariant = { λ m. IsInOrder m.rows };
}

impl MemRows {
    /// A store of this plan alone, its channels in order. A row out of range or a channel that comes twice is refused
    /// with [`Code::PlanRow`], want of memory with [`Code::Unavailable`].
    pub fn new(alloc: Global, plan: &[PlanRow]) -> Result<MemRows, Refusal>
        ensures plan { IfOk result (λ m. IsPermutation plan.now m.channels
            × IsNonDecreasingBy (λ p. p.ch) m.channels) }
        ensures alone { IfOk result (λ m. (m.tapes ≡ []) × (m.clips ≡ []) × (m.offers ≡ []) × (m.days ≡ [])
            × (m.aired ≡ [])) }
        ensures rules { IfOk result KeepsRules }
        ensures only_a_plan { OnOk result (is_plan_of plan.now ≡ true) }
        ensures refusal { IfErr result (λ e. (e ≡ refused Code.Unavailable) ⊎ ((e ≡ refused Code.PlanRow)
            × (is_plan_of plan.now ≡ false))) }
    {
        if !is_plan(plan) {
            return Err(Refusal::of(Code::PlanRow));
        }
        let Ok(mut channels) = plan.to_vec(alloc) else {
            return Err(Refusal::of(Code::Unavailable));
        };
        channels.sort_unstable_by_key(|row| row.ch);
        let rows = CentreRows {
            channels,
            tapes: Vec::new(alloc),
            clips: Vec::new(alloc),
            offers: Vec::new(alloc),
            days: Vec::new(alloc),
            aired: Vec::new(alloc),
        };
        Ok(MemRows { alloc, rows })
    }

    /// A store of these rows, where the channels and each table are in the order of the channels.
    pub fn from_rows(alloc: Global, rows: CentreRows) -> Option<MemRows>
        ensures rows { IfSome result (λ m. m ≡ rows) }
        ensures none { IfNone result (IsInOrder rows → ⊥) }
    {
        if are_in_order(&rows) {
            Some(MemRows { alloc, rows })
        } else {
            None
        }
    }

    /// Its rows, as they lie.
    pub fn rows(&self) -> &CentreRows
        ensures rows { result.now ≡ self.now }
        ensures order { IsInOrder result.now }
    {
        &self.rows
    }

    fn view_at(&self, channel: u16, plan: PlanRow) -> Result<View, Unavailable>
        ensures { IfOk result (λ v. v ≡ view_at channel self.now plan) }
    {
        let own = self.own_at(channel, plan)?;
        let days = days_alone(self.alloc, channel_rows(&self.rows.days, channel))?;
        let aired = airings_alone(self.alloc, channel_rows(&self.rows.aired, channel))?;
        let grants = grants_to(self.alloc, &self.rows.offers, channel)?;
        match LentRows::from_rows(channel, grants) {
            Ok(lent) => Ok(View {
                own,
                days,
                aired,
                lent,
            }),
            Err(_) => Err(Unavailable),
        }
    }

    fn own_at(&self, channel: u16, plan: PlanRow) -> Result<OwnRows, Unavailable>
        ensures { IfOk result (λ o. o ≡ own_of channel plan self.now) }
    {
        let tapes = without_channels(self.alloc, channel_rows(&self.rows.tapes, channel))?;
        let clips = without_channels(self.alloc, channel_rows(&self.rows.clips, channel))?;
        let offers = without_channels(self.alloc, channel_rows(&self.rows.offers, channel))?;
        match OwnRows::from_rows(self.alloc, plan, tapes, clips, offers) {
            Ok(own) => Ok(own),
            Err(_) => Err(Unavailable),
        }
    }

    fn part_at(&self, channel: u16, plan: PlanRow, need: &Need<'_>) -> Result<Part, Unavailable>
        ensures { KeepsRules self.now → plan_of channel self.now ≡ Some plan →
            IfOk result (IsPartOf need.now (view_at channel self.now plan)) }
    {
        let tapes = channel_rows(&self.rows.tapes, channel);
        let clips = channel_rows(&self.rows.clips, channel);
        let offers = channel_rows(&self.rows.offers, channel);
        let days = channel_rows(&self.rows.days, channel);
        let aired = channel_rows(&self.rows.aired, channel);
        let day = day_found(self.alloc, &plan, days, &need.day)?;
        let items = items_asked(need.items, &day);
        let named = names_asked(need.named);
        let sources = sources_at(self.alloc, self, channel, need.sources, items, named)?;
        Ok(Part {
            plan,
            tapes: tapes_found(tapes, &need.tapes),
            clips: clips_found(clips, &need.clips),
            offers: offers_found(offers, &need.offers),
            day,
            aired: airing_found(self.alloc, &plan, aired, &need.aired)?,
            sources,
        })
    }

    // A table of this channel, from the rows as they lie here.
    #[tactic(auto, unfolding(channel_view_model::specs::TableText::text_seen))]
    fn write_table_at<W: Write>(
        &self,
        channel: u16,
        plan: PlanRow,
        table: Table,
        output: &mut W,
    ) -> Result<(), RowFault>
        ensures ok { OnOk result (Appends (W.contents output.old) (W.contents output.new)
            (table_text table (view_at channel self.now plan))) }
        ensures err { OnErr result (AppendsPart (W.contents output.old) (W.contents output.new)
            (table_text table (view_at channel self.now plan))) }
    {
        match table {
            Table::Vault => {
                Ok(write_vault_of(output, &plan, channel_rows(&self.rows.tapes, channel))?)
            }
            Table::Clips => {
                write_clips_of(output, plan.rate, channel_rows(&self.rows.clips, channel))
            }
            Table::Offers => Ok(write_offers_of(output, channel_rows(&self.rows.offers, channel))?),
            Table::Lent => write_lent_of(output, &self.rows.offers, channel),
            Table::Days => Ok(write_days_of(
                output,
                channel_rows(&self.rows.days, channel),
                channel_rows(&self.rows.aired, channel),
            )?),
        }
    }

    // The channel's row of the plan.
    fn plan_of(&self, channel: u16) -> Option<PlanRow>
        ensures { result ≡ plan_of channel self.now }
    {
        channel_rows(&self.rows.channels, channel).first().copied()
    }

    /// Of rows that keep the integrity rules, just the part of what the channel sees that a command needs, or `None`
    /// where the channel isn't in the plan. For want of memory it is [`Unavailable`].
    #[tactic(auto, unfolding(channel_view_model::specs::Centre::view_of))]
    pub fn part(&self, channel: u16, need: &Need<'_>) -> Result<Option<Part>, Unavailable>
        ensures { KeepsRules self.now → IfOk result (IsFetched need.now (view_of channel self.now)) }
    {
        match self.plan_of(channel) {
            None => Ok(None),
            Some(plan) => Ok(Some(self.part_at(channel, plan, need)?)),
        }
    }

    /// Whether a look-up that is asked for walks over more than 2,000 of the channel's rows: a barcode or a slot over
    /// its tapes, a UMID over its clips, an open offer over its offers. One by a number never does.
    pub fn walks_far(&self, channel: u16, need: &Need<'_>) -> bool
        ensures { result ≡ walks_far channel need.now self.now }
    {
        let tapes = need.tapes.barcode.is_some() || need.tapes.slot.is_some();
        (tapes && has_many(&self.rows.tapes, channel))
            || (need.clips.umid.is_some() && has_many(&self.rows.clips, channel))
            || (need.offers.open_to.is_some() && has_many(&self.rows.offers, channel))
    }

    /// Writes a table of the channel, row by row, and says whether the channel is in the plan. Where it isn't, nothing
    /// is written; at a [`TableFault`] it is a beginning of the table.
    #[tactic(auto, unfolding(channel_view_model::specs::Centre::view_of))]
    pub fn write<W: Write>(
        &self,
        channel: u16,
        table: Table,
        output: &mut W,
    ) -> Result<bool, TableFault>
        ensures there { IfOk result (λ b. b ≡ is_some (view_of channel self.now)) }
        ensures ok { OnOk result (Appends (W.contents output.old) (W.contents output.new)
            (text_at table (view_of channel self.now))) }
        ensures err { OnErr result (AppendsPart (W.contents output.old) (W.contents output.new)
            (text_at table (view_of channel self.now))) }
    {
        match self.plan_of(channel) {
            None => Ok(false),
            Some(plan) => {
                self.write_table_at(channel, plan, table, output)?;
                Ok(true)
            }
        }
    }
}

impl FindsSources for MemRows {
    ghost is_found = { λ m c. AreSourcesNumbered c m };

    ghost clips = { λ m c. rows_of c m.clips };

    ghost grants = { λ m c. grants_to c m.offers };

    fn source_at(&self, channel: u16, source: Source) -> Result<SourcesFound, Unavailable> {
        match source {
            Source::Black | Source::Bars => Ok(SourcesFound::nothing(self.alloc)),
            Source::Own(number) => {
                let clips = channel_rows(&self.rows.clips, channel);
                Ok(SourcesFound {
                    clips: just(self.alloc, row_of(clips, number.get()))?,
                    grants: Vec::new(self.alloc),
                })
            }
            Source::Lent(owner, number) => {
                let grant = grant_to(&self.rows.offers, channel, owner.get(), number.get());
                Ok(SourcesFound {
                    clips: Vec::new(self.alloc),
                    grants: just(self.alloc, grant)?,
                })
            }
        }
    }

    fn all_sources(&self, channel: u16) -> Result<SourcesFound, Unavailable> {
        Ok(SourcesFound {
            clips: without_channels(self.alloc, channel_rows(&self.rows.clips, channel))?,
            grants: grants_to(self.alloc, &self.rows.offers, channel)?,
        })
    }
}

impl RowStore for MemRows {
    // It keeps the integrity rules.
    ghost stands_for = { λ m rows. (m ≡ rows) × KeepsRules rows };

    ghost is_clean = { λ m. Unit {0} };

    // A stop leaves nothing of it.
    ghost may_leave = { λ m left. ⊥ };

    ghost leaves_sets = { λ m. Unit {0} };

    #[tactic(auto, unfolding(channel_view_model::specs::Centre::view_of))]
    fn load(&mut self, channel: u16) -> Result<Option<View>, Unavailable> {
        match self.plan_of(channel) {
            None => Ok(None),
            Some(plan) => Ok(Some(self.view_at(channel, plan)?)),
        }
    }

    fn fetch(&mut self, channel: u16, need: &Need<'_>) -> Result<Option<Part>, Unavailable> {
        self.part(channel, need)
    }

    fn write_table<W: Write>(
        &mut self,
        channel: u16,
        table: Table,
        output: &mut W,
    ) -> Result<bool, TableFault> {
        self.write(channel, table, output)
    }

    #[tactic(auto, unfolding(channel_view_model::specs::Centre::changed))]
    fn commit(&mut self, channel: u16, change: &Change) -> Result<(), Unavailable> {
        match change {
            Change::Nothing => Ok(()),
            Change::Vault(put, change) => change_own(&mut self.rows, channel, *put, change),
            Change::Day(change) => change_day(self.alloc, &mut self.rows, channel, change.day()),
            Change::Airing(airing) => change_airing(self.alloc, &mut self.rows, channel, airing),
        }
    }
}

// Whether the channel has so many rows in a table that a walk over them takes longer than a look-up by a key.
fn has_many<T>(table: &[(u16, T)], channel: u16) -> bool
    requires { is_in_order table.now ≡ true }
    ensures { result ≡ has_many channel table.now }
{
    channel_rows(table, channel).len() > FEW_ROWS
}

// Whether the channels, and the rows of each table, are in the order of the channels.
fn are_in_order(rows: &CentreRows) -> bool
    ensures { IsTrue result ↔ IsInOrder rows.now }
{
    is_rising(&rows.channels)
        & is_rising(&rows.tapes)
        & is_rising(&rows.clips)
        & is_rising(&rows.offers)
        & is_rising(&rows.days)
        & is_rising(&rows.aired)
}

// Whether these rows are in the order of their channels.
fn is_rising<R: OfChannel>(rows: &[R]) -> bool
    ensures { IsTrue result ↔ IsNonDecreasingBy R.channel_of rows.now }
{
    rows.is_sorted_by(|row, next| row.channel() <= next.channel())
}

// A change of one of the channel's days.
fn change_day(
    alloc: Global,
    rows: &mut CentreRows,
    channel: u16,
    day: &DayPlan,
) -> Result<(), Unavailable>
    requires { IsInOrder rows.old }
    ensures ok { OnOk result (rows.new ≡ day_changed channel day.now rows.old) }
    ensures err { OnErr result (rows.new ≡ rows.old) }
    ensures order { IsInOrder rows.new }
{
    set_day(alloc, &mut rows.days, channel, day)
}

// A change of what was aired of one of them.
fn change_airing(
    alloc: Global,
    rows: &mut CentreRows,
    channel: u16,
    airing: &DayAsRun,
) -> Result<(), Unavailable>
    requires { IsInOrder rows.old }
    ensures ok { OnOk result (rows.new ≡ airing_changed channel airing.now rows.old) }
    ensures err { OnErr result (rows.new ≡ rows.old) }
    ensures order { IsInOrder rows.new }
{
    set_day(alloc, &mut rows.aired, channel, airing)
}

// The rows and counts of these tapes that answer what is asked.
fn tapes_found(tapes: &[(u16, Tape)], asked: &TapesAsked) -> TapesFound
    ensures { is_numbered_from (λ t. t.n) 1 (rows_alone tapes.now) ≡ true →
        AreTapeAnswers asked.now (listed (rows_alone tapes.now)) result }
{
    TapesFound {
        count: if asked.count { tapes.len() } else { 0 },
        with_number: match asked.number {
            Some(number) => row_of(tapes, number),
            None => None,
        },
        with_barcode: match asked.barcode {
            Some(barcode) => tape_with(tapes, barcode.as_bytes()),
            None => None,
        },
        in_slot: match asked.slot {
            Some(slot) => tape_in(tapes, slot),
            None => None,
        },
    }
}

// The rows and counts of these clips that answer what is asked.
fn clips_found(clips: &[(u16, Clip)], asked: &ClipsAsked) -> ClipsFound
    ensures { is_numbered_from (λ k. k.n) 1 (rows_alone clips.now) ≡ true →
        AreClipAnswers asked.now (listed (rows_alone clips.now)) result }
{
    ClipsFound {
        count: if asked.count { clips.len() } else { 0 },
        with_number: match asked.number {
            Some(number) => row_of(clips, number),
            None => None,
        },
        with_umid: match asked.umid {
            Some(umid) => clip_with(clips, umid),
            None => None,
        },
    }
}

// The rows and counts of these offers that answer what is asked.
fn offers_found(offers: &[(u16, Offer)], asked: &OffersAsked) -> OffersFound
    ensures { is_numbered_from (λ o. o.n) 1 (rows_alone offers.now) ≡ true →
        AreOfferAnswers asked.now (listed (rows_alone offers.now)) result }
{
    OffersFound {
        count: if asked.count { offers.len() } else { 0 },
        with_number: match asked.number {
            Some(number) => row_of(offers, number),
            None => None,
        },
        open_to: match asked.open_to {
            Some(asked) => offer_open_to(offers, asked),
            None => None,
        },
    }
}

// The row with this number, which is its place, counted from 1.
fn row_of<T: Copy>(rows: &[(u16, T)], number: u32) -> Option<T>
    ensures { (number_of : T → ℕ) → is_numbered_from number_of 1 (rows_alone rows.now) ≡ true →
        result ≡ find (λ x. number_of x == number) (rows_alone rows.now) }
{
    if number == 0 {
        return None;
    }
    let row = rows.get(number as usize - 1)?;
    Some(row.1)
}

// The offer with this number of this owner, if it is to the channel, as a lent clip.
fn grant_to(offers: &[(u16, Offer)], channel: u16, owner: u16, number: u16) -> Option<Grant>
    requires { is_in_order offers.now ≡ true }
    ensures { is_numbered_from (λ o. o.n) 1 (rows_of owner offers.now) ≡ true →
        result ≡ find (λ g. g.owner == owner && g.offer.n == number) (grants_to channel offers.now) }
{
    let offer = row_of(channel_rows(offers, owner), u32::from(number))?;
    if offer.grantee == channel {
        Some(Grant { owner, offer })
    } else {
        None
    }
}

// The first clip with this UMID.
fn clip_with(clips: &[(u16, Clip)], umid: Umid) -> Option<Clip>
    ensures { result ≡ find (has_umid umid) (rows_alone clips.now) }
{
    clips.iter().map(|row| row.1).find(|k| k.has_umid(umid))
}

// The first tape with this barcode.
fn tape_with(tapes: &[(u16, Tape)], barcode: &[u8]) -> Option<Tape>
    ensures { result ≡ find (λ t. bytes_eq t.barcode barcode.now) (rows_alone tapes.now) }
{
    tapes
        .iter()
        .map(|row| row.1)
        .find(|t| t.barcode.as_bytes() == barcode)
}

// The first tape in this slot.
fn tape_in(tapes: &[(u16, Tape)], slot: u32) -> Option<Tape>
    ensures { result ≡ find (λ t. stands_in slot t.slot) (rows_alone tapes.now) }
{
    tapes.iter().map(|row| row.1).find(|t| t.stands_in(slot))
}

// The first open offer of this clip to this grantee.
fn offer_open_to(offers: &[(u16, Offer)], asked: OpenOffer) -> Option<Offer>
    ensures { result ≡ find (is_open_to asked.clip asked.grantee) (rows_alone offers.now) }
{
    offers
        .iter()
        .map(|row| row.1)
        .find(|o| is_open_to(o, asked))
}

// A change of the channel's own rows.
fn change_own(
    rows: &mut CentreRows,
    channel: u16,
    put: Put,
    change: &VaultChange,
) -> Result<(), Unavailable>
    requires { IsInOrder rows.old }
    ensures ok { (plan : PlanRow) → KeepsOwnRules (own_of channel plan rows.old) →
        RowMayBePut put change.now (own_of channel plan rows.old) →
        OnOk result (rows.new ≡ own_changed channel change.now rows.old) }
    ensures err { OnErr result (rows.new ≡ rows.old) }
    ensures order { IsInOrder rows.new }
{
    match change {
        VaultChange::Tape(tape) => {
            put_row(&mut rows.tapes, channel, put, u32::from(tape.n), *tape)
        }
        VaultChange::Clip(clip) => put_row(&mut rows.clips, channel, put, clip.n, *clip),
        VaultChange::Offer(offer) => {
            put_row(&mut rows.offers, channel, put, u32::from(offer.n), *offer)
        }
    }
}

// A row with this number: one more, or in the place of the one that has it.
fn put_row<T: Copy>(
    table: &mut Vec<(u16, T)>,
    channel: u16,
    put: Put,
    number: u32,
    row: T,
) -> Result<(), Unavailable>
    requires { is_in_order table.old.items ≡ true }
    ensures ok { (number_of : T → ℕ) → number_of row ≡ number →
        is_numbered_from number_of 1 (rows_of channel table.old.items) ≡ true →
        IsPutAmong number_of put row (rows_of channel table.old.items) →
        OnOk result (table.new.items ≡ replace_row number_of channel row table.old.items) }
    ensures err { OnErr result (table.new.items ≡ table.old.items) }
    ensures order { is_in_order table.new.items ≡ true }
{
    match put {
        Put::Added => add_row(table, channel, row),
        Put::Changed => {
            set_row(table, channel, number, row);
            Ok(())
        }
    }
}

// The row in the place of the channel's with this number.
fn set_row<T: Copy>(table: &mut Vec<(u16, T)>, channel: u16, number: u32, row: T)
    requires { is_in_order table.old.items ≡ true }
    ensures rows { (number_of : T → ℕ) → is_numbered_from number_of 1 (rows_of channel table.old.items) ≡ true →
        table.new.items ≡ alter_row channel (λ x. number_of x == number) (λ x. row) table.old.items }
    ensures order { is_in_order table.new.items ≡ true }
{
    if let Some(place) = place_of(table, channel, number) {
        table[place].1 = row;
    }
}

// The place of the channel's row with this number, where its rows are numbered from 1.
fn place_of<T: Copy>(table: &[(u16, T)], channel: u16, number: u32) -> Option<usize>
    requires { is_in_order table.now ≡ true }
    ensures within { IfSome result (λ at. at < length table.now) }
    ensures changed { IfSome result (λ at. (number_of : T → ℕ) (f : T → T) →
        is_numbered_from number_of 1 (rows_of channel table.now) ≡ true → (r : ℕ × T) →
        r ≡ slice_index_or table.now at r → slice_set table.now at (r.0, f r.1)
        ≡ alter_row channel (λ x. number_of x == number) f table.now) }
    ensures none { IfNone result ((number_of : T → ℕ) (f : T → T) →
        is_numbered_from number_of 1 (rows_of channel table.now) ≡ true →
        table.now ≡ alter_row channel (λ x. number_of x == number) f table.now) }
{
    if number == 0 {
        return None;
    }
    let place = channel_start(table, channel) + (number as usize - 1);
    if place < table.len() && table[place].0 == channel {
        Some(place)
    } else {
        None
    }
}

// A new row, behind the channel's others.
fn add_row<T: Copy>(table: &mut Vec<(u16, T)>, channel: u16, row: T) -> Result<(), Unavailable>
    requires { is_in_order table.old.items ≡ true }
    ensures ok { OnOk result (table.new.items ≡ with_row channel row table.old.items) }
    ensures err { OnErr result (table.new.items ≡ table.old.items) }
    ensures order { is_in_order table.new.items ≡ true }
{
    let at = channel_end(table, channel);
    table.insert(at, (channel, row))?;
    Ok(())
}
