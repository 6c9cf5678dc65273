//! The own rows of one channel.
ghost use Rattle.std.specs.Prelude.{◌≡◌, ◌==◌, true, Ok, IfOk, IfErr, OnOk, OnErr};
ghost use Rattle.vault_core.specs.Own.{own_seen, with_tape, with_moved, with_clip, with_taken_off};
ghost use Rattle.vault_core.specs.Own.{with_offer, with_withdrawn};
ghost use Rattle.channel_plan.specs.Refusal.{refused, IsRefusalOf};
ghost use Rattle.vault_core.specs.Rules.{KeepsOwnRules};
ghost use Rattle.vault_core.specs.Questions.{alter};
ghost use Rattle.vault_core.specs.Tape.{tape_for, pulled, shelved, number_of_tape};
ghost use Rattle.vault_core.specs.Clip.{clip_for, retired_clip, number_of_clip};
ghost use Rattle.vault_core.specs.Asked.{AreTapeAnswers, AreClipAnswers};

use crate::asked_clips::{ClipsAsked, ClipsFound, clips_found};
use crate::asked_tapes::{TapesAsked, TapesFound, tapes_found};
use crate::clip::Clip;
use crate::offer::Offer;
use crate::rules::keeps_own_rules;
use crate::tape::Tape;
use channel_plan::{Code, PlanRow, Refusal};
use std::alloc::Global;
use std::marker::Model;
use timecode::Unavailable;
use umid::Umid;
use umid::laws::parts_are_of_32_bytes;

/// The own rows of one channel: its plan row, and its tapes, clips and offers by number. They keep the integrity rules.
#[derive(Drop)]
pub struct OwnRows {
    plan: PlanRow,
    tapes: Vec<Tape>,
    clips: Vec<Clip>,
    offers: Vec<Offer>,
}

impl Model for OwnRows {
    ghost use Rattle.vault_core.specs.Own.{Own};
    ghost use Rattle.vault_core.specs.Rules.{KeepsOwnRules};

    ghost Value = { Own };

    ghost view = { λ o. record {
      plan = o.plan;
      tapes = o.tapes.items;
      clips = o.clips.items;
      offers = o.offers.items;
    } };

    ghost invariant = { λ o. KeepsOwnRules (record {
      plan = o.plan;
      tapes = o.tapes.items;
      clips = o.clips.items;
      offers = o.offers.items;
    }) };
}

impl OwnRows {
    /// These rows. Rows that break a rule are refused with [`Code::NotOurs`], and no others: without memory the rules
    /// are tested too, only slower.
    pub fn from_rows(
        alloc: Global,
        plan: PlanRow,
        tapes: Vec<Tape>,
        clips: Vec<Clip>,
        offers: Vec<Offer>,
    ) -> Result<OwnRows, Refusal>
        ensures rows { IfOk result (λ o. o ≡ record {
          plan = plan;
          tapes = tapes.items;
          clips = clips.items;
          offers = offers.items;
        }) }
        ensures rules { IfOk result KeepsOwnRules }
        ensures refusal { IfErr result (λ e. (e ≡ refused Code.NotOurs)
            × (KeepsOwnRules (record {
              plan = plan;
              tapes = tapes.items;
              clips = clips.items;
              offers = offers.items;
            }) → ⊥)) }
    {
        if keeps_own_rules(alloc, plan, &tapes, &clips, &offers) {
            Ok(OwnRows {
                plan,
                tapes,
                clips,
                offers,
            })
        } else {
            Err(Refusal::of(Code::NotOurs))
        }
    }

    /// The rows and counts of its tapes that answer what is asked.
    pub fn tapes_found(&self, asked: &TapesAsked) -> TapesFound
        ensures { AreTapeAnswers asked.now (own_seen self.now).tapes result }
    {
        tapes_found(&self.tapes, asked)
    }

    /// The rows and counts of its clips that answer what is asked.
    pub fn clips_found(&self, asked: &ClipsAsked) -> ClipsFound
        ensures { AreClipAnswers asked.now (own_seen self.now).clips result }
    {
        clips_found(&self.clips, asked)
    }

    /// A law: own rows keep the integrity rules.
    pub fn keep_the_rules(&self)
        ensures { KeepsOwnRules self.now }
    {
        let _plan = self.plan;
    }

    /// Its row of the plan.
    pub fn plan(&self) -> PlanRow
        ensures { result ≡ self.now.plan }
    {
        self.plan
    }

    /// Its tapes, by number.
    pub fn tapes(&self) -> &[Tape]
        ensures { result.now ≡ self.now.tapes }
    {
        self.tapes.as_slice()
    }

    /// Its clips, by number.
    pub fn clips(&self) -> &[Clip]
        ensures { result.now ≡ self.now.clips }
    {
        self.clips.as_slice()
    }

    /// Its offers, by number.
    pub fn offers(&self) -> &[Offer]
        ensures { result.now ≡ self.now.offers }
    {
        self.offers.as_slice()
    }

    /// The tape that a request adds, with the next number, or the first refusal in this order: `BarcodeForm`,
    /// `BadSlot`, `BarcodeKnown`, `SlotTaken`, `VaultFull`. Barcodes and slots are the channel's alone.
    pub fn tape_for(&self, barcode: &[u8], slot: u32) -> Result<Tape, Refusal>
        ensures { result ≡ tape_for (own_seen self.now) barcode.now slot }
    {
        let asked = TapesAsked::for_tape(barcode, slot);
        self.tapes_found(&asked).tape_for(&self.plan, barcode, slot)
    }

    /// The tape of this number as it stands once it is pulled, out of its slot, or the first refusal in this order:
    /// `NoTape`, `TapeOut`.
    pub fn pulled(&self, number: u32) -> Result<Tape, Refusal>
        ensures { result ≡ pulled (own_seen self.now) number }
    {
        self.tapes_found(&TapesAsked::for_pull(number)).pulled()
    }

    /// The tape of this number as it stands once it is shelved in this slot, or the first refusal in this order:
    /// `NoTape`, `BadSlot`, `TapeShelved`, `SlotTaken`.
    pub fn shelved(&self, number: u32, slot: u32) -> Result<Tape, Refusal>
        ensures { result ≡ shelved (own_seen self.now) number slot }
    {
        let asked = TapesAsked::for_shelve(number, slot);
        self.tapes_found(&asked).shelved(&self.plan, slot)
    }

    /// Adds the tape of [`OwnRows::tape_for`] and gives its number. A refusal leaves the rows as they were: one of
    /// those there, or, where none holds, [`Code::Unavailable`] for want of memory.
    pub fn add_tape(&mut self, barcode: &[u8], slot: u32) -> Result<u16, Refusal>
        ensures added { IfOk result (λ n. (t : Tape) × (tape_for (own_seen self.old) barcode.now slot ≡ Ok t)
            × (n ≡ t.n) × (self.new ≡ with_tape self.old t)) }
        ensures refused { IfErr result (λ e. (self.new ≡ self.old)
            × IsRefusalOf (tape_for (own_seen self.old) barcode.now slot) e) }
    {
        let tape = self.tape_for(barcode, slot)?;
        let number = tape.n;
        match self.tapes.push(tape) {
            Ok(()) => Ok(number),
            Err(_) => Err(Refusal::of(Code::Unavailable)),
        }
    }

    /// Takes a tape out of its slot and gives its number. A refusal is that of [`OwnRows::pulled`] and leaves the rows
    /// as they were.
    pub fn pull(&mut self, number: u32) -> Result<u16, Refusal>
        ensures reply { result ≡ number_of_tape (pulled (own_seen self.old) number) }
        ensures rows { self.new ≡ with_moved (pulled (own_seen self.old) number) self.old }
    {
        let tape = self.pulled(number)?;
        set_slot(&mut self.tapes, tape.n, tape.slot);
        Ok(tape.n)
    }

    /// Puts a tape into a slot and gives its number. A refusal is that of [`OwnRows::shelved`] and leaves the rows as
    /// they were.
    pub fn shelve(&mut self, number: u32, slot: u32) -> Result<u16, Refusal>
        ensures reply { result ≡ number_of_tape (shelved (own_seen self.old) number slot) }
        ensures rows { self.new ≡ with_moved (shelved (own_seen self.old) number slot) self.old }
    {
        let tape = self.shelved(number, slot)?;
        set_slot(&mut self.tapes, tape.n, tape.slot);
        Ok(tape.n)
    }

    /// The clip that is added on the tape of this number, with the next number, or the first refusal in this order:
    /// `TitleForm`, `NoTape`, `ClipRange`, `UmidKnown`, `RegisterFull`. UMIDs are the channel's alone, and a retired
    /// clip has its own still.
    pub fn clip_for(
        &self,
        tape: u32,
        title: &[u8],
        umid: Umid,
        source_first: u32,
        frames: u32,
    ) -> Result<Clip, Refusal>
        ensures { result ≡ clip_for (own_seen self.now) tape title.now umid source_first frames }
    {
        let tapes = self.tapes_found(&TapesAsked::for_clip(tape));
        let clips = self.clips_found(&ClipsAsked::for_clip(Some(umid)));
        clips.clip_for(&tapes, &self.plan, title, umid, source_first, frames)
    }

    /// The clip of this number as it stands once it is retired, or the first refusal in this order: `NoClip`,
    /// `ClipRetired`.
    pub fn retired(&self, number: u32) -> Result<Clip, Refusal>
        ensures { result ≡ retired_clip (own_seen self.now) number }
    {
        self.clips_found(&ClipsAsked::for_retire(number)).retired()
    }

    /// Adds the clip of [`OwnRows::clip_for`] and gives its number. A refusal leaves the rows as they were: one of
    /// those there, or, where none holds, [`Code::Unavailable`] for want of memory.
    pub fn add_clip(
        &mut self,
        tape: u32,
        title: &[u8],
        umid: Umid,
        source_first: u32,
        frames: u32,
    ) -> Result<u32, Refusal>
        ensures added { IfOk result (λ n. (c : Clip)
            × (clip_for (own_seen self.old) tape title.now umid source_first frames ≡ Ok c)
            × (n ≡ c.n) × (self.new ≡ with_clip self.old c)) }
        ensures refused { IfErr result (λ e. (self.new ≡ self.old)
            × IsRefusalOf (clip_for (own_seen self.old) tape title.now umid source_first frames) e) }
    {
        parts_are_of_32_bytes(&umid);
        let clip = self.clip_for(tape, title, umid, source_first, frames)?;
        let number = clip.n;
        match self.clips.push(clip) {
            Ok(()) => Ok(number),
            Err(_) => Err(Refusal::of(Code::Unavailable)),
        }
    }

    /// Retires a clip and gives its number. A refusal is that of [`OwnRows::retired`] and leaves the rows as they were.
    pub fn retire(&mut self, number: u32) -> Result<u32, Refusal>
        ensures reply { result ≡ number_of_clip (retired_clip (own_seen self.old) number) }
        ensures rows { self.new ≡ with_taken_off (retired_clip (own_seen self.old) number) self.old }
    {
        let clip = self.retired(number)?;
        set_retired(&mut self.clips, clip.n);
        Ok(clip.n)
    }

    /// Adds an offer with which the rows keep the rules: the next number, a copy of a clip that is there, and none that
    /// is open of this clip to this grantee. Want of memory leaves the rows as they were.
    pub fn push_offer(&mut self, offer: Offer) -> Result<(), Unavailable>
        requires { KeepsOwnRules (with_offer self.old offer) }
        ensures ok { OnOk result (self.new ≡ with_offer self.old offer) }
        ensures err { OnErr result (self.new ≡ self.old) }
    {
        // The proof wants the type of this field named.
        let _window = offer.window;
        match self.offers.push(offer) {
            Ok(()) => Ok(()),
            Err(_) => Err(Unavailable),
        }
    }

    /// Withdraws the offer of this number, where there is one. It is never open again.
    pub fn mark_withdrawn(&mut self, number: u32)
        ensures { self.new ≡ with_withdrawn number self.old }
    {
        set_withdrawn(&mut self.offers, number);
    }
}

// Tape `number` with this slot, or out.
fn set_slot(tapes: &mut [Tape], number: u16, slot: Option<u16>)
    ensures { tapes.new ≡ alter (λ t. t.n == number) (λ t. record t { slot = slot }) tapes.old }
{
    for tape in tapes.iter_mut() {
        if tape.n == number {
            tape.slot = slot;
        }
    }
}

// Clip `number` retired.
fn set_retired(clips: &mut [Clip], number: u32)
    ensures { clips.new ≡ alter (λ c. c.n == number) (λ c. record c { retired = true }) clips.old }
{
    for clip in clips.iter_mut() {
        if clip.n == number {
            clip.retired = true;
        }
    }
}

// Offer `number` withdrawn.
fn set_withdrawn(offers: &mut [Offer], number: u32)
    ensures { offers.new ≡ alter (λ o. o.n == number) (λ o. record o { withdrawn = true }) offers.old }
{
    for offer in offers.iter_mut() {
        if u32::from(offer.n) == number {
            offer.withdrawn = true;
        }
    }
}
