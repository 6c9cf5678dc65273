//! What a command asks of a channel's clips, and the rows and counts that answer it.
ghost use Rattle.std.specs.Prelude.{◌≡◌, ℕ, ◌==◌, Err, Some, find, is_some, length, if◌then◌else◌};
ghost use Rattle.std.specs.Option.{option_and_then};
ghost use Rattle.vault_core.specs.Questions.{listed, IsConsistent};
ghost use Rattle.vault_core.specs.Own.{OwnSeen};
ghost use Rattle.channel_plan.specs.Refusal.{refused};
ghost use Rattle.vault_core.specs.Clip.{has_umid, clip_on as clip_put_on, clip_for, clip_of_texts};
ghost use Rattle.vault_core.specs.Clip.{as_retired, retired_clip};
ghost use Rattle.vault_core.specs.Asked.{asked_for_clip, AreTapeAnswers, AreClipAnswers};
ghost use Rattle.vault_core.specs.Asked.{no_clips_asked, clips_asked_for_clip, clips_asked_for_texts};
ghost use Rattle.vault_core.specs.Asked.{clips_asked_for_retire};

use crate::asked_tapes::TapesFound;
use crate::clip::{Clip, MAX_CLIPS, Title, is_range};
use crate::tape::Tape;
use channel_plan::{Code, PlanRow, Refusal};
use timecode::from_timecode;
use umid::Umid;

/// What a command asks of its channel's clips.
#[derive(Clone, Copy, PartialEq, Eq)]
pub struct ClipsAsked {
    /// Whether it asks how many there are.
    pub count: bool,
    /// Which clip has this number.
    pub number: Option<u32>,
    /// Which clip has this UMID, be it retired.
    pub umid: Option<Umid>,
}

impl ClipsAsked {
    /// Nothing.
    pub fn nothing() -> ClipsAsked
        ensures { result ≡ no_clips_asked }
    {
        ClipsAsked {
            count: false,
            number: None,
            umid: None,
        }
    }

    /// What adding a clip asks: how many there are, and, where its UMID is one, the clip with it.
    pub fn for_clip(umid: Option<Umid>) -> ClipsAsked
        ensures { result ≡ clips_asked_for_clip umid }
    {
        ClipsAsked {
            count: true,
            number: None,
            umid,
        }
    }

    /// What adding a clip asks whose UMID is given in hexadecimal digits. A text that is none is refused whatever the
    /// rows are, so no clip with it is asked for.
    pub fn for_texts(umid: &str) -> ClipsAsked
        ensures { result ≡ clips_asked_for_texts umid.now }
    {
        ClipsAsked::for_clip(Umid::from_hex(umid).ok())
    }

    /// What retiring a clip asks: the clip with its number.
    pub fn for_retire(number: u32) -> ClipsAsked
        ensures { result ≡ clips_asked_for_retire number }
    {
        let mut asked = ClipsAsked::nothing();
        asked.number = Some(number);
        asked
    }
}

/// The rows and counts of a channel's clips that answer what is asked. What isn't asked is none.
#[derive(Clone, Copy, PartialEq, Eq)]
pub struct ClipsFound {
    /// How many there are, or 0 where that isn't asked.
    pub count: usize,
    /// The clip with the number, if there is one.
    pub with_number: Option<Clip>,
    /// The clip with the UMID, if there is one.
    pub with_umid: Option<Clip>,
}

impl ClipsFound {
    /// The clip that is added, with the next number, or the first refusal in this order: `TitleForm`, `NoTape`,
    /// `ClipRange`, `UmidKnown`, `RegisterFull`. It is the same for all rows that answer [`TapesAsked::for_clip`] and
    /// [`ClipsAsked::for_clip`] so.
    ///
    /// [`TapesAsked::for_clip`]: crate::TapesAsked::for_clip
    pub fn clip_for(
        &self,
        tapes: &TapesFound,
        plan: &PlanRow,
        title: &[u8],
        umid: Umid,
        source_first: u32,
        frames: u32,
    ) -> Result<Clip, Refusal>
        ensures { (own : OwnSeen) → (tape : ℕ) → own.plan ≡ plan.now → IsConsistent own.clips →
            AreTapeAnswers (asked_for_clip tape) own.tapes tapes.now →
            AreClipAnswers (clips_asked_for_clip (Some umid)) own.clips self.now →
            result ≡ clip_for own tape title.now umid source_first frames }
    {
        let Some(title) = Title::read(title) else {
            return refuse(Code::TitleForm);
        };
        match tapes.with_number {
            Some(tape) => self.clip_on(&tape, plan, title, umid, source_first, frames),
            None => refuse(Code::NoTape),
        }
    }

    // The clip on a tape that is there.
    fn clip_on(
        &self,
        tape: &Tape,
        plan: &PlanRow,
        title: Title,
        umid: Umid,
        source_first: u32,
        frames: u32,
    ) -> Result<Clip, Refusal>
        ensures { result ≡ clip_put_on plan.now (is_some self.now.with_umid) self.now.count title umid source_first
            frames tape.now }
    {
        if !is_range(plan, source_first, frames) {
            return refuse(Code::ClipRange);
        }
        if self.with_umid.is_some() {
            return refuse(Code::UmidKnown);
        }
        if self.count >= MAX_CLIPS {
            return refuse(Code::RegisterFull);
        }
        Ok(Clip {
            n: self.count as u32 + 1,
            tape: tape.n,
            title,
            umid,
            src_first: source_first,
            frames,
            retired: false,
        })
    }

    /// The clip that a request adds, with the next number. `source_in` is the label of its first source frame at the
    /// channel's rate, `umid` are hexadecimal digits. The first refusal is the label's fault, the UMID's, or that of
    /// [`ClipsFound::clip_for`]. It is the same for all rows that answer [`TapesAsked::for_clip`] and
    /// [`ClipsAsked::for_texts`] so.
    ///
    /// [`TapesAsked::for_clip`]: crate::TapesAsked::for_clip
    pub fn clip_of_texts(
        &self,
        tapes: &TapesFound,
        plan: &PlanRow,
        title: &[u8],
        umid: &str,
        source_in: &[u8],
        frames: u32,
    ) -> Result<Clip, Refusal>
        ensures { (own : OwnSeen) → (tape : ℕ) → own.plan ≡ plan.now → IsConsistent own.clips →
            AreTapeAnswers (asked_for_clip tape) own.tapes tapes.now →
            AreClipAnswers (clips_asked_for_texts umid.now) own.clips self.now →
            result ≡ clip_of_texts own tape title.now umid.now source_in.now frames }
    {
        let source_first = match from_timecode(source_in, plan.rate) {
            Ok(frame) => frame,
            Err(fault) => return refuse(Code::Label(fault)),
        };
        let umid = match Umid::from_hex(umid) {
            Ok(umid) => umid,
            Err(fault) => return refuse(Code::Umid(fault)),
        };
        self.clip_for(tapes, plan, title, umid, source_first, frames)
    }

    /// The clip that a request retires, as it stands then, or the first refusal in this order: `NoClip`,
    /// `ClipRetired`. It is the same for all rows that answer [`ClipsAsked::for_retire`] so.
    pub fn retired(&self) -> Result<Clip, Refusal>
        ensures { (own : OwnSeen) → (n : ℕ) →
            AreClipAnswers (clips_asked_for_retire n) own.clips self.now → result ≡ retired_clip own n }
    {
        match self.with_number {
            Some(clip) => retired(clip),
            None => refuse(Code::NoClip),
        }
    }
}

// A clip that is retired.
fn retired(clip: Clip) -> Result<Clip, Refusal>
    ensures { result ≡ as_retired clip }
{
    if clip.retired {
        return refuse(Code::ClipRetired);
    }
    Ok(Clip {
        retired: true,
        ..clip
    })
}

/// The rows and counts of these clips that answer what is asked.
pub(crate) fn clips_found(clips: &[Clip], asked: &ClipsAsked) -> ClipsFound
    ensures { AreClipAnswers asked.now (listed clips.now) result }
{
    ClipsFound {
        count: counted(clips, asked.count),
        with_number: with_number(clips, asked.number),
        with_umid: with_umid(clips, asked.umid),
    }
}

fn counted(clips: &[Clip], is_asked: bool) -> usize
    ensures { result ≡ (if is_asked then length clips.now else 0) }
{
    if is_asked { clips.len() } else { 0 }
}

fn with_number(clips: &[Clip], asked: Option<u32>) -> Option<Clip>
    ensures { result ≡ option_and_then (λ n. find (λ c. c.n == n) clips.now) asked }
{
    match asked {
        Some(number) => clip_of(clips, number),
        None => None,
    }
}

fn with_umid(clips: &[Clip], asked: Option<Umid>) -> Option<Clip>
    ensures { result ≡ option_and_then (λ umid. find (has_umid umid) clips.now) asked }
{
    match asked {
        Some(umid) => clip_with(clips, umid),
        None => None,
    }
}

// The first clip with this number.
fn clip_of(clips: &[Clip], number: u32) -> Option<Clip>
    ensures { result ≡ find (λ c. c.n == number) clips.now }
{
    clips.iter().copied().find(|c| c.n == number)
}

// The first clip with this UMID.
fn clip_with(clips: &[Clip], umid: Umid) -> Option<Clip>
    ensures { result ≡ find (has_umid umid) clips.now }
{
    clips.iter().copied().find(|c| c.has_umid(umid))
}

fn refuse(code: Code) -> Result<Clip, Refusal>
    ensures { result ≡ Err (refused code) }
{
    Err(Refusal::of(code))
}
