//! Sources: what an item shows.
ghost use Rattle.std.specs.Prelude.{◌≡◌, ◌==◌, ◌&&◌, Some, true, find, option_copied};
ghost use Rattle.std.specs.Option.{option_map};
ghost use Rattle.playlist_core.specs.Source.{seen_of, source_frame, source_of_reel, source_reel};
ghost use Rattle.playlist_core.specs.Source.{is_source, numbered_source};

use crate::reel_numbers::{ClipNumber, OfferNumber, Owner};
use grant_core::{Grant, LentReel, LentRows, are_in_order, grant_among, seven_digits};
use std::alloc::Global;
use std::fmt;
use std::marker::Model;
use vault_core::{Clip, ClipReel, OwnRows, are_numbered, clip_at};

/// What an item shows.
#[derive(Clone, Copy, PartialEq, Eq)]
pub enum Source {
    Black,
    Bars,
    /// A clip of the channel, by its number.
    Own(ClipNumber),
    /// A clip that another channel lends, by the owner and the number of the offer.
    Lent(Owner, OfferNumber),
}

impl Source {
    /// The source that a reel names, if it names one: `BL` or `BLACK`, `BARS`, `C` and 7 digits, or `L` and 7 digits,
    /// of which the first 3 are the owner.
    pub fn read(reel: &[u8]) -> Option<Source>
        ensures { result ≡ source_of_reel reel.now }
    {
        if reel == b"BL".as_slice() || reel == b"BLACK".as_slice() {
            Some(Source::Black)
        } else if reel == b"BARS".as_slice() {
            Some(Source::Bars)
        } else {
            numbered(reel)
        }
    }

    /// A law: its numbers have no more digits than a reel has for them, and so its reel names it.
    #[tactic(auto, using(crate::proofs::ReelLemmas::source_again))]
    pub fn keeps_the_form(self)
        ensures digits { is_source self ≡ true }
        ensures reel { source_of_reel (source_reel self) ≡ Some self }
    {}

    /// The source frame at the kth frame of what begins at its frame `first`. Black and bars have frame 0 throughout.
    pub fn frame(self, first: u32, k: u32) -> u64
        ensures { result ≡ source_frame self first k }
    {
        match self {
            Source::Black | Source::Bars => 0,
            Source::Own(_) | Source::Lent(_, _) => u64::from(first) + u64::from(k),
        }
    }
}

// The clip, own or lent, that a reel names.
fn numbered(reel: &[u8]) -> Option<Source>
    ensures { result ≡ numbered_source reel.now }
{
    match reel.split_first() {
        Some((b'C', digits)) => {
            let number = ClipNumber::new(seven_digits(digits)?)?;
            Some(Source::Own(number))
        }
        Some((b'L', digits)) => {
            let number = seven_digits(digits)?;
            let owner = Owner::new((number / 10_000) as u16)?;
            Some(Source::Lent(owner, OfferNumber::new((number % 10_000) as u16)?))
        }
        _ => None,
    }
}

/// Its reel in edit lists and tables: `BL`, `BARS`, or that of a clip or of a lent clip.
impl fmt::Display for Source {
    ghost output = { λ source. Some (source_reel source) };

    fn fmt<W: fmt::Write>(&self, f: &mut fmt::Formatter<W>) -> fmt::Result {
        match *self {
            Source::Black => f.write_str("BL"),
            Source::Bars => f.write_str("BARS"),
            Source::Own(number) => {
                let reel = ClipReel {
                    number: number.get(),
                };
                write!(f, "{reel}")
            }
            Source::Lent(owner, number) => {
                let reel = LentReel {
                    owner: owner.get(),
                    number: number.get(),
                };
                write!(f, "{reel}")
            }
        }
    }
}

/// The row that a source names.
#[derive(Clone, Copy)]
pub enum SourceRow<'a> {
    Own(&'a Clip),
    Lent(&'a Grant),
}

/// The clips and the lent clips that sources may name.
pub trait Sources {
    ghost use Rattle.playlist_core.specs.Source.{SourcesSeen, found, row_seen};

    ghost seen: { Self → SourcesSeen };

    /// The clip or the lent clip that a source names, if it is there. Black and bars name none.
    fn find(&self, source: &Source) -> Option<SourceRow<'_>>
        ensures { option_map row_seen result ≡ found (seen self.now) source.now };
}

/// Clips of a channel and clips that are lent to it, as rows that sources name. All of a channel's are numbered from 1
/// without a hole, and those lent to it are in the order of owners and numbers, so a row is found by its place or by
/// bisection; rows that aren't so are walked.
#[derive(Drop)]
pub struct SourceRows<'a> {
    clips: &'a [Clip],
    grants: &'a [Grant],
    are_numbered: bool,
    are_in_order: bool,
}

impl<'a> Model for SourceRows<'a> {
    ghost use Rattle.std.specs.Prelude.{◌≡◌, true, IsTrue};
    ghost use Rattle.vault_core.specs.Rules.{is_numbered_from};
    ghost use Rattle.grant_core.specs.Grant.{AreInOrder};
    ghost use Rattle.playlist_core.specs.Source.{RowsSeen};

    ghost Value = { RowsSeen };

    ghost view = { λ s. record { clips = s.clips.now; grants = s.grants.now } };

    ghost invariant = { λ s. (IsTrue s.are_numbered → is_numbered_from (λ k. k.n) 1 s.clips.now ≡ true)
        × (IsTrue s.are_in_order → AreInOrder s.grants.now) };
}

impl<'a> SourceRows<'a> {
    /// These rows. It looks at each once.
    pub fn of(clips: &'a [Clip], grants: &'a [Grant]) -> SourceRows<'a>
        ensures { result ≡ record { clips = clips.now; grants = grants.now } }
    {
        SourceRows {
            clips,
            grants,
            are_numbered: are_numbered(clips),
            are_in_order: are_in_order(grants),
        }
    }

    // The clip of this number.
    fn clip(&self, number: u32) -> Option<&Clip>
        ensures { option_copied result ≡ find (λ k. k.n == number) self.now.clips }
    {
        if self.are_numbered {
            clip_at(self.clips, number)
        } else {
            self.clips.iter().find(|k| k.n == number)
        }
    }

    // The lent clip of this owner and number.
    fn grant(&self, owner: u16, number: u16) -> Option<&Grant>
        ensures { option_copied result ≡ find (λ g. g.owner == owner && g.offer.n == number) self.now.grants }
    {
        if self.are_in_order {
            grant_among(self.grants, owner, number)
        } else {
            let mut grants = self.grants.iter();
            grants.find(|g| g.owner == owner && g.offer.n == number)
        }
    }
}

impl Sources for SourceRows<'_> {
    ghost seen = { λ rows. seen_of rows.clips rows.grants };

    fn find(&self, source: &Source) -> Option<SourceRow<'_>> {
        match *source {
            Source::Black | Source::Bars => None,
            Source::Own(number) => {
                let clip = self.clip(number.get())?;
                Some(SourceRow::Own(clip))
            }
            Source::Lent(owner, number) => {
                let grant = self.grant(owner.get(), number.get())?;
                Some(SourceRow::Lent(grant))
            }
        }
    }
}

/// The clips of a channel, and those that are lent to it, as sources name them.
#[derive(Clone, Copy)]
pub struct ViewSources<'a> {
    pub own: &'a OwnRows,
    pub lent: &'a LentRows,
}

impl ViewSources<'_> {
    // The clip of this number.
    fn clip(&self, number: u32) -> Option<&Clip>
        ensures { option_copied result ≡ find (λ k. k.n == number) self.now.own.now.clips }
    {
        self.own.keep_the_rules();
        clip_at(self.own.clips(), number)
    }

    // The lent clip of this owner and number.
    fn grant(&self, owner: u16, number: u16) -> Option<&Grant>
        ensures { option_copied result ≡ find (λ g. g.owner == owner && g.offer.n == number) self.now.lent.now }
    {
        self.lent.grant_of(owner, number)
    }
}

impl Sources for ViewSources<'_> {
    ghost seen = { λ view. seen_of view.own.now.clips view.lent.now };

    fn find(&self, source: &Source) -> Option<SourceRow<'_>> {
        match *source {
            Source::Black | Source::Bars => None,
            Source::Own(number) => {
                let clip = self.clip(number.get())?;
                Some(SourceRow::Own(clip))
            }
            Source::Lent(owner, number) => {
                let grant = self.grant(owner.get(), number.get())?;
                Some(SourceRow::Lent(grant))
            }
        }
    }
}

/// The rows that were found of those that sources may name: clips of a channel, and clips that are lent to it.
#[derive(Drop)]
pub struct SourcesFound {
    pub clips: Vec<Clip>,
    pub grants: Vec<Grant>,
}

impl SourcesFound {
    ghost use Rattle.std.specs.Prelude.{◌≡◌, []};

    /// Nothing was found.
    pub fn nothing(alloc: Global) -> SourcesFound
        ensures clips { result.clips.items ≡ [] }
        ensures grants { result.grants.items ≡ [] }
    {
        SourcesFound {
            clips: Vec::new(alloc),
            grants: Vec::new(alloc),
        }
    }

    /// They as rows that sources name.
    pub fn rows(&self) -> SourceRows<'_>
        ensures { result ≡ record { clips = self.now.clips.items; grants = self.now.grants.items } }
    {
        SourceRows::of(&self.clips, &self.grants)
    }
}
