//! The numbers that the reels of clips and of lent clips write. Each has no more digits than its reel has for it.
ghost use Rattle.std.specs.Prelude.{◌≡◌, ◌^◌, nat_lt, Some, None, if◌then◌else◌};

use std::marker::Model;

/// The number of a clip, at most 9,999,999: its reel has 7 digits for it.
#[derive(Clone, Copy, PartialEq, Eq)]
pub struct ClipNumber {
    clip: u32,
}

impl Model for ClipNumber {
    ghost use Rattle.std.specs.Prelude.{◌<◌, ◌^◌, ℕ};

    ghost Value = { ℕ };

    ghost view = { λ number. number.clip };

    ghost invariant = { λ number. number.clip < 10 ^ 7 };

    ghost inverse = { λ clip. record { clip = clip } };
}

impl ClipNumber {
    /// The number of a clip, or none where it has more than 7 digits.
    pub fn new(clip: u32) -> Option<ClipNumber>
        ensures { result ≡ (if nat_lt clip (10 ^ 7) then Some clip else None) }
    {
        if clip < 10_000_000 {
            Some(ClipNumber { clip })
        } else {
            None
        }
    }

    /// The number.
    pub fn get(self) -> u32
        ensures { result ≡ self }
    {
        self.clip
    }
}

/// The number of a channel that lends a clip, at most 999: the clip's reel has 3 digits for it.
#[derive(Clone, Copy, PartialEq, Eq)]
pub struct Owner {
    channel: u16,
}

impl Model for Owner {
    ghost use Rattle.std.specs.Prelude.{◌<◌, ◌^◌, ℕ};

    ghost Value = { ℕ };

    ghost view = { λ owner. owner.channel };

    ghost invariant = { λ owner. owner.channel < 10 ^ 3 };

    ghost inverse = { λ channel. record { channel = channel } };
}

impl Owner {
    /// The owner with this channel number, or none where it has more than 3 digits.
    pub fn new(channel: u16) -> Option<Owner>
        ensures { result ≡ (if nat_lt channel (10 ^ 3) then Some channel else None) }
    {
        if channel < 1000 {
            Some(Owner { channel })
        } else {
            None
        }
    }

    /// The channel number.
    pub fn get(self) -> u16
        ensures { result ≡ self }
    {
        self.channel
    }
}

/// The number of an offer, at most 9,999: the reel of the lent clip has 4 digits for it.
#[derive(Clone, Copy, PartialEq, Eq)]
pub struct OfferNumber {
    offer: u16,
}

impl Model for OfferNumber {
    ghost use Rattle.std.specs.Prelude.{◌<◌, ◌^◌, ℕ};

    ghost Value = { ℕ };

    ghost view = { λ number. number.offer };

    ghost invariant = { λ number. number.offer < 10 ^ 4 };

    ghost inverse = { λ offer. record { offer = offer } };
}

impl OfferNumber {
    /// The number of an offer, or none where it has more than 4 digits.
    pub fn new(offer: u16) -> Option<OfferNumber>
        ensures { result ≡ (if nat_lt offer (10 ^ 4) then Some offer else None) }
    {
        if offer < 10_000 {
            Some(OfferNumber { offer })
        } else {
            None
        }
    }

    /// The number.
    pub fn get(self) -> u16
        ensures { result ≡ self }
    {
        self.offer
    }
}
