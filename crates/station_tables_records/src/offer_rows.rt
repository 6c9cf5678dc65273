//! Rows.
ghost use Rattle.std.specs.Prelude.{◌≡◌};

use vault_core::{Offer, Window};

/// The window of days of an offer.
#[derive(Clone, Copy)]
pub struct SpanRow {
    /// The number of the offer in its channel.
    pub offer: u16,
    pub window: Window,
}

/// The offer with this window, or with none.
pub fn with_window(offer: Offer, window: Option<Window>) -> Offer
    ensures { result ≡ record offer { window = window } }
{
    Offer { window, ..offer }
}
