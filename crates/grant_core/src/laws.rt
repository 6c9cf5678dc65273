//! Laws of what is lent of own rows: each is the contract of a function that does nothing else.
ghost use Rattle.std.specs.Prelude.{◌≡◌, ◌++◌, ℕ, List, true};
ghost use Rattle.grant_core.specs.declared.grant.Grant.{Grant};
ghost use Rattle.grant_core.specs.Grant.{KeepsLentRules, lent_by, owners_before};

use vault_core::OwnRows;

/// The offers of own rows to a channel keep the rules of lent clips.
pub fn own_offers_keep_the_lent_rules(own: &OwnRows, channel: u16)
    ensures { KeepsLentRules channel (lent_by own.now channel) }
{
    own.keep_the_rules();
}

/// So do those of one owner behind those of others whose numbers are lower.
pub fn offers_of_more_owners_keep_the_lent_rules()
    ensures { (channel : ℕ) (gs hs : List Grant) → KeepsLentRules channel gs → KeepsLentRules channel hs
        → owners_before gs hs ≡ true → KeepsLentRules channel (gs ++ hs) }
{}
