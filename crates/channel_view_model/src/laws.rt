//! Laws of the centre, proved over all sets of rows.
ghost use Rattle.channel_view_model.specs.Centre.{Centre, Request, after};
ghost use Rattle.channel_view_model.specs.Rules.{KeepsRules};

/// A request keeps the integrity rules of the set.
pub fn rules_are_kept()
    ensures { (rows : Centre) (r : Request) → KeepsRules rows → KeepsRules (after rows r) }
{}
