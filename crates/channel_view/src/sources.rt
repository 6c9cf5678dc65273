//! The clips and the lent clips that a command asks for, of any rows that find what one source names.
ghost use Rattle.std.specs.Prelude.{◌≡◌, ℕ, List, IfOk};
ghost use Rattle.vault_core.specs.declared.clip.Clip.{Clip};
ghost use Rattle.grant_core.specs.declared.grant.Grant.{Grant};
ghost use Rattle.channel_view_model.specs.Need.{AreSourceAnswers, IsSourceAnswer, NamesAlike};

use channel_view_model::{FEW_SOURCES, SourcesAsked, sources_of};
use playlist_core::{Item, Source, SourcesFound};
use std::alloc::Global;
use timecode::Unavailable;

/// Rows of all channels, that find what a source names for one of them.
pub trait FindsSources {
    // They are such that what is there for the channel is found.
    ghost is_found: { Self → ℕ → Type 0 };

    // The channel's clips.
    ghost clips: { Self → ℕ → List Clip };

    // The clips that are lent to it.
    ghost grants: { Self → ℕ → List Grant };

    /// What one source names for this channel.
    fn source_at(&self, channel: u16, source: Source) -> Result<SourcesFound, Unavailable>
        ensures { is_found self.now channel → IfOk result (λ found. IsSourceAnswer source (clips self.now channel)
            (grants self.now channel) found.clips.items found.grants.items) };

    /// All of this channel's clips, and all that are lent to it.
    fn all_sources(&self, channel: u16) -> Result<SourcesFound, Unavailable>
        ensures { is_found self.now channel → IfOk result (λ found. (found.clips.items ≡ clips self.now channel)
            × (found.grants.items ≡ grants self.now channel)) };
}

/// The clips and the lent clips that are asked for, of these items or these sources.
pub fn sources_at<R: FindsSources>(
    alloc: Global,
    rows: &R,
    channel: u16,
    asked: SourcesAsked,
    items: &[Item],
    named: &[Source],
) -> Result<SourcesFound, Unavailable>
    ensures { R.is_found rows.now channel →
        IfOk result (λ found. AreSourceAnswers asked items.now named.now (R.clips rows.now channel)
        (R.grants rows.now channel) found.clips.items found.grants.items) }
{
    match asked {
        SourcesAsked::Nothing => Ok(SourcesFound::nothing(alloc)),
        SourcesAsked::One(source) => rows.source_at(channel, source),
        SourcesAsked::OfItems => {
            let sources = sources_of(alloc, items)?;
            sources_named(alloc, rows, channel, &sources)
        }
        SourcesAsked::Named => sources_named(alloc, rows, channel, named),
    }
}

// What these sources name; of many, all.
fn sources_named<R: FindsSources>(
    alloc: Global,
    rows: &R,
    channel: u16,
    sources: &[Source],
) -> Result<SourcesFound, Unavailable>
    ensures { R.is_found rows.now channel →
        IfOk result (λ found. NamesAlike sources.now (R.clips rows.now channel) (R.grants rows.now channel)
        found.clips.items found.grants.items) }
{
    if sources.len() > FEW_SOURCES {
        return rows.all_sources(channel);
    }
    let mut found = SourcesFound::nothing(alloc);
    for source in sources {
        let named = rows.source_at(channel, *source)?;
        found.clips.extend_from_slice(&named.clips)?;
        found.grants.extend_from_slice(&named.grants)?;
    }
    Ok(found)
}
