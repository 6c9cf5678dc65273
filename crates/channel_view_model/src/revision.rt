//! A revision of a broadcast day, as a command says it.
ghost use Rattle.std.specs.Prelude.{◌≡◌};
ghost use Rattle.std.specs.List.{list_all};
ghost use Rattle.channel_view_model.specs.Revision.{is_revision, is_said, is_wipe};

use channel_plan::Refusal;
use playlist_core::{MAX_ITEMS, MAX_MIX, MAX_WIPE};
use std::marker::Model;
use vault_core::RawText;

/// An item that a revision puts in, as it is said. `at` is the label at which it is aired, `frames` its length, `source`
/// the reel of what it shows and `source_in` the label of its first source frame. With the number of a wipe it is this
/// wipe; without, it is a dissolve with a mix, and a cut without one.
#[derive(Drop)]
pub struct SaidItem {
    pub at: RawText,
    pub frames: u32,
    pub source_in: RawText,
    pub mix: u32,
    pub wipe: Option<u32>,
    pub source: RawText,
}

impl SaidItem {
    /// Whether its mix and its wipe have at most three digits.
    pub fn is_in_range(&self) -> bool
        ensures { result ≡ is_said self.now }
    {
        self.mix <= u32::from(MAX_MIX) && is_wipe(self.wipe)
    }
}

fn is_wipe(wipe: Option<u32>) -> bool
    ensures { result ≡ is_wipe wipe }
{
    match wipe {
        None => true,
        Some(number) => number <= u32::from(MAX_WIPE),
    }
}

// Whether they aren't too many, and each item is in range.
fn is_revision(remove: &[u32], add: &[SaidItem]) -> bool
    ensures { result ≡ is_revision (record { remove = remove.now; add = add.now }) }
{
    let most = usize::from(MAX_ITEMS);
    remove.len() <= most && add.len() <= most && are_in_range(add)
}

fn are_in_range(items: &[SaidItem]) -> bool
    ensures { result ≡ list_all is_said items.now }
{
    items.iter().all(|said| said.is_in_range())
}

/// The numbers of items that are taken out of a day, and items that are put in: at most 9,999 of each.
#[derive(Drop)]
pub struct Revision {
    remove: Vec<u32>,
    add: Vec<SaidItem>,
}

impl Model for Revision {
    ghost use Rattle.std.specs.Prelude.{◌≡◌, true};
    ghost use Rattle.channel_view_model.specs.Revision.{SaidRevision, is_revision};

    ghost Value = { SaidRevision };

    ghost view = { λ r. record { remove = r.remove.items; add = r.add.items } };

    ghost invariant = { λ r. is_revision (record { remove = r.remove.items; add = r.add.items }) ≡ true };
}

impl Revision {
    ghost use Rattle.std.specs.Prelude.{◌≡◌, true};
    ghost use Rattle.channel_view_model.specs.Revision.{revision_said, says_nothing};

    /// These, if they aren't too many, and each item is in range.
    pub fn new(remove: Vec<u32>, add: Vec<SaidItem>) -> Option<Revision>
        ensures { result ≡ revision_said (record { remove = remove.items; add = add.items }) }
    {
        if is_revision(&remove, &add) {
            Some(Revision { remove, add })
        } else {
            None
        }
    }

    /// The numbers of the items that are taken out.
    pub fn remove(&self) -> &[u32]
        ensures { result.now ≡ self.now.remove }
    {
        self.remove.as_slice()
    }

    /// The items that are put in.
    pub fn add(&self) -> &[SaidItem]
        ensures items { result.now ≡ self.now.add }
        ensures each { list_all is_said result.now ≡ true }
    {
        self.add.as_slice()
    }

    /// Whether there is neither.
    pub fn says_nothing(&self) -> bool
        ensures { result ≡ says_nothing self.now }
    {
        self.remove.is_empty() && self.add.is_empty()
    }

    /// A law: it has at most so many of each, in range.
    pub fn keeps_the_form(&self)
        ensures { is_revision self.now ≡ true }
    {
        let _first = self.remove.first();
    }
}

/// The refusal of one of a list, with its place there, from 1.
#[derive(Clone, Copy, Debug, PartialEq, Eq)]
pub struct ItemRefusal {
    pub item: usize,
    pub refusal: Refusal,
}

/// How many items a revision put in, and how many it took out.
#[derive(Clone, Copy, Debug, PartialEq, Eq)]
pub struct Revised {
    pub items: usize,
    pub removed: usize,
}

impl Revised {
    ghost use Rattle.channel_view_model.specs.Revision.{counts_said};

    /// Those of this one.
    pub fn by(revision: &Revision) -> Revised
        ensures { result ≡ counts_said revision.now }
    {
        Revised {
            items: revision.add().len(),
            removed: revision.remove().len(),
        }
    }
}
