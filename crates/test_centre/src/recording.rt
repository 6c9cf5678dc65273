//! A store that counts for whom it is called, and answers no load.
ghost use Rattle.std.specs.Prelude.{◌≡◌};

use channel_view_model::{Change, Need, Part, RowStore, Table, TableFault, View};
use std::io::Write;
use timecode::Unavailable;

/// It hands every call on to the store below, but answers each load with `Unavailable`, and counts the calls for one
/// channel and those for others.
#[derive(Drop)]
pub struct Recording<S> {
    store: S,
    channel: u16,
    own: u32,
    others: u32,
}

impl<S> Recording<S> {
    /// It watches this channel from now on.
    pub fn over(store: S, channel: u16) -> Recording<S>
        ensures { result.store ≡ store }
    {
        Recording {
            store,
            channel,
            own: 0,
            others: 0,
        }
    }

    /// The store below.
    pub fn into_store(self) -> S
        ensures { result ≡ self.store }
    {
        let Recording { store, .. } = self;
        store
    }

    /// How many calls it had for the channel, and how many for others.
    pub fn calls(&self) -> (u32, u32)
        ensures { result ≡ (self.now.own, self.now.others) }
    {
        (self.own, self.others)
    }

    fn count(&mut self, channel: u16)
        ensures { self.new.store ≡ self.old.store }
    {
        if channel == self.channel {
            self.own = self.own.saturating_add(1);
        } else {
            self.others = self.others.saturating_add(1);
        }
    }
}

impl<S: RowStore> RowStore for Recording<S> {
    ghost stands_for = { λ w. S.stands_for w.store };

    ghost is_clean = { λ w. S.is_clean w.store };

    ghost may_leave = { λ w. S.may_leave w.store };

    ghost leaves_sets = { λ w. S.leaves_sets w.store };

    fn load(&mut self, channel: u16) -> Result<Option<View>, Unavailable> {
        self.count(channel);
        Err(Unavailable)
    }

    fn fetch(&mut self, channel: u16, need: &Need) -> Result<Option<Part>, Unavailable> {
        self.count(channel);
        self.store.fetch(channel, need)
    }

    fn write_table<W: Write>(
        &mut self,
        channel: u16,
        table: Table,
        output: &mut W,
    ) -> Result<bool, TableFault> {
        self.count(channel);
        self.store.write_table(channel, table, output)
    }

    fn commit(&mut self, channel: u16, change: &Change) -> Result<(), Unavailable> {
        self.count(channel);
        self.store.commit(channel, change)
    }
}
