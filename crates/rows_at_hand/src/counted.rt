//! The store that has days tables at hand.
ghost use Rattle.std.specs.Prelude.{◌≡◌, ◌≤◌, []};
ghost use Rattle.rows_at_hand.specs.Counted.{AreCounted, days_counted, most_counted};

use crate::counts::{ChannelCounts, counts_at, follow, learn, write_counts};
use channel_view_model::{Change, CountsDays, Need, Part, RowStore, Table, TableFault, View};
use std::alloc::Global;
use std::io::Write;
use timecode::Unavailable;

/// A store over another one, which has at hand what the days tables that were asked for tell. Each change goes to the
/// store below first. Where that fails, nothing is at hand any more.
#[derive(Drop)]
pub struct CountedDays<S> {
    alloc: Global,
    store: S,
    channels: Vec<ChannelCounts>,
    ghost few: { days_counted channels.items ≤ most_counted },
}

impl<S> CountedDays<S> {
    /// Over this store. No days table of it is known yet.
    pub fn over(alloc: Global, store: S) -> CountedDays<S>
        ensures store { result.store ≡ store }
        ensures none { result.channels.items ≡ [] }
    {
        CountedDays {
            alloc,
            store,
            channels: Vec::new(alloc),
        }
    }

    /// The store below.
    pub fn into_store(self) -> S
        ensures { result ≡ self.store }
    {
        let CountedDays {
            alloc: _,
            store,
            channels: _channels,
        } = self;
        store
    }
}

// Lets go what is at hand, as the store below failed with this fault.
fn let_go<F>(channels: &mut Vec<ChannelCounts>, fault: F) -> F
    ensures fault { result ≡ fault }
    ensures none { channels.new.items ≡ [] }
{
    channels.clear();
    fault
}

impl<S: CountsDays> RowStore for CountedDays<S> {
    // What is told of days is so of the rows of the store below.
    ghost stands_for = { λ d rows. S.stands_for d.store rows × AreCounted rows d.channels.items };

    ghost is_clean = { λ d. S.is_clean d.store };

    ghost may_leave = { λ d. S.may_leave d.store };

    ghost leaves_sets = { λ d. S.leaves_sets d.store };

    fn load(&mut self, channel: u16) -> Result<Option<View>, Unavailable> {
        match self.store.load(channel) {
            Ok(view) => Ok(view),
            Err(fault) => Err(let_go(&mut self.channels, fault)),
        }
    }

    fn fetch(&mut self, channel: u16, need: &Need<'_>) -> Result<Option<Part>, Unavailable> {
        match self.store.fetch(channel, need) {
            Ok(part) => Ok(part),
            Err(fault) => Err(let_go(&mut self.channels, fault)),
        }
    }

    fn write_table<W: Write>(
        &mut self,
        channel: u16,
        table: Table,
        output: &mut W,
    ) -> Result<bool, TableFault> {
        let Table::Days = table else {
            return self.store.write_table(channel, table, output);
        };
        if let Some(known) = counts_at(&self.channels, channel) {
            write_counts(output, &known.counts)?;
            return Ok(true);
        }
        let counts = match self.store.day_counts(channel) {
            Ok(Some(counts)) => counts,
            Ok(None) => return Ok(false),
            Err(fault) => return Err(TableFault::from(let_go(&mut self.channels, fault))),
        };
        let written = write_counts(output, &counts);
        learn(&mut self.channels, ChannelCounts { channel, counts });
        written?;
        Ok(true)
    }

    fn commit(&mut self, channel: u16, change: &Change) -> Result<(), Unavailable> {
        match self.store.commit(channel, change) {
            Ok(()) => {
                follow(self.alloc, &mut self.channels, channel, change);
                Ok(())
            }
            Err(fault) => Err(let_go(&mut self.channels, fault)),
        }
    }
}
