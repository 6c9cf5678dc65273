//! Whose turn it is: places of connections, first come, first served, each once at a time.
use std::alloc::{AllocError, Global};
use std::collections::VecDeque;

/// How many turns are taken before it is looked for what has come meanwhile.
const MOST_TURNS: u32 = 8;

/// How many milliseconds pass before each place has a turn, so that it is seen which peer is late. So one is waited for
/// up to a second longer.
const ROUND: u64 = 1_000;

/// The places that wait for a turn, in order.
#[derive(Drop)]
pub(crate) struct Rota {
    queue: VecDeque<usize>,
    is_queued: Vec<bool>,
    /// How many turns may be taken before the next look round.
    left: u32,
    /// When each place was given a turn.
    all_at: u64,
}

impl Rota {
    /// Of so many places, none of which waits.
    pub(crate) fn new(alloc: Global, places: usize) -> Result<Rota, AllocError> {
        Ok(Rota {
            queue: VecDeque::with_capacity(alloc, places)?,
            is_queued: vec![in alloc; false; places]?,
            left: MOST_TURNS,
            all_at: 0,
        })
    }

    pub(crate) fn is_empty(&self) -> bool {
        self.queue.is_empty()
    }

    /// Puts a place behind the others, unless it waits. There is room for each.
    pub(crate) fn add(&mut self, place: usize) {
        if let Some(is_queued) = self.is_queued.get_mut(place) {
            if !*is_queued {
                *is_queued = self.queue.push_back(place).is_ok();
            }
        }
    }

    /// It was looked round at this time: turns may be taken again, and each second every place has one.
    pub(crate) fn look(&mut self, now: u64) {
        self.left = MOST_TURNS;
        if now.saturating_sub(self.all_at) >= ROUND {
            self.all_at = now;
            for place in 0..self.is_queued.len() {
                self.add(place);
            }
        }
    }

    /// The place whose turn it is, unless it is time to look round.
    pub(crate) fn next(&mut self) -> Option<usize> {
        self.left = self.left.checked_sub(1)?;
        let place = self.queue.pop_front()?;
        if let Some(is_queued) = self.is_queued.get_mut(place) {
            *is_queued = false;
        }
        Some(place)
    }
}
