//! A day's lists, as its methods.
ghost use Rattle.std.specs.Prelude.{◌≡◌, ◌<◌, ◌^◌, ◌⊎◌, Ok, Err, true, length, string_bytes, IfOk, IfErr};
ghost use Rattle.std.specs.List.{list_all};
ghost use Rattle.timecode.specs.Counting.{day_length};
ghost use Rattle.channel_plan.specs.Refusal.{refused, IsRefusalOf};
ghost use Rattle.playlist_edl.specs.Exporting.{can_be_listed, exported};
ghost use Rattle.playlist_edl.specs.Importing.{counts_of, events_in, import_of};
ghost use Rattle.playlist_core.specs.declared.day.DayState.TheVariants as DayState;

use crate::exporting::exported_list;
use crate::importing::{Imported, imported_list};
use channel_plan::{Code, PlanRow, Refusal};
use playlist_core::{DayPlan, Sources};
use std::alloc::Global;

/// A broadcast day that takes an edit list's events, and is written as one.
pub trait DayLists {
    ghost use Rattle.playlist_core.specs.Day.{Day};

    ghost day: { Self → Day };

    /// Adds the events of a list to the day, one after another, and counts them; sound and pictures without a frame are
    /// skipped. A refusal leaves the day as it was. It is the first in this order: `NoDay`, `DaySealed`, the list's own
    /// first fault; and of the first event that is refused `KeyEvent`, `SpeedEvent`, or that of [`DayPlan::item_in`],
    /// each with the event's line but for `Overlap`. Or, of a day that is there and open, it is
    /// [`Code::Unavailable`] for want of memory.
    fn import_list<S: Sources>(
        &mut self,
        alloc: Global,
        plan: &PlanRow,
        sources: &S,
        text: &[u8],
        ignore_timecode_mismatch: bool,
    ) -> Result<Imported, Refusal>
        requires bytes { length text.now < 2 ^ 32 }
        requires start { plan.now.start < day_length plan.now.rate }
        ensures imported { IfOk result (λ counts. (counts ≡ counts_of (events_in plan.now.rate text.now))
            × (import_of (day self.old) plan.now (S.seen sources.now) ignore_timecode_mismatch text.now
            ≡ Ok (day self.new))) }
        ensures refused { IfErr result (λ e. (self.new ≡ self.old)
            × (((e ≡ refused Code.Unavailable) × ((day self.old).state ≡ DayState.Open))
            ⊎ (import_of (day self.old) plan.now (S.seen sources.now) ignore_timecode_mismatch text.now ≡ Err e))) };

    /// The list of the day, with its items by position, or the first refusal in this order: `NoDay`, `WholeDay` where
    /// an item is as long as the day, which no list can say; or, where neither holds, [`Code::Unavailable`] for want of
    /// memory. A dissolve or a wipe has a zero cut before it, from the end of the source of the item that ends where it
    /// begins, or from black.
    fn export_list<S: Sources>(
        &self,
        alloc: Global,
        plan: &PlanRow,
        sources: &S,
    ) -> Result<String, Refusal>
        requires own { (day self.now).frames ≡ day_length plan.now.rate }
        requires listed { list_all (can_be_listed plan.now (S.seen sources.now)) (day self.now).items ≡ true }
        ensures text { IfOk result
            (λ text. exported (day self.now) plan.now (S.seen sources.now) ≡ Ok (string_bytes text)) }
        ensures refused { IfErr result (IsRefusalOf (exported (day self.now) plan.now (S.seen sources.now))) };
}

impl DayLists for DayPlan {
    ghost day = { λ day. day };

    fn import_list<S: Sources>(
        &mut self,
        alloc: Global,
        plan: &PlanRow,
        sources: &S,
        text: &[u8],
        ignore_timecode_mismatch: bool,
    ) -> Result<Imported, Refusal> {
        imported_list(alloc, self, plan, sources, text, ignore_timecode_mismatch)
    }

    fn export_list<S: Sources>(
        &self,
        alloc: Global,
        plan: &PlanRow,
        sources: &S,
    ) -> Result<String, Refusal> {
        exported_list(alloc, self, plan, sources)
    }
}
