//! Tables of one channel from its rows as they lie in the tables of all channels, row by row.
ghost use Rattle.std.specs.Prelude.{◌≡◌, ◌==◌, false, find, length, Err, OnOk, OnErr};
ghost use Rattle.std.specs.List.{flat_map};
ghost use Rattle.std.specs.Option.{option_map};
ghost use Rattle.std.specs.Io.KnownBytes.{Appends};
ghost use Rattle.vault_core.specs.Rules.{slots_of};
ghost use Rattle.report_texts.specs.Output.{AppendsPart};
ghost use Rattle.report_texts.specs.Vault.{tape_line, vault_text};
ghost use Rattle.report_texts.specs.Clips.{clip_line, clip_text, clips_have_labels};
ghost use Rattle.report_texts.specs.declared.fault.RowFault.TheVariants.{NoLabel};
ghost use Rattle.report_texts.specs.Offers.{offer_line, offer_text};
ghost use Rattle.report_texts.specs.Days.{batches_of, day_line, days_text};
ghost use Rattle.channel_view_model.specs.Tables.{rows_alone};

use asrun_match::DayAsRun;
use channel_plan::PlanRow;
use playlist_core::DayPlan;
use report_texts::{RowFault, WriteFault};
use reports::{
    counts_of, write_clip, write_clips_end, write_day, write_days_end, write_offer,
    write_offers_end, write_tape, write_vault_end,
};
use std::io::Write;
use timecode::Rate;
use vault_core::{Clip, Offer, Tape};

/// The vault table.
pub fn write_vault_of<W: Write>(
    output: &mut W,
    plan: &PlanRow,
    tapes: &[(u16, Tape)],
) -> Result<(), WriteFault>
    ensures ok { OnOk result
        (Appends (W.contents output.old) (W.contents output.new) (vault_text plan.now (rows_alone tapes.now))) }
    ensures err { OnErr result
        (AppendsPart (W.contents output.old) (W.contents output.new) (vault_text plan.now (rows_alone tapes.now))) }
{
    write_tapes(output, tapes)?;
    write_vault_end(output, tapes.len(), shelved(tapes), plan.slots)
}

fn write_tapes<W: Write>(output: &mut W, tapes: &[(u16, Tape)]) -> Result<(), WriteFault>
    ensures ok { OnOk result
        (Appends (W.contents output.old) (W.contents output.new) (flat_map tape_line (rows_alone tapes.now))) }
    ensures err { OnErr result
        (AppendsPart (W.contents output.old) (W.contents output.new) (flat_map tape_line (rows_alone tapes.now))) }
{
    for row in tapes {
        write_tape(output, &row.1)?;
    }
    Ok(())
}

// How many tapes stand in a slot.
fn shelved(tapes: &[(u16, Tape)]) -> usize
    ensures { result ≡ length (slots_of (rows_alone tapes.now)) }
{
    tapes.iter().map(|row| row.1).filter_map(|t| t.slot).count()
}

/// The clip table. It fails where the writer does, and at a clip whose first frame is none of the day.
pub fn write_clips_of<W: Write>(
    output: &mut W,
    rate: Rate,
    clips: &[(u16, Clip)],
) -> Result<(), RowFault>
    ensures ok { OnOk result
        (Appends (W.contents output.old) (W.contents output.new) (clip_text rate (rows_alone clips.now))) }
    ensures err { OnErr result
        (AppendsPart (W.contents output.old) (W.contents output.new) (clip_text rate (rows_alone clips.now))) }
    ensures unlabelled { result ≡ Err NoLabel → clips_have_labels rate (rows_alone clips.now) ≡ false }
{
    write_clip_lines(output, rate, clips)?;
    write_clips_end(output, clips.len())?;
    Ok(())
}

fn write_clip_lines<W: Write>(
    output: &mut W,
    rate: Rate,
    clips: &[(u16, Clip)],
) -> Result<(), RowFault>
    ensures ok { OnOk result
        (Appends (W.contents output.old) (W.contents output.new) (flat_map (clip_line rate) (rows_alone clips.now))) }
    ensures err { OnErr result
        (AppendsPart (W.contents output.old) (W.contents output.new)
        (flat_map (clip_line rate) (rows_alone clips.now))) }
    ensures unlabelled { result ≡ Err NoLabel → clips_have_labels rate (rows_alone clips.now) ≡ false }
{
    for row in clips {
        write_clip(output, rate, &row.1)?;
    }
    Ok(())
}

/// The offer table.
pub fn write_offers_of<W: Write>(output: &mut W, offers: &[(u16, Offer)]) -> Result<(), WriteFault>
    ensures ok { OnOk result
        (Appends (W.contents output.old) (W.contents output.new) (offer_text (rows_alone offers.now))) }
    ensures err { OnErr result
        (AppendsPart (W.contents output.old) (W.contents output.new) (offer_text (rows_alone offers.now))) }
{
    write_offer_lines(output, offers)?;
    write_offers_end(output, offers.len())
}

fn write_offer_lines<W: Write>(output: &mut W, offers: &[(u16, Offer)]) -> Result<(), WriteFault>
    ensures ok { OnOk result
        (Appends (W.contents output.old) (W.contents output.new) (flat_map offer_line (rows_alone offers.now))) }
    ensures err { OnErr result
        (AppendsPart (W.contents output.old) (W.contents output.new) (flat_map offer_line (rows_alone offers.now))) }
{
    for row in offers {
        write_offer(output, &row.1)?;
    }
    Ok(())
}

/// The days table.
pub fn write_days_of<W: Write>(
    output: &mut W,
    days: &[(u16, DayPlan)],
    aired: &[(u16, DayAsRun)],
) -> Result<(), WriteFault>
    ensures ok { OnOk result (Appends (W.contents output.old) (W.contents output.new)
        (days_text (rows_alone aired.now) (rows_alone days.now))) }
    ensures err { OnErr result (AppendsPart (W.contents output.old) (W.contents output.new)
        (days_text (rows_alone aired.now) (rows_alone days.now))) }
{
    write_day_lines(output, days, aired)?;
    write_days_end(output, days.len())
}

fn write_day_lines<W: Write>(
    output: &mut W,
    days: &[(u16, DayPlan)],
    aired: &[(u16, DayAsRun)],
) -> Result<(), WriteFault>
    ensures ok { OnOk result (Appends (W.contents output.old) (W.contents output.new)
        (flat_map (day_line (rows_alone aired.now)) (rows_alone days.now))) }
    ensures err { OnErr result (AppendsPart (W.contents output.old) (W.contents output.new)
        (flat_map (day_line (rows_alone aired.now)) (rows_alone days.now))) }
{
    for row in days {
        write_day(output, counts_of(&row.1, batches_of(aired, row.1.number())))?;
    }
    Ok(())
}

// What was aired of the day with this number, if something was.
fn airing_of(aired: &[(u16, DayAsRun)], day: u32) -> Option<&(u16, DayAsRun)>
    ensures { option_map (λ a. a.now) result ≡ find (λ a. a.1.day == day) aired.now }
{
    aired.iter().find(|a| a.1.day == day)
}

// How many batches came for the day with this number.
fn batches_of(aired: &[(u16, DayAsRun)], day: u32) -> usize
    ensures { result ≡ batches_of (rows_alone aired.now) day }
{
    match airing_of(aired, day) {
        Some(airing) => airing.1.aired.batches().len(),
        None => 0,
    }
}
