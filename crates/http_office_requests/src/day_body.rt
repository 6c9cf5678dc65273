//! The commands on a broadcast day that stand in a body.
ghost use Rattle.std.specs.Prelude.{◌≡◌, IfOk, Ok, codes, ok_or, option_and_then};
ghost use Rattle.channel_view_model.specs.Days.{mix_frames};
ghost use Rattle.channel_view_model.specs.declared.command.AiringCommand.TheVariants.{TakeBatch};
ghost use Rattle.channel_view_model.specs.declared.command.Command.TheVariants.{Airing, Day};
ghost use Rattle.channel_view_model.specs.declared.day_command.DayCommand.TheVariants.{Import};
ghost use Rattle.http_office_requests.specs.Found.{Finds};
ghost use Rattle.http_office_requests.specs.declared.fault.AskFault.TheVariants.{BadBody};
ghost use Rattle.http_office_requests.specs.Request.{add_item_of, in_body, number_at, open_day_of};
ghost use Rattle.serde_json.specs.View.{view};

use crate::body::{json_in, members_in, number_in, text_in};
use crate::fault::AskFault;
use channel_view_model::{AiringCommand, Command, DayCommand, DayNumber, Mix, Upload};
use serde_json::Value;
use std::alloc::Global;
use timecode::Unavailable;

/// The command of a day's number.
pub(crate) fn open_day(alloc: Global, content: &[u8]) -> Result<Command, AskFault>
    ensures { Finds (in_body open_day_of content.now) result }
{
    let body = json_in(alloc, content)?;
    if members_in(&body) != 1 {
        return Err(AskFault::BadBody);
    }
    let number = number_in(&body, "day")?;
    let day = DayNumber::new(number).ok_or(AskFault::BadBody)?;
    Ok(Command::Day(day, DayCommand::Open))
}

/// The command of an item.
pub(crate) fn add_item(alloc: Global, day: DayNumber, content: &[u8]) -> Result<Command, AskFault>
    ensures { Finds (in_body (add_item_of day) content.now) result }
{
    let body = json_in(alloc, content)?;
    if members_in(&body) != 5 {
        return Err(AskFault::BadBody);
    }
    let frames = number_in(&body, "frames")?;
    let mix = mix_in(&body)?;
    let at = text_in(alloc, &body, "at")?;
    let source_in = text_in(alloc, &body, "in")?;
    let source = text_in(alloc, &body, "source")?;
    Ok(Command::Day(
        day,
        DayCommand::AddItem {
            at,
            frames,
            source_in,
            mix,
            source,
        },
    ))
}

// The frames of a mix in a body.
fn mix_in(body: &Value) -> Result<Mix, AskFault>
    ensures { result ≡ ok_or (option_and_then mix_frames (number_at (codes "mix") (view body.now))) BadBody }
{
    let frames = number_in(body, "mix")?;
    Mix::new(frames).ok_or(AskFault::BadBody)
}

// The bytes of a body, as a command holds them.
fn handed(alloc: Global, content: &[u8]) -> Result<Upload, Unavailable>
    ensures { IfOk result (λ bytes. bytes ≡ content.now) }
{
    match Upload::new(Vec::from_slice(alloc, content)?) {
        Some(bytes) => Ok(bytes),
        // No message has so many bytes.
        None => Err(Unavailable),
    }
}

/// The command of an edit list.
pub(crate) fn import(
    alloc: Global,
    day: DayNumber,
    content: &[u8],
    ignore_timecode_mismatch: bool,
) -> Result<Command, AskFault>
    ensures { Finds (Ok (Day day (Import content.now ignore_timecode_mismatch))) result }
{
    let list = handed(alloc, content)?;
    Ok(Command::Day(
        day,
        DayCommand::Import {
            list,
            ignore_timecode_mismatch,
        },
    ))
}

/// The command of a batch of as-run rows.
pub(crate) fn take_batch(
    alloc: Global,
    day: DayNumber,
    number: u32,
    content: &[u8],
) -> Result<Command, AskFault>
    ensures { Finds (Ok (Airing day (TakeBatch number content.now))) result }
{
    let rows = handed(alloc, content)?;
    Ok(Command::Airing(day, AiringCommand::TakeBatch { number, rows }))
}
