//! The commands that stand in a JSON body (RFC 8259).
ghost use Rattle.std.specs.Prelude.{◌≡◌, ◌<◌, ok_or};
ghost use Rattle.std.specs.Result.{result_map_both};
ghost use Rattle.http_office_requests.specs.Found.{Finds};
ghost use Rattle.http_office_requests.specs.declared.fault.AskFault.TheVariants.{BadBody};
ghost use Rattle.http_office_requests.specs.Request.{add_tape_of, shelve_of, add_clip_of, offer_of, offer_for};
ghost use Rattle.http_office_requests.specs.Request.{window_at, number_at, number_of, text_at};
ghost use Rattle.http_office_requests.specs.Request.{in_body, json_of, members_in as member_total};
ghost use Rattle.channel_view_model.specs.declared.command.Command.TheVariants.{Vault};
ghost use Rattle.channel_view_model.specs.declared.command.VaultCommand.TheVariants.{Tape, Clip, Offer};
ghost use Rattle.serde_json.specs.View.{view};

use crate::fault::AskFault;
use channel_view_model::{Command, VaultCommand};
use grant_core::OfferCommand;
use serde_json::Value;
use std::alloc::Global;
use vault_core::{ClipCommand, RawText, TapeCommand, Window};

/// A command on tapes.
pub(crate) fn on_tapes(asked: TapeCommand) -> Command
    ensures { result ≡ Vault (Tape asked) }
{
    Command::Vault(VaultCommand::Tape(asked))
}

/// A command on clips.
pub(crate) fn on_clips(asked: ClipCommand) -> Command
    ensures { result ≡ Vault (Clip asked) }
{
    Command::Vault(VaultCommand::Clip(asked))
}

/// A command on offers.
pub(crate) fn on_offers(asked: OfferCommand) -> Command
    ensures { result ≡ Vault (Offer asked) }
{
    Command::Vault(VaultCommand::Offer(asked))
}

/// The value of a JSON text.
pub(crate) fn json_in(alloc: Global, content: &[u8]) -> Result<Value, AskFault>
    ensures { Finds (ok_or (json_of content.now) 400) (result_map_both view (λ fault. fault) result) }
{
    match Value::from_slice(alloc, content) {
        Ok(value) => Ok(value),
        Err(e) if e.is_memory() => Err(AskFault::Unavailable),
        Err(_) => Err(AskFault::BadBody),
    }
}

/// How many members an object has.
pub(crate) fn members_in(body: &Value) -> usize
    ensures { result ≡ member_total (view body.now) }
{
    match body.as_object() {
        Some(members) => members.len(),
        None => 0,
    }
}

/// The command of a tape's barcode and slot.
pub(crate) fn add_tape(alloc: Global, content: &[u8]) -> Result<Command, AskFault>
    ensures { Finds (in_body add_tape_of content.now) result }
{
    let body = json_in(alloc, content)?;
    if members_in(&body) != 2 {
        return Err(AskFault::BadBody);
    }
    let slot = number_in(&body, "slot")?;
    let barcode = text_in(alloc, &body, "barcode")?;
    Ok(on_tapes(TapeCommand::Add { barcode, slot }))
}

/// The command of a tape's slot.
pub(crate) fn shelve(alloc: Global, tape: u32, content: &[u8]) -> Result<Command, AskFault>
    ensures { Finds (in_body (shelve_of tape) content.now) result }
{
    let body = json_in(alloc, content)?;
    if members_in(&body) != 1 {
        return Err(AskFault::BadBody);
    }
    let slot = number_in(&body, "slot")?;
    Ok(on_tapes(TapeCommand::Shelve { tape, slot }))
}

/// The command of a clip.
pub(crate) fn add_clip(alloc: Global, content: &[u8]) -> Result<Command, AskFault>
    ensures { Finds (in_body add_clip_of content.now) result }
{
    let body = json_in(alloc, content)?;
    if members_in(&body) != 5 {
        return Err(AskFault::BadBody);
    }
    let tape = number_in(&body, "tape")?;
    let frames = number_in(&body, "frames")?;
    let title = text_in(alloc, &body, "title")?;
    let umid = text_in(alloc, &body, "umid")?;
    let source_in = text_in(alloc, &body, "in")?;
    Ok(on_clips(ClipCommand::Add {
        tape,
        title,
        umid,
        source_in,
        frames,
    }))
}

/// The command of an offer.
pub(crate) fn make_offer(alloc: Global, content: &[u8]) -> Result<Command, AskFault>
    ensures { Finds (in_body offer_of content.now) result }
{
    let body = json_in(alloc, content)?;
    match members_in(&body) {
        2 => offer_for(alloc, &body, None),
        4 => offer_for(alloc, &body, Some(window_in(&body)?)),
        _ => Err(AskFault::BadBody),
    }
}

// The command of an offer for a window of days or for any.
fn offer_for(alloc: Global, body: &Value, window: Option<Window>) -> Result<Command, AskFault>
    ensures { Finds (ok_or (offer_for window (view body.now)) 400) result }
{
    let to = number_in(body, "to")?;
    let clip = text_in(alloc, body, "clip")?;
    Ok(on_offers(OfferCommand::Make { clip, to, window }))
}

// The window of days of two members.
fn window_in(body: &Value) -> Result<Window, AskFault>
    ensures { result ≡ ok_or (window_at (view body.now)) BadBody }
{
    let first = number_in(body, "first")?;
    let last = number_in(body, "last")?;
    Window::new(first, last).ok_or(AskFault::BadBody)
}

/// A text of a member.
pub(crate) fn text_in(alloc: Global, body: &Value, key: &str) -> Result<RawText, AskFault>
    ensures { Finds (ok_or (text_at key.now (view body.now)) 400) result }
{
    let Some(text) = body.get(key).and_then(Value::as_str) else {
        return Err(AskFault::BadBody);
    };
    match String::from_str(alloc, text) {
        Ok(text) => Ok(RawText::of(text)),
        Err(_) => Err(AskFault::Unavailable),
    }
}

/// A number of a member.
pub(crate) fn number_in(body: &Value, key: &str) -> Result<u32, AskFault>
    ensures { result ≡ ok_or (number_at key.now (view body.now)) BadBody }
{
    match body.get(key).and_then(Value::as_u64) {
        Some(n) if n < 1 << 32 => Ok(n as u32),
        _ => Err(AskFault::BadBody),
    }
}

/// A value that is a number.
pub(crate) fn number_of(value: &Value) -> Result<u32, AskFault>
    ensures { result ≡ ok_or (number_of (view value.now)) BadBody }
{
    match value.as_u64() {
        Some(number) if number < 1 << 32 => Ok(number as u32),
        _ => Err(AskFault::BadBody),
    }
}
