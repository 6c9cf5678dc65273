//! The revision of a broadcast day that stands in a JSON body.
ghost use Rattle.std.specs.Prelude.{◌≡◌, ok_or, option_and_then};
ghost use Rattle.std.specs.Result.{result_map_both};
ghost use Rattle.http_office_requests.specs.Found.{Finds};
ghost use Rattle.http_office_requests.specs.declared.fault.AskFault.TheVariants.{BadBody};
ghost use Rattle.http_office_requests.specs.Request.{in_body, list_of, number_of, revise_of, said_of, said_with};
ghost use Rattle.serde_json.specs.Find.{as_array, get};
ghost use Rattle.serde_json.specs.View.{items_view, view};

use crate::body::{json_in, members_in, number_in, number_of, text_in};
use crate::fault::AskFault;
use channel_view_model::{Command, DayCommand, DayNumber, Revision, SaidItem};
use serde_json::Value;
use std::alloc::Global;

/// The command of a revision.
pub(crate) fn revise(alloc: Global, day: DayNumber, content: &[u8]) -> Result<Command, AskFault>
    ensures { Finds (in_body (revise_of day) content.now) result }
{
    let body = json_in(alloc, content)?;
    if members_in(&body) != 2 {
        return Err(AskFault::BadBody);
    }
    let remove = numbers_in(alloc, list_in(&body, "remove")?)?;
    let add = items_in(alloc, list_in(&body, "add")?)?;
    let revision = Revision::new(remove, add).ok_or(AskFault::BadBody)?;
    Ok(Command::Day(day, DayCommand::Revise { revision }))
}

// The values of a member that is a list.
fn list_in<'a>(body: &'a Value, key: &str) -> Result<&'a [Value], AskFault>
    ensures { result_map_both (λ values. items_view values.now) (λ fault. fault) result
        ≡ ok_or (option_and_then as_array (get key.now (view body.now))) BadBody }
{
    match body.get(key) {
        Some(value) => values_of(value),
        None => Err(AskFault::BadBody),
    }
}

// The values of a list.
fn values_of(value: &Value) -> Result<&[Value], AskFault>
    ensures { result_map_both (λ values. items_view values.now) (λ fault. fault) result
        ≡ ok_or (as_array (view value.now)) BadBody }
{
    match value.as_array() {
        Some(values) => Ok(values.as_slice()),
        None => Err(AskFault::BadBody),
    }
}

// The numbers that the values are, if each is one.
fn numbers_in(alloc: Global, values: &[Value]) -> Result<Vec<u32>, AskFault>
    ensures { Finds (ok_or (list_of number_of (items_view values.now)) 400)
        (result_map_both (λ numbers. numbers.items) (λ fault. fault) result) }
{
    let mut numbers = Vec::new(alloc);
    for value in values {
        let number = number_of(value)?;
        numbers.push(number)?;
    }
    Ok(numbers)
}

// The items that the values say, if each says one.
fn items_in(alloc: Global, values: &[Value]) -> Result<Vec<SaidItem>, AskFault>
    ensures { Finds (ok_or (list_of said_of (items_view values.now)) 400)
        (result_map_both (λ items. items.items) (λ fault. fault) result) }
{
    let mut items = Vec::new(alloc);
    for value in values {
        let said = said_in(alloc, value)?;
        items.push(said)?;
    }
    Ok(items)
}

// The item that a value says.
fn said_in(alloc: Global, value: &Value) -> Result<SaidItem, AskFault>
    ensures { Finds (ok_or (said_of (view value.now)) 400) result }
{
    match members_in(value) {
        5 => said_with(alloc, value, None),
        6 => said_with(alloc, value, Some(number_in(value, "wipe")?)),
        _ => Err(AskFault::BadBody),
    }
}

// The item that a value says beside its wipe.
fn said_with(alloc: Global, value: &Value, wipe: Option<u32>) -> Result<SaidItem, AskFault>
    ensures { Finds (ok_or (said_with wipe (view value.now)) 400) result }
{
    let frames = number_in(value, "frames")?;
    let mix = number_in(value, "mix")?;
    let at = text_in(alloc, value, "at")?;
    let source_in = text_in(alloc, value, "in")?;
    let source = text_in(alloc, value, "source")?;
    Ok(SaidItem {
        at,
        frames,
        source_in,
        mix,
        wipe,
        source,
    })
}
