//! The bytes of an answer.
ghost use Rattle.std.specs.Prelude.{◌≡◌, false, IfOk, [], Some, None, codes, string_bytes, unwrap_or};
ghost use Rattle.http_office_answers.specs.Answer.{head_text, with_body, json_answer as json_bytes, refusal_data};
ghost use Rattle.http_office_answers.specs.Answer.{refusal_answer as refusal_bytes, number_data, text_data};
ghost use Rattle.http_office_answers.specs.Answer.{batch_data, counts_data, plan_row_data, reply_answer as reply_bytes};
ghost use Rattle.http_office_answers.specs.Answer.{item_refusal_answer as item_refusal_bytes, item_refusal_data, revised_data};
ghost use Rattle.playlist_core.specs.Day.{label_at};
ghost use Rattle.timecode.specs.Label.{label_text};
ghost use Rattle.vault_core.specs.Reel.{clip_reel};
ghost use Rattle.http_office_answers.specs.Answer.{status_answer as own_bytes, status_name};
ghost use Rattle.http_office_answers.specs.Answer.{answer_bytes};
ghost use Rattle.http.specs.StatusCode.{reason_phrase};
ghost use Rattle.serde_json.specs.View.{view};
ghost use Rattle.serde_json.specs.Written.{has_float};

use channel_plan::{PlanRow, Refusal};
use channel_view_model::{ItemRefusal, Reply, Revised};
use http::StatusCode;
use playlist_core::label_at;
use playlist_edl::Imported;
use serde_json::{Value, json};
use std::alloc::{AllocError, Global};
use vault_core::ClipReel;

/// What is written for a message.
#[derive(Drop)]
pub enum Answer {
    Given(Vec<u8>),
    /// Memory, or the store, failed, and nothing was done. The answer is a constant and takes no memory.
    Unavailable,
}

const UNAVAILABLE: &str =
    "HTTP/1.1 503 Service Unavailable\r\nContent-Length: 36\r\nContent-Type: application/json\r\n\r\n\
    {\"code\":100,\"refused\":\"Unavailable\"}";

impl Answer {
    /// The bytes of the answer.
    pub fn bytes(&self) -> &[u8]
        ensures { result.now ≡ answer_bytes self.now }
    {
        match self {
            Answer::Given(bytes) => bytes.as_slice(),
            Answer::Unavailable => UNAVAILABLE.as_bytes(),
        }
    }
}

// The text of an answer in front of a body of this type and length.
fn head_text(
    alloc: Global,
    code: u16,
    phrase: &str,
    content_type: &str,
    len: usize,
) -> Result<String, AllocError>
    ensures { IfOk result (λ s. string_bytes s ≡ head_text code phrase.now content_type.now len) }
{
    format!(in alloc;
        "HTTP/1.1 {code} {phrase}\r\nContent-Length: {len}\r\nContent-Type: {content_type}\r\n\r\n"
    )
}

// The reason phrase of a status.
fn phrase_of(status: StatusCode) -> &'static str
    ensures { result.now ≡ unwrap_or (reason_phrase status) [] }
{
    match status.canonical_reason() {
        Some(phrase) => phrase,
        None => "",
    }
}

// The bytes of an answer with a body of this type.
fn with_body(
    alloc: Global,
    status: StatusCode,
    content_type: &str,
    body: &[u8],
) -> Result<Vec<u8>, AllocError>
    ensures { IfOk result (λ bytes. bytes.items ≡ with_body status content_type.now body.now) }
{
    let head = head_text(
        alloc,
        status.as_u16(),
        phrase_of(status),
        content_type,
        body.len(),
    )?;
    let mut bytes = head.into_bytes();
    bytes.extend_from_slice(body)?;
    Ok(bytes)
}

// The bytes of an answer with a JSON body.
fn json_answer(alloc: Global, status: StatusCode, body: &Value) -> Result<Vec<u8>, AllocError>
    requires { has_float (view body.now) ≡ false }
    ensures { IfOk result (λ bytes. bytes.items ≡ json_bytes status (view body.now)) }
{
    let text = body.to_string(alloc)?;
    with_body(alloc, status, "application/json", text.as_bytes())
}

// The answer of a refusal without a detail.
fn plain_refusal(
    alloc: Global,
    status: StatusCode,
    code: u16,
    name: &str,
) -> Result<Vec<u8>, AllocError>
    ensures { IfOk result (λ bytes. bytes.items ≡ json_bytes status (refusal_data None code name.now)) }
{
    let body = json!(in alloc; {"code": code, "refused": name})?;
    json_answer(alloc, status, &body)
}

// The body of a refusal with a detail.
fn detailed_body(alloc: Global, at: &str, code: u16, name: &str) -> Result<Value, AllocError>
    ensures { IfOk result (λ body. view body ≡ refusal_data (Some at.now) code name.now) }
{
    json!(in alloc; {"at": at, "code": code, "refused": name})
}

// The answer of a refusal with a detail.
fn detailed_refusal(
    alloc: Global,
    status: StatusCode,
    at: &str,
    code: u16,
    name: &str,
) -> Result<Vec<u8>, AllocError>
    ensures { IfOk result (λ bytes. bytes.items ≡ json_bytes status (refusal_data (Some at.now) code name.now)) }
{
    let body = detailed_body(alloc, at, code, name)?;
    json_answer(alloc, status, &body)
}

// The name of a message's own refusal.
fn own_name(status: StatusCode) -> &'static str
    ensures { result.now ≡ status_name status }
{
    match status.as_u16() {
        400 => "BadMessage",
        404 => "NotFound",
        413 => "TooLarge",
        _ => "NotImplemented",
    }
}

/// The answer to a message that asks nothing of a channel: its status is 400, 404, 413 or 501.
pub fn status_answer(alloc: Global, status: StatusCode) -> Result<Vec<u8>, AllocError>
    ensures { IfOk result (λ bytes. bytes.items ≡ own_bytes status) }
{
    plain_refusal(alloc, status, status.as_u16(), own_name(status))
}

// The answer of a refused command.
fn refusal_answer(alloc: Global, refusal: &Refusal) -> Result<Vec<u8>, AllocError>
    ensures { IfOk result (λ bytes. bytes.items ≡ refusal_bytes refusal.now) }
{
    let code = refusal.code;
    match refusal.at.text(alloc)? {
        None => plain_refusal(alloc, StatusCode::CONFLICT, code.number(), code.name()),
        Some(at) => detailed_refusal(
            alloc,
            StatusCode::CONFLICT,
            at.as_str(),
            code.number(),
            code.name(),
        ),
    }
}

// The body of a refusal of one of a list, without a detail.
fn item_body(alloc: Global, item: usize, code: u16, name: &str) -> Result<Value, AllocError>
    ensures { IfOk result (λ body. view body ≡ item_refusal_data None code item name.now) }
{
    json!(in alloc; {"code": code, "item": item, "refused": name})
}

// The same with a detail.
fn detailed_item_body(
    alloc: Global,
    item: usize,
    at: &str,
    code: u16,
    name: &str,
) -> Result<Value, AllocError>
    ensures { IfOk result (λ body. view body ≡ item_refusal_data (Some at.now) code item name.now) }
{
    json!(in alloc; {"at": at, "code": code, "item": item, "refused": name})
}

// The answer of a command of which one of a list is refused.
fn item_refusal_answer(alloc: Global, refused: &ItemRefusal) -> Result<Vec<u8>, AllocError>
    ensures { IfOk result (λ bytes. bytes.items ≡ item_refusal_bytes refused.now) }
{
    let item = refused.item;
    let code = refused.refusal.code;
    let body = match refused.refusal.at.text(alloc)? {
        None => item_body(alloc, item, code.number(), code.name())?,
        Some(at) => detailed_item_body(alloc, item, at.as_str(), code.number(), code.name())?,
    };
    json_answer(alloc, StatusCode::CONFLICT, &body)
}

// The answer with a tape's number.
fn tape_answer(alloc: Global, number: u16) -> Result<Vec<u8>, AllocError>
    ensures { IfOk result (λ bytes. bytes.items ≡ json_bytes 200 (number_data (codes "tape") number)) }
{
    let body = json!(in alloc; {"tape": number})?;
    json_answer(alloc, StatusCode::OK, &body)
}

// The answer with an offer's number.
fn offer_answer(alloc: Global, number: u16) -> Result<Vec<u8>, AllocError>
    ensures { IfOk result (λ bytes. bytes.items ≡ json_bytes 200 (number_data (codes "offer") number)) }
{
    let body = json!(in alloc; {"offer": number})?;
    json_answer(alloc, StatusCode::OK, &body)
}

// The answer with a day's number.
fn day_answer(alloc: Global, number: u32) -> Result<Vec<u8>, AllocError>
    ensures { IfOk result (λ bytes. bytes.items ≡ json_bytes 200 (number_data (codes "day") number)) }
{
    let body = json!(in alloc; {"day": number})?;
    json_answer(alloc, StatusCode::OK, &body)
}

// The answer with an item's number.
fn item_answer(alloc: Global, number: u16) -> Result<Vec<u8>, AllocError>
    ensures { IfOk result (λ bytes. bytes.items ≡ json_bytes 200 (number_data (codes "item") number)) }
{
    let body = json!(in alloc; {"item": number})?;
    json_answer(alloc, StatusCode::OK, &body)
}

// The answer with how many events of a list became items, and how many were skipped.
fn items_answer(alloc: Global, counts: &Imported) -> Result<Vec<u8>, AllocError>
    ensures { IfOk result (λ bytes. bytes.items ≡ json_bytes 200 (counts_data counts.now)) }
{
    let items = counts.items;
    let skipped = counts.skipped;
    let body = json!(in alloc; {"items": items, "skipped": skipped})?;
    json_answer(alloc, StatusCode::OK, &body)
}

// The answer with how many items a revision put in and took out.
fn revised_answer(alloc: Global, counts: &Revised) -> Result<Vec<u8>, AllocError>
    ensures { IfOk result (λ bytes. bytes.items ≡ json_bytes 200 (revised_data counts.now)) }
{
    let items = counts.items;
    let removed = counts.removed;
    let body = json!(in alloc; {"items": items, "removed": removed})?;
    json_answer(alloc, StatusCode::OK, &body)
}

// The answer with a batch's number and its frames.
fn batch_answer(alloc: Global, number: u32, frames: u32) -> Result<Vec<u8>, AllocError>
    ensures { IfOk result (λ bytes. bytes.items ≡ json_bytes 200 (batch_data number frames)) }
{
    let body = json!(in alloc; {"batch": number, "frames": frames})?;
    json_answer(alloc, StatusCode::OK, &body)
}

// The body of a channel's row of the plan, which starts at this label.
fn plan_row_body(alloc: Global, row: &PlanRow, start: &str) -> Result<Value, AllocError>
    ensures { IfOk result (λ body. start.now ≡ label_text (label_at row.now 0) → view body ≡ plan_row_data row.now) }
{
    let channel = row.ch;
    let rate = row.rate.text();
    let slots = row.slots;
    json!(in alloc; {"ch": channel, "rate": rate, "slots": slots, "start": start})
}

// The answer with a channel's row of the plan.
fn plan_row_answer(alloc: Global, row: &PlanRow) -> Result<Vec<u8>, AllocError>
    ensures { IfOk result (λ bytes. bytes.items ≡ json_bytes 200 (plan_row_data row.now)) }
{
    let start = label_at(row, 0).to_string(alloc)?;
    let body = plan_row_body(alloc, row, start.as_str())?;
    json_answer(alloc, StatusCode::OK, &body)
}

// The answer with a clip's reel.
fn clip_answer(alloc: Global, number: u32) -> Result<Vec<u8>, AllocError>
    ensures { IfOk result (λ bytes. bytes.items ≡ json_bytes 200 (text_data (codes "clip") (clip_reel number))) }
{
    let reel = ClipReel { number }.to_string(alloc)?;
    let body = json!(in alloc; {"clip": reel.as_str()})?;
    json_answer(alloc, StatusCode::OK, &body)
}

/// The answer to a command.
pub fn reply_answer(alloc: Global, reply: &Reply) -> Result<Vec<u8>, AllocError>
    ensures { IfOk result (λ bytes. bytes.items ≡ reply_bytes reply.now) }
{
    match reply {
        Reply::Tape(number) => tape_answer(alloc, *number),
        Reply::Offer(number) => offer_answer(alloc, *number),
        Reply::Clip(number) => clip_answer(alloc, *number),
        Reply::Day(number) => day_answer(alloc, *number),
        Reply::Item(number) => item_answer(alloc, *number),
        Reply::Items(counts) => items_answer(alloc, counts),
        Reply::Revised(counts) => revised_answer(alloc, counts),
        Reply::Batch { number, frames } => batch_answer(alloc, *number, *frames),
        Reply::PlanRow(row) => plan_row_answer(alloc, row),
        Reply::Table(text) => with_body(alloc, StatusCode::OK, "text/plain", text.as_bytes()),
        Reply::Refused(refusal) => refusal_answer(alloc, refusal),
        Reply::ItemRefused(refused) => item_refusal_answer(alloc, refused),
    }
}
