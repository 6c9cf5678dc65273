//! The offer table.
ghost use Rattle.std.specs.Prelude.{◌≡◌, OnOk, OnErr};
ghost use Rattle.std.specs.List.{flat_map};
ghost use Rattle.std.specs.Io.KnownBytes.{Appends};
ghost use Rattle.report_texts.specs.Output.{AppendsPart};
ghost use Rattle.report_texts.specs.Offers.{offer_state, offer_line, offers_end, offer_text};

use crate::columns::push_digits;
use crate::fields::{push_clip_reel, push_window};
use report_texts::{LineBuffer, WriteFault, push, push_decimal, send};
use std::io::Write;
use vault_core::Offer;

/// Whether an offer is open or withdrawn.
pub(crate) fn state_of(withdrawn: bool) -> &'static [u8]
    ensures { result.now ≡ offer_state withdrawn }
{
    if withdrawn { b"withdrawn" } else { b"open" }
}

#[tactic(auto, using(crate::proofs::LengthLemmas::state_short))]
fn offer_line(offer: &Offer) -> LineBuffer
    ensures { result.items ≡ offer_line offer.now }
{
    let mut line = LineBuffer::new();
    push_digits(&mut line, 4, u32::from(offer.n));
    push(&mut line, b" ");
    push_clip_reel(&mut line, offer.clip);
    push(&mut line, b" ");
    push_digits(&mut line, 3, u32::from(offer.grantee));
    push(&mut line, b" ");
    push(&mut line, state_of(offer.withdrawn));
    push_window(&mut line, offer.window);
    push(&mut line, b"\n");
    line
}

/// Writes the line of one offer.
pub fn write_offer<W: Write>(output: &mut W, offer: &Offer) -> Result<(), WriteFault>
    ensures ok { OnOk result (Appends (W.contents output.old) (W.contents output.new) (offer_line offer.now)) }
    ensures err { OnErr result (AppendsPart (W.contents output.old) (W.contents output.new) (offer_line offer.now)) }
{
    send(output, offer_line(offer).as_slice())
}

fn end_line(count: usize) -> LineBuffer
    ensures { result.items ≡ offers_end count }
{
    let mut line = LineBuffer::new();
    push(&mut line, b"OFFERS ");
    push_decimal(&mut line, count);
    push(&mut line, b"\n");
    line
}

/// Writes the last line: how many offers there are, withdrawn ones included.
pub fn write_offers_end<W: Write>(output: &mut W, count: usize) -> Result<(), WriteFault>
    ensures ok { OnOk result (Appends (W.contents output.old) (W.contents output.new) (offers_end count)) }
    ensures err { OnErr result (AppendsPart (W.contents output.old) (W.contents output.new) (offers_end count)) }
{
    send(output, end_line(count).as_slice())
}

/// Writes the lines of these offers, in their order. Of a call that fails, what was written is a beginning of them.
pub fn write_offer_lines<W: Write>(output: &mut W, offers: &[Offer]) -> Result<(), WriteFault>
    ensures ok { OnOk result
        (Appends (W.contents output.old) (W.contents output.new) (flat_map offer_line offers.now)) }
    ensures err { OnErr result
        (AppendsPart (W.contents output.old) (W.contents output.new) (flat_map offer_line offers.now)) }
{
    for offer in offers {
        write_offer(output, offer)?;
    }
    Ok(())
}

/// Writes the offer table of one channel: the line of each offer, by number, and the last line.
pub fn write_offers<W: Write>(output: &mut W, offers: &[Offer]) -> Result<(), WriteFault>
    ensures ok { OnOk result (Appends (W.contents output.old) (W.contents output.new) (offer_text offers.now)) }
    ensures err { OnErr result (AppendsPart (W.contents output.old) (W.contents output.new) (offer_text offers.now)) }
{
    write_offer_lines(output, offers)?;
    write_offers_end(output, offers.len())
}
