//! The clips that are lent to one channel, from the offers of all channels.
ghost use Rattle.std.specs.Prelude.{◌≡◌, ◌==◌, [], ◌∷◌, false, Err, OnOk, OnErr, count_by};
ghost use Rattle.std.specs.List.{flat_map};
ghost use Rattle.std.specs.Io.KnownBytes.{Appends};
ghost use Rattle.report_texts.specs.Output.{AppendsPart};
ghost use Rattle.report_texts.specs.Lent.{grants_have_labels, lent_line, lent_text};
ghost use Rattle.report_texts.specs.declared.fault.RowFault.TheVariants.{NoLabel};
ghost use Rattle.channel_view_model.specs.Seen.{grants_to, grant_lines};

use grant_core::Grant;
use report_texts::RowFault;
use reports::{write_grant, write_lent_end};
use std::alloc::Global;
use std::io::Write;
use timecode::Unavailable;
use vault_core::Offer;

/// The lent table of this channel. It fails where the writer does, and at a clip whose first frame is none of the day.
pub(crate) fn write_lent_of<W: Write>(
    output: &mut W,
    offers: &[(u16, Offer)],
    channel: u16,
) -> Result<(), RowFault>
    ensures ok { OnOk result
        (Appends (W.contents output.old) (W.contents output.new) (lent_text (grants_to channel offers.now))) }
    ensures err { OnErr result
        (AppendsPart (W.contents output.old) (W.contents output.new) (lent_text (grants_to channel offers.now))) }
    ensures unlabelled { result ≡ Err NoLabel → grants_have_labels (grants_to channel offers.now) ≡ false }
{
    write_grant_lines(output, offers, channel)?;
    write_lent_end(output, grant_count(offers, channel))?;
    Ok(())
}

fn write_grant_lines<W: Write>(
    output: &mut W,
    offers: &[(u16, Offer)],
    channel: u16,
) -> Result<(), RowFault>
    ensures ok { OnOk result (Appends (W.contents output.old) (W.contents output.new)
        (flat_map lent_line (grants_to channel offers.now))) }
    ensures err { OnErr result (AppendsPart (W.contents output.old) (W.contents output.new)
        (flat_map lent_line (grants_to channel offers.now))) }
    ensures unlabelled { result ≡ Err NoLabel → grants_have_labels (grants_to channel offers.now) ≡ false }
{
    for row in offers {
        write_if_lent(output, channel, row.0, &row.1)?;
    }
    Ok(())
}

// The line of an offer of this owner, if it is to the channel.
fn write_if_lent<W: Write>(
    output: &mut W,
    channel: u16,
    owner: u16,
    offer: &Offer,
) -> Result<(), RowFault>
    ensures ok { OnOk result
        (Appends (W.contents output.old) (W.contents output.new) (grant_lines channel (owner, offer.now))) }
    ensures err { OnErr result
        (AppendsPart (W.contents output.old) (W.contents output.new) (grant_lines channel (owner, offer.now))) }
    ensures unlabelled { result ≡ Err NoLabel →
        grants_have_labels (grants_to channel ((owner, offer.now) ∷ [])) ≡ false }
{
    if offer.grantee == channel {
        let grant = Grant {
            owner,
            offer: *offer,
        };
        return write_grant(output, &grant);
    }
    Ok(())
}

fn grant_count(offers: &[(u16, Offer)], channel: u16) -> usize
    ensures { result ≡ count_by (λ r. r.1.grantee == channel) offers.now }
{
    offers.iter().filter(|row| row.1.grantee == channel).count()
}
