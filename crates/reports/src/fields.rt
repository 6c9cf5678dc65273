//! Fields that lines of several tables have.
ghost use Rattle.std.specs.Prelude.{◌≡◌, ◌≤◌, ◌+◌, ◌++◌, ◌↔◌, length, true, IsOk, OnOk, IfErr};
ghost use Rattle.hex.specs.Hex.{encode_lower};
ghost use Rattle.timecode.specs.Label.{frame_text};
ghost use Rattle.umid.specs.BasicUmid.{basic_umid};
ghost use Rattle.vault_core.specs.Reel.{clip_reel};
ghost use Rattle.report_texts.specs.Fields.{has_label};
ghost use Rattle.report_texts.specs.Offers.{window_field};

use crate::columns::push_digits;
use report_texts::{LineBuffer, RowFault, push};
use timecode::{Rate, to_timecode};
use umid::Umid;
use vault_core::{Title, Window};

/// The reel of a clip.
pub(crate) fn push_clip_reel(line: &mut LineBuffer, number: u32)
    requires { length line.old.items + 18 ≤ 256 }
    ensures items { line.new.items ≡ line.old.items ++ clip_reel number }
    ensures len { length line.new.items ≤ length line.old.items + 18 }
{
    push(line, b"C");
    push_digits(line, 7, number);
}

/// The label of a frame. One behind the day's last has none.
pub(crate) fn push_label(line: &mut LineBuffer, rate: Rate, frame: u32) -> Result<(), RowFault>
    requires { length line.old.items + 11 ≤ 256 }
    ensures variant { IsOk result ↔ (has_label rate frame ≡ true) }
    ensures ok { OnOk result (line.new.items ≡ line.old.items ++ frame_text rate frame) }
    ensures len { OnOk result (length line.new.items ≤ length line.old.items + 11) }
    ensures err { IfErr result (λ e. e ≡ RowFault.NoLabel) }
{
    let Ok(label) = to_timecode(frame, rate) else {
        return Err(RowFault::NoLabel);
    };
    push(line, &label.bytes());
    Ok(())
}

/// A UMID in hexadecimal digits.
pub(crate) fn push_umid(line: &mut LineBuffer, umid: Umid)
    requires { length line.old.items + 64 ≤ 256 }
    ensures items { line.new.items ≡ line.old.items ++ encode_lower (basic_umid umid) }
    ensures len { length line.new.items ≤ length line.old.items + 64 }
{
    let mut digits = [0; 64];
    let _fits = hex::encode_to_slice(umid.to_bytes(), &mut digits);
    push(line, &digits);
}

/// A title.
#[tactic(auto, using(crate::proofs::LengthLemmas::title_short))]
pub(crate) fn push_title(line: &mut LineBuffer, title: &Title)
    requires { length line.old.items + 60 ≤ 256 }
    ensures items { line.new.items ≡ line.old.items ++ title.now }
    ensures len { length line.new.items ≤ length line.old.items + 60 }
{
    title.keeps_the_form();
    push(line, title.as_bytes());
}

/// The window of a lent clip, where it has one, behind a blank. It stands behind the state, and a line without one has
/// the bytes that it had before there were windows: for who reads them by columns.
pub(crate) fn push_window(line: &mut LineBuffer, window: Option<Window>)
    requires { length line.old.items + 32 ≤ 256 }
    ensures items { line.new.items ≡ line.old.items ++ window_field window }
    ensures len { length line.new.items ≤ length line.old.items + 32 }
{
    if let Some(window) = window {
        push(line, b" ");
        push_digits(line, 5, window.first());
        push(line, b"-");
        push_digits(line, 5, window.last());
    }
}
