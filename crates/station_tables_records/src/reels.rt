//! The text of a reel.
ghost use Rattle.std.specs.Prelude.{◌≡◌, true, false, IfSome, IfNone};
ghost use Rattle.asrun_match.specs.Aired.{is_row_reel};

use asrun_match::Reel;

/// The reel whose text this is: 1 to 8 letters A to Z and digits. The long name of black isn't its text.
pub(crate) fn reel_in(text: &[u8]) -> Option<Reel>
    ensures text { IfSome result (λ reel. reel ≡ text.now) }
    ensures kept { IfSome result (λ reel. is_row_reel reel ≡ true) }
    ensures none { IfNone result (is_row_reel text.now ≡ false) }
{
    let Some(reel) = Reel::read(text) else {
        return None;
    };
    if reel.as_bytes() == text {
        Some(reel)
    } else {
        None
    }
}
