//! The texts of an item's source and kind.
ghost use Rattle.std.specs.Prelude.{◌≡◌, ◌≢◌, ◌≤◌, ◌+◌, ◌++◌, true, Some, IfSome, IfNone, IsTrue};
ghost use Rattle.std.specs.Prelude.{length, replicate};
ghost use Rattle.std.specs.List.{list_all};
ghost use Rattle.timecode.specs.Decimal.{in_digits};
ghost use Rattle.playlist_core.specs.declared.source.Source.{Source};
ghost use Rattle.playlist_core.specs.declared.item.EditKind.{EditKind};
ghost use Rattle.playlist_core.specs.Source.{source_reel, source_of_reel};
ghost use Rattle.playlist_core.specs.Item.{kind_text, kind_of, is_kind};
ghost use Rattle.playlist_core.specs.declared.day.DayState.TheVariants as DayState;
ghost use Rattle.station_tables_records.specs.MadeDays.{has_texts, is_source, is_short_name, is_full_word};

use arrayvec::ArrayVec;
use itoa::Buffer;
use playlist_core::{DayPlan, DayState, EditKind, Item, Source};

/// The bytes of a reel or of a kind: a reel has at most 8, a kind at most 6.
pub type ItemText = ArrayVec<u8, 32>;

fn push(text: &mut ItemText, more: &[u8])
    requires { length text.old.items + length more.now ≤ 32 }
    ensures items { text.new.items ≡ text.old.items ++ more.now }
    ensures len { length text.new.items ≡ length text.old.items + length more.now }
{
    let _fits = text.try_extend_from_slice(more);
}

fn push_zeros(text: &mut ItemText, count: usize)
    requires { length text.old.items + count ≤ 32 }
    ensures items { text.new.items ≡ text.old.items ++ replicate count 48 }
    ensures len { length text.new.items ≡ length text.old.items + count }
{
    for _pushed in 0..count {
        text.push(b'0');
    }
}

// A number in at least so many digits.
fn push_digits(text: &mut ItemText, width: usize, number: u32)
    requires { length text.old.items + width + 10 ≤ 32 }
    ensures items { text.new.items ≡ text.old.items ++ in_digits width number }
    ensures len { length text.new.items ≤ length text.old.items + width + 10 }
{
    let mut buffer = Buffer::new();
    let digits = buffer.format(number).as_bytes();
    push_zeros(text, width.saturating_sub(digits.len()));
    push(text, digits);
}

/// The reel of a source.
pub fn source_text(source: Source) -> ItemText
    ensures { result.items ≡ source_reel source }
{
    let mut text = ItemText::new();
    match source {
        Source::Black => push(&mut text, b"BL"),
        Source::Bars => push(&mut text, b"BARS"),
        Source::Own(number) => {
            push(&mut text, b"C");
            push_digits(&mut text, 7, number.get());
        }
        Source::Lent(owner, number) => {
            push(&mut text, b"L");
            push_digits(&mut text, 3, u32::from(owner.get()));
            push_digits(&mut text, 4, u32::from(number.get()));
        }
    }
    text
}

/// The text of a kind.
pub fn kind_text(kind: EditKind) -> ItemText
    ensures { result.items ≡ kind_text kind }
{
    let mut text = ItemText::new();
    match kind {
        EditKind::Cut => push(&mut text, b"C"),
        EditKind::Dissolve => push(&mut text, b"D"),
        EditKind::Wipe(number) => {
            push(&mut text, b"W");
            push_digits(&mut text, 3, u32::from(number));
        }
    }
    text
}

// Whether the text isn't the long name of black.
fn is_short_name(source: &Source, text: &[u8]) -> bool
    ensures { result ≡ is_short_name source.now text.now }
{
    match source {
        Source::Black => text == b"BL".as_slice(),
        _ => true,
    }
}

/// The source whose reel this is. The long name of black isn't its reel.
pub(crate) fn source_in(text: &[u8]) -> Option<Source>
    ensures reel { IfSome result (λ s. source_reel s ≡ text.now) }
    ensures read { IfSome result (λ s. source_of_reel text.now ≡ Some s) }
    ensures none { IfNone result ((s : Source) → IsTrue (is_source s) → source_reel s ≢ text.now) }
{
    let Some(source) = Source::read(text) else {
        return None;
    };
    if is_short_name(&source, text) {
        Some(source)
    } else {
        None
    }
}

// Whether a wipe's number has three digits.
fn is_full_word(kind: EditKind, word: &[u8]) -> bool
    ensures { result ≡ is_full_word kind word.now }
{
    match kind {
        EditKind::Wipe(_) => word.len() == 4,
        _ => true,
    }
}

/// The kind whose text this is. A wipe's number has three digits there.
pub(crate) fn kind_in(text: &[u8]) -> Option<EditKind>
    ensures text { IfSome result (λ k. kind_text k ≡ text.now) }
    ensures read { IfSome result (λ k. kind_of text.now ≡ Some k) }
    ensures none { IfNone result ((k : EditKind) → IsTrue (is_kind k) → kind_text k ≢ text.now) }
{
    let Some(kind) = EditKind::read(text) else {
        return None;
    };
    if is_full_word(kind, text) {
        Some(kind)
    } else {
        None
    }
}

/// Whether a day can be written as rows: it is there. No test is needed of its items: the texts of their sources and
/// kinds read as these.
pub fn can_be_written(day: &DayPlan) -> bool
    ensures there { IsTrue result → day.now.state ≢ DayState.NotThere }
    ensures texts { list_all has_texts day.now.items ≡ true }
    ensures whole { day.now.state ≢ DayState.NotThere → IsTrue result }
{
    have_texts(day);
    day.state() != DayState::NotThere
}

// A law: the texts of the sources and kinds of a day's items read as these.
fn have_texts(day: &DayPlan)
    ensures { list_all has_texts day.now.items ≡ true }
{
    day.keep_the_rules();
    have_reels(day.items());
}

// A law: the reels of the items' sources name them.
fn have_reels(items: &[Item])
    ensures { list_all (λ i. is_source i.src) items.now ≡ true }
{
    for item in items {
        item.src.keeps_the_form();
    }
}
