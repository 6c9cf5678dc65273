//! The tracks of a list.
ghost use Rattle.std.specs.Prelude.{◌≡◌, ◌<◌, ◌∷◌, [], length, position, IfSome, MatchOption};
ghost use Rattle.std.specs.List.{slice_split};
ghost use Rattle.edl.specs.EntryShown.{entry_shown};
ghost use Rattle.edl_diff.specs.Track.{is_number, is_on, is_slash, is_sound, is_word_for, sound_named};

use edl::Event;
use timecode::decimal_number;

/// A track of a list.
#[derive(Clone, Copy, PartialEq, Eq)]
pub enum Track {
    /// The picture.
    Picture,
    /// A channel of sound, counted from 1.
    Sound(u8),
}

/// The picture, and sixteen channels of sound.
pub const TRACKS: [Track; 17] = [
    Track::Picture,
    Track::Sound(1),
    Track::Sound(2),
    Track::Sound(3),
    Track::Sound(4),
    Track::Sound(5),
    Track::Sound(6),
    Track::Sound(7),
    Track::Sound(8),
    Track::Sound(9),
    Track::Sound(10),
    Track::Sound(11),
    Track::Sound(12),
    Track::Sound(13),
    Track::Sound(14),
    Track::Sound(15),
    Track::Sound(16),
];

// The channel of sound that a word names.
fn sound_named(word: &[u8]) -> Option<u64>
    ensures { result ≡ sound_named word.now }
{
    match word {
        b"A" => Some(1),
        [b'A', number @ ..] => decimal_number(number, 2),
        _ => None,
    }
}

fn is_number(channel: u8, named: Option<u64>) -> bool
    ensures { result ≡ is_number channel named }
{
    match named {
        Some(number) => number == u64::from(channel),
        None => false,
    }
}

// Whether a word is for a channel of sound.
#[tactic(auto, unfolding(crate::specs::Track::is_word_for))]
fn is_word_for(channel: u8, word: &[u8]) -> bool
    ensures { result ≡ is_word_for channel word.now }
{
    (word == b"B".as_slice() && channel == 1)
        || (word == b"AA".as_slice() && channel <= 2)
        || is_number(channel, sound_named(word))
}

// Where the first word of some channels ends.
fn word_end(channels: &[u8]) -> Option<usize>
    ensures value { result ≡ position is_slash channels.now }
    ensures within { IfSome result (λ at. at < length channels.now) }
{
    channels.iter().position(|letter| *letter == b'/')
}

// The first word, and what stands behind its end, if there is more.
fn first_word(channels: &[u8]) -> (&[u8], Option<&[u8]>)
    ensures words { MatchOption result.1 (slice_split is_slash channels.now ≡ result.0.now ∷ [])
        (λ rest. slice_split is_slash channels.now ≡ result.0.now ∷ slice_split is_slash rest.now) }
    ensures shorter { IfSome result.1 (λ rest. length rest.now < length channels.now) }
{
    match word_end(channels) {
        Some(at) => (&channels[..at], Some(&channels[at + 1..])),
        None => (channels, None),
    }
}

fn is_sound(channel: u8, channels: &[u8]) -> bool
    ensures { result ≡ is_sound channel channels.now }
{
    let mut left = Some(channels);
    while let Some(text) = left {
        let (word, rest) = first_word(text);
        if is_word_for(channel, word) {
            return true;
        }
        left = rest;
    }
    false
}

/// Whether an event is on a track.
#[tactic(auto, unfolding(crate::specs::Track::is_on))]
pub(crate) fn is_on(track: Track, event: &Event<'_>) -> bool
    ensures { result ≡ is_on track (entry_shown event.now) }
{
    match track {
        Track::Picture => event.is_picture(),
        Track::Sound(channel) => is_sound(channel, event.channels.as_bytes()),
    }
}
