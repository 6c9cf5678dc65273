// Texts by their places among bytes.
ghost use Rattle.std.specs.Prelude.{◌≡◌, ◌+◌, ◌++◌, ◌∷◌, [], All, OnOk, length};
ghost use Rattle.edl.specs.Texts.{texts_of};
ghost use Rattle.temolunai.specs.Texts.{text_at, texts_at, IsWithin};

use std::alloc::AllocError;

/// The place of a text among bytes: where it begins, and how many bytes it has.
#[repr(C)]
#[derive(Clone, Copy)]
pub struct Place {
    pub at: usize,
    pub length: usize,
}

/// Texts that stand one behind another.
#[derive(Drop)]
pub struct Texts {
    pub places: Vec<Place>,
    pub bytes: Vec<u8>,
}

/// Adds a text.
pub fn push_text(texts: &mut Texts, text: &str) -> Result<(), AllocError>
    requires { All (IsWithin (length texts.old.bytes.items)) texts.old.places.items }
    ensures within { OnOk result (All (IsWithin (length texts.new.bytes.items)) texts.new.places.items) }
    ensures said { OnOk result (texts_at texts.new.bytes.items texts.new.places.items
        ≡ texts_at texts.old.bytes.items texts.old.places.items ++ (text.now ∷ [])) }
{
    let at = texts.bytes.len();
    texts.bytes.extend_from_slice(text.as_bytes())?;
    texts.places.push(Place {
        at,
        length: text.len(),
    })?;
    Ok(())
}

/// Adds texts.
pub fn push_texts(texts: &mut Texts, more: &[&str]) -> Result<(), AllocError>
    requires { All (IsWithin (length texts.old.bytes.items)) texts.old.places.items }
    ensures within { OnOk result (All (IsWithin (length texts.new.bytes.items)) texts.new.places.items) }
    ensures said { OnOk result (texts_at texts.new.bytes.items texts.new.places.items
        ≡ texts_at texts.old.bytes.items texts.old.places.items ++ texts_of more.now) }
{
    for text in more {
        push_text(texts, text)?;
    }
    Ok(())
}
