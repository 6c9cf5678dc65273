// Outputs.
ghost use Rattle.std.specs.Prelude.{◌≡◌, ◌≤◌, ◌++◌, length, drop};
ghost use Rattle.temolunai.specs.Rooms.{put};

use crate::numbers::DONE;

/// Writes bytes at the beginning of an output that has room for them.
#[tactic(auto, unfolding(crate::specs::Rooms::put))]
pub fn put(text: &[u8], out: &mut [u8]) -> u32
    requires { length text.now ≤ length out.old }
    ensures answer { result ≡ 0 }
    ensures written { out.new ≡ put text.now out.old }
{
    out[..text.len()].copy_from_slice(text);
    DONE
}

/// Writes values at the beginning of an output that has room for them.
pub fn put_all<T: Copy>(values: &[T], out: &mut [T])
    requires { length values.now ≤ length out.old }
    ensures { out.new ≡ values.now ++ drop (length values.now) out.old }
{
    out[..values.len()].copy_from_slice(values);
}
