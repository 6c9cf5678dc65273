// What both forms have.
ghost use Rattle.std.specs.Prelude.{◌≡◌, ◌++◌, OnOk, decimal};
ghost use Rattle.edl_lines.specs.Json.{json_flag, numbered};

use itoa::Buffer;
use std::alloc::AllocError;

pub fn push(out: &mut Vec<u8>, text: &str) -> Result<(), AllocError>
    ensures { OnOk result (out.new.items ≡ out.old.items ++ text.now) }
{
    out.extend_from_slice(text.as_bytes())
}

pub fn push_number(out: &mut Vec<u8>, number: u32) -> Result<(), AllocError>
    ensures { OnOk result (out.new.items ≡ out.old.items ++ decimal number) }
{
    let mut digits = Buffer::new();
    out.extend_from_slice(digits.format(number).as_bytes())
}

pub fn push_flag(out: &mut Vec<u8>, flag: bool) -> Result<(), AllocError>
    ensures { OnOk result (out.new.items ≡ out.old.items ++ json_flag flag) }
{
    push(out, if flag { "true" } else { "false" })
}

/// A number behind the name of its member.
#[tactic(auto, using(crate::proofs::Behind::behind), unfolding(crate::specs::Json::numbered))]
pub fn push_numbered(out: &mut Vec<u8>, name: &str, number: u32) -> Result<(), AllocError>
    ensures { OnOk result (out.new.items ≡ out.old.items ++ numbered name.now number) }
{
    push(out, name)?;
    push_number(out, number)
}
