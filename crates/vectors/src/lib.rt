// Files of outside cases, taken apart: a line up to byte 10, and a payload of a stated length.
#![tactic(auto)]

ghost use Rattle.std.specs.Prelude.{◌<◌};
ghost use Rattle.vectors.specs.Fields.{LineSplit, Payload};

// The first line of a text, without its byte 10, and what follows.
pub fn split_line(text: &[u8]) -> Option<(&[u8], &[u8])>
    ensures { LineSplit text.now result }
{
    let end = text.iter().position(|byte| *byte == b'\n')?;
    Some((&text[..end], &text[end + 1..]))
}

// The first `count` bytes of a text, which byte 10 must follow, and what follows that.
pub fn split_payload(text: &[u8], count: usize) -> Option<(&[u8], &[u8])>
    ensures { Payload text.now count result }
{
    let (payload, rest) = text.split_at_checked(count)?;
    Some((payload, rest.strip_prefix(b"\n")?))
}
