//! The dump in an input of `fate`.
ghost use Rattle.std.specs.Prelude.{◌≡◌, ◌<◌, ◌≤◌, ◌==◌, IfSome, length, take};
ghost use Rattle.std.specs.List.{position};
ghost use Rattle.ixp_cli_plain.specs.Inputs.{first_line, dump_part};

fn line_end(text: &[u8]) -> Option<usize>
    ensures place { result ≡ position (λ c. c == 10) text.now }
    ensures within { IfSome result (λ at. at < length text.now) }
{
    text.iter().position(|byte| *byte == b'\n')
}

/// The text's first line, with its end.
fn first_line(text: &[u8]) -> &[u8]
    ensures line { result.now ≡ first_line text.now }
    ensures front { take (length result.now) text.now ≡ result.now }
    ensures within { length result.now ≤ length text.now }
{
    match line_end(text) {
        Some(at) => &text[..at + 1],
        None => text,
    }
}

/// The dump in an input of `fate`: up to the first line that begins with `end` and a blank, and that line
/// with it.
pub fn dump_part(text: &[u8]) -> &[u8]
    ensures part { result.now ≡ dump_part text.now }
    ensures front { take (length result.now) text.now ≡ result.now }
    ensures within { length result.now ≤ length text.now }
{
    let mut count = 0;
    let mut at_start = true;
    let mut left = text;
    'bytes: while let Some((byte, rest)) = left.split_first() {
        if at_start && left.starts_with(b"end ") {
            return &text[..count + first_line(left).len()];
        }
        count += 1;
        at_start = *byte == b'\n';
        left = rest;
    }
    text
}
