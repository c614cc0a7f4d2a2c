//! Where lines end.
ghost use Rattle.std.specs.Prelude.{◌≡◌, ◌==◌, ◌<◌, ◌≤◌, length, IfSome};
ghost use Rattle.std.specs.List.{position};
ghost use Rattle.kte_script.specs.Ends.{FirstPart};

/// Returns the bytes before the first LF, and those after it; `None` if there is no LF.
pub(crate) fn split_end(bytes: &[u8]) -> (&[u8], Option<&[u8]>)
    ensures parts { FirstPart bytes.now result.0.now result.1 }
    ensures within { length result.0.now ≤ length bytes.now }
{
    match first_end(bytes) {
        Some(at) => {
            let (part, _) = bytes.split_at(at);
            let (_, rest) = bytes.split_at(at + 1);
            (part, Some(rest))
        }
        None => (bytes, None),
    }
}

fn first_end(bytes: &[u8]) -> Option<usize>
    ensures first { result ≡ position (λ byte. byte == 10) bytes.now }
    ensures within { IfSome result (λ at. at < length bytes.now) }
{
    bytes.iter().position(|byte| *byte == b'\n')
}
