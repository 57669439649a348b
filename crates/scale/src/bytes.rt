// The bytes of costs.
ghost use Rattle.std.specs.Prelude.{◌≡◌, ◌≤◌, ◌++◌, if◌then◌else◌, Some, None, length, drop, nat_le};

// Writes some bytes to the front of `out` and answers how many; `None` and nothing written where `out` is too short.
pub(crate) fn write_front(out: &mut [u8], bytes: &[u8]) -> Option<usize>
    ensures result { result ≡ (if nat_le (length bytes.now) (length out.old) then Some (length bytes.now) else None) }
    ensures memory { out.new ≡ (if nat_le (length bytes.now) (length out.old) then bytes.now ++ drop (length bytes.now) out.old else out.old) }
{
    if out.len() < bytes.len() {
        return None;
    }
    out[..bytes.len()].copy_from_slice(bytes);
    Some(bytes.len())
}
