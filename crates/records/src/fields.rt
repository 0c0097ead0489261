// Little-endian numbers in the bytes of a record, and anywhere in a lent slice.
ghost use Rattle.std.specs.Prelude.{◌≡◌, ◌+◌, ◌≤◌, take, drop};
ghost use Rattle.records.specs.Bytes.{le_at};

use crate::limits::RECORD_BYTES;

fn bytes_in<const N: usize>(part: &[u8; RECORD_BYTES], at: usize) -> [u8; N]
    requires { at + N ≤ 32 }
    ensures { result ≡ take N (drop at part.now) }
{
    let mut bytes = [0; N];
    bytes.copy_from_slice(&part[at..at + N]);
    bytes
}

pub(crate) fn u16_in(part: &[u8; RECORD_BYTES], at: usize) -> u16
    requires { at + 2 ≤ 32 }
    ensures { result ≡ le_at part.now at 2 }
{
    u16::from_le_bytes(bytes_in(part, at))
}

pub(crate) fn u32_in(part: &[u8; RECORD_BYTES], at: usize) -> u32
    requires { at + 4 ≤ 32 }
    ensures { result ≡ le_at part.now at 4 }
{
    u32::from_le_bytes(bytes_in(part, at))
}

pub(crate) fn u64_in(part: &[u8; RECORD_BYTES], at: usize) -> u64
    requires { at + 8 ≤ 32 }
    ensures { result ≡ le_at part.now at 8 }
{
    u64::from_le_bytes(bytes_in(part, at))
}

// The two-byte number at any place of any slice; past the slice's end the bytes count as zero.
pub fn u16_at(part: &[u8], at: usize) -> u16
    ensures { result ≡ le_at part.now at 2 }
{
    if part.len() <= at {
        return 0;
    }
    if part.len() - at < 2 {
        return part[at] as u16;
    }
    u16::from_le_bytes([part[at], part[at + 1]])
}
