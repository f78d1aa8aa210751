// Numbers of two, four and eight bytes, little-endian, at any place of a lent slice.
//
// One function for each width: `from_le_bytes` is each type's own and no trait's, so one for all would want a trait with the same three lines.
//
// Assumes nothing. `requires` asks that the bytes are there.

#![tactic(auto)]

ghost use Rattle.std.specs.Prelude.{◌≡◌, ◌+◌, ◌≤◌, length};
ghost use Rattle.model.specs.Layout.{little, part};

// So many bytes, from a place on.
fn bytes_at<const N: usize>(bytes: &[u8], at: usize) -> [u8; N]
    requires { at + N ≤ length bytes.now }
    ensures { result ≡ part at N bytes.now }
{
    bytes[at..at + N].try_into().unwrap()
}

// The number of two bytes.
pub fn two(bytes: &[u8], at: usize) -> u16
    requires { at + 2 ≤ length bytes.now }
    ensures { result ≡ little (part at 2 bytes.now) }
{
    u16::from_le_bytes(bytes_at(bytes, at))
}

// The number of four bytes.
pub fn four(bytes: &[u8], at: usize) -> u32
    requires { at + 4 ≤ length bytes.now }
    ensures { result ≡ little (part at 4 bytes.now) }
{
    u32::from_le_bytes(bytes_at(bytes, at))
}

// The number of eight bytes.
pub fn eight(bytes: &[u8], at: usize) -> u64
    requires { at + 8 ≤ length bytes.now }
    ensures { result ≡ little (part at 8 bytes.now) }
{
    u64::from_le_bytes(bytes_at(bytes, at))
}
