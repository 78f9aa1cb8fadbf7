// Up to eight symbols in the bytes of one number: they are read from a slice, written to it, and reduced modulo q by a mask. The compiler
// makes one load or one store of each read and write.
#![tactic(auto)]

ghost use Rattle.std.specs.Prelude.{◌≡◌, true, ℕ, ◌+◌, ◌-◌, ◌<◌, ◌≤◌, length};
ghost use Rattle.code_theory.specs.Sum.{at};
ghost use Rattle.code_theory.specs.Question.{is_alphabet};
ghost use Rattle.swar_theory.specs.Internal.{digit};
ghost use Rattle.swar_bytes.specs.Internal.{Holds, from, Put};

// The four symbols from place i on, the first in the lowest byte.
pub fn four(s: &[u8], i: usize) -> u64
    requires { i + 4 ≤ length s.now }
    ensures { Holds 4 result (from s.now i) }
{
    let bytes: [u8; 4] = s[i..i + 4].try_into().unwrap();
    u64::from(u32::from_le_bytes(bytes))
}

// The eight symbols from place i on, the first in the lowest byte.
pub fn eight(s: &[u8], i: usize) -> u64
    requires { i + 8 ≤ length s.now }
    ensures { (l : ℕ) → l < 8 → digit 8 result l ≡ at s.now (i + l) }
{
    let bytes: [u8; 8] = s[i..i + 8].try_into().unwrap();
    u64::from_le_bytes(bytes)
}

// Writes the four lowest bytes of x to the places from i on, the lowest first.
pub fn put_four(x: u64, i: usize, s: &mut [u8])
    requires { i + 4 ≤ length s.old }
    ensures { Put 4 x i s.old s.new }
{
    let bytes = x.to_le_bytes();
    s[i..i + 4].copy_from_slice(&bytes[..4]);
}

// Writes the eight bytes of x to the places from i on, the lowest first.
pub fn put_eight(x: u64, i: usize, s: &mut [u8])
    requires { i + 8 ≤ length s.old }
    ensures { Put 8 x i s.old s.new }
{
    let bytes = x.to_le_bytes();
    s[i..i + 8].copy_from_slice(&bytes);
}

// The mask q - 1 in each byte: an `and` with it leaves each byte modulo q.
pub fn mask(q: u32) -> u64
    requires { is_alphabet q ≡ true }
    ensures { Holds 8 result (λ l. q - 1) }
{
    u64::from(q - 1) * 0x0101010101010101
}
