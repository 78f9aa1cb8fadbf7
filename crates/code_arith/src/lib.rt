// Arithmetic that every layer may use.
#![tactic(auto)]

ghost use Rattle.std.specs.Prelude.{◌≡◌, true, ◌+◌, ◌%◌, ◌^◌, ◌<◌, ◌≤◌};
ghost use Rattle.code_theory.specs.Internal.{nth_clear};
ghost use Rattle.code_theory.specs.Modular.{sub_mod};
ghost use Rattle.code_theory.specs.Question.{is_alphabet};

// 2 to the power m: the length of a word.
pub fn pow2(m: u32) -> usize
    requires { m ≤ 8 }
    ensures { result ≡ 2 ^ m }
{
    1 << m
}

// The j-th place whose bit k is 0: j with a 0 put in at bit k. The mask picks the bits below k, which stay where they are; the others move
// up by one, that is, they count twice.
pub fn nth_clear(k: u32, j: usize) -> usize
    requires { (k < 8) × (j < 128) }
    ensures { result ≡ nth_clear k j }
{
    let low = j & ((1 << k) - 1);
    j + (j - low)
}

// a plus b modulo q, by a mask. Here and below q is at most 8, so that `as` narrows it; try_from would have to be unwrapped.
#[tactic(auto, unfolding(code_theory::specs::Question::is_alphabet), using(crate::proofs::ArithLaws::masks))]
pub fn add_mod(q: u32, a: u8, b: u8) -> u8
    requires { (is_alphabet q ≡ true) × (a < q) × (b < q) }
    ensures { result ≡ (a + b) % q }
{
    (a + b) & (q as u8 - 1)
}

// a minus b modulo q, by a mask.
#[tactic(auto, unfolding(code_theory::specs::Question::is_alphabet), using(crate::proofs::ArithLaws::masks))]
pub fn sub_mod(q: u32, a: u8, b: u8) -> u8
    requires { (is_alphabet q ≡ true) × (a < q) × (b < q) }
    ensures { result ≡ sub_mod q a b }
{
    (a + q as u8 - b) & (q as u8 - 1)
}
