// The errors of a received word: the word minus the word of a message. Sixteen places stand in the four-bit lanes of one number, as
// swar_lanes packs them.
#![tactic(auto)]

ghost use Rattle.std.specs.Prelude.{◌≡◌, true, ℕ, ◌+◌, ◌*◌, ◌%◌, ◌<◌};
ghost use Rattle.code_theory.specs.Sum.{at};
ghost use Rattle.code_theory.specs.Modular.{sub_mod};
ghost use Rattle.code_theory.specs.Question.{is_alphabet};
ghost use Rattle.swar_theory.specs.Internal.{digit};
ghost use Rattle.swar_lanes.specs.Internal.{offset, Lanes, LanesBelow};
ghost use Rattle.swar_count.specs.Internal.{Mask};
ghost use Rattle.decode_short_errors.specs.Internal.{plain};

// The lanes of c, plus a in each lane that is marked, modulo q.
fn plus(q: u64, c: u64, a: u64, marks: u64) -> u64
    requires { (is_alphabet q ≡ true) × LanesBelow q c × (a < q) × Mask marks }
    ensures { Lanes result (λ t. (digit 4 c t + a * digit 4 marks t) % q) }
{
    (c + a * marks) & ((q - 1) * 0x1111_1111_1111_1111)
}

// The word of the first four coefficients of a message, with the constant 0.
pub fn code(q: u64, symbols: &[u64; 6]) -> u64
    requires { (is_alphabet q ≡ true) × ((k : ℕ) → k < 4 → at symbols.now (k + 1) < q) }
    ensures { Lanes result (λ t. plain q symbols.now (offset t)) }
{
    let x = plus(q, 0, symbols[1], 0x1100_1100_1100_1100);
    let x = plus(q, x, symbols[2], 0x1111_0000_1111_0000);
    let x = plus(q, x, symbols[3], 0x1111_1111_0000_0000);
    plus(q, x, symbols[4], 0x1010_1010_1010_1010)
}

// The word minus the code minus the constant, modulo q: 0 in every place that is as it was sent.
pub fn errors(q: u64, x: u64, code: u64, a: u64) -> u64
    requires { (is_alphabet q ≡ true) × LanesBelow q x × LanesBelow q code × (a < q) }
    ensures { Lanes result (λ t. sub_mod q (sub_mod q (digit 4 x t) (digit 4 code t)) a) }
{
    swar_lanes::less(q, swar_lanes::less(q, x, code), a * 0x1111_1111_1111_1111)
}
