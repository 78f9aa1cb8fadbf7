// Writes the word of a message. For words of up to 64 places, the first eight are computed in the bytes of one number; then the word is
// doubled, eight places at a time: the second half of the first 2^(k+1) places is the first half plus a_k. Longer words start with 64
// places, each computed from the bits of its index, and the compiler computes sixteen at once. The number of coefficients is a parameter of
// `write_short` and `write_long`, so that the compiler makes a body for each length.
#![tactic(auto)]

ghost use Rattle.std.specs.Prelude.{◌≡◌, true, ℕ, ◌+◌, ◌*◌, ◌%◌, ◌<◌, ◌≤◌, length};
ghost use Rattle.code_theory.specs.Sum.{at};
ghost use Rattle.code_theory.specs.Index.{bit};
ghost use Rattle.code_theory.specs.Question.{is_alphabet};
ghost use Rattle.swar_theory.specs.Internal.{digit};
ghost use Rattle.swar_bytes.specs.Internal.{Holds};
ghost use Rattle.encode_codeword.specs.Internal.{Fits, Coded, Written, Small, Doubled, unreduced};

// The number with a in each byte.
fn spread(a: u8) -> u64
    ensures { Holds 8 result (λ l. a) }
{
    u64::from(a) * 0x0101010101010101
}

// Each byte of x modulo q.
fn reduced(q: u32, x: u64) -> u64
    requires { is_alphabet q ≡ true }
    ensures { (l : ℕ) → l < 8 → digit 8 result l ≡ digit 8 x l % q }
{
    x & swar_bytes::mask(q)
}

// Each byte of x plus a, modulo q.
fn plus(q: u32, a: u8, x: u64) -> u64
    requires { (is_alphabet q ≡ true) × (a < q) × ((l : ℕ) → l < 8 → digit 8 x l < q) }
    ensures { (l : ℕ) → l < 8 → digit 8 result l ≡ (digit 8 x l + a) % q }
{
    reduced(q, x + spread(a))
}

// The first four places before they are reduced: the constant, plus a_0 where bit 0 of the place is 1, plus a_1 where bit 1 is.
// The next function takes this sum twice.
fn first_four(s: &[u8]) -> u64
    requires { Small 3 s.now }
    ensures { Holds 4 result (unreduced 2 (at s.now)) }
{
    u64::from(s[0]) * 0x01010101 + u64::from(s[1]) * 0x01000100 + u64::from(s[2]) * 0x01010000
}

// The first eight places before they are reduced: the first four, and the same four plus a_2.
fn first_eight(s: &[u8]) -> u64
    requires { Small 4 s.now }
    ensures { Holds 8 result (unreduced 3 (at s.now)) }
{
    let four = first_four(s);
    four + ((four + u64::from(s[3]) * 0x01010101) << 32)
}

// A symbol modulo q. The mask is below 256, so that `as` narrows it; try_from would have to be unwrapped.
#[tactic(auto, unfolding(code_theory::specs::Question::is_alphabet), using(code_theory::proofs::QuestionLaws::mask_mod))]
fn remainder(q: u32, x: u8) -> u8
    requires { is_alphabet q ≡ true }
    ensures { result ≡ x % q }
{
    x & (q - 1) as u8
}

// Fills the places from len to 2 len with the places below len plus a, modulo q, eight places at a time. They are counted, as a loop over
// chunks_exact_mut leaves a proof nothing but the length of what it wrote.
fn double(q: u32, len: usize, a: u8, word: &mut [u8])
    requires { (is_alphabet q ≡ true) × (a < q) × (2 * len ≤ length word.old) × (len % 8 ≡ 0) × ((j : ℕ) → j < len → at word.old j < q) }
    ensures { Doubled q len a word.old word.new }
{
    let (low, high) = word.split_at_mut(len);
    for c in 0..len / 8 {
        let x = plus(q, a, swar_bytes::eight(low, 8 * c));
        swar_bytes::put_eight(x, 8 * c, high);
    }
}

// Fills the places from len to 2 len with the places below len plus a, modulo q, one place at a time: the compiler turns the loop into
// sixteen at a time. The index writes what the loop over both halves zipped would: of that the library has no law.
fn double_each(q: u32, len: usize, a: u8, word: &mut [u8])
    requires { (is_alphabet q ≡ true) × (a < q) × (2 * len ≤ length word.old) × ((j : ℕ) → j < len → at word.old j < q) }
    ensures { Doubled q len a word.old word.new }
{
    let (low, high) = word.split_at_mut(len);
    for (i, x) in low.iter().enumerate() {
        high[i] = remainder(q, *x + a);
    }
}

// What the coefficient a adds at index i: a where bit k of i is set, and 0 elsewhere.
fn part(k: usize, i: u8, a: u8) -> u8
    requires { k < 8 }
    ensures { (result ≡ a * bit k i) × (result ≤ a) }
{
    if (i >> k) % 2 == 0 { 0 } else { a }
}

// The symbol at index i of the word of six coefficients, before it is reduced.
fn place(i: u8, s: &[u8; 7]) -> u8
    requires { (k : ℕ) → k < 7 → at s.now k < 8 }
    ensures { result ≡ unreduced 6 (at s.now) i }
{
    let mut sum = s[0];
    for (k, a) in s[1..].iter().enumerate() {
        sum += part(k, i, *a);
    }
    sum
}

// Writes 4 places from 2 coefficients. This stores four bytes and the next one eight.
fn write_4(q: u32, message: &[u8], word: &mut [u8])
    requires { Fits q 2 message.now word.old }
    ensures { Written q 2 message.now word.old word.new }
{
    swar_bytes::put_four(reduced(q, first_four(message)), 0, word);
}

// Writes 8 places from 3 coefficients.
fn write_8(q: u32, message: &[u8], word: &mut [u8])
    requires { Fits q 3 message.now word.old }
    ensures { Written q 3 message.now word.old word.new }
{
    swar_bytes::put_eight(reduced(q, first_eight(message)), 0, word);
}

// Writes 64 places from 6 coefficients, each place from the bits of its index. The symbols are read before any place is written, so that
// they can stay in registers, and one by one: the compiler then takes what question 6 has read already, and does not read it again.
fn write_each_of_64(q: u32, message: &[u8], word: &mut [u8])
    requires { Fits q 6 message.now word.old }
    ensures { Written q 6 message.now word.old word.new }
{
    let s = [
        message[0], message[1], message[2], message[3], message[4], message[5], message[6],
    ];
    let (first, _) = word.split_at_mut(64);
    for (i, x) in first.iter_mut().enumerate() {
        *x = remainder(q, place(i as u8, &s));
    }
}

// Writes the first 2^M places: eight, and then each coefficient doubles them; its number says how many places there are.
fn write_short<const M: usize>(q: u32, message: &[u8], word: &mut [u8])
    requires { Fits q M message.now word.old × (3 ≤ M) }
    ensures { Written q M message.now word.old word.new }
{
    write_8(q, message, word);
    for k in 3..M {
        double(q, 1 << k, message[k + 1], word);
    }
}

// Writes the first 2^M places: 64, and then each coefficient doubles them; its number says how many places there are.
fn write_long<const M: usize>(q: u32, message: &[u8], word: &mut [u8])
    requires { Fits q M message.now word.old × (6 ≤ M) }
    ensures { Written q M message.now word.old word.new }
{
    write_each_of_64(q, message, word);
    for k in 6..M {
        double_each(q, 1 << k, message[k + 1], word);
    }
}

// Writes the word of the message into the first 2^m places, and leaves the others as they are.
pub fn write(q: u32, m: u32, message: &[u8], word: &mut [u8])
    requires { Fits q m message.now word.old }
    ensures { Written q m message.now word.old word.new }
{
    match m {
        2 => write_4(q, message, word),
        3 => write_8(q, message, word),
        4 => write_short::<4>(q, message, word),
        5 => write_short::<5>(q, message, word),
        6 => write_short::<6>(q, message, word),
        7 => write_long::<7>(q, message, word),
        _ => write_long::<8>(q, message, word),
    }
}
