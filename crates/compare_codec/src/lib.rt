// Exports for the comparison with Rust, and for nothing else: each answer as one number.
#![tactic(auto)]

ghost use Rattle.std.specs.Prelude.{◌≡◌};
ghost use Rattle.codec.specs.Codec.{encode_word, decode_message};
ghost use Rattle.compare_codec.specs.Internal.{encode_number, decode_number};

#[unsafe(no_mangle)]
pub extern "C" fn compare_encode(q: u32, m: u32, message: &[u8], word: &mut [u8]) -> u64
    ensures answer { result ≡ encode_number q m message.now word.old }
    ensures buffer { word.new ≡ encode_word q m message.now word.old }
{
    match codec::encode(q, m, message, word) {
        Ok(()) => 1000000,
        Err(refusal) => u64::from(u32::from(refusal)),
    }
}

#[unsafe(no_mangle)]
pub extern "C" fn compare_decode(q: u32, m: u32, message: &mut [u8], word: &[u8]) -> u64
    ensures answer { result ≡ decode_number q m message.old word.now }
    ensures buffer { message.new ≡ decode_message q m message.old word.now }
{
    match codec::decode(q, m, message, word) {
        Ok(reading) => 1000000 + 1000 * u64::from(reading.wrong) + u64::from(reading.margin),
        Err(refusal) => u64::from(u32::from(refusal)),
    }
}
