// The C form of Write and Read, for the launch tablet. include/rm.h has the prototypes.
#![tactic(auto)]

ghost use Rattle.std.specs.Prelude.{◌≡◌};
ghost use Rattle.codec.specs.Codec.{encode_word, decode_message};
ghost use Rattle.rm_c.specs.CForm.{write_number, read_number};

#[unsafe(no_mangle)]
pub extern "C" fn rm_write(q: u32, m: u32, message: &[u8], word: &mut [u8]) -> u32
    ensures answer { result ≡ write_number q m message.now word.old }
    ensures buffer { word.new ≡ encode_word q m message.now word.old }
{
    match codec::encode(q, m, message, word) {
        Ok(()) => 100,
        Err(refusal) => refusal.into(),
    }
}

#[unsafe(no_mangle)]
pub extern "C" fn rm_read(q: u32, m: u32, message: &mut [u8], word: &[u8]) -> u32
    ensures answer { result ≡ read_number q m message.old word.now }
    ensures buffer { message.new ≡ decode_message q m message.old word.now }
{
    match codec::decode(q, m, message, word) {
        Ok(reading) => 100 + reading.wrong,
        Err(refusal) => refusal.into(),
    }
}
