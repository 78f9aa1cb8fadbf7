// Compares a received word with a codeword, place by place, up to the place where a quarter of all places differ.
#![tactic(auto)]

ghost use Rattle.std.specs.Prelude.{◌≡◌, ◌+◌, ◌*◌, ◌<◌, ◌≤◌, ltb, length};
ghost use Rattle.decode_near_places.specs.Internal.{differing};

// In how many places the two differ, which are equally long. A symbol outside the alphabet is equal to none of a codeword. The count is a
// byte, so that the compiler takes sixteen places at once. The index reads the codeword: with the two slices zipped, a short word takes two
// instructions more, for which the bar of docs/BENCHMARKS.md has no room at 16 places, and a long one that is just near up to a twelfth.
fn differences(code: &[u8], word: &[u8]) -> usize
    requires { (length word.now ≤ 64) × (length code.now ≡ length word.now) }
    ensures { (result ≡ differing code.now word.now 0 (length word.now)) × (result ≤ length word.now) }
{
    let mut wrong: u8 = 0;
    for (i, w) in word.iter().enumerate() {
        wrong += u8::from(code[i] != *w);
    }
    usize::from(wrong)
}

// How many places the next run has, where `wrong` places differ so far and `left` places are not compared yet. From 64 places on it has as
// many as have still to differ until the quarter is reached, or all that are left if they are fewer. The quarter is then reached in the
// last of them at the earliest, so no place after that one is looked at. In a word of up to 32 places a run is one place, which is faster
// there.
fn run_length(quarter: usize, wrong: usize, left: usize) -> usize
    requires { (wrong < quarter) × (quarter ≤ 64) × (0 < left) }
    ensures { (0 < result) × (wrong + result ≤ quarter) × (result ≤ left) }
{
    if quarter < 16 {
        return 1;
    }
    left.min(quarter - wrong)
}

// Whether the two differ in fewer than a quarter of all places. The loop goes over the places, from run to run, and stops at the place
// where the quarter is reached. A loop that breaks is the form that docs/REQUIREMENTS.md names.
pub fn few_differ(code: &[u8], word: &[u8], quarter: usize) -> bool
    requires { (0 < quarter) × (quarter ≤ 64) × (length word.now ≡ 4 * quarter) × (length word.now ≤ length code.now) }
    ensures { result ≡ ltb (differing code.now word.now 0 (4 * quarter)) quarter }
{
    let n = word.len();
    let mut wrong: usize = 0;
    let mut i: usize = 0;
    let near = loop {
        if i >= n {
            break true;
        }
        let places = run_length(quarter, wrong, n - i);
        let found = differences(&code[i..i + places], &word[i..i + places]);
        if found != 0 {
            wrong += found;
            if wrong >= quarter {
                break false;
            }
        }
        i += places;
    };
    near
}
