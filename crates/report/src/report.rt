ghost use Rattle.std.specs.Prelude.{◌≡◌, ◌+◌, ◌*◌, ◌≤◌, ◌<◌, [], ◌∷◌, ◌++◌, length};
ghost use Rattle.report.specs.Text.{decimal, refused_text, tiles_line, word_line, word_lines, report_text};
ghost use Rattle.report.specs.Written.{Put, Begins};

// Puts a text over `out` from `at` on, and answers where it ends.
fn put_text(out: &mut [u8], at: usize, text: &[u8]) -> usize
    requires { at + length text.now ≤ length out.old }
    ensures { Put out.old at text.now result out.new }
{
    let end = at + text.len();
    out[at..end].copy_from_slice(text);
    end
}

// Puts the decimal digits of n.
fn put_decimal(out: &mut [u8], at: usize, n: u64) -> usize
    requires { at + length (decimal n) ≤ length out.old }
    ensures { Put out.old at (decimal n) result out.new }
{
    let mut digits = [0u8; 20];
    let k = io::decimal(n, &mut digits);
    put_text(out, at, &digits[..k])
}

// Puts a text, the decimal digits of n and one byte more.
fn put_numbered(out: &mut [u8], at: usize, text: &[u8], n: u64, last: u8) -> usize
    requires { at + (length text.now + length (decimal n)) < length out.old }
    ensures { Put out.old at (text.now ++ decimal n ++ last ∷ []) result out.new }
{
    let digits = put_text(out, at, text);
    let end = put_decimal(out, digits, n);
    out[end] = last;
    end + 1
}

// Puts the line `refused n` at the start: a number, since that is what the line has.
pub fn put_refused(out: &mut [u8], number: u32) -> usize
    requires { 32 ≤ length out.old }
    ensures { Begins out.old (refused_text number) result out.new }
{
    put_numbered(out, 0, b"refused ", u64::from(number), b'\n')
}

// Puts the line `tiles t of total` at the start.
fn put_tiles(out: &mut [u8], t: u64, total: u64) -> usize
    requires { 64 ≤ length out.old }
    ensures { Begins out.old (tiles_line t total) result out.new }
{
    let at = put_numbered(out, 0, b"tiles ", t, b' ');
    put_numbered(out, at, b"of ", total, b'\n')
}

// Puts a line: a word and the letter of its state.
fn put_word(out: &mut [u8], at: usize, word: u32, letter: u8) -> usize
    requires { at + 13 ≤ length out.old }
    ensures { Put out.old at (word_line word letter) result out.new }
{
    let at = put_decimal(out, at, u64::from(word));
    put_text(out, at, &[b' ', letter, b'\n'])
}

// Puts a line for each word.
fn put_words(out: &mut [u8], at: usize, words: &[u32], letters: &[u8]) -> usize
    requires { (length letters.now ≡ length words.now) × (at + 13 * length words.now ≤ length out.old) }
    ensures { Put out.old at
        (word_lines words.now letters.now (length words.now)) result out.new }
{
    let mut end = at;
    for (word, letter) in words.iter().zip(letters) {
        end = put_word(out, end, *word, *letter);
    }
    end
}

// The answer of a call that ran: the tiles done, and each word with its letter.
pub fn put_report(out: &mut [u8], t: u64, total: u64, words: &[u32], letters: &[u8]) -> usize
    requires { (length letters.now ≡ length words.now) × (64 + 13 * length words.now ≤ length out.old) }
    ensures { Begins out.old (report_text t total words.now letters.now) result out.new }
{
    let at = put_tiles(out, t, total);
    put_words(out, at, words, letters)
}
