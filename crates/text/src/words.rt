// The words of a line: spaces and tabs part them, as many as stand there.
ghost use Rattle.std.specs.Prelude.{◌≡◌, Bool, true, false, length};
ghost use Rattle.text.specs.Words.{is_gap, First, WordAt, WordEnd, unreturned};

// Does c part words?
fn is_gap(c: u8) -> bool
    ensures { result ≡ is_gap c }
{
    c == b' ' || c == b'\t'
}

// The first place from `at` on that parts words, or with `gap` false the first that does not; the line's end where there is none.
fn first(gap: bool, line: &[u8], at: usize) -> usize
    ensures { First gap at line.now result }
{
    for i in at..line.len() {
        if is_gap(line[i]) == gap {
            return i;
        }
    }
    line.len()
}

// Where the word that is next from `at` on ends.
pub fn word_end(line: &[u8], at: usize) -> usize
    ensures { WordEnd at line.now result }
{
    first(true, line, first(false, line, at))
}

// The word that is next from `at` on; empty where there is none.
pub fn word_at(line: &[u8], at: usize) -> &[u8]
    ensures { WordAt at line.now result.now }
{
    let start = first(false, line, at);
    let end = first(true, line, start);
    &line[start..end]
}

// The line without the carriage return at its end, if there is one.
pub fn without_return(line: &[u8]) -> &[u8]
    ensures { result.now ≡ unreturned line.now }
{
    match line {
        [front @ .., b'\r'] => front,
        _ => line,
    }
}
