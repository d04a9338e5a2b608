//! Where a row of an address plan is cut: what it says of networks, and the name behind that.
ghost use Rattle.std.specs.Prelude.{◌≡◌, ◌≤◌, length};
ghost use Rattle.std.specs.List.{position_or_len};
ghost use Rattle.cidr_c.specs.calls.Plans.{gap_len, is_gap, is_hyphen, name_at, said_end, word_end};

/// Whether a byte parts words.
fn is_gap(byte: u8) -> bool
    ensures { result ≡ is_gap byte }
{
    byte.is_ascii_whitespace() || byte == b','
}

/// How many bytes at the front part words.
pub fn gap_len(text: &[u8]) -> usize
    ensures len { result ≡ gap_len text.now }
    ensures fits { result ≤ length text.now }
{
    text.iter()
        .position(|byte| !is_gap(*byte))
        .unwrap_or(text.len())
}

/// How many bytes stand before the first that parts words.
fn len_to_gap(text: &[u8]) -> usize
    ensures first { result ≡ position_or_len is_gap text.now }
    ensures fits { result ≤ length text.now }
{
    text.iter()
        .position(|byte| is_gap(*byte))
        .unwrap_or(text.len())
}

/// How many bytes stand before the first hyphen.
fn len_to_hyphen(text: &[u8]) -> usize
    ensures first { result ≡ position_or_len is_hyphen text.now }
    ensures fits { result ≤ length text.now }
{
    text.iter()
        .position(|byte| *byte == b'-')
        .unwrap_or(text.len())
}

/// Where the first word ends.
pub fn word_end(text: &[u8]) -> usize
    ensures end { result ≡ word_end text.now }
    ensures fits { result ≤ length text.now }
{
    let gap = gap_len(text);
    gap + len_to_gap(&text[gap..])
}

/// Where ends what a row says of networks: behind its first word; or, where the first hyphen stands in that or next behind
/// it, behind the word that follows the hyphen.
pub fn said_end(row: &[u8]) -> usize
    ensures end { result ≡ said_end row.now }
    ensures fits { result ≤ length row.now }
{
    let word = word_end(row);
    let hyphen = len_to_hyphen(row);
    if hyphen < row.len() && hyphen <= word + gap_len(&row[word..]) {
        let behind = hyphen + 1;
        return behind + word_end(&row[behind..]);
    }
    word
}

/// Where the name of a row begins.
pub fn name_at(row: &[u8]) -> usize
    ensures place { result ≡ name_at row.now }
    ensures fits { result ≤ length row.now }
{
    let said = said_end(row);
    said + gap_len(&row[said..])
}
