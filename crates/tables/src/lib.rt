#![tactic(auto)]
// Tables of rows of one width, in one slice of bytes: the account keys and the nonces that a unit holds. Inner calls: a table has room
// for the rows that its count says. Kept: a table, its width and its count are three parameters, since the record's room is an array whose rows are
// named nowhere else.
ghost use Rattle.std.specs.Prelude.{◌≡◌, ◌*◌, ◌≤◌, ◌<◌, length, drop, get_or, []};
ghost use Rattle.tables.specs.Rows.{rows, among as is_among, distinct as are_distinct};

// The row at a place below the count.
pub fn row(table: &[u8], width: usize, count: usize, place: usize) -> &[u8]
    requires { (place < count) × (count * width ≤ length table.now) }
    ensures { result.now ≡ get_or (rows width count table.now) place [] }
{
    let at = place * width;
    &table[at..at + width]
}

// Whether these bytes are a row from a place up to the count.
pub fn among(bytes: &[u8], table: &[u8], width: usize, from: usize, count: usize) -> bool
    requires { (from ≤ count) × (count * width ≤ length table.now) }
    ensures { result ≡ is_among bytes.now (drop from (rows width count table.now)) }
{
    for i in from..count {
        if octets::same(bytes, row(table, width, count, i)) {
            return true;
        }
    }
    false
}

// Whether no two of the first `count` rows are equal: each is held against those after it.
pub fn distinct(table: &[u8], width: usize, count: usize) -> bool
    requires { count * width ≤ length table.now }
    ensures { result ≡ are_distinct (rows width count table.now) }
{
    for i in (0..count).rev() {
        if among(row(table, width, count, i), table, width, i + 1, count) {
            return false;
        }
    }
    true
}
