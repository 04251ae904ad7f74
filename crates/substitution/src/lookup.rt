// Bytes looked up in a table of 256.
ghost use Rattle.std.specs.Prelude.{◌≡◌, map, get_or};

// Every byte of a state replaced by the table's entry for it. The table is lent: it is set up once for all of the bytes.
pub fn look_up(table: &[u8; 256], s: [u8; 16]) -> [u8; 16]
    ensures { result ≡ map (λ b. get_or table.now b 0) s }
{
    let mut out = s;
    for b in &mut out {
        *b = table[*b as usize];
    }
    out
}
