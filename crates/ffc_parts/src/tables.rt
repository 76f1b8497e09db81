//! Tables of names.
ghost use Rattle.std.specs.Prelude.{◌≡◌, map};
ghost use Rattle.ffc_smt.specs.Meaning.{found};

/// What a table has under a name: its first entry of that name counts.
pub(crate) fn found_in<T: Copy>(table: &[(&[u8], T)], name: &[u8]) -> Option<T>
    ensures { result ≡ found (map (λ e. (e.0.now, e.1)) table.now) name.now }
{
    for (text, value) in table {
        if *text == name {
            return Some(*value);
        }
    }
    None
}
