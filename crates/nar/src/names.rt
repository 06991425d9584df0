//! Names of directory entries.

ghost use Rattle.std.specs.Prelude.{◌≡◌, ◌≤◌, true, length};
ghost use Rattle.std.specs.List.{list_all};
ghost use Rattle.model.specs.Archives.{is_entry_name, is_entry_byte, bytes_before, AreBytes};

/// Whether a text is the name of an entry: 1 to 255 bytes, neither "." nor "..", no zero byte and no
/// slash.
#[tactic(auto, unfolding(model::specs::Archives::is_entry_name))]
pub fn is_name(name: &[u8]) -> bool
    ensures test { result ≡ is_entry_name name.now }
    ensures bytes { AreBytes name.now }
    ensures short { result ≡ true → length name.now ≤ 255 }
{
    if name.is_empty() || name.len() > 255 {
        return false;
    }
    if name == b".".as_slice() || name == b"..".as_slice() {
        return false;
    }
    has_name_bytes(name)
}

fn has_name_bytes(name: &[u8]) -> bool
    ensures { result ≡ list_all is_entry_byte name.now }
{
    name.iter().all(|byte| *byte != 0 && *byte != b'/')
}

/// Whether one text stands before another in the order of bytes, which is that of a directory's
/// entries.
pub fn comes_before(first: &[u8], second: &[u8]) -> bool
    ensures { result ≡ bytes_before first.now second.now }
{
    first.cmp(second).is_lt()
}
