//! Zeros, written many at a time.

ghost use Rattle.std.specs.Prelude.{◌≡◌, ◌+◌, ◌-◌, ◌≤◌, ◌++◌, length, replicate, vec_len, vec_capacity};

/// How many zeros are written at a time.
const PIECE: usize = 4096;

/// They stand ready, as a list of them in a function would be written anew in each call.
static ZEROS: [u8; PIECE] = [0; PIECE];

/// Writes zeros behind the bytes until there are `end` bytes, for which there is room. Where there are as many already,
/// nothing changes.
pub fn fill_with_zeros(bytes: &mut Vec<u8>, end: usize)
    requires { end ≤ vec_capacity bytes.old }
    ensures items { bytes.new.items ≡ bytes.old.items ++ replicate (end - vec_len bytes.old) 0 }
    ensures end { end ≤ vec_len bytes.new }
    ensures longer { vec_len bytes.old ≤ vec_len bytes.new }
    ensures capacity { vec_capacity bytes.old ≤ vec_capacity bytes.new }
{
    while bytes.len() < end {
        let count = (end - bytes.len()).min(PIECE);
        add_zeros(bytes, count);
    }
}

/// Writes so many zeros behind the bytes, which have room for them.
fn add_zeros(bytes: &mut Vec<u8>, count: usize)
    requires few { count ≤ 4096 }
    requires room { vec_len bytes.old + count ≤ vec_capacity bytes.old }
    ensures items { bytes.new.items ≡ bytes.old.items ++ replicate count 0 }
    ensures capacity { vec_capacity bytes.old ≤ vec_capacity bytes.new }
{
    add(bytes, &ZEROS[..count]);
}

/// Writes a piece behind the bytes, which have room for it.
fn add(bytes: &mut Vec<u8>, piece: &[u8])
    requires { vec_len bytes.old + length piece.now ≤ vec_capacity bytes.old }
    ensures items { bytes.new.items ≡ bytes.old.items ++ piece.now }
    ensures capacity { vec_capacity bytes.old ≤ vec_capacity bytes.new }
{
    match bytes.extend_from_slice(piece) {
        Ok(()) => {}
        Err(_) => unreachable!(),
    }
}
