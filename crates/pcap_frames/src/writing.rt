//! Captures are written.

ghost use Rattle.std.specs.Prelude.{◌≡◌};
ghost use Rattle.tas_num.specs.Captures.{file_header, record_head, little_word};

/// Writes the file header of a capture: least significant byte first, microseconds, version 2.4, raw IP.
pub fn write_header(buf: &mut [u8; 24])
    ensures { buf.new ≡ file_header }
{
    *buf = [
        0xd4, 0xc3, 0xb2, 0xa1, 2, 0, 4, 0, 0, 0, 0, 0, 0, 0, 0, 0, 255, 255, 0, 0, 101, 0, 0, 0,
    ];
}

/// Writes what stands before a whole packet of `len` bytes: its time, `tick` in seconds with no fraction, and its
/// length twice.
pub fn write_record_head(tick: u32, len: u32, buf: &mut [u8; 16])
    ensures { buf.new ≡ record_head tick len }
{
    let [t0, t1, t2, t3] = word_bytes(tick);
    let [l0, l1, l2, l3] = word_bytes(len);
    *buf = [t0, t1, t2, t3, 0, 0, 0, 0, l0, l1, l2, l3, l0, l1, l2, l3];
}

/// A number's bytes, the least significant first.
fn word_bytes(n: u32) -> [u8; 4]
    ensures { result ≡ little_word n }
{
    [
        (n % 256) as u8,
        (n / 256 % 256) as u8,
        (n / 65536 % 256) as u8,
        (n / 16777216) as u8,
    ]
}
