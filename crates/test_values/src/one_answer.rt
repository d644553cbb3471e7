//! One answer, and the frames and captures that carry it.

/// Joins byte strings, some of them named parts of a frame or a capture.
macro_rules! joined {
    ([$($done:literal,)*]) => {
        [$($done,)*]
    };
    ([$($done:literal,)*] answer $($rest:tt)*) => {
        joined!([$($done,)*
            0x00, 0x00, 0x84, 0x00, 0x00, 0x00, 0x00, 0x01, 0x00, 0x00, 0x00, 0x00, 0x01, 0x61, 0x05, 0x6c,
            0x6f, 0x63, 0x61, 0x6c, 0x00, 0x00, 0x01, 0x00, 0x01, 0x00, 0x00, 0x00, 0x78, 0x00, 0x04, 0xc0,
            0x00, 0x02, 0x01,
        ] $($rest)*)
    };
    ([$($done:literal,)*] over_ipv4 $($rest:tt)*) => {
        joined!([$($done,)*
            0x01, 0x00, 0x5e, 0x00, 0x00, 0xfb, 0x02, 0x00, 0x00, 0x00, 0x00, 0x01, 0x08, 0x00, 0x45, 0x00,
            0x00, 0x3f, 0x00, 0x00, 0x00, 0x00, 0xff, 0x11, 0x00, 0x00, 0xc0, 0x00, 0x02, 0x01, 0xe0, 0x00,
            0x00, 0xfb, 0x14, 0xe9, 0x14, 0xe9, 0x00, 0x2b, 0x00, 0x00,
        ] answer $($rest)*)
    };
    ([$($done:literal,)*] over_ipv6 $($rest:tt)*) => {
        joined!([$($done,)*
            0x33, 0x33, 0x00, 0x00, 0x00, 0xfb, 0x02, 0x00, 0x00, 0x00, 0x00, 0x01, 0x86, 0xdd, 0x60, 0x00,
            0x00, 0x00, 0x00, 0x2b, 0x11, 0xff, 0xfe, 0x80, 0x00, 0x00, 0x00, 0x00, 0x00, 0x00, 0x00, 0x00,
            0x00, 0x00, 0x00, 0x00, 0x00, 0x01, 0xff, 0x02, 0x00, 0x00, 0x00, 0x00, 0x00, 0x00, 0x00, 0x00,
            0x00, 0x00, 0x00, 0x00, 0x00, 0xfb, 0x14, 0xe9, 0x14, 0xe9, 0x00, 0x2b, 0x00, 0x00,
        ] answer $($rest)*)
    };
    ([$($done:literal,)*] little_endian $($rest:tt)*) => {
        joined!([$($done,)*
            0xd4, 0xc3, 0xb2, 0xa1, 0x02, 0x00, 0x04, 0x00, 0x00, 0x00, 0x00, 0x00, 0x00, 0x00, 0x00, 0x00,
            0x00, 0x00, 0x04, 0x00, 0x01, 0x00, 0x00, 0x00,
        ] $($rest)*)
    };
    ([$($done:literal,)*] [$($part:literal,)*] $($rest:tt)*) => {
        joined!([$($done,)* $($part,)*] $($rest)*)
    };
}

/// A message: `a.local` has the address 192.0.2.1, TTL 120 s.
///
/// - at 0: header: 0 questions, 1 answer, 0 authority, 0 additional
/// - at 12: `a.local`
/// - at 21: A, IN, TTL 120, 4 bytes of data
/// - at 31: 192.0.2.1
pub const ONE_ANSWER: [u8; 35] = joined!([] answer);

/// The answer in a frame of IPv4.
///
/// | Offset | Bytes | What |
/// |---|---|---|
/// | 0 | `01005e0000fb 020000000001 0800` | Ethernet: to the group, IPv4 |
/// | 14 | `45 00 003f 0000 0000 ff 11 0000` | IPv4: 5 words, 63 bytes, whole, UDP |
/// | 26 | `c0000201 e00000fb` | from 192.0.2.1 to 224.0.0.251 |
/// | 34 | `14e9 14e9 002b 0000` | UDP: 5353 to 5353, 43 bytes |
/// | 42 | | the answer |
pub const IN_IPV4: [u8; 77] = joined!([] over_ipv4);

/// The answer in a frame of IPv6.
///
/// | Offset | Bytes | What |
/// |---|---|---|
/// | 0 | `3333000000fb 020000000001 86dd` | Ethernet: to the group, IPv6 |
/// | 14 | `60000000 002b 11 ff` | IPv6: 43 bytes, UDP |
/// | 22 | `fe80:: .. 01`, `ff02:: .. fb` | from a link-local address to FF02::FB |
/// | 54 | `14e9 14e9 002b 0000` | UDP: 5353 to 5353, 43 bytes |
/// | 62 | | the answer |
pub const IN_IPV6: [u8; 97] = joined!([] over_ipv6);

/// One packet, little-endian, in microseconds.
///
/// | Offset | Bytes | What |
/// |---|---|---|
/// | 0 | `d4c3b2a1 0200 0400` | magic, version 2.4 |
/// | 8 | `00000000 00000000 00000400 01000000` | reserved, snapshot length, Ethernet |
/// | 24 | `64000000 00000000 4d000000 4d000000` | 100 s, 77 bytes captured of 77 |
/// | 40 | | the frame of IPv4 |
pub const ONE_PACKET: [u8; 117] = joined!([] little_endian
    [0x64, 0, 0, 0, 0, 0, 0, 0, 0x4d, 0, 0, 0, 0x4d, 0, 0, 0,] over_ipv4);

/// Three packets of the frame of IPv4, big-endian, in nanoseconds.
///
/// | Offset | Bytes | What |
/// |---|---|---|
/// | 0 | `a1b23c4d 0002 0004` | magic, version 2.4 |
/// | 8 | `00000000 00000000 00040000 00000001` | reserved, snapshot length, Ethernet |
/// | 24 | `00000064 00000000 0000004d 0000004d` | 100 s |
/// | 117 | `00000065 00000001 0000004d 0000004d` | 101 s and 1 ns |
/// | 210 | `00000066 00000000 0000004d 0000004d` | 102 s |
pub const THREE_PACKETS: [u8; 303] = joined!([]
    [0xa1, 0xb2, 0x3c, 0x4d, 0, 2, 0, 4, 0, 0, 0, 0, 0, 0, 0, 0, 0, 4, 0, 0, 0, 0, 0, 1,]
    [0, 0, 0, 0x64, 0, 0, 0, 0, 0, 0, 0, 0x4d, 0, 0, 0, 0x4d,] over_ipv4
    [0, 0, 0, 0x65, 0, 0, 0, 1, 0, 0, 0, 0x4d, 0, 0, 0, 0x4d,] over_ipv4
    [0, 0, 0, 0x66, 0, 0, 0, 0, 0, 0, 0, 0x4d, 0, 0, 0, 0x4d,] over_ipv4);
