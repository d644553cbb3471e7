//! Names in their wire form.

/// `local`
pub const LOCAL: &[u8] = b"\x05local\x00";

/// `a.local`
pub const A_LOCAL: &[u8] = b"\x01a\x05local\x00";

/// `A.LOCAL`
pub const CAPITAL_A_LOCAL: &[u8] = b"\x01A\x05LOCAL\x00";

/// `x.local`
pub const X_LOCAL: &[u8] = b"\x01x\x05local\x00";

/// The owner of the records that list the service types.
pub const TYPES: &[u8] = b"\x09_services\x07_dns-sd\x04_udp\x05local\x00";

/// `_ipp._tcp.local`
pub const IPP: &[u8] = b"\x04_ipp\x04_tcp\x05local\x00";

/// `Office Printer._ipp._tcp.local`
pub const OFFICE: &[u8] = b"\x0eOffice Printer\x04_ipp\x04_tcp\x05local\x00";

/// `printer.local`
pub const PRINTER_HOST: &[u8] = b"\x07printer\x05local\x00";

/// The owner at 220 of `LONGEST`, in its wire form of 256 octets.
pub const LONGEST_WIRE: &[u8] = b"\
    \x3faaaaaaaaaaaaaaaaaaaaaaaaaaaaaaaaaaaaaaaaaaaaaaaaaaaaaaaaaaaaaaa\
    \x3fbbbbbbbbbbbbbbbbbbbbbbbbbbbbbbbbbbbbbbbbbbbbbbbbbbbbbbbbbbbbbbb\
    \x3fccccccccccccccccccccccccccccccccccccccccccccccccccccccccccccccc\
    \x3edddddddddddddddddddddddddddddddddddddddddddddddddddddddddddddd\x00";
