//! Lines of reports.

/// The record of `ONE_ANSWER`, heard at 100 s.
pub const AT_100: &str = "a.local A 192.0.2.1 ttl 120 heard 100.000000000 until 220.000000000\n";

/// The record of `ONE_ANSWER`, heard at 150 s.
pub const AT_150: &str = "a.local A 192.0.2.1 ttl 120 heard 150.000000000 until 270.000000000\n";

/// The records of `PRINTER`, heard at 100 s.
pub const PRINTED_LINES: &str =
    "_ipp._tcp.local PTR Office\\032Printer._ipp._tcp.local ttl 4500 heard 100.000000000 until 4600.000000000
printer.local A 192.0.2.10 ttl 120 heard 100.000000000 until 220.000000000
printer.local AAAA 2001:0db8:0000:0000:0000:0000:0000:0010 ttl 120 heard 100.000000000 until 220.000000000
Office\\032Printer._ipp._tcp.local TXT rp=ipp/print ttl 4500 heard 100.000000000 until 4600.000000000
Office\\032Printer._ipp._tcp.local SRV 0 0 631 printer.local ttl 120 heard 100.000000000 until 220.000000000
";

/// The lines of the printer's service instance.
pub const RESOLVED_LINES: &str = "Office\\032Printer._ipp._tcp.local
  server printer.local 631 priority 0 weight 0
    address 192.0.2.10
    address 2001:0db8:0000:0000:0000:0000:0000:0010
  text rp=ipp/print
";
